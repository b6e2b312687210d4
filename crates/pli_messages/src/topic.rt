// What is told of a refusal, an error of a run or a limit beyond its line: the usual cause, and what to do.

ghost use Rattle.std.specs.Prelude.{◌≡◌, IfSome, MatchOption};
ghost use Rattle.pli_language.specs.declared.fault.SourceKind.TheVariants.{Memory};
ghost use Rattle.pli_messages.specs.Numbers.{number_of};

use pli_language::fault::SourceKind;
use std::alloc::AllocError;
use std::fmt;

/// A refusal, an error or a limit: its number, 0 where it has none, and its name, which is empty where it has none;
/// the usual cause; a piece of a source that comes to it, or none; and what to do.
#[derive(Clone, Copy, Debug)]
pub struct Topic {
    pub number: u16,
    pub name: &'static str,
    pub cause: &'static str,
    pub example: &'static str,
    pub remedy: &'static str,
}

impl Topic {
    /// Whether a word is the topic's number or its name, in letters of either case.
    pub fn is_called(&self, word: &str) -> bool {
        if self.number != 0 && word.parse::<u16>() == Ok(self.number) {
            return true;
        }
        !self.name.is_empty() && self.name.eq_ignore_ascii_case(word)
    }

    /// Adds number and name, each behind a blank, where they are there.
    pub(crate) fn push_title(&self, text: &mut String) -> Result<(), AllocError> {
        let Topic { number, name, .. } = *self;
        if number != 0 {
            write!(text, " {number}")?;
        }
        if !name.is_empty() {
            write!(text, " {name}")?;
        }
        Ok(())
    }

    /// Adds the example on a line of its own, where there is one.
    pub(crate) fn push_example(&self, text: &mut String) -> Result<(), AllocError> {
        let example = self.example;
        if example.is_empty() {
            return Ok(());
        }
        writeln!(text, "Example: {example}")
    }
}

impl fmt::Display for Topic {
    fn fmt<W: fmt::Write>(&self, f: &mut fmt::Formatter<W>) -> fmt::Result {
        let Topic { cause, remedy, .. } = *self;
        write!(f, "Usual cause: {cause}.\nWhat to do: {remedy}.")
    }
}

/// What is told of a refusal; nothing of want of memory, which is none.
pub fn refusal(kind: SourceKind) -> Option<Topic>
    ensures { MatchOption result (kind ≡ Memory) (λ topic. topic.number ≡ number_of kind) }
{
    let number = usize::from(kind as u8);
    REFUSALS.get(number.checked_sub(1)?).copied()
}

/// What is told of an error of a run by its code; nothing of a code that no error has.
pub fn error(code: u16) -> Option<Topic>
    ensures { IfSome result (λ topic. topic.number ≡ code) }
{
    ERRORS.iter().find(|topic| topic.number == code).copied()
}

/// What is told of a limit by its name.
pub fn limit(name: &str) -> Option<Topic> {
    LIMITS.iter().find(|topic| topic.name == name).copied()
}

/// Why a source is refused, by number.
pub const REFUSALS: [Topic; 20] = [
    Topic {
        number: 1,
        name: "BadByte",
        cause: "a character that PL/I here has not",
        example: "IF X ¬= Y, \"TEXT\", %INCLUDE",
        remedy: "write ^, single quotes; join files first",
    },
    Topic {
        number: 2,
        name: "UnclosedComment",
        cause: "*/ is missing",
        example: "/* TOTALS",
        remedy: "close it; comments don't nest",
    },
    Topic {
        number: 3,
        name: "UnclosedText",
        cause: "a text goes over its line's end, or a quote in it isn't doubled",
        example: "'DON'T'",
        remedy: "double it; join texts with ||",
    },
    Topic {
        number: 4,
        name: "TooLong",
        cause: "a name of over 31 characters, a number above 2147483647, a text of over 1,024 bytes, a source of over 1 MiB or 10,000 tokens",
        example: "I = 3000000000;",
        remedy: "shorten it; cut the program",
    },
    Topic {
        number: 5,
        name: "Syntax",
        cause: "no statement of this language begins here, or it is left unfinished; a semicolon or END is missing before",
        example: "PUT PAGE;, X += 1;",
        remedy: "look at the statement and at the end of the one before it",
    },
    Topic {
        number: 6,
        name: "EndName",
        cause: "the name behind END isn't a label of what it closes: often an END is missing before",
        example: "L: DO; END M;",
        remedy: "name what is closed, or nothing",
    },
    Topic {
        number: 7,
        name: "Undeclared",
        cause: "a name without a declaration; a built-in that isn't there",
        example: "C = TRIM(C);",
        remedy: "declare it; see the built-ins",
    },
    Topic {
        number: 8,
        name: "Ambiguous",
        cause: "a member's name alone, where two structures have it",
        example: "M = 1;",
        remedy: "write S.M",
    },
    Topic {
        number: 9,
        name: "DeclaredTwice",
        cause: "a name twice in one block, also as a label or procedure",
        example: "DCL X PTR; X: STOP;",
        remedy: "rename one",
    },
    Topic {
        number: 10,
        name: "BadAttributes",
        cause: "attributes that clash, a missing kind, a value of INITIAL that doesn't fit",
        example: "DCL R FIXED CHAR(1);",
        remedy: "see BadAttributes in LANGUAGE",
    },
    Topic {
        number: 11,
        name: "LeftOut",
        cause: "a form of PL/I that this language leaves out",
        example: "PUT LIST (X);",
        remedy: "see Porting in GUIDE",
    },
    Topic {
        number: 12,
        name: "TypeMismatch",
        cause: "a value that doesn't convert to what its place wants; RETURN with a value from a procedure without RETURNS",
        example: "B = 1; for a BIT",
        remedy: "convert it by hand: B = X > 0",
    },
    Topic {
        number: 13,
        name: "BadExtent",
        cause: "a bound, length or size that may not stand there, or is out of range",
        example: "DCL R(5:3) PTR;",
        remedy: "constants for STATIC and BASED; nothing of the same block for AUTOMATIC",
    },
    Topic {
        number: 14,
        name: "BadLabel",
        cause: "GOTO to no label, into a group, or out of an on-unit into a group",
        example: "GOTO L; with L in a DO",
        remedy: "put the label in front of the group, behind it, or around it: a GOTO goes on in its own list or in one around",
    },
    Topic {
        number: 15,
        name: "BadArguments",
        cause: "too many or too few arguments or subscripts, or an aggregate that doesn't match",
        example: "A(1, 2) of one dimension",
        remedy: "count them; * extents take any",
    },
    Topic {
        number: 16,
        name: "NestedArea",
        cause: "an area that is an array, a member, BASED or CONTROLLED",
        example: "DCL 1 S, 2 A AREA(64);",
        remedy: "an area by itself",
    },
    Topic {
        number: 17,
        name: "BadRefer",
        cause: "REFER outside the last member of a BASED structure",
        example: "DCL A(N REFER (N)) PTR;",
        remedy: "see Extents in LANGUAGE",
    },
    Topic {
        number: 18,
        name: "NoMain",
        cause: "no outer procedure, more than one, or one without OPTIONS(MAIN) or with parameters",
        example: "MAIN: PROC; END;",
        remedy: "OPTIONS(MAIN); put the others inside",
    },
    Topic {
        number: 19,
        name: "TooLarge",
        cause: "a limit of nesting, parentheses, dimensions, parameters, arguments or STATIC data",
        example: "",
        remedy: "see Limits in LANGUAGE",
    },
    Topic {
        number: 20,
        name: "BadFormat",
        cause: "a width or count out of its range, A without a width in GET, a list without F and A",
        example: "GET EDIT (C) (A);",
        remedy: "give a width",
    },
];

/// Why a run ends with an error, by the condition's code, with the condition's name where it isn't ERROR.
pub const ERRORS: [Topic; 16] = [
    Topic {
        number: 10,
        name: "AREA",
        cause: "an area has no gap for ALLOCATE, or a copy doesn't fit",
        example: "",
        remedy: "a larger area; ON AREA that frees, or leaves by GOTO",
    },
    Topic {
        number: 20,
        name: "FIXEDOVERFLOW",
        cause: "a number outside its precision: FIXED BINARY alone has 15 bits",
        example: "",
        remedy: "FIXED BINARY(31); ON FIXEDOVERFLOW",
    },
    Topic {
        number: 30,
        name: "ZERODIVIDE",
        cause: "a quotient, MOD or DIVIDE by 0",
        example: "",
        remedy: "test it; ON ZERODIVIDE",
    },
    Topic {
        number: 40,
        name: "ENDFILE",
        cause: "GET behind the end of the input",
        example: "",
        remedy: "ON ENDFILE(SYSIN)",
    },
    Topic {
        number: 101,
        name: "",
        cause: "a locator to nothing live of that shape: null, freed, ended with its block, another precision or bound; a CONTROLLED variable that isn't allocated",
        example: "",
        remedy: "follow where the locator was set; both declarations must have equal leaves",
    },
    Topic {
        number: 102,
        name: "",
        cause: "a subscript outside its bounds",
        example: "",
        remedy: "test it by LBOUND and HBOUND",
    },
    Topic {
        number: 103,
        name: "",
        cause: "SUBSTR from 0, or past the end",
        example: "",
        remedy: "test LENGTH first",
    },
    Topic {
        number: 104,
        name: "",
        cause: "a text that is no number (or bit), in an assignment or in a field of GET",
        example: "",
        remedy: "look for lines that are shorter than the format",
    },
    Topic {
        number: 105,
        name: "",
        cause: "a number that is wider than its F field",
        example: "",
        remedy: "a wider field",
    },
    Topic {
        number: 106,
        name: "",
        cause: "the heap is full: 1 MiB",
        example: "",
        remedy: "FREE what isn't used; an area",
    },
    Topic {
        number: 107,
        name: "",
        cause: "an extent out of its range as it is evaluated, or a REFER member above what was allocated",
        example: "",
        remedy: "test what the extent is made from; only lower a REFER member",
    },
    Topic {
        number: 108,
        name: "",
        cause: "|| makes a text of over 1,024 bytes",
        example: "",
        remedy: "join less at once",
    },
    Topic {
        number: 109,
        name: "",
        cause: "arrays or structures of unequal bounds are assigned",
        example: "",
        remedy: "test them by HBOUND; assign element by element",
    },
    Topic {
        number: 110,
        name: "",
        cause: "a pointer that isn't into that area becomes an OFFSET; FREE of what wasn't allocated, or IN another area",
        example: "",
        remedy: "name the area that it was allocated in",
    },
    Topic {
        number: 112,
        name: "",
        cause: "a function comes to its END",
        example: "",
        remedy: "RETURN a value on each way",
    },
    Topic {
        number: 199,
        name: "",
        cause: "SIGNAL ERROR",
        example: "",
        remedy: "ON ERROR",
    },
];

/// Where a run can't go on.
pub const LIMITS: [Topic; 4] = [
    Topic {
        number: 0,
        name: "BOUND",
        cause: "a loop without an end, or a long run: 1000000000 instructions are allowed",
        example: "",
        remedy: "--bound N",
    },
    Topic {
        number: 0,
        name: "DEPTH",
        cause: "a recursion without an end: 500 blocks may be active, on-units among them",
        example: "",
        remedy: "a loop in place of the recursion",
    },
    Topic {
        number: 0,
        name: "AUTOMATIC",
        cause: "AUTOMATIC variables and copies of arguments of over 1 MiB, each rounded up to 16 bytes and 16 more",
        example: "",
        remedy: "STATIC, or an area",
    },
    Topic {
        number: 0,
        name: "MEMORY",
        cause: "the host has none left; what was printed up to there is the program's",
        example: "",
        remedy: "a smaller bound, or less output",
    },
];
