// Ordinary PL/I that this language leaves out, and what to write instead.

use std::alloc::AllocError;

/// A form by the word that a refusal of it stands at, a word that the statement has behind it, or none, and what to
/// write instead.
#[derive(Clone, Copy)]
struct Form {
    at: &'static str,
    has: &'static str,
    instead: &'static str,
}

impl Form {
    // Whether a word is one of the form's, or both of them, in letters of either case.
    fn is_of(&self, word: &str) -> bool {
        let word = word.as_bytes();
        let (at, has) = (self.at.as_bytes(), self.has.as_bytes());
        let (front, behind) = word.split_at(at.len().min(word.len()));
        if front.eq_ignore_ascii_case(at) {
            let behind = behind.trim_ascii_start();
            return behind.is_empty() || behind.eq_ignore_ascii_case(has);
        }
        !has.is_empty() && has.eq_ignore_ascii_case(word)
    }
}

const FORMS: [Form; 88] = [
    Form {
        at: "PUT",
        has: "PAGE",
        instead: "PUT SKIP; the output has lines, and no pages",
    },
    Form {
        at: "PUT",
        has: "LIST",
        instead: "EDIT with a format: PUT SKIP EDIT (X) (F(6))",
    },
    Form {
        at: "PUT",
        has: "DATA",
        instead: "EDIT with a format: PUT SKIP EDIT ('X=', X) (A, F(6))",
    },
    Form {
        at: "PUT",
        has: "LINE",
        instead: "PUT SKIP(n)",
    },
    Form {
        at: "PUT",
        has: "FILE",
        instead: "PUT without FILE: there is one output",
    },
    Form {
        at: "PUT",
        has: "STRING",
        instead: "assign the text: numbers convert to texts",
    },
    Form {
        at: "GET",
        has: "LIST",
        instead: "EDIT with a format: GET EDIT (X) (F(6))",
    },
    Form {
        at: "GET",
        has: "DATA",
        instead: "EDIT with a format: GET EDIT (X) (F(6))",
    },
    Form {
        at: "GET",
        has: "FILE",
        instead: "GET without FILE: there is one input",
    },
    Form {
        at: "GET",
        has: "STRING",
        instead: "convert the text: X = SUBSTR(T, 1, 4)",
    },
    Form {
        at: "LIST",
        has: "",
        instead: "EDIT with a format: EDIT (X) (F(6))",
    },
    Form {
        at: "DATA",
        has: "",
        instead: "EDIT with a format: EDIT (X) (F(6))",
    },
    Form {
        at: "DO",
        has: "UNTIL",
        instead: "a test at the end: L: DO WHILE ('1'B); ..; IF X THEN GOTO DONE; END L; DONE: ;",
    },
    Form {
        at: "DO",
        has: "REPEAT",
        instead: "DO WHILE, with an assignment at the end",
    },
    Form {
        at: "DO",
        has: "FOREVER",
        instead: "DO WHILE ('1'B)",
    },
    Form {
        at: "DO",
        has: "LOOP",
        instead: "DO WHILE ('1'B)",
    },
    Form {
        at: "ITERATE",
        has: "",
        instead: "GOTO a label in front of the group's END",
    },
    Form {
        at: "LEAVE",
        has: "",
        instead: "GOTO a label behind the group",
    },
    Form {
        at: "SELECT",
        has: "",
        instead: "IF and ELSE IF",
    },
    Form {
        at: "WHEN",
        has: "",
        instead: "IF and ELSE IF",
    },
    Form {
        at: "OTHERWISE",
        has: "",
        instead: "ELSE",
    },
    Form {
        at: "ON",
        has: "CONVERSION",
        instead: "ON ERROR, and ONCODE() = 104",
    },
    Form {
        at: "SIGNAL",
        has: "CONVERSION",
        instead: "SIGNAL ERROR",
    },
    Form {
        at: "REVERT",
        has: "CONVERSION",
        instead: "REVERT ERROR",
    },
    Form {
        at: "ON",
        has: "SUBSCRIPTRANGE",
        instead: "ON ERROR, and ONCODE() = 102: subscripts are always tested",
    },
    Form {
        at: "ON",
        has: "STRINGRANGE",
        instead: "ON ERROR, and ONCODE() = 103: SUBSTR is always tested",
    },
    Form {
        at: "ON",
        has: "OVERFLOW",
        instead: "ON FIXEDOVERFLOW",
    },
    Form {
        at: "ON",
        has: "SIZE",
        instead: "ON FIXEDOVERFLOW",
    },
    Form {
        at: "ON",
        has: "UNDERFLOW",
        instead: "nothing: numbers are whole",
    },
    Form {
        at: "ON",
        has: "STRINGSIZE",
        instead: "a test of LENGTH: a text that is too long is cut",
    },
    Form {
        at: "ON",
        has: "KEY",
        instead: "nothing: there are no files",
    },
    Form {
        at: "ON",
        has: "RECORD",
        instead: "nothing: there are no files",
    },
    Form {
        at: "ON",
        has: "TRANSMIT",
        instead: "nothing: there are no files",
    },
    Form {
        at: "ON",
        has: "UNDEFINEDFILE",
        instead: "nothing: there are no files",
    },
    Form {
        at: "ON",
        has: "ENDPAGE",
        instead: "nothing: the output has no pages",
    },
    Form {
        at: "ON",
        has: "FINISH",
        instead: "statements in front of the main procedure's END",
    },
    Form {
        at: "ON",
        has: "CONDITION",
        instead: "a variable that is tested, or SIGNAL ERROR",
    },
    Form {
        at: "ON",
        has: "ENDFILE",
        instead: "ENDFILE(SYSIN)",
    },
    Form {
        at: "SNAP",
        has: "",
        instead: "ON ERROR without SNAP",
    },
    Form {
        at: "DECIMAL",
        has: "",
        instead: "FIXED BINARY(31), counted in the smallest unit",
    },
    Form {
        at: "DEC",
        has: "",
        instead: "FIXED BINARY(31), counted in the smallest unit",
    },
    Form {
        at: "FLOAT",
        has: "",
        instead: "FIXED BINARY(31), counted in the smallest unit",
    },
    Form {
        at: "REAL",
        has: "",
        instead: "FIXED BINARY(31)",
    },
    Form {
        at: "COMPLEX",
        has: "",
        instead: "two variables of FIXED BINARY(31)",
    },
    Form {
        at: "PICTURE",
        has: "",
        instead: "CHARACTER, or FIXED BINARY and PUT with F",
    },
    Form {
        at: "PIC",
        has: "",
        instead: "CHARACTER, or FIXED BINARY and PUT with F",
    },
    Form {
        at: "BIT",
        has: "",
        instead: "an array of BIT(1)",
    },
    Form {
        at: "FILE",
        has: "",
        instead: "GET and PUT without FILE: there is one input and one output",
    },
    Form {
        at: "OPEN",
        has: "",
        instead: "nothing: the input and the output are open",
    },
    Form {
        at: "CLOSE",
        has: "",
        instead: "nothing: the input and the output are closed at the end",
    },
    Form {
        at: "READ",
        has: "",
        instead: "GET EDIT",
    },
    Form {
        at: "WRITE",
        has: "",
        instead: "PUT EDIT",
    },
    Form {
        at: "REWRITE",
        has: "",
        instead: "PUT EDIT",
    },
    Form {
        at: "DELETE",
        has: "",
        instead: "FREE",
    },
    Form {
        at: "LOCATE",
        has: "",
        instead: "ALLOCATE",
    },
    Form {
        at: "DISPLAY",
        has: "",
        instead: "PUT EDIT",
    },
    Form {
        at: "FORMAT",
        has: "",
        instead: "the format behind each data list",
    },
    Form {
        at: "ENTRY",
        has: "",
        instead: "an internal procedure, which is called by its name",
    },
    Form {
        at: "LABEL",
        has: "",
        instead: "GOTO to a label that stands there",
    },
    Form {
        at: "EXTERNAL",
        has: "",
        instead: "STATIC, in the one outer procedure",
    },
    Form {
        at: "EXT",
        has: "",
        instead: "STATIC, in the one outer procedure",
    },
    Form {
        at: "DEFINED",
        has: "",
        instead: "a BASED variable and ADDR",
    },
    Form {
        at: "DEFAULT",
        has: "",
        instead: "the attributes in each DECLARE",
    },
    Form {
        at: "EXIT",
        has: "",
        instead: "STOP",
    },
    Form {
        at: "LIKE",
        has: "",
        instead: "the members written out, as in the other structure",
    },
    Form {
        at: "UNION",
        has: "",
        instead: "a structure, or a BASED variable and ADDR",
    },
    Form {
        at: "VALUE",
        has: "",
        instead: "a variable with INITIAL",
    },
    Form {
        at: "SQRT",
        has: "",
        instead: "a loop of whole numbers",
    },
    Form {
        at: "DATE",
        has: "",
        instead: "a line of the input that has it",
    },
    Form {
        at: "TIME",
        has: "",
        instead: "a line of the input that has it",
    },
    Form {
        at: "TRIM",
        has: "",
        instead: "SUBSTR with VERIFY or LENGTH, or a VARYING variable",
    },
    Form {
        at: "REPEAT",
        has: "",
        instead: "a DO loop with ||",
    },
    Form {
        at: "TRANSLATE",
        has: "",
        instead: "a DO loop with INDEX and SUBSTR",
    },
    Form {
        at: "UPPERCASE",
        has: "",
        instead: "a DO loop with INDEX and SUBSTR",
    },
    Form {
        at: "LOWERCASE",
        has: "",
        instead: "a DO loop with INDEX and SUBSTR",
    },
    Form {
        at: "DIMENSION",
        has: "",
        instead: "DIM",
    },
    Form {
        at: "LINENO",
        has: "",
        instead: "a counter of your own",
    },
    Form {
        at: "UNSPEC",
        has: "",
        instead: "variables of their own",
    },
    Form {
        at: "SUM",
        has: "",
        instead: "a DO loop that adds",
    },
    Form {
        at: "PROD",
        has: "",
        instead: "a DO loop that multiplies",
    },
    Form {
        at: "ROUND",
        has: "",
        instead: "nothing: numbers are whole; (X + 5) / 10 rounds tenths",
    },
    Form {
        at: "FLOOR",
        has: "",
        instead: "nothing: numbers are whole",
    },
    Form {
        at: "CEIL",
        has: "",
        instead: "nothing: numbers are whole",
    },
    Form {
        at: "TRUNC",
        has: "",
        instead: "nothing: a quotient has no fraction",
    },
    Form {
        at: "COPY",
        has: "",
        instead: "a DO loop with ||",
    },
    Form {
        at: "REVERSE",
        has: "",
        instead: "a DO loop with SUBSTR",
    },
    Form {
        at: "*",
        has: "PROCESS",
        instead: "nothing: take the line out, there are no options of the compiler",
    },
    Form {
        at: "*",
        has: "*",
        instead: "a loop that multiplies",
    },
];

/// The words of what is left of a statement: names and numbers whole, texts whole, and other bytes one by one.
#[derive(Clone, Copy)]
pub(crate) struct Words<'a> {
    pub rest: &'a [u8],
}

fn is_of_a_word(byte: u8) -> bool {
    byte.is_ascii_alphanumeric() || byte == b'_'
}

// How many bytes the first word of some has: at least one, where there are any.
fn length_of_word(bytes: &[u8]) -> usize {
    match bytes.first() {
        Some(b'\'') => {
            let inside = bytes.iter().skip(1).position(|byte| *byte == b'\'');
            inside.map_or(bytes.len(), |end| end.saturating_add(2))
        }
        Some(byte) if is_of_a_word(*byte) => {
            let end = bytes.iter().position(|byte| !is_of_a_word(*byte));
            end.unwrap_or(bytes.len())
        }
        Some(_) => 1,
        None => 0,
    }
}

impl<'a> Words<'a> {
    /// The next word, up to the statement's semicolon.
    pub fn take(&mut self) -> Option<&'a [u8]> {
        let rest = self.rest.trim_ascii_start();
        let (word, behind) = rest.split_at(length_of_word(rest).min(rest.len()));
        self.rest = behind;
        match word {
            [] | [b';'] => None,
            _ => Some(word),
        }
    }

    /// Whether one of the words is this one.
    pub fn have(self, wanted: &str) -> bool {
        let mut left = self;
        // (a word has one byte at least)
        for _ in 0..self.rest.len() {
            match left.take() {
                Some(word) if word.eq_ignore_ascii_case(wanted.as_bytes()) => return true,
                Some(_) => {}
                None => return false,
            }
        }
        false
    }
}

/// What to write instead of a form that begins where a statement was refused.
pub(crate) fn instead_of(rest: &[u8]) -> Option<&'static str> {
    let mut words = Words { rest };
    let first = words.take()?;
    for form in FORMS.iter() {
        if first.eq_ignore_ascii_case(form.at.as_bytes())
            && (form.has.is_empty() || words.have(form.has))
        {
            return Some(form.instead);
        }
    }
    None
}

/// Adds what to write instead of each form that a word is of.
pub(crate) fn push_forms(text: &mut String, word: &str) -> Result<(), AllocError> {
    for form in FORMS.iter() {
        if form.is_of(word) {
            let Form { at, has, instead } = *form;
            let between = if has.is_empty() { "" } else { " " };
            writeln!(text, "Left out: {at}{between}{has}\nInstead: {instead}.")?;
        }
    }
    Ok(())
}
