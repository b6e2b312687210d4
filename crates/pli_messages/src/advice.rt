// What to write instead of what was refused at a place of a source.

use crate::ordinary::{Words, instead_of};
use crate::place::at_column;
use pli_language::fault::SourceKind;
use std::alloc::AllocError;

const NO_NUMBERS: &str =
    "columns 73 to 80 count like all others: --margins 2,72 makes blanks of column 1 and sequence numbers";

const NO_PREPROCESSOR: &str =
    "put the files together first, and take out other lines with %: there is no preprocessor";

const NO_MARK: &str = "take out the byte order mark at the file's start";

const NO_END: &str = "take out the Ctrl-Z at the file's end";

const SIGNS_OF_NOT: &str = "^ for not, ^= for not equal, || to join texts";

const SINGLE_QUOTES: &str = "texts stand in single quotes: 'TEXT'";

const ARRAY_ALONE: &str = "the array's name alone, as in A = 0, or a loop";

/// What is left out and begins no statement: the names that it is asked by, and what to write instead.
#[derive(Clone, Copy)]
struct Sign {
    names: [&'static str; 3],
    instead: &'static str,
}

const SIGNS: [Sign; 7] = [
    Sign {
        names: ["%INCLUDE", "INCLUDE", "%"],
        instead: NO_PREPROCESSOR,
    },
    Sign {
        names: ["BOM", "BYTE ORDER MARK", "UTF-8"],
        instead: NO_MARK,
    },
    Sign {
        names: ["Ctrl-Z", "^Z", "EOF"],
        instead: NO_END,
    },
    Sign {
        names: ["sequence numbers", "sequence", "columns"],
        instead: NO_NUMBERS,
    },
    Sign {
        names: ["A(*) = 0", "A(*)", "(*)"],
        instead: ARRAY_ALONE,
    },
    Sign {
        names: ["\u{ac}", "~", "NOT"],
        instead: SIGNS_OF_NOT,
    },
    Sign {
        names: ["\"", "quotes", "double quotes"],
        instead: SINGLE_QUOTES,
    },
];

/// Adds what to write instead of each sign that a word is a name of.
pub(crate) fn push_signs(text: &mut String, word: &str) -> Result<(), AllocError> {
    for sign in SIGNS.iter() {
        let Sign { names, instead } = *sign;
        if names.iter().any(|name| name.eq_ignore_ascii_case(word)) {
            let [name, ..] = names;
            writeln!(text, "Left out: {name}\nInstead: {instead}.")?;
        }
    }
    Ok(())
}

// What to write instead of a byte that begins no token.
fn instead_of_byte(byte: u8) -> Option<&'static str> {
    match byte {
        b'"' => Some(SINGLE_QUOTES),
        b'!' | b'~' | 0xac | 0xc2 => Some(SIGNS_OF_NOT),
        b'%' => Some(NO_PREPROCESSOR),
        0xef => Some(NO_MARK),
        0x1a => Some(NO_END),
        b'[' | b']' | b'{' | b'}' => Some("subscripts stand in parentheses: A(I)"),
        _ => None,
    }
}

// Whether the rest of a source begins with what a value is given to.
fn is_assigned(rest: &[u8]) -> bool {
    let mut words = Words { rest };
    words.take().is_some() && words.take() == Some(b"=")
}

/// What to write instead of what was refused at a column, where the rest of the source from there on begins with a
/// form of ordinary PL/I.
pub fn advice(kind: SourceKind, column: u32, rest: &[u8]) -> Option<&'static str> {
    let found = match kind {
        SourceKind::BadByte => return instead_of_byte(*rest.first()?),
        SourceKind::LeftOut if rest.first() == Some(&b'\'') => {
            Some("'0'B or '1'B; an array of BIT(1) for more bits")
        }
        SourceKind::Syntax if rest.first() == Some(&b'(') => {
            Some("nothing: conditions have no prefix, and are always raised")
        }
        SourceKind::Undeclared if is_assigned(rest) => None,
        SourceKind::Syntax | SourceKind::LeftOut | SourceKind::Undeclared => instead_of(rest),
        _ => return None,
    };
    match found {
        None if column >= 73 => Some(NO_NUMBERS),
        _ => found,
    }
}

// What to write instead of a comma where a statement has none.
fn instead_of_comma(statement: &[u8], behind: Option<&[u8]>) -> &'static str {
    let words = Words { rest: statement };
    if behind.is_some_and(|word| word.eq_ignore_ascii_case(b"BY")) {
        "an assignment for each member"
    } else if words.have("EDIT") {
        "F with a width alone: numbers are whole"
    } else if words.have("DO") {
        "a DO group for each start"
    } else {
        "an assignment for each variable"
    }
}

// What to write instead of a word in a format list.
fn instead_of_item(word: &[u8]) -> Option<&'static str> {
    match word {
        [b'E' | b'e'] => Some("F with a width: numbers are whole"),
        [b'P' | b'p'] => Some("F, with signs and points as texts of your own"),
        [b'B' | b'b'] => Some("A, which shows a bit as 0 or 1"),
        [b'L' | b'l'] => Some("A with a width"),
        [b'R' | b'r'] => Some("the items themselves"),
        _ if word.eq_ignore_ascii_case(b"TAB") => Some("COLUMN(n)"),
        _ => None,
    }
}

/// What to write instead where a statement can be read no further than to the rest of the source from a column of a
/// line on.
pub fn advice_further(
    statement: &[u8],
    line: &[u8],
    column: u32,
    rest: &[u8],
) -> Option<&'static str> {
    if column >= 73 {
        return Some(NO_NUMBERS);
    }
    let front = at_column(line, column).0.trim_ascii();
    let mut words = Words { rest };
    let word = words.take()?;
    match (word, words.take()) {
        ([b'*'], Some([b')'])) if front.ends_with(b"((") => {
            return Some("nothing: elements without a value begin as 0");
        }
        ([b'*'], Some([b')'])) => return Some(ARRAY_ALONE),
        ([b'+' | b'-' | b'*' | b'/'], Some([b'='])) => return Some("the target again: X = X + 1"),
        ([b'>'], _) if front.ends_with(b"<") => return Some("^= for not equal"),
        ([b'.'], _) => return Some("whole numbers, counted in the smallest unit"),
        ([b','], behind) => return Some(instead_of_comma(statement, behind)),
        _ if word.eq_ignore_ascii_case(b"ELSE") => return Some("a semicolon in front of ELSE"),
        _ => {}
    }
    let is_edit = (Words { rest: statement }).have("EDIT");
    match instead_of(rest) {
        None if is_edit && word.eq_ignore_ascii_case(b"DO") => {
            Some("the array's name alone, or a DO group around the statement")
        }
        None if is_edit && matches!(front.last(), Some(b'(' | b',')) => instead_of_item(word),
        None if front.is_empty() => Some("a semicolon at the end of the line before"),
        found => found,
    }
}
