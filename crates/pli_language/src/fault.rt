// The refusals of a source.

use std::fmt;
use thiserror::Error;

/// Why a source is refused, by its number.
#[derive(Clone, Copy, PartialEq, Eq, PartialOrd, Ord, Debug)]
pub enum SourceKind {
    BadByte = 1,
    UnclosedComment = 2,
    UnclosedText = 3,
    TooLong = 4,
    Syntax = 5,
    EndName = 6,
    Undeclared = 7,
    Ambiguous = 8,
    DeclaredTwice = 9,
    BadAttributes = 10,
    LeftOut = 11,
    TypeMismatch = 12,
    BadExtent = 13,
    BadLabel = 14,
    BadArguments = 15,
    NestedArea = 16,
    BadRefer = 17,
    NoMain = 18,
    TooLarge = 19,
    BadFormat = 20,
    Memory = 99,
}

impl fmt::Display for SourceKind {
    fn fmt<W: fmt::Write>(&self, f: &mut fmt::Formatter<W>) -> fmt::Result {
        let number = *self as u8;
        write!(f, "{number} {self:?}")
    }
}

/// A refusal with the line and column where it stands, counted as a token's; want of memory stands at 0:0.
/// It prints as `1:24: 7 Undeclared`.
#[derive(Clone, Copy, PartialEq, Eq, Debug, Error)]
#[error("{line}:{column}: {kind}")]
pub struct SourceFault {
    pub line: u32,
    pub column: u32,
    pub kind: SourceKind,
}
