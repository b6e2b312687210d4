// Places in a source.

ghost use Rattle.std.specs.Prelude.{◌≡◌, ◌+◌, ◌<◌, ◌^◌, length};
ghost use Rattle.pli_lex.specs.Scanning.{line_from, column_from};

use pli_language::fault::{SourceFault, SourceKind};
use pli_language::token::{Kind, Token};

/// A place: the bytes before it, and its line and column, counted from 1, the column in bytes.
#[derive(Clone, Copy, PartialEq, Eq, Debug)]
pub struct Place {
    pub offset: usize,
    pub line: u32,
    pub column: u32,
}

impl Place {
    pub const START: Place = Place {
        offset: 0,
        line: 1,
        column: 1,
    };

    /// The place behind these bytes, which stand at this place.
    pub fn behind(self, bytes: &[u8]) -> Place
        requires offset { self.offset + length bytes.now < 2 ^ 32 }
        requires line { self.line + length bytes.now < 2 ^ 32 }
        requires column { self.column + length bytes.now < 2 ^ 32 }
        ensures offset { result.offset ≡ self.offset + length bytes.now }
        ensures line { result.line ≡ line_from self.line bytes.now }
        ensures column { result.column ≡ column_from self.column bytes.now }
    {
        let mut line = self.line;
        let mut column = self.column;
        for byte in bytes {
            if *byte == b'\n' {
                line += 1;
                column = 1;
            } else {
                column += 1;
            }
        }
        Place {
            offset: self.offset + bytes.len(),
            line,
            column,
        }
    }

    /// The token of this kind whose first byte stands here.
    pub fn token(self, kind: Kind, len: usize) -> Token
        requires { self.offset + len < 2 ^ 64 }
        ensures { result ≡ record { kind = kind; start = self.offset; end = self.offset + len; line = self.line; column = self.column } }
    {
        Token {
            kind,
            start: self.offset,
            end: self.offset + len,
            line: self.line,
            column: self.column,
        }
    }

    /// The refusal here.
    pub fn fault(self, kind: SourceKind) -> SourceFault
        ensures { result ≡ record { line = self.line; column = self.column; kind = kind } }
    {
        SourceFault {
            line: self.line,
            column: self.column,
            kind,
        }
    }
}
