// What stands at the front of what is left of a source.

ghost use Rattle.std.specs.Prelude.{◌≡◌, ◌<◌, length, slice_index, IsTrue, MatchOption};
ghost use Rattle.pli_language.specs.Tokens.{is_digit, is_name_start, opens_comment, is_blank};
ghost use Rattle.pli_lex.specs.Pieces.{IsPiece, BeginsOther, BeginsNoPair};

use crate::scan::{
    comment_end, digits_len, is_blank, is_digit, is_name_start, name_len, number_value,
    stands_as_bits, text_end,
};
use crate::symbol::{pair, single};
use crate::word::word_of;
use pli_language::fault::SourceKind;
use pli_language::token::{Kind, Symbol};

// The most bytes of a name.
const MOST_NAME: usize = 31;

// The most bytes of a text.
const MOST_TEXT: usize = 1024;

/// Bytes at the front: a blank or a comment, a token, each with its length in bytes, or what is refused there.
#[derive(Clone, Copy, PartialEq, Eq, Debug)]
pub enum Piece {
    Separator(usize),
    Token(Kind, usize),
    Refused(SourceKind),
}

/// What stands at the front of the bytes.
pub fn next_piece(bytes: &[u8]) -> Piece
    requires { 0 < length bytes.now }
    ensures { IsPiece bytes.now result }
{
    let first = bytes[0];
    if is_blank(first) {
        Piece::Separator(1)
    } else if opens_comment(bytes) {
        comment(bytes)
    } else if is_name_start(first) {
        name(bytes)
    } else if is_digit(first) {
        number(bytes)
    } else if first == b'\'' {
        quoted(bytes)
    } else {
        symbol(bytes)
    }
}

fn opens_comment(bytes: &[u8]) -> bool
    ensures { result ≡ opens_comment bytes.now }
{
    bytes.len() >= 2 && bytes[0] == b'/' && bytes[1] == b'*'
}

fn comment(bytes: &[u8]) -> Piece
    requires { IsTrue (opens_comment bytes.now) }
    ensures { IsPiece bytes.now result }
{
    match comment_end(&bytes[2..]) {
        Some(len) => Piece::Separator(2 + len),
        None => Piece::Refused(SourceKind::UnclosedComment),
    }
}

fn name(bytes: &[u8]) -> Piece
    requires some { 0 < length bytes.now }
    requires begins { IsTrue (is_name_start (slice_index bytes.now 0)) }
    ensures { IsPiece bytes.now result }
{
    let len = name_len(bytes);
    if len > MOST_NAME {
        return Piece::Refused(SourceKind::TooLong);
    }
    Piece::Token(Kind::Name(word_of(&bytes[..len])), len)
}

fn number(bytes: &[u8]) -> Piece
    requires some { 0 < length bytes.now }
    requires begins { IsTrue (is_digit (slice_index bytes.now 0)) }
    ensures { IsPiece bytes.now result }
{
    let len = digits_len(bytes);
    match number_value(&bytes[..len]) {
        Some(value) => Piece::Token(Kind::Number(value), len),
        None => Piece::Refused(SourceKind::TooLong),
    }
}

// A text, or a bit constant.
fn quoted(bytes: &[u8]) -> Piece
    requires some { 0 < length bytes.now }
    requires begins { slice_index bytes.now 0 ≡ 39 }
    ensures { IsPiece bytes.now result }
{
    let Some((end, len)) = text_end(&bytes[1..]) else {
        return Piece::Refused(SourceKind::UnclosedText);
    };
    if len > MOST_TEXT {
        return Piece::Refused(SourceKind::TooLong);
    }
    if !stands_as_bits(&bytes[1 + end..]) {
        return Piece::Token(Kind::Text, 1 + end);
    }
    if len != 1 {
        return Piece::Refused(SourceKind::LeftOut);
    }
    match bytes[1] {
        b'0' => Piece::Token(Kind::Bit(false), 2 + end),
        b'1' => Piece::Token(Kind::Bit(true), 2 + end),
        _ => Piece::Refused(SourceKind::LeftOut),
    }
}

// `**` or a symbol of two bytes.
fn long_symbol(bytes: &[u8]) -> Option<Piece>
    requires { BeginsOther bytes.now }
    ensures { MatchOption result (BeginsNoPair bytes.now) (λ piece. IsPiece bytes.now piece) }
{
    if bytes.len() < 2 {
        return None;
    }
    if bytes[0] == b'*' && bytes[1] == b'*' {
        return Some(Piece::Refused(SourceKind::LeftOut));
    }
    let symbol = pair(bytes[0], bytes[1])?;
    Some(Piece::Token(Kind::Symbol(symbol), 2))
}

// A symbol, `**`, or a byte that begins no token.
fn symbol(bytes: &[u8]) -> Piece
    requires { BeginsOther bytes.now }
    ensures { IsPiece bytes.now result }
{
    if let Some(piece) = long_symbol(bytes) {
        return piece;
    }
    match single(bytes[0]) {
        Some(symbol) => Piece::Token(Kind::Symbol(symbol), 1),
        None => Piece::Refused(SourceKind::BadByte),
    }
}
