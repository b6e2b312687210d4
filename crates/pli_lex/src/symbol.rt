// The symbols.

ghost use Rattle.std.specs.Prelude.{◌≡◌};
ghost use Rattle.pli_lex.specs.Symbols.{single, single_in, single_bytes, pair, pair_in, byte_pairs};

use pli_language::token::Symbol;

/// The symbol of one byte.
pub fn single(byte: u8) -> Option<Symbol>
    ensures { result ≡ single byte }
{
    match byte {
        b'+' => Some(Symbol::Plus),
        b'-' => Some(Symbol::Minus),
        b'*' => Some(Symbol::Times),
        b'/' => Some(Symbol::Divide),
        b'=' => Some(Symbol::Equal),
        b'<' => Some(Symbol::Less),
        b'>' => Some(Symbol::Greater),
        b'&' => Some(Symbol::And),
        b'|' => Some(Symbol::Or),
        b'^' => Some(Symbol::Not),
        b'(' => Some(Symbol::OpenParenthesis),
        b')' => Some(Symbol::CloseParenthesis),
        b',' => Some(Symbol::Comma),
        b';' => Some(Symbol::Semicolon),
        b':' => Some(Symbol::Colon),
        b'.' => Some(Symbol::Point),
        _ => None,
    }
}

/// The symbol of two bytes.
pub fn pair(first: u8, second: u8) -> Option<Symbol>
    ensures { result ≡ pair first second }
{
    match (first, second) {
        (b'^', b'=') => Some(Symbol::NotEqual),
        (b'<', b'=') => Some(Symbol::LessOrEqual),
        (b'^', b'>') => Some(Symbol::LessOrEqual),
        (b'>', b'=') => Some(Symbol::GreaterOrEqual),
        (b'^', b'<') => Some(Symbol::GreaterOrEqual),
        (b'|', b'|') => Some(Symbol::Join),
        (b'-', b'>') => Some(Symbol::Arrow),
        _ => None,
    }
}
