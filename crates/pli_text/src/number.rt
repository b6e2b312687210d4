// Numbers and bits as texts, and texts as numbers and bits.

ghost use Rattle.std.specs.Prelude.{◌≡◌, pos};
ghost use Rattle.std.specs.Option.{option_map};
ghost use Rattle.pli_meaning.specs.Stream.{decimal_text};
ghost use Rattle.pli_meaning.specs.Texts as texts;
ghost use Rattle.pli_text.specs.Digits.{small_value};

use itoa::Buffer;

/// The greatest magnitude of a number.
const MOST: u64 = 1 << 31;

/// A number as text: its digits, behind `-` where it is negative.
pub fn decimal<'a>(buffer: &'a mut Buffer, number: i32) -> &'a [u8]
    ensures { result.now ≡ decimal_text number }
{
    buffer.format(number).as_bytes()
}

/// The number that a text stands for: blanks, a sign at most, digits, blanks; only blanks stand for 0.
pub fn number_in(text: &[u8]) -> Option<i32>
    ensures { result ≡ texts.number_in_text text.now }
{
    let written = without_trailing_blanks(without_leading_blanks(text));
    match written.first() {
        None => Some(0),
        Some(b'+') => positive(&written[1..]),
        Some(b'-') => negative(&written[1..]),
        Some(_) => positive(written),
    }
}

/// The bit that a text stands for: `0`, `1` or nothing, before blanks.
pub fn bit_in(text: &[u8]) -> Option<bool>
    ensures { result ≡ texts.bit_in_text text.now }
{
    match without_trailing_blanks(text) {
        [] | [b'0'] => Some(false),
        [b'1'] => Some(true),
        _ => None,
    }
}

fn positive(digits: &[u8]) -> Option<i32>
    ensures { result ≡ texts.within_precision 31 (option_map pos (texts.digits_value digits.now)) }
{
    let magnitude = magnitude(digits)?;
    i32::try_from(magnitude).ok()
}

fn negative(digits: &[u8]) -> Option<i32>
    ensures { result ≡ texts.within_precision 31 (option_map texts.negative (texts.digits_value digits.now)) }
{
    let magnitude = magnitude(digits)?;
    i32::try_from(-(magnitude as i64)).ok()
}

/// The value of digits, where it is at most 2^31.
fn magnitude(digits: &[u8]) -> Option<u64>
    ensures { result ≡ small_value digits.now }
{
    if digits.is_empty() {
        return None;
    }
    let mut value = 0;
    for byte in digits {
        if !byte.is_ascii_digit() {
            return None;
        }
        value = value * 10 + u64::from(*byte - b'0');
        if value > MOST {
            return None;
        }
    }
    Some(value)
}

fn without_leading_blanks(text: &[u8]) -> &[u8]
    ensures { result.now ≡ texts.without_leading_blanks text.now }
{
    let mut blanks = 0;
    while blanks < text.len() && text[blanks] == b' ' {
        blanks += 1;
    }
    &text[blanks..]
}

fn without_trailing_blanks(text: &[u8]) -> &[u8]
    ensures { result.now ≡ texts.without_trailing_blanks text.now }
{
    let mut end = text.len();
    while end > 0 && text[end - 1] == b' ' {
        end -= 1;
    }
    &text[..end]
}
