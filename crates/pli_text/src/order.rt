// The order of texts.

ghost use Rattle.std.specs.Prelude.{◌≡◌, []};
ghost use Rattle.pli_meaning.specs.Texts.{text_order};

use std::cmp::Ordering;

/// Byte by byte; the shorter text is padded with blanks.
pub fn order(left: &[u8], right: &[u8]) -> Ordering
    ensures { result ≡ text_order left.now right.now }
{
    let common = left.len().min(right.len());
    for place in 0..common {
        if left[place] != right[place] {
            return left[place].cmp(&right[place]);
        }
    }
    if common < left.len() {
        return against_blanks(&left[common..]);
    }
    against_blanks(&right[common..]).reverse()
}

fn against_blanks(text: &[u8]) -> Ordering
    ensures { result ≡ text_order text.now [] }
{
    for byte in text {
        if *byte != b' ' {
            return byte.cmp(&b' ');
        }
    }
    Ordering::Equal
}
