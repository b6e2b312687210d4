// The leaves of the signatures in a table, read from its words.

ghost use Rattle.std.specs.Prelude.{◌≡◌, ◌+◌, ◌<◌, ◌≤◌, suc, if◌then◌else◌};
ghost use Rattle.rv_meaning.specs.Tables.{size_fits, is_run_time, pair_fits, has_one_extent, stands};
ghost use Rattle.rv_image.specs.Reading.{Gives, words_of, word_from, pair_from, pairs_from, kind_from, leaf_from};
ghost use Rattle.rv_image.specs.Shapes.{shape};

use crate::word::word_at;
use rv_meaning::image::TableKind;

/// The size of a length or a capacity that is known only when the program runs.
const RUN_TIME: u32 = u32::MAX;

/// A leaf as the rules of its signature see it.
#[derive(Clone, Copy)]
pub struct Leaf {
    kind: TableKind,
    size: u32,
    dimensions: u32,
    /// How many pairs of bounds are known only when the program runs.
    run_time: u32,
}

impl Leaf {
    // Just one extent, and that a run-time one.
    fn has_one_extent(&self) -> bool
        ensures { result ≡ has_one_extent (shape self.now) }
    {
        if self.size == RUN_TIME {
            self.dimensions == 0
        } else {
            self.dimensions == 1 && self.run_time == 1
        }
    }

    /// Whether it can stand at a place of so many leaves, with REFER's number.
    pub fn stands(&self, count: u32, refer: u32, place: u32) -> bool
        requires inside { place < count }
        ensures { result ≡ stands count refer place (shape self.now) }
    {
        let whole = self.dimensions == 0;
        let is_area = matches!(self.kind, TableKind::Area);
        let is_fixed = matches!(self.kind, TableKind::Fixed);
        (!is_area || (count == 1 && whole))
            && (refer != place + 1 || (is_fixed && whole))
            && (refer == 0 || count != place + 1 || self.has_one_extent())
    }
}

/// The first word, and the rest.
pub fn word_of(words: &[u8]) -> Option<(u32, &[u8])>
    ensures { Gives (λ x. (x.0, words_of x.1.now)) result (word_from (words_of words.now)) }
{
    if words.len() < 4 {
        return None;
    }
    Some((word_at(words, 0), &words[4..]))
}

fn kind_of(number: u32) -> Option<TableKind>
    ensures { result ≡ kind_from number }
{
    match number {
        1 => Some(TableKind::Fixed),
        2 => Some(TableKind::Character),
        3 => Some(TableKind::Varying),
        4 => Some(TableKind::Bit),
        5 => Some(TableKind::Pointer),
        6 => Some(TableKind::Offset),
        7 => Some(TableKind::Area),
        _ => None,
    }
}

fn size_fits(kind: TableKind, size: u32) -> bool
    ensures { result ≡ size_fits kind size }
{
    match kind {
        TableKind::Fixed => 1 <= size && size <= 31,
        TableKind::Character | TableKind::Varying => size <= 1024 || size == RUN_TIME,
        TableKind::Area => (size % 16 == 0 && size <= 0x10_0000) || size == RUN_TIME,
        TableKind::Bit | TableKind::Pointer | TableKind::Offset => size == 0,
    }
}

fn is_run_time(lower: u32, upper: u32) -> bool
    ensures { result ≡ is_run_time lower upper }
{
    lower == 1 && upper == 0
}

fn pair_fits(lower: u32, upper: u32) -> bool
    ensures { result ≡ pair_fits lower upper }
{
    let below = upper.cast_signed() < lower.cast_signed();
    !below || is_run_time(lower, upper)
}

// Whether a pair of bounds is a run-time one, and the rest.
#[tactic(auto, unfolding(crate::specs::Reading::pair_from))]
fn pair_of(words: &[u8]) -> Option<(bool, &[u8])>
    ensures { Gives (λ x. (x.0, words_of x.1.now)) result (pair_from (words_of words.now)) }
{
    let (lower, rest) = word_of(words)?;
    let (upper, rest) = word_of(rest)?;
    if !pair_fits(lower, upper) {
        return None;
    }
    Some((is_run_time(lower, upper), rest))
}

fn one_if(is_run_time: bool) -> u32
    ensures { result ≡ (if is_run_time then 1 else 0) }
{
    if is_run_time { 1 } else { 0 }
}

// How many of so many pairs of bounds are run-time ones, and the rest.
fn pairs_of(count: u32, words: &[u8]) -> Option<(u32, &[u8])>
    ensures { Gives (λ x. (x.0, words_of x.1.now)) result (pairs_from count (words_of words.now)) }
{
    let mut run_time = 0;
    let mut rest = words;
    for _ in 0..count {
        let (is_run_time, after) = pair_of(rest)?;
        run_time += one_if(is_run_time);
        rest = after;
    }
    Some((run_time, rest))
}

/// A leaf, and the rest.
#[tactic(auto, unfolding(crate::specs::Reading::leaf_from))]
pub fn leaf_of(words: &[u8]) -> Option<(Leaf, &[u8])>
    ensures { Gives (λ x. (shape x.0, words_of x.1.now)) result (leaf_from (words_of words.now)) }
{
    let (number, rest) = word_of(words)?;
    let (size, rest) = word_of(rest)?;
    let (dimensions, rest) = word_of(rest)?;
    let kind = kind_of(number)?;
    if !size_fits(kind, size) || dimensions > 8 {
        return None;
    }
    let (run_time, rest) = pairs_of(dimensions, rest)?;
    let leaf = Leaf {
        kind,
        size,
        dimensions,
        run_time,
    };
    Some((leaf, rest))
}
