// Ways through marks that come from a feed, with the column that is reached.

ghost use Rattle.std.specs.Prelude.{◌≡◌, ◌+◌, ◌^◌, ◌<◌, ◌≤◌, ◌++◌, IfOk, MatchResult, false, length, vec_len};
ghost use Rattle.std.specs.Prelude.{vec_capacity};
ghost use Rattle.pli_meaning.specs.InputLines as lines;
ghost use Rattle.pli_edit.specs.Feeding.{is_broken};
ghost use Rattle.pli_edit.specs.KnownMarks.{most_left, wants_characters, wants_further, wants_lines};
ghost use Rattle.pli_edit.specs.Streams.{Breaks, Goes, PassesLine};

use crate::fault::EditFault;
use crate::feed::Feed;
use crate::feed_marks::FeedMarks;
use crate::mark::Mark;

/// So many characters further, or to the end.
pub fn pass<F: Feed>(marks: &mut FeedMarks<F>, start: u64, count: u32) -> Result<u64, EditFault>
    requires columns { start + most_left marks.old < 2 ^ 64 }
    requires whole { is_broken marks.old.fed.standing ≡ false }
    ensures reached { MatchResult result
        (λ column. Goes (wants_characters count)
        (λ old new. record { marks = new; column = column } ≡ lines.place_behind count start old) marks.old
        marks.new)
        (λ e. (e ≡ EditFault.Read) × Breaks (wants_characters count) marks.old marks.new) }
    ensures room { IfOk result
        (λ column. (column + most_left marks.new < 2 ^ 64) × (is_broken marks.new.fed.standing ≡ false)) }
    ensures fewer { most_left marks.new ≤ most_left marks.old }
{
    let mut column = start;
    let mut left = count;
    while left > 0 {
        match marks.take()? {
            None => break,
            Some(Mark::LineEnd) => column = 1,
            Some(Mark::Character(_)) => {
                column += 1;
                left -= 1;
            }
        }
    }
    Ok(column)
}

/// So many characters are put behind a field, or those that are left.
pub fn take_characters<F: Feed>(
    marks: &mut FeedMarks<F>,
    start: u64,
    count: u32,
    field: &mut Vec<u8>,
) -> Result<u64, EditFault>
    requires columns { start + most_left marks.old < 2 ^ 64 }
    requires whole { is_broken marks.old.fed.standing ≡ false }
    requires capacity { vec_len field.old + count ≤ vec_capacity field.old }
    ensures reached { MatchResult result
        (λ column. Goes (wants_characters count) (λ old new.
        (record { marks = new; column = column } ≡ lines.place_behind count start old)
        × (field.new.items ≡ field.old.items ++ lines.characters count old)) marks.old marks.new)
        (λ e. (e ≡ EditFault.Read) × Breaks (wants_characters count) marks.old marks.new) }
    ensures room { IfOk result
        (λ column. (column + most_left marks.new < 2 ^ 64) × (is_broken marks.new.fed.standing ≡ false)) }
    ensures fewer { most_left marks.new ≤ most_left marks.old }
    ensures capacity { vec_capacity field.old ≤ vec_capacity field.new }
{
    let mut column = start;
    let mut left = count;
    while left > 0 {
        match marks.take()? {
            None => break,
            Some(Mark::LineEnd) => column = 1,
            Some(Mark::Character(byte)) => {
                field.push(byte).unwrap();
                column += 1;
                left -= 1;
            }
        }
    }
    Ok(column)
}

/// So many characters further in the line, or to its end.
pub fn pass_in_line<F: Feed>(
    marks: &mut FeedMarks<F>,
    start: u64,
    count: u64,
) -> Result<u64, EditFault>
    requires columns { start + most_left marks.old < 2 ^ 64 }
    requires whole { is_broken marks.old.fed.standing ≡ false }
    ensures reached { MatchResult result
        (λ column. Goes (wants_further count)
        (λ old new. record { marks = new; column = column } ≡ lines.further count start old) marks.old marks.new)
        (λ e. (e ≡ EditFault.Read) × Breaks (wants_further count) marks.old marks.new) }
    ensures room { IfOk result
        (λ column. (column + most_left marks.new < 2 ^ 64) × (is_broken marks.new.fed.standing ≡ false)) }
    ensures fewer { most_left marks.new ≤ most_left marks.old }
{
    let mut column = start;
    let mut left = count;
    while left > 0 {
        match marks.take_in_line()? {
            None => break,
            Some(_) => {
                column += 1;
                left -= 1;
            }
        }
    }
    Ok(column)
}

/// To the start of the line behind so many line ends, or to the end.
pub fn pass_lines<F: Feed>(marks: &mut FeedMarks<F>, count: u32) -> Result<(), EditFault>
    requires { is_broken marks.old.fed.standing ≡ false }
    ensures reached { MatchResult result
        (λ _. Goes (wants_lines count)
        (λ old new. record { marks = new; column = 1 } ≡ lines.behind_lines count
        (record { marks = old; column = 1 })) marks.old marks.new)
        (λ e. (e ≡ EditFault.Read) × Breaks (wants_lines count) marks.old marks.new) }
    ensures room { most_left marks.new ≤ most_left marks.old }
    ensures whole { IfOk result (λ _. is_broken marks.new.fed.standing ≡ false) }
{
    let mut left = count;
    while left > 0 {
        match marks.take()? {
            None => break,
            Some(Mark::LineEnd) => left -= 1,
            Some(Mark::Character(_)) => {}
        }
    }
    Ok(())
}

/// To the start of the next line, or to the end.
pub fn pass_line<F: Feed>(marks: &mut FeedMarks<F>) -> Result<(), EditFault>
    requires { is_broken marks.old.fed.standing ≡ false }
    ensures { MatchResult result (λ _. PassesLine marks.old marks.new)
        (λ e. (e ≡ EditFault.Read) × Breaks (wants_lines 1) marks.old marks.new) }
{
    while let Some(mark) = marks.take()? {
        match mark {
            Mark::LineEnd => break,
            Mark::Character(_) => {}
        }
    }
    Ok(())
}
