// Ways through marks, with the column that is reached.

ghost use Rattle.std.specs.Prelude.{◌≡◌, ◌+◌, ◌-◌, ◌^◌, ◌<◌, ◌≤◌, ◌++◌, length, vec_len, vec_capacity};
ghost use Rattle.pli_meaning.specs.InputLines as lines;

use crate::mark::{Mark, Marks};

/// So many characters further, or to the end.
#[tactic(auto, using(crate::proofs::Ways::behind_zero, crate::proofs::Ways::behind_end, crate::proofs::Ways::behind_line, crate::proofs::Ways::behind_character))]
pub fn pass(marks: &mut Marks, start: u64, count: u32) -> u64
    requires { start + length marks.old < 2 ^ 64 }
    ensures reached { record { marks = marks.new; column = result } ≡ lines.place_behind count start marks.old }
    ensures room { result + length marks.new < 2 ^ 64 }
{
    let mut column = start;
    let mut left = count;
    while left > 0 {
        match marks.take() {
            None => break,
            Some(Mark::LineEnd) => column = 1,
            Some(Mark::Character(_)) => {
                column += 1;
                left -= 1;
            }
        }
    }
    column
}

/// So many characters are put behind a field, or those that are left.
#[tactic(auto, using(crate::proofs::Ways::behind_zero, crate::proofs::Ways::behind_end, crate::proofs::Ways::behind_line, crate::proofs::Ways::behind_character, crate::proofs::Ways::characters_zero, crate::proofs::Ways::characters_end, crate::proofs::Ways::characters_line, crate::proofs::Ways::characters_pushed))]
pub fn take_characters(marks: &mut Marks, start: u64, count: u32, field: &mut Vec<u8>) -> u64
    requires columns { start + length marks.old < 2 ^ 64 }
    requires room { vec_len field.old + count ≤ vec_capacity field.old }
    ensures reached { record { marks = marks.new; column = result } ≡ lines.place_behind count start marks.old }
    ensures taken { field.new.items ≡ field.old.items ++ lines.characters count marks.old }
    ensures columns { result + length marks.new < 2 ^ 64 }
    ensures capacity { vec_capacity field.old ≤ vec_capacity field.new }
{
    let mut column = start;
    let mut left = count;
    while left > 0 {
        match marks.take() {
            None => break,
            Some(Mark::LineEnd) => column = 1,
            Some(Mark::Character(byte)) => {
                field.push(byte).unwrap();
                column += 1;
                left -= 1;
            }
        }
    }
    column
}

/// So many characters further in the line, or to its end.
#[tactic(auto, using(crate::proofs::Ways::further_zero, crate::proofs::Ways::further_end, crate::proofs::Ways::further_line, crate::proofs::Ways::further_character))]
pub fn pass_in_line(marks: &mut Marks, start: u64, count: u64) -> u64
    requires { start + length marks.old < 2 ^ 64 }
    ensures reached { record { marks = marks.new; column = result } ≡ lines.further count start marks.old }
    ensures room { result + length marks.new < 2 ^ 64 }
{
    let mut column = start;
    let mut left = count;
    while left > 0 {
        match marks.peek() {
            None | Some(Mark::LineEnd) => break,
            Some(Mark::Character(_)) => {
                let _mark = marks.take();
                column += 1;
                left -= 1;
            }
        }
    }
    column
}

/// To the start of the next line, or to the end.
pub fn pass_line(marks: &mut Marks)
    ensures next { marks.new ≡ lines.next_line marks.old }
    ensures fewer { length marks.new ≤ length marks.old - 1 }
{
    while let Some(mark) = marks.take() {
        if mark == Mark::LineEnd {
            return;
        }
    }
}
