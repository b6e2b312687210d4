// What stands from a place of the input on: characters, and the ends of lines.

ghost use Rattle.std.specs.Prelude.{◌≡◌, ◌+◌, ◌<◌, ℕ, IfOk, MatchOption, drop, false, length, ⊤};
ghost use Rattle.pli_meaning.specs.InputLines as lines;
ghost use Rattle.pli_edit.specs.Marks.{begins_line_end, has_line_end, IsFirstMark, IsInLine, IsSizedMark, IsTaken};
ghost use Rattle.pli_edit.specs.Marks.{IsShown, ReachUpTo};

use std::alloc::{AllocError, Global};
use std::marker::Model;

/// A character, or the end of a line, which is none.
#[derive(Clone, Copy, PartialEq, Eq, Debug)]
pub enum Mark {
    Character(u8),
    LineEnd,
}

/// The marks that are left of the input, and how many of its bytes go up to its last character: behind these only empty
/// lines follow. Only here is it known where the next mark comes from. Contracts see the list of the marks.
#[derive(Drop)]
pub struct Marks {
    bytes: Vec<u8>,
    characters_end: usize,
    place: usize,
    is_begun: bool,
}

impl Model for Marks {
    ghost use Rattle.std.specs.Prelude.{◌≤◌, List, length, drop};
    ghost use Rattle.pli_meaning.specs.InputLines.{Mark as LineMark, marks_of};
    ghost use Rattle.pli_edit.specs.Marks.{ReachUpTo};

    ghost Value = { List LineMark };

    ghost view = { λ m. marks_of m.is_begun (drop m.place m.bytes.items) };

    ghost invariant = { λ m. (m.place ≤ length m.bytes.items) × ReachUpTo m.characters_end m.bytes.items };
}

impl Marks {
    /// All marks of an input; without memory an `AllocError`.
    pub fn new(alloc: Global, input: &[u8]) -> Result<Marks, AllocError>
        ensures { IfOk result (λ m. m ≡ lines.marks_of false input.now) }
    {
        Ok(Marks {
            bytes: Vec::from_slice(alloc, input)?,
            characters_end: characters_end(input),
            place: 0,
            is_begun: false,
        })
    }

    /// The first mark, which stays.
    pub fn peek(&self) -> Option<Mark>
        ensures { IsShown self.now result }
    {
        let (mark, _size) = first_mark(&self.bytes[self.place..], self.is_begun)?;
        Some(mark)
    }

    /// The first mark is taken.
    pub fn take(&mut self) -> Option<Mark>
        ensures { IsTaken self.old result self.new }
    {
        let (mark, size) = first_mark(&self.bytes[self.place..], self.is_begun)?;
        self.place += size;
        self.is_begun = mark != Mark::LineEnd;
        Some(mark)
    }

    /// The next characters, so many, where they stand in one line.
    pub fn line(&self, count: u32) -> Option<&[u8]>
        ensures { MatchOption result ⊤ (λ line. IsInLine count self.now × (line.now ≡ lines.characters count self.now)) }
    {
        let rest = &self.bytes[self.place..];
        if count == 0 || rest.len() < count as usize {
            return None;
        }
        let line = &rest[..count as usize];
        if has_line_end(line) {
            return None;
        }
        Some(line)
    }

    /// So many characters are taken, which stand in one line.
    pub fn pass(&mut self, count: u32)
        requires { IsInLine count self.old }
        ensures { (column : ℕ) → record { marks = self.new; column = column + count } ≡ lines.place_behind count column self.old }
    {
        self.place += count as usize;
        self.is_begun = true;
    }

    /// Whether a character is left.
    pub fn has_character(&self) -> bool
        ensures { result ≡ lines.has_character self.now }
    {
        self.place < self.characters_end
    }
}

// Whether a byte may end a line, or belong to its end.
pub fn has_line_end(line: &[u8]) -> bool
    ensures { result ≡ has_line_end line.now }
{
    for byte in line {
        if *byte == b'\n' || *byte == b'\r' {
            return true;
        }
    }
    false
}

// Whether the byte at an index belongs to a line's end.
fn is_of_line_end(bytes: &[u8], index: usize) -> bool
    requires { index < length bytes.now }
    ensures { result ≡ begins_line_end (drop index bytes.now) }
{
    if bytes[index] == b'\n' {
        return true;
    }
    bytes[index] == b'\r' && index + 1 < bytes.len() && bytes[index + 1] == b'\n'
}

// How many bytes go up to the last character. It is looked for from the end, once for all questions.
fn characters_end(bytes: &[u8]) -> usize
    ensures { ReachUpTo result bytes.now }
{
    let mut end = bytes.len();
    while end > 0 && is_of_line_end(bytes, end - 1) {
        end -= 1;
    }
    end
}

// The first mark and how many bytes it takes. CR directly before LF belongs to the line's end; a last line without LF
// ends too.
#[tactic(auto, using(crate::proofs::Markings::first_ended, crate::proofs::Markings::first_none, crate::proofs::Markings::first_feed, crate::proofs::Markings::first_return, crate::proofs::Markings::first_character))]
pub fn first_mark(rest: &[u8], is_begun: bool) -> Option<(Mark, usize)>
    ensures mark { IsFirstMark is_begun rest.now result }
    ensures size { IsSizedMark is_begun result }
{
    if rest.is_empty() {
        return if is_begun {
            Some((Mark::LineEnd, 0))
        } else {
            None
        };
    }
    if rest[0] == b'\n' {
        return Some((Mark::LineEnd, 1));
    }
    if rest[0] == b'\r' && rest.len() > 1 && rest[1] == b'\n' {
        return Some((Mark::LineEnd, 2));
    }
    Some((Mark::Character(rest[0]), 1))
}
