// What stands from a place of an input on that comes from a feed: characters, and the ends of lines.

ghost use Rattle.std.specs.Prelude.{◌≡◌, ◌+◌, ◌≤◌, ℕ, List, [], false, get_or, length, nat_lt, true, MatchOption};
ghost use Rattle.std.specs.Prelude.{MatchResult, Some, ⊤};
ghost use Rattle.pli_meaning.specs.InputLines as lines;
ghost use Rattle.pli_edit.specs.Feeding.{Agrees, first_fed, is_broken};
ghost use Rattle.pli_edit.specs.KnownMarks.{marks_left, most_left, wants_mark, wants_characters};
ghost use Rattle.pli_edit.specs.Marks.{IsInLine};
ghost use Rattle.pli_edit.specs.Streams.{behind_mark, over_line, without_lines, Breaks, IsKnownMark, LooksAt, LooksInVain};
ghost use Rattle.pli_edit.specs.Streams.{Moves, Takes, TakesInLine};

use crate::fault::EditFault;
use crate::feed::Feed;
use crate::feed_bytes::FeedBytes;
use crate::mark::{Mark, first_mark, has_line_end};
use std::marker::Model;

/// The marks that are left of an input: ends of lines that were looked over, then what its feed gave, then what this
/// will give.
#[derive(Drop)]
pub struct FeedMarks<F: Feed> {
    bytes: FeedBytes<F>,
    lines: u64,
    is_begun: bool,
}

impl<F: Feed> Model for FeedMarks<F> {
    ghost use Rattle.std.specs.Prelude.{◌<◌, ◌^◌};
    ghost use Rattle.pli_edit.specs.KnownMarks.{Marked, most_left};

    ghost Value = { Marked };

    ghost view = { λ m. record {
      fed = m.bytes.fed;
      lines = m.lines;
      is_begun = m.is_begun;
      pending =
          m.bytes.pending;
    } };

    ghost invariant = { λ m. most_left
        (record { fed = m.bytes.fed; lines = m.lines; is_begun = m.is_begun; pending = m.bytes.pending }) < 2 ^ 64 };
}

impl<F: Feed> FeedMarks<F> {
    /// All marks of what a feed will give.
    pub fn new(feed: F) -> FeedMarks<F>
        ensures { result ≡ record { fed = first_fed (F.history feed); lines = 0; is_begun = false; pending = [] } }
    {
        FeedMarks {
            bytes: FeedBytes::new(feed),
            lines: 0,
            is_begun: false,
        }
    }

    /// The feed.
    pub fn into_inner(self) -> F
        ensures { F.history result ≡ self.fed.history }
    {
        self.bytes.into_inner()
    }

    /// Whether a read failed, or no other may be made.
    pub fn is_broken(&self) -> bool
        ensures { result ≡ is_broken self.now.fed.standing }
    {
        self.bytes.standing().is_broken()
    }

    /// The first mark behind the lines that were looked over, and how many bytes it takes. It stays.
    fn first(&mut self) -> Result<Option<(Mark, usize)>, EditFault>
        requires { is_broken self.old.fed.standing ≡ false }
        ensures { MatchResult result (λ found. LooksAt found self.old self.new)
            (λ e. (e ≡ EditFault.Read) × LooksInVain self.old self.new) }
    {
        while self.bytes.standing().is_open() {
            let found = known_mark(self.bytes.pending());
            if found.is_some() {
                return Ok(found);
            }
            self.bytes.read()?;
        }
        Ok(first_mark(self.bytes.pending(), self.is_begun))
    }

    /// The mark that was looked at is taken.
    fn pass_mark(&mut self, mark: Mark, size: usize)
        requires there { size ≤ length self.old.pending }
        requires fewer { size ≡ 0 → self.old.is_begun ≡ true }
        ensures { self.new ≡ behind_mark mark size self.old }
    {
        self.bytes.pass(size);
        self.is_begun = mark != Mark::LineEnd;
    }

    /// The end of a line that was looked at is looked over.
    fn look_over(&mut self, size: usize)
        requires there { size ≤ length self.old.pending }
        requires fewer { size ≡ 0 → self.old.is_begun ≡ true }
        ensures { self.new ≡ over_line size self.old }
    {
        self.bytes.pass(size);
        self.is_begun = false;
        self.lines += 1;
    }

    /// The ends of lines that were looked over are taken; whether there were any.
    pub fn take_lines(&mut self) -> bool
        ensures taken { self.new ≡ without_lines self.old }
        ensures some { result ≡ nat_lt 0 self.old.lines }
    {
        let lines = self.lines;
        self.lines = 0;
        lines > 0
    }

    /// The first mark is taken.
    pub fn take(&mut self) -> Result<Option<Mark>, EditFault>
        requires { is_broken self.old.fed.standing ≡ false }
        ensures { MatchResult result
            (λ found. Takes found self.old self.new)
            (λ e. (e ≡ EditFault.Read) × Breaks wants_mark self.old self.new) }
    {
        if self.lines > 0 {
            self.lines -= 1;
            return Ok(Some(Mark::LineEnd));
        }
        let Some((mark, size)) = self.first()? else {
            return Ok(None);
        };
        self.pass_mark(mark, size);
        Ok(Some(mark))
    }

    /// The next character of the line is taken; none at its end, which stays.
    pub fn take_in_line(&mut self) -> Result<Option<u8>, EditFault>
        requires { is_broken self.old.fed.standing ≡ false }
        ensures { MatchResult result
            (λ found. TakesInLine found self.old self.new)
            (λ e. (e ≡ EditFault.Read) × Breaks wants_mark self.old self.new) }
    {
        if self.lines > 0 {
            return Ok(None);
        }
        let Some((mark, size)) = self.first()? else {
            return Ok(None);
        };
        match mark {
            Mark::Character(byte) => {
                self.pass_mark(mark, size);
                Ok(Some(byte))
            }
            Mark::LineEnd => Ok(None),
        }
    }

    /// Whether a character is left. Empty lines that are looked over stay.
    pub fn has_character(&mut self) -> Result<bool, EditFault>
        requires { is_broken self.old.fed.standing ≡ false }
        ensures { MatchResult result
            (λ is_left. Moves (wants_characters 1) [] self.old self.new
            × ((all : List ℕ) → Agrees self.new.fed all → lines.has_character (marks_left self.new all) ≡ is_left))
            (λ e. (e ≡ EditFault.Read) × Breaks (wants_characters 1) self.old self.new) }
    {
        if begins_with_character(self.bytes.pending()) {
            return Ok(true);
        }
        while let Some((mark, size)) = self.first()? {
            match mark {
                Mark::Character(_) => return Ok(true),
                Mark::LineEnd => self.look_over(size),
            }
        }
        Ok(false)
    }

    /// The next characters, so many, where they stand in one line and were read already.
    pub fn line(&self, count: u32) -> Option<&[u8]>
        ensures { MatchOption result ⊤ (λ line. (all : List ℕ) → Agrees self.now.fed all →
            IsInLine count (marks_left self.now all) × (line.now ≡ lines.characters count (marks_left self.now all))) }
    {
        let rest = self.bytes.pending();
        if self.lines > 0 || count == 0 || rest.len() < count as usize {
            return None;
        }
        let line = &rest[..count as usize];
        if has_line_end(line) {
            return None;
        }
        Some(line)
    }

    /// So many characters are taken, which stand in one line.
    pub fn pass(&mut self, count: u32)
        requires { (all : List ℕ) → Agrees self.old.fed all → IsInLine count (marks_left self.old all) }
        ensures fed { self.new.fed ≡ self.old.fed }
        ensures passed { (all : List ℕ) (column : ℕ) → Agrees self.old.fed all →
            record { marks = marks_left self.new all; column = column + count } ≡ lines.place_behind count column
            (marks_left self.old all) }
        ensures fewer { count + most_left self.new ≤ most_left self.old }
    {
        self.bytes.pass(count as usize);
        self.is_begun = true;
    }
}

// Whether the first byte is a character, whatever comes behind it.
#[tactic(auto, using(crate::proofs::Known::known_character))]
fn begins_with_character(bytes: &[u8]) -> bool
    ensures { result ≡ true → IsKnownMark bytes.now (Some (Mark.Character (get_or bytes.now 0 0), 1)) }
{
    !bytes.is_empty() && bytes[0] != b'\n' && bytes[0] != b'\r'
}

// The first mark of bytes that go on, and how many it takes; none where more bytes are wanted.
#[tactic(auto, using(crate::proofs::Known::known_marks))]
fn known_mark(bytes: &[u8]) -> Option<(Mark, usize)>
    ensures { IsKnownMark bytes.now result }
{
    if bytes.is_empty() {
        return None;
    }
    if bytes[0] == b'\n' {
        return Some((Mark::LineEnd, 1));
    }
    if bytes[0] != b'\r' {
        return Some((Mark::Character(bytes[0]), 1));
    }
    if bytes.len() == 1 {
        return None;
    }
    if bytes[1] == b'\n' {
        return Some((Mark::LineEnd, 2));
    }
    Some((Mark::Character(bytes[0]), 1))
}
