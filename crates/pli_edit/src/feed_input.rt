// The input of GET as it comes from a feed.

ghost use Rattle.std.specs.Prelude.{◌≡◌, ◌≤◌, ◌-◌, ℕ, List, [], MatchOption, MatchResult, Ok, false, true, vec_capacity};
ghost use Rattle.std.specs.Prelude.{vec_len, ⊤};
ghost use Rattle.pli_meaning.specs.InputLines as lines;
ghost use Rattle.pli_edit.specs.Feeding.{first_fed, is_broken, Agrees};
ghost use Rattle.pli_edit.specs.Fields.{IsLineField, TakesNumber, TakesText};
ghost use Rattle.pli_edit.specs.KnownMarks.{marks_left, wants_characters, wants_column, wants_lines, wants_next_line};
ghost use Rattle.pli_edit.specs.Marks.{IsInLine};
ghost use Rattle.pli_edit.specs.Streams.{begun, first_held, has_failed, input_of, wants_field, Fails, Reaches, Tells};

use crate::fault::EditFault;
use crate::feed::Feed;
use crate::feed_marks::FeedMarks;
use crate::feed_reading::{pass, pass_in_line, pass_line, pass_lines, take_characters};
use crate::input::number_told;
use std::alloc::Global;
use std::marker::Model;

/// What is left of the input, and the column that is reached. Only bytes that were read and not taken are kept. A read
/// that fails, or
/// one more than 2^30 reads, is `Read`, and so is each call from then on.
#[derive(Drop)]
pub struct FeedInput<F: Feed> {
    alloc: Global,
    marks: FeedMarks<F>,
    column: u64,
}

impl<F: Feed> Model for FeedInput<F> {
    ghost use Rattle.std.specs.Prelude.{◌+◌, ◌<◌, ◌^◌};
    ghost use Rattle.pli_edit.specs.KnownMarks.{most_left};
    ghost use Rattle.pli_edit.specs.Streams.{Held};

    ghost Value = { Held };

    ghost view = { λ i. record { marked = i.marks; column = i.column } };

    ghost invariant = { λ i. (i.column + most_left i.marks < 2 ^ 64) × (most_left i.marks < 2 ^ 63) };
}

impl<F: Feed> FeedInput<F> {
    /// What the feed will give, at its start. Nothing is read yet.
    pub fn new(alloc: Global, feed: F) -> FeedInput<F>
        ensures { result ≡ first_held (F.history feed) }
    {
        FeedInput {
            alloc,
            marks: FeedMarks::new(feed),
            column: 1,
        }
    }

    /// The feed.
    pub fn into_inner(self) -> F
        ensures { F.history result ≡ self.marked.fed.history }
    {
        self.marks.into_inner()
    }

    /// Whether each call answers `Read` from now on.
    pub fn has_failed(&self) -> bool
        ensures { result ≡ has_failed self.now }
    {
        self.marks.is_broken()
    }

    // `Read` behind a fault.
    fn check(&self) -> Result<(), EditFault>
        ensures { MatchResult result (λ _. has_failed self.now ≡ false)
            (λ e. (e ≡ EditFault.Read) × (has_failed self.now ≡ true)) }
    {
        if self.has_failed() {
            return Err(EditFault::Read);
        }
        Ok(())
    }

    /// Whether a character is left.
    pub fn has_character(&mut self) -> Result<bool, EditFault>
        ensures { MatchResult result
            (λ is_left. Reaches (wants_characters 1) (λ i j. (j ≡ i) × (lines.has_character i.marks ≡ is_left))
            self.old self.new)
            (λ e. (e ≡ EditFault.Read) × Fails (wants_characters 1) self.old self.new) }
    {
        self.check()?;
        self.marks.has_character()
    }

    /// The next field of `width` characters, where it stands in one line and was read already. Nothing is taken.
    pub fn line_field(&self, width: u32) -> Option<&[u8]>
        ensures { MatchOption result ⊤ (λ field. (has_failed self.now ≡ false)
            × ((all : List ℕ) → Agrees self.now.marked.fed all → IsLineField width (input_of self.now all) field.now)) }
    {
        if self.has_failed() {
            return None;
        }
        self.marks.line(width)
    }

    /// A field of `width` characters is taken, which stands in one line.
    pub fn pass_line_field(&mut self, width: u32)
        requires { (all : List ℕ) → Agrees self.old.marked.fed all → IsInLine width (marks_left self.old.marked all) }
        ensures fed { self.new.marked.fed ≡ self.old.marked.fed }
        ensures passed { (all : List ℕ) → Agrees self.old.marked.fed all →
            input_of self.new all ≡ lines.behind_field width (input_of self.old all) }
    {
        self.marks.pass(width);
        self.column += u64::from(width);
    }

    // The ends of lines that were looked over are taken before a field, which passes them.
    fn begin_line(&mut self, width: u32)
        ensures { self.new ≡ begun width self.old }
    {
        if width > 0 && self.marks.take_lines() {
            self.column = 1;
        }
    }

    // The next `width` characters, padded with blanks, where one is left; a field that stands in one line as it stands.
    fn fill(&mut self, width: u32, empty: Vec<u8>) -> Result<Vec<u8>, EditFault>
        requires whole { has_failed self.old ≡ false }
        requires empty { (empty.items ≡ []) × (vec_len empty ≡ 0) }
        requires capacity { width ≤ vec_capacity empty }
        ensures { MatchResult result
            (λ field. Reaches (wants_characters width) (λ i j. TakesText width i true (Ok field) j) self.old self.new)
            (λ e. (e ≡ EditFault.Read) × Fails (wants_characters width) self.old self.new) }
    {
        let mut field = empty;
        if let Some(line) = self.line_field(width) {
            field.extend_from_slice(line).unwrap();
            self.pass_line_field(width);
            return Ok(field);
        }
        self.column = take_characters(&mut self.marks, self.column, width, &mut field)?;
        field.resize(width as usize, b' ').unwrap();
        Ok(field)
    }

    // The same with room of its own, behind ends of lines that were looked over.
    fn take_field(&mut self, width: u32) -> Result<Vec<u8>, EditFault>
        requires { has_failed self.old ≡ false }
        ensures { Tells (wants_characters width) (λ i j. TakesText width i true result j) result self.old self.new }
    {
        let empty = Vec::with_capacity(self.alloc, width as usize)?;
        self.begin_line(width);
        self.fill(width, empty)
    }

    /// The next `width` characters, padded with blanks where the input ends inside. `AtEnd` where none is left, and
    /// `Memory`: then nothing is taken.
    pub fn get_a(&mut self, width: u32) -> Result<Vec<u8>, EditFault>
        ensures { Tells (wants_field width) (λ i j. TakesText width i (lines.has_character i.marks) result j) result
            self.old self.new }
    {
        self.check()?;
        if !self.marks.has_character()? {
            return Err(EditFault::AtEnd);
        }
        self.take_field(width)
    }

    /// The number that the next field of `width` characters stands for. `NotNumber` where it stands for none: it is
    /// taken all the same. `AtEnd` where no character is left, and `Memory`: then nothing is taken.
    pub fn get_f(&mut self, width: u32) -> Result<i32, EditFault>
        ensures { Tells (wants_field width) (λ i j. TakesNumber width i (lines.has_character i.marks) result j) result
            self.old self.new }
    {
        if let Some(field) = self.line_field(width) {
            let told = number_told(field);
            self.pass_line_field(width);
            return told;
        }
        match self.get_a(width) {
            Ok(field) => number_told(&field),
            Err(fault) => Err(fault),
        }
    }

    /// So many characters are passed, or those that are left.
    pub fn space(&mut self, count: u32) -> Result<(), EditFault>
        ensures { MatchResult result
            (λ _. Reaches (wants_characters count) (λ i j. j ≡ lines.behind_field count i) self.old self.new)
            (λ e. (e ≡ EditFault.Read) × Fails (wants_characters count) self.old self.new) }
    {
        if self.line_field(count).is_some() {
            self.pass_line_field(count);
            return Ok(());
        }
        self.check()?;
        self.column = pass(&mut self.marks, self.column, count)?;
        Ok(())
    }

    /// To the start of the line after so many line ends, or to the end.
    pub fn skip(&mut self, count: u32) -> Result<(), EditFault>
        ensures { MatchResult result
            (λ _. Reaches (wants_lines count) (λ i j. j ≡ lines.behind_lines count i) self.old self.new)
            (λ e. (e ≡ EditFault.Read) × Fails (wants_lines count) self.old self.new) }
    {
        self.check()?;
        if count > 0 {
            pass_lines(&mut self.marks, count)?;
            self.column = 1;
        }
        Ok(())
    }

    /// To a column of this line, or of the next where it is passed; or to the end of that line.
    pub fn column(&mut self, column: u32) -> Result<(), EditFault>
        ensures { MatchResult result
            (λ _. Reaches (wants_column column self.old.column) (λ i j. j ≡ lines.at_column column i) self.old self.new)
            (λ e. (e ≡ EditFault.Read) × Fails (wants_column column self.old.column) self.old self.new) }
    {
        self.check()?;
        let reached = self.column;
        if reached > u64::from(column) {
            return self.next_column(column);
        }
        self.column = pass_in_line(&mut self.marks, reached, u64::from(column) - reached)?;
        Ok(())
    }

    // To a column of the next line, or to its end.
    fn next_column(&mut self, column: u32) -> Result<(), EditFault>
        requires { has_failed self.old ≡ false }
        ensures { MatchResult result
            (λ _. Reaches (wants_next_line (column - 1))
            (λ i j. j ≡ lines.further_in (column - 1) (lines.behind_lines 1 i)) self.old self.new)
            (λ e. (e ≡ EditFault.Read) × Fails (wants_next_line (column - 1)) self.old self.new) }
    {
        pass_line(&mut self.marks)?;
        let count = u64::from(column.saturating_sub(1));
        self.column = pass_in_line(&mut self.marks, 1, count)?;
        Ok(())
    }
}
