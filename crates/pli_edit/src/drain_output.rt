// Output that goes to a drain.

ghost use Rattle.std.specs.Prelude.{◌≡◌, ◌||◌, ◌+◌, ◌^◌, ◌<◌, ◌++◌, [], true, false, length, min, replicate};
ghost use Rattle.pli_meaning.specs.Stream.{blanks};
ghost use Rattle.pli_edit.specs.Drained.{taken_since, output_of, one_if, last_line, most_line, Grows, IsDrained};
ghost use Rattle.pli_edit.specs.Faults.{is_fault, is_write};
ghost use Rattle.pli_edit.specs.Handing.{fruitless};
ghost use Rattle.pli_edit.specs.OutputStreams.{IsWrittenOn};

use crate::drain::{Before, Drain};
use crate::fault::EditFault;
use crate::handing::hand_field;
use crate::left::with_field_left;
use crate::line::line_behind;
use crate::output_stream::OutputStream;
use boxcar::tag::Tag;
use itoa::Buffer;
use pli_text::number::decimal;
use std::marker::PhantomData;

/// A longer line is as good as endless: no field or column is so wide.
const MOST_LINE: usize = 1 << 32;

/// Writes on a drain. It keeps no bytes: what a call writes is handed over before it returns.
///
/// After a write that failed or took nothing none is made, and each call that would write answers `Write`.
#[derive(Drop)]
pub struct DrainOutput<D: Drain, B: Before> {
    drain: D,
    line: usize,
    has_failed: bool,
    left: Tag,
    before: PhantomData<B>,
    ghost grown: { B.before.bytes ++ taken_since B.before (D.history drain) ≡ (D.history drain).bytes },
    ghost told: { fruitless (D.history drain) ≡ fruitless B.before + one_if has_failed },
    ghost none_left: { has_failed ≡ false → left.numbers ≡ [] },
    ghost some_left: { has_failed ≡ true → 0 < length left.numbers },
    ghost counted: { line ≡ min (last_line (output_of B.before (D.history drain) left.numbers)) most_line },
}

impl<D: Drain, B: Before> DrainOutput<D, B> {
    /// Nothing is written. What the drain took before is none of this output.
    pub fn new(drain: D) -> DrainOutput<D, B>
        requires { D.history drain ≡ B.before }
        ensures output { output_of B.before (D.history result.drain) result.left.numbers ≡ [] }
        ensures whole { result.has_failed ≡ false }
    {
        DrainOutput {
            drain,
            line: 0,
            has_failed: false,
            left: Tag::empty(),
            before: PhantomData,
        }
    }

    /// The drain back.
    pub fn into_inner(self) -> D
        ensures drained { IsDrained B.before (output_of B.before (D.history self.drain) self.left.numbers)
            self.has_failed (D.history result) }
        ensures taken { taken_since B.before (D.history self.drain) ≡ taken_since B.before (D.history result) }
    {
        self.drain
    }

    // A text between fill bytes, behind which the last line is so long.
    fn send(
        &mut self,
        fill: u8,
        before: usize,
        text: &[u8],
        behind: usize,
        line: usize,
    ) -> Result<(), EditFault>
        requires fits { before + length text.now + behind < 2 ^ 64 }
        requires counted { line ≡ min (last_line (output_of B.before (D.history self.old.drain) self.old.left.numbers
            ++ (replicate before fill ++ (text.now ++ replicate behind fill)))) most_line }
        ensures written { IsWrittenOn (output_of B.before (D.history self.old.drain) self.old.left.numbers
            ++ (replicate before fill ++ (text.now ++ replicate behind fill)))
            (output_of B.before (D.history self.old.drain) self.old.left.numbers) result
            (output_of B.before (D.history self.new.drain) self.new.left.numbers) }
        ensures grows { Grows (D.history self.old.drain) (D.history self.new.drain) }
        ensures failed { self.new.has_failed ≡ (self.old.has_failed || is_fault is_write result) }
        ensures again { self.old.has_failed ≡ true → result ≡ Err EditFault.Write }
    {
        self.line = line;
        if self.has_failed {
            self.left = with_field_left(&self.left, fill, before, text, behind, 0);
            return Err(EditFault::Write);
        }
        if let Err(count) = hand_field(&mut self.drain, fill, before, text, behind) {
            self.has_failed = true;
            self.left = with_field_left(&self.left, fill, before, text, behind, count);
            return Err(EditFault::Write);
        }
        Ok(())
    }

    // A text behind blanks and before blanks.
    fn put(&mut self, before: u32, text: &[u8], behind: u32) -> Result<(), EditFault>
        ensures written { IsWrittenOn (output_of B.before (D.history self.old.drain) self.old.left.numbers
            ++ (blanks before ++ (text.now ++ blanks behind)))
            (output_of B.before (D.history self.old.drain) self.old.left.numbers) result
            (output_of B.before (D.history self.new.drain) self.new.left.numbers) }
        ensures grows { Grows (D.history self.old.drain) (D.history self.new.drain) }
        ensures failed { self.new.has_failed ≡ (self.old.has_failed || is_fault is_write result) }
        ensures again { self.old.has_failed ≡ true → result ≡ Err EditFault.Write }
    {
        let (before, behind) = (before as usize, behind as usize);
        let line = line_behind(self.line + before, text) + behind;
        self.send(b' ', before, text, behind, line.min(MOST_LINE))
    }
}

impl<D: Drain, B: Before> OutputStream for DrainOutput<D, B> {
    ghost use Rattle.pli_edit.specs.Cutting.{cut_drain, grows_none, grows_then};

    ghost output = { λ o. output_of B.before (D.history o.drain) o.left.numbers };

    ghost taken = { λ o. taken_since B.before (D.history o.drain) };

    ghost has_failed = { λ o. o.has_failed };

    ghost grows = { λ a b. Grows (D.history a.drain) (D.history b.drain) };

    fn has_failed(&self) -> bool {
        self.has_failed
    }

    fn put_a(&mut self, text: &[u8], width: Option<u32>) -> Result<(), EditFault> {
        let Some(width) = width else {
            return self.put(0, text, 0);
        };
        let kept = text.len().min(width as usize);
        self.put(0, &text[..kept], width - kept as u32)
    }

    fn put_f(&mut self, number: i32, width: u32) -> Result<(), EditFault> {
        let mut buffer = Buffer::new();
        let digits = decimal(&mut buffer, number);
        if digits.len() <= width as usize {
            return self.put(width - digits.len() as u32, digits, 0);
        }
        Err(EditFault::TooWide)
    }

    fn space(&mut self, count: u32) -> Result<(), EditFault> {
        self.put(count, b"", 0)
    }

    fn skip(&mut self, count: u32) -> Result<(), EditFault> {
        if count == 0 {
            return self.put(0, b"", 0);
        }
        self.send(b'\n', count as usize, b"", 0, 0)
    }

    fn column(&mut self, column: u32) -> Result<(), EditFault> {
        let before = column.saturating_sub(1);
        if self.line < column as usize {
            let line = self.line as u32;
            return self.put(before - line, b"", 0);
        }
        self.put(0, b"\n", before)
    }

    fn finish(&mut self) -> Result<(), EditFault> {
        if self.line == 0 {
            return self.put(0, b"", 0);
        }
        self.put(0, b"\n", 0)
    }

    ghost stays = { λ a. grows_none (D.history a.drain) };

    ghost goes_on = { λ a b c h k. grows_then (D.history a.drain) (D.history b.drain) (D.history c.drain) h k };

    ghost cut = { λ a b h e f. cut_drain B.before (D.history a.drain) (D.history b.drain) a.left.numbers b.left.numbers
        a.grown (a.none_left e) h (b.some_left f) };
}
