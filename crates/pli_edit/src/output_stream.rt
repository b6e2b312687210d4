// What PUT writes on, whatever stands behind it.

ghost use Rattle.std.specs.Prelude.{◌≡◌, ◌||◌, false, true, IsErr};
ghost use Rattle.pli_meaning.specs.Stream as stream;
ghost use Rattle.pli_edit.specs.Faults.{is_fault, is_write};
ghost use Rattle.pli_edit.specs.Fields.{text_field};
ghost use Rattle.pli_edit.specs.OutputStreams.{IsCut, IsWrittenOn, IsFieldWrittenOn};

use crate::fault::EditFault;
use crate::output::Output;

/// Writes fields and control items, one a call. What a call writes is handed over before it returns.
///
/// Contracts see all the output, also what a write that failed left; what of it was handed over; and whether a write
/// failed. Calls take nothing back: of an output that hasn't failed all is handed over, and stays so. `Memory` where
/// there is none, and then nothing changed. `Write` where a write failed in this call or before.
pub trait OutputStream {
    ghost use Rattle.std.specs.Prelude.{Bool, List, ℕ};

    ghost output: { Self → List ℕ };

    // what of the output was handed over
    ghost taken: { Self → List ℕ };

    ghost has_failed: { Self → Bool };

    // calls make the second of the first
    ghost grows: { Self → Self → Type 0 };

    /// Whether a write failed. Then each call that writes answers `Write`.
    fn has_failed(&self) -> bool
        ensures { result ≡ has_failed self.now };

    /// A text in a field of `width` bytes, padded with blanks or cut on the right; as it is without a width.
    ///
    /// # Errors
    ///
    /// `Memory`, `Write`.
    fn put_a(&mut self, text: &[u8], width: Option<u32>) -> Result<(), EditFault>
        ensures written { IsWrittenOn (stream.with_field (text_field width text.now) (output self.old))
            (output self.old) result (output self.new) }
        ensures grows { grows self.old self.new }
        ensures failed { has_failed self.new ≡ (has_failed self.old || is_fault is_write result) }
        ensures again { has_failed self.old ≡ true → result ≡ Err EditFault.Write };

    /// A number at the right end of a field of `width` bytes.
    ///
    /// # Errors
    ///
    /// `TooWide` where the field is too narrow, also after a write that failed, and then nothing changed; `Memory`,
    /// `Write`.
    fn put_f(&mut self, number: i32, width: u32) -> Result<(), EditFault>
        ensures written { IsFieldWrittenOn (stream.fixed_field width number) (output self.old)
            result (output self.new) }
        ensures grows { grows self.old self.new }
        ensures failed { has_failed self.new ≡ (has_failed self.old || is_fault is_write result) }
        ensures again { has_failed self.old ≡ true → IsErr result };

    /// So many blanks.
    ///
    /// # Errors
    ///
    /// `Memory`, `Write`.
    fn space(&mut self, count: u32) -> Result<(), EditFault>
        ensures written { IsWrittenOn (stream.spaced count (output self.old)) (output self.old)
            result (output self.new) }
        ensures grows { grows self.old self.new }
        ensures failed { has_failed self.new ≡ (has_failed self.old || is_fault is_write result) }
        ensures again { has_failed self.old ≡ true → result ≡ Err EditFault.Write };

    /// So many line feeds.
    ///
    /// # Errors
    ///
    /// `Memory`, `Write`.
    fn skip(&mut self, count: u32) -> Result<(), EditFault>
        ensures written { IsWrittenOn (stream.skipped count (output self.old)) (output self.old)
            result (output self.new) }
        ensures grows { grows self.old self.new }
        ensures failed { has_failed self.new ≡ (has_failed self.old || is_fault is_write result) }
        ensures again { has_failed self.old ≡ true → result ≡ Err EditFault.Write };

    /// Blanks up to a column, behind a line feed where it is passed.
    ///
    /// # Errors
    ///
    /// `Memory`, `Write`.
    fn column(&mut self, column: u32) -> Result<(), EditFault>
        ensures written { IsWrittenOn (stream.moved_to_column column (output self.old)) (output self.old)
            result (output self.new) }
        ensures grows { grows self.old self.new }
        ensures failed { has_failed self.new ≡ (has_failed self.old || is_fault is_write result) }
        ensures again { has_failed self.old ≡ true → result ≡ Err EditFault.Write };

    /// An unfinished last line gets its line feed.
    ///
    /// # Errors
    ///
    /// `Memory`, `Write`.
    fn finish(&mut self) -> Result<(), EditFault>
        ensures written { IsWrittenOn (stream.finished (output self.old)) (output self.old)
            result (output self.new) }
        ensures grows { grows self.old self.new }
        ensures failed { has_failed self.new ≡ (has_failed self.old || is_fault is_write result) }
        ensures again { has_failed self.old ≡ true → result ≡ Err EditFault.Write };

    ghost stays: { (s : Self) → grows s s };

    ghost goes_on: { (a b c : Self) → grows a b → grows b c → grows a c };

    // all that stood in an output is taken before a write behind it fails
    ghost cut: { (a b : Self) → grows a b → has_failed a ≡ false → has_failed b ≡ true →
        IsCut (output a) (output b) (taken b) };
}

impl OutputStream for Output {
    ghost use Rattle.pli_edit.specs.Cutting.{never_cut};

    ghost output = { λ o. o };

    ghost taken = { λ o. o };

    ghost has_failed = { λ _. false };

    ghost grows = { λ _ _. Unit {0} };

    fn has_failed(&self) -> bool {
        false
    }

    fn put_a(&mut self, text: &[u8], width: Option<u32>) -> Result<(), EditFault> {
        Output::put_a(self, text, width)
    }

    fn put_f(&mut self, number: i32, width: u32) -> Result<(), EditFault> {
        Output::put_f(self, number, width)
    }

    fn space(&mut self, count: u32) -> Result<(), EditFault> {
        Output::space(self, count)
    }

    fn skip(&mut self, count: u32) -> Result<(), EditFault> {
        Output::skip(self, count)
    }

    fn column(&mut self, column: u32) -> Result<(), EditFault> {
        Output::column(self, column)
    }

    fn finish(&mut self) -> Result<(), EditFault> {
        Output::finish(self)
    }

    ghost stays = { λ _. tt };

    ghost goes_on = { λ _ _ _ _ _. tt };

    ghost cut = { λ a b _ _ e. never_cut a b b e };
}
