// The calls of an input, wherever it comes from.

ghost use Rattle.std.specs.Prelude.{◌≡◌, ℕ, Bool, List, MatchOption, MatchResult, false, true, ⊤};
ghost use Rattle.pli_meaning.specs.InputLines as lines;
ghost use Rattle.pli_meaning.specs.InputLines.{Input as LineInput};
ghost use Rattle.pli_edit.specs.Faults.{is_fault, is_read, UnlessRead};
ghost use Rattle.pli_edit.specs.Fields.{IsLineField, TakesNumber, TakesText};
ghost use Rattle.pli_edit.specs.Marks.{IsInLine};

use crate::fault::EditFault;

/// An input that GET reads. Contracts see what it is for each whole list of bytes that agrees with what was read of it;
/// a call says
/// what it does for each list that agrees by its end. `Read` is answered where a read fails, and from then on.
pub trait InputStream {
    // what was read agrees with a list of bytes
    ghost agrees: { Self → List ℕ → Type 0 };

    // what is left for such a list, and the column that is reached
    ghost input: { Self → List ℕ → LineInput };

    ghost has_failed: { Self → Bool };

    // calls make the second of the first
    ghost follows: { Self → Self → Type 0 };

    /// Whether each call answers `Read` from now on.
    fn has_failed(&self) -> bool
        ensures { result ≡ has_failed self.now };

    /// Whether a character is left.
    fn has_character(&mut self) -> Result<bool, EditFault>
        ensures follows { follows self.old self.new }
        ensures failed { has_failed self.new ≡ is_fault is_read result }
        ensures told { MatchResult result
            (λ is_left. (all : List ℕ) → agrees self.new all → (input self.new all ≡ input self.old all) ×
            (lines.has_character (input self.old all).marks ≡ is_left))
            (λ e. e ≡ EditFault.Read) };

    /// The next field of `width` characters, where it stands in one line and is at hand. Nothing is taken.
    fn line_field(&self, width: u32) -> Option<&[u8]>
        ensures { MatchOption result ⊤ (λ field. (has_failed self.now ≡ false)
            × ((all : List ℕ) → agrees self.now all → IsLineField width (input self.now all) field.now)) };

    /// A field of `width` characters is taken, which stands in one line.
    fn pass_line_field(&mut self, width: u32)
        requires { (all : List ℕ) → agrees self.old all → IsInLine width (input self.old all).marks }
        ensures follows { follows self.old self.new }
        ensures failed { has_failed self.new ≡ has_failed self.old }
        ensures passed { (all : List ℕ) → agrees self.new all →
            input self.new all ≡ lines.behind_field width (input self.old all) };

    /// The next `width` characters, padded with blanks where the input ends inside. `AtEnd` where none is left, and
    /// `Memory`: then
    /// nothing is taken.
    fn get_a(&mut self, width: u32) -> Result<Vec<u8>, EditFault>
        ensures follows { follows self.old self.new }
        ensures failed { has_failed self.new ≡ is_fault is_read result }
        ensures taken { (all : List ℕ) → agrees self.new all →
            UnlessRead result (TakesText width (input self.old all) (lines.has_character (input self.old all).marks)
            result (input self.new all)) };

    /// The number that the next field of `width` characters stands for. `NotNumber` where it stands for none: it is
    /// taken all the
    /// same. `AtEnd` where no character is left, and `Memory`: then nothing is taken.
    fn get_f(&mut self, width: u32) -> Result<i32, EditFault>
        ensures follows { follows self.old self.new }
        ensures failed { has_failed self.new ≡ is_fault is_read result }
        ensures taken { (all : List ℕ) → agrees self.new all →
            UnlessRead result (TakesNumber width (input self.old all) (lines.has_character (input self.old all).marks)
            result (input self.new all)) };

    /// So many characters are passed, or those that are left.
    fn space(&mut self, count: u32) -> Result<(), EditFault>
        ensures follows { follows self.old self.new }
        ensures failed { has_failed self.new ≡ is_fault is_read result }
        ensures moved { MatchResult result
            (λ _. (all : List ℕ) → agrees self.new all →
            input self.new all ≡ lines.behind_field count (input self.old all))
            (λ e. e ≡ EditFault.Read) };

    /// To the start of the line after so many line ends, or to the end.
    fn skip(&mut self, count: u32) -> Result<(), EditFault>
        ensures follows { follows self.old self.new }
        ensures failed { has_failed self.new ≡ is_fault is_read result }
        ensures moved { MatchResult result
            (λ _. (all : List ℕ) → agrees self.new all →
            input self.new all ≡ lines.behind_lines count (input self.old all))
            (λ e. e ≡ EditFault.Read) };

    /// To a column of this line, or of the next where it is passed; or to the end of that line.
    fn column(&mut self, column: u32) -> Result<(), EditFault>
        ensures follows { follows self.old self.new }
        ensures failed { has_failed self.new ≡ is_fault is_read result }
        ensures moved { MatchResult result
            (λ _. (all : List ℕ) → agrees self.new all →
            input self.new all ≡ lines.at_column column (input self.old all))
            (λ e. e ≡ EditFault.Read) };

    ghost stays: { (s : Self) → follows s s };

    ghost goes_on: { (a b c : Self) → follows a b → follows b c → follows a c };

    ghost agreed: { (a b : Self) (all : List ℕ) → follows a b → agrees b all → agrees a all };

    ghost broken: { (a b : Self) → follows a b → has_failed a ≡ true → has_failed b ≡ true };
}
