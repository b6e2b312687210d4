// The input of GET.

ghost use Rattle.std.specs.Prelude.{◌≡◌, IfOk, IfErr, MatchOption, ⊤};
ghost use Rattle.pli_meaning.specs.InputLines as lines;
ghost use Rattle.pli_meaning.specs.Texts.{number_in_text};
ghost use Rattle.pli_edit.specs.Marks.{IsInLine};
ghost use Rattle.pli_edit.specs.Fields.{IsLineField, IsNumberOf, TakesText, TakesNumber};

use crate::fault::EditFault;
use crate::mark::Marks;
use crate::reading::{pass, pass_in_line, pass_line, take_characters};
use pli_text::number::number_in;
use std::alloc::Global;
use std::marker::Model;

/// More bytes than any memory has; so many columns can be counted.
const MOST_INPUT: usize = 1 << 62;

/// What is left of the input, and the column that is reached. Contracts see both, as marks: characters and the ends of lines.
#[derive(Drop)]
pub struct Input {
    alloc: Global,
    marks: Marks,
    column: u64,
}

impl Model for Input {
    ghost use Rattle.std.specs.Prelude.{◌+◌, ◌<◌, ◌^◌, length};
    ghost use Rattle.pli_meaning.specs.InputLines.{Input as LineInput};

    ghost Value = { LineInput };

    ghost view = { λ i. record { marks = i.marks; column = i.column } };

    ghost invariant = { λ i. i.column + length i.marks < 2 ^ 64 };
}

impl Input {
    /// The whole input, at its start. `Memory` where there is none for it.
    pub fn new(alloc: Global, input: &[u8]) -> Result<Input, EditFault>
        ensures begun { IfOk result (λ i. i ≡ lines.first_input input.now) }
        ensures refused { IfErr result (λ e. e ≡ EditFault.Memory) }
    {
        if input.len() > MOST_INPUT {
            return Err(EditFault::Memory);
        }
        Ok(Input {
            alloc,
            marks: Marks::new(alloc, input)?,
            column: 1,
        })
    }

    /// Whether a character is left.
    pub fn has_character(&self) -> bool
        ensures { result ≡ lines.has_character self.now.marks }
    {
        self.marks.has_character()
    }

    /// The next field of `width` characters, where it stands in one line. Nothing is taken.
    pub fn line_field(&self, width: u32) -> Option<&[u8]>
        ensures { MatchOption result ⊤ (λ field. IsLineField width self.now field.now) }
    {
        self.marks.line(width)
    }

    /// A field of `width` characters is taken, which stands in one line.
    pub fn pass_line_field(&mut self, width: u32)
        requires { IsInLine width self.old.marks }
        ensures { self.new ≡ lines.behind_field width self.old }
    {
        self.marks.pass(width);
        self.column += u64::from(width);
    }

    /// The next `width` characters, padded with blanks where the input ends inside. `AtEnd` where none is left, and `Memory`: then
    /// nothing is taken.
    pub fn get_a(&mut self, width: u32) -> Result<Vec<u8>, EditFault>
        ensures { TakesText width self.old (lines.has_character self.old.marks) result self.new }
    {
        if !self.marks.has_character() {
            return Err(EditFault::AtEnd);
        }
        let mut field = Vec::with_capacity(self.alloc, width as usize)?;
        self.column = take_characters(&mut self.marks, self.column, width, &mut field);
        field.resize(width as usize, b' ').unwrap();
        Ok(field)
    }

    /// The number that the next field of `width` characters stands for. `NotNumber` where it stands for none: it is taken all the
    /// same. `AtEnd` where no character is left, and `Memory`: then nothing is taken.
    pub fn get_f(&mut self, width: u32) -> Result<i32, EditFault>
        ensures { TakesNumber width self.old (lines.has_character self.old.marks) result self.new }
    {
        if let Some(field) = self.line_field(width) {
            let told = number_told(field);
            self.pass_line_field(width);
            return told;
        }
        match self.get_a(width) {
            Ok(field) => number_told(&field),
            Err(fault) => Err(fault),
        }
    }

    /// So many characters are passed, or those that are left.
    pub fn space(&mut self, count: u32)
        ensures { self.new ≡ lines.behind_field count self.old }
    {
        if self.line_field(count).is_some() {
            self.pass_line_field(count);
            return;
        }
        self.column = pass(&mut self.marks, self.column, count);
    }

    /// To the start of the line after so many line ends, or to the end.
    #[tactic(auto, using(crate::proofs::Ways::lines_zero, crate::proofs::Ways::lines_more))]
    pub fn skip(&mut self, count: u32)
        ensures { self.new ≡ lines.behind_lines count self.old }
    {
        let mut left = count;
        while left > 0 {
            pass_line(&mut self.marks);
            self.column = 1;
            left -= 1;
        }
    }

    /// To a column of this line, or of the next where it is passed; or to the end of that line.
    pub fn column(&mut self, column: u32)
        ensures { self.new ≡ lines.at_column column self.old }
    {
        if self.column > u64::from(column) {
            pass_line(&mut self.marks);
            self.column = 1;
        }
        let count = u64::from(column).saturating_sub(self.column);
        self.column = pass_in_line(&mut self.marks, self.column, count);
    }
}

/// The number that a field stands for. `NotNumber` where it stands for none.
pub fn number_told(field: &[u8]) -> Result<i32, EditFault>
    ensures { IsNumberOf (number_in_text field.now) result }
{
    match number_in(field) {
        Some(number) => Ok(number),
        None => Err(EditFault::NotNumber),
    }
}
