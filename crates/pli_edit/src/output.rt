// The output of PUT.

ghost use Rattle.std.specs.Prelude.{◌≡◌, ◌++◌, [], ◌∷◌};
ghost use Rattle.pli_meaning.specs.Stream as stream;
ghost use Rattle.pli_edit.specs.Fields.{text_field, IsWritten, IsFieldWritten};

use crate::fault::EditFault;
use crate::line::{append, line_behind};
use itoa::Buffer;
use pli_text::number::decimal;
use std::alloc::Global;
use std::marker::Model;

/// What is written so far, and how many bytes of it stand in its last line. Contracts see the list of the bytes.
#[derive(Drop)]
pub struct Output {
    bytes: Vec<u8>,
    line: usize,
}

impl Model for Output {
    ghost use Rattle.std.specs.Prelude.{◌≡◌, ◌+◌, ℕ, List};
    ghost use Rattle.pli_meaning.specs.Stream.{column_of};

    ghost Value = { List ℕ };

    ghost view = { λ o. o.bytes.items };

    ghost invariant = { λ o. column_of o.bytes.items ≡ o.line + 1 };
}

impl Output {
    /// Nothing is written.
    pub fn new(alloc: Global) -> Output
        ensures { result ≡ [] }
    {
        Output {
            bytes: Vec::new(alloc),
            line: 0,
        }
    }

    /// What is written.
    pub fn bytes(&self) -> &[u8]
        ensures { result.now ≡ self.now }
    {
        &self.bytes
    }

    /// A text in a field of `width` bytes, padded with blanks or cut on the right; as it is without a width. `Memory` where there is
    /// none, and then nothing changed.
    pub fn put_a(&mut self, text: &[u8], width: Option<u32>) -> Result<(), EditFault>
        ensures { IsWritten (stream.with_field (text_field width text.now) self.old) self.old result self.new }
    {
        let Some(width) = width else {
            return self.write(0, text, 0);
        };
        let kept = text.len().min(width as usize);
        self.write(0, &text[..kept], width - kept as u32)
    }

    /// A number at the right end of a field of `width` bytes. `TooWide` where the field is too narrow, and `Memory` where there is
    /// none; then nothing changed.
    pub fn put_f(&mut self, number: i32, width: u32) -> Result<(), EditFault>
        ensures { IsFieldWritten (stream.fixed_field width number) self.old result self.new }
    {
        let mut buffer = Buffer::new();
        let digits = decimal(&mut buffer, number);
        if digits.len() > width as usize {
            return Err(EditFault::TooWide);
        }
        self.write(width - digits.len() as u32, digits, 0)
    }

    /// So many blanks. `Memory` where there is none, and then nothing changed.
    pub fn space(&mut self, count: u32) -> Result<(), EditFault>
        ensures { IsWritten (stream.spaced count self.old) self.old result self.new }
    {
        self.write(count, b"", 0)
    }

    /// So many line feeds. `Memory` where there is none, and then nothing changed.
    pub fn skip(&mut self, count: u32) -> Result<(), EditFault>
        ensures { IsWritten (stream.skipped count self.old) self.old result self.new }
    {
        if count == 0 {
            return Ok(());
        }
        let length = self.bytes.len();
        self.bytes.resize(length + count as usize, b'\n')?;
        self.line = 0;
        Ok(())
    }

    /// Blanks up to a column, behind a line feed where it is passed. `Memory` where there is none, and then nothing changed.
    pub fn column(&mut self, column: u32) -> Result<(), EditFault>
        ensures { IsWritten (stream.moved_to_column column self.old) self.old result self.new }
    {
        let before = column.saturating_sub(1);
        if self.line < column as usize {
            let line = self.line as u32;
            return self.write(before - line, b"", 0);
        }
        self.write(0, b"\n", before)
    }

    /// An unfinished last line gets its line feed. `Memory` where there is none, and then nothing changed.
    pub fn finish(&mut self) -> Result<(), EditFault>
        ensures { IsWritten (stream.finished self.old) self.old result self.new }
    {
        if self.line == 0 {
            return Ok(());
        }
        self.write(0, b"\n", 0)
    }

    // A text behind blanks and before blanks.
    fn write(&mut self, before: u32, text: &[u8], behind: u32) -> Result<(), EditFault>
        ensures { IsWritten (self.old ++ (stream.blanks before ++ (text.now ++ stream.blanks behind))) self.old result self.new }
    {
        append(&mut self.bytes, before, text, behind)?;
        self.line = line_behind(self.line + before as usize, text) + behind as usize;
        Ok(())
    }
}
