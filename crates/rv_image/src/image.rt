// Programs as a machine takes them, and their bytes.

ghost use Rattle.std.specs.Prelude.{◌≡◌, ℕ, ◌+◌, ◌*◌, ◌^◌, ◌%◌, ◌<◌, ◌≤◌, ◌↔◌, IsTrue, length, vec_len, IfOk, MatchOption, MatchResult};
ghost use Rattle.rv_meaning.specs.declared.image.ImageFault.TheVariants.{Memory};
ghost use Rattle.rv_meaning.specs.Images.{Image, image, IsLoadable, AllInstructions, HasBytes};
ghost use Rattle.rv_image.specs.Headers.{IsFaultOf};

use crate::header::{CODE_START, checked};
use crate::table::lists_signatures;
use crate::word::words_at;
use crate::writing::written;
use rv_isa::code::Code;
use rv_isa::decode::decode;
use rv_meaning::image::ImageFault;
use std::alloc::{AllocError, Global};
use std::marker::Model;

/// A program that a machine can run: its code words, the bytes of its statics, where it begins, and its table.
#[derive(Debug, Drop)]
pub struct Image {
    code: Vec<u32>,
    statics: Vec<u8>,
    entry: u32,
    table: Vec<u32>,
}

impl Model for Image {
    ghost Value = { Image };

    ghost view = { λ a. image a.code.items a.statics.items a.entry a.table.items };

    ghost invariant = { λ a. IsLoadable (image a.code.items a.statics.items a.entry a.table.items) };
}

impl Image {
    /// Of code whose calls are patched.
    pub fn from_code(code: Code) -> Image
        requires loadable { IsLoadable (image code.words.items code.statics.items code.entry code.table.items) }
        requires patched { vec_len code.calls ≡ 0 }
        ensures { result ≡ image code.words.items code.statics.items code.entry code.table.items }
    {
        let Code {
            words,
            statics,
            entry,
            table,
            calls: _,
        } = code;
        Image {
            code: words,
            statics,
            entry,
            table,
        }
    }

    /// The image of these parts, none where no machine can load them.
    pub fn loadable(
        code: Vec<u32>,
        statics: Vec<u8>,
        entry: u32,
        table: Vec<u32>,
    ) -> Result<Option<Image>, AllocError>
        ensures { IfOk result (λ found. MatchOption found (¬ IsLoadable (image code.items statics.items entry table.items)) (λ i. i ≡ image code.items statics.items entry table.items)) }
    {
        if !lengths_fit(&code, &statics, &table) || !enters_code(&code, entry) {
            return Ok(None);
        }
        let alloc = *table.allocator();
        if !are_instructions(&code) {
            return Ok(None);
        }
        if !lists_signatures(alloc, &table)? {
            return Ok(None);
        }
        Ok(Some(Image {
            code,
            statics,
            entry,
            table,
        }))
    }

    /// Where the run begins, in bytes from the first code word.
    pub fn entry(&self) -> u32
        ensures value { result ≡ self.now.entry }
        ensures loadable { IsLoadable self.now }
    {
        self.entry
    }

    /// At least 1 and at most 1,048,576 words, each that of an instruction.
    pub fn code(&self) -> &[u32]
        ensures value { result.now ≡ self.now.code }
        ensures loadable { IsLoadable self.now }
    {
        &self.code
    }

    /// At most 3 MiB.
    pub fn statics(&self) -> &[u8]
        ensures value { result.now ≡ self.now.statics }
        ensures loadable { IsLoadable self.now }
    {
        &self.statics
    }

    /// At most 1,048,576 words, a list of signatures.
    pub fn table(&self) -> &[u32]
        ensures value { result.now ≡ self.now.table }
        ensures loadable { IsLoadable self.now }
    {
        &self.table
    }

    /// What a step of the program's meaning may cost, in instructions.
    pub fn step_cost(&self) -> u64
        ensures { result ≡ 2 * length self.now.code + 2 }
    {
        2 * self.code.len() as u64 + 2
    }

    /// Its bytes in a file.
    ///
    /// # Errors
    ///
    /// `Memory` where there is none for them.
    pub fn to_bytes(&self) -> Result<Vec<u8>, ImageFault>
        ensures { MatchResult result (λ bytes. HasBytes self.now bytes.items) (λ fault. fault ≡ Memory) }
    {
        let alloc = *self.code.allocator();
        Ok(written(alloc, self.entry, &self.code, &self.statics, &self.table)?)
    }

    /// The image that has these bytes.
    ///
    /// # Errors
    ///
    /// Of the rules that the bytes break, the one of the least number; `Memory` where they are an image's and there is no
    /// memory for it.
    pub fn from_bytes(alloc: Global, bytes: &[u8]) -> Result<Image, ImageFault>
        ensures { MatchResult result (λ i. HasBytes i bytes.now) (λ fault. IsFaultOf bytes.now fault) }
    {
        let header = checked(bytes)?;
        let statics = &bytes[header.statics_start()..header.table_start()];
        let code = words_at(alloc, bytes, CODE_START, header.code as usize)?;
        let statics = Vec::from_slice(alloc, statics)?;
        let table = words_at(alloc, bytes, header.table_start(), header.table as usize)?;
        Ok(Image {
            code,
            statics,
            entry: header.entry,
            table,
        })
    }
}

/// Whether code without a table is what a machine can run: between 1 and 1,048,576 words, each that of an instruction, an
/// entry at one of them, at most 3 MiB of static bytes, and no table words.
pub fn is_loadable(code: &Code) -> bool
    ensures { IsTrue result ↔ (IsLoadable (image code.now.words.items code.now.statics.items code.now.entry code.now.table.items) × (length code.now.table.items ≡ 0)) }
{
    let count = code.words.len();
    if count == 0 || count > 0x10_0000 || code.statics.len() > 0x30_0000 || !code.table.is_empty() {
        return false;
    }
    if code.entry % 4 != 0 || code.entry as usize >= 4 * count {
        return false;
    }
    are_instructions(&code.words)
}

fn lengths_fit(code: &[u32], statics: &[u8], table: &[u32]) -> bool
    ensures { IsTrue result ↔ (1 ≤ length code.now) × (length code.now ≤ 2 ^ 20) × (length statics.now ≤ 3 * 2 ^ 20) × (length table.now ≤ 2 ^ 20) }
{
    1 <= code.len()
        && code.len() <= 0x10_0000
        && statics.len() <= 0x30_0000
        && table.len() <= 0x10_0000
}

fn enters_code(code: &[u32], entry: u32) -> bool
    ensures { IsTrue result ↔ ((entry % 4 ≡ 0) × (entry < 4 * length code.now)) }
{
    entry % 4 == 0 && (entry as usize) < 4 * code.len()
}

fn are_instructions(words: &[u32]) -> bool
    ensures { IsTrue result ↔ AllInstructions words.now }
{
    for word in words {
        match decode(*word) {
            Some(_) => {}
            None => return false,
        }
    }
    true
}
