// What stands before the parts of an image, and whether bytes are those of one.

ghost use Rattle.std.specs.Prelude.{◌≡◌, ◌+◌, ◌*◌, ◌^◌, ◌<◌, ◌≤◌, ◌↔◌, ◌%◌, length, IsTrue, MatchResult};
ghost use Rattle.rv_meaning.specs.declared.image.ImageFault.TheVariants as F;
ghost use Rattle.rv_meaning.specs.Tables.{IsTable};
ghost use Rattle.rv_meaning.specs.Images.{AllInstructions, words_at, table_start, table_length, code_length, entry_in, LengthsFit, Keeps};
ghost use Rattle.rv_image.specs.Headers.{IsHeaderOf, IsChecked, IsRefusal, header_statics, header_table, header_end};

use crate::table::is_table;
use crate::word::word_at;
use rv_isa::decode::decode;
use rv_meaning::image::ImageFault;

/// The bytes `PLIR`, as a word.
pub const MAGIC: u32 = 0x5249_4c50;

pub const VERSION: u32 = 1;

/// Where the code begins.
pub const CODE_START: usize = 24;

const MOST_WORDS: u32 = 0x10_0000;

const MOST_STATICS: u32 = 0x30_0000;

/// Where a run begins, and how long the parts are.
#[derive(Clone, Copy)]
pub struct Header {
    /// In bytes from the start of the code.
    pub entry: u32,
    /// In words.
    pub code: u32,
    /// In bytes.
    pub statics: u32,
    /// In words.
    pub table: u32,
}

impl Header {
    pub fn statics_start(&self) -> usize
        ensures { result ≡ header_statics self.now }
    {
        CODE_START + 4 * self.code as usize
    }

    pub fn table_start(&self) -> usize
        ensures { result ≡ header_table self.now }
    {
        self.statics_start() + self.statics as usize
    }

    pub fn end(&self) -> usize
        ensures { result ≡ header_end self.now }
    {
        self.table_start() + 4 * self.table as usize
    }
}

fn has_magic(bytes: &[u8]) -> bool
    ensures { IsTrue result ↔ Keeps F.Magic bytes.now }
{
    bytes.len() >= 4 && word_at(bytes, 0) == MAGIC
}

fn has_version(bytes: &[u8]) -> bool
    ensures { IsTrue result ↔ Keeps F.Version bytes.now }
{
    bytes.len() >= 8 && word_at(bytes, 4) == VERSION
}

fn header_at(bytes: &[u8]) -> Header
    requires { 24 ≤ length bytes.now }
    ensures { IsHeaderOf result bytes.now }
{
    Header {
        entry: word_at(bytes, 8),
        code: word_at(bytes, 12),
        statics: word_at(bytes, 16),
        table: word_at(bytes, 20),
    }
}

fn lengths_fit(bytes: &[u8]) -> bool
    ensures { IsTrue result ↔ LengthsFit bytes.now }
{
    if bytes.len() < CODE_START {
        return false;
    }
    let header = header_at(bytes);
    if header.code == 0 || header.code > MOST_WORDS {
        return false;
    }
    if header.statics > MOST_STATICS || header.table > MOST_WORDS {
        return false;
    }
    header.end() <= bytes.len()
}

fn are_instructions(bytes: &[u8], count: u32) -> bool
    requires inside { 24 + 4 * count ≤ length bytes.now }
    ensures { IsTrue result ↔ AllInstructions (words_at count bytes.now 24) }
{
    for k in 0..count {
        match decode(word_at(bytes, CODE_START + 4 * k as usize)) {
            Some(_) => {}
            None => return false,
        }
    }
    true
}

fn lists_signatures(bytes: &[u8], header: Header) -> bool
    requires header { IsHeaderOf header bytes.now }
    requires inside { header_end header ≤ length bytes.now }
    ensures { IsTrue result ↔ Keeps F.Table bytes.now }
{
    is_table(&bytes[header.table_start()..header.end()])
}

fn enters_code(header: Header) -> bool
    ensures { IsTrue result ↔ ((header.entry % 4 ≡ 0) × (header.entry < 4 * header.code)) }
{
    header.entry % 4 == 0 && (header.entry as usize) < 4 * header.code as usize
}

/// The header of bytes that are an image's.
///
/// # Errors
///
/// Of the rules that the bytes break, the one of the least number.
pub fn checked(bytes: &[u8]) -> Result<Header, ImageFault>
    ensures { MatchResult result (λ header. IsChecked header bytes.now) (λ fault. IsRefusal bytes.now fault) }
{
    if !has_magic(bytes) {
        return Err(ImageFault::Magic);
    }
    if !has_version(bytes) {
        return Err(ImageFault::Version);
    }
    if !lengths_fit(bytes) {
        return Err(ImageFault::Length);
    }
    let header = header_at(bytes);
    if !are_instructions(bytes, header.code) {
        return Err(ImageFault::Word);
    }
    if !lists_signatures(bytes, header) {
        return Err(ImageFault::Table);
    }
    if !enters_code(header) {
        return Err(ImageFault::Entry);
    }
    if bytes.len() > header.end() {
        return Err(ImageFault::Trailing);
    }
    Ok(header)
}
