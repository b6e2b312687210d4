// From code to its words and the bytes behind them.

ghost use Rattle.std.specs.Prelude.{◌≡◌, ◌*◌, map, IfOk};
ghost use Rattle.rv_meaning.specs.Encoding.{word_of};
ghost use Rattle.rv_meaning.specs.Images.{AllInstructions};
ghost use Rattle.pli_coding.specs.Linking as form;
ghost use Rattle.rv_assembly.specs.Found.{shown};

use crate::bytes::bytes_of;
use crate::code::Code;
use crate::links::{Links, links_in};
use crate::placing::start_behind;
use crate::words::words_of;
use std::alloc::{AllocError, Global};

/// Code at its places.
#[derive(Drop)]
pub struct Linked<'a> {
    /// The words of the code, from the base on.
    pub words: Vec<u32>,
    /// The bytes of its data, from the next multiple of 16 on.
    pub statics: Vec<u8>,
    /// Where its symbols and data stand.
    pub links: Links<'a>,
}

/// The code at its places, with the data that it names behind it. Where its data ends past the 2^32 bytes that a
/// machine's memory has at most, that is want of memory.
pub fn link<'a>(alloc: Global, code: &'a Code) -> Result<Linked<'a>, AllocError>
    ensures words { IfOk result (λ l. l.words.items ≡ map word_of (form.linked (form.links_of code.now) 0 code.now)) }
    ensures instructions { IfOk result (λ l. AllInstructions l.words.items) }
    ensures statics { IfOk result (λ l. l.statics.items ≡ form.data_bytes code.now) }
    ensures places { IfOk result (λ l. shown l.links.marks.items l.links.placed.items ≡ form.links_of code.now) }
{
    let links = links_in(alloc, code)?;
    let words = words_of(alloc, code, &links)?;
    let statics = bytes_of(alloc, &links, start_behind(code.size()))?;
    Ok(Linked {
        words,
        statics,
        links,
    })
}
