// The bytes of an image, part by part.

ghost use Rattle.std.specs.Prelude.{◌≡◌, ◌*◌, ◌^◌, ◌≤◌, ◌++◌, [], ◌∷◌, length, IfOk, OnOk};
ghost use Rattle.rv_meaning.specs.Memory.{bytes_of_words};
ghost use Rattle.rv_meaning.specs.Images.{magic, version, image, image_bytes, AreBelow};

use crate::header::{MAGIC, VERSION};
use crate::word::{push_word, push_words};
use std::alloc::{AllocError, Global};

fn push_header(
    out: &mut Vec<u8>,
    entry: u32,
    code: u32,
    statics: u32,
    table: u32,
) -> Result<(), AllocError>
    ensures { OnOk result (out.new.items ≡ out.old.items ++ bytes_of_words (magic ∷ version ∷ entry ∷ code ∷ statics ∷ table ∷ [])) }
{
    push_word(out, MAGIC)?;
    push_word(out, VERSION)?;
    push_word(out, entry)?;
    push_word(out, code)?;
    push_word(out, statics)?;
    push_word(out, table)
}

/// The bytes of the image of these parts.
pub fn written(
    alloc: Global,
    entry: u32,
    code: &[u32],
    statics: &[u8],
    table: &[u32],
) -> Result<Vec<u8>, AllocError>
    requires code { length code.now ≤ 2 ^ 20 }
    requires statics { length statics.now ≤ 3 * 2 ^ 20 }
    requires table { length table.now ≤ 2 ^ 20 }
    ensures bytes { IfOk result (λ bytes. bytes.items ≡ image_bytes (image code.now statics.now entry table.now)) }
    ensures code { AreBelow (2 ^ 32) code.now }
    ensures statics { AreBelow 256 statics.now }
    ensures table { AreBelow (2 ^ 32) table.now }
{
    let mut out = Vec::new(alloc);
    push_header(
        &mut out,
        entry,
        code.len() as u32,
        statics.len() as u32,
        table.len() as u32,
    )?;
    push_words(&mut out, code)?;
    out.extend_from_slice(statics)?;
    push_words(&mut out, table)?;
    Ok(out)
}
