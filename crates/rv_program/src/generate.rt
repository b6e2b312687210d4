// From a typed program to its image.

ghost use Rattle.std.specs.Prelude.{◌≡◌, map, IfOk};
ghost use Rattle.rv_meaning.specs.Encoding.{word_of};
ghost use Rattle.rv_meaning.specs.Images.{image};
ghost use Rattle.pli_typing.specs.TypedStatementView.{program_of};
ghost use Rattle.pli_coding.specs.Linking.{data_bytes};
ghost use Rattle.pli_coding.specs.Images as form;
ghost use Rattle.pli_frames.specs.Parts.{parts};
ghost use Rattle.rv_assembly.specs.Fitting.{AllFit};
ghost use Rattle.rv_program.specs.Generated.{IsCodeOf};

use crate::table::table_words;
use crate::whole::code_of;
use pli_typing::statement::Typed;
use rv_address::known::Known;
use rv_assembly::code::Code;
use rv_assembly::link::{Linked, link};
use rv_image::image::Image;
use std::alloc::{AllocError, Global};

/// The image of code, which a run enters at its start.
fn image_with(alloc: Global, code: &Code, table: Vec<u32>) -> Result<Image, AllocError>
    ensures { IfOk result (λ i. i ≡ image (map word_of (form.linked_code code.now)) (data_bytes code.now) 0 table.items) }
{
    let Linked {
        words,
        statics,
        links: _links,
    } = link(alloc, code)?;
    match Image::loadable(words, statics, 0, table)? {
        Some(image) => Ok(image),
        None => Err(AllocError),
    }
}

/// The code of a program, before it stands at its places.
pub fn unlinked(alloc: Global, typed: &Typed) -> Result<Code, AllocError>
    ensures { IfOk result (λ code. code ≡ form.code_of parts (program_of typed.now)) }
{
    let known = Known::new(alloc, typed)?;
    Ok(code_of(alloc, &known)?)
}

/// That each item of code holds its numbers, which is so of all code: calling it does nothing.
fn holds_numbers(code: &Code)
    ensures { AllFit code.now }
{
    let _ = code.items();
}

/// The image of a program. Where it has more code, static data or signatures than a machine loads, that is want of memory.
pub fn generate(alloc: Global, typed: &Typed) -> Result<Image, AllocError>
    ensures { IfOk result (λ image. IsCodeOf (program_of typed.now) image) }
{
    let known = Known::new(alloc, typed)?;
    let code = code_of(alloc, &known)?;
    let table = table_words(alloc, &known)?;
    holds_numbers(&code);
    Ok(image_with(alloc, &code, table)?)
}
