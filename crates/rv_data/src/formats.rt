// Format lists, each item as its kind, its repetition, and its width or number; the items of a list stand behind it.

ghost use Rattle.std.specs.Prelude.{◌≡◌, suc, ◌+◌, ◌++◌, OnOk, IfOk};
ghost use Rattle.rv_meaning.specs.Memory.{bytes_of_words};
ghost use Rattle.pli_language.specs.View.{format_of, formats_of};
ghost use Rattle.pli_coding.specs.StaticForms as form;
ghost use Rattle.rv_assembly.specs.View.{datum_of};
ghost use Rattle.rv_data.specs.Waiting.{formats_weight, inside_weight, inside_words, item_words, waiting_weight, waiting_words};

use crate::bytes::{put_triple, put_word};
use pli_language::stmt::{Format, Formats};
use rv_assembly::item::Datum;
use std::alloc::{AllocError, Global};

/// How many items a list has.
#[tactic(auto, using(pli_language::proofs::Views::views))]
fn length_of(formats: &Formats) -> Result<u64, AllocError>
    ensures { IfOk result (λ n. n ≡ form.formats_length (formats_of formats.now)) }
{
    let mut length = 0u64;
    let mut left = formats;
    while let Formats::More { rest, .. } = left {
        length = length.checked_add(1).ok_or(AllocError)?;
        left = rest;
    }
    Ok(length)
}

/// An item by itself, without those that stand in it.
#[tactic(auto, using(pli_language::proofs::Views::views))]
fn put_item(bytes: &mut Vec<u8>, repetition: u64, format: &Format) -> Result<(), AllocError>
    ensures { OnOk result (bytes.new.items ≡ bytes.old.items ++ bytes_of_words (item_words repetition (format_of format.now))) }
{
    match format {
        Format::Fixed { width } => put_triple(bytes, 1, repetition, *width),
        Format::Text { width } => put_triple(bytes, 2, repetition, width.unwrap_or(0)),
        Format::Space { number } => put_triple(bytes, 3, repetition, *number),
        Format::Skip { number } => put_triple(bytes, 4, repetition, *number),
        Format::Column { number } => put_triple(bytes, 5, repetition, *number),
        Format::List(formats) => put_triple(bytes, 6, repetition, length_of(formats)?),
    }
}

#[tactic(auto, using(pli_language::proofs::Views::views, crate::proofs::Waits::one_waits, crate::proofs::Waits::one_weighs))]
fn wait_inside<'a>(waiting: &mut Vec<&'a Formats>, format: &'a Format) -> Result<(), AllocError>
    ensures words { OnOk result (waiting_words waiting.new.items ≡ inside_words (format_of format.now) ++ waiting_words waiting.old.items) }
    ensures weight { OnOk result (waiting_weight waiting.new.items ≡ waiting_weight waiting.old.items + inside_weight (format_of format.now)) }
{
    if let Format::List(formats) = format {
        waiting.push(formats)?;
    }
    Ok(())
}

/// The first item of a list; what stands in it and behind it waits.
#[tactic(auto, using(pli_language::proofs::Views::views, crate::proofs::Waits::one_waits, crate::proofs::Waits::one_weighs))]
fn put_first<'a>(
    bytes: &mut Vec<u8>,
    waiting: &mut Vec<&'a Formats>,
    formats: &'a Formats,
) -> Result<(), AllocError>
    ensures words { OnOk result (bytes.new.items ++ bytes_of_words (waiting_words waiting.new.items) ≡ bytes.old.items ++ bytes_of_words (form.formats_words (formats_of formats.now) ++ waiting_words waiting.old.items)) }
    ensures weight { OnOk result (suc (waiting_weight waiting.new.items) ≡ formats_weight (formats_of formats.now) + waiting_weight waiting.old.items) }
{
    match formats {
        Formats::End => Ok(()),
        Formats::More {
            repetition,
            first,
            rest,
            ..
        } => {
            put_item(bytes, *repetition, first)?;
            waiting.push(rest)?;
            wait_inside(waiting, first)?;
            Ok(())
        }
    }
}

/// The items of a list; lists in it, as deep as they are, wait on a stack.
#[tactic(auto, using(crate::proofs::Waits::one_waits, crate::proofs::Waits::one_weighs))]
fn put_formats(alloc: Global, bytes: &mut Vec<u8>, formats: &Formats) -> Result<(), AllocError>
    ensures { OnOk result (bytes.new.items ≡ bytes.old.items ++ bytes_of_words (form.formats_words (formats_of formats.now))) }
{
    let mut waiting = Vec::new(alloc);
    waiting.push(formats)?;
    while let Some(next) = waiting.pop() {
        put_first(bytes, &mut waiting, next)?;
    }
    Ok(())
}

/// A format list behind the number of its items. (X3.53 section 8.3.)
pub fn formats_datum(alloc: Global, formats: &Formats) -> Result<Datum, AllocError>
    ensures { IfOk result (λ d. datum_of d ≡ form.formats_datum (formats_of formats.now)) }
{
    let mut bytes = Vec::new(alloc);
    put_word(&mut bytes, length_of(formats)?)?;
    put_formats(alloc, &mut bytes, formats)?;
    Ok(Datum::ConstantBytes(bytes))
}
