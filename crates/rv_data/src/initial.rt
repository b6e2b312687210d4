// INITIAL values: for each leaf that has some, the values with their repetitions.

ghost use Rattle.std.specs.Prelude.{◌≡◌, map, [], ◌∷◌, ◌++◌, length, OnOk, IfOk};
ghost use Rattle.std.specs.List.{flat_map};
ghost use Rattle.rv_meaning.specs.Words.{word};
ghost use Rattle.pli_language.specs.View.{initial_item_of, initial_value_of, option_of};
ghost use Rattle.pli_typing.specs.TypedView.{leaf_of};
ghost use Rattle.pli_typing.specs.TypedStatementView.{declared_variable_of};
ghost use Rattle.pli_coding.specs.StaticForms as form;
ghost use Rattle.rv_assembly.specs.View as code;

use crate::bytes::{put_padded, put_pair, put_word};
use pli_language::declaration::{InitialItem, InitialValue};
use pli_typing::typed::{DeclaredVariable, Leaf};
use rv_assembly::item::{Datum, InitialLeaf};
use std::alloc::{AllocError, Global};

/// A number from -2^31 to 2^32 - 1 as a word; all that INITIAL may give is less.
fn word_of(number: i64) -> Result<u32, AllocError>
    ensures { IfOk result (λ w. w ≡ word number) }
{
    if number < -(1 << 31) || number >= 1 << 32 {
        return Err(AllocError);
    }
    if number < 0 {
        return Ok((number as i32).cast_unsigned());
    }
    Ok(number as u32)
}

/// A value as its kind, its number or length, and its text.
fn put_value(bytes: &mut Vec<u8>, value: &InitialValue) -> Result<(), AllocError>
    ensures { OnOk result (bytes.new.items ≡ bytes.old.items ++ form.value_bytes (initial_value_of value.now)) }
{
    match value {
        InitialValue::Number(number) => put_pair(bytes, 1, u64::from(word_of(*number)?)),
        InitialValue::Text(text) => {
            put_pair(bytes, 2, text.len() as u64)?;
            put_padded(bytes, text)
        }
        InitialValue::Bit(bit) => put_pair(bytes, 1, u64::from(*bit)),
        InitialValue::Skip => put_pair(bytes, 0, 0),
        InitialValue::Null => put_pair(bytes, 3, 0),
        InitialValue::Empty => put_pair(bytes, 0, 0),
    }
}

fn put_item(bytes: &mut Vec<u8>, item: &InitialItem) -> Result<(), AllocError>
    ensures { OnOk result (bytes.new.items ≡ bytes.old.items ++ form.item_bytes (initial_item_of item.now)) }
{
    put_word(bytes, item.repetition)?;
    put_value(bytes, &item.value)
}

#[tactic(auto, using(crate::proofs::Steps::next_item))]
fn put_items(bytes: &mut Vec<u8>, items: &[&InitialItem]) -> Result<(), AllocError>
    ensures { OnOk result (bytes.new.items ≡ bytes.old.items ++ flat_map form.item_bytes (map (λ i. initial_item_of i.now) items.now)) }
{
    for item in items {
        put_item(bytes, item)?;
    }
    Ok(())
}

/// The values of a leaf, behind their number.
#[tactic(auto, using(crate::proofs::Steps::items_shown))]
fn values_of(alloc: Global, items: &[&InitialItem]) -> Result<Vec<u8>, AllocError>
    ensures { IfOk result (λ v. v.items ≡ form.items_bytes (map (λ i. initial_item_of i.now) items.now)) }
{
    let mut bytes = Vec::new(alloc);
    put_word(&mut bytes, items.len() as u64)?;
    put_items(&mut bytes, items)?;
    Ok(bytes)
}

/// A leaf's values, where it has some.
fn put_leaf(
    alloc: Global,
    out: &mut Vec<InitialLeaf>,
    place: usize,
    leaf: &Leaf,
) -> Result<(), AllocError>
    ensures { OnOk result (map code.leaf_of out.new.items ≡ map code.leaf_of out.old.items ++ form.leaf_with_items place (leaf_of leaf.now).initial) }
{
    if leaf.initial.is_empty() {
        return Ok(());
    }
    let values = values_of(alloc, &leaf.initial)?;
    out.push(InitialLeaf {
        leaf: place,
        values,
    })?;
    Ok(())
}

#[tactic(auto, using(crate::proofs::Steps::next_leaf))]
fn put_leaves(alloc: Global, out: &mut Vec<InitialLeaf>, leaves: &[Leaf]) -> Result<(), AllocError>
    ensures { OnOk result (map code.leaf_of out.new.items ≡ map code.leaf_of out.old.items ++ form.initial_leaves 0 (map leaf_of leaves.now)) }
{
    for (place, leaf) in leaves.iter().enumerate() {
        put_leaf(alloc, out, place, leaf)?;
    }
    Ok(())
}

/// What a variable's generations begin with, none where all is left to defaults. (X3.53 section 7.5.)
pub fn initial_datum(
    alloc: Global,
    variable: &DeclaredVariable,
) -> Result<Option<Datum>, AllocError>
    ensures { IfOk result (λ d. option_of code.datum_of d ≡ form.initial_datum (declared_variable_of variable.now)) }
{
    let mut leaves = Vec::new(alloc);
    put_leaves(alloc, &mut leaves, &variable.leaves)?;
    if leaves.is_empty() {
        return Ok(None);
    }
    Ok(Some(Datum::InitialValues(leaves)))
}
