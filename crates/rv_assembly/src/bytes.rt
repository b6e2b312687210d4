// The bytes of the data behind the code.

ghost use Rattle.std.specs.Prelude.{◌≡◌, ◌+◌, ◌-◌, ◌*◌, ◌/◌, ◌%◌, ◌<◌, ◌^◌, [], ◌∷◌, ◌++◌, length, map, replicate, OnOk, IfOk};
ghost use Rattle.std.specs.List.{flat_map};
ghost use Rattle.rv_meaning.specs.Memory.{bytes_of_word};
ghost use Rattle.pli_coding.specs.StaticData as form;
ghost use Rattle.rv_assembly.specs.View.{leaf_of};
ghost use Rattle.rv_assembly.specs.Borrowed.{datum};
ghost use Rattle.rv_assembly.specs.Placed.{placed_of};

use crate::item::InitialLeaf;
use crate::links::Links;
use crate::statics::DatumRef;
use std::alloc::{AllocError, Global};

#[tactic(auto, using(crate::proofs::Filling::next_zero))]
fn put_zeros(bytes: &mut Vec<u8>, count: u64) -> Result<(), AllocError>
    ensures { OnOk result (bytes.new.items ≡ bytes.old.items ++ replicate count 0) }
{
    let mut left = count;
    while left > 0 {
        bytes.push(0)?;
        left -= 1;
    }
    Ok(())
}

// The lowest 32 bits of a number, the lowest byte first.
fn put_word(bytes: &mut Vec<u8>, word: u64) -> Result<(), AllocError>
    ensures { OnOk result (bytes.new.items ≡ bytes.old.items ++ bytes_of_word word) }
{
    let word_bytes = [
        (word % 256) as u8,
        (word / 256 % 256) as u8,
        (word / 256 / 256 % 256) as u8,
        (word / 256 / 256 / 256 % 256) as u8,
    ];
    bytes.extend_from_slice(&word_bytes)
}

fn put_leaf<'a>(
    bytes: &mut Vec<u8>,
    links: &Links<'a>,
    start: u32,
    leaf: &'a InitialLeaf,
) -> Result<(), AllocError>
    ensures { OnOk result (bytes.new.items ≡ bytes.old.items ++ form.leaf_bytes (map placed_of links.now.placed.items) start (leaf_of leaf.now)) }
{
    let place = links.datum_place(DatumRef::ConstantBytes(&leaf.values));
    put_word(bytes, leaf.leaf as u64)?;
    put_word(bytes, u64::from(place.saturating_sub(start)))
}

fn put_leaves<'a>(
    bytes: &mut Vec<u8>,
    links: &Links<'a>,
    start: u32,
    leaves: &'a [InitialLeaf],
) -> Result<(), AllocError>
    ensures { OnOk result (bytes.new.items ≡ bytes.old.items ++ flat_map (form.leaf_bytes (map placed_of links.now.placed.items) start) (map leaf_of leaves.now)) }
{
    for leaf in leaves {
        put_leaf(bytes, links, start, leaf)?;
    }
    Ok(())
}

fn put_datum<'a>(
    bytes: &mut Vec<u8>,
    links: &Links<'a>,
    start: u32,
    named: DatumRef<'a>,
) -> Result<(), AllocError>
    ensures { OnOk result (bytes.new.items ≡ bytes.old.items ++ form.datum_bytes (map placed_of links.now.placed.items) start (datum named.entry)) }
{
    let size = named.size()?;
    match named {
        DatumRef::ConstantBytes(constant) => {
            bytes.extend_from_slice(constant)?;
            put_zeros(bytes, size.saturating_sub(constant.len() as u64))
        }
        DatumRef::InitialValues(leaves) => {
            put_word(bytes, leaves.len() as u64)?;
            put_leaves(bytes, links, start, leaves)
        }
        DatumRef::NumberWord { .. } => put_word(bytes, 0),
        DatumRef::StaticStorage { .. } => put_zeros(bytes, size),
    }
}

/// The bytes of the data, from where it begins on.
#[tactic(auto, using(crate::proofs::Filling::next_bytes))]
pub(crate) fn bytes_of(alloc: Global, links: &Links, start: u32) -> Result<Vec<u8>, AllocError>
    ensures { IfOk result (λ b. b.items ≡ form.bytes_from (map placed_of links.now.placed.items) start (map placed_of links.now.placed.items)) }
{
    let mut bytes = Vec::new(alloc);
    let mut at = u64::from(start);
    let list = links.placed.as_slice();
    for placed in list {
        put_zeros(&mut bytes, u64::from(placed.place).saturating_sub(at))?;
        put_datum(&mut bytes, links, placed.place, placed.datum)?;
        at = u64::from(placed.place) + placed.datum.size()?;
    }
    Ok(bytes)
}
