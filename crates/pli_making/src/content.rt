// The data of variables as they begin.

ghost use Rattle.std.specs.Prelude.{◌≡◌, ◌+◌, ◌%◌, ◌≤◌, ◌&&◌, ℕ, List, Some, None, true, is_some, length, IfOk};
ghost use Rattle.area_keeper.specs.Keeper.{Keeper};
ghost use Rattle.area_keeper.specs.KeeperLaws.{greatest_capacity};
ghost use Rattle.pli_meaning.specs.Contents.{Generation};
ghost use Rattle.pli_serving.specs.Arguments.{capacity_of};
ghost use Rattle.pli_serving.specs.Bytes.{bytes_at, is_data, name_size, with_bytes};
ghost use Rattle.pli_serving.specs.Finding.{Call};
ghost use Rattle.pli_serving.specs.Templates.{shape_at};
ghost use Rattle.pli_serving.specs.Values.{generation_bytes};
ghost use Rattle.pli_storage.specs.Held.{with_held};
ghost use Rattle.pli_typing.specs.Signatures.{capped};
ghost use Rattle.pli_values.specs.Beginnings.{lists_of, shape_of};
ghost use Rattle.pli_values.specs.View.{layout_of};
ghost use Rattle.pli_making.specs.Making.{content_made, fresh_of, prepared_with, IsFirst, IsFitting, IsReady, Prepares};

use crate::wanted::Making;
use area_heap::keeper::AreaKeeper;
use pli_allocation::beginning::MOST_CAPACITY;
use pli_allocation::starting::bytes_of;
use pli_answering::reply::Refusal;
use pli_storage::held::Held;
use pli_types::size::size_of;
use pli_values::begun::Begun;
use pli_values::layout::Layout;
use pli_values::name::NAME_BYTES;
use pli_values::word::put_bytes;
use std::alloc::{AllocError, Global};

/// What a variable's data begin with: an area of a capacity in bytes, made empty where it lies, or bytes that are written.
#[derive(Drop)]
pub enum Content {
    Area { capacity: u32 },
    Values { bytes: Vec<u8> },
}

/// Data that can be made, and how many bytes they take.
#[derive(Drop)]
pub struct Fresh {
    pub len: u32,
    pub content: Content,
}

/// Whether so many bytes at the variable's place, and its name, are data.
fn are_data(layout: Layout, wanted: Making, bytes: usize) -> bool
    ensures { result ≡ (is_data (layout_of layout) wanted.place bytes && is_data (layout_of layout) wanted.name name_size) }
{
    layout.is_data(wanted.place as usize, bytes) && layout.is_data(wanted.name as usize, NAME_BYTES)
}

/// The same of a size that is `u64::MAX` where it is more.
fn are_data_up_to(layout: Layout, wanted: Making, size: u64) -> bool
    ensures { (n : ℕ) → size ≡ capped n → result ≡ (is_data (layout_of layout) wanted.place n && is_data (layout_of layout) wanted.name name_size) }
{
    are_data(layout, wanted, size as usize)
}

/// So many bytes from an address on that are data.
fn count_within(layout: Layout, at: u32, bytes: usize) -> u32
    requires { at + bytes ≤ layout.end }
    ensures { result ≡ bytes }
{
    bytes as u32
}

/// An area of a capacity. One that no keeper makes counts as want of memory.
#[tactic(auto, using(crate::proofs::Fittings::place_inside, crate::proofs::Fittings::name_inside))]
fn area_of<K: AreaKeeper>(held: &Held, wanted: Making, capacity: u32) -> Result<Fresh, Refusal>
    ensures answer { (m : List ℕ) → (c : Call) → (owner : ℕ) → (g : Generation) →
        Prepares (prepared_with (with_held K.keeper held.now m c) wanted owner g (Some capacity)) (with_held K.keeper held.now m c) wanted owner result }
    ensures ready { IfOk result (λ f. IsReady K.keeper wanted f held.now.layout.end) }
{
    let len = K::bytes_for(capacity);
    if !are_data(held.layout, wanted, len) {
        return Err(Refusal::Bad);
    }
    if capacity % 16 != 0 || u64::from(capacity) > MOST_CAPACITY {
        return Err(Refusal::Memory);
    }
    Ok(Fresh {
        len: count_within(held.layout, wanted.place, len),
        content: Content::Area { capacity },
    })
}

/// The data of a generation. Where they would end behind the data of memory there is no memory for them.
fn written(alloc: Global, layout: Layout, at: u32, begun: &Begun) -> Result<Fresh, AllocError>
    requires right { is_some (lists_of begun.now) ≡ true }
    requires first { IsFirst begun.now }
    ensures bytes { (k : Keeper) → (m : List ℕ) → IfOk result (λ f. content_made k f.content at m ≡ generation_bytes (fresh_of begun.now)) }
    ensures fits { (k : Keeper) → IfOk result (λ f. IsFitting k f.content at layout.end) }
{
    let size = begun.data_size();
    if !layout.is_data(at as usize, size as usize) {
        return Err(AllocError);
    }
    let bytes = bytes_of(alloc, begun, size as usize)?;
    Ok(Fresh {
        len: size as u32,
        content: Content::Values { bytes },
    })
}

/// The data of a generation that is no area's.
fn values_of(held: &Held, alloc: Global, wanted: Making, begun: &Begun) -> Result<Fresh, Refusal>
    requires right { is_some (lists_of begun.now) ≡ true }
    requires first { IsFirst begun.now }
    ensures answer { (k : Keeper) → (m : List ℕ) → (c : Call) → (owner : ℕ) →
        Prepares (prepared_with (with_held k held.now m c) wanted owner (fresh_of begun.now) None) (with_held k held.now m c) wanted owner result }
    ensures ready { (k : Keeper) → IfOk result (λ f. IsReady k wanted f held.now.layout.end) }
{
    if !are_data_up_to(held.layout, wanted, size_of(begun.signature)) {
        return Err(Refusal::Bad);
    }
    let fresh = written(alloc, held.layout, wanted.place, begun)?;
    Ok(fresh)
}

/// The data of a variable: an area, or those of a generation.
pub fn prepare<K: AreaKeeper>(
    held: &Held,
    alloc: Global,
    wanted: Making,
    begun: &Begun,
) -> Result<Fresh, Refusal>
    requires whole { shape_at held.now.signatures wanted.signature ≡ Some (shape_of begun.now) }
    requires right { is_some (lists_of begun.now) ≡ true }
    requires first { IsFirst begun.now }
    ensures answer { (m : List ℕ) → (c : Call) → (owner : ℕ) →
        Prepares (prepared_with (with_held K.keeper held.now m c) wanted owner (fresh_of begun.now) (capacity_of (shape_of begun.now))) (with_held K.keeper held.now m c) wanted owner result }
    ensures ready { IfOk result (λ f. IsReady K.keeper wanted f held.now.layout.end) }
{
    match held.signatures.capacity(wanted.signature) {
        Some(capacity) => area_of::<K>(held, wanted, capacity),
        None => values_of(held, alloc, wanted, begun),
    }
}

/// Makes an empty area of the bytes at an address.
fn make_area<K: AreaKeeper>(memory: &mut [u8], at: u32, capacity: u32)
    requires rounded { capacity % 16 ≡ 0 }
    requires bounded { capacity ≤ greatest_capacity }
    requires inside { at + K.keeper.bytes_for capacity ≤ length memory.old }
    ensures { memory.new ≡ with_bytes (K.keeper.made capacity (bytes_at (K.keeper.bytes_for capacity) at memory.old)) at memory.old }
{
    let start = at as usize;
    let end = start + K::bytes_for(capacity);
    K::make(&mut memory[start..end], capacity);
}

/// Makes a variable's data at an address.
pub fn put_content<K: AreaKeeper>(memory: &mut [u8], at: u32, content: &Content)
    requires { IsFitting K.keeper content.now at (length memory.old) }
    ensures { memory.new ≡ with_bytes (content_made K.keeper content.now at memory.old) at memory.old }
{
    match content {
        Content::Area { capacity } => make_area::<K>(memory, at, *capacity),
        Content::Values { bytes } => put_bytes(memory, at as usize, bytes),
    }
}
