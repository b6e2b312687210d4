// Leaves that were taken, stored in those of a part.

ghost use Rattle.std.specs.Prelude.{◌≡◌, ◌+◌, ◌*◌, ◌≤◌, ◌<◌, length, true};
ghost use Rattle.pli_typing.specs.Signatures.{LeafKind, leaf_bytes};
ghost use Rattle.pli_serving.specs.Values.{element_size};
ghost use Rattle.pli_signatures.specs.View.{kind_of};
ghost use Rattle.pli_values.specs.View.{value_of};
ghost use Rattle.pli_aggregates.specs.Elements.{AreWithin};
ghost use Rattle.pli_aggregates.specs.Runs.{standing};
ghost use Rattle.pli_parts.specs.Leaves.{AreReadable, IsReadable};
ghost use Rattle.pli_parts.specs.Putting as S;
ghost use Rattle.pli_parts.specs.Putting.{elements_put, leaf_put, leaves_put, Moves};

use crate::again::value_again;
use crate::leaf::PartLeaf;
use pli_aggregates::runs::Run;
use pli_entries::taken::TakenLeaf;
use pli_signatures::element::ElementKind;
use pli_values::element::{Value, element_size, put_value};
use pli_values::word::put_bytes;

/// Whether a leaf that was taken has a value for each element of another that has bytes.
fn is_whole(leaf: &PartLeaf, taken: &TakenLeaf) -> bool
    ensures { result ≡ S.is_whole leaf.now taken.now }
{
    if leaf.kind.value_bytes() == 0 {
        return true;
    }
    match element_size(taken.kind).checked_mul(leaf.run.count as usize) {
        Some(bytes) => bytes <= taken.bytes.len(),
        None => false,
    }
}

/// Whether all leaves that were taken have, one after the other, as far as both go.
pub fn are_whole(leaves: &[PartLeaf], taken: &[TakenLeaf]) -> bool
    ensures { result ≡ S.are_whole leaves.now taken.now }
{
    let both = leaves.len().min(taken.len());
    for number in 0..both {
        if !is_whole(&leaves[number], &taken[number]) {
            return false;
        }
    }
    true
}

/// The value at a place of a leaf that was taken.
fn value_at_place(taken: &TakenLeaf, place: usize) -> Value<'_>
    requires { element_size (kind_of taken.now.kind) * place + element_size (kind_of taken.now.kind) ≤ length taken.now.bytes.items }
    ensures { value_of result ≡ S.value_again (kind_of taken.now.kind) taken.now.bytes.items place }
{
    let at = element_size(taken.kind) * place;
    value_again(&taken.bytes, at, taken.kind)
}

/// Stores the values of a leaf that was taken in elements of a kind, one after the other.
fn put_each(memory: &mut [u8], run: Run, kind: ElementKind, taken: &TakenLeaf)
    requires within { AreWithin (leaf_bytes (kind_of kind)) (length memory.old) (standing run.at run.step run.count) }
    requires whole { element_size (kind_of taken.now.kind) * run.count ≤ length taken.now.bytes.items }
    ensures { memory.new ≡ elements_put (kind_of kind) (kind_of taken.now.kind) taken.now.bytes.items 0 (standing run.at run.step run.count) memory.old }
{
    for number in 0..run.count {
        put_value(
            memory,
            run.at + run.step * number as usize,
            kind,
            value_at_place(taken, number as usize),
        );
    }
}

/// Whether elements of a kind, a step apart, keep just the bytes of elements of another kind that stand one behind the other.
fn moves(target: ElementKind, source: ElementKind, step: usize) -> bool
    ensures { result ≡ true → Moves (kind_of target) (kind_of source) step }
{
    if target != source || step != element_size(target) {
        return false;
    }
    match target {
        ElementKind::Fixed { precision } => precision > 15,
        ElementKind::Offset => true,
        _ => false,
    }
}

/// Moves the bytes of elements into others that keep just these.
fn move_run(memory: &mut [u8], run: Run, bytes: &[u8])
    requires within { run.at + run.step * run.count ≤ length memory.old }
    requires whole { run.step * run.count ≤ length bytes.now }
    ensures { (target source : LeafKind) → Moves target source run.step → memory.new ≡ elements_put target source bytes.now 0 (standing run.at run.step run.count) memory.old }
{
    let end = run.step * run.count as usize;
    put_bytes(memory, run.at, &bytes[..end]);
}

/// Stores the values of a leaf that was taken in elements of a kind, by one move where that is the same.
fn put_run(memory: &mut [u8], run: Run, kind: ElementKind, taken: &TakenLeaf)
    requires within { AreWithin (leaf_bytes (kind_of kind)) (length memory.old) (standing run.at run.step run.count) }
    requires whole { element_size (kind_of taken.now.kind) * run.count ≤ length taken.now.bytes.items }
    ensures { memory.new ≡ elements_put (kind_of kind) (kind_of taken.now.kind) taken.now.bytes.items 0 (standing run.at run.step run.count) memory.old }
{
    if run.count == 0 || !moves(kind, taken.kind, run.step) {
        put_each(memory, run, kind, taken);
        return;
    }
    move_run(memory, run, &taken.bytes);
}

/// Stores the values of a leaf that was taken in the elements of another, one after the other. Those without bytes keep nothing.
fn put_leaf(memory: &mut [u8], leaf: &PartLeaf, taken: &TakenLeaf)
    requires readable { IsReadable (length memory.old) leaf.now }
    requires whole { S.is_whole leaf.now taken.now ≡ true }
    ensures { memory.new ≡ leaf_put leaf.now taken.now memory.old }
{
    if leaf.kind.value_bytes() == 0 {
        return;
    }
    put_run(memory, leaf.run, leaf.kind, taken);
}

/// Stores leaves that were taken in others, one after the other, as far as both go.
pub fn put_leaves(memory: &mut [u8], leaves: &[PartLeaf], taken: &[TakenLeaf])
    requires readable { AreReadable (length memory.old) leaves.now }
    requires whole { S.are_whole leaves.now taken.now ≡ true }
    ensures { memory.new ≡ leaves_put leaves.now taken.now memory.old }
{
    let both = leaves.len().min(taken.len());
    for number in 0..both {
        put_leaf(memory, &leaves[number], &taken[number]);
    }
}
