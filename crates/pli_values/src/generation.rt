// The data of a leaf as a generation begins.

ghost use Rattle.std.specs.Prelude.{◌≡◌, ◌+◌, ◌*◌, ◌≤◌, List, is_some, length, replicate, true};
ghost use Rattle.pli_typing.specs.Signatures.{Bounds, capped, element_count};
ghost use Rattle.pli_meaning.specs.Contents as C;
ghost use Rattle.pli_meaning.specs.Contents.{initial_at};
ghost use Rattle.pli_serving.specs.Bytes.{with_bytes};
ghost use Rattle.pli_serving.specs.Stored.{kept_value};
ghost use Rattle.pli_serving.specs.Values.{element_bytes, element_size};
ghost use Rattle.pli_signatures.specs.View.{kind_of};
ghost use Rattle.pli_values.specs.Items.{items_behind, items_left};
ghost use Rattle.pli_values.specs.Runs.{fresh_element, fresh_leaf, run_of};
ghost use Rattle.pli_values.specs.Sizes.{written_size};
ghost use Rattle.pli_values.specs.View.{initial_of, value_of};

use crate::element::{Value, element_size, put_element};
use crate::initial::Initial;
use crate::leaf_items::Items;
use crate::name::Name;
use crate::word::fill;
use pli_signatures::element::ElementKind;

/// How an element of a kind begins where INITIAL gives it nothing.
#[tactic(auto, using(crate::proofs::Fresh::default_text))]
fn default_value<'a>(kind: ElementKind) -> Value<'a>
    ensures { element_bytes (kind_of kind) (kept_value (kind_of kind) (value_of result)) ≡ element_bytes (kind_of kind) (C.default_value (kind_of kind)) }
{
    match kind {
        ElementKind::Fixed { .. } => Value::Number(0),
        ElementKind::Character { .. } => Value::Text(&[]),
        ElementKind::Varying { .. } => Value::Text(&[]),
        ElementKind::Bit => Value::Bit(false),
        ElementKind::Pointer => Value::Pointer(Name::Null),
        ElementKind::Offset => Value::Offset(None),
        ElementKind::Area { .. } => Value::Number(0),
    }
}

#[tactic(auto, using(crate::proofs::Fresh::number_kept, crate::proofs::Fresh::bit_kept))]
fn initial_value<'a>(kind: ElementKind, initial: Initial<'a>) -> Value<'a>
    ensures { element_bytes (kind_of kind) (kept_value (kind_of kind) (value_of result)) ≡ element_bytes (kind_of kind) (C.initial_of (kind_of kind) (initial_of initial.entry)) }
{
    match initial {
        Initial::Number(number) => Value::Number(number),
        Initial::Bit(bit) => Value::Bit(bit),
        Initial::Text(text) => Value::Text(text),
        Initial::Skip => default_value(kind),
        Initial::Null => default_value(kind),
    }
}

/// Writes so many elements, one behind the other, with the values of INITIAL in turn, and gives the place behind them.
fn put_elements(memory: &mut [u8], at: usize, count: usize, items: Items) -> usize
    requires right { is_some (items_behind items) ≡ true }
    requires inside { at + element_size (kind_of items.kind) * count ≤ length memory.old }
    ensures written { memory.new ≡ with_bytes (run_of (fresh_element (kind_of items.entry.kind) (initial_at (items_left items.entry))) 0 count) at memory.old }
    ensures behind { result ≡ at + written_size (kind_of items.entry.kind) * count }
{
    let kind = items.kind;
    let mut items = items;
    let mut at = at;
    for done in 0..count {
        let value = initial_value(kind, items.next());
        at = put_element(memory, at, kind, value);
    }
    at
}

/// Whether elements of this kind begin as zeros where INITIAL gives them nothing.
#[tactic(auto, using(crate::proofs::Zeros::fixed_zeros, crate::proofs::Zeros::fixed_whole))]
fn begins_as_zeros(kind: ElementKind) -> bool
    ensures zeros { result ≡ true → element_bytes (kind_of kind) (C.default_value (kind_of kind)) ≡ replicate (element_size (kind_of kind)) 0 }
    ensures whole { result ≡ true → written_size (kind_of kind) ≡ element_size (kind_of kind) }
{
    match kind {
        ElementKind::Fixed { .. } => true,
        ElementKind::Bit => true,
        ElementKind::Pointer => true,
        _ => false,
    }
}

/// The same for elements of any kind: those that begin as zeros are filled together where INITIAL gives them nothing.
fn put_run(memory: &mut [u8], at: usize, count: usize, items: Items) -> usize
    requires right { is_some (items_behind items) ≡ true }
    requires inside { at + element_size (kind_of items.kind) * count ≤ length memory.old }
    ensures written { memory.new ≡ with_bytes (run_of (fresh_element (kind_of items.entry.kind) (initial_at (items_left items.entry))) 0 count) at memory.old }
    ensures behind { result ≡ at + written_size (kind_of items.entry.kind) * count }
{
    if items.have_ended() && begins_as_zeros(items.kind) {
        let bytes = element_size(items.kind) * count;
        fill(memory, at, bytes, 0);
        return at + bytes;
    }
    put_elements(memory, at, count, items)
}

/// Writes the data of a leaf as a generation begins, with the values of INITIAL in turn, and gives the place behind it. `count` is how
/// many elements the leaf has, or the greatest number where there are more, which take no bytes.
pub fn put_leaf(memory: &mut [u8], at: usize, count: usize, items: Items) -> usize
    requires right { is_some (items_behind items) ≡ true }
    requires inside { at + element_size (kind_of items.kind) * count ≤ length memory.old }
    ensures written { (bounds : List Bounds) → capped (element_count bounds) ≡ count → memory.new ≡ with_bytes (fresh_leaf (kind_of items.entry.kind) bounds (items_left items.entry)) at memory.old }
    ensures behind { (bounds : List Bounds) → capped (element_count bounds) ≡ count → result ≡ at + length (fresh_leaf (kind_of items.entry.kind) bounds (items_left items.entry)) }
{
    if element_size(items.kind) == 0 {
        return at;
    }
    put_run(memory, at, count, items)
}
