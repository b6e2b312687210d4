// Comparisons of two values.

ghost use Rattle.std.specs.Prelude.{◌≡◌, Some, None, false, IfOk, OnOk};
ghost use Rattle.pli_typing.specs.Operators as O;
ghost use Rattle.pli_typing.specs.TypedTree as Y;
ghost use Rattle.pli_typing.specs.TypedView.{bit_of, comparison_of, value_of};
ghost use Rattle.pli_language.specs.View.{option_of};
ghost use Rattle.pli_operand.specs.Notes.{noted};
ghost use Rattle.pli_operand.specs.Shown.{notes_of};
ghost use Rattle.pli_builtin.specs.Shown.{compared_as_of, sides_of};

use crate::node;
use pli_language::expr::Place;
use pli_language::fault::SourceKind;
use pli_operand::notes::Notes;
use pli_operand::wanted::{
    number_wanted, offset_wanted, own_bit_wanted, pointer_wanted, text_wanted,
};
use pli_typing::typed::{Bit, Comparison, Value};
use std::alloc::{AllocError, Global};

/// What two values are compared as.
#[derive(Clone, Copy, PartialEq, Eq, Debug)]
pub enum ComparedAs {
    Numbers,
    Texts,
    Bits,
    Pointers,
    Offsets,
}

/// Two values with the places of their expressions; that of the first is the comparison's.
#[derive(Drop)]
pub struct Sides<'a> {
    pub left: Value<'a>,
    pub right: Value<'a>,
    pub left_place: Place,
    pub right_place: Place,
}

/// A POINTER, an OFFSET or NULL.
pub fn is_locator(value: &Value) -> bool
    ensures { result ≡ O.is_locator (value_of value.now) }
{
    matches!(
        value,
        Value::Pointer(_) | Value::Offset { .. } | Value::Null
    )
}

/// A number on either side makes numbers, else a text texts, else a bit bits; of locators a POINTER makes POINTERs.
pub fn kinds_compared(left: &Value, right: &Value) -> ComparedAs
    ensures { compared_as_of result ≡ O.kinds_compared (value_of left.now) (value_of right.now) }
{
    match (left, right) {
        (Value::Number { .. }, _) | (_, Value::Number { .. }) => ComparedAs::Numbers,
        (Value::Text(_), _) | (_, Value::Text(_)) => ComparedAs::Texts,
        (Value::Bit(_), _) | (_, Value::Bit(_)) => ComparedAs::Bits,
        (Value::Pointer(_), _) | (_, Value::Pointer(_)) => ComparedAs::Pointers,
        (Value::Offset { .. }, _) | (_, Value::Offset { .. }) => ComparedAs::Offsets,
        (Value::Null, Value::Null) => ComparedAs::Pointers,
    }
}

/// Locators are equal or not, and have no order.
pub fn equality(comparison: Comparison) -> Option<bool>
    ensures { result ≡ O.equality (comparison_of comparison) }
{
    match comparison {
        Comparison::IsEqual => Some(true),
        Comparison::IsNotEqual => Some(false),
        Comparison::IsLess
        | Comparison::IsGreater
        | Comparison::IsLessOrEqual
        | Comparison::IsGreaterOrEqual => None,
    }
}

#[tactic(auto, using(pli_operand::proofs::Noting::noting))]
fn as_numbers<'a>(
    alloc: Global,
    notes: &mut Notes,
    comparison: Comparison,
    sides: Sides<'a>,
) -> Result<Bit<'a>, AllocError>
    ensures noted { OnOk result (notes_of notes.new ≡ noted (notes_of notes.old) (O.values_compared (comparison_of comparison) (sides_of sides.entry) O.AsNumbers)) }
    ensures value { IfOk result (λ b. bit_of b ≡ (O.values_compared (comparison_of comparison) (sides_of sides.entry) O.AsNumbers).value) }
{
    let left = number_wanted(notes, sides.left_place, Some(sides.left));
    let right = number_wanted(notes, sides.right_place, Some(sides.right));
    node::numbers_compared(alloc, comparison, left, right)
}

#[tactic(auto, using(pli_operand::proofs::Noting::noting))]
fn as_texts<'a>(
    alloc: Global,
    notes: &mut Notes,
    comparison: Comparison,
    sides: Sides<'a>,
) -> Result<Bit<'a>, AllocError>
    ensures noted { OnOk result (notes_of notes.new ≡ noted (notes_of notes.old) (O.values_compared (comparison_of comparison) (sides_of sides.entry) O.AsTexts)) }
    ensures value { IfOk result (λ b. bit_of b ≡ (O.values_compared (comparison_of comparison) (sides_of sides.entry) O.AsTexts).value) }
{
    let left = text_wanted(notes, sides.left_place, Some(sides.left));
    let right = text_wanted(notes, sides.right_place, Some(sides.right));
    node::texts_compared(alloc, comparison, left, right)
}

#[tactic(auto, using(pli_operand::proofs::Noting::noting))]
fn as_bits<'a>(
    alloc: Global,
    notes: &mut Notes,
    comparison: Comparison,
    sides: Sides<'a>,
) -> Result<Bit<'a>, AllocError>
    ensures noted { OnOk result (notes_of notes.new ≡ noted (notes_of notes.old) (O.values_compared (comparison_of comparison) (sides_of sides.entry) O.AsBits)) }
    ensures value { IfOk result (λ b. bit_of b ≡ (O.values_compared (comparison_of comparison) (sides_of sides.entry) O.AsBits).value) }
{
    let left = own_bit_wanted(notes, sides.left_place, Some(sides.left));
    let right = own_bit_wanted(notes, sides.right_place, Some(sides.right));
    node::bits_compared(alloc, comparison, left, right)
}

#[tactic(auto, using(pli_operand::proofs::Noting::noting))]
fn pointers_equal<'a>(
    alloc: Global,
    notes: &mut Notes,
    equal: bool,
    sides: Sides<'a>,
) -> Result<Bit<'a>, AllocError>
    ensures noted { OnOk result (notes_of notes.new ≡ noted (notes_of notes.old) (O.pointers_compared (sides_of sides.entry) (Some equal))) }
    ensures value { IfOk result (λ b. bit_of b ≡ (O.pointers_compared (sides_of sides.entry) (Some equal)).value) }
{
    let left = pointer_wanted(notes, sides.left_place, Some(sides.left));
    let right = pointer_wanted(notes, sides.right_place, Some(sides.right));
    node::pointers_compared(alloc, equal, left, right)
}

#[tactic(auto, using(pli_operand::proofs::Noting::noting))]
fn offsets_equal<'a>(
    alloc: Global,
    notes: &mut Notes,
    equal: bool,
    sides: Sides<'a>,
) -> Result<Bit<'a>, AllocError>
    ensures noted { OnOk result (notes_of notes.new ≡ noted (notes_of notes.old) (O.offsets_compared (sides_of sides.entry) (Some equal))) }
    ensures value { IfOk result (λ b. bit_of b ≡ (O.offsets_compared (sides_of sides.entry) (Some equal)).value) }
{
    let left = offset_wanted(notes, None, sides.left_place, Some(sides.left));
    let right = offset_wanted(notes, None, sides.right_place, Some(sides.right));
    node::offsets_compared(alloc, equal, left, right)
}

/// Locators that are compared for their order.
#[tactic(auto, using(pli_operand::proofs::Noting::noting), unfolding(pli_typing::specs::TypedView::bit_of))]
fn no_order<'a>(notes: &mut Notes, sides: Sides) -> Bit<'a>
    ensures noted { notes_of notes.new ≡ noted (notes_of notes.old) (O.pointers_compared (sides_of sides.entry) None) }
    ensures value { bit_of result ≡ Y.BitConstant false }
{
    notes.broken(sides.left_place, SourceKind::TypeMismatch);
    Bit::Constant(false)
}

#[tactic(auto, using(pli_operand::proofs::Noting::noting))]
fn as_pointers<'a>(
    alloc: Global,
    notes: &mut Notes,
    equality: Option<bool>,
    sides: Sides<'a>,
) -> Result<Bit<'a>, AllocError>
    ensures noted { OnOk result (notes_of notes.new ≡ noted (notes_of notes.old) (O.pointers_compared (sides_of sides.entry) equality)) }
    ensures value { IfOk result (λ b. bit_of b ≡ (O.pointers_compared (sides_of sides.entry) equality).value) }
{
    match equality {
        None => Ok(no_order(notes, sides)),
        Some(equal) => pointers_equal(alloc, notes, equal, sides),
    }
}

#[tactic(auto, using(pli_operand::proofs::Noting::noting))]
fn as_offsets<'a>(
    alloc: Global,
    notes: &mut Notes,
    equality: Option<bool>,
    sides: Sides<'a>,
) -> Result<Bit<'a>, AllocError>
    ensures noted { OnOk result (notes_of notes.new ≡ noted (notes_of notes.old) (O.offsets_compared (sides_of sides.entry) equality)) }
    ensures value { IfOk result (λ b. bit_of b ≡ (O.offsets_compared (sides_of sides.entry) equality).value) }
{
    match equality {
        None => Ok(no_order(notes, sides)),
        Some(equal) => offsets_equal(alloc, notes, equal, sides),
    }
}

/// Two values compared as one kind, to which each of them must convert.
#[tactic(auto, using(pli_operand::proofs::Noting::noting))]
pub fn values_compared<'a>(
    alloc: Global,
    notes: &mut Notes,
    comparison: Comparison,
    sides: Sides<'a>,
    kind: ComparedAs,
) -> Result<Bit<'a>, AllocError>
    ensures noted { OnOk result (notes_of notes.new ≡ noted (notes_of notes.old) (O.values_compared (comparison_of comparison) (sides_of sides.entry) (compared_as_of kind))) }
    ensures value { IfOk result (λ b. bit_of b ≡ (O.values_compared (comparison_of comparison) (sides_of sides.entry) (compared_as_of kind)).value) }
{
    match kind {
        ComparedAs::Numbers => as_numbers(alloc, notes, comparison, sides),
        ComparedAs::Texts => as_texts(alloc, notes, comparison, sides),
        ComparedAs::Bits => as_bits(alloc, notes, comparison, sides),
        ComparedAs::Pointers => as_pointers(alloc, notes, equality(comparison), sides),
        ComparedAs::Offsets => as_offsets(alloc, notes, equality(comparison), sides),
    }
}

/// Without an order, what isn't compared for being equal breaks a rule.
#[tactic(auto, using(pli_operand::proofs::Noting::noting), unfolding(pli_typing::specs::TypedView::bit_of))]
fn order_demanded<'a>(
    notes: &mut Notes,
    place: Place,
    is_locator: bool,
    equality: Option<bool>,
) -> Bit<'a>
    ensures noted { notes_of notes.new ≡ noted (notes_of notes.old) (O.half_compared place is_locator equality) }
    ensures value { bit_of result ≡ (O.half_compared place is_locator equality).value }
{
    match (is_locator, equality) {
        (true, None) => {
            notes.broken(place, SourceKind::TypeMismatch);
            Bit::Constant(false)
        }
        (true, Some(_)) | (false, _) => Bit::Constant(false),
    }
}

/// Where one side isn't known, a locator on the other has no order all the same.
#[tactic(auto, using(pli_operand::proofs::Noting::noting))]
fn half_compared<'a>(
    notes: &mut Notes,
    place: Place,
    comparison: Comparison,
    value: Value,
) -> Bit<'a>
    ensures noted { notes_of notes.new ≡ noted (notes_of notes.old) (O.half_compared place (O.is_locator (value_of value.entry)) (O.equality (comparison_of comparison))) }
    ensures value { bit_of result ≡ (O.half_compared place (O.is_locator (value_of value.entry)) (O.equality (comparison_of comparison))).value }
{
    order_demanded(notes, place, is_locator(&value), equality(comparison))
}

#[tactic(auto, using(pli_operand::proofs::Noting::noting))]
fn both_compared<'a>(
    alloc: Global,
    notes: &mut Notes,
    comparison: Comparison,
    sides: Sides<'a>,
) -> Result<Bit<'a>, AllocError>
    ensures noted { OnOk result (notes_of notes.new ≡ noted (notes_of notes.old) (O.compared (comparison_of comparison) sides.entry.left_place sides.entry.right_place (Some (value_of sides.entry.left)) (Some (value_of sides.entry.right)))) }
    ensures value { IfOk result (λ b. bit_of b ≡ (O.compared (comparison_of comparison) sides.entry.left_place sides.entry.right_place (Some (value_of sides.entry.left)) (Some (value_of sides.entry.right))).value) }
{
    let kind = kinds_compared(&sides.left, &sides.right);
    values_compared(alloc, notes, comparison, sides, kind)
}

/// Two values compared, of which either may not be known.
#[tactic(auto, using(pli_operand::proofs::Noting::noting), unfolding(pli_typing::specs::TypedView::bit_of))]
pub fn compared<'a>(
    alloc: Global,
    notes: &mut Notes,
    comparison: Comparison,
    left_place: Place,
    right_place: Place,
    left: Option<Value<'a>>,
    right: Option<Value<'a>>,
) -> Result<Bit<'a>, AllocError>
    ensures noted { OnOk result (notes_of notes.new ≡ noted (notes_of notes.old) (O.compared (comparison_of comparison) left_place right_place (option_of value_of left.entry) (option_of value_of right.entry))) }
    ensures value { IfOk result (λ b. bit_of b ≡ (O.compared (comparison_of comparison) left_place right_place (option_of value_of left.entry) (option_of value_of right.entry)).value) }
{
    match (left, right) {
        (Some(left), Some(right)) => {
            let sides = Sides {
                left,
                right,
                left_place,
                right_place,
            };
            both_compared(alloc, notes, comparison, sides)
        }
        (Some(value), None) | (None, Some(value)) => {
            Ok(half_compared(notes, left_place, comparison, value))
        }
        (None, None) => Ok(Bit::Constant(false)),
    }
}
