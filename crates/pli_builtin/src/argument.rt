// The arguments of built-in functions: how many they are, and what stands in where they are wrong.

ghost use Rattle.std.specs.Prelude.{◌≡◌, ◌≢◌, [], ◌∷◌, length, MatchOption, IfOk, OnOk};
ghost use Rattle.std.specs.Vec.Iter.{into_iter_items};
ghost use Rattle.pli_language.specs.declared.fault.SourceKind.TheVariants.{BadArguments};
ghost use Rattle.pli_typing.specs.Builtins as B;
ghost use Rattle.pli_typing.specs.Converting as C;
ghost use Rattle.pli_language.specs.Refusals.{fault};
ghost use Rattle.pli_typing.specs.TypedTree as Y;
ghost use Rattle.pli_operand.specs.Notes.{with_fault};
ghost use Rattle.pli_operand.specs.Shown.{notes_of, referent_of};

use crate::operator::{number_answer, pointer_answer};
use pli_language::expr::Place;
use pli_language::fault::SourceKind;
use pli_operand::notes::Notes;
use pli_operand::operand::{Operand, Referent};
use pli_typing::typed::{Number, Pointer, Text, Value};
use std::alloc::{AllocError, Global};
use std::vec::IntoIter;

/// Two operands.
#[derive(Drop)]
pub struct Pair<'t, 'a> {
    pub first: Operand<'t, 'a>,
    pub second: Operand<'t, 'a>,
}

/// Three operands.
#[derive(Drop)]
pub struct Triple<'t, 'a> {
    pub first: Operand<'t, 'a>,
    pub second: Operand<'t, 'a>,
    pub third: Operand<'t, 'a>,
}

/// Four operands.
#[derive(Drop)]
pub struct Quadruple<'t, 'a> {
    pub first: Operand<'t, 'a>,
    pub second: Operand<'t, 'a>,
    pub third: Operand<'t, 'a>,
    pub fourth: Operand<'t, 'a>,
}

/// What is left of the operands, where it is one.
pub fn one<'t, 'a>(operands: IntoIter<Operand<'t, 'a>>) -> Option<Operand<'t, 'a>>
    ensures { MatchOption result (length (into_iter_items operands.entry) ≢ 1) (λ x. into_iter_items operands.entry ≡ x ∷ []) }
{
    let mut operands = operands;
    if operands.len() == 1 {
        operands.next()
    } else {
        None
    }
}

fn with_one<'t, 'a>(first: Operand<'t, 'a>, left: IntoIter<Operand<'t, 'a>>) -> Option<Pair<'t, 'a>>
    ensures { MatchOption result (length (into_iter_items left.entry) ≢ 1) (λ p. (p.first ≡ first.entry) × (into_iter_items left.entry ≡ p.second ∷ [])) }
{
    let second = one(left)?;
    Some(Pair { first, second })
}

/// The same, where it is two.
pub fn two<'t, 'a>(operands: IntoIter<Operand<'t, 'a>>) -> Option<Pair<'t, 'a>>
    ensures { MatchOption result (length (into_iter_items operands.entry) ≢ 2) (λ p. into_iter_items operands.entry ≡ p.first ∷ p.second ∷ []) }
{
    let mut operands = operands;
    match operands.next() {
        Some(first) => with_one(first, operands),
        None => None,
    }
}

fn with_two<'t, 'a>(
    first: Operand<'t, 'a>,
    left: IntoIter<Operand<'t, 'a>>,
) -> Option<Triple<'t, 'a>>
    ensures { MatchOption result (length (into_iter_items left.entry) ≢ 2) (λ p. (p.first ≡ first.entry) × (into_iter_items left.entry ≡ p.second ∷ p.third ∷ [])) }
{
    let left = two(left)?;
    Some(Triple {
        first,
        second: left.first,
        third: left.second,
    })
}

/// The same, where it is three.
pub fn three<'t, 'a>(operands: IntoIter<Operand<'t, 'a>>) -> Option<Triple<'t, 'a>>
    ensures { MatchOption result (length (into_iter_items operands.entry) ≢ 3) (λ p. into_iter_items operands.entry ≡ p.first ∷ p.second ∷ p.third ∷ []) }
{
    let mut operands = operands;
    match operands.next() {
        Some(first) => with_two(first, operands),
        None => None,
    }
}

fn with_three<'t, 'a>(
    first: Operand<'t, 'a>,
    left: IntoIter<Operand<'t, 'a>>,
) -> Option<Quadruple<'t, 'a>>
    ensures { MatchOption result (length (into_iter_items left.entry) ≢ 3) (λ p. (p.first ≡ first.entry) × (into_iter_items left.entry ≡ p.second ∷ p.third ∷ p.fourth ∷ [])) }
{
    let left = three(left)?;
    Some(Quadruple {
        first,
        second: left.first,
        third: left.second,
        fourth: left.third,
    })
}

/// The same, where it is four.
pub fn four<'t, 'a>(operands: IntoIter<Operand<'t, 'a>>) -> Option<Quadruple<'t, 'a>>
    ensures { MatchOption result (length (into_iter_items operands.entry) ≢ 4) (λ p. into_iter_items operands.entry ≡ p.first ∷ p.second ∷ p.third ∷ p.fourth ∷ []) }
{
    let mut operands = operands;
    match operands.next() {
        Some(first) => with_three(first, operands),
        None => None,
    }
}

/// What is broken at a built-in's name, where its answer is a number.
#[tactic(auto, using(pli_operand::proofs::Noting::noting), unfolding(pli_typing::specs::TypedView::number_of))]
pub fn bad_number<'t, 'a>(
    alloc: Global,
    notes: &mut Notes,
    place: Place,
) -> Result<Referent<'t, 'a>, AllocError>
    ensures noted { OnOk result (notes_of notes.new ≡ with_fault (notes_of notes.old) (fault place BadArguments)) }
    ensures value { IfOk result (λ r. referent_of r ≡ C.Gives (Y.NumberValue C.operator_digits (Y.NumberConstant 0))) }
{
    notes.broken(place, SourceKind::BadArguments);
    number_answer(alloc, Number::Constant(0))
}

/// The same, where its answer is a text.
#[tactic(auto, using(pli_operand::proofs::Noting::noting), unfolding(pli_typing::specs::TypedView::text_of))]
pub fn bad_text<'t, 'a>(
    alloc: Global,
    notes: &mut Notes,
    place: Place,
) -> Result<Referent<'t, 'a>, AllocError>
    ensures noted { OnOk result (notes_of notes.new ≡ with_fault (notes_of notes.old) (fault place BadArguments)) }
    ensures value { IfOk result (λ r. referent_of r ≡ C.Gives (Y.TextValue (Y.TextConstant []))) }
{
    notes.broken(place, SourceKind::BadArguments);
    Ok(Referent::Gives(Value::Text(Box::new(alloc, Text::Constant(&[]))?)))
}

/// The same, where its answer is a POINTER.
#[tactic(auto, using(pli_operand::proofs::Noting::noting), unfolding(pli_typing::specs::TypedView::pointer_of))]
pub fn bad_pointer<'t, 'a>(
    alloc: Global,
    notes: &mut Notes,
    place: Place,
) -> Result<Referent<'t, 'a>, AllocError>
    ensures noted { OnOk result (notes_of notes.new ≡ with_fault (notes_of notes.old) (fault place BadArguments)) }
    ensures value { IfOk result (λ r. referent_of r ≡ C.Gives (Y.PointerValue Y.NullPointer)) }
{
    notes.broken(place, SourceKind::BadArguments);
    pointer_answer(alloc, Pointer::Null)
}

/// A constant from 1 to a most.
pub fn constant_within(most: u64, constant: Option<i128>) -> Option<u64>
    ensures { result ≡ B.constant_within most constant }
{
    match constant {
        Some(value) => {
            if 1 <= value && value <= i128::from(most) {
                Some(value as u64)
            } else {
                None
            }
        }
        None => None,
    }
}

/// The constant 0.
pub fn is_zero(constant: Option<i128>) -> bool
    ensures { result ≡ B.is_zero constant }
{
    constant == Some(0)
}
