// Lists of numbers.

ghost use Rattle.std.specs.Prelude.{◌≡◌, map, IfOk, OnOk};
ghost use Rattle.std.specs.Vec.Iter.{into_iter_items};
ghost use Rattle.pli_typing.specs.Builtins as B;
ghost use Rattle.pli_typing.specs.TypedTree as Y;
ghost use Rattle.pli_typing.specs.TypedView.{number_of, numbers_of};
ghost use Rattle.pli_operand.specs.Notes.{noted};
ghost use Rattle.pli_operand.specs.Shown.{notes_of, operand_of};
ghost use Rattle.pli_builtin.specs.Parts.{numbers_onto};

use crate::node::{no_number, number_then};
use pli_operand::notes::Notes;
use pli_operand::operand::Operand;
use pli_operand::value::number_operand;
use pli_typing::typed::{Number, Numbers};
use std::alloc::{AllocError, Global};
use std::vec::IntoIter;

/// Numbers in their order.
#[tactic(auto, using(crate::proofs::Listed::onto_none, crate::proofs::Listed::onto_snoc, std::proofs::lemmas::List::map_push))]
fn numbers_in<'a>(alloc: Global, numbers: Vec<Number<'a>>) -> Result<Numbers<'a>, AllocError>
    ensures { IfOk result (λ ns. numbers_of ns ≡ numbers_onto (map number_of numbers.entry.items) Y.NoNumber) }
{
    let mut numbers = numbers;
    let mut list = no_number();
    while let Some(number) = numbers.pop() {
        list = number_then(alloc, number, list)?;
    }
    Ok(list)
}

/// Operands that are numbers, each judged in its turn.
#[tactic(auto, using(pli_operand::proofs::Noting::noting, crate::proofs::Listed::list_step, crate::proofs::Listed::onto_none, crate::proofs::Listed::onto_snoc, std::proofs::lemmas::List::map_push))]
fn judged<'t, 'a>(
    alloc: Global,
    notes: &mut Notes,
    operands: IntoIter<Operand<'t, 'a>>,
) -> Result<Vec<Number<'a>>, AllocError>
    ensures noted { OnOk result (notes_of notes.new ≡ noted (notes_of notes.old) (B.number_list (map operand_of (into_iter_items operands.entry)))) }
    ensures value { IfOk result (λ ns. numbers_onto (map number_of ns.items) Y.NoNumber ≡ (B.number_list (map operand_of (into_iter_items operands.entry))).value) }
{
    let mut numbers = Vec::new(alloc);
    let mut operands = operands;
    while let Some(operand) = operands.next() {
        numbers.push(number_operand(alloc, notes, operand)?)?;
    }
    Ok(numbers)
}

/// What is left of operands that are numbers, as a list.
#[tactic(auto, using(pli_operand::proofs::Noting::noting))]
pub fn numbers_left<'t, 'a>(
    alloc: Global,
    notes: &mut Notes,
    operands: IntoIter<Operand<'t, 'a>>,
) -> Result<Numbers<'a>, AllocError>
    ensures noted { OnOk result (notes_of notes.new ≡ noted (notes_of notes.old) (B.number_list (map operand_of (into_iter_items operands.entry)))) }
    ensures value { IfOk result (λ ns. numbers_of ns ≡ (B.number_list (map operand_of (into_iter_items operands.entry))).value) }
{
    let numbers = judged(alloc, notes, operands)?;
    numbers_in(alloc, numbers)
}

/// Operands that are numbers, as a list.
#[tactic(auto, using(pli_operand::proofs::Noting::noting))]
pub fn number_list<'t, 'a>(
    alloc: Global,
    notes: &mut Notes,
    operands: Vec<Operand<'t, 'a>>,
) -> Result<Numbers<'a>, AllocError>
    ensures noted { OnOk result (notes_of notes.new ≡ noted (notes_of notes.old) (B.number_list (map operand_of operands.entry.items))) }
    ensures value { IfOk result (λ ns. numbers_of ns ≡ (B.number_list (map operand_of operands.entry.items)).value) }
{
    numbers_left(alloc, notes, operands.into_iter())
}
