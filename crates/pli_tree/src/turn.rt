// The conditions of IF and WHILE, and what DO says of its turns.

ghost use Rattle.std.specs.Prelude.{◌≡◌, None, Some, IfOk, OnOk};
ghost use Rattle.pli_typing.specs.Converting as C;
ghost use Rattle.pli_typing.specs.Generations.{judged_if};
ghost use Rattle.pli_typing.specs.SingleStatements as S;
ghost use Rattle.pli_typing.specs.TypedStatementView.{turns_of};
ghost use Rattle.pli_typing.specs.TypedView.{bit_of, number_of};
ghost use Rattle.pli_language.specs.View.{counting_of, expr_of, option_of};
ghost use Rattle.pli_operand.specs.Notes.{noted};
ghost use Rattle.pli_operand.specs.Shown.{notes_of, operand_of};
ghost use Rattle.pli_reference.specs.Shown.{scope_of};
ghost use Rattle.pli_transfer.specs.Shown.{scalar_of};
ghost use Rattle.pli_tree.specs.Shown.{counted};

use pli_generation::extent::number_at;
use pli_language::expr::{Expr, Place};
use pli_language::stmt::Counting;
use pli_operand::notes::Notes;
use pli_operand::operand::Operand;
use pli_operand::stored::{no_reference, operand_stored};
use pli_operand::value::{operand_value, own_bit_operand};
use pli_reference::expression::{operand, referred};
use pli_reference::scope::Scope;
use pli_transfer::computational::computational_operand;
use pli_transfer::scalar::{Scalar, counter_of, scalar_operand};
use pli_typing::statement::Turns;
use pli_typing::typed::{Bit, Number, Stored};
use std::alloc::{AllocError, Global};

/// The expression of IF and WHILE.
#[tactic(auto, using(pli_operand::proofs::Noting::noting))]
pub fn condition<'a>(
    alloc: Global,
    scope: Scope<'_, '_, 'a>,
    notes: &mut Notes,
    expr: &'a Expr,
) -> Result<Bit<'a>, AllocError>
    ensures noted { OnOk result (notes_of notes.new ≡ noted (notes_of notes.old) (S.condition (scope_of scope.entry) (expr_of expr.now))) }
    ensures value { IfOk result (λ b. bit_of b ≡ (S.condition (scope_of scope.entry) (expr_of expr.now)).value) }
{
    let operand = operand(alloc, scope, notes, expr)?;
    own_bit_operand(alloc, notes, operand)
}

#[tactic(auto, using(pli_operand::proofs::Noting::noting))]
fn condition_if<'a>(
    alloc: Global,
    scope: Scope<'_, '_, 'a>,
    notes: &mut Notes,
    expr: &'a Option<Expr>,
) -> Result<Option<Bit<'a>>, AllocError>
    ensures noted { OnOk result (notes_of notes.new ≡ noted (notes_of notes.old) (judged_if (S.condition (scope_of scope.entry)) (option_of expr_of expr.now))) }
    ensures value { IfOk result (λ b. option_of bit_of b ≡ (judged_if (S.condition (scope_of scope.entry)) (option_of expr_of expr.now)).value) }
{
    match expr {
        Some(expr) => Ok(Some(condition(alloc, scope, notes, expr)?)),
        None => Ok(None),
    }
}

#[tactic(auto, using(pli_operand::proofs::Noting::noting))]
fn number_if<'a>(
    alloc: Global,
    scope: Scope<'_, '_, 'a>,
    notes: &mut Notes,
    expr: &'a Option<Expr>,
) -> Result<Option<Number<'a>>, AllocError>
    ensures noted { OnOk result (notes_of notes.new ≡ noted (notes_of notes.old) (judged_if (S.number_at (scope_of scope.entry)) (option_of expr_of expr.now))) }
    ensures value { IfOk result (λ n. option_of number_of n ≡ (judged_if (S.number_at (scope_of scope.entry)) (option_of expr_of expr.now)).value) }
{
    match expr {
        Some(expr) => Ok(Some(number_at(alloc, scope, notes, expr)?)),
        None => Ok(None),
    }
}

/// What DO says behind its variable.
#[derive(Drop)]
struct Said<'t, 'a> {
    start: Operand<'t, 'a>,
    limit: Option<Number<'a>>,
    step: Option<Number<'a>>,
    condition: Option<Bit<'a>>,
}

/// BY is 1 where it isn't said.
#[tactic(auto, unfolding(pli_typing::specs::TypedView::number_of))]
fn step_or_one<'a>(step: Option<Number<'a>>) -> Number<'a>
    ensures { number_of result ≡ S.step_or_one (option_of number_of step.entry) }
{
    match step {
        Some(step) => step,
        None => Number::Constant(1),
    }
}

/// Turns that are counted: the variable converts to numbers and from them.
#[tactic(auto, using(pli_operand::proofs::Noting::noting))]
fn counted<'a>(
    alloc: Global,
    notes: &mut Notes,
    place: Place,
    scalar: Scalar<'a>,
    start: Operand<'_, 'a>,
    limit: Option<Number<'a>>,
    step: Number<'a>,
    condition: Option<Bit<'a>>,
) -> Result<Turns<'a>, AllocError>
    ensures noted { OnOk result (notes_of notes.new ≡ noted (notes_of notes.old) (counted place (scalar_of scalar.entry) (operand_of start.entry) (option_of number_of limit.entry) (number_of step.entry) (option_of bit_of condition.entry))) }
    ensures value { IfOk result (λ t. turns_of t ≡ (counted place (scalar_of scalar.entry) (operand_of start.entry) (option_of number_of limit.entry) (number_of step.entry) (option_of bit_of condition.entry)).value) }
{
    let counter = counter_of(notes, place, scalar.reference, scalar.kind);
    let start = computational_operand(alloc, notes, start)?;
    Ok(Turns::Counted {
        counter,
        start,
        limit,
        step,
        condition,
    })
}

/// One turn at most.
#[tactic(auto, using(pli_operand::proofs::Noting::noting))]
fn once<'a>(
    alloc: Global,
    notes: &mut Notes,
    scalar: Scalar<'a>,
    start: Operand<'_, 'a>,
    condition: Option<Bit<'a>>,
) -> Result<Turns<'a>, AllocError>
    ensures noted { OnOk result (notes_of notes.new ≡ noted (notes_of notes.old) (C.operand_stored (scalar_of scalar.entry).type (operand_of start.entry))) }
    ensures value { IfOk result (λ t. turns_of t ≡ S.OneTurn (scalar_of scalar.entry).reference (C.operand_stored (scalar_of scalar.entry).type (operand_of start.entry)).value (option_of bit_of condition.entry)) }
{
    let start = operand_stored(alloc, notes, scalar.kind, start)?;
    Ok(Turns::Once {
        variable: scalar.reference,
        start,
        condition,
    })
}

/// The turns of a variable, one at most where neither TO nor BY stands.
#[tactic(auto, using(pli_operand::proofs::Noting::noting))]
fn turns_from<'a>(
    alloc: Global,
    notes: &mut Notes,
    place: Place,
    scalar: Scalar<'a>,
    said: Said<'_, 'a>,
) -> Result<Turns<'a>, AllocError>
    ensures noted { OnOk result (notes_of notes.new ≡ noted (notes_of notes.old) (S.turns_with place (Some (scalar_of scalar.entry)) (operand_of said.entry.start) (option_of number_of said.entry.limit) (option_of number_of said.entry.step) (option_of bit_of said.entry.condition))) }
    ensures value { IfOk result (λ t. turns_of t ≡ (S.turns_with place (Some (scalar_of scalar.entry)) (operand_of said.entry.start) (option_of number_of said.entry.limit) (option_of number_of said.entry.step) (option_of bit_of said.entry.condition)).value) }
{
    let Said {
        start,
        limit,
        step,
        condition,
    } = said;
    match (limit, step) {
        (None, None) => once(alloc, notes, scalar, start, condition),
        (None, Some(step)) => { counted(alloc, notes, place, scalar, start, None, step, condition) }
        (Some(limit), step) => counted(
            alloc,
            notes,
            place,
            scalar,
            start,
            Some(limit),
            step_or_one(step),
            condition,
        ),
    }
}

/// What DO says where its variable is none that can be assigned to: the start is judged all the same.
#[tactic(auto, using(pli_operand::proofs::Noting::noting), unfolding(pli_typing::specs::TypedView::bit_of))]
fn no_turns<'a>(
    alloc: Global,
    notes: &mut Notes,
    said: Said<'_, 'a>,
) -> Result<Turns<'a>, AllocError>
    ensures noted { OnOk result (notes_of notes.new ≡ noted (notes_of notes.old) (C.operand_value (operand_of said.entry.start))) }
    ensures value { IfOk result (λ t. turns_of t ≡ S.no_turns) }
{
    let _value = operand_value(alloc, notes, said.start)?;
    Ok(Turns::Once {
        variable: no_reference(),
        start: Stored::Bit(Bit::Constant(false)),
        condition: None,
    })
}

/// The turns of a variable, if it is one, with what DO says behind it.
#[tactic(auto, using(pli_operand::proofs::Noting::noting))]
fn turns_with<'a>(
    alloc: Global,
    notes: &mut Notes,
    place: Place,
    scalar: Option<Scalar<'a>>,
    said: Said<'_, 'a>,
) -> Result<Turns<'a>, AllocError>
    ensures noted { OnOk result (notes_of notes.new ≡ noted (notes_of notes.old) (S.turns_with place (option_of scalar_of scalar.entry) (operand_of said.entry.start) (option_of number_of said.entry.limit) (option_of number_of said.entry.step) (option_of bit_of said.entry.condition))) }
    ensures value { IfOk result (λ t. turns_of t ≡ (S.turns_with place (option_of scalar_of scalar.entry) (operand_of said.entry.start) (option_of number_of said.entry.limit) (option_of number_of said.entry.step) (option_of bit_of said.entry.condition)).value) }
{
    match scalar {
        Some(scalar) => turns_from(alloc, notes, place, scalar, said),
        None => no_turns(alloc, notes, said),
    }
}

/// What DO says of its turns.
#[tactic(auto, using(pli_operand::proofs::Noting::noting))]
pub fn turns<'a>(
    alloc: Global,
    scope: Scope<'_, '_, 'a>,
    notes: &mut Notes,
    counting: &'a Counting,
) -> Result<Turns<'a>, AllocError>
    ensures noted { OnOk result (notes_of notes.new ≡ noted (notes_of notes.old) (S.turns (scope_of scope.entry) (counting_of counting.now))) }
    ensures value { IfOk result (λ t. turns_of t ≡ (S.turns (scope_of scope.entry) (counting_of counting.now)).value) }
{
    let variable = referred(alloc, scope, notes, &counting.variable)?;
    let place = variable.place;
    let scalar = scalar_operand(notes, variable);
    let said = Said {
        start: operand(alloc, scope, notes, &counting.start)?,
        limit: number_if(alloc, scope, notes, &counting.limit)?,
        step: number_if(alloc, scope, notes, &counting.step)?,
        condition: condition_if(alloc, scope, notes, &counting.condition)?,
    };
    Ok(turns_with(alloc, notes, place, scalar, said)?)
}
