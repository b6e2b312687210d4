// Expressions and references, judged.
//
// Operators and locators may stand thousands in a row, so a chain of them is gone down by a loop that keeps what waits, and not by
// calls; what stands in parentheses is judged by calls, since the parentheses are bounded.

ghost use Rattle.std.specs.Prelude.{◌≡◌, map, IfOk, OnOk};
ghost use Rattle.pli_typing.specs.Converting as C;
ghost use Rattle.pli_typing.specs.References as R;
ghost use Rattle.pli_typing.specs.TypedTree as Y;
ghost use Rattle.pli_typing.specs.TypedView.{value_of};
ghost use Rattle.pli_language.specs.View.{arguments_of, expr_of, exprs_of, option_of, qualified_of, reference_of};
ghost use Rattle.pli_operand.specs.Notes.{noted};
ghost use Rattle.pli_operand.specs.Shown.{notes_of, operand_of, referent_of};
ghost use Rattle.pli_reference.specs.Parts.{infix_of};
ghost use Rattle.pli_reference.specs.Shown.{named_of, scope_of};
ghost use Rattle.pli_reference.specs.ShownWaiting.{waiting_of};
ghost use Rattle.pli_reference.specs.Waiting.{followed, resumed};

use crate::found::names_referent;
use crate::locator::written_locator;
use crate::names::Named;
use crate::scope::Scope;
use crate::waiting::{LocatorChain, OperatorChain, Waiting, locator_chain, operator_chain};
use pli_builtin::operator::{infixed, prefixed};
use pli_declaring::constant::{constant, place_of, place_of_reference};
use pli_language::expr::{Arguments, Expr, Exprs, InfixOp, Qualified, Reference};
use pli_operand::notes::Notes;
use pli_operand::operand::{Operand, Referent};
use pli_operand::value::operand_value;
use pli_typing::typed::{Bit, Number, Text, Value};
use std::alloc::{AllocError, Global};

/// A constant's value: operators and constants have 31 digits.
#[tactic(auto, unfolding(pli_typing::specs::TypedView::number_of))]
fn number_given<'t, 'a>(alloc: Global, value: u64) -> Result<Referent<'t, 'a>, AllocError>
    ensures { IfOk result (λ r. referent_of r ≡ C.Gives (Y.NumberValue C.operator_digits (Y.NumberConstant value))) }
{
    Ok(Referent::Gives(Value::Number {
        precision: 31,
        value: Box::new(alloc, Number::Constant(value))?,
    }))
}

#[tactic(auto, unfolding(pli_typing::specs::TypedView::text_of))]
fn text_given<'t, 'a>(alloc: Global, value: &'a [u8]) -> Result<Referent<'t, 'a>, AllocError>
    ensures { IfOk result (λ r. referent_of r ≡ C.Gives (Y.TextValue (Y.TextConstant value.now))) }
{
    Ok(Referent::Gives(Value::Text(Box::new(alloc, Text::Constant(value))?)))
}

#[tactic(auto, unfolding(pli_typing::specs::TypedView::bit_of))]
fn bit_given<'t, 'a>(alloc: Global, value: bool) -> Result<Referent<'t, 'a>, AllocError>
    ensures { IfOk result (λ r. referent_of r ≡ C.Gives (Y.BitValue (Y.BitConstant value))) }
{
    Ok(Referent::Gives(Value::Bit(Box::new(alloc, Bit::Constant(value))?)))
}

/// A value that may not be known.
fn given<'t, 'a>(value: Option<Value<'a>>) -> Referent<'t, 'a>
    ensures { referent_of result ≡ R.given (option_of value_of value.entry) }
{
    match value {
        Some(value) => Referent::Gives(value),
        None => Referent::UnknownValue,
    }
}

/// What an expression comes to, by its last operator.
#[cycle(walk)]
#[tactic(auto, using(crate::proofs::Walks::walks))]
fn expression<'t, 'a>(
    alloc: Global,
    scope: Scope<'t, '_, 'a>,
    notes: &mut Notes,
    expr: &'a Expr,
) -> Result<Referent<'t, 'a>, AllocError>
    ensures noted { OnOk result (notes_of notes.new ≡ noted (notes_of notes.old) (R.expression (scope_of scope.entry) (expr_of expr.now))) }
    ensures value { IfOk result (λ r. referent_of r ≡ (R.expression (scope_of scope.entry) (expr_of expr.now)).value) }
{
    match expr {
        Expr::Number { value, .. } => Ok(number_given(alloc, *value)?),
        Expr::Text { value, .. } => Ok(text_given(alloc, value)?),
        Expr::Bit { value, .. } => Ok(bit_given(alloc, *value)?),
        Expr::Parenthesized { inner, .. } => {
            let inner = operand(alloc, scope, notes, inner)?;
            Ok(given(operand_value(alloc, notes, inner)?))
        }
        Expr::Prefix {
            op,
            operand: inner,
            ..
        } => {
            let inner = operand(alloc, scope, notes, inner)?;
            Ok(prefixed(alloc, notes, *op, inner)?)
        }
        Expr::Infix { op, left, right } => {
            let left = operand(alloc, scope, notes, left)?;
            Ok(infix(alloc, scope, notes, *op, left, right)?)
        }
        Expr::Refers(target) => Ok(referred(alloc, scope, notes, target)?.referent),
    }
}

/// An operator between an operand and an expression.
#[cycle(walk)]
#[tactic(auto, using(crate::proofs::Walks::walks))]
fn infix<'t, 'a>(
    alloc: Global,
    scope: Scope<'t, '_, 'a>,
    notes: &mut Notes,
    op: InfixOp,
    left: Operand<'t, 'a>,
    right: &'a Expr,
) -> Result<Referent<'t, 'a>, AllocError>
    ensures noted { OnOk result (notes_of notes.new ≡ noted (notes_of notes.old) (infix_of (scope_of scope.entry) op (operand_of left.entry) (expr_of right.now))) }
    ensures value { IfOk result (λ r. referent_of r ≡ (infix_of (scope_of scope.entry) op (operand_of left.entry) (expr_of right.now)).value) }
{
    let right = operand(alloc, scope, notes, right)?;
    infixed(alloc, notes, op, left, right)
}

/// An expression as an operand.
#[cycle(walk)]
#[tactic(auto, using(crate::proofs::Walks::walks, crate::proofs::ShownWaits::chains))]
pub fn operand<'t, 'a>(
    alloc: Global,
    scope: Scope<'t, '_, 'a>,
    notes: &mut Notes,
    expr: &'a Expr,
) -> Result<Operand<'t, 'a>, AllocError>
    ensures noted { OnOk result (notes_of notes.new ≡ noted (notes_of notes.old) (R.operand (scope_of scope.entry) (expr_of expr.now))) }
    ensures value { IfOk result (λ o. operand_of o ≡ (R.operand (scope_of scope.entry) (expr_of expr.now)).value) }
{
    let OperatorChain { waiting, first } = operator_chain(alloc, expr)?;
    let referent = expression(alloc, scope, notes, first)?;
    let first = Operand {
        place: place_of(first),
        constant: constant(first),
        referent,
    };
    Ok(resumed(alloc, scope, notes, waiting, first)?)
}

/// What operators, the outermost first, make of the operand that they wait for.
#[cycle(walk)]
#[tactic(auto, using(crate::proofs::Walks::walks, crate::proofs::ShownWaits::chains))]
fn resumed<'t, 'a>(
    alloc: Global,
    scope: Scope<'t, '_, 'a>,
    notes: &mut Notes,
    waiting: Vec<Waiting<'a>>,
    first: Operand<'t, 'a>,
) -> Result<Operand<'t, 'a>, AllocError>
    ensures noted { OnOk result (notes_of notes.new ≡ noted (notes_of notes.old) (resumed (scope_of scope.entry) (map waiting_of waiting.entry.items) (operand_of first.entry))) }
    ensures value { IfOk result (λ o. operand_of o ≡ (resumed (scope_of scope.entry) (map waiting_of waiting.entry.items) (operand_of first.entry)).value) }
{
    let mut waiting = waiting;
    let mut taken = first;
    'operators: while let Some(operator) = waiting.pop() {
        taken = match operator {
            Waiting::Prefix { op, whole } => Operand {
                place: place_of(whole),
                constant: constant(whole),
                referent: prefixed(alloc, notes, op, taken)?,
            },
            Waiting::Infix { op, right } => Operand {
                place: taken.place,
                constant: None,
                referent: infix(alloc, scope, notes, op, taken, right)?,
            },
        };
    }
    Ok(taken)
}

/// A reference as an operand.
#[cycle(walk)]
#[tactic(auto, using(crate::proofs::Walks::walks, crate::proofs::ShownWaits::chains))]
pub fn referred<'t, 'a>(
    alloc: Global,
    scope: Scope<'t, '_, 'a>,
    notes: &mut Notes,
    target: &'a Reference,
) -> Result<Operand<'t, 'a>, AllocError>
    ensures noted { OnOk result (notes_of notes.new ≡ noted (notes_of notes.old) (R.referred (scope_of scope.entry) (reference_of target.now))) }
    ensures value { IfOk result (λ o. operand_of o ≡ (R.referred (scope_of scope.entry) (reference_of target.now)).value) }
{
    let LocatorChain { located, names } = locator_chain(alloc, target)?;
    let names = names_in(alloc, scope, notes, names)?;
    let first = Operand {
        place: place_of_reference(target),
        constant: None,
        referent: names_referent(alloc, scope, notes, None, names)?,
    };
    Ok(followed(alloc, scope, notes, located, first)?)
}

/// What names, the last of them first, come to behind the locator that they wait for.
#[cycle(walk)]
#[tactic(auto, using(crate::proofs::Walks::walks, crate::proofs::ShownWaits::chains))]
fn followed<'t, 'a>(
    alloc: Global,
    scope: Scope<'t, '_, 'a>,
    notes: &mut Notes,
    located: Vec<&'a Qualified>,
    first: Operand<'t, 'a>,
) -> Result<Operand<'t, 'a>, AllocError>
    ensures noted { OnOk result (notes_of notes.new ≡ noted (notes_of notes.old) (followed (scope_of scope.entry) (map (λ q. qualified_of q.now) located.entry.items) (operand_of first.entry))) }
    ensures value { IfOk result (λ o. operand_of o ≡ (followed (scope_of scope.entry) (map (λ q. qualified_of q.now) located.entry.items) (operand_of first.entry)).value) }
{
    let mut located = located;
    let mut taken = first;
    'locators: while let Some(target) = located.pop() {
        let place = taken.place;
        let locator = written_locator(alloc, notes, taken)?;
        let names = names_in(alloc, scope, notes, target)?;
        taken = Operand {
            place,
            constant: None,
            referent: names_referent(alloc, scope, notes, locator, names)?,
        };
    }
    Ok(taken)
}

/// The names of a reference.
#[cycle(walk)]
#[tactic(auto, using(crate::proofs::Walks::walks))]
fn names_in<'t, 'a>(
    alloc: Global,
    scope: Scope<'t, '_, 'a>,
    notes: &mut Notes,
    qualified: &'a Qualified,
) -> Result<Vec<Named<'t, 'a>>, AllocError>
    ensures noted { OnOk result (notes_of notes.new ≡ noted (notes_of notes.old) (R.qualified (scope_of scope.entry) (qualified_of qualified.now))) }
    ensures value { IfOk result (λ v. map named_of v.items ≡ (R.qualified (scope_of scope.entry) (qualified_of qualified.now)).value) }
{
    let mut out = Vec::new(alloc);
    let mut left = qualified;
    'names: loop {
        match left {
            Qualified::Last { name, arguments } => {
                let arguments = arguments_in(alloc, scope, notes, arguments)?;
                out.push(Named { name, arguments })?;
                return Ok(out);
            }
            Qualified::Of {
                name,
                arguments,
                rest,
            } => {
                let arguments = arguments_in(alloc, scope, notes, arguments)?;
                out.push(Named { name, arguments })?;
                left = rest;
            }
        }
    }
}

/// What stands in parentheses behind a name.
#[cycle(walk)]
#[tactic(auto, using(crate::proofs::Walks::walks))]
pub fn arguments_in<'t, 'a>(
    alloc: Global,
    scope: Scope<'t, '_, 'a>,
    notes: &mut Notes,
    arguments: &'a Arguments,
) -> Result<Option<Vec<Operand<'t, 'a>>>, AllocError>
    ensures noted { OnOk result (notes_of notes.new ≡ noted (notes_of notes.old) (R.arguments (scope_of scope.entry) (arguments_of arguments.now))) }
    ensures value { IfOk result (λ xs. option_of (λ v. map operand_of v.items) xs ≡ (R.arguments (scope_of scope.entry) (arguments_of arguments.now)).value) }
{
    match arguments {
        Arguments::Absent => Ok(None),
        Arguments::Listed(exprs) => Ok(Some(expressions(alloc, scope, notes, exprs)?)),
    }
}

/// A list of expressions.
#[cycle(walk)]
#[tactic(auto, using(crate::proofs::Walks::walks))]
pub fn expressions<'t, 'a>(
    alloc: Global,
    scope: Scope<'t, '_, 'a>,
    notes: &mut Notes,
    exprs: &'a Exprs,
) -> Result<Vec<Operand<'t, 'a>>, AllocError>
    ensures noted { OnOk result (notes_of notes.new ≡ noted (notes_of notes.old) (R.expressions (scope_of scope.entry) (exprs_of exprs.now))) }
    ensures value { IfOk result (λ v. map operand_of v.items ≡ (R.expressions (scope_of scope.entry) (exprs_of exprs.now)).value) }
{
    let mut out = Vec::new(alloc);
    let mut left = exprs;
    'expressions: while let Exprs::More { first, rest } = left {
        out.push(operand(alloc, scope, notes, first)?)?;
        left = rest;
    }
    Ok(out)
}
