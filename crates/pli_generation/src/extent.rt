// The extents of a variable, each evaluated once.

ghost use Rattle.std.specs.Prelude.{◌≡◌, map, IfOk, OnOk};
ghost use Rattle.pli_typing.specs.Generations as G;
ghost use Rattle.pli_typing.specs.Judging.{each};
ghost use Rattle.pli_language.specs.Refusals.{soonest};
ghost use Rattle.pli_typing.specs.TypedStatementView.{evaluation_of};
ghost use Rattle.pli_typing.specs.TypedView.{number_of, variable_of};
ghost use Rattle.pli_language.specs.View.{expr_of};
ghost use Rattle.pli_operand.specs.Notes.{noted};
ghost use Rattle.pli_operand.specs.Shown.{notes_of};
ghost use Rattle.pli_reference.specs.Shown.{scope_of};
ghost use Rattle.pli_variables.specs.Written.{all_shown, extent_shown};

use pli_declaring::constant::place_of;
use pli_language::expr::Expr;
use pli_language::fault::{SourceFault, SourceKind};
use pli_operand::notes::Notes;
use pli_operand::value::number_operand;
use pli_reference::expression::operand;
use pli_reference::scope::Scope;
use pli_typing::typed::{Evaluation, Number, Variable};
use pli_variables::declared::{WrittenExtent, check_of};
use std::alloc::{AllocError, Global};

/// An expression as a number.
#[tactic(auto, using(pli_operand::proofs::Noting::noting))]
pub fn number_at<'a>(
    alloc: Global,
    scope: Scope<'_, '_, 'a>,
    notes: &mut Notes,
    expr: &'a Expr,
) -> Result<Number<'a>, AllocError>
    ensures noted { OnOk result (notes_of notes.new ≡ noted (notes_of notes.old) (G.extent_number (scope_of scope.entry) (expr_of expr.now))) }
    ensures value { IfOk result (λ n. number_of n ≡ (G.extent_number (scope_of scope.entry) (expr_of expr.now)).value) }
{
    let operand = operand(alloc, scope, notes, expr)?;
    number_operand(alloc, notes, operand)
}

/// An extent of a variable: it contains no function, and no AUTOMATIC variable of its block from this one on, which isn't made
/// yet.
#[tactic(auto, using(crate::proofs::Extents::extent_found))]
fn extent_demanded<'a>(
    alloc: Global,
    scope: Scope<'_, '_, 'a>,
    found: &mut Option<SourceFault>,
    own: Variable,
    expr: &'a Expr,
) -> Result<Number<'a>, AllocError>
    ensures faults { OnOk result (found.new ≡ soonest found.old (G.extent_demanded (variable_of own) (expr_of expr.now) (G.extent_number (scope_of scope.entry) (expr_of expr.now))).faults) }
    ensures value { IfOk result (λ n. number_of n ≡ (G.extent_number (scope_of scope.entry) (expr_of expr.now)).value) }
{
    let mut notes = Notes {
        found: *found,
        own: Some(own),
        forbidden: false,
    };
    let number = number_at(alloc, scope, &mut notes, expr)?;
    let is_made = !notes.forbidden;
    notes.demand(is_made, place_of(expr), SourceKind::BadExtent);
    *found = notes.found;
    Ok(number)
}

fn evaluation<'a>(
    alloc: Global,
    scope: Scope<'_, '_, 'a>,
    found: &mut Option<SourceFault>,
    own: Variable,
    written: &[WrittenExtent<'a>],
    extent: &WrittenExtent<'a>,
) -> Result<Evaluation<'a>, AllocError>
    ensures faults { OnOk result (found.new ≡ soonest found.old (G.evaluation (scope_of scope.entry) (variable_of own) (all_shown written.now) (extent_shown extent.now)).faults) }
    ensures value { IfOk result (λ e. evaluation_of e ≡ (G.evaluation (scope_of scope.entry) (variable_of own) (all_shown written.now) (extent_shown extent.now)).value) }
{
    Ok(Evaluation {
        value: extent_demanded(alloc, scope, found, own, extent.value)?,
        check: check_of(written, &extent.check),
    })
}

/// The extents of a variable, in source order.
#[tactic(auto, using(crate::proofs::Extents::each_here, crate::proofs::Extents::each_end, pli_declare::proofs::Chains::drop_here, std::proofs::lemmas::List::drop_all))]
pub fn evaluations<'a>(
    alloc: Global,
    scope: Scope<'_, '_, 'a>,
    found: &mut Option<SourceFault>,
    own: Variable,
    written: &[WrittenExtent<'a>],
) -> Result<Vec<Evaluation<'a>>, AllocError>
    ensures faults { OnOk result (found.new ≡ soonest found.old (each (G.evaluation (scope_of scope.entry) (variable_of own) (all_shown written.now)) (all_shown written.now)).faults) }
    ensures value { IfOk result (λ v. map evaluation_of v.items ≡ (each (G.evaluation (scope_of scope.entry) (variable_of own) (all_shown written.now)) (all_shown written.now)).value) }
{
    let mut out = Vec::new(alloc);
    for extent in written {
        out.push(evaluation(alloc, scope, found, own, written, extent)?)?;
    }
    Ok(out)
}
