// Statements that hold no statement.

ghost use Rattle.std.specs.Prelude.{◌≡◌, map, IfOk, OnOk};
ghost use Rattle.pli_typing.specs.Generations as G;
ghost use Rattle.pli_typing.specs.Judging.{each};
ghost use Rattle.pli_typing.specs.SingleStatements as S;
ghost use Rattle.pli_typing.specs.TypedStatementView.{allocation_of, freeing_of, get_pair_of, put_pair_of, stmt_of};
ghost use Rattle.pli_language.specs.View.{allocation_of as made_of, edit_pair_of, expr_of, freeing_of as freed_of, option_of, reference_of, skip_of};
ghost use Rattle.pli_operand.specs.Notes.{noted};
ghost use Rattle.pli_operand.specs.Shown.{notes_of};
ghost use Rattle.pli_reference.specs.Shown.{scope_of};

use pli_generation::allocation::allocation;
use pli_generation::freeing::freeing;
use pli_language::declaration::{Allocation, Freeing};
use pli_language::expr::{Expr, Place, Reference};
use pli_language::stmt::{EditPair, Skip};
use pli_operand::notes::Notes;
use pli_reference::expression::{expressions, operand, referred};
use pli_reference::scope::Scope;
use pli_transfer::assignment::assignment;
use pli_transfer::item::{get_pair, put_pair};
use pli_typing::statement::Stmt;
use pli_typing::typed;
use pli_typing::typed::{GetPair, PutPair};
use std::alloc::{AllocError, Global};

/// An assignment.
#[tactic(auto, using(pli_operand::proofs::Noting::noting))]
pub fn assign_statement<'a>(
    alloc: Global,
    scope: Scope<'_, '_, 'a>,
    notes: &mut Notes,
    target: &'a Reference,
    source: &'a Expr,
    place: Place,
) -> Result<Stmt<'a>, AllocError>
    ensures noted { OnOk result (notes_of notes.new ≡ noted (notes_of notes.old) (S.assign_statement (scope_of scope.entry) (reference_of target.now) (expr_of source.now) place)) }
    ensures value { IfOk result (λ s. stmt_of s ≡ (S.assign_statement (scope_of scope.entry) (reference_of target.now) (expr_of source.now) place).value) }
{
    let target = referred(alloc, scope, notes, target)?;
    let source = operand(alloc, scope, notes, source)?;
    assignment(alloc, notes, place, target, source)
}

#[tactic(auto, using(pli_generation::proofs::Extents::noted_end, pli_declare::proofs::Chains::drop_here, std::proofs::lemmas::List::drop_all))]
fn allocations<'a>(
    alloc: Global,
    scope: Scope<'_, '_, 'a>,
    notes: &mut Notes,
    place: Place,
    written: &'a [Allocation],
) -> Result<Vec<typed::Allocation<'a>>, AllocError>
    ensures noted { OnOk result (notes_of notes.new ≡ noted (notes_of notes.old) (each (G.allocation (scope_of scope.entry) place) (map made_of written.now))) }
    ensures value { IfOk result (λ v. map allocation_of v.items ≡ (each (G.allocation (scope_of scope.entry) place) (map made_of written.now)).value) }
{
    let mut out = Vec::new(alloc);
    for one in written {
        out.push(allocation(alloc, scope, notes, place, one)?)?;
    }
    Ok(out)
}

/// ALLOCATE.
#[tactic(auto, using(pli_operand::proofs::Noting::noting), unfolding(pli_typing::specs::TypedStatementView::stmt_of))]
pub fn allocate_statement<'a>(
    alloc: Global,
    scope: Scope<'_, '_, 'a>,
    notes: &mut Notes,
    written: &'a [Allocation],
    place: Place,
) -> Result<Stmt<'a>, AllocError>
    ensures noted { OnOk result (notes_of notes.new ≡ noted (notes_of notes.old) (S.allocate_statement (scope_of scope.entry) (map made_of written.now) place)) }
    ensures value { IfOk result (λ s. stmt_of s ≡ (S.allocate_statement (scope_of scope.entry) (map made_of written.now) place).value) }
{
    Ok(Stmt::Allocate {
        allocations: allocations(alloc, scope, notes, place, written)?,
        line: place.line,
    })
}

#[tactic(auto, using(pli_generation::proofs::Extents::noted_end, pli_declare::proofs::Chains::drop_here, std::proofs::lemmas::List::drop_all))]
fn freeings<'a>(
    alloc: Global,
    scope: Scope<'_, '_, 'a>,
    notes: &mut Notes,
    place: Place,
    written: &'a [Freeing],
) -> Result<Vec<typed::Freeing<'a>>, AllocError>
    ensures noted { OnOk result (notes_of notes.new ≡ noted (notes_of notes.old) (each (G.freeing (scope_of scope.entry) place) (map freed_of written.now))) }
    ensures value { IfOk result (λ v. map freeing_of v.items ≡ (each (G.freeing (scope_of scope.entry) place) (map freed_of written.now)).value) }
{
    let mut out = Vec::new(alloc);
    for one in written {
        out.push(freeing(alloc, scope, notes, place, one)?)?;
    }
    Ok(out)
}

/// FREE.
#[tactic(auto, using(pli_operand::proofs::Noting::noting), unfolding(pli_typing::specs::TypedStatementView::stmt_of))]
pub fn free_statement<'a>(
    alloc: Global,
    scope: Scope<'_, '_, 'a>,
    notes: &mut Notes,
    written: &'a [Freeing],
    place: Place,
) -> Result<Stmt<'a>, AllocError>
    ensures noted { OnOk result (notes_of notes.new ≡ noted (notes_of notes.old) (S.free_statement (scope_of scope.entry) (map freed_of written.now) place)) }
    ensures value { IfOk result (λ s. stmt_of s ≡ (S.free_statement (scope_of scope.entry) (map freed_of written.now) place).value) }
{
    Ok(Stmt::Free {
        freeings: freeings(alloc, scope, notes, place, written)?,
        line: place.line,
    })
}

fn skipped(skip: Option<Skip>) -> Option<u64>
    ensures { result ≡ S.skipped (option_of skip_of skip) }
{
    match skip {
        Some(skip) => Some(skip.number),
        None => None,
    }
}

#[tactic(auto, using(pli_operand::proofs::Noting::noting))]
fn get_of<'a>(
    alloc: Global,
    scope: Scope<'_, '_, 'a>,
    notes: &mut Notes,
    pair: &'a EditPair,
) -> Result<GetPair<'a>, AllocError>
    ensures noted { OnOk result (notes_of notes.new ≡ noted (notes_of notes.old) (S.get_of (scope_of scope.entry) (edit_pair_of pair.now))) }
    ensures value { IfOk result (λ p. get_pair_of p ≡ (S.get_of (scope_of scope.entry) (edit_pair_of pair.now)).value) }
{
    let operands = expressions(alloc, scope, notes, &pair.items)?;
    get_pair(alloc, notes, &pair.formats, operands)
}

#[tactic(auto, using(pli_generation::proofs::Extents::noted_end, pli_declare::proofs::Chains::drop_here, std::proofs::lemmas::List::drop_all))]
fn get_pairs<'a>(
    alloc: Global,
    scope: Scope<'_, '_, 'a>,
    notes: &mut Notes,
    pairs: &'a [EditPair],
) -> Result<Vec<GetPair<'a>>, AllocError>
    ensures noted { OnOk result (notes_of notes.new ≡ noted (notes_of notes.old) (each (S.get_of (scope_of scope.entry)) (map edit_pair_of pairs.now))) }
    ensures value { IfOk result (λ v. map get_pair_of v.items ≡ (each (S.get_of (scope_of scope.entry)) (map edit_pair_of pairs.now)).value) }
{
    let mut out = Vec::new(alloc);
    for pair in pairs {
        out.push(get_of(alloc, scope, notes, pair)?)?;
    }
    Ok(out)
}

/// GET.
#[tactic(auto, using(pli_operand::proofs::Noting::noting), unfolding(pli_typing::specs::TypedStatementView::stmt_of))]
pub fn get_statement<'a>(
    alloc: Global,
    scope: Scope<'_, '_, 'a>,
    notes: &mut Notes,
    skip: Option<Skip>,
    pairs: &'a [EditPair],
    place: Place,
) -> Result<Stmt<'a>, AllocError>
    ensures noted { OnOk result (notes_of notes.new ≡ noted (notes_of notes.old) (S.get_statement (scope_of scope.entry) (option_of skip_of skip) (map edit_pair_of pairs.now) place)) }
    ensures value { IfOk result (λ s. stmt_of s ≡ (S.get_statement (scope_of scope.entry) (option_of skip_of skip) (map edit_pair_of pairs.now) place).value) }
{
    Ok(Stmt::Get {
        skip: skipped(skip),
        pairs: get_pairs(alloc, scope, notes, pairs)?,
        line: place.line,
    })
}

#[tactic(auto, using(pli_operand::proofs::Noting::noting))]
fn put_of<'a>(
    alloc: Global,
    scope: Scope<'_, '_, 'a>,
    notes: &mut Notes,
    pair: &'a EditPair,
) -> Result<PutPair<'a>, AllocError>
    ensures noted { OnOk result (notes_of notes.new ≡ noted (notes_of notes.old) (S.put_of (scope_of scope.entry) (edit_pair_of pair.now))) }
    ensures value { IfOk result (λ p. put_pair_of p ≡ (S.put_of (scope_of scope.entry) (edit_pair_of pair.now)).value) }
{
    let operands = expressions(alloc, scope, notes, &pair.items)?;
    put_pair(alloc, notes, &pair.formats, operands)
}

#[tactic(auto, using(pli_generation::proofs::Extents::noted_end, pli_declare::proofs::Chains::drop_here, std::proofs::lemmas::List::drop_all))]
fn put_pairs<'a>(
    alloc: Global,
    scope: Scope<'_, '_, 'a>,
    notes: &mut Notes,
    pairs: &'a [EditPair],
) -> Result<Vec<PutPair<'a>>, AllocError>
    ensures noted { OnOk result (notes_of notes.new ≡ noted (notes_of notes.old) (each (S.put_of (scope_of scope.entry)) (map edit_pair_of pairs.now))) }
    ensures value { IfOk result (λ v. map put_pair_of v.items ≡ (each (S.put_of (scope_of scope.entry)) (map edit_pair_of pairs.now)).value) }
{
    let mut out = Vec::new(alloc);
    for pair in pairs {
        out.push(put_of(alloc, scope, notes, pair)?)?;
    }
    Ok(out)
}

/// PUT.
#[tactic(auto, using(pli_operand::proofs::Noting::noting), unfolding(pli_typing::specs::TypedStatementView::stmt_of))]
pub fn put_statement<'a>(
    alloc: Global,
    scope: Scope<'_, '_, 'a>,
    notes: &mut Notes,
    skip: Option<Skip>,
    pairs: &'a [EditPair],
    place: Place,
) -> Result<Stmt<'a>, AllocError>
    ensures noted { OnOk result (notes_of notes.new ≡ noted (notes_of notes.old) (S.put_statement (scope_of scope.entry) (option_of skip_of skip) (map edit_pair_of pairs.now) place)) }
    ensures value { IfOk result (λ s. stmt_of s ≡ (S.put_statement (scope_of scope.entry) (option_of skip_of skip) (map edit_pair_of pairs.now) place).value) }
{
    Ok(Stmt::Put {
        skip: skipped(skip),
        pairs: put_pairs(alloc, scope, notes, pairs)?,
        line: place.line,
    })
}
