// What the names of a reference mean.

ghost use Rattle.std.specs.Prelude.{◌≡◌, ◌∷◌, map, IfOk, OnOk};
ghost use Rattle.pli_language.specs.declared.scope.Found.TheVariants as F;
ghost use Rattle.pli_typing.specs.Converting.{NotKnown};
ghost use Rattle.pli_reference.specs.Firsts.{first_name};
ghost use Rattle.pli_language.specs.Means.{names_mean};
ghost use Rattle.pli_typing.specs.References as R;
ghost use Rattle.pli_language.specs.View.{name_of, option_of};
ghost use Rattle.pli_declare.specs.Among.{letters_of};
ghost use Rattle.pli_operand.specs.Notes.{noted, with_fault};
ghost use Rattle.pli_operand.specs.Shown.{notes_of, referent_of};
ghost use Rattle.pli_language.specs.Refusals.{fault};
ghost use Rattle.pli_reference.specs.Parts.{undeclared_referent};
ghost use Rattle.pli_reference.specs.Shown.{locator_of, named_of, scope_of};

use crate::meant::{builtin_referent, not_known, what_referent};
use crate::names::Named;
use crate::scope::Scope;
use pli_declaring::attribute::is_builtin;
use pli_language::expr::{Name, Place};
use pli_language::fault::SourceKind;
use pli_language::scope::Found;
use pli_operand::notes::Notes;
use pli_operand::operand::Referent;
use pli_typing::typed::Pointer;
use std::alloc::{AllocError, Global};

/// The letters of names.
#[tactic(auto, using(pli_declare::proofs::Chains::drop_here, std::proofs::lemmas::List::drop_all, crate::proofs::Parts::lists, std::proofs::lemmas::List::map_push))]
fn letters<'n, 'a>(alloc: Global, names: &'n [Named<'_, 'a>]) -> Result<Vec<&'a [u8]>, AllocError>
    ensures { IfOk result (λ v. letters_of v.items ≡ map (λ m. m.name.letters) (map named_of names.now)) }
{
    let mut out = Vec::new(alloc);
    for n in names {
        out.push(n.name.letters.as_slice())?;
    }
    Ok(out)
}

/// What the names mean where they stand.
fn names_mean(alloc: Global, scope: Scope, names: &[Named]) -> Result<Found, AllocError>
    ensures { IfOk result (λ found. found ≡ names_mean (scope_of scope.entry).blocks scope.entry.block (map (λ m. m.name.letters) (map named_of names.now))) }
{
    let letters = letters(alloc, names)?;
    Ok(scope.tables.scopes.find(scope.block, &letters))
}

/// A name alone that is a built-in's.
fn is_builtin_name(names: &[Named]) -> bool
    ensures { result ≡ R.is_builtin_name (map named_of names.now) }
{
    match names {
        [named] => is_builtin(named.name.word),
        _ => false,
    }
}

/// Names that mean nothing that is known.
#[tactic(auto, using(pli_operand::proofs::Noting::noting))]
fn refused<'t, 'a>(
    notes: &mut Notes,
    place: Place,
    kind: SourceKind,
    located: Option<Pointer<'a>>,
    names: Vec<Named<'t, 'a>>,
) -> Referent<'t, 'a>
    ensures noted { notes_of notes.new ≡ with_fault (notes_of notes.old) (fault place kind) }
    ensures value { referent_of result ≡ NotKnown }
{
    notes.broken(place, kind);
    not_known(located, names)
}

/// Names that nothing is declared as: a built-in's name alone, or a name that isn't declared.
#[tactic(auto, using(pli_operand::proofs::Noting::noting))]
fn undeclared_referent<'t, 'a>(
    alloc: Global,
    notes: &mut Notes,
    first: &Name,
    located: Option<Pointer<'a>>,
    names: Vec<Named<'t, 'a>>,
) -> Result<Referent<'t, 'a>, AllocError>
    ensures noted { OnOk result (notes_of notes.new ≡ noted (notes_of notes.old) (undeclared_referent (name_of first.now) (locator_of located.entry) (map named_of names.entry.items))) }
    ensures value { IfOk result (λ r. referent_of r ≡ (undeclared_referent (name_of first.now) (locator_of located.entry) (map named_of names.entry.items)).value) }
{
    if is_builtin_name(&names) {
        return builtin_referent(alloc, notes, first.place, first.word, located, names);
    }
    Ok(refused(notes, first.place, SourceKind::Undeclared, located, names))
}

/// What the names mean, where this is found of them.
#[tactic(auto, using(pli_operand::proofs::Noting::noting))]
fn found_referent<'t, 'a>(
    alloc: Global,
    scope: Scope<'t, '_, 'a>,
    notes: &mut Notes,
    first: &Name,
    found: Found,
    located: Option<Pointer<'a>>,
    names: Vec<Named<'t, 'a>>,
) -> Result<Referent<'t, 'a>, AllocError>
    ensures noted { OnOk result (notes_of notes.new ≡ noted (notes_of notes.old) (R.found_referent (scope_of scope.entry) (name_of first.now) found (locator_of located.entry) (map named_of names.entry.items))) }
    ensures value { IfOk result (λ r. referent_of r ≡ (R.found_referent (scope_of scope.entry) (name_of first.now) found (locator_of located.entry) (map named_of names.entry.items)).value) }
{
    match found {
        Found::One(at) => what_referent(alloc, scope, notes, at, first.place, located, names),
        Found::None => undeclared_referent(alloc, notes, first, located, names),
        Found::Ambiguous => {
            Ok(refused(notes, first.place, SourceKind::Ambiguous, located, names))
        }
    }
}

/// The first of the names.
fn first_name<'a>(names: &[Named<'_, 'a>]) -> Option<&'a Name>
    ensures { option_of (λ n. name_of n.now) result ≡ first_name (map named_of names.now) }
{
    match names.first() {
        Some(named) => Some(named.name),
        None => None,
    }
}

/// Names with points between them, behind a locator or not.
#[tactic(auto, using(pli_operand::proofs::Noting::noting, crate::proofs::FirstNames::names_none, crate::proofs::FirstNames::names_some))]
pub fn names_referent<'t, 'a>(
    alloc: Global,
    scope: Scope<'t, '_, 'a>,
    notes: &mut Notes,
    located: Option<Pointer<'a>>,
    names: Vec<Named<'t, 'a>>,
) -> Result<Referent<'t, 'a>, AllocError>
    ensures noted { OnOk result (notes_of notes.new ≡ noted (notes_of notes.old) (R.names_referent (scope_of scope.entry) (locator_of located.entry) (map named_of names.entry.items))) }
    ensures value { IfOk result (λ r. referent_of r ≡ (R.names_referent (scope_of scope.entry) (locator_of located.entry) (map named_of names.entry.items)).value) }
{
    match first_name(&names) {
        Some(first) => {
            let found = names_mean(alloc, scope, &names)?;
            found_referent(alloc, scope, notes, first, found, located, names)
        }
        None => Ok(not_known(located, names)),
    }
}
