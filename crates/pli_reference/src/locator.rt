// What locates a BASED variable.

ghost use Rattle.std.specs.Prelude.{◌≡◌, None, Some, false, map, IfOk, OnOk};
ghost use Rattle.pli_typing.specs.Converting as C;
ghost use Rattle.pli_language.specs.Declarations.{Variable'};
ghost use Rattle.pli_typing.specs.References as R;
ghost use Rattle.pli_typing.specs.TypedTree as Y;
ghost use Rattle.pli_typing.specs.TypedView.{leaf_type_of};
ghost use Rattle.pli_typing.specs.Variables.{what_at};
ghost use Rattle.pli_language.specs.View.{name_of, option_of};
ghost use Rattle.pli_declare.specs.Shown.{held_of};
ghost use Rattle.pli_declare.specs.ShownBlocks.{block_of};
ghost use Rattle.pli_operand.specs.Notes.{noted};
ghost use Rattle.pli_operand.specs.Shown.{notes_of, operand_of};
ghost use Rattle.pli_variables.specs.ShownShapes.{shape_of};
ghost use Rattle.pli_reference.specs.Parts.{whole_by};
ghost use Rattle.pli_reference.specs.Shown.{locator_of};

use crate::part::{shape_of, whole_by};
use pli_declare::scope::{Held, What};
use pli_declaring::attribute::{Row, has};
use pli_declaring::held::class_attributes;
use pli_language::expr::{Name, Place};
use pli_language::fault::SourceKind;
use pli_language::scope::{DeclarationAt, Found};
use pli_operand::notes::Notes;
use pli_operand::operand::Operand;
use pli_operand::shape::scalar_type;
use pli_operand::value::{pointer_operand, value_with_type};
use pli_operand::wanted::pointer_wanted;
use pli_typing::typed::{LeafType, Pointer};
use pli_variables::{Shape, Tables};
use std::alloc::{AllocError, Global};

/// A scalar of this kind converts to a POINTER.
fn is_locator(kind: Option<LeafType>) -> bool
    ensures { (r : Y.Reference) → result ≡ R.locates (C.value_with_type r (option_of leaf_type_of kind)) }
{
    matches!(
        kind,
        Some(LeafType::Pointer) | Some(LeafType::Offset(Some(_)))
    )
}

/// A variable of this shape is a scalar locator.
fn locates(shape: &Shape) -> bool
    ensures { result ≡ R.locates (R.locator_value (whole_by (shape_of shape.now))) }
{
    is_locator(scalar_type(&whole_by(shape)))
}

/// What is declared there, where it can locate: a scalar locator that is no part of a BASED variable.
#[tactic(auto, using(crate::proofs::Parts::whole_is))]
fn locator_in<'t, 'a>(
    tables: &'t Tables<'_, 'a>,
    at: DeclarationAt,
    held: &Held,
) -> Option<&'t Shape<'a>>
    requires { what_at (map block_of tables.now.scopes.now.blocks.items) at ≡ Some (Variable' (held_of held.now)) }
    ensures { option_of (λ s. whole_by (shape_of s.now)) result ≡ R.locator_in (map block_of tables.now.scopes.now.blocks.items) at.block (Some (Variable' (held_of held.now))) }
{
    let shape = shape_of(tables, at, held);
    if has(Row::Based, class_attributes(held)) || !locates(shape) {
        return None;
    }
    Some(shape)
}

/// What is declared there, where it can locate.
fn locator_at<'t, 'a>(tables: &'t Tables<'_, 'a>, at: DeclarationAt) -> Option<&'t Shape<'a>>
    ensures { option_of (λ s. whole_by (shape_of s.now)) result ≡ R.locator_in (map block_of tables.now.scopes.now.blocks.items) at.block (what_at (map block_of tables.now.scopes.now.blocks.items) at) }
{
    match tables.what_at(at) {
        Some(What::Variable(held)) => locator_in(tables, at, held),
        Some(What::Label) | Some(What::Procedure(_)) | None => None,
    }
}

/// What is found, where it can locate.
pub fn locator_found<'t, 'a>(tables: &'t Tables<'_, 'a>, found: Found) -> Option<&'t Shape<'a>>
    ensures { option_of (λ s. whole_by (shape_of s.now)) result ≡ R.locator_found (map block_of tables.now.scopes.now.blocks.items) found }
{
    match found {
        Found::One(at) => locator_at(tables, at),
        Found::None | Found::Ambiguous => None,
    }
}

/// The value of a locator that BASED names.
#[tactic(auto, using(pli_operand::proofs::Noting::noting))]
fn locator_of_shape<'a>(
    alloc: Global,
    notes: &mut Notes,
    place: Place,
    shape: &Shape<'a>,
) -> Result<Option<Pointer<'a>>, AllocError>
    ensures noted { OnOk result (notes_of notes.new ≡ noted (notes_of notes.old) (R.declared_locator place (Some (whole_by (shape_of shape.now))))) }
    ensures value { IfOk result (λ p. locator_of p ≡ (R.declared_locator place (Some (whole_by (shape_of shape.now)))).value) }
{
    notes.mention(shape.variable);
    let designated = whole_by(shape);
    let kind = scalar_type(&designated);
    let value = value_with_type(alloc, designated.reference, kind)?;
    Ok(Some(pointer_wanted(notes, place, value)))
}

/// What locates by its declaration. A bad name in BASED(name) is told where it stands.
#[tactic(auto, using(pli_operand::proofs::Noting::noting))]
fn declared_locator<'a>(
    alloc: Global,
    notes: &mut Notes,
    place: Place,
    shape: Option<&Shape<'a>>,
) -> Result<Option<Pointer<'a>>, AllocError>
    ensures noted { OnOk result (notes_of notes.new ≡ noted (notes_of notes.old) (R.declared_locator place (option_of (λ s. whole_by (shape_of s.now)) shape.entry))) }
    ensures value { IfOk result (λ p. locator_of p ≡ (R.declared_locator place (option_of (λ s. whole_by (shape_of s.now)) shape.entry)).value) }
{
    match shape {
        Some(shape) => locator_of_shape(alloc, notes, place, shape),
        None => Ok(None),
    }
}

/// What the declaration of a BASED variable names.
#[tactic(auto, using(pli_operand::proofs::Noting::noting))]
pub fn based_locator<'a>(
    alloc: Global,
    notes: &mut Notes,
    tables: &Tables<'_, 'a>,
    block: usize,
    place: Place,
    name: Option<&Name>,
) -> Result<Option<Pointer<'a>>, AllocError>
    ensures noted { OnOk result (notes_of notes.new ≡ noted (notes_of notes.old) (R.based_locator (map block_of tables.now.scopes.now.blocks.items) block place (option_of (λ n. name_of n.now) name.entry))) }
    ensures value { IfOk result (λ p. locator_of p ≡ (R.based_locator (map block_of tables.now.scopes.now.blocks.items) block place (option_of (λ n. name_of n.now) name.entry)).value) }
{
    match name {
        Some(name) => {
            let found = locator_found(tables, tables.name_means(block, name));
            declared_locator(alloc, notes, place, found)
        }
        None => {
            notes.broken(place, SourceKind::BadAttributes);
            Ok(None)
        }
    }
}

/// What stands before `->`.
#[tactic(auto, using(pli_operand::proofs::Noting::noting))]
pub fn written_locator<'a>(
    alloc: Global,
    notes: &mut Notes,
    operand: Operand<'_, 'a>,
) -> Result<Option<Pointer<'a>>, AllocError>
    ensures noted { OnOk result (notes_of notes.new ≡ noted (notes_of notes.old) (R.written_locator (operand_of operand.entry))) }
    ensures value { IfOk result (λ p. locator_of p ≡ (R.written_locator (operand_of operand.entry)).value) }
{
    Ok(Some(pointer_operand(alloc, notes, operand)?))
}
