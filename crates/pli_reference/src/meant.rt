// What names mean, with their arguments or subscripts.

ghost use Rattle.std.specs.Prelude.{◌≡◌, ◌&&◌, ◌||◌, ◌==◌, Some, is_some, length, map, not, IfOk, OnOk};
ghost use Rattle.pli_typing.specs.Calls as C;
ghost use Rattle.pli_language.specs.Declarations.{ProcedureName, Variable'};
ghost use Rattle.pli_language.specs.Declaring.{class_attributes, has};
ghost use Rattle.pli_typing.specs.Converting.{GivesNothing, NotKnown};
ghost use Rattle.pli_typing.specs.References as R;
ghost use Rattle.pli_typing.specs.TypedTree as Y;
ghost use Rattle.pli_typing.specs.TypedView.{call_of, leaf_type_of, pointer_of};
ghost use Rattle.pli_typing.specs.Variables.{locator_name, what_at};
ghost use Rattle.pli_language.specs.View.{attribute_of, name_of, option_of, procedure_head_of};
ghost use Rattle.pli_declare.specs.Shown.{held_of};
ghost use Rattle.pli_operand.specs.Notes.{noted};
ghost use Rattle.pli_operand.specs.Shown.{notes_of, operand_of, referent_of};
ghost use Rattle.pli_variables.specs.ShownShapes.{shape_of};
ghost use Rattle.pli_reference.specs.Parts.{subscripted_by, with_subscripts};
ghost use Rattle.pli_reference.specs.Shown.{locator_of, named_of, scope_of};

use crate::call::procedure_called;
use crate::locator::based_locator;
use crate::names::{Named, all_operands, any_empty, any_listed, listed_place};
use crate::part::{part_by, shape_of};
use crate::scope::Scope;
use pli_builtin::builtin::{builtin_called, number_list};
use pli_declare::scope::{Held, What};
use pli_declaring::attribute::{Row, has};
use pli_declaring::held::{class_attributes, own_attributes};
use pli_language::declaration::Attribute;
use pli_language::expr::{Name, Place};
use pli_language::fault::SourceKind;
use pli_language::scope::{DeclarationAt, Found};
use pli_language::stmt::ProcedureHead;
use pli_language::token::Word;
use pli_operand::notes::Notes;
use pli_operand::operand::{Operand, Referent};
use pli_operand::value::value_from;
use pli_typing::typed::{Call, LeafType, Pointer};
use pli_variables::Shape;
use std::alloc::{AllocError, Global};

/// Only a variable is located.
#[tactic(auto, using(pli_operand::proofs::Noting::noting))]
fn not_located(notes: &mut Notes, place: Place, located: Option<Pointer>)
    ensures { notes_of notes.new ≡ noted (notes_of notes.old) (R.not_located place (locator_of located.entry)) }
{
    if is_located(located) {
        notes.broken(place, SourceKind::TypeMismatch);
    }
}

/// A locator stands before the names.
fn is_located(located: Option<Pointer>) -> bool
    ensures { result ≡ is_some (option_of pointer_of located.entry) }
{
    located.is_some()
}

/// What a call of a function gives.
fn function_answer<'t, 'a>(
    alloc: Global,
    kind: LeafType,
    call: Call<'a>,
) -> Result<Referent<'t, 'a>, AllocError>
    ensures { IfOk result (λ r. referent_of r ≡ R.function_answer (option_of leaf_type_of (Some kind)) (call_of call.entry)) }
{
    value_from(alloc, kind, call)
}

/// A function that a block declares is called.
#[tactic(auto, using(pli_operand::proofs::Noting::noting))]
fn function_referent<'t, 'a>(
    alloc: Global,
    scope: Scope<'t, '_, 'a>,
    notes: &mut Notes,
    holder: usize,
    head: &ProcedureHead,
    kind: LeafType,
    place: Place,
    operands: Vec<Operand<'t, 'a>>,
) -> Result<Referent<'t, 'a>, AllocError>
    requires { option_of leaf_type_of (Some kind) ≡ C.result_type (scope_of scope).blocks holder (procedure_head_of head.now) }
    ensures noted { OnOk result (notes_of notes.new ≡ noted (notes_of notes.old) (R.function_referent (scope_of scope.entry).blocks holder (procedure_head_of head.now) place (map operand_of operands.entry.items))) }
    ensures value { IfOk result (λ r. referent_of r ≡ (R.function_referent (scope_of scope.entry).blocks holder (procedure_head_of head.now) place (map operand_of operands.entry.items)).value) }
{
    notes.mention_function();
    let call = procedure_called(alloc, notes, scope.tables, holder, head, place, operands)?;
    function_answer(alloc, kind, call)
}

/// A procedure is named: a function is called, and another gives no value.
#[tactic(auto, using(pli_operand::proofs::Noting::noting))]
fn procedure_referent<'t, 'a>(
    alloc: Global,
    scope: Scope<'t, '_, 'a>,
    notes: &mut Notes,
    holder: usize,
    head: &ProcedureHead,
    place: Place,
    operands: Vec<Operand<'t, 'a>>,
) -> Result<Referent<'t, 'a>, AllocError>
    ensures noted { OnOk result (notes_of notes.new ≡ noted (notes_of notes.old) (R.procedure_referent (scope_of scope.entry).blocks holder (procedure_head_of head.now) (is_some (C.result_type (scope_of scope.entry).blocks holder (procedure_head_of head.now))) place (map operand_of operands.entry.items))) }
    ensures value { IfOk result (λ r. referent_of r ≡ (R.procedure_referent (scope_of scope.entry).blocks holder (procedure_head_of head.now) (is_some (C.result_type (scope_of scope.entry).blocks holder (procedure_head_of head.now))) place (map operand_of operands.entry.items)).value) }
{
    match scope.tables.result_type(holder, head) {
        Some(kind) => function_referent(alloc, scope, notes, holder, head, kind, place, operands),
        None => Ok(no_value(operands)),
    }
}

/// What has no value takes no operands.
fn no_value<'t, 'a>(_operands: Vec<Operand<'t, 'a>>) -> Referent<'t, 'a>
    ensures { referent_of result ≡ GivesNothing }
{
    Referent::Nothing
}

/// The name in BASED(name).
#[tactic(auto, using(pli_declare::proofs::Chains::drop_here, std::proofs::lemmas::List::drop_all))]
pub fn locator_name<'b>(attributes: &'b [Attribute]) -> Option<&'b Name>
    ensures { option_of (λ n. name_of n.now) result ≡ locator_name (map attribute_of attributes.now) }
{
    for attribute in attributes {
        match attribute {
            Attribute::Based(Some(name)) => return Some(name),
            Attribute::Based(None) => return None,
            _ => {}
        }
    }
    None
}

/// A variable that isn't BASED has no locator.
#[tactic(auto, using(pli_operand::proofs::Noting::noting))]
fn unlocated<'a>(
    notes: &mut Notes,
    place: Place,
    located: Option<Pointer<'a>>,
) -> Option<Pointer<'a>>
    ensures noted { notes_of notes.new ≡ noted (notes_of notes.old) (R.not_located place (locator_of located.entry)) }
    ensures value { locator_of result ≡ Y.NotLocated }
{
    not_located(notes, place, located);
    None
}

/// A BASED variable is located by what stands before it, else by what its declaration names; no other variable is.
#[tactic(auto, using(pli_operand::proofs::Noting::noting))]
fn locator_of<'a>(
    alloc: Global,
    scope: Scope<'_, '_, 'a>,
    notes: &mut Notes,
    block: usize,
    held: &Held,
    place: Place,
    located: Option<Pointer<'a>>,
) -> Result<Option<Pointer<'a>>, AllocError>
    ensures noted { OnOk result (notes_of notes.new ≡ noted (notes_of notes.old) (R.locator_of (scope_of scope.entry).blocks block (held_of held.now) (has 11 (class_attributes (held_of held.now))) place (locator_of located.entry))) }
    ensures value { IfOk result (λ p. locator_of p ≡ (R.locator_of (scope_of scope.entry).blocks block (held_of held.now) (has 11 (class_attributes (held_of held.now))) place (locator_of located.entry)).value) }
{
    if !has(Row::Based, class_attributes(held)) {
        return Ok(unlocated(notes, place, located));
    }
    match located {
        Some(pointer) => Ok(Some(pointer)),
        None => based_locator(
            alloc,
            notes,
            scope.tables,
            block,
            place,
            locator_name(class_attributes(held)),
        ),
    }
}

/// How many operands there are.
fn count(operands: &[Operand]) -> usize
    ensures { result ≡ length (map operand_of operands.now) }
{
    operands.len()
}

/// No parentheses, or as many subscripts as there are dimensions.
fn fits(dimensions: usize, is_listed: bool, is_empty: bool, subscripts: usize) -> bool
    ensures { result ≡ (not is_listed || (not is_empty && (subscripts == dimensions))) }
{
    !is_listed || (!is_empty && subscripts == dimensions)
}

/// A part of a variable with these subscripts.
#[tactic(auto, using(pli_operand::proofs::Noting::noting))]
fn with_subscripts<'t, 'a>(
    alloc: Global,
    notes: &mut Notes,
    shape: &'t Shape<'a>,
    locator: Option<Pointer<'a>>,
    is_element: bool,
    operands: Vec<Operand<'t, 'a>>,
) -> Result<Referent<'t, 'a>, AllocError>
    ensures noted { OnOk result (notes_of notes.new ≡ noted (notes_of notes.old) (with_subscripts (shape_of shape.now) (locator_of locator.entry) is_element (map operand_of operands.entry.items))) }
    ensures value { IfOk result (λ r. referent_of r ≡ (with_subscripts (shape_of shape.now) (locator_of locator.entry) is_element (map operand_of operands.entry.items)).value) }
{
    let subscripts = number_list(alloc, notes, operands)?;
    Ok(Referent::Designates(part_by(alloc, shape, locator, is_element, subscripts)?))
}

/// A part of a variable with its subscripts.
#[tactic(auto, using(pli_operand::proofs::Noting::noting))]
fn subscripted<'t, 'a>(
    alloc: Global,
    notes: &mut Notes,
    shape: &'t Shape<'a>,
    locator: Option<Pointer<'a>>,
    place: Place,
    names: Vec<Named<'t, 'a>>,
) -> Result<Referent<'t, 'a>, AllocError>
    ensures noted { OnOk result (notes_of notes.new ≡ noted (notes_of notes.old) (subscripted_by (shape_of shape.now) (locator_of locator.entry) place (map named_of names.entry.items))) }
    ensures value { IfOk result (λ r. referent_of r ≡ (subscripted_by (shape_of shape.now) (locator_of locator.entry) place (map named_of names.entry.items)).value) }
{
    let is_element = any_listed(&names);
    let has_empty = any_empty(&names);
    let listed_at = listed_place(place, &names);
    let operands = all_operands(alloc, names)?;
    let fits = fits(shape.dimensions, is_element, has_empty, count(&operands));
    notes.demand(fits, listed_at, SourceKind::BadArguments);
    with_subscripts(alloc, notes, shape, locator, is_element, operands)
}

/// A variable that is declared there.
#[tactic(auto, using(pli_operand::proofs::Noting::noting, crate::proofs::Parts::part_is))]
fn variable_referent<'t, 'a>(
    alloc: Global,
    scope: Scope<'t, '_, 'a>,
    notes: &mut Notes,
    at: DeclarationAt,
    held: &Held,
    place: Place,
    located: Option<Pointer<'a>>,
    names: Vec<Named<'t, 'a>>,
) -> Result<Referent<'t, 'a>, AllocError>
    requires { what_at (scope_of scope).blocks at ≡ Some (Variable' (held_of held.now)) }
    ensures noted { OnOk result (notes_of notes.new ≡ noted (notes_of notes.old) (R.variable_referent (scope_of scope.entry).blocks at.block (held_of held.now) place (locator_of located.entry) (map named_of names.entry.items))) }
    ensures value { IfOk result (λ r. referent_of r ≡ (R.variable_referent (scope_of scope.entry).blocks at.block (held_of held.now) place (locator_of located.entry) (map named_of names.entry.items)).value) }
{
    let shape = shape_of(scope.tables, at, held);
    notes.mention(shape.variable);
    let locator = locator_of(alloc, scope, notes, at.block, held, place, located)?;
    let referent = subscripted(alloc, notes, shape, locator, place, names)?;
    Ok(referent)
}

/// A built-in function.
#[tactic(auto, using(pli_operand::proofs::Noting::noting))]
pub fn builtin_referent<'t, 'a>(
    alloc: Global,
    notes: &mut Notes,
    place: Place,
    word: Word,
    located: Option<Pointer<'a>>,
    names: Vec<Named<'t, 'a>>,
) -> Result<Referent<'t, 'a>, AllocError>
    ensures noted { OnOk result (notes_of notes.new ≡ noted (notes_of notes.old) (R.builtin_referent place word (locator_of located.entry) (map named_of names.entry.items))) }
    ensures value { IfOk result (λ r. referent_of r ≡ (R.builtin_referent place word (locator_of located.entry) (map named_of names.entry.items)).value) }
{
    not_located(notes, place, located);
    let operands = all_operands(alloc, names)?;
    builtin_called(alloc, notes, place, word, operands)
}

/// What a declared variable's name means, which may be a built-in's.
fn declared_referent<'t, 'a>(
    alloc: Global,
    scope: Scope<'t, '_, 'a>,
    notes: &mut Notes,
    at: DeclarationAt,
    held: &Held,
    place: Place,
    located: Option<Pointer<'a>>,
    names: Vec<Named<'t, 'a>>,
) -> Result<Referent<'t, 'a>, AllocError>
    requires { what_at (scope_of scope).blocks at ≡ Some (Variable' (held_of held.now)) }
    ensures noted { OnOk result (notes_of notes.new ≡ noted (notes_of notes.old) (R.what_referent (scope_of scope.entry).blocks at.block (Some (Variable' (held_of held.now))) place (locator_of located.entry) (map named_of names.entry.items))) }
    ensures value { IfOk result (λ r. referent_of r ≡ (R.what_referent (scope_of scope.entry).blocks at.block (Some (Variable' (held_of held.now))) place (locator_of located.entry) (map named_of names.entry.items)).value) }
{
    if has(Row::Builtin, own_attributes(held)) {
        return builtin_referent(
            alloc,
            notes,
            place,
            held.variable.declared.name.word,
            located,
            names,
        );
    }
    variable_referent(alloc, scope, notes, at, held, place, located, names)
}

/// A label is no value.
#[tactic(auto, using(pli_operand::proofs::Noting::noting))]
fn label_referent<'t, 'a>(
    notes: &mut Notes,
    place: Place,
    located: Option<Pointer<'a>>,
    names: Vec<Named<'t, 'a>>,
) -> Referent<'t, 'a>
    ensures noted { notes_of notes.new ≡ noted (notes_of notes.old) (R.not_located place (locator_of located.entry)) }
    ensures value { referent_of result ≡ GivesNothing }
{
    not_located(notes, place, located);
    Referent::Nothing
}

/// A procedure by its name.
#[tactic(auto, using(pli_operand::proofs::Noting::noting))]
fn called_referent<'t, 'a>(
    alloc: Global,
    scope: Scope<'t, '_, 'a>,
    notes: &mut Notes,
    holder: usize,
    head: &ProcedureHead,
    place: Place,
    located: Option<Pointer<'a>>,
    names: Vec<Named<'t, 'a>>,
) -> Result<Referent<'t, 'a>, AllocError>
    ensures noted { OnOk result (notes_of notes.new ≡ noted (notes_of notes.old) (R.what_referent (scope_of scope.entry).blocks holder (Some (ProcedureName (procedure_head_of head.now))) place (locator_of located.entry) (map named_of names.entry.items))) }
    ensures value { IfOk result (λ r. referent_of r ≡ (R.what_referent (scope_of scope.entry).blocks holder (Some (ProcedureName (procedure_head_of head.now))) place (locator_of located.entry) (map named_of names.entry.items)).value) }
{
    not_located(notes, place, located);
    let operands = all_operands(alloc, names)?;
    procedure_referent(alloc, scope, notes, holder, head, place, operands)
}

/// Nothing is known of what isn't there.
pub fn not_known<'t, 'a>(
    _located: Option<Pointer<'a>>,
    _names: Vec<Named<'t, 'a>>,
) -> Referent<'t, 'a>
    ensures { referent_of result ≡ NotKnown }
{
    Referent::NotKnown
}

/// What the names mean, where this is what they are declared as.
#[tactic(auto, using(pli_operand::proofs::Noting::noting))]
pub fn what_referent<'t, 'a>(
    alloc: Global,
    scope: Scope<'t, '_, 'a>,
    notes: &mut Notes,
    at: DeclarationAt,
    place: Place,
    located: Option<Pointer<'a>>,
    names: Vec<Named<'t, 'a>>,
) -> Result<Referent<'t, 'a>, AllocError>
    ensures noted { OnOk result (notes_of notes.new ≡ noted (notes_of notes.old) (R.what_referent (scope_of scope.entry).blocks at.block (what_at (scope_of scope.entry).blocks at) place (locator_of located.entry) (map named_of names.entry.items))) }
    ensures value { IfOk result (λ r. referent_of r ≡ (R.what_referent (scope_of scope.entry).blocks at.block (what_at (scope_of scope.entry).blocks at) place (locator_of located.entry) (map named_of names.entry.items)).value) }
{
    match scope.tables.what_at(at) {
        Some(What::Variable(held)) => {
            declared_referent(alloc, scope, notes, at, held, place, located, names)
        }
        Some(What::Label) => Ok(label_referent(notes, place, located, names)),
        Some(What::Procedure(head)) => {
            called_referent(alloc, scope, notes, at.block, head, place, located, names)
        }
        None => Ok(not_known(located, names)),
    }
}
