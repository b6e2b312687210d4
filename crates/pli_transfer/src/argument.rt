// Arguments.

ghost use Rattle.std.specs.Prelude.{◌≡◌, Some, [], map, IfOk, OnOk};
ghost use Rattle.std.specs.Vec.Iter.{into_iter_items};
ghost use Rattle.pli_language.specs.declared.fault.SourceKind.TheVariants.{BadArguments};
ghost use Rattle.pli_typing.specs.Calls as K;
ghost use Rattle.pli_typing.specs.Converting as C;
ghost use Rattle.pli_language.specs.Refusals.{fault};
ghost use Rattle.pli_typing.specs.TypedTree as Y;
ghost use Rattle.pli_typing.specs.TypedView.{argument_of, arguments_of, class_of, leaf_type_of, pointer_of, value_of, variable_of};
ghost use Rattle.pli_language.specs.View.{option_of};
ghost use Rattle.pli_operand.specs.Notes.{noted, with_fault};
ghost use Rattle.pli_operand.specs.Shown.{designated_of, notes_of, operand_of, referent_of};
ghost use Rattle.pli_transfer.specs.Shown.{arguments_onto, callee_of};

use crate::callee::{Callee, parameter_place};
use crate::matching::leaves_pass;
use pli_language::expr::Place;
use pli_language::fault::SourceKind;
use pli_operand::notes::Notes;
use pli_operand::operand::{Designated, Operand, Referent};
use pli_operand::shape::scalar_type;
use pli_operand::stored::stored_as;
use pli_operand::value::value_with_type;
use pli_typing::typed::{
    Argument, Arguments, Bit, LeafType, Pointer, StorageClass, Stored, Value, Variable,
};
use std::alloc::{AllocError, Global};
use std::vec::IntoIter;

/// Stands in for an argument.
#[tactic(auto, unfolding(pli_typing::specs::TypedView::argument_of, pli_typing::specs::TypedView::stored_of, pli_typing::specs::TypedView::bit_of))]
fn no_argument<'a>() -> Argument<'a>
    ensures { argument_of result ≡ K.no_argument }
{
    Argument::ByCopy {
        kind: LeafType::Bit,
        value: Stored::Bit(Bit::Constant(false)),
    }
}

/// An argument that breaks a rule.
fn refused<'a>(notes: &mut Notes, place: Place, kind: SourceKind) -> Argument<'a>
    ensures noted { notes_of notes.new ≡ with_fault (notes_of notes.old) (fault place kind) }
    ensures value { argument_of result ≡ K.no_argument }
{
    notes.broken(place, kind);
    no_argument()
}

/// A copy of the parameter's kind.
#[tactic(auto, using(pli_operand::proofs::Noting::noting), unfolding(pli_typing::specs::TypedView::argument_of))]
fn copied<'a>(notes: &mut Notes, kind: LeafType, place: Place, value: Value<'a>) -> Argument<'a>
    ensures noted { notes_of notes.new ≡ noted (notes_of notes.old) (K.copied (leaf_type_of kind) place (value_of value.entry)) }
    ensures value { argument_of result ≡ (K.copied (leaf_type_of kind) place (value_of value.entry)).value }
{
    Argument::ByCopy {
        kind,
        value: stored_as(notes, kind, place, Some(value)),
    }
}

/// A POINTER for an OFFSET whose area the procedure's own block declares.
#[tactic(auto, using(pli_operand::proofs::Noting::noting), unfolding(pli_typing::specs::TypedView::argument_of))]
fn offset_argument<'a>(
    notes: &mut Notes,
    callee: &Callee<'_, '_, 'a>,
    area: Variable,
    place: Place,
    pointer: Box<Pointer<'a>>,
) -> Argument<'a>
    ensures noted { notes_of notes.new ≡ noted (notes_of notes.old) (K.offset_argument (callee_of callee.now) (variable_of area) (class_of area.class) place (pointer_of pointer.entry.value)) }
    ensures value { argument_of result ≡ (K.offset_argument (callee_of callee.now) (variable_of area) (class_of area.class) place (pointer_of pointer.entry.value)).value }
{
    match area.class {
        StorageClass::Parameter => Argument::ByOffsetInParameter {
            pointer: Box::into_inner(pointer),
            parameter: parameter_place(area, callee.parameters),
        },
        StorageClass::Automatic => Argument::ByOffsetInAutomatic(Box::into_inner(pointer)),
        StorageClass::Static | StorageClass::Based | StorageClass::Controlled => {
            copied(
                notes,
                LeafType::Offset(Some(area)),
                place,
                Value::Pointer(pointer),
            )
        }
    }
}

/// A POINTER for an OFFSET that is declared with an area.
#[tactic(auto, using(pli_operand::proofs::Noting::noting))]
fn pointer_argument<'a>(
    notes: &mut Notes,
    callee: &Callee<'_, '_, 'a>,
    area: Variable,
    place: Place,
    pointer: Box<Pointer<'a>>,
) -> Argument<'a>
    ensures noted { notes_of notes.new ≡ noted (notes_of notes.old) (K.scalar_argument (callee_of callee.now) (Some (Y.OffsetLeaf (Some (variable_of area)))) place (Y.PointerValue (pointer_of pointer.entry.value))) }
    ensures value { argument_of result ≡ (K.scalar_argument (callee_of callee.now) (Some (Y.OffsetLeaf (Some (variable_of area)))) place (Y.PointerValue (pointer_of pointer.entry.value))).value }
{
    if area.block == callee.block {
        offset_argument(notes, callee, area, place, pointer)
    } else {
        copied(
            notes,
            LeafType::Offset(Some(area)),
            place,
            Value::Pointer(pointer),
        )
    }
}

/// A value for an OFFSET that is declared with an area.
#[tactic(auto, using(pli_operand::proofs::Noting::noting))]
fn area_argument<'a>(
    notes: &mut Notes,
    callee: &Callee<'_, '_, 'a>,
    area: Variable,
    place: Place,
    value: Value<'a>,
) -> Argument<'a>
    ensures noted { notes_of notes.new ≡ noted (notes_of notes.old) (K.scalar_argument (callee_of callee.now) (Some (Y.OffsetLeaf (Some (variable_of area)))) place (value_of value.entry)) }
    ensures value { argument_of result ≡ (K.scalar_argument (callee_of callee.now) (Some (Y.OffsetLeaf (Some (variable_of area)))) place (value_of value.entry)).value }
{
    let kind = LeafType::Offset(Some(area));
    match value {
        Value::Pointer(pointer) => pointer_argument(notes, callee, area, place, pointer),
        Value::Number { precision, value } => copied(
            notes,
            kind,
            place,
            Value::Number { precision, value },
        ),
        Value::Text(text) => copied(notes, kind, place, Value::Text(text)),
        Value::Bit(bit) => copied(notes, kind, place, Value::Bit(bit)),
        Value::Offset { area, value } => copied(notes, kind, place, Value::Offset { area, value }),
        Value::Null => copied(notes, kind, place, Value::Null),
    }
}

/// A value for a parameter, by the parameter's kind.
#[tactic(auto, using(pli_operand::proofs::Noting::noting))]
fn typed_argument<'a>(
    notes: &mut Notes,
    callee: &Callee<'_, '_, 'a>,
    kind: LeafType,
    place: Place,
    value: Value<'a>,
) -> Argument<'a>
    ensures noted { notes_of notes.new ≡ noted (notes_of notes.old) (K.scalar_argument (callee_of callee.now) (Some (leaf_type_of kind)) place (value_of value.entry)) }
    ensures value { argument_of result ≡ (K.scalar_argument (callee_of callee.now) (Some (leaf_type_of kind)) place (value_of value.entry)).value }
{
    match kind {
        LeafType::Offset(Some(area)) => area_argument(notes, callee, area, place, value),
        LeafType::Offset(None)
        | LeafType::Fixed(_)
        | LeafType::Character(_)
        | LeafType::Varying(_)
        | LeafType::Bit
        | LeafType::Pointer
        | LeafType::Area(_) => copied(notes, kind, place, value),
    }
}

/// A value for a parameter, which must be a scalar.
#[tactic(auto, using(pli_operand::proofs::Noting::noting))]
fn scalar_argument<'a>(
    notes: &mut Notes,
    callee: &Callee<'_, '_, 'a>,
    parameter: &Designated,
    place: Place,
    value: Value<'a>,
) -> Argument<'a>
    ensures noted { notes_of notes.new ≡ noted (notes_of notes.old) (K.scalar_argument (callee_of callee.now) (C.scalar_type (designated_of parameter.now)) place (value_of value.entry)) }
    ensures value { argument_of result ≡ (K.scalar_argument (callee_of callee.now) (C.scalar_type (designated_of parameter.now)) place (value_of value.entry)).value }
{
    match scalar_type(parameter) {
        None => refused(notes, place, SourceKind::TypeMismatch),
        Some(kind) => typed_argument(notes, callee, kind, place, value),
    }
}

/// A scalar goes by a copy; an aggregate or an area, which has no value, can't.
#[tactic(auto, using(pli_operand::proofs::Noting::noting))]
fn argument_by_copy<'a>(
    notes: &mut Notes,
    callee: &Callee<'_, '_, 'a>,
    parameter: &Designated,
    place: Place,
    value: Option<Value<'a>>,
) -> Argument<'a>
    ensures noted { notes_of notes.new ≡ noted (notes_of notes.old) (K.argument_by_copy (callee_of callee.now) (designated_of parameter.now) place (option_of value_of value.entry)) }
    ensures value { argument_of result ≡ (K.argument_by_copy (callee_of callee.now) (designated_of parameter.now) place (option_of value_of value.entry)).value }
{
    match value {
        Some(value) => scalar_argument(notes, callee, parameter, place, value),
        None => refused(notes, callee.place, SourceKind::BadArguments),
    }
}

/// A part of a variable goes by reference where it may, else by a copy.
#[tactic(auto, using(pli_operand::proofs::Noting::noting), unfolding(pli_typing::specs::TypedView::argument_of))]
fn designated_argument<'a>(
    alloc: Global,
    notes: &mut Notes,
    callee: &Callee<'_, '_, 'a>,
    parameter: &Designated,
    place: Place,
    designated: Designated<'_, 'a>,
) -> Result<Argument<'a>, AllocError>
    ensures noted { OnOk result (notes_of notes.new ≡ noted (notes_of notes.old) (K.referent_argument (callee_of callee.now) (designated_of parameter.now) place (C.Designates (designated_of designated.entry)))) }
    ensures value { IfOk result (λ a. argument_of a ≡ (K.referent_argument (callee_of callee.now) (designated_of parameter.now) place (C.Designates (designated_of designated.entry))).value) }
{
    if designated.is_whole && leaves_pass(parameter, &designated) {
        return Ok(Argument::ByReference(designated.reference));
    }
    let kind = scalar_type(&designated);
    let value = value_with_type(alloc, designated.reference, kind)?;
    Ok(argument_by_copy(notes, callee, parameter, place, value))
}

/// What is passed for a parameter.
#[tactic(auto, using(pli_operand::proofs::Noting::noting))]
fn referent_argument<'a>(
    alloc: Global,
    notes: &mut Notes,
    callee: &Callee<'_, '_, 'a>,
    parameter: &Designated,
    place: Place,
    referent: Referent<'_, 'a>,
) -> Result<Argument<'a>, AllocError>
    ensures noted { OnOk result (notes_of notes.new ≡ noted (notes_of notes.old) (K.referent_argument (callee_of callee.now) (designated_of parameter.now) place (referent_of referent.entry))) }
    ensures value { IfOk result (λ a. argument_of a ≡ (K.referent_argument (callee_of callee.now) (designated_of parameter.now) place (referent_of referent.entry)).value) }
{
    match referent {
        Referent::Designates(designated) => {
            designated_argument(alloc, notes, callee, parameter, place, designated)
        }
        Referent::Gives(value) => Ok(scalar_argument(notes, callee, parameter, place, value)),
        Referent::EmptyArea | Referent::Nothing => Ok(refused(
            notes,
            place,
            SourceKind::TypeMismatch,
        )),
        Referent::UnknownValue | Referent::NotKnown => Ok(no_argument()),
    }
}

/// What is passed for a parameter, by its operand.
#[tactic(auto, using(pli_operand::proofs::Noting::noting))]
fn operand_argument<'a>(
    alloc: Global,
    notes: &mut Notes,
    callee: &Callee<'_, '_, 'a>,
    parameter: &Designated,
    operand: Operand<'_, 'a>,
) -> Result<Argument<'a>, AllocError>
    ensures noted { OnOk result (notes_of notes.new ≡ noted (notes_of notes.old) (K.referent_argument (callee_of callee.now) (designated_of parameter.now) operand.entry.place (referent_of operand.entry.referent))) }
    ensures value { IfOk result (λ a. argument_of a ≡ (K.referent_argument (callee_of callee.now) (designated_of parameter.now) operand.entry.place (referent_of operand.entry.referent)).value) }
{
    referent_argument(
        alloc,
        notes,
        callee,
        parameter,
        operand.place,
        operand.referent,
    )
}

/// An argument before others.
#[tactic(auto, unfolding(pli_typing::specs::TypedView::arguments_of))]
fn argument_then<'a>(
    alloc: Global,
    first: Argument<'a>,
    rest: Arguments<'a>,
) -> Result<Arguments<'a>, AllocError>
    ensures { IfOk result (λ xs. arguments_of xs ≡ Y.ArgumentThen (argument_of first.entry) (arguments_of rest.entry)) }
{
    Ok(Arguments::More {
        first: Box::new(alloc, first)?,
        rest: Box::new(alloc, rest)?,
    })
}

/// No argument.
#[tactic(auto, unfolding(pli_typing::specs::TypedView::arguments_of))]
fn no_more<'a>() -> Arguments<'a>
    ensures { arguments_of result ≡ Y.NoArgument }
{
    Arguments::End
}

/// Arguments in their order.
#[tactic(auto, using(crate::proofs::Arguments::onto_none, crate::proofs::Arguments::onto_snoc, std::proofs::lemmas::List::map_push))]
fn arguments_in<'a>(
    alloc: Global,
    arguments: Vec<Argument<'a>>,
) -> Result<Arguments<'a>, AllocError>
    ensures { IfOk result (λ xs. arguments_of xs ≡ arguments_onto (map argument_of arguments.entry.items) Y.NoArgument) }
{
    let mut arguments = arguments;
    let mut list = no_more();
    while let Some(argument) = arguments.pop() {
        list = argument_then(alloc, argument, list)?;
    }
    Ok(list)
}

/// An operand without a parameter.
fn one_too_many<'a>(notes: &mut Notes, place: Place, _operand: Operand<'_, 'a>)
    ensures { notes_of notes.new ≡ with_fault (notes_of notes.old) (fault place BadArguments) }
{
    notes.broken(place, SourceKind::BadArguments);
}

/// No operand may be left behind those of the parameters.
#[tactic(auto, using(pli_operand::proofs::Noting::noting))]
fn none_left<'t, 'a>(
    notes: &mut Notes,
    callee: &Callee<'_, '_, 'a>,
    operands: IntoIter<Operand<'t, 'a>>,
)
    ensures { notes_of notes.new ≡ noted (notes_of notes.old) (K.arguments_judged (callee_of callee.now) [] (map operand_of (into_iter_items operands.entry))) }
{
    let mut operands = operands;
    match operands.next() {
        Some(operand) => one_too_many(notes, callee.place, operand),
        None => {}
    }
}

/// What is passed for each parameter, as far as there are operands.
#[tactic(auto, using(pli_operand::proofs::Noting::noting, crate::proofs::Arguments::none_there, crate::proofs::Arguments::value_end, crate::proofs::Arguments::onto_none, crate::proofs::Arguments::onto_snoc, std::proofs::lemmas::List::map_push, pli_declare::proofs::Chains::drop_here, std::proofs::lemmas::List::drop_all))]
fn judged<'t, 'a>(
    alloc: Global,
    notes: &mut Notes,
    callee: &Callee<'_, '_, 'a>,
    parameters: &[Designated],
    operands: IntoIter<Operand<'t, 'a>>,
) -> Result<Vec<Argument<'a>>, AllocError>
    ensures noted { OnOk result (notes_of notes.new ≡ noted (notes_of notes.old) (K.arguments_judged (callee_of callee.now) (map designated_of parameters.now) (map operand_of (into_iter_items operands.entry)))) }
    ensures value { IfOk result (λ xs. arguments_onto (map argument_of xs.items) Y.NoArgument ≡ (K.arguments_judged (callee_of callee.now) (map designated_of parameters.now) (map operand_of (into_iter_items operands.entry))).value) }
{
    let mut arguments = Vec::new(alloc);
    let mut operands = operands;
    for parameter in parameters {
        match operands.next() {
            Some(operand) => {
                arguments.push(operand_argument(alloc, notes, callee, parameter, operand)?)?;
            }
            None => {
                notes.broken(callee.place, SourceKind::BadArguments);
                return Ok(arguments);
            }
        }
    }
    none_left(notes, callee, operands);
    Ok(arguments)
}

/// The arguments of a call: as many as there are parameters.
pub fn arguments_judged<'a>(
    alloc: Global,
    notes: &mut Notes,
    callee: &Callee<'_, '_, 'a>,
    operands: Vec<Operand<'_, 'a>>,
) -> Result<Arguments<'a>, AllocError>
    ensures noted { OnOk result (notes_of notes.new ≡ noted (notes_of notes.old) (K.arguments_judged (callee_of callee.now) (callee_of callee.now).parameters (map operand_of operands.entry.items))) }
    ensures value { IfOk result (λ xs. arguments_of xs ≡ (K.arguments_judged (callee_of callee.now) (callee_of callee.now).parameters (map operand_of operands.entry.items)).value) }
{
    let arguments = judged(
        alloc,
        notes,
        callee,
        callee.parameters,
        operands.into_iter(),
    )?;
    arguments_in(alloc, arguments)
}
