// The items of GET and PUT.

ghost use Rattle.std.specs.Prelude.{◌≡◌, None, map, IfOk, OnOk};
ghost use Rattle.pli_language.specs.declared.fault.SourceKind.TheVariants.{TypeMismatch};
ghost use Rattle.pli_typing.specs.Assigning as A;
ghost use Rattle.pli_typing.specs.Converting as C;
ghost use Rattle.pli_typing.specs.Judging.{each};
ghost use Rattle.pli_language.specs.Refusals.{fault};
ghost use Rattle.pli_typing.specs.TypedStatementView.{get_item_of, get_pair_of, put_item_of, put_pair_of};
ghost use Rattle.pli_typing.specs.TypedTree as Y;
ghost use Rattle.pli_typing.specs.TypedView.{value_of};
ghost use Rattle.pli_language.specs.View.{formats_of, option_of};
ghost use Rattle.pli_operand.specs.Notes.{noted, with_fault};
ghost use Rattle.pli_operand.specs.Shown.{designated_of, notes_of, operand_of, referent_of};

use crate::computational::computational;
use crate::reading::{all_read, all_written, holds_fixed};
use pli_language::expr::Place;
use pli_language::fault::SourceKind;
use pli_language::stmt::Formats;
use pli_operand::notes::Notes;
use pli_operand::operand::{Designated, Operand, Referent};
use pli_operand::shape::is_aggregate;
use pli_operand::stored::no_reference;
use pli_operand::value::referent_value;
use pli_typing::typed::{GetItem, GetPair, PutItem, PutPair, Value};
use std::alloc::{AllocError, Global};

/// A scalar, or an aggregate element by element.
fn get_designated<'a>(designated: Designated<'_, 'a>) -> GetItem<'a>
    ensures { get_item_of result ≡ A.get_designated (designated_of designated.entry) }
{
    if is_aggregate(&designated) {
        GetItem::Aggregate(designated.reference)
    } else {
        GetItem::Scalar(designated.reference)
    }
}

/// What is read into, where each leaf can be.
#[tactic(auto, using(pli_operand::proofs::Noting::noting))]
fn get_variable<'a>(
    notes: &mut Notes,
    has_fixed: bool,
    place: Place,
    designated: Designated<'_, 'a>,
) -> GetItem<'a>
    ensures noted { notes_of notes.new ≡ noted (notes_of notes.old) (A.get_referent has_fixed place (C.Designates (designated_of designated.entry))) }
    ensures value { get_item_of result ≡ (A.get_referent has_fixed place (C.Designates (designated_of designated.entry))).value }
{
    let reads = all_read(has_fixed, &designated);
    notes.demand(reads, place, SourceKind::TypeMismatch);
    get_designated(designated)
}

/// Nothing is read into what is no variable.
#[tactic(auto, using(pli_operand::proofs::Noting::noting))]
fn no_get<'a>(notes: &mut Notes, place: Place) -> GetItem<'a>
    ensures noted { notes_of notes.new ≡ with_fault (notes_of notes.old) (fault place TypeMismatch) }
    ensures value { get_item_of result ≡ Y.GetScalar C.no_reference }
{
    notes.broken(place, SourceKind::TypeMismatch);
    GetItem::Scalar(no_reference())
}

/// Nothing is read into a value.
#[tactic(auto, using(pli_operand::proofs::Noting::noting))]
fn get_value<'a>(notes: &mut Notes, place: Place, _value: Value<'a>) -> GetItem<'a>
    ensures noted { notes_of notes.new ≡ with_fault (notes_of notes.old) (fault place TypeMismatch) }
    ensures value { get_item_of result ≡ Y.GetScalar C.no_reference }
{
    no_get(notes, place)
}

#[tactic(auto, using(pli_operand::proofs::Noting::noting))]
fn get_referent<'a>(
    notes: &mut Notes,
    has_fixed: bool,
    place: Place,
    referent: Referent<'_, 'a>,
) -> GetItem<'a>
    ensures noted { notes_of notes.new ≡ noted (notes_of notes.old) (A.get_referent has_fixed place (referent_of referent.entry)) }
    ensures value { get_item_of result ≡ (A.get_referent has_fixed place (referent_of referent.entry)).value }
{
    match referent {
        Referent::Designates(designated) => get_variable(notes, has_fixed, place, designated),
        Referent::Gives(value) => get_value(notes, place, value),
        Referent::UnknownValue | Referent::EmptyArea | Referent::Nothing => no_get(notes, place),
        Referent::NotKnown => GetItem::Scalar(no_reference()),
    }
}

/// What GET reads into, by a format list that holds an F or not.
#[tactic(auto, using(pli_operand::proofs::Noting::noting))]
fn get_item<'a>(notes: &mut Notes, has_fixed: bool, operand: Operand<'_, 'a>) -> GetItem<'a>
    ensures noted { notes_of notes.new ≡ noted (notes_of notes.old) (A.get_item has_fixed (operand_of operand.entry)) }
    ensures value { get_item_of result ≡ (A.get_item has_fixed (operand_of operand.entry)).value }
{
    get_referent(notes, has_fixed, operand.place, operand.referent)
}

/// Numbers, texts and bits are written.
#[tactic(auto, using(pli_operand::proofs::Noting::noting))]
fn put_value<'a>(notes: &mut Notes, place: Place, value: Option<Value<'a>>) -> PutItem<'a>
    ensures noted { notes_of notes.new ≡ noted (notes_of notes.old) (A.put_value place (option_of value_of value.entry)) }
    ensures value { put_item_of result ≡ (A.put_value place (option_of value_of value.entry)).value }
{
    PutItem::Value(computational(notes, place, value))
}

/// What has no value isn't written.
#[tactic(auto, using(pli_operand::proofs::Noting::noting))]
fn no_put<'a>(notes: &mut Notes, place: Place) -> PutItem<'a>
    ensures noted { notes_of notes.new ≡ with_fault (notes_of notes.old) (fault place TypeMismatch) }
    ensures value { put_item_of result ≡ Y.PutValue Y.NullValue }
{
    notes.broken(place, SourceKind::TypeMismatch);
    PutItem::Value(Value::Null)
}

/// The value of what is no aggregate.
#[tactic(auto, using(pli_operand::proofs::Noting::noting))]
fn put_scalar<'a>(
    alloc: Global,
    notes: &mut Notes,
    place: Place,
    designated: Designated<'_, 'a>,
) -> Result<PutItem<'a>, AllocError>
    ensures noted { OnOk result (notes_of notes.new ≡ noted (notes_of notes.old) (A.put_scalar (record { place = place; constant = None; referent = C.Designates (designated_of designated.entry) }))) }
    ensures value { IfOk result (λ i. put_item_of i ≡ (A.put_scalar (record { place = place; constant = None; referent = C.Designates (designated_of designated.entry) })).value) }
{
    let value = referent_value(alloc, notes, place, Referent::Designates(designated))?;
    Ok(put_value(notes, place, value))
}

/// An aggregate, where each leaf is written.
#[tactic(auto, using(pli_operand::proofs::Noting::noting))]
fn put_aggregate<'a>(notes: &mut Notes, place: Place, designated: Designated<'_, 'a>) -> PutItem<'a>
    ensures noted { notes_of notes.new ≡ noted (notes_of notes.old) (A.put_aggregate place (designated_of designated.entry)) }
    ensures value { put_item_of result ≡ (A.put_aggregate place (designated_of designated.entry)).value }
{
    let written = all_written(&designated);
    notes.demand(written, place, SourceKind::TypeMismatch);
    PutItem::Aggregate(designated.reference)
}

#[tactic(auto, using(pli_operand::proofs::Noting::noting))]
fn put_designated<'a>(
    alloc: Global,
    notes: &mut Notes,
    place: Place,
    designated: Designated<'_, 'a>,
) -> Result<PutItem<'a>, AllocError>
    ensures noted { OnOk result (notes_of notes.new ≡ noted (notes_of notes.old) (A.put_item (record { place = place; constant = None; referent = C.Designates (designated_of designated.entry) }))) }
    ensures value { IfOk result (λ i. put_item_of i ≡ (A.put_item (record { place = place; constant = None; referent = C.Designates (designated_of designated.entry) })).value) }
{
    if is_aggregate(&designated) {
        Ok(put_aggregate(notes, place, designated))
    } else {
        put_scalar(alloc, notes, place, designated)
    }
}

/// What PUT writes.
#[tactic(auto, using(pli_operand::proofs::Noting::noting))]
fn put_item<'a>(
    alloc: Global,
    notes: &mut Notes,
    operand: Operand<'_, 'a>,
) -> Result<PutItem<'a>, AllocError>
    ensures noted { OnOk result (notes_of notes.new ≡ noted (notes_of notes.old) (A.put_item (operand_of operand.entry))) }
    ensures value { IfOk result (λ i. put_item_of i ≡ (A.put_item (operand_of operand.entry)).value) }
{
    let Operand {
        place,
        referent,
        ..
    } = operand;
    match referent {
        Referent::Designates(designated) => put_designated(alloc, notes, place, designated),
        Referent::Gives(value) => Ok(put_value(notes, place, Some(value))),
        Referent::EmptyArea | Referent::Nothing => Ok(no_put(notes, place)),
        Referent::UnknownValue | Referent::NotKnown => Ok(PutItem::Value(Value::Null)),
    }
}

/// What is read into, each in its turn.
#[tactic(auto, using(pli_operand::proofs::Noting::noting, std::proofs::lemmas::List::map_push))]
fn get_items<'t, 'a>(
    alloc: Global,
    notes: &mut Notes,
    has_fixed: bool,
    operands: Vec<Operand<'t, 'a>>,
) -> Result<Vec<GetItem<'a>>, AllocError>
    ensures noted { OnOk result (notes_of notes.new ≡ noted (notes_of notes.old) (each (A.get_item has_fixed) (map operand_of operands.entry.items))) }
    ensures value { IfOk result (λ v. map get_item_of v.items ≡ (each (A.get_item has_fixed) (map operand_of operands.entry.items)).value) }
{
    let mut items = Vec::new(alloc);
    for operand in operands {
        items.push(get_item(notes, has_fixed, operand))?;
    }
    Ok(items)
}

/// A data list of GET with its format list.
#[tactic(auto, using(pli_operand::proofs::Noting::noting))]
pub fn get_pair<'t, 'a>(
    alloc: Global,
    notes: &mut Notes,
    formats: &'a Formats,
    operands: Vec<Operand<'t, 'a>>,
) -> Result<GetPair<'a>, AllocError>
    ensures noted { OnOk result (notes_of notes.new ≡ noted (notes_of notes.old) (A.get_pair (formats_of formats.now) (map operand_of operands.entry.items))) }
    ensures value { IfOk result (λ p. get_pair_of p ≡ (A.get_pair (formats_of formats.now) (map operand_of operands.entry.items)).value) }
{
    let items = get_items(alloc, notes, holds_fixed(formats), operands)?;
    Ok(GetPair { items, formats })
}

/// What is written, each in its turn.
#[tactic(auto, using(pli_operand::proofs::Noting::noting, std::proofs::lemmas::List::map_push))]
fn put_items<'t, 'a>(
    alloc: Global,
    notes: &mut Notes,
    operands: Vec<Operand<'t, 'a>>,
) -> Result<Vec<PutItem<'a>>, AllocError>
    ensures noted { OnOk result (notes_of notes.new ≡ noted (notes_of notes.old) (each A.put_item (map operand_of operands.entry.items))) }
    ensures value { IfOk result (λ v. map put_item_of v.items ≡ (each A.put_item (map operand_of operands.entry.items)).value) }
{
    let mut items = Vec::new(alloc);
    for operand in operands {
        items.push(put_item(alloc, notes, operand)?)?;
    }
    Ok(items)
}

/// A data list of PUT with its format list.
#[tactic(auto, using(pli_operand::proofs::Noting::noting))]
pub fn put_pair<'t, 'a>(
    alloc: Global,
    notes: &mut Notes,
    formats: &'a Formats,
    operands: Vec<Operand<'t, 'a>>,
) -> Result<PutPair<'a>, AllocError>
    ensures noted { OnOk result (notes_of notes.new ≡ noted (notes_of notes.old) (A.put_pair (formats_of formats.now) (map operand_of operands.entry.items))) }
    ensures value { IfOk result (λ p. put_pair_of p ≡ (A.put_pair (formats_of formats.now) (map operand_of operands.entry.items)).value) }
{
    let items = put_items(alloc, notes, operands)?;
    Ok(PutPair { items, formats })
}
