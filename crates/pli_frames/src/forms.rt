// What the temporaries of a statement's parts take at most, behind what is taken already.

ghost use Rattle.std.specs.Prelude.{◌≡◌, map, IfOk};
ghost use Rattle.pli_typing.specs.TypedView.{reference_of, stored_of, value_of};
ghost use Rattle.pli_typing.specs.TypedStatementView.{target_of, allocation_of, freeing_of, get_item_of, put_item_of, get_pair_of, put_pair_of};
ghost use Rattle.pli_coding.specs.Storing as storing;
ghost use Rattle.pli_coding.specs.Allocating as allocating;
ghost use Rattle.pli_coding.specs.Streams as streams;
ghost use Rattle.pli_frames.specs.TakenView.{taken_of};

use crate::taken::{Taken, none_taken};
use crate::temporaries::{
    behind_locator, bit_takes, number_takes, pointer_takes, reference_takes, stored_takes,
    text_takes,
};
use pli_typing::typed::{
    Allocation, Freeing, GetItem, GetPair, LocatorTarget, PutItem, PutPair, Reference, Stored,
    Value,
};
use std::alloc::AllocError;

/// The temporaries in use behind a value that waits.
#[tactic(auto, unfolding(pli_typing::specs::TypedView::stored_of))]
pub fn behind_value(source: &Stored, taken: Taken) -> Result<Taken, AllocError>
    ensures { IfOk result (λ t. taken_of t ≡ storing.behind_value (stored_of source.now) (taken_of taken)) }
{
    match source {
        Stored::Number { .. } => taken.with_number(),
        Stored::Text(_) => Ok(taken),
        Stored::Bit(_) => taken.with_number(),
        Stored::Pointer(_) => taken.with_words(4),
        Stored::Offset(_) => taken.with_number(),
    }
}

/// The temporaries in use while a record of this aggregate is.
#[tactic(auto, unfolding(pli_typing::specs::TypedView::reference_of))]
pub fn behind_record(reference: &Reference, taken: Taken) -> Result<Taken, AllocError>
    ensures { IfOk result (λ t. taken_of t ≡ storing.behind_record (reference_of reference.now) (taken_of taken)) }
{
    let found = taken.with_words(4)?;
    match reference {
        Reference::Plain { variable, .. } => behind_locator(*variable, found),
        Reference::Located { variable, .. } => behind_locator(*variable, found),
    }
}

/// Of a scalar assignment.
pub fn assigned_takes(
    taken: Taken,
    target: &Reference,
    source: &Stored,
) -> Result<Taken, AllocError>
    ensures { IfOk result (λ t. taken_of t ≡ storing.assigned_takes (taken_of taken) (reference_of target.now) (stored_of source.now)) }
{
    let behind = behind_value(source, taken)?;
    Ok(stored_takes(taken, source)?.most(reference_takes(behind, target)?))
}

/// Of an aggregate that is assigned, with its record.
pub fn aggregate_takes(taken: Taken, aggregate: &Reference) -> Result<Taken, AllocError>
    ensures { IfOk result (λ t. taken_of t ≡ storing.aggregate_takes (taken_of taken) (reference_of aggregate.now)) }
{
    reference_takes(taken.with_words(4)?, aggregate)
}

/// Of one value into each element of an array.
pub fn elements_takes(
    taken: Taken,
    target: &Reference,
    source: &Stored,
) -> Result<Taken, AllocError>
    ensures { IfOk result (λ t. taken_of t ≡ storing.elements_takes (taken_of taken) (reference_of target.now) (stored_of source.now)) }
{
    let behind = behind_value(source, taken)?;
    Ok(stored_takes(taken, source)?.most(aggregate_takes(behind, target)?))
}

fn target_takes(taken: Taken, target: &LocatorTarget) -> Result<Taken, AllocError>
    ensures { IfOk result (λ t. taken_of t ≡ allocating.target_takes (taken_of taken) (target_of target.now)) }
{
    match target {
        LocatorTarget::Pointer(reference) => reference_takes(taken, reference),
        LocatorTarget::Offset { target, .. } => reference_takes(taken.with_number()?, target),
    }
}

fn allocation_takes(taken: Taken, allocation: &Allocation) -> Result<Taken, AllocError>
    ensures { IfOk result (λ t. taken_of t ≡ allocating.allocation_takes (taken_of taken) (allocation_of allocation.now)) }
{
    let behind = taken.with_words(2)?;
    match allocation {
        Allocation::Based { target, .. } => target_takes(behind.with_words(4)?, target),
        Allocation::Controlled(_) => Ok(behind),
    }
}

/// Of ALLOCATE.
#[tactic(auto, using(crate::proofs::Most::next_allocation, std::proofs::lemmas::List::drop_all))]
pub fn allocations_take(taken: Taken, all: &[Allocation]) -> Result<Taken, AllocError>
    ensures { IfOk result (λ t. taken_of t ≡ allocating.allocations_take (taken_of taken) (map allocation_of all.now)) }
{
    let mut most = none_taken();
    for one in all {
        most = most.most(allocation_takes(taken, one)?);
    }
    Ok(most.most(taken))
}

fn freeing_takes(taken: Taken, freeing: &Freeing) -> Result<Taken, AllocError>
    ensures { IfOk result (λ t. taken_of t ≡ allocating.freeing_takes (taken_of taken) (freeing_of freeing.now)) }
{
    match freeing {
        Freeing::Based { locator, .. } => pointer_takes(taken, locator),
        Freeing::Controlled(_) => Ok(taken),
    }
}

/// Of FREE.
#[tactic(auto, using(crate::proofs::Most::next_freeing, std::proofs::lemmas::List::drop_all))]
pub fn freeings_take(taken: Taken, all: &[Freeing]) -> Result<Taken, AllocError>
    ensures { IfOk result (λ t. taken_of t ≡ allocating.freeings_take (taken_of taken) (map freeing_of all.now)) }
{
    let mut most = none_taken();
    for one in all {
        most = most.most(freeing_takes(taken, one)?);
    }
    Ok(most.most(taken))
}

/// Of a value that PUT writes, or a start of DO.
pub fn value_takes(taken: Taken, value: &Value) -> Result<Taken, AllocError>
    ensures { IfOk result (λ t. taken_of t ≡ streams.value_takes (taken_of taken) (value_of value.now)) }
{
    match value {
        Value::Number { value, .. } => Ok(taken.with_number()?.most(number_takes(taken, value)?)),
        Value::Text(text) => text_takes(taken, text),
        Value::Bit(bit) => Ok(taken.with_number()?.most(bit_takes(taken, bit)?)),
        _ => Ok(taken),
    }
}

/// Of an aggregate in GET and PUT: behind its record the number of the next element, and up to two numbers that wait.
fn elements_take(taken: Taken, aggregate: &Reference) -> Result<Taken, AllocError>
    ensures { IfOk result (λ t. taken_of t ≡ streams.elements_take (taken_of taken) (reference_of aggregate.now)) }
{
    let next = behind_record(aggregate, taken)?.with_words(2)?;
    let counted = next.with_number()?.with_number()?;
    Ok(aggregate_takes(taken, aggregate)?.most(counted))
}

fn put_item_takes(taken: Taken, item: &PutItem) -> Result<Taken, AllocError>
    ensures { IfOk result (λ t. taken_of t ≡ streams.put_item_takes (taken_of taken) (put_item_of item.now)) }
{
    match item {
        PutItem::Value(value) => value_takes(taken, value),
        PutItem::Aggregate(aggregate) => elements_take(taken, aggregate),
    }
}

#[tactic(auto, using(crate::proofs::Most::next_put_item, std::proofs::lemmas::List::drop_all))]
fn put_items_take(taken: Taken, all: &[PutItem]) -> Result<Taken, AllocError>
    ensures { IfOk result (λ t. taken_of t ≡ streams.put_items_take (taken_of taken) (map put_item_of all.now)) }
{
    let mut most = none_taken();
    for one in all {
        most = most.most(put_item_takes(taken, one)?);
    }
    Ok(most.most(taken))
}

/// Of PUT.
#[tactic(auto, using(crate::proofs::Most::next_put_pair, std::proofs::lemmas::List::drop_all))]
pub fn put_takes(taken: Taken, all: &[PutPair]) -> Result<Taken, AllocError>
    ensures { IfOk result (λ t. taken_of t ≡ streams.put_takes (taken_of taken) (map put_pair_of all.now)) }
{
    let mut most = none_taken();
    for one in all {
        most = most.most(put_items_take(taken, &one.items)?);
    }
    Ok(most.most(taken))
}

fn get_item_takes(taken: Taken, item: &GetItem) -> Result<Taken, AllocError>
    ensures { IfOk result (λ t. taken_of t ≡ streams.get_item_takes (taken_of taken) (get_item_of item.now)) }
{
    match item {
        GetItem::Scalar(reference) => reference_takes(taken.with_number()?, reference),
        GetItem::Aggregate(aggregate) => elements_take(taken, aggregate),
    }
}

#[tactic(auto, using(crate::proofs::Most::next_get_item, std::proofs::lemmas::List::drop_all))]
fn get_items_take(taken: Taken, all: &[GetItem]) -> Result<Taken, AllocError>
    ensures { IfOk result (λ t. taken_of t ≡ streams.get_items_take (taken_of taken) (map get_item_of all.now)) }
{
    let mut most = none_taken();
    for one in all {
        most = most.most(get_item_takes(taken, one)?);
    }
    Ok(most.most(taken))
}

/// Of GET.
#[tactic(auto, using(crate::proofs::Most::next_get_pair, std::proofs::lemmas::List::drop_all))]
pub fn get_takes(taken: Taken, all: &[GetPair]) -> Result<Taken, AllocError>
    ensures { IfOk result (λ t. taken_of t ≡ streams.get_takes (taken_of taken) (map get_pair_of all.now)) }
{
    let mut most = none_taken();
    for one in all {
        most = most.most(get_items_take(taken, &one.items)?);
    }
    Ok(most.most(taken))
}
