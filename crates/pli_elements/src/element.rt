// Service 8 with mode 1.

ghost use Rattle.std.specs.Prelude.{◌≡◌, ◌+◌, Some, List, MatchOption, true, ⊤};
ghost use Rattle.pli_answering.specs.Answering.{Answers};
ghost use Rattle.pli_meaning.specs.Contents.{Shape};
ghost use Rattle.pli_meaning.specs.StreamOrder.{Element};
ghost use Rattle.pli_serving.specs.Bytes.{is_data};
ghost use Rattle.pli_serving.specs.ElementService as service;
ghost use Rattle.pli_serving.specs.Finding.{Call};
ghost use Rattle.pli_serving.specs.Names as names;
ghost use Rattle.pli_serving.specs.Outcomes.{or_bad};
ghost use Rattle.pli_serving.specs.Templates.{shape_at};
ghost use Rattle.pli_shapes.specs.declared.part.Part.{Part};
ghost use Rattle.pli_shapes.specs.Members.{one_leaf, shape_of};
ghost use Rattle.pli_signatures.specs.View.{kind_of, leaf_in_force};
ghost use Rattle.pli_signatures.specs.Whole.{leaf_in};
ghost use Rattle.pli_values.specs.View.{layout_of};
ghost use Rattle.pli_storage.specs.Held.{with_held, IsLaid};
ghost use Rattle.pli_aggregates.specs.Records.{aggregate_shown, record_shown};
ghost use Rattle.pli_elements.specs.Items.{IsItem, row_elements};
ghost use Rattle.pli_elements.specs.Served.{in_aggregate, in_item, in_shape};

use crate::given::subscripts_in;
use crate::item::{Item, item_of};
use crate::leaves::leaf_at;
use crate::standing::outcome_in;
use area_heap::keeper::AreaKeeper;
use pli_aggregates::record::{Aggregate, aggregate_at};
use pli_answering::reply::{Refusal, Reply};
use pli_order::find::element_at;
use pli_order::rows::row_at;
use pli_shapes::shape::{ItemShape, LeafShape, item_shape, leaf_shape};
use pli_signatures::element::{ElementKind, LeafInForce};
use pli_storage::held::Held;
use pli_values::source::Source;
use pli_values::word::put_words;
use std::alloc::Global;

/// What is told in the place of an element that isn't there.
const NO_ELEMENT: u32 = u32::MAX;

/// The bytes of the buffer.
const BUFFER_BYTES: usize = 8;

/// The number of a kind, and its precision, length or capacity, 0 for what has none.
fn kind_words(kind: ElementKind) -> [u32; 2]
    ensures { result ≡ names.kind_words (kind_of kind) }
{
    match kind {
        ElementKind::Fixed { precision } => [1, u32::from(precision)],
        ElementKind::Character { length } => [2, length],
        ElementKind::Varying { length } => [3, u32::from(length)],
        ElementKind::Bit => [4, 0],
        ElementKind::Pointer => [5, 0],
        ElementKind::Offset => [6, 0],
        ElementKind::Area { capacity } => [7, capacity],
    }
}

/// An element of a leaf is described in a buffer, and where it stands is answered. The leaf is given as it is in force.
fn written<K: AreaKeeper>(
    alloc: Global,
    held: &Held,
    memory: &mut [u8],
    aggregate: Aggregate,
    register: u32,
    buffer: u32,
    leaf: u32,
    in_force: &LeafInForce,
    subscripts: &[i32],
) -> Result<Reply, Refusal>
    requires laid { IsLaid K.keeper held.now.layout memory.old }
    requires there { is_data (layout_of held.now.layout) buffer 8 ≡ true }
    requires known { Some (leaf_in_force in_force.now) ≡ leaf_in (shape_at held.now.signatures aggregate.signature) leaf aggregate.extent }
    ensures { (c : Call) → (s : Shape) → shape_at held.now.signatures aggregate.signature ≡ Some s →
        Answers (λ c. service.element_found c register (record_shown aggregate s) buffer (leaf, subscripts.now)) (with_held K.keeper held.now memory.old c) result (with_held K.keeper held.now memory.new c) }
{
    match outcome_in::<K>(
        alloc, held, memory, aggregate, register, leaf, in_force, subscripts,
    ) {
        Ok(outcome) => {
            put_words(memory, buffer as usize, &kind_words(in_force.kind));
            Ok(Reply::Done(outcome.register, outcome.status))
        }
        Err(refusal) => Err(refusal),
    }
}

/// What an element of a leaf is, and where it stands: its subscripts are given, and the leaf as it is in force.
fn described<K: AreaKeeper>(
    alloc: Global,
    held: &Held,
    memory: &mut [u8],
    aggregate: Aggregate,
    register: u32,
    buffer: u32,
    leaf: u32,
    in_force: &LeafInForce,
    subscripts: &[i32],
) -> Result<Reply, Refusal>
    requires laid { IsLaid K.keeper held.now.layout memory.old }
    requires known { Some (leaf_in_force in_force.now) ≡ leaf_in (shape_at held.now.signatures aggregate.signature) leaf aggregate.extent }
    ensures { (c : Call) → (s : Shape) → shape_at held.now.signatures aggregate.signature ≡ Some s →
        Answers (λ c. service.element_found c register (record_shown aggregate s) buffer (leaf, subscripts.now)) (with_held K.keeper held.now memory.old c) result (with_held K.keeper held.now memory.new c) }
{
    if !held.layout.is_data(buffer as usize, BUFFER_BYTES) {
        return Err(Refusal::Bad);
    }
    written::<K>(
        alloc, held, memory, aggregate, register, buffer, leaf, in_force, subscripts,
    )
}

/// The same of a leaf by its number alone. Without memory where the aggregate has none of that.
fn of_element<K: AreaKeeper>(
    alloc: Global,
    held: &Held,
    memory: &mut [u8],
    aggregate: Aggregate,
    register: u32,
    buffer: u32,
    leaf: u32,
    subscripts: &[i32],
) -> Result<Reply, Refusal>
    requires { IsLaid K.keeper held.now.layout memory.old }
    ensures { (c : Call) → (s : Shape) → shape_at held.now.signatures aggregate.signature ≡ Some s →
        Answers (λ c. service.element_found c register (record_shown aggregate s) buffer (leaf, subscripts.now)) (with_held K.keeper held.now memory.old c) result (with_held K.keeper held.now memory.new c) }
{
    let found = leaf_at(alloc, held, aggregate, leaf)?;
    match found {
        Some(in_force) => described::<K>(
            alloc, held, memory, aggregate, register, buffer, leaf, &in_force, subscripts,
        ),
        None => Err(Refusal::Memory),
    }
}

/// The number of the leaf that stands so many behind another, none where no register has it.
fn leaf_behind(first: u32, leaf: usize) -> Option<u32>
    ensures { MatchOption result ⊤ (λ sum. sum ≡ first + leaf) }
{
    if leaf > u32::MAX as usize {
        return None;
    }
    first.checked_add(leaf as u32)
}

/// The element of a number, if there is one; else that there is none.
fn numbered<K: AreaKeeper>(
    alloc: Global,
    held: &Held,
    memory: &mut [u8],
    aggregate: Aggregate,
    register: u32,
    item: &Item,
    number: u64,
    buffer: u32,
) -> Result<Reply, Refusal>
    requires { IsLaid K.keeper held.now.layout memory.old }
    ensures { (c : Call) → (s : Shape) → (parts : List Part) → (elements : List Element) → shape_at held.now.signatures aggregate.signature ≡ Some s → IsItem (Some elements) parts item.now →
        Answers (λ c. in_item c register (record_shown aggregate s) number buffer elements) (with_held K.keeper held.now memory.old c) result (with_held K.keeper held.now memory.new c) }
{
    let leaves = item.leaves.as_slice();
    let given = item.given.as_slice();
    let Some(element) = element_at(alloc, &item.order, leaves, given, number)? else {
        return Ok(Reply::Done(NO_ELEMENT, 0));
    };
    let Some(leaf) = leaf_behind(item.first, element.leaf) else {
        return Err(Refusal::Memory);
    };
    of_element::<K>(
        alloc,
        held,
        memory,
        aggregate,
        register,
        buffer,
        leaf,
        element.subscripts.as_slice(),
    )
}

/// The same of the elements that a shape has in an aggregate, if it has them there.
fn of_shape<K: AreaKeeper>(
    alloc: Global,
    held: &Held,
    memory: &mut [u8],
    aggregate: Aggregate,
    register: u32,
    shape: &ItemShape,
    number: u64,
    buffer: u32,
) -> Result<Reply, Refusal>
    requires { IsLaid K.keeper held.now.layout memory.old }
    ensures { (c : Call) → (s : Shape) → shape_at held.now.signatures aggregate.signature ≡ Some s →
        Answers (λ c. in_shape c register (record_shown aggregate s) number buffer (Some (shape_of shape.now))) (with_held K.keeper held.now memory.old c) result (with_held K.keeper held.now memory.new c) }
{
    match item_of(alloc, held, aggregate, shape) {
        Ok(found) => match found {
            Some(item) => numbered::<K>(
                alloc, held, memory, aggregate, register, &item, number, buffer,
            ),
            None => Err(Refusal::Bad),
        },
        Err(_) => Err(Refusal::Memory),
    }
}

/// The element of a number among those of a leaf, behind the subscripts given, if there is one; else that there is none.
fn of_row<K: AreaKeeper>(
    alloc: Global,
    held: &Held,
    memory: &mut [u8],
    aggregate: Aggregate,
    register: u32,
    shape: LeafShape,
    in_force: &LeafInForce,
    given: &[i32],
    number: u64,
    buffer: u32,
) -> Result<Reply, Refusal>
    requires laid { IsLaid K.keeper held.now.layout memory.old }
    requires known { Some (leaf_in_force in_force.now) ≡ leaf_in (shape_at held.now.signatures aggregate.signature) shape.leaf aggregate.extent }
    ensures { (c : Call) → (s : Shape) → shape_at held.now.signatures aggregate.signature ≡ Some s →
        Answers (λ c. in_item c register (record_shown aggregate s) number buffer (row_elements shape in_force.now given.now)) (with_held K.keeper held.now memory.old c) result (with_held K.keeper held.now memory.new c) }
{
    let bounds = in_force.bounds.as_slice();
    let row = row_at(alloc, bounds, given, shape.dimensions, number)?;
    match row {
        Some(subscripts) => described::<K>(
            alloc,
            held,
            memory,
            aggregate,
            register,
            buffer,
            shape.leaf,
            in_force,
            subscripts.as_slice(),
        ),
        None => Ok(Reply::Done(NO_ELEMENT, 0)),
    }
}

/// The same of a shape that is this leaf alone.
fn of_leaf<K: AreaKeeper>(
    alloc: Global,
    held: &Held,
    memory: &mut [u8],
    aggregate: Aggregate,
    register: u32,
    shape: LeafShape,
    in_force: &LeafInForce,
    number: u64,
    buffer: u32,
) -> Result<Reply, Refusal>
    requires laid { IsLaid K.keeper held.now.layout memory.old }
    requires known { Some (leaf_in_force in_force.now) ≡ leaf_in (shape_at held.now.signatures aggregate.signature) shape.leaf aggregate.extent }
    ensures { (c : Call) → (s : Shape) → shape_at held.now.signatures aggregate.signature ≡ Some s →
        Answers (λ c. in_shape c register (record_shown aggregate s) number buffer (Some (one_leaf shape))) (with_held K.keeper held.now memory.old c) result (with_held K.keeper held.now memory.new c) }
{
    let bounds = in_force.bounds.as_slice();
    let given = subscripts_in(alloc, bounds, shape.given, aggregate.place)?;
    match given {
        Some(given) => of_row::<K>(
            alloc,
            held,
            memory,
            aggregate,
            register,
            shape,
            in_force,
            given.as_slice(),
            number,
            buffer,
        ),
        None => Err(Refusal::Bad),
    }
}

/// The same of a leaf that may not be there.
fn of_leaf_shape<K: AreaKeeper>(
    alloc: Global,
    held: &Held,
    memory: &mut [u8],
    aggregate: Aggregate,
    register: u32,
    shape: LeafShape,
    number: u64,
    buffer: u32,
) -> Result<Reply, Refusal>
    requires { IsLaid K.keeper held.now.layout memory.old }
    ensures { (c : Call) → (s : Shape) → shape_at held.now.signatures aggregate.signature ≡ Some s →
        Answers (λ c. in_shape c register (record_shown aggregate s) number buffer (Some (one_leaf shape))) (with_held K.keeper held.now memory.old c) result (with_held K.keeper held.now memory.new c) }
{
    let leaf = leaf_at(alloc, held, aggregate, shape.leaf)?;
    match leaf {
        Some(in_force) => of_leaf::<K>(
            alloc, held, memory, aggregate, register, shape, &in_force, number, buffer,
        ),
        None => Err(Refusal::Bad),
    }
}

/// The same of the shape at an address, of any parts.
fn of_parts<K: AreaKeeper>(
    alloc: Global,
    held: &Held,
    memory: &mut [u8],
    aggregate: Aggregate,
    register: u32,
    shape: u32,
    number: u64,
    buffer: u32,
) -> Result<Reply, Refusal>
    requires { IsLaid K.keeper held.now.layout memory.old }
    ensures { (c : Call) → (s : Shape) → shape_at held.now.signatures aggregate.signature ≡ Some s →
        Answers (λ c. in_aggregate c register shape number buffer (record_shown aggregate s)) (with_held K.keeper held.now memory.old c) result (with_held K.keeper held.now memory.new c) }
{
    match item_shape(alloc, &Source::new(held.layout, memory), shape as usize)? {
        Some(found) => of_shape::<K>(
            alloc, held, memory, aggregate, register, &found, number, buffer,
        ),
        None => Err(Refusal::Bad),
    }
}

/// The same; a shape that is one leaf asks for no list of parts.
fn of_whole<K: AreaKeeper>(
    alloc: Global,
    held: &Held,
    memory: &mut [u8],
    aggregate: Aggregate,
    register: u32,
    shape: u32,
    number: u64,
    buffer: u32,
) -> Result<Reply, Refusal>
    requires { IsLaid K.keeper held.now.layout memory.old }
    ensures { (c : Call) → (s : Shape) → shape_at held.now.signatures aggregate.signature ≡ Some s →
        Answers (λ c. in_aggregate c register shape number buffer (record_shown aggregate s)) (with_held K.keeper held.now memory.old c) result (with_held K.keeper held.now memory.new c) }
{
    match leaf_shape(&Source::new(held.layout, memory), shape as usize) {
        Some(leaf) => of_leaf_shape::<K>(
            alloc, held, memory, aggregate, register, leaf, number, buffer,
        ),
        None => of_parts::<K>(
            alloc, held, memory, aggregate, register, shape, number, buffer,
        ),
    }
}

/// The same of an aggregate whose signature may not be whole.
fn of_aggregate<K: AreaKeeper>(
    alloc: Global,
    held: &Held,
    memory: &mut [u8],
    aggregate: Aggregate,
    register: u32,
    shape: u32,
    number: u64,
    buffer: u32,
) -> Result<Reply, Refusal>
    requires { IsLaid K.keeper held.now.layout memory.old }
    ensures { (c : Call) → Answers (λ c. or_bad (aggregate_shown held.now.signatures aggregate) (in_aggregate c register shape number buffer)) (with_held K.keeper held.now memory.old c) result (with_held K.keeper held.now memory.new c) }
{
    if !held.signatures.is_whole(aggregate.signature) {
        return Err(Refusal::Bad);
    }
    of_whole::<K>(
        alloc, held, memory, aggregate, register, shape, number, buffer,
    )
}

/// 8, with mode 1: where the element of a number stands among those that the shape at an address has in the aggregate whose record
/// stands at another, with its kind in a buffer.
pub fn element<K: AreaKeeper>(
    alloc: Global,
    held: &Held,
    memory: &mut [u8],
    aggregate: u32,
    shape: u32,
    number: u64,
    buffer: u32,
) -> Result<Reply, Refusal>
    requires { IsLaid K.keeper held.now.layout memory.old }
    ensures { (c : Call) → Answers (λ c. service.element_served c aggregate shape number buffer) (with_held K.keeper held.now memory.old c) result (with_held K.keeper held.now memory.new c) }
{
    match aggregate_at::<K>(held, memory, aggregate) {
        Some(found) => of_aggregate::<K>(
            alloc, held, memory, found, aggregate, shape, number, buffer,
        ),
        None => Err(Refusal::Bad),
    }
}
