// GET: pairs of a data list and a format list, behind SKIP. Where no character is left, a field's code jumps to the statement's
// exit, whose place is known once all items are written: until then such jumps go nowhere, and their places are noted.

ghost use Rattle.std.specs.Prelude.{◌≡◌, [], ◌∷◌, ◌++◌, map, OnOk};
ghost use Rattle.pli_typing.specs.TypedStatementView.{get_item_of, get_pair_of};
ghost use Rattle.pli_typing.specs.TypedTree as Y;
ghost use Rattle.pli_typing.specs.TypedView.{leaf_type_of, part_of, reference_of, variable_of};
ghost use Rattle.pli_coding.specs.Storing as storing;
ghost use Rattle.pli_coding.specs.Streams as form;
ghost use Rattle.pli_frames.specs.TakenView.{taken_of};
ghost use Rattle.rv_address.specs.Around.{environment_of};
ghost use Rattle.rv_item.specs.Elements.{elements_shown};
ghost use Rattle.rv_item.specs.Ends.{exit_behind};
ghost use Rattle.rv_stream.specs.Exits.{aggregate_exit, aggregate_kept, counted_exit, counted_kept, elements_exit, elements_kept, item_exit, item_kept, items_exits, items_kept, pair_exits, pair_kept, pairs_exits, pairs_kept, scalar_kept};
ghost use Rattle.rv_item.specs.Lists.{formats_in};
ghost use Rattle.rv_item.specs.Turns.{turn_begun};

use crate::exit::led;
use crate::pair::{edit_begun, edit_ended, skip_option};
use pli_frames::taken::Taken;
use pli_typing::typed::{GetItem, GetPair, LeafType, Part, Reference, Variable};
use rv_address::element::address_of;
use rv_address::environment::Environment;
use rv_address::taken::save;
use rv_assembly::code::Code;
use rv_assembly::item::Item;
use rv_assembly::place::Place;
use rv_assembly::registers::zero;
use rv_assignment::record::record_code;
use rv_assignment::scalar::{top_stored, word_stored};
use rv_item::distance::{distance_added, element_counted, is_counted};
use rv_item::elements::{
    Elements, element_found, elements_begun, elements_of, free_in, part_in, variable_in,
};
use rv_item::field::{bit_got, field_awaited, number_got, text_got};
use rv_item::fields::Fields;
use rv_item::moved::{Motion, element_moved};
use rv_item::shown::{field_converted, field_kept};
use rv_item::taking::element_field_taken;
use rv_item::turns::{turn_begun, turn_ended};
use rv_operation::arithmetic::fitted_code;
use rv_operation::reference::type_in;
use std::alloc::{AllocError, Global};

// ---- a scalar

#[tactic(auto, unfolding(rv_assignment::specs::Pieces::word_put))]
fn number_stored(
    alloc: Global,
    code: &mut Code,
    environment: &Environment,
    taken: Taken,
    fields: &Fields,
    target: &Reference,
    precision: u64,
) -> Result<(), AllocError>
    ensures { OnOk result (code.new ≡ code.old ++ form.field_stored (environment_of environment.now) (taken_of taken) (formats_in fields.now) (reference_of target.now) (Y.FixedLeaf precision)) }
{
    number_got(code, fields)?;
    fitted_code(code, taken, precision)?;
    word_stored(alloc, code, environment, taken, target)
}

#[tactic(auto, unfolding(rv_assignment::specs::Pieces::top_put))]
fn text_stored(
    alloc: Global,
    code: &mut Code,
    environment: &Environment,
    taken: Taken,
    fields: &Fields,
    target: &Reference,
) -> Result<(), AllocError>
    ensures { OnOk result (code.new ≡ code.old ++ (form.text_got (formats_in fields.now) ++ storing.top_stored (environment_of environment.now) (taken_of taken) (reference_of target.now))) }
{
    text_got(code, fields)?;
    top_stored(alloc, code, environment, taken, target)
}

#[tactic(auto, unfolding(rv_assignment::specs::Pieces::word_put))]
fn bit_stored(
    alloc: Global,
    code: &mut Code,
    environment: &Environment,
    taken: Taken,
    fields: &Fields,
    target: &Reference,
) -> Result<(), AllocError>
    ensures { OnOk result (code.new ≡ code.old ++ form.field_stored (environment_of environment.now) (taken_of taken) (formats_in fields.now) (reference_of target.now) Y.BitLeaf) }
{
    bit_got(code)?;
    word_stored(alloc, code, environment, taken, target)
}

/// A field is converted before its target is reached.
fn field_stored(
    alloc: Global,
    code: &mut Code,
    environment: &Environment,
    taken: Taken,
    fields: &Fields,
    target: &Reference,
    kind: LeafType,
) -> Result<(), AllocError>
    ensures { OnOk result (code.new ≡ code.old ++ form.field_stored (environment_of environment.now) (taken_of taken) (formats_in fields.now) (reference_of target.now) (leaf_type_of kind)) }
{
    match kind {
        LeafType::Fixed(precision) => number_stored(
            alloc,
            code,
            environment,
            taken,
            fields,
            target,
            precision,
        ),
        LeafType::Character(_) => text_stored(alloc, code, environment, taken, fields, target),
        LeafType::Varying(_) => text_stored(alloc, code, environment, taken, fields, target),
        LeafType::Bit => bit_stored(alloc, code, environment, taken, fields, target),
        LeafType::Pointer => Ok(()),
        LeafType::Offset(_) => Ok(()),
        LeafType::Area(_) => Ok(()),
    }
}

#[tactic(auto, unfolding(crate::specs::Exits::scalar_kept))]
fn scalar_got(
    alloc: Global,
    code: &mut Code,
    exits: &mut Vec<Place>,
    environment: &Environment,
    taken: Taken,
    fields: &Fields,
    target: &Reference,
) -> Result<(), AllocError>
    ensures code { OnOk result (code.new ≡ code.old ++ scalar_kept (environment_of environment.now) (taken_of taken) (formats_in fields.now) (reference_of target.now)) }
    ensures exits { OnOk result (exits.new.items ≡ exits.old.items ++ exit_behind code.old ∷ []) }
{
    let kind = type_in(environment, target)?;
    field_awaited(code, exits)?;
    field_stored(alloc, code, environment, taken, fields, target, kind)
}

// ---- an aggregate

fn element_got(
    alloc: Global,
    code: &mut Code,
    environment: &Environment,
    elements: Elements,
    fields: &Fields,
    reference: &Reference,
) -> Result<(), AllocError>
    ensures { OnOk result (code.new ≡ code.old ++ form.element_got (environment_of environment.now) (elements_shown elements) (formats_in fields.now) (reference_of reference.now)) }
{
    let free = free_in(elements)?;
    element_field_taken(code, environment, free, fields, reference)?;
    element_found(alloc, code, environment, elements, reference)?;
    element_moved(code, environment, free, reference, Motion::Storing)
}

#[tactic(auto, using(rv_item::proofs::Looping::is_turn_of, rv_item::proofs::Looping::turned_of))]
fn each_got(
    alloc: Global,
    code: &mut Code,
    exits: &mut Vec<Place>,
    environment: &Environment,
    elements: Elements,
    fields: &Fields,
    reference: &Reference,
) -> Result<(), AllocError>
    ensures code { OnOk result (code.new ≡ code.old ++ form.turns (elements_shown elements) (form.next_asked (environment_of environment.now) (elements_shown elements) (reference_of reference.now)) (form.field_awaited 0 ++ form.element_got (environment_of environment.now) (elements_shown elements) (formats_in fields.now) (reference_of reference.now))) }
    ensures exits { OnOk result (exits.new.items ≡ exits.old.items ++ exit_behind (code.old ++ turn_begun (form.next_asked (environment_of environment.now) (elements_shown elements) (reference_of reference.now))) ∷ []) }
{
    let start = code.size();
    let place = turn_begun(alloc, code, environment, elements, reference)?;
    field_awaited(code, exits)?;
    element_got(alloc, code, environment, elements, fields, reference)?;
    turn_ended(code, elements, start, place)
}

#[tactic(auto, using(std::proofs::Common::append_assoc), unfolding(crate::specs::Exits::elements_kept, crate::specs::Exits::elements_exit))]
fn elements_got(
    alloc: Global,
    code: &mut Code,
    exits: &mut Vec<Place>,
    environment: &Environment,
    elements: Elements,
    fields: &Fields,
    reference: &Reference,
) -> Result<(), AllocError>
    ensures code { OnOk result (code.new ≡ code.old ++ elements_kept (environment_of environment.now) (elements_shown elements) (formats_in fields.now) (reference_of reference.now)) }
    ensures exits { OnOk result (exits.new.items ≡ exits.old.items ++ elements_exit (environment_of environment.now) (elements_shown elements) (reference_of reference.now) code.old ∷ []) }
{
    record_code(alloc, code, environment, elements.taken, reference)?;
    elements_begun(code, elements)?;
    each_got(alloc, code, exits, environment, elements, fields, reference)
}

// ---- an array of one kind at a constant place

fn counted_element_got(
    code: &mut Code,
    environment: &Environment,
    taken: Taken,
    fields: &Fields,
    variable: Variable,
    part: Part,
) -> Result<(), AllocError>
    ensures { OnOk result (code.new ≡ code.old ++ form.counted_element_got (environment_of environment.now) (taken_of taken) (formats_in fields.now) (variable_of variable) (part_of part)) }
{
    let leaf = environment.leaf(variable, part.first)?;
    let address = address_of(environment, variable, part, 1)?;
    field_converted(code, taken.with_number()?, fields, leaf.kind)?;
    distance_added(code, environment, taken, variable)?;
    field_kept(code, leaf.kind, address)
}

#[tactic(auto, using(crate::proofs::Counting::got_whole, crate::proofs::Counting::got_exit))]
fn counted_got(
    code: &mut Code,
    exits: &mut Vec<Place>,
    environment: &Environment,
    taken: Taken,
    fields: &Fields,
    reference: &Reference,
) -> Result<(), AllocError>
    ensures code { OnOk result (code.new ≡ code.old ++ counted_kept (environment_of environment.now) (taken_of taken) (formats_in fields.now) (reference_of reference.now)) }
    ensures exits { OnOk result (exits.new.items ≡ exits.old.items ++ counted_exit (taken_of taken) code.old ∷ []) }
{
    let variable = variable_in(reference);
    let part = part_in(reference);
    let leaf = environment.leaf(variable, part.first)?;
    save(code, zero(), taken)?;
    let start = code.size();
    field_awaited(code, exits)?;
    counted_element_got(code, environment, taken, fields, variable, part)?;
    element_counted(code, taken, leaf, start)
}

fn aggregate_got(
    alloc: Global,
    code: &mut Code,
    exits: &mut Vec<Place>,
    environment: &Environment,
    taken: Taken,
    fields: &Fields,
    reference: &Reference,
) -> Result<(), AllocError>
    ensures code { OnOk result (code.new ≡ code.old ++ aggregate_kept (environment_of environment.now) (taken_of taken) (formats_in fields.now) (reference_of reference.now)) }
    ensures exits { OnOk result (exits.new.items ≡ exits.old.items ++ aggregate_exit (environment_of environment.now) (taken_of taken) code.old (reference_of reference.now) ∷ []) }
{
    if is_counted(environment, reference)? {
        return counted_got(code, exits, environment, taken, fields, reference);
    }
    let elements = elements_of(taken, reference)?;
    elements_got(alloc, code, exits, environment, elements, fields, reference)
}

// ---- the statement

fn item_got(
    alloc: Global,
    code: &mut Code,
    exits: &mut Vec<Place>,
    environment: &Environment,
    taken: Taken,
    fields: &Fields,
    item: &GetItem,
) -> Result<(), AllocError>
    ensures code { OnOk result (code.new ≡ code.old ++ item_kept (environment_of environment.now) (taken_of taken) (formats_in fields.now) (get_item_of item.now)) }
    ensures exits { OnOk result (exits.new.items ≡ exits.old.items ++ item_exit (environment_of environment.now) (taken_of taken) code.old (get_item_of item.now) ∷ []) }
{
    match item {
        GetItem::Scalar(target) => {
            scalar_got(alloc, code, exits, environment, taken, fields, target)
        }
        GetItem::Aggregate(reference) => {
            aggregate_got(alloc, code, exits, environment, taken, fields, reference)
        }
    }
}

fn items_got(
    alloc: Global,
    code: &mut Code,
    exits: &mut Vec<Place>,
    environment: &Environment,
    taken: Taken,
    fields: &Fields,
    items: &[GetItem],
) -> Result<(), AllocError>
    ensures code { OnOk result (code.new ≡ code.old ++ items_kept (environment_of environment.now) (taken_of taken) (formats_in fields.now) (map get_item_of items.now)) }
    ensures exits { OnOk result (exits.new.items ≡ exits.old.items ++ items_exits (environment_of environment.now) (taken_of taken) (formats_in fields.now) code.old (map get_item_of items.now)) }
{
    for item in items {
        item_got(alloc, code, exits, environment, taken, fields, item)?;
    }
    Ok(())
}

fn pair_got(
    alloc: Global,
    code: &mut Code,
    exits: &mut Vec<Place>,
    environment: &Environment,
    taken: Taken,
    pair: &GetPair,
) -> Result<(), AllocError>
    ensures code { OnOk result (code.new ≡ code.old ++ pair_kept (environment_of environment.now) (taken_of taken) (get_pair_of pair.now)) }
    ensures exits { OnOk result (exits.new.items ≡ exits.old.items ++ pair_exits (environment_of environment.now) (taken_of taken) code.old (get_pair_of pair.now)) }
{
    let fields = Fields::new(pair.formats);
    edit_begun(alloc, code, pair.formats, 0)?;
    items_got(alloc, code, exits, environment, taken, &fields, &pair.items)?;
    edit_ended(code)
}

fn pairs_got(
    alloc: Global,
    code: &mut Code,
    exits: &mut Vec<Place>,
    environment: &Environment,
    taken: Taken,
    pairs: &[GetPair],
) -> Result<(), AllocError>
    ensures code { OnOk result (code.new ≡ code.old ++ pairs_kept (environment_of environment.now) (taken_of taken) (map get_pair_of pairs.now)) }
    ensures exits { OnOk result (exits.new.items ≡ exits.old.items ++ pairs_exits (environment_of environment.now) (taken_of taken) code.old (map get_pair_of pairs.now)) }
{
    for pair in pairs {
        pair_got(alloc, code, exits, environment, taken, pair)?;
    }
    Ok(())
}

/// All pairs, with the jump past the exit, to which their fields' jumps then lead.
#[tactic(auto, using(crate::proofs::Getting::are_exits, crate::proofs::Getting::led_to_exit))]
fn all_got(
    alloc: Global,
    code: &mut Code,
    environment: &Environment,
    taken: Taken,
    pairs: &[GetPair],
) -> Result<(), AllocError>
    ensures { OnOk result (code.new ≡ code.old ++ form.get_pairs (environment_of environment.now) (taken_of taken) (map get_pair_of pairs.now)) }
{
    let mut exits = Vec::new(alloc);
    pairs_got(alloc, code, &mut exits, environment, taken, pairs)?;
    code.push(Item::JumpAhead(2))?;
    led(code, &exits);
    Ok(())
}

/// GET. (X3.53 chapter 8.)
pub fn get_code(
    alloc: Global,
    code: &mut Code,
    environment: &Environment,
    taken: Taken,
    skip: Option<u64>,
    pairs: &[GetPair],
) -> Result<(), AllocError>
    ensures { OnOk result (code.new ≡ code.old ++ form.get_code (environment_of environment.now) (taken_of taken) skip (map get_pair_of pairs.now)) }
{
    skip_option(code, 0, skip)?;
    all_got(alloc, code, environment, taken, pairs)?;
    edit_ended(code)
}
