// PUT: pairs of a data list and a format list, behind SKIP.

ghost use Rattle.std.specs.Prelude.{◌≡◌, ◌++◌, map, OnOk};
ghost use Rattle.pli_typing.specs.TypedStatementView.{put_item_of, put_pair_of};
ghost use Rattle.pli_typing.specs.TypedTree as Y;
ghost use Rattle.pli_typing.specs.TypedView.{bit_of, number_of, part_of, reference_of, text_of, value_of, variable_of};
ghost use Rattle.pli_coding.specs.Streams as form;
ghost use Rattle.pli_frames.specs.TakenView.{taken_of};
ghost use Rattle.rv_address.specs.Around.{environment_of};
ghost use Rattle.rv_item.specs.Elements.{elements_shown};
ghost use Rattle.rv_item.specs.Lists.{formats_in};

use crate::pair::{edit_begun, edit_ended, skip_option};
use pli_frames::taken::Taken;
use pli_typing::typed::{Bit, Number, Part, PutItem, PutPair, Reference, Text, Value, Variable};
use rv_address::element::address_of;
use rv_address::environment::Environment;
use rv_address::taken::save;
use rv_assembly::code::Code;
use rv_assembly::registers::{a0, zero};
use rv_assignment::record::record_code;
use rv_expr::expression::{bit_code, number_code, text_code};
use rv_item::distance::{distance_added, element_counted, is_counted};
use rv_item::elements::{Elements, elements_begun, elements_of, free_in, part_in, variable_in};
use rv_item::field::{number_put, text_put};
use rv_item::fields::Fields;
use rv_item::putting::element_written;
use rv_item::shown::element_shown;
use rv_item::text::NumberText;
use rv_item::turns::{turn_begun, turn_ended};
use std::alloc::{AllocError, Global};

// ---- a value

fn number_value(
    alloc: Global,
    code: &mut Code,
    environment: &Environment,
    taken: Taken,
    fields: &Fields,
    precision: u64,
    number: &Number,
) -> Result<(), AllocError>
    ensures { OnOk result (code.new ≡ code.old ++ form.value_put (environment_of environment.now) (taken_of taken) (formats_in fields.now) (Y.NumberValue precision (number_of number.now))) }
{
    number_code(alloc, code, environment, taken, number)?;
    save(code, a0(), taken)?;
    number_put(code, taken, fields, NumberText::Known(precision))
}

fn text_value(
    alloc: Global,
    code: &mut Code,
    environment: &Environment,
    taken: Taken,
    fields: &Fields,
    text: &Text,
) -> Result<(), AllocError>
    ensures { OnOk result (code.new ≡ code.old ++ form.value_put (environment_of environment.now) (taken_of taken) (formats_in fields.now) (Y.TextValue (text_of text.now))) }
{
    text_code(alloc, code, environment, taken, text)?;
    text_put(code, fields)
}

fn bit_value(
    alloc: Global,
    code: &mut Code,
    environment: &Environment,
    taken: Taken,
    fields: &Fields,
    bit: &Bit,
) -> Result<(), AllocError>
    ensures { OnOk result (code.new ≡ code.old ++ form.value_put (environment_of environment.now) (taken_of taken) (formats_in fields.now) (Y.BitValue (bit_of bit.now))) }
{
    bit_code(alloc, code, environment, taken, bit)?;
    save(code, a0(), taken)?;
    number_put(code, taken, fields, NumberText::Known(0))
}

fn value_put(
    alloc: Global,
    code: &mut Code,
    environment: &Environment,
    taken: Taken,
    fields: &Fields,
    value: &Value,
) -> Result<(), AllocError>
    ensures { OnOk result (code.new ≡ code.old ++ form.value_put (environment_of environment.now) (taken_of taken) (formats_in fields.now) (value_of value.now)) }
{
    match value {
        Value::Number { precision, value } => {
            number_value(alloc, code, environment, taken, fields, *precision, value)
        }
        Value::Text(text) => text_value(alloc, code, environment, taken, fields, text),
        Value::Bit(bit) => bit_value(alloc, code, environment, taken, fields, bit),
        Value::Pointer(_) => Ok(()),
        Value::Offset { .. } => Ok(()),
        Value::Null => Ok(()),
    }
}

// ---- an aggregate

fn element_put(
    code: &mut Code,
    environment: &Environment,
    elements: Elements,
    fields: &Fields,
    reference: &Reference,
) -> Result<(), AllocError>
    ensures { OnOk result (code.new ≡ code.old ++ form.element_put (environment_of environment.now) (elements_shown elements) (formats_in fields.now) (reference_of reference.now)) }
{
    code.status_tested()?;
    element_written(code, environment, free_in(elements)?, fields, reference)
}

#[tactic(auto, using(rv_item::proofs::Looping::is_turn, rv_item::proofs::Looping::turned))]
fn each_put(
    alloc: Global,
    code: &mut Code,
    environment: &Environment,
    elements: Elements,
    fields: &Fields,
    reference: &Reference,
) -> Result<(), AllocError>
    ensures { OnOk result (code.new ≡ code.old ++ form.turns (elements_shown elements) (form.next_asked (environment_of environment.now) (elements_shown elements) (reference_of reference.now)) (form.element_put (environment_of environment.now) (elements_shown elements) (formats_in fields.now) (reference_of reference.now))) }
{
    let start = code.size();
    let place = turn_begun(alloc, code, environment, elements, reference)?;
    element_put(code, environment, elements, fields, reference)?;
    turn_ended(code, elements, start, place)
}

fn elements_put(
    alloc: Global,
    code: &mut Code,
    environment: &Environment,
    elements: Elements,
    fields: &Fields,
    reference: &Reference,
) -> Result<(), AllocError>
    ensures { OnOk result (code.new ≡ code.old ++ form.elements_put (environment_of environment.now) (elements_shown elements) (formats_in fields.now) (reference_of reference.now)) }
{
    record_code(alloc, code, environment, elements.taken, reference)?;
    elements_begun(code, elements)?;
    each_put(alloc, code, environment, elements, fields, reference)
}

// ---- an array of one kind at a constant place

fn counted_element_put(
    code: &mut Code,
    environment: &Environment,
    taken: Taken,
    fields: &Fields,
    variable: Variable,
    part: Part,
) -> Result<(), AllocError>
    ensures { OnOk result (code.new ≡ code.old ++ form.counted_element_put (environment_of environment.now) (taken_of taken) (formats_in fields.now) (variable_of variable) (part_of part)) }
{
    let leaf = environment.leaf(variable, part.first)?;
    let address = address_of(environment, variable, part, 1)?;
    distance_added(code, environment, taken, variable)?;
    element_shown(code, taken.with_number()?, fields, leaf.kind, address)
}

#[tactic(auto, using(crate::proofs::Counting::put_whole))]
fn counted_put(
    code: &mut Code,
    environment: &Environment,
    taken: Taken,
    fields: &Fields,
    reference: &Reference,
) -> Result<(), AllocError>
    ensures { OnOk result (code.new ≡ code.old ++ form.counted_put (environment_of environment.now) (taken_of taken) (formats_in fields.now) (reference_of reference.now)) }
{
    let variable = variable_in(reference);
    let part = part_in(reference);
    let leaf = environment.leaf(variable, part.first)?;
    save(code, zero(), taken)?;
    let start = code.size();
    counted_element_put(code, environment, taken, fields, variable, part)?;
    element_counted(code, taken, leaf, start)
}

fn aggregate_put(
    alloc: Global,
    code: &mut Code,
    environment: &Environment,
    taken: Taken,
    fields: &Fields,
    reference: &Reference,
) -> Result<(), AllocError>
    ensures { OnOk result (code.new ≡ code.old ++ form.aggregate_put (environment_of environment.now) (taken_of taken) (formats_in fields.now) (reference_of reference.now)) }
{
    if is_counted(environment, reference)? {
        return counted_put(code, environment, taken, fields, reference);
    }
    let elements = elements_of(taken, reference)?;
    elements_put(alloc, code, environment, elements, fields, reference)
}

// ---- the statement

fn item_put(
    alloc: Global,
    code: &mut Code,
    environment: &Environment,
    taken: Taken,
    fields: &Fields,
    item: &PutItem,
) -> Result<(), AllocError>
    ensures { OnOk result (code.new ≡ code.old ++ form.item_put (environment_of environment.now) (taken_of taken) (formats_in fields.now) (put_item_of item.now)) }
{
    match item {
        PutItem::Value(value) => value_put(alloc, code, environment, taken, fields, value),
        PutItem::Aggregate(reference) => {
            aggregate_put(alloc, code, environment, taken, fields, reference)
        }
    }
}

#[tactic(auto, using(crate::proofs::Putting::next_item, crate::proofs::Putting::no_item, std::proofs::lemmas::List::drop_all))]
fn items_put(
    alloc: Global,
    code: &mut Code,
    environment: &Environment,
    taken: Taken,
    fields: &Fields,
    items: &[PutItem],
) -> Result<(), AllocError>
    ensures { OnOk result (code.new ≡ code.old ++ form.items_put (environment_of environment.now) (taken_of taken) (formats_in fields.now) (map put_item_of items.now)) }
{
    for item in items {
        item_put(alloc, code, environment, taken, fields, item)?;
    }
    Ok(())
}

fn put_pair(
    alloc: Global,
    code: &mut Code,
    environment: &Environment,
    taken: Taken,
    pair: &PutPair,
) -> Result<(), AllocError>
    ensures { OnOk result (code.new ≡ code.old ++ form.put_pair (environment_of environment.now) (taken_of taken) (put_pair_of pair.now)) }
{
    let fields = Fields::new(pair.formats);
    edit_begun(alloc, code, pair.formats, 1)?;
    items_put(alloc, code, environment, taken, &fields, &pair.items)?;
    edit_ended(code)
}

#[tactic(auto, using(crate::proofs::Putting::next_pair, crate::proofs::Putting::no_pair, std::proofs::lemmas::List::drop_all))]
fn put_pairs(
    alloc: Global,
    code: &mut Code,
    environment: &Environment,
    taken: Taken,
    pairs: &[PutPair],
) -> Result<(), AllocError>
    ensures { OnOk result (code.new ≡ code.old ++ form.put_pairs (environment_of environment.now) (taken_of taken) (map put_pair_of pairs.now)) }
{
    for pair in pairs {
        put_pair(alloc, code, environment, taken, pair)?;
    }
    Ok(())
}

/// PUT. (X3.53 chapter 8.)
pub fn put_code(
    alloc: Global,
    code: &mut Code,
    environment: &Environment,
    taken: Taken,
    skip: Option<u64>,
    pairs: &[PutPair],
) -> Result<(), AllocError>
    ensures { OnOk result (code.new ≡ code.old ++ form.put_code (environment_of environment.now) (taken_of taken) skip (map put_pair_of pairs.now)) }
{
    skip_option(code, 1, skip)?;
    put_pairs(alloc, code, environment, taken, pairs)
}
