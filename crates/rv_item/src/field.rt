// Fields by the next data item of a format list.

ghost use Rattle.std.specs.Prelude.{◌≡◌, [], ◌∷◌, ◌++◌, OnOk};
ghost use Rattle.pli_frames.specs.TakenView.{taken_of};
ghost use Rattle.rv_meaning.specs.declared.instr.BranchTest.TheVariants as Test;
ghost use Rattle.pli_coding.specs.Registers.{a0, u1};
ghost use Rattle.pli_coding.specs.Instructions.{choice, service, small, tested_service};
ghost use Rattle.pli_coding.specs.Streams as form;
ghost use Rattle.rv_assembly.specs.Places.{jump_place};
ghost use Rattle.rv_item.specs.Ends.{end_first, exit_behind};
ghost use Rattle.rv_item.specs.Lists.{formats_in};
ghost use Rattle.rv_item.specs.Pieces.{end_tested, field_to_number, field_to_text, number_as_text, number_field, number_text, text_as_number};

use crate::branch::{choose, skip_where};
use crate::fields::Fields;
use crate::text::{NumberText, number_or_bit, number_text};
use pli_frames::taken::Taken;
use pli_language::condition::Condition;
use rv_address::taken::fetch;
use rv_assembly::code::Code;
use rv_assembly::place::Place;
use rv_assembly::registers::{a0, a1, u1};
use rv_meaning::instr::BranchTest;
use rv_operation::arithmetic::raised;
use std::alloc::AllocError;

#[tactic(auto, using(rv_assembly::proofs::Patching::patching))]
fn controls_carried_out(code: &mut Code) -> Result<(), AllocError>
    ensures { OnOk result (code.new ≡ code.old ++ form.controls_carried_out) }
{
    let start = code.size();
    code.service(35)?;
    code.repeat_while_zero(start)
}

// ---- PUT of a number

/// A field that is too narrow is an ERROR before anything is written.
fn number_written(code: &mut Code) -> Result<(), AllocError>
    ensures { OnOk result (code.new ≡ code.old ++ form.number_written) }
{
    code.small(a1(), 0)?;
    code.tested_service(36)?;
    code.small(a1(), 1)?;
    code.service(36)
}

/// The number that waits, by an item for numbers.
fn number_field(code: &mut Code, taken: Taken) -> Result<(), AllocError>
    ensures { OnOk result (code.new ≡ code.old ++ number_field (taken_of taken)) }
{
    fetch(code, a0(), taken)?;
    number_written(code)
}

/// The number that waits, by an item for texts.
fn number_as_text(code: &mut Code, taken: Taken, places: NumberText) -> Result<(), AllocError>
    ensures { OnOk result (code.new ≡ code.old ++ number_as_text (taken_of taken) places) }
{
    fetch(code, a0(), taken)?;
    number_text(code, places)?;
    code.service(37)
}

#[tactic(auto, using(rv_assembly::proofs::Patching::patching))]
fn number_chosen(code: &mut Code, taken: Taken, places: NumberText) -> Result<(), AllocError>
    ensures { OnOk result (code.new ≡ code.old ++ choice Test.Equal a0 u1 (number_field (taken_of taken)) (number_as_text (taken_of taken) places)) }
{
    let branch = code.keep_branch()?;
    number_as_text(code, taken, places)?;
    let jump = code.keep_jump()?;
    number_field(code, taken)?;
    choose(code, branch, jump, BranchTest::Equal, a0(), u1())
}

fn number_by_item(
    code: &mut Code,
    taken: Taken,
    fields: &Fields,
    places: NumberText,
) -> Result<(), AllocError>
    ensures { OnOk result (code.new ≡ code.old ++ form.by_item (formats_in fields.now) (number_field (taken_of taken)) (number_as_text (taken_of taken) places)) }
{
    let has_fixed = fields.has_fixed();
    let has_text = fields.has_text();
    if has_fixed && has_text {
        code.small(u1(), 1)?;
        return number_chosen(code, taken, places);
    }
    if has_fixed {
        number_field(code, taken)
    } else {
        number_as_text(code, taken, places)
    }
}

/// The number that waits.
pub fn number_put(
    code: &mut Code,
    taken: Taken,
    fields: &Fields,
    places: NumberText,
) -> Result<(), AllocError>
    ensures { OnOk result (code.new ≡ code.old ++ form.number_put (taken_of taken) (formats_in fields.now) (number_text places)) }
{
    controls_carried_out(code)?;
    number_by_item(code, taken, fields, places)
}

// ---- PUT of a text

/// The top text, by an item for numbers.
fn text_as_number(code: &mut Code) -> Result<(), AllocError>
    ensures { OnOk result (code.new ≡ code.old ++ text_as_number) }
{
    code.small(a0(), 0)?;
    code.tested_service(26)?;
    number_written(code)
}

#[tactic(auto, using(rv_assembly::proofs::Patching::patching))]
fn text_chosen(code: &mut Code) -> Result<(), AllocError>
    ensures { OnOk result (code.new ≡ code.old ++ choice Test.Equal a0 u1 text_as_number (service 37)) }
{
    let branch = code.keep_branch()?;
    code.service(37)?;
    let jump = code.keep_jump()?;
    text_as_number(code)?;
    choose(code, branch, jump, BranchTest::Equal, a0(), u1())
}

fn text_by_item(code: &mut Code, fields: &Fields) -> Result<(), AllocError>
    ensures { OnOk result (code.new ≡ code.old ++ form.by_item (formats_in fields.now) text_as_number (service 37)) }
{
    let has_fixed = fields.has_fixed();
    let has_text = fields.has_text();
    if has_fixed && has_text {
        code.small(u1(), 1)?;
        return text_chosen(code);
    }
    if has_fixed {
        text_as_number(code)
    } else {
        code.service(37)
    }
}

/// The top text.
pub fn text_put(code: &mut Code, fields: &Fields) -> Result<(), AllocError>
    ensures { OnOk result (code.new ≡ code.old ++ form.text_put (formats_in fields.now)) }
{
    controls_carried_out(code)?;
    text_by_item(code, fields)
}

// ---- GET of a number

/// A field by an item for texts, as a number.
fn field_to_number(code: &mut Code) -> Result<(), AllocError>
    ensures { OnOk result (code.new ≡ code.old ++ field_to_number) }
{
    code.service(37)?;
    code.small(a0(), 0)?;
    code.tested_service(26)
}

#[tactic(auto, using(rv_assembly::proofs::Patching::patching))]
fn number_chosen_from(code: &mut Code) -> Result<(), AllocError>
    ensures { OnOk result (code.new ≡ code.old ++ choice Test.Equal a0 u1 (tested_service 36) field_to_number) }
{
    let branch = code.keep_branch()?;
    field_to_number(code)?;
    let jump = code.keep_jump()?;
    code.tested_service(36)?;
    choose(code, branch, jump, BranchTest::Equal, a0(), u1())
}

/// A field as a number in a0.
pub fn number_got(code: &mut Code, fields: &Fields) -> Result<(), AllocError>
    ensures { OnOk result (code.new ≡ code.old ++ form.number_got (formats_in fields.now)) }
{
    let has_fixed = fields.has_fixed();
    let has_text = fields.has_text();
    if has_fixed && has_text {
        code.small(u1(), 1)?;
        return number_chosen_from(code);
    }
    if has_fixed {
        code.tested_service(36)
    } else {
        field_to_number(code)
    }
}

// ---- GET of a text or a bit

/// A field by an item for numbers, as a text.
fn field_to_text(code: &mut Code) -> Result<(), AllocError>
    ensures { OnOk result (code.new ≡ code.old ++ field_to_text) }
{
    code.tested_service(36)?;
    number_or_bit(code, 31)
}

#[tactic(auto, using(rv_assembly::proofs::Patching::patching))]
fn text_chosen_from(code: &mut Code) -> Result<(), AllocError>
    ensures { OnOk result (code.new ≡ code.old ++ choice Test.Equal a0 u1 field_to_text (service 37)) }
{
    let branch = code.keep_branch()?;
    code.service(37)?;
    let jump = code.keep_jump()?;
    field_to_text(code)?;
    choose(code, branch, jump, BranchTest::Equal, a0(), u1())
}

/// A field as the top text.
pub fn text_got(code: &mut Code, fields: &Fields) -> Result<(), AllocError>
    ensures { OnOk result (code.new ≡ code.old ++ form.text_got (formats_in fields.now)) }
{
    let has_fixed = fields.has_fixed();
    let has_text = fields.has_text();
    if has_fixed && has_text {
        code.small(u1(), 1)?;
        return text_chosen_from(code);
    }
    if has_fixed {
        field_to_text(code)
    } else {
        code.service(37)
    }
}

/// A field as a bit in a0.
pub fn bit_got(code: &mut Code) -> Result<(), AllocError>
    ensures { OnOk result (code.new ≡ code.old ++ form.bit_got) }
{
    code.service(37)?;
    code.small(a0(), 1)?;
    code.tested_service(26)
}

// ---- what is next

#[tactic(auto, using(rv_assembly::proofs::Patching::patching))]
fn end_tested(code: &mut Code, exits: &mut Vec<Place>) -> Result<(), AllocError>
    ensures code { OnOk result (code.new ≡ code.old ++ end_tested 0) }
    ensures exits { OnOk result (exits.new.items ≡ exits.old.items ++ jump_place (code.old ++ end_first) ∷ []) }
{
    let branch = code.keep_branch()?;
    raised(code, Condition::Endfile, 40)?;
    let exit = code.keep_jump()?;
    skip_where(code, branch, BranchTest::NotEqual, a0(), u1())?;
    exits.push(exit)?;
    Ok(())
}

/// What is next, in a0; with no character left ENDFILE, and then a jump to the statement's exit, whose place isn't known yet.
#[tactic(auto, using(std::proofs::Common::append_assoc), unfolding(crate::specs::Ends::exit_behind))]
pub fn field_awaited(code: &mut Code, exits: &mut Vec<Place>) -> Result<(), AllocError>
    ensures code { OnOk result (code.new ≡ code.old ++ form.field_awaited 0) }
    ensures exits { OnOk result (exits.new.items ≡ exits.old.items ++ exit_behind code.old ∷ []) }
{
    controls_carried_out(code)?;
    code.small(u1(), 3)?;
    end_tested(code, exits)
}
