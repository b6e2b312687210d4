// Elements of an aggregate by their numbers: its record stands behind the temporaries in use, and behind it the number of the
// next element in two words.

ghost use Rattle.std.specs.Prelude.{◌≡◌, ◌++◌, OnOk, IfOk};
ghost use Rattle.pli_typing.specs.TypedView.{part_of, reference_of, variable_of};
ghost use Rattle.pli_coding.specs.Instructions.{load_word, store_word};
ghost use Rattle.pli_coding.specs.Registers.{a2, a5, frame_register};
ghost use Rattle.pli_coding.specs.Storing.{subscript_count};
ghost use Rattle.pli_coding.specs.Streams as form;
ghost use Rattle.pli_frames.specs.TakenView.{taken_of};
ghost use Rattle.rv_address.specs.Around.{environment_of};
ghost use Rattle.rv_item.specs.Elements.{asked_last, elements_shown, part_in, shape_named, variable_in};

use pli_frames::fixed::{buffer, word_in};
use pli_frames::forms::behind_record;
use pli_frames::taken::Taken;
use pli_typing::typed::{Part, Reference, Variable};
use rv_address::environment::Environment;
use rv_address::names::own_place;
use rv_address::number::signed;
use rv_assembly::code::Code;
use rv_assembly::item::{Item, Symbol};
use rv_assembly::registers::{a1, a2, a3, a4, a5, frame, u1, u2, zero};
use rv_assignment::record::record_given;
use rv_data::shape::shape_datum;
use rv_meaning::instr::{ImmediateOp, Register};
use rv_operation::reference::given_in;
use std::alloc::{AllocError, Global};

/// What is in use while elements go: before their record, and with it.
#[derive(Clone, Copy, PartialEq, Eq, Debug)]
pub struct Elements {
    pub taken: Taken,
    pub behind: Taken,
}

/// Those of an aggregate.
pub fn elements_of(taken: Taken, reference: &Reference) -> Result<Elements, AllocError>
    ensures { IfOk result (λ l. elements_shown l ≡ form.elements_of (taken_of taken) (reference_of reference.now)) }
{
    let behind = behind_record(reference, taken)?;
    Ok(Elements { taken, behind })
}

fn next_place(elements: Elements, word: u32) -> Result<i32, AllocError>
    ensures { IfOk result (λ d. d ≡ form.next_place (elements_shown elements) word) }
{
    word_in(elements.behind.words, 2, word)
}

// Each word in a function of its own: two numbers with signs beside each other aren't seen through.

/// A word of the number of the next element in a register.
fn next_in(
    code: &mut Code,
    register: Register,
    elements: Elements,
    word: u32,
) -> Result<(), AllocError>
    ensures { OnOk result (code.new ≡ code.old ++ load_word register frame_register (form.next_place (elements_shown elements) word)) }
{
    code.load_word(register, frame(), next_place(elements, word)?)
}

fn next_kept(
    code: &mut Code,
    register: Register,
    elements: Elements,
    word: u32,
) -> Result<(), AllocError>
    ensures { OnOk result (code.new ≡ code.old ++ store_word frame_register register (form.next_place (elements_shown elements) word)) }
{
    code.store_word(frame(), register, next_place(elements, word)?)
}

/// Behind the number.
pub fn free_in(elements: Elements) -> Result<Taken, AllocError>
    ensures { IfOk result (λ t. taken_of t ≡ form.free_in (elements_shown elements)) }
{
    elements.behind.with_words(2)
}

// ---- what an aggregate names

/// The variable that a reference names.
#[tactic(auto, using(crate::proofs::Parts::parts))]
pub fn variable_in(reference: &Reference) -> Variable
    ensures { variable_of result ≡ variable_in (reference_of reference.now) }
{
    match reference {
        Reference::Plain { variable, .. } => *variable,
        Reference::Located { variable, .. } => *variable,
    }
}

/// The part of its variable that a reference names.
#[tactic(auto, using(crate::proofs::Parts::parts))]
pub fn part_in(reference: &Reference) -> Part
    ensures { part_of result ≡ part_in (reference_of reference.now) }
{
    match reference {
        Reference::Plain { part, .. } => *part,
        Reference::Located { part, .. } => *part,
    }
}

#[tactic(auto, using(crate::proofs::Parts::parts))]
pub(crate) fn subscript_count(reference: &Reference) -> Result<usize, AllocError>
    ensures { IfOk result (λ n. n ≡ subscript_count (reference_of reference.now)) }
{
    match reference {
        Reference::Plain { subscripts, .. } => given_in(subscripts),
        Reference::Located { subscripts, .. } => given_in(subscripts),
    }
}

fn shape_named(
    alloc: Global,
    code: &mut Code,
    environment: &Environment,
    variable: Variable,
    part: Part,
    given: usize,
) -> Result<(), AllocError>
    ensures { OnOk result (code.new ≡ code.old ++ shape_named (environment_of environment.now) (variable_of variable) (part_of part) given) }
{
    let declaration = environment.declaration(variable)?;
    let datum = shape_datum(alloc, &declaration.members, part, given)?;
    code.push(Item::OffsetOf(a1(), Symbol::DataPlace(datum)))
}

#[tactic(auto, using(crate::proofs::Parts::shape_is))]
fn shape_in(
    alloc: Global,
    code: &mut Code,
    environment: &Environment,
    reference: &Reference,
) -> Result<(), AllocError>
    ensures { OnOk result (code.new ≡ code.old ++ form.shape_in (environment_of environment.now) (reference_of reference.now)) }
{
    let variable = variable_in(reference);
    let part = part_in(reference);
    let given = subscript_count(reference)?;
    shape_named(alloc, code, environment, variable, part, given)
}

// ---- elements by their numbers

/// The service, behind the record, the shape and the number.
fn asked_last(code: &mut Code, environment: &Environment) -> Result<(), AllocError>
    ensures { OnOk result (code.new ≡ code.old ++ asked_last (environment_of environment.now)) }
{
    own_place(code, environment, a3(), signed(buffer())?)?;
    code.small(a4(), 1)?;
    code.service(8)
}

/// The first is the next.
pub fn elements_begun(code: &mut Code, elements: Elements) -> Result<(), AllocError>
    ensures { OnOk result (code.new ≡ code.old ++ form.elements_begun (elements_shown elements)) }
{
    next_kept(code, zero(), elements, 0)?;
    next_kept(code, zero(), elements, 1)
}

/// The number of the next one.
fn next_given(code: &mut Code, elements: Elements) -> Result<(), AllocError>
    ensures { OnOk result (code.new ≡ code.old ++ (load_word a2 frame_register (form.next_place (elements_shown elements) 0) ++ load_word a5 frame_register (form.next_place (elements_shown elements) 1))) }
{
    next_in(code, a2(), elements, 0)?;
    next_in(code, a5(), elements, 1)
}

/// The offset of the next one in a0, all ones where there is none, and what it is in the buffer.
fn element_asked(
    alloc: Global,
    code: &mut Code,
    environment: &Environment,
    elements: Elements,
    reference: &Reference,
) -> Result<(), AllocError>
    ensures { OnOk result (code.new ≡ code.old ++ form.element_asked (environment_of environment.now) (elements_shown elements) (reference_of reference.now)) }
{
    record_given(code, environment, elements.taken)?;
    shape_in(alloc, code, environment, reference)?;
    next_given(code, elements)?;
    asked_last(code, environment)
}

/// It must live and be there in full.
pub fn element_found(
    alloc: Global,
    code: &mut Code,
    environment: &Environment,
    elements: Elements,
    reference: &Reference,
) -> Result<(), AllocError>
    ensures { OnOk result (code.new ≡ code.old ++ form.element_found (environment_of environment.now) (elements_shown elements) (reference_of reference.now)) }
{
    element_asked(alloc, code, environment, elements, reference)?;
    code.status_tested()
}

/// The same, and in u1 what is told where there is none.
pub fn next_asked(
    alloc: Global,
    code: &mut Code,
    environment: &Environment,
    elements: Elements,
    reference: &Reference,
) -> Result<(), AllocError>
    ensures { OnOk result (code.new ≡ code.old ++ form.next_asked (environment_of environment.now) (elements_shown elements) (reference_of reference.now)) }
{
    element_asked(alloc, code, environment, elements, reference)?;
    code.immediate(ImmediateOp::Add, u1(), zero(), -1)
}

/// The next number; a lower word that has become 0 carries.
pub fn next_counted(code: &mut Code, elements: Elements) -> Result<(), AllocError>
    ensures { OnOk result (code.new ≡ code.old ++ form.next_counted (elements_shown elements)) }
{
    next_in(code, u1(), elements, 0)?;
    code.immediate(ImmediateOp::Add, u1(), u1(), 1)?;
    next_kept(code, u1(), elements, 0)?;
    code.immediate(ImmediateOp::SetLessUnsigned, u1(), u1(), 1)?;
    next_in(code, u2(), elements, 1)?;
    code.add(u2(), u2(), u1())?;
    next_kept(code, u2(), elements, 1)
}
