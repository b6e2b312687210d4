// Lists of arguments: six words each, a name or a value in four, a number or a text's length, and 1 for a copy.

ghost use Rattle.std.specs.Prelude.{◌≡◌, ◌+◌, ◌*◌, suc, pos, [], ◌∷◌, ◌++◌, OnOk, IfOk};
ghost use Rattle.pli_typing.specs.TypedView.{argument_of, arguments_of, part_of, reference_of, stored_of, variable_of};
ghost use Rattle.pli_coding.specs.Expressions as form;
ghost use Rattle.pli_coding.specs.Locating.{in_own_frame};
ghost use Rattle.pli_frames.specs.TakenView.{taken_of};
ghost use Rattle.rv_address.specs.Around.{environment_of};
ghost use Rattle.rv_address.specs.Places.{address_of};
ghost use Rattle.rv_operation.specs.Asked.{list_of};
ghost use Rattle.rv_operation.specs.Pieces.{arguments_entered, ended, list_given, part_given, procedure_called, text_copies};

use crate::pointer::waiting_address;
use crate::reference::name_written;
use pli_frames::fixed::{word_in, words_place};
use pli_frames::taken::Taken;
use pli_typing::typed::{Argument, Arguments, Callee, Part, Reference, Stored, Variable};
use rv_address::environment::Environment;
use rv_address::located::located;
use rv_address::names::{frame_found, frame_in, number_loaded, own_place};
use rv_address::transfer::{Address, in_own_frame, name_copied};
use rv_assembly::code::Code;
use rv_assembly::item::{Item, Symbol};
use rv_assembly::registers::{a0, a1, a2, a3, frame, u1, zero};
use rv_meaning::instr::Register;
use std::alloc::AllocError;

/// A list of arguments as it waits: how many words are in use before it, and how many it takes.
#[derive(Clone, Copy, PartialEq, Eq, Debug)]
pub struct ArgumentList {
    pub place: u32,
    pub words: u32,
}

#[tactic(auto, using(crate::proofs::Walks::lists))]
fn list_words(arguments: &Arguments) -> Result<u32, AllocError>
    ensures { IfOk result (λ n. n ≡ form.list_words (arguments_of arguments.now)) }
{
    match arguments {
        Arguments::End => Ok(0),
        Arguments::More { rest, .. } => {
            let others = list_words(rest)?;
            others.checked_add(6).ok_or(AllocError)
        }
    }
}

/// The list of these arguments behind the temporaries in use.
pub fn list_at(taken: Taken, arguments: &Arguments) -> Result<ArgumentList, AllocError>
    ensures { IfOk result (λ l. list_of l ≡ form.list_at (taken_of taken) (arguments_of arguments.now)) }
{
    let words = list_words(arguments)?;
    Ok(ArgumentList {
        place: taken.words,
        words,
    })
}

/// A word of the nth argument.
fn argument_place(list: ArgumentList, n: u32, word: u8) -> Result<i32, AllocError>
    ensures { IfOk result (λ d. d ≡ form.argument_place (list_of list) n word) }
{
    if n >= 1 << 24 {
        return Err(AllocError);
    }
    word_in(list.place, list.words, 6 * n + u32::from(word))
}

/// The address of the nth argument.
fn argument_address(list: ArgumentList, n: u32) -> Result<Address, AllocError>
    ensures { IfOk result (λ a. address_of a ≡ in_own_frame (form.argument_place (list_of list) n 0)) }
{
    let place = argument_place(list, n, 0)?;
    Ok(in_own_frame(place))
}

fn argument_stored(
    code: &mut Code,
    list: ArgumentList,
    n: u32,
    word: u8,
    register: Register,
) -> Result<(), AllocError>
    ensures { OnOk result (code.new ≡ code.old ++ form.argument_stored (list_of list) n word register) }
{
    let place = argument_place(list, n, word)?;
    code.store_word(frame(), register, place)
}

/// An argument goes by copy: says so in the list of arguments.
pub fn is_copy(code: &mut Code, list: ArgumentList, n: u32) -> Result<(), AllocError>
    ensures { OnOk result (code.new ≡ code.old ++ form.is_copy (list_of list) n) }
{
    code.small(u1(), 1)?;
    argument_stored(code, list, n, 5, u1())
}

fn is_reference(code: &mut Code, list: ArgumentList, n: u32) -> Result<(), AllocError>
    ensures { OnOk result (code.new ≡ code.old ++ form.is_reference (list_of list) n) }
{
    argument_stored(code, list, n, 5, zero())
}

fn by_reference(
    code: &mut Code,
    environment: &Environment,
    taken: Taken,
    list: ArgumentList,
    n: u32,
    variable: Variable,
    part: Part,
) -> Result<(), AllocError>
    ensures { OnOk result (code.new ≡ code.old ++ form.by_reference (environment_of environment.now) (taken_of taken) (list_of list) n (variable_of variable) (part_of part)) }
{
    let to = argument_address(list, n)?;
    name_written(code, environment, taken, variable, part, to)?;
    let found = located(environment, taken, variable)?;
    number_loaded(code, environment, u1(), found.number)?;
    argument_stored(code, list, n, 4, u1())?;
    is_reference(code, list, n)
}

/// An argument by reference, behind the locator of its reference.
#[tactic(auto, using(crate::proofs::Walks::parts))]
pub fn part_given(
    code: &mut Code,
    environment: &Environment,
    taken: Taken,
    list: ArgumentList,
    n: u32,
    reference: &Reference,
) -> Result<(), AllocError>
    ensures { OnOk result (code.new ≡ code.old ++ part_given (environment_of environment.now) (taken_of taken) (list_of list) n (reference_of reference.now)) }
{
    match reference {
        Reference::Plain { variable, part, .. } => {
            by_reference(code, environment, taken, list, n, *variable, *part)
        }
        Reference::Located { variable, part, .. } => {
            by_reference(code, environment, taken, list, n, *variable, *part)
        }
    }
}

/// The name that waits becomes that of an argument in the list.
pub fn name_to_argument(
    code: &mut Code,
    taken: Taken,
    list: ArgumentList,
    n: u32,
) -> Result<(), AllocError>
    ensures { OnOk result (code.new ≡ code.old ++ form.name_to_argument (taken_of taken) (list_of list) n) }
{
    let from = waiting_address(taken)?;
    let to = argument_address(list, n)?;
    name_copied(code, from, to)
}

/// A value that was evaluated, to its argument: a text stays on the stack, and its length goes with it.
#[tactic(auto, using(crate::proofs::Walks::lists), unfolding(pli_typing::specs::TypedView::stored_of))]
pub fn value_to_argument(
    code: &mut Code,
    taken: Taken,
    list: ArgumentList,
    n: u32,
    value: &Stored,
) -> Result<(), AllocError>
    ensures { OnOk result (code.new ≡ code.old ++ form.value_to_argument (taken_of taken) (list_of list) n (stored_of value.now)) }
{
    match value {
        Stored::Number { .. } => argument_stored(code, list, n, 0, a0()),
        Stored::Text(_) => {
            code.small(a2(), 2)?;
            code.service(27)?;
            argument_stored(code, list, n, 4, a0())
        }
        Stored::Bit(_) => argument_stored(code, list, n, 0, a0()),
        Stored::Pointer(_) => name_to_argument(code, taken, list, n),
        Stored::Offset(_) => argument_stored(code, list, n, 0, a0()),
    }
}

/// The offset of a name, in the area in a1.
fn offset_ended(code: &mut Code, list: ArgumentList, n: u32) -> Result<(), AllocError>
    ensures { OnOk result (code.new ≡ code.old ++ ended (list_of list) n) }
{
    code.small(a3(), 1)?;
    code.tested_service(14)?;
    argument_stored(code, list, n, 0, a0())
}

/// An offset in the area of another argument, or in none.
#[tactic(auto, using(crate::proofs::Walks::lists), unfolding(pli_typing::specs::TypedView::argument_of))]
fn converted_last(
    code: &mut Code,
    environment: &Environment,
    list: ArgumentList,
    n: u32,
    argument: &Argument,
) -> Result<(), AllocError>
    ensures { OnOk result (code.new ≡ code.old ++ form.converted_last (environment_of environment.now) (list_of list) n (argument_of argument.now)) }
{
    match argument {
        Argument::ByReference(_) => Ok(()),
        Argument::ByCopy { .. } => Ok(()),
        Argument::ByOffsetInParameter { parameter, .. } => {
            if *parameter >= 1 << 24 {
                return Err(AllocError);
            }
            let name = argument_place(list, n, 0)?;
            own_place(code, environment, a0(), name)?;
            let area = argument_place(list, *parameter as u32, 0)?;
            own_place(code, environment, a1(), area)?;
            offset_ended(code, list, n)
        }
        Argument::ByOffsetInAutomatic(_) => {
            let name = argument_place(list, n, 0)?;
            own_place(code, environment, a0(), name)?;
            code.small(a1(), 0)?;
            offset_ended(code, list, n)
        }
    }
}

/// The offsets that are converted once all arguments are there.
#[tactic(auto, using(crate::proofs::Walks::lists))]
fn all_converted_last(
    code: &mut Code,
    environment: &Environment,
    list: ArgumentList,
    n: u32,
    arguments: &Arguments,
) -> Result<(), AllocError>
    ensures { OnOk result (code.new ≡ code.old ++ form.all_converted_last (environment_of environment.now) (list_of list) n (arguments_of arguments.now)) }
{
    match arguments {
        Arguments::End => Ok(()),
        Arguments::More { first, rest } => {
            converted_last(code, environment, list, n, first)?;
            let next = n.checked_add(1).ok_or(AllocError)?;
            all_converted_last(code, environment, list, next, rest)
        }
    }
}

#[tactic(auto, unfolding(pli_typing::specs::TypedView::argument_of, pli_typing::specs::TypedView::stored_of))]
fn text_copies(argument: &Argument) -> u32
    ensures { result ≡ text_copies (argument_of argument.now) }
{
    match argument {
        Argument::ByReference(_) => 0,
        Argument::ByCopy { value, .. } => match value {
            Stored::Number { .. } => 0,
            Stored::Text(_) => 1,
            Stored::Bit(_) => 0,
            Stored::Pointer(_) => 0,
            Stored::Offset(_) => 0,
        },
        Argument::ByOffsetInParameter { .. } => 0,
        Argument::ByOffsetInAutomatic(_) => 0,
    }
}

/// How many arguments are copies of texts.
#[tactic(auto, using(crate::proofs::Walks::lists))]
fn text_count(arguments: &Arguments) -> Result<u32, AllocError>
    ensures { IfOk result (λ n. n ≡ form.text_count (arguments_of arguments.now)) }
{
    match arguments {
        Arguments::End => Ok(0),
        Arguments::More { first, rest } => {
            let others = text_count(rest)?;
            others.checked_add(text_copies(first)).ok_or(AllocError)
        }
    }
}

fn frame_given(code: &mut Code, environment: &Environment, level: usize) -> Result<(), AllocError>
    ensures { OnOk result (code.new ≡ code.old ++ form.frame_given (environment_of environment.now) level) }
{
    frame_found(code, environment, level, a0())?;
    code.copy(a0(), frame_in(environment, level, a0()))
}

/// The list, and how many texts go with it.
fn list_given(code: &mut Code, list: ArgumentList, texts: u32) -> Result<(), AllocError>
    ensures { OnOk result (code.new ≡ code.old ++ list_given (list_of list) texts) }
{
    let place = words_place(list.place, list.words)?;
    code.plus(a1(), frame(), place)?;
    code.number(a2(), texts)
}

/// The frame of the block that declares the procedure, and the call.
fn procedure_called(
    code: &mut Code,
    environment: &Environment,
    callee: Callee,
) -> Result<(), AllocError>
    ensures { OnOk result (code.new ≡ code.old ++ procedure_called (environment_of environment.now) callee.procedure callee.level) }
{
    frame_given(code, environment, callee.level)?;
    code.push(Item::CallTo(Symbol::ProcedureEntry {
        block: callee.procedure,
    }))
}

fn entered(
    code: &mut Code,
    environment: &Environment,
    list: ArgumentList,
    callee: Callee,
    texts: u32,
) -> Result<(), AllocError>
    ensures { OnOk result (code.new ≡ code.old ++ form.entered (environment_of environment.now) (list_of list) callee.procedure callee.level texts) }
{
    list_given(code, list, texts)?;
    procedure_called(code, environment, callee)
}

/// A call, once all arguments are there.
#[tactic(auto, unfolding(crate::specs::Pieces::arguments_entered))]
pub fn arguments_entered(
    code: &mut Code,
    environment: &Environment,
    list: ArgumentList,
    callee: Callee,
    arguments: &Arguments,
) -> Result<(), AllocError>
    ensures { OnOk result (code.new ≡ code.old ++ arguments_entered (environment_of environment.now) (list_of list) callee.procedure callee.level (arguments_of arguments.now)) }
{
    all_converted_last(code, environment, list, 0, arguments)?;
    let texts = text_count(arguments)?;
    entered(code, environment, list, callee, texts)
}
