// Elements of arrays of one kind at constant places: how far the next one stands behind the first waits as a number.

ghost use Rattle.std.specs.Prelude.{◌≡◌, [], ◌++◌, OnOk, IfOk};
ghost use Rattle.pli_typing.specs.Signatures as sizes;
ghost use Rattle.pli_typing.specs.TypedView.{leaf_of, leaf_type_of, part_of, reference_of, variable_of};
ghost use Rattle.pli_meaning.specs.DeclaredShapes as shapes;
ghost use Rattle.pli_coding.specs.Instructions as instructions;
ghost use Rattle.pli_coding.specs.Registers.{u1, u2};
ghost use Rattle.pli_coding.specs.Streams as form;
ghost use Rattle.pli_frames.specs.TakenView.{taken_of};
ghost use Rattle.rv_address.specs.Around.{environment_of};
ghost use Rattle.rv_item.specs.Distances.{element_counted, element_passed, repeated_from};

use crate::elements::{part_in, subscript_count, variable_in};
use pli_frames::taken::Taken;
use pli_typing::typed::{Leaf, LeafType, Part, Reference, Variable};
use rv_address::direct::{direct_base, direct_register};
use rv_address::environment::Environment;
use rv_address::leaf::is_direct;
use rv_address::number::signed;
use rv_address::size::{element_bytes, leaf_size};
use rv_address::taken::{fetch, save};
use rv_assembly::code::{Code, branch_over};
use rv_assembly::item::Item;
use rv_assembly::registers::{u1, u2, u3, u4};
use rv_meaning::instr::BranchTest;
use std::alloc::AllocError;

/// No word holds so many bytes as a distance.
const MOST_BYTES: u64 = 1 << 31;

/// Whether a word holds how many bytes the elements of a leaf take, and these are any.
#[tactic(auto, using(crate::proofs::Distances::distance_is))]
fn is_distance(leaf: &Leaf) -> bool
    ensures { result ≡ form.is_distance (sizes.leaf_size (shapes.leaf_of [] (leaf_of leaf.now))) }
{
    let bytes = leaf_size(leaf);
    bytes > 0 && bytes < MOST_BYTES
}

/// These bytes.
#[tactic(auto, using(crate::proofs::Distances::bytes_are))]
fn array_bytes(leaf: &Leaf) -> Result<u32, AllocError>
    ensures { IfOk result (λ n. n ≡ sizes.leaf_size (shapes.leaf_of [] (leaf_of leaf.now))) }
{
    let bytes = leaf_size(leaf);
    if bytes >= MOST_BYTES {
        return Err(AllocError);
    }
    Ok(bytes as u32)
}

fn are_counted(
    environment: &Environment,
    variable: Variable,
    part: Part,
    given: usize,
) -> Result<bool, AllocError>
    ensures { IfOk result (λ b. b ≡ form.are_counted (environment_of environment.now) (variable_of variable) (part_of part) given) }
{
    let direct = is_direct(environment, variable)?;
    let leaf = environment.leaf(variable, part.first)?;
    Ok(direct && part.count == 1 && given == 0 && is_distance(leaf))
}

/// Whether the elements of an aggregate are counted so.
#[tactic(auto, using(crate::proofs::Distances::counted_is))]
pub fn is_counted(environment: &Environment, reference: &Reference) -> Result<bool, AllocError>
    ensures { IfOk result (λ b. b ≡ form.is_counted (environment_of environment.now) (reference_of reference.now)) }
{
    let variable = variable_in(reference);
    let part = part_in(reference);
    let given = subscript_count(reference)?;
    are_counted(environment, variable, part, given)
}

/// The address of the next element, in u3.
pub fn distance_added(
    code: &mut Code,
    environment: &Environment,
    taken: Taken,
    variable: Variable,
) -> Result<(), AllocError>
    ensures { OnOk result (code.new ≡ code.old ++ form.distance_added (environment_of environment.now) (taken_of taken) (variable_of variable)) }
{
    fetch(code, u4(), taken)?;
    direct_base(code, environment, u3(), variable)?;
    let register = direct_register(environment, u3(), variable);
    code.add(u3(), register, u4())
}

// Each number in a function of its own: two of them with signs beside each other aren't seen through.

/// u1 becomes the distance behind an element.
fn element_passed(code: &mut Code, kind: LeafType) -> Result<(), AllocError>
    ensures { OnOk result (code.new ≡ code.old ++ element_passed (leaf_type_of kind)) }
{
    let bytes = signed(element_bytes(kind)?)?;
    code.plus(u1(), u1(), bytes)
}

/// The distance behind the last element in u2.
fn end_given(code: &mut Code, leaf: &Leaf) -> Result<(), AllocError>
    ensures { OnOk result (code.new ≡ code.old ++ instructions.number u2 (sizes.leaf_size (shapes.leaf_of [] (leaf_of leaf.now)))) }
{
    let bytes = array_bytes(leaf)?;
    code.number(u2(), bytes)
}

/// The distance of the next element in u1, and that behind the last one in u2.
fn distance_counted(code: &mut Code, taken: Taken, leaf: &Leaf) -> Result<(), AllocError>
    ensures { OnOk result (code.new ≡ code.old ++ form.distance_counted (taken_of taken) (leaf_of leaf.now)) }
{
    fetch(code, u1(), taken)?;
    element_passed(code, leaf.kind)?;
    save(code, u1(), taken)?;
    end_given(code, leaf)
}

/// The code that was written since there were so many words, again until u1 is u2.
#[tactic(auto, unfolding(crate::specs::Distances::repeated_from))]
fn repeat_until_equal(code: &mut Code, words: usize) -> Result<(), AllocError>
    ensures { OnOk result (code.new ≡ repeated_from words code.old) }
{
    let back = code.size().saturating_sub(words) + 1;
    code.push(branch_over(BranchTest::Equal, u1(), u2(), 2))?;
    code.push(Item::JumpBack(back))
}

/// The end of what is done for each, which began where there were so many words.
#[tactic(auto, unfolding(crate::specs::Distances::element_counted))]
pub fn element_counted(
    code: &mut Code,
    taken: Taken,
    leaf: &Leaf,
    words: usize,
) -> Result<(), AllocError>
    ensures { OnOk result (code.new ≡ element_counted words (taken_of taken) (leaf_of leaf.now) code.old) }
{
    distance_counted(code, taken, leaf)?;
    repeat_until_equal(code, words)
}
