// STATIC variables, made before the first act, and signatures that are completed then.

ghost use Rattle.std.specs.Prelude.{◌≡◌, [], ◌∷◌, ◌-◌, ◌++◌, length, map, OnOk, IfOk};
ghost use Rattle.pli_typing.specs.TypedView.{bounds_of, class_of, extent_of, leaf_of, variable_of};
ghost use Rattle.pli_typing.specs.TypedStatementView.{declared_variable_of};
ghost use Rattle.pli_meaning.specs.DeclaredShapes.{variables_of_block};
ghost use Rattle.pli_coding.specs.Images as form;
ghost use Rattle.pli_coding.specs.StaticForms.{places_datum};
ghost use Rattle.rv_assembly.specs.View.{datum_of};
ghost use Rattle.rv_address.specs.Around.{environment_of};
ghost use Rattle.rv_start.specs.Pieces.{declared_at, first_filled, last_filled, lower_given, lower_placed, number_kept, static_given, static_with, variable_at, variable_statics};

use crate::variable::variable_at;
use pli_typing::typed::{Bounds, DeclaredVariable, Extent, Leaf, StorageClass};
use rv_address::environment::{Environment, variables_of_block};
use rv_address::located::static_bytes;
use rv_address::number::{constant, count};
use rv_address::referred::needs_number_word;
use rv_assembly::code::Code;
use rv_assembly::item::{Datum, Item, Symbol};
use rv_assembly::registers::{a0, a1, a2, a3, a4, u0, u1};
use rv_extent::initial::initial_code;
use std::alloc::{AllocError, Global};

/// The bytes of a name, behind which its variable's data stand.
const NAME_BYTES: i32 = 16;

#[tactic(auto, unfolding(crate::specs::Pieces::static_with))]
fn static_with(
    alloc: Global,
    code: &mut Code,
    number: usize,
    block: usize,
    index: usize,
    declaration: &DeclaredVariable,
) -> Result<(), AllocError>
    ensures { OnOk result (code.new ≡ code.old ++ static_with number block index (declared_variable_of declaration.now)) }
{
    let bytes = static_bytes(declaration)?;
    let storage = Datum::StaticStorage {
        block,
        index,
        bytes,
    };
    code.push(Item::OffsetOf(a0(), Symbol::DataPlace(storage)))?;
    count(code, a1(), number)?;
    initial_code(alloc, code, a2(), declaration)?;
    code.plus(a3(), a0(), NAME_BYTES)?;
    code.small(a4(), 1)?;
    code.service(7)
}

/// A variable, where it is STATIC.
fn static_given(
    alloc: Global,
    code: &mut Code,
    number: usize,
    block: usize,
    index: usize,
    declaration: &DeclaredVariable,
) -> Result<(), AllocError>
    ensures { OnOk result (code.new ≡ code.old ++ static_given number block index (declared_variable_of declaration.now) (declared_variable_of declaration.now).class) }
{
    match declaration.class {
        StorageClass::Static => static_with(alloc, code, number, block, index, declaration),
        StorageClass::Automatic => Ok(()),
        StorageClass::Parameter => Ok(()),
        StorageClass::Based => Ok(()),
        StorageClass::Controlled => Ok(()),
    }
}

#[tactic(auto, using(crate::proofs::Steps::static_here))]
fn static_if(
    alloc: Global,
    code: &mut Code,
    environment: &Environment,
    block: usize,
    index: usize,
) -> Result<(), AllocError>
    ensures { OnOk result (code.new ≡ code.old ++ form.static_if (environment_of environment.now) block index (declared_at (environment_of environment.now) block index) (declared_at (environment_of environment.now) block index).class) }
{
    let variable = variable_at(block, index);
    let declaration = environment.declaration(variable)?;
    let number = environment.table_number(variable)?;
    Ok(static_given(alloc, code, number, block, index, declaration)?)
}

/// The first dimension of a leaf as the only place of an extent.
fn only_place(alloc: Global, leaf: usize) -> Result<Datum, AllocError>
    ensures { IfOk result (λ d. datum_of d ≡ places_datum (leaf ∷ 0 ∷ [])) }
{
    let leaf = leaf as u64;
    let words = [
        1,
        0,
        0,
        0,
        (leaf % 256) as u8,
        (leaf / 256 % 256) as u8,
        (leaf / 256 / 256 % 256) as u8,
        (leaf / 256 / 256 / 256 % 256) as u8,
        0,
        0,
        0,
        0,
    ];
    let mut bytes = Vec::new(alloc);
    bytes.extend_from_slice(&words)?;
    Ok(Datum::ConstantBytes(bytes))
}

/// The number in a0, into the word that a variable has for it.
fn number_kept(code: &mut Code, block: usize, index: usize) -> Result<(), AllocError>
    ensures { OnOk result (code.new ≡ code.old ++ number_kept block index) }
{
    let word = Datum::NumberWord { block, index };
    code.push(Item::OffsetOf(u1(), Symbol::DataPlace(word)))?;
    code.push(Item::BaseIn(u0()))?;
    code.add(u0(), u0(), u1())?;
    code.store_word(u0(), a0(), 0)
}

/// A lower bound, into the signature of a number, at a place.
#[tactic(auto, unfolding(crate::specs::Pieces::lower_placed))]
fn lower_placed(
    code: &mut Code,
    number: usize,
    block: usize,
    index: usize,
    place: Datum,
    lower: i128,
) -> Result<(), AllocError>
    ensures { OnOk result (code.new ≡ code.old ++ lower_placed number block index (datum_of place) lower) }
{
    count(code, a0(), number)?;
    code.push(Item::OffsetOf(a1(), Symbol::DataPlace(place)))?;
    constant(code, a2(), lower)?;
    constant(code, a3(), lower)?;
    code.service(3)?;
    number_kept(code, block, index)
}

#[tactic(auto, using(crate::proofs::Steps::place_named))]
fn lower_with(
    alloc: Global,
    code: &mut Code,
    number: usize,
    block: usize,
    index: usize,
    leaf: usize,
    lower: i128,
) -> Result<(), AllocError>
    ensures { OnOk result (code.new ≡ code.old ++ lower_placed number block index (places_datum (leaf ∷ 0 ∷ [])) lower) }
{
    let place = only_place(alloc, leaf)?;
    Ok(lower_placed(code, number, block, index, place, lower)?)
}

fn lower_given(
    alloc: Global,
    code: &mut Code,
    number: usize,
    block: usize,
    index: usize,
    leaf: usize,
    lower: Extent,
) -> Result<(), AllocError>
    ensures { OnOk result (code.new ≡ code.old ++ lower_given number block index leaf (extent_of lower)) }
{
    match lower {
        Extent::Constant(lower) => lower_with(alloc, code, number, block, index, leaf, lower),
        Extent::Star => Ok(()),
        Extent::Refer => Ok(()),
        Extent::Evaluated(_) => Ok(()),
    }
}

/// The lower bound of the first dimension.
#[tactic(auto, using(crate::proofs::Steps::first_there, crate::proofs::Steps::first_nowhere))]
fn first_filled(
    alloc: Global,
    code: &mut Code,
    number: usize,
    block: usize,
    index: usize,
    leaf: usize,
    dimensions: &[Bounds],
) -> Result<(), AllocError>
    ensures { OnOk result (code.new ≡ code.old ++ first_filled number block index leaf (map bounds_of dimensions.now)) }
{
    if dimensions.len() == 0 {
        return Ok(());
    }
    let first = &dimensions[0];
    Ok(lower_given(alloc, code, number, block, index, leaf, first.lower)?)
}

/// That of the last leaf.
#[tactic(auto, using(crate::proofs::Steps::last_there, crate::proofs::Steps::last_nowhere))]
fn last_filled(
    alloc: Global,
    code: &mut Code,
    number: usize,
    block: usize,
    index: usize,
    leaves: &[Leaf],
) -> Result<(), AllocError>
    ensures { OnOk result (code.new ≡ code.old ++ last_filled number block index (map leaf_of leaves.now)) }
{
    if leaves.len() == 0 {
        return Ok(());
    }
    let last = leaves.len() - 1;
    let leaf = &leaves[last];
    Ok(first_filled(alloc, code, number, block, index, last, &leaf.bounds)?)
}

/// The number of a signature that has a lower bound beside REFER, where that isn't 1.
#[tactic(auto, using(crate::proofs::Steps::number_there, crate::proofs::Steps::number_nowhere))]
fn number_if(
    alloc: Global,
    code: &mut Code,
    environment: &Environment,
    block: usize,
    index: usize,
) -> Result<(), AllocError>
    ensures { OnOk result (code.new ≡ code.old ++ form.number_if (environment_of environment.now) block index (declared_at (environment_of environment.now) block index)) }
{
    let variable = variable_at(block, index);
    let declaration = environment.declaration(variable)?;
    if !needs_number_word(declaration) {
        return Ok(());
    }
    let number = environment.table_number(variable)?;
    Ok(last_filled(alloc, code, number, block, index, &declaration.leaves)?)
}

#[tactic(auto, unfolding(crate::specs::Pieces::variable_statics))]
fn variable_statics(
    alloc: Global,
    code: &mut Code,
    environment: &Environment,
    block: usize,
    index: usize,
) -> Result<(), AllocError>
    ensures { OnOk result (code.new ≡ code.old ++ variable_statics (environment_of environment.now) block index) }
{
    static_if(alloc, code, environment, block, index)?;
    number_if(alloc, code, environment, block, index)
}

#[tactic(auto, using(crate::proofs::Steps::next_variable))]
fn statics_of_block(
    alloc: Global,
    code: &mut Code,
    environment: &Environment,
    block: usize,
) -> Result<(), AllocError>
    ensures { OnOk result (code.new ≡ code.old ++ form.statics_of_block (environment_of environment.now) block 0 (variables_of_block (environment_of environment.now).program block)) }
{
    let variables = variables_of_block(environment.known.typed, block)?;
    for index in 0..variables.len() {
        variable_statics(alloc, code, environment, block, index)?;
    }
    Ok(())
}

/// The STATIC variables of all blocks.
#[tactic(auto, using(crate::proofs::Steps::next_block))]
pub fn statics_code(
    alloc: Global,
    code: &mut Code,
    environment: &Environment,
) -> Result<(), AllocError>
    ensures { OnOk result (code.new ≡ code.old ++ form.statics_code (environment_of environment.now) 0 (environment_of environment.now).program.variables) }
{
    for block in 0..environment.known.typed.variables.len() {
        statics_of_block(alloc, code, environment, block)?;
    }
    Ok(())
}
