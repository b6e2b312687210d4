// What blocks are entered and left by, in the words that were worked out by hand; with a refused allocation there is no code.

use crate::block::{block_entered, block_left, entered_without_texts};
use crate::frame::{all_restored, frame_begun, frame_ended, held_restored};
use crate::parameter::{arguments_copied, list_kept};
use crate::variable::variables_code;
use pli_typing::statement::Typed;
use pli_typing::typed::{
    Bounds, Check, DeclaredVariable, Evaluation, Extent, Leaf, LeafType, Number, StorageClass,
};
use rv_address::environment::Environment;
use rv_address::known::Known;
use rv_assembly::code::Code;
use std::alloc::{AllocError, Global};
use std::test::Fail;

fn declared<'a>(
    alloc: Global,
    class: StorageClass,
    kind: LeafType,
    bounds: Vec<Bounds>,
) -> Result<DeclaredVariable<'a>, AllocError> {
    let mut leaves = Vec::new(alloc);
    leaves.push(Leaf {
        kind,
        bounds,
        initial: Vec::new(alloc),
    })?;
    Ok(DeclaredVariable {
        class,
        members: Vec::new(alloc),
        leaves,
        refer: None,
        evaluations: Vec::new(alloc),
    })
}

fn scalar<'a>(
    alloc: Global,
    class: StorageClass,
    kind: LeafType,
) -> Result<DeclaredVariable<'a>, AllocError> {
    declared(alloc, class, kind, Vec::new(alloc))
}

fn parameter<'a>(alloc: Global, kind: LeafType) -> Result<DeclaredVariable<'a>, AllocError> {
    scalar(alloc, StorageClass::Parameter, kind)
}

// An array of two numbers.
fn array<'a>(alloc: Global) -> Result<DeclaredVariable<'a>, AllocError> {
    let mut bounds = Vec::new(alloc);
    bounds.push(Bounds {
        lower: Extent::Constant(1),
        upper: Extent::Constant(2),
    })?;
    declared(alloc, StorageClass::Parameter, LeafType::Fixed(31), bounds)
}

// A text whose length is evaluated.
fn evaluated<'a>(alloc: Global) -> Result<DeclaredVariable<'a>, AllocError> {
    let text = LeafType::Character(Extent::Evaluated(0));
    let mut variable = scalar(alloc, StorageClass::Automatic, text)?;
    variable.evaluations.push(Evaluation {
        value: Number::Constant(5),
        check: Check::Length,
    })?;
    Ok(variable)
}

// A block with these variables.
fn program<'a>(
    alloc: Global,
    variables: Vec<DeclaredVariable<'a>>,
) -> Result<Typed<'a>, AllocError> {
    let mut all = Vec::new(alloc);
    all.push(variables)?;
    Ok(Typed {
        variables: all,
        procedures: Vec::new(alloc),
    })
}

#[test]
fn frames_begin_and_end_in_their_words(rt: HostRuntime) -> Result<(), Fail> {
    let mut code = Code::new(rt.alloc());
    frame_begun(&mut code, 5, 0, 2, None)?;
    assert_eq!(rt; code.size(), 10);
    frame_begun(&mut code, 5, 2, 2, Some(7))?;
    assert_eq!(rt; code.size(), 31);
    frame_ended(&mut code, 5)?;
    assert_eq!(rt; code.size(), 33);
    held_restored(&mut code, 7)?;
    all_restored(&mut code, 7)?;
    assert_eq!(rt; code.size(), 48);
    frame_begun(&mut code, 5, 2, 2, Some(2))?;
    held_restored(&mut code, 1)?;
    all_restored(&mut code, 2)?;
    assert_eq!(rt; code.size(), 68);
    Ok(())
}

#[test]
fn blocks_are_entered_in_their_words(rt: HostRuntime) -> Result<(), Fail> {
    let mut code = Code::new(rt.alloc());
    block_entered(&mut code, 1, 7)?;
    entered_without_texts(&mut code, 2, 7)?;
    block_left(&mut code, 1)?;
    assert_eq!(rt; code.size(), 14);
    assert_eq!(rt; block_entered(&mut code, 2048, 7).is_err(), true);
    Ok(())
}

#[test]
fn arguments_are_taken_in_their_words(rt: HostRuntime) -> Result<(), Fail> {
    let alloc = rt.alloc();
    let mut variables = Vec::new(alloc);
    variables.push(parameter(alloc, LeafType::Fixed(31))?)?;
    variables.push(parameter(alloc, LeafType::Character(Extent::Star))?)?;
    variables.push(parameter(alloc, LeafType::Pointer)?)?;
    variables.push(parameter(alloc, LeafType::Varying(Extent::Constant(20)))?)?;
    variables.push(parameter(alloc, LeafType::Area(Extent::Star))?)?;
    variables.push(array(alloc)?)?;
    let typed = program(alloc, variables)?;
    let known = Known::new(alloc, &typed)?;
    let environment = Environment::new(&known, &[]);
    let mut code = Code::new(alloc);
    list_kept(&mut code, 0, &[])?;
    assert_eq!(rt; code.size(), 0);
    list_kept(&mut code, 0, &[0, 1])?;
    assert_eq!(rt; code.size(), 4);
    arguments_copied(alloc, &mut code, &environment, &[0, 1, 2, 3, 4, 5])?;
    assert_eq!(rt; code.size(), 105);
    Ok(())
}

#[test]
fn variables_are_made_in_their_words(rt: HostRuntime) -> Result<(), Fail> {
    let alloc = rt.alloc();
    let mut variables = Vec::new(alloc);
    variables.push(scalar(alloc, StorageClass::Automatic, LeafType::Fixed(31))?)?;
    variables.push(scalar(alloc, StorageClass::Static, LeafType::Fixed(31))?)?;
    variables.push(evaluated(alloc)?)?;
    let typed = program(alloc, variables)?;
    let known = Known::new(alloc, &typed)?;
    let environment = Environment::new(&known, &[]);
    let mut code = Code::new(alloc);
    variables_code(alloc, &mut code, &environment, 7)?;
    assert_eq!(rt; code.size(), 43);
    Ok(())
}
