// Variables whose extents are evaluated, and the words of their code, worked out by hand; with a refused allocation there is no
// code.

use crate::amount::refer_amount;
use crate::evaluation::extents_code;
use crate::initial::initial_code;
use pli_frames::taken::none_taken;
use pli_language::declaration::{InitialItem, InitialValue};
use pli_typing::statement::Typed;
use pli_typing::typed::{
    Bounds, Check, DeclaredVariable, Evaluation, Extent, Leaf, LeafType, Number, ReferMember,
    StorageClass, Variable,
};
use rv_address::environment::Environment;
use rv_address::known::Known;
use rv_assembly::code::Code;
use rv_assembly::registers::a2;
use std::alloc::{AllocError, Global};
use std::test::Fail;

fn leaf<'a>(alloc: Global, kind: LeafType) -> Leaf<'a> {
    Leaf {
        kind,
        bounds: Vec::new(alloc),
        initial: Vec::new(alloc),
    }
}

fn declared<'a>(
    alloc: Global,
    leaf: Leaf<'a>,
    check: Check,
) -> Result<DeclaredVariable<'a>, AllocError> {
    let mut leaves = Vec::new(alloc);
    leaves.push(leaf)?;
    let mut evaluations = Vec::new(alloc);
    evaluations.push(Evaluation {
        value: Number::Constant(5),
        check,
    })?;
    Ok(DeclaredVariable {
        class: StorageClass::Controlled,
        members: Vec::new(alloc),
        leaves,
        refer: None,
        evaluations,
    })
}

// A text and an area of 5, each by the check of its extent.
fn scalar<'a>(
    alloc: Global,
    kind: LeafType,
    check: Check,
) -> Result<DeclaredVariable<'a>, AllocError> {
    declared(alloc, leaf(alloc, kind), check)
}

// An array from 5 to 5, both evaluated.
fn array<'a>(alloc: Global) -> Result<DeclaredVariable<'a>, AllocError> {
    let bounds = Bounds {
        lower: Extent::Evaluated(0),
        upper: Extent::Evaluated(1),
    };
    let mut only = leaf(alloc, LeafType::Fixed(31));
    only.bounds.push(bounds)?;
    let mut variable = declared(alloc, only, Check::None)?;
    variable.evaluations.push(Evaluation {
        value: Number::Constant(5),
        check: Check::Bounds(bounds),
    })?;
    Ok(variable)
}

// An area of 2 MiB.
fn area<'a>(alloc: Global) -> Result<DeclaredVariable<'a>, AllocError> {
    let kind = LeafType::Area(Extent::Constant(1 << 21));
    let mut variable = scalar(alloc, kind, Check::Size)?;
    variable.evaluations = Vec::new(alloc);
    Ok(variable)
}

// A number of 15 bits, and a text whose length it keeps.
fn referring<'a>(alloc: Global) -> Result<DeclaredVariable<'a>, AllocError> {
    let mut variable = scalar(alloc, LeafType::Fixed(15), Check::Length)?;
    variable
        .leaves
        .push(leaf(alloc, LeafType::Character(Extent::Refer)))?;
    variable.refer = Some(ReferMember {
        member: 0,
        amount: Extent::Evaluated(0),
    });
    Ok(variable)
}

fn program<'a>(alloc: Global) -> Result<Typed<'a>, AllocError> {
    let evaluated = Extent::Evaluated(0);
    let mut variables = Vec::new(alloc);
    variables.push(scalar(alloc, LeafType::Character(evaluated), Check::Length)?)?;
    variables.push(scalar(alloc, LeafType::Area(evaluated), Check::Size)?)?;
    variables.push(array(alloc)?)?;
    variables.push(area(alloc)?)?;
    variables.push(referring(alloc)?)?;
    let mut all = Vec::new(alloc);
    all.push(variables)?;
    Ok(Typed {
        variables: all,
        procedures: Vec::new(alloc),
    })
}

// The words of the code of a variable's extents.
fn words(alloc: Global, known: &Known, index: usize) -> Result<usize, AllocError> {
    let environment = Environment::new(known, &[]);
    let variable = Variable {
        class: StorageClass::Controlled,
        block: 0,
        level: 0,
        index,
    };
    let mut code = Code::new(alloc);
    extents_code(alloc, &mut code, &environment, none_taken(), variable)?;
    Ok(code.size())
}

#[test]
fn extents_are_evaluated_in_their_words(rt: HostRuntime) -> Result<(), Fail> {
    let typed = program(rt.alloc())?;
    let known = Known::new(rt.alloc(), &typed)?;
    assert_eq!(rt; words(rt.alloc(), &known, 0)?, 16);
    assert_eq!(rt; words(rt.alloc(), &known, 1)?, 15);
    assert_eq!(rt; words(rt.alloc(), &known, 2)?, 18);
    assert_eq!(rt; words(rt.alloc(), &known, 3)?, 11);
    assert_eq!(rt; words(rt.alloc(), &known, 4)?, 10);
    Ok(())
}

#[test]
fn amounts_are_checked_in_their_words(rt: HostRuntime) -> Result<(), Fail> {
    let alloc = rt.alloc();
    let mut code = Code::new(alloc);
    refer_amount(&mut code, none_taken(), &area(alloc)?)?;
    assert_eq!(rt; code.size(), 1);
    refer_amount(&mut code, none_taken(), &referring(alloc)?)?;
    assert_eq!(rt; code.size(), 8);
    Ok(())
}

#[test]
fn initial_values_are_named_in_their_words(rt: HostRuntime) -> Result<(), Fail> {
    let alloc = rt.alloc();
    let five = InitialItem {
        repetition: 2,
        value: InitialValue::Number(5),
    };
    let mut code = Code::new(alloc);
    initial_code(alloc, &mut code, a2(), &array(alloc)?)?;
    assert_eq!(rt; code.size(), 1);
    let mut only = leaf(alloc, LeafType::Fixed(31));
    only.initial.push(&five)?;
    let variable = declared(alloc, only, Check::None)?;
    initial_code(alloc, &mut code, a2(), &variable)?;
    assert_eq!(rt; code.size(), 3);
    Ok(())
}
