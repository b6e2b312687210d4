// What ALLOCATE and FREE come to, in the words that were worked out by hand; with a refused allocation there is no code.

use crate::allocation::{act_code, allocations_code};
use crate::amounts::{amounts_code, based_number};
use crate::freeing::freeings_code;
use crate::placing::{area_or_heap, placing_code};
use crate::words::{behind_amounts, both_kept, extent_waiting, number_waiting};
use pli_frames::taken::none_taken;
use pli_typing::statement::Typed;
use pli_typing::typed::{
    Allocation, Check, DeclaredVariable, Evaluation, Extent, Freeing, Leaf, LeafType,
    LocatorTarget, Number, Numbers, Part, Pointer, Reference, StorageClass, Variable,
};
use rv_address::environment::Environment;
use rv_address::known::Known;
use rv_address::names::NumberPlace;
use rv_assembly::code::Code;
use rv_assembly::registers::{a0, a1, a2};
use rv_operation::pointer::waiting_place;
use std::alloc::{AllocError, Global};
use std::test::Fail;

fn declared<'a>(
    alloc: Global,
    class: StorageClass,
    kind: LeafType,
) -> Result<DeclaredVariable<'a>, AllocError> {
    let mut leaves = Vec::new(alloc);
    leaves.push(Leaf {
        kind,
        bounds: Vec::new(alloc),
        initial: Vec::new(alloc),
    })?;
    Ok(DeclaredVariable {
        class,
        members: Vec::new(alloc),
        leaves,
        refer: None,
        evaluations: Vec::new(alloc),
    })
}

// A text whose length is evaluated.
fn evaluated<'a>(alloc: Global) -> Result<DeclaredVariable<'a>, AllocError> {
    let text = LeafType::Character(Extent::Evaluated(0));
    let mut variable = declared(alloc, StorageClass::Controlled, text)?;
    variable.evaluations.push(Evaluation {
        value: Number::Constant(5),
        check: Check::Length,
    })?;
    Ok(variable)
}

// A BASED number, a name, an offset, an area, and a CONTROLLED text.
fn program<'a>(alloc: Global) -> Result<Typed<'a>, AllocError> {
    let mut variables = Vec::new(alloc);
    let automatic = StorageClass::Automatic;
    let area = LeafType::Area(Extent::Constant(100));
    variables.push(declared(alloc, StorageClass::Based, LeafType::Fixed(31))?)?;
    variables.push(declared(alloc, automatic, LeafType::Pointer)?)?;
    variables.push(declared(alloc, automatic, LeafType::Offset(None))?)?;
    variables.push(declared(alloc, automatic, area)?)?;
    variables.push(evaluated(alloc)?)?;
    let mut all = Vec::new(alloc);
    all.push(variables)?;
    Ok(Typed {
        variables: all,
        procedures: Vec::new(alloc),
    })
}

fn named(class: StorageClass, index: usize) -> Variable {
    Variable {
        class,
        block: 0,
        level: 0,
        index,
    }
}

fn plain<'a>(index: usize) -> Reference<'a> {
    Reference::Plain {
        variable: named(StorageClass::Automatic, index),
        part: Part { first: 0, count: 1 },
        subscripts: Numbers::End,
    }
}

fn area() -> Variable {
    named(StorageClass::Automatic, 3)
}

// The words of one that is made on line 7.
fn made<'a>(alloc: Global, known: &Known, allocation: Allocation<'a>) -> Result<usize, AllocError> {
    let environment = Environment::new(known, &[]);
    let mut all = Vec::new(alloc);
    all.push(allocation)?;
    let mut code = Code::new(alloc);
    allocations_code(alloc, &mut code, &environment, none_taken(), 7, &all)?;
    Ok(code.size())
}

#[test]
fn generations_are_made_in_their_words(rt: HostRuntime) -> Result<(), Fail> {
    let typed = program(rt.alloc())?;
    let known = Known::new(rt.alloc(), &typed)?;
    let in_heap = Allocation::Based {
        variable: named(StorageClass::Based, 0),
        area: None,
        target: LocatorTarget::Pointer(plain(1)),
    };
    assert_eq!(rt; made(rt.alloc(), &known, in_heap)?, 15);
    let in_area = Allocation::Based {
        variable: named(StorageClass::Based, 0),
        area: Some(area()),
        target: LocatorTarget::Offset {
            target: plain(2),
            area: area(),
        },
    };
    assert_eq!(rt; made(rt.alloc(), &known, in_area)?, 33);
    let controlled = Allocation::Controlled(named(StorageClass::Controlled, 4));
    assert_eq!(rt; made(rt.alloc(), &known, controlled)?, 17);
    Ok(())
}

// The words of one that ends.
fn freed<'a>(alloc: Global, known: &Known, freeing: Freeing<'a>) -> Result<usize, AllocError> {
    let environment = Environment::new(known, &[]);
    let mut all = Vec::new(alloc);
    all.push(freeing)?;
    let mut code = Code::new(alloc);
    freeings_code(alloc, &mut code, &environment, none_taken(), &all)?;
    Ok(code.size())
}

#[test]
fn generations_end_in_their_words(rt: HostRuntime) -> Result<(), Fail> {
    let typed = program(rt.alloc())?;
    let known = Known::new(rt.alloc(), &typed)?;
    let located = Freeing::Based {
        variable: named(StorageClass::Based, 0),
        locator: Pointer::Null,
        area: None,
    };
    assert_eq!(rt; freed(rt.alloc(), &known, located)?, 13);
    let controlled = Freeing::Controlled(named(StorageClass::Controlled, 4));
    assert_eq!(rt; freed(rt.alloc(), &known, controlled)?, 3);
    Ok(())
}

#[test]
fn amounts_wait_in_their_words(rt: HostRuntime) -> Result<(), Fail> {
    let alloc = rt.alloc();
    let typed = program(alloc)?;
    let known = Known::new(alloc, &typed)?;
    let environment = Environment::new(&known, &[]);
    let based = named(StorageClass::Based, 0);
    let mut code = Code::new(alloc);
    act_code(&mut code, 7)?;
    amounts_code(&mut code, &environment, none_taken(), 7, based)?;
    both_kept(&mut code, none_taken())?;
    number_waiting(&mut code, a1(), none_taken())?;
    extent_waiting(&mut code, a2(), none_taken())?;
    area_or_heap(&mut code, &environment, a0(), none_taken(), None)?;
    let name = waiting_place(&environment, behind_amounts(none_taken())?)?;
    placing_code(
        alloc,
        &mut code,
        &environment,
        none_taken(),
        based,
        None,
        name,
    )?;
    assert_eq!(rt; code.size(), 24);
    assert_eq!(rt; based_number(&environment, based)?, NumberPlace::Known(0));
    assert_eq!(rt; behind_amounts(none_taken())?.words, 2);
    Ok(())
}
