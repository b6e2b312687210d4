// Variables of each class in a small program, and the words that reach them, worked out by hand; with a refused allocation there
// is no code.

use crate::element::{address_of, reached};
use crate::environment::Environment;
use crate::known::Known;
use crate::taken::save;
use crate::transfer::{in_own_frame, loaded, name_copied, stored, text_pushed, text_stored};
use pli_frames::taken::none_taken;
use pli_frames::temporaries::behind_locator;
use pli_typing::statement::{Block, BlockHead, BlockKind, Procedure, Stmts, Typed};
use pli_typing::typed::{
    Bounds, DeclaredVariable, Extent, Leaf, LeafType, Number, Numbers, Part, Reference,
    StorageClass, Variable,
};
use rv_assembly::code::Code;
use rv_assembly::registers;
use std::alloc::{AllocError, Global};
use std::test::Fail;

fn variable<'a>(
    alloc: Global,
    class: StorageClass,
    kind: LeafType,
    bounds: Vec<Bounds>,
) -> Result<DeclaredVariable<'a>, AllocError> {
    let mut leaves = Vec::new(alloc);
    leaves.push(Leaf {
        kind,
        bounds,
        initial: Vec::new(alloc),
    })?;
    Ok(DeclaredVariable {
        class,
        members: Vec::new(alloc),
        leaves,
        refer: None,
        evaluations: Vec::new(alloc),
    })
}

// A parameter, a number of each other class, and three texts.
fn variables<'a>(alloc: Global) -> Result<Vec<DeclaredVariable<'a>>, AllocError> {
    let number = LeafType::Fixed(31);
    let mut all = Vec::new(alloc);
    all.push(variable(alloc, StorageClass::Parameter, number, Vec::new(alloc))?)?;
    all.push(variable(alloc, StorageClass::Automatic, number, Vec::new(alloc))?)?;
    all.push(variable(alloc, StorageClass::Static, number, Vec::new(alloc))?)?;
    all.push(variable(alloc, StorageClass::Based, number, Vec::new(alloc))?)?;
    all.push(variable(alloc, StorageClass::Controlled, number, Vec::new(alloc))?)?;
    let mut bounds = Vec::new(alloc);
    bounds.push(Bounds {
        lower: Extent::Constant(1),
        upper: Extent::Constant(3),
    })?;
    let text = LeafType::Character(Extent::Constant(20));
    all.push(variable(alloc, StorageClass::Automatic, text, bounds)?)?;
    Ok(all)
}

fn program<'a>(alloc: Global) -> Result<Typed<'a>, AllocError> {
    let mut all = Vec::new(alloc);
    all.push(variables(alloc)?)?;
    let mut parameters = Vec::new(alloc);
    parameters.push(0)?;
    let mut procedures = Vec::new(alloc);
    procedures.push(Procedure {
        block: Block {
            head: BlockHead {
                kind: BlockKind::Procedure,
                number: 0,
                level: 0,
                line: 1,
            },
            body: Stmts::End { labels: &[] },
        },
        parameters,
        result: None,
    })?;
    Ok(Typed {
        variables: all,
        procedures,
    })
}

fn named(class: StorageClass, index: usize) -> Variable {
    Variable {
        class,
        block: 0,
        level: 0,
        index,
    }
}

// The words that reach a variable, with a subscript that waits or without one.
fn words(
    alloc: Global,
    known: &Known,
    at: Variable,
    subscripts: &Numbers,
    given: usize,
) -> Result<usize, AllocError> {
    let environment = Environment::new(known, &[]);
    let mut code = Code::new(alloc);
    let behind = behind_locator(at, none_taken())?;
    let part = Part { first: 0, count: 1 };
    reached(
        &mut code,
        &environment,
        none_taken(),
        behind,
        at,
        part,
        subscripts,
    )?;
    let address = address_of(&environment, at, part, given)?;
    loaded(&mut code, LeafType::Fixed(31), registers::a0(), address)?;
    Ok(code.size())
}

#[test]
fn variables_are_reached_in_their_words(rt: HostRuntime) -> Result<(), Fail> {
    let typed = program(rt.alloc())?;
    let known = Known::new(rt.alloc(), &typed)?;
    assert_eq!(rt; known.table().len(), 3);
    let (alloc, none) = (rt.alloc(), Numbers::End);
    let parameter = named(StorageClass::Parameter, 0);
    assert_eq!(rt; words(alloc, &known, parameter, &none, 0)?, 17);
    let automatic = named(StorageClass::Automatic, 1);
    assert_eq!(rt; words(alloc, &known, automatic, &none, 0)?, 1);
    let standing = named(StorageClass::Static, 2);
    assert_eq!(rt; words(alloc, &known, standing, &none, 0)?, 6);
    let based = named(StorageClass::Based, 3);
    assert_eq!(rt; words(alloc, &known, based, &none, 0)?, 16);
    let controlled = named(StorageClass::Controlled, 4);
    assert_eq!(rt; words(alloc, &known, controlled, &none, 0)?, 26);
    Ok(())
}

fn subscript<'a>(alloc: Global, first: Number<'a>) -> Result<Numbers<'a>, AllocError> {
    Ok(Numbers::More {
        first: Box::new(alloc, first)?,
        rest: Box::new(alloc, Numbers::End)?,
    })
}

fn scalar<'a>(alloc: Global, variable: Variable) -> Result<Number<'a>, AllocError> {
    let reference = Reference::Plain {
        variable,
        part: Part { first: 0, count: 1 },
        subscripts: Numbers::End,
    };
    Ok(Number::In(Box::new(alloc, reference)?))
}

// A subscript that waits, a constant of two words, and variables of one word and of six, before ten words.
#[test]
fn elements_are_reached_in_their_words(rt: HostRuntime) -> Result<(), Fail> {
    let typed = program(rt.alloc())?;
    let known = Known::new(rt.alloc(), &typed)?;
    let (alloc, array) = (rt.alloc(), named(StorageClass::Automatic, 5));
    let waiting = subscript(alloc, Number::OnCode)?;
    assert_eq!(rt; words(alloc, &known, array, &waiting, 1)?, 11);
    let constant = subscript(alloc, Number::Constant(5000))?;
    assert_eq!(rt; words(alloc, &known, array, &constant, 1)?, 12);
    let near = subscript(alloc, scalar(alloc, named(StorageClass::Automatic, 1))?)?;
    assert_eq!(rt; words(alloc, &known, array, &near, 1)?, 11);
    let standing = subscript(alloc, scalar(alloc, named(StorageClass::Static, 2))?)?;
    assert_eq!(rt; words(alloc, &known, array, &standing, 1)?, 16);
    Ok(())
}

#[test]
fn values_are_moved_in_their_words(rt: HostRuntime) -> Result<(), Fail> {
    let mut code = Code::new(rt.alloc());
    let address = in_own_frame(-16);
    let text = LeafType::Varying(Extent::Constant(20));
    save(&mut code, registers::a0(), none_taken())?;
    stored(&mut code, LeafType::Bit, registers::a0(), address)?;
    name_copied(&mut code, address, in_own_frame(-32))?;
    text_pushed(&mut code, text, address)?;
    text_stored(&mut code, text, address)?;
    assert_eq!(rt; code.size(), 26);
    Ok(())
}
