// What stores values of each kind, in the words that were worked out by hand; with a refused allocation there is no code.

use crate::aggregate::{aggregate_code, elements_code};
use crate::area::{area_code, emptied_code};
use crate::record::{record_code, record_given};
use crate::scalar::{assignment_code, name_stored, stored_into, top_stored, word_stored};
use pli_frames::forms::behind_record;
use pli_frames::taken::none_taken;
use pli_typing::statement::Typed;
use pli_typing::typed::{
    Bit, Bounds, DeclaredVariable, Extent, Leaf, LeafType, Number, Numbers, Offset, Part, Pointer,
    Reference, StorageClass, Stored, Text, Variable,
};
use rv_address::environment::Environment;
use rv_address::known::Known;
use rv_assembly::code::Code;
use std::alloc::{AllocError, Global};
use std::test::Fail;

fn declared<'a>(
    alloc: Global,
    class: StorageClass,
    kind: LeafType,
    bounds: Vec<Bounds>,
) -> Result<DeclaredVariable<'a>, AllocError> {
    let mut leaves = Vec::new(alloc);
    leaves.push(Leaf {
        kind,
        bounds,
        initial: Vec::new(alloc),
    })?;
    Ok(DeclaredVariable {
        class,
        members: Vec::new(alloc),
        leaves,
        refer: None,
        evaluations: Vec::new(alloc),
    })
}

fn scalar<'a>(alloc: Global, kind: LeafType) -> Result<DeclaredVariable<'a>, AllocError> {
    declared(alloc, StorageClass::Automatic, kind, Vec::new(alloc))
}

// Three numbers.
fn array<'a>(alloc: Global, class: StorageClass) -> Result<DeclaredVariable<'a>, AllocError> {
    let mut bounds = Vec::new(alloc);
    bounds.push(Bounds {
        lower: Extent::Constant(1),
        upper: Extent::Constant(3),
    })?;
    declared(alloc, class, LeafType::Fixed(31), bounds)
}

// A number, an array, a text, a name, a bit, an offset, an area and a BASED array.
fn program<'a>(alloc: Global) -> Result<Typed<'a>, AllocError> {
    let mut variables = Vec::new(alloc);
    let text = LeafType::Character(Extent::Constant(20));
    let area = LeafType::Area(Extent::Constant(100));
    variables.push(scalar(alloc, LeafType::Fixed(31))?)?;
    variables.push(array(alloc, StorageClass::Automatic)?)?;
    variables.push(scalar(alloc, text)?)?;
    variables.push(scalar(alloc, LeafType::Pointer)?)?;
    variables.push(scalar(alloc, LeafType::Bit)?)?;
    variables.push(scalar(alloc, LeafType::Offset(None))?)?;
    variables.push(scalar(alloc, area)?)?;
    variables.push(array(alloc, StorageClass::Based)?)?;
    let mut all = Vec::new(alloc);
    all.push(variables)?;
    Ok(Typed {
        variables: all,
        procedures: Vec::new(alloc),
    })
}

fn named(class: StorageClass, index: usize) -> Variable {
    Variable {
        class,
        block: 0,
        level: 0,
        index,
    }
}

fn plain<'a>(index: usize) -> Reference<'a> {
    Reference::Plain {
        variable: named(StorageClass::Automatic, index),
        part: Part { first: 0, count: 1 },
        subscripts: Numbers::End,
    }
}

// The second element of the array.
fn element<'a>(alloc: Global) -> Result<Reference<'a>, AllocError> {
    Ok(Reference::Plain {
        variable: named(StorageClass::Automatic, 1),
        part: Part { first: 0, count: 1 },
        subscripts: Numbers::More {
            first: Box::new(alloc, Number::Constant(2))?,
            rest: Box::new(alloc, Numbers::End)?,
        },
    })
}

// The BASED array, where NULL locates it.
fn based<'a>(alloc: Global) -> Result<Reference<'a>, AllocError> {
    Ok(Reference::Located {
        locator: Box::new(alloc, Pointer::Null)?,
        variable: named(StorageClass::Based, 7),
        part: Part { first: 0, count: 1 },
        subscripts: Numbers::End,
    })
}

fn seven<'a>() -> Stored<'a> {
    Stored::Number {
        precision: 31,
        value: Number::Constant(7),
    }
}

fn assigned(
    alloc: Global,
    known: &Known,
    target: &Reference,
    source: &Stored,
) -> Result<usize, AllocError> {
    let environment = Environment::new(known, &[]);
    let mut code = Code::new(alloc);
    assignment_code(alloc, &mut code, &environment, none_taken(), target, source)?;
    Ok(code.size())
}

#[test]
fn values_are_assigned_in_their_words(rt: HostRuntime) -> Result<(), Fail> {
    let typed = program(rt.alloc())?;
    let known = Known::new(rt.alloc(), &typed)?;
    let alloc = rt.alloc();
    let text = Stored::Text(Text::Constant(b"ab"));
    let bit = Stored::Bit(Bit::Constant(true));
    assert_eq!(rt; assigned(alloc, &known, &plain(0), &seven())?, 2);
    assert_eq!(rt; assigned(alloc, &known, &element(alloc)?, &seven())?, 11);
    assert_eq!(rt; assigned(alloc, &known, &plain(2), &text)?, 14);
    assert_eq!(rt;
        assigned(alloc, &known, &plain(3), &Stored::Pointer(Pointer::Null))?,
        4
    );
    assert_eq!(rt; assigned(alloc, &known, &plain(4), &bit)?, 2);
    assert_eq!(rt;
        assigned(alloc, &known, &plain(5), &Stored::Offset(Offset::Null))?,
        2
    );
    Ok(())
}

// What stores a number, a text and a name that stand ready, and a number once more by its kind.
fn ready_stored(alloc: Global, known: &Known) -> Result<usize, AllocError> {
    let environment = Environment::new(known, &[]);
    let mut code = Code::new(alloc);
    let none = none_taken();
    word_stored(alloc, &mut code, &environment, none, &plain(0))?;
    top_stored(alloc, &mut code, &environment, none, &plain(2))?;
    name_stored(alloc, &mut code, &environment, none, &plain(3))?;
    stored_into(alloc, &mut code, &environment, none, &plain(0), &seven())?;
    Ok(code.size())
}

#[test]
fn values_are_stored_in_their_words(rt: HostRuntime) -> Result<(), Fail> {
    let typed = program(rt.alloc())?;
    let known = Known::new(rt.alloc(), &typed)?;
    assert_eq!(rt; ready_stored(rt.alloc(), &known)?, 18);
    Ok(())
}

fn recorded(alloc: Global, known: &Known, part: &Reference) -> Result<usize, AllocError> {
    let environment = Environment::new(known, &[]);
    let mut code = Code::new(alloc);
    record_code(alloc, &mut code, &environment, none_taken(), part)?;
    record_given(&mut code, &environment, none_taken())?;
    Ok(code.size())
}

#[test]
fn records_have_their_words(rt: HostRuntime) -> Result<(), Fail> {
    let typed = program(rt.alloc())?;
    let known = Known::new(rt.alloc(), &typed)?;
    let alloc = rt.alloc();
    assert_eq!(rt; recorded(alloc, &known, &plain(1))?, 9);
    assert_eq!(rt; recorded(alloc, &known, &element(alloc)?)?, 16);
    assert_eq!(rt; recorded(alloc, &known, &based(alloc)?)?, 25);
    assert_eq!(rt; behind_record(&based(alloc)?, none_taken())?.words, 9);
    Ok(())
}

fn aggregates(alloc: Global, known: &Known) -> Result<usize, AllocError> {
    let environment = Environment::new(known, &[]);
    let mut code = Code::new(alloc);
    let none = none_taken();
    elements_code(alloc, &mut code, &environment, none, &plain(1), &seven())?;
    aggregate_code(
        alloc,
        &mut code,
        &environment,
        none,
        &plain(1),
        &based(alloc)?,
    )?;
    Ok(code.size())
}

fn areas(alloc: Global, known: &Known) -> Result<usize, AllocError> {
    let environment = Environment::new(known, &[]);
    let mut code = Code::new(alloc);
    let area = named(StorageClass::Automatic, 6);
    area_code(&mut code, &environment, none_taken(), area, area)?;
    emptied_code(&mut code, &environment, none_taken(), area)?;
    Ok(code.size())
}

#[test]
fn aggregates_and_areas_are_assigned_in_their_words(rt: HostRuntime) -> Result<(), Fail> {
    let typed = program(rt.alloc())?;
    let known = Known::new(rt.alloc(), &typed)?;
    assert_eq!(rt; aggregates(rt.alloc(), &known)?, 64);
    assert_eq!(rt; areas(rt.alloc(), &known)?, 15);
    Ok(())
}
