// Each kind of data once, with the bytes worked out by hand.

use crate::formats::formats_datum;
use crate::initial::initial_datum;
use crate::places::{bounds_datum, size_datum};
use crate::shape::shape_datum;
use pli_language::declaration::{InitialItem, InitialValue};
use pli_language::expr::Place;
use pli_language::stmt::{Format, Formats};
use pli_typing::typed::{
    Bounds, DeclaredVariable, Extent, Leaf, LeafType, Member, Part, StorageClass,
};
use rv_assembly::item::Datum;
use std::alloc::{AllocError, Global};
use std::test::Fail;

fn bytes_in(datum: &Datum) -> &[u8] {
    match datum {
        Datum::ConstantBytes(bytes) => bytes.as_slice(),
        _ => &[],
    }
}

fn leaves_in(datum: &Option<Datum>) -> usize {
    match datum {
        Some(Datum::InitialValues(leaves)) => leaves.len(),
        _ => 0,
    }
}

fn bounds(upper: Extent) -> Bounds {
    Bounds {
        lower: Extent::Constant(1),
        upper,
    }
}

// A text of n characters, and an array of n numbers of which the first two are 5.
fn leaves<'a>(alloc: Global, five: &'a InitialItem) -> Result<Vec<Leaf<'a>>, AllocError> {
    let mut dimensions = Vec::new(alloc);
    dimensions.push(bounds(Extent::Evaluated(0)))?;
    let mut initial = Vec::new(alloc);
    initial.push(five)?;
    let mut leaves = Vec::new(alloc);
    leaves.push(Leaf {
        kind: LeafType::Character(Extent::Evaluated(0)),
        bounds: Vec::new(alloc),
        initial: Vec::new(alloc),
    })?;
    leaves.push(Leaf {
        kind: LeafType::Fixed(15),
        bounds: dimensions,
        initial,
    })?;
    Ok(leaves)
}

fn variable<'a>(alloc: Global, five: &'a InitialItem) -> Result<DeclaredVariable<'a>, AllocError> {
    Ok(DeclaredVariable {
        class: StorageClass::Controlled,
        members: Vec::new(alloc),
        leaves: leaves(alloc, five)?,
        refer: None,
        evaluations: Vec::new(alloc),
    })
}

fn five() -> InitialItem {
    InitialItem {
        repetition: 2,
        value: InitialValue::Number(5),
    }
}

#[test]
fn places_of_extents(rt: HostRuntime) -> Result<(), Fail> {
    let five = five();
    let variable = variable(rt.alloc(), &five)?;
    let sizes = size_datum(rt.alloc(), Extent::Evaluated(0), &variable.leaves)?;
    assert_eq!(rt;
        bytes_in(&sizes),
        [1, 0, 0, 0, 0, 0, 0, 0, 255, 0, 0, 0].as_slice()
    );
    let shared = bounds_datum(rt.alloc(), bounds(Extent::Evaluated(0)), &variable.leaves)?;
    assert_eq!(rt;
        bytes_in(&shared),
        [1, 0, 0, 0, 1, 0, 0, 0, 0, 0, 0, 0].as_slice()
    );
    Ok(())
}

#[test]
fn values_of_leaves(rt: HostRuntime) -> Result<(), Fail> {
    let five = five();
    let variable = variable(rt.alloc(), &five)?;
    let datum = initial_datum(rt.alloc(), &variable)?;
    assert_eq!(rt; leaves_in(&datum), 1);
    Ok(())
}

// (2)(F(3)), A
fn formats(alloc: Global) -> Result<Formats, AllocError> {
    let place = Place { line: 1, column: 1 };
    let inside = Formats::More {
        place,
        repetition: 1,
        first: Format::Fixed { width: 3 },
        rest: Box::new(alloc, Formats::End)?,
    };
    let behind = Formats::More {
        place,
        repetition: 1,
        first: Format::Text { width: None },
        rest: Box::new(alloc, Formats::End)?,
    };
    Ok(Formats::More {
        place,
        repetition: 2,
        first: Format::List(Box::new(alloc, inside)?),
        rest: Box::new(alloc, behind)?,
    })
}

#[test]
fn items_of_lists(rt: HostRuntime) -> Result<(), Fail> {
    let datum = formats_datum(rt.alloc(), &formats(rt.alloc())?)?;
    let words = [2, 6, 2, 1, 1, 1, 3, 2, 1, 0];
    assert_eq!(rt; bytes_in(&datum).len(), 40);
    for (at, word) in words.iter().enumerate() {
        assert!(rt; bytes_in(&datum).get(4 * at) == Some(word));
    }
    Ok(())
}

fn member(depth: usize, dimensions: usize) -> Member {
    Member { depth, dimensions }
}

// 1 A(..), 2 B, 3 C(..), 2 D; the part is A behind a subscript.
#[test]
fn members_of_parts(rt: HostRuntime) -> Result<(), Fail> {
    let members = [member(0, 1), member(1, 0), member(2, 1), member(1, 0)];
    let part = Part { first: 0, count: 2 };
    let datum = shape_datum(rt.alloc(), members.as_slice(), part, 1)?;
    let words = [1, 0, 2, 0, 0, 1, 0, 1, 0, 0, 0, 0, 1];
    assert_eq!(rt; bytes_in(&datum).len(), 52);
    for (at, word) in words.iter().enumerate() {
        assert!(rt; bytes_in(&datum).get(4 * at) == Some(word));
    }
    Ok(())
}
