// A plan of a small program, worked out by hand; with a refused allocation there is none.

use crate::frame::{extents_take, fixed_size, variables_take};
use crate::plan::plan;
use crate::size::{constant_size, frame_bytes, has_constant_size};
use crate::taken::{Taken, none_taken};
use crate::temporaries::{number_takes, stored_takes};
use pli_typing::statement::{Block, BlockHead, BlockKind, Procedure, Stmt, Stmts, Typed};
use pli_typing::typed::{
    ArithmeticOperator, Bounds, Check, DeclaredVariable, Evaluation, Extent, Leaf, LeafType,
    Number, Numbers, Part, Pointer, Reference, StorageClass, Stored, Variable,
};
use std::alloc::{AllocError, Global};
use std::test::Fail;

fn scalar<'a>(
    alloc: Global,
    class: StorageClass,
    kind: LeafType,
) -> Result<DeclaredVariable<'a>, AllocError> {
    let mut leaves = Vec::new(alloc);
    leaves.push(Leaf {
        kind,
        bounds: Vec::new(alloc),
        initial: Vec::new(alloc),
    })?;
    Ok(DeclaredVariable {
        class,
        members: Vec::new(alloc),
        leaves,
        refer: None,
        evaluations: Vec::new(alloc),
    })
}

// (1:3) CHARACTER(20)
fn texts<'a>(alloc: Global) -> Result<DeclaredVariable<'a>, AllocError> {
    let mut bounds = Vec::new(alloc);
    bounds.push(Bounds {
        lower: Extent::Constant(1),
        upper: Extent::Constant(3),
    })?;
    let mut leaves = Vec::new(alloc);
    leaves.push(Leaf {
        kind: LeafType::Character(Extent::Constant(20)),
        bounds,
        initial: Vec::new(alloc),
    })?;
    Ok(DeclaredVariable {
        class: StorageClass::Automatic,
        members: Vec::new(alloc),
        leaves,
        refer: None,
        evaluations: Vec::new(alloc),
    })
}

// A parameter, a number, three texts and an area.
fn variables<'a>(alloc: Global) -> Result<Vec<DeclaredVariable<'a>>, AllocError> {
    let mut all = Vec::new(alloc);
    all.push(scalar(alloc, StorageClass::Parameter, LeafType::Fixed(31))?)?;
    all.push(scalar(alloc, StorageClass::Automatic, LeafType::Fixed(31))?)?;
    all.push(texts(alloc)?)?;
    let size = LeafType::Area(Extent::Constant(100));
    all.push(scalar(alloc, StorageClass::Automatic, size)?)?;
    Ok(all)
}

fn head(kind: BlockKind, number: usize, level: usize) -> BlockHead {
    BlockHead {
        kind,
        number,
        level,
        line: 1,
    }
}

fn sum<'a>(alloc: Global, left: Number<'a>, right: Number<'a>) -> Result<Number<'a>, AllocError> {
    Ok(Number::Calculated {
        operator: ArithmeticOperator::Sum,
        left: Box::new(alloc, left)?,
        right: Box::new(alloc, right)?,
    })
}

// So many numbers wait while the last constant is loaded.
fn waiting<'a>(alloc: Global, count: usize) -> Result<Number<'a>, AllocError> {
    let mut number = Number::Constant(1);
    for _ in 0..count {
        number = sum(alloc, Number::Constant(1), number)?;
    }
    Ok(number)
}

// The number becomes (1 + 2) + (3 + 4).
fn assignment<'a>(alloc: Global) -> Result<Stmt<'a>, AllocError> {
    let left = sum(alloc, Number::Constant(1), Number::Constant(2))?;
    let right = sum(alloc, Number::Constant(3), Number::Constant(4))?;
    Ok(Stmt::Assign {
        target: Reference::Plain {
            variable: Variable {
                class: StorageClass::Automatic,
                block: 0,
                level: 0,
                index: 1,
            },
            part: Part { first: 0, count: 1 },
            subscripts: Numbers::End,
        },
        source: Stored::Number {
            precision: 31,
            value: sum(alloc, left, right)?,
        },
        line: 2,
    })
}

fn only<'a>(alloc: Global, stmt: Stmt<'a>) -> Result<Stmts<'a>, AllocError> {
    Ok(Stmts::More {
        labels: &[],
        first: Box::new(alloc, stmt)?,
        rest: Box::new(alloc, Stmts::End { labels: &[] })?,
    })
}

// A procedure with a begin block, in which the assignment stands.
fn program<'a>(alloc: Global) -> Result<Typed<'a>, AllocError> {
    let mut all = Vec::new(alloc);
    all.push(variables(alloc)?)?;
    let mut parameters = Vec::new(alloc);
    parameters.push(0)?;
    let begin = Stmt::Begin {
        head: head(BlockKind::Begin, 1, 1),
        body: only(alloc, assignment(alloc)?)?,
    };
    let mut procedures = Vec::new(alloc);
    procedures.push(Procedure {
        block: Block {
            head: head(BlockKind::Procedure, 0, 0),
            body: only(alloc, begin)?,
        },
        parameters,
        result: None,
    })?;
    Ok(Typed {
        variables: all,
        procedures,
    })
}

fn taken(registers: u8, words: u32) -> Taken {
    Taken { registers, words }
}

#[test]
fn frames_lie_as_worked_out(rt: HostRuntime) -> Result<(), Fail> {
    let typed = program(rt.alloc())?;
    let frames = plan(rt.alloc(), &typed)?;
    assert_eq!(rt; frames.len(), 2);
    if let [outer, inner] = frames.as_slice() {
        assert!(rt; outer.places.as_slice() == [160u32, 160, 192, 272].as_slice());
        assert!(rt; outer.end == 400 && outer.words == 0 && outer.parameters == 1);
        assert!(rt; inner.places.is_empty() && inner.end == 160 && inner.words == 0);
    }
    Ok(())
}

#[test]
fn sizes_are_as_worked_out(rt: HostRuntime) -> Result<(), Fail> {
    let area = scalar(
        rt.alloc(),
        StorageClass::Automatic,
        LeafType::Area(Extent::Constant(100)),
    )?;
    assert!(rt;
        has_constant_size(&area) && constant_size(&area) == 112 && frame_bytes(&area) == 128
    );
    assert_eq!(rt; extents_take(none_taken(), &area)?, taken(0, 4));
    assert_eq!(rt; fixed_size(2, 3)?, 160);
    Ok(())
}

#[test]
fn seven_numbers_wait_in_registers(rt: HostRuntime) -> Result<(), Fail> {
    let alloc = rt.alloc();
    assert_eq!(rt;
        number_takes(none_taken(), &waiting(alloc, 7)?)?,
        taken(7, 0)
    );
    assert_eq!(rt;
        number_takes(none_taken(), &waiting(alloc, 8)?)?,
        taken(7, 1)
    );
    assert_eq!(rt;
        number_takes(taken(6, 4), &waiting(alloc, 3)?)?,
        taken(7, 6)
    );
    let null = Stored::Pointer(Pointer::Null);
    assert_eq!(rt; stored_takes(taken(2, 1), &null)?, taken(2, 5));
    Ok(())
}

#[test]
fn extents_wait_behind_their_words(rt: HostRuntime) -> Result<(), Fail> {
    let alloc = rt.alloc();
    let text = LeafType::Character(Extent::Evaluated(0));
    let mut evaluated = scalar(alloc, StorageClass::Automatic, text)?;
    evaluated.evaluations.push(Evaluation {
        value: waiting(alloc, 8)?,
        check: Check::Length,
    })?;
    let mut all = Vec::new(alloc);
    all.push(evaluated)?;
    all.push(scalar(alloc, StorageClass::Automatic, LeafType::Fixed(31))?)?;
    assert_eq!(rt; variables_take(&all)?, taken(7, 5));
    Ok(())
}
