// The blocks of a small program, and the words of its start, worked out by hand; with a refused allocation there are none.

use crate::blocks::blocks_of;
use crate::raise::raise_code;
use crate::start::start_code;
use pli_language::condition::Condition;
use pli_typing::statement::{Block, BlockHead, BlockKind, Procedure, Stmt, Stmts, Typed};
use pli_typing::typed::{
    Bounds, DeclaredVariable, Extent, Leaf, LeafType, ReferMember, StorageClass,
};
use rv_address::environment::{BlockPlace, Environment};
use rv_address::known::Known;
use rv_assembly::code::Code;
use std::alloc::{AllocError, Global};
use std::test::Fail;

fn head(kind: BlockKind, number: usize, level: usize) -> BlockHead {
    BlockHead {
        kind,
        number,
        level,
        line: 1,
    }
}

fn before<'a>(alloc: Global, first: Stmt<'a>, rest: Stmts<'a>) -> Result<Stmts<'a>, AllocError> {
    Ok(Stmts::More {
        labels: &[],
        first: Box::new(alloc, first)?,
        rest: Box::new(alloc, rest)?,
    })
}

fn unit<'a>(head: BlockHead) -> Stmt<'a> {
    Stmt::OnUnit {
        condition: Condition::Area,
        head,
        body: Stmts::End { labels: &[] },
        line: 1,
    }
}

fn procedure<'a>(alloc: Global, number: usize, level: usize, body: Stmts<'a>) -> Procedure<'a> {
    Procedure {
        block: Block {
            head: head(BlockKind::Procedure, number, level),
            body,
        },
        parameters: Vec::new(alloc),
        result: None,
    }
}

fn leaf<'a>(alloc: Global) -> Leaf<'a> {
    Leaf {
        kind: LeafType::Fixed(31),
        bounds: Vec::new(alloc),
        initial: Vec::new(alloc),
    }
}

fn number<'a>(alloc: Global, class: StorageClass) -> Result<DeclaredVariable<'a>, AllocError> {
    let mut leaves = Vec::new(alloc);
    leaves.push(leaf(alloc))?;
    Ok(DeclaredVariable {
        class,
        members: Vec::new(alloc),
        leaves,
        refer: None,
        evaluations: Vec::new(alloc),
    })
}

// A number, and numbers from 2 to it.
fn referring<'a>(alloc: Global) -> Result<DeclaredVariable<'a>, AllocError> {
    let mut variable = number(alloc, StorageClass::Based)?;
    let mut last = leaf(alloc);
    last.bounds.push(Bounds {
        lower: Extent::Constant(2),
        upper: Extent::Refer,
    })?;
    variable.leaves.push(last)?;
    variable.refer = Some(ReferMember {
        member: 0,
        amount: Extent::Constant(5),
    });
    Ok(variable)
}

// A procedure with a begin block that has a simple on-unit and another one, and a procedure inside it.
fn procedures<'a>(alloc: Global) -> Result<Vec<Procedure<'a>>, AllocError> {
    let last = before(
        alloc,
        unit(head(BlockKind::Unit, 3, 2)),
        Stmts::End { labels: &[] },
    )?;
    let begin = Stmt::Begin {
        head: head(BlockKind::Begin, 2, 1),
        body: before(alloc, unit(head(BlockKind::SimpleUnit, 2, 2)), last)?,
    };
    let body = before(alloc, begin, Stmts::End { labels: &[] })?;
    let mut all = Vec::new(alloc);
    all.push(procedure(alloc, 0, 0, body))?;
    all.push(procedure(alloc, 1, 1, Stmts::End { labels: &[] }))?;
    Ok(all)
}

#[test]
fn blocks_stand_by_their_numbers(rt: HostRuntime) -> Result<(), Fail> {
    let procedures = procedures(rt.alloc())?;
    let blocks = blocks_of(rt.alloc(), &procedures)?;
    let wanted = [
        BlockPlace {
            number: 0,
            level: 0,
        },
        BlockPlace {
            number: 1,
            level: 1,
        },
        BlockPlace {
            number: 2,
            level: 1,
        },
        BlockPlace {
            number: 3,
            level: 2,
        },
    ];
    assert!(rt; blocks.as_slice() == wanted.as_slice());
    Ok(())
}

#[test]
fn a_run_starts_in_its_words(rt: HostRuntime) -> Result<(), Fail> {
    let alloc = rt.alloc();
    let mut variables = Vec::new(alloc);
    variables.push(number(alloc, StorageClass::Static)?)?;
    variables.push(referring(alloc)?)?;
    variables.push(number(alloc, StorageClass::Automatic)?)?;
    let mut all = Vec::new(alloc);
    all.push(variables)?;
    let typed = Typed {
        variables: all,
        procedures: procedures(alloc)?,
    };
    let known = Known::new(alloc, &typed)?;
    let mut code = Code::new(alloc);
    start_code(alloc, &mut code, &Environment::new(&known, &[]))?;
    assert_eq!(rt; code.size(), 40);
    raise_code(&mut code)?;
    assert_eq!(rt; code.size(), 64);
    Ok(())
}
