// The typed tree's statements, blocks and procedures, and the program that they make.

use crate::typed::{
    Allocation, Bit, Call, Counter, DeclaredVariable, Freeing, GetPair, LeafType, Number, PutPair,
    Reference, Stored, Value, Variable,
};
use pli_language::condition::Condition;
use pli_language::expr::Name;

/// What a block is. An on-unit is that of its BEGIN, or one around a single statement, which declares nothing.
#[derive(Clone, Copy, PartialEq, Eq, Debug)]
pub enum BlockKind {
    Procedure,
    Begin,
    Unit,
    SimpleUnit,
}

/// A block's kind, its number among the blocks of the program (a simple unit has that of the block around it), its level,
/// and the line of its first word (of ON for a simple unit).
#[derive(Clone, Copy, PartialEq, Eq, Debug)]
pub struct BlockHead {
    pub kind: BlockKind,
    pub number: usize,
    pub level: usize,
    pub line: u32,
}

/// What DO says of its turns: one at most, or as many as are counted.
#[derive(Drop)]
pub enum Turns<'a> {
    Once {
        variable: Reference<'a>,
        start: Stored<'a>,
        condition: Option<Bit<'a>>,
    },
    Counted {
        counter: Counter<'a>,
        start: Value<'a>,
        limit: Option<Number<'a>>,
        step: Number<'a>,
        condition: Option<Bit<'a>>,
    },
}

/// A statement, with the line of its first token after labels.
#[cycle(typed_stmt)]
#[derive(Drop)]
pub enum Stmt<'a> {
    Null {
        line: u32,
    },
    Assign {
        target: Reference<'a>,
        source: Stored<'a>,
        line: u32,
    },
    /// One value into each element of an array.
    AssignElements {
        target: Reference<'a>,
        source: Stored<'a>,
        line: u32,
    },
    AssignAggregate {
        target: Reference<'a>,
        source: Reference<'a>,
        line: u32,
    },
    AssignArea {
        target: Variable,
        source: Variable,
        line: u32,
    },
    EmptyArea {
        target: Variable,
        line: u32,
    },
    If {
        condition: Bit<'a>,
        unit: Box<Stmt<'a>>,
        line: u32,
    },
    IfElse {
        condition: Bit<'a>,
        unit: Box<Stmt<'a>>,
        otherwise: Box<Stmt<'a>>,
        line: u32,
    },
    Do {
        body: Stmts<'a>,
        line: u32,
    },
    DoWhile {
        condition: Bit<'a>,
        body: Stmts<'a>,
        line: u32,
    },
    DoTurns {
        turns: Turns<'a>,
        body: Stmts<'a>,
        line: u32,
    },
    Begin {
        head: BlockHead,
        body: Stmts<'a>,
    },
    OnSystem {
        condition: Condition,
        line: u32,
    },
    OnUnit {
        condition: Condition,
        head: BlockHead,
        body: Stmts<'a>,
        line: u32,
    },
    Call {
        call: Call<'a>,
        line: u32,
    },
    Return {
        line: u32,
    },
    /// With the kind of RETURNS.
    ReturnValue {
        kind: LeafType,
        value: Stored<'a>,
        line: u32,
    },
    /// A label of the block at a level.
    Goto {
        level: usize,
        label: &'a [u8],
        line: u32,
    },
    Stop {
        line: u32,
    },
    Signal {
        condition: Condition,
        line: u32,
    },
    Revert {
        condition: Condition,
        line: u32,
    },
    Allocate {
        allocations: Vec<Allocation<'a>>,
        line: u32,
    },
    Free {
        freeings: Vec<Freeing<'a>>,
        line: u32,
    },
    Get {
        skip: Option<u64>,
        pairs: Vec<GetPair<'a>>,
        line: u32,
    },
    Put {
        skip: Option<u64>,
        pairs: Vec<PutPair<'a>>,
        line: u32,
    },
}

/// A list of statements, each behind its labels, and the labels of its END.
#[cycle(typed_stmt)]
pub enum Stmts<'a> {
    End {
        labels: &'a [Name],
    },
    More {
        labels: &'a [Name],
        first: Box<Stmt<'a>>,
        rest: Box<Stmts<'a>>,
    },
}

impl Drop for Stmts<'_> {
    /// Drops the list from its front, in a loop: it may be as long as a source.
    #[cycle(dropping)]
    fn drop(mut self) {
        loop {
            match self {
                Stmts::End { labels: _ } => return,
                Stmts::More {
                    labels: _,
                    first: _first,
                    rest,
                } => self = Box::into_inner(rest),
            }
        }
    }
}

/// A block.
#[derive(Drop)]
pub struct Block<'a> {
    pub head: BlockHead,
    pub body: Stmts<'a>,
}

/// A procedure: its block, for each parameter its place among the block's variables, and what RETURNS says.
#[derive(Drop)]
pub struct Procedure<'a> {
    pub block: Block<'a>,
    pub parameters: Vec<usize>,
    pub result: Option<LeafType>,
}

/// A program: the variables of level 1 of each block, by its number, and the procedures in source order, of which the first
/// is the main one.
#[derive(Drop)]
pub struct Typed<'a> {
    pub variables: Vec<Vec<DeclaredVariable<'a>>>,
    pub procedures: Vec<Procedure<'a>>,
}
