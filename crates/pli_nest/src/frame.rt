// What is open around a place.

use pli_language::condition::Condition;
use pli_language::expr::{Expr, Name, Place};
use pli_language::fault::SourceFault;
use pli_language::stmt::{Counting, Item, ProcedureHead, Stmt};

/// What a list belongs to.
#[derive(Drop)]
pub enum Opener {
    Procedure(ProcedureHead),
    Group { place: Place },
    While { condition: Expr, place: Place },
    Count { counting: Counting, place: Place },
    Begin { place: Place },
}

/// What is open: a list, with the labels of what it belongs to, its items so far, and the labels of the statement that is
/// being read; an IF, ELSE or ON whose unit is due; an IF whose unit is whole, so that ELSE may follow.
#[derive(Drop)]
pub enum Frame {
    List {
        opener: Opener,
        labels: Vec<Name>,
        items: Vec<Item>,
        pending: Vec<Name>,
    },
    ThenDue {
        condition: Expr,
        place: Place,
    },
    ThenWhole {
        condition: Expr,
        unit: Box<Stmt>,
        place: Place,
    },
    ElseDue {
        condition: Expr,
        unit: Box<Stmt>,
        place: Place,
    },
    UnitDue {
        condition: Condition,
        place: Place,
    },
}

/// The outer procedures that are whole, and what is open around a place, innermost last.
#[derive(Drop)]
pub struct Nest {
    pub outer: Vec<Item>,
    pub frames: Vec<Frame>,
}

/// What a whole statement makes of the frame around it: another one, or a whole statement in turn.
#[derive(Drop)]
pub enum Step {
    Stays(Frame),
    Ends(Stmt),
}

/// A nest behind a head, with the rule that the head breaks there; or the place at which the head may not stand.
#[derive(Drop)]
pub enum Entry {
    Entered {
        nest: Nest,
        fault: Option<SourceFault>,
    },
    Misplaced(Place),
}
