// What is open around the token that is read.

use crate::cursor::Marks;
use pli_language::expr::{Arguments, Expr, InfixOp, Name, Place, PrefixOp, Reference};

/// A name before a point, with its arguments.
#[derive(Drop)]
pub struct Qualifier {
    pub name: Name,
    pub arguments: Arguments,
}

/// What stands before a name of a reference: the locator, where an arrow stands, and the qualifiers behind it.
#[derive(Drop)]
pub struct Path {
    pub locator: Option<Reference>,
    pub qualifiers: Vec<Qualifier>,
}

/// An operator whose operand isn't complete, an open parenthesis, an open argument list with the expressions so far, or
/// a reference that is read alone.
#[derive(Drop)]
pub enum Frame {
    Before {
        op: PrefixOp,
        place: Place,
    },
    Between {
        op: InfixOp,
        left: Expr,
    },
    Group {
        place: Place,
    },
    Listing {
        path: Path,
        name: Name,
        expressions: Vec<Expr>,
    },
    Alone,
}

/// What is due, or what was just read.
#[derive(Drop)]
pub enum State {
    OperandDue,
    ArgumentDue,
    FirstDue {
        path: Path,
        name: Name,
    },
    NameDue {
        path: Path,
    },
    NameRead {
        path: Path,
        name: Name,
    },
    ArgumentsRead {
        path: Path,
        name: Name,
        arguments: Arguments,
    },
    OperandRead {
        operand: Expr,
    },
}

/// What a token leads to: on with the next one, the end of the expression before it, or nothing.
#[derive(Drop)]
pub enum Step {
    On {
        state: State,
        frames: Vec<Frame>,
        marks: Marks,
    },
    Ends {
        expression: Expr,
        marks: Marks,
    },
    Fails,
}
