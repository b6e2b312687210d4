// The tree of programs: procedures, declarations and statements, as they are written.

ghost use Rattle.std.specs.Prelude.{◌≡◌, ◌+◌, ◌*◌, ◌≤◌};
ghost use Rattle.pli_language.specs.Weights.{weight_of_items, weight_of_item, weight_of_stmt};

use crate::condition::Condition;
use crate::declaration::{Allocation, Attribute, DeclareItem, Freeing};
use crate::expr::{Arguments, Expr, Exprs, Name, Place, Reference};
use std::mem::replace;

/// An item of a format list, after its repetition.
#[cycle(format)]
#[derive(Debug, Drop)]
pub enum Format {
    List(Box<Formats>),
    Fixed { width: u64 },
    Text { width: Option<u64> },
    Space { number: u64 },
    Skip { number: u64 },
    Column { number: u64 },
}

/// A format list; each item is repeated as often as the number before it says, which is 1 where none stands. An item's
/// place is that of its first token, the number before it included.
#[cycle(format)]
#[derive(Debug, Drop)]
pub enum Formats {
    End,
    More {
        place: Place,
        repetition: u64,
        first: Format,
        rest: Box<Formats>,
    },
}

/// A data list and the format list that it goes by, with the place where the latter is opened.
#[derive(Debug, Drop)]
pub struct EditPair {
    pub items: Exprs,
    pub formats: Formats,
    pub place: Place,
}

/// How many line ends SKIP goes past, 1 where no number stands, and the place of the word.
#[derive(Clone, Copy, PartialEq, Eq, Debug)]
pub struct Skip {
    pub number: u64,
    pub place: Place,
}

/// An option behind PROCEDURE.
#[derive(Debug, Drop)]
pub enum ProcedureOption {
    Main,
    Recursive,
    Returns(Vec<Attribute>),
}

/// What stands around a procedure's body: its labels, the place of the word PROCEDURE, parameters and options.
#[derive(Debug, Drop)]
pub struct ProcedureHead {
    pub labels: Vec<Name>,
    pub place: Place,
    pub parameters: Vec<Name>,
    pub options: Vec<ProcedureOption>,
}

/// What DO V says of its turns.
#[derive(Debug, Drop)]
pub struct Counting {
    pub variable: Reference,
    pub start: Expr,
    pub limit: Option<Expr>,
    pub step: Option<Expr>,
    pub condition: Option<Expr>,
}

/// A statement, with the place of its first token after labels. The labels of an END stand last in the list that it closes.
#[cycle(stmt)]
#[derive(Debug)]
pub enum Stmt {
    Null {
        place: Place,
    },
    Assign {
        target: Reference,
        source: Expr,
        place: Place,
    },
    If {
        condition: Expr,
        unit: Box<Stmt>,
        place: Place,
    },
    IfElse {
        condition: Expr,
        unit: Box<Stmt>,
        otherwise: Box<Stmt>,
        place: Place,
    },
    Do {
        body: Items,
        place: Place,
    },
    DoWhile {
        condition: Expr,
        body: Items,
        place: Place,
    },
    DoCount {
        counting: Counting,
        body: Items,
        place: Place,
    },
    Begin {
        body: Items,
        place: Place,
    },
    OnSystem {
        condition: Condition,
        place: Place,
    },
    OnUnit {
        condition: Condition,
        unit: Box<Stmt>,
        place: Place,
    },
    Call {
        procedure: Name,
        arguments: Arguments,
        place: Place,
    },
    Return {
        value: Option<Expr>,
        place: Place,
    },
    Goto {
        label: Name,
        place: Place,
    },
    Stop {
        place: Place,
    },
    Signal {
        condition: Condition,
        place: Place,
    },
    Revert {
        condition: Condition,
        place: Place,
    },
    Allocate {
        allocations: Vec<Allocation>,
        place: Place,
    },
    Free {
        freeings: Vec<Freeing>,
        place: Place,
    },
    Get {
        skip: Option<Skip>,
        pairs: Vec<EditPair>,
        place: Place,
    },
    Put {
        skip: Option<Skip>,
        pairs: Vec<EditPair>,
        place: Place,
    },
}

/// An item of a list: a procedure, declarations, a labelled statement, or the labels of the END that closes the list, with
/// the place of that word.
#[cycle(stmt)]
#[derive(Debug, Drop)]
pub enum Item {
    Procedure {
        head: ProcedureHead,
        body: Items,
    },
    Declare {
        items: Vec<DeclareItem>,
        place: Place,
    },
    Statement {
        labels: Vec<Name>,
        statement: Stmt,
    },
    EndLabels {
        labels: Vec<Name>,
        place: Place,
    },
}

/// A list of items.
#[cycle(stmt)]
#[derive(Debug)]
pub enum Items {
    End,
    More { first: Box<Item>, rest: Box<Items> },
}

/// A program: its outer procedures, in order.
#[derive(Debug, Drop)]
pub struct Tree {
    pub procedures: Items,
}

// ---- how statements are dropped: in loops and without a stack, however deep they nest

const NOWHERE: Place = Place { line: 0, column: 0 };

/// A list in place of another one.
fn exchanged(cell: &mut Box<Items>, items: Items) -> Items
    ensures { (result ≡ cell.old.value) × (cell.new.value ≡ items) }
{
    replace(&mut **cell, items)
}

/// A statement in place of another one.
fn filled(cell: &mut Box<Stmt>, statement: Stmt) -> Stmt
    ensures { (result ≡ cell.old.value) × (cell.new.value ≡ statement) }
{
    replace(&mut **cell, statement)
}

/// A statement, in whose place none stands.
#[tactic(auto, unfolding(crate::specs::Weights::weight_of_stmt))]
fn emptied(cell: &mut Box<Stmt>) -> Stmt
    ensures { (result ≡ cell.old.value) × (weight_of_stmt cell.new.value ≡ 1) }
{
    replace(&mut **cell, Stmt::Null { place: NOWHERE })
}

impl Items {
    /// These items, the last one first, and then others.
    #[tactic(auto, unfolding(crate::specs::Weights::weight_of_items))]
    fn onto(mut self, mut rest: Items) -> Items
        ensures { weight_of_items result + 1 ≤ weight_of_items self + weight_of_items rest }
    {
        loop {
            match self {
                Items::More {
                    first,
                    rest: mut cell,
                } => {
                    let next = exchanged(&mut cell, rest);
                    rest = Items::More { first, rest: cell };
                    self = next;
                }
                Items::End => return rest,
            }
        }
    }
}

impl Item {
    /// What stands in the item; the rest of it is dropped.
    #[tactic(auto, unfolding(crate::specs::Weights::weight_of_items, crate::specs::Weights::weight_of_item))]
    #[cycle(dropping)]
    fn into_bodies(self) -> Items
        ensures { weight_of_items result ≤ weight_of_item self }
    {
        match self {
            Item::Procedure { head: _head, body } => body,
            Item::Statement {
                labels: _labels,
                statement,
            } => statement.into_bodies(),
            Item::Declare {
                items: _items,
                place: _,
            } => Items::End,
            Item::EndLabels {
                labels: _labels,
                place: _,
            } => Items::End,
        }
    }
}

impl Stmt {
    /// A unit before ELSE: what stands in it, and the statement that is left, with the unit's own units before ELSE.
    #[tactic(auto, unfolding(crate::specs::Weights::weight_of_items, crate::specs::Weights::weight_of_stmt))]
    #[cycle(dropping)]
    fn before(self, mut cell: Box<Stmt>, condition: Expr, otherwise: Box<Stmt>) -> (Items, Stmt)
        requires { weight_of_stmt cell.value ≡ 1 }
        ensures { weight_of_items result.0 + weight_of_stmt result.1
            ≤ 2 * weight_of_stmt self + weight_of_stmt otherwise.value + 1 }
    {
        let (bodies, next) = match self {
            Stmt::IfElse {
                condition: inner,
                unit,
                otherwise: other,
                place,
            } => {
                let turned = Stmt::IfElse {
                    condition: inner,
                    unit: other,
                    otherwise,
                    place,
                };
                let _null = filled(&mut cell, turned);
                return (
                    Items::End,
                    Stmt::IfElse {
                        condition,
                        unit,
                        otherwise: cell,
                        place,
                    },
                );
            }
            Stmt::If {
                condition: _inner,
                unit,
                place,
            } => (
                Items::End,
                Stmt::IfElse {
                    condition,
                    unit,
                    otherwise,
                    place,
                },
            ),
            Stmt::OnUnit {
                condition: _,
                unit,
                place,
            } => (
                Items::End,
                Stmt::IfElse {
                    condition,
                    unit,
                    otherwise,
                    place,
                },
            ),
            Stmt::Do { body, place: _ } => (body, Box::into_inner(otherwise)),
            Stmt::DoWhile {
                condition: _inner,
                body,
                place: _,
            } => (body, Box::into_inner(otherwise)),
            Stmt::DoCount {
                counting: _counting,
                body,
                place: _,
            } => (body, Box::into_inner(otherwise)),
            Stmt::Begin { body, place: _ } => (body, Box::into_inner(otherwise)),
            _ => (Items::End, Box::into_inner(otherwise)),
        };
        let _null = Box::into_inner(cell);
        (bodies, next)
    }

    /// What stands in the statement's groups and blocks; the rest of it is dropped.
    #[tactic(auto, unfolding(crate::specs::Weights::weight_of_items, crate::specs::Weights::weight_of_stmt))]
    #[cycle(dropping)]
    fn into_bodies(mut self) -> Items
        ensures { weight_of_items result ≤ weight_of_stmt self }
    {
        let mut taken = Items::End;
        loop {
            match self {
                Stmt::If {
                    condition: _condition,
                    unit,
                    place: _,
                } => self = Box::into_inner(unit),
                Stmt::OnUnit {
                    condition: _,
                    unit,
                    place: _,
                } => self = Box::into_inner(unit),
                Stmt::IfElse {
                    condition,
                    mut unit,
                    otherwise,
                    place: _,
                } => {
                    let inner = emptied(&mut unit);
                    let (bodies, next) = inner.before(unit, condition, otherwise);
                    taken = bodies.onto(taken);
                    self = next;
                }
                Stmt::Do { body, place: _ } => return body.onto(taken),
                Stmt::DoWhile {
                    condition: _condition,
                    body,
                    place: _,
                } => return body.onto(taken),
                Stmt::DoCount {
                    counting: _counting,
                    body,
                    place: _,
                } => return body.onto(taken),
                Stmt::Begin { body, place: _ } => return body.onto(taken),
                Stmt::Null { place: _ }
                | Stmt::OnSystem {
                    condition: _,
                    place: _,
                }
                | Stmt::Stop { place: _ }
                | Stmt::Signal {
                    condition: _,
                    place: _,
                }
                | Stmt::Revert {
                    condition: _,
                    place: _,
                } => return taken,
                Stmt::Assign {
                    target: _target,
                    source: _source,
                    place: _,
                } => return taken,
                Stmt::Call {
                    procedure: _procedure,
                    arguments: _arguments,
                    place: _,
                } => return taken,
                Stmt::Return {
                    value: _value,
                    place: _,
                } => return taken,
                Stmt::Goto {
                    label: _label,
                    place: _,
                } => return taken,
                Stmt::Allocate {
                    allocations: _allocations,
                    place: _,
                } => return taken,
                Stmt::Free {
                    freeings: _freeings,
                    place: _,
                } => return taken,
                Stmt::Get {
                    skip: _,
                    pairs: _pairs,
                    place: _,
                } => return taken,
                Stmt::Put {
                    skip: _,
                    pairs: _pairs,
                    place: _,
                } => return taken,
            }
        }
    }
}

impl Drop for Items {
    /// Drops the list from its front; what stands in its first item goes before the rest.
    #[tactic(auto, unfolding(crate::specs::Weights::weight_of_items, crate::specs::Weights::weight_of_item))]
    #[cycle(dropping)]
    fn drop(mut self) {
        loop {
            match self {
                Items::End => return,
                Items::More { first, rest } => {
                    let bodies = Box::into_inner(first).into_bodies();
                    self = bodies.onto(Box::into_inner(rest));
                }
            }
        }
    }
}

impl Drop for Stmt {
    #[tactic(auto, unfolding(crate::specs::Weights::weight_of_items, crate::specs::Weights::weight_of_stmt))]
    #[cycle(dropping)]
    fn drop(self) {
        let _bodies = self.into_bodies();
    }
}
