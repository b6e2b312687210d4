// The tree of expressions: what is written, with the place of each first token that a refusal can name.

ghost use Rattle.std.specs.Prelude.{◌≡◌, ◌+◌, ◌*◌, ◌≤◌};
ghost use Rattle.pli_language.specs.Weights.{weight_of_exprs, weight_of_expr, weight_of_reference};
ghost use Rattle.pli_language.specs.Weights.{weight_of_qualified, weight_of_arguments};

use crate::token::Word;
use std::mem::replace;

/// The line and column of a token's first byte, both counted from 1.
#[derive(Clone, Copy, PartialEq, Eq, Debug)]
pub struct Place {
    pub line: u32,
    pub column: u32,
}

/// A name in upper case, the keyword that it spells, and its place.
#[derive(Debug, Drop)]
pub struct Name {
    pub letters: Vec<u8>,
    pub word: Word,
    pub place: Place,
}

/// A sign or `^` before an operand.
#[derive(Clone, Copy, PartialEq, Eq, Debug)]
pub enum PrefixOp {
    Plus,
    Minus,
    Not,
}

/// An operator between two operands.
#[derive(Clone, Copy, PartialEq, Eq, Debug)]
pub enum InfixOp {
    Add,
    Subtract,
    Multiply,
    Divide,
    Join,
    Equal,
    NotEqual,
    Less,
    Greater,
    LessOrEqual,
    GreaterOrEqual,
    And,
    Or,
}

/// An expression. Operators of one level associate to the left.
#[cycle(expr)]
#[derive(Debug)]
pub enum Expr {
    Number {
        value: u64,
        place: Place,
    },
    Text {
        value: Vec<u8>,
        place: Place,
    },
    Bit {
        value: bool,
        place: Place,
    },
    Parenthesized {
        inner: Box<Expr>,
        place: Place,
    },
    Prefix {
        op: PrefixOp,
        operand: Box<Expr>,
        place: Place,
    },
    Infix {
        op: InfixOp,
        left: Box<Expr>,
        right: Box<Expr>,
    },
    Refers(Reference),
}

/// A reference: `P->Q->X.Y(1)` is `Y` of `X` located by `Q`, which is located by `P`.
#[cycle(expr)]
#[derive(Debug)]
pub enum Reference {
    Plain(Qualified),
    Located {
        locator: Box<Reference>,
        target: Qualified,
    },
}

/// Names with points between them, each with its arguments.
#[cycle(expr)]
#[derive(Debug)]
pub enum Qualified {
    Last {
        name: Name,
        arguments: Arguments,
    },
    Of {
        name: Name,
        arguments: Arguments,
        rest: Box<Qualified>,
    },
}

/// What stands behind a name: nothing, or a list in parentheses, which may be empty.
#[cycle(expr)]
#[derive(Debug, Drop)]
pub enum Arguments {
    Absent,
    Listed(Exprs),
}

/// A list of expressions.
#[cycle(expr)]
#[derive(Debug)]
pub enum Exprs {
    End,
    More { first: Box<Expr>, rest: Box<Exprs> },
}

// ---- how expressions are dropped: in loops and without a stack, however deep they nest

const NOWHERE: Place = Place { line: 0, column: 0 };

/// A list in place of another one.
fn exchanged(cell: &mut Box<Exprs>, exprs: Exprs) -> Exprs
    ensures { (result ≡ cell.old.value) × (cell.new.value ≡ exprs) }
{
    replace(&mut **cell, exprs)
}

/// An expression in place of another one.
fn filled(cell: &mut Box<Expr>, expression: Expr) -> Expr
    ensures { (result ≡ cell.old.value) × (cell.new.value ≡ expression) }
{
    replace(&mut **cell, expression)
}

/// An expression, in whose place a number stands.
#[tactic(auto, unfolding(crate::specs::Weights::weight_of_expr))]
fn emptied(cell: &mut Box<Expr>) -> Expr
    ensures { (result ≡ cell.old.value) × (weight_of_expr cell.new.value ≡ 1) }
{
    replace(
        &mut **cell,
        Expr::Number {
            value: 0,
            place: NOWHERE,
        },
    )
}

impl Exprs {
    /// These expressions, the last one first, and then others.
    #[tactic(auto, unfolding(crate::specs::Weights::weight_of_exprs))]
    fn onto(mut self, mut rest: Exprs) -> Exprs
        ensures { weight_of_exprs result + 1 ≤ weight_of_exprs self + weight_of_exprs rest }
    {
        loop {
            match self {
                Exprs::More {
                    first,
                    rest: mut cell,
                } => {
                    let next = exchanged(&mut cell, rest);
                    rest = Exprs::More { first, rest: cell };
                    self = next;
                }
                Exprs::End => return rest,
            }
        }
    }
}

impl Arguments {
    /// The list of arguments, empty where there is none.
    #[tactic(auto, unfolding(crate::specs::Weights::weight_of_exprs, crate::specs::Weights::weight_of_arguments))]
    fn into_list(self) -> Exprs
        ensures { weight_of_exprs result ≤ weight_of_arguments self }
    {
        match self {
            Arguments::Absent => Exprs::End,
            Arguments::Listed(exprs) => exprs,
        }
    }
}

impl Qualified {
    /// The arguments of all names; the rest is dropped.
    #[tactic(auto, unfolding(crate::specs::Weights::weight_of_exprs, crate::specs::Weights::weight_of_qualified))]
    fn into_arguments(mut self) -> Exprs
        ensures { weight_of_exprs result ≤ weight_of_qualified self }
    {
        let mut taken = Exprs::End;
        loop {
            match self {
                Qualified::Last {
                    name: _name,
                    arguments,
                } => return arguments.into_list().onto(taken),
                Qualified::Of {
                    name: _name,
                    arguments,
                    rest,
                } => {
                    taken = arguments.into_list().onto(taken);
                    self = Box::into_inner(rest);
                }
            }
        }
    }
}

impl Reference {
    /// The arguments of the reference and its locators; the rest is dropped.
    #[tactic(auto, unfolding(crate::specs::Weights::weight_of_exprs, crate::specs::Weights::weight_of_reference))]
    fn into_arguments(mut self) -> Exprs
        ensures { weight_of_exprs result ≤ weight_of_reference self }
    {
        let mut taken = Exprs::End;
        loop {
            match self {
                Reference::Plain(target) => return target.into_arguments().onto(taken),
                Reference::Located { locator, target } => {
                    taken = target.into_arguments().onto(taken);
                    self = Box::into_inner(locator);
                }
            }
        }
    }
}

impl Expr {
    /// A left operand: the arguments in it, and the expression that is left, with the operand's own left
    /// operand before.
    #[tactic(auto, unfolding(crate::specs::Weights::weight_of_exprs, crate::specs::Weights::weight_of_expr))]
    #[cycle(dropping_expressions)]
    fn before(self, mut cell: Box<Expr>, op: InfixOp, right: Box<Expr>) -> (Exprs, Expr)
        requires { weight_of_expr cell.value ≡ 1 }
        ensures { weight_of_exprs result.0 + weight_of_expr result.1
            ≤ 2 * weight_of_expr self + weight_of_expr right.value + 1 }
    {
        let (arguments, next) = match self {
            Expr::Infix {
                op: inner,
                left,
                right: middle,
            } => {
                let _number = filled(
                    &mut cell,
                    Expr::Infix {
                        op: inner,
                        left: middle,
                        right,
                    },
                );
                return (
                    Exprs::End,
                    Expr::Infix {
                        op,
                        left,
                        right: cell,
                    },
                );
            }
            Expr::Parenthesized { inner, place: _ } => (
                Exprs::End,
                Expr::Infix {
                    op,
                    left: inner,
                    right,
                },
            ),
            Expr::Prefix {
                op: _,
                operand,
                place: _,
            } => (
                Exprs::End,
                Expr::Infix {
                    op,
                    left: operand,
                    right,
                },
            ),
            Expr::Refers(reference) => (reference.into_arguments(), Box::into_inner(right)),
            _ => (Exprs::End, Box::into_inner(right)),
        };
        let _number = Box::into_inner(cell);
        (arguments, next)
    }

    /// The arguments of the references in the expression; the rest of it is dropped.
    #[tactic(auto, unfolding(crate::specs::Weights::weight_of_exprs, crate::specs::Weights::weight_of_expr))]
    #[cycle(dropping_expressions)]
    fn into_arguments(mut self) -> Exprs
        ensures { weight_of_exprs result ≤ weight_of_expr self }
    {
        let mut taken = Exprs::End;
        loop {
            match self {
                Expr::Number { value: _, place: _ } | Expr::Bit { value: _, place: _ } =>
                    return taken,
                Expr::Text {
                    value: _value,
                    place: _,
                } => return taken,
                Expr::Parenthesized { inner, place: _ } => self = Box::into_inner(inner),
                Expr::Prefix {
                    op: _,
                    operand,
                    place: _,
                } => self = Box::into_inner(operand),
                Expr::Infix {
                    op,
                    mut left,
                    right,
                } => {
                    let inner = emptied(&mut left);
                    let (arguments, next) = inner.before(left, op, right);
                    taken = arguments.onto(taken);
                    self = next;
                }
                Expr::Refers(reference) => return reference.into_arguments().onto(taken),
            }
        }
    }
}

impl Drop for Exprs {
    /// Drops the list from its front; the arguments in its first expression go before the rest.
    #[tactic(auto, unfolding(crate::specs::Weights::weight_of_exprs, crate::specs::Weights::weight_of_expr))]
    #[cycle(dropping_expressions)]
    fn drop(mut self) {
        loop {
            match self {
                Exprs::End => return,
                Exprs::More { first, rest } => {
                    let arguments = Box::into_inner(first).into_arguments();
                    self = arguments.onto(Box::into_inner(rest));
                }
            }
        }
    }
}

impl Drop for Expr {
    #[tactic(auto, unfolding(crate::specs::Weights::weight_of_exprs, crate::specs::Weights::weight_of_expr))]
    #[cycle(dropping_expressions)]
    fn drop(self) {
        let _arguments = self.into_arguments();
    }
}

impl Drop for Reference {
    fn drop(self) {
        let _arguments = self.into_arguments();
    }
}

impl Drop for Qualified {
    fn drop(self) {
        let _arguments = self.into_arguments();
    }
}
