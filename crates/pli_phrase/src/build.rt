// Trees out of their parts.

ghost use Rattle.std.specs.Prelude.{◌≡◌, IfOk};
ghost use Rattle.pli_language.specs.Tree as T;
ghost use Rattle.pli_language.specs.View.{arguments_of, expr_of, exprs_of, name_of, option_of, qualified_of, reference_of};
ghost use Rattle.pli_phrase.specs.Reading.{exprs_with, located, qualified, referred};
ghost use Rattle.pli_phrase.specs.View.{newest, path_of, qualifier_of};

use crate::frame::{Path, Qualifier};
use pli_language::expr::{
    Arguments, Expr, Exprs, InfixOp, Name, Place, PrefixOp, Qualified, Reference,
};
use pli_language::token::Word;
use std::alloc::{AllocError, Global};

/// An operand with a prefix operator before it.
#[tactic(auto, using(pli_language::proofs::Views::views))]
pub fn prefixed(
    alloc: Global,
    op: PrefixOp,
    operand: Expr,
    place: Place,
) -> Result<Expr, AllocError>
    ensures { IfOk result (λ e. expr_of e ≡ T.Prefix op (expr_of operand) place) }
{
    Ok(Expr::Prefix {
        op,
        operand: Box::new(alloc, operand)?,
        place,
    })
}

/// An operator between its operands.
#[tactic(auto, using(pli_language::proofs::Views::views))]
pub fn infix(alloc: Global, op: InfixOp, left: Expr, right: Expr) -> Result<Expr, AllocError>
    ensures { IfOk result (λ e. expr_of e ≡ T.Infix op (expr_of left) (expr_of right)) }
{
    Ok(Expr::Infix {
        op,
        left: Box::new(alloc, left)?,
        right: Box::new(alloc, right)?,
    })
}

/// An expression in parentheses.
#[tactic(auto, using(pli_language::proofs::Views::views))]
pub fn parenthesized(alloc: Global, inner: Expr, place: Place) -> Result<Expr, AllocError>
    ensures { IfOk result (λ e. expr_of e ≡ T.Parenthesized (expr_of inner) place) }
{
    Ok(Expr::Parenthesized {
        inner: Box::new(alloc, inner)?,
        place,
    })
}

#[tactic(auto, using(pli_language::proofs::Views::views))]
pub fn number(value: u32, place: Place) -> Expr
    ensures { expr_of result ≡ T.Number value place }
{
    Expr::Number {
        value: u64::from(value),
        place,
    }
}

#[tactic(auto, using(pli_language::proofs::Views::views))]
pub fn text(value: Vec<u8>, place: Place) -> Expr
    ensures { expr_of result ≡ T.Text value.items place }
{
    Expr::Text { value, place }
}

#[tactic(auto, using(pli_language::proofs::Views::views))]
pub fn bit(value: bool, place: Place) -> Expr
    ensures { expr_of result ≡ T.Bit value place }
{
    Expr::Bit { value, place }
}

/// The value of a reference.
#[tactic(auto, using(pli_language::proofs::Views::views))]
pub fn fetched(reference: Reference) -> Expr
    ensures { expr_of result ≡ T.Refers (reference_of reference) }
{
    Expr::Refers(reference)
}

/// An expression before others.
#[tactic(auto, using(pli_language::proofs::Views::views))]
fn before(alloc: Global, first: Expr, rest: Exprs) -> Result<Exprs, AllocError>
    ensures { IfOk result (λ es. exprs_of es ≡ T.ExprThen (expr_of first) (exprs_of rest)) }
{
    Ok(Exprs::More {
        first: Box::new(alloc, first)?,
        rest: Box::new(alloc, rest)?,
    })
}

#[tactic(auto, using(pli_language::proofs::Views::views))]
fn no_expr() -> Exprs
    ensures { exprs_of result ≡ T.NoExpr }
{
    Exprs::End
}

/// Expressions in their order.
#[tactic(auto, using(crate::proofs::Newest::newest_snoc, crate::proofs::Newest::newest_none))]
pub fn listed(alloc: Global, expressions: Vec<Expr>) -> Result<Exprs, AllocError>
    ensures { IfOk result (λ es. exprs_of es ≡ exprs_with (newest expr_of expressions.items) T.NoExpr) }
{
    let mut expressions = expressions;
    let mut list = no_expr();
    while let Some(expression) = expressions.pop() {
        list = before(alloc, expression, list)?;
    }
    Ok(list)
}

/// No arguments.
#[tactic(auto, using(pli_language::proofs::Views::views))]
pub fn absent() -> Arguments
    ensures { arguments_of result ≡ T.Absent }
{
    Arguments::Absent
}

/// Arguments in parentheses.
#[tactic(auto, using(pli_language::proofs::Views::views))]
pub fn arguments(expressions: Exprs) -> Arguments
    ensures { arguments_of result ≡ T.Listed (exprs_of expressions) }
{
    Arguments::Listed(expressions)
}

#[tactic(auto, using(pli_language::proofs::Views::views))]
fn last(name: Name, arguments: Arguments) -> Qualified
    ensures { qualified_of result ≡ T.Last (name_of name) (arguments_of arguments) }
{
    Qualified::Last { name, arguments }
}

/// What stands in place of a reference that was taken.
pub fn nothing(alloc: Global) -> Reference {
    Reference::Plain(Qualified::Last {
        name: Name {
            letters: Vec::new(alloc),
            word: Word::Other,
            place: Place { line: 0, column: 0 },
        },
        arguments: Arguments::Absent,
    })
}

/// A qualifier before a name.
#[tactic(auto, using(pli_language::proofs::Views::views))]
fn qualifying(alloc: Global, qualifier: Qualifier, rest: Qualified) -> Result<Qualified, AllocError>
    ensures { IfOk result (λ q. qualified_of q ≡ T.Of (qualifier_of qualifier).0 (qualifier_of qualifier).1 (qualified_of rest)) }
{
    Ok(Qualified::Of {
        name: qualifier.name,
        arguments: qualifier.arguments,
        rest: Box::new(alloc, rest)?,
    })
}

/// The qualifiers before a name.
#[tactic(auto, using(crate::proofs::Newest::newest_snoc, crate::proofs::Newest::newest_none))]
fn qualified(
    alloc: Global,
    qualifiers: Vec<Qualifier>,
    last: Qualified,
) -> Result<Qualified, AllocError>
    ensures { IfOk result (λ q. qualified_of q ≡ qualified (newest qualifier_of qualifiers.items) (qualified_of last)) }
{
    let mut qualifiers = qualifiers;
    let mut target = last;
    while let Some(qualifier) = qualifiers.pop() {
        target = qualifying(alloc, qualifier, target)?;
    }
    Ok(target)
}

/// What a locator locates, or what stands without one.
#[tactic(auto, using(pli_language::proofs::Views::views))]
fn located(
    alloc: Global,
    locator: Option<Reference>,
    target: Qualified,
) -> Result<Reference, AllocError>
    ensures { IfOk result (λ r. reference_of r ≡ located (option_of reference_of locator) (qualified_of target)) }
{
    Ok(match locator {
        None => Reference::Plain(target),
        Some(locator) => Reference::Located {
            locator: Box::new(alloc, locator)?,
            target,
        },
    })
}

/// The reference that ends with this name.
pub fn referred(
    alloc: Global,
    path: Path,
    name: Name,
    arguments: Arguments,
) -> Result<Reference, AllocError>
    ensures { IfOk result (λ r. reference_of r ≡ referred (path_of path) (name_of name) (arguments_of arguments)) }
{
    let target = qualified(alloc, path.qualifiers, last(name, arguments))?;
    located(alloc, path.locator, target)
}
