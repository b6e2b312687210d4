// Constants, and where expressions begin.

ghost use Rattle.std.specs.Prelude.{◌≡◌, ◌≤ℤ◌, neg_ℤ, pos, IfSome};
ghost use Rattle.pli_language.specs.Declaring.{constant, place_of_expr, place_of_qualified, place_of_reference};
ghost use Rattle.pli_language.specs.View.{expr_of, qualified_of, reference_of};
ghost use Rattle.pli_declaring.specs.Numerals.{number_in};

use pli_language::expr::{Expr, Place, PrefixOp, Qualified, Reference};

/// The place of the first name.
#[tactic(auto, unfolding(pli_language::specs::View::qualified_of))]
fn place_of_qualified(qualified: &Qualified) -> Place
    ensures { result ≡ place_of_qualified (qualified_of qualified.now) }
{
    match qualified {
        Qualified::Last { name, .. } => name.place,
        Qualified::Of { name, .. } => name.place,
    }
}

/// The place of a reference's first token.
#[tactic(auto, unfolding(pli_language::specs::View::reference_of))]
pub fn place_of_reference(reference: &Reference) -> Place
    ensures { result ≡ place_of_reference (reference_of reference.now) }
{
    let mut rest = reference;
    loop {
        match rest {
            Reference::Plain(qualified) => return place_of_qualified(qualified),
            Reference::Located { locator, .. } => rest = locator,
        }
    }
}

/// The place of an expression's first token.
#[tactic(auto, unfolding(pli_language::specs::View::expr_of))]
pub fn place_of(expression: &Expr) -> Place
    ensures { result ≡ place_of_expr (expr_of expression.now) }
{
    let mut rest = expression;
    loop {
        match rest {
            Expr::Number { place, .. }
            | Expr::Text { place, .. }
            | Expr::Bit { place, .. }
            | Expr::Parenthesized { place, .. }
            | Expr::Prefix { place, .. } => return *place,
            Expr::Infix { left, .. } => rest = left,
            Expr::Refers(reference) => return place_of_reference(reference),
        }
    }
}

/// The number that an expression is.
#[tactic(auto, unfolding(pli_language::specs::View::expr_of))]
fn number_in(expression: &Expr) -> Option<u64>
    ensures { result ≡ number_in (expr_of expression.now) }
{
    match expression {
        Expr::Number { value, .. } => Some(*value),
        _ => None,
    }
}

/// A constant: a number after at most one sign.
#[tactic(auto, unfolding(pli_language::specs::View::expr_of))]
pub fn constant(expression: &Expr) -> Option<i128>
    ensures value { result ≡ constant (expr_of expression.now) }
    ensures bounded { IfSome result (λ z. (neg_ℤ (pos 18446744073709551616) ≤ℤ z) × (z ≤ℤ pos 18446744073709551616)) }
{
    match expression {
        Expr::Number { value, .. } => Some(i128::from(*value)),
        Expr::Prefix { op, operand, .. } => match (op, number_in(operand)) {
            (PrefixOp::Plus, Some(value)) => Some(i128::from(value)),
            (PrefixOp::Minus, Some(value)) => Some(-i128::from(value)),
            _ => None,
        },
        _ => None,
    }
}
