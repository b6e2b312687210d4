// Chains of operators and of locators, from the outermost to the innermost.

ghost use Rattle.std.specs.Prelude.{◌≡◌, ◌+◌, ◌≤◌, ◌<◌, [], map, IfOk};
ghost use Rattle.pli_language.specs.Tree.{Plain};
ghost use Rattle.pli_language.specs.View.{expr_of, qualified_of, reference_of};
ghost use Rattle.pli_typing.specs.Judging.{Scope};
ghost use Rattle.pli_typing.specs.References.{operand, referred};
ghost use Rattle.pli_typing.proofs.ExpressionWeights.{expr_weight, qualified_weight, reference_weight};
ghost use Rattle.pli_reference.specs.ShownWaiting.{names_weight, waiting_of, waiting_weight};
ghost use Rattle.pli_reference.specs.Waiting.{chain, chain_of_locators};

use pli_language::expr::{Expr, InfixOp, PrefixOp, Qualified, Reference};
use std::alloc::{AllocError, Global};

/// A prefix operator, with the expression that it begins, or an infix operator, with its right operand.
#[derive(Drop)]
pub enum Waiting<'a> {
    Prefix { op: PrefixOp, whole: &'a Expr },
    Infix { op: InfixOp, right: &'a Expr },
}

/// OperatorChain, the outermost first, that wait for an expression, which begins with none of them.
#[derive(Drop)]
pub struct OperatorChain<'a> {
    pub waiting: Vec<Waiting<'a>>,
    pub first: &'a Expr,
}

/// Names, the last of a reference first, that wait for their locators, and the names that have none.
#[derive(Drop)]
pub struct LocatorChain<'a> {
    pub located: Vec<&'a Qualified>,
    pub names: &'a Qualified,
}

/// The operators of an expression, down to its first operand.
#[tactic(auto, using(crate::proofs::ShownWaits::chains))]
pub fn operator_chain<'a>(alloc: Global, expr: &'a Expr) -> Result<OperatorChain<'a>, AllocError>
    ensures same { IfOk result (λ c. (scope : Scope) → chain scope (map waiting_of c.waiting.items) (expr_of c.first.now) ≡ chain scope [] (expr_of expr.now)) }
    ensures lighter { IfOk result (λ c. waiting_weight c.waiting.items + expr_weight c.first.now ≤ expr_weight expr.now) }
{
    let mut waiting = Vec::new(alloc);
    let mut first = expr;
    'operators: loop {
        match first {
            Expr::Prefix { op, operand, .. } => {
                let op = *op;
                waiting.push(Waiting::Prefix { op, whole: first })?;
                first = operand;
            }
            Expr::Infix { op, left, right } => {
                let op = *op;
                waiting.push(Waiting::Infix { op, right })?;
                first = left;
            }
            _ => return Ok(OperatorChain { waiting, first }),
        }
    }
}

/// The locators of a reference, down to its first.
#[tactic(auto, using(crate::proofs::ShownWaits::chains))]
pub fn locator_chain<'a>(
    alloc: Global,
    target: &'a Reference,
) -> Result<LocatorChain<'a>, AllocError>
    ensures same { IfOk result (λ c. (scope : Scope) → chain_of_locators scope (map (λ q. qualified_of q.now) c.located.items) (Plain (qualified_of c.names.now)) ≡ chain_of_locators scope [] (reference_of target.now)) }
    ensures lighter { IfOk result (λ c. names_weight c.located.items + qualified_weight c.names.now < reference_weight target.now) }
{
    let mut located = Vec::new(alloc);
    let mut first = target;
    'locators: loop {
        match first {
            Reference::Located { locator, target } => {
                located.push(target)?;
                first = locator;
            }
            Reference::Plain(names) => return Ok(LocatorChain { located, names }),
        }
    }
}
