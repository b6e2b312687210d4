// The names that expressions write.

ghost use Rattle.std.specs.Prelude.{◌≡◌, ◌++◌, ◌∷◌, [], map, OnOk};
ghost use Rattle.pli_declare.specs.Among.{letters_of};
ghost use Rattle.pli_language.specs.View.{arguments_of, expr_of, exprs_of, option_of, qualified_of, reference_of};
ghost use Rattle.pli_listing.specs.Mentions.{in_arguments, in_expr, in_exprs, in_option, in_optional, in_qualified};
ghost use Rattle.pli_listing.specs.Mentions.{in_reference, mention_of};

use crate::mention::{Mention, push_written};
use pli_language::expr::{Arguments, Expr, Exprs, Qualified, Reference};
use std::alloc::{AllocError, Global};

/// The names of an expression.
#[cycle(walk)]
#[tactic(auto, using(crate::proofs::Gathered::gathered))]
pub fn push_expr<'a>(
    alloc: Global,
    out: &mut Vec<Mention<'a>>,
    block: usize,
    expr: &'a Expr,
) -> Result<(), AllocError>
    ensures { OnOk result (map mention_of out.new.items ≡
        map mention_of out.old.items ++ in_expr block (expr_of expr.now)) }
{
    match expr {
        Expr::Number { .. } => Ok(()),
        Expr::Text { .. } => Ok(()),
        Expr::Bit { .. } => Ok(()),
        Expr::Parenthesized { inner, .. } => push_expr(alloc, out, block, inner),
        Expr::Prefix { operand, .. } => push_expr(alloc, out, block, operand),
        Expr::Infix { left, right, .. } => {
            push_expr(alloc, out, block, left)?;
            push_expr(alloc, out, block, right)
        }
        Expr::Refers(reference) => push_reference(alloc, out, block, reference),
    }
}

/// The names of a reference.
#[cycle(walk)]
#[tactic(auto, using(crate::proofs::Gathered::gathered))]
pub fn push_reference<'a>(
    alloc: Global,
    out: &mut Vec<Mention<'a>>,
    block: usize,
    reference: &'a Reference,
) -> Result<(), AllocError>
    ensures { OnOk result (map mention_of out.new.items ≡
        map mention_of out.old.items ++ in_reference block (reference_of reference.now)) }
{
    match reference {
        Reference::Plain(target) => push_qualified(alloc, out, block, Vec::new(alloc), target),
        Reference::Located { locator, target } => {
            push_reference(alloc, out, block, locator)?;
            push_qualified(alloc, out, block, Vec::new(alloc), target)
        }
    }
}

// The names with points between them that stand behind some.
#[cycle(walk)]
#[tactic(auto, using(crate::proofs::Gathered::gathered))]
fn push_qualified<'a>(
    alloc: Global,
    out: &mut Vec<Mention<'a>>,
    block: usize,
    before: Vec<&'a [u8]>,
    qualified: &'a Qualified,
) -> Result<(), AllocError>
    ensures { OnOk result (map mention_of out.new.items ≡
        map mention_of out.old.items ++
        in_qualified block (letters_of before.entry.items) (qualified_of qualified.now)) }
{
    match qualified {
        Qualified::Last { name, arguments } => {
            push_written(out, block, before, name)?;
            push_arguments(alloc, out, block, arguments)
        }
        Qualified::Of {
            name,
            arguments,
            rest,
        } => {
            push_arguments(alloc, out, block, arguments)?;
            let mut names = before;
            names.push(&name.letters)?;
            push_qualified(alloc, out, block, names, rest)
        }
    }
}

/// The names of what stands behind a name.
#[cycle(walk)]
#[tactic(auto, using(crate::proofs::Gathered::gathered))]
pub fn push_arguments<'a>(
    alloc: Global,
    out: &mut Vec<Mention<'a>>,
    block: usize,
    arguments: &'a Arguments,
) -> Result<(), AllocError>
    ensures { OnOk result (map mention_of out.new.items ≡
        map mention_of out.old.items ++ in_arguments block (arguments_of arguments.now)) }
{
    match arguments {
        Arguments::Absent => Ok(()),
        Arguments::Listed(exprs) => push_exprs(alloc, out, block, exprs),
    }
}

/// The names of a list of expressions.
#[cycle(walk)]
#[tactic(auto, using(crate::proofs::Gathered::gathered))]
pub fn push_exprs<'a>(
    alloc: Global,
    out: &mut Vec<Mention<'a>>,
    block: usize,
    exprs: &'a Exprs,
) -> Result<(), AllocError>
    ensures { OnOk result (map mention_of out.new.items ≡
        map mention_of out.old.items ++ in_exprs block (exprs_of exprs.now)) }
{
    let mut left = exprs;
    while let Exprs::More { first, rest } = left {
        push_expr(alloc, out, block, first)?;
        left = rest;
    }
    Ok(())
}

/// The names of an expression, where there is one.
pub fn push_option<'a>(
    alloc: Global,
    out: &mut Vec<Mention<'a>>,
    block: usize,
    expr: &'a Option<Expr>,
) -> Result<(), AllocError>
    ensures { OnOk result (map mention_of out.new.items ≡
        map mention_of out.old.items ++ in_option block (option_of expr_of expr.now)) }
{
    match expr {
        Some(expr) => push_expr(alloc, out, block, expr),
        None => Ok(()),
    }
}

/// The names of a reference, where there is one.
pub fn push_optional<'a>(
    alloc: Global,
    out: &mut Vec<Mention<'a>>,
    block: usize,
    reference: &'a Option<Reference>,
) -> Result<(), AllocError>
    ensures { OnOk result (map mention_of out.new.items ≡
        map mention_of out.old.items ++ in_optional block (option_of reference_of reference.now)) }
{
    match reference {
        Some(reference) => push_reference(alloc, out, block, reference),
        None => Ok(()),
    }
}
