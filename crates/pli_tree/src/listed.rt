// Lists of statements, from their statements one by one.

ghost use Rattle.std.specs.Prelude.{◌≡◌, map, IfOk};
ghost use Rattle.pli_typing.specs.Resolving.{letters_of};
ghost use Rattle.pli_typing.specs.TypedStatementView.{stmts_of};
ghost use Rattle.pli_typing.specs.TypedTree as Y;
ghost use Rattle.pli_language.specs.View.{item_of, name_of, option_of};
ghost use Rattle.pli_tree.specs.Shown.{ended, part_of, parts_onto};

use pli_language::expr::Name;
use pli_language::stmt::Item;
use pli_typing::statement::{Stmt, Stmts};
use std::alloc::{AllocError, Global};

/// A statement with its labels.
#[derive(Drop)]
pub struct Part<'a> {
    pub labels: &'a [Name],
    pub statement: Stmt<'a>,
}

/// The labels of END, where an item is END's.
#[tactic(auto, using(pli_language::proofs::Views::views), unfolding(crate::specs::Shown::ended))]
pub fn ended<'a>(item: &'a Item) -> Option<&'a [Name]>
    ensures { option_of (λ ns. map name_of ns.now) result ≡ ended (item_of item.now) }
{
    match item {
        Item::EndLabels { labels, .. } => Some(labels),
        Item::Procedure { .. } | Item::Declare { .. } | Item::Statement { .. } => None,
    }
}

/// A statement before the rest of its list.
#[tactic(auto, unfolding(pli_typing::specs::TypedStatementView::stmts_of))]
fn before<'a>(alloc: Global, part: Part<'a>, rest: Stmts<'a>) -> Result<Stmts<'a>, AllocError>
    ensures { IfOk result (λ list. stmts_of list ≡ Y.StmtThen (part_of part.entry).labels (part_of part.entry).statement (stmts_of rest.entry)) }
{
    let Part { labels, statement } = part;
    let first = Box::new(alloc, statement)?;
    let rest = Box::new(alloc, rest)?;
    Ok(Stmts::More {
        labels,
        first,
        rest,
    })
}

/// The end of a list.
#[tactic(auto, unfolding(pli_typing::specs::TypedStatementView::stmts_of))]
fn end_of<'a>(labels: &'a [Name]) -> Stmts<'a>
    ensures { stmts_of result ≡ Y.EndOfList (letters_of (map name_of labels.now)) }
{
    Stmts::End { labels }
}

/// The list of these statements, with the labels of its END.
#[tactic(auto, using(crate::proofs::Lists::onto_none, crate::proofs::Lists::onto_snoc, std::proofs::lemmas::List::map_push))]
pub fn listed<'a>(
    alloc: Global,
    parts: Vec<Part<'a>>,
    labels: &'a [Name],
) -> Result<Stmts<'a>, AllocError>
    ensures { IfOk result (λ list. stmts_of list ≡ parts_onto (map part_of parts.entry.items) (Y.EndOfList (letters_of (map name_of labels.now)))) }
{
    let mut parts = parts;
    let mut list = end_of(labels);
    while let Some(part) = parts.pop() {
        list = before(alloc, part, list)?;
    }
    Ok(list)
}
