// Lists of items, and of names.

ghost use Rattle.std.specs.Prelude.{◌≡◌, IfOk, map};
ghost use Rattle.pli_language.specs.Nesting.{items_of_list};
ghost use Rattle.pli_language.specs.Tree.{ItemThen, NoItem};
ghost use Rattle.pli_language.specs.View.{item_of, items_of, name_of};

use pli_language::expr::Name;
use pli_language::stmt::{Item, Items};
use std::alloc::{AllocError, Global};

/// An item before others.
#[tactic(auto, using(pli_language::proofs::Views::views))]
fn item_then(alloc: Global, first: Item, rest: Items) -> Result<Items, AllocError>
    ensures { IfOk result (λ is. items_of is ≡ ItemThen (item_of first) (items_of rest)) }
{
    Ok(Items::More {
        first: Box::new(alloc, first)?,
        rest: Box::new(alloc, rest)?,
    })
}

#[tactic(auto, using(pli_language::proofs::Views::views))]
fn no_item() -> Items
    ensures { items_of result ≡ NoItem }
{
    Items::End
}

/// Items in their order.
#[tactic(auto, using(crate::proofs::Lists::onto_none, crate::proofs::Lists::onto_snoc, crate::proofs::Lists::onto_list, std::proofs::lemmas::List::map_push))]
pub fn items_in(alloc: Global, items: Vec<Item>) -> Result<Items, AllocError>
    ensures { IfOk result (λ is. items_of is ≡ items_of_list (map item_of items.items)) }
{
    let mut items = items;
    let mut list = no_item();
    while let Some(item) = items.pop() {
        list = item_then(alloc, item, list)?;
    }
    Ok(list)
}

/// The same name.
fn copied_name(alloc: Global, name: &Name) -> Result<Name, AllocError>
    ensures { IfOk result (λ n. name_of n ≡ name_of name.now) }
{
    let mut letters = Vec::new(alloc);
    letters.extend_from_slice(&name.letters)?;
    Ok(Name {
        letters,
        word: name.word,
        place: name.place,
    })
}

/// The same names.
#[tactic(auto, using(std::proofs::lemmas::List::map_push))]
pub fn copied(alloc: Global, names: &[Name]) -> Result<Vec<Name>, AllocError>
    ensures { IfOk result (λ ns. map name_of ns.items ≡ map name_of names.now) }
{
    let mut copies = Vec::new(alloc);
    let mut rest = names;
    while let Some((first, behind)) = rest.split_first() {
        copies.push(copied_name(alloc, first)?)?;
        rest = behind;
    }
    Ok(copies)
}
