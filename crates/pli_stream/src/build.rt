// Format lists out of their items.

ghost use Rattle.std.specs.Prelude.{◌≡◌, IfOk};
ghost use Rattle.pli_language.specs.Tree as T;
ghost use Rattle.pli_language.specs.View.{format_of, formats_of};
ghost use Rattle.pli_phrase.specs.View.{newest};
ghost use Rattle.pli_stream.specs.Reading as R;
ghost use Rattle.pli_stream.specs.View.{item_of};

use crate::state::Item;
use pli_language::stmt::{Format, Formats};
use std::alloc::{AllocError, Global};

/// An item before others.
#[tactic(auto, unfolding(pli_language::specs::View::formats_of))]
fn before(alloc: Global, first: Item, rest: Formats) -> Result<Formats, AllocError>
    ensures { IfOk result (λ fs. formats_of fs ≡ T.FormatThen first.place first.repetition (format_of first.format) (formats_of rest)) }
{
    Ok(Formats::More {
        place: first.place,
        repetition: first.repetition,
        first: first.format,
        rest: Box::new(alloc, rest)?,
    })
}

#[tactic(auto, unfolding(pli_language::specs::View::formats_of))]
fn no_format() -> Formats
    ensures { formats_of result ≡ T.NoFormat }
{
    Formats::End
}

/// Items in their order.
#[tactic(auto, using(pli_phrase::proofs::Newest::newest_snoc, pli_phrase::proofs::Newest::newest_none))]
pub fn listed(alloc: Global, items: Vec<Item>) -> Result<Formats, AllocError>
    ensures { IfOk result (λ fs. formats_of fs ≡ R.listed (newest item_of items.items)) }
{
    let mut items = items;
    let mut list = no_format();
    while let Some(item) = items.pop() {
        list = before(alloc, item, list)?;
    }
    Ok(list)
}

/// A list as an item of one around it.
#[tactic(auto, unfolding(pli_language::specs::View::format_of))]
pub fn nested(alloc: Global, formats: Formats) -> Result<Format, AllocError>
    ensures { IfOk result (λ f. format_of f ≡ T.FormatList (formats_of formats)) }
{
    Ok(Format::List(Box::new(alloc, formats)?))
}
