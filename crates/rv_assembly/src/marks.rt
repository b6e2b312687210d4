// Where symbols stand in the code.

ghost use Rattle.std.specs.Prelude.{◌≡◌, ◌+◌, ◌*◌, ◌<◌, ◌≤◌, ◌^◌, ◌++◌, length, map, OnOk, IfOk};
ghost use Rattle.pli_coding.specs.Linking.{marks_from};
ghost use Rattle.rv_assembly.specs.View.{item_of};
ghost use Rattle.rv_assembly.specs.Marks.{mark_of, mark_at};

use crate::code::Code;
use crate::item::{Item, Symbol};
use std::alloc::{AllocError, Global};

/// A symbol and its place, in bytes from the base.
#[derive(Clone, Copy, Debug)]
pub struct MarkedPlace<'a> {
    pub symbol: &'a Symbol,
    pub place: u32,
}

fn put_mark<'a>(
    marks: &mut Vec<MarkedPlace<'a>>,
    place: u32,
    item: &'a Item,
) -> Result<(), AllocError>
    ensures { OnOk result (map mark_of marks.new.items ≡ map mark_of marks.old.items ++ mark_at place (item_of item.now)) }
{
    match item {
        Item::Mark(symbol) => {
            marks.push(MarkedPlace { symbol, place })?;
            Ok(())
        }
        _ => Ok(()),
    }
}

/// The marks of the code, in its order.
#[tactic(auto, using(crate::proofs::Marking::next_mark, crate::proofs::Marking::next_place, crate::proofs::Marking::place_fits))]
pub(crate) fn marks_in<'a>(
    alloc: Global,
    code: &'a Code,
) -> Result<Vec<MarkedPlace<'a>>, AllocError>
    ensures { IfOk result (λ m. map mark_of m.items ≡ marks_from 0 code.now) }
{
    let mut marks = Vec::new(alloc);
    let mut place: u32 = 0;
    let items = code.items();
    for item in items {
        put_mark(&mut marks, place, item)?;
        place += 4 * item.size() as u32;
    }
    Ok(marks)
}
