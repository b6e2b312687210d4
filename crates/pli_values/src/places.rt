// Lists of the places that share an extent.

ghost use Rattle.std.specs.Prelude.{◌≡◌, IfOk, map, option_map};
ghost use Rattle.pli_serving.specs.SignatureService.{places_at};
ghost use Rattle.pli_signatures.specs.View.{place_of};
ghost use Rattle.pli_values.specs.View.{layout_of};

use crate::source::Source;
use crate::word::word_at;
use pli_signatures::filling::ExtentPlace;
use std::alloc::{AllocError, Global};

/// The list of places at an address, `None` where not all of it is data.
pub fn places_at(
    alloc: Global,
    source: &Source,
    at: usize,
) -> Result<Option<Vec<ExtentPlace>>, AllocError>
    ensures { IfOk result (λ o. option_map (λ places. map place_of places.items) o ≡ places_at (layout_of source.now.layout) at source.now.memory.now) }
{
    if !source.layout.is_data(at, 4) {
        return Ok(None);
    }
    let count = word_at(source.memory, at);
    if !source.layout.is_data(at, 4 + 8 * count as usize) {
        return Ok(None);
    }
    let mut places = Vec::new(alloc);
    for place in 0..count {
        let here = at + 4 + 8 * place as usize;
        places.push(ExtentPlace {
            leaf: word_at(source.memory, here),
            dimension: word_at(source.memory, here + 4),
        })?;
    }
    Ok(Some(places))
}
