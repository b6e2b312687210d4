// The places of data behind the code.

ghost use Rattle.std.specs.Prelude.{◌≡◌, ◌+◌, ◌*◌, ◌/◌, ◌<◌, ◌≤◌, ◌^◌, length, map, IfOk};
ghost use Rattle.pli_typing.specs.Signatures.{rounded_up};
ghost use Rattle.pli_coding.specs.StaticData as form;
ghost use Rattle.rv_assembly.specs.Borrowed.{datum};
ghost use Rattle.rv_assembly.specs.Placed.{placed_of};

use crate::statics::DatumRef;
use std::alloc::{AllocError, Global};

/// A datum and its place, in bytes from the base.
#[derive(Clone, Copy, Debug)]
pub struct PlacedDatum<'a> {
    pub datum: DatumRef<'a>,
    pub place: u32,
}

/// A number of bytes or a place that 32 bits hold. No memory holds more.
fn held(number: u64) -> Result<u32, AllocError>
    ensures { IfOk result (λ n. n ≡ number) }
{
    if number < 1 << 32 {
        Ok(number as u32)
    } else {
        Err(AllocError)
    }
}

fn rounded(number: u64, multiple: u64) -> u64
    requires some { 0 < multiple }
    requires small { multiple ≤ 16 }
    requires narrow { number < 2 ^ 40 }
    ensures { result ≡ rounded_up multiple number }
{
    (number + (multiple - 1)) / multiple * multiple
}

impl DatumRef<'_> {
    /// In bytes.
    pub(crate) fn size(self) -> Result<u64, AllocError>
        ensures size { IfOk result (λ n. n ≡ form.datum_size (datum self.entry)) }
        ensures narrow { IfOk result (λ n. n < 2 ^ 40) }
    {
        match self {
            DatumRef::ConstantBytes(bytes) => {
                Ok(rounded(u64::from(held(bytes.len() as u64)?), 4))
            }
            DatumRef::InitialValues(leaves) => { Ok(4 + 8 * u64::from(held(leaves.len() as u64)?)) }
            DatumRef::NumberWord { .. } => Ok(4),
            DatumRef::StaticStorage { bytes, .. } => Ok(16 + u64::from(held(bytes as u64)?)),
        }
    }

    // Storage begins at a multiple of 16.
    fn begins_at(self, place: u32) -> u64
        ensures { result ≡ form.begins_at (datum self.entry) place }
    {
        match self {
            DatumRef::StaticStorage { .. } => rounded(u64::from(place), 16),
            _ => u64::from(place),
        }
    }
}

/// Where data begins behind so many words of code.
pub(crate) fn start_behind(words: usize) -> u32
    requires { words < 2 ^ 28 }
    ensures { result ≡ rounded_up 16 (4 * words) }
{
    rounded(4 * words as u64, 16) as u32
}

/// The data at its places, from the first one on.
#[tactic(auto, using(crate::proofs::PlacedSteps::next_placed))]
pub(crate) fn placed_from<'a>(
    alloc: Global,
    start: u32,
    list: &[DatumRef<'a>],
) -> Result<Vec<PlacedDatum<'a>>, AllocError>
    ensures { IfOk result (λ p. map placed_of p.items ≡ form.placed_from start (map datum list.now)) }
{
    let mut out = Vec::new(alloc);
    let mut at = start;
    for datum in list {
        let place = held(datum.begins_at(at))?;
        at = held(u64::from(place) + datum.size()?)?;
        out.push(PlacedDatum {
            datum: *datum,
            place,
        })?;
    }
    Ok(out)
}
