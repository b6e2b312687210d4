// Signatures whose extents the run tells: service 3.

ghost use Rattle.std.specs.Prelude.{◌≡◌, ℕ, List, map, min};
ghost use Rattle.pli_answering.specs.Answering.{Answers};
ghost use Rattle.pli_serving.specs.Finding.{Call};
ghost use Rattle.pli_serving.specs.SignatureService as service;
ghost use Rattle.pli_serving.specs.Templates.{shape_at};
ghost use Rattle.pli_signatures.specs.View.{place_of};
ghost use Rattle.pli_types.specs.View.{pair_of};
ghost use Rattle.pli_typing.specs.Signatures.{rounded_up};
ghost use Rattle.pli_storage.specs.Extents.{extent_filled};
ghost use Rattle.pli_storage.specs.Held.{with_held, IsLaid};

use crate::held::Held;
use area_heap::keeper::AreaKeeper;
use pli_answering::reply::{Refusal, Reply};
use pli_signatures::filling::ExtentPlace;
use pli_signatures::signatures::Signatures;
use pli_types::signature::Bounds;
use pli_values::places::places_at;
use pli_values::source::Source;
use std::alloc::Global;

/// The most bytes that are reserved.
const MOST_RESERVED: u64 = 1 << 30;

/// So many bytes, as a multiple of 16, up to the most that are reserved.
fn rounded(bytes: u64) -> u32
    ensures { result ≡ min service.most_reserved (rounded_up 16 bytes) }
{
    if bytes >= MOST_RESERVED {
        return MOST_RESERVED as u32;
    }
    (bytes as u32).next_multiple_of(16)
}

/// The bytes to reserve for a generation of the signature of a number, none while an extent is open.
#[tactic(auto, using(crate::proofs::Reserving::reserved_area, crate::proofs::Reserving::reserved_data, crate::proofs::Reserving::reserved_none))]
fn reserved<K: AreaKeeper>(signatures: &Signatures, number: u32) -> u32
    ensures { result ≡ service.reserved_for K.keeper (shape_at signatures.now number) }
{
    match signatures.capacity(number) {
        Some(capacity) => rounded(K::bytes_for(capacity) as u64),
        None => match signatures.data_size(number) {
            Some(size) => rounded(size),
            None => 0,
        },
    }
}

/// The bounds that two words give.
fn bounds_given(lower: u32, upper: u32) -> Bounds
    ensures { pair_of result ≡ service.bounds_given lower upper }
{
    Bounds {
        lower: lower.cast_signed(),
        upper: upper.cast_signed(),
    }
}

impl Held {
    /// The number of a signature with an extent at places that share it.
    #[tactic(auto, using(crate::proofs::Reserving::filled_none, crate::proofs::Reserving::unfilled, crate::proofs::Reserving::filled_so))]
    fn fill<K: AreaKeeper>(
        &mut self,
        alloc: Global,
        number: u32,
        places: &[ExtentPlace],
        extent: Bounds,
    ) -> Result<Reply, Refusal>
        ensures answers { (m : List ℕ) → (c : Call) → Answers (λ c. extent_filled c (pair_of extent) number (map place_of places.now)) (with_held K.keeper self.old m c) result (with_held K.keeper self.new m c) }
        ensures kept { self.new ≡ record self.old { signatures = self.new.signatures } }
    {
        match self.signatures.fill(alloc, number, places, extent)? {
            Some(filled) => {
                let bytes = reserved::<K>(&self.signatures, filled);
                Ok(Reply::Done(filled, bytes))
            }
            None => Err(Refusal::Bad),
        }
    }

    /// 3: the signature with one extent as written filled in at all places that share it.
    pub fn signature<K: AreaKeeper>(
        &mut self,
        alloc: Global,
        memory: &[u8],
        number: u32,
        places: u32,
        lower: u32,
        upper: u32,
    ) -> Result<Reply, Refusal>
        requires { IsLaid K.keeper self.old.layout memory.now }
        ensures answers { (c : Call) → Answers (λ c. service.signature_served c number places lower upper) (with_held K.keeper self.old memory.now c) result (with_held K.keeper self.new memory.now c) }
        ensures kept { self.new ≡ record self.old { signatures = self.new.signatures } }
    {
        let extent = bounds_given(lower, upper);
        match places_at(alloc, &Source::new(self.layout, memory), places as usize)? {
            Some(list) => self.fill::<K>(alloc, number, &list, extent),
            None => Err(Refusal::Bad),
        }
    }
}
