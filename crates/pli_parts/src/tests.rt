// An array is taken, and another is put in its place; without memory nothing is done.

ghost use Rattle.std.specs.Prelude.{◌≡◌, MatchOption, length, ⊤};

use crate::part::{PartAsked, find_part};
use crate::putting::put_aggregate;
use crate::taking::take_aggregate;
use area_heap::chain::Chain;
use controlled_gens::controlled::Controlled;
use controlled_gens::roots::Place;
use pli_aggregates::runs::Run;
use pli_answering::reply::{Refusal, Reply};
use pli_entries::entries::Entries;
use pli_entries::taken::TakenLeaf;
use pli_signatures::element::ElementKind;
use pli_signatures::signatures::Signatures;
use pli_storage::held::Held;
use pli_storage::variables::Variables;
use pli_types::signature::Bounds;
use pli_values::layout::Layout;
use pli_values::word::{put_words, word_at};
use smallvec::SmallVec;
use std::alloc::{AllocError, Global};

/// One leaf: three numbers of precision 31, by bounds from 1 to 3.
const TABLE: [u32; 8] = [0, 1, 0, 1, 31, 1, 1, 3];

/// The record stands at 32, the name at 16.
const ASKED: PartAsked = PartAsked {
    at: 32,
    first: 0,
    leaves: 1,
    given: 0,
};

/// The variable of serial 1 has its data at 64; the heap lies at 128.
fn held(alloc: Global) -> Option<Held>
    ensures { MatchOption result ⊤ (λ h. (h.layout.end ≡ 256) × (h.layout.heap_at ≡ 128) × (h.layout.heap_capacity ≡ 0)) }
{
    let Ok(signatures) = Signatures::from_table(alloc, &TABLE) else {
        return None;
    };
    let Ok(controlled) = Controlled::new(alloc, 0) else {
        return None;
    };
    let mut variables = Variables::new(alloc);
    if variables.enter(Place { at: 64, len: 12 }, 0, 0).is_err() {
        return None;
    }
    let layout = Layout {
        code_bytes: 4,
        heap_at: 128,
        heap_capacity: 0,
        end: 256,
    };
    Some(Held {
        layout,
        signatures,
        variables,
        heap_made: false,
        controlled,
    })
}

/// The name, the record, and three numbers.
fn fill(memory: &mut [u8])
    requires { length memory.old ≡ 256 }
{
    put_words(memory, 16, &[1, 0, 1, 0]);
    put_words(memory, 32, &[16, 0, 0, 0]);
    put_words(memory, 64, &[5, 6, 7]);
}

#[test]
fn an_array_is_taken(rt: HostRuntime) {
    let Some(held) = held(rt.alloc()) else {
        return;
    };
    let mut memory = [0; 256];
    fill(&mut memory);
    let mut entries = Entries::new(rt.alloc());
    match take_aggregate::<Chain>(rt.alloc(), &held, &mut entries, &memory, ASKED) {
        Ok(reply) => assert!(rt; reply == Reply::Done(32, 0) && entries.height() == 1),
        Err(refusal) => assert!(rt; refusal == Refusal::Memory && entries.height() == 0),
    }
}

/// The numbers 8, 9 and 10, by bounds from 1 to 3.
fn taken(alloc: Global) -> Result<TakenLeaf, AllocError> {
    Ok(TakenLeaf {
        kind: ElementKind::Fixed { precision: 31 },
        bounds: SmallVec::from_slice(alloc, &[Bounds { lower: 1, upper: 3 }])?,
        bytes: Vec::from_slice(alloc, b"\x08\0\0\0\x09\0\0\0\x0a\0\0\0")?,
    })
}

#[test]
fn an_array_is_put(rt: HostRuntime) {
    let Some(held) = held(rt.alloc()) else {
        return;
    };
    let Ok(taken) = taken(rt.alloc()) else {
        return;
    };
    let mut memory = [0; 256];
    fill(&mut memory);
    match put_aggregate::<Chain>(rt.alloc(), &held, &mut memory, &[taken], ASKED) {
        Ok(reply) => {
            assert!(rt; reply == Reply::Done(32, 0));
            assert!(rt; word_at(&memory, 64) == 8 && word_at(&memory, 72) == 10);
        }
        Err(refusal) => assert!(rt; refusal == Refusal::Memory && word_at(&memory, 64) == 5),
    }
}

#[test]
fn a_part_has_its_elements(rt: HostRuntime) {
    let Some(held) = held(rt.alloc()) else {
        return;
    };
    let mut memory = [0; 256];
    fill(&mut memory);
    match find_part::<Chain>(rt.alloc(), &held, &memory, ASKED) {
        Ok(Some(leaves)) => {
            let whole = Run {
                at: 64,
                step: 4,
                count: 3,
            };
            assert!(rt; leaves.len() == 1 && leaves[0].run == whole);
        }
        Ok(None) => assert!(rt; false),
        Err(refusal) => assert!(rt; refusal == Refusal::Memory),
    }
}
