// Elements of an array of three, alone and in a structure, and that there is no fourth; without memory nothing is done.

ghost use Rattle.std.specs.Prelude.{◌≡◌, MatchOption, length, ⊤};

use crate::element::element;
use area_heap::chain::Chain;
use controlled_gens::controlled::Controlled;
use controlled_gens::roots::Place;
use pli_answering::reply::{Refusal, Reply};
use pli_signatures::signatures::Signatures;
use pli_storage::held::Held;
use pli_storage::variables::Variables;
use pli_values::layout::Layout;
use pli_values::word::{put_words, word_at};
use std::alloc::Global;

/// One leaf: three numbers of precision 31, by bounds from 1 to 3.
const TABLE: [u32; 8] = [0, 1, 0, 1, 31, 1, 1, 3];

/// The variable of serial 1 has its data at 64; the heap lies at 128.
fn held(alloc: Global) -> Option<Held>
    ensures { MatchOption result ⊤ (λ h. (h.layout.end ≡ 256) × (h.layout.heap_at ≡ 128) × (h.layout.heap_capacity ≡ 0)) }
{
    let Ok(signatures) = Signatures::from_table(alloc, &TABLE) else {
        return None;
    };
    let Ok(controlled) = Controlled::new(alloc, 0) else {
        return None;
    };
    let mut variables = Variables::new(alloc);
    if variables.enter(Place { at: 64, len: 12 }, 0, 0).is_err() {
        return None;
    }
    let layout = Layout {
        code_bytes: 4,
        heap_at: 128,
        heap_capacity: 0,
        end: 256,
    };
    Some(Held {
        layout,
        signatures,
        variables,
        heap_made: false,
        controlled,
    })
}

/// The name at 16, the record at 32, the shape at 80: an array of one dimension, the first leaf.
fn fill(memory: &mut [u8])
    requires { length memory.old ≡ 256 }
{
    put_words(memory, 16, &[1, 0, 1, 0]);
    put_words(memory, 32, &[16, 0, 0, 0]);
    put_words(memory, 80, &[0, 1, 0, 0]);
}

#[test]
fn an_element_is_found(rt: HostRuntime) {
    let Some(held) = held(rt.alloc()) else {
        return;
    };
    let mut memory = [0; 256];
    fill(&mut memory);
    match element::<Chain>(rt.alloc(), &held, &mut memory, 32, 80, 1, 96) {
        Ok(reply) => {
            assert!(rt; reply == Reply::Done(68, 0));
            assert!(rt; word_at(&memory, 96) == 1 && word_at(&memory, 100) == 31);
        }
        Err(refusal) => assert!(rt; refusal == Refusal::Memory && word_at(&memory, 96) == 0),
    }
}

#[test]
fn no_element_is_behind_the_last(rt: HostRuntime) {
    let Some(held) = held(rt.alloc()) else {
        return;
    };
    let mut memory = [0; 256];
    fill(&mut memory);
    match element::<Chain>(rt.alloc(), &held, &mut memory, 32, 80, 3, 96) {
        Ok(reply) => assert!(rt; reply == Reply::Done(u32::MAX, 0)),
        Err(refusal) => assert!(rt; refusal == Refusal::Memory),
    }
    assert!(rt; word_at(&memory, 96) == 0);
}

#[test]
fn an_element_in_a_structure_is_found(rt: HostRuntime) {
    let Some(held) = held(rt.alloc()) else {
        return;
    };
    let mut memory = [0; 256];
    fill(&mut memory);
    put_words(&mut memory, 80, &[0, 0, 1, 0, 1, 0, 0]);
    match element::<Chain>(rt.alloc(), &held, &mut memory, 32, 80, 2, 112) {
        Ok(reply) => {
            assert!(rt; reply == Reply::Done(72, 0));
            assert!(rt; word_at(&memory, 112) == 1 && word_at(&memory, 116) == 31);
        }
        Err(refusal) => assert!(rt; refusal == Refusal::Memory && word_at(&memory, 112) == 0),
    }
}
