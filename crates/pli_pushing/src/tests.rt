// A generation is pushed; without memory nothing is done.

ghost use Rattle.std.specs.Prelude.{◌≡◌, ◌^◌, MatchOption, length, ⊤};

use crate::pushing::push;
use area_heap::chain::Chain;
use controlled_gens::controlled::Controlled;
use pli_answering::reply::{Refusal, Reply};
use pli_signatures::signatures::Signatures;
use pli_storage::controlled_services::VARIABLES;
use pli_storage::held::Held;
use pli_storage::variables::Variables;
use pli_values::layout::Layout;
use std::alloc::Global;

/// One leaf: three numbers of precision 31, by bounds from 1 to 3.
const TABLE: [u32; 8] = [0, 1, 0, 1, 31, 1, 1, 3];

/// A heap of 64 bytes lies at 128; nothing lives.
fn held(alloc: Global) -> Option<Held>
    ensures { MatchOption result ⊤ (λ h. (h.layout.end ≡ 256) × (h.layout.heap_at ≡ 128) × (h.layout.heap_capacity ≡ 64) × (length h.controlled ≡ 2 ^ 16)) }
{
    let Ok(signatures) = Signatures::from_table(alloc, &TABLE) else {
        return None;
    };
    let Ok(controlled) = Controlled::new(alloc, VARIABLES) else {
        return None;
    };
    let layout = Layout {
        code_bytes: 4,
        heap_at: 128,
        heap_capacity: 64,
        end: 256,
    };
    Some(Held {
        layout,
        signatures,
        variables: Variables::new(alloc),
        heap_made: false,
        controlled,
    })
}

#[test]
fn an_array_is_pushed(rt: HostRuntime) {
    let Some(mut held) = held(rt.alloc()) else {
        return;
    };
    let mut memory = [0; 256];
    match push::<Chain>(&mut held, rt.alloc(), &mut memory, 7, 0, 0) {
        Ok(reply) => {
            assert!(rt; reply == Reply::Done(7, 0));
            assert!(rt; held.heap_made && held.controlled.count(7) == 1);
        }
        Err(refusal) => {
            assert!(rt; refusal == Refusal::Memory);
            assert!(rt; !held.heap_made && held.controlled.count(7) == 0);
        }
    }
}
