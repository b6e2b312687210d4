// A procedure makes an array with INITIAL values and a STATIC area; a larger array passes the limit.

ghost use Rattle.std.specs.Prelude.{◌≡◌, ◌≤◌, MatchOption, length, ⊤};
ghost use Rattle.area_keeper.specs.Chain.{chain};
ghost use Rattle.controlled_gens.specs.Rooted.{livings, none_rooted};
ghost use Rattle.pli_storage.specs.Held.{IsLaid};
ghost use Rattle.pli_making.specs.InUse.{IsCounted};

use crate::in_use::InUse;
use crate::making::make;
use crate::wanted::Making;
use area_heap::chain::Chain;
use controlled_gens::controlled::Controlled;
use pli_answering::reply::{Refusal, Reply};
use pli_edit::output::Output;
use pli_meaning::outcome::{End, Limit};
use pli_services::blocks::Standing;
use pli_services::flow::Flow;
use pli_signatures::signatures::Signatures;
use pli_storage::held::Held;
use pli_storage::variables::Variables;
use pli_values::layout::Layout;
use pli_values::word::{put_words, word_at};
use std::alloc::Global;

/// Three numbers of precision 31; an area of 64 bytes; and 2 MiB of numbers.
const TABLE: [u32; 22] = [
    0, 1, 0, 1, 31, 1, 1, 3, 0, 1, 0, 7, 64, 0, 0, 1, 0, 1, 31, 1, 1, 524288,
];

const NONE_WAIT: Standing = Standing {
    are_texts: true,
    entries: 0,
    edits: 0,
};

/// The array, all of it 5 by what stands at 32.
const ARRAY: Making = Making {
    name: 16,
    signature: 0,
    initial: 32,
    place: 64,
    class: 0,
};

const AREA: Making = Making {
    name: 80,
    signature: 1,
    initial: 0,
    place: 96,
    class: 1,
};

const LARGE: Making = Making {
    name: 16,
    signature: 2,
    initial: 0,
    place: 64,
    class: 0,
};

/// Nothing lives; the heap lies at 256.
fn held(alloc: Global) -> Option<Held>
    ensures layout { MatchOption result ⊤ (λ h. (h.layout.end ≡ 512) × (h.layout.heap_at ≡ 256) × (h.layout.heap_capacity ≡ 0)) }
    ensures none { MatchOption result ⊤ (λ h. h.variables ≡ none_rooted) }
{
    let Ok(signatures) = Signatures::from_table(alloc, &TABLE) else {
        return None;
    };
    let Ok(controlled) = Controlled::new(alloc, 0) else {
        return None;
    };
    let layout = Layout {
        code_bytes: 4,
        heap_at: 256,
        heap_capacity: 0,
        end: 512,
    };
    Some(Held {
        layout,
        signatures,
        variables: Variables::new(alloc),
        heap_made: false,
        controlled,
    })
}

// What the calls reply, up to the first for which there is no memory.
fn walk(
    flow: &mut Flow<Output>,
    held: &mut Held,
    in_use: &mut InUse,
    alloc: Global,
    memory: &mut [u8],
) -> Result<[Reply; 3], Refusal>
    requires laid { IsLaid chain held.old.layout memory.old }
    requires counted { IsCounted held.old.signatures (livings held.old.variables.roots) in_use.old }
    requires height { length in_use.old ≤ length flow.old.activations }
{
    let array = make::<Chain, Output>(flow, held, in_use, alloc, memory, ARRAY)?;
    let area = make::<Chain, Output>(flow, held, in_use, alloc, memory, AREA)?;
    let limit = make::<Chain, Output>(flow, held, in_use, alloc, memory, LARGE)?;
    Ok([array, area, limit])
}

#[test]
fn variables_are_made(rt: HostRuntime) {
    let Some(mut held) = held(rt.alloc()) else {
        return;
    };
    let mut memory = [0; 512];
    put_words(&mut memory, 32, &[1, 0, 12, 1, 3, 1, 5]);
    let mut flow = Flow::new(rt.alloc(), Output::new(rt.alloc()));
    if flow.enter(0, 4096, 1, 0, NONE_WAIT).is_err() {
        return;
    }
    let mut in_use = InUse::new(rt.alloc());
    match walk(&mut flow, &mut held, &mut in_use, rt.alloc(), &mut memory) {
        Ok(replies) => {
            assert!(rt; replies[0] == Reply::Done(16, 0) && replies[1] == Reply::Done(80, 1));
            assert!(rt;
                replies[2] == Reply::Ended && flow.shown.end == End::Limit(Limit::Automatic)
            );
            assert!(rt; word_at(&memory, 16) == 1 && word_at(&memory, 24) == 1);
            assert!(rt; word_at(&memory, 72) == 5 && word_at(&memory, 88) == 2);
            assert!(rt; word_at(&memory, 100) == 64 && in_use.all() == 32);
        }
        Err(refusal) => assert!(rt; refusal == Refusal::Memory),
    }
}
