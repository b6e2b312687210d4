// The same calls through each keeper: what areas of programs are to answer, and a thousand calls that all answer alike.

ghost use Rattle.std.specs.Prelude.{◌≡◌, ◌≤◌, ◌%◌};
ghost use Rattle.area_keeper.specs.KeeperLaws.{greatest_capacity};

use crate::area::empty_area;
use crate::draws::Draws;
use area_heap::chain::Chain;
use area_heap::fault::AreaFault;
use area_heap::keeper::AreaKeeper;
use free_heap::free_list::FreeList;
use granule_heap::granules::Granules;
use std::alloc::{AllocError, Global};
use std::process::Abort;

const SIGNATURE: u32 = 5;

const ANOTHER: u32 = 6;

/// A call on an area. What is placed begins with a byte, by which it is told when it is found; it has 1 byte or more.
#[derive(Clone, Copy, PartialEq, Debug)]
enum Call {
    Place { size: u64, byte: u8 },
    Free { offset: u32, signature: u32 },
    Find { offset: u32, signature: u32 },
    Extent { offset: u32, signature: u32 },
    /// From the other area.
    Copy,
    Empty,
}

#[derive(Clone, Copy, PartialEq, Debug)]
enum Answer {
    Placed(u32),
    Done,
    Held(u8),
    Extent(i32),
    Refused(AreaFault),
}

use Answer::{Done, Extent, Held, Placed, Refused};

/// Two areas.
#[derive(Drop)]
struct Areas {
    first: Vec<u8>,
    second: Vec<u8>,
}

fn done_or_refused(answer: Result<(), AreaFault>) -> Answer {
    match answer {
        Ok(()) => Done,
        Err(fault) => Refused(fault),
    }
}

/// The first byte of the generation at an offset.
fn find<K: AreaKeeper>(bytes: &[u8], offset: u32, signature: u32) -> Answer {
    if let Err(fault) = K::open(bytes) {
        return Refused(fault);
    }
    match K::find(bytes, offset, signature) {
        Ok(start) => Held(bytes.get(start as usize).copied().unwrap_or(0)),
        Err(fault) => Refused(fault),
    }
}

/// Puts the first byte of the generation at an offset.
fn put<K: AreaKeeper>(bytes: &mut [u8], offset: u32, byte: u8) {
    if K::open(bytes).is_ok()
        && let Ok(start) = K::find(bytes, offset, SIGNATURE)
        && let Some(first) = bytes.get_mut(start as usize)
    {
        *first = byte;
    }
}

fn place<K: AreaKeeper>(bytes: &mut [u8], size: u64, byte: u8) -> Answer {
    if let Err(fault) = K::open(bytes) {
        return Refused(fault);
    }
    match K::allocate(bytes, size, SIGNATURE, i32::from(byte) - 100) {
        Ok(offset) => {
            put::<K>(bytes, offset, byte);
            Placed(offset)
        }
        Err(fault) => Refused(fault),
    }
}

fn answered<K: AreaKeeper>(bytes: &mut [u8], other: &[u8], call: Call) -> Answer {
    if let Err(fault) = K::open(bytes) {
        return Refused(fault);
    }
    match call {
        Call::Place { size, byte } => place::<K>(bytes, size, byte),
        Call::Free { offset, signature } => done_or_refused(K::free(bytes, offset, signature)),
        Call::Find { offset, signature } => find::<K>(bytes, offset, signature),
        Call::Extent { offset, signature } => match K::extent(bytes, offset, signature) {
            Ok(extent) => Extent(extent),
            Err(fault) => Refused(fault),
        },
        Call::Copy => match K::open(other) {
            Ok(()) => done_or_refused(K::copy_from(bytes, other)),
            Err(fault) => Refused(fault),
        },
        Call::Empty => {
            K::empty(bytes);
            Done
        }
    }
}

impl Areas {
    fn new<K: AreaKeeper>(alloc: Global, first: u32, second: u32) -> Result<Areas, AllocError>
        requires rounded { first % 16 ≡ 0 }
        requires bounded { first ≤ greatest_capacity }
        requires second_rounded { second % 16 ≡ 0 }
        requires second_bounded { second ≤ greatest_capacity }
    {
        let first = empty_area::<K>(alloc, first)?;
        let second = empty_area::<K>(alloc, second)?;
        Ok(Areas { first, second })
    }

    fn call<K: AreaKeeper>(&mut self, in_second: bool, call: Call) -> Answer {
        if in_second {
            answered::<K>(self.second.as_mut_slice(), &self.first, call)
        } else {
            answered::<K>(self.first.as_mut_slice(), &self.second, call)
        }
    }
}

fn placing(size: u64, byte: u8) -> Call {
    Call::Place { size, byte }
}

fn freeing(offset: u32) -> Call {
    Call::Free {
        offset,
        signature: SIGNATURE,
    }
}

fn finding(offset: u32) -> Call {
    Call::Find {
        offset,
        signature: SIGNATURE,
    }
}

/// Calls on areas of these capacities, each with whether it is one on the second area, and what it is to answer.
fn row<K: AreaKeeper, R: Abort>(
    rt: &R,
    alloc: Global,
    capacities: (u32, u32),
    calls: &[(bool, Call, Answer)],
)
    requires rounded { capacities.0 % 16 ≡ 0 }
    requires bounded { capacities.0 ≤ greatest_capacity }
    requires second_rounded { capacities.1 % 16 ≡ 0 }
    requires second_bounded { capacities.1 ≤ greatest_capacity }
{
    let mut areas = Areas::new::<K>(alloc, capacities.0, capacities.1).expect(rt, "memory");
    for &(in_second, call, wanted) in calls {
        assert_eq!(rt; areas.call::<K>(in_second, call), wanted, "at {call:?}");
    }
}

const NO_GAP: Answer = Refused(AreaFault::NoGap);

const NO_GENERATION: Answer = Refused(AreaFault::NoGeneration);

/// What is placed where one area is too full, or has gaps.
fn rows_in_one_area<K: AreaKeeper, R: Abort>(rt: &R, alloc: Global) {
    let freed_and_tried_again = [
        (false, placing(4, 1), Placed(0)),
        (false, placing(4, 2), Placed(32)),
        (false, placing(4, 7), NO_GAP),
        (false, freeing(0), Done),
        (false, placing(4, 7), Placed(0)),
        (false, finding(0), Held(7)),
        (false, finding(32), Held(2)),
    ];
    row::<K, R>(rt, alloc, (64, 0), &freed_and_tried_again);
    let full_in_two_gaps = [
        (false, placing(16, 1), Placed(0)),
        (false, placing(16, 2), Placed(32)),
        (false, placing(16, 3), Placed(64)),
        (false, freeing(0), Done),
        (false, freeing(64), Done),
        (false, placing(32, 4), NO_GAP),
    ];
    row::<K, R>(rt, alloc, (96, 0), &full_in_two_gaps);
    let least_gap_taken = [
        (false, placing(48, 1), Placed(0)),
        (false, placing(16, 2), Placed(64)),
        (false, placing(16, 3), Placed(96)),
        (false, placing(16, 4), Placed(128)),
        (false, freeing(0), Done),
        (false, freeing(96), Done),
        (false, placing(16, 5), Placed(0)),
    ];
    row::<K, R>(rt, alloc, (160, 0), &least_gap_taken);
}

/// What is found where one area was assigned to the other.
fn rows_of_copies<K: AreaKeeper, R: Abort>(rt: &R, alloc: Global) {
    let list_walked_in_a_copy = [
        (false, placing(8, 1), Placed(0)),
        (false, placing(8, 2), Placed(32)),
        (false, placing(8, 3), Placed(64)),
        (true, Call::Copy, Done),
        (false, Call::Empty, Done),
        (true, finding(64), Held(3)),
        (true, finding(32), Held(2)),
        (true, finding(0), Held(1)),
        (false, finding(0), NO_GENERATION),
    ];
    row::<K, R>(rt, alloc, (160, 160), &list_walked_in_a_copy);
    let refused_assignment = [
        (false, placing(4, 1), Placed(0)),
        (false, placing(4, 2), Placed(32)),
        (true, placing(4, 4), Placed(0)),
        (true, Call::Copy, Refused(AreaFault::TooSmall)),
        (true, finding(0), Held(4)),
        (true, finding(32), NO_GENERATION),
    ];
    row::<K, R>(rt, alloc, (64, 32), &refused_assignment);
    let copy_keeps_offsets = [
        (false, placing(4, 1), Placed(0)),
        (false, placing(4, 8), Placed(32)),
        (false, freeing(0), Done),
        (true, Call::Copy, Done),
        (true, finding(32), Held(8)),
        (true, finding(0), NO_GENERATION),
        (true, placing(4, 9), Placed(0)),
        (true, placing(4, 9), NO_GAP),
    ];
    row::<K, R>(rt, alloc, (64, 64), &copy_keeps_offsets);
}

#[test]
fn areas_of_programs_answer_on_each_keeper(rt: HostRuntime) {
    let alloc = rt.alloc();
    rows_in_one_area::<Chain, HostRuntime>(&rt, alloc);
    rows_in_one_area::<Granules, HostRuntime>(&rt, alloc);
    rows_in_one_area::<FreeList, HostRuntime>(&rt, alloc);
    rows_of_copies::<Chain, HostRuntime>(&rt, alloc);
    rows_of_copies::<Granules, HostRuntime>(&rt, alloc);
    rows_of_copies::<FreeList, HostRuntime>(&rt, alloc);
}

/// Whether each keeper takes the bytes for an area.
fn opened(bytes: &[u8]) -> [bool; 3] {
    [
        Chain::open(bytes).is_ok(),
        Granules::open(bytes).is_ok(),
        FreeList::open(bytes).is_ok(),
    ]
}

#[test]
fn areas_of_other_keepers_are_damaged(rt: HostRuntime) {
    let alloc = rt.alloc();
    let chained = empty_area::<Chain>(alloc, 96).expect(&rt, "memory");
    assert_eq!(rt; opened(&chained), [true, false, false]);
    let marked = empty_area::<Granules>(alloc, 96).expect(&rt, "memory");
    assert_eq!(rt; opened(&marked), [false, true, false]);
    let listed = empty_area::<FreeList>(alloc, 96).expect(&rt, "memory");
    assert_eq!(rt; opened(&listed), [false, false, true]);
}

/// The header of the second generation leads back to the first, and to itself.
#[test]
fn a_ring_of_headers_is_damage(rt: HostRuntime) {
    let link = 60;
    for to in [1, 33] {
        let mut areas = Areas::new::<Chain>(rt.alloc(), 96, 0).expect(&rt, "memory");
        assert_eq!(rt; areas.call::<Chain>(false, placing(16, 1)), Placed(0));
        assert_eq!(rt; areas.call::<Chain>(false, placing(16, 2)), Placed(32));
        if let Some(byte) = areas.first.get_mut(link) {
            *byte = to;
        }
        let damaged = Refused(AreaFault::Damaged);
        assert_eq!(rt; areas.call::<Chain>(false, finding(0)), damaged);
        assert_eq!(rt; areas.call::<Chain>(false, placing(16, 3)), damaged);
        assert_eq!(rt; areas.call::<Chain>(true, Call::Copy), damaged);
    }
}

/// A call at random; offsets are those of generations placed lately.
fn drawn_call(draws: &mut Draws, offset: u32) -> Call {
    let kind = draws.below(20);
    let size = u64::from(draws.below(90)) + 1;
    let byte = draws.below(200) as u8;
    let signature = if draws.below(8) == 0 {
        ANOTHER
    } else {
        SIGNATURE
    };
    match kind {
        0..=8 => Call::Place { size, byte },
        9..=12 => Call::Free { offset, signature },
        13..=15 => Call::Find { offset, signature },
        16 | 17 => Call::Extent { offset, signature },
        18 => Call::Copy,
        _ if byte < 40 => Call::Empty,
        _ => Call::Find {
            offset: offset + 16,
            signature,
        },
    }
}

/// Answers of each sort: placed, done, found, refused without a gap, without a generation, and as too small.
fn sort(answer: Answer) -> usize {
    match answer {
        Placed(_) => 0,
        Done => 1,
        Held(_) | Extent(_) => 2,
        Refused(AreaFault::NoGap) => 3,
        Refused(AreaFault::NoGeneration) => 4,
        Refused(_) => 5,
    }
}

#[test]
fn a_thousand_calls_are_answered_alike(rt: HostRuntime) {
    let alloc = rt.alloc();
    let mut chained = Areas::new::<Chain>(alloc, 2048, 1024).expect(&rt, "memory");
    let mut marked = Areas::new::<Granules>(alloc, 2048, 1024).expect(&rt, "memory");
    let mut listed = Areas::new::<FreeList>(alloc, 2048, 1024).expect(&rt, "memory");
    let mut draws = Draws::new();
    let mut offsets = [0_u32; 32];
    let mut sorts = [0_u32; 6];
    for step in 0..1000_u32 {
        let in_second = draws.below(3) == 0;
        let call = drawn_call(&mut draws, offsets[step as usize % 32]);
        let wanted = chained.call::<Chain>(in_second, call);
        assert_eq!(rt;
            marked.call::<Granules>(in_second, call),
            wanted,
            "granules at {step}: {call:?}"
        );
        assert_eq!(rt;
            listed.call::<FreeList>(in_second, call),
            wanted,
            "free list at {step}: {call:?}"
        );
        sorts[sort(wanted)] += 1;
        if let Placed(offset) = wanted {
            offsets[draws.below(32) as usize % 32] = offset;
        }
    }
    for count in sorts {
        assert!(rt; count >= 5, "{sorts:?}");
    }
}
