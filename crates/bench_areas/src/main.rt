// How fast each keeper keeps areas: four works, done a little for their answers, or long for the time with the
// argument `time`.
#![tactic(auto)]

mod works;

ghost use Rattle.std.specs.Prelude.{◌≡◌, ◌≤◌, ◌%◌};
ghost use Rattle.area_keeper.specs.KeeperLaws.{greatest_capacity};

use anyhow::Result;
use area_heap::chain::Chain;
use area_heap::keeper::AreaKeeper;
use free_heap::free_list::FreeList;
use granule_heap::granules::Granules;
use std::env;
use std::time::Instant;
use works::{Areas, OF_LISTS, Turns, at_random, copies, fragment, in_gaps, list};

/// A work and how many turns of it are done, a few and many.
#[derive(Clone, Copy)]
struct Work {
    name: &'static str,
    few: u32,
    many: u32,
}

const LIST: Work = Work {
    name: "list",
    few: 1,
    many: 20,
};

const RANDOM: Work = Work {
    name: "random",
    few: 2_000,
    many: 100_000,
};

const GAPS: Work = Work {
    name: "gaps",
    few: 2,
    many: 1_000,
};

const COPIES: Work = Work {
    name: "copies",
    few: 2,
    many: 100,
};

/// What is told of a work.
fn tell(rt: &HostRuntime, name: &str, timed: bool, start: Instant, answers: u64) -> Result<()> {
    let micros = start.elapsed(rt)?.as_micros();
    if timed {
        println!(rt; "  {name}: {answers}, {micros} microseconds")?;
    } else {
        println!(rt; "  {name}: {answers}")?;
    }
    Ok(())
}

impl Work {
    fn turns(&self, timed: bool, opened: bool) -> Turns {
        let count = if timed { self.many } else { self.few };
        Turns { count, opened }
    }
}

/// The capacity of areas that are no program's.
fn capacity_of(timed: bool) -> u32
    ensures rounded { result % 16 ≡ 0 }
    ensures bounded { result ≤ greatest_capacity }
{
    if timed { 1 << 20 } else { 1 << 16 }
}

/// The work on a list, and that at random.
fn do_calls<K: AreaKeeper>(rt: &HostRuntime, timed: bool, opened: bool) -> Result<()> {
    let alloc = rt.alloc();
    let mut areas = Areas::new::<K>(alloc, OF_LISTS)?;
    let start = Instant::now(rt)?;
    let answers = list::<K>(&mut areas, LIST.turns(timed, opened));
    tell(rt, LIST.name, timed, start, answers)?;
    let mut areas = Areas::new::<K>(alloc, capacity_of(timed))?;
    let start = Instant::now(rt)?;
    let answers = at_random::<K>(alloc, &mut areas, RANDOM.turns(timed, opened))?;
    tell(rt, RANDOM.name, timed, start, answers)
}

/// The works on a fragmented area.
fn do_gaps<K: AreaKeeper>(rt: &HostRuntime, timed: bool, opened: bool) -> Result<()> {
    let capacity = capacity_of(timed);
    let mut areas = Areas::new::<K>(rt.alloc(), capacity)?;
    fragment::<K>(areas.first.as_mut_slice(), capacity);
    let start = Instant::now(rt)?;
    let answers = copies::<K>(&mut areas, COPIES.turns(timed, opened));
    tell(rt, COPIES.name, timed, start, answers)?;
    let start = Instant::now(rt)?;
    let answers = in_gaps::<K>(&mut areas, capacity, GAPS.turns(timed, opened));
    tell(rt, GAPS.name, timed, start, answers)
}

/// Does all works with a keeper.
fn do_all<K: AreaKeeper>(rt: &HostRuntime, keeper: &str, timed: bool, opened: bool) -> Result<()> {
    let how = if opened {
        "opened at each call"
    } else {
        "opened once"
    };
    println!(rt; "{keeper}, {how}")?;
    do_calls::<K>(rt, timed, opened)?;
    do_gaps::<K>(rt, timed, opened)
}

fn main(rt: HostRuntime) -> Result<()> {
    let timed = env::args(&rt)?.count() > 1;
    for opened in [true, false] {
        do_all::<Chain>(&rt, "chain", timed, opened)?;
        do_all::<Granules>(&rt, "granules", timed, opened)?;
        do_all::<FreeList>(&rt, "free list", timed, opened)?;
    }
    Ok(())
}
