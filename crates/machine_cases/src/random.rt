// Images of instructions that are drawn by lot, many of them side by side as compiled programs have them, with jumps into
// the middle, off the code and to addresses that aren't aligned, and stores into the code. Each runs on three machines: at
// all bounds in turn, step by step, and in one run. What calls see of registers and memory must agree.

use crate::images::made;
use anyhow::Result;
use raw_storage::storage::Storage;
use rv_image::image::Image;
use rv_machine::machine::{Machine, Step, Stretch};
use rv_machine::services::{Served, Services};
use std::alloc::{AllocError, Global};

const BASE: u32 = 0x1_0000;

const IMAGES: u32 = 60;

const GROUPS: u32 = 16;

const LONGEST: u64 = 200;

// Registers that instructions are drawn with; x8 is the base of data alone.
static REGISTERS: [u32; 12] = [0, 5, 6, 7, 9, 10, 11, 17, 28, 29, 31, 6];

const NOTHING_SEEN: Seen = Seen { sum: 0, calls: 0 };

// A sum of what the calls have seen.
#[derive(Drop)]
struct Seen {
    sum: u32,
    calls: u32,
}

impl Seen {
    fn add(&mut self, word: u32) {
        self.sum = (self.sum ^ word).wrapping_mul(0x0100_0193).rotate_left(5);
    }
}

impl Services for Seen {
    ghost serves = { λ s x m answer t y n. Unit {0} };

    fn call(&mut self, registers: &mut [u32; 32], storage: &mut Storage) -> Served {
        for register in *registers {
            self.add(register);
        }
        if storage.len() >= 0x2000 {
            for word in 0..256 {
                self.add(storage.load32(0x1000 + 4 * word));
            }
        }
        self.calls = self.calls.wrapping_add(1);
        registers[10] = self.calls;
        if registers[17] == 0 {
            Served::Ended
        } else {
            Served::Done
        }
    }
}

// A source of numbers that are always the same.
#[derive(Drop)]
struct Lots {
    state: u32,
}

impl Lots {
    fn word(&mut self) -> u32 {
        self.state ^= self.state << 13;
        self.state ^= self.state >> 17;
        self.state ^= self.state << 5;
        self.state
    }

    fn below(&mut self, bound: u32) -> u32 {
        if bound == 0 {
            0
        } else {
            (self.word() >> 8) % bound
        }
    }

    fn register(&mut self) -> u32 {
        REGISTERS[self.below(12) as usize % 12]
    }

    // A small number with a sign, in its lowest 12 bits.
    fn small(&mut self) -> u32 {
        match self.below(4) {
            0 => self.below(3),
            1 => self.below(64),
            2 => 0u32.wrapping_sub(self.below(8)),
            _ => self.word(),
        }
    }

    // The offset of a word behind the base of data, mostly one that is aligned.
    fn offset(&mut self) -> u32 {
        let aligned = 4 * (self.below(200) & 0xff);
        if self.below(150) == 0 {
            aligned + 1
        } else {
            aligned
        }
    }
}

// ---- the formats

fn immediate(function: u32, rd: u32, rs1: u32, value: u32) -> u32 {
    (value & 0xfff) << 20 | rs1 << 15 | function << 12 | rd << 7 | 0x13
}

fn registers(function: u32, rd: u32, rs1: u32, rs2: u32) -> u32 {
    rs2 << 20 | rs1 << 15 | function << 12 | rd << 7 | 0x33
}

fn upper(opcode: u32, rd: u32, value: u32) -> u32 {
    value << 12 | rd << 7 | opcode
}

fn load(rd: u32, rs1: u32, offset: u32) -> u32 {
    (offset & 0xfff) << 20 | rs1 << 15 | 2 << 12 | rd << 7 | 0x03
}

fn store(rs1: u32, rs2: u32, offset: u32) -> u32 {
    (offset >> 5 & 0x7f) << 25 | rs2 << 20 | rs1 << 15 | 2 << 12 | (offset & 0x1f) << 7 | 0x23
}

// A branch over some words, at most 31.
fn branch(function: u32, rs1: u32, rs2: u32, words: u32) -> u32 {
    let offset = 4 * (words & 0x1f);
    (offset >> 5 & 0x3f) << 25
        | rs2 << 20
        | rs1 << 15
        | function << 12
        | (offset >> 1 & 0xf) << 8
        | 0x63
}

fn jump_register(rd: u32, rs1: u32, offset: u32) -> u32 {
    (offset & 0xfff) << 20 | rs1 << 15 | rd << 7 | 0x67
}

// ---- groups of instructions

// Those of a call of a service, most of which go on.
fn call(lots: &mut Lots, words: &mut Vec<u32>) -> Result<(), AllocError> {
    words.push(immediate(0, 10, 0, lots.small()))?;
    words.push(immediate(0, 11, 0, lots.below(300)))?;
    let service = if lots.below(200) == 0 { 0 } else { 1 };
    words.push(immediate(0, 17, 0, service))?;
    Ok(words.push(0x73)?)
}

// A word that is far from the base of data, or its address.
fn far(lots: &mut Lots, words: &mut Vec<u32>) -> Result<(), AllocError> {
    let through = lots.register();
    let other = if lots.below(40) == 0 {
        lots.register()
    } else {
        8
    };
    words.push(upper(0x37, through, lots.below(2)))?;
    words.push(registers(0, through, through, other))?;
    let offset = lots.offset();
    let rd = lots.register();
    Ok(words.push(match lots.below(3) {
        0 => load(rd, through, offset),
        1 => store(through, rd, offset),
        _ => immediate(0, rd, through, offset),
    })?)
}

// One that stands alone or in a pair.
fn plain(lots: &mut Lots) -> u32 {
    let (rd, rs1, rs2) = (lots.register(), lots.register(), lots.register());
    match lots.below(8) {
        0 => immediate(0, rd, rs1, 0),
        1 => immediate(0, rd, 0, lots.small()),
        2 => load(rd, 8, lots.offset()),
        3 => store(8, rs2, lots.offset()),
        4 => immediate(0, rd, rs1, lots.small()),
        5 => registers(lots.below(8), rd, rs1, rs2),
        6 => 1 << 25 | registers(lots.below(8), rd, rs1, rs2),
        _ => upper(0x17, rd, lots.below(2)),
    }
}

// A constant in two words, and perhaps a branch by it.
fn whole(lots: &mut Lots, words: &mut Vec<u32>) -> Result<(), AllocError> {
    let rd = lots.register();
    words.push(upper(0x37, rd, lots.below(3)))?;
    words.push(immediate(0, rd, rd, lots.small()))?;
    if lots.below(2) == 0 {
        let function = 4 + lots.below(4) % 4;
        let words_over = 1 + lots.below(6) % 8;
        words.push(branch(function, rd, lots.register(), words_over))?;
    }
    Ok(())
}

// A word of an array.
fn element(lots: &mut Lots, words: &mut Vec<u32>) -> Result<(), AllocError> {
    let (scaled, place, other) = (lots.register(), lots.register(), lots.register());
    words.push(immediate(7, other, other, 63))?;
    words.push(immediate(1, scaled, other, 1 + lots.below(2) % 4))?;
    words.push(registers(0, place, 8, scaled))?;
    Ok(words.push(if lots.below(2) == 0 {
        load(other, place, 160)
    } else {
        store(place, other, 160)
    })?)
}

// A jump to some word, not always to one of the code, and not always to one that is aligned.
fn jump(lots: &mut Lots, words: &mut Vec<u32>) -> Result<(), AllocError> {
    let through = lots.register();
    let rd = if lots.below(2) == 0 { 0 } else { through };
    let odd = match lots.below(120) {
        0 => 2,
        1 => 1,
        2 => 0x400,
        _ => 0,
    };
    words.push(upper(0x17, through, 0))?;
    Ok(words.push(jump_register(rd, through, (4 * (2 + lots.below(6) % 8)) + odd))?)
}

// A comparison with its branch.
fn compared(lots: &mut Lots, words: &mut Vec<u32>) -> Result<(), AllocError> {
    let (rd, rs1, rs2) = (lots.register(), lots.register(), lots.register());
    match lots.below(3) {
        0 => words.push(registers(2, rd, rs1, rs2))?,
        1 => {
            words.push(registers(2, rd, rs1, rs2))?;
            words.push(immediate(4, rd, rd, 1 + lots.below(2) % 2))?;
        }
        _ => {
            words.push(registers(4, rd, rs1, rs2))?;
            words.push(immediate(3, rd, rd, 1 + lots.below(2) % 2))?;
        }
    }
    Ok(words.push(branch(1, rd, 0, 1 + lots.below(5) % 8))?)
}

// A sum with the test of its overflow.
fn sum(lots: &mut Lots, words: &mut Vec<u32>) -> Result<(), AllocError> {
    if lots.below(2) == 0 {
        let (left, right) = (lots.register(), lots.register());
        words.push(immediate(0, left, right, 0))?;
        words.push(immediate(0, right, left, lots.small()))?;
        return Ok(words.push(branch(5, right, left, 1 + lots.below(5) % 8))?);
    }
    words.push(registers(0, 7, 6, 10))?;
    words.push(registers(2, 28, 7, 6))?;
    words.push(immediate(2, 29, 10, 0))?;
    words.push(immediate(0, 10, 7, 0))?;
    Ok(words.push(branch(0, 28, 29, 1 + lots.below(5) % 8))?)
}

// A store into the code, or into what stands before the data.
fn stray(lots: &mut Lots, words: &mut Vec<u32>) -> Result<(), AllocError> {
    let through = lots.register();
    words.push(upper(0x17, through, 0))?;
    Ok(words.push(store(through, lots.register(), lots.offset()))?)
}

fn group(lots: &mut Lots, words: &mut Vec<u32>) -> Result<(), AllocError> {
    match lots.below(12) {
        0 => call(lots, words),
        1 | 2 => far(lots, words),
        3 => whole(lots, words),
        4 => element(lots, words),
        5 => jump(lots, words),
        6 => compared(lots, words),
        7 => sum(lots, words),
        8 if lots.below(8) == 0 => stray(lots, words),
        _ => {
            words.push(plain(lots))?;
            Ok(words.push(plain(lots))?)
        }
    }
}

// The code of an image: x8 points to data, and behind all groups, and words for what jumps over them, it begins anew.
fn drawn(alloc: Global, lots: &mut Lots) -> Result<Vec<u32>, AllocError> {
    let mut words = Vec::new(alloc);
    words.push(upper(0x17, 8, 1))?;
    for _ in 0..GROUPS {
        group(lots, &mut words)?;
    }
    for _ in 0..8 {
        words.push(immediate(0, 9, 9, 1))?;
    }
    call(lots, &mut words)?;
    words.push(upper(0x17, 5, 0))?;
    let back = u32::try_from(words.len()).unwrap_or(0).wrapping_mul(4);
    words.push(jump_register(0, 5, 8u32.wrapping_sub(back)))?;
    Ok(words)
}

// ---- the runs

// What a run came to: how many instructions ran, what the next one came to, and what the calls have seen.
#[derive(Clone, Copy, PartialEq, Eq)]
struct Outcome {
    ran: u64,
    last: Step,
    sum: u32,
}

fn stepped(machine: &mut Machine, seen: &mut Seen, bound: u64) -> Outcome {
    let mut ran: u64 = 0;
    for _ in 0..bound {
        match machine.step(seen) {
            Step::Ran => ran = ran.saturating_add(1),
            last => {
                let sum = seen.sum;
                return Outcome { ran, last, sum };
            }
        }
    }
    let (last, sum) = (Step::Ran, seen.sum);
    Outcome { ran, last, sum }
}

fn ran(machine: &mut Machine, seen: &mut Seen, bound: u64) -> Outcome {
    let stretch = machine.run_for(seen, bound);
    let Stretch { ran, last } = stretch;
    let sum = seen.sum;
    Outcome { ran, last, sum }
}

// How far an image runs at all bounds in turn, up to the first instruction that doesn't run, if it comes to the same step by
// step.
fn alike(alloc: Global, image: &Image) -> Result<Option<Outcome>> {
    let mut running = Machine::new(alloc, image, BASE)?;
    let mut stepping = Machine::new(alloc, image, BASE)?;
    let mut seen_running = NOTHING_SEEN;
    let mut seen_stepping = NOTHING_SEEN;
    let mut total: u64 = 0;
    let mut all = Outcome {
        ran: 0,
        last: Step::Ran,
        sum: 0,
    };
    for bound in 1..LONGEST + 1 {
        let run = ran(&mut running, &mut seen_running, bound);
        if run != stepped(&mut stepping, &mut seen_stepping, bound) {
            return Ok(None);
        }
        total = total.saturating_add(run.ran);
        all = Outcome { ran: total, ..run };
        if run.last != Step::Ran {
            break;
        }
    }
    Ok(Some(all))
}

// Whether an image comes to the same at all bounds in turn, step by step and in one run.
fn agrees(alloc: Global, words: &[u32]) -> Result<bool> {
    let Some(image) = made(alloc, words, &[], 0, &[])? else {
        return Ok(false);
    };
    let Some(all) = alike(alloc, &image)? else {
        return Ok(false);
    };
    let mut machine = Machine::new(alloc, &image, BASE)?;
    let mut seen = NOTHING_SEEN;
    let further = if all.last == Step::Ran { 0 } else { 1 };
    let whole = ran(&mut machine, &mut seen, all.ran.saturating_add(further));
    Ok(whole == all)
}

/// How many images ran as they must.
pub fn tell_random(rt: &HostRuntime) -> Result<()> {
    let mut lots = Lots { state: 0x2545_f491 };
    let mut agreed: u32 = 0;
    for number in 0..IMAGES {
        let words = drawn(rt.alloc(), &mut lots)?;
        if agrees(rt.alloc(), &words)? {
            agreed = agreed.saturating_add(1);
        } else {
            println!(rt; "random image {number} differs")?;
        }
    }
    println!(rt; "random images: {agreed} of {IMAGES} ran alike at all bounds")?;
    Ok(())
}
