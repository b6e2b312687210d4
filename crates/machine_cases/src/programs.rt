// Programs on the machine, run whole and step by step.

use crate::images::made;
use crate::numbers::numbers;
use anyhow::{Context, Result};
use raw_storage::storage::Storage;
use rv_image::image::Image;
use rv_machine::base::valid_base;
use rv_machine::machine::{Machine, Step, Stretch};
use rv_machine::services::{Served, Services};
use std::alloc::Global;

const BASE: u32 = 0x1_0000;

const BOUND: u64 = 50;

const NONE_YET: Calls = Calls {
    first: 0,
    second: 0,
};

// Keeps registers 10 and 11 of the last call that ends; x17 says how a call comes out.
#[derive(Drop)]
struct Calls {
    first: u32,
    second: u32,
}

impl Services for Calls {
    ghost serves = { λ s x m answer t y n. Unit {0} };

    fn call(&mut self, registers: &mut [u32; 32], _storage: &mut Storage) -> Served {
        let answer = match registers[17] {
            0 => Served::Ended,
            1 => Served::Done,
            2 => Served::Bad,
            _ => Served::Memory,
        };
        if answer == Served::Done {
            registers[10] = 1;
        }
        if answer == Served::Ended {
            self.first = registers[10];
            self.second = registers[11];
        }
        answer
    }
}

// The image of a program without statics.
fn image_of(alloc: Global, given: &str) -> Result<Image> {
    let words = numbers(alloc, given)?;
    made(alloc, &words, &[], 0, &[])?.context("not loadable")
}

/// How many instructions ran, what the next one came to, and the registers of the last call.
pub fn tell_program(rt: &HostRuntime, name: &str, given: &str) -> Result<()> {
    let image = image_of(rt.alloc(), given)?;
    let mut machine = Machine::new(rt.alloc(), &image, BASE)?;
    let mut calls = NONE_YET;
    let Stretch { ran, last } = machine.run_for(&mut calls, BOUND);
    let Calls { first, second } = calls;
    println!(rt; "{name}: {ran} {last:?} {first:08x} {second:08x}")?;
    Ok(())
}

/// What each step comes to, up to the first that doesn't run, and the registers of the last call.
pub fn tell_steps(rt: &HostRuntime, name: &str, given: &str) -> Result<()> {
    let image = image_of(rt.alloc(), given)?;
    let mut machine = Machine::new(rt.alloc(), &image, BASE)?;
    let mut calls = NONE_YET;
    for _ in 0..BOUND {
        let step = machine.step(&mut calls);
        println!(rt; "{name}: {step:?}")?;
        if step != Step::Ran {
            break;
        }
    }
    let Calls { first, second } = calls;
    println!(rt; "{name}: {first:08x} {second:08x}")?;
    Ok(())
}

/// Whether each number is a base.
pub fn tell_bases(rt: &HostRuntime, name: &str, given: &str) -> Result<()> {
    for base in numbers(rt.alloc(), given)? {
        let is_base = valid_base(base);
        println!(rt; "{name} {base:08x}: {is_base}")?;
    }
    Ok(())
}
