// The calls of services in code words, by the constants that stand in front of them.

use rv_isa::decode::decode;
use rv_meaning::instr::{ImmediateOp, Instr};
use std::alloc::{AllocError, Global};

/// The registers that a call's constants stand in.
const ARGUMENT: u8 = 10;

const SECOND_ARGUMENT: u8 = 11;

const SERVICE: u8 = 17;

/// The service that begins an act, or raises a condition, by its number.
const ACT: i32 = 1;

/// A call of a service: the word that calls it, the first word of the constants in front of it, the service's
/// number, and the line of the statement that it begins, if it does.
#[derive(Clone, Copy, Debug)]
pub struct Call {
    pub place: usize,
    pub from: usize,
    pub service: i32,
    pub line: Option<i32>,
}

/// What is known of the constants that the next call finds, and the first word that makes one.
#[derive(Clone, Copy)]
struct Constants {
    argument: i32,
    second: i32,
    service: i32,
    from: Option<usize>,
}

const UNKNOWN: Constants = Constants {
    argument: 0,
    second: 0,
    service: 0,
    from: None,
};

impl Constants {
    fn with(self, register: u8, value: i32, place: usize) -> Constants {
        let from = Some(self.from.unwrap_or(place));
        match register {
            ARGUMENT => Constants {
                argument: value,
                from,
                ..self
            },
            SECOND_ARGUMENT => Constants {
                second: value,
                from,
                ..self
            },
            SERVICE => Constants {
                service: value,
                from,
                ..self
            },
            _ => Constants { from: None, ..self },
        }
    }

    fn of(self, register: u8) -> i32 {
        match register {
            ARGUMENT => self.argument,
            SECOND_ARGUMENT => self.second,
            SERVICE => self.service,
            _ => 0,
        }
    }

    // Behind an instruction at a place: constants of one instruction or two are known.
    fn behind(self, place: usize, instr: Instr) -> Constants {
        match instr {
            Instr::LoadUpper { rd, upper } => {
                self.with(rd.index, upper.wrapping_mul(4096).cast_signed(), place)
            }
            Instr::Immediate {
                op: ImmediateOp::Add,
                rd,
                rs1,
                immediate,
            } => {
                let from = if rs1.index == rd.index {
                    self.of(rs1.index)
                } else {
                    0
                };
                self.with(rd.index, from.wrapping_add(immediate), place)
            }
            _ => Constants { from: None, ..self },
        }
    }

    // The call that finds them at a place.
    fn call(self, place: usize) -> Call {
        let begins = self.service == ACT && self.second == 0;
        Call {
            place,
            from: self.from.unwrap_or(place),
            service: self.service,
            line: begins.then_some(self.argument),
        }
    }
}

/// The calls of services in code, in order.
pub fn calls_of(alloc: Global, words: &[u32]) -> Result<Vec<Call>, AllocError> {
    let mut calls = Vec::new(alloc);
    let mut known = UNKNOWN;
    for (place, word) in words.iter().enumerate() {
        known = match decode(*word) {
            Some(Instr::Ecall) => {
                calls.push(known.call(place))?;
                Constants {
                    from: None,
                    ..known
                }
            }
            Some(instr) => known.behind(place, instr),
            None => Constants {
                from: None,
                ..known
            },
        };
    }
    Ok(calls)
}
