// A machine that runs RV32IM code over 16 MiB of memory.
#![tactic(auto)]

pub mod arithmetic;
pub mod base;
mod branching;
mod constants;
mod execute;
mod fast;
mod forming;
mod going;
mod halt;
mod joining;
mod leg;
mod legs;
mod loading;
pub mod machine;
mod narrow;
mod operation;
mod pairs;
mod reaching;
pub mod services;
mod single;
mod straight;
mod turn;
