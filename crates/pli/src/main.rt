// `pli`: compiles programs and runs them.
#![tactic(auto)]

mod command;
mod completions;
mod files;
mod man;
pub mod margins;
mod running;
mod streams;
mod tell;
mod telling;
#[cfg(test)]
mod tests;

use clap::ArgMatches;
use clap::error::ErrorKind;
use margins::margins_of;
use pli_run::report::unwritten;
use running::{exec, run, write_image};
use std::process::ExitCode;
use std::{env, io};
use tell::{NO_MEMORY, tell};
use telling::{USAGE, check, explain, list, print_completions, print_man};

// Help, the version, or what is wrong with the words.
fn told(rt: &HostRuntime, error: &clap::Error) -> io::Result<u8> {
    if error.kind() == ErrorKind::OutOfMemory {
        return Err(io::Error::from(io::ErrorKind::OutOfMemory));
    }
    let printed = error.print(rt);
    Ok(match error.use_stderr() {
        true => USAGE,
        false if printed.is_err() => tell(rt, unwritten("stdout")),
        false => 0,
    })
}

// Does what a subcommand asks for.
fn done(rt: &HostRuntime, name: &str, matches: &ArgMatches<'_>) -> io::Result<u8> {
    if matches.contains_id(command::MARGINS) && margins_of(matches).is_none() {
        return told(rt, &command::no_margins(rt.alloc())?);
    }
    match name {
        "compile" => Ok(write_image(rt, matches)),
        "exec" => Ok(exec(rt, matches)),
        "list" => list(rt, matches),
        "check" => Ok(check(rt, matches)),
        "explain" => explain(rt, matches),
        "man" => print_man(rt),
        "completions" => print_completions(rt, matches),
        _ => Ok(run(rt, matches)),
    }
}

// Parses the words, and does what they ask for.
fn answer(rt: &HostRuntime) -> io::Result<u8> {
    let words: Vec<String> = env::args(rt)?.collect(rt.alloc())?;
    let command = command::command(rt.alloc())?;
    match command.try_get_matches_from(words.as_slice()) {
        Ok(matches) => match matches.subcommand() {
            Some((name, matches)) => done(rt, name, matches),
            None => Ok(USAGE),
        },
        Err(error) => told(rt, &error),
    }
}

// What is told where the words couldn't be taken in: one that isn't UTF-8 is none that the program knows.
fn unanswered(rt: &HostRuntime, error: &io::Error) -> u8 {
    if error.kind() != io::ErrorKind::InvalidData {
        return tell(rt, NO_MEMORY);
    }
    let _ = eprintln!(rt; "error: a word that isn't UTF-8");
    USAGE
}

fn main(rt: HostRuntime) -> ExitCode {
    ExitCode::from(match answer(&rt) {
        Ok(status) => status,
        Err(error) => unanswered(&rt, &error),
    })
}
