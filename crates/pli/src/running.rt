// `pli run`, `pli compile` and `pli exec`.

use crate::command;
use crate::files::source_of;
use crate::streams::{InputFeed, Lines, OutputDrain};
use crate::tell::{message_of, tell, tell_entered, tell_refusal, tell_run, unread_for};
use clap::ArgMatches;
use pli_activations::activations::Activations;
use pli_meaning::outcome::Outcome;
use pli_run::image_file::{compiled_bytes, stream_bytes};
use pli_run::report::{is_error, refused_image, report, unwritten};
use pli_run::run::{RunFault, Traced};
use pli_run::source_run::compile_and_stream;
use std::fs;

// How the input is called.
fn input_name<'a>(matches: &'a ArgMatches<'_>) -> &'a str {
    match matches.get_str(command::INPUT) {
        Some(name) => name,
        None => "stdin",
    }
}

fn bound_and_base(matches: &ArgMatches<'_>) -> (u64, u32) {
    let bound = matches.get_one::<u64>(command::BOUND).unwrap_or(0);
    let base = matches.get_one::<u32>(command::BASE).unwrap_or(0);
    (bound, base)
}

// An outcome by itself, and the blocks that are entered at its end.
fn parted(
    rt: &HostRuntime,
    ran: Result<Traced, RunFault>,
) -> (Result<Outcome, RunFault>, Activations) {
    match ran {
        Ok(traced) => (Ok(traced.outcome), traced.entered),
        Err(fault) => (Err(fault), Activations::new(rt.alloc())),
    }
}

// Tells how a run ended, and, where the words ask for them, the blocks that are entered at an error. What the run has
// written is shown first.
fn told(
    rt: &HostRuntime,
    matches: &ArgMatches<'_>,
    lines: &Lines<'_>,
    ran: Result<Traced, RunFault>,
    source: &[u8],
) -> u8 {
    let finished = lines.finish();
    let (ran, entered) = parted(rt, ran);
    let notice = report(&ran, input_name(matches), "stdout");
    if finished.is_err() && notice.line.is_none() {
        return tell(rt, unwritten("stdout"));
    }
    let status = tell_run(rt, matches, notice, source);
    if matches.get_flag(command::TRACE) && is_error(&ran) {
        tell_entered(rt, entered);
    }
    status
}

/// `pli run`.
pub fn run(rt: &HostRuntime, matches: &ArgMatches<'_>) -> u8 {
    let name = matches.get_str(command::SOURCE).unwrap_or("");
    let source = match source_of(rt, matches, name) {
        Ok(source) => source,
        Err(error) => return tell(rt, unread_for(name, &error)),
    };
    let lines = Lines::new(rt);
    let feed = match InputFeed::open(rt, matches.get_str(command::INPUT), &lines) {
        Ok(feed) => feed,
        Err(error) => return tell(rt, unread_for(input_name(matches), &error)),
    };
    let (bound, base) = bound_and_base(matches);
    let drain = OutputDrain::new(&lines);
    let (ran, _, _) = compile_and_stream(rt.alloc(), &source, base, feed, drain, bound);
    match ran {
        Err(RunFault::Source(fault)) => {
            tell_refusal(rt, message_of(rt, matches, name, &source, fault))
        }
        ran => told(rt, matches, &lines, ran, &source),
    }
}

/// `pli compile`.
pub fn write_image(rt: &HostRuntime, matches: &ArgMatches<'_>) -> u8 {
    let name = matches.get_str(command::SOURCE).unwrap_or("");
    let source = match source_of(rt, matches, name) {
        Ok(source) => source,
        Err(error) => return tell(rt, unread_for(name, &error)),
    };
    let bytes = match compiled_bytes(rt.alloc(), &source) {
        Ok(bytes) => bytes,
        Err(fault) => return tell_refusal(rt, message_of(rt, matches, name, &source, fault)),
    };
    let file = matches.get_str(command::OUTPUT).unwrap_or("");
    match fs::write(rt, file, bytes.as_slice()) {
        Ok(()) => 0,
        Err(_) => tell(rt, unwritten(file)),
    }
}

/// `pli exec`.
pub fn exec(rt: &HostRuntime, matches: &ArgMatches<'_>) -> u8 {
    let name = matches.get_str(command::IMAGE).unwrap_or("");
    let image = match fs::read(rt, name) {
        Ok(image) => image,
        Err(error) => return tell(rt, unread_for(name, &error)),
    };
    let lines = Lines::new(rt);
    let feed = match InputFeed::open(rt, matches.get_str(command::INPUT), &lines) {
        Ok(feed) => feed,
        Err(error) => return tell(rt, unread_for(input_name(matches), &error)),
    };
    let (bound, base) = bound_and_base(matches);
    let drain = OutputDrain::new(&lines);
    let (ran, _, _) = stream_bytes(rt.alloc(), &image, base, feed, drain, bound);
    match ran {
        Ok(ran) => told(rt, matches, &lines, ran, &[]),
        Err(fault) => tell(rt, refused_image(fault)),
    }
}
