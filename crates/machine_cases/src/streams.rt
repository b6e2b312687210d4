// Runs between feeds and drains that take a byte at a time, or that fail.

ghost use Rattle.std.specs.Prelude.{◌≡◌, ◌≤◌, IfOk, length};

use anyhow::Result;
use pli_compile::compile::compile;
use pli_edit::drain::Drain;
use pli_edit::fault::Failed;
use pli_edit::feed::Feed;
use pli_edit::past::Past;
use pli_meaning::outcome::Outcome;
use pli_run::run::RunFault;
use pli_run::streams::run_stream;
use rv_image::image::Image;
use std::alloc::Global;

const PUT_SUM: &str = "T: PROCEDURE OPTIONS(MAIN); PUT EDIT (1+2) (F(5)); END T;";

const READ_UNTIL_ENDFILE: &str = "T: PROC OPTIONS(MAIN);\n\
    DCL X FIXED BIN(31); ON ENDFILE(SYSIN) GOTO L;\n\
    L2: GET EDIT (X) (F(5)); PUT EDIT (X) (F(4)); GOTO L2; L: PUT EDIT (' END') (A);\n\
    END T;";

const FORMAT_USED_AGAIN: &str =
    "T: PROC OPTIONS(MAIN);\nPUT EDIT (1,2,3) (F(2),X(1),SKIP);\nEND T;";

const BASE: u32 = 65536;

const BOUND: u64 = 1_000_000;

/// Gives the bytes of a text, so many at a time; after so many reads each fails.
#[derive(Drop)]
struct Spring<'a> {
    past: Past,
    rest: &'a [u8],
    step: usize,
    reads: usize,
}

impl<'a> Spring<'a> {
    fn new(text: &'a [u8], step: usize, reads: usize) -> Spring<'a> {
        Spring {
            past: Past::new(),
            rest: text,
            step,
            reads,
        }
    }

    fn pour(&mut self, buffer: &mut [u8]) -> Result<usize, Failed>
        ensures within { IfOk result (λ count. count ≤ length buffer.new) }
        ensures past { self.new.past ≡ self.old.past }
    {
        if self.reads == 0 {
            return Err(Failed);
        }
        self.reads -= 1;
        let count = self.rest.len().min(self.step).min(buffer.len());
        let (front, rest) = self.rest.split_at(count);
        buffer[..count].copy_from_slice(front);
        self.rest = rest;
        Ok(count)
    }
}

impl<'a> Feed for Spring<'a> {
    ghost use Rattle.pli_edit.specs.Pasts.{history_of};

    ghost history = { λ s. history_of s.past };

    fn read(&mut self, buffer: &mut [u8]) -> Result<usize, Failed> {
        let outcome = self.pour(buffer);
        self.past.tell(&outcome, buffer);
        outcome
    }
}

/// Takes so many bytes at a time, while there is room; after so many writes each fails.
#[derive(Drop)]
struct Bucket {
    past: Past,
    held: Vec<u8>,
    room: usize,
    step: usize,
    writes: usize,
}

impl Bucket {
    fn new(alloc: Global, room: usize, step: usize, writes: usize) -> Bucket {
        Bucket {
            past: Past::new(),
            held: Vec::new(alloc),
            room,
            step,
            writes,
        }
    }

    fn pour(&mut self, bytes: &[u8]) -> Result<usize, Failed>
        ensures within { IfOk result (λ count. count ≤ length bytes.now) }
        ensures past { self.new.past ≡ self.old.past }
    {
        let count = bytes.len().min(self.step).min(self.room);
        if count == 0 || self.writes == 0 || self.held.extend_from_slice(&bytes[..count]).is_err() {
            return Err(Failed);
        }
        self.room -= count;
        self.writes -= 1;
        Ok(count)
    }
}

impl Drain for Bucket {
    ghost use Rattle.pli_edit.specs.Pasts.{history_of};

    ghost history = { λ b. history_of b.past };

    fn write(&mut self, bytes: &[u8]) -> Result<usize, Failed> {
        let outcome = self.pour(bytes);
        self.past.tell(&outcome, bytes);
        outcome
    }
}

fn tell_ran(rt: &HostRuntime, ran: &Result<Outcome, RunFault>, held: &[u8]) -> Result<()> {
    let held = str::from_utf8(held).unwrap_or("");
    match ran {
        Ok(outcome) => {
            println!(rt;
                "  acts {}, end {:?}, held {held:?}",
                outcome.acts, outcome.end
            )?;
        }
        Err(RunFault::Read { acts, .. }) => println!(rt; "  4 Read, acts {acts}, held {held:?}")?,
        Err(RunFault::Write { acts, .. }) => println!(rt; "  5 Write, acts {acts}, held {held:?}")?,
        Err(fault) => println!(rt; "  {fault}")?,
    }
    Ok(())
}

/// Runs an image on a text, and tells what came of it; whether it came to an outcome.
fn tell_stream(
    rt: &HostRuntime,
    image: &Image,
    spring: Spring<'_>,
    bucket: Bucket,
) -> Result<bool> {
    let (ran, _, bucket) = run_stream(rt.alloc(), image, BASE, spring, bucket, BOUND);
    tell_ran(rt, &ran, &bucket.held)?;
    Ok(ran.is_ok())
}

/// A drain whose first write fails, one that takes five bytes, and a byte at a time.
fn tell_sum(rt: &HostRuntime) -> Result<()> {
    println!(rt; "put_sum")?;
    let Ok(image) = compile(rt.alloc(), PUT_SUM.as_bytes()) else {
        return Ok(());
    };
    let alloc = rt.alloc();
    for drain in [
        Bucket::new(alloc, 9, 9, 0),
        Bucket::new(alloc, 5, 9, 9),
        Bucket::new(alloc, 99, 1, 99),
    ] {
        tell_stream(rt, &image, Spring::new(b"", 1, 1), drain)?;
    }
    Ok(())
}

/// Each read fails in turn.
fn tell_reads(rt: &HostRuntime) -> Result<()> {
    println!(rt; "read_until_endfile")?;
    let Ok(image) = compile(rt.alloc(), READ_UNTIL_ENDFILE.as_bytes()) else {
        return Ok(());
    };
    for reads in 0..9 {
        let feed = Spring::new(b"12", 1, reads);
        if tell_stream(rt, &image, feed, Bucket::new(rt.alloc(), 99, 1, 99))? {
            break;
        }
    }
    Ok(())
}

/// Each write fails in turn.
fn tell_writes(rt: &HostRuntime) -> Result<()> {
    println!(rt; "format_used_again")?;
    let Ok(image) = compile(rt.alloc(), FORMAT_USED_AGAIN.as_bytes()) else {
        return Ok(());
    };
    for writes in 0..30 {
        let drain = Bucket::new(rt.alloc(), 99, 99, writes);
        if tell_stream(rt, &image, Spring::new(b"", 1, 0), drain)? {
            break;
        }
    }
    Ok(())
}

/// What runs between such streams come to.
pub fn tell_streams(rt: &HostRuntime) -> Result<()> {
    tell_sum(rt)?;
    tell_reads(rt)?;
    tell_writes(rt)
}
