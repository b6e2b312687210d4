// What a run reads and where it writes: standard input or a file, and standard output.

ghost use Rattle.std.specs.Prelude.{◌≡◌, ◌≤◌, IfOk, length};

use pli_edit::drain::Drain;
use pli_edit::fault::Failed;
use pli_edit::feed::Feed;
use pli_edit::past::Past;
use std::cell::Cell;
use std::fs::File;
use std::io::{self, ErrorKind, IsTerminal, Lock, Print, Read, StdinLock};

/// The most bytes of a line that wait for its end.
const MOST_WAITING: usize = 4096;

/// Standard output, a line at a time: what is written waits for its line's end, since a call of the system takes longer
/// than an act. Nothing waits on a terminal, or while something is read.
#[derive(Drop)]
pub struct Lines<'a> {
    rt: &'a HostRuntime,
    waits: bool,
    waiting: Cell<Vec<u8>>,
    has_failed: Cell<bool>,
}

impl<'a> Lines<'a> {
    pub fn new(rt: &'a HostRuntime) -> Lines<'a> {
        Lines {
            rt,
            waits: !rt.stdout().is_terminal(),
            waiting: Cell::new(Vec::new(rt.alloc())),
            has_failed: Cell::new(false),
        }
    }

    fn hand_over(&self, bytes: &[u8]) -> Result<(), Failed> {
        if self.has_failed.get() || self.rt.write_all(bytes).is_err() {
            self.has_failed.set(true);
            return Err(Failed);
        }
        Ok(())
    }

    /// Hands over what waits; a failure is told again from then on.
    pub fn finish(&self) -> Result<(), Failed> {
        let mut waiting = self.waiting.replace(Vec::new(self.rt.alloc()));
        self.hand_over(&waiting)?;
        waiting.clear();
        self.waiting.set(waiting);
        Ok(())
    }

    fn take(&self, bytes: &[u8]) -> Result<usize, Failed>
        ensures { IfOk result (λ count. count ≤ length bytes.now) }
    {
        let mut waiting = self.waiting.replace(Vec::new(self.rt.alloc()));
        let fits = self.waits && waiting.len() < MOST_WAITING && bytes.len() < MOST_WAITING;
        if fits && waiting.extend_from_slice(bytes).is_ok() {
            self.waiting.set(waiting);
            if bytes.contains(&b'\n') {
                self.finish()?;
            }
            return Ok(bytes.len());
        }
        self.waiting.set(waiting);
        self.finish()?;
        self.hand_over(bytes)?;
        Ok(bytes.len())
    }
}

/// What reads are made of.
#[derive(Drop)]
enum Origin {
    File(File),
    Standard(StdinLock<'static>),
}

/// The input of a run, with what its reads came to.
#[derive(Drop)]
pub struct InputFeed<'a> {
    origin: Origin,
    lines: &'a Lines<'a>,
    past: Past,
}

/// One read; it is made again where it was interrupted.
fn read_some<R: Read>(reader: &mut R, buffer: &mut [u8]) -> Result<usize, Failed>
    ensures { IfOk result (λ count. count ≤ length buffer.new) }
{
    for _ in 0..u64::MAX {
        match reader.read(buffer) {
            Ok(count) => return Ok(count),
            Err(error) if error.kind() == ErrorKind::Interrupted => {}
            Err(_) => return Err(Failed),
        }
    }
    Err(Failed)
}

impl<'a> InputFeed<'a> {
    /// The file that is named, which is opened, or standard input. Nothing is read. What was written to the lines is
    /// shown before each read.
    pub fn open(
        rt: &HostRuntime,
        file: Option<&str>,
        lines: &'a Lines<'a>,
    ) -> io::Result<InputFeed<'a>> {
        let origin = match file {
            Some(name) => Origin::File(File::open(rt, name)?),
            None => Origin::Standard(rt.stdin().lock()),
        };
        Ok(InputFeed {
            origin,
            lines,
            past: Past::new(),
        })
    }

    fn fill(&mut self, buffer: &mut [u8]) -> Result<usize, Failed>
        ensures within { IfOk result (λ count. count ≤ length buffer.new) }
        ensures past { self.new.past ≡ self.old.past }
    {
        // (a write that fails is told to the next one)
        let _ = self.lines.finish();
        match &mut self.origin {
            Origin::File(file) => read_some(file, buffer),
            Origin::Standard(reader) => read_some(reader, buffer),
        }
    }
}

impl<'a> Feed for InputFeed<'a> {
    ghost use Rattle.pli_edit.specs.Pasts.{history_of};

    ghost history = { λ f. history_of f.past };

    fn read(&mut self, buffer: &mut [u8]) -> Result<usize, Failed> {
        let outcome = self.fill(buffer);
        self.past.tell(&outcome, buffer);
        outcome
    }
}

/// Standard output, with what its writes came to.
#[derive(Drop)]
pub struct OutputDrain<'a> {
    lines: &'a Lines<'a>,
    past: Past,
}

impl<'a> OutputDrain<'a> {
    pub fn new(lines: &'a Lines<'a>) -> OutputDrain<'a> {
        OutputDrain {
            lines,
            past: Past::new(),
        }
    }
}

impl<'a> Drain for OutputDrain<'a> {
    ghost use Rattle.pli_edit.specs.Pasts.{history_of};

    ghost history = { λ d. history_of d.past };

    fn write(&mut self, bytes: &[u8]) -> Result<usize, Failed> {
        let outcome = self.lines.take(bytes);
        self.past.tell(&outcome, bytes);
        outcome
    }
}
