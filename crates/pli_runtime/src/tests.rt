// A run over a feed and a drain: an act, and items of PUT and GET; a write that fails, and a read that fails.

ghost use Rattle.std.specs.Prelude.{◌≡◌, ◌≤◌, IfOk, List, MatchOption, length, [], ℕ, ⊤};
ghost use Rattle.area_keeper.specs.Chain.{chain};
ghost use Rattle.pli_runtime.specs.Seen.{CanServe};

use crate::runtime::Runtime;
use area_heap::chain::Chain;
use pli_answering::reply::{Refusal, Reply};
use pli_edit::drain::Drain;
use pli_edit::drain_output::DrainOutput;
use pli_edit::fault::Failed;
use pli_edit::feed::Feed;
use pli_edit::feed_input::FeedInput;
use pli_edit::past::Past;
use pli_values::layout::Layout;
use std::alloc::Global;
use std::marker::Brand;

// X(1), F(3), behind 4 bytes of code.
const MEMORY: [u8; 64] = *b"\0\0\0\0\
\x02\0\0\0\
\x03\0\0\0\x01\0\0\0\x01\0\0\0\
\x01\0\0\0\x01\0\0\0\x03\0\0\0\
\0\0\0\0\0\0\0\0\0\0\0\0\0\0\0\0\
\0\0\0\0\0\0\0\0\0\0\0\0\0\0\0\0";

const LAYOUT: Layout = Layout {
    code_bytes: 4,
    heap_at: 32,
    heap_capacity: 0,
    end: 64,
};

/// Takes a byte at a time, while there is room.
#[derive(Drop)]
struct Bucket {
    past: Past,
    room: usize,
}

impl Bucket {
    fn pour(&mut self, bytes: &[u8]) -> Result<usize, Failed>
        ensures within { IfOk result (λ n. n ≤ length bytes.now) }
        ensures past { self.new.past ≡ self.old.past }
    {
        if self.room == 0 || bytes.is_empty() {
            return Err(Failed);
        }
        self.room -= 1;
        Ok(1)
    }
}

impl Drain for Bucket {
    ghost use Rattle.pli_edit.specs.Pasts.{history_of};

    ghost history = { λ b. history_of b.past };

    fn write(&mut self, bytes: &[u8]) -> Result<usize, Failed> {
        let outcome = self.pour(bytes);
        self.past.tell(&outcome, bytes);
        outcome
    }
}

/// Gives a digit at a time, up to the read that fails.
#[derive(Drop)]
struct Spring {
    past: Past,
    reads: usize,
}

impl Spring {
    fn pour(&mut self, buffer: &mut [u8]) -> Result<usize, Failed>
        ensures within { IfOk result (λ n. n ≤ length buffer.new) }
        ensures past { self.new.past ≡ self.old.past }
    {
        if self.reads == 0 || buffer.is_empty() {
            return Err(Failed);
        }
        self.reads -= 1;
        buffer[0] = b'7';
        Ok(1)
    }
}

impl Feed for Spring {
    ghost use Rattle.pli_edit.specs.Pasts.{history_of};

    ghost history = { λ s. history_of s.past };

    fn read(&mut self, buffer: &mut [u8]) -> Result<usize, Failed> {
        let outcome = self.pour(buffer);
        self.past.tell(&outcome, buffer);
        outcome
    }
}

type Streamed = Runtime<FeedInput<Spring>, DrainOutput<Bucket, Brand>>;

// A run whose feed gives so many digits, and whose drain has so much room.
fn begun(alloc: Global, reads: usize, room: usize) -> Option<Streamed>
    ensures { MatchOption result ⊤ (λ r. (m : List ℕ) → length m ≡ 64 → CanServe chain r m) }
{
    let feed = Spring {
        past: Past::new(),
        reads,
    };
    let drain = Bucket {
        past: Past::new(),
        room,
    };
    let output = DrainOutput::<Bucket, Brand>::new(drain);
    match Runtime::over(alloc, LAYOUT, &[], FeedInput::new(alloc, feed), output) {
        Ok(run) => Some(run),
        Err(_) => None,
    }
}

fn served(
    run: &mut Streamed,
    memory: &mut [u8],
    number: u32,
    first: u32,
    second: u32,
) -> Result<Reply, Refusal>
    requires { CanServe chain run.old memory.old }
    ensures { CanServe chain run.new memory.new }
{
    let mut registers = [0; 32];
    registers[17] = number;
    registers[10] = first;
    registers[11] = second;
    run.serve::<Chain>(memory, &registers)
}

// An act, and an item with a control item in front, in this direction.
fn item(run: &mut Streamed, memory: &mut [u8], mode: u32) -> Result<[Reply; 3], Refusal>
    requires { CanServe chain run.old memory.old }
    ensures { CanServe chain run.new memory.new }
{
    let acted = served(run, memory, 1, 7, 0)?;
    served(run, memory, 34, 4, mode)?;
    let next = served(run, memory, 35, 0, 9)?;
    if run.stream_fault().is_some() {
        return Ok([acted, next, next]);
    }
    let told = served(run, memory, 36, 12, mode)?;
    Ok([acted, next, told])
}

#[test]
fn items_are_put_and_got(rt: HostRuntime) {
    let Some(mut run) = begun(rt.alloc(), 4, 4) else {
        return;
    };
    let mut memory = MEMORY;
    match (
        item(&mut run, &mut memory, 1),
        item(&mut run, &mut memory, 0),
    ) {
        (Ok(put), Ok(got)) => {
            assert!(rt; put[0] == Reply::Done(7, 0) && put[1] == Reply::Done(1, 9));
            assert!(rt; put[2] == Reply::Done(12, 1) && got[2] == Reply::Done(777, 0));
            assert!(rt; run.stream_fault().is_none() && run.acts() == 6);
            let (outcome, input, output) = run.into_parts();
            assert!(rt; outcome.acts == 6 && outcome.output.is_empty());
            assert!(rt; input.into_inner().reads == 0 && output.into_inner().room == 0);
        }
        _ => assert!(rt; run.stream_fault().is_none()),
    }
}

#[test]
fn a_failed_write_is_told(rt: HostRuntime) {
    let Some(mut run) = begun(rt.alloc(), 0, 0) else {
        return;
    };
    let mut memory = MEMORY;
    match item(&mut run, &mut memory, 1) {
        Ok(replies) => {
            assert!(rt; replies[1] == Reply::Done(1, 9) && run.acts() == 2);
            assert!(rt; run.stream_fault() == Some(5));
            let (_, output) = run.into_streams();
            assert!(rt; output.into_inner().room == 0);
        }
        Err(refusal) => assert!(rt; refusal == Refusal::Memory && run.stream_fault().is_none()),
    }
}

#[test]
fn a_failed_read_is_told(rt: HostRuntime) {
    let Some(mut run) = begun(rt.alloc(), 1, 0) else {
        return;
    };
    let mut memory = MEMORY;
    assert!(rt; item(&mut run, &mut memory, 0) == Err(Refusal::Memory));
    assert!(rt; run.acts() <= 1 && (run.stream_fault() == Some(4) || run.stream_fault().is_none()));
}
