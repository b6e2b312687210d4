// PUT on a drain and GET from a feed that fail: the act of a failed write counts, that of a failed read doesn't.

ghost use Rattle.std.specs.Prelude.{◌≡◌, ◌≤◌, IfOk, length, []};

use crate::streams::Streams;
use pli_answering::reply::{Refusal, Reply};
use pli_edit::drain::Drain;
use pli_edit::drain_output::DrainOutput;
use pli_edit::fault::Failed;
use pli_edit::feed::Feed;
use pli_edit::feed_input::FeedInput;
use pli_edit::input_stream::InputStream;
use pli_edit::output_stream::OutputStream;
use pli_edit::past::Past;
use pli_services::shown::Shown;
use pli_values::layout::Layout;
use pli_values::source::Source;
use std::marker::Brand;

// X(1), F(3), behind 4 bytes of code.
const LIST: [u8; 32] = *b"\0\0\0\0\
\x02\0\0\0\
\x03\0\0\0\x01\0\0\0\x01\0\0\0\
\x01\0\0\0\x01\0\0\0\x03\0\0\0";

const LAYOUT: Layout = Layout {
    code_bytes: 4,
    heap_at: 32,
    heap_capacity: 0,
    end: 32,
};

/// Takes a byte at a time, while there is room.
#[derive(Drop)]
struct Bucket {
    past: Past,
    room: usize,
}

impl Bucket {
    ghost use Rattle.pli_edit.specs.Pasts.{history_of};

    fn new(room: usize) -> Bucket
        ensures { history_of result.past ≡ record { failures = 0; answers = []; bytes = [] } }
    {
        Bucket {
            past: Past::new(),
            room,
        }
    }

    fn pour(&mut self, bytes: &[u8]) -> Result<usize, Failed>
        ensures within { IfOk result (λ n. n ≤ length bytes.now) }
        ensures past { self.new.past ≡ self.old.past }
    {
        if self.room == 0 || bytes.is_empty() {
            return Err(Failed);
        }
        self.room -= 1;
        Ok(1)
    }
}

impl Drain for Bucket {
    ghost use Rattle.pli_edit.specs.Pasts.{history_of};

    ghost history = { λ b. history_of b.past };

    fn write(&mut self, bytes: &[u8]) -> Result<usize, Failed> {
        let outcome = self.pour(bytes);
        self.past.tell(&outcome, bytes);
        outcome
    }
}

/// Gives a digit at a time, up to the read that fails.
#[derive(Drop)]
struct Spring {
    past: Past,
    reads: usize,
}

impl Spring {
    fn pour(&mut self, buffer: &mut [u8]) -> Result<usize, Failed>
        ensures within { IfOk result (λ n. n ≤ length buffer.new) }
        ensures past { self.new.past ≡ self.old.past }
    {
        if self.reads == 0 || buffer.is_empty() {
            return Err(Failed);
        }
        self.reads -= 1;
        buffer[0] = b'7';
        Ok(1)
    }
}

impl Feed for Spring {
    ghost use Rattle.pli_edit.specs.Pasts.{history_of};

    ghost history = { λ s. history_of s.past };

    fn read(&mut self, buffer: &mut [u8]) -> Result<usize, Failed> {
        let outcome = self.pour(buffer);
        self.past.tell(&outcome, buffer);
        outcome
    }
}

// The control item, and F unless a write failed.
fn put<O: OutputStream>(
    streams: &mut Streams,
    shown: &mut Shown<O>,
    source: &Source,
) -> Result<Reply, Refusal> {
    streams.begin(source, 4, 1)?;
    let reply = streams.control(shown, 9)?;
    if shown.output.has_failed() {
        return Ok(reply);
    }
    streams.fixed(shown, 12, 1)
}

#[test]
fn the_act_of_a_failed_write_counts(rt: HostRuntime) {
    for room in 0..4 {
        let Ok(mut streams) = Streams::new(rt.alloc(), b"") else {
            return;
        };
        let output = DrainOutput::<Bucket, Brand>::new(Bucket::new(room));
        let mut shown = Shown::new(rt.alloc(), output);
        let source = Source::new(LAYOUT, &LIST);
        match put(&mut streams, &mut shown, &source) {
            Ok(_) => {
                assert!(rt; shown.output.has_failed());
                assert!(rt; shown.acts == if room == 0 { 1 } else { 2 });
            }
            Err(refusal) => assert!(rt; refusal == Refusal::Memory),
        }
    }
}

// The control item and F.
fn get<I: InputStream, O: OutputStream>(
    streams: &mut Streams<I>,
    shown: &mut Shown<O>,
    source: &Source,
) -> Result<Reply, Refusal> {
    streams.begin(source, 4, 0)?;
    streams.control(shown, 9)?;
    streams.fixed(shown, 7, 8)
}

#[test]
fn the_act_of_a_failed_read_does_not_count(rt: HostRuntime) {
    for reads in 0..5 {
        let feed = Spring {
            past: Past::new(),
            reads,
        };
        let mut streams = Streams::over(rt.alloc(), FeedInput::new(rt.alloc(), feed));
        let output = DrainOutput::<Bucket, Brand>::new(Bucket::new(0));
        let mut shown = Shown::new(rt.alloc(), output);
        let source = Source::new(LAYOUT, &LIST);
        match get(&mut streams, &mut shown, &source) {
            Ok(reply) => assert!(rt; reply == Reply::Done(777, 0) && shown.acts == 2),
            Err(refusal) => {
                assert!(rt; refusal == Refusal::Memory);
                if streams.input.has_failed() {
                    assert!(rt; shown.acts == if reads < 2 { 0 } else { 1 });
                }
            }
        }
        assert!(rt; !streams.into_input().has_failed() || reads < 4);
    }
}
