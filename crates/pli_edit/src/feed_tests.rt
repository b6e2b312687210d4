// Input from feeds that give little at a time, or that fail: what is taken is what a whole input gives, and no more is
// read than that asks.

ghost use Rattle.std.specs.Prelude.{◌≡◌, ◌≤◌, IfOk, length};

use crate::fault::{EditFault, Failed};
use crate::feed::Feed;
use crate::feed_input::FeedInput;
use crate::input::Input;
use crate::input_stream::InputStream;
use crate::past::Past;
use std::alloc::Global;
use std::test::Fail;

/// Gives so many bytes at a time, until the last one or a read that fails.
#[derive(Drop)]
struct Spring<'a> {
    past: Past,
    bytes: &'a [u8],
    step: usize,
    failing: usize,
    reads: usize,
    is_over: bool,
    is_asked_again: bool,
    is_asked_otherwise: bool,
}

impl<'a> Spring<'a> {
    fn new(bytes: &'a [u8], step: usize, failing: usize) -> Spring<'a> {
        Spring {
            past: Past::new(),
            bytes,
            step,
            failing,
            reads: 0,
            is_over: false,
            is_asked_again: false,
            is_asked_otherwise: false,
        }
    }

    fn pour(&mut self, buffer: &mut [u8]) -> Result<usize, Failed>
        ensures within { IfOk result (λ n. n ≤ length buffer.new) }
        ensures past { self.new.past ≡ self.old.past }
    {
        self.is_asked_again |= self.is_over;
        self.is_asked_otherwise |= buffer.len() != 4096;
        self.reads = self.reads.saturating_add(1);
        if self.reads == self.failing {
            self.is_over = true;
            return Err(Failed);
        }
        let count = self.bytes.len().min(self.step).min(buffer.len());
        self.is_over |= count == 0;
        let (given, rest) = self.bytes.split_at(count);
        buffer[..count].copy_from_slice(given);
        self.bytes = rest;
        Ok(count)
    }
}

impl<'a> Feed for Spring<'a> {
    ghost use Rattle.pli_edit.specs.Pasts.{history_of};

    ghost history = { λ s. history_of s.past };

    fn read(&mut self, buffer: &mut [u8]) -> Result<usize, Failed> {
        let outcome = self.pour(buffer);
        self.past.tell(&outcome, buffer);
        outcome
    }
}

/// What is taken of an input.
#[derive(PartialEq, Eq, Debug, Drop)]
struct Taken {
    first: i32,
    second: i32,
    text: Vec<u8>,
    last: Vec<u8>,
    is_left: bool,
}

// Numbers and texts, one of which runs on into the next line, with each control item, up to the end.
fn take_all<I: InputStream>(input: &mut I) -> Result<Taken, EditFault> {
    let first = input.get_f(4)?;
    let text = input.get_a(3)?;
    input.skip(2)?;
    input.space(1)?;
    input.column(2)?;
    let second = input.get_f(2)?;
    input.column(1)?;
    input.column(3)?;
    let last = input.get_a(5)?;
    input.skip(3)?;
    let is_left = input.has_character()?;
    Ok(Taken {
        first,
        second,
        text,
        last,
        is_left,
    })
}

const WHOLE: &[u8] = b"  12AB\r\nCD\n\nx 7\rY\r\n\nzwei\n\r\n\n\n!";

fn whole(alloc: Global) -> Result<Taken, EditFault> {
    take_all(&mut Input::new(alloc, WHOLE)?)
}

#[test]
fn a_feed_gives_what_the_whole_gives(rt: HostRuntime) {
    let Ok(wanted) = whole(rt.alloc()) else {
        return;
    };
    for step in [1, 2, 3, 7, 5000] {
        let mut input = FeedInput::new(rt.alloc(), Spring::new(WHOLE, step, 0));
        match take_all(&mut input) {
            Ok(taken) => assert!(rt; taken == wanted),
            Err(fault) => assert!(rt; fault == EditFault::Memory),
        }
        let spring = input.into_inner();
        assert!(rt; !spring.is_asked_again && !spring.is_asked_otherwise);
    }
}

// Numbers in fields of five characters, until none is left; how many, and their sum.
fn until_end<I: InputStream>(input: &mut I) -> (u32, i32, EditFault) {
    let mut count = 0u32;
    let mut sum = 0i32;
    for _ in 0..10 {
        match input.get_f(5) {
            Ok(number) => {
                count = count.saturating_add(1);
                sum = sum.saturating_add(number);
            }
            Err(fault) => return (count, sum, fault),
        }
    }
    (count, sum, EditFault::TooWide)
}

#[test]
fn each_read_that_fails_is_told(rt: HostRuntime) {
    for (failing, count, sum, fault) in [
        (0, 1, 12, EditFault::AtEnd),
        (1, 0, 0, EditFault::Read),
        (2, 0, 0, EditFault::Read),
        (3, 0, 0, EditFault::Read),
        (4, 1, 12, EditFault::AtEnd),
    ] {
        let mut input = FeedInput::new(rt.alloc(), Spring::new(b"12", 1, failing));
        let told = until_end(&mut input);
        if told.2 != EditFault::Memory {
            assert!(rt; told == (count, sum, fault));
            let failed = fault == EditFault::Read;
            assert!(rt; input.has_failed() == failed);
            assert!(rt; input.skip(1) == if failed { Err(EditFault::Read) } else { Ok(()) });
        }
        let spring = input.into_inner();
        assert!(rt; !spring.is_asked_again);
    }
}

#[test]
fn no_fault_is_told_in_place_of_a_failed_read(rt: HostRuntime) {
    for failing in 1..WHOLE.len() + 2 {
        let mut input = FeedInput::new(rt.alloc(), Spring::new(WHOLE, 1, failing));
        match take_all(&mut input) {
            Ok(_) => assert!(rt; !input.has_failed()),
            Err(fault) => assert!(rt; fault == EditFault::Read || fault == EditFault::Memory),
        }
        let spring = input.into_inner();
        assert!(rt; !spring.is_asked_again && spring.reads <= failing);
    }
}

#[test]
fn no_more_is_read_than_is_wanted(rt: HostRuntime) -> Result<(), Fail> {
    let mut input = FeedInput::new(rt.alloc(), Spring::new(b"7\n\n8\r\n9", 1, 0));
    if input.get_f(1) == Err(EditFault::Memory) {
        return Ok(());
    }
    let spring = input.into_inner();
    assert!(rt; spring.reads == 1);
    let mut input = FeedInput::new(rt.alloc(), Spring::new(b"7\n\n8\r\n9", 1, 0));
    assert!(rt; input.has_character() == Ok(true) && input.space(1) == Ok(()));
    assert!(rt; input.has_character() == Ok(true) && input.skip(2) == Ok(()));
    assert!(rt; input.column(1) == Ok(()) && input.space(1) == Ok(()) && input.skip(1) == Ok(()));
    let spring = input.into_inner();
    assert!(rt; spring.reads == 6);
    Ok(())
}

#[test]
fn empty_lines_are_looked_over_and_stay(rt: HostRuntime) -> Result<(), Fail> {
    let mut bytes = Vec::new(rt.alloc());
    bytes.resize(10_000, b'\n')?;
    bytes.push(b'!')?;
    let mut input = FeedInput::new(rt.alloc(), Spring::new(&bytes, 5000, 0));
    assert!(rt; input.has_character() == Ok(true));
    for _ in 0..10 {
        assert!(rt; input.skip(1000) == Ok(()) && input.has_character() == Ok(true));
    }
    assert!(rt; input.space(1) == Ok(()) && input.has_character() == Ok(false));
    Ok(())
}
