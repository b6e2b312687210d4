// Each call once; with a refused allocation the answer is Memory, and nothing is taken or written.

use crate::fault::EditFault;
use crate::format::{Format, Node, Passed};
use crate::input::Input;
use crate::output::Output;
use crate::place::FormatPlace;
use std::alloc::Global;
use std::test::Fail;

// Two numbers and a text that runs on into the next line, and whether a character is left.
fn read(alloc: Global) -> Result<(i32, i32, Vec<u8>, bool), EditFault> {
    let mut input = Input::new(alloc, b"  12AB\r\nCD\n\nx 7\n")?;
    let first = input.get_f(4)?;
    let text = input.get_a(3)?;
    input.skip(2);
    input.space(1);
    input.column(2);
    let second = input.get_f(2)?;
    Ok((first, second, text, input.has_character()))
}

#[test]
fn fields_are_taken_or_memory_is_refused(rt: HostRuntime) -> Result<(), Fail> {
    match read(rt.alloc()) {
        Ok((first, second, text, is_left)) => {
            assert!(rt;
                first == 12 && second == 7 && text.as_slice() == b"ABC".as_slice() && !is_left
            );
        }
        Err(fault) => assert!(rt; fault == EditFault::Memory),
    }
    Ok(())
}

#[test]
fn strange_fields_and_the_end_are_told(rt: HostRuntime) {
    let Ok(mut input) = Input::new(rt.alloc(), b"A2\n12") else {
        return;
    };
    let strange = input.get_f(1);
    assert!(rt; strange == Err(EditFault::NotNumber) || strange == Err(EditFault::Memory));
    input.skip(1);
    let number = input.get_f(5);
    let behind = input.get_f(5);
    if number == Ok(12) {
        assert!(rt; behind == Err(EditFault::AtEnd));
    } else {
        assert!(rt; number == Err(EditFault::Memory) && (behind == Ok(12) || behind == number));
    }
}

// Numbers with a format that is used again, texts at columns, and a line that is left open.
fn write(output: &mut Output) -> Result<(), EditFault> {
    output.put_f(1, 2)?;
    output.space(1)?;
    output.skip(1)?;
    output.put_f(-2, 3)?;
    output.skip(2)?;
    output.put_a(b"A", None)?;
    output.column(4)?;
    output.put_a(b"BCD", Some(2))?;
    output.column(3)?;
    output.put_a(b"E", Some(3))?;
    output.finish()?;
    output.finish()
}

#[test]
fn fields_are_written_or_memory_is_refused(rt: HostRuntime) {
    let mut output = Output::new(rt.alloc());
    let whole = b" 1 \n -2\n\nA  BC\n  E  \n".as_slice();
    match write(&mut output) {
        Ok(()) => assert!(rt; output.bytes() == whole),
        Err(fault) => assert!(rt; fault == EditFault::Memory && whole.starts_with(output.bytes())),
    }
}

#[test]
fn a_wide_number_is_refused(rt: HostRuntime) {
    let mut output = Output::new(rt.alloc());
    assert!(rt; output.put_f(12345, 4) == Err(EditFault::TooWide) && output.bytes().is_empty());
}

// The items of a format that is used again: a number, then two texts with a blank behind each, then a new line.
fn walk(alloc: Global) -> Result<Vec<Format>, EditFault> {
    let nodes = [
        Node::Item(1, Format::Fixed(2)),
        Node::List(2, 2),
        Node::Item(1, Format::Text(None)),
        Node::Item(1, Format::Space(1)),
        Node::Item(1, Format::Skip(1)),
    ];
    let mut place = FormatPlace::new(alloc, Vec::from_slice(alloc, &nodes)?)?;
    let mut items = Vec::new(alloc);
    for _ in 0..8 {
        let coming = place.coming()?;
        if let Some(passed) = place.pass()? {
            if coming == Some(passed.format) && passed.is_again == (items.len() == 6) {
                items.push(passed.format)?;
            }
        }
    }
    Ok(items)
}

#[test]
fn a_format_is_used_again(rt: HostRuntime) {
    let (number, text, blank) = (Format::Fixed(2), Format::Text(None), Format::Space(1));
    match walk(rt.alloc()) {
        Ok(items) => assert!(rt;
            items.as_slice()
                == [
                    number,
                    text,
                    blank,
                    text,
                    blank,
                    Format::Skip(1),
                    number,
                    text
                ]
                .as_slice()
        ),
        Err(fault) => assert!(rt; fault == EditFault::Memory),
    }
}

#[test]
fn repetitions_are_not_written_out(rt: HostRuntime) {
    let nodes = [
        Node::List(1000, 3),
        Node::List(1000, 2),
        Node::List(1000, 1),
        Node::Item(1000, Format::Column(7)),
    ];
    let Ok(nodes) = Vec::from_slice(rt.alloc(), &nodes) else {
        return;
    };
    let Ok(mut place) = FormatPlace::new(rt.alloc(), nodes) else {
        return;
    };
    let passed = place.pass();
    let first = Passed {
        format: Format::Column(7),
        is_again: false,
    };
    assert!(rt; passed == Ok(Some(first)) || passed == Err(EditFault::Memory));
}
