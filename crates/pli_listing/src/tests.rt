// What a listing shows.

use crate::call::calls_of;
use crate::source::Lines;
use crate::word::ListedWord;
use std::test::Fail;

const ACT: [u32; 4] = [0x0030_0513, 0x0000_0593, 0x0010_0893, 0x0000_0073];

#[test]
fn words_are_listed_behind_their_offsets(rt: HostRuntime) -> Result<(), Fail> {
    let word = ListedWord {
        offset: 12,
        word: 0x0000_0073,
    };
    let text = word.to_string(rt.alloc())?;
    assert_eq!(rt; text.as_str(), "0000000c 00000073");
    Ok(())
}

#[test]
fn calls_have_their_line_and_begin_with_their_constants(rt: HostRuntime) -> Result<(), Fail> {
    let mut words = Vec::new(rt.alloc());
    words.push(0x0000_8067)?;
    words.extend_from_slice(&ACT)?;
    let calls = calls_of(rt.alloc(), &words)?;
    assert_eq!(rt; calls.len(), 1);
    let Some(call) = calls.first() else {
        return Err(Fail::from("a call"));
    };
    assert!(rt; call.from == 1 && call.place == 4);
    assert!(rt; call.service == 1 && call.line == Some(3));
    Ok(())
}

#[test]
fn lines_are_found_by_number(rt: HostRuntime) -> Result<(), Fail> {
    let lines = Lines::new(rt.alloc(), b"one\n\nthree")?;
    for (number, wanted) in [
        (1, "one"),
        (2, ""),
        (3, "three"),
        (4, ""),
        (0, "one"),
        (-1, "one"),
    ] {
        assert_eq!(rt; lines.line(number), wanted.as_bytes(), "{number}");
    }
    Ok(())
}
