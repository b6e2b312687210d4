// Each call once; with a refused allocation nothing is shown by the call that wants it.

use crate::streams::Streams;
use pli_answering::reply::{Refusal, Reply};
use pli_edit::output::Output;
use pli_entries::entries::Entries;
use pli_services::shown::Shown;
use pli_values::layout::Layout;
use pli_values::source::Source;

// 2(X(1), F(3)), A(2), behind 4 bytes of code.
const LIST: [u8; 56] = *b"\0\0\0\0\
\x02\0\0\0\
\x06\0\0\0\x02\0\0\0\x02\0\0\0\
\x03\0\0\0\x01\0\0\0\x01\0\0\0\
\x01\0\0\0\x01\0\0\0\x03\0\0\0\
\x02\0\0\0\x01\0\0\0\x02\0\0\0";

const LAYOUT: Layout = Layout {
    code_bytes: 4,
    heap_at: 56,
    heap_capacity: 0,
    end: 56,
};

// The replies of PUT: what is next, whether numbers have room, the line ends, and what is next behind each field.
fn put(
    streams: &mut Streams,
    entries: &mut Entries,
    shown: &mut Shown<Output>,
    source: &Source,
) -> Result<[Reply; 6], Refusal> {
    streams.begin(source, 4, 1)?;
    let first = streams.control(shown, 9)?;
    let wide = streams.fixed(shown, 1234, 0)?;
    streams.fixed(shown, 12, 1)?;
    let again = streams.control(shown, 9)?;
    streams.fixed(shown, 345, 1)?;
    let text = streams.control(shown, 9)?;
    if entries.push_text(b"ABC").is_err() {
        return Err(Refusal::Memory);
    }
    let written = streams.text(entries, shown, 5, 6)?;
    let skipped = streams.skip(shown, 2, 1)?;
    Ok([first, wide, again, text, written, skipped])
}

#[test]
fn items_are_put_or_memory_is_refused(rt: HostRuntime) {
    let Ok(mut streams) = Streams::new(rt.alloc(), b"") else {
        return;
    };
    let mut entries = Entries::new(rt.alloc());
    let mut shown = Shown::new(rt.alloc(), Output::new(rt.alloc()));
    let source = Source::new(LAYOUT, &LIST);
    let whole = b"  12 345AB\n\n".as_slice();
    match put(&mut streams, &mut entries, &mut shown, &source) {
        Ok(replies) => {
            assert!(rt; replies[0] == Reply::Done(1, 9) && replies[1] == Reply::Done(1234, 105));
            assert!(rt; replies[2] == Reply::Done(1, 9) && replies[3] == Reply::Done(2, 9));
            assert!(rt; replies[4] == Reply::Done(5, 6) && replies[5] == Reply::Done(2, 1));
            assert!(rt; shown.acts == 6 && shown.output.bytes() == whole);
            assert!(rt; streams.end(3, 4) == Ok(Reply::Done(3, 4)));
        }
        Err(refusal) => {
            assert!(rt; refusal == Refusal::Memory && whole.starts_with(shown.output.bytes()));
            streams.truncate(0);
        }
    }
    assert!(rt; streams.height() == 0 && streams.end(3, 4) == Err(Refusal::Bad));
    assert!(rt; streams.control(&mut shown, 9) == Err(Refusal::Bad));
}

// The replies of GET, the last behind the end of the input.
fn get(
    streams: &mut Streams,
    entries: &mut Entries,
    shown: &mut Shown<Output>,
    source: &Source,
) -> Result<[Reply; 5], Refusal> {
    streams.begin(source, 4, 0)?;
    streams.skip(shown, 1, 0)?;
    streams.control(shown, 9)?;
    let number = streams.fixed(shown, 7, 8)?;
    streams.control(shown, 9)?;
    let strange = streams.fixed(shown, 7, 8)?;
    let next = streams.control(shown, 9)?;
    let taken = streams.text(entries, shown, 5, 6)?;
    streams.control(shown, 9)?;
    let ended = streams.control(shown, 9)?;
    Ok([number, strange, next, taken, ended])
}

#[test]
fn items_are_got_or_memory_is_refused(rt: HostRuntime) {
    let Ok(mut streams) = Streams::new(rt.alloc(), b"skipped\n 12 x1 yAB\n") else {
        return;
    };
    let mut entries = Entries::new(rt.alloc());
    let mut shown = Shown::new(rt.alloc(), Output::new(rt.alloc()));
    let source = Source::new(LAYOUT, &LIST);
    match get(&mut streams, &mut entries, &mut shown, &source) {
        Ok(replies) => {
            assert!(rt; replies[0] == Reply::Done(12, 0) && replies[1] == Reply::Done(7, 104));
            assert!(rt; replies[2] == Reply::Done(2, 9) && replies[3] == Reply::Done(5, 6));
            assert!(rt; replies[4] == Reply::Done(3, 9) && entries.height() == 1);
            assert!(rt; shown.acts == 7 && shown.output.bytes().is_empty());
        }
        Err(refusal) => assert!(rt; refusal == Refusal::Memory),
    }
}
