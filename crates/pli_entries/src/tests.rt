// Each call once; with a refused allocation the answer is Memory.

ghost use Rattle.std.specs.Prelude.{◌≡◌, [], length};

use crate::entries::Entries;
use crate::fault::EntryFault;
use pli_values::layout::Layout;
use pli_values::source::Source;
use std::cmp::Ordering;

const LAYOUT: Layout = Layout {
    code_bytes: 0,
    heap_at: 16,
    heap_capacity: 0,
    end: 16,
};

// Two texts where they stand, joined and cut, and one of a number.
fn make(entries: &mut Entries, memory: &[u8]) -> Result<(), EntryFault>
    requires { length memory.now ≡ 16 }
{
    let source = Source::new(LAYOUT, memory);
    entries.push_from(&source, 0, 4, 0)?;
    entries.push_from(&source, 4, 6, 1)?;
    entries.join()?;
    entries.cut(3, 4, 1)?;
    entries.push_number(12, 15)?;
    entries.cut(8, 0, 0)
}

#[test]
fn texts_are_made_or_memory_is_refused(rt: HostRuntime) {
    let memory = *b"PL/I\x03\x00abc.......";
    let mut entries = Entries::new(rt.alloc());
    if let Err(fault) = make(&mut entries, &memory) {
        assert!(rt; fault == EntryFault::Memory);
        return;
    }
    assert!(rt; entries.height() == 2 && entries.are_texts(2) && !entries.are_texts(3));
    assert!(rt; entries.newest_text() == Some(b"12".as_slice()));
    assert!(rt; entries.to_number(0) == Ok(12));
    let mut stored = [0; 16];
    assert!(rt; entries.store(&LAYOUT, &mut stored, 8, 0, 2) == Ok(4));
    assert!(rt; entries.store(&LAYOUT, &mut stored, 8, 6, 1) == Ok(4));
    assert!(rt; stored == *b"\0\0\0\0\0\0\0\0\x04\0/Iab  ");
    assert!(rt; entries.join() == Err(EntryFault::Bad));
}

// What is told of two texts.
fn tell(entries: &mut Entries) -> Result<(Ordering, u32, u32), EntryFault> {
    entries.push_text(b"AB")?;
    entries.push_text(b"AB ")?;
    let order = entries.compare()?;
    entries.push_text(b"ABCB")?;
    entries.push_text(b"CB")?;
    let place = entries.find(0)?;
    entries.push_blanks(2)?;
    entries.overwrite_text(b"1");
    let word = entries.to_number(1)?;
    entries.push_text(b"gone")?;
    entries.drop_text();
    Ok((order, place, word))
}

#[test]
fn texts_are_read_above_an_aggregate(rt: HostRuntime) {
    let mut entries = Entries::new(rt.alloc());
    if let Err(fault) = entries.push_aggregate(Vec::new(rt.alloc())) {
        assert!(rt; fault == EntryFault::Memory);
        return;
    }
    match tell(&mut entries) {
        Ok(told) => assert!(rt; told == (Ordering::Equal, 3, 1)),
        Err(fault) => assert!(rt; fault == EntryFault::Memory),
    }
    assert!(rt; !entries.are_texts(entries.height()) && entries.newest_text().is_none());
    entries.truncate(0);
    assert!(rt; entries.height() == 0);
}
