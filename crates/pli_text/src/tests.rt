// Each call once; with a refused allocation the answer is Memory, and what stands stays as it was.

ghost use Rattle.std.specs.Prelude.{◌≡◌, []};

use crate::fault::TextFault;
use crate::stack::TextStack;
use std::cmp::Ordering;

// Numbers, parts and joins, each as text.
fn make(texts: &mut TextStack) -> Result<(), TextFault>
    requires { texts.old ≡ [] }
{
    texts.push(b"<")?;
    texts.push_number(-12, 15)?;
    texts.join()?;
    texts.push_bit(true)?;
    texts.join()?;
    texts.cut(7, 5)?;
    texts.cut_from(2)?;
    texts.fit(6)?;
    texts.shorten(5);
    texts.push_blanks(3)?;
    texts.overwrite(b"ab");
    texts.join()
}

// What is read of texts: a number, an order, two places, a bit.
fn read(texts: &mut TextStack) -> Result<(i32, Ordering, u32, u32, bool), TextFault>
    requires { texts.old ≡ [] }
{
    texts.push(b" +31 ")?;
    let number = texts.to_number()?;
    texts.push(b"AB")?;
    texts.push(b"AB ")?;
    let order = texts.compare();
    texts.push(b"ABCB")?;
    texts.push(b"CB")?;
    let place = texts.find();
    texts.push(b"1202")?;
    texts.push(b"10")?;
    let strange = texts.verify();
    texts.push(b"1  ")?;
    let bit = texts.to_bit()?;
    Ok((number, order, place, strange, bit))
}

#[test]
fn texts_are_made_or_memory_is_refused(rt: HostRuntime) {
    let mut texts = TextStack::new(rt.alloc());
    if let Err(fault) = make(&mut texts) {
        assert!(rt; fault == TextFault::Memory);
        return;
    }
    assert!(rt; texts.height() == 1);
    if texts.height() == 1 {
        assert!(rt; texts.top() == b"-121 ab ".as_slice());
        let mut element = *b"......";
        assert!(rt; texts.store(&mut element) == 8 && element == *b"-121 a");
    }
    texts.truncate(0);
}

#[test]
fn texts_are_read_or_memory_is_refused(rt: HostRuntime) {
    let mut texts = TextStack::new(rt.alloc());
    match read(&mut texts) {
        Ok(found) => assert!(rt; found == (31, Ordering::Equal, 3, 2, true)),
        Err(fault) => assert!(rt; fault == TextFault::Memory),
    }
}
