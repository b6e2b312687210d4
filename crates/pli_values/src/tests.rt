// Each call once; what the definitions give is theirs to say.

use crate::begun::{Begun, put_generation};
use crate::element::{Value, put_element, put_value, value_at};
use crate::generation::put_leaf;
use crate::initial::{Initial, Item};
use crate::laws::initial_values_of_memory;
use crate::layout::Layout;
use crate::leaf_items::Items;
use crate::lists::initial_lists;
use crate::name::{Name, name_at, name_in, offset_of, offset_word, put_name};
use crate::places::places_at;
use crate::source::Source;
use crate::subscripts::subscripts_at;
use crate::word::put_words;
use pli_signatures::element::ElementKind;
use pli_signatures::size::element_kind;
use pli_types::signature::{Bounds, Class, Leaf, LeafKind, Signature};
use smallvec::SmallVec;
use std::alloc::{AllocError, Global};
use std::test::Fail;

#[test]
fn data_lies_between_the_code_and_the_end(rt: HostRuntime) {
    let layout = Layout {
        code_bytes: 16,
        heap_at: 32,
        heap_capacity: 32,
        end: 64,
    };
    assert!(rt; layout.is_data(16, 48) && !layout.is_data(12, 4) && !layout.is_data(usize::MAX, 2));
}

#[test]
fn names_are_read_as_they_were_written(rt: HostRuntime) {
    let name = Name::Based {
        area: 1 << 40,
        offset: 48,
    };
    let mut memory = [7; 20];
    put_name(&mut memory, 4, name);
    assert_eq!(rt; name_at(&memory, 4), Some(name));
    assert_eq!(rt; name_at(&memory, 0), None);
    assert_eq!(rt; offset_of(offset_word(None)), None);
    assert_eq!(rt; offset_of(offset_word(Some(32))), Some(32));
}

#[test]
fn values_are_read_as_they_were_written(rt: HostRuntime) {
    let mut memory = [7; 12];
    let number = ElementKind::Fixed { precision: 15 };
    let behind = put_element(&mut memory, 0, number, Value::Number(-2));
    assert_eq!(rt; behind, 4);
    let text = element_kind(LeafKind::Varying { length: Some(4) });
    put_value(&mut memory, 4, text, Value::Text(b"PL/I."));
    assert_eq!(rt;
        memory.as_slice(),
        b"\xfe\xff\0\0\x04\0PL/I\x07\x07".as_slice()
    );
    assert!(rt; matches!(value_at(&memory, 0, number), Value::Number(-2)));
    assert!(rt; matches!(value_at(&memory, 4, text), Value::Text(b"PL/I")));
}

const LIST: [u8; 40] =
    *b"\0\0\0\0\x01\0\0\0\0\0\0\0\x0c\0\0\0\x01\0\0\0\x03\0\0\0\x02\0\0\0\x03\0\0\0ABC\0\0\0\0\0";

#[test]
fn initial_values_are_right_for_their_leaf(rt: HostRuntime) -> Result<(), Fail> {
    let layout = Layout {
        code_bytes: 4,
        heap_at: 40,
        heap_capacity: 0,
        end: 40,
    };
    let source = Source {
        layout,
        memory: &LIST,
    };
    let text = Leaf {
        kind: LeafKind::Character { length: Some(2) },
        bounds: SmallVec::from_slice(rt.alloc(), &[])?,
    };
    let bit = Leaf {
        kind: LeafKind::Bit,
        bounds: SmallVec::from_slice(rt.alloc(), &[])?,
    };
    initial_values_of_memory();
    let alloc = rt.alloc();
    assert!(rt; initial_lists(alloc, &source, &[], 0)?.is_some_and(|lists| lists.is_empty()));
    assert!(rt; initial_lists(alloc, &source, &[text], 4)?.is_some());
    assert!(rt; initial_lists(alloc, &source, &[bit], 4)?.is_none());
    Ok(())
}

#[test]
fn a_leaf_begins_with_its_initial_values(rt: HostRuntime) {
    let source = Source {
        layout: Layout {
            code_bytes: 4,
            heap_at: 40,
            heap_capacity: 0,
            end: 40,
        },
        memory: &LIST,
    };
    let first = Item {
        repetition: 1,
        value: Initial::Skip,
    };
    let items = Items {
        source,
        kind: ElementKind::Character { length: 2 },
        current: first,
        left: 0,
        at: 40,
    };
    let mut memory = [7; 20];
    let behind = put_leaf(&mut memory, 4, 3, items);
    assert_eq!(rt; behind, 16);
    assert_eq!(rt;
        memory.as_slice(),
        b"\x07\x07\x07\x07  \0\0  \0\0  \0\0\x07\x07\x07\x07".as_slice()
    );
}

/// A number that tells how many of two bits there are, which begin as one set bit.
const BITS: [u8; 40] =
    *b"\0\0\0\0\x01\0\0\0\x01\0\0\0\x0c\0\0\0\x01\0\0\0\x01\0\0\0\x01\0\0\0\x01\0\0\0\0\0\0\0\0\0\0\0";

fn counted_bits(alloc: Global) -> Result<Signature, AllocError> {
    let count = Leaf {
        kind: LeafKind::Fixed { precision: 15 },
        bounds: SmallVec::new(alloc),
    };
    let bounds = Bounds { lower: 1, upper: 0 };
    let bits = Leaf {
        kind: LeafKind::Bit,
        bounds: SmallVec::from_slice(alloc, &[Some(bounds)])?,
    };
    Ok(Signature {
        class: Class::Plain,
        refer: Some(0),
        leaves: Vec::from_array(alloc, [count, bits])?,
    })
}

#[test]
fn a_generation_begins_with_its_extent(rt: HostRuntime) -> Result<(), Fail> {
    let layout = Layout {
        code_bytes: 4,
        heap_at: 40,
        heap_capacity: 0,
        end: 40,
    };
    let data = BITS;
    let source = Source::new(layout, &data);
    let signature = counted_bits(rt.alloc())?;
    let Some(lists) = initial_lists(rt.alloc(), &source, &signature.leaves, 4)? else {
        assert!(rt; false);
        return Ok(());
    };
    let begun = Begun {
        signature: &signature,
        extent: 2,
        member: Some(0),
        source,
        lists: &lists,
    };
    if begun.data_size() > 12 {
        assert!(rt; false);
        return Ok(());
    }
    let mut memory = [7; 16];
    put_generation(&mut memory, 4, &begun);
    assert_eq!(rt;
        memory.as_slice(),
        b"\x07\x07\x07\x07\x02\0\0\0\x01\0\0\0\0\0\0\0".as_slice()
    );
    Ok(())
}

#[test]
fn places_and_names_stand_in_data(rt: HostRuntime) -> Result<(), Fail> {
    let mut memory = [0; 32];
    put_words(&mut memory, 4, &[2, 0, 255, 1, 3]);
    let layout = Layout {
        code_bytes: 4,
        heap_at: 32,
        heap_capacity: 0,
        end: 32,
    };
    let source = Source {
        layout,
        memory: &memory,
    };
    let places = places_at(rt.alloc(), &source, 4)?;
    assert!(rt; places.is_some_and(|places| places.len() == 2 && places[1].dimension == 3));
    assert!(rt; places_at(rt.alloc(), &source, 24)?.is_some_and(|places| places.is_empty()));
    assert!(rt; places_at(rt.alloc(), &source, 12)?.is_none());
    assert!(rt; name_in(&source, 12).is_none() && name_in(&source, 20).is_none());
    Ok(())
}

#[test]
fn subscripts_go_row_by_row(rt: HostRuntime) -> Result<(), Fail> {
    let dimensions = [
        Bounds {
            lower: -1,
            upper: 1,
        },
        Bounds { lower: 1, upper: 4 },
    ];
    let found = subscripts_at(rt.alloc(), &dimensions, 9)?;
    assert!(rt; found.is_some_and(|found| found.as_slice() == [1, 2].as_slice()));
    assert!(rt; subscripts_at(rt.alloc(), &dimensions, 12)?.is_none());
    assert!(rt; subscripts_at(rt.alloc(), &[], 0)?.is_some());
    Ok(())
}
