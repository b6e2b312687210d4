// Each call once on a table's words, and what a refused allocation leaves as it was.

use crate::element::{ElementKind, element_count, element_place, is_within};
use crate::filling::ExtentPlace;
use crate::in_force::extent_told;
use crate::signatures::Signatures;
use crate::size::{count_in_force, kind_in_force};
use pli_types::signature::Bounds;
use std::test::Fail;

/// Class, leaves and REFER, then each leaf's kind, size and pairs: two texts of an open length, the second an array of 0:1 by open
/// bounds; and a number beside bits whose upper bound it tells.
const TABLE: [u32; 24] = [
    0,
    2,
    0,
    3,
    0xFFFF_FFFF,
    0,
    2,
    0xFFFF_FFFF,
    2,
    0,
    1,
    1,
    0,
    0,
    2,
    1,
    1,
    15,
    0,
    4,
    0,
    1,
    1,
    0,
];

const LENGTHS: [ExtentPlace; 2] = [
    ExtentPlace {
        leaf: 0,
        dimension: 255,
    },
    ExtentPlace {
        leaf: 1,
        dimension: 255,
    },
];

const COLUMNS: [ExtentPlace; 1] = [ExtentPlace {
    leaf: 1,
    dimension: 1,
}];

fn to(upper: i32) -> Bounds {
    Bounds { lower: 1, upper }
}

#[test]
fn a_signature_is_filled_in(rt: HostRuntime) -> Result<(), Fail> {
    let alloc = rt.alloc();
    let mut signatures = Signatures::from_table(alloc, &TABLE)?;
    assert!(rt; signatures.len() == 2 && !signatures.is_empty() && signatures.get(2).is_none());
    assert!(rt; !signatures.is_whole(0) && signatures.is_whole(1));
    assert_eq!(rt; signatures.fill(alloc, 0, &LENGTHS, to(1025))?, None);
    assert_eq!(rt; signatures.fill(alloc, 0, &LENGTHS, to(7))?, Some(2));
    assert_eq!(rt; signatures.fill(alloc, 2, &COLUMNS, to(3))?, Some(3));
    assert_eq!(rt; signatures.fill(alloc, 0, &LENGTHS, to(7))?, Some(2));
    assert!(rt; signatures.len() == 4 && signatures.is_whole(3));
    assert_eq!(rt; signatures.leaf_place(3, 1), Some(12));
    assert_eq!(rt; signatures.data_size(3), Some(60));
    assert_eq!(rt; signatures.capacity(3), None);
    assert!(rt; signatures.size_with(1, 5) == Some(24) && signatures.footprint(1, 5) == Some(48));
    Ok(())
}

#[test]
fn a_leaf_has_its_elements(rt: HostRuntime) -> Result<(), Fail> {
    let alloc = rt.alloc();
    let signatures = Signatures::from_table(alloc, &TABLE)?;
    let Some(bits) = signatures.leaf(alloc, 1, 1, 5)? else {
        assert!(rt; false);
        return Ok(());
    };
    assert!(rt; bits.kind == ElementKind::Bit && bits.kind.size() == 4);
    let words = bits.words(alloc)?;
    assert!(rt; words.len() == 4 && words[0] == 4 && words[2] == 1 && words[3] == 5);
    let bounds = bits.bounds.as_slice();
    assert!(rt; element_count(bounds) == 5 && is_within(bounds, &[5]) && !is_within(bounds, &[6]));
    assert_eq!(rt; element_place(&[to(2), to(3)], &[2, 3]), Some(5));
    let told = extent_told(true, 1, 2, 5);
    let Some(signature) = signatures.get(1) else {
        assert!(rt; false);
        return Ok(());
    };
    let Some(last) = signature.leaves.get(1) else {
        assert!(rt; false);
        return Ok(());
    };
    assert!(rt; told == Some(5) && kind_in_force(last, told) == bits.kind);
    assert!(rt; count_in_force(last, told) == 5 && count_in_force(last, None) == 0);
    Ok(())
}

#[test]
fn want_of_memory_changes_nothing(rt: HostRuntime) {
    let alloc = rt.alloc();
    let Ok(mut signatures) = Signatures::from_table(alloc, &TABLE) else {
        return;
    };
    match signatures.fill(alloc, 0, &LENGTHS, to(7)) {
        Ok(number) => assert!(rt; number == Some(2) && signatures.len() == 3),
        Err(_) => assert_eq!(rt; signatures.len(), 2),
    }
}
