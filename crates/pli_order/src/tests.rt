// Each call once.

use crate::find::element_at;
use crate::notes::order_of;
use pli_shapes::part::Part;
use pli_signatures::element::{ElementKind, LeafInForce};
use pli_types::signature::Bounds;
use smallvec::SmallVec;
use std::alloc::{AllocError, Global};
use std::test::Fail;

/// A leaf with so many elements in each dimension.
fn leaf(alloc: Global, upper: &[i32]) -> Result<LeafInForce, AllocError> {
    let mut bounds = SmallVec::new(alloc);
    for last in upper {
        bounds.push(Bounds {
            lower: 1,
            upper: *last,
        })?;
    }
    Ok(LeafInForce {
        kind: ElementKind::Bit,
        bounds,
    })
}

// 1 S(2), 2 A, 2 B(3), 3 C: two rows of one A and three Cs.
const PARTS: [Part; 4] = [
    Part {
        dimensions: 1,
        inside: 3,
    },
    Part {
        dimensions: 0,
        inside: 0,
    },
    Part {
        dimensions: 1,
        inside: 1,
    },
    Part {
        dimensions: 0,
        inside: 0,
    },
];

#[test]
fn elements_are_found_by_their_numbers(rt: HostRuntime) -> Result<(), Fail> {
    let order = order_of(rt.alloc(), &PARTS, 0)?;
    assert!(rt; order.leaves == 2);
    let mut leaves = Vec::new(rt.alloc());
    leaves.push(leaf(rt.alloc(), &[2])?)?;
    leaves.push(leaf(rt.alloc(), &[2, 3])?)?;
    let Some(found) = element_at(rt.alloc(), &order, &leaves, &[], 6)? else {
        assert!(rt; false);
        return Ok(());
    };
    assert!(rt; found.leaf == 1 && found.subscripts.as_slice() == [2, 2].as_slice());
    assert!(rt; element_at(rt.alloc(), &order, &leaves, &[], 8)?.is_none());
    Ok(())
}
