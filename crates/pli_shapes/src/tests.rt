// Each call once.

use crate::laws::{item_shapes_of_memory, nests_of_parts};
use crate::part::Part;
use crate::shape::{LeafShape, item_shape, leaf_shape};
use pli_values::layout::Layout;
use pli_values::source::Source;
use std::test::Fail;

// 1 S(2), 2 A, 2 B(3), 3 C, behind 4 bytes of code; its first leaf is the fifth.
const SHAPE: [u8; 56] = *b"\0\0\0\0\
\x00\0\0\0\
\x01\0\0\0\x02\0\0\0\x05\0\0\0\
\x00\0\0\0\x00\0\0\0\x05\0\0\0\
\x01\0\0\0\x01\0\0\0\x06\0\0\0\
\x00\0\0\0\x00\0\0\0\x06\0\0\0";

const LAYOUT: Layout = Layout {
    code_bytes: 4,
    heap_at: 56,
    heap_capacity: 0,
    end: 56,
};

#[test]
fn shapes_are_read_or_memory_is_refused(rt: HostRuntime) -> Result<(), Fail> {
    let source = Source {
        layout: LAYOUT,
        memory: &SHAPE,
    };
    item_shapes_of_memory();
    nests_of_parts();
    let Some(shape) = item_shape(rt.alloc(), &source, 4)? else {
        assert!(rt; false);
        return Ok(());
    };
    let wanted = [(1, 3), (0, 0), (1, 1), (0, 0)].map(|(dimensions, inside)| Part {
        dimensions,
        inside,
    });
    assert!(rt;
        shape.given == 0 && shape.first == 5 && shape.parts.as_slice() == wanted.as_slice()
    );
    assert!(rt; leaf_shape(&source, 4).is_none());
    let leaf = LeafShape {
        given: 5,
        dimensions: 0,
        leaf: 5,
    };
    assert!(rt; leaf_shape(&source, 16) == Some(leaf));
    assert!(rt; item_shape(rt.alloc(), &source, 0)?.is_none());
    assert!(rt; item_shape(rt.alloc(), &source, 44)?.is_none());
    Ok(())
}
