// Each call once, and a list read with memory refused at each allocation in turn.

use crate::laws::format_lists_of_memory;
use crate::list::format_list;
use pli_edit::format::{Format, Node};
use pli_values::layout::Layout;
use pli_values::source::Source;
use std::test::Fail;

// F(5), 2(X(1), 3 A), A(2), behind 4 bytes of code.
const LIST: [u8; 68] = *b"\0\0\0\0\
\x03\0\0\0\
\x01\0\0\0\x01\0\0\0\x05\0\0\0\
\x06\0\0\0\x02\0\0\0\x02\0\0\0\
\x03\0\0\0\x01\0\0\0\x01\0\0\0\
\x02\0\0\0\x03\0\0\0\0\0\0\0\
\x02\0\0\0\x01\0\0\0\x02\0\0\0";

const LAYOUT: Layout = Layout {
    code_bytes: 4,
    heap_at: 68,
    heap_capacity: 0,
    end: 68,
};

#[test]
fn lists_are_read_or_memory_is_refused(rt: HostRuntime) -> Result<(), Fail> {
    let source = Source {
        layout: LAYOUT,
        memory: &LIST,
    };
    format_lists_of_memory();
    let Some(nodes) = format_list(rt.alloc(), &source, 4)? else {
        assert!(rt; false);
        return Ok(());
    };
    let wanted = [
        Node::Item(1, Format::Fixed(5)),
        Node::List(2, 2),
        Node::Item(1, Format::Space(1)),
        Node::Item(3, Format::Text(None)),
        Node::Item(1, Format::Text(Some(2))),
    ];
    assert!(rt; nodes.as_slice() == wanted.as_slice());
    assert!(rt; format_list(rt.alloc(), &source, 0)?.is_none());
    assert!(rt; format_list(rt.alloc(), &source, 16)?.is_none());
    Ok(())
}
