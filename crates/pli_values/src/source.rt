// The memory that lists are read from.

ghost use Rattle.std.specs.Prelude.{◌≡◌, ◌≤◌, length};

use crate::layout::Layout;

/// Memory as far as it reaches, and where its parts lie.
#[derive(Clone, Copy)]
pub struct Source<'a> {
    pub layout: Layout,
    pub memory: &'a [u8],
    ghost within: { layout.end ≤ length memory.now },
}

impl<'a> Source<'a> {
    /// Memory whose parts lie in it.
    pub fn new(layout: Layout, memory: &'a [u8]) -> Source<'a>
        requires { layout.end ≤ length memory.now }
        ensures layout { result.layout ≡ layout }
        ensures memory { result.memory.now ≡ memory.now }
    {
        Source { layout, memory }
    }
}
