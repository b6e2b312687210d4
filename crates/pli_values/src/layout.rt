// Where the parts of memory lie.

ghost use Rattle.std.specs.Prelude.{◌≡◌};
ghost use Rattle.pli_serving.specs.Bytes.{is_data};
ghost use Rattle.pli_values.specs.View.{layout_of};

/// Addresses and lengths in bytes: the code from 0 on, which is never written, the heap from a place on, and the end of all.
#[derive(Clone, Copy, PartialEq, Eq, Debug)]
pub struct Layout {
    pub code_bytes: u32,
    pub heap_at: u32,
    pub heap_capacity: u32,
    pub end: u32,
}

impl Layout {
    /// Whether so many bytes from an address on are data.
    pub fn is_data(&self, at: usize, bytes: usize) -> bool
        ensures { result ≡ is_data (layout_of self.now) at bytes }
    {
        self.code_bytes as usize <= at && at.saturating_add(bytes) <= self.end as usize
    }
}
