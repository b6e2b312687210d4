// Parts of memory.

ghost use Rattle.std.specs.Prelude.{◌≡◌};
ghost use Rattle.pli_serving.specs.Bytes.{bytes_at};

/// So many bytes from an address on, as far as memory reaches.
#[tactic(auto, using(crate::proofs::Parts::cut_short))]
pub fn bytes_at(memory: &[u8], at: usize, count: usize) -> &[u8]
    ensures { result.now ≡ bytes_at count at memory.now }
{
    let start = at.min(memory.len());
    let behind = &memory[start..];
    let end = count.min(behind.len());
    &behind[..end]
}
