// What is kept of an entered block.

/// What a block is; an on-unit runs for a condition's code, and the program goes on behind it at an address.
#[derive(Clone, Copy, PartialEq, Eq, Debug)]
pub enum BlockKind {
    Procedure,
    Begin,
    OnUnit { code: u16, resume: u32 },
}

/// An entered block: the address of its frame, how many entries of expressions and places in format lists stood below it, and the
/// line that is current again when it ends.
#[derive(Clone, Copy, PartialEq, Eq, Debug)]
pub struct Block {
    pub kind: BlockKind,
    pub frame: u32,
    pub texts: u32,
    pub edits: u32,
    pub line: u32,
}
