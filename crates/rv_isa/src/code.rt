// Code as it is written, before its calls are all patched.

/// A call whose distance isn't known yet.
#[derive(Clone, Copy, PartialEq, Eq, Debug)]
pub struct Call {
    /// The index of the call's word.
    pub place: usize,
    /// The number of the procedure that it calls.
    pub procedure: usize,
}

/// Code words with what stands beside them in an image.
#[derive(Debug, Drop)]
pub struct Code {
    pub words: Vec<u32>,
    pub statics: Vec<u8>,
    /// Where the run begins, in bytes from the first word.
    pub entry: u32,
    pub table: Vec<u32>,
    pub calls: Vec<Call>,
}
