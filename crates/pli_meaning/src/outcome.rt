// What a run comes to.

use pli_language::condition::Condition;

/// The limits of storage whose passing ends a run.
#[derive(Clone, Copy, PartialEq, Eq, Debug)]
pub enum Limit {
    Depth,
    Automatic,
}

/// How a run stands: ended in one of four ways, or still running.
#[derive(Clone, Copy, PartialEq, Eq, Debug)]
pub enum End {
    Running,
    Finished,
    Stopped,
    Error { code: u16, line: u32 },
    Limit(Limit),
}

/// A run's outcome: the acts that were carried out, the bytes written, the conditions raised with their codes in
/// order, and how it stands.
#[derive(Debug, Drop)]
pub struct Outcome {
    pub acts: u64,
    pub output: Vec<u8>,
    pub raised: Vec<(Condition, u16)>,
    pub end: End,
}
