// What the reader is told and what it gives.

use pli_language::stmt::{EditPair, Skip};

/// Which statement goes by the formats: GET or PUT.
#[derive(Clone, Copy, PartialEq, Eq, Debug)]
pub enum Direction {
    Getting,
    Putting,
}

/// What stands behind GET or PUT: its option SKIP, and the pairs behind EDIT.
#[derive(Debug, Drop)]
pub struct Transfer {
    pub skip: Option<Skip>,
    pub pairs: Vec<EditPair>,
}
