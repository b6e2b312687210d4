// Aggregates that were taken out of memory.

use pli_signatures::element::ElementKind;
use pli_types::signature::Bounds;
use smallvec::SmallVec;

/// One leaf: its kind, the bounds that were left, and the bytes of its elements as they stood, row by row.
#[derive(Drop)]
pub struct TakenLeaf {
    pub kind: ElementKind,
    pub bounds: SmallVec<Bounds, 8>,
    pub bytes: Vec<u8>,
}
