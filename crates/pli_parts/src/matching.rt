// Whether leaves that were taken match others.

ghost use Rattle.std.specs.Prelude.{◌≡◌, map};
ghost use Rattle.pli_meaning.specs.Placing as P;
ghost use Rattle.pli_serving.specs.AggregateServices as A;
ghost use Rattle.pli_signatures.specs.View.{kind_of};
ghost use Rattle.pli_parts.specs.Putting as S;
ghost use Rattle.pli_parts.specs.Putting.{bounds_of, bounds_taken};

use crate::leaf::PartLeaf;
use pli_aggregates::bounds::same_bounds;
use pli_entries::taken::TakenLeaf;
use pli_signatures::element::ElementKind;

/// Whether leaves have the bounds of others, one after the other, and are as many.
pub fn all_same_bounds(leaves: &[PartLeaf], taken: &[TakenLeaf]) -> bool
    ensures { result ≡ P.all_same_bounds (map bounds_of leaves.now) (map bounds_taken taken.now) }
{
    if leaves.len() != taken.len() {
        return false;
    }
    for number in 0..leaves.len() {
        if !same_bounds(&leaves[number].bounds, &taken[number].bounds) {
            return false;
        }
    }
    true
}

/// Whether values of one kind go into elements of another: texts of any length; areas have no values.
pub fn goes_into(source: ElementKind, target: ElementKind) -> bool
    ensures { result ≡ A.goes_into (kind_of source) (kind_of target) }
{
    match source {
        ElementKind::Fixed { .. } => source == target,
        ElementKind::Character { .. } => match target {
            ElementKind::Character { .. } => true,
            _ => false,
        },
        ElementKind::Varying { .. } => match target {
            ElementKind::Varying { .. } => true,
            _ => false,
        },
        ElementKind::Bit => source == target,
        ElementKind::Pointer => source == target,
        ElementKind::Offset => source == target,
        ElementKind::Area { .. } => false,
    }
}

/// Whether the values of leaves that were taken go into others, one after the other, as far as both go.
pub fn go_into(leaves: &[PartLeaf], taken: &[TakenLeaf]) -> bool
    ensures { result ≡ S.go_into leaves.now taken.now }
{
    let both = leaves.len().min(taken.len());
    for number in 0..both {
        if !goes_into(taken[number].kind, leaves[number].kind) {
            return false;
        }
    }
    true
}
