// The kinds of what is designated.

ghost use Rattle.std.specs.Prelude.{◌≡◌, map};
ghost use Rattle.pli_typing.specs.Converting as C;
ghost use Rattle.pli_typing.specs.TypedView.{leaf_of, leaf_type_of, reference_of, variable_of};
ghost use Rattle.pli_language.specs.View.{option_of};
ghost use Rattle.pli_operand.specs.Shown.{designated_of, leaf_behind};

use crate::operand::Designated;
use pli_typing::typed::{Leaf, LeafType, Reference, Variable};

/// The kind of an only leaf.
fn only_type(leaves: &[Leaf], subscripted: usize) -> Option<LeafType>
    ensures { option_of leaf_type_of result ≡ C.only_type (map (λ l. leaf_behind subscripted (leaf_of l)) leaves.now) }
{
    match leaves {
        [leaf] => Some(leaf.kind),
        _ => None,
    }
}

/// The kind of a scalar, or of each element of an array without members.
pub fn element_type(designated: &Designated) -> Option<LeafType>
    ensures { option_of leaf_type_of result ≡ C.element_type (designated_of designated.now) }
{
    if designated.has_members {
        return None;
    }
    only_type(designated.leaves, designated.subscripted)
}

/// The kind of a scalar.
pub fn scalar_type(designated: &Designated) -> Option<LeafType>
    ensures { option_of leaf_type_of result ≡ C.scalar_type (designated_of designated.now) }
{
    if designated.dimensions != 0 {
        return None;
    }
    element_type(designated)
}

/// A scalar that is an area.
pub fn is_area(designated: &Designated) -> bool
    ensures { result ≡ C.is_area (designated_of designated.now) }
{
    matches!(scalar_type(designated), Some(LeafType::Area(_)))
}

/// An array or a structure.
pub fn is_aggregate(designated: &Designated) -> bool
    ensures { result ≡ C.is_aggregate (designated_of designated.now) }
{
    scalar_type(designated).is_none()
}

/// The variable of a reference.
#[tactic(auto, unfolding(pli_typing::specs::TypedView::reference_of))]
pub fn variable_of(reference: &Reference) -> Variable
    ensures { variable_of result ≡ C.variable_of (reference_of reference.now) }
{
    match reference {
        Reference::Plain { variable, .. } | Reference::Located { variable, .. } => *variable,
    }
}
