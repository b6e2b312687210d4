// Signatures of which no extent is open.

ghost use Rattle.std.specs.Prelude.{◌≡◌, Some, None, MatchOption};
ghost use Rattle.pli_serving.specs.Templates.{shape_at};
ghost use Rattle.pli_signatures.specs.Whole.{shape_so_far};
ghost use Rattle.pli_types.specs.View.{template_of};

use pli_signatures::signatures::Signatures;
use pli_types::signature::Signature;

/// The signature of a number, where none of its extents is open.
#[tactic(auto, using(crate::proofs::Wholes::open_is, crate::proofs::Wholes::missing_is))]
pub fn whole(signatures: &Signatures, number: u32) -> Option<&Signature>
    ensures { MatchOption result (shape_at signatures.now number ≡ None) (λ g. shape_at signatures.now number ≡ Some (shape_so_far (template_of g.now))) }
{
    if !signatures.is_whole(number) {
        return None;
    }
    match signatures.get(number) {
        Some(signature) => Some(signature),
        None => None,
    }
}
