// The least of the rules that are broken.

ghost use Rattle.std.specs.Prelude.{◌≡◌};
ghost use Rattle.pli_language.specs.Declaring.{when};
ghost use Rattle.pli_language.specs.Refusals.{fault, is_before, number_of, soonest};

use pli_language::expr::Place;
use pli_language::fault::{SourceFault, SourceKind};

/// The number of a refusal.
fn number_of(kind: SourceKind) -> u8
    ensures { result ≡ number_of kind }
{
    kind as u8
}

/// The first stands before the second.
#[tactic(auto, unfolding(pli_language::specs::Refusals::is_before))]
pub fn is_before(f: SourceFault, g: SourceFault) -> bool
    ensures { result ≡ is_before f g }
{
    if f.line != g.line {
        return f.line < g.line;
    }
    if f.column != g.column {
        return f.column < g.column;
    }
    number_of(f.kind) < number_of(g.kind)
}

/// A rule that is broken at a place.
pub fn fault(place: Place, kind: SourceKind) -> SourceFault
    ensures { result ≡ fault place kind }
{
    SourceFault {
        line: place.line,
        column: place.column,
        kind,
    }
}

/// The least of what was found and of the rule, where it is broken.
#[tactic(auto, unfolding(pli_language::specs::Refusals::soonest, pli_language::specs::Refusals::sooner))]
pub fn noted(
    found: Option<SourceFault>,
    broken: bool,
    place: Place,
    kind: SourceKind,
) -> Option<SourceFault>
    ensures { result ≡ soonest found (when broken (fault place kind)) }
{
    if !broken {
        return found;
    }
    let next = fault(place, kind);
    match found {
        None => Some(next),
        Some(first) if is_before(next, first) => Some(next),
        Some(first) => Some(first),
    }
}
