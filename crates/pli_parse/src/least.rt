// The least of refusals.

ghost use Rattle.std.specs.Prelude.{◌≡◌, Some};
ghost use Rattle.pli_language.specs.Refusals.{is_before, number_of, sooner, soonest};

use pli_language::fault::{SourceFault, SourceKind};

fn number(kind: SourceKind) -> u8
    ensures { result ≡ number_of kind }
{
    kind as u8
}

/// The first refusal stands before the second.
#[tactic(auto, unfolding(pli_language::specs::Refusals::is_before))]
fn is_before(first: SourceFault, second: SourceFault) -> bool
    ensures { result ≡ is_before first second }
{
    if first.line != second.line {
        return first.line < second.line;
    }
    if first.column != second.column {
        return first.column < second.column;
    }
    number(first.kind) < number(second.kind)
}

/// What was found, or a further refusal that stands before it.
#[tactic(auto, unfolding(pli_language::specs::Refusals::sooner))]
pub fn sooner(found: Option<SourceFault>, fault: SourceFault) -> SourceFault
    ensures { Some result ≡ sooner found fault }
{
    match found {
        Some(first) => {
            if is_before(fault, first) {
                fault
            } else {
                first
            }
        }
        None => fault,
    }
}

/// The first of what was found and of further refusals.
pub fn soonest(found: Option<SourceFault>, faults: &[SourceFault]) -> Option<SourceFault>
    ensures { result ≡ soonest found faults.now }
{
    let mut found = found;
    for fault in faults {
        found = Some(sooner(found, *fault));
    }
    found
}
