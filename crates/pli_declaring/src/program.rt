// The main procedure of a program.

ghost use Rattle.std.specs.Prelude.{◌≡◌, map, Bool, true, false};
ghost use Rattle.std.specs.List.{flat_map};
ghost use Rattle.pli_language.specs.Declaring.{main_faults, outer_procedures};
ghost use Rattle.pli_language.specs.Refusals.{soonest};
ghost use Rattle.pli_language.specs.View.{item_of, items_of, option_of, procedure_head_of};
ghost use Rattle.pli_declaring.specs.Mains.{main_left, of_procedure, procedure_in};

use crate::head::{has_main, noted_first};
use crate::least::noted;
use pli_language::expr::Place;
use pli_language::fault::{SourceFault, SourceKind};
use pli_language::stmt::{Item, Items, ProcedureHead};

/// The procedure that an item is.
#[tactic(auto, unfolding(pli_language::specs::View::item_of))]
fn procedure_in(item: &Item) -> Option<&ProcedureHead>
    ensures { option_of (λ h. procedure_head_of h.now) result ≡ procedure_in (item_of item.now) }
{
    match item {
        Item::Procedure { head, .. } => Some(head),
        Item::Declare { .. } => None,
        Item::Statement { .. } => None,
        Item::EndLabels { .. } => None,
    }
}

/// What an outer procedure breaks, where another was seen before or none.
#[tactic(auto, using(crate::proofs::Faults::faults))]
fn noted_procedure(
    found: Option<SourceFault>,
    seen: bool,
    head: &ProcedureHead,
) -> Option<SourceFault>
    ensures { result ≡ soonest found (of_procedure seen (procedure_head_of head.now)) }
{
    let broken = seen || !has_main(head) || head.parameters.len() > 0;
    noted_first(found, &head.labels, broken, SourceKind::NoMain)
}

/// What the outer procedures break: the first is main without parameters, and there is no other.
#[tactic(auto, using(crate::proofs::Mains::mains))]
pub fn noted_main(found: Option<SourceFault>, items: &Items) -> Option<SourceFault>
    ensures { result ≡ soonest found (main_faults (outer_procedures (items_of items.now))) }
{
    let mut found = found;
    let mut seen = false;
    let mut rest = items;
    while let Items::More { first, rest: next } = rest {
        if let Some(head) = procedure_in(first) {
            found = noted_procedure(found, seen, head);
            seen = true;
        }
        rest = next;
    }
    noted(
        found,
        !seen,
        Place { line: 1, column: 1 },
        SourceKind::NoMain,
    )
}
