// Where REFER may stand.

ghost use Rattle.std.specs.Prelude.{◌≡◌, ◌∷◌, not, map};
ghost use Rattle.std.specs.List.{flat_map};
ghost use Rattle.pli_language.specs.Declaring.{is_deeper, is_scalar_number, keeps_extent, may_refer, refer_faults, bound_refer_faults, size_refer_faults, attribute_refer_faults, all_refer_faults};
ghost use Rattle.pli_language.specs.Refusals.{soonest};
ghost use Rattle.pli_language.specs.View.{attribute_of, bound_of, name_of, option_of, refer_of, size_of};
ghost use Rattle.pli_declare.specs.Shown.{declaration_of, held_of};
ghost use Rattle.pli_declaring.specs.Members.{answer, first_held, kept_further, variables_in};

use crate::attribute::{Row, has, is_number};
use crate::held::{
    all_dimensions, class_attributes, dimensions_of, goes_on, inherited_dimensions, is_deeper,
    is_parameter, own_attributes, same_bytes, stands_alone, variable_in,
};
use crate::least::noted;
use pli_declare::scope::{Declaration, Held};
use pli_language::declaration::{Attribute, Bound, Refer, Size};
use pli_language::expr::Name;
use pli_language::fault::{SourceFault, SourceKind};

/// Which leaf of a name was found: none, one that is a scalar number, or what keeps no extent.
#[derive(Clone, Copy)]
pub enum Kept {
    Nothing,
    Number,
    Other,
}

/// The variable is a number under no dimension.
fn is_scalar_number(held: &Held) -> bool
    ensures { result ≡ is_scalar_number (held_of held.now) }
{
    all_dimensions(held) == 0 && is_number(own_attributes(held))
}

/// The member belongs to nothing that is declared next: these, or behind them the last one.
#[tactic(auto, using(crate::proofs::Members::firsts))]
fn is_leaf(member: &Held, rest: &[Declaration], last: &Held) -> bool
    ensures { result ≡ not (is_deeper (held_of member.now) (first_held (variables_in (map declaration_of rest.now)) (held_of last.now))) }
{
    for declaration in rest {
        if let Some(next) = variable_in(&declaration.what) {
            return !is_deeper(member, next);
        }
    }
    !is_deeper(member, last)
}

/// What was found, with one more leaf of the name.
fn further(kept: Kept, member: &Held) -> Kept
    ensures { result ≡ kept_further kept (is_scalar_number (held_of member.now)) }
{
    match kept {
        Kept::Nothing if is_scalar_number(member) => Kept::Number,
        Kept::Nothing => Kept::Other,
        Kept::Number => Kept::Other,
        Kept::Other => Kept::Other,
    }
}

/// What was found, with one more of these declarations.
#[tactic(auto, using(crate::proofs::Members::answer_on))]
fn kept_with(
    kept: Kept,
    declaration: &Declaration,
    rest: &[Declaration],
    held: &Held,
    refer: &Refer,
) -> Kept
    ensures { answer result (refer_of refer.now).member.letters (variables_in (map declaration_of rest.now)) (held_of held.now) ≡ answer kept (refer_of refer.now).member.letters (variables_in (declaration_of declaration.now ∷ map declaration_of rest.now)) (held_of held.now) }
{
    let Some(member) = variable_in(&declaration.what) else {
        return kept;
    };
    let leaf = is_leaf(member, rest, held);
    if leaf
        && same_bytes(
            &member.variable.declared.name.letters,
            &refer.member.letters,
        )
    {
        return further(kept, member);
    }
    kept
}

/// The member that REFER names is the one earlier leaf of its name, a scalar number.
#[tactic(auto, using(crate::proofs::Members::members))]
fn keeps_extent(earlier: &[Declaration], held: &Held, refer: &Refer) -> bool
    ensures { result ≡ keeps_extent (variables_in (map declaration_of earlier.now)) (held_of held.now) (refer_of refer.now) }
{
    let mut kept = Kept::Nothing;
    for (i, declaration) in earlier.iter().enumerate() {
        kept = kept_with(kept, declaration, &earlier[i + 1..], held, refer);
    }
    matches!(kept, Kept::Number)
}

/// The variable is the last leaf of a BASED structure, under no dimension.
fn may_refer(held: &Held, after: &[Declaration]) -> bool
    ensures { result ≡ may_refer (held_of held.now) (map declaration_of after.now) }
{
    has(Row::Based, class_attributes(held))
        && !stands_alone(held)
        && !goes_on(after)
        && inherited_dimensions(held) == 0
}

/// What a REFER breaks, where one is allowed or not.
#[tactic(auto, using(crate::proofs::Faults::faults))]
fn noted_refer(
    found: Option<SourceFault>,
    allowed: bool,
    earlier: &[Declaration],
    held: &Held,
    refer: &Option<Refer>,
) -> Option<SourceFault>
    ensures { result ≡ soonest found (refer_faults allowed (variables_in (map declaration_of earlier.now)) (held_of held.now) (option_of refer_of refer.now)) }
{
    match refer {
        None => found,
        Some(refer) => {
            let broken = !(allowed && keeps_extent(earlier, held, refer));
            noted(found, broken, refer.place, SourceKind::BadRefer)
        }
    }
}

/// What REFER breaks in a dimension: only the upper bound of the only dimension may be kept in a member.
#[tactic(auto, using(crate::proofs::Faults::faults))]
fn noted_bound(
    found: Option<SourceFault>,
    earlier: &[Declaration],
    held: &Held,
    after: &[Declaration],
    bound: &Bound,
) -> Option<SourceFault>
    ensures { result ≡ soonest found (bound_refer_faults (variables_in (map declaration_of earlier.now)) (held_of held.now) (map declaration_of after.now) (bound_of bound.now)) }
{
    let allowed = may_refer(held, after) && dimensions_of(held.variable) == 1;
    match bound {
        Bound::Star { .. } => found,
        Bound::Upper(upper) => noted_refer(found, allowed, earlier, held, &upper.refer),
        Bound::Both { lower, upper } => {
            let found = noted_refer(found, false, earlier, held, &lower.refer);
            noted_refer(found, allowed, earlier, held, &upper.refer)
        }
    }
}

/// What REFER breaks in dimensions.
#[tactic(auto, using(crate::proofs::Faults::steps))]
fn noted_bounds(
    found: Option<SourceFault>,
    earlier: &[Declaration],
    held: &Held,
    after: &[Declaration],
    bounds: &[Bound],
) -> Option<SourceFault>
    ensures { result ≡ soonest found (flat_map (bound_refer_faults (variables_in (map declaration_of earlier.now)) (held_of held.now) (map declaration_of after.now)) (map bound_of bounds.now)) }
{
    let mut found = found;
    for bound in bounds {
        found = noted_bound(found, earlier, held, after, bound);
    }
    found
}

/// What REFER breaks in a length or size, where one is allowed or not.
#[tactic(auto, using(crate::proofs::Faults::faults))]
fn noted_size(
    found: Option<SourceFault>,
    allowed: bool,
    earlier: &[Declaration],
    held: &Held,
    size: &Option<Size>,
) -> Option<SourceFault>
    ensures { result ≡ soonest found (size_refer_faults allowed (variables_in (map declaration_of earlier.now)) (held_of held.now) (option_of size_of size.now)) }
{
    match size {
        Some(Size::Given(extent)) => noted_refer(found, allowed, earlier, held, &extent.refer),
        Some(Size::Star { .. }) => found,
        None => found,
    }
}

/// What REFER breaks in an attribute: only the length of a scalar text that isn't VARYING may be kept in a member.
#[tactic(auto, using(crate::proofs::Faults::faults))]
fn noted_attribute(
    found: Option<SourceFault>,
    earlier: &[Declaration],
    held: &Held,
    after: &[Declaration],
    attribute: &Attribute,
) -> Option<SourceFault>
    ensures { result ≡ soonest found (attribute_refer_faults (variables_in (map declaration_of earlier.now)) (held_of held.now) (map declaration_of after.now) (attribute_of attribute.now)) }
{
    match attribute {
        Attribute::Character(size) => {
            let allowed = may_refer(held, after)
                && dimensions_of(held.variable) == 0
                && !has(Row::Varying, own_attributes(held));
            noted_size(found, allowed, earlier, held, size)
        }
        Attribute::Area(size) => noted_size(found, false, earlier, held, size),
        _ => found,
    }
}

/// What REFER breaks in attributes.
#[tactic(auto, using(crate::proofs::Faults::steps))]
fn noted_attributes(
    found: Option<SourceFault>,
    earlier: &[Declaration],
    held: &Held,
    after: &[Declaration],
    attributes: &[Attribute],
) -> Option<SourceFault>
    ensures { result ≡ soonest found (flat_map (attribute_refer_faults (variables_in (map declaration_of earlier.now)) (held_of held.now) (map declaration_of after.now)) (map attribute_of attributes.now)) }
{
    let mut found = found;
    for attribute in attributes {
        found = noted_attribute(found, earlier, held, after, attribute);
    }
    found
}

/// What REFER breaks in a variable, where these stand before it in its structure and those behind it.
#[tactic(auto, using(crate::proofs::Faults::faults))]
pub fn noted_refers(
    found: Option<SourceFault>,
    parameters: &[Name],
    earlier: &[Declaration],
    held: &Held,
    after: &[Declaration],
) -> Option<SourceFault>
    ensures { result ≡ soonest found (all_refer_faults (map name_of parameters.now) (variables_in (map declaration_of earlier.now)) (held_of held.now) (map declaration_of after.now)) }
{
    if is_parameter(parameters, held) {
        return found;
    }
    let found = noted_bounds(
        found,
        earlier,
        held,
        after,
        &held.variable.declared.dimensions,
    );
    let found = noted_bounds(found, earlier, held, after, &held.variable.item.dimensions);
    noted_attributes(found, earlier, held, after, own_attributes(held))
}
