// The heads of procedures.

ghost use Rattle.std.specs.Prelude.{◌≡◌, ◌∷◌, [], ◌==◌, None, map};
ghost use Rattle.std.specs.List.{flat_map, list_any};
ghost use Rattle.pli_language.specs.Tree.{Area, Initial, Aligned, Unaligned, Internal};
ghost use Rattle.pli_language.specs.Declaring.{when, has, row_of, is_main, has_main, at_first, returns_are_bad, option_row, options_repeat, option_faults, head_faults};
ghost use Rattle.pli_language.specs.Refusals.{fault, soonest};
ghost use Rattle.pli_language.specs.View.{attribute_of, name_of, procedure_head_of, procedure_option_of};

use crate::attribute::{attributes_clash, has_class, has_kind};
use crate::extent::{Use, noted_attributes};
use crate::least::noted;
use pli_language::declaration::Attribute;
use pli_language::expr::Name;
use pli_language::fault::{SourceFault, SourceKind};
use pli_language::stmt::{ProcedureHead, ProcedureOption};

/// The least of what was found and of the rule at the first of these labels, where it is broken.
#[tactic(auto, using(crate::proofs::Faults::faults))]
pub fn noted_first(
    found: Option<SourceFault>,
    labels: &[Name],
    broken: bool,
    kind: SourceKind,
) -> Option<SourceFault>
    ensures { result ≡ soonest found (at_first (map name_of labels.now) (λ p. when broken (fault p kind))) }
{
    match labels.first() {
        Some(first) => noted(found, broken, first.place, kind),
        None => found,
    }
}

fn is_main(option: &ProcedureOption) -> bool
    ensures { result ≡ is_main (procedure_option_of option.now) }
{
    matches!(option, ProcedureOption::Main)
}

/// The procedure has OPTIONS(MAIN).
pub fn has_main(head: &ProcedureHead) -> bool
    ensures { result ≡ has_main (procedure_head_of head.now) }
{
    head.options.iter().any(|o| is_main(o))
}

/// An attribute that RETURNS has none of, beside storage classes.
fn is_unreturned(attribute: &Attribute) -> bool
    ensures { result ≡ has (row_of (attribute_of attribute.now)) (Area None ∷ Initial [] ∷ Aligned ∷ Unaligned ∷ Internal ∷ []) }
{
    match attribute {
        Attribute::Area(_)
        | Attribute::Initial(_)
        | Attribute::Aligned
        | Attribute::Unaligned
        | Attribute::Internal => true,
        _ => false,
    }
}

fn has_unreturned(attributes: &[Attribute]) -> bool
    ensures { result ≡ list_any (λ a. has (row_of a) (Area None ∷ Initial [] ∷ Aligned ∷ Unaligned ∷ Internal ∷ [])) (map attribute_of attributes.now) }
{
    attributes.iter().any(|a| is_unreturned(a))
}

/// RETURNS has kind attributes alone, one kind and no AREA.
fn returns_are_bad(attributes: &[Attribute]) -> bool
    ensures { result ≡ returns_are_bad (map attribute_of attributes.now) }
{
    attributes_clash(attributes)
        || !has_kind(attributes)
        || has_class(attributes)
        || has_unreturned(attributes)
}

/// Which option it is.
fn option_row(option: &ProcedureOption) -> u8
    ensures { result ≡ option_row (procedure_option_of option.now) }
{
    match option {
        ProcedureOption::Main => 0,
        ProcedureOption::Recursive => 1,
        ProcedureOption::Returns(_) => 2,
    }
}

/// The option stands among these.
fn has_option(row: u8, options: &[ProcedureOption]) -> bool
    ensures { result ≡ list_any (λ p. option_row p == row) (map procedure_option_of options.now) }
{
    options.iter().any(|o| option_row(o) == row)
}

/// An option stands twice among these.
#[tactic(auto, using(pli_declare::proofs::Chains::drop_here, std::proofs::lemmas::List::drop_all))]
fn options_repeat(options: &[ProcedureOption]) -> bool
    ensures { result ≡ options_repeat (map procedure_option_of options.now) }
{
    for (i, option) in options.iter().enumerate() {
        if has_option(option_row(option), &options[i + 1..]) {
            return true;
        }
    }
    false
}

/// What an option breaks.
#[tactic(auto, using(crate::proofs::Faults::faults))]
fn noted_option(
    found: Option<SourceFault>,
    labels: &[Name],
    option: &ProcedureOption,
) -> Option<SourceFault>
    ensures { result ≡ soonest found (option_faults (map name_of labels.now) (procedure_option_of option.now)) }
{
    match option {
        ProcedureOption::Main => found,
        ProcedureOption::Recursive => found,
        ProcedureOption::Returns(attributes) => {
            let broken = returns_are_bad(attributes);
            let found = noted_first(found, labels, broken, SourceKind::BadAttributes);
            noted_attributes(found, Use::Returned, attributes)
        }
    }
}

/// What options break.
#[tactic(auto, using(crate::proofs::Faults::steps))]
fn noted_options(
    found: Option<SourceFault>,
    labels: &[Name],
    options: &[ProcedureOption],
) -> Option<SourceFault>
    ensures { result ≡ soonest found (flat_map (option_faults (map name_of labels.now)) (map procedure_option_of options.now)) }
{
    let mut found = found;
    for option in options {
        found = noted_option(found, labels, option);
    }
    found
}

/// What a procedure's head breaks: MAIN stands on an outer procedure alone, and each option once.
#[tactic(auto, using(crate::proofs::Faults::faults))]
pub fn noted_head(
    found: Option<SourceFault>,
    inner: bool,
    head: &ProcedureHead,
) -> Option<SourceFault>
    ensures { result ≡ soonest found (head_faults inner (procedure_head_of head.now)) }
{
    let broken = (inner && has_main(head)) || options_repeat(&head.options);
    let found = noted_first(found, &head.labels, broken, SourceKind::BadAttributes);
    noted_options(found, &head.labels, &head.options)
}
