// The extent that a member of a generation keeps.

ghost use Rattle.std.specs.Prelude.{◌≡◌, map, IfOk};
ghost use Rattle.std.specs.List.{flat_map};
ghost use Rattle.pli_language.specs.Declarations.{dimensions_of};
ghost use Rattle.pli_typing.specs.Generations.{is_named, kept_extent, kept_in, kept_in_attribute, kept_in_bound, refer_of};
ghost use Rattle.pli_typing.specs.TypedStatementView.{refer_member_of};
ghost use Rattle.pli_typing.specs.Variables.{index_where, leaves_in};
ghost use Rattle.pli_language.specs.View.{attribute_of, bound_of, extent_of, name_of, option_of, size_of};
ghost use Rattle.pli_declare.specs.Shown.{held_of, variable_of};
ghost use Rattle.pli_variables.specs.Kept.{first_kept, kept_in_size, kept_shown, refer_kept};

use crate::amount::amount_of;
use crate::extent::written_extents;
use crate::members::is_leaf;
use pli_declare::scope::{Held, Variable};
use pli_declaring::held::{own_attributes, same_bytes};
use pli_language::declaration::{Attribute, Bound, Extent, Size};
use pli_language::expr::Name;
use pli_typing::typed::ReferMember;
use std::alloc::{AllocError, Global};

/// An extent that a member keeps.
#[derive(Clone, Copy)]
pub struct Kept<'a> {
    pub member: &'a Name,
    pub extent: &'a Extent,
}

/// The extent, where a member keeps it.
fn kept_extent(extent: &Extent) -> Option<Kept<'_>>
    ensures { option_of kept_shown result ≡ first_kept (kept_extent (extent_of extent.now)) }
{
    match &extent.refer {
        Some(refer) => Some(Kept {
            member: &refer.member,
            extent,
        }),
        None => None,
    }
}

/// The extent that a member keeps of a dimension.
fn kept_in_bound(bound: &Bound) -> Option<Kept<'_>>
    ensures { option_of kept_shown result ≡ first_kept (kept_in_bound (bound_of bound.now)) }
{
    match bound {
        Bound::Star { .. } => None,
        Bound::Upper(upper) => kept_extent(upper),
        Bound::Both { upper, .. } => kept_extent(upper),
    }
}

/// The extent that a member keeps of a length.
fn kept_in_size(size: &Option<Size>) -> Option<Kept<'_>>
    ensures { option_of kept_shown result ≡ first_kept (kept_in_size (option_of size_of size.now)) }
{
    match size {
        Some(Size::Given(extent)) => kept_extent(extent),
        Some(Size::Star { .. }) => None,
        None => None,
    }
}

/// The extent that a member keeps of an attribute.
#[tactic(auto, using(crate::proofs::Keeping::keeping))]
fn kept_in_attribute(attribute: &Attribute) -> Option<Kept<'_>>
    ensures { option_of kept_shown result ≡ first_kept (kept_in_attribute (attribute_of attribute.now)) }
{
    match attribute {
        Attribute::Character(size) => kept_in_size(size),
        _ => None,
    }
}

/// The first extent that a member keeps of these dimensions.
#[tactic(auto, using(crate::proofs::Keeping::keeping))]
fn kept_in_bounds(bounds: &[Bound]) -> Option<Kept<'_>>
    ensures { option_of kept_shown result ≡ first_kept (flat_map kept_in_bound (map bound_of bounds.now)) }
{
    for bound in bounds {
        if let Some(kept) = kept_in_bound(bound) {
            return Some(kept);
        }
    }
    None
}

/// The first extent that a member keeps of these attributes.
#[tactic(auto, using(crate::proofs::Keeping::keeping))]
fn kept_in_attributes(attributes: &[Attribute]) -> Option<Kept<'_>>
    ensures { option_of kept_shown result ≡ first_kept (flat_map kept_in_attribute (map attribute_of attributes.now)) }
{
    for attribute in attributes {
        if let Some(kept) = kept_in_attribute(attribute) {
            return Some(kept);
        }
    }
    None
}

/// The first extent that a member keeps of a variable's own dimensions.
#[tactic(auto, using(crate::proofs::Keeping::keeping))]
fn kept_in_dimensions(variable: Variable<'_>) -> Option<Kept<'_>>
    ensures { option_of kept_shown result ≡ first_kept (flat_map kept_in_bound (dimensions_of (variable_of variable.entry))) }
{
    match kept_in_bounds(&variable.declared.dimensions) {
        Some(kept) => Some(kept),
        None => kept_in_bounds(&variable.item.dimensions),
    }
}

/// The first extent that a member keeps of a variable.
#[tactic(auto, using(crate::proofs::Keeping::keeping))]
fn kept_in<'a>(held: &Held<'a>) -> Option<Kept<'a>>
    ensures { option_of kept_shown result ≡ first_kept (kept_in (held_of held.now)) }
{
    match kept_in_dimensions(held.variable) {
        Some(kept) => Some(kept),
        None => kept_in_attributes(own_attributes(held)),
    }
}

/// The first extent that a member keeps of these variables.
#[tactic(auto, using(crate::proofs::Keeping::keeping))]
fn first_kept<'a>(all: &[Held<'a>]) -> Option<Kept<'a>>
    ensures { option_of kept_shown result ≡ first_kept (flat_map kept_in (map held_of all.now)) }
{
    for held in all {
        if let Some(kept) = kept_in(held) {
            return Some(kept);
        }
    }
    None
}

/// The variable has this name.
fn is_named(name: &Name, held: &Held) -> bool
    ensures { result ≡ is_named (name_of name.now) (held_of held.now) }
{
    same_bytes(&held.variable.declared.name.letters, &name.letters)
}

/// Which of the leaves among these has a name.
#[tactic(auto, using(crate::proofs::Keeping::members))]
fn member_named(name: &Name, all: &[Held]) -> usize
    ensures { result ≡ index_where (is_named (name_of name.now)) (leaves_in (map held_of all.now)) }
{
    let mut count = 0;
    for (i, held) in all.iter().enumerate() {
        if is_leaf(held, &all[i + 1..]) {
            if is_named(name, held) {
                return count;
            }
            count += 1;
        }
    }
    count
}

/// What a member keeps, where this is the extent.
fn member_of<'a>(alloc: Global, all: &[Held<'a>], kept: Kept<'a>) -> Result<ReferMember, AllocError>
    ensures { IfOk result (λ r. refer_member_of r ≡ refer_kept (map held_of all.now) (kept_shown kept.entry)) }
{
    let written = written_extents(alloc, all)?;
    Ok(ReferMember {
        member: member_named(kept.member, all),
        amount: amount_of(&written, kept.extent),
    })
}

/// The member that keeps an extent of a variable with these members, and what ALLOCATE sets it to.
#[tactic(auto, using(crate::proofs::Keeping::refer_is))]
pub fn refer_of(alloc: Global, all: &[Held]) -> Result<Option<ReferMember>, AllocError>
    ensures { IfOk result (λ r. option_of refer_member_of r ≡ refer_of (map held_of all.now)) }
{
    match first_kept(all) {
        Some(kept) => Ok(Some(member_of(alloc, all, kept)?)),
        None => Ok(None),
    }
}
