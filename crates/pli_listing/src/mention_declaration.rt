// The names that declarations write where they don't declare them.

ghost use Rattle.std.specs.Prelude.{◌≡◌, ◌++◌, [], map, OnOk};
ghost use Rattle.std.specs.List.{flat_map};
ghost use Rattle.pli_language.specs.View.{attribute_of, bound_of, declare_item_of, declared_name_of, extent_of};
ghost use Rattle.pli_language.specs.View.{option_of, refer_of, size_of};
ghost use Rattle.pli_listing.specs.Mentions.{in_attribute, in_bound, in_bounds, in_declare, in_extent};
ghost use Rattle.pli_listing.specs.Mentions.{in_item_declared, in_refer, in_size, last_letters, mention_of};
ghost use Rattle.pli_listing.specs.Mentions.{outermost_up_to};

use crate::mention::{Mention, push_optional_name, push_written};
use crate::mention_expression::push_expr;
use pli_language::declaration::{Attribute, Bound, DeclareItem, DeclaredName, Extent, Refer, Size};
use std::alloc::{AllocError, Global};

// The member that keeps an extent, in its structure.
fn push_refer<'a>(
    alloc: Global,
    out: &mut Vec<Mention<'a>>,
    block: usize,
    structure: &'a [u8],
    refer: &'a Option<Refer>,
) -> Result<(), AllocError>
    ensures { OnOk result (map mention_of out.new.items ≡
        map mention_of out.old.items ++ in_refer block structure.now (option_of refer_of refer.now)) }
{
    match refer {
        Some(refer) => {
            let mut names = Vec::new(alloc);
            names.push(structure)?;
            push_written(out, block, names, &refer.member)
        }
        None => Ok(()),
    }
}

#[tactic(auto, using(crate::proofs::Gathered::gathered))]
fn push_extent<'a>(
    alloc: Global,
    out: &mut Vec<Mention<'a>>,
    block: usize,
    structure: &'a [u8],
    extent: &'a Extent,
) -> Result<(), AllocError>
    ensures { OnOk result (map mention_of out.new.items ≡
        map mention_of out.old.items ++ in_extent block structure.now (extent_of extent.now)) }
{
    push_expr(alloc, out, block, &extent.value)?;
    push_refer(alloc, out, block, structure, &extent.refer)
}

#[tactic(auto, using(crate::proofs::Gathered::gathered))]
fn push_bound<'a>(
    alloc: Global,
    out: &mut Vec<Mention<'a>>,
    block: usize,
    structure: &'a [u8],
    bound: &'a Bound,
) -> Result<(), AllocError>
    ensures { OnOk result (map mention_of out.new.items ≡
        map mention_of out.old.items ++ in_bound block structure.now (bound_of bound.now)) }
{
    match bound {
        Bound::Star { .. } => Ok(()),
        Bound::Upper(upper) => push_extent(alloc, out, block, structure, upper),
        Bound::Both { lower, upper } => {
            push_extent(alloc, out, block, structure, lower)?;
            push_extent(alloc, out, block, structure, upper)
        }
    }
}

#[tactic(auto, using(crate::proofs::Gathered::gathered))]
fn push_bounds<'a>(
    alloc: Global,
    out: &mut Vec<Mention<'a>>,
    block: usize,
    structure: &'a [u8],
    bounds: &'a [Bound],
) -> Result<(), AllocError>
    ensures { OnOk result (map mention_of out.new.items ≡
        map mention_of out.old.items ++ in_bounds block structure.now (map bound_of bounds.now)) }
{
    for bound in bounds {
        push_bound(alloc, out, block, structure, bound)?;
    }
    Ok(())
}

#[tactic(auto, using(crate::proofs::Gathered::gathered))]
fn push_size<'a>(
    alloc: Global,
    out: &mut Vec<Mention<'a>>,
    block: usize,
    structure: &'a [u8],
    size: &'a Option<Size>,
) -> Result<(), AllocError>
    ensures { OnOk result (map mention_of out.new.items ≡
        map mention_of out.old.items ++ in_size block structure.now (option_of size_of size.now)) }
{
    match size {
        None => Ok(()),
        Some(Size::Star { .. }) => Ok(()),
        Some(Size::Given(extent)) => push_extent(alloc, out, block, structure, extent),
    }
}

fn push_attribute<'a>(
    alloc: Global,
    out: &mut Vec<Mention<'a>>,
    block: usize,
    structure: &'a [u8],
    attribute: &'a Attribute,
) -> Result<(), AllocError>
    ensures { OnOk result (map mention_of out.new.items ≡
        map mention_of out.old.items ++ in_attribute block structure.now (attribute_of attribute.now)) }
{
    match attribute {
        Attribute::Character(size) => push_size(alloc, out, block, structure, size),
        Attribute::Area(size) => push_size(alloc, out, block, structure, size),
        Attribute::Offset(area) => push_optional_name(alloc, out, block, area),
        Attribute::Based(locator) => push_optional_name(alloc, out, block, locator),
        Attribute::Fixed(_) => Ok(()),
        Attribute::Binary(_) => Ok(()),
        Attribute::Varying => Ok(()),
        Attribute::Bit => Ok(()),
        Attribute::Pointer => Ok(()),
        Attribute::Automatic => Ok(()),
        Attribute::Static => Ok(()),
        Attribute::Controlled => Ok(()),
        Attribute::Initial(_) => Ok(()),
        Attribute::Builtin => Ok(()),
        Attribute::Aligned => Ok(()),
        Attribute::Unaligned => Ok(()),
        Attribute::Internal => Ok(()),
    }
}

#[tactic(auto, using(crate::proofs::Gathered::gathered))]
fn push_attributes<'a>(
    alloc: Global,
    out: &mut Vec<Mention<'a>>,
    block: usize,
    structure: &'a [u8],
    attributes: &'a [Attribute],
) -> Result<(), AllocError>
    ensures { OnOk result (map mention_of out.new.items ≡
        map mention_of out.old.items ++ flat_map (in_attribute block structure.now) (map attribute_of attributes.now)) }
{
    for attribute in attributes {
        push_attribute(alloc, out, block, structure, attribute)?;
    }
    Ok(())
}

#[tactic(auto, using(crate::proofs::Gathered::gathered))]
fn push_dimensions<'a>(
    alloc: Global,
    out: &mut Vec<Mention<'a>>,
    block: usize,
    structure: &'a [u8],
    names: &'a [DeclaredName],
) -> Result<(), AllocError>
    ensures { OnOk result (map mention_of out.new.items ≡
        map mention_of out.old.items ++
        flat_map (λ d. in_bounds block structure.now d.dimensions) (map declared_name_of names.now)) }
{
    for declared in names {
        push_bounds(alloc, out, block, structure, &declared.dimensions)?;
    }
    Ok(())
}

#[tactic(auto, using(crate::proofs::Gathered::gathered))]
fn push_item_declared<'a>(
    alloc: Global,
    out: &mut Vec<Mention<'a>>,
    block: usize,
    structure: &'a [u8],
    item: &'a DeclareItem,
) -> Result<(), AllocError>
    ensures { OnOk result (map mention_of out.new.items ≡
        map mention_of out.old.items ++ in_item_declared block structure.now (declare_item_of item.now)) }
{
    push_dimensions(alloc, out, block, structure, &item.names)?;
    push_bounds(alloc, out, block, structure, &item.dimensions)?;
    push_attributes(alloc, out, block, structure, &item.attributes)
}

// The letters of the last name, or these where there is none.
#[tactic(auto, using(crate::proofs::Gathered::gathered))]
fn last_letters<'a>(letters: &'a [u8], names: &'a [DeclaredName]) -> &'a [u8]
    ensures { result.now ≡ last_letters letters.now (map declared_name_of names.now) }
{
    let mut last = letters;
    for declared in names {
        last = &declared.name.letters;
    }
    last
}

// The outermost structure of what is declared up to an item.
fn outermost_up_to<'a>(structure: &'a [u8], item: &'a DeclareItem) -> &'a [u8]
    ensures { result.now ≡ outermost_up_to structure.now (declare_item_of item.now) }
{
    if item.level.unwrap_or(1) > 1 {
        structure
    } else {
        last_letters(structure, &item.names)
    }
}

/// The names of a DECLARE.
#[tactic(auto, using(crate::proofs::Gathered::gathered))]
pub fn push_declare<'a>(
    alloc: Global,
    out: &mut Vec<Mention<'a>>,
    block: usize,
    items: &'a [DeclareItem],
) -> Result<(), AllocError>
    ensures { OnOk result (map mention_of out.new.items ≡
        map mention_of out.old.items ++ in_declare block [] (map declare_item_of items.now)) }
{
    let mut structure: &[u8] = &[];
    for item in items {
        structure = outermost_up_to(structure, item);
        push_item_declared(alloc, out, block, structure, item)?;
    }
    Ok(())
}
