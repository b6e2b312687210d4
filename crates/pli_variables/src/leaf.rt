// The leaves of variables.

ghost use Rattle.std.specs.Prelude.{◌≡◌, ◌++◌, length, map, IfOk, OnOk};
ghost use Rattle.std.specs.List.{flat_map};
ghost use Rattle.pli_language.specs.Declarations.{dimensions_of};
ghost use Rattle.pli_typing.specs.TypedView.{bounds_of as bounds_typed, leaf_of as leaf_typed};
ghost use Rattle.pli_typing.specs.Variables.{all_dimensions, bounds_of, extent_of, initial_items, leaf_of, leaves_in};
ghost use Rattle.pli_language.specs.View.{attribute_of, bound_of, initial_item_of};
ghost use Rattle.pli_declare.specs.Shown.{above_of, held_of, levels_of, variable_of};
ghost use Rattle.pli_variables.specs.Held.{leaf_first};
ghost use Rattle.pli_variables.specs.Rows.{blocks_shown};
ghost use Rattle.pli_variables.specs.Written.{all_shown};

use crate::amount::bounds_of;
use crate::extent::WrittenExtent;
use crate::meant::Meant;
use crate::members::is_leaf;
use pli_declare::above::{Above, Levels};
use pli_declare::scope::{Held, Variable};
use pli_declaring::held::{all_dimensions, dimensions_of, own_attributes};
use pli_language::declaration::{Attribute, Bound, InitialItem};
use pli_typing::typed::{Bounds, Leaf};
use std::alloc::{AllocError, Global};

/// The bounds of these dimensions.
#[tactic(auto, using(crate::proofs::Extents::gathered))]
fn put_bounds(
    out: &mut Vec<Bounds>,
    written: &[WrittenExtent],
    dimensions: &[Bound],
) -> Result<(), AllocError>
    ensures { OnOk result (map bounds_typed out.new.items ≡ map bounds_typed out.old.items ++ map (bounds_of (extent_of (all_shown written.now))) (map bound_of dimensions.now)) }
{
    for bound in dimensions {
        out.push(bounds_of(written, bound))?;
    }
    Ok(())
}

/// The bounds of a variable's own dimensions.
#[tactic(auto, using(crate::proofs::Extents::gathered))]
fn put_own_bounds(
    out: &mut Vec<Bounds>,
    written: &[WrittenExtent],
    variable: Variable,
) -> Result<(), AllocError>
    ensures { OnOk result (map bounds_typed out.new.items ≡ map bounds_typed out.old.items ++ map (bounds_of (extent_of (all_shown written.now))) (dimensions_of (variable_of variable.entry))) }
{
    put_bounds(out, written, &variable.declared.dimensions)?;
    put_bounds(out, written, &variable.item.dimensions)
}

/// The bounds of these structures, the outermost first. Where one has no dimensions the call is the last thing that is done, so that
/// many of these are a loop.
#[tactic(auto, using(crate::proofs::Extents::gathered, crate::proofs::Dimensions::none_more))]
fn put_bounds_above(
    out: &mut Vec<Bounds>,
    written: &[WrittenExtent],
    outermost: Variable,
    levels: &Levels,
) -> Result<(), AllocError>
    ensures { OnOk result (map bounds_typed out.new.items ≡ map bounds_typed out.old.items ++ map (bounds_of (extent_of (all_shown written.now))) (flat_map dimensions_of (levels_of (variable_of outermost.entry) levels.now))) }
{
    match levels {
        Levels::Inside {
            structure,
            above,
            ..
        } => {
            if dimensions_of(*structure) == 0 {
                return put_bounds_above(out, written, outermost, above);
            }
            put_bounds_above(out, written, outermost, above)?;
            put_own_bounds(out, written, *structure)
        }
        Levels::Outermost => put_own_bounds(out, written, outermost),
    }
}

/// The bounds of the structures that hold a variable. Mostly the outermost alone has dimensions: then the others aren't looked
/// through.
#[tactic(auto, using(crate::proofs::Dimensions::inherited))]
fn put_inherited_bounds(
    out: &mut Vec<Bounds>,
    written: &[WrittenExtent],
    above: &Above,
) -> Result<(), AllocError>
    ensures { OnOk result (map bounds_typed out.new.items ≡ map bounds_typed out.old.items ++ map (bounds_of (extent_of (all_shown written.now))) (flat_map dimensions_of (above_of above.now))) }
{
    if above.dimensions() == 0 {
        return Ok(());
    }
    let Some(outermost) = above.outermost else {
        return Ok(());
    };
    if above.dimensions() == dimensions_of(outermost) {
        return put_own_bounds(out, written, outermost);
    }
    put_bounds_above(out, written, outermost, &above.levels)
}

/// The bounds of a variable, those of the structures that hold it first.
#[tactic(auto, using(crate::proofs::Extents::gathered))]
fn all_bounds(
    alloc: Global,
    written: &[WrittenExtent],
    held: &Held,
) -> Result<Vec<Bounds>, AllocError>
    ensures { IfOk result (λ v. map bounds_typed v.items ≡ map (bounds_of (extent_of (all_shown written.now))) (all_dimensions (held_of held.now))) }
{
    let mut out = Vec::new(alloc);
    put_inherited_bounds(&mut out, written, &held.above)?;
    put_own_bounds(&mut out, written, held.variable)?;
    Ok(out)
}

/// How many dimensions an element of a variable has. More than a number holds are want of memory.
pub fn count_of_dimensions(held: &Held) -> Result<usize, AllocError>
    ensures { IfOk result (λ n. n ≡ length (all_dimensions (held_of held.now))) }
{
    let count = all_dimensions(held);
    if count == usize::MAX {
        return Err(AllocError);
    }
    Ok(count)
}

/// These values.
#[tactic(auto, using(crate::proofs::Extents::gathered))]
fn put_items<'a>(out: &mut Vec<&'a InitialItem>, items: &'a [InitialItem]) -> Result<(), AllocError>
    ensures { OnOk result (map (λ i. initial_item_of i.now) out.new.items ≡ map (λ i. initial_item_of i.now) out.old.items ++ map initial_item_of items.now) }
{
    for item in items {
        out.push(item)?;
    }
    Ok(())
}

/// The values of INITIAL, where an attribute is that.
fn put_initial<'a>(
    out: &mut Vec<&'a InitialItem>,
    attribute: &'a Attribute,
) -> Result<(), AllocError>
    ensures { OnOk result (map (λ i. initial_item_of i.now) out.new.items ≡ map (λ i. initial_item_of i.now) out.old.items ++ initial_items (attribute_of attribute.now)) }
{
    match attribute {
        Attribute::Initial(items) => put_items(out, items),
        _ => Ok(()),
    }
}

/// The values of INITIAL among these attributes.
#[tactic(auto, using(crate::proofs::Extents::gathered))]
fn initial_in<'a>(
    alloc: Global,
    attributes: &'a [Attribute],
) -> Result<Vec<&'a InitialItem>, AllocError>
    ensures { IfOk result (λ v. map (λ i. initial_item_of i.now) v.items ≡ flat_map initial_items (map attribute_of attributes.now)) }
{
    let mut out = Vec::new(alloc);
    for attribute in attributes {
        put_initial(&mut out, attribute)?;
    }
    Ok(out)
}

/// A variable without members as a leaf, where its extents that aren't constant are these.
fn leaf_of<'a>(
    alloc: Global,
    meant: &Meant,
    block: usize,
    written: &[WrittenExtent],
    held: &Held<'a>,
) -> Result<Leaf<'a>, AllocError>
    ensures { IfOk result (λ l. leaf_typed l ≡ leaf_of (blocks_shown meant.now.scopes.now) block (all_shown written.now) (held_of held.now)) }
{
    let attributes = own_attributes(held);
    let bounds = all_bounds(alloc, written, held)?;
    let initial = initial_in(alloc, attributes)?;
    Ok(Leaf {
        kind: meant.type_of(block, written, attributes),
        bounds,
        initial,
    })
}

/// A variable as a leaf, where it has no members; these are declared next in its structure.
fn put_leaf<'a>(
    alloc: Global,
    leaves: &mut Vec<Leaf<'a>>,
    meant: &Meant,
    block: usize,
    written: &[WrittenExtent],
    held: &Held<'a>,
    after: &[Held],
) -> Result<(), AllocError>
    ensures { OnOk result (map leaf_typed leaves.new.items ≡ map leaf_typed leaves.old.items ++ map (leaf_of (blocks_shown meant.now.scopes.now) block (all_shown written.now)) (leaf_first (held_of held.now) (map held_of after.now))) }
{
    if is_leaf(held, after) {
        leaves.push(leaf_of(alloc, meant, block, written, held)?)?;
    }
    Ok(())
}

/// The leaves among these, where their extents that aren't constant are those written.
#[tactic(auto, using(crate::proofs::Grouping::leaves_put))]
pub fn leaves_among<'a>(
    alloc: Global,
    meant: &Meant,
    block: usize,
    written: &[WrittenExtent],
    members: &[Held<'a>],
) -> Result<Vec<Leaf<'a>>, AllocError>
    ensures { IfOk result (λ v. map leaf_typed v.items ≡ map (leaf_of (blocks_shown meant.now.scopes.now) block (all_shown written.now)) (leaves_in (map held_of members.now))) }
{
    let mut leaves = Vec::new(alloc);
    for (i, held) in members.iter().enumerate() {
        put_leaf(
            alloc,
            &mut leaves,
            meant,
            block,
            written,
            held,
            &members[i + 1..],
        )?;
    }
    Ok(leaves)
}
