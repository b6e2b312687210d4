// Which leaves go into which.

ghost use Rattle.std.specs.Prelude.{◌≡◌, ◌&&◌, ◌==◌, length, map};
ghost use Rattle.pli_typing.specs.Assigning.{leaves_match, same_type};
ghost use Rattle.pli_typing.specs.Calls.{bounds_pass, capacity_extent, extent_passes, leaves_pass, same_number, type_passes};
ghost use Rattle.pli_typing.specs.TypedView.{bounds_of, extent_of, leaf_of, leaf_type_of};
ghost use Rattle.pli_operand.specs.Shown.{designated_of, leaf_behind};

use pli_operand::operand::Designated;
use pli_typing::typed::{Bounds, Extent, Leaf, LeafType};

fn same_number(a: i128, b: i128) -> bool
    ensures { result ≡ same_number a b }
{
    a == b
}

/// `*` takes any extent, a constant one that is equal.
pub fn extent_passes(parameter: Extent, argument: Extent) -> bool
    ensures { result ≡ extent_passes (extent_of parameter) (extent_of argument) }
{
    match (parameter, argument) {
        (Extent::Star, _) => true,
        (Extent::Constant(a), Extent::Constant(b)) => same_number(a, b),
        _ => false,
    }
}

/// A size in whole multiples of 16, where it is constant.
pub fn capacity_extent(size: Extent) -> Extent
    ensures { extent_of result ≡ capacity_extent (extent_of size) }
{
    match size {
        Extent::Constant(bytes) if bytes >= 0 => Extent::Constant(bytes / 16),
        Extent::Constant(_) | Extent::Star | Extent::Refer | Extent::Evaluated(_) => size,
    }
}

/// A leaf of the first kind takes one of the second.
pub fn type_passes(parameter: LeafType, argument: LeafType) -> bool
    ensures { result ≡ type_passes (leaf_type_of parameter) (leaf_type_of argument) }
{
    match (parameter, argument) {
        (LeafType::Fixed(p), LeafType::Fixed(q)) => p == q,
        (LeafType::Character(n), LeafType::Character(m)) => extent_passes(n, m),
        (LeafType::Varying(n), LeafType::Varying(m)) => extent_passes(n, m),
        (LeafType::Bit, LeafType::Bit) => true,
        (LeafType::Pointer, LeafType::Pointer) => true,
        (LeafType::Offset(_), LeafType::Offset(_)) => true,
        (LeafType::Area(n), LeafType::Area(m)) => {
            extent_passes(capacity_extent(n), capacity_extent(m))
        }
        _ => false,
    }
}

/// Equal kinds, whatever the lengths of texts.
pub fn same_type(target: LeafType, source: LeafType) -> bool
    ensures { result ≡ same_type (leaf_type_of target) (leaf_type_of source) }
{
    match (target, source) {
        (LeafType::Fixed(p), LeafType::Fixed(q)) => p == q,
        (LeafType::Character(_), LeafType::Character(_)) => true,
        (LeafType::Varying(_), LeafType::Varying(_)) => true,
        (LeafType::Bit, LeafType::Bit) => true,
        (LeafType::Pointer, LeafType::Pointer) => true,
        (LeafType::Offset(_), LeafType::Offset(_)) => true,
        _ => false,
    }
}

/// The bounds of a leaf for which no subscripts stand.
#[tactic(auto, using(crate::proofs::Drops::drop_map, crate::proofs::Drops::drop_past, std::proofs::lemmas::List::take_rest))]
fn bounds_behind<'b>(leaf: &'b Leaf, subscripted: usize) -> &'b [Bounds]
    ensures { map bounds_of result.now ≡ (leaf_behind subscripted (leaf_of leaf.now)).bounds }
{
    if subscripted < leaf.bounds.len() {
        &leaf.bounds[subscripted..]
    } else {
        &[]
    }
}

/// The bounds of one dimension take those of one.
fn dimension_passes(parameter: Bounds, argument: Bounds) -> bool
    ensures { result ≡ (extent_passes (bounds_of parameter).lower (bounds_of argument).lower && extent_passes (bounds_of parameter).upper (bounds_of argument).upper) }
{
    extent_passes(parameter.lower, argument.lower) && extent_passes(parameter.upper, argument.upper)
}

/// The bounds of each dimension take those of one.
pub fn bounds_pass(parameter: &[Bounds], argument: &[Bounds]) -> bool
    ensures { result ≡ bounds_pass (map bounds_of parameter.now) (map bounds_of argument.now) }
{
    let mut parameters = parameter;
    let mut arguments = argument;
    while let Some((p, more)) = parameters.split_first() {
        let Some((a, others)) = arguments.split_first() else {
            return false;
        };
        if !dimension_passes(*p, *a) {
            return false;
        }
        parameters = more;
        arguments = others;
    }
    arguments.is_empty()
}

/// A leaf takes one, each without the bounds for which subscripts stand.
fn leaf_passes(parameter: &Leaf, behind: usize, argument: &Leaf, dropped: usize) -> bool
    ensures { let p = leaf_behind behind (leaf_of parameter.now) in let a = leaf_behind dropped (leaf_of argument.now) in result ≡ (type_passes p.type a.type && bounds_pass p.bounds a.bounds) }
{
    type_passes(parameter.kind, argument.kind)
        && bounds_pass(
            bounds_behind(parameter, behind),
            bounds_behind(argument, dropped),
        )
}

/// Each leaf takes one, without the bounds for which subscripts stand.
fn all_pass(parameter: &[Leaf], behind: usize, argument: &[Leaf], dropped: usize) -> bool
    ensures { result ≡ leaves_pass (map (λ l. leaf_behind behind (leaf_of l)) parameter.now) (map (λ l. leaf_behind dropped (leaf_of l)) argument.now) }
{
    parameter.len() == argument.len()
        && !parameter
            .iter()
            .zip(argument)
            .any(|(p, a)| !leaf_passes(p, behind, a, dropped))
}

/// Each leaf of the parameter takes one of the argument.
pub fn leaves_pass(parameter: &Designated, argument: &Designated) -> bool
    ensures { result ≡ leaves_pass (designated_of parameter.now).leaves (designated_of argument.now).leaves }
{
    all_pass(
        parameter.leaves,
        parameter.subscripted,
        argument.leaves,
        argument.subscripted,
    )
}

/// Leaves of one kind, with equal numbers of dimensions for which no subscripts stand.
#[tactic(auto, using(crate::proofs::Drops::counted))]
fn leaf_matches(target: &Leaf, behind: usize, source: &Leaf, dropped: usize) -> bool
    ensures { let t = leaf_behind behind (leaf_of target.now) in let s = leaf_behind dropped (leaf_of source.now) in result ≡ (same_type t.type s.type && (length t.bounds == length s.bounds)) }
{
    same_type(target.kind, source.kind)
        && bounds_behind(target, behind).len() == bounds_behind(source, dropped).len()
}

/// Leaves of equal kinds, with equal numbers of dimensions for which no subscripts stand.
fn all_match(target: &[Leaf], behind: usize, source: &[Leaf], dropped: usize) -> bool
    ensures { result ≡ leaves_match (map (λ l. leaf_behind behind (leaf_of l)) target.now) (map (λ l. leaf_behind dropped (leaf_of l)) source.now) }
{
    target.len() == source.len()
        && !target
            .iter()
            .zip(source)
            .any(|(t, s)| !leaf_matches(t, behind, s, dropped))
}

/// Equal kinds of leaves, with equal numbers of dimensions.
pub fn leaves_match(target: &Designated, source: &Designated) -> bool
    ensures { result ≡ leaves_match (designated_of target.now).leaves (designated_of source.now).leaves }
{
    all_match(
        target.leaves,
        target.subscripted,
        source.leaves,
        source.subscripted,
    )
}
