// The bounds of a leaf as it was allocated and as it is in force.

ghost use Rattle.std.specs.Prelude.{◌≡◌, int_le, map};
ghost use Rattle.pli_types.specs.View.{pair_of};
ghost use Rattle.pli_meaning.specs.Contents as C;
ghost use Rattle.pli_aggregates.specs.Runs as S;
ghost use Rattle.pli_aggregates.specs.Runs.{IsLying};

use pli_types::signature::Bounds;

fn same_pair(left: Bounds, right: Bounds) -> bool
    ensures { result ≡ S.same_pair (pair_of left) (pair_of right) }
{
    left.lower == right.lower && left.upper == right.upper
}

fn same_lower(left: Bounds, right: Bounds) -> bool
    ensures { result ≡ C.same_int (pair_of left).lower (pair_of right).lower }
{
    left.lower == right.lower
}

fn ends_within(inner: Bounds, outer: Bounds) -> bool
    ensures { result ≡ int_le (pair_of inner).upper (pair_of outer).upper }
{
    inner.upper <= outer.upper
}

/// Whether two leaves have the same bounds.
pub fn same_bounds(left: &[Bounds], right: &[Bounds]) -> bool
    ensures { result ≡ C.same_bounds (map pair_of left.now) (map pair_of right.now) }
{
    if left.len() != right.len() {
        return false;
    }
    for dimension in 0..left.len() {
        if !same_pair(left[dimension], right[dimension]) {
            return false;
        }
    }
    true
}

/// How elements in force lie among those that were allocated: the first upper bounds may differ, since REFER tells them.
#[derive(Clone, Copy, PartialEq, Eq, Debug)]
pub enum Lying {
    /// All are there.
    Within,
    /// The last rows are missing.
    Past,
    /// The bounds differ otherwise, as those of one leaf never do.
    Unlike,
}

/// How elements by these bounds in force lie among those by the bounds that were allocated.
pub fn compare_bounds(allocated: &[Bounds], in_force: &[Bounds]) -> Lying
    ensures { IsLying (map pair_of allocated.now) (map pair_of in_force.now) result }
{
    let Some((first, others)) = in_force.split_first() else {
        return if allocated.is_empty() {
            Lying::Within
        } else {
            Lying::Unlike
        };
    };
    let Some((had, more)) = allocated.split_first() else {
        return Lying::Unlike;
    };
    if !same_lower(*had, *first) || !same_bounds(more, others) {
        return Lying::Unlike;
    }
    if ends_within(*first, *had) {
        Lying::Within
    } else {
        Lying::Past
    }
}
