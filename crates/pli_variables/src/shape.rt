// What a reference to a declared variable needs to know.

ghost use Rattle.std.specs.Prelude.{◌≡◌, map};
ghost use Rattle.pli_typing.specs.TypedView.{leaf_of as leaf_typed};

use pli_typing::typed::{Leaf, Part, Variable};
use std::rc::Rc;

/// What a reference to a declared variable needs to know: the variable of level 1 that it is or belongs to, which part of it,
/// the leaves of that variable, how many dimensions it has, and whether it has members and stands alone.
#[derive(Drop)]
pub struct Shape<'a> {
    pub variable: Variable,
    pub part: Part,
    pub group: Rc<Vec<Leaf<'a>>>,
    pub dimensions: usize,
    pub has_members: bool,
    pub is_alone: bool,
}

impl<'a> Shape<'a> {
    ghost use Rattle.pli_variables.specs.ShownShapes.{shape_of};

    /// Its leaves.
    pub fn leaves(&self) -> &[Leaf<'a>]
        ensures { map leaf_typed result.now ≡ (shape_of self.now).leaves }
    {
        let all = self.group.as_slice();
        let from = &all[self.part.first.min(all.len())..];
        &from[..self.part.count.min(from.len())]
    }
}
