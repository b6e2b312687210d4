// The leaves of a variable of level 1.

ghost use Rattle.std.specs.Prelude.{◌≡◌, map, IfOk};
ghost use Rattle.pli_typing.specs.TypedView.{leaf_of as leaf_typed};
ghost use Rattle.pli_typing.specs.Variables.{leaves_of};
ghost use Rattle.pli_declare.specs.Shown.{held_of};
ghost use Rattle.pli_variables.specs.Counts.{counts_in};
ghost use Rattle.pli_variables.specs.Rows.{blocks_shown};

use crate::extent::written_extents;
use crate::leaf::leaves_among;
use crate::meant::Meant;
use crate::members::counts_in;
use pli_declare::scope::Held;
use pli_typing::typed::Leaf;
use std::alloc::{AllocError, Global};
use std::rc::Rc;

/// The leaves of a variable of level 1, which the shapes of its parts share, and how many stand from each member on.
#[derive(Drop)]
pub struct Leaves<'a> {
    pub all: Rc<Vec<Leaf<'a>>>,
    pub counts: Vec<usize>,
}

impl<'a> Leaves<'a> {
    /// The leaves of a variable of this block with these members.
    pub fn new(
        alloc: Global,
        meant: &Meant,
        block: usize,
        members: &[Held<'a>],
    ) -> Result<Leaves<'a>, AllocError>
        ensures leaves { IfOk result (λ l. map leaf_typed l.all.value.items ≡ leaves_of (blocks_shown meant.now.scopes.now) block (map held_of members.now) (map held_of members.now)) }
        ensures counts { IfOk result (λ l. l.counts.items ≡ counts_in (map held_of members.now)) }
    {
        let written = written_extents(alloc, members)?;
        let all = leaves_among(alloc, meant, block, &written, members)?;
        Ok(Leaves {
            all: Rc::new(alloc, all)?,
            counts: counts_in(alloc, members)?,
        })
    }
}
