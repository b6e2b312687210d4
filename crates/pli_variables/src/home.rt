// A block with what shapes are made of.

ghost use Rattle.std.specs.Prelude.{◌≡◌, map, IfOk};
ghost use Rattle.pli_typing.specs.Variables.{leaves_of};
ghost use Rattle.pli_declare.specs.ShownBlocks.{block_of};
ghost use Rattle.pli_variables.specs.Counts.{counts_in};
ghost use Rattle.pli_variables.specs.Held.{groups_held};
ghost use Rattle.pli_variables.specs.Order.{all_ascend, are_in_order};
ghost use Rattle.pli_variables.specs.Rows.{blocks_shown};

use crate::leaves::Leaves;
use crate::meant::Meant;
use crate::members::variables_in;
use crate::order::{all_ascend, are_in_order};
use pli_declare::scope::{Block, Held};
use std::alloc::{AllocError, Global};

/// A block with its number, its variables of level 1 with their members, whether those stand in source order, and these, and the
/// leaves of each.
#[derive(Drop)]
pub struct Home<'b, 'a> {
    pub block: &'b Block<'a>,
    pub number: usize,
    pub groups: Vec<Vec<Held<'a>>>,
    pub in_order: bool,
    pub members_in_order: bool,
    pub leaves: Vec<Leaves<'a>>,
    ghost ordered: { in_order ≡ are_in_order (groups_held groups.items) },
    ghost members_ordered: { members_in_order ≡ all_ascend (groups_held groups.items) },
}

impl<'b, 'a> Home<'b, 'a> {
    ghost use Rattle.pli_variables.specs.ShownShapes.{counts_shown, home_in, home_of, leaves_shown};

    /// The leaves of each of these variables of level 1.
    #[tactic(auto, using(crate::proofs::Grouping::groups))]
    fn leaves_in(
        alloc: Global,
        meant: &Meant,
        number: usize,
        groups: &[Vec<Held<'a>>],
    ) -> Result<Vec<Leaves<'a>>, AllocError>
        ensures leaves { IfOk result (λ v. leaves_shown v.items ≡ map (λ g. leaves_of (blocks_shown meant.now.scopes.now) number g g) (groups_held groups.now)) }
        ensures counts { IfOk result (λ v. counts_shown v.items ≡ map counts_in (groups_held groups.now)) }
    {
        let mut out = Vec::new(alloc);
        for members in groups {
            out.push(Leaves::new(alloc, meant, number, members)?)?;
        }
        Ok(out)
    }

    /// A block of this number.
    pub fn new(
        alloc: Global,
        meant: &Meant,
        block: &'b Block<'a>,
        number: usize,
    ) -> Result<Home<'b, 'a>, AllocError>
        ensures { IfOk result (λ h. home_of h ≡ home_in (blocks_shown meant.now.scopes.now) (block_of block.now) number) }
    {
        let groups = variables_in(alloc, &block.names.declarations)?;
        let leaves = Home::leaves_in(alloc, meant, number, &groups)?;
        Ok(Home {
            block,
            number,
            in_order: are_in_order(&groups),
            members_in_order: all_ascend(&groups),
            groups,
            leaves,
        })
    }
}
