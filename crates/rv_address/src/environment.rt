// What is known around a piece of code: the program, and the block whose frame the code runs in.

ghost use Rattle.std.specs.Prelude.{◌≡◌, ℕ, map, IfOk};
ghost use Rattle.pli_typing.specs.TypedView.{variable_of, leaf_of};
ghost use Rattle.pli_typing.specs.TypedStatementView.{declared_variable_of, program_of, procedure_of};
ghost use Rattle.pli_meaning.specs.DeclaredShapes.{variables_of_block};
ghost use Rattle.pli_coding.specs.Environments as form;
ghost use Rattle.pli_coding.specs.Locating.{leaf_number, table_number};
ghost use Rattle.rv_address.specs.Around.{block_place_of, environment_of, owner_of};
ghost use Rattle.rv_address.specs.Whole.{around_program};

use crate::known::Known;
use pli_typing::statement::Typed;
use pli_typing::typed::{DeclaredVariable, Leaf, Variable};
use std::alloc::AllocError;

/// A block of a program, by its number and its level.
#[derive(Clone, Copy, PartialEq, Eq, Debug)]
pub struct BlockPlace {
    pub number: usize,
    pub level: usize,
}

/// Where a RETURN goes: to the end of the procedure or on-unit of a block, in the frame at a level, or behind the only
/// statement of a simple unit.
#[derive(Clone, Copy, PartialEq, Eq, Debug)]
pub enum Owner {
    Block(BlockPlace),
    Unit,
}

/// What is known around a piece of code. The level is that of the running frame.
#[derive(Clone, Copy)]
pub struct Environment<'e, 't, 'a> {
    pub known: &'e Known<'t, 'a>,
    pub blocks: &'e [BlockPlace],
    pub block: usize,
    pub level: usize,
    pub owner: Owner,
}

/// The variables of level 1 that a block declares; a block that isn't there is want of memory, as no program names it.
#[tactic(auto, using(crate::proofs::Declared::variables_here))]
pub fn variables_of_block<'t, 'a>(
    typed: &'t Typed<'a>,
    block: usize,
) -> Result<&'t [DeclaredVariable<'a>], AllocError>
    ensures { IfOk result (λ ds. map declared_variable_of ds.now ≡ variables_of_block (program_of typed.now) block) }
{
    if block >= typed.variables.len() {
        return Err(AllocError);
    }
    let variables = &typed.variables[block];
    Ok(variables.as_slice())
}

impl<'e, 't, 'a> Environment<'e, 't, 'a> {
    /// Around the code of a program with these blocks, before it is in any of them.
    pub fn new(known: &'e Known<'t, 'a>, blocks: &'e [BlockPlace]) -> Environment<'e, 't, 'a>
        ensures { environment_of result ≡ around_program (program_of known.now.typed.now) (map block_place_of blocks.now) }
    {
        Environment {
            known,
            blocks,
            block: 0,
            level: 0,
            owner: Owner::Unit,
        }
    }

    /// In the frame of another block.
    pub fn in_frame(self, block: usize, level: usize) -> Environment<'e, 't, 'a>
        ensures { environment_of result ≡ form.in_frame block level (environment_of self.entry) }
    {
        Environment {
            known: self.known,
            blocks: self.blocks,
            block,
            level,
            owner: self.owner,
        }
    }

    /// With another place where a RETURN goes.
    pub fn owned_by(self, owner: Owner) -> Environment<'e, 't, 'a>
        ensures { environment_of result ≡ form.owned_by (owner_of owner) (environment_of self.entry) }
    {
        Environment {
            known: self.known,
            blocks: self.blocks,
            block: self.block,
            level: self.level,
            owner,
        }
    }

    /// The declaration of a variable; a program declares each that it names, so that another is want of memory.
    #[tactic(auto, using(crate::proofs::Declared::variable_here))]
    pub fn declaration(&self, variable: Variable) -> Result<&'t DeclaredVariable<'a>, AllocError>
        ensures { IfOk result (λ d. declared_variable_of d.now ≡ form.declaration_of (environment_of self.now) (variable_of variable)) }
    {
        let variables = variables_of_block(self.known.typed, variable.block)?;
        if variable.index >= variables.len() {
            return Err(AllocError);
        }
        Ok(&variables[variable.index])
    }

    /// A leaf of a variable; a program names those that are there, so that another is want of memory.
    #[tactic(auto, using(crate::proofs::Declared::leaf_here))]
    pub fn leaf(&self, variable: Variable, leaf: usize) -> Result<&'t Leaf<'a>, AllocError>
        ensures { IfOk result (λ l. leaf_of l.now ≡ leaf_number (environment_of self.now) (variable_of variable) leaf) }
    {
        let declaration = self.declaration(variable)?;
        if leaf >= declaration.leaves.len() {
            return Err(AllocError);
        }
        Ok(&declaration.leaves[leaf])
    }
    /// The number of a variable's signature in the table.
    pub fn table_number(&self, variable: Variable) -> Result<usize, AllocError>
        ensures { IfOk result (λ n. n ≡ table_number (environment_of self.now) (form.declaration_of (environment_of self.now) (variable_of variable))) }
    {
        self.known.number(variable)
    }
}
