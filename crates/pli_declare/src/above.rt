// The structures that hold a variable.

ghost use Rattle.std.specs.Prelude.{◌≡◌, ◌++◌, ◌∷◌, [], ℕ, IfOk, length, true};
ghost use Rattle.pli_language.specs.Declarations.{holders_at, level_of, dimensions_of};
ghost use Rattle.pli_language.specs.Declaring.{first_or};
ghost use Rattle.pli_declare.specs.Levels.{chain_of, dimensions_in, IsKeptIn, may_hold, variable_of};

use crate::scope::Variable;
use std::alloc::{AllocError, Global};
use std::rc::Rc;

/// The structures inside an outermost one, each inside the next: none, or the innermost and those that hold it, with their
/// number and that of their dimensions, those of the outermost one too.
#[derive(Drop)]
pub enum Levels<'a> {
    Outermost,
    Inside {
        structure: Variable<'a>,
        count: usize,
        dimensions: usize,
        above: Rc<Levels<'a>>,
    },
}

/// The structures that hold a variable: none, or an outermost one and those inside it, which variables share.
#[derive(Drop)]
pub struct Above<'a> {
    pub outermost: Option<Variable<'a>>,
    pub levels: Rc<Levels<'a>>,
    ghost kept: { ∥ IsKeptIn outermost levels.value ∥₁ },
}

/// The level of a variable, which is 1 where none is written.
pub fn level_of(variable: Variable) -> u64
    ensures { result ≡ level_of (variable_of variable.entry) }
{
    variable.item.level.unwrap_or(1)
}

/// How many dimensions a variable has.
fn dimensions_of(variable: Variable) -> usize
    ensures { result ≡ length (dimensions_of (variable_of variable.entry)) }
{
    variable.declared.dimensions.len() + variable.item.dimensions.len()
}

impl<'a> Above<'a> {
    /// No structures.
    pub fn none(alloc: Global) -> Result<Above<'a>, AllocError>
        ensures value { IfOk result (λ a. chain_of a.outermost a.levels.value ≡ []) }
        ensures may_hold { IfOk result (λ a. (level : ℕ) → may_hold a.outermost a.levels.value level ≡ true) }
    {
        Ok(Above {
            outermost: None,
            levels: Rc::new(alloc, Levels::Outermost)?,
        })
    }

    /// The same structures.
    pub fn shared(&self) -> Result<Above<'a>, AllocError>
        ensures { IfOk result (λ a. chain_of a.outermost a.levels.value ≡ chain_of self.now.outermost self.now.levels.value) }
    {
        Ok(Above {
            outermost: self.outermost,
            levels: self.levels.clone()?,
        })
    }

    /// The outermost structure, or else this variable.
    #[tactic(auto, using(crate::proofs::Kept::kept))]
    pub fn first_or(&self, other: Variable<'a>) -> Variable<'a>
        ensures { variable_of result ≡ first_or (chain_of self.now.outermost self.now.levels.value) (variable_of other.entry) }
    {
        match self.outermost {
            Some(first) => first,
            None => other,
        }
    }

    /// How many structures.
    #[tactic(auto, using(crate::proofs::Kept::kept))]
    pub fn count(&self) -> usize
        ensures { result ≡ length (chain_of self.now.outermost self.now.levels.value) }
    {
        let Some(_) = self.outermost else {
            return 0;
        };
        match &*self.levels {
            Levels::Outermost => 1,
            Levels::Inside { count, .. } => *count,
        }
    }

    /// How many dimensions they have together.
    #[tactic(auto, using(crate::proofs::Kept::kept))]
    pub fn dimensions(&self) -> usize
        ensures { result ≡ dimensions_in (chain_of self.now.outermost self.now.levels.value) }
    {
        let Some(first) = self.outermost else {
            return 0;
        };
        match &*self.levels {
            Levels::Outermost => dimensions_of(first),
            Levels::Inside { dimensions, .. } => *dimensions,
        }
    }

    /// These structures and one inside them. More than a number holds are want of memory.
    #[tactic(auto, using(crate::proofs::Kept::kept))]
    pub fn inside(&self, alloc: Global, structure: Variable<'a>) -> Result<Above<'a>, AllocError>
        requires { may_hold self.now.outermost self.now.levels.value (level_of (variable_of structure)) ≡ true }
        ensures { IfOk result (λ a. chain_of a.outermost a.levels.value ≡ chain_of self.now.outermost self.now.levels.value ++ variable_of structure.entry ∷ []) }
    {
        let Some(first) = self.outermost else {
            return Ok(Above {
                outermost: Some(structure),
                levels: Rc::new(alloc, Levels::Outermost)?,
            });
        };
        let count = self.count().checked_add(1).ok_or(AllocError)?;
        let own = dimensions_of(structure);
        let dimensions = self.dimensions().checked_add(own).ok_or(AllocError)?;
        let above = self.levels.clone()?;
        let levels = Levels::Inside {
            structure,
            count,
            dimensions,
            above,
        };
        Ok(Above {
            outermost: Some(first),
            levels: Rc::new(alloc, levels)?,
        })
    }

    /// Those of these structures that hold the variable of this level that is declared next.
    #[tactic(auto, using(crate::proofs::Kept::kept))]
    pub fn holders(&self, alloc: Global, level: u64) -> Result<Above<'a>, AllocError>
        ensures value { IfOk result (λ a. chain_of a.outermost a.levels.value ≡ holders_at (chain_of self.now.outermost self.now.levels.value) level) }
        ensures may_hold { IfOk result (λ a. may_hold a.outermost a.levels.value level ≡ true) }
    {
        let Some(first) = self.outermost else {
            return Above::none(alloc);
        };
        if level <= 1 {
            return Above::none(alloc);
        }
        let mut rest = &self.levels;
        while let Levels::Inside {
            structure,
            above,
            ..
        } = &**rest
        {
            if level_of(*structure) < level {
                return Ok(Above {
                    outermost: Some(first),
                    levels: rest.clone()?,
                });
            }
            rest = above;
        }
        if level_of(first) < level {
            return Ok(Above {
                outermost: Some(first),
                levels: rest.clone()?,
            });
        }
        Above::none(alloc)
    }
}
