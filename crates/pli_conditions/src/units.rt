// The on-units of all blocks that are entered.

ghost use Rattle.std.specs.Prelude.{◌≡◌, ◌<◌, ◌≤◌, ◌-◌, ◌^◌, [], ◌∷◌, length, drop, OnOk, OnErr};
ghost use Rattle.pli_conditions.specs.Blocks.{established, reverted, in_force};

use crate::block;
use crate::fault::OnUnitsFault;
use pli_language::condition::Condition;
use std::alloc::Global;
use std::marker::Model;

/// What an ON statement establishes: the system's own action, or code at an address of the image.
#[derive(Clone, Copy, PartialEq, Eq, Debug)]
pub enum Unit {
    System,
    Code(u32),
}

/// The blocks that are entered, each with what its ON statements have established. Contracts see the list of blocks, newest
/// first, each with its list of conditions and units.
#[derive(Drop)]
pub struct OnUnits {
    alloc: Global,
    blocks: Vec<Vec<(Condition, Unit)>>,
}

impl Model for OnUnits {
    ghost use Rattle.std.specs.Prelude.{ℕ, ◌<◌, ◌^◌, List, length};
    ghost use Rattle.pli_language.specs.declared.condition.Condition.{Condition};
    ghost use Rattle.pli_conditions.specs.declared.units.Unit.{Unit as OnUnit};
    ghost use Rattle.pli_conditions.specs.Blocks.{newest_first};

    ghost Value = { List (List (Condition × OnUnit)) };

    ghost view = { λ u. newest_first u.blocks.items };

    ghost invariant = { λ u. length u.blocks.items < 2 ^ 32 };
}

impl OnUnits {
    /// No block is entered.
    pub fn new(alloc: Global) -> OnUnits
        ensures { result ≡ [] }
    {
        OnUnits {
            alloc,
            blocks: Vec::new(alloc),
        }
    }

    /// How many blocks are entered.
    pub fn depth(&self) -> u32
        ensures { result ≡ length self.now }
    {
        self.blocks.len() as u32
    }

    /// A block is entered, with no unit of its own. `Memory` where there is none, and then nothing changed.
    pub fn enter(&mut self) -> Result<(), OnUnitsFault>
        requires { length self.old < 2 ^ 32 - 1 }
        ensures done { OnOk result (self.new ≡ [] ∷ self.old) }
        ensures refused { OnErr result (self.new ≡ self.old) }
    {
        let alloc = self.alloc;
        self.blocks.push(Vec::new(alloc))?;
        Ok(())
    }

    /// The newest block has the unit for the condition, in the place of an older one. `Memory` where there is none, and then
    /// nothing changed.
    pub fn establish(&mut self, condition: Condition, unit: Unit) -> Result<(), OnUnitsFault>
        requires { 0 < length self.old }
        ensures done { OnOk result (self.new ≡ established condition unit self.old) }
        ensures refused { OnErr result (self.new ≡ self.old) }
    {
        let newest = self.blocks.len() - 1;
        block::establish(&mut self.blocks[newest], condition, unit)?;
        Ok(())
    }

    /// The newest block has no unit for the condition.
    pub fn revert(&mut self, condition: Condition)
        requires { 0 < length self.old }
        ensures { self.new ≡ reverted condition self.old }
    {
        let newest = self.blocks.len() - 1;
        block::revert(&mut self.blocks[newest], condition);
    }

    /// The newest block with a unit for the condition, by its depth, and that unit.
    pub fn lookup(&self, condition: Condition) -> Option<(u32, Unit)>
        ensures { result ≡ in_force self.now condition }
    {
        let mut depth = self.blocks.len();
        while depth > 0 {
            if let Some(unit) = block::unit_of(&self.blocks[depth - 1], condition) {
                return Some((depth as u32, unit));
            }
            depth -= 1;
        }
        None
    }

    /// The newest block ends, with its units.
    pub fn leave(&mut self)
        requires { 0 < length self.old }
        ensures { self.new ≡ drop 1 self.old }
    {
        let _units = self.blocks.pop();
    }

    /// All blocks above this depth end, with their units.
    pub fn unwind(&mut self, depth: u32)
        requires { depth ≤ length self.old }
        ensures { self.new ≡ drop (length self.old - depth) self.old }
    {
        self.blocks.truncate(depth as usize);
    }
}
