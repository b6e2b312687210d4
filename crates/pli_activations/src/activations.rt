// The blocks that are entered, from the oldest on, each with its own on-units.

ghost use Rattle.std.specs.Prelude.{◌≡◌, ◌<◌, ◌≤◌, ◌-◌, ◌^◌, [], ◌∷◌, Some, length, drop, slice_get, option_map, OnOk, OnErr};
ghost use Rattle.pli_serving.specs.Blocks.{from_frame};
ghost use Rattle.pli_serving.specs.OnUnits.{established, reverted, force};
ghost use Rattle.pli_serving.specs.ActsAndEnds.{oncode_of};
ghost use Rattle.pli_activations.specs.Entered.{above, block_shown, framed, framed_shown, unit_shown, without_units};

use crate::block::{Block, BlockKind};
use pli_conditions::fault::OnUnitsFault;
use pli_conditions::units::{OnUnits, Unit};
use pli_language::condition::Condition;
use std::alloc::Global;
use std::marker::Model;

/// The blocks that are entered. Contracts see the list of activations, newest first.
#[derive(Drop)]
pub struct Activations {
    blocks: Vec<Block>,
    units: OnUnits,
}

impl Model for Activations {
    ghost use Rattle.std.specs.Prelude.{◌≡◌, List, length, reverse};
    ghost use Rattle.pli_serving.specs.ServiceState.{Activation};
    ghost use Rattle.pli_activations.specs.Entered.{activations_of};

    ghost Value = { List Activation };

    ghost view = { λ a. activations_of (reverse a.blocks.items) a.units };

    ghost invariant = { λ a. length a.units ≡ length a.blocks.items };
}

impl Activations {
    /// No block is entered.
    pub fn new(alloc: Global) -> Activations
        ensures { result ≡ [] }
    {
        Activations {
            blocks: Vec::new(alloc),
            units: OnUnits::new(alloc),
        }
    }

    /// How many blocks are entered.
    pub fn height(&self) -> u32
        ensures { result ≡ length self.now }
    {
        self.units.depth()
    }

    /// What is kept of the newest block.
    pub fn newest(&self) -> Option<Block>
        ensures { option_map block_shown result ≡ option_map without_units (slice_get self.now 0) }
    {
        match self.blocks.last() {
            Some(block) => Some(*block),
            None => None,
        }
    }

    /// A block is entered, with no unit of its own. `Memory` where there is none, and then nothing changed.
    pub fn enter(&mut self, block: Block) -> Result<(), OnUnitsFault>
        requires { length self.old < 2 ^ 32 - 1 }
        ensures done { OnOk result (self.new ≡ block_shown block ∷ self.old) }
        ensures refused { OnErr result (self.new ≡ self.old) }
    {
        self.units.enter()?;
        if self.blocks.push(block).is_err() {
            self.units.leave();
            return Err(OnUnitsFault::Memory);
        }
        Ok(())
    }

    /// The newest block has the unit for the condition, in the place of an older one. `Memory` where there is none, and then
    /// nothing changed.
    pub fn establish(&mut self, condition: Condition, unit: Unit) -> Result<(), OnUnitsFault>
        requires { 0 < length self.old }
        ensures done { OnOk result (established condition (unit_shown unit) self.old ≡ Some self.new) }
        ensures refused { OnErr result (self.new ≡ self.old) }
    {
        self.units.establish(condition, unit)?;
        Ok(())
    }

    /// The newest block has no unit for the condition.
    pub fn revert(&mut self, condition: Condition)
        requires { 0 < length self.old }
        ensures { reverted condition self.old ≡ Some self.new }
    {
        self.units.revert(condition);
    }

    /// The frame of the newest block with a unit for the condition, and that unit.
    pub fn in_force(&self, condition: Condition) -> Option<(u32, Unit)>
        ensures { option_map framed_shown result ≡ option_map framed (force self.now condition) }
    {
        match self.units.lookup(condition) {
            Some((depth, unit)) => Some((self.blocks[depth as usize - 1].frame, unit)),
            None => None,
        }
    }

    /// The code of the condition for which the newest active on-unit runs; 0 with none.
    pub fn oncode(&self) -> u16
        ensures { result ≡ oncode_of self.now }
    {
        let mut height = self.blocks.len();
        'entered: while height > 0 {
            height -= 1;
            if let BlockKind::OnUnit { code, .. } = self.blocks[height].kind {
                return code;
            }
        }
        0
    }

    /// The height of the newest block with this frame: how many blocks there are with those below it.
    pub fn height_of(&self, frame: u32) -> Option<u32>
        ensures { above (length self.now) result self.now ≡ from_frame frame self.now }
    {
        let mut height = self.units.depth();
        'entered: while height > 0 {
            if self.blocks[height as usize - 1].frame == frame {
                return Some(height);
            }
            height -= 1;
        }
        None
    }

    /// What is kept of the newest block with this frame.
    pub fn block_of(&self, frame: u32) -> Option<Block>
        ensures { option_map block_shown result ≡ option_map without_units (slice_get (from_frame frame self.now) 0) }
    {
        let mut height = self.blocks.len();
        'entered: while height > 0 {
            height -= 1;
            let block = self.blocks[height];
            if block.frame == frame {
                return Some(block);
            }
        }
        None
    }

    /// All blocks above this height end, with their units.
    pub fn unwind(&mut self, height: u32)
        requires { height ≤ length self.old }
        ensures { self.new ≡ drop (length self.old - height) self.old }
    {
        self.blocks.truncate(height as usize);
        self.units.unwind(height);
    }
}
