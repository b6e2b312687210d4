// Generations of CONTROLLED variables.

ghost use Rattle.std.specs.Prelude.{◌≡◌, ◌+◌, ◌-◌, ◌<◌, ◌≤◌, List, [], length, map, max, replicate, pos, slice_get, MatchResult, IsSome, OnOk};
ghost use Rattle.controlled_gens.specs.Stacks.{generations_of, with_generations, newest, named_or_fault, IsFilled, IsPushed, IsPopped, freed_newest};

use crate::fault::GenFault;
use area_heap::keeper::AreaKeeper;
use std::alloc::{AllocError, Global};
use std::marker::Model;

/// A generation's offset in the heap, and its signature's number.
#[derive(Clone, Copy, Debug, PartialEq, Eq)]
pub struct Generation {
    pub offset: u32,
    pub signature: u32,
}

/// The generations of CONTROLLED variables, which are numbered from 0. The newest is the one that a program sees. Only variables up to
/// the greatest number that was pushed have a stack; behind them no variable has a generation. Contracts see those of all variables.
#[derive(Drop)]
pub struct Controlled {
    alloc: Global,
    stacks: Vec<Vec<Generation>>,
    variables: u32,
}

impl Model for Controlled {
    ghost use Rattle.std.specs.Prelude.{◌≤◌, List, length, map};
    ghost use Rattle.controlled_gens.specs.Stacks.{filled_up};
    ghost use Rattle.controlled_gens.specs.declared.controlled.Generation.{Generation};

    ghost Value = { List (List Generation) };

    ghost view = { λ c. filled_up c.variables (map (λ generations. generations.items) c.stacks.items) };

    ghost invariant = { λ c. length c.stacks.items ≤ c.variables };
}

impl Controlled {
    /// So many variables, without generations.
    ///
    /// # Errors
    ///
    /// `Memory` where memory ran out.
    pub fn new(alloc: Global, variables: u32) -> Result<Controlled, GenFault>
        ensures { MatchResult result (λ c. c ≡ replicate variables []) (λ fault. fault ≡ GenFault.Memory) }
    {
        Ok(Controlled {
            alloc,
            stacks: Vec::new(alloc),
            variables,
        })
    }

    /// Places a new generation of so many bytes of data in the heap, which is an area, and gives its offset. The data aren't written.
    ///
    /// # Errors
    ///
    /// `HeapFull` where the heap has no gap, `Memory` where memory ran out. Nothing changes then.
    pub fn push<K: AreaKeeper>(
        &mut self,
        heap: &mut [u8],
        variable: u32,
        size: u64,
        signature: u32,
    ) -> Result<u32, GenFault>
        requires known { variable < length self.old }
        requires area { IsSome (K.keeper.area_of heap.old) }
        ensures pushed { IsPushed (K.keeper.allocated size signature (pos 0) heap.old) signature
            (generations_of self.old variable) (generations_of self.new variable) heap.old heap.new result }
        ensures others { self.new ≡ with_generations variable (generations_of self.new variable) self.old }
        ensures as_many { length self.new ≡ length self.old }
    {
        let index = variable as usize;
        let Ok(()) = reach(&mut self.stacks, self.alloc, index) else {
            return Err(GenFault::Memory);
        };
        push_onto::<K>(&mut self.stacks[index], heap, size, signature)
    }

    /// Removes the newest generation, also from the heap, which is an area.
    ///
    /// # Errors
    ///
    /// `NoGeneration` where there is none, or the heap lacks it. Nothing changes then.
    pub fn pop<K: AreaKeeper>(&mut self, heap: &mut [u8], variable: u32) -> Result<(), GenFault>
        requires known { variable < length self.old }
        requires area { IsSome (K.keeper.area_of heap.old) }
        ensures popped { IsPopped (freed_newest K.keeper heap.old (newest (generations_of self.old variable)))
            (generations_of self.old variable) (generations_of self.new variable) heap.old heap.new result }
        ensures others { self.new ≡ with_generations variable (generations_of self.new variable) self.old }
        ensures as_many { length self.new ≡ length self.old }
    {
        let index = variable as usize;
        if index >= self.stacks.len() {
            return Err(GenFault::NoGeneration);
        }
        pop_from::<K>(&mut self.stacks[index], heap)
    }

    /// The newest generation's offset in the heap, and its signature.
    ///
    /// # Errors
    ///
    /// `NoGeneration` where there is none.
    pub fn top(&self, variable: u32) -> Result<(u32, u32), GenFault>
        requires { variable < length self.now }
        ensures { result ≡ named_or_fault (newest (generations_of self.now variable)) }
    {
        let index = variable as usize;
        if index >= self.stacks.len() {
            return Err(GenFault::NoGeneration);
        }
        match self.stacks[index].last() {
            Some(generation) => Ok((generation.offset, generation.signature)),
            None => Err(GenFault::NoGeneration),
        }
    }

    /// How many generations there are.
    pub fn count(&self, variable: u32) -> u64
        requires { variable < length self.now }
        ensures { result ≡ length (generations_of self.now variable) }
    {
        let index = variable as usize;
        if index >= self.stacks.len() {
            return 0;
        }
        self.stacks[index].len() as u64
    }
}

/// Stacks up to an index; new ones are empty. Without memory an `AllocError`, and then there may be some of them.
fn reach(stacks: &mut Vec<Vec<Generation>>, alloc: Global, index: usize) -> Result<(), AllocError>
    ensures grown { IsFilled (map (λ generations. generations.items) stacks.old.items) (map (λ generations. generations.items) stacks.new.items) }
    ensures reached { OnOk result (index < length stacks.new.items) }
    ensures most { length stacks.new.items ≤ max (index + 1) (length stacks.old.items) }
{
    'stacks: while stacks.len() <= index {
        stacks.push(Vec::new(alloc))?;
    }
    Ok(())
}

fn push_onto<K: AreaKeeper>(
    generations: &mut Vec<Generation>,
    heap: &mut [u8],
    size: u64,
    signature: u32,
) -> Result<u32, GenFault>
    requires { IsSome (K.keeper.area_of heap.old) }
    ensures { IsPushed (K.keeper.allocated size signature (pos 0) heap.old) signature
        generations.old.items generations.new.items heap.old heap.new result }
{
    if generations.reserve(1).is_err() {
        return Err(GenFault::Memory);
    }
    match K::allocate(heap, size, signature, 0) {
        Ok(offset) => {
            generations.push_reserved(Generation { offset, signature });
            Ok(offset)
        }
        Err(_) => Err(GenFault::HeapFull),
    }
}

fn pop_from<K: AreaKeeper>(
    generations: &mut Vec<Generation>,
    heap: &mut [u8],
) -> Result<(), GenFault>
    requires { IsSome (K.keeper.area_of heap.old) }
    ensures { IsPopped (freed_newest K.keeper heap.old (newest generations.old.items))
        generations.old.items generations.new.items heap.old heap.new result }
{
    let generation = match generations.last() {
        Some(generation) => *generation,
        None => return Err(GenFault::NoGeneration),
    };
    match K::free(heap, generation.offset, generation.signature) {
        Ok(()) => {
            generations.pop();
            Ok(())
        }
        Err(_) => Err(GenFault::NoGeneration),
    }
}
