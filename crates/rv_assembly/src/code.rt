// Code as it is written: a list of items whose size is known as it grows.

ghost use Rattle.std.specs.Prelude.{◌≡◌, ℕ, ◌+◌, ◌-◌, ◌*◌, ◌<◌, ◌≤◌, [], ◌∷◌, ◌++◌, length, map, OnOk, OnErr, IfOk};
ghost use Rattle.pli_coding.specs.Assembly.{item_size, size_of, JumpAhead};
ghost use Rattle.rv_assembly.specs.View.{item_of};
ghost use Rattle.rv_assembly.specs.Fitting.{FitsIn, AllFit, most_words};
ghost use Rattle.rv_assembly.specs.Places.{branch_kept, jump_kept, branch_place, jump_place, IsPlace, words_behind, words_between, patched, branch, skipped, jumped_over, chosen, repeated_from};

use crate::item::Item;
use crate::place::Place;
use crate::registers;
use rv_meaning::instr::{BranchTest, Instr, Register};
use std::alloc::{AllocError, Global};
use std::marker::Model;

/// No code has so many words; more is want of memory.
const MOST_WORDS: usize = 1 << 28;

/// Code as it is written.
#[derive(Drop)]
pub struct Code {
    items: Vec<Item>,
    size: usize,
}

impl Model for Code {
    ghost use Rattle.std.specs.Prelude.{◌≡◌, ◌<◌, List, map};
    ghost use Rattle.pli_coding.specs.Assembly.{Item, size_of};
    ghost use Rattle.rv_assembly.specs.View.{item_of};
    ghost use Rattle.rv_assembly.specs.Fitting.{AllFit, most_words};

    ghost Value = { List Item };

    ghost view = { λ c. map item_of c.items.items };

    ghost invariant = { λ c. record {
      sized : c.size ≡ size_of (map item_of c.items.items);
      small : c.size < most_words;
      fit : AllFit (map item_of c.items.items);
    } };
}

impl Code {
    /// No code.
    pub fn new(alloc: Global) -> Code
        ensures { result ≡ [] }
    {
        Code {
            items: Vec::new(alloc),
            size: 0,
        }
    }

    /// In items.
    pub fn len(&self) -> usize
        ensures { result ≡ length self.now }
    {
        self.items.len()
    }

    /// In words.
    pub fn size(&self) -> usize
        ensures size { result ≡ size_of self.now }
        ensures small { result < most_words }
    {
        self.size
    }

    /// Its items, in order.
    pub fn items(&self) -> &[Item]
        ensures items { map item_of result.now ≡ self.now }
        ensures small { size_of self.now < most_words }
        ensures fit { AllFit self.now }
    {
        self.items.as_slice()
    }

    /// One more item.
    pub fn push(&mut self, item: Item) -> Result<(), AllocError>
        requires { FitsIn (item_of item) }
        ensures pushed { OnOk result (self.new ≡ self.old ++ item_of item ∷ []) }
        ensures unchanged { OnErr result (self.new ≡ self.old) }
    {
        let size = self.size + item.size();
        if size >= MOST_WORDS {
            return Err(AllocError);
        }
        self.items.push(item)?;
        self.size = size;
        Ok(())
    }

    /// Room for a branch, to be put there when the code that it goes over is known.
    #[tactic(auto, unfolding(crate::specs::Places::branch_place))]
    pub fn keep_branch(&mut self) -> Result<Place, AllocError>
        ensures kept { OnOk result (self.new ≡ self.old ++ branch_kept ∷ []) }
        ensures place { IfOk result (λ p. p ≡ branch_place self.old) }
        ensures unchanged { OnErr result (self.new ≡ self.old) }
    {
        let index = self.len();
        let words = self.size() + 1;
        self.push(Item::Plain(Instr::Ebreak))?;
        Ok(Place { index, words })
    }

    /// Room for a jump or a distance, to be put there when the code behind it is known.
    #[tactic(auto, unfolding(crate::specs::Places::jump_place))]
    pub fn keep_jump(&mut self) -> Result<Place, AllocError>
        ensures kept { OnOk result (self.new ≡ self.old ++ jump_kept ∷ []) }
        ensures place { IfOk result (λ p. p ≡ jump_place self.old) }
        ensures unchanged { OnErr result (self.new ≡ self.old) }
    {
        let index = self.len();
        let words = self.size() + 2;
        self.push(Item::JumpAhead(0))?;
        Ok(Place { index, words })
    }

    /// The words behind a place.
    #[tactic(auto, unfolding(crate::specs::Places::words_behind))]
    pub fn words_behind(&self, place: Place) -> usize
        ensures words { result ≡ words_behind self.now place }
        ensures small { result < most_words }
    {
        self.size().saturating_sub(place.words)
    }

    /// The item at a place, in place of one of the same size.
    pub fn patch(&mut self, place: Place, item: Item)
        requires kept { IsPlace (item_size (item_of item)) self.old place }
        requires fits { FitsIn (item_of item) }
        ensures { self.new ≡ patched self.old place (item_of item) }
    {
        self.items[place.index] = item;
    }

    /// A branch at a place, over all that was written since.
    pub fn skip_where(&mut self, place: Place, test: BranchTest, left: Register, right: Register)
        requires kept { IsPlace 1 self.old place }
        requires short { words_behind self.old place < 1023 }
        ensures { self.new ≡ skipped self.old place test left right }
    {
        let words = self.words_behind(place);
        self.patch(place, branch_over(test, left, right, words));
    }

    /// A jump at a place, over all that was written since.
    pub fn jump_over(&mut self, place: Place)
        requires { IsPlace 2 self.old place }
        ensures { self.new ≡ jumped_over self.old place }
    {
        let words = self.words_behind(place);
        self.patch(place, Item::JumpAhead(words));
    }

    /// A branch at the first place, past the jump at the second one, which goes over all that was written since: where the
    /// test holds, the code behind the jump is done, and else the code before it.
    #[tactic(auto, using(crate::proofs::Places::still_place, crate::proofs::Places::behind_patched), unfolding(crate::specs::Places::chosen))]
    pub fn choose(
        &mut self,
        branch: Place,
        jump: Place,
        test: BranchTest,
        left: Register,
        right: Register,
    )
        requires kept_branch { IsPlace 1 self.old branch }
        requires kept_jump { IsPlace 2 self.old jump }
        requires short { words_between branch jump < 1023 }
        ensures { self.new ≡ chosen self.old branch jump test left right }
    {
        let words = jump.words_from(branch);
        self.patch(branch, branch_over(test, left, right, words));
        self.jump_over(jump);
    }

    /// The code that was written since there were so many words, again while a0 is 0.
    #[tactic(auto, unfolding(crate::specs::Places::repeated_from))]
    pub fn repeat_while_zero(&mut self, words: usize) -> Result<(), AllocError>
        ensures { OnOk result (self.new ≡ repeated_from words self.old) }
    {
        let back = self.size().saturating_sub(words) + 1;
        self.push(branch_over(BranchTest::NotEqual, registers::a0(), registers::zero(), 2))?;
        self.push(Item::JumpBack(back))
    }
}

/// A branch over so many words.
pub fn branch_over(test: BranchTest, left: Register, right: Register, words: usize) -> Item
    requires { words < 1023 }
    ensures item { item_of result ≡ branch test left right words }
    ensures fits { FitsIn (item_of result) }
{
    Item::Plain(Instr::Branch {
        test,
        rs1: left,
        rs2: right,
        offset: (4 * (1 + words)) as i32,
    })
}
