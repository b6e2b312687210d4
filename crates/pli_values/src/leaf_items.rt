// The values of a leaf's INITIAL, element by element.

ghost use Rattle.std.specs.Prelude.{◌≡◌, ℕ, ◌+◌, [], is_some, true, unwrap_or};
ghost use Rattle.pli_language.specs.Tree.{InitialSkip};
ghost use Rattle.pli_meaning.specs.Contents.{initial_at};
ghost use Rattle.pli_serving.specs.InitialValues.{items_from};
ghost use Rattle.pli_signatures.specs.View.{kind_of};
ghost use Rattle.pli_values.specs.Calls.{call_of};
ghost use Rattle.pli_values.specs.Items.{items_behind, items_left};
ghost use Rattle.pli_values.specs.View.{initial_of};

use crate::initial::{Initial, Item, behind_item, item_read};
use crate::lists::ItemList;
use crate::source::Source;
use pli_signatures::element::ElementKind;

/// A place among the items of a leaf: what is left of one, and how many stand behind it from an address on.
#[derive(Clone, Copy)]
pub struct Items<'a> {
    pub source: Source<'a>,
    pub kind: ElementKind,
    pub current: Item<'a>,
    pub left: u32,
    pub at: usize,
}

impl Items<'_> {
    /// Whether no item is left.
    #[tactic(auto, using(crate::proofs::Lasting::at_end))]
    pub fn have_ended(&self) -> bool
        ensures { result ≡ true → (n : ℕ) → InitialSkip ≡ initial_at (items_left self.now) n }
    {
        self.current.repetition == 0 && self.left == 0
    }

    /// Goes on to an item that is left, where there is one.
    fn skip_ended(&mut self)
        requires { is_some (items_behind self.old) ≡ true }
        ensures right { is_some (items_behind self.new) ≡ true }
        ensures same { (n : ℕ) → initial_at (items_left self.new) n ≡ initial_at (items_left self.old) n }
        ensures kind { self.new.kind ≡ self.old.kind }
        ensures next { self.new.current.repetition ≡ 0 → self.new.left ≡ 0 }
    {
        while self.current.repetition == 0 && self.left > 0 {
            let Some(item) = item_read(&self.source, self.kind, self.at) else {
                unreachable!();
            };
            self.at = behind_item(&self.source, self.at);
            self.left -= 1;
            self.current = item;
        }
    }
}

impl<'a> Items<'a> {
    /// The values of a list.
    pub fn of(source: Source<'a>, kind: ElementKind, list: ItemList) -> Items<'a>
        requires { is_some (items_from (call_of source) (kind_of kind) list.count list.at) ≡ true }
        ensures right { is_some (items_behind result) ≡ true }
        ensures kind { result.kind ≡ kind }
        ensures values { (n : ℕ) → initial_at (items_left result) n ≡ initial_at (unwrap_or (items_from (call_of source.entry) (kind_of kind) list.count list.at) []) n }
    {
        let current = Item {
            repetition: 0,
            value: Initial::Skip,
        };
        Items {
            source,
            kind,
            current,
            left: list.count,
            at: list.at,
        }
    }

    /// What the next element begins with: nothing special where the items have ended.
    pub fn next(&mut self) -> Initial<'a>
        requires { is_some (items_behind self.old) ≡ true }
        ensures right { is_some (items_behind self.new) ≡ true }
        ensures value { initial_of result ≡ initial_at (items_left self.old) 0 }
        ensures behind { (n : ℕ) → initial_at (items_left self.new) n ≡ initial_at (items_left self.old) (n + 1) }
        ensures kind { self.new.kind ≡ self.old.kind }
    {
        self.skip_ended();
        if self.current.repetition == 0 {
            return Initial::Skip;
        }
        self.current.repetition -= 1;
        self.current.value
    }
}
