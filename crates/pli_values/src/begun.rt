// The data of a generation as it begins.

ghost use Rattle.std.specs.Prelude.{◌≡◌, ℕ, ◌+◌, ◌<◌, ◌≤◌, ◌&&◌, ◌==◌, Some, is_some, length, slice_get, true};
ghost use Rattle.pli_typing.specs.Signatures.{capped, element_count, leaf_size, leaves_size};
ghost use Rattle.pli_meaning.specs.Contents.{initial_at};
ghost use Rattle.pli_serving.specs.Bytes.{with_bytes};
ghost use Rattle.pli_serving.specs.Values.{generation_bytes, leaf_data};
ghost use Rattle.pli_signatures.specs.View.{kind_of};
ghost use Rattle.pli_values.specs.Beginnings.{generation_of, is_same, items_of, leaf_of, leaves_of, lists_of, told_of};
ghost use Rattle.pli_values.specs.Items.{items_behind, items_left};

use crate::element::{Value, put_element};
use crate::generation::put_leaf;
use crate::leaf_items::Items;
use crate::lists::ItemList;
use crate::source::Source;
use pli_signatures::element::ElementKind;
use pli_signatures::in_force::extent_told;
use pli_signatures::size::{count_in_force, kind_in_force, last_told_size, leaves_size};
use pli_types::signature::Signature;

/// What a generation begins with: its signature, of which no extent is open, the REFER extent, the member that keeps the extent, if one
/// is to keep it, and a list of INITIAL values for each leaf, of those that are right for it.
#[derive(Clone, Copy)]
pub struct Begun<'a> {
    pub signature: &'a Signature,
    pub extent: i32,
    pub member: Option<usize>,
    pub source: Source<'a>,
    pub lists: &'a [ItemList],
}

impl Begun<'_> {
    /// The bytes of the data; `u64::MAX` where they are more.
    pub fn data_size(&self) -> u64
        ensures { result ≡ capped (leaves_size (leaves_of self.now)) }
    {
        let leaves = &self.signature.leaves;
        match self.signature.refer {
            Some(_) => last_told_size(leaves, self.extent),
            None => leaves_size(leaves),
        }
    }

    /// The extent, where REFER tells it of this leaf.
    fn told(&self, leaf: usize) -> Option<i32>
        requires there { leaf < length self.now.signature.now.leaves.items }
        ensures { result ≡ told_of self.now leaf }
    {
        let signature = self.signature;
        let count = signature.leaves.len();
        extent_told(signature.refer.is_some(), leaf, count, self.extent)
    }

    fn kind(&self, leaf: usize) -> ElementKind
        requires there { leaf < length self.now.signature.now.leaves.items }
        ensures { kind_of result ≡ (leaf_of self.now leaf).kind }
    {
        kind_in_force(&self.signature.leaves[leaf], self.told(leaf))
    }

    /// The elements of a leaf; `u64::MAX` where there are more.
    fn count(&self, leaf: usize) -> u64
        requires there { leaf < length self.now.signature.now.leaves.items }
        ensures { result ≡ capped (element_count (leaf_of self.now leaf).bounds) }
    {
        count_in_force(&self.signature.leaves[leaf], self.told(leaf))
    }

    /// Whether the leaf is the element that keeps the REFER extent.
    fn keeps_extent(&self, leaf: usize) -> bool
        requires there { leaf < length self.now.signature.now.leaves.items }
        ensures { result ≡ (is_same leaf self.now.member && length (leaf_of self.now leaf).bounds == 0) }
    {
        self.is_member(leaf) && self.signature.leaves[leaf].bounds.is_empty()
    }

    fn is_member(&self, leaf: usize) -> bool
        ensures { result ≡ is_same leaf self.now.member }
    {
        self.member == Some(leaf)
    }

    fn list(&self, leaf: usize) -> ItemList
        requires there { leaf < length self.now.lists.now }
        ensures { slice_get self.now.lists.now leaf ≡ Some result }
    {
        self.lists[leaf]
    }
}

impl<'a> Begun<'a> {
    /// The INITIAL values of a leaf.
    fn items(&self, leaf: usize) -> Items<'a>
        requires there { leaf < length self.now.signature.now.leaves.items }
        requires right { is_some (lists_of self.now) ≡ true }
        ensures right { is_some (items_behind result) ≡ true }
        ensures kind { kind_of result.kind ≡ (leaf_of self.now leaf).kind }
        ensures values { (n : ℕ) → initial_at (items_left result) n ≡ initial_at (items_of self.now leaf) n }
    {
        Items::of(self.source, self.kind(leaf), self.list(leaf))
    }
}

/// Writes the data of a leaf, and gives the place behind it.
fn put_begun(memory: &mut [u8], at: usize, begun: &Begun, leaf: usize) -> usize
    requires there { leaf < length begun.now.signature.now.leaves.items }
    requires right { is_some (lists_of begun.now) ≡ true }
    requires inside { at + leaf_size (leaf_of begun.now leaf) ≤ length memory.old }
    ensures written { memory.new ≡ with_bytes (leaf_data (leaf_of begun.now leaf) ((generation_of begun.now).values leaf)) at memory.old }
    ensures behind { result ≡ at + length (leaf_data (leaf_of begun.now leaf) ((generation_of begun.now).values leaf)) }
    ensures within { result ≤ at + leaf_size (leaf_of begun.now leaf) }
{
    if begun.keeps_extent(leaf) {
        return put_element(memory, at, begun.kind(leaf), Value::Number(begun.extent));
    }
    put_leaf(memory, at, begun.count(leaf) as usize, begun.items(leaf))
}

/// Writes the data of a generation as it begins. The INITIAL values are read from their own memory while the data are written.
pub fn put_generation(memory: &mut [u8], at: usize, begun: &Begun)
    requires right { is_some (lists_of begun.now) ≡ true }
    requires inside { at + leaves_size (leaves_of begun.now) ≤ length memory.old }
    ensures { memory.new ≡ with_bytes (generation_bytes (generation_of begun.now)) at memory.old }
{
    let mut here = at;
    for leaf in 0..begun.signature.leaves.len() {
        here = put_begun(memory, here, begun, leaf);
    }
}
