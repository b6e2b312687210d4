// The stack of texts.

ghost use Rattle.std.specs.Prelude.{◌≡◌, ◌<◌, ◌≤◌, ◌-◌, ◌^◌, [], ◌∷◌, length, take, drop, slice_range};
ghost use Rattle.pli_meaning.specs.Stream.{blanks};
ghost use Rattle.pli_meaning.specs.Texts as texts;
ghost use Rattle.pli_text.specs.Operands.{top_of, left_of, right_of, IsOrStays, Becomes, Gives};
ghost use Rattle.pli_text.specs.Pieces.{IsPart};

use crate::fault::TextFault;
use crate::number::{bit_in, decimal, number_in};
use crate::order::order;
use crate::place::{index_of, verify_of};
use itoa::Buffer;
use std::alloc::Global;
use std::cmp::Ordering;
use std::marker::Model;

/// No text that is made of two is longer.
pub const MOST_TEXT: usize = 1024;

/// All texts together have no more bytes, so that each place in one fits 32 bits.
const MOST_BYTES: usize = 0xFFFF_FFFF;

/// Texts, of which each call takes its operands from the top: of two the right one is above the left one. They stand one
/// behind the other, so that no text needs memory of its own. Contracts see the list of the texts, newest first.
#[derive(Drop)]
pub struct TextStack {
    bytes: Vec<u8>,
    starts: Vec<usize>,
}

impl Model for TextStack {
    ghost use Rattle.std.specs.Prelude.{ℕ, ◌<◌, ◌^◌, List, length};
    ghost use Rattle.pli_text.specs.Pieces.{pieces, AreInOrder};

    ghost Value = { List (List ℕ) };

    ghost view = { λ s. pieces s.starts.items s.bytes.items };

    ghost invariant = { λ s. AreInOrder s.starts.items s.bytes.items × (length s.bytes.items < 2 ^ 32) };
}

impl TextStack {
    /// There is no text.
    pub fn new(alloc: Global) -> TextStack
        ensures { result ≡ [] }
    {
        TextStack {
            bytes: Vec::new(alloc),
            starts: Vec::new(alloc),
        }
    }

    /// How many texts there are.
    pub fn height(&self) -> usize
        ensures { result ≡ length self.now }
    {
        self.starts.len()
    }

    /// The newest text.
    pub fn top(&self) -> &[u8]
        requires { 0 < length self.now }
        ensures { result.now ≡ top_of self.now }
    {
        let start = self.starts[self.starts.len() - 1];
        &self.bytes[start..]
    }

    /// The newest text is dropped.
    pub fn pop(&mut self)
        requires { 0 < length self.old }
        ensures { self.new ≡ drop 1 self.old }
    {
        if let Some(start) = self.starts.pop() {
            self.bytes.truncate(start);
        }
    }

    /// Only the oldest texts stay, as many as this.
    pub fn truncate(&mut self, height: usize)
        requires { height ≤ length self.old }
        ensures { self.new ≡ drop (length self.old - height) self.old }
    {
        if height < self.starts.len() {
            let start = self.starts[height];
            self.bytes.truncate(start);
            self.starts.truncate(height);
        }
    }

    /// The newest text stays above the oldest ones, as many as this; those between are dropped.
    pub fn sink(&mut self, height: usize)
        requires { height < length self.old }
        ensures { self.new ≡ top_of self.old ∷ drop (length self.old - height) self.old }
    {
        let end = self.bytes.len();
        let top = self.starts[self.starts.len() - 1];
        let below = self.starts[height];
        self.starts.truncate(height + 1);
        self.bytes.copy_within(top..end, below);
        self.bytes.truncate(below + (end - top));
    }

    /// A text comes on top. `Memory` where there is none, and then nothing changed.
    pub fn push(&mut self, text: &[u8]) -> Result<(), TextFault>
        ensures { IsOrStays (text.now ∷ self.old) self.old result self.new }
    {
        let start = self.bytes.len();
        if text.len() > MOST_BYTES - start {
            return Err(TextFault::Memory);
        }
        self.starts.reserve(1)?;
        self.bytes.extend_from_slice(text)?;
        self.starts.push(start).unwrap();
        Ok(())
    }

    /// The two newest texts become one, the older in front. `TooLong` where that has more than 1,024 bytes, and then nothing
    /// changed.
    pub fn join(&mut self) -> Result<(), TextFault>
        requires { 2 ≤ length self.old }
        ensures { Becomes (texts.joined (left_of self.old) (right_of self.old)) 2 TextFault.TooLong self.old result self.new }
    {
        let left = self.starts[self.starts.len() - 2];
        if self.bytes.len() - left > MOST_TEXT {
            return Err(TextFault::TooLong);
        }
        let _right = self.starts.pop();
        Ok(())
    }

    /// A number comes on top, as text in 9 places up to precision 15, else in 14. `Memory` where there is none, and then nothing
    /// changed.
    pub fn push_number(&mut self, number: i32, precision: u32) -> Result<(), TextFault>
        ensures { IsOrStays (texts.number_text precision number ∷ self.old) self.old result self.new }
    {
        let mut buffer = Buffer::new();
        let places = if precision <= 15 { 9 } else { 14 };
        self.push_behind_blanks(places, decimal(&mut buffer, number))
    }

    /// A bit comes on top, as `0` or `1`. `Memory` where there is none, and then nothing changed.
    pub fn push_bit(&mut self, bit: bool) -> Result<(), TextFault>
        ensures { IsOrStays (texts.bit_text bit ∷ self.old) self.old result self.new }
    {
        if bit {
            self.push(b"1")
        } else {
            self.push(b"0")
        }
    }

    /// The newest text becomes its part from place `start` on. `BadRange` where that lies outside, and then nothing changed.
    pub fn cut_from(&mut self, start: i32) -> Result<(), TextFault>
        requires { 0 < length self.old }
        ensures { Becomes (texts.substring_from (top_of self.old) start) 1 TextFault.BadRange self.old result self.new }
    {
        let Some((from, to)) = part_from(self.top(), start) else {
            return Err(TextFault::BadRange);
        };
        self.keep(from, to);
        Ok(())
    }

    /// The newest text becomes its part of `count` bytes from place `start` on. `BadRange` where that lies outside, and then
    /// nothing changed.
    pub fn cut(&mut self, start: i32, count: i32) -> Result<(), TextFault>
        requires { 0 < length self.old }
        ensures { Becomes (texts.substring (top_of self.old) start count) 1 TextFault.BadRange self.old result self.new }
    {
        let Some((from, to)) = part_of(self.top(), start, count) else {
            return Err(TextFault::BadRange);
        };
        self.keep(from, to);
        Ok(())
    }

    /// The newest text becomes one of this many bytes: padded with blanks, or cut on the right. `Memory` where there is none, and
    /// then nothing changed.
    pub fn fit(&mut self, count: u32) -> Result<(), TextFault>
        requires { 0 < length self.old }
        ensures { IsOrStays (texts.fitted count (top_of self.old) ∷ drop 1 self.old) self.old result self.new }
    {
        let start = self.starts[self.starts.len() - 1];
        if count as usize > MOST_BYTES - start {
            return Err(TextFault::Memory);
        }
        self.bytes.resize(start + count as usize, b' ')?;
        Ok(())
    }

    /// The newest text is cut to at most this many bytes.
    pub fn shorten(&mut self, most: u32)
        requires { 0 < length self.old }
        ensures { self.new ≡ take most (top_of self.old) ∷ drop 1 self.old }
    {
        let start = self.starts[self.starts.len() - 1];
        self.bytes.truncate(start + most as usize);
    }

    /// How the two newest texts compare, the shorter padded with blanks; they are dropped.
    pub fn compare(&mut self) -> Ordering
        requires { 2 ≤ length self.old }
        ensures order { result ≡ texts.text_order (left_of self.old) (right_of self.old) }
        ensures dropped { self.new ≡ drop 2 self.old }
    {
        let (left, right) = self.operands();
        let order = order(left, right);
        self.truncate(self.height() - 2);
        order
    }

    /// The place of the newest text in the one below, from 1 on; 0 for none, or where it is empty. Both are dropped.
    pub fn find(&mut self) -> u32
        requires { 2 ≤ length self.old }
        ensures place { result ≡ texts.index_of (left_of self.old) (right_of self.old) }
        ensures dropped { self.new ≡ drop 2 self.old }
    {
        let (left, right) = self.operands();
        let place = index_of(left, right);
        self.truncate(self.height() - 2);
        place as u32
    }

    /// The place of the first byte of the second newest text that isn't in the newest; 0 for none. Both are dropped.
    pub fn verify(&mut self) -> u32
        requires { 2 ≤ length self.old }
        ensures place { result ≡ texts.verify_of (left_of self.old) (right_of self.old) }
        ensures dropped { self.new ≡ drop 2 self.old }
    {
        let (left, right) = self.operands();
        let place = verify_of(left, right);
        self.truncate(self.height() - 2);
        place as u32
    }

    /// The number that the newest text stands for; the text is dropped. `NotNumber` where it stands for none, and then nothing
    /// changed.
    pub fn to_number(&mut self) -> Result<i32, TextFault>
        requires { 0 < length self.old }
        ensures { Gives (texts.number_in_text (top_of self.old)) self.old result self.new }
    {
        let Some(number) = number_in(self.top()) else {
            return Err(TextFault::NotNumber);
        };
        self.pop();
        Ok(number)
    }

    /// The bit that the newest text stands for; the text is dropped. `NotNumber` where it stands for none, and then nothing changed.
    pub fn to_bit(&mut self) -> Result<bool, TextFault>
        requires { 0 < length self.old }
        ensures { Gives (texts.bit_in_text (top_of self.old)) self.old result self.new }
    {
        let Some(bit) = bit_in(self.top()) else {
            return Err(TextFault::NotNumber);
        };
        self.pop();
        Ok(bit)
    }

    /// The newest text is written into an element: padded with blanks, or cut on the right. It is dropped; its length is told.
    pub fn store(&mut self, element: &mut [u8]) -> usize
        requires { 0 < length self.old }
        ensures length { result ≡ length (top_of self.old) }
        ensures written { element.new ≡ texts.fitted (length element.old) (top_of self.old) }
        ensures dropped { self.new ≡ drop 1 self.old }
    {
        let text = self.top();
        let length = text.len();
        write_over(element, text);
        self.pop();
        length
    }

    /// So many blanks come on top. `Memory` where there is none, and then nothing changed.
    pub fn push_blanks(&mut self, count: u32) -> Result<(), TextFault>
        ensures { IsOrStays (blanks count ∷ self.old) self.old result self.new }
    {
        self.push_behind_blanks(count as usize, b"")
    }

    /// The newest text becomes another, of the length that it has: padded with blanks, or cut on the right.
    pub fn overwrite(&mut self, text: &[u8])
        requires { 0 < length self.old }
        ensures { self.new ≡ texts.fitted (length (top_of self.old)) text.now ∷ drop 1 self.old }
    {
        let start = self.starts[self.starts.len() - 1];
        write_over(&mut self.bytes[start..], text);
    }

    // The two newest texts, the right one above.
    fn operands(&self) -> (&[u8], &[u8])
        requires { 2 ≤ length self.now }
        ensures left { result.0.now ≡ left_of self.now }
        ensures right { result.1.now ≡ right_of self.now }
        ensures short { length result.0.now < 2 ^ 32 }
    {
        let count = self.starts.len();
        let left = self.starts[count - 2];
        let right = self.starts[count - 1];
        (&self.bytes[left..right], &self.bytes[right..])
    }

    // The newest text becomes its part between two of its places.
    fn keep(&mut self, from: usize, to: usize)
        requires ordered { from ≤ to }
        requires held { 0 < length self.old }
        requires within { to ≤ length (top_of self.old) }
        ensures { self.new ≡ slice_range (top_of self.old) from to ∷ drop 1 self.old }
    {
        let start = self.starts[self.starts.len() - 1];
        self.bytes.copy_within(start + from..start + to, start);
        self.bytes.truncate(start + to - from);
    }

    // A text comes on top, at the end of so many places; one that is longer comes as it is.
    fn push_behind_blanks(&mut self, places: usize, text: &[u8]) -> Result<(), TextFault>
        ensures { IsOrStays (texts.behind_blanks places text.now ∷ self.old) self.old result self.new }
    {
        let start = self.bytes.len();
        let width = places.max(text.len());
        if width > MOST_BYTES - start {
            return Err(TextFault::Memory);
        }
        self.starts.reserve(1)?;
        self.bytes.reserve(width)?;
        let blanks = width - text.len();
        self.bytes.resize(start + blanks, b' ').unwrap();
        self.bytes.extend_from_slice(text).unwrap();
        self.starts.push(start).unwrap();
        Ok(())
    }
}

// A text over these bytes: padded with blanks, or cut on the right.
fn write_over(bytes: &mut [u8], text: &[u8])
    ensures { bytes.new ≡ texts.fitted (length bytes.old) text.now }
{
    let kept = text.len().min(bytes.len());
    bytes.fill(b' ');
    bytes[..kept].copy_from_slice(&text[..kept]);
}

// The bytes from a place on, which may be the one behind the last byte.
fn part_from(text: &[u8], start: i32) -> Option<(usize, usize)>
    ensures { IsPart (texts.substring_from text.now start) text.now result }
{
    if start < 1 || start as usize - 1 > text.len() {
        return None;
    }
    Some((start as usize - 1, text.len()))
}

// So many bytes from a place on.
fn part_of(text: &[u8], start: i32, count: i32) -> Option<(usize, usize)>
    ensures { IsPart (texts.substring text.now start count) text.now result }
{
    let (from, end) = part_from(text, start)?;
    if count < 0 || count as usize > end - from {
        return None;
    }
    Some((from, from + count as usize))
}
