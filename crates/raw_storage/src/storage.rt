// A memory's bytes, in a static part, a stack and a heap that stand one behind the other.

ghost use Rattle.std.specs.Prelude.{◌≡◌, ◌+◌, ◌<◌, ◌≤◌, length, MatchResult};
ghost use Rattle.std.specs.Borrow.{sem};
ghost use Rattle.rv_meaning.specs.Memory.{load, store};
ghost use Rattle.raw_storage.specs.Parts.{empty, with_bytes, moved, filled, range, static_part, stack_part, heap_part};
ghost use Rattle.raw_storage.specs.Lending.{LendsBytes, LendsRange};

use crate::bytes;
use std::alloc::{AllocError, Global};
use std::fmt;
use std::marker::Model;
use thiserror::Error;

/// Why no storage was made, by its number. It prints as `1 Memory`.
#[derive(Clone, Copy, Debug, PartialEq, Eq, Drop, Error)]
pub enum StorageFault {
    /// Out of memory.
    Memory = 1,
}

impl fmt::Display for StorageFault {
    fn fmt<W: fmt::Write>(&self, f: &mut fmt::Formatter<W>) -> fmt::Result {
        let number = *self as u8;
        write!(f, "{number} {self:?}")
    }
}

impl From<AllocError> for StorageFault {
    fn from(_: AllocError) -> StorageFault {
        StorageFault::Memory
    }
}

/// One run of bytes in three parts: static, stack and heap. Numbers of several bytes stand in it with the lowest byte first. That what is
/// read and written lies inside is the caller's to see to.
#[derive(Drop)]
pub struct Storage {
    bytes: Vec<u8>,
    stack_at: usize,
    heap_at: usize,
}

impl Model for Storage {
    ghost use Rattle.raw_storage.specs.Parts.{Parted, parted_code};

    ghost Value = { Parted };

    ghost coded = { parted_code };

    ghost use Rattle.std.specs.Prelude.{◌≤◌, length};

    ghost view = { λ s. record { bytes = s.bytes.items; stack_at = s.stack_at; heap_at = s.heap_at } };

    ghost invariant = { λ s. (s.stack_at ≤ s.heap_at) × (s.heap_at ≤ length s.bytes.items) };
}

impl Storage {
    /// The parts are so many bytes long, and all bytes are 0.
    ///
    /// # Errors
    ///
    /// `Memory` where memory ran out.
    pub fn new(
        alloc: Global,
        static_len: u32,
        stack_len: u32,
        heap_len: u32,
    ) -> Result<Storage, StorageFault>
        ensures { MatchResult result (λ s. s ≡ empty static_len stack_len heap_len) (λ fault. fault ≡ StorageFault.Memory) }
    {
        let stack_at = static_len as usize;
        let heap_at = stack_at + stack_len as usize;
        let len = heap_at + heap_len as usize;
        Ok(Storage {
            bytes: vec![in alloc; 0; len]?,
            stack_at,
            heap_at,
        })
    }

    /// All bytes.
    #[inline(always)]
    pub fn len(&self) -> usize
        ensures { result ≡ length self.now.bytes }
    {
        self.bytes.len()
    }

    #[inline(always)]
    pub fn load8(&self, at: u32) -> u8
        requires { at < length self.now.bytes }
        ensures { result ≡ load 1 self.now.bytes at }
    {
        bytes::load8(&self.bytes, at as usize)
    }

    #[inline(always)]
    pub fn load16(&self, at: u32) -> u16
        requires { at + 2 ≤ length self.now.bytes }
        ensures { result ≡ load 2 self.now.bytes at }
    {
        bytes::load16(&self.bytes, at as usize)
    }

    #[inline(always)]
    pub fn load32(&self, at: u32) -> u32
        requires { at + 4 ≤ length self.now.bytes }
        ensures { result ≡ load 4 self.now.bytes at }
    {
        bytes::load32(&self.bytes, at as usize)
    }

    #[inline(always)]
    pub fn store8(&mut self, at: u32, value: u8)
        requires { at < length self.old.bytes }
        ensures { self.new ≡ with_bytes (store 1 self.old.bytes at value) self.old }
    {
        bytes::store8(&mut self.bytes, at as usize, value);
    }

    #[inline(always)]
    pub fn store16(&mut self, at: u32, value: u16)
        requires { at + 2 ≤ length self.old.bytes }
        ensures { self.new ≡ with_bytes (store 2 self.old.bytes at value) self.old }
    {
        bytes::store16(&mut self.bytes, at as usize, value);
    }

    #[inline(always)]
    pub fn store32(&mut self, at: u32, value: u32)
        requires { at + 4 ≤ length self.old.bytes }
        ensures { self.new ≡ with_bytes (store 4 self.old.bytes at value) self.old }
    {
        bytes::store32(&mut self.bytes, at as usize, value);
    }

    /// Copies so many bytes; the two ranges may overlap.
    pub fn move_within(&mut self, from: u32, to: u32, len: u32)
        requires from_inside { from + len ≤ length self.old.bytes }
        requires to_inside { to + len ≤ length self.old.bytes }
        ensures { self.new ≡ with_bytes (moved from to len self.old.bytes) self.old }
    {
        let start = from as usize;
        let range = start..start + len as usize;
        self.bytes.copy_within(range, to as usize);
    }

    pub fn fill(&mut self, at: u32, len: u32, byte: u8)
        requires { at + len ≤ length self.old.bytes }
        ensures { self.new ≡ with_bytes (filled at len byte self.old.bytes) self.old }
    {
        let start = at as usize;
        self.bytes[start..start + len as usize].fill(byte);
    }

    /// The static part, the stack and the heap. What the storage holds once they were written to is said by `range_mut` alone.
    pub fn parts_mut(&mut self) -> (&mut [u8], &mut [u8], &mut [u8])
        ensures static_part { result.0.now ≡ static_part self.old }
        ensures stack { result.1.now ≡ stack_part self.old }
        ensures heap { result.2.now ≡ heap_part self.old }
    {
        let stack_len = self.heap_at - self.stack_at;
        let (statics, rest) = self.bytes.split_at_mut(self.stack_at);
        let (stack, heap) = rest.split_at_mut(stack_len);
        (statics, stack, heap)
    }

    /// All bytes, to be read and written in place.
    #[inline(always)]
    pub fn as_mut_slice(&mut self) -> &mut [u8]
        ensures* writes_back { sem 𝓛 (LendsBytes self.entry result) }
        ensures value { result.now ≡ self.old.bytes }
    {
        self.bytes.as_mut_slice()
    }

    /// So many bytes from a place on.
    pub fn range_mut(&mut self, at: u32, len: u32) -> &mut [u8]
        requires { at + len ≤ length self.old.bytes }
        ensures* writes_back { sem 𝓛 (LendsRange self.entry at result) }
        ensures value { result.now ≡ range at len self.old.bytes }
    {
        let start = at as usize;
        self.bytes.slice_mut(start..start + len as usize)
    }
}
