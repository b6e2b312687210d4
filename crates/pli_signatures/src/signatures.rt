// The signatures of a run.

ghost use Rattle.std.specs.Prelude.{◌≡◌, ◌==◌, [], ◌∷◌, ◌++◌, List, Some, map, length, IfOk, is_ok, slice_get, option_map, if◌then◌else◌};
ghost use Rattle.rv_meaning.specs.Tables.{TableSignature, AreSignatures, table_words};
ghost use Rattle.pli_types.specs.Templates.{Template};
ghost use Rattle.pli_types.specs.View.{pair_of, template_of};
ghost use Rattle.pli_serving.specs.SignatureService.{filled};
ghost use Rattle.pli_signatures.specs.Numbering.{number_kept, kept_with, number_filled, filled_with};
ghost use Rattle.pli_signatures.specs.View.{place_of};
ghost use Rattle.pli_signatures.specs.Whole.{is_known};
ghost use Rattle.pli_serving.specs.Templates as T;

use crate::copying::copied;
use crate::equality::place_of;
use crate::filling::{ExtentPlace, fill_all};
use crate::reading::signature_of;
use crate::whole::is_whole;
use pli_types::signature::{Bounds, Signature};
use std::alloc::{AllocError, Global};
use std::marker::Model;

/// The number that means the signature that a variable's generation has: no signature is given it.
const OWN_SIGNATURE: u32 = u32::MAX;

/// Signatures by their numbers, counted from 0; an extent may be open. Whether none is, is found out once for each.
#[derive(Drop)]
pub struct Signatures {
    list: Vec<Signature>,
    wholes: Vec<bool>,
}

impl Model for Signatures {
    ghost Value = { List Template };

    ghost view = { λ s. map template_of s.list.items };

    ghost invariant = { λ s. s.wholes.items ≡ map is_known (map template_of s.list.items) };
}

impl Signatures {
    /// Of an image's table: its words are those of signatures.
    pub fn from_table(alloc: Global, table: &[u32]) -> Result<Signatures, AllocError>
        ensures { (gs : List TableSignature) → AreSignatures gs → table.now ≡ table_words gs → IfOk result (λ s. s ≡ map T.template_of gs) }
    {
        let mut list = Vec::new(alloc);
        let mut wholes = Vec::new(alloc);
        let mut rest = table;
        while !rest.is_empty() {
            let (signature, behind) = signature_of(alloc, rest)?;
            wholes.push(is_whole(&signature))?;
            list.push(signature)?;
            rest = behind;
        }
        Ok(Signatures { list, wholes })
    }

    /// How many there are.
    pub fn len(&self) -> usize
        ensures { result ≡ length self.now }
    {
        self.list.len()
    }

    /// Whether there are none.
    pub fn is_empty(&self) -> bool
        ensures { result ≡ (length self.now == 0) }
    {
        self.list.is_empty()
    }

    /// The signature of a number, none where no signature has it.
    pub fn get(&self, number: u32) -> Option<&Signature>
        ensures { option_map (λ g. template_of g.now) result ≡ slice_get self.now number }
    {
        self.list.get(number as usize)
    }

    /// Whether no extent is open of the signature of a number.
    pub fn is_known(&self, number: u32) -> bool
        ensures { (t : Template) → Some t ≡ slice_get self.now number → result ≡ is_known t }
    {
        match self.wholes.get(number as usize) {
            Some(whole) => *whole,
            None => false,
        }
    }

    /// A signature comes behind the last. Where there is no memory nothing changes.
    fn push(&mut self, signature: Signature) -> Result<(), AllocError>
        ensures { self.new ≡ (if is_ok result then self.old ++ template_of signature ∷ [] else self.old) }
    {
        self.wholes.reserve(1)?;
        let whole = is_whole(&signature);
        self.list.push(signature)?;
        self.wholes.push_reserved(whole);
        Ok(())
    }

    /// The number of a signature, which is put behind the last where none equals it; none, and nothing changed, where that number
    /// would be `u32::MAX` or more. Where there is no memory nothing changes.
    fn number(&mut self, signature: Signature) -> Result<Option<u32>, AllocError>
        ensures number { IfOk result (λ n. n ≡ number_kept (template_of signature) self.old) }
        ensures kept { self.new ≡ (if is_ok result then kept_with (template_of signature) self.old else self.old) }
    {
        let place = place_of(&self.list, &signature);
        if place >= OWN_SIGNATURE as usize {
            return Ok(None);
        }
        if place == self.list.len() {
            self.push(signature)?;
        }
        Ok(Some(place as u32))
    }

    /// The number of the signature that comes of this one when an extent is filled in at all of its places: as bounds, or the upper one
    /// as a length or a size. Equal signatures have one number, and a new one goes behind the last. None, and nothing changed, where
    /// there is no such signature, a place isn't there or isn't open, the extent can't be one, or the number would be
    /// `u32::MAX` or more. Where there is no memory nothing changes.
    pub fn fill(
        &mut self,
        alloc: Global,
        number: u32,
        places: &[ExtentPlace],
        extent: Bounds,
    ) -> Result<Option<u32>, AllocError>
        ensures number { IfOk result (λ n. n ≡ number_filled (filled (pair_of extent) (map place_of places.now) (slice_get self.old number)) self.old) }
        ensures kept { self.new ≡ (if is_ok result then filled_with (filled (pair_of extent) (map place_of places.now) (slice_get self.old number)) self.old else self.old) }
    {
        let Some(signature) = self.get(number) else {
            return Ok(None);
        };
        let mut signature = copied(alloc, signature)?;
        if !fill_all(&mut signature, extent, places) {
            return Ok(None);
        }
        self.number(signature)
    }
}
