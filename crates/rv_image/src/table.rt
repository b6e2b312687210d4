// Whether words are a list of signatures.

ghost use Rattle.std.specs.Prelude.{◌≡◌, ◌↔◌, ◌%◌, ◌^◌, length, IsTrue, IfOk};
ghost use Rattle.rv_meaning.specs.Memory.{bytes_of_words};
ghost use Rattle.rv_meaning.specs.Images.{AreBelow};
ghost use Rattle.rv_meaning.specs.Tables.{IsTable, head_fits};
ghost use Rattle.rv_image.specs.Reading.{Gives, words_of, leaves_from, signature_from};

use crate::leaf::{leaf_of, word_of};
use crate::word::push_words;
use std::alloc::{AllocError, Global};

fn head_fits(class: u32, count: u32, refer: u32) -> bool
    ensures { result ≡ head_fits class count refer }
{
    class <= 1 && 1 <= count && (refer == 0 || (class == 0 && refer < count))
}

// What stands behind so many leaves.
fn leaves_of(count: u32, refer: u32, words: &[u8]) -> Option<&[u8]>
    ensures { Gives (λ x. words_of x.now) result (leaves_from count count refer 0 (words_of words.now)) }
{
    let mut rest = words;
    for place in 0..count {
        let (leaf, after) = leaf_of(rest)?;
        if !leaf.stands(count, refer, place) {
            return None;
        }
        rest = after;
    }
    Some(rest)
}

// What stands behind a signature.
#[tactic(auto, unfolding(crate::specs::Reading::signature_from))]
fn signature_of(words: &[u8]) -> Option<&[u8]>
    ensures { Gives (λ x. words_of x.now) result (signature_from (words_of words.now)) }
{
    let (class, rest) = word_of(words)?;
    let (count, rest) = word_of(rest)?;
    let (refer, rest) = word_of(rest)?;
    if !head_fits(class, count, refer) {
        return None;
    }
    leaves_of(count, refer, rest)
}

/// Whether the words in these bytes are a list of signatures.
pub fn is_table(words: &[u8]) -> bool
    ensures { IsTrue result ↔ IsTable (words_of words.now) }
{
    let mut rest = words;
    while rest.len() >= 4 {
        match signature_of(rest) {
            Some(after) => rest = after,
            None => return false,
        }
    }
    true
}

fn bytes_of(alloc: Global, words: &[u32]) -> Result<Vec<u8>, AllocError>
    ensures bytes { IfOk result (λ bytes. bytes.items ≡ bytes_of_words words.now) }
    ensures below { AreBelow (2 ^ 32) words.now }
{
    let mut bytes = Vec::new(alloc);
    push_words(&mut bytes, words)?;
    Ok(bytes)
}

/// Whether words are a list of signatures.
pub fn lists_signatures(alloc: Global, words: &[u32]) -> Result<bool, AllocError>
    ensures { IfOk result (λ holds. IsTrue holds ↔ IsTable words.now) }
{
    let bytes = bytes_of(alloc, words)?;
    Ok(is_table(&bytes))
}
