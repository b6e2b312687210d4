// Signatures read from the words of a table.

ghost use Rattle.std.specs.Prelude.{◌≡◌, ◌&&◌, ◌==◌, drop, map, IfOk, option_map, slice_index, is_some};
ghost use Rattle.rv_meaning.specs.Tables.{is_run_time};
ghost use Rattle.pli_types.specs.View.{bounds_of, class_of, leaf_kind_of, leaf_of, template_of};
ghost use Rattle.pli_serving.specs.Templates as T;
ghost use Rattle.pli_signatures.specs.Reading.{length_read, kind_read, pair_read, pairs_read, leaf_read, behind_leaf, leaves_read, behind_leaves, signature_read, behind_signature};

use pli_types::signature::{Bounds, Class, Leaf, LeafKind, Signature};
use smallvec::SmallVec;
use std::alloc::{AllocError, Global};

/// The size of a length or a capacity that is known only when the program runs.
const RUN_TIME: u32 = u32::MAX;

/// The word at a place, 0 behind the last.
fn word_in(words: &[u32], place: usize) -> u32
    ensures { result ≡ slice_index words.now place }
{
    match words.get(place) {
        Some(word) => *word,
        None => 0,
    }
}

/// The words behind the first so many.
fn behind(words: &[u32], count: usize) -> &[u32]
    ensures { result.now ≡ drop count words.now }
{
    if words.len() < count {
        return &[];
    }
    &words[count..]
}

/// A length or capacity: open, or 0 where REFER tells it.
fn size_of(is_referred: bool, size: u32) -> Option<u32>
    ensures { result ≡ T.size_of is_referred size }
{
    if size != RUN_TIME {
        return Some(size);
    }
    if is_referred { Some(0) } else { None }
}

fn length_of(is_referred: bool, size: u32) -> Option<u16>
    ensures { result ≡ length_read is_referred size }
{
    let length = size_of(is_referred, size)?;
    Some(length.min(1024) as u16)
}

fn kind_of(is_referred: bool, number: u32, size: u32) -> LeafKind
    ensures { leaf_kind_of result ≡ kind_read is_referred number size }
{
    match number {
        1 => LeafKind::Fixed {
            precision: size.min(31) as u8,
        },
        2 => LeafKind::Character {
            length: length_of(is_referred, size),
        },
        3 => LeafKind::Varying {
            length: length_of(is_referred, size),
        },
        4 => LeafKind::Bit,
        5 => LeafKind::Pointer,
        6 => LeafKind::Offset,
        _ => LeafKind::Area {
            capacity: size_of(is_referred, size),
        },
    }
}

/// A pair of bounds: open, or with an upper bound of 0 where REFER tells that.
fn pair_of(is_referred: bool, lower: u32, upper: u32) -> Option<Bounds>
    ensures { bounds_of result ≡ T.pair_of is_referred (record { lower = lower; upper = upper }) }
{
    if lower == 1 && upper == 0 && !is_referred {
        return None;
    }
    Some(Bounds {
        lower: lower.cast_signed(),
        upper: upper.cast_signed(),
    })
}

/// So many pairs of bounds.
fn pairs_of(
    alloc: Global,
    is_referred: bool,
    count: u32,
    words: &[u32],
) -> Result<SmallVec<Option<Bounds>, 8>, AllocError>
    ensures { IfOk result (λ bounds. map bounds_of bounds.items ≡ pairs_read is_referred count words.now) }
{
    let mut pairs = SmallVec::new(alloc);
    let mut rest = words;
    for _ in 0..count {
        pairs.push(pair_of(is_referred, word_in(rest, 0), word_in(rest, 1)))?;
        rest = behind(rest, 2);
    }
    Ok(pairs)
}

fn leaf_of(alloc: Global, is_referred: bool, words: &[u32]) -> Result<Leaf, AllocError>
    ensures { IfOk result (λ leaf. leaf_of leaf ≡ leaf_read is_referred words.now) }
{
    let bounds = pairs_of(alloc, is_referred, word_in(words, 2), behind(words, 3))?;
    Ok(Leaf {
        kind: kind_of(is_referred, word_in(words, 0), word_in(words, 1)),
        bounds,
    })
}

fn behind_leaf(words: &[u32]) -> &[u32]
    ensures { result.now ≡ behind_leaf words.now }
{
    behind(words, 3 + 2 * word_in(words, 2) as usize)
}

/// Whether REFER tells an extent of the leaf with so many behind it: of the last one.
fn is_referred(has_refer: bool, behind: u32) -> bool
    ensures { result ≡ has_refer && behind == 0 }
{
    has_refer && behind == 0
}

/// So many leaves, and the words behind them.
fn leaves_of(
    alloc: Global,
    has_refer: bool,
    count: u32,
    words: &[u32],
) -> Result<(Vec<Leaf>, &[u32]), AllocError>
    ensures leaves { IfOk result (λ r. map leaf_of r.0.items ≡ leaves_read has_refer count words.now) }
    ensures rest { IfOk result (λ r. r.1.now ≡ behind_leaves count words.now) }
{
    let mut leaves = Vec::new(alloc);
    let mut rest = words;
    for place in 0..count {
        let is_referred = is_referred(has_refer, count - place - 1);
        leaves.push(leaf_of(alloc, is_referred, rest)?)?;
        rest = behind_leaf(rest);
    }
    Ok((leaves, rest))
}

fn class_of(class: u32) -> Class
    ensures { class_of result ≡ T.class_of class }
{
    if class == 0 {
        Class::Plain
    } else {
        Class::Controlled
    }
}

fn refer_of(refer: u32) -> Option<usize>
    ensures { result ≡ T.refer_of refer }
{
    if refer == 0 {
        return None;
    }
    Some((refer - 1) as usize)
}

/// The signature that the words begin with, and the words behind it.
pub fn signature_of(alloc: Global, words: &[u32]) -> Result<(Signature, &[u32]), AllocError>
    ensures signature { IfOk result (λ r. template_of r.0 ≡ signature_read words.now) }
    ensures rest { IfOk result (λ r. r.1.now ≡ behind_signature words.now) }
{
    let refer = refer_of(word_in(words, 2));
    let count = word_in(words, 1);
    let (leaves, rest) = leaves_of(alloc, refer.is_some(), count, behind(words, 3))?;
    let signature = Signature {
        class: class_of(word_in(words, 0)),
        refer,
        leaves,
    };
    Ok((signature, rest))
}
