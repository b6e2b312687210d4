// Elements of memory, gathered in a buffer.

ghost use Rattle.std.specs.Prelude.{◌≡◌, ◌≤◌, ◌<◌, ◌++◌, ◌-◌, ℕ, length, replicate, IfErr, IfOk, MatchResult, ◌⊎◌};
ghost use Rattle.std.specs.List.{list_all};
ghost use Rattle.pli_typing.specs.Signatures.{leaf_bytes};
ghost use Rattle.pli_serving.specs.Values.{element_size};
ghost use Rattle.pli_signatures.specs.View.{kind_of};
ghost use Rattle.pli_aggregates.specs.Elements.{AreWithin};
ghost use Rattle.pli_aggregates.specs.Standing.{CountsAs, IsWritable};
ghost use Rattle.pli_aggregates.specs.Runs.{standing};
ghost use Rattle.pli_parts.specs.Buffers.{are_short, is_in_element, longest, IsCopied, IsGathered};

use pli_aggregates::runs::Run;
use pli_answering::reply::Refusal;
use pli_signatures::element::ElementKind;
use pli_values::element::element_size;
use pli_values::word::half_at;
use std::alloc::{AllocError, Global};

/// Whether all varying texts are no longer than their kind lets them be.
fn are_short(memory: &[u8], run: Run, most: u16) -> bool
    requires { AreWithin 2 (length memory.now) (standing run.at run.step run.count) }
    ensures { result ≡ are_short most memory.now (standing run.at run.step run.count) }
{
    for number in 0..run.count {
        if half_at(memory, run.at + run.step * number as usize) > most {
            return false;
        }
    }
    true
}

/// How long a varying text may be.
fn longest(kind: ElementKind) -> Option<u16>
    ensures { result ≡ longest (kind_of kind) }
{
    match kind {
        ElementKind::Varying { length } => Some(length),
        ElementKind::Fixed { .. } => None,
        ElementKind::Character { .. } => None,
        ElementKind::Bit => None,
        ElementKind::Pointer => None,
        ElementKind::Offset => None,
        ElementKind::Area { .. } => None,
    }
}

/// Whether all elements that are varying texts are no longer than their kind lets them be.
fn are_in_elements(memory: &[u8], run: Run, kind: ElementKind) -> bool
    requires { AreWithin (leaf_bytes (kind_of kind)) (length memory.now) (standing run.at run.step run.count) }
    ensures { result ≡ list_all (is_in_element (kind_of kind) memory.now) (standing run.at run.step run.count) }
{
    match longest(kind) {
        Some(most) => are_short(memory, run, most),
        None => true,
    }
}

/// So many zeros behind what a buffer holds.
fn push_zeros(buffer: &mut Vec<u8>, count: usize) -> Result<(), AllocError>
    requires { count ≤ 3 }
    ensures { IfOk result (λ _. buffer.new.items ≡ buffer.old.items ++ replicate count 0) }
{
    buffer.extend_from_slice(&[0; 3][..count])?;
    Ok(())
}

/// The bytes between an element's value and the element's end.
fn bytes_behind(kind: ElementKind) -> usize
    ensures { result ≡ element_size (kind_of kind) - leaf_bytes (kind_of kind) }
{
    (kind.size() - kind.value_bytes()) as usize
}

/// The bytes of elements that stand one behind the other, up to the end of the last one.
fn copied(alloc: Global, memory: &[u8], run: Run, kind: ElementKind) -> Result<Vec<u8>, AllocError>
    requires some { 0 < run.count }
    requires even { (run.count ≡ 1) ⊎ (run.step ≡ element_size (kind_of kind)) }
    requires within { AreWithin (leaf_bytes (kind_of kind)) (length memory.now) (standing run.at run.step run.count) }
    ensures { IfOk result (λ buffer. IsCopied (kind_of kind) memory.now run buffer.items) }
{
    let last = run.at + run.step * (run.count - 1) as usize;
    let end = last + kind.value_bytes() as usize;
    let zeros = bytes_behind(kind);
    let mut buffer = Vec::with_capacity(alloc, end + zeros - run.at)?;
    buffer.extend_from_slice(&memory[run.at..end])?;
    push_zeros(&mut buffer, zeros)?;
    Ok(buffer)
}

/// Elements with bytes, one behind the other. `Memory` where they stand otherwise, as those of one leaf never do, and where a varying
/// text is longer than its kind lets it be.
fn gather_run(alloc: Global, memory: &[u8], run: Run, kind: ElementKind) -> Result<Vec<u8>, Refusal>
    requires { AreWithin (leaf_bytes (kind_of kind)) (length memory.now) (standing run.at run.step run.count) }
    ensures { MatchResult result (λ buffer. IsGathered (kind_of kind) memory.now run run.count buffer.items) (λ e. e ≡ Refusal.Memory) }
{
    if run.count == 0 {
        return Ok(Vec::new(alloc));
    }
    if !are_in_elements(memory, run, kind) {
        return Err(Refusal::Memory);
    }
    if run.count != 1 && run.step != element_size(kind) {
        return Err(Refusal::Memory);
    }
    let buffer = copied(alloc, memory, run, kind)?;
    Ok(buffer)
}

/// Elements one behind the other, with all between them; none of those without bytes, however many they are.
pub fn gather(alloc: Global, memory: &[u8], run: Run, kind: ElementKind) -> Result<Vec<u8>, Refusal>
    requires { IsWritable (kind_of kind) (length memory.now) run }
    ensures gathered { IfOk result (λ buffer. (n : ℕ) → CountsAs (kind_of kind) run n → IsGathered (kind_of kind) memory.now run n buffer.items) }
    ensures refused { IfErr result (λ e. e ≡ Refusal.Memory) }
{
    if kind.value_bytes() == 0 {
        return Ok(Vec::new(alloc));
    }
    let buffer = gather_run(alloc, memory, run, kind)?;
    Ok(buffer)
}
