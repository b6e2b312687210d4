// What is left of a format list, in pieces, of which the last one comes first. Repetitions are not written out.

ghost use Rattle.std.specs.Prelude.{◌≡◌, ◌+◌, ◌*◌, ◌<◌, ◌≤◌, ◌++◌, List, [], true, vec_len, vec_capacity, MatchResult, IfOk, OnOk};
ghost use Rattle.pli_meaning.specs.Streaming.{repeated};
ghost use Rattle.pli_edit.specs.declared.format.Node.{Node as NodeHeld};
ghost use Rattle.pli_edit.specs.FormatPlaces.{items_from, left_of, piece_items, piece_weight, weight_from, weight_of, IsSplit, IsFirst, IsTakenFrom, IsShownOf};

use crate::format::{Format, Node, Piece, Split};
use std::alloc::AllocError;

// None where nothing is left.
#[tactic(auto, using(crate::proofs::FormatPieces::split_item, crate::proofs::FormatPieces::split_list, crate::proofs::FormatPieces::split_empty, crate::proofs::FormatPieces::split_never, crate::proofs::FormatPieces::split_past))]
fn split(nodes: &[Node], times: u32, start: usize, size: u32) -> Option<Split>
    ensures { IsSplit nodes.now times start size result }
{
    if times == 0 {
        return None;
    }
    if size == 0 {
        return None;
    }
    let again = Piece::Range(times - 1, start, size);
    match *nodes.get(start)? {
        Node::Item(count, format) => Some(Split {
            first: Piece::Item(count, format),
            behind: Piece::Range(1, start + 1, size - 1),
            again,
        }),
        Node::List(count, inner) => Some(Split {
            first: Piece::Range(count, start + 1, inner),
            behind: Piece::Range(
                1,
                start + 1 + inner as usize,
                (size - 1).saturating_sub(inner),
            ),
            again,
        }),
    }
}

// Whether nothing is left in a piece.
#[tactic(auto, using(crate::proofs::FormatPieces::spent_item, crate::proofs::FormatPieces::spent_times, crate::proofs::FormatPieces::spent_size))]
fn is_spent(piece: Piece) -> bool
    ensures { result ≡ true → (nodes : List NodeHeld) → piece_items nodes piece ≡ [] }
{
    match piece {
        Piece::Item(times, _) => times == 0,
        Piece::Range(times, _, size) => times == 0 || size == 0,
    }
}

// A piece comes behind the pieces, unless nothing is left in it.
#[tactic(auto, using(crate::proofs::FormatPieces::put_left, crate::proofs::FormatPieces::put_weight, crate::proofs::FormatPieces::nothing_left, crate::proofs::FormatPieces::no_heavier))]
fn put(pieces: &mut Vec<Piece>, piece: Piece)
    requires { vec_len pieces.old < vec_capacity pieces.old }
    ensures left { (nodes : List NodeHeld) → left_of nodes pieces.new.items ≡ piece_items nodes piece ++ left_of nodes pieces.old.items }
    ensures lighter { (nodes : List NodeHeld) → weight_of nodes pieces.new.items ≤ piece_weight nodes piece + weight_of nodes pieces.old.items }
    ensures room { vec_len pieces.new ≤ vec_len pieces.old + 1 }
    ensures capacity { vec_capacity pieces.new ≡ vec_capacity pieces.old }
{
    if !is_spent(piece) {
        pieces.push_reserved(piece);
    }
}

// A range comes behind the pieces, split.
fn put_split(nodes: &[Node], pieces: &mut Vec<Piece>, times: u32, start: usize, size: u32)
    requires { vec_len pieces.old + 3 ≤ vec_capacity pieces.old }
    ensures left { left_of nodes.now pieces.new.items ≡ repeated times (items_from nodes.now start size) ++ left_of nodes.now pieces.old.items }
    ensures lighter { weight_of nodes.now pieces.new.items < (1 + times * weight_from nodes.now start size) + weight_of nodes.now pieces.old.items }
{
    if let Some(parts) = split(nodes, times, start, size) {
        put(pieces, parts.again);
        put(pieces, parts.behind);
        put(pieces, parts.first);
    }
}

// The first item that is left, with the number of times that it is repeated; they aren't left any more. Without memory an
// `AllocError`, and the same items are left.
fn front(nodes: &[Node], pieces: &mut Vec<Piece>) -> Result<Option<(u32, Format)>, AllocError>
    ensures first { MatchResult result
        (λ found. IsFirst found (left_of nodes.now pieces.old.items) (left_of nodes.now pieces.new.items))
        (λ _. left_of nodes.now pieces.new.items ≡ left_of nodes.now pieces.old.items) }
    ensures room { OnOk result (vec_len pieces.new < vec_capacity pieces.new) }
{
    pieces.reserve(3)?;
    while let Some(piece) = pieces.pop() {
        match piece {
            Piece::Item(times, format) => {
                if times > 0 {
                    return Ok(Some((times, format)));
                }
            }
            Piece::Range(times, start, size) => put_split(nodes, pieces, times, start, size),
        }
        pieces.reserve(3)?;
    }
    Ok(None)
}

/// The first item that is left is taken. Without memory an `AllocError`, and the same items are left.
pub fn take(nodes: &[Node], pieces: &mut Vec<Piece>) -> Result<Option<Format>, AllocError>
    ensures { MatchResult result
        (λ found. IsTakenFrom found (left_of nodes.now pieces.old.items) (left_of nodes.now pieces.new.items))
        (λ _. left_of nodes.now pieces.new.items ≡ left_of nodes.now pieces.old.items) }
{
    let Some((times, format)) = front(nodes, pieces)? else {
        return Ok(None);
    };
    put(pieces, Piece::Item(times - 1, format));
    Ok(Some(format))
}

/// The first item that is left, which stays. Without memory an `AllocError`.
pub fn peek(nodes: &[Node], pieces: &mut Vec<Piece>) -> Result<Option<Format>, AllocError>
    ensures shown { IfOk result (λ found. IsShownOf found (left_of nodes.now pieces.old.items)) }
    ensures same { left_of nodes.now pieces.new.items ≡ left_of nodes.now pieces.old.items }
{
    let Some((times, format)) = front(nodes, pieces)? else {
        return Ok(None);
    };
    pieces.push_reserved(Piece::Item(times, format));
    Ok(Some(format))
}
