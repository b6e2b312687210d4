// A place in a format list, which is used again from its start while items remain.

ghost use Rattle.std.specs.Prelude.{◌≡◌, ◌<◌, ◌^◌, length, MatchResult, IfErr, IfOk};
ghost use Rattle.pli_edit.specs.FormatPlaces.{items_of, IsPassed, IsComing};

use crate::fault::EditFault;
use crate::format::{Format, Node, Passed, Piece};
use crate::pieces::{peek, take};
use std::alloc::Global;
use std::marker::Model;

/// So many pieces at most are left of a list that holds no other one, with those that wait while its next item is looked for.
const FEW_PIECES: usize = 8;

/// A format list, and what is left of it. Contracts see the items of both, each as often as it is repeated.
#[derive(Drop)]
pub struct FormatPlace {
    nodes: Vec<Node>,
    pieces: Vec<Piece>,
}

impl Model for FormatPlace {
    ghost use Rattle.std.specs.Prelude.{◌<◌, ◌^◌, length};
    ghost use Rattle.pli_edit.specs.FormatPlaces.{FormatsLeft, items_of, left_of};

    ghost Value = { FormatsLeft };

    ghost view = { λ p. record { whole = items_of p.nodes.items; rest = left_of p.nodes.items p.pieces.items } };

    ghost invariant = { λ p. length p.nodes.items < 2 ^ 32 };
}

impl FormatPlace {
    /// The start of a list. `Memory` where there is none.
    pub fn new(alloc: Global, nodes: Vec<Node>) -> Result<FormatPlace, EditFault>
        requires { length nodes.items < 2 ^ 32 }
        ensures { MatchResult result (λ p. p ≡ record { whole = items_of nodes.items; rest = items_of nodes.items }) (λ e. e ≡ EditFault.Memory) }
    {
        let mut pieces = Vec::with_capacity(alloc, FEW_PIECES)?;
        pieces.push_reserved(Piece::Range(1, 0, nodes.len() as u32));
        Ok(FormatPlace { nodes, pieces })
    }

    /// The next item, which stays. `Memory` where there is none.
    pub fn coming(&mut self) -> Result<Option<Format>, EditFault>
        ensures item { MatchResult result (λ found. IsComing found self.old) (λ e. e ≡ EditFault.Memory) }
        ensures same { self.new ≡ self.old }
    {
        let found = peek(&self.nodes, &mut self.pieces)?;
        if found.is_some() {
            return Ok(found);
        }
        self.begin()?;
        let first = peek(&self.nodes, &mut self.pieces);
        self.pieces.clear();
        Ok(first?)
    }

    /// The next item is passed. `Memory` where there is none, and then nothing changed.
    pub fn pass(&mut self) -> Result<Option<Passed>, EditFault>
        ensures item { MatchResult result (λ found. IsPassed found self.old self.new) (λ e. e ≡ EditFault.Memory) }
        ensures kept { IfErr result (λ _. self.new ≡ self.old) }
    {
        if let Some(format) = take(&self.nodes, &mut self.pieces)? {
            return Ok(Some(Passed {
                format,
                is_again: false,
            }));
        }
        self.begin()?;
        let first = take(&self.nodes, &mut self.pieces);
        if first.is_err() {
            self.pieces.clear();
        }
        Ok(first?.map(|format| Passed {
            format,
            is_again: true,
        }))
    }

    // The whole list is left again. Without memory nothing changed.
    fn begin(&mut self) -> Result<(), EditFault>
        ensures { MatchResult result
            (λ _. self.new ≡ record { whole = self.old.whole; rest = self.old.whole })
            (λ e. (e ≡ EditFault.Memory) × (self.new ≡ self.old)) }
    {
        self.pieces.reserve(1)?;
        self.pieces.clear();
        self.pieces
            .push_reserved(Piece::Range(1, 0, self.nodes.len() as u32));
        Ok(())
    }
}
