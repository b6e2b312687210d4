// Where a reader stands.

ghost use Rattle.std.specs.Prelude.{◌≡◌, IfOk};
ghost use Rattle.pli_language.specs.Marks.{argument, note};
ghost use Rattle.pli_phrase.specs.View.{marks_of};

use pli_language::expr::Place;
use pli_language::fault::{SourceFault, SourceKind};
use pli_language::token::Token;
use std::alloc::AllocError;

/// How many more arguments and subscripts a head may have, and the refusals met so far.
#[derive(Drop)]
pub struct Marks {
    pub room: u32,
    pub faults: Vec<SourceFault>,
}

/// The tokens that are left, and the marks of those before.
#[derive(Drop)]
pub struct Cursor<'a> {
    pub tokens: &'a [Token],
    pub marks: Marks,
}

impl Marks {
    /// A refusal at a place.
    pub fn note(self, place: Place, kind: SourceKind) -> Result<Marks, AllocError>
        ensures { IfOk result (λ m. marks_of m ≡ note place kind (marks_of self)) }
    {
        let mut marks = self;
        marks.faults.push(SourceFault {
            line: place.line,
            column: place.column,
            kind,
        })?;
        Ok(marks)
    }

    /// An argument or a subscript at a place, which is refused where there is no more room.
    pub fn argument(self, place: Place) -> Result<Marks, AllocError>
        ensures { IfOk result (λ m. marks_of m ≡ argument place (marks_of self)) }
    {
        if self.room == 0 {
            return self.note(place, SourceKind::TooLarge);
        }
        let mut marks = self;
        marks.room -= 1;
        Ok(marks)
    }
}
