// What decides between assignments and words.

ghost use Rattle.std.specs.Prelude.{◌≡◌, IfOk};
ghost use Rattle.pli_phrase.specs.View.{cursor_of};
ghost use Rattle.pli_head.specs.Reading.{assigns, begins_if, condition_then};

use pli_language::token::{Kind, Symbol, Word};
use pli_phrase::cursor::{Cursor, Marks};
use pli_phrase::expression::{Beginning, begins_assignment, expression};
use pli_phrase::stop::Stop;
use pli_phrase::token::{begins, is_terminal};
use std::alloc::{AllocError, Global};

/// Behind IF: an open parenthesis, and THEN behind the longest expression that begins there.
fn condition_then(alloc: Global, source: &[u8], cursor: Cursor) -> Result<bool, AllocError>
    ensures { IfOk result (λ b. b ≡ condition_then source.now (cursor_of cursor.entry)) }
{
    if !begins(Kind::Symbol(Symbol::OpenParenthesis), &cursor) {
        return Ok(false);
    }
    match expression(alloc, source, cursor) {
        Ok((_, behind)) => Ok(begins(Kind::Name(Word::Then), &behind)),
        Err(Stop::Memory) => Err(AllocError),
        Err(_) => Ok(false),
    }
}

/// IF begins here, with an open parenthesis behind it, and THEN behind the longest expression there.
#[tactic(auto, unfolding(crate::specs::Reading::begins_if))]
fn begins_if(alloc: Global, source: &[u8], cursor: &Cursor) -> Result<bool, AllocError>
    ensures { IfOk result (λ b. b ≡ begins_if source.now (cursor_of cursor.now)) }
{
    let Some((first, rest)) = cursor.tokens.split_first() else {
        return Ok(false);
    };
    if !is_terminal(Kind::Name(Word::If), first.kind) {
        return Ok(false);
    }
    let behind = Cursor {
        tokens: rest,
        marks: Marks {
            room: cursor.marks.room,
            faults: cursor.marks.faults.clone()?,
        },
    };
    condition_then(alloc, source, behind)
}

/// Whether an assignment begins here. None does where an IF begins.
#[tactic(auto, unfolding(crate::specs::Reading::assigns))]
pub fn assigns(alloc: Global, source: &[u8], cursor: &Cursor) -> Result<Beginning, AllocError>
    ensures { IfOk result (λ b. b ≡ assigns source.now (cursor_of cursor.now)) }
{
    if begins_if(alloc, source, cursor)? {
        return Ok(Beginning::Differs);
    }
    begins_assignment(alloc, source, cursor)
}
