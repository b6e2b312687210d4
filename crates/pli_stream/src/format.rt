// Format lists, read with a loop: what is open stands on a stack, so that nothing nests in the reader however deep the
// lists are.

ghost use Rattle.std.specs.Prelude.{◌≡◌, IfOk};
ghost use Rattle.pli_language.specs.View.{format_of, formats_of};
ghost use Rattle.pli_phrase.specs.Answers.{Gives};
ghost use Rattle.pli_phrase.specs.View.{cursor_of, newest};
ghost use Rattle.pli_stream.specs.Reading as R;
ghost use Rattle.pli_stream.specs.Reading.{behind_item, formats_from, is_data, item_from, repeated};
ghost use Rattle.pli_stream.specs.View.{direction_of, item_of, outer_of, state_of, turn_of};

use crate::build::{listed, nested};
use crate::item::{checked, format, is_times, repetition};
use crate::parts::Direction;
use crate::state::{Item, Outer, State, Turn};
use pli_language::expr::Place;
use pli_language::stmt::{Format, Formats};
use pli_language::token::{Kind, Symbol};
use pli_phrase::cursor::Cursor;
use pli_phrase::stop::Stop;
use pli_phrase::token::{begins, place, taken};
use std::alloc::{AllocError, Global};

/// F and A move data.
#[tactic(auto, unfolding(pli_language::specs::View::format_of))]
fn is_data(format: &Format) -> bool
    ensures { result ≡ is_data (format_of format.now) }
{
    matches!(format, Format::Fixed { .. } | Format::Text { .. })
}

#[tactic(auto, using(pli_phrase::proofs::Newest::newest_none))]
fn start(alloc: Global) -> State
    ensures { state_of result ≡ R.start }
{
    State {
        is_due: true,
        items: Vec::new(alloc),
        outer: Vec::new(alloc),
        moves_data: false,
    }
}

/// Behind an item that is no list.
#[tactic(auto, using(pli_phrase::proofs::Newest::newest_snoc))]
fn with_item(
    state: State,
    place: Place,
    repetition: u32,
    format: Format,
) -> Result<State, AllocError>
    ensures { IfOk result (λ x. state_of x ≡ R.with_item (state_of state) place repetition (format_of format)) }
{
    let moves_data = state.moves_data || is_data(&format);
    let mut items = state.items;
    items.push(Item {
        place,
        repetition: u64::from(repetition),
        format,
    })?;
    Ok(State {
        is_due: false,
        items,
        outer: state.outer,
        moves_data,
    })
}

/// Behind a parenthesis that opens a list.
#[tactic(auto, using(pli_phrase::proofs::Newest::newest_snoc, pli_phrase::proofs::Newest::newest_none))]
fn opened(alloc: Global, state: State, place: Place, repetition: u32) -> Result<State, AllocError>
    ensures { IfOk result (λ x. state_of x ≡ R.opened (state_of state) place repetition) }
{
    let mut outer = state.outer;
    outer.push(Outer {
        items: state.items,
        place,
        repetition: u64::from(repetition),
    })?;
    Ok(State {
        is_due: true,
        items: Vec::new(alloc),
        outer,
        moves_data: state.moves_data,
    })
}

/// Behind a parenthesis that closes a list, with what stands around it.
#[tactic(auto, using(pli_phrase::proofs::Newest::newest_snoc, pli_phrase::proofs::Newest::newest_none))]
fn closed(alloc: Global, state: State) -> Result<Turn, AllocError>
    ensures { IfOk result (λ z. turn_of z ≡ R.closed (newest item_of state.items.items) (newest outer_of state.outer.items) state.moves_data) }
{
    let moves_data = state.moves_data;
    let mut outer = state.outer;
    let formats = listed(alloc, state.items)?;
    let Some(around) = outer.pop() else {
        return Ok(Turn::Closed {
            formats,
            moves_data,
        });
    };
    let mut items = around.items;
    items.push(Item {
        place: around.place,
        repetition: around.repetition,
        format: nested(alloc, formats)?,
    })?;
    Ok(Turn::On(State {
        is_due: false,
        items,
        outer,
        moves_data,
    }))
}

/// Behind the repetition of an item that began at the place.
fn repeated<'a>(
    alloc: Global,
    direction: Direction,
    state: State,
    place: Place,
    repetition: u32,
    cursor: Cursor<'a>,
) -> Result<(Turn, Cursor<'a>), Stop<'a>>
    ensures { Gives (λ x. (turn_of x.0, cursor_of x.1)) result (repeated (direction_of direction) (state_of state) place repetition (cursor_of cursor.entry)) }
{
    if begins(Kind::Symbol(Symbol::OpenParenthesis), &cursor) {
        let (_, cursor) = taken(Kind::Symbol(Symbol::OpenParenthesis), cursor)?;
        return Ok((Turn::On(opened(alloc, state, place, repetition)?), cursor));
    }
    let (format, cursor) = format(direction, place, cursor)?;
    Ok((
        Turn::On(with_item(state, place, repetition, format)?),
        cursor,
    ))
}

/// An item, up to the parenthesis that opens it where it is a list.
#[tactic(auto, unfolding(crate::specs::Reading::item_from))]
fn item<'a>(
    alloc: Global,
    direction: Direction,
    state: State,
    cursor: Cursor<'a>,
) -> Result<(Turn, Cursor<'a>), Stop<'a>>
    ensures { Gives (λ x. (turn_of x.0, cursor_of x.1)) result (item_from (direction_of direction) (state_of state) (cursor_of cursor.entry)) }
{
    let Some((first, _)) = cursor.tokens.split_first() else {
        return Err(Stop::Ended);
    };
    let at = place(first);
    let (times, cursor) = repetition(cursor)?;
    let cursor = checked(is_times(times), at, cursor)?;
    repeated(alloc, direction, state, at, times, cursor)
}

/// The comma or the parenthesis behind an item.
#[tactic(auto, unfolding(crate::specs::Reading::behind_item))]
fn behind_item<'a>(
    alloc: Global,
    state: State,
    cursor: Cursor<'a>,
) -> Result<(Turn, Cursor<'a>), Stop<'a>>
    ensures { Gives (λ x. (turn_of x.0, cursor_of x.1)) result (behind_item (state_of state) (cursor_of cursor.entry)) }
{
    if begins(Kind::Symbol(Symbol::Comma), &cursor) {
        let (_, cursor) = taken(Kind::Symbol(Symbol::Comma), cursor)?;
        let further = State {
            is_due: true,
            items: state.items,
            outer: state.outer,
            moves_data: state.moves_data,
        };
        return Ok((Turn::On(further), cursor));
    }
    let (_, cursor) = taken(Kind::Symbol(Symbol::CloseParenthesis), cursor)?;
    Ok((closed(alloc, state)?, cursor))
}

fn turn<'a>(
    alloc: Global,
    direction: Direction,
    state: State,
    cursor: Cursor<'a>,
) -> Result<(Turn, Cursor<'a>), Stop<'a>>
    ensures { Gives (λ x. (turn_of x.0, cursor_of x.1)) result (R.turn (direction_of direction) (state_of state) (cursor_of cursor.entry)) }
{
    if state.is_due {
        item(alloc, direction, state, cursor)
    } else {
        behind_item(alloc, state, cursor)
    }
}

/// What stands behind the open parenthesis of a format list, with the parenthesis that closes it, and whether an item of
/// it moves data.
pub fn formats<'a>(
    alloc: Global,
    direction: Direction,
    cursor: Cursor<'a>,
) -> Result<((Formats, bool), Cursor<'a>), Stop<'a>>
    ensures { Gives (λ x. ((formats_of x.0.0, x.0.1), cursor_of x.1)) result (formats_from (direction_of direction) (cursor_of cursor.entry)) }
{
    let mut state = start(alloc);
    let mut rest = cursor;
    'turns: loop {
        let (turn, behind) = turn(alloc, direction, state, rest)?;
        match turn {
            Turn::On(next) => {
                state = next;
                rest = behind;
            }
            Turn::Closed {
                formats,
                moves_data,
            } => return Ok(((formats, moves_data), behind)),
        }
    }
}
