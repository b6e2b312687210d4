// F, numbers in fields: service 36.

ghost use Rattle.std.specs.Prelude.{◌≡◌, ◌∷◌, Some, List, MatchResult, is_some, ℕ, IfErr, false};
ghost use Rattle.rv_meaning.specs.Words.{signed};
ghost use Rattle.pli_answering.specs.Answering.{Answers};
ghost use Rattle.pli_edit.specs.FormatPlaces.{item_of};
ghost use Rattle.pli_meaning.specs.InputLines.{Input as LineInput};
ghost use Rattle.pli_meaning.specs.Stream.{fixed_field};
ghost use Rattle.pli_serving.specs.Edits as edits;
ghost use Rattle.pli_serving.specs.Edits.{NextItem, next_item};
ghost use Rattle.pli_serving.specs.Finding.{Call};
ghost use Rattle.pli_serving.specs.ServiceState.{EditPlace, Putting};
ghost use Rattle.pli_services.specs.Shown.{world_of};
ghost use Rattle.pli_transmission.specs.Transmitting.{fixed_of, on_edit};

use crate::edit::{Direction, Edit};
use crate::item::fixed_width;
use crate::writing::write_number;
use itoa::Buffer;
use pli_answering::reply::{Refusal, Reply};
use pli_edit::fault::EditFault;
use pli_edit::format::Format;
use pli_edit::input_stream::InputStream;
use pli_edit::output_stream::OutputStream;
use pli_services::shown::Shown;
use pli_text::number::decimal;

/// The code of an error: a field that is too narrow for its number.
const TOO_WIDE: u32 = 105;

/// The code of CONVERSION: a field that stands for no number.
const NOT_NUMBER: u32 = 104;

/// Whether a number has room in a field.
fn has_room(width: u32, number: u32) -> bool
    ensures { result ≡ is_some (fixed_field width (signed number)) }
{
    let mut buffer = Buffer::new();
    let digits = decimal(&mut buffer, number.cast_signed());
    digits.len() <= width as usize
}

/// PUT: the number is written, and the place is behind the item.
fn write<O: OutputStream>(
    edit: &mut Edit,
    shown: &mut Shown<O>,
    width: u32,
    number: u32,
) -> Result<Reply, Refusal>
    ensures answers { (c : Call) → (input : LineInput) → (n : NextItem) → (below : List EditPlace) →
        edit.old.next ≡ Some n →
        Answers (λ c. edits.number_put c number 1 (fixed_field width (signed number)) (n.behind ∷ below))
        (on_edit (world_of O.output shown.old) input edit.old below c) result
        (on_edit (world_of O.output shown.new) input edit.new below c) }
    ensures kept { IfErr result (λ _. world_of O.output shown.new ≡ world_of O.output shown.old) }
    ensures grows { O.grows shown.old.output shown.new.output }
{
    write_number(shown, number.cast_signed(), width)?;
    edit.advance();
    Ok(Reply::Done(number, 1))
}

/// PUT: whether the field is wide enough with mode 0; with 1 the number is written.
fn put<O: OutputStream>(
    edit: &mut Edit,
    shown: &mut Shown<O>,
    width: u32,
    number: u32,
    mode: u32,
) -> Result<Reply, Refusal>
    ensures answers { (c : Call) → (input : LineInput) → (n : NextItem) → (below : List EditPlace) →
        edit.old.next ≡ Some n →
        Answers (λ c. edits.number_put c number mode (fixed_field width (signed number)) (n.behind ∷ below))
        (on_edit (world_of O.output shown.old) input edit.old below c) result
        (on_edit (world_of O.output shown.new) input edit.new below c) }
    ensures kept { IfErr result (λ _. world_of O.output shown.new ≡ world_of O.output shown.old) }
    ensures grows { O.grows shown.old.output shown.new.output }
{
    match mode {
        0 => {
            let status = if has_room(width, number) { 0 } else { TOO_WIDE };
            Ok(Reply::Done(number, status))
        }
        1 => write(edit, shown, width, number),
        _ => Err(Refusal::Bad),
    }
}

/// GET: the field is taken, and its number told.
fn get<I: InputStream, O: OutputStream>(
    edit: &mut Edit,
    input: &mut I,
    shown: &mut Shown<O>,
    width: u32,
    first: u32,
) -> Result<Reply, Refusal>
    ensures answers { (c : Call) → (all : List ℕ) → I.agrees input.new all → I.has_failed input.new ≡ false →
        (n : NextItem) → (below : List EditPlace) →
        edit.old.next ≡ Some n →
        Answers (λ c. edits.number_got c width first (n.behind ∷ below))
        (on_edit (world_of O.output shown.old) (I.input input.old all) edit.old below c) result
        (on_edit (world_of O.output shown.new) (I.input input.new all) edit.new below c) }
    ensures follows { I.follows input.old input.new }
    ensures kept { MatchResult result (λ _. I.has_failed input.old ≡ false → I.has_failed input.new ≡ false)
        (λ _. world_of O.output shown.new ≡ world_of O.output shown.old) }
    ensures grows { O.grows shown.old.output shown.new.output }
{
    let acts = shown.acts;
    shown.count()?;
    match input.get_f(width) {
        Ok(number) => {
            edit.advance();
            Ok(Reply::Done(number.cast_unsigned(), 0))
        }
        Err(EditFault::NotNumber) => {
            edit.advance();
            Ok(Reply::Done(first, NOT_NUMBER))
        }
        Err(EditFault::AtEnd) => {
            shown.acts = acts;
            Err(Refusal::Bad)
        }
        Err(_) => {
            shown.acts = acts;
            Err(Refusal::Memory)
        }
    }
}

/// F of a width in either direction.
fn fixed_field<I: InputStream, O: OutputStream>(
    edit: &mut Edit,
    input: &mut I,
    shown: &mut Shown<O>,
    width: u32,
    first: u32,
    second: u32,
) -> Result<Reply, Refusal>
    ensures answers { (c : Call) → (all : List ℕ) → I.agrees input.new all → I.has_failed input.new ≡ false →
        (n : NextItem) → (below : List EditPlace) →
        edit.old.next ≡ Some n →
        Answers (λ c. fixed_of c first second edit.old.place.direction width (n.behind ∷ below))
        (on_edit (world_of O.output shown.old) (I.input input.old all) edit.old below c) result
        (on_edit (world_of O.output shown.new) (I.input input.new all) edit.new below c) }
    ensures follows { I.follows input.old input.new }
    ensures unread { edit.old.place.direction ≡ Putting → input.new ≡ input.old }
    ensures kept { MatchResult result (λ _. I.has_failed input.old ≡ false → I.has_failed input.new ≡ false)
        (λ _. world_of O.output shown.new ≡ world_of O.output shown.old) }
    ensures grows { O.grows shown.old.output shown.new.output }
{
    match edit.direction() {
        Direction::Putting => put(edit, shown, width, first, second),
        Direction::Getting => get(edit, input, shown, width, first),
    }
}

/// The next item, which is to be F.
fn fixed_next<I: InputStream, O: OutputStream>(
    edit: &mut Edit,
    input: &mut I,
    shown: &mut Shown<O>,
    format: Format,
    first: u32,
    second: u32,
) -> Result<Reply, Refusal>
    ensures answers { (c : Call) → (all : List ℕ) → I.agrees input.new all → I.has_failed input.new ≡ false →
        (n : NextItem) → (below : List EditPlace) →
        edit.old.next ≡ Some n → n.behind.direction ≡ edit.old.place.direction → n.item ≡ item_of format →
        Answers (λ c. edits.fixed_by c first second n.behind.direction n.item (n.behind ∷ below))
        (on_edit (world_of O.output shown.old) (I.input input.old all) edit.old below c) result
        (on_edit (world_of O.output shown.new) (I.input input.new all) edit.new below c) }
    ensures follows { I.follows input.old input.new }
    ensures unread { edit.old.place.direction ≡ Putting → input.new ≡ input.old }
    ensures kept { MatchResult result (λ _. I.has_failed input.old ≡ false → I.has_failed input.new ≡ false)
        (λ _. world_of O.output shown.new ≡ world_of O.output shown.old) }
    ensures grows { O.grows shown.old.output shown.new.output }
{
    match fixed_width(format) {
        Some(width) => fixed_field(edit, input, shown, width, first, second),
        None => Err(Refusal::Bad),
    }
}

/// 36: F. PUT asks with mode 0 whether the field is wide enough, and writes the number with 1; GET takes the field and
/// tells its number, or that it is none.
pub fn fixed<I: InputStream, O: OutputStream>(
    edit: &mut Edit,
    input: &mut I,
    shown: &mut Shown<O>,
    first: u32,
    second: u32,
) -> Result<Reply, Refusal>
    ensures answers { (c : Call) → (all : List ℕ) → I.agrees input.new all → I.has_failed input.new ≡ false →
        (below : List EditPlace) →
        Answers (λ c. edits.fixed_served c first second)
        (on_edit (world_of O.output shown.old) (I.input input.old all) edit.old below c) result
        (on_edit (world_of O.output shown.new) (I.input input.new all) edit.new below c) }
    ensures follows { I.follows input.old input.new }
    ensures unread { edit.old.place.direction ≡ Putting → input.new ≡ input.old }
    ensures kept { MatchResult result (λ _. I.has_failed input.old ≡ false → I.has_failed input.new ≡ false)
        (λ _. world_of O.output shown.new ≡ world_of O.output shown.old) }
    ensures grows { O.grows shown.old.output shown.new.output }
{
    let Ok(found) = edit.reach() else {
        return Err(Refusal::Memory);
    };
    match found {
        Some(format) => fixed_next(edit, input, shown, format, first, second),
        None => Err(Refusal::Bad),
    }
}
