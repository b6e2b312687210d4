// A, texts in fields: service 37.

ghost use Rattle.std.specs.Prelude.{◌≡◌, ◌∷◌, Some, List, MatchResult, ℕ, IfErr, IfOk, false};
ghost use Rattle.pli_answering.specs.Answering.{Answers};
ghost use Rattle.pli_edit.specs.FormatPlaces.{item_of};
ghost use Rattle.pli_meaning.specs.InputLines.{Input as LineInput};
ghost use Rattle.pli_serving.specs.Edits as edits;
ghost use Rattle.pli_serving.specs.Edits.{NextItem};
ghost use Rattle.pli_serving.specs.Finding.{Call};
ghost use Rattle.pli_serving.specs.ServiceState.{EditPlace, Putting, TextEntry};
ghost use Rattle.pli_services.specs.Shown.{world_of};
ghost use Rattle.pli_transmission.specs.Transmitting.{on_edit, on_entries, text_of, IsTopGot, IsTopWritten};

use crate::edit::{Direction, Edit};
use crate::item::text_width;
use pli_answering::reply::{Refusal, Reply};
use pli_edit::fault::EditFault;
use pli_edit::format::Format;
use pli_edit::input_stream::InputStream;
use pli_edit::output_stream::OutputStream;
use pli_entries::entries::Entries;
use pli_services::shown::{Shown, written};

/// The newest text is written behind the output, and dropped.
fn put_top<O: OutputStream>(
    entries: &mut Entries,
    output: &mut O,
    width: Option<u32>,
) -> Result<(), Refusal>
    ensures written { IsTopWritten width entries.old (O.output output.old) result entries.new (O.output output.new) }
    ensures grows { O.grows output.old output.new }
{
    let Some(text) = entries.newest_text() else {
        return Err(Refusal::Bad);
    };
    written(output.put_a(text, width))?;
    entries.drop_text();
    Ok(())
}

/// PUT: the newest text is dropped and written, and the place is behind the item.
fn put<O: OutputStream>(
    edit: &mut Edit,
    entries: &mut Entries,
    shown: &mut Shown<O>,
    width: Option<u32>,
    first: u32,
    second: u32,
) -> Result<Reply, Refusal>
    ensures answers { (c : Call) → (input : LineInput) → (n : NextItem) → (below : List EditPlace) →
        edit.old.next ≡ Some n →
        Answers (λ c. edits.text_put c first second width (n.behind ∷ below))
        (on_entries entries.old (on_edit (world_of O.output shown.old) input edit.old below c)) result
        (on_entries entries.new (on_edit (world_of O.output shown.new) input edit.new below c)) }
    ensures kept { IfErr result (λ _. world_of O.output shown.new ≡ world_of O.output shown.old) }
    ensures grows { O.grows shown.old.output shown.new.output }
{
    let acts = shown.acts;
    shown.count()?;
    match put_top(entries, &mut shown.output, width) {
        Ok(()) => {
            edit.advance();
            Ok(Reply::Done(first, second))
        }
        Err(refusal) => {
            shown.acts = acts;
            Err(refusal)
        }
    }
}

/// A field becomes the newest text.
fn push_field(entries: &mut Entries, field: &[u8]) -> Result<(), Refusal>
    ensures { MatchResult result (λ _. entries.new ≡ TextEntry field.now ∷ entries.old)
        (λ e. (e ≡ Refusal.Memory) × (entries.new ≡ entries.old)) }
{
    match entries.push_text(field) {
        Ok(()) => Ok(()),
        Err(_) => Err(Refusal::Memory),
    }
}

/// A field is taken into a text that is there before it, so that none is lost where there is no memory for it.
fn get_apart<I: InputStream>(
    entries: &mut Entries,
    input: &mut I,
    width: u32,
) -> Result<(), Refusal>
    ensures got { (all : List ℕ) → I.agrees input.new all → I.has_failed input.new ≡ false →
        IsTopGot width entries.old (I.input input.old all) result entries.new (I.input input.new all) }
    ensures follows { I.follows input.old input.new }
    ensures whole { IfOk result (λ _. I.has_failed input.old ≡ false → I.has_failed input.new ≡ false) }
{
    if entries.push_blanks(width).is_err() {
        return Err(Refusal::Memory);
    }
    match input.get_a(width) {
        Ok(field) => {
            entries.overwrite_text(&field);
            Ok(())
        }
        Err(EditFault::AtEnd) => {
            entries.drop_text();
            Err(Refusal::Bad)
        }
        Err(_) => {
            entries.drop_text();
            Err(Refusal::Memory)
        }
    }
}

/// A field is taken and becomes the newest text. Where it stands in one line it is pushed as it stands there.
fn get_top<I: InputStream>(entries: &mut Entries, input: &mut I, width: u32) -> Result<(), Refusal>
    ensures got { (all : List ℕ) → I.agrees input.new all → I.has_failed input.new ≡ false →
        IsTopGot width entries.old (I.input input.old all) result entries.new (I.input input.new all) }
    ensures follows { I.follows input.old input.new }
    ensures whole { IfOk result (λ _. I.has_failed input.old ≡ false → I.has_failed input.new ≡ false) }
{
    if let Some(field) = input.line_field(width) {
        push_field(entries, field)?;
        input.pass_line_field(width);
        return Ok(());
    }
    get_apart(entries, input, width)
}

/// GET: the field is taken and becomes the newest text, and the place is behind the item.
fn get_field<I: InputStream, O: OutputStream>(
    edit: &mut Edit,
    entries: &mut Entries,
    input: &mut I,
    shown: &mut Shown<O>,
    width: u32,
    first: u32,
    second: u32,
) -> Result<Reply, Refusal>
    ensures answers { (c : Call) → (all : List ℕ) → I.agrees input.new all → I.has_failed input.new ≡ false →
        (n : NextItem) → (below : List EditPlace) →
        edit.old.next ≡ Some n →
        Answers (λ c. edits.text_got c first second (Some width) (n.behind ∷ below))
        (on_entries entries.old (on_edit (world_of O.output shown.old) (I.input input.old all) edit.old below c))
        result (on_entries entries.new
        (on_edit (world_of O.output shown.new) (I.input input.new all) edit.new below c)) }
    ensures follows { I.follows input.old input.new }
    ensures kept { MatchResult result (λ _. I.has_failed input.old ≡ false → I.has_failed input.new ≡ false)
        (λ _. world_of O.output shown.new ≡ world_of O.output shown.old) }
    ensures grows { O.grows shown.old.output shown.new.output }
{
    let acts = shown.acts;
    shown.count()?;
    match get_top(entries, input, width) {
        Ok(()) => {
            edit.advance();
            Ok(Reply::Done(first, second))
        }
        Err(refusal) => {
            shown.acts = acts;
            Err(refusal)
        }
    }
}

/// GET: an item without a width is no right call.
fn get<I: InputStream, O: OutputStream>(
    edit: &mut Edit,
    entries: &mut Entries,
    input: &mut I,
    shown: &mut Shown<O>,
    width: Option<u32>,
    first: u32,
    second: u32,
) -> Result<Reply, Refusal>
    ensures answers { (c : Call) → (all : List ℕ) → I.agrees input.new all → I.has_failed input.new ≡ false →
        (n : NextItem) → (below : List EditPlace) →
        edit.old.next ≡ Some n →
        Answers (λ c. edits.text_got c first second width (n.behind ∷ below))
        (on_entries entries.old (on_edit (world_of O.output shown.old) (I.input input.old all) edit.old below c))
        result (on_entries entries.new
        (on_edit (world_of O.output shown.new) (I.input input.new all) edit.new below c)) }
    ensures follows { I.follows input.old input.new }
    ensures kept { MatchResult result (λ _. I.has_failed input.old ≡ false → I.has_failed input.new ≡ false)
        (λ _. world_of O.output shown.new ≡ world_of O.output shown.old) }
    ensures grows { O.grows shown.old.output shown.new.output }
{
    match width {
        Some(width) => get_field(edit, entries, input, shown, width, first, second),
        None => Err(Refusal::Bad),
    }
}

/// A of a width in either direction.
fn text_field<I: InputStream, O: OutputStream>(
    edit: &mut Edit,
    entries: &mut Entries,
    input: &mut I,
    shown: &mut Shown<O>,
    width: Option<u32>,
    first: u32,
    second: u32,
) -> Result<Reply, Refusal>
    ensures answers { (c : Call) → (all : List ℕ) → I.agrees input.new all → I.has_failed input.new ≡ false →
        (n : NextItem) → (below : List EditPlace) →
        edit.old.next ≡ Some n →
        Answers (λ c. text_of c first second edit.old.place.direction width (n.behind ∷ below))
        (on_entries entries.old (on_edit (world_of O.output shown.old) (I.input input.old all) edit.old below c))
        result (on_entries entries.new
        (on_edit (world_of O.output shown.new) (I.input input.new all) edit.new below c)) }
    ensures follows { I.follows input.old input.new }
    ensures unread { edit.old.place.direction ≡ Putting → input.new ≡ input.old }
    ensures kept { MatchResult result (λ _. I.has_failed input.old ≡ false → I.has_failed input.new ≡ false)
        (λ _. world_of O.output shown.new ≡ world_of O.output shown.old) }
    ensures grows { O.grows shown.old.output shown.new.output }
{
    match edit.direction() {
        Direction::Putting => put(edit, entries, shown, width, first, second),
        Direction::Getting => get(edit, entries, input, shown, width, first, second),
    }
}

/// The next item, which is to be A.
fn text_next<I: InputStream, O: OutputStream>(
    edit: &mut Edit,
    entries: &mut Entries,
    input: &mut I,
    shown: &mut Shown<O>,
    format: Format,
    first: u32,
    second: u32,
) -> Result<Reply, Refusal>
    ensures answers { (c : Call) → (all : List ℕ) → I.agrees input.new all → I.has_failed input.new ≡ false →
        (n : NextItem) → (below : List EditPlace) →
        edit.old.next ≡ Some n → n.behind.direction ≡ edit.old.place.direction → n.item ≡ item_of format →
        Answers (λ c. edits.text_by c first second n.behind.direction n.item (n.behind ∷ below))
        (on_entries entries.old (on_edit (world_of O.output shown.old) (I.input input.old all) edit.old below c))
        result (on_entries entries.new
        (on_edit (world_of O.output shown.new) (I.input input.new all) edit.new below c)) }
    ensures follows { I.follows input.old input.new }
    ensures unread { edit.old.place.direction ≡ Putting → input.new ≡ input.old }
    ensures kept { MatchResult result (λ _. I.has_failed input.old ≡ false → I.has_failed input.new ≡ false)
        (λ _. world_of O.output shown.new ≡ world_of O.output shown.old) }
    ensures grows { O.grows shown.old.output shown.new.output }
{
    match text_width(format) {
        Some(width) => text_field(edit, entries, input, shown, width, first, second),
        None => Err(Refusal::Bad),
    }
}

/// 37: A. PUT drops and writes the newest text; GET takes the field, which becomes the newest text. Without memory
/// nothing changed.
pub fn text<I: InputStream, O: OutputStream>(
    edit: &mut Edit,
    entries: &mut Entries,
    input: &mut I,
    shown: &mut Shown<O>,
    first: u32,
    second: u32,
) -> Result<Reply, Refusal>
    ensures answers { (c : Call) → (all : List ℕ) → I.agrees input.new all → I.has_failed input.new ≡ false →
        (below : List EditPlace) →
        Answers (λ c. edits.text_served c first second)
        (on_entries entries.old (on_edit (world_of O.output shown.old) (I.input input.old all) edit.old below c))
        result (on_entries entries.new
        (on_edit (world_of O.output shown.new) (I.input input.new all) edit.new below c)) }
    ensures follows { I.follows input.old input.new }
    ensures unread { edit.old.place.direction ≡ Putting → input.new ≡ input.old }
    ensures kept { MatchResult result (λ _. I.has_failed input.old ≡ false → I.has_failed input.new ≡ false)
        (λ _. world_of O.output shown.new ≡ world_of O.output shown.old) }
    ensures grows { O.grows shown.old.output shown.new.output }
{
    let Ok(found) = edit.reach() else {
        return Err(Refusal::Memory);
    };
    match found {
        Some(format) => text_next(edit, entries, input, shown, format, first, second),
        None => Err(Refusal::Bad),
    }
}
