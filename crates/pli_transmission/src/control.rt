// Control items, which move in the stream: service 35.

ghost use Rattle.std.specs.Prelude.{◌≡◌, Some, None, MatchResult, List, ℕ, IfErr, IfOk, false};
ghost use Rattle.pli_answering.specs.Answering.{Answers};
ghost use Rattle.pli_edit.specs.Faults.{is_fault, is_read};
ghost use Rattle.pli_edit.specs.FormatPlaces.{item_of};
ghost use Rattle.pli_meaning.specs.InputLines.{Input as LineInput};
ghost use Rattle.pli_meaning.specs.Streaming.{control_read, ControlFormat};
ghost use Rattle.pli_meaning.specs.World.{World};
ghost use Rattle.pli_services.specs.Shown.{world_of, Acts};
ghost use Rattle.pli_serving.specs.Edits as edits;
ghost use Rattle.pli_serving.specs.Edits.{NextItem, item_number, next_item};
ghost use Rattle.pli_serving.specs.Finding.{Call};
ghost use Rattle.pli_serving.specs.ServiceState.{EditPlace, Getting, Putting};
ghost use Rattle.pli_transmission.specs.Edits.{direction_shown};
ghost use Rattle.pli_transmission.specs.Items.{control_in, control_shown, moved_input, moved_world};
ghost use Rattle.pli_transmission.specs.Transmitting.{on_edit};

use crate::edit::{Direction, Edit};
use crate::item::{Control, control_of, item_left, item_number};
use crate::writing::write_control;
use pli_answering::reply::{Refusal, Reply};
use pli_edit::fault::EditFault;
use pli_edit::format::Format;
use pli_edit::input_stream::InputStream;
use pli_edit::output_stream::OutputStream;
use pli_services::shown::Shown;

/// A control item of GET.
fn read_control<I: InputStream>(input: &mut I, control: Control) -> Result<(), EditFault>
    ensures follows { I.follows input.old input.new }
    ensures failed { I.has_failed input.new ≡ is_fault is_read result }
    ensures moved { MatchResult result
        (λ _. (all : List ℕ) → I.agrees input.new all →
        I.input input.new all ≡ control_read (control_shown control) (I.input input.old all))
        (λ e. e ≡ EditFault.Read) }
{
    match control {
        Control::Space(count) => input.space(count),
        Control::Skip(count) => input.skip(count),
        Control::Column(column) => input.column(column),
    }
}

/// The act of a control item of GET. `Memory` where a read failed, and then no act is made.
fn read_act<I: InputStream, O: OutputStream>(
    control: Control,
    input: &mut I,
    shown: &mut Shown<O>,
) -> Result<(), Refusal>
    ensures world { Acts (world_of O.output shown.old)
        (moved_world Getting (control_shown control) (world_of O.output shown.old)) result
        (world_of O.output shown.new) }
    ensures follows { I.follows input.old input.new }
    ensures whole { IfOk result (λ _. I.has_failed input.old ≡ false → I.has_failed input.new ≡ false) }
    ensures input { (all : List ℕ) → I.agrees input.new all → MatchResult result
        (λ _. I.input input.new all ≡ moved_input Getting (control_shown control) (I.input input.old all))
        (λ _. I.has_failed input.new ≡ false → I.input input.new all ≡ I.input input.old all) }
    ensures grows { O.grows shown.old.output shown.new.output }
{
    let acts = shown.acts;
    shown.count()?;
    match read_control(input, control) {
        Ok(()) => Ok(()),
        Err(_) => {
            shown.acts = acts;
            Err(Refusal::Memory)
        }
    }
}

/// The act of a control item. `Memory` where a read failed, and then no act is made.
pub fn move_by<I: InputStream, O: OutputStream>(
    direction: Direction,
    control: Control,
    input: &mut I,
    shown: &mut Shown<O>,
) -> Result<(), Refusal>
    ensures world { Acts (world_of O.output shown.old)
        (moved_world (direction_shown direction) (control_shown control) (world_of O.output shown.old)) result
        (world_of O.output shown.new) }
    ensures follows { I.follows input.old input.new }
    ensures whole { IfOk result (λ _. I.has_failed input.old ≡ false → I.has_failed input.new ≡ false) }
    ensures unread { direction_shown direction ≡ Putting → input.new ≡ input.old }
    ensures input { (all : List ℕ) → I.agrees input.new all → MatchResult result
        (λ _. I.input input.new all ≡ moved_input (direction_shown direction) (control_shown control)
        (I.input input.old all))
        (λ _. I.has_failed input.new ≡ false → I.input input.new all ≡ I.input input.old all) }
    ensures grows { O.grows shown.old.output shown.new.output }
{
    match direction {
        Direction::Getting => read_act(control, input, shown),
        Direction::Putting => write_control(shown, control),
    }
}

/// PUT: a control item is carried out, behind which another item comes.
fn put_before<O: OutputStream>(
    edit: &mut Edit,
    shown: &mut Shown<O>,
    control: Control,
    behind: Format,
    second: u32,
) -> Result<Reply, Refusal>
    ensures answers { (c : Call) → (input : LineInput) → (n m : NextItem) → (below : List EditPlace) →
        edit.old.next ≡ Some n → n.behind.direction ≡ Putting → next_item n.behind ≡ Some m →
        m.item ≡ item_of behind →
        Answers (λ c. edits.control_carried_out c second (ControlFormat (control_shown control)) n.behind below)
        (on_edit (world_of O.output shown.old) input edit.old below c) result
        (on_edit (world_of O.output shown.new) input edit.new below c) }
    ensures kept { IfErr result (λ _. world_of O.output shown.new ≡ world_of O.output shown.old) }
    ensures grows { O.grows shown.old.output shown.new.output }
{
    write_control(shown, control)?;
    edit.advance();
    Ok(Reply::Done(item_number(behind), second))
}

/// A control item of GET is carried out, and what comes behind it is told.
fn read_before<I: InputStream>(
    input: &mut I,
    control: Control,
    behind: Format,
) -> Result<u32, EditFault>
    ensures follows { I.follows input.old input.new }
    ensures failed { I.has_failed input.new ≡ is_fault is_read result }
    ensures told { MatchResult result
        (λ told. (all : List ℕ) → I.agrees input.new all →
        (I.input input.new all ≡ control_read (control_shown control) (I.input input.old all))
        × (told ≡ item_number Getting (control_read (control_shown control) (I.input input.old all))
        (item_of behind)))
        (λ e. e ≡ EditFault.Read) }
{
    read_control(input, control)?;
    item_left(input, behind)
}

/// GET: a control item is carried out, behind which another item comes.
fn get_before<I: InputStream, O: OutputStream>(
    edit: &mut Edit,
    input: &mut I,
    shown: &mut Shown<O>,
    control: Control,
    behind: Format,
    second: u32,
) -> Result<Reply, Refusal>
    ensures answers { (c : Call) → (all : List ℕ) → I.agrees input.new all → I.has_failed input.new ≡ false →
        (n m : NextItem) → (below : List EditPlace) → edit.old.next ≡ Some n → n.behind.direction ≡ Getting →
        next_item n.behind ≡ Some m → m.item ≡ item_of behind →
        Answers (λ c. edits.control_carried_out c second (ControlFormat (control_shown control)) n.behind below)
        (on_edit (world_of O.output shown.old) (I.input input.old all) edit.old below c) result
        (on_edit (world_of O.output shown.new) (I.input input.new all) edit.new below c) }
    ensures follows { I.follows input.old input.new }
    ensures kept { MatchResult result (λ _. I.has_failed input.old ≡ false → I.has_failed input.new ≡ false)
        (λ _. world_of O.output shown.new ≡ world_of O.output shown.old) }
    ensures grows { O.grows shown.old.output shown.new.output }
{
    let acts = shown.acts;
    shown.count()?;
    match read_before(input, control, behind) {
        Ok(number) => {
            edit.advance();
            Ok(Reply::Done(number, second))
        }
        Err(_) => {
            shown.acts = acts;
            Err(Refusal::Memory)
        }
    }
}

/// The next item, which is a control item, is carried out; behind it another one comes.
fn carry_out_before<I: InputStream, O: OutputStream>(
    edit: &mut Edit,
    input: &mut I,
    shown: &mut Shown<O>,
    control: Control,
    behind: Format,
    second: u32,
) -> Result<Reply, Refusal>
    ensures answers { (c : Call) → (all : List ℕ) → I.agrees input.new all → I.has_failed input.new ≡ false →
        (n m : NextItem) → (below : List EditPlace) → edit.old.next ≡ Some n →
        n.behind.direction ≡ edit.old.place.direction → next_item n.behind ≡ Some m → m.item ≡ item_of behind →
        Answers (λ c. edits.control_carried_out c second (ControlFormat (control_shown control)) n.behind below)
        (on_edit (world_of O.output shown.old) (I.input input.old all) edit.old below c) result
        (on_edit (world_of O.output shown.new) (I.input input.new all) edit.new below c) }
    ensures follows { I.follows input.old input.new }
    ensures unread { edit.old.place.direction ≡ Putting → input.new ≡ input.old }
    ensures kept { MatchResult result (λ _. I.has_failed input.old ≡ false → I.has_failed input.new ≡ false)
        (λ _. world_of O.output shown.new ≡ world_of O.output shown.old) }
    ensures grows { O.grows shown.old.output shown.new.output }
{
    match edit.direction() {
        Direction::Getting => get_before(edit, input, shown, control, behind, second),
        Direction::Putting => put_before(edit, shown, control, behind, second),
    }
}

/// The next item, which is a control item, is carried out.
fn carry_out<I: InputStream, O: OutputStream>(
    edit: &mut Edit,
    input: &mut I,
    shown: &mut Shown<O>,
    control: Control,
    second: u32,
) -> Result<Reply, Refusal>
    ensures answers { (c : Call) → (all : List ℕ) → I.agrees input.new all → I.has_failed input.new ≡ false →
        (n : NextItem) → (below : List EditPlace) → edit.old.next ≡ Some n →
        n.behind.direction ≡ edit.old.place.direction →
        Answers (λ c. edits.control_carried_out c second (ControlFormat (control_shown control)) n.behind below)
        (on_edit (world_of O.output shown.old) (I.input input.old all) edit.old below c) result
        (on_edit (world_of O.output shown.new) (I.input input.new all) edit.new below c) }
    ensures follows { I.follows input.old input.new }
    ensures unread { edit.old.place.direction ≡ Putting → input.new ≡ input.old }
    ensures kept { MatchResult result (λ _. I.has_failed input.old ≡ false → I.has_failed input.new ≡ false)
        (λ _. world_of O.output shown.new ≡ world_of O.output shown.old) }
    ensures grows { O.grows shown.old.output shown.new.output }
{
    let Ok(found) = edit.beyond() else {
        return Err(Refusal::Memory);
    };
    match found {
        Some(behind) => carry_out_before(edit, input, shown, control, behind, second),
        None => Err(Refusal::Bad),
    }
}

/// The next item, which is none of control, is told.
fn tell_next<I: InputStream>(
    edit: &Edit,
    input: &mut I,
    format: Format,
    second: u32,
) -> Result<Reply, Refusal>
    ensures answers { (c : Call) → (world : World) → (all : List ℕ) → I.agrees input.new all →
        I.has_failed input.new ≡ false → (n : NextItem) → (below : List EditPlace) →
        next_item edit.now.place ≡ Some n → n.item ≡ item_of format → None ≡ control_in n.item →
        Answers (λ c. edits.control_carried_out c second n.item n.behind below)
        (on_edit world (I.input input.old all) edit.now below c) result
        (on_edit world (I.input input.new all) edit.now below c) }
    ensures follows { I.follows input.old input.new }
    ensures unread { edit.now.place.direction ≡ Putting → input.new ≡ input.old }
    ensures whole { IfOk result (λ _. I.has_failed input.old ≡ false → I.has_failed input.new ≡ false) }
{
    match edit.direction() {
        Direction::Putting => Ok(Reply::Done(item_number(format), second)),
        Direction::Getting => match item_left(input, format) {
            Ok(number) => Ok(Reply::Done(number, second)),
            Err(_) => Err(Refusal::Memory),
        },
    }
}

/// The next item is carried out if it is a control item, and what is next then is told.
fn control_next<I: InputStream, O: OutputStream>(
    edit: &mut Edit,
    input: &mut I,
    shown: &mut Shown<O>,
    format: Format,
    second: u32,
) -> Result<Reply, Refusal>
    ensures answers { (c : Call) → (all : List ℕ) → I.agrees input.new all → I.has_failed input.new ≡ false →
        (n : NextItem) → (below : List EditPlace) → edit.old.next ≡ Some n →
        next_item edit.old.place ≡ Some n → n.item ≡ item_of format →
        Answers (λ c. edits.control_carried_out c second n.item n.behind below)
        (on_edit (world_of O.output shown.old) (I.input input.old all) edit.old below c) result
        (on_edit (world_of O.output shown.new) (I.input input.new all) edit.new below c) }
    ensures follows { I.follows input.old input.new }
    ensures unread { edit.old.place.direction ≡ Putting → input.new ≡ input.old }
    ensures kept { MatchResult result (λ _. I.has_failed input.old ≡ false → I.has_failed input.new ≡ false)
        (λ _. world_of O.output shown.new ≡ world_of O.output shown.old) }
    ensures grows { O.grows shown.old.output shown.new.output }
{
    match control_of(format) {
        Some(control) => carry_out(edit, input, shown, control, second),
        None => tell_next(edit, input, format, second),
    }
}

/// 35: a control item that is next is carried out; then what is next is told.
pub fn control<I: InputStream, O: OutputStream>(
    edit: &mut Edit,
    input: &mut I,
    shown: &mut Shown<O>,
    second: u32,
) -> Result<Reply, Refusal>
    ensures answers { (c : Call) → (all : List ℕ) → I.agrees input.new all → I.has_failed input.new ≡ false →
        (below : List EditPlace) →
        Answers (λ c. edits.control_served c second)
        (on_edit (world_of O.output shown.old) (I.input input.old all) edit.old below c) result
        (on_edit (world_of O.output shown.new) (I.input input.new all) edit.new below c) }
    ensures follows { I.follows input.old input.new }
    ensures unread { edit.old.place.direction ≡ Putting → input.new ≡ input.old }
    ensures kept { MatchResult result (λ _. I.has_failed input.old ≡ false → I.has_failed input.new ≡ false)
        (λ _. world_of O.output shown.new ≡ world_of O.output shown.old) }
    ensures grows { O.grows shown.old.output shown.new.output }
{
    let Ok(found) = edit.reach() else {
        return Err(Refusal::Memory);
    };
    match found {
        Some(format) => control_next(edit, input, shown, format, second),
        None => Err(Refusal::Bad),
    }
}
