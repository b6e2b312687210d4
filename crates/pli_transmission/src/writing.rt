// Acts that write behind the output.

ghost use Rattle.std.specs.Prelude.{◌≡◌};
ghost use Rattle.pli_edit.specs.Fields.{text_field};
ghost use Rattle.pli_edit.specs.OutputStreams.{IsWrittenOn};
ghost use Rattle.pli_meaning.specs.Stream.{fixed_field, with_field};
ghost use Rattle.pli_meaning.specs.Streaming.{control_written};
ghost use Rattle.pli_meaning.specs.World as world;
ghost use Rattle.pli_services.specs.Shown.{world_of, Acts};
ghost use Rattle.pli_transmission.specs.Items.{control_shown};
ghost use Rattle.pli_transmission.specs.Transmitting.{IsNumberWritten};

use crate::item::Control;
use pli_answering::reply::Refusal;
use pli_edit::fault::EditFault;
use pli_edit::output_stream::OutputStream;
use pli_services::shown::{Shown, written};

/// A control item behind the output. `Memory` where there is none, and then nothing changed.
fn put_control<O: OutputStream>(output: &mut O, control: Control) -> Result<(), EditFault>
    ensures written { IsWrittenOn (control_written (control_shown control) (O.output output.old))
        (O.output output.old) result (O.output output.new) }
    ensures grows { O.grows output.old output.new }
{
    match control {
        Control::Space(count) => output.space(count),
        Control::Skip(count) => output.skip(count),
        Control::Column(column) => output.column(column),
    }
}

/// The act of a control item of PUT.
pub fn write_control<O: OutputStream>(shown: &mut Shown<O>, control: Control) -> Result<(), Refusal>
    ensures world { Acts (world_of O.output shown.old) (world.written (control_written (control_shown control))
        (world_of O.output shown.old)) result (world_of O.output shown.new) }
    ensures grows { O.grows shown.old.output shown.new.output }
{
    let acts = shown.acts;
    shown.count()?;
    match written(put_control(&mut shown.output, control)) {
        Ok(()) => Ok(()),
        Err(refusal) => {
            shown.acts = acts;
            Err(refusal)
        }
    }
}

/// The act of F of PUT. A number that is too wide for its field is no right call.
pub fn write_number<O: OutputStream>(
    shown: &mut Shown<O>,
    number: i32,
    width: u32,
) -> Result<(), Refusal>
    ensures world { IsNumberWritten (fixed_field width number) (world_of O.output shown.old) result
        (world_of O.output shown.new) }
    ensures grows { O.grows shown.old.output shown.new.output }
{
    let acts = shown.acts;
    shown.count()?;
    match shown.output.put_f(number, width) {
        Ok(()) | Err(EditFault::Write) => Ok(()),
        Err(EditFault::TooWide) => {
            shown.acts = acts;
            Err(Refusal::Bad)
        }
        Err(_) => {
            shown.acts = acts;
            Err(Refusal::Memory)
        }
    }
}

/// The act of A of PUT.
pub fn write_text<O: OutputStream>(
    shown: &mut Shown<O>,
    text: &[u8],
    width: Option<u32>,
) -> Result<(), Refusal>
    ensures world { Acts (world_of O.output shown.old) (world.written (with_field (text_field width text.now))
        (world_of O.output shown.old)) result (world_of O.output shown.new) }
    ensures grows { O.grows shown.old.output shown.new.output }
{
    let acts = shown.acts;
    shown.count()?;
    match written(shown.output.put_a(text, width)) {
        Ok(()) => Ok(()),
        Err(refusal) => {
            shown.acts = acts;
            Err(refusal)
        }
    }
}
