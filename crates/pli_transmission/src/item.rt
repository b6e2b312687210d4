// What a format item is: an item that moves in the stream, F or A.

ghost use Rattle.std.specs.Prelude.{◌≡◌, ℕ, List, MatchResult, false, true, is_some, if◌then◌else◌};
ghost use Rattle.pli_edit.specs.Faults.{is_fault, is_read};
ghost use Rattle.pli_edit.specs.FormatPlaces.{item_of};
ghost use Rattle.pli_language.specs.View.{option_of};
ghost use Rattle.pli_meaning.specs.InputLines.{has_character, Input as LineInput};
ghost use Rattle.pli_serving.specs.Edits.{item_number};
ghost use Rattle.pli_serving.specs.ServiceState.{Getting, Putting};
ghost use Rattle.pli_transmission.specs.Items.{control_in, control_shown, fixed_width, text_width};

use pli_edit::fault::EditFault;
use pli_edit::format::Format;
use pli_edit::input_stream::InputStream;

/// An item that moves in the stream: so many characters, so many line ends, or to a column.
#[derive(Clone, Copy, PartialEq, Eq, Debug)]
pub enum Control {
    Space(u32),
    Skip(u32),
    Column(u32),
}

/// The control item that a format item is, if it is one.
pub fn control_of(format: Format) -> Option<Control>
    ensures { option_of control_shown result ≡ control_in (item_of format) }
{
    match format {
        Format::Fixed(_) => None,
        Format::Text(_) => None,
        Format::Space(count) => Some(Control::Space(count)),
        Format::Skip(count) => Some(Control::Skip(count)),
        Format::Column(column) => Some(Control::Column(column)),
    }
}

/// The width of F, where the item is that.
pub fn fixed_width(format: Format) -> Option<u32>
    ensures { result ≡ fixed_width (item_of format) }
{
    match format {
        Format::Fixed(width) => Some(width),
        Format::Text(_) => None,
        Format::Space(_) => None,
        Format::Skip(_) => None,
        Format::Column(_) => None,
    }
}

/// The width of A, if it has one, where the item is that.
pub fn text_width(format: Format) -> Option<Option<u32>>
    ensures { result ≡ text_width (item_of format) }
{
    match format {
        Format::Fixed(_) => None,
        Format::Text(width) => Some(width),
        Format::Space(_) => None,
        Format::Skip(_) => None,
        Format::Column(_) => None,
    }
}

/// What is next where a character is left or none is wanted: 0 a control item, 1 F, 2 A.
pub fn item_number(format: Format) -> u32
    ensures { (input : LineInput) → result ≡ item_number Putting input (item_of format) }
{
    match format {
        Format::Fixed(_) => 1,
        Format::Text(_) => 2,
        Format::Space(_) => 0,
        Format::Skip(_) => 0,
        Format::Column(_) => 0,
    }
}

/// The number of a data item of GET, or 3 where no character is left for it. `Read` where a read failed.
fn data_left<I: InputStream>(input: &mut I, number: u32) -> Result<u32, EditFault>
    ensures follows { I.follows input.old input.new }
    ensures failed { I.has_failed input.new ≡ is_fault is_read result }
    ensures told { MatchResult result
        (λ told. (all : List ℕ) → I.agrees input.new all → (I.input input.new all ≡ I.input input.old all)
        × (told ≡ (if has_character (I.input input.old all).marks then number else 3)))
        (λ e. e ≡ EditFault.Read) }
{
    let is_left = input.has_character()?;
    Ok(if is_left { number } else { 3 })
}

/// What is next for GET: 0 a control item, 1 F, 2 A, 3 a data item with no character left. `Read` where a read failed.
pub fn item_left<I: InputStream>(input: &mut I, format: Format) -> Result<u32, EditFault>
    ensures follows { I.follows input.old input.new }
    ensures failed { I.has_failed input.old ≡ false → I.has_failed input.new ≡ is_fault is_read result }
    ensures told { MatchResult result
        (λ told. (all : List ℕ) → I.agrees input.new all → (I.input input.new all ≡ I.input input.old all)
        × (told ≡ item_number Getting (I.input input.old all) (item_of format)))
        (λ e. e ≡ EditFault.Read) }
    ensures unread { is_some (control_in (item_of format)) ≡ true → input.new ≡ input.old }
{
    match format {
        Format::Fixed(_) => data_left(input, 1),
        Format::Text(_) => data_left(input, 2),
        Format::Space(_) => Ok(0),
        Format::Skip(_) => Ok(0),
        Format::Column(_) => Ok(0),
    }
}
