// Places in format lists, 0 for GET and 1 for PUT, and SKIP.

ghost use Rattle.std.specs.Prelude.{◌≡◌, ◌<◌, ◌++◌, OnOk};
ghost use Rattle.pli_language.specs.View.{formats_of};
ghost use Rattle.pli_coding.specs.Streams as form;

use pli_language::stmt::Formats;
use rv_address::number::count;
use rv_assembly::code::Code;
use rv_assembly::item::{Item, Symbol};
use rv_assembly::registers::{a0, a1};
use rv_data::formats::formats_datum;
use std::alloc::{AllocError, Global};

/// A format list begins.
pub(crate) fn edit_begun(
    alloc: Global,
    code: &mut Code,
    formats: &Formats,
    mode: u32,
) -> Result<(), AllocError>
    requires { mode < 2048 }
    ensures { OnOk result (code.new ≡ code.old ++ form.edit_begun (formats_of formats.now) mode) }
{
    let datum = formats_datum(alloc, formats)?;
    code.push(Item::OffsetOf(a0(), Symbol::DataPlace(datum)))?;
    code.small(a1(), mode)?;
    code.service(34)
}

/// A format list ends.
pub(crate) fn edit_ended(code: &mut Code) -> Result<(), AllocError>
    ensures { OnOk result (code.new ≡ code.old ++ form.edit_ended) }
{
    code.service(38)
}

/// SKIP, where it stands.
pub(crate) fn skip_option(code: &mut Code, mode: u32, skip: Option<u64>) -> Result<(), AllocError>
    requires { mode < 2048 }
    ensures { OnOk result (code.new ≡ code.old ++ form.skip_option mode skip) }
{
    match skip {
        None => Ok(()),
        Some(lines) => {
            count(code, a0(), lines as usize)?;
            code.small(a1(), mode)?;
            code.service(39)
        }
    }
}
