// What format lists read and write.

ghost use Rattle.std.specs.Prelude.{◌≡◌};
ghost use Rattle.pli_typing.specs.Assigning.{all_pass, format_holds_fixed, holds_fixed, is_read, is_written};
ghost use Rattle.pli_typing.specs.TypedView.{leaf_type_of};
ghost use Rattle.pli_language.specs.View.{format_of, formats_of};
ghost use Rattle.pli_operand.specs.Shown.{designated_of};

use pli_language::stmt::{Format, Formats};
use pli_operand::operand::Designated;
use pli_typing::typed::LeafType;

#[cycle(fixed)]
#[tactic(auto, unfolding(pli_language::specs::View::format_of))]
fn format_holds_fixed(format: &Format) -> bool
    ensures { result ≡ format_holds_fixed (format_of format.now) }
{
    match format {
        Format::List(formats) => holds_fixed(formats),
        Format::Fixed { .. } => true,
        Format::Text { .. } | Format::Space { .. } | Format::Skip { .. } | Format::Column { .. } =>
            false,
    }
}

/// A format list holds an F at some depth.
#[cycle(fixed)]
#[tactic(auto, unfolding(pli_language::specs::View::format_of))]
pub fn holds_fixed(formats: &Formats) -> bool
    ensures { result ≡ holds_fixed (formats_of formats.now) }
{
    match formats {
        Formats::End => false,
        Formats::More { first, rest, .. } => format_holds_fixed(first) || holds_fixed(rest),
    }
}

/// A field that is read becomes a number or a text, and a bit where no number is read.
pub fn is_read(has_fixed: bool, kind: LeafType) -> bool
    ensures { result ≡ is_read has_fixed (leaf_type_of kind) }
{
    match kind {
        LeafType::Fixed(_) | LeafType::Character(_) | LeafType::Varying(_) => true,
        LeafType::Bit => !has_fixed,
        LeafType::Pointer | LeafType::Offset(_) | LeafType::Area(_) => false,
    }
}

/// Numbers, texts and bits are written.
pub fn is_written(kind: LeafType) -> bool
    ensures { result ≡ is_written (leaf_type_of kind) }
{
    is_read(false, kind)
}

/// All leaves are read.
pub fn all_read(has_fixed: bool, designated: &Designated) -> bool
    ensures { result ≡ all_pass (is_read has_fixed) (designated_of designated.now).leaves }
{
    !designated
        .leaves
        .iter()
        .any(|leaf| !is_read(has_fixed, leaf.kind))
}

/// All leaves are written.
pub fn all_written(designated: &Designated) -> bool
    ensures { result ≡ all_pass is_written (designated_of designated.now).leaves }
{
    all_read(false, designated)
}
