// Which data items a format list has.

ghost use Rattle.std.specs.Prelude.{◌≡◌};
ghost use Rattle.pli_language.specs.View.{format_of, formats_of};
ghost use Rattle.pli_coding.specs.Streams as form;

use pli_language::stmt::{Format, Formats};

#[cycle(fixed)]
#[tactic(auto, using(pli_language::proofs::Views::views))]
fn has_fixed(formats: &Formats) -> bool
    ensures { result ≡ form.has_fixed (formats_of formats.now) }
{
    match formats {
        Formats::End => false,
        Formats::More { first, rest, .. } => is_fixed(first) || has_fixed(rest),
    }
}

#[cycle(fixed)]
#[tactic(auto, using(pli_language::proofs::Views::views))]
fn is_fixed(format: &Format) -> bool
    ensures { result ≡ form.is_fixed (format_of format.now) }
{
    match format {
        Format::Fixed { .. } => true,
        Format::List(formats) => has_fixed(formats),
        Format::Text { .. } => false,
        Format::Space { .. } => false,
        Format::Skip { .. } => false,
        Format::Column { .. } => false,
    }
}

#[cycle(text)]
#[tactic(auto, using(pli_language::proofs::Views::views))]
fn has_text(formats: &Formats) -> bool
    ensures { result ≡ form.has_text (formats_of formats.now) }
{
    match formats {
        Formats::End => false,
        Formats::More { first, rest, .. } => is_text(first) || has_text(rest),
    }
}

#[cycle(text)]
#[tactic(auto, using(pli_language::proofs::Views::views))]
fn is_text(format: &Format) -> bool
    ensures { result ≡ form.is_text (format_of format.now) }
{
    match format {
        Format::Text { .. } => true,
        Format::List(formats) => has_text(formats),
        Format::Fixed { .. } => false,
        Format::Space { .. } => false,
        Format::Skip { .. } => false,
        Format::Column { .. } => false,
    }
}

/// A format list, and whether it has items for numbers and for texts, found once for all data items that go by it.
#[derive(Drop)]
pub struct Fields<'a> {
    formats: &'a Formats,
    has_fixed: bool,
    has_text: bool,
    ghost exact_fixed: { has_fixed ≡ form.has_fixed (formats_of formats.now) },
    ghost exact_text: { has_text ≡ form.has_text (formats_of formats.now) },
}

impl<'a> Fields<'a> {
    /// Those of a list.
    pub fn new(formats: &'a Formats) -> Fields<'a>
        ensures { formats_of result.formats.now ≡ formats_of formats.now }
    {
        let has_fixed = has_fixed(formats);
        let has_text = has_text(formats);
        Fields {
            formats,
            has_fixed,
            has_text,
        }
    }

    /// Whether there are items for numbers.
    pub fn has_fixed(&self) -> bool
        ensures { result ≡ form.has_fixed (formats_of self.now.formats.now) }
    {
        self.has_fixed
    }

    /// Whether there are items for texts.
    pub fn has_text(&self) -> bool
        ensures { result ≡ form.has_text (formats_of self.now.formats.now) }
    {
        self.has_text
    }
}
