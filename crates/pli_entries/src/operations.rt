// What the services of texts do with the newest texts.

ghost use Rattle.std.specs.Prelude.{◌≡◌, ◌≤◌, ◌<◌, ◌∷◌, drop, length, MatchResult};
ghost use Rattle.pli_language.specs.View.{option_of};
ghost use Rattle.pli_meaning.specs.BasicValues.{BasicText};
ghost use Rattle.pli_meaning.specs.Contents.{text_in};
ghost use Rattle.pli_serving.specs.Stored.{kept_value};
ghost use Rattle.pli_serving.specs.TextServices as S;
ghost use Rattle.pli_signatures.specs.View.{kind_of};
ghost use Rattle.pli_text.specs.Operands.{top_of, left_of, right_of, IsOrStays, Becomes, Gives};
ghost use Rattle.pli_text.specs.declared.fault.TextFault.TheVariants as T;
ghost use Rattle.pli_values.specs.Calls.{call_of};
ghost use Rattle.pli_entries.specs.Served.{text_read};

use pli_signatures::element::ElementKind;
use pli_text::fault::TextFault;
use pli_text::stack::{MOST_TEXT, TextStack};
use pli_values::element::{Value, value_at};
use pli_values::source::Source;
use pli_values::word::half_at;

/// The kind of a text where it stands: CHARACTER with mode 0, VARYING with 1.
pub fn text_kind(mode: u32, most: u32) -> Option<ElementKind>
    ensures { option_of kind_of result ≡ S.text_kind mode most }
{
    if most as usize > MOST_TEXT {
        return None;
    }
    match mode {
        0 => Some(ElementKind::Character { length: most }),
        1 => Some(ElementKind::Varying {
            length: most as u16,
        }),
        _ => None,
    }
}

/// The text of a kind at an address. None where that isn't data, or a varying text is longer than its kind lets it be.
pub fn text_at<'a>(source: &Source<'a>, kind: ElementKind, at: usize) -> Option<&'a [u8]>
    ensures { option_of (λ text. text.now) result ≡ text_read (call_of source.now) (kind_of kind) at }
{
    if !source.layout.is_data(at, kind.value_bytes() as usize) {
        return None;
    }
    if let ElementKind::Varying { length } = kind {
        if half_at(source.memory, at) > length {
            return None;
        }
    }
    match value_at(source.memory, at, kind) {
        Value::Text(text) => Some(text),
        _ => Some(&[]),
    }
}

/// How long the newest text is. `Memory` where 32 bits don't tell.
pub fn newest_length(texts: &TextStack) -> Result<u32, TextFault>
    requires { 0 < length texts.now }
    ensures { MatchResult result (λ n. n ≡ length (top_of texts.now)) (λ e. e ≡ T.Memory) }
{
    match u32::try_from(texts.top().len()) {
        Ok(length) => Ok(length),
        Err(_) => Err(TextFault::Memory),
    }
}

/// A number comes on top, or with precision 0 a bit, which is set where the number is 1. Without memory nothing changed.
pub fn push_number(texts: &mut TextStack, number: u32, precision: u32) -> Result<(), TextFault>
    ensures { IsOrStays (S.number_or_bit_text number precision ∷ texts.old) texts.old result texts.new }
{
    if precision == 0 {
        texts.push_bit(number == 1)
    } else {
        texts.push_number(number.cast_signed(), precision)
    }
}

/// The newest text becomes a part of it: to the end with mode 0. `BadRange` where that lies outside, and then nothing changed.
pub fn cut(texts: &mut TextStack, start: u32, count: u32, mode: u32) -> Result<(), TextFault>
    requires { 0 < length texts.old }
    ensures { Becomes (S.part_of (top_of texts.old) start count mode) 1 T.BadRange texts.old result texts.new }
{
    if mode == 0 {
        texts.cut_from(start.cast_signed())
    } else {
        texts.cut(start.cast_signed(), count.cast_signed())
    }
}

/// The newest text becomes what an element of this kind of text keeps of it. Without memory nothing changed.
pub fn keep(texts: &mut TextStack, kind: ElementKind) -> Result<(), TextFault>
    requires { 0 < length texts.old }
    ensures { IsOrStays (text_in (kept_value (kind_of kind) (BasicText (top_of texts.old))) ∷ drop 1 texts.old) texts.old result texts.new }
{
    match kind {
        ElementKind::Character { length } => texts.fit(length)?,
        ElementKind::Varying { length } => texts.shorten(u32::from(length)),
        _ => {}
    }
    Ok(())
}

/// INDEX of the two newest texts with mode 0, else VERIFY. Both are dropped.
pub fn find(texts: &mut TextStack, mode: u32) -> u32
    requires { 2 ≤ length texts.old }
    ensures place { result ≡ S.place_in mode (left_of texts.old) (right_of texts.old) }
    ensures dropped { texts.new ≡ drop 2 texts.old }
{
    if mode == 0 {
        texts.find()
    } else {
        texts.verify()
    }
}

/// The number that the newest text stands for with mode 0, else the bit; the text is dropped. `NotNumber` where it stands for none,
/// and then nothing changed.
pub fn to_word(texts: &mut TextStack, mode: u32) -> Result<u32, TextFault>
    requires { 0 < length texts.old }
    ensures { Gives (S.word_in_text mode (top_of texts.old)) texts.old result texts.new }
{
    if mode == 0 {
        Ok(texts.to_number()?.cast_unsigned())
    } else {
        Ok(u32::from(texts.to_bit()?))
    }
}
