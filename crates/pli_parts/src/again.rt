// Values of elements that were taken, as they are read again.

ghost use Rattle.std.specs.Prelude.{◌≡◌, ◌+◌, ◌≤◌, length};
ghost use Rattle.pli_typing.specs.Signatures.{Bit, Fixed, Offset, Pointer, leaf_bytes};
ghost use Rattle.pli_meaning.specs.BasicValues.{BasicBit, BasicNumber, BasicOffset, BasicPointer};
ghost use Rattle.pli_serving.specs.Values.{value_at};
ghost use Rattle.pli_signatures.specs.View.{kind_of};
ghost use Rattle.pli_values.specs.View.{name_of, value_of};
ghost use Rattle.pli_parts.specs.Putting.{again, AreSmall};

use pli_signatures::element::ElementKind;
use pli_values::element::{Value, value_at};
use pli_values::name::{Name, name_at, offset_of};
use pli_values::word::{half_at, word_at};

/// The number of FIXED in 2 bytes.
#[tactic(auto, using(crate::proofs::Rereading::small_read))]
fn small_number(bytes: &[u8], at: usize, precision: u8) -> i32
    requires inside { at + 2 ≤ length bytes.now }
    requires small { precision ≤ 15 }
    ensures { BasicNumber result ≡ again (Fixed precision) (value_at (Fixed precision) at bytes.now) }
{
    i32::from(half_at(bytes, at).cast_signed())
}

/// The number of FIXED in 4 bytes.
#[tactic(auto, using(crate::proofs::Rereading::large_read))]
fn large_number(bytes: &[u8], at: usize, precision: u8) -> i32
    requires inside { at + 4 ≤ length bytes.now }
    requires large { 16 ≤ precision }
    ensures { BasicNumber result ≡ again (Fixed precision) (value_at (Fixed precision) at bytes.now) }
{
    word_at(bytes, at).cast_signed()
}

/// The parts of a name fit its bytes.
fn fits_bytes(name: Name)
    ensures { AreSmall (name_of name) }
{
    match name {
        Name::Null => {}
        Name::Variable { .. } => {}
        Name::Based { .. } => {}
    }
}

/// The name of POINTER, the null one where the bytes are those of none.
#[tactic(auto, using(crate::proofs::Rereading::name_read, crate::proofs::Rereading::no_name_read))]
fn pointer(bytes: &[u8], at: usize) -> Name
    requires { at + 16 ≤ length bytes.now }
    ensures { BasicPointer (name_of result) ≡ again Pointer (value_at Pointer at bytes.now) }
{
    match name_at(bytes, at) {
        Some(name) => {
            fits_bytes(name);
            name
        }
        None => Name::Null,
    }
}

/// The offset of OFFSET.
#[tactic(auto, using(crate::proofs::Rereading::offset_read))]
fn offset(bytes: &[u8], at: usize) -> Option<u32>
    requires { at + 4 ≤ length bytes.now }
    ensures { BasicOffset result ≡ again Offset (value_at Offset at bytes.now) }
{
    offset_of(word_at(bytes, at))
}

/// The bit of BIT.
#[tactic(auto, using(crate::proofs::Rereading::bit_read))]
fn bit(bytes: &[u8], at: usize) -> bool
    requires { at + 1 ≤ length bytes.now }
    ensures { BasicBit result ≡ again Bit (value_at Bit at bytes.now) }
{
    bytes[at] == 1
}

/// The value of an element that was taken: a number, bit or name as its bytes have it, a text as it is.
pub fn value_again(bytes: &[u8], at: usize, kind: ElementKind) -> Value<'_>
    requires { at + leaf_bytes (kind_of kind) ≤ length bytes.now }
    ensures { value_of result ≡ again (kind_of kind) (value_at (kind_of kind) at bytes.now) }
{
    match kind {
        ElementKind::Fixed { precision } => {
            if precision <= 15 {
                Value::Number(small_number(bytes, at, precision))
            } else {
                Value::Number(large_number(bytes, at, precision))
            }
        }
        ElementKind::Character { .. } => value_at(bytes, at, kind),
        ElementKind::Varying { .. } => value_at(bytes, at, kind),
        ElementKind::Bit => Value::Bit(bit(bytes, at)),
        ElementKind::Pointer => Value::Pointer(pointer(bytes, at)),
        ElementKind::Offset => Value::Offset(offset(bytes, at)),
        ElementKind::Area { .. } => value_at(bytes, at, kind),
    }
}
