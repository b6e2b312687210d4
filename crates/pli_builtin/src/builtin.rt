// The built-in functions by their words.

ghost use Rattle.std.specs.Prelude.{◌≡◌, map, IfOk, OnOk};
ghost use Rattle.pli_typing.specs.Builtins as B;
ghost use Rattle.pli_typing.specs.Converting as C;
ghost use Rattle.pli_typing.specs.TypedTree as Y;
ghost use Rattle.pli_operand.specs.Notes.{noted};
ghost use Rattle.pli_operand.specs.Shown.{notes_of, operand_of, referent_of};

use crate::array::{Bound, address, of_controlled, of_dimension};
use crate::calculation::{
    NumberFunction, TextFunction, modulo, of_many, of_number, of_text, of_texts, quotient,
    substring,
};
use crate::locator::{offset_into, pointer_into};
pub use crate::numbers::number_list;
use crate::operator::number_answer;
use pli_language::expr::Place;
use pli_language::fault::SourceKind;
use pli_language::token::Word;
use pli_operand::notes::Notes;
use pli_operand::operand::{Operand, Referent};
use pli_typing::typed::{Extremum, Number, Value};
use std::alloc::{AllocError, Global};

/// NULL.
#[tactic(auto, using(pli_operand::proofs::Noting::noting, crate::proofs::Counted::no_argument, crate::proofs::Counted::any_argument))]
fn null<'t, 'a>(notes: &mut Notes, place: Place, operands: Vec<Operand>) -> Referent<'t, 'a>
    ensures noted { notes_of notes.new ≡ noted (notes_of notes.old) (B.without_arguments place (C.Gives Y.NullValue) (map operand_of operands.entry.items)) }
    ensures value { referent_of result ≡ (B.without_arguments place (C.Gives Y.NullValue) (map operand_of operands.entry.items)).value }
{
    if !operands.is_empty() {
        notes.broken(place, SourceKind::BadArguments);
    }
    Referent::Gives(Value::Null)
}

/// EMPTY.
#[tactic(auto, using(pli_operand::proofs::Noting::noting, crate::proofs::Counted::no_argument, crate::proofs::Counted::any_argument))]
fn empty<'t, 'a>(notes: &mut Notes, place: Place, operands: Vec<Operand>) -> Referent<'t, 'a>
    ensures noted { notes_of notes.new ≡ noted (notes_of notes.old) (B.without_arguments place (C.GivesEmptyArea) (map operand_of operands.entry.items)) }
    ensures value { referent_of result ≡ (B.without_arguments place (C.GivesEmptyArea) (map operand_of operands.entry.items)).value }
{
    if !operands.is_empty() {
        notes.broken(place, SourceKind::BadArguments);
    }
    Referent::EmptyArea
}

/// ONCODE.
#[tactic(auto, using(pli_operand::proofs::Noting::noting, crate::proofs::Counted::no_argument, crate::proofs::Counted::any_argument), unfolding(pli_typing::specs::TypedView::number_of))]
fn condition_code<'t, 'a>(
    alloc: Global,
    notes: &mut Notes,
    place: Place,
    operands: Vec<Operand>,
) -> Result<Referent<'t, 'a>, AllocError>
    ensures noted { OnOk result (notes_of notes.new ≡ noted (notes_of notes.old) (B.without_arguments place (C.Gives (Y.NumberValue C.operator_digits Y.OnCode)) (map operand_of operands.entry.items))) }
    ensures value { IfOk result (λ r. referent_of r ≡ (B.without_arguments place (C.Gives (Y.NumberValue C.operator_digits Y.OnCode)) (map operand_of operands.entry.items)).value) }
{
    if !operands.is_empty() {
        notes.broken(place, SourceKind::BadArguments);
    }
    number_answer(alloc, Number::OnCode)
}

/// Another word's isn't known.
fn no_builtin<'t, 'a>(_operands: Vec<Operand>) -> Referent<'t, 'a>
    ensures { referent_of result ≡ C.NotKnown }
{
    Referent::NotKnown
}

/// The built-in of a word, called by its name at a place; no argument list is the same as an empty one.
#[tactic(auto, using(pli_operand::proofs::Noting::noting))]
pub fn builtin_called<'t, 'a>(
    alloc: Global,
    notes: &mut Notes,
    place: Place,
    word: Word,
    operands: Vec<Operand<'t, 'a>>,
) -> Result<Referent<'t, 'a>, AllocError>
    ensures noted { OnOk result (notes_of notes.new ≡ noted (notes_of notes.old) (B.builtin_called place word (map operand_of operands.entry.items))) }
    ensures value { IfOk result (λ r. referent_of r ≡ (B.builtin_called place word (map operand_of operands.entry.items)).value) }
{
    match word {
        Word::Abs => of_number(alloc, notes, place, NumberFunction::Absolute, operands),
        Word::Sign => of_number(alloc, notes, place, NumberFunction::Sign, operands),
        Word::Max => of_many(alloc, notes, place, Extremum::Greatest, operands),
        Word::Min => of_many(alloc, notes, place, Extremum::Least, operands),
        Word::Mod => modulo(alloc, notes, place, operands),
        Word::Divide => quotient(alloc, notes, place, operands),
        Word::Length => of_text(alloc, notes, place, operands),
        Word::Substr => substring(alloc, notes, place, operands),
        Word::Index => of_texts(alloc, notes, place, TextFunction::Index, operands),
        Word::Verify => of_texts(alloc, notes, place, TextFunction::Verify, operands),
        Word::Lbound => of_dimension(alloc, notes, place, Bound::Lower, operands),
        Word::Hbound => of_dimension(alloc, notes, place, Bound::Upper, operands),
        Word::Dim => of_dimension(alloc, notes, place, Bound::Elements, operands),
        Word::Allocation => Ok(of_controlled(alloc, notes, place, operands)?),
        Word::Addr => address(alloc, notes, place, operands),
        Word::Null => Ok(null(notes, place, operands)),
        Word::Empty => Ok(empty(notes, place, operands)),
        Word::Pointer => pointer_into(alloc, notes, place, operands),
        Word::Offset => offset_into(alloc, notes, place, operands),
        Word::Oncode => Ok(condition_code(alloc, notes, place, operands)?),
        _ => Ok(no_builtin(operands)),
    }
}
