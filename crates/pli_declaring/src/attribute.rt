// Attributes and what clashes among them.

ghost use Rattle.std.specs.Prelude.{◌≡◌, map, ◌||◌, ◌==◌, not, false};
ghost use Rattle.pli_language.specs.Declaring.{row_of, has, repeats, one, kinds_in, has_kind, classes_in, has_class, precisions_in, precision_of, attributes_clash, builtin_clash, is_builtin, is_number_name};
ghost use Rattle.pli_declaring.specs.Precisions.{written_in, precisions_clash};
ghost use Rattle.pli_language.specs.View.{attribute_of};
ghost use Rattle.pli_declaring.specs.Rows.{number_of_row};

use pli_language::declaration::Attribute;
use pli_language::token::Word;

/// An attribute without what it is given.
#[derive(Clone, Copy)]
pub enum Row {
    Fixed,
    Binary,
    Character,
    Varying,
    Bit,
    Pointer,
    Offset,
    Area,
    Automatic,
    Static,
    Controlled,
    Based,
    Initial,
    Builtin,
    Aligned,
    Unaligned,
    Internal,
}

/// The place of an attribute in the list of all attributes.
fn number_of(row: Row) -> u8
    ensures { result ≡ number_of_row row }
{
    row as u8
}

/// Which attribute it is.
fn row_of(attribute: &Attribute) -> Row
    ensures { number_of_row result ≡ row_of (attribute_of attribute.now) }
{
    match attribute {
        Attribute::Fixed(_) => Row::Fixed,
        Attribute::Binary(_) => Row::Binary,
        Attribute::Character(_) => Row::Character,
        Attribute::Varying => Row::Varying,
        Attribute::Bit => Row::Bit,
        Attribute::Pointer => Row::Pointer,
        Attribute::Offset(_) => Row::Offset,
        Attribute::Area(_) => Row::Area,
        Attribute::Automatic => Row::Automatic,
        Attribute::Static => Row::Static,
        Attribute::Controlled => Row::Controlled,
        Attribute::Based(_) => Row::Based,
        Attribute::Initial(_) => Row::Initial,
        Attribute::Builtin => Row::Builtin,
        Attribute::Aligned => Row::Aligned,
        Attribute::Unaligned => Row::Unaligned,
        Attribute::Internal => Row::Internal,
    }
}

/// The attribute stands among these.
pub fn has(row: Row, attributes: &[Attribute]) -> bool
    ensures { result ≡ has (number_of_row row) (map attribute_of attributes.now) }
{
    let number = number_of(row);
    attributes.iter().any(|a| number_of(row_of(a)) == number)
}

/// An attribute stands twice among these.
#[tactic(auto, using(pli_declare::proofs::Chains::drop_here, std::proofs::lemmas::List::drop_all, crate::proofs::Precise::precisions_on))]
fn repeats(attributes: &[Attribute]) -> bool
    ensures { result ≡ repeats (map attribute_of attributes.now) }
{
    for (i, attribute) in attributes.iter().enumerate() {
        if has(row_of(attribute), &attributes[i + 1..]) {
            return true;
        }
    }
    false
}

/// One where the test holds.
fn one(test: bool) -> u8
    ensures { result ≡ one test }
{
    if test { 1 } else { 0 }
}

/// A number is declared by name.
pub fn has_number(attributes: &[Attribute]) -> bool
    ensures { result ≡ (has 0 (map attribute_of attributes.now) || has 1 (map attribute_of attributes.now)) }
{
    has(Row::Fixed, attributes) || has(Row::Binary, attributes)
}

/// How many kinds these name.
fn kinds_in(attributes: &[Attribute]) -> u8
    ensures { result ≡ kinds_in (map attribute_of attributes.now) }
{
    one(has_number(attributes))
        + one(has(Row::Character, attributes))
        + one(has(Row::Bit, attributes))
        + one(has(Row::Pointer, attributes))
        + one(has(Row::Offset, attributes))
        + one(has(Row::Area, attributes))
}

/// These name a kind.
pub fn has_kind(attributes: &[Attribute]) -> bool
    ensures { result ≡ has_kind (map attribute_of attributes.now) }
{
    kinds_in(attributes) > 0
}

/// A number is declared, by name or by no kind.
pub fn is_number(attributes: &[Attribute]) -> bool
    ensures { result ≡ (has 0 (map attribute_of attributes.now) || has 1 (map attribute_of attributes.now) || not (has_kind (map attribute_of attributes.now))) }
{
    has_number(attributes) || !has_kind(attributes)
}

/// How many storage classes these name, BASED and BUILTIN among them.
fn classes_in(attributes: &[Attribute]) -> u8
    ensures { result ≡ classes_in (map attribute_of attributes.now) }
{
    one(has(Row::Automatic, attributes))
        + one(has(Row::Static, attributes))
        + one(has(Row::Controlled, attributes))
        + one(has(Row::Based, attributes))
        + one(has(Row::Builtin, attributes))
}

/// These name a storage class.
pub fn has_class(attributes: &[Attribute]) -> bool
    ensures { result ≡ has_class (map attribute_of attributes.now) }
{
    classes_in(attributes) > 0
}

/// The precision that an attribute writes.
fn written(attribute: &Attribute) -> Option<u64>
    ensures { result ≡ written_in (attribute_of attribute.now) }
{
    match attribute {
        Attribute::Fixed(digits) => *digits,
        Attribute::Binary(digits) => *digits,
        _ => None,
    }
}

/// The precision of these, which is 15 where none is written.
#[tactic(auto, using(pli_declare::proofs::Chains::drop_here, std::proofs::lemmas::List::drop_all, crate::proofs::Precise::precisions_on))]
pub fn precision_of(attributes: &[Attribute]) -> u64
    ensures { result ≡ precision_of (precisions_in (map attribute_of attributes.now)) }
{
    for attribute in attributes {
        if let Some(digits) = written(attribute) {
            return digits;
        }
    }
    15
}

/// Two precisions are written, or one outside 1 to 31.
#[tactic(auto, using(pli_declare::proofs::Chains::drop_here, std::proofs::lemmas::List::drop_all, crate::proofs::Precise::precisions_on))]
fn precisions_clash(attributes: &[Attribute]) -> bool
    ensures { result ≡ precisions_clash false (precisions_in (map attribute_of attributes.now)) }
{
    let mut seen = false;
    for attribute in attributes {
        if let Some(digits) = written(attribute) {
            if seen || digits == 0 || digits > 31 {
                return true;
            }
            seen = true;
        }
    }
    false
}

/// Attributes that can't stand together, or can't stand so.
#[tactic(auto, using(crate::proofs::Precise::precisions_clash_is))]
pub fn attributes_clash(attributes: &[Attribute]) -> bool
    ensures { result ≡ attributes_clash (map attribute_of attributes.now) }
{
    repeats(attributes)
        || kinds_in(attributes) > 1
        || classes_in(attributes) > 1
        || (has(Row::Varying, attributes) && !has(Row::Character, attributes))
        || (has(Row::Aligned, attributes) && has(Row::Unaligned, attributes))
        || precisions_clash(attributes)
}

/// An attribute other than BUILTIN and INTERNAL.
fn is_foreign(attribute: &Attribute) -> bool
    ensures { result ≡ not ((row_of (attribute_of attribute.now) == 13) || (row_of (attribute_of attribute.now) == 16)) }
{
    let number = number_of(row_of(attribute));
    !(number == number_of(Row::Builtin) || number == number_of(Row::Internal))
}

/// BUILTIN stands alone, but for INTERNAL.
pub fn builtin_clash(attributes: &[Attribute]) -> bool
    ensures { result ≡ builtin_clash (map attribute_of attributes.now) }
{
    has(Row::Builtin, attributes) && attributes.iter().any(|a| is_foreign(a))
}

/// The word names a built-in function.
pub fn is_builtin(word: Word) -> bool
    ensures { result ≡ is_builtin word }
{
    matches!(
        word,
        Word::Abs
            | Word::Sign
            | Word::Max
            | Word::Min
            | Word::Mod
            | Word::Divide
            | Word::Length
            | Word::Substr
            | Word::Index
            | Word::Verify
            | Word::Lbound
            | Word::Hbound
            | Word::Dim
            | Word::Allocation
            | Word::Addr
            | Word::Null
            | Word::Empty
            | Word::Pointer
            | Word::Offset
            | Word::Oncode
    )
}

/// A name without a kind is a number where it begins with I to N.
pub fn is_number_name(letters: &[u8]) -> bool
    ensures { result ≡ is_number_name letters.now }
{
    match letters {
        [first, ..] => b'I' <= *first && *first <= b'N',
        [] => false,
    }
}
