// What kind of value an expression has, and what is done to it where another kind is due.

ghost use Rattle.std.specs.Prelude.{◌≡◌, MatchOption};
ghost use Rattle.pli_typing.specs.Kinds.{AreaKind, BitKind, Converts, NeverConverts, NullKind, NumberKind, OffsetKind, PointerKind, TextKind, conversion, converted_length};
ghost use Rattle.pli_language.specs.View.{option_of};
ghost use Rattle.pli_types.specs.View.{conversion_of, kind_of};

/// The kind of a value, or of what a value is stored into. Lengths and capacities are no part of it.
#[derive(Clone, Copy, PartialEq, Eq, Debug)]
pub enum Kind {
    /// FIXED BINARY with a precision from 1 to 31.
    Number { precision: u8 },
    Text,
    Bit,
    Pointer,
    /// An OFFSET, declared with the area that it lies in or without one.
    Offset { has_area: bool },
    /// What NULL answers: it fits POINTER and OFFSET.
    Null,
    Area,
}

/// What is done to a value on its way from one kind to another.
#[derive(Clone, Copy, PartialEq, Eq, Debug)]
pub enum Conversion {
    /// Nothing: the value only has to fit.
    Keeps,
    /// Decimal, at the right end of as many places as `converted_length` says.
    NumberToText { precision: u8 },
    TextToNumber,
    BitToNumber,
    BitToText,
    TextToBit,
    /// As the built-in POINTER does, with the area that the OFFSET is declared with.
    OffsetToPointer,
    /// As the built-in OFFSET does, with the area that the OFFSET is declared with.
    PointerToOffset,
}

/// The length of the text that a number of this precision is converted to.
pub fn converted_length(precision: u8) -> u16
    ensures { result ≡ converted_length precision }
{
    if precision <= 15 { 9 } else { 14 }
}

/// What a kind is converted to, by the definitions' function.
fn converted(from: Kind, to: Kind) -> Option<Conversion>
    ensures { option_of conversion_of result ≡ conversion (kind_of from) (kind_of to) }
{
    match (from, to) {
        (Kind::Number { .. }, Kind::Number { .. }) => Some(Conversion::Keeps),
        (Kind::Number { precision }, Kind::Text) => Some(Conversion::NumberToText { precision }),
        (Kind::Text, Kind::Number { .. }) => Some(Conversion::TextToNumber),
        (Kind::Text, Kind::Text) => Some(Conversion::Keeps),
        (Kind::Text, Kind::Bit) => Some(Conversion::TextToBit),
        (Kind::Bit, Kind::Number { .. }) => Some(Conversion::BitToNumber),
        (Kind::Bit, Kind::Text) => Some(Conversion::BitToText),
        (Kind::Bit, Kind::Bit) => Some(Conversion::Keeps),
        (Kind::Pointer, Kind::Pointer) => Some(Conversion::Keeps),
        (Kind::Pointer, Kind::Offset { has_area: true }) => Some(Conversion::PointerToOffset),
        (Kind::Offset { has_area: true }, Kind::Pointer) => Some(Conversion::OffsetToPointer),
        (Kind::Offset { .. }, Kind::Offset { .. }) => Some(Conversion::Keeps),
        (Kind::Null, Kind::Pointer | Kind::Offset { .. }) => Some(Conversion::Keeps),
        (Kind::Area, Kind::Area) => Some(Conversion::Keeps),
        _ => None,
    }
}

/// How a value of one kind becomes one of another, or `None` where it never does: the pair is a type mismatch.
pub fn convert_kind(from: Kind, to: Kind) -> Option<Conversion>
    ensures computed { option_of conversion_of result ≡ conversion (kind_of from) (kind_of to) }
    ensures exact { MatchOption result (NeverConverts (kind_of from) (kind_of to)) (λ c. Converts (kind_of from) (kind_of to) (conversion_of c)) }
{
    converted(from, to)
}
