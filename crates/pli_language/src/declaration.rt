// The tree of declarations: names, dimensions and attributes, as they are written.

use crate::expr::{Expr, Name, Place, Reference};

/// The member that an extent is kept in, with the place of the word REFER.
#[derive(Debug, Drop)]
pub struct Refer {
    pub member: Name,
    pub place: Place,
}

/// An extent: a bound, a length or a size.
#[derive(Debug, Drop)]
pub struct Extent {
    pub value: Expr,
    pub refer: Option<Refer>,
}

/// One dimension: `*`, an upper bound, or both bounds.
#[derive(Debug, Drop)]
pub enum Bound {
    Star { place: Place },
    Upper(Extent),
    Both { lower: Extent, upper: Extent },
}

/// A length or an area's size: `*` or an extent.
#[derive(Debug, Drop)]
pub enum Size {
    Star { place: Place },
    Given(Extent),
}

/// What an INITIAL attribute gives an element.
#[derive(Debug, Drop)]
pub enum InitialValue {
    Number(i64),
    Text(Vec<u8>),
    Bit(bool),
    Skip,
    Null,
    Empty,
}

/// A value of INITIAL and how often it is repeated.
#[derive(Debug, Drop)]
pub struct InitialItem {
    pub repetition: u64,
    pub value: InitialValue,
}

/// An attribute. A precision is the number of its digits; a scale is always 0.
#[derive(Debug, Drop)]
pub enum Attribute {
    Fixed(Option<u64>),
    Binary(Option<u64>),
    Character(Option<Size>),
    Varying,
    Bit,
    Pointer,
    Offset(Option<Name>),
    Area(Option<Size>),
    Automatic,
    Static,
    Controlled,
    Based(Option<Name>),
    Initial(Vec<InitialItem>),
    Builtin,
    Aligned,
    Unaligned,
    Internal,
}

/// A declared name with the dimensions that stand behind it.
#[derive(Debug, Drop)]
pub struct DeclaredName {
    pub name: Name,
    pub dimensions: Vec<Bound>,
}

/// An item of DECLARE: its level, its names, the dimensions behind a parenthesised list, and the attributes of all.
#[derive(Debug, Drop)]
pub struct DeclareItem {
    pub level: Option<u64>,
    pub names: Vec<DeclaredName>,
    pub dimensions: Vec<Bound>,
    pub attributes: Vec<Attribute>,
}

/// What ALLOCATE makes: a variable, where, and the locator that is set.
#[derive(Debug, Drop)]
pub struct Allocation {
    pub variable: Name,
    pub area: Option<Reference>,
    pub locator: Option<Reference>,
}

/// What FREE ends: a generation, and the area in which it is said to lie.
#[derive(Debug, Drop)]
pub struct Freeing {
    pub generation: Reference,
    pub area: Option<Reference>,
}
