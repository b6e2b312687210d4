// What references and expressions come to.

use pli_language::expr::Place;
use pli_typing::typed::{Leaf, Reference, Value};

/// A variable or a part of one: its leaves, for how many of their outer bounds subscripts stand, for how many no subscripts
/// stand, whether it has members, and whether it is a whole variable of level 1.
#[derive(Drop)]
pub struct Designated<'t, 'a> {
    pub reference: Reference<'a>,
    pub leaves: &'t [Leaf<'a>],
    pub subscripted: usize,
    pub dimensions: usize,
    pub has_members: bool,
    pub is_whole: bool,
}

/// An expression designates a part of a variable, gives a value, is EMPTY(), or is nothing that has a value; or nothing is
/// known of it. An operand in parentheses gives a value even where its kind isn't known, so it is no reference.
#[derive(Drop)]
pub enum Referent<'t, 'a> {
    Designates(Designated<'t, 'a>),
    Gives(Value<'a>),
    UnknownValue,
    EmptyArea,
    Nothing,
    NotKnown,
}

/// An expression with the place of its first token, and its value where it is a constant.
#[derive(Drop)]
pub struct Operand<'t, 'a> {
    pub place: Place,
    pub constant: Option<i128>,
    pub referent: Referent<'t, 'a>,
}
