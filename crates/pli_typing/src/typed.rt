// The typed tree: the tree with the declaration, or the built-in, at each reference and the kind at each expression. Its statements stand
// in a module of their own.

ghost use Rattle.std.specs.Prelude.{◌≡◌, ◌<◌, IfErr, IfOk};
ghost use Rattle.pli_typing.specs.declared.typed.Bit.{size-Bit};
ghost use Rattle.pli_typing.specs.declared.typed.Number.{size-Number};
ghost use Rattle.pli_typing.specs.declared.typed.Offset.{size-Offset};
ghost use Rattle.pli_typing.specs.declared.typed.Reference.{size-Reference};
ghost use Rattle.pli_typing.specs.declared.typed.Text.{size-Text};

use pli_language::declaration::InitialItem;
use pli_language::stmt::Formats;

/// Where the generations of a variable come from.
#[derive(Clone, Copy, PartialEq, Eq, Debug)]
pub enum StorageClass {
    Automatic,
    Parameter,
    Static,
    Based,
    Controlled,
}

/// A variable of level 1: its class, the number of the block that declares it, that block's level (0 for the outermost
/// procedure), and its place among the variables of level 1 that the block declares.
#[derive(Clone, Copy, PartialEq, Eq, Debug)]
pub struct Variable {
    pub class: StorageClass,
    pub block: usize,
    pub level: usize,
    pub index: usize,
}

/// A part of a variable: the first of its leaves, and how many they are.
#[derive(Clone, Copy, PartialEq, Eq, Debug)]
pub struct Part {
    pub first: usize,
    pub count: usize,
}

/// A bound, length or size: a constant, the argument's (`*`), what a member of the same generation tells, or the value of
/// one of its variable's evaluations.
#[derive(Clone, Copy, PartialEq, Eq, Debug)]
pub enum Extent {
    Constant(i128),
    Star,
    Refer,
    Evaluated(usize),
}

/// The bounds of one dimension.
#[derive(Clone, Copy, PartialEq, Eq, Debug)]
pub struct Bounds {
    pub lower: Extent,
    pub upper: Extent,
}

/// The kind of a leaf. An OFFSET may be declared with an area; an area's size isn't rounded yet.
#[derive(Clone, Copy, PartialEq, Eq, Debug)]
pub enum LeafType {
    Fixed(u64),
    Character(Extent),
    Varying(Extent),
    Bit,
    Pointer,
    Offset(Option<Variable>),
    Area(Extent),
}

/// A leaf with all its bounds, inherited ones first.
#[derive(Drop)]
pub struct Leaf<'a> {
    pub kind: LeafType,
    pub bounds: Vec<Bounds>,
    pub initial: Vec<&'a InitialItem>,
}

/// A sign before a number.
#[derive(Clone, Copy, PartialEq, Eq, Debug)]
pub enum Sign {
    Positive,
    Negative,
}

/// An operator between two numbers.
#[derive(Clone, Copy, PartialEq, Eq, Debug)]
pub enum ArithmeticOperator {
    Sum,
    Difference,
    Product,
    Quotient,
}

/// An operator between two bits.
#[derive(Clone, Copy, PartialEq, Eq, Debug)]
pub enum BitOperator {
    Conjunction,
    Disjunction,
}

/// A comparison of two values.
#[derive(Clone, Copy, PartialEq, Eq, Debug)]
pub enum Comparison {
    IsEqual,
    IsNotEqual,
    IsLess,
    IsGreater,
    IsLessOrEqual,
    IsGreaterOrEqual,
}

/// MAX or MIN.
#[derive(Clone, Copy, PartialEq, Eq, Debug)]
pub enum Extremum {
    Greatest,
    Least,
}

/// A procedure that is called: its block's number, and the level of the block that declares it.
#[derive(Clone, Copy, PartialEq, Eq, Debug)]
pub struct Callee {
    pub procedure: usize,
    pub level: usize,
}

/// An expression that is a number. Dimensions are counted from 1.
#[cycle(typed)]
pub enum Number<'a> {
    Constant(u64),
    In(Box<Reference<'a>>),
    From {
        callee: Callee,
        arguments: Box<Arguments<'a>>,
    },
    OfText(Box<Text<'a>>),
    OfBit(Box<Bit<'a>>),
    Signed {
        sign: Sign,
        operand: Box<Number<'a>>,
    },
    Calculated {
        operator: ArithmeticOperator,
        left: Box<Number<'a>>,
        right: Box<Number<'a>>,
    },
    Absolute(Box<Number<'a>>),
    SignOf(Box<Number<'a>>),
    Extreme {
        which: Extremum,
        first: Box<Number<'a>>,
        more: Numbers<'a>,
    },
    Modulo {
        dividend: Box<Number<'a>>,
        divisor: Box<Number<'a>>,
    },
    Divided {
        precision: u64,
        dividend: Box<Number<'a>>,
        divisor: Box<Number<'a>>,
    },
    LengthOf(Box<Text<'a>>),
    IndexOf {
        searched: Box<Text<'a>>,
        sought: Box<Text<'a>>,
    },
    VerifyOf {
        searched: Box<Text<'a>>,
        allowed: Box<Text<'a>>,
    },
    LowerBound {
        array: Box<Reference<'a>>,
        dimension: u64,
    },
    UpperBound {
        array: Box<Reference<'a>>,
        dimension: u64,
    },
    ElementsOf {
        array: Box<Reference<'a>>,
        dimension: u64,
    },
    AllocationsOf(Variable),
    OnCode,
}

/// A list of numbers.
#[cycle(typed)]
pub enum Numbers<'a> {
    End,
    More {
        first: Box<Number<'a>>,
        rest: Box<Numbers<'a>>,
    },
}

/// An expression that is a text. A number becomes text by the places of its precision.
#[cycle(typed)]
pub enum Text<'a> {
    Constant(&'a [u8]),
    In(Box<Reference<'a>>),
    From {
        callee: Callee,
        arguments: Box<Arguments<'a>>,
    },
    OfNumber {
        precision: u64,
        number: Box<Number<'a>>,
    },
    OfBit(Box<Bit<'a>>),
    Joined {
        left: Box<Text<'a>>,
        right: Box<Text<'a>>,
    },
    SubstringFrom {
        text: Box<Text<'a>>,
        start: Box<Number<'a>>,
    },
    Substring {
        text: Box<Text<'a>>,
        start: Box<Number<'a>>,
        count: Box<Number<'a>>,
    },
}

/// An expression that is a bit. Locators are compared for being equal, or for not being so.
#[cycle(typed)]
pub enum Bit<'a> {
    Constant(bool),
    In(Box<Reference<'a>>),
    From {
        callee: Callee,
        arguments: Box<Arguments<'a>>,
    },
    OfText(Box<Text<'a>>),
    Negated(Box<Bit<'a>>),
    Combined {
        operator: BitOperator,
        left: Box<Bit<'a>>,
        right: Box<Bit<'a>>,
    },
    NumbersCompared {
        comparison: Comparison,
        left: Box<Number<'a>>,
        right: Box<Number<'a>>,
    },
    TextsCompared {
        comparison: Comparison,
        left: Box<Text<'a>>,
        right: Box<Text<'a>>,
    },
    BitsCompared {
        comparison: Comparison,
        left: Box<Bit<'a>>,
        right: Box<Bit<'a>>,
    },
    PointersCompared {
        equal: bool,
        left: Box<Pointer<'a>>,
        right: Box<Pointer<'a>>,
    },
    OffsetsCompared {
        equal: bool,
        left: Box<Offset<'a>>,
        right: Box<Offset<'a>>,
    },
}

/// An expression that is a POINTER.
#[cycle(typed)]
pub enum Pointer<'a> {
    Null,
    In(Box<Reference<'a>>),
    From {
        callee: Callee,
        arguments: Box<Arguments<'a>>,
    },
    AddressOf(Box<Reference<'a>>),
    Into {
        offset: Box<Offset<'a>>,
        area: Variable,
    },
}

/// An expression that is an OFFSET.
#[cycle(typed)]
pub enum Offset<'a> {
    Null,
    In(Box<Reference<'a>>),
    From {
        callee: Callee,
        arguments: Box<Arguments<'a>>,
    },
    Into {
        pointer: Box<Pointer<'a>>,
        area: Variable,
    },
}

/// A part of a variable's generation, or an element of it: no subscripts mean the whole part, else there are as many as the
/// part has dimensions. A BASED variable is located, and no other.
#[cycle(typed)]
#[derive(Drop)]
pub enum Reference<'a> {
    Plain {
        variable: Variable,
        part: Part,
        subscripts: Numbers<'a>,
    },
    Located {
        locator: Box<Pointer<'a>>,
        variable: Variable,
        part: Part,
        subscripts: Numbers<'a>,
    },
}

/// An argument by reference, or a copy of the parameter's kind. A POINTER for an OFFSET of the callee's own area is converted
/// last: by the area that a parameter stands for, or where that area isn't made yet.
#[cycle(typed)]
#[derive(Drop)]
pub enum Argument<'a> {
    ByReference(Reference<'a>),
    ByCopy {
        kind: LeafType,
        value: Stored<'a>,
    },
    ByOffsetInParameter {
        pointer: Pointer<'a>,
        parameter: usize,
    },
    ByOffsetInAutomatic(Pointer<'a>),
}

/// The arguments of a call.
#[cycle(typed)]
pub enum Arguments<'a> {
    End,
    More {
        first: Box<Argument<'a>>,
        rest: Box<Arguments<'a>>,
    },
}

/// A value on its way into storage, converted to the kind that is there.
#[cycle(typed)]
#[derive(Drop)]
pub enum Stored<'a> {
    Number { precision: u64, value: Number<'a> },
    Text(Text<'a>),
    Bit(Bit<'a>),
    Pointer(Pointer<'a>),
    Offset(Offset<'a>),
}

impl<'a> Number<'a> {
    /// The bit that it is made from, or itself.
    fn into_bit(self) -> Result<Bit<'a>, Number<'a>>
        ensures bit { IfOk result (λ b. size-Bit b < size-Number self.entry) }
        ensures other { IfErr result (λ n. n ≡ self.entry) }
    {
        match self {
            Number::OfBit(bit) => Ok(Box::into_inner(bit)),
            other => Err(other),
        }
    }
}

impl<'a> Text<'a> {
    /// The bit that it is made from, or itself.
    fn into_bit(self) -> Result<Bit<'a>, Text<'a>>
        ensures bit { IfOk result (λ b. size-Bit b < size-Text self.entry) }
        ensures other { IfErr result (λ t. t ≡ self.entry) }
    {
        match self {
            Text::OfBit(bit) => Ok(Box::into_inner(bit)),
            other => Err(other),
        }
    }
}

impl Drop for Number<'_> {
    /// Drops the expression down to its first operand, in a loop: operators stand thousands in a row.
    #[cycle(dropping_expressions)]
    fn drop(mut self) {
        loop {
            match self {
                Number::In(_inner) => return,
                Number::From {
                    callee: _,
                    arguments: _arguments,
                } => return,
                Number::OfText(_inner) => return,
                Number::OfBit(_inner) => return,
                Number::Signed { sign: _, operand } => self = Box::into_inner(operand),
                Number::Calculated {
                    operator: _,
                    left,
                    right: _right,
                } => self = Box::into_inner(left),
                Number::Absolute(_inner) => return,
                Number::SignOf(_inner) => return,
                Number::Extreme {
                    which: _,
                    first: _first,
                    more: _more,
                } => return,
                Number::Modulo {
                    dividend: _dividend,
                    divisor: _divisor,
                } => return,
                Number::Divided {
                    precision: _,
                    dividend: _dividend,
                    divisor: _divisor,
                } => return,
                Number::LengthOf(_inner) => return,
                Number::IndexOf {
                    searched: _searched,
                    sought: _sought,
                } => return,
                Number::VerifyOf {
                    searched: _searched,
                    allowed: _allowed,
                } => return,
                Number::LowerBound {
                    array: _array,
                    dimension: _,
                } => return,
                Number::UpperBound {
                    array: _array,
                    dimension: _,
                } => return,
                Number::ElementsOf {
                    array: _array,
                    dimension: _,
                } => return,
                Number::Constant(_) | Number::AllocationsOf(_) | Number::OnCode => return,
            }
        }
    }
}

impl Drop for Text<'_> {
    /// Drops the expression down to its first operand, in a loop: operators stand thousands in a row.
    #[cycle(dropping_expressions)]
    fn drop(mut self) {
        loop {
            match self {
                Text::In(_inner) => return,
                Text::From {
                    callee: _,
                    arguments: _arguments,
                } => return,
                Text::OfNumber {
                    precision: _,
                    number: _number,
                } => return,
                Text::OfBit(_inner) => return,
                Text::Joined {
                    left,
                    right: _right,
                } => self = Box::into_inner(left),
                Text::SubstringFrom {
                    text: _text,
                    start: _start,
                } => return,
                Text::Substring {
                    text: _text,
                    start: _start,
                    count: _count,
                } => return,
                Text::Constant(_) => return,
            }
        }
    }
}

impl Drop for Bit<'_> {
    /// Drops the expression down to its first operand, in a loop: operators stand thousands in a row.
    #[cycle(dropping_expressions)]
    fn drop(mut self) {
        loop {
            match self {
                Bit::In(_inner) => return,
                Bit::From {
                    callee: _,
                    arguments: _arguments,
                } => return,
                Bit::OfText(_inner) => return,
                Bit::Negated(inner) => self = Box::into_inner(inner),
                Bit::Combined {
                    operator: _,
                    left,
                    right: _right,
                } => self = Box::into_inner(left),
                Bit::NumbersCompared {
                    comparison: _,
                    left,
                    right: _right,
                } => match Box::into_inner(left).into_bit() {
                    Ok(bit) => self = bit,
                    Err(_number) => return,
                },
                Bit::TextsCompared {
                    comparison: _,
                    left,
                    right: _right,
                } => match Box::into_inner(left).into_bit() {
                    Ok(bit) => self = bit,
                    Err(_text) => return,
                },
                Bit::BitsCompared {
                    comparison: _,
                    left,
                    right: _right,
                } => self = Box::into_inner(left),
                Bit::PointersCompared {
                    equal: _,
                    left: _left,
                    right: _right,
                } => return,
                Bit::OffsetsCompared {
                    equal: _,
                    left: _left,
                    right: _right,
                } => return,
                Bit::Constant(_) => return,
            }
        }
    }
}

impl Drop for Pointer<'_> {
    /// Drops the locator down to the first one, in a loop: locators stand thousands in a row.
    #[cycle(dropping_expressions)]
    fn drop(mut self) {
        loop {
            match self {
                Pointer::In(reference) => match Box::into_inner(reference) {
                    Reference::Plain {
                        variable: _,
                        part: _,
                        subscripts: _subscripts,
                    } => return,
                    Reference::Located {
                        locator,
                        variable: _,
                        part: _,
                        subscripts: _subscripts,
                    } => self = Box::into_inner(locator),
                },
                Pointer::From {
                    callee: _,
                    arguments: _arguments,
                } => return,
                Pointer::AddressOf(_inner) => return,
                Pointer::Into { offset, area: _ } => match Box::into_inner(
                    offset,
                ).into_reference()
                {
                    Ok(
                        Reference::Plain {
                            variable: _,
                            part: _,
                            subscripts: _subscripts,
                        },
                    ) => return,
                    Ok(
                        Reference::Located {
                            locator,
                            variable: _,
                            part: _,
                            subscripts: _subscripts,
                        },
                    ) => self = Box::into_inner(locator),
                    Err(_offset) => return,
                },
                Pointer::Null => return,
            }
        }
    }
}

impl<'a> Offset<'a> {
    /// The reference that it is fetched from, or itself.
    fn into_reference(self) -> Result<Reference<'a>, Offset<'a>>
        ensures reference { IfOk result (λ r. size-Reference r < size-Offset self.entry) }
        ensures other { IfErr result (λ o. o ≡ self.entry) }
    {
        match self {
            Offset::In(reference) => Ok(Box::into_inner(reference)),
            other => Err(other),
        }
    }
}

impl Drop for Offset<'_> {
    /// Drops what the expression is made of.
    #[cycle(dropping_expressions)]
    fn drop(self) {
        match self {
            Offset::In(_inner) => (),
            Offset::From {
                callee: _,
                arguments: _arguments,
            } => (),
            Offset::Into {
                pointer: _pointer,
                area: _,
            } => (),
            Offset::Null => (),
        }
    }
}

impl Drop for Numbers<'_> {
    /// Drops the list from its front, in a loop.
    #[cycle(dropping_expressions)]
    fn drop(mut self) {
        loop {
            match self {
                Numbers::End => return,
                Numbers::More {
                    first: _first,
                    rest,
                } => self = Box::into_inner(rest),
            }
        }
    }
}

impl Drop for Arguments<'_> {
    /// Drops the list from its front, in a loop.
    #[cycle(dropping_expressions)]
    fn drop(mut self) {
        loop {
            match self {
                Arguments::End => return,
                Arguments::More {
                    first: _first,
                    rest,
                } => self = Box::into_inner(rest),
            }
        }
    }
}

/// A call of a procedure.
#[derive(Drop)]
pub struct Call<'a> {
    pub callee: Callee,
    pub arguments: Arguments<'a>,
}

/// The value of an expression with its kind; NULL is a POINTER or an OFFSET as its place wants it.
#[derive(Drop)]
pub enum Value<'a> {
    Number {
        precision: u64,
        value: Box<Number<'a>>,
    },
    Text(Box<Text<'a>>),
    Bit(Box<Bit<'a>>),
    Pointer(Box<Pointer<'a>>),
    Offset {
        area: Option<Variable>,
        value: Box<Offset<'a>>,
    },
    Null,
}

/// What is checked as soon as an extent is evaluated: a length from 0 to 1,024, a size from 0 on, a pair of bounds, or
/// nothing yet.
#[derive(Clone, Copy, PartialEq, Eq, Debug)]
pub enum Check {
    None,
    Length,
    Size,
    Bounds(Bounds),
}

/// An extent that is evaluated, with its check.
#[derive(Drop)]
pub struct Evaluation<'a> {
    pub value: Number<'a>,
    pub check: Check,
}

/// The member, a leaf, that keeps the one REFER extent, and what ALLOCATE sets it to.
#[derive(Clone, Copy, PartialEq, Eq, Debug)]
pub struct ReferMember {
    pub member: usize,
    pub amount: Extent,
}

/// A variable of level 1 or a member of it: how many structures hold it, and how many dimensions it declares itself.
#[derive(Clone, Copy, PartialEq, Eq, Debug)]
pub struct Member {
    pub depth: usize,
    pub dimensions: usize,
}

/// A variable of level 1, with itself and all its members in declared order. Each extent as it is written is evaluated once, in
/// source order, for all leaves that share it.
#[derive(Drop)]
pub struct DeclaredVariable<'a> {
    pub class: StorageClass,
    pub members: Vec<Member>,
    pub leaves: Vec<Leaf<'a>>,
    pub refer: Option<ReferMember>,
    pub evaluations: Vec<Evaluation<'a>>,
}

/// A locator that ALLOCATE sets.
#[derive(Drop)]
pub enum LocatorTarget<'a> {
    Pointer(Reference<'a>),
    Offset {
        target: Reference<'a>,
        area: Variable,
    },
}

/// What ALLOCATE makes. Without an area the heap is meant.
#[derive(Drop)]
pub enum Allocation<'a> {
    Based {
        variable: Variable,
        area: Option<Variable>,
        target: LocatorTarget<'a>,
    },
    Controlled(Variable),
}

/// What FREE ends. With an area the generation must stand there.
#[derive(Drop)]
pub enum Freeing<'a> {
    Based {
        variable: Variable,
        locator: Pointer<'a>,
        area: Option<Variable>,
    },
    Controlled(Variable),
}

/// A variable that counts turns: a number or a text.
#[derive(Drop)]
pub enum Counter<'a> {
    Number {
        precision: u64,
        reference: Reference<'a>,
    },
    Text(Reference<'a>),
}

/// What GET reads into: a scalar, or an aggregate element by element.
#[derive(Drop)]
pub enum GetItem<'a> {
    Scalar(Reference<'a>),
    Aggregate(Reference<'a>),
}

/// What PUT writes: a value, or an aggregate element by element.
#[derive(Drop)]
pub enum PutItem<'a> {
    Value(Value<'a>),
    Aggregate(Reference<'a>),
}

/// A data list of GET with the format list that it goes by.
#[derive(Drop)]
pub struct GetPair<'a> {
    pub items: Vec<GetItem<'a>>,
    pub formats: &'a Formats,
}

/// A data list of PUT with the format list that it goes by.
#[derive(Drop)]
pub struct PutPair<'a> {
    pub items: Vec<PutItem<'a>>,
    pub formats: &'a Formats,
}
