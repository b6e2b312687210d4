// The conditions that a program can be told of.

/// A condition. Its number stands for it where code and services exchange it.
#[derive(Clone, Copy, PartialEq, Eq, Debug)]
pub enum Condition {
    Area = 1,
    FixedOverflow = 2,
    ZeroDivide = 3,
    Endfile = 4,
    Error = 5,
}
