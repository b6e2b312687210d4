// Code before its places are known: instructions, and items that a place elsewhere completes.

ghost use Rattle.std.specs.Prelude.{◌≡◌};
ghost use Rattle.pli_coding.specs.Assembly.{item_size};
ghost use Rattle.rv_assembly.specs.View.{item_of};

use rv_meaning::instr::{Instr, Register};

/// The INITIAL values of one leaf of a variable, by the leaf's place, as their bytes.
#[derive(PartialEq, Eq, Hash, Debug, Drop)]
pub struct InitialLeaf {
    pub leaf: usize,
    pub values: Vec<u8>,
}

/// Data that stands behind the code, each thing once.
#[derive(PartialEq, Eq, Hash, Debug, Drop)]
pub enum Datum {
    /// Bytes that never change.
    ConstantBytes(Vec<u8>),
    /// The INITIAL values of a variable.
    InitialValues(Vec<InitialLeaf>),
    /// A word that keeps the number of a variable's signature; the variable by its block and place.
    NumberWord {
        block: usize,
        index: usize,
    },
    /// A variable's name, with so many bytes of storage behind it.
    StaticStorage {
        block: usize,
        index: usize,
        bytes: usize,
    },
}

/// What code names: where procedures, returns, labels and raises go on, what gives a variable's extents, and data.
#[derive(PartialEq, Eq, Hash, Debug, Drop)]
pub enum Symbol {
    ProcedureEntry { block: usize },
    ReturnPlace { block: usize },
    LabelPlace { block: usize, letters: Vec<u8> },
    RaiseCondition,
    RaiseError,
    ErrorEnd,
    ExtentRoutine { block: usize, index: usize },
    DataPlace(Datum),
}

/// A piece of code whose size is known by itself.
#[derive(Debug, Drop)]
pub enum Item {
    Plain(Instr),
    /// The base, from the place where it is asked for.
    BaseIn(Register),
    /// The distance of a place from the base.
    OffsetOf(Register, Symbol),
    /// The distance from the base of the place so many words behind this item.
    OffsetAhead(Register, usize),
    /// A jump of any length.
    JumpTo(Symbol),
    /// A jump that leaves the place behind it in the return register.
    CallTo(Symbol),
    /// A jump over so many words behind this item.
    JumpAhead(usize),
    /// A jump to the place so many words before this item.
    JumpBack(usize),
    /// Here is the place of a symbol.
    Mark(Symbol),
}

impl Item {
    /// In words.
    pub fn size(&self) -> usize
        ensures { result ≡ item_size (item_of self.now) }
    {
        match self {
            Item::Plain(_) => 1,
            Item::Mark(_) => 0,
            _ => 2,
        }
    }
}
