// The instructions of RV32I with M, and the ways in which a machine stops at one.

ghost use Rattle.std.specs.Prelude.{◌<◌};

/// A register, x0 to x31.
#[derive(Clone, Copy, PartialEq, Eq, Debug)]
pub struct Register {
    pub index: u8,
    ghost in_range: { index < 32 },
}

/// What a branch tests of its two operands; the last two read them without a sign.
#[derive(Clone, Copy, PartialEq, Eq, Debug)]
pub enum BranchTest {
    Equal,
    NotEqual,
    Less,
    GreaterOrEqual,
    LessUnsigned,
    GreaterOrEqualUnsigned,
}

/// What a load reads: a byte, a half word or a word, and whether its sign fills the register.
#[derive(Clone, Copy, PartialEq, Eq, Debug)]
pub enum LoadKind {
    Byte,
    Half,
    Word,
    ByteUnsigned,
    HalfUnsigned,
}

/// What a store writes.
#[derive(Clone, Copy, PartialEq, Eq, Debug)]
pub enum StoreKind {
    Byte,
    Half,
    Word,
}

/// The operations that have a form with an immediate operand.
#[derive(Clone, Copy, PartialEq, Eq, Debug)]
pub enum ImmediateOp {
    Add,
    SetLess,
    SetLessUnsigned,
    Xor,
    Or,
    And,
}

/// The shifts by a constant amount.
#[derive(Clone, Copy, PartialEq, Eq, Debug)]
pub enum ShiftOp {
    Left,
    RightLogical,
    RightArithmetic,
}

/// The operations on two registers, M's eight last.
#[derive(Clone, Copy, PartialEq, Eq, Debug)]
pub enum RegisterOp {
    Add,
    Subtract,
    ShiftLeft,
    SetLess,
    SetLessUnsigned,
    Xor,
    ShiftRightLogical,
    ShiftRightArithmetic,
    Or,
    And,
    Multiply,
    MultiplyHigh,
    MultiplyHighSignedUnsigned,
    MultiplyHighUnsigned,
    Divide,
    DivideUnsigned,
    Remainder,
    RemainderUnsigned,
}

/// An instruction. Immediates and offsets are signed numbers of bytes; `upper` is the 20-bit field of LUI and AUIPC.
#[derive(Clone, Copy, PartialEq, Eq, Debug)]
pub enum Instr {
    LoadUpper {
        rd: Register,
        upper: u32,
    },
    AddUpperToPc {
        rd: Register,
        upper: u32,
    },
    Jump {
        rd: Register,
        offset: i32,
    },
    JumpRegister {
        rd: Register,
        rs1: Register,
        offset: i32,
    },
    Branch {
        test: BranchTest,
        rs1: Register,
        rs2: Register,
        offset: i32,
    },
    Load {
        kind: LoadKind,
        rd: Register,
        rs1: Register,
        offset: i32,
    },
    Store {
        kind: StoreKind,
        rs1: Register,
        rs2: Register,
        offset: i32,
    },
    Immediate {
        op: ImmediateOp,
        rd: Register,
        rs1: Register,
        immediate: i32,
    },
    Shift {
        op: ShiftOp,
        rd: Register,
        rs1: Register,
        amount: u8,
    },
    Registers {
        op: RegisterOp,
        rd: Register,
        rs1: Register,
        rs2: Register,
    },
    Fence {
        predecessor: u8,
        successor: u8,
    },
    Ecall,
    Ebreak,
}

/// Why a machine stops at an instruction; of several the one of the least number is answered.
#[derive(Clone, Copy, PartialEq, Eq, PartialOrd, Ord, Debug)]
pub enum Fault {
    Illegal = 1,
    Misaligned = 2,
    Range = 3,
    BadService = 4,
}
