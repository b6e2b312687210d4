// The fixed fields of each format, and a field of a word by its place.

ghost use Rattle.std.specs.Prelude.{◌≡◌, ℕ, ◌+◌, ◌*◌, ◌/◌, ◌%◌, ◌^◌, ◌<◌, ◌≤◌};
ghost use Rattle.rv_meaning.specs.Encoding as encoding;

use rv_meaning::instr::{BranchTest, ImmediateOp, LoadKind, RegisterOp, ShiftOp, StoreKind};

pub const LOAD_UPPER: u32 = 0b0110111;

pub const ADD_UPPER_TO_PC: u32 = 0b0010111;

pub const JUMP: u32 = 0b1101111;

pub const JUMP_REGISTER: u32 = 0b1100111;

pub const BRANCH: u32 = 0b1100011;

pub const LOAD: u32 = 0b0000011;

pub const STORE: u32 = 0b0100011;

pub const IMMEDIATE: u32 = 0b0010011;

pub const REGISTERS: u32 = 0b0110011;

pub const FENCE: u32 = 0b0001111;

pub const ECALL: u32 = 0x0000_0073;

pub const EBREAK: u32 = 0x0010_0073;

/// The `width` bits of `word` from bit `low` on.
pub fn field(word: u32, low: u32, width: u32) -> u32
    requires low_in_word { low < 32 }
    requires width_in_word { width < 32 }
    ensures value { result ≡ word / 2 ^ low % 2 ^ width }
    ensures narrow { result < 2 ^ width }
{
    (word >> low) % (1 << width)
}

pub fn branch_funct3(test: BranchTest) -> u32
    ensures value { result ≡ encoding.branch_funct3 test }
    ensures narrow { result < 8 }
{
    match test {
        BranchTest::Equal => 0b000,
        BranchTest::NotEqual => 0b001,
        BranchTest::Less => 0b100,
        BranchTest::GreaterOrEqual => 0b101,
        BranchTest::LessUnsigned => 0b110,
        BranchTest::GreaterOrEqualUnsigned => 0b111,
    }
}

pub fn load_funct3(kind: LoadKind) -> u32
    ensures value { result ≡ encoding.load_funct3 kind }
    ensures narrow { result < 8 }
{
    match kind {
        LoadKind::Byte => 0b000,
        LoadKind::Half => 0b001,
        LoadKind::Word => 0b010,
        LoadKind::ByteUnsigned => 0b100,
        LoadKind::HalfUnsigned => 0b101,
    }
}

pub fn store_funct3(kind: StoreKind) -> u32
    ensures value { result ≡ encoding.store_funct3 kind }
    ensures narrow { result < 8 }
{
    match kind {
        StoreKind::Byte => 0b000,
        StoreKind::Half => 0b001,
        StoreKind::Word => 0b010,
    }
}

pub fn immediate_funct3(op: ImmediateOp) -> u32
    ensures value { result ≡ encoding.immediate_funct3 op }
    ensures narrow { result < 8 }
{
    match op {
        ImmediateOp::Add => 0b000,
        ImmediateOp::SetLess => 0b010,
        ImmediateOp::SetLessUnsigned => 0b011,
        ImmediateOp::Xor => 0b100,
        ImmediateOp::Or => 0b110,
        ImmediateOp::And => 0b111,
    }
}

/// funct7 and funct3.
pub fn shift_functs(op: ShiftOp) -> (u32, u32)
    ensures upper { result.0 ≡ encoding.shift_funct7 op }
    ensures lower { result.1 ≡ encoding.shift_funct3 op }
    ensures narrow { (result.0 < 128) × (result.1 < 8) }
{
    match op {
        ShiftOp::Left => (0b000_0000, 0b001),
        ShiftOp::RightLogical => (0b000_0000, 0b101),
        ShiftOp::RightArithmetic => (0b010_0000, 0b101),
    }
}

/// funct7 and funct3.
pub fn register_functs(op: RegisterOp) -> (u32, u32)
    ensures upper { result.0 ≡ encoding.register_funct7 op }
    ensures lower { result.1 ≡ encoding.register_funct3 op }
    ensures narrow { (result.0 < 128) × (result.1 < 8) }
{
    match op {
        RegisterOp::Add => (0b000_0000, 0b000),
        RegisterOp::Subtract => (0b010_0000, 0b000),
        RegisterOp::ShiftLeft => (0b000_0000, 0b001),
        RegisterOp::SetLess => (0b000_0000, 0b010),
        RegisterOp::SetLessUnsigned => (0b000_0000, 0b011),
        RegisterOp::Xor => (0b000_0000, 0b100),
        RegisterOp::ShiftRightLogical => (0b000_0000, 0b101),
        RegisterOp::ShiftRightArithmetic => (0b010_0000, 0b101),
        RegisterOp::Or => (0b000_0000, 0b110),
        RegisterOp::And => (0b000_0000, 0b111),
        RegisterOp::Multiply => (0b000_0001, 0b000),
        RegisterOp::MultiplyHigh => (0b000_0001, 0b001),
        RegisterOp::MultiplyHighSignedUnsigned => (0b000_0001, 0b010),
        RegisterOp::MultiplyHighUnsigned => (0b000_0001, 0b011),
        RegisterOp::Divide => (0b000_0001, 0b100),
        RegisterOp::DivideUnsigned => (0b000_0001, 0b101),
        RegisterOp::Remainder => (0b000_0001, 0b110),
        RegisterOp::RemainderUnsigned => (0b000_0001, 0b111),
    }
}
