// The instruction of a word.

ghost use Rattle.std.specs.Prelude.{◌≡◌, ℕ, ◌+◌, ◌-◌, ◌*◌, ◌/◌, ◌%◌, ◌^◌, ◌<◌, ◌≤◌, ℤ, pos, negsuc, nat_lt, if◌then◌else◌, ◌⊎◌, IfSome, IfNone, Option, Some};
ghost use Rattle.std.specs.Int.{w32, cast_unsigned};
ghost use Rattle.rv_meaning.specs.declared.instr.Instr.{Instr};
ghost use Rattle.rv_meaning.specs.Encoding.{part, word_of, Fits, IsWithin, IsEven};

use crate::fields;
use crate::fields::field;
use rv_meaning::instr::{
    BranchTest, ImmediateOp, Instr, LoadKind, Register, RegisterOp, ShiftOp, StoreKind,
};

/// The instruction whose word this is, or `None` where no instruction has it. FENCE counts only with rd, rs1 and fm 0,
/// and of SYSTEM only ECALL and EBREAK.
#[tactic(auto, using(crate::proofs::Unique::same))]
pub fn decode(word: u32) -> Option<Instr>
    ensures found { IfSome result (λ i. Fits i × (word_of i ≡ word)) }
    ensures missed { IfNone result ((i : Instr) → Fits i → word_of i ≡ word → ⊥) }
    ensures exact { (i : Instr) → Fits i → word_of i ≡ word → result ≡ Some i }
{
    instruction_of(word)
}

fn instruction_of(word: u32) -> Option<Instr>
    ensures found { IfSome result (λ i. Fits i × (word_of i ≡ word)) }
    ensures missed { IfNone result ((i : Instr) → Fits i → word_of i ≡ word → ⊥) }
{
    match field(word, 0, 7) {
        fields::LOAD_UPPER => Some(Instr::LoadUpper {
            rd: rd(word),
            upper: field(word, 12, 20),
        }),
        fields::ADD_UPPER_TO_PC => Some(Instr::AddUpperToPc {
            rd: rd(word),
            upper: field(word, 12, 20),
        }),
        fields::JUMP => Some(Instr::Jump {
            rd: rd(word),
            offset: jump_offset(word),
        }),
        fields::JUMP_REGISTER => jump_register(word),
        fields::BRANCH => branch(word),
        fields::LOAD => load(word),
        fields::STORE => store(word),
        fields::IMMEDIATE => immediate_or_shift(word),
        fields::REGISTERS => registers(word),
        fields::FENCE => fence(word),
        _ => match word {
            fields::ECALL => Some(Instr::Ecall),
            fields::EBREAK => Some(Instr::Ebreak),
            _ => None,
        },
    }
}

fn register(word: u32, low: u32) -> Register
    requires { low < 32 }
    ensures { result.index ≡ word / 2 ^ low % 2 ^ 5 }
{
    Register {
        index: field(word, low, 5) as u8,
    }
}

fn rd(word: u32) -> Register
    ensures { result.index ≡ word / 2 ^ 7 % 2 ^ 5 }
{
    register(word, 7)
}

fn rs1(word: u32) -> Register
    ensures { result.index ≡ word / 2 ^ 15 % 2 ^ 5 }
{
    register(word, 15)
}

fn rs2(word: u32) -> Register
    ensures { result.index ≡ word / 2 ^ 20 % 2 ^ 5 }
{
    register(word, 20)
}

// The number whose lowest bits these are, the sign bit, of this value, being the highest of them.
fn sign_extended(bits: u32, sign: u32) -> i32
    requires in_word { sign ≤ 2 ^ 30 }
    requires narrow { bits < 2 * sign }
    ensures { result ≡ (if nat_lt bits sign then pos bits else negsuc (2 * sign - 1 - bits)) }
{
    if bits < sign {
        bits as i32
    } else {
        (bits - sign) as i32 - sign as i32
    }
}

fn immediate(word: u32) -> i32
    ensures fits { IsWithin 11 result }
    ensures bits { (part result 12 0).value ≡ word / 2 ^ 20 % 2 ^ 12 }
{
    sign_extended(field(word, 20, 12), 1 << 11)
}

fn store_offset(word: u32) -> i32
    ensures fits { IsWithin 11 result }
    ensures upper { (part result 7 5).value ≡ word / 2 ^ 25 % 2 ^ 7 }
    ensures lower { (part result 5 0).value ≡ word / 2 ^ 7 % 2 ^ 5 }
{
    sign_extended((field(word, 25, 7) << 5) + field(word, 7, 5), 1 << 11)
}

fn branch_offset(word: u32) -> i32
    ensures fits { IsWithin 12 result }
    ensures even { IsEven result }
    ensures bit_12 { (part result 1 12).value ≡ word / 2 ^ 31 % 2 }
    ensures bits_10_to_5 { (part result 6 5).value ≡ word / 2 ^ 25 % 2 ^ 6 }
    ensures bits_4_to_1 { (part result 4 1).value ≡ word / 2 ^ 8 % 2 ^ 4 }
    ensures bit_11 { (part result 1 11).value ≡ word / 2 ^ 7 % 2 }
{
    let bits = (field(word, 31, 1) << 12)
        + (field(word, 7, 1) << 11)
        + (field(word, 25, 6) << 5)
        + (field(word, 8, 4) << 1);
    sign_extended(bits, 1 << 12)
}

fn jump_offset(word: u32) -> i32
    ensures fits { IsWithin 20 result }
    ensures even { IsEven result }
    ensures bit_20 { (part result 1 20).value ≡ word / 2 ^ 31 % 2 }
    ensures bits_10_to_1 { (part result 10 1).value ≡ word / 2 ^ 21 % 2 ^ 10 }
    ensures bit_11 { (part result 1 11).value ≡ word / 2 ^ 20 % 2 }
    ensures bits_19_to_12 { (part result 8 12).value ≡ word / 2 ^ 12 % 2 ^ 8 }
{
    let bits = (field(word, 31, 1) << 20)
        + (field(word, 12, 8) << 12)
        + (field(word, 20, 1) << 11)
        + (field(word, 21, 10) << 1);
    sign_extended(bits, 1 << 20)
}

fn jump_register(word: u32) -> Option<Instr>
    requires { word % 128 ≡ 0b1100111 }
    ensures found { IfSome result (λ i. Fits i × (word_of i ≡ word)) }
    ensures missed { IfNone result ((i : Instr) → Fits i → word_of i ≡ word → ⊥) }
{
    match field(word, 12, 3) {
        0b000 => Some(Instr::JumpRegister {
            rd: rd(word),
            rs1: rs1(word),
            offset: immediate(word),
        }),
        _ => None,
    }
}

fn branch(word: u32) -> Option<Instr>
    requires { word % 128 ≡ 0b1100011 }
    ensures found { IfSome result (λ i. Fits i × (word_of i ≡ word)) }
    ensures missed { IfNone result ((i : Instr) → Fits i → word_of i ≡ word → ⊥) }
{
    let test = match field(word, 12, 3) {
        0b000 => BranchTest::Equal,
        0b001 => BranchTest::NotEqual,
        0b100 => BranchTest::Less,
        0b101 => BranchTest::GreaterOrEqual,
        0b110 => BranchTest::LessUnsigned,
        0b111 => BranchTest::GreaterOrEqualUnsigned,
        _ => return None,
    };
    Some(Instr::Branch {
        test,
        rs1: rs1(word),
        rs2: rs2(word),
        offset: branch_offset(word),
    })
}

fn load(word: u32) -> Option<Instr>
    requires { word % 128 ≡ 0b0000011 }
    ensures found { IfSome result (λ i. Fits i × (word_of i ≡ word)) }
    ensures missed { IfNone result ((i : Instr) → Fits i → word_of i ≡ word → ⊥) }
{
    let kind = match field(word, 12, 3) {
        0b000 => LoadKind::Byte,
        0b001 => LoadKind::Half,
        0b010 => LoadKind::Word,
        0b100 => LoadKind::ByteUnsigned,
        0b101 => LoadKind::HalfUnsigned,
        _ => return None,
    };
    Some(Instr::Load {
        kind,
        rd: rd(word),
        rs1: rs1(word),
        offset: immediate(word),
    })
}

fn store(word: u32) -> Option<Instr>
    requires { word % 128 ≡ 0b0100011 }
    ensures found { IfSome result (λ i. Fits i × (word_of i ≡ word)) }
    ensures missed { IfNone result ((i : Instr) → Fits i → word_of i ≡ word → ⊥) }
{
    let kind = match field(word, 12, 3) {
        0b000 => StoreKind::Byte,
        0b001 => StoreKind::Half,
        0b010 => StoreKind::Word,
        _ => return None,
    };
    Some(Instr::Store {
        kind,
        rs1: rs1(word),
        rs2: rs2(word),
        offset: store_offset(word),
    })
}

fn immediate_or_shift(word: u32) -> Option<Instr>
    requires { word % 128 ≡ 0b0010011 }
    ensures found { IfSome result (λ i. Fits i × (word_of i ≡ word)) }
    ensures missed { IfNone result ((i : Instr) → Fits i → word_of i ≡ word → ⊥) }
{
    let op = match field(word, 12, 3) {
        0b000 => ImmediateOp::Add,
        0b010 => ImmediateOp::SetLess,
        0b011 => ImmediateOp::SetLessUnsigned,
        0b100 => ImmediateOp::Xor,
        0b110 => ImmediateOp::Or,
        0b111 => ImmediateOp::And,
        _ => return shift(word),
    };
    Some(Instr::Immediate {
        op,
        rd: rd(word),
        rs1: rs1(word),
        immediate: immediate(word),
    })
}

fn shift(word: u32) -> Option<Instr>
    requires opcode { word % 128 ≡ 0b0010011 }
    requires funct3 { (word / 2 ^ 12 % 8 ≡ 0b001) ⊎ (word / 2 ^ 12 % 8 ≡ 0b101) }
    ensures found { IfSome result (λ i. Fits i × (word_of i ≡ word)) }
    ensures missed { IfNone result ((i : Instr) → Fits i → word_of i ≡ word → ⊥) }
{
    let op = match (field(word, 25, 7), field(word, 12, 3)) {
        (0b000_0000, 0b001) => ShiftOp::Left,
        (0b000_0000, 0b101) => ShiftOp::RightLogical,
        (0b010_0000, 0b101) => ShiftOp::RightArithmetic,
        _ => return None,
    };
    Some(Instr::Shift {
        op,
        rd: rd(word),
        rs1: rs1(word),
        amount: field(word, 20, 5) as u8,
    })
}

fn registers(word: u32) -> Option<Instr>
    requires { word % 128 ≡ 0b0110011 }
    ensures found { IfSome result (λ i. Fits i × (word_of i ≡ word)) }
    ensures missed { IfNone result ((i : Instr) → Fits i → word_of i ≡ word → ⊥) }
{
    let op = match (field(word, 25, 7), field(word, 12, 3)) {
        (0b000_0000, 0b000) => RegisterOp::Add,
        (0b010_0000, 0b000) => RegisterOp::Subtract,
        (0b000_0000, 0b001) => RegisterOp::ShiftLeft,
        (0b000_0000, 0b010) => RegisterOp::SetLess,
        (0b000_0000, 0b011) => RegisterOp::SetLessUnsigned,
        (0b000_0000, 0b100) => RegisterOp::Xor,
        (0b000_0000, 0b101) => RegisterOp::ShiftRightLogical,
        (0b010_0000, 0b101) => RegisterOp::ShiftRightArithmetic,
        (0b000_0000, 0b110) => RegisterOp::Or,
        (0b000_0000, 0b111) => RegisterOp::And,
        (0b000_0001, 0b000) => RegisterOp::Multiply,
        (0b000_0001, 0b001) => RegisterOp::MultiplyHigh,
        (0b000_0001, 0b010) => RegisterOp::MultiplyHighSignedUnsigned,
        (0b000_0001, 0b011) => RegisterOp::MultiplyHighUnsigned,
        (0b000_0001, 0b100) => RegisterOp::Divide,
        (0b000_0001, 0b101) => RegisterOp::DivideUnsigned,
        (0b000_0001, 0b110) => RegisterOp::Remainder,
        (0b000_0001, 0b111) => RegisterOp::RemainderUnsigned,
        _ => return None,
    };
    Some(Instr::Registers {
        op,
        rd: rd(word),
        rs1: rs1(word),
        rs2: rs2(word),
    })
}

// Only with rd, rs1 and fm 0.
fn fence(word: u32) -> Option<Instr>
    requires { word % 128 ≡ 0b0001111 }
    ensures found { IfSome result (λ i. Fits i × (word_of i ≡ word)) }
    ensures missed { IfNone result ((i : Instr) → Fits i → word_of i ≡ word → ⊥) }
{
    if field(word, 7, 13) != 0 || field(word, 28, 4) != 0 {
        return None;
    }
    Some(Instr::Fence {
        predecessor: field(word, 24, 4) as u8,
        successor: field(word, 20, 4) as u8,
    })
}
