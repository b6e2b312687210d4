// The word of an instruction.

ghost use Rattle.std.specs.Prelude.{◌≡◌, ℕ, ◌+◌, ◌*◌, ◌/◌, ◌%◌, ◌^◌, ◌<◌, ◌≤◌};
ghost use Rattle.std.specs.Int.{w32, cast_unsigned};
ghost use Rattle.rv_meaning.specs.Encoding.{spelled, part, format_r, format_i, format_s, format_b, format_u, format_j, format_shift, word_of, Fits};

use crate::fields;
use crate::fields::field;
use rv_meaning::instr::{Instr, Register};

/// The word of an instruction whose fields hold its operands.
pub fn encode(instr: Instr) -> u32
    requires { Fits instr }
    ensures { result ≡ word_of instr }
{
    match instr {
        Instr::LoadUpper { rd, upper } => with_upper(upper, rd, fields::LOAD_UPPER),
        Instr::AddUpperToPc { rd, upper } => with_upper(upper, rd, fields::ADD_UPPER_TO_PC),
        Instr::Jump { rd, offset } => jump(offset, rd),
        Instr::JumpRegister { rd, rs1, offset } => {
            with_immediate(offset, rs1, 0b000, rd, fields::JUMP_REGISTER)
        }
        Instr::Branch {
            test,
            rs1,
            rs2,
            offset,
        } => { branch(offset, rs2, rs1, fields::branch_funct3(test)) }
        Instr::Load {
            kind,
            rd,
            rs1,
            offset,
        } => { with_immediate(offset, rs1, fields::load_funct3(kind), rd, fields::LOAD) }
        Instr::Store {
            kind,
            rs1,
            rs2,
            offset,
        } => { store(offset, rs2, rs1, fields::store_funct3(kind)) }
        Instr::Immediate {
            op,
            rd,
            rs1,
            immediate,
        } => {
            with_immediate(
                immediate,
                rs1,
                fields::immediate_funct3(op),
                rd,
                fields::IMMEDIATE,
            )
        }
        Instr::Shift {
            op,
            rd,
            rs1,
            amount,
        } => {
            let (funct7, funct3) = fields::shift_functs(op);
            with_source(
                funct7,
                u32::from(amount),
                rs1,
                funct3,
                rd,
                fields::IMMEDIATE,
            )
        }
        Instr::Registers { op, rd, rs1, rs2 } => {
            let (funct7, funct3) = fields::register_functs(op);
            with_source(
                funct7,
                u32::from(rs2.index),
                rs1,
                funct3,
                rd,
                fields::REGISTERS,
            )
        }
        Instr::Fence {
            predecessor,
            successor,
        } => { (u32::from(predecessor) << 24) + (u32::from(successor) << 20) + fields::FENCE }
        Instr::Ecall => fields::ECALL,
        Instr::Ebreak => fields::EBREAK,
    }
}

// The second source stands where a shift has its amount.
fn with_source(
    funct7: u32,
    source: u32,
    rs1: Register,
    funct3: u32,
    rd: Register,
    opcode: u32,
) -> u32
    requires funct7_narrow { funct7 < 128 }
    requires source_narrow { source < 32 }
    requires funct3_narrow { funct3 < 8 }
    requires opcode_narrow { opcode < 128 }
    ensures { result ≡ spelled (format_shift funct7 source rs1 funct3 rd opcode) }
{
    (funct7 << 25)
        + (source << 20)
        + (u32::from(rs1.index) << 15)
        + (funct3 << 12)
        + (u32::from(rd.index) << 7)
        + opcode
}

fn with_immediate(immediate: i32, rs1: Register, funct3: u32, rd: Register, opcode: u32) -> u32
    requires funct3_narrow { funct3 < 8 }
    requires opcode_narrow { opcode < 128 }
    ensures { result ≡ spelled (format_i immediate rs1 funct3 rd opcode) }
{
    (field(immediate.cast_unsigned(), 0, 12) << 20)
        + (u32::from(rs1.index) << 15)
        + (funct3 << 12)
        + (u32::from(rd.index) << 7)
        + opcode
}

fn store(offset: i32, rs2: Register, rs1: Register, funct3: u32) -> u32
    requires { funct3 < 8 }
    ensures { result ≡ spelled (format_s offset rs2 rs1 funct3 0b0100011) }
{
    let bits = offset.cast_unsigned();
    (field(bits, 5, 7) << 25)
        + (u32::from(rs2.index) << 20)
        + (u32::from(rs1.index) << 15)
        + (funct3 << 12)
        + (field(bits, 0, 5) << 7)
        + fields::STORE
}

fn branch(offset: i32, rs2: Register, rs1: Register, funct3: u32) -> u32
    requires { funct3 < 8 }
    ensures { result ≡ spelled (format_b offset rs2 rs1 funct3 0b1100011) }
{
    let bits = offset.cast_unsigned();
    (field(bits, 12, 1) << 31)
        + (field(bits, 5, 6) << 25)
        + (u32::from(rs2.index) << 20)
        + (u32::from(rs1.index) << 15)
        + (funct3 << 12)
        + (field(bits, 1, 4) << 8)
        + (field(bits, 11, 1) << 7)
        + fields::BRANCH
}

fn with_upper(upper: u32, rd: Register, opcode: u32) -> u32
    requires upper_narrow { upper < 2 ^ 20 }
    requires opcode_narrow { opcode < 128 }
    ensures { result ≡ spelled (format_u upper rd opcode) }
{
    (upper << 12) + (u32::from(rd.index) << 7) + opcode
}

fn jump(offset: i32, rd: Register) -> u32
    ensures { result ≡ spelled (format_j offset rd 0b1101111) }
{
    let bits = offset.cast_unsigned();
    (field(bits, 20, 1) << 31)
        + (field(bits, 1, 10) << 21)
        + (field(bits, 11, 1) << 20)
        + (field(bits, 12, 8) << 12)
        + (u32::from(rd.index) << 7)
        + fields::JUMP
}
