// What the operations of RV32IM compute.

ghost use Rattle.std.specs.Prelude.{◌≡◌, ℕ, ◌*ℤ◌, ◌==◌, ◌<◌, ◌↔◌, IsTrue, pos, FitsSigned};
ghost use Rattle.std.specs.Int.{w64};
ghost use Rattle.rv_meaning.specs.Words as words;

use rv_meaning::instr::{BranchTest, ImmediateOp, RegisterOp, ShiftOp};

pub fn operated(op: RegisterOp, a: u32, b: u32) -> u32
    ensures { result ≡ words.operated op a b }
{
    match op {
        RegisterOp::Add => a.wrapping_add(b),
        RegisterOp::Subtract => a.wrapping_sub(b),
        RegisterOp::ShiftLeft => a << (b % 32),
        RegisterOp::SetLess => u32::from(a.cast_signed() < b.cast_signed()),
        RegisterOp::SetLessUnsigned => u32::from(a < b),
        RegisterOp::Xor => a ^ b,
        RegisterOp::ShiftRightLogical => a >> (b % 32),
        RegisterOp::ShiftRightArithmetic => shifted_right_signed(a, b % 32),
        RegisterOp::Or => a | b,
        RegisterOp::And => a & b,
        RegisterOp::Multiply => a.wrapping_mul(b),
        RegisterOp::MultiplyHigh => upper_half(
            i64::from(a.cast_signed()) * i64::from(b.cast_signed()),
        ),
        RegisterOp::MultiplyHighSignedUnsigned => upper_half(
            i64::from(a.cast_signed()) * i64::from(b),
        ),
        RegisterOp::MultiplyHighUnsigned => ((u64::from(a) * u64::from(b)) >> 32) as u32,
        RegisterOp::Divide => divided(a, b),
        RegisterOp::DivideUnsigned => if b == 0 { u32::MAX } else { a / b },
        RegisterOp::Remainder => remaining(a, b),
        RegisterOp::RemainderUnsigned => if b == 0 { a } else { a % b },
    }
}

pub fn immediate_operated(op: ImmediateOp, a: u32, b: u32) -> u32
    ensures { result ≡ words.immediate_operated op a b }
{
    match op {
        ImmediateOp::Add => a.wrapping_add(b),
        ImmediateOp::SetLess => u32::from(a.cast_signed() < b.cast_signed()),
        ImmediateOp::SetLessUnsigned => u32::from(a < b),
        ImmediateOp::Xor => a ^ b,
        ImmediateOp::Or => a | b,
        ImmediateOp::And => a & b,
    }
}

pub fn shift_operated(op: ShiftOp, a: u32, amount: u8) -> u32
    requires { amount < 32 }
    ensures { result ≡ words.shift_operated op a amount }
{
    match op {
        ShiftOp::Left => a << amount,
        ShiftOp::RightLogical => a >> amount,
        ShiftOp::RightArithmetic => shifted_right_signed(a, u32::from(amount)),
    }
}

/// Whether a branch is taken.
pub fn holds(test: BranchTest, a: u32, b: u32) -> bool
    ensures { result ≡ words.holds_of test a b }
{
    match test {
        BranchTest::Equal => a == b,
        BranchTest::NotEqual => a != b,
        BranchTest::Less => a.cast_signed() < b.cast_signed(),
        BranchTest::GreaterOrEqual => a.cast_signed() >= b.cast_signed(),
        BranchTest::LessUnsigned => a < b,
        BranchTest::GreaterOrEqualUnsigned => a >= b,
    }
}

fn shifted_right_signed(a: u32, amount: u32) -> u32
    requires { amount < 32 }
    ensures { result ≡ words.shifted_right_signed a amount }
{
    (a.cast_signed() >> amount).cast_unsigned()
}

// Of a product of 64 bits.
fn upper_half(product: i64) -> u32
    ensures { result ≡ words.upper_half product }
{
    (product.cast_unsigned() >> 32) as u32
}

fn divided(a: u32, b: u32) -> u32
    ensures { result ≡ words.operated RegisterOp.Divide a b }
{
    if b == 0 {
        u32::MAX
    } else {
        a.cast_signed()
            .wrapping_div(b.cast_signed())
            .cast_unsigned()
    }
}

fn remaining(a: u32, b: u32) -> u32
    ensures { result ≡ words.operated RegisterOp.Remainder a b }
{
    if b == 0 {
        a
    } else {
        a.cast_signed()
            .wrapping_rem(b.cast_signed())
            .cast_unsigned()
    }
}
