// Short sequences of instructions.

ghost use Rattle.std.specs.Prelude.{◌≡◌, ℕ, ◌<◌, ◌^◌, ℤ, pos, [], ◌∷◌, ◌++◌, OnOk, IfOk};
ghost use Rattle.rv_meaning.specs.declared.instr.Instr.{Instr};
ghost use Rattle.rv_meaning.specs.declared.instr.Instr.TheVariants as I;
ghost use Rattle.rv_meaning.specs.declared.instr.Register.{Register};
ghost use Rattle.rv_meaning.specs.declared.instr.ImmediateOp.TheVariants as Imm;
ghost use Rattle.rv_meaning.specs.Encoding.{Fits, IsWithin};
ghost use Rattle.pli_coding.specs.Assembly.{Plain};
ghost use Rattle.pli_coding.specs.Instructions as form;
ghost use Rattle.rv_assembly.specs.Emitted.{wide};

use crate::code::Code;
use crate::item::{Item, Symbol};
use crate::parts::{is_immediate, lower_of, upper_of};
use crate::registers;
use rv_meaning::instr::{
    BranchTest, ImmediateOp, Instr, LoadKind, Register, RegisterOp, ShiftOp, StoreKind,
};
use std::alloc::AllocError;

impl Code {
    /// An instruction whose fields hold its operands.
    pub fn plain(&mut self, instr: Instr) -> Result<(), AllocError>
        requires { Fits instr }
        ensures { OnOk result (self.new ≡ self.old ++ Plain instr ∷ []) }
    {
        self.push(Item::Plain(instr))
    }

    pub fn immediate(
        &mut self,
        op: ImmediateOp,
        rd: Register,
        rs: Register,
        number: i32,
    ) -> Result<(), AllocError>
        requires { IsWithin 11 number }
        ensures { OnOk result (self.new ≡ self.old ++ form.immediate op rd rs number ∷ []) }
    {
        self.plain(Instr::Immediate {
            op,
            rd,
            rs1: rs,
            immediate: number,
        })
    }

    pub fn shift(
        &mut self,
        op: ShiftOp,
        rd: Register,
        rs: Register,
        amount: u8,
    ) -> Result<(), AllocError>
        requires { amount < 32 }
        ensures { OnOk result (self.new ≡ self.old ++ form.shift op rd rs amount ∷ []) }
    {
        self.plain(Instr::Shift {
            op,
            rd,
            rs1: rs,
            amount,
        })
    }

    pub fn registers(
        &mut self,
        op: RegisterOp,
        rd: Register,
        rs: Register,
        rt: Register,
    ) -> Result<(), AllocError>
        ensures { OnOk result (self.new ≡ self.old ++ form.registers op rd rs rt ∷ []) }
    {
        self.plain(Instr::Registers {
            op,
            rd,
            rs1: rs,
            rs2: rt,
        })
    }

    pub fn add(&mut self, rd: Register, rs: Register, rt: Register) -> Result<(), AllocError>
        ensures { OnOk result (self.new ≡ self.old ++ form.add rd rs rt ∷ []) }
    {
        self.registers(RegisterOp::Add, rd, rs, rt)
    }

    pub fn subtract(&mut self, rd: Register, rs: Register, rt: Register) -> Result<(), AllocError>
        ensures { OnOk result (self.new ≡ self.old ++ form.subtract rd rs rt ∷ []) }
    {
        self.registers(RegisterOp::Subtract, rd, rs, rt)
    }

    /// A register's value in another.
    pub fn copy(&mut self, rd: Register, rs: Register) -> Result<(), AllocError>
        ensures { OnOk result (self.new ≡ self.old ++ form.move rd rs ∷ []) }
    {
        self.immediate(ImmediateOp::Add, rd, rs, 0)
    }

    /// A number below 2048.
    pub fn small(&mut self, register: Register, number: u32) -> Result<(), AllocError>
        requires { number < 2048 }
        ensures { OnOk result (self.new ≡ self.old ++ form.small register number ∷ []) }
    {
        self.immediate(ImmediateOp::Add, register, registers::zero(), number as i32)
    }

    /// The word with the highest bit alone.
    pub fn lowest_number(&mut self, register: Register) -> Result<(), AllocError>
        ensures { OnOk result (self.new ≡ self.old ++ form.lowest_number register ∷ []) }
    {
        self.plain(Instr::LoadUpper {
            rd: register,
            upper: 1 << 19,
        })
    }

    // A word in two instructions.
    fn wide(&mut self, register: Register, word: u32) -> Result<(), AllocError>
        ensures { OnOk result (self.new ≡ self.old ++ wide register word) }
    {
        self.plain(Instr::LoadUpper {
            rd: register,
            upper: upper_of(word),
        })?;
        self.immediate(ImmediateOp::Add, register, register, lower_of(word))
    }

    /// A number in a register.
    pub fn constant(&mut self, register: Register, number: i32) -> Result<(), AllocError>
        ensures { OnOk result (self.new ≡ self.old ++ form.constant register number) }
    {
        if is_immediate(number) {
            self.immediate(ImmediateOp::Add, register, registers::zero(), number)
        } else {
            self.wide(register, number.cast_unsigned())
        }
    }

    /// A number without a sign in a register.
    pub fn number(&mut self, register: Register, number: u32) -> Result<(), AllocError>
        ensures { OnOk result (self.new ≡ self.old ++ form.number register number) }
    {
        if number < 2048 {
            self.small(register, number)
        } else {
            self.wide(register, number)
        }
    }

    // The register and the displacement that an instruction is to have, for a displacement of any size.
    fn displaced(
        &mut self,
        register: Register,
        displacement: i32,
    ) -> Result<(Register, i32), AllocError>
        ensures placed { IfOk result (λ p. (instruction : Register → ℤ → Instr) → self.new ++ Plain (instruction p.0 p.1) ∷ [] ≡ self.old ++ form.displaced instruction register displacement) }
        ensures within { IfOk result (λ p. IsWithin 11 p.1) }
    {
        if is_immediate(displacement) {
            return Ok((register, displacement));
        }
        let word = displacement.cast_unsigned();
        self.plain(Instr::LoadUpper {
            rd: registers::far(),
            upper: upper_of(word),
        })?;
        self.add(registers::far(), registers::far(), register)?;
        Ok((registers::far(), lower_of(word)))
    }

    /// A register's value and a number, in another register.
    pub fn plus(&mut self, rd: Register, rs: Register, number: i32) -> Result<(), AllocError>
        ensures { OnOk result (self.new ≡ self.old ++ form.plus rd rs number) }
    {
        let (rs1, immediate) = self.displaced(rs, number)?;
        Ok(self.plain(Instr::Immediate {
            op: ImmediateOp::Add,
            rd,
            rs1,
            immediate,
        })?)
    }

    /// What stands so far from a register's value, in another register.
    pub fn load(
        &mut self,
        kind: LoadKind,
        rd: Register,
        rs: Register,
        displacement: i32,
    ) -> Result<(), AllocError>
        ensures { OnOk result (self.new ≡ self.old ++ form.displaced (λ r d. I.Load kind rd r d) rs displacement) }
    {
        let (rs1, offset) = self.displaced(rs, displacement)?;
        Ok(self.plain(Instr::Load {
            kind,
            rd,
            rs1,
            offset,
        })?)
    }

    /// A value, so far from a register's value.
    pub fn store(
        &mut self,
        kind: StoreKind,
        rs: Register,
        value: Register,
        displacement: i32,
    ) -> Result<(), AllocError>
        ensures { OnOk result (self.new ≡ self.old ++ form.displaced (λ r d. I.Store kind r value d) rs displacement) }
    {
        let (rs1, offset) = self.displaced(rs, displacement)?;
        Ok(self.plain(Instr::Store {
            kind,
            rs1,
            rs2: value,
            offset,
        })?)
    }

    pub fn load_word(
        &mut self,
        rd: Register,
        rs: Register,
        displacement: i32,
    ) -> Result<(), AllocError>
        ensures { OnOk result (self.new ≡ self.old ++ form.load_word rd rs displacement) }
    {
        self.load(LoadKind::Word, rd, rs, displacement)
    }

    pub fn store_word(
        &mut self,
        rs: Register,
        value: Register,
        displacement: i32,
    ) -> Result<(), AllocError>
        ensures { OnOk result (self.new ≡ self.old ++ form.store_word rs value displacement) }
    {
        self.store(StoreKind::Word, rs, value, displacement)
    }

    /// The call of a service by its number.
    pub fn service(&mut self, number: u32) -> Result<(), AllocError>
        requires { number < 2048 }
        ensures { OnOk result (self.new ≡ self.old ++ form.service number) }
    {
        self.small(registers::a7(), number)?;
        self.plain(Instr::Ecall)
    }

    /// ERROR where a service's status isn't 0.
    #[tactic(auto, using(crate::proofs::Patching::patching))]
    pub fn status_tested(&mut self) -> Result<(), AllocError>
        ensures { OnOk result (self.new ≡ self.old ++ form.status_tested) }
    {
        let place = self.keep_branch()?;
        self.push(Item::JumpTo(Symbol::RaiseError))?;
        self.skip_where(place, BranchTest::Equal, registers::a1(), registers::zero());
        Ok(())
    }

    /// The call of a service, and ERROR where its status isn't 0.
    pub fn tested_service(&mut self, number: u32) -> Result<(), AllocError>
        requires { number < 2048 }
        ensures { OnOk result (self.new ≡ self.old ++ form.tested_service number) }
    {
        self.service(number)?;
        self.status_tested()
    }

    /// ERROR with a code.
    pub fn error_raised(&mut self, code: u32) -> Result<(), AllocError>
        requires { code < 2048 }
        ensures { OnOk result (self.new ≡ self.old ++ form.error_raised code) }
    {
        self.small(registers::a1(), code)?;
        self.push(Item::JumpTo(Symbol::RaiseError))
    }
}
