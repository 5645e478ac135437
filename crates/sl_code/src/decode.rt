//! Reads an instruction.

ghost use Rattle.std.specs.Prelude.{◌≡◌, ◌∷◌, ◌++◌, [], IsTrue, IfOk, IfErr};
ghost use Rattle.sl_code_instructions.specs.Numbers.{scope_number};
ghost use Rattle.sl_code.specs.Operands.{is_any, is_below, is_scope, is_entries, is_ranking, is_input, is_method, is_rounding, is_end_fault};
ghost use Rattle.sl_code.specs.Spelling.{instr_bytes};
ghost use Rattle.sl_code_instructions.specs.declared.instr.Instr.TheVariants as instrs;
ghost use Rattle.sl_code.specs.Faults.{FailsInstr, instr_tests};
ghost use Rattle.sl_code_instructions.specs.Proper.{IsInRange};
ghost use Rattle.sl_code.specs.Reading.{FailsAhead, Reads, is_binary, is_column, is_jump, is_branch, is_unary, is_scoped};

use crate::fault::{Cause, Stop};
use crate::reader::Reader;
use sl_code_instructions::{Instr, Kinds, ScopeKind};

impl<'a> Reader<'a> {
    pub fn instr(&mut self) -> Result<Instr, Stop>
        ensures ok { IfOk result (λ i. self.old ≡ instr_bytes i ++ self.new) }
        ensures in_range { IfOk result IsInRange }
        ensures err { IfErr result (FailsInstr self.old) }
    {
        let wrong = self.stop(Cause::Op);
        let op = self.byte()?;
        match op {
            0x01 => self.set(),
            0x02..=0x08 => self.binary(op),
            0x09 | 0x0c | 0x12 => self.jump(op),
            0x0a | 0x1f | 0x21 => self.branch(op),
            0x0b => self.less(),
            0x0d | 0x0e | 0x2b => self.column(op),
            0x0f | 0x11 | 0x1c | 0x22 | 0x29 => self.unary(op),
            0x10 => self.input_column(),
            0x13 => Ok(Instr::Wland),
            0x14..=0x19 => self.jump(op),
            0x1a => self.new_table(),
            0x1b => self.priority(),
            0x1d => Ok(Instr::Lead),
            0x1e => Ok(Instr::Share),
            0x20 => Ok(Instr::Take),
            0x23 => self.emit(),
            0x24 | 0x26 => self.scoped(op),
            0x25 => self.legal_fault(),
            0x27 => Ok(Instr::Seat),
            0x28 => Ok(Instr::Single),
            0x2a => self.kinds(),
            0x2c => self.weigh(),
            _ => Err(wrong),
        }
    }

    fn set(&mut self) -> Result<Instr, Stop>
        ensures ok { IfOk result (Reads 0x01 self.old self.new) }
        ensures err { IfErr result (FailsAhead (instr_tests (instrs.Set 0 0)) self.old) }
    {
        let register = self.byte()?;
        let value = self.value()?;
        Ok(Instr::Set(register, value))
    }

    /// An operation of two registers.
    fn binary(&mut self, op: u8) -> Result<Instr, Stop>
        requires { IsTrue (is_binary op) }
        ensures ok { IfOk result (Reads op self.old self.new) }
        ensures err { IfErr result (FailsAhead (instr_tests (instrs.Mov 0 0)) self.old) }
    {
        let (register, by) = self.pair()?;
        Ok(match op {
            0x02 => Instr::Mov(register, by),
            0x03 => Instr::Add(register, by),
            0x04 => Instr::Sub(register, by),
            0x05 => Instr::Mul(register, by),
            0x06 => Instr::Div(register, by),
            0x07 => Instr::Rem(register, by),
            _ => Instr::Max(register, by),
        })
    }

    /// An operation of a target alone.
    fn jump(&mut self, op: u8) -> Result<Instr, Stop>
        requires { IsTrue (is_jump op) }
        ensures ok { IfOk result (Reads op self.old self.new) }
        ensures err { IfErr result (FailsAhead (instr_tests (instrs.Jmp 0)) self.old) }
    {
        let target = self.target()?;
        Ok(match op {
            0x09 => Instr::Jmp(target),
            0x0c => Instr::Jnl(target),
            0x12 => Instr::Wparty(target),
            0x14 => Instr::Fparty(target),
            0x15 => Instr::Nparty(target),
            0x16 => Instr::Fland(target),
            0x17 => Instr::Nland(target),
            0x18 => Instr::Fwin(target),
            _ => Instr::Nwin(target),
        })
    }

    /// An operation of a register or a stage, and a target.
    fn branch(&mut self, op: u8) -> Result<Instr, Stop>
        requires { IsTrue (is_branch op) }
        ensures ok { IfOk result (Reads op self.old self.new) }
        ensures err { IfErr result (FailsAhead (instr_tests (instrs.Jz 0 0)) self.old) }
    {
        let first = self.byte()?;
        let target = self.target()?;
        Ok(match op {
            0x0a => Instr::Jz(first, target),
            0x1f => Instr::Peers(first, target),
            _ => Instr::Lot(first, target),
        })
    }

    fn less(&mut self) -> Result<Instr, Stop>
        ensures ok { IfOk result (Reads 0x0b self.old self.new) }
        ensures err { IfErr result (FailsAhead (instr_tests (instrs.Jlt 0 0 0)) self.old) }
    {
        let (left, right) = self.pair()?;
        let target = self.target()?;
        Ok(Instr::Jlt(left, right, target))
    }

    /// An operation of a register and a slot, or of two slots.
    fn column(&mut self, op: u8) -> Result<Instr, Stop>
        requires { IsTrue (is_column op) }
        ensures ok { IfOk result (Reads op self.old self.new) }
        ensures err { IfErr result (FailsAhead (instr_tests (instrs.Get 0 0)) self.old) }
    {
        let (first, second) = self.pair()?;
        Ok(match op {
            0x0d => Instr::Get(first, second),
            0x0e => Instr::Store(first, second),
            _ => Instr::Haltv(first, second),
        })
    }

    /// An operation of one register, slot or stage.
    fn unary(&mut self, op: u8) -> Result<Instr, Stop>
        requires { IsTrue (is_unary op) }
        ensures ok { IfOk result (Reads op self.old self.new) }
        ensures err { IfErr result (FailsAhead (instr_tests (instrs.Zero 0)) self.old) }
    {
        let number = self.byte()?;
        Ok(match op {
            0x0f => Instr::Zero(number),
            0x11 => Instr::House(number),
            0x1c => Instr::Rest(number),
            0x22 => Instr::Takelot(number),
            _ => Instr::Halt(number),
        })
    }

    fn input_column(&mut self) -> Result<Instr, Stop>
        ensures ok { IfOk result (Reads 0x10 self.old self.new) }
        ensures err { IfErr result (FailsAhead (is_any ∷ is_input ∷ []) self.old) }
    {
        let slot = self.byte()?;
        let input = self.numbered()?;
        Ok(Instr::Input(slot, input))
    }

    fn new_table(&mut self) -> Result<Instr, Stop>
        ensures ok { IfOk result (Reads 0x1a self.old self.new) }
        ensures err { IfErr result (FailsAhead (is_entries ∷ is_ranking ∷ []) self.old) }
    {
        let entries = self.numbered()?;
        let ranking = self.numbered()?;
        Ok(Instr::Table(entries, ranking))
    }

    fn priority(&mut self) -> Result<Instr, Stop>
        ensures ok { IfOk result (Reads 0x1b self.old self.new) }
        ensures err { IfErr result (FailsAhead (is_method ∷ is_any ∷ is_any ∷ []) self.old) }
    {
        let method = self.numbered()?;
        let (weight, seats) = self.pair()?;
        Ok(Instr::Prio(method, weight, seats))
    }

    /// A stage and a scope.
    fn place(&mut self) -> Result<(u8, ScopeKind), Stop>
        ensures ok { IfOk result (λ p. self.old ≡ p.0 ∷ scope_number p.1 ∷ self.new) }
        ensures err { IfErr result (FailsAhead (is_any ∷ is_scope ∷ []) self.old) }
    {
        let stage = self.byte()?;
        let scope = self.numbered()?;
        Ok((stage, scope))
    }

    fn emit(&mut self) -> Result<Instr, Stop>
        ensures ok { IfOk result (Reads 0x23 self.old self.new) }
        ensures err { IfErr result (FailsAhead (is_any ∷ is_scope ∷ is_any ∷ is_any ∷ []) self.old) }
    {
        let (stage, scope) = self.place()?;
        let (number, step) = self.pair()?;
        Ok(Instr::Emit(stage, scope, number, step))
    }

    /// An operation of a stage, a scope and a register.
    fn scoped(&mut self, op: u8) -> Result<Instr, Stop>
        requires { IsTrue (is_scoped op) }
        ensures ok { IfOk result (Reads op self.old self.new) }
        ensures err { IfErr result (FailsAhead (is_any ∷ is_scope ∷ is_any ∷ []) self.old) }
    {
        let (stage, scope) = self.place()?;
        let register = self.byte()?;
        Ok(match op {
            0x24 => Instr::Given(stage, scope, register),
            _ => Instr::Tie(stage, scope, register),
        })
    }

    fn legal_fault(&mut self) -> Result<Instr, Stop>
        ensures ok { IfOk result (Reads 0x25 self.old self.new) }
        ensures err { IfErr result (FailsAhead (is_any ∷ is_scope ∷ is_end_fault ∷ []) self.old) }
    {
        let (stage, scope) = self.place()?;
        let fault = self.numbered()?;
        Ok(Instr::Fault(stage, scope, fault))
    }

    fn kinds(&mut self) -> Result<Instr, Stop>
        ensures ok { IfOk result (Reads 0x2a self.old self.new) }
        ensures err { IfErr result (FailsAhead (is_any ∷ is_any ∷ is_below 8 ∷ is_below 17 ∷ []) self.old) }
    {
        let positive = self.registers()?;
        let cursors = self.numbered()?;
        let table = self.numbered()?;
        Ok(Instr::At(Kinds {
            positive,
            cursors,
            table,
        }))
    }

    fn weigh(&mut self) -> Result<Instr, Stop>
        ensures ok { IfOk result (Reads 0x2c self.old self.new) }
        ensures err { IfErr result (FailsAhead (is_any ∷ is_scope ∷ is_rounding ∷ is_any ∷ []) self.old) }
    {
        let (stage, scope) = self.place()?;
        let rounding = self.numbered()?;
        let weight = self.byte()?;
        Ok(Instr::Weigh(stage, scope, rounding, weight))
    }
}
