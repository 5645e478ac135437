//! What each instruction is spelled and listed by: its operation, its name and its operands (docs/code.md, section 2).

ghost use Rattle.std.specs.Prelude.{◌≡◌};
ghost use Rattle.sl_code_instructions.specs.Rows.{opcode_of, name_of, operands_of, target_of};

use crate::instr::Instr;
use crate::parts::Operand::{Register, Scope, Slot, Stage, Target, Value};
use crate::parts::{Operand, Operands, four, none, one, three, two};

/// The names of the operations, in the order of their bytes, from 1 on.
const NAMES: [&str; 44] = [
    "set", "mov", "add", "sub", "mul", "div", "rem", "max", "jmp", "jz", "jlt", "jnl", "get",
    "store", "zero", "input", "house", "wparty", "wland", "fparty", "nparty", "fland", "nland",
    "fwin", "nwin", "table", "prio", "rest", "lead", "share", "peers", "take", "lot", "takelot",
    "emit", "given", "fault", "tie", "seat", "single", "halt", "at", "haltv", "weigh",
];

impl Instr {
    /// The byte of its operation.
    pub fn opcode(self) -> u8
        ensures { result ≡ opcode_of self }
    {
        match self {
            Instr::Set(_, _) => 0x01,
            Instr::Mov(_, _) => 0x02,
            Instr::Add(_, _) => 0x03,
            Instr::Sub(_, _) => 0x04,
            Instr::Mul(_, _) => 0x05,
            Instr::Div(_, _) => 0x06,
            Instr::Rem(_, _) => 0x07,
            Instr::Max(_, _) => 0x08,
            Instr::Jmp(_) => 0x09,
            Instr::Jz(_, _) => 0x0a,
            Instr::Jlt(_, _, _) => 0x0b,
            Instr::Jnl(_) => 0x0c,
            Instr::Get(_, _) => 0x0d,
            Instr::Store(_, _) => 0x0e,
            Instr::Zero(_) => 0x0f,
            Instr::Input(_, _) => 0x10,
            Instr::House(_) => 0x11,
            Instr::Wparty(_) => 0x12,
            Instr::Wland => 0x13,
            Instr::Fparty(_) => 0x14,
            Instr::Nparty(_) => 0x15,
            Instr::Fland(_) => 0x16,
            Instr::Nland(_) => 0x17,
            Instr::Fwin(_) => 0x18,
            Instr::Nwin(_) => 0x19,
            Instr::Table(_, _) => 0x1a,
            Instr::Prio(_, _, _) => 0x1b,
            Instr::Rest(_) => 0x1c,
            Instr::Lead => 0x1d,
            Instr::Share => 0x1e,
            Instr::Peers(_, _) => 0x1f,
            Instr::Take => 0x20,
            Instr::Lot(_, _) => 0x21,
            Instr::Takelot(_) => 0x22,
            Instr::Emit(_, _, _, _) => 0x23,
            Instr::Given(_, _, _) => 0x24,
            Instr::Fault(_, _, _) => 0x25,
            Instr::Tie(_, _, _) => 0x26,
            Instr::Seat => 0x27,
            Instr::Single => 0x28,
            Instr::Halt(_) => 0x29,
            Instr::At(_) => 0x2a,
            Instr::Haltv(_, _) => 0x2b,
            Instr::Weigh(_, _, _, _) => 0x2c,
        }
    }

    /// The name of its operation.
    pub fn name(self) -> &'static [u8]
        ensures { result.now ≡ name_of self }
    {
        NAMES[usize::from(self.opcode()) - 1].as_bytes()
    }

    /// Its operands.
    pub fn operands(self) -> Operands
        ensures { result ≡ operands_of self }
    {
        match self {
            Instr::Set(register, value) => two(Register(register), Value(value)),
            Instr::Mov(register, by)
            | Instr::Add(register, by)
            | Instr::Sub(register, by)
            | Instr::Mul(register, by)
            | Instr::Div(register, by)
            | Instr::Rem(register, by)
            | Instr::Max(register, by) => two(Register(register), Register(by)),
            Instr::Jmp(target)
            | Instr::Jnl(target)
            | Instr::Wparty(target)
            | Instr::Fparty(target)
            | Instr::Nparty(target)
            | Instr::Fland(target)
            | Instr::Nland(target)
            | Instr::Fwin(target)
            | Instr::Nwin(target) => one(Target(target)),
            Instr::Jz(register, target) | Instr::Peers(register, target) => {
                two(Register(register), Target(target))
            }
            Instr::Jlt(left, right, target) => {
                three(Register(left), Register(right), Target(target))
            }
            Instr::Get(register, slot) => two(Register(register), Slot(slot)),
            Instr::Store(slot, register) => two(Slot(slot), Register(register)),
            Instr::Zero(slot) | Instr::Halt(slot) => one(Slot(slot)),
            Instr::Input(slot, input) => two(Slot(slot), Operand::Input(input)),
            Instr::House(register) | Instr::Rest(register) => one(Register(register)),
            Instr::Wland | Instr::Lead | Instr::Share | Instr::Take | Instr::Seat | Instr::Single =>
                none(),
            Instr::Table(entries, ranking) => {
                two(Operand::Entries(entries), Operand::Ranking(ranking))
            }
            Instr::Prio(method, weight, seats) => {
                three(Operand::Method(method), Register(weight), Register(seats))
            }
            Instr::Lot(stage, target) => two(Stage(stage), Target(target)),
            Instr::Takelot(stage) => one(Stage(stage)),
            Instr::Emit(stage, scope, number, step) => {
                four(Stage(stage), Scope(scope), Register(number), Register(step))
            }
            Instr::Given(stage, scope, number) | Instr::Tie(stage, scope, number) => {
                three(Stage(stage), Scope(scope), Register(number))
            }
            Instr::Fault(stage, scope, fault) => {
                three(Stage(stage), Scope(scope), Operand::Fault(fault))
            }
            Instr::At(kinds) => three(
                Operand::Positive(kinds.positive),
                Operand::Cursors(kinds.cursors),
                Operand::Table(kinds.table),
            ),
            Instr::Haltv(slot, vacant) => two(Slot(slot), Slot(vacant)),
            Instr::Weigh(stage, scope, rounding, weight) => four(
                Stage(stage),
                Scope(scope),
                Operand::Rounding(rounding),
                Register(weight),
            ),
        }
    }

    /// Where it may jump.
    pub fn target(self) -> Option<u32>
        ensures { result ≡ target_of self }
    {
        match self {
            Instr::Jmp(target)
            | Instr::Jz(_, target)
            | Instr::Jlt(_, _, target)
            | Instr::Jnl(target)
            | Instr::Wparty(target)
            | Instr::Fparty(target)
            | Instr::Nparty(target)
            | Instr::Fland(target)
            | Instr::Nland(target)
            | Instr::Fwin(target)
            | Instr::Nwin(target)
            | Instr::Peers(_, target)
            | Instr::Lot(_, target) => Some(target),
            _ => None,
        }
    }
}
