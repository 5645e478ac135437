//! What is known after an instruction, and where it jumps to.

ghost use Rattle.std.specs.Prelude.{◌≡◌, IsTrue};
ghost use Rattle.sl_code_semantics.specs.Needs.{has_registers};
ghost use Rattle.sl_code_semantics.specs.Leaves.{ends, positive_behind, behind, carried};

use crate::known::{contains, with_register};
use sl_code_instructions::{Instr, Kinds, Registers};
use sl_code_semantics::{cursors_behind, table_behind};

/// Whether the run never goes on to the next instruction.
fn ends(instr: Instr) -> bool
    ensures { result ≡ ends instr }
{
    matches!(
        instr,
        Instr::Jmp(..) | Instr::Fault(..) | Instr::Tie(..) | Instr::Halt(..) | Instr::Haltv(..)
    )
}

/// The registers that are positive after the instruction.
fn positive_behind(positive: Registers, instr: Instr) -> Registers
    requires { IsTrue (has_registers instr) }
    ensures { result ≡ positive_behind positive instr }
{
    match instr {
        Instr::Set(register, value) => with_register(value > 0, register, positive),
        Instr::Mov(register, from) => {
            with_register(contains(positive, from), register, positive)
        }
        Instr::Add(register, by) | Instr::Max(register, by) => {
            let is_positive = contains(positive, register) || contains(positive, by);
            with_register(is_positive, register, positive)
        }
        Instr::Mul(register, by) => {
            let is_positive = contains(positive, register) && contains(positive, by);
            with_register(is_positive, register, positive)
        }
        Instr::Sub(register, _)
        | Instr::Div(register, _)
        | Instr::Rem(register, _)
        | Instr::Get(register, _) => with_register(false, register, positive),
        Instr::Jz(register, _) | Instr::Peers(register, _) => {
            with_register(true, register, positive)
        }
        _ => positive,
    }
}

/// The kinds after the instruction, if the run goes on to the next.
pub fn behind(kinds: Kinds, instr: Instr) -> Option<Kinds>
    requires { IsTrue (has_registers instr) }
    ensures { result ≡ behind kinds instr }
{
    if ends(instr) {
        return None;
    }
    Some(Kinds {
        positive: positive_behind(kinds.positive, instr),
        cursors: cursors_behind(kinds, instr),
        table: table_behind(kinds.table, instr),
    })
}

/// The kinds that the instruction's jump carries.
pub fn carried(kinds: Kinds, instr: Instr) -> Kinds
    ensures { result ≡ carried kinds instr }
{
    let mut kinds = kinds;
    match instr {
        Instr::Wparty(..) | Instr::Fparty(..) => kinds.cursors.party = false,
        Instr::Fland(..) => kinds.cursors.land = false,
        Instr::Fwin(..) => kinds.cursors.win = false,
        _ => {}
    }
    kinds
}
