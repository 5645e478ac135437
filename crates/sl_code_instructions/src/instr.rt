//! The instructions of the counting machine.

use crate::kinds::Kinds;
use crate::operand::{EndFault, Entries, Input, Ranking, Rounding, ScopeKind};
use sl_base_quotients::Divisor;

/// An instruction (docs/code.md, section 2), with its operands in order: `r` and `s` are registers, `k` and `v` slots, `t` the place of an
/// instruction, `n` a stage (255 is the last clause), `c` a scope. Which of them there are, the verifier decides.
#[derive(Clone, Copy)]
pub enum Instr {
    /// `r x`: r is the number x.
    Set(u8, u64),
    /// `r s`: r is s.
    Mov(u8, u8),
    /// `r s`: r is the sum of both, at most 2^64 - 1.
    Add(u8, u8),
    /// `r s`: r is the difference, at least 0.
    Sub(u8, u8),
    /// `r s`: r is the product, at most 2^64 - 1.
    Mul(u8, u8),
    /// `r s`: r is the quotient, rounded down.
    Div(u8, u8),
    /// `r s`: r is the remainder of the division by s.
    Rem(u8, u8),
    /// `r s`: r is the greater of the two.
    Max(u8, u8),
    /// `t`: jumps.
    Jmp(u32),
    /// `r t`: jumps where r is 0.
    Jz(u8, u32),
    /// `r s t`: jumps where r is less than s.
    Jlt(u8, u8, u32),
    /// `t`: jumps where the Land and the party of the cursors have no list.
    Jnl(u32),
    /// `r k`: r is the column's cell at the cursors.
    Get(u8, u8),
    /// `k r`: the column's cell at the cursors is r.
    Store(u8, u8),
    /// `k`: each cell of the column is 0.
    Zero(u8),
    /// `k i`: the column is one of the returns'.
    Input(u8, Input),
    /// `r`: r is the returns' house, if they give one.
    House(u8),
    /// `t`: the party cursor is the winner's party; for a winner without a party it is unset, and the machine jumps.
    Wparty(u32),
    /// The Land cursor is the winner's Land.
    Wland,
    /// `t`: the cursor is the first party; without a party it is unset, and the machine jumps. `Fland` and `Fwin` do the same.
    Fparty(u32),
    /// `t`: the cursor is the next party, and the machine jumps; after the last one it is unset. `Nland` and `Nwin` do the same.
    Nparty(u32),
    Fland(u32),
    Nland(u32),
    Fwin(u32),
    Nwin(u32),
    /// `e o`: the table is on and empty.
    Table(Entries, Ranking),
    /// `m r s`: enters the cursors' entry with the method's quotient for the weight r and s seats held.
    Prio(Divisor, u8, u8),
    /// `r`: enters the cursors' entry with the remainder r.
    Rest(u8),
    /// Enters the cursors' entry ahead of all remainders.
    Lead,
    /// Enters the winner with the share of first votes.
    Share,
    /// `r t`: jumps where the table is empty; else r is the number of entries with the greatest quotient.
    Peers(u8, u32),
    /// Takes the greatest entry out; the cursors are its.
    Take,
    /// `n t`: jumps unless the stage's lot names every peer of the greatest entry.
    Lot(u8, u32),
    /// `n`: takes the peer out that the stage's lot draws; the cursors are its.
    Takelot(u8),
    /// `n c r s`: records seat number r with step s for the cursors' entry, with the mark taken last.
    Emit(u8, ScopeKind, u8, u8),
    /// `n c r`: records seat number r as a given one for the cursors' entry, with step 0.
    Given(u8, ScopeKind, u8),
    /// `n c f`: ends with a legal fault.
    Fault(u8, ScopeKind, EndFault),
    /// `n c r`: ends with a tie of r seats among the peers of the greatest entry.
    Tie(u8, ScopeKind, u8),
    /// The winner is seated on the list of its Land and party, if there is one.
    Seat,
    /// The winner is seated as a single.
    Single,
    /// `k`: ends with the seats of the lists.
    Halt(u8),
    /// Declares what is known here.
    At(Kinds),
    /// `k v`: ends with the seats of the lists, and with the vacant ones.
    Haltv(u8, u8),
    /// `n c m r`: records the weight r of the cursors' entry.
    Weigh(u8, ScopeKind, Rounding, u8),
}
