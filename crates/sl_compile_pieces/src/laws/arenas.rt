//! Laws of the definitions. Each function does nothing: its contract is the law.

ghost use Rattle.sl_compile_pieces.specs.arenas.Effects.{WaitingAgain, WaitingEffects};
ghost use Rattle.sl_compile_pieces.specs.arenas.Laws.{WaitingPeers, WaitingTaken, DivisorArenas, HamiltonArenas, CoveringArenas, WaitingCovered, WaitingDrawn, WaitingTurns};

/// The peers of the table are the next seats of the peers of the ladders.
pub fn waiting_peers()
    ensures { WaitingPeers }
{}

/// A seat that is taken, with the entry's next one put in, leads from the seats that wait to those that wait after it.
pub fn waiting_taken()
    ensures { WaitingTaken }
{}

/// A divisor method has arenas with minima, without any, and with those outside the field, while no entry holds more seats than a
/// house may have.
pub fn divisor_arenas()
    ensures { DivisorArenas }
{}

/// Largest remainders have arenas.
pub fn hamilton_arenas()
    ensures { HamiltonArenas }
{}

/// The winners of a list, to whom its seats go by their shares, have an arena.
pub fn covering_arenas()
    ensures { CoveringArenas }
{}

/// A stage's lot covers the table exactly if it names all peers.
pub fn waiting_covered()
    ensures { WaitingCovered }
{}

/// A stage's lot draws the peers of a last batch from the table one after the other, as it draws them from the entries.
pub fn waiting_drawn()
    ensures { WaitingDrawn }
{}

/// Until a batch is over the table's top is the next seat of a peer of the batch.
pub fn waiting_turns()
    ensures { WaitingTurns }
{}

/// Where next seats wait in the machine's table, `peers` counts the peers of the ladders, and `take` and `takelot` take a seat out.
pub fn waiting_effects()
    ensures { WaitingEffects }
{}

/// After a seat is taken the next seats wait again, once the entry's next one is entered if there is one.
pub fn waiting_again()
    ensures { WaitingAgain }
{}
