//! Seats by batches of peers.

/// So many turns, at most the bound, each of which may begin a batch and distributes a seat of it. The register of ones is 1 in each turn.
macro_rules! batches {
    ($turns:expr, $bound:expr, $begin:expr, $seat:expr) => {
        &Plan::Then(
            &Plan::Line(&[Fixed(Instr::Set(IN_BATCH, 0))]),
            &Plan::Times(
                $turns,
                $bound,
                &Plan::Then(
                    &Plan::If(Test::Zero(IN_BATCH), $begin, NOTHING),
                    &Plan::If(
                        Test::Zero(IN_BATCH),
                        NOTHING,
                        &Plan::If(
                            Test::Empty(PEERS),
                            NOTHING,
                            &Plan::Then(
                                &Plan::Line(&[
                                    Fixed(Instr::Sub(IN_BATCH, ONES)),
                                    Fixed(Instr::Take),
                                ]),
                                $seat,
                            ),
                        ),
                    ),
                ),
            ),
        )
    };
}

pub(crate) use batches;
