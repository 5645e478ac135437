//! Where the arguments of splits and growths stand.

/// The slots of the seats, of the votes, and of the minima if there are any.
#[derive(Clone, Copy)]
pub struct Arguments {
    pub amounts: u8,
    pub votes: u8,
    pub minima: Option<u8>,
}
