//! Where the peers stand: for each index that the places reach a place of the heap at which the peer with that index stands, or from which
//! the parent, its parent and so on lead to it. These are hints. Nothing is proved of them, and whoever uses one looks whether it is right.

// How many places a note tells apart. One from there on is noted wrong.
const NOTABLE: usize = 1 << 16;

// Notes that the peer with an index stands at a place, or above it. It may rise then without a note.
pub(crate) fn note(places: &mut [u16], index: u32, place: usize) {
    if let Some(noted) = places.get_mut(index as usize) {
        *noted = (place % NOTABLE) as u16;
    }
}
