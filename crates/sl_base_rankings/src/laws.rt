//! Laws of the definitions. Each function does nothing: its contract is the law.

ghost use Rattle.sl_base_rankings.specs.Laws.{OrderIsFree, LeftAlike, Tops, Rankings, RankedAlike, RankedWithOneMore, RankedWithoutOne, FallingRankings, FirstPeers, PeersInFront, PeersAreGreatest, PeersByIndex, Draws};

/// Tables that hold the same entries have the same top, the same peers and the same choice of each lot, in whatever order the
/// entries are listed.
pub fn order_is_free()
    ensures { OrderIsFree }
{}

/// What is left when an entry is taken away is the same entries, in whatever order they are listed.
pub fn left_alike()
    ensures { LeftAlike }
{}

/// The top is an entry that no other exceeds, and only an empty table lacks one.
pub fn tops()
    ensures { Tops }
{}

/// A ranking has the entries that were ranked, none of them greater than one before it.
pub fn rankings()
    ensures { Rankings }
{}

/// Lists of the same entries have one ranking.
pub fn ranked_alike()
    ensures { RankedAlike }
{}

/// An entry that is put in goes into the ranking before the first entry that is not greater.
pub fn ranked_with_one_more()
    ensures { RankedWithOneMore }
{}

/// An entry that is taken out of the ranking leaves the ranking of the others.
pub fn ranked_without_one()
    ensures { RankedWithoutOne }
{}

/// A list that falls is its own ranking.
pub fn falling_rankings()
    ensures { FallingRankings }
{}

/// The first of the peers is the top.
pub fn first_peers()
    ensures { FirstPeers }
{}

/// The peers are those that come first in the ranking.
pub fn peers_in_front()
    ensures { PeersInFront }
{}

/// The peers are those entries whose quotient no other's exceeds.
pub fn peers_are_greatest()
    ensures { PeersAreGreatest }
{}

/// Of entries with different indexes, the peers stand by index, the smallest first.
pub fn peers_by_index()
    ensures { PeersByIndex }
{}

/// A lot draws a peer before which it draws no other, and only an empty table has none.
pub fn draws()
    ensures { Draws }
{}
