//! The forms of splits and growths: what the entries are, and in which scopes.

/// All parties, all Länder or all lists in one scope; the lists of each party; the lists in each Land.
#[derive(Clone, Copy)]
pub enum Form {
    AllParties,
    AllLands,
    AllLists,
    ListsOfParty,
    ListsInLand,
}
