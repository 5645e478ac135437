//! Calls that no row can make, as tests: calls that are refused memory; readers and writers that fail; inputs that are cut at every byte or have a
//! byte changed; the adapters of std's readers and writers; what no command shows, such as the order in which a run records seats; and calls on
//! quotients, names, priority tables and margins in tables.
//!
//! Stands on `sl_test_support`, `sl_law_margins`, `sl_desk` and `sl_returns_places`; nothing stands on it. Nothing is proved but safety.
//!
//! Where an error is `NoMemory` alone, memory ran out, and nothing else is wrong.
#![tactic(auto)]

#[cfg(test)]
mod assertions;
#[cfg(test)]
mod calls;
#[cfg(test)]
mod cells;
#[cfg(test)]
mod codes;
#[cfg(test)]
mod hostile;
#[cfg(test)]
mod marks;
#[cfg(test)]
mod numbers;
#[cfg(test)]
mod ordered;
#[cfg(test)]
mod recorded;
#[cfg(test)]
mod refused;
#[cfg(test)]
mod rows;
#[cfg(test)]
mod texts;
