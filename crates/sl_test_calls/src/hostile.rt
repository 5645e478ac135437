//! Hostile input, as books, returns and code files that are cut at every byte or have a byte changed; readers and writers that fail at each of their
//! calls in turn; what is judged, read and written first; and the adapters of std's readers and writers.

mod adapters;
mod books;
mod endings;
mod failures;
mod files;
mod laws;
mod order;
mod returns;
mod rows;
