//! Refused memory: each call that can answer out of memory is made on the input of a worked row, and what stands afterwards is checked. Where it
//! answers out of memory it is made again, and has the row's answer then. Without a program that refuses memory, as check/refused.py does between the
//! marks of a test, the first answer is the row's.

mod blocks;
mod codes;
mod desk;
mod records;
mod returns;
mod rulebooks;
mod runs;
mod tables;
pub mod texts;
