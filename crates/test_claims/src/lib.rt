//! Tests whose proof says something. All others are plain Rust, in `tests/core`.
//!
//! The one contract: receipts that are accepted as an actor's entries are these, entries and receipts have the sizes that are documented,
//! and calls made one after the other lead to what the definitions say. Start reading at `receipts.rt`.
//! What stands on it: nothing.
#![tactic(auto)]

pub mod playing;
pub mod receipts;
pub mod sizes;
