//! Whole steps of a channel: a call, its record, and whom it tells of those who wait.
//!
//! The one contract: a call has its documented reply and is recorded, and with it comes what it tells. Who is then taken off the list are all
//! that it leaves nothing to wait for, and a call that is polled again stays where it is. Each is a step of the theorem that nobody waits in
//! vain (`rw_waiting`).
//! Start reading at `specs/Steps.antt`, and then read `steps.rt` and `waiters.rt`.
//! What stands on it: the Rust crate (`rust/`).
#![tactic(auto)]

mod records;
mod reply;
mod steps;
mod waiters;

pub use records::Records;
pub use reply::Reply;
pub use steps::{Told, call, call_of_handles, step};
pub use waiters::Waiters;
