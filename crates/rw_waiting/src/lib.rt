//! Calls that wait for a channel: who waits, and who is woken.
//!
//! The one contract: nobody waits in vain. A call that waits is listed, and as long as it is, it would wait in the channel as it is; the
//! call that leaves it nothing to wait for wakes it, once, behind those that began before. This holds over any steps that leave it its
//! handle, for broadcasts and for watches.
//! Start reading at `specs/Steps.antt`, which says so, with `specs/Waitable.antt`: what a channel has to say of those who wait for it.
//! `specs/Broadcasts.antt` and `specs/Watches.antt` say it in the words of tokio's documentation. Then read `waiting.rt`.
//! What stands on it: `rw_steps`.
#![tactic(auto)]

mod broadcasts;
mod laws;
mod notices;
mod queue;
mod waiting;
mod watches;

pub use broadcasts::{call_broadcast, told_on_broadcast};
pub use laws::{
    broadcast_waiting, nobody_waits_in_vain_for_broadcast, nobody_waits_in_vain_for_watch,
    watch_waiting,
};
pub use notices::{Counts, Notice, WaitFor, told, told_by_counts};
pub use queue::{Entry, Queue};
pub use waiting::Waiting;
pub use watches::{call_watch, told_on_watch};
