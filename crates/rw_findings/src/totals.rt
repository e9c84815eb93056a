//! The totals of a run: what each receiver received, and what it missed.

mod broadcast;
mod sight;
mod tally;
mod total;
mod totalling;
mod watch;

pub use total::{BroadcastCounts, Counts, Totals, WatchCounts};
pub use totalling::totals_of;
