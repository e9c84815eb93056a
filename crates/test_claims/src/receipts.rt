//! The receipts of actors compared with the entries of the run.

ghost use Rattle.std.specs.Prelude.{◌≡◌, ◌↔◌, All, IsTrue};
ghost use Rattle.rw_desk.specs.Settling.{projection};

use rw_desk::{Kept, compare};
use rw_journal::Run;

/// An actor's receipts.
#[derive(Drop)]
pub struct Receipts {
    pub actor: u32,
    pub kept: Vec<Kept<u64>>,
}

/// Whether an actor's receipts are its entries: as many, in the same order, with the same calls, replies and stamps.
pub fn are_its_entries(run: &Run<u64>, receipts: &Receipts) -> bool
    ensures { IsTrue result ↔ (receipts.now.kept.items ≡ projection receipts.now.actor run.now.entries) }
{
    compare(run, receipts.actor, &receipts.kept).is_none()
}

/// Whether each actor's receipts are its entries.
pub fn agree(run: &Run<u64>, all: &[Receipts]) -> bool
    ensures { IsTrue result → All (λ r. r.kept.items ≡ projection r.actor run.now.entries) all.now }
{
    for receipts in all {
        if !are_its_entries(run, receipts) {
            return false;
        }
    }
    true
}
