//! Calls on any machine, made one after the other.

ghost use Rattle.std.specs.Prelude.{◌≡◌, ◌+◌, ◌≤◌, ◌++◌, length, OnOk};
ghost use Rattle.test_claims.specs.Calls.{after_calls, calls_of, last_reply};

use rw_journal::{Book, TakeFault};
use rw_law::Reversible;

/// Makes the calls, and returns the last reply.
pub fn play<M: Reversible>(machine: &mut M, calls: &[M::Call]) -> Option<M::Reply>
    requires known { M.allowed (M.shown machine.old) }
    requires room { M.weigh (M.shown machine.old) + length calls.now ≤ M.reserved machine.old }
    ensures shows { M.shown machine.new ≡ after_calls M.Reversible (M.shown machine.old) calls.now }
    ensures last { result ≡ last_reply M.Reversible (M.shown machine.old) calls.now }
{
    let mut last = None;
    for call in calls {
        let (reply, _) = machine.apply(call);
        last = Some(reply);
    }
    last
}

/// Records the calls in a book. At a fault the calls before it stay recorded.
pub fn record<M: Reversible>(book: &mut Book<M>, calls: &[M::Call]) -> Result<(), TakeFault>
    ensures calls { OnOk result (calls_of book.new.entries ≡ calls_of book.old.entries ++ calls.now) }
    ensures opening { book.new.opening ≡ book.old.opening }
{
    for call in calls {
        let _receipt = book.take(0, 0, *call)?;
    }
    Ok(())
}
