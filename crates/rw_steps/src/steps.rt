//! The steps: a call, and with it what it tells those who wait.
ghost use Rattle.std.specs.Prelude.{◌≡◌, ◌<◌};
ghost use Rattle.rw_law.specs.declared.limits.TheConstants.{MOST_ACTORS};
ghost use Rattle.rw_waiting.specs.Told.{told_by_counts};
ghost use Rattle.rw_steps.specs.Replies.{told, told_with};
ghost use Rattle.rw_steps.specs.Steps.{IsMade, IsTold};

use crate::records::Records;
use crate::reply::Reply;
use rw_waiting::{Counts, WaitFor, told_by_counts};
use rw_world::ChanCall;
use std::marker::Model;

/// What a call has told those who wait, if anything. It is spent on their list under the lock of the call, by `Waiters::wake`.
#[derive(Drop)]
pub struct Told {
    pub(crate) what: Option<WaitFor>,
}

impl Model for Told {
    ghost use Rattle.std.specs.Prelude.{Option};
    ghost use Rattle.rw_waiting.specs.declared.notices.WaitFor.{WaitFor as Awaited};

    ghost Value = { Option Awaited };

    ghost view = { λ t. t.what };
}

impl Told {
    /// Returns what a call with this reply has told those who wait, unless it has dropped a handle.
    #[inline(always)]
    pub fn by_reply(reply: Reply) -> Told
        ensures { result ≡ told reply }
    {
        Told { what: reply.told() }
    }

    /// As [`Told::by_reply`], also of a drop: by the counts before the call and those that are left.
    pub fn counted(reply: Reply, before: Counts, left: Counts) -> Told
        ensures { result ≡ told_with (told_by_counts before left) reply }
    {
        let what = match reply {
            Reply::Dropped => told_by_counts(before, left),
            other => other.told(),
        };
        Told { what }
    }
}

/// Makes a call, and records it. Returns its reply, or why it wasn't made. Unless it drops a handle, its reply says what it tells those who
/// wait.
#[inline(always)]
pub fn call<C: Records>(channel: &mut C, actor: u32, clock: u64, call: ChanCall<u64>) -> Reply
    requires { actor < MOST_ACTORS }
    ensures { IsMade (C.IsRecorded channel.old channel.new actor clock call) (C.shown_in channel.old) call result }
{
    Reply::of_others(channel.record(actor, clock, call))
}

/// As [`call`], for the calls that make or drop a handle.
#[inline(always)]
pub fn call_of_handles<C: Records>(
    channel: &mut C,
    actor: u32,
    clock: u64,
    call: ChanCall<u64>,
) -> Reply
    requires { actor < MOST_ACTORS }
    ensures { IsMade (C.IsRecorded channel.old channel.new actor clock call) (C.shown_in channel.old) call result }
{
    Reply::of_handles(channel.record(actor, clock, call))
}

/// Makes a call, records it, and returns with its reply what it tells those who wait, also if it drops a handle. One that isn't made tells
/// nobody. Where nobody waits, what a drop tells matters to nobody, and `call_of_handles` makes it in fewer instructions.
#[inline(never)]
pub fn step<C: Records>(
    channel: &mut C,
    actor: u32,
    clock: u64,
    call: ChanCall<u64>,
) -> (Reply, Told)
    requires { actor < MOST_ACTORS }
    ensures { IsTold (C.IsRecorded channel.old channel.new actor clock call) (C.shown_in channel.old) call result.0 result.1 }
{
    let before = channel.counts();
    let reply = Reply::of(channel.record(actor, clock, call));
    let left = channel.counts();
    (reply, Told::counted(reply, before, left))
}
