//! Who waits for a channel, of which most often nobody ever has.
ghost use Rattle.std.specs.Prelude.{◌≡◌, ◌<◌, ◌^◌, ◌==◌, ◌&&◌, not, None, Some, length, IfErr, IfOk, OnErr, OnOk};
ghost use Rattle.std.specs.Option.{option_copied};
ghost use Rattle.rw_waiting.specs.Listed.{after_told, nobody, waiting_for, with_queue, with_waiter, without_ticket, woken};
ghost use Rattle.rw_waiting.specs.Queue.{entries_of, item_of, with_other};
ghost use Rattle.rw_steps.specs.Replies.{told};
ghost use Rattle.rw_steps.specs.Waiters.{is_nobody, wakes_some};

use crate::reply::Reply;
use crate::steps::Told;
use rw_law::NoMemory;
use rw_waiting::{WaitFor, Waiting};
use std::alloc::Global;
use std::collections::BTreeMap;
use std::marker::Model;

/// The calls that wait for a channel, each with what wakes it. Where none ever has, there is no list.
#[derive(Drop)]
pub struct Waiters<W> {
    list: Option<Box<Waiting<W>>>,
}

impl<W> Model for Waiters<W> {
    ghost use Rattle.rw_waiting.specs.Listed.{Listed};
    ghost use Rattle.rw_steps.specs.Waiters.{listed_in};

    ghost Value = { Listed W };

    ghost view = { λ w. listed_in w.list };
}

impl<W: Drop> Waiters<W> {
    /// Returns the list of a channel that nobody waits for. It allocates nothing.
    pub fn new() -> Waiters<W>
        ensures { result ≡ nobody }
    {
        Waiters { list: None }
    }

    /// Whether no call waits.
    #[inline(always)]
    pub fn is_nobody(&self) -> bool
        ensures { result ≡ is_nobody self.now }
    {
        match &self.list {
            None => true,
            Some(list) => list.is_empty(WaitFor::Value) && list.is_empty(WaitFor::NoReceiver),
        }
    }

    /// Whether some call waits for what a call with this reply has told, unless it has dropped a handle.
    #[inline(always)]
    pub fn wakes_after(&self, reply: Reply) -> bool
        ensures { result ≡ wakes_some self.now (told reply) }
    {
        // What was told is found out where there is a list, which is seldom.
        match &self.list {
            None => false,
            Some(list) => match reply.told() {
                None => false,
                Some(what) => !list.is_empty(what),
            },
        }
    }

    /// Removes the calls that wait for what was told, and returns what wakes them by their tickets, so in the order in which they began.
    pub fn wake(&mut self, alloc: Global, told: Told) -> BTreeMap<u64, W>
        ensures woken { entries_of result.entries ≡ woken self.old told }
        ensures left { self.new ≡ after_told self.old told }
    {
        match &mut self.list {
            None => BTreeMap::new(alloc),
            Some(list) => list.woken(alloc, told.what),
        }
    }

    /// Lists a call that begins to wait, behind the others, and returns its ticket. If an allocation fails, it isn't listed, and what
    /// wakes it is dropped.
    pub fn begin(&mut self, alloc: Global, what: WaitFor, waker: W) -> Result<u64, NoMemory>
        requires { (waiting_for self.old what).next < 2 ^ 63 }
        ensures ticket { IfOk result (λ ticket. ticket ≡ (waiting_for self.old what).next) }
        ensures listed { IfOk result (λ _. self.new ≡ with_waiter self.old what waker) }
        ensures same { OnErr result (self.new ≡ self.old) }
    {
        if self.list.is_none() {
            self.list = Some(Box::new(alloc, Waiting::new(alloc))?);
        }
        match &mut self.list {
            None => unreachable!(),
            Some(list) => list.wait(what, waker),
        }
    }

    /// Returns what wakes the call with this ticket, if it waits.
    pub fn waker(&self, what: WaitFor, ticket: u64) -> Option<&W>
        ensures { option_copied result ≡ item_of (waiting_for self.now what) ticket }
    {
        match &self.list {
            None => None,
            Some(list) => list.waker(what, ticket),
        }
    }

    /// Has the call with this ticket woken by something else from now on, and returns what woke it so far. It stays where it is. If it
    /// doesn't wait, nothing has changed, and the other one comes back.
    pub fn renew(&mut self, what: WaitFor, ticket: u64, waker: W) -> Result<W, W>
        ensures before { IfOk result (λ before. item_of (waiting_for self.old what) ticket ≡ Some before) }
        ensures renewed { OnOk result (self.new ≡ with_queue self.old what (with_other (waiting_for self.old what) ticket waker)) }
        ensures absent { OnErr result (item_of (waiting_for self.old what) ticket ≡ None) }
        ensures back { IfErr result (λ back. back ≡ waker) }
        ensures same { OnErr result (self.new ≡ self.old) }
    {
        match &mut self.list {
            None => Err(waker),
            Some(list) => list.renew(what, ticket, waker),
        }
    }

    /// Takes the call with this ticket off the list, since it gives up or is done, and returns what would have woken it. If it doesn't
    /// wait, nothing changes.
    pub fn leave(&mut self, what: WaitFor, ticket: u64) -> Option<W>
        ensures waker { result ≡ item_of (waiting_for self.old what) ticket }
        ensures left { self.new ≡ without_ticket self.old what ticket }
    {
        match &mut self.list {
            None => None,
            Some(list) => list.leave(what, ticket),
        }
    }
}
