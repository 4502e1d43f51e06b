//! A core with numbered tickets, and runs of commands over them.
//!
//! What any primitive must mean to be run here is `Primitive` of `saa_core`; a `Bench` is held to the run of `specs/Run.antt` of
//! `saa_core_spec`, for every list of commands and any number of pagers. A pager is a name: a ticket that commands speak of by number.

ghost use Rattle.std.specs.Prelude.{◌≡◌, ◌<◌, not, All, IsOk, IfOk, length, replicate};
ghost use Rattle.saa_core.specs.declared.ticket.Registration.TheVariants.{Unregistered};
ghost use Rattle.saa_core_spec.specs.Object.{entry_at};
ghost use Rattle.saa_core_spec.specs.Asking.{registered, is_idle};
ghost use Rattle.saa_core_spec.specs.Polling.{polled, read_as, dropped, withdrawn};
ghost use Rattle.saa_core.specs.Tickets.{object_of};
ghost use Rattle.saa_core_spec.specs.Run.{IsWithin, done, replies, state_after};

use saa_core::primitive::Primitive;
use saa_core::ticket::{Full, How, Ticket};
pub use saa_core_spec::run::{CommandOf, ReplyOf};
use std::alloc::{AllocError, Global};
use std::marker::Model;

/// A command of a primitive's run.
pub type Command<P> = CommandOf<<P as Primitive>::Call, <P as Primitive>::Ask>;

/// A reply of a primitive's run.
pub type Reply<P> = ReplyOf<<P as Primitive>::Answer, <P as Primitive>::Value>;

/// A core with so many pagers, numbered from 0.
#[derive(Drop)]
pub struct Bench<P: Primitive> {
    core: P,
    tickets: Vec<Ticket>,
}

impl<P: Primitive> Model for Bench<P> {
    ghost use Rattle.saa_core_spec.specs.Object.{Object};
    ghost use Rattle.saa_core.specs.Tickets.{Belong, object_of};

    ghost Value = { Object };

    ghost view = { λ bench. object_of (P.core bench.core) bench.tickets.items };

    ghost invariant = { λ bench. Belong (P.core bench.core).slots bench.tickets.items };
}

impl<P: Primitive> Bench<P> {
    /// The core that is handed in, as it is, with so many idle pagers. Costs O(`pagers`).
    ///
    /// Tickets that are registered in the core keep their slots, which no command of the bench speaks of.
    /// Only this takes memory; the error comes only where that was refused, and so never for 0 pagers, which take none.
    /// The core is dropped then.
    pub fn new(alloc: Global, core: P, pagers: u16) -> Result<Self, AllocError>
        ensures made { IfOk result (λ bench. bench ≡ object_of (P.core core) (replicate pagers Unregistered)) }
        ensures no_pagers { pagers ≡ 0 → IsOk result }
    {
        let mut tickets = Vec::with_capacity(alloc, usize::from(pagers))?;
        for _pager in 0..pagers {
            tickets.push_reserved(Ticket::new());
        }
        Ok(Bench { core, tickets })
    }

    /// How many pagers there are. Costs O(1).
    pub fn pagers(&self) -> usize
        ensures { result ≡ length self.now.book }
    {
        self.tickets.len()
    }

    /// Whether a pager waits, or has an answer that isn't consumed yet. Costs O(1).
    pub fn is_registered(&self, pager: u16) -> bool
        requires { pager < length self.now.book }
        ensures { result ≡ not (is_idle (entry_at self.now.book pager)) }
    {
        self.tickets[usize::from(pager)].is_registered()
    }

    /// Does nothing: its contract says what holds of every bench at every moment, over a new core or one in use.
    ///
    /// A semaphore and a lock are settled; a gate has waiters only while it is controlled; a barrier's round is
    /// incomplete.
    pub fn object_invariant(&self)
        ensures { P.object_invariant self.now }
    {
        self.core.object_invariant();
    }

    /// Does one command, and replies. Costs what the core's call costs; takes no memory.
    pub fn do_one(&mut self, command: &Command<P>) -> Reply<P>
        requires { IsWithin (length self.old.book) command.now }
        ensures acts { done P.request P.step P.value command.now self.old ≡ record { state = self.new; reply = result } }
        ensures pagers { length self.new.book ≡ length self.old.book }
    {
        match *command {
            CommandOf::Call(call) => ReplyOf::Answered(self.call(call)),
            CommandOf::Register(pager, ask, is_sync) => ReplyOf::Registered(self.register(
                pager, ask, is_sync,
            )),
            CommandOf::TryPoll(pager) => ReplyOf::Polled(self.poll(pager, How::Try)),
            CommandOf::PollSync(pager) => ReplyOf::Polled(self.poll(pager, How::Sync)),
            CommandOf::PollAsync(pager) => ReplyOf::Polled(self.poll(pager, How::Async)),
            CommandOf::Drop(pager) => {
                self.cancel(pager);
                ReplyOf::Dropped
            }
            CommandOf::Leave(pager) => {
                self.leave(pager);
                ReplyOf::Dropped
            }
        }
    }

    /// Does the commands in order, and writes the reply to each in its place. Takes no memory.
    ///
    /// The slices have one length, and the commands speak of pagers that there are.
    pub fn run(&mut self, commands: &[Command<P>], out: &mut [Reply<P>])
        requires same_length { length commands.now ≡ length out.old }
        requires within { All (IsWithin (length self.old.book)) commands.now }
        ensures replied { out.new ≡ replies P.request P.step P.value commands.now self.old }
        ensures left { self.new ≡ state_after P.request P.step P.value commands.now self.old }
        ensures pagers { length self.new.book ≡ length self.old.book }
        ensures object_invariant { P.object_invariant self.new }
    {
        for i in 0..commands.len() {
            out[i] = self.do_one(&commands[i]);
        }
        self.object_invariant();
    }

    // A call that needs no pager.
    fn call(&mut self, call: P::Call) -> P::Answer
        ensures acts { P.step call self.old ≡ record { state = self.new; reply = result } }
        ensures pagers { length self.new.book ≡ length self.old.book }
    {
        self.core.call(call)
    }

    // Registers a pager.
    fn register(&mut self, pager: u16, ask: P::Ask, is_sync: bool) -> Result<bool, Full>
        requires { pager < length self.old.book }
        ensures acts { registered self.old pager (P.request ask) is_sync ≡ record { state = self.new; reply = result } }
        ensures pagers { length self.new.book ≡ length self.old.book }
    {
        self.core
            .register(&mut self.tickets[usize::from(pager)], ask, is_sync)
    }

    // Polls a pager.
    fn poll(&mut self, pager: u16, how: How) -> P::Value
        requires { pager < length self.old.book }
        ensures acts { read_as P.value (polled self.old pager how) ≡ record { state = self.new; reply = result } }
        ensures pagers { length self.new.book ≡ length self.old.book }
    {
        let answer = self
            .core
            .poll_number(&mut self.tickets[usize::from(pager)], how);
        P::value_of(answer)
    }

    // Drops what a pager is registered for.
    fn cancel(&mut self, pager: u16)
        requires { pager < length self.old.book }
        ensures acts { self.new ≡ dropped self.old pager }
        ensures pagers { length self.new.book ≡ length self.old.book }
    {
        self.core.cancel(&mut self.tickets[usize::from(pager)]);
    }

    // Drops what a pager is registered for, and disturbs nobody.
    fn leave(&mut self, pager: u16)
        requires { pager < length self.old.book }
        ensures acts { self.new ≡ withdrawn self.old pager }
        ensures pagers { length self.new.book ≡ length self.old.book }
    {
        self.core.leave(&mut self.tickets[usize::from(pager)]);
    }
}
