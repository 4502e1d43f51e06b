//! The gate that threads share: a `GateCore` in a form.
//!
//! Each call locks the mutex around the core once, makes one step of it, and wakes what is pending. What the step does is the contract
//! of the core's method, held to `specs/Gate.antt` of `saa_core_spec`.

ghost use Rattle.std.specs.Prelude.{◌≡◌, ◌≤◌, ◌||◌, true, false, None, Ok, Some, IfErr, IfOk, IfSome, IsOk};
ghost use Rattle.saa_core_spec.specs.declared.gate.State.TheVariants.{Controlled};
ghost use Rattle.saa_core_spec.specs.Values.{gate_value};
ghost use Rattle.saa_core_spec.specs.declared.request.Request.TheVariants.{Enter as AskEnter};
ghost use Rattle.saa_core.specs.declared.ticket.Registration.TheVariants.{Unregistered};
ghost use Rattle.saa_core.specs.Tickets.{is_busy, is_yes};
ghost use Rattle.saa_core.specs.Beginning.{mode_of};
ghost use Rattle.saa_sync.specs.Forms.{room_of, spin_policy_of, waiter_policy_of};
ghost use Rattle.saa_sync.specs.GateAnswers.{gate_fault, gate_reading};

use crate::form::{Form, PagerCore};
use crate::future::gate::{Enter, EnterWith};
use crate::pager::Pager;
use crate::parker::WAITER;
use crate::spin_policy::NONE;
pub use crate::timed::TimedEntry;
pub use saa_core::gate::{Error, GateAnswer, GateCall, GateCore, State};
use saa_core::primitive::Primitive;
use saa_core::ticket::Full;
use saa_core_spec::polling;
use std::alloc::{AllocError, Global};
use std::sync::Wait;
use std::sync::atomic::Ordering;

/// A gate that threads share, at which tasks wait until it is decided for all of them together whether they pass.
///
/// At a controlled gate tasks wait in a line until one call permits or rejects them all. A sealed gate refuses every task
/// at once, and an open one lets every task pass. `R` is the permission to block, as a reference to the runtime. Every call
/// may wait for the mutex around the core, which is held for one short step at a time. No call but making takes memory.
///
/// Each ticket and pager is used with the gate that it was registered in.
pub type Gate<R> = Form<R, GateCore>;

impl<R: Wait + Drop> Form<R, GateCore> {
    /// A controlled gate, and room for so many waiters. Costs O(`room`).
    ///
    /// Reserves all the memory that it will ever need; the error comes only where that was refused, and so never for
    /// room 0, which takes none.
    pub fn new(rt: R, alloc: Global, room: u16) -> Result<Self, AllocError>
        ensures no_room { room ≡ 0 → IsOk result }
        ensures spin_policy { IfOk result (λ gate. spin_policy_of gate ≡ NONE) }
        ensures waiter { IfOk result (λ gate. waiter_policy_of gate ≡ WAITER) }
        ensures room { IfOk result (λ gate. room_of gate ≡ room) }
    {
        let core = GateCore::new(alloc, room)?;
        Self::of_core(rt, alloc, core, room, NONE, WAITER)
    }

    /// How the gate treats a call that enters. Every ordering acts as the sequentially consistent one; none panics.
    pub fn state(&self, _mo: Ordering) -> State {
        self.lock().core.state()
    }

    /// Makes a sealed or open gate controlled, and answers the state that it was in. Nobody waits at one; wakes no waiter.
    ///
    /// `None` comes exactly where it was controlled, and changes nothing.
    pub fn reset(&self) -> Option<State>
        ensures { IfSome result (λ before. ¬ (before ≡ Controlled)) }
    {
        self.lock().core.reset()
    }

    /// Lets all waiters of a controlled gate pass, wakes exactly those, and answers how many they were.
    ///
    /// An error says that the gate is sealed or open, and changes nothing. Each who passes costs a ring at its seat, and
    /// each second one of them a short lock more.
    pub fn permit(&self) -> Result<usize, State>
        ensures { IfErr result (λ state. ¬ (state ≡ Controlled)) }
    {
        self.step(
            |core| -> Result<usize, State>
                ensures { IfErr result (λ state. ¬ (state ≡ Controlled)) }
            { core.permit() },
        )
    }

    /// Lets so many waiters of a controlled gate pass, the oldest first, wakes exactly those, and answers how many they were: all,
    /// where fewer wait. All others wait on.
    ///
    /// An error says that the gate is sealed or open, and changes nothing. Costs what [`Self::permit`] does.
    pub fn permit_many(&self, n: usize) -> Result<usize, State>
        ensures refused { IfErr result (λ state. ¬ (state ≡ Controlled)) }
        ensures within { IfOk result (λ count. count ≤ n) }
    {
        self.step(
            move |core| -> Result<usize, State>
                ensures refused { IfErr result (λ state. ¬ (state ≡ Controlled)) }
                ensures within { IfOk result (λ count. count ≤ n) }
            { core.permit_many(n) },
        )
    }

    /// Rejects all waiters of a controlled gate, wakes exactly those, and answers how many they were.
    ///
    /// An error says that the gate is sealed or open, and changes nothing. Costs what [`Self::permit`] does.
    pub fn reject(&self) -> Result<usize, State>
        ensures { IfErr result (λ state. ¬ (state ≡ Controlled)) }
    {
        self.step(
            |core| -> Result<usize, State>
                ensures { IfErr result (λ state. ¬ (state ≡ Controlled)) }
            { core.reject() },
        )
    }

    /// Opens the gate, from every state, lets all waiters pass, and wakes exactly those.
    ///
    /// Answers the state before, and how many waited. Costs what [`Self::permit`] does.
    pub fn open(&self) -> (State, usize) {
        self.step(GateCore::open)
    }

    /// Seals the gate, from every state, refuses all waiters, and wakes exactly those.
    ///
    /// Answers the state before, and how many waited. Costs what [`Self::permit`] does.
    pub fn seal(&self) -> (State, usize) {
        self.step(GateCore::seal)
    }

    /// Passes the gate, and waits in the line where it is controlled.
    ///
    /// `Ok(Ok(state))`: it passed, permitted at a controlled gate or at an open one. `Ok(Err(Rejected))`: all waiters
    /// were rejected. `Ok(Err(Sealed))`: the gate is sealed, or was while this waited. `Ok(Err(SpuriousFailure))`:
    /// a pager cancelled, so all others may enter again; a timed call or a future that leaves disturbs nobody. No other error comes. `Full`: it would have to
    /// wait, and as many slots are held as there is room; nothing is changed. Nothing stays registered in any case.
    pub fn enter_sync(&self) -> Result<Result<State, Error>, Full>
        ensures { IfOk result (λ answer. gate_fault answer ≡ None) }
    {
        let value = self.acquire(())?;
        Ok(read_value(value))
    }

    /// Passes the gate as [`Self::enter_sync`] does, and calls `begin_wait` where it joins the queue.
    ///
    /// The callback runs once, after the join and before the wait, with the mutex free; it may use this
    /// gate. It doesn't run where the answer is there at once, nor where the room is full.
    pub fn enter_sync_with<F: FnOnce() + Drop>(
        &self,
        begin_wait: F,
    ) -> Result<Result<State, Error>, Full>
        requires { F.pre begin_wait }
        ensures { IfOk result (λ answer. gate_fault answer ≡ None) }
    {
        let value = self.acquire_with((), begin_wait)?;
        Ok(read_value(value))
    }

    /// The future of passing the gate: its output is that of [`Self::enter_sync`].
    ///
    /// Nothing is asked before its first poll. See [`Acquiring`](crate::future::Acquiring).
    pub fn enter_async(&self) -> Enter<'_, R>
        ensures form { result.form ≡ self.now }
        ensures request { result.asking.request ≡ AskEnter }
        ensures idle { result.asking.ticket ≡ Unregistered }
        ensures fresh { result.asking.has_ended ≡ false }
    {
        self.future(())
    }

    /// The future of [`Self::enter_async`], which calls `begin_wait` where it joins the queue.
    ///
    /// The callback runs once, in the poll that joined, after the join and with the mutex free; it may use
    /// this gate. It doesn't run where the answer is there at once, nor where the room is full.
    pub fn enter_async_with<F: FnOnce() + Drop>(&self, begin_wait: F) -> EnterWith<'_, R, F>
        ensures form { result.acquiring.form ≡ self.now }
        ensures request { result.acquiring.asking.request ≡ AskEnter }
        ensures idle { result.acquiring.asking.ticket ≡ Unregistered }
        ensures fresh { result.acquiring.asking.has_ended ≡ false }
        ensures callback { result.begin_wait ≡ Some begin_wait }
    {
        self.future_with((), begin_wait)
    }

    /// Registers a pager to pass the gate, to be polled as sync or as async.
    ///
    /// `Ok(true)`: it was answered at once, at a sealed or an open gate, or waits, last in the queue. `Ok(false)`: the
    /// pager is registered already, here or elsewhere. `Full`: it would have to wait, and as many slots are held as there
    /// is room. All but `Ok(true)` change nothing.
    ///
    /// Where the pager is cancelled, a waiter leaves the queue, and all other waiters are answered that one cancelled (`SpuriousFailure`),
    /// and woken. An answer that wasn't consumed is only consumed. Costs O(waiters) for a waiter, and a wake for each that is answered.
    pub fn register_pager<'s>(
        &'s self,
        pager: &mut Pager<'s, Self>,
        is_sync: bool,
    ) -> Result<bool, Full>
        ensures registered { is_busy pager.new ≡ (is_busy pager.old || is_yes result) }
        ensures busy { is_busy pager.old ≡ true → result ≡ Ok false }
        ensures unchanged { is_yes result ≡ false → pager.new ≡ pager.old }
        ensures mode { is_yes result ≡ true → mode_of pager.new ≡ Some is_sync }
        ensures idle { is_busy pager.old ≡ false → IfOk result (λ is_registered. is_registered ≡ true) }
    {
        self.page(pager, (), is_sync)
    }
}

impl PagerCore for GateCore {
    ghost use Rattle.std.specs.Prelude.{◌≡◌, None, Ok};
    ghost use Rattle.saa_core_spec.specs.Values.{gate_value};
    ghost use Rattle.saa_sync.specs.GateAnswers.{gate_fault, gate_reading};

    ghost is_value = { λ value. Unit {0} };

    ghost is_answer = { λ value. gate_fault (gate_value (Ok value)) ≡ None };

    ghost fault = { gate_fault };

    ghost reading = { gate_reading };

    /// The value's two low bits are the state that let it pass, and the rest is the gate's error, if it isn't 0: a gate answers 0, 2, 4,
    /// 9 and 12. An error of a poll is the gate's error of the same name. `Rejected`, `Sealed` and `SpuriousFailure` are answers.
    fn read(polled: Result<u8, polling::Error>) -> Result<State, Error> {
        match polled {
            Ok(value) => read_value(value),
            Err(error) => GateCore::value_of(Err(error)),
        }
    }

    ghost answers = { λ value is. is };
}

// What a number means that the core answered.
//
// No gate answers a number that reads as an error of a poll. Such a one would say that a wait was cancelled, so that a
// call with an answer isn't told that it has none.
pub(crate) fn read_value(value: u8) -> Result<State, Error>
    ensures reads { result ≡ gate_reading (Ok value) }
    ensures means { gate_fault (gate_value (Ok value)) ≡ None → result ≡ gate_value (Ok value) }
    ensures answered { gate_fault result ≡ None }
{
    match GateCore::value_of(Ok(value)) {
        Err(Error::NotRegistered) | Err(Error::WrongMode) | Err(Error::NotReady) => {
            Err(Error::SpuriousFailure)
        }
        answer => answer,
    }
}
