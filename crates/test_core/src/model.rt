//! The sequential specification in plain code, for four names: slow, small, and written apart from the cores and their definitions.
//!
//! It has no queue: each name that waits has the number of its turn, and the oldest waiter is the one with the least. It is called in the language of
//! `test_language`, and answers in it.

use saa_core::gate::State;
use saa_core::lock::Mode;
use saa_core::ticket::Full;
use test_language::language::Call;
use test_language::reply::{Replies, Reply, ReplyWord, number, unknown, word};

// The most owners that share a lock, and the most tasks of a barrier.
const OWNERS: usize = 62;

const TASKS: usize = 63;

/// What a primitive holds.
#[derive(Clone, Copy)]
pub(crate) enum Held {
    /// A semaphore: so many permits are out, of so many, and whether it was shut.
    Permits(usize, usize, bool),
    /// A lock that has no owner, one owner alone, so many that share it, or was poisoned.
    Free,
    Owned,
    Shared(usize),
    Poisoned,
    /// A gate, in this state.
    Gate(State),
    /// A barrier of this size, in whose round so many arrived that don't wait, after so many rounds.
    Barrier(usize, usize, usize),
}

// What a name requests: so many permits, a lock in this mode, or to pass a gate or a barrier.
#[derive(Clone, Copy)]
enum Need {
    Permits(usize),
    Lock(Mode),
    Pass,
}

// The request of a name, and whether as sync.
type Request = (Need, bool);

// What is known of a name: it is idle; it waits since this turn; or it was answered this, and holds its slot still or never had one.
#[derive(Clone, Copy)]
enum Entry {
    Idle,
    Waiting(Request, usize),
    Answered(Request, Reply, bool),
}

/// The state: what is held, what is known of each name, the room, and how many turns were given.
#[derive(Clone, Copy)]
pub(crate) struct Model {
    held: Held,
    entries: [Entry; 4],
    room: usize,
    turns: usize,
}

impl Model {
    /// Nobody waits, and all names are idle.
    pub(crate) fn new(held: Held, room: u16) -> Self {
        Model {
            held,
            entries: [Entry::Idle; 4],
            room: usize::from(room),
            turns: 0,
        }
    }

    /// Makes a call.
    pub(crate) fn answer(&mut self, call: &Call<'_>) -> Reply {
        let name = call.pager();
        match call.verb {
            "reg" => self.register(name, self.need(call), call.is_sync).reply(),
            "try_poll" => self.poll(name, None),
            "poll_sync" => self.poll(name, Some(true)),
            "poll_async" => self.poll(name, Some(false)),
            "registered" => (!matches!(self.entry(name), Entry::Idle)).reply(),
            "cancel" => {
                self.cancel(name);
                word(ReplyWord::Dropped)
            }
            "leave" => {
                self.leave(name);
                word(ReplyWord::Left)
            }
            _ => self.call(call),
        }
    }

    // Makes a call that names nobody.
    fn call(&mut self, call: &Call<'_>) -> Reply {
        match self.held {
            Held::Permits(out, bound, is_shut) => self.call_permits(call, out, bound, is_shut),
            Held::Gate(state) => self.call_gate(call.verb, call.number().unwrap_or(0), state),
            Held::Barrier(size, arrived, rounds) => {
                self.call_barrier(call.verb, size, arrived, rounds)
            }
            _ => self.call_lock(call.verb),
        }
    }

    // What a registration needs.
    fn need(&self, call: &Call<'_>) -> Need {
        match self.held {
            Held::Permits(..) => Need::Permits(call.asked()),
            Held::Gate(_) | Held::Barrier(..) => Need::Pass,
            _ => Need::Lock(call.mode),
        }
    }

    // The answer of a name that was granted.
    fn grant(&self) -> Reply {
        match self.held {
            Held::Permits(..) => word(ReplyWord::Ok),
            _ => word(ReplyWord::True),
        }
    }

    fn entry(&self, name: usize) -> Entry {
        self.entries.get(name).copied().unwrap_or(Entry::Idle)
    }

    fn set(&mut self, name: usize, entry: Entry) {
        if let Some(old) = self.entries.get_mut(name) {
            *old = entry;
        }
    }

    fn waiting(&self) -> usize {
        self.entries
            .iter()
            .filter(|entry| matches!(entry, Entry::Waiting(..)))
            .count()
    }

    // How many slots are held.
    fn used(&self) -> usize {
        self.entries
            .iter()
            .filter(|entry| matches!(entry, Entry::Waiting(..) | Entry::Answered(_, _, true)))
            .count()
    }

    // The name that waits since the least turn, and its request.
    fn oldest(&self) -> Option<(usize, Request)> {
        let (mut oldest, mut least) = (None, usize::MAX);
        for (name, entry) in self.entries.iter().enumerate() {
            match *entry {
                Entry::Waiting(request, turn) if turn < least => {
                    oldest = Some((name, request));
                    least = turn;
                }
                _ => {}
            }
        }
        oldest
    }

    // What would be held if the need were granted; nothing where it doesn't fit.
    fn granted(&self, need: Need) -> Option<Held> {
        match (self.held, need) {
            (Held::Permits(out, bound, false), Need::Permits(count))
                if count <= bound.saturating_sub(out) => {
                Some(Held::Permits(out.saturating_add(count), bound, false))
            }
            (Held::Free, Need::Lock(Mode::Exclusive)) => Some(Held::Owned),
            (Held::Free, Need::Lock(Mode::Shared)) => Some(Held::Shared(1)),
            (Held::Free, Need::Lock(_)) => Some(Held::Free),
            (Held::Shared(owners), Need::Lock(Mode::Shared)) if owners < OWNERS => {
                Some(Held::Shared(owners.saturating_add(1)))
            }
            (Held::Shared(owners), Need::Lock(Mode::WaitShared)) if owners < OWNERS => {
                Some(self.held)
            }
            _ => None,
        }
    }

    // What would be held if it were given back; nothing where it isn't out.
    fn returned(&self, need: Need) -> Option<Held> {
        match (self.held, need) {
            (Held::Permits(out, bound, is_shut), Need::Permits(count)) => {
                Some(Held::Permits(out.checked_sub(count)?, bound, is_shut))
            }
            (Held::Owned, Need::Lock(Mode::Exclusive)) => Some(Held::Free),
            (Held::Shared(1), Need::Lock(Mode::Shared)) => Some(Held::Free),
            (Held::Shared(owners), Need::Lock(Mode::Shared)) => {
                Some(Held::Shared(owners.saturating_sub(1)))
            }
            _ => None,
        }
    }

    // Takes what fits while there is no waiter.
    fn take(&mut self, need: Need) -> bool {
        match self.granted(need) {
            Some(held) if self.waiting() == 0 => {
                self.held = held;
                true
            }
            _ => false,
        }
    }

    // Gives back what is out, and grants the oldest waiters while they fit. No permits are given back with nothing done.
    fn give_back(&mut self, need: Need) -> bool {
        if let Need::Permits(0) = need {
            return true;
        }
        match self.returned(need) {
            Some(held) => {
                self.held = held;
                self.settle();
                true
            }
            None => false,
        }
    }

    // Answers at most so many waiters, the oldest first, which keep their slots; and says how many they were.
    fn answer_front(&mut self, most: usize, reply: Reply) -> usize {
        let count = most.min(self.waiting());
        for _waiter in 0..count {
            if let Some((name, request)) = self.oldest() {
                self.set(name, Entry::Answered(request, reply, true));
            }
        }
        count
    }

    fn answer_all(&mut self, reply: ReplyWord) -> usize {
        self.answer_front(usize::MAX, word(reply))
    }

    // What would be held if the oldest waiter were granted; nothing where it doesn't fit.
    fn granted_oldest(&self) -> Option<Held> {
        self.granted(self.oldest()?.1.0)
    }

    // Grants the oldest waiters while they fit.
    fn settle(&mut self) {
        for _waiter in 0..self.waiting() {
            let Some(held) = self.granted_oldest() else {
                return;
            };
            self.held = held;
            self.answer_front(1, self.grant());
        }
    }

    // What a registration is answered that needn't wait.
    fn at_once(&mut self, need: Need) -> Option<Reply> {
        match self.held {
            Held::Permits(_, _, true) => Some(word(ReplyWord::Closed)),
            Held::Poisoned => Some(word(ReplyWord::False)),
            Held::Gate(State::Controlled) => None,
            Held::Gate(State::Sealed) => Some(word(ReplyWord::Sealed)),
            Held::Gate(State::Open) => Some(word(ReplyWord::OkOpen)),
            Held::Barrier(size, arrived, rounds) => {
                let arrived = arrived.saturating_add(1);
                if arrived.saturating_add(self.waiting()) != size {
                    return None;
                }
                self.resize(size, arrived, rounds);
                Some(word(ReplyWord::True))
            }
            _ => self.take(need).then_some(self.grant()),
        }
    }

    fn register(&mut self, name: usize, need: Need, is_sync: bool) -> Result<bool, Full> {
        let is_idle = matches!(self.entry(name), Entry::Idle);
        let is_too_much = match (self.held, need) {
            (Held::Permits(_, bound, _), Need::Permits(count)) => count > bound,
            _ => false,
        };
        if !is_idle || is_too_much {
            return Ok(false);
        }
        let request = (need, is_sync);
        if let Some(reply) = self.at_once(need) {
            self.set(name, Entry::Answered(request, reply, false));
        } else if self.used() == self.room {
            return Err(Full);
        } else {
            self.turns = self.turns.saturating_add(1);
            self.set(name, Entry::Waiting(request, self.turns));
        }
        Ok(true)
    }

    // Polls a name as sync or as async, or by a try, which may be either.
    fn poll(&mut self, name: usize, mode: Option<bool>) -> Reply {
        let (request, answer) = match self.entry(name) {
            Entry::Idle => return word(ReplyWord::NotRegistered),
            Entry::Waiting(request, _) => (request, None),
            Entry::Answered(request, reply, _) => (request, Some(reply)),
        };
        if mode == Some(!request.1) {
            return word(ReplyWord::WrongMode);
        }
        let Some(reply) = answer else {
            return word(ReplyWord::NotReady);
        };
        self.set(name, Entry::Idle);
        reply
    }

    // Drops what a name is registered for; a waiter that leaves a gate answers all others.
    fn cancel(&mut self, name: usize) {
        let answers_others = matches!(self.held, Held::Gate(_))
            && matches!(self.entry(name), Entry::Waiting(..));
        self.leave(name);
        if answers_others {
            self.answer_all(ReplyWord::Spurious);
        }
    }

    // Drops what a name is registered for; at a gate the others wait on.
    fn leave(&mut self, name: usize) {
        let entry = self.entry(name);
        self.set(name, Entry::Idle);
        match entry {
            Entry::Waiting(..) => self.settle(),
            Entry::Answered(request, reply, _) if reply == self.grant() => {
                self.give_back(request.0);
            }
            _ => {}
        }
    }

    fn call_permits(&mut self, call: &Call<'_>, out: usize, bound: usize, is_shut: bool) -> Reply {
        let permits = Need::Permits(call.number().unwrap_or(1));
        match call.verb {
            "try" => self.take(permits).reply(),
            "release" => self.give_back(permits).reply(),
            "available" => number(bound.saturating_sub(out)),
            "is_open" => (out < bound).reply(),
            "is_closed" => (out == bound).reply(),
            "is_shut" => is_shut.reply(),
            "shut" => {
                self.held = Held::Permits(out, bound, true);
                self.answer_all(ReplyWord::Closed);
                (!is_shut).reply()
            }
            _ => unknown(),
        }
    }

    // What a try at a lock answers.
    fn tried(&mut self, mode: Mode) -> Reply {
        if self.take(Need::Lock(mode)) {
            word(ReplyWord::Ok)
        } else if let Held::Poisoned = self.held {
            word(ReplyWord::Poisoned)
        } else {
            word(ReplyWord::WouldBlock)
        }
    }

    // The lock comes to be held so if it may, and its waiters are served then, or answered that it is poisoned.
    fn turn(&mut self, may: bool, held: Held) -> Reply {
        if may {
            self.held = held;
            self.settle();
        }
        if let Held::Poisoned = self.held {
            self.answer_all(ReplyWord::False);
        }
        may.reply()
    }

    fn call_lock(&mut self, verb: &str) -> Reply {
        let is_owned = matches!(self.held, Held::Owned);
        let is_poisoned = matches!(self.held, Held::Poisoned);
        match verb {
            "try_lock" => self.tried(Mode::Exclusive),
            "try_share" => self.tried(Mode::Shared),
            "release_lock" => self.give_back(Need::Lock(Mode::Exclusive)).reply(),
            "release_share" => self.give_back(Need::Lock(Mode::Shared)).reply(),
            "downgrade" => self.turn(is_owned, Held::Shared(1)),
            "poison_lock" => self.turn(is_owned, Held::Poisoned),
            "clear_poison" => self.turn(is_poisoned, Held::Free),
            "is_free" => matches!(self.held, Held::Free).reply(),
            "is_locked" => is_owned.reply(),
            "is_shared" => matches!(self.held, Held::Shared(_)).reply(),
            "is_poisoned" => is_poisoned.reply(),
            _ => unknown(),
        }
    }

    // A controlled gate answers at most so many waiters; another only says its state.
    fn let_through(&mut self, state: State, most: usize, reply: ReplyWord) -> Reply {
        match state {
            State::Controlled => Ok::<usize, State>(self.answer_front(most, word(reply))).reply(),
            other => Err::<usize, State>(other).reply(),
        }
    }

    // The gate is in another state, and all waiters are answered.
    fn moved(&mut self, before: State, to: State, reply: ReplyWord) -> Reply {
        self.held = Held::Gate(to);
        (before, self.answer_all(reply)).reply()
    }

    fn call_gate(&mut self, verb: &str, most: usize, state: State) -> Reply {
        match verb {
            "state" => state.reply(),
            "reset" if state == State::Controlled => word(ReplyWord::None),
            "reset" => {
                self.held = Held::Gate(State::Controlled);
                state.reply()
            }
            "permit" => self.let_through(state, usize::MAX, ReplyWord::OkControlled),
            "permit_many" => self.let_through(state, most, ReplyWord::OkControlled),
            "reject" => self.let_through(state, usize::MAX, ReplyWord::Rejected),
            "open" => self.moved(state, State::Open, ReplyWord::OkOpen),
            "seal" => self.moved(state, State::Sealed, ReplyWord::Sealed),
            _ => unknown(),
        }
    }

    // A barrier of this size, with so many arrivals that don't wait, after so many rounds; whether its round is complete then.
    fn resize(&mut self, size: usize, arrived: usize, rounds: usize) -> bool {
        let arrivals = arrived.saturating_add(self.waiting());
        let is_complete = arrivals > 0 && arrivals >= size;
        self.held = Held::Barrier(size, arrived, rounds);
        if is_complete {
            self.held = Held::Barrier(size, 0, rounds.saturating_add(1));
            self.answer_all(ReplyWord::False);
        }
        is_complete
    }

    fn call_barrier(&mut self, verb: &str, size: usize, arrived: usize, rounds: usize) -> Reply {
        match verb {
            "count" => number(size.saturating_sub(arrived).saturating_sub(self.waiting())),
            "round" => number(rounds),
            "arrive" => (size > 0 && self.resize(size, arrived.saturating_add(1), rounds)).reply(),
            "join" if size == TASKS => false.reply(),
            "join" => {
                self.resize(size.saturating_add(1), arrived, rounds);
                true.reply()
            }
            "leave_barrier" => {
                (size > 0 && self.resize(size.saturating_sub(1), arrived, rounds)).reply()
            }
            _ => unknown(),
        }
    }
}
