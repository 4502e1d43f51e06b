//! The cores of stories: each with tickets in place of pagers, and calls that may block as a registration and a poll.

ghost use Rattle.std.specs.Prelude.{◌<◌};

use crate::language::{Call, Failed, Move, Subject, moves_of};
use crate::reply::{Replies, Reply, ReplyWord, number, unknown, word};
use saa_core::barrier::BarrierCore;
use saa_core::gate::GateCore;
use saa_core::lock::{LockCore, Mode};
use saa_core::primitive::Primitive;
use saa_core::semaphore::SemaphoreCoreOf;
use saa_core::ticket::{Full, How, Ticket};
use std::alloc::{AllocError, Global};
use std::fmt::Debug;

/// A core, by the words of the language.
pub trait Core: Primitive + Debug + Drop {
    /// Calls that need no ticket.
    fn answer(&mut self, call: &Call<'_>) -> Reply;

    /// Registers a ticket for what the call requests.
    fn enroll(&mut self, ticket: &mut Ticket, call: &Call<'_>) -> Result<bool, Full>;

    fn polled(&mut self, ticket: &mut Ticket, how: How) -> Reply;
}

impl<const MAX: usize> Core for SemaphoreCoreOf<MAX> {
    fn answer(&mut self, call: &Call<'_>) -> Reply {
        match (call.verb, call.number()) {
            ("try", None) => self.try_acquire().reply(),
            ("try", Some(count)) => self.try_acquire_many(count).reply(),
            ("release", None) => self.release().reply(),
            ("release", Some(count)) => self.release_many(count).reply(),
            ("available", _) => number(self.available_permits()),
            ("is_open", _) => self.is_open().reply(),
            ("is_closed", _) => self.is_closed().reply(),
            ("shut", _) => self.shut().reply(),
            ("is_shut", _) => self.is_shut().reply(),
            _ => unknown(),
        }
    }

    fn enroll(&mut self, ticket: &mut Ticket, call: &Call<'_>) -> Result<bool, Full> {
        self.register(ticket, call.asked(), call.is_sync)
    }

    fn polled(&mut self, ticket: &mut Ticket, how: How) -> Reply {
        self.poll(ticket, how).reply()
    }
}

impl Core for LockCore {
    fn answer(&mut self, call: &Call<'_>) -> Reply {
        match call.verb {
            "try_lock" => self.try_lock().reply(),
            "try_share" => self.try_share().reply(),
            "release_lock" => self.release_lock().reply(),
            "release_share" => self.release_share().reply(),
            "downgrade" => self.downgrade().reply(),
            "poison_lock" => self.poison_lock().reply(),
            "clear_poison" => self.clear_poison().reply(),
            "is_free" => self.is_free().reply(),
            "is_locked" => self.is_locked().reply(),
            "is_shared" => self.is_shared().reply(),
            "is_poisoned" => self.is_poisoned().reply(),
            _ => unknown(),
        }
    }

    fn enroll(&mut self, ticket: &mut Ticket, call: &Call<'_>) -> Result<bool, Full> {
        self.register(ticket, call.mode, call.is_sync)
    }

    fn polled(&mut self, ticket: &mut Ticket, how: How) -> Reply {
        self.poll(ticket, how).reply()
    }
}

impl Core for GateCore {
    fn answer(&mut self, call: &Call<'_>) -> Reply {
        match (call.verb, call.number()) {
            ("state", _) => self.state().reply(),
            ("reset", _) => match self.reset() {
                Some(before) => before.reply(),
                None => word(ReplyWord::None),
            },
            ("permit", _) => self.permit().reply(),
            ("permit_many", Some(count)) => self.permit_many(count).reply(),
            ("reject", _) => self.reject().reply(),
            ("open", _) => self.open().reply(),
            ("seal", _) => self.seal().reply(),
            _ => unknown(),
        }
    }

    fn enroll(&mut self, ticket: &mut Ticket, call: &Call<'_>) -> Result<bool, Full> {
        GateCore::register(self, ticket, call.is_sync)
    }

    fn polled(&mut self, ticket: &mut Ticket, how: How) -> Reply {
        self.poll(ticket, how).reply()
    }
}

impl Core for BarrierCore {
    fn answer(&mut self, call: &Call<'_>) -> Reply {
        match call.verb {
            "count" => number(self.count()),
            "round" => number(self.round() as usize),
            "arrive" => self.count_arrival().reply(),
            "join" => self.join().reply(),
            "leave_barrier" => BarrierCore::leave(self).reply(),
            _ => unknown(),
        }
    }

    fn enroll(&mut self, ticket: &mut Ticket, call: &Call<'_>) -> Result<bool, Full> {
        self.arrive(ticket, call.is_sync)
    }

    fn polled(&mut self, ticket: &mut Ticket, how: How) -> Reply {
        self.poll(ticket, how).reply()
    }
}

/// A core with four tickets, and one of the calls that may block.
#[derive(Drop)]
pub struct Desk<C: Core> {
    core: C,
    tickets: [Ticket; 4],
    caller: Ticket,
}

impl<C: Core> Desk<C> {
    pub fn new(core: C) -> Self {
        Desk {
            core,
            tickets: [Ticket::new(), Ticket::new(), Ticket::new(), Ticket::new()],
            caller: Ticket::new(),
        }
    }

    // Makes a call with the ticket that it names.
    fn with_ticket(&mut self, call: &Call<'_>) -> Reply {
        match self.tickets.get_mut(call.pager()) {
            Some(ticket) => ticketed(&mut self.core, ticket, call),
            None => unknown(),
        }
    }

    // Registers as many as the crowd, by tickets that go out of scope and leave their slots held.
    fn register_crowd(&mut self, call: &Call<'_>) -> Reply {
        for _one in 0..call.crowd {
            let _registered = self.core.enroll(&mut Ticket::new(), call);
        }
        word(ReplyWord::Done)
    }

    /// Makes a call.
    pub fn answer(&mut self, call: &Call<'_>) -> Reply {
        match call.verb {
            "reg" if call.subject == Subject::Crowd => self.register_crowd(call),
            "reg"
            | "try_poll"
            | "poll_sync"
            | "poll_async"
            | "poll_number"
            | "registered"
            | "leave"
            | "cancel"
            | "drop"
            | "drop_away" => self.with_ticket(call),
            "acquire" | "lock" | "share" | "enter" | "wait" => {
                self.waited(call).unwrap_or(unknown())
            }
            "next" => match self.core.next_answered() {
                Some(slot) => number(usize::from(slot)),
                None => word(ReplyWord::None),
            },
            "word" => number(self.core.word() as usize),
            "try_shares" => shared(&mut self.core, call.number().unwrap_or(0)),
            _ => self.core.answer(call),
        }
    }

    /// Makes a call that may block; nothing where it would, and then it has left the queue again.
    pub fn waited(&mut self, call: &Call<'_>) -> Option<Reply> {
        match self.core.enroll(&mut self.caller, &asked_by(call)) {
            Ok(true) => {}
            refused => return Some(refused.reply()),
        }
        let answered = self.core.polled(&mut self.caller, How::Sync);
        if answered.is("not_ready") {
            self.core.cancel(&mut self.caller);
            return None;
        }
        Some(answered)
    }
}

// Makes a call with a ticket.
fn ticketed<C: Core>(core: &mut C, ticket: &mut Ticket, call: &Call<'_>) -> Reply {
    match call.verb {
        "reg" => core.enroll(ticket, call).reply(),
        "try_poll" => core.polled(ticket, How::Try),
        "poll_sync" => core.polled(ticket, How::Sync),
        "poll_async" => core.polled(ticket, How::Async),
        "poll_number" => core.poll_number(ticket, How::Try).reply(),
        "registered" => ticket.is_registered().reply(),
        "leave" => {
            core.leave(ticket);
            word(ReplyWord::Left)
        }
        _ => {
            core.cancel(ticket);
            word(ReplyWord::Dropped)
        }
    }
}

/// The registration that a call makes which may block.
pub fn asked_by(call: &Call<'_>) -> Call<'static> {
    let mut registration = Call::asking(call.number().unwrap_or(1));
    if matches!(call.verb, "share" | "share_with") {
        registration.mode = Mode::Shared;
    }
    registration
}

// So many tries to share: how many are granted.
fn shared<C: Core>(core: &mut C, count: usize) -> Reply {
    let mut granted = 0usize;
    for _try in 0..count {
        if core.answer(&Call::of("try_share")).is("ok") {
            granted = granted.saturating_add(1);
        }
    }
    number(granted)
}

// Whether a core prints this.
fn prints<C: Core>(alloc: Global, core: &C, wanted: &str) -> Result<bool, AllocError> {
    Ok(format!(in alloc; "{core:?}")?.as_str() == wanted)
}

// The first row that a core answers otherwise.
fn played<'t, C: Core>(
    alloc: Global,
    core: C,
    moves: &[Move<'t>],
) -> Result<Option<Failed<'t>>, AllocError> {
    let mut desk = Desk::new(core);
    for row in moves {
        if row.call.verb == "prints" {
            if !prints(alloc, &desk.core, row.wanted.unwrap_or(""))? {
                return Ok(Some(Failed::of(row, word(ReplyWord::AnotherText))));
            }
        } else {
            let failed = Failed::unless(row, desk.answer(&row.call));
            if failed.is_some() {
                return Ok(failed);
            }
        }
    }
    Ok(None)
}

// A story at the core that its first line makes.
fn at_first_line<'t>(
    alloc: Global,
    line: &Call<'_>,
    moves: &[Move<'t>],
) -> Result<Option<Failed<'t>>, AllocError> {
    let [first, second, _] = line.numbers();
    match (line.verb, first) {
        ("semaphore", _) => at_permits::<63>(alloc, first, line.room(1), moves),
        ("bounded", 1) => at_permits::<1>(alloc, second, line.room(2), moves),
        ("bounded", 1_000) => at_permits::<1_000>(alloc, second, line.room(2), moves),
        ("bounded", _) => at_permits::<65_535>(alloc, second, line.room(2), moves),
        ("lock", _) => played(alloc, LockCore::new(alloc, line.room(0))?, moves),
        ("gate", _) => played(alloc, GateCore::new(alloc, line.room(0))?, moves),
        _ => played(
            alloc,
            BarrierCore::with_count(alloc, first, line.room(1))?,
            moves,
        ),
    }
}

fn at_permits<'t, const MAX: usize>(
    alloc: Global,
    permits: usize,
    room: u16,
    moves: &[Move<'t>],
) -> Result<Option<Failed<'t>>, AllocError>
    requires bound { 0 < MAX }
    requires narrow { MAX < 65536 }
{
    let core = SemaphoreCoreOf::<MAX>::with_permits(alloc, permits, room)?;
    played(alloc, core, moves)
}

/// The first row of these stories that is answered otherwise at a core.
pub fn first_failed<'t>(alloc: Global, stories: &'t str) -> Result<Option<Failed<'t>>, AllocError> {
    for story in stories.split("\n\n") {
        let moves = moves_of(alloc, story)?;
        if let Some((first, rows)) = moves.split_first() {
            let failed = at_first_line(alloc, &first.call, rows)?;
            if failed.is_some() {
                return Ok(failed);
            }
        }
    }
    Ok(None)
}
