//! What the threads of a story share beside its form: how far it is, what is counted and checked of each place, and the watch of a call.

use crate::asleep::{is_asleep, own_number};
use crate::tally::{Tally, word_of};
use crate::turns::Inside;
use futures::test::MockTask;
use saa_word_threads::testing::{DEFAULT, Made, Moment, SpinPolicy, Watch};
use std::alloc::AllocGlobal;
use std::io;
use std::random::RandomSource;
use std::sync::Wait;
use std::sync::atomic::{AtomicBool, AtomicU64, AtomicUsize, Ordering};
use std::thread::yield_now;
use test_language::language::{Call, Move};
use test_language::reply::Reply;

// How often a call yields at least whose step is blocked, before the story goes on.
const DEFERS: u64 = 100;

/// How many of the last places of a form have threads at most.
pub const MOST: u16 = 40;

/// A form of the word: its calls with no place, and what is seen of its places.
pub trait Form {
    /// Makes a call by a visitor that comes for it.
    fn once<R: Wait>(&self, rt: &R, verb: &str, count: usize) -> Reply;

    /// Whether a place has its mark set: it is parked, or about to park.
    fn is_marked(&self, place: usize) -> bool;

    /// Whether an answer is written for a place that it hasn't taken, where the form says it.
    fn is_answered(&self, place: usize) -> Option<bool>;

    /// Answers all that wait, in a story that has failed.
    fn let_all_go<R: Wait>(&self, rt: &R);
}

/// A place of a form, which makes calls on its thread.
pub trait Caller<R, F> {
    fn make(&mut self, at: &At<'_, R, F>, call: &Call<'_>) -> Reply;

    /// Leaves the form.
    fn leave(self, rt: &R);
}

/// What is counted of a place, the number by which the system knows its thread, and how many moves the thread is done with.
#[derive(Drop)]
pub struct Seat {
    pub tally: Tally,
    thread: AtomicU64,
    passed: AtomicUsize,
}

/// A story at a form.
#[derive(Drop)]
pub struct Scene<'s, R, F> {
    pub rt: &'s R,
    pub form: &'s F,
    pub moves: &'s [Move<'static>],
    pub inside: Inside,
    host: HostRuntime,
    // The number of the first place that has a thread, and these.
    first: usize,
    seats: Vec<Seat>,
    tasks: (MockTask, MockTask),
    /// How many moves may have begun, and whether a row was answered otherwise.
    pub begun: AtomicUsize,
    pub has_failed: AtomicBool,
    // How many are ready for their turns.
    ready: AtomicUsize,
    // The place that is held, counted from 1.
    held: AtomicUsize,
    /// How many were let go, and how often visitors that came at moments were refused.
    pub let_go: AtomicUsize,
    pub refused: AtomicUsize,
}

/// The number of a place, which is less than there can be.
pub fn narrow(place: usize) -> u16 {
    u16::try_from(place).unwrap_or(u16::MAX)
}

impl<'s, R, F> Scene<'s, R, F> {
    /// Nothing has happened yet, at a form with so many places.
    pub fn new(
        rt: &'s R,
        host: HostRuntime,
        form: &'s F,
        moves: &'s [Move<'static>],
        places: u16,
    ) -> io::Result<Self>
    where
        R: RandomSource + AllocGlobal,
    {
        let threads = places.min(MOST);
        let mut seats = Vec::new(rt.alloc());
        for _seat in 0..threads {
            seats.push(Seat {
                tally: Tally::new(rt.alloc())?,
                thread: AtomicU64::new(0),
                passed: AtomicUsize::new(0),
            })?;
        }
        let scene = Scene {
            rt,
            form,
            moves,
            inside: Inside::new(),
            host,
            first: usize::from(places.saturating_sub(threads)),
            seats,
            tasks: (MockTask::new(rt)?, MockTask::new(rt)?),
            begun: AtomicUsize::new(0),
            has_failed: AtomicBool::new(false),
            ready: AtomicUsize::new(0),
            held: AtomicUsize::new(0),
            let_go: AtomicUsize::new(0),
            refused: AtomicUsize::new(0),
        };
        scene.tasks.0.enter(|_cx| ());
        scene.tasks.1.enter(|_cx| ());
        Ok(scene)
    }

    /// What is known of a place, if it has a thread.
    pub fn seat(&self, place: usize) -> Option<&Seat> {
        self.seats.get(place.checked_sub(self.first)?)
    }

    /// A task of the story.
    pub fn task(&self, number: usize) -> &MockTask {
        match number {
            0 => &self.tasks.0,
            _ => &self.tasks.1,
        }
    }

    /// How watched calls spin.
    pub fn spin_policy(&self) -> SpinPolicy {
        for row in self.moves {
            if row.call.verb == "spins" {
                let [looks, yields, _] = row.call.numbers();
                return SpinPolicy {
                    looks: u32::try_from(looks).unwrap_or(u32::MAX),
                    yields: u32::try_from(yields).unwrap_or(u32::MAX),
                };
            }
        }
        DEFAULT
    }

    /// Whether a row was answered otherwise: nothing more is waited for.
    pub fn has_failed(&self) -> bool {
        self.has_failed.load(Ordering::SeqCst)
    }

    /// This thread is that of a place.
    pub fn begin(&self, place: usize) {
        if let Some(seat) = self.seat(place) {
            seat.thread.store(own_number(self.host), Ordering::SeqCst);
        }
    }

    /// A place is done with its moves up to this one, or they are another's.
    pub fn pass(&self, place: usize, at: usize) {
        if let Some(seat) = self.seat(place) {
            seat.passed.store(at.saturating_add(1), Ordering::SeqCst);
        }
    }

    /// Whether that is so; also of a place with no thread.
    pub fn has_passed(&self, place: usize, at: usize) -> bool {
        self.seat(place)
            .is_none_or(|seat| seat.passed.load(Ordering::SeqCst) > at)
    }

    /// How often a word of a place came.
    pub fn count_of(&self, place: usize, word: &str) -> u64 {
        let seat = self.seat(place);
        seat.and_then(|seat| seat.tally.read(word)).unwrap_or(0)
    }

    /// Whether a call of a place was blocked, and yielded each time, often.
    pub fn is_deferred(&self, place: usize) -> bool {
        let defers = self.count_of(place, "defers");
        defers >= DEFERS && defers == self.count_of(place, "blocks")
    }

    /// Whether this place is held.
    pub fn is_held(&self, place: usize) -> bool {
        self.held.load(Ordering::SeqCst) == place.saturating_add(1)
    }
}

impl<R: Wait, F: Form> Scene<'_, R, F> {
    // Whether the thread of a place sleeps where it parked.
    fn sleeps(&self, place: usize) -> bool {
        let Some(seat) = self.seat(place) else {
            return false;
        };
        self.form.is_marked(place) && is_asleep(self.host, seat.thread.load(Ordering::SeqCst))
    }

    /// Whether a place is away in a call: it sleeps, is held, or is deferred.
    pub fn is_away(&self, place: usize) -> bool {
        self.sleeps(place) || self.is_held(place) || self.is_deferred(place)
    }

    /// Holds a place until it is let go.
    pub fn hold(&self, place: usize) {
        let before = self.let_go.load(Ordering::SeqCst);
        self.held.store(place.saturating_add(1), Ordering::SeqCst);
        for _turn in self.rt.forever() {
            if self.let_go.load(Ordering::SeqCst) > before || self.has_failed() {
                break;
            }
            yield_now();
        }
        self.held.store(0, Ordering::SeqCst);
    }

    /// Waits until so many are ready for their turns.
    pub fn meet(&self, count: usize) {
        self.ready.fetch_add(1, Ordering::SeqCst);
        for _turn in self.rt.forever() {
            if self.ready.load(Ordering::SeqCst) >= count || self.has_failed() {
                return;
            }
            yield_now();
        }
    }

    // An answer is written or isn't, and whoever it is for isn't woken: a thread sleeps, and the first task, which is the one that polled last, wasn't woken.
    fn see(&self, place: u16, is_written: bool) {
        let (inside, place) = (&self.inside, usize::from(place));
        inside.check(self.form.is_answered(place) != Some(!is_written));
        inside.check(!self.form.is_marked(place) || self.sleeps(place));
        inside.check(!self.tasks.0.is_woken());
    }
}

/// A place of a story, as the watch of its calls.
#[derive(Drop)]
pub struct At<'s, R, F> {
    pub scene: &'s Scene<'s, R, F>,
    pub place: usize,
}

impl<R: Wait, F: Form> At<'_, R, F> {
    // Whether its mark is set.
    fn is_marked(&self) -> bool {
        self.scene.form.is_marked(self.place)
    }

    // Its mark is set as it parks, and not before; and an answer is written before its waiter is woken.
    fn see(&self, moment: Moment) {
        match moment {
            Moment::LooksForAnswer => self.scene.inside.check(!self.is_marked()),
            Moment::Parks => self.scene.inside.check(self.is_marked()),
            Moment::Writes(place) => self.scene.see(place, false),
            Moment::Answers(place) | Moment::Wakes(place) => self.scene.see(place, true),
            _ => {}
        }
    }

    // What the story makes at this moment.
    fn call(&self, verb: &str) {
        if verb == "hold" {
            if self.scene.let_go.load(Ordering::SeqCst) == 0 {
                self.scene.hold(self.place);
            }
            return;
        }
        let reply = self.scene.form.once(self.scene.rt, verb, 0);
        if !reply.is("true") && !reply.is("ok") {
            self.scene.refused.fetch_add(1, Ordering::SeqCst);
        }
    }
}

impl<R: Wait, F: Form> Watch for At<'_, R, F> {
    fn at(&self, moment: Moment) {
        if let Some(seat) = self.scene.seat(self.place) {
            seat.tally.at(moment);
        }
        self.see(moment);
        let word = word_of(moment);
        let count = self.scene.count_of(self.place, word);
        for row in self.scene.moves {
            let wanted = row.call.number().unwrap_or(0) as u64;
            let is_now = wanted == 0 || wanted == count;
            if is_now && row.call.verb.strip_prefix("at_") == Some(word) {
                self.call(row.call.then().verb);
            }
        }
    }

    fn paused(&self, made: &Made) {
        self.scene.inside.check(!self.is_marked());
        if let Some(seat) = self.scene.seat(self.place) {
            seat.tally.paused(made);
        }
    }
}
