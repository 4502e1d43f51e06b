//! The player: one thread makes a story's own moves, and gives each place its turn, which makes its moves on a thread of its own.

use crate::orders::{call_of, is_made, is_setting, places_of};
use crate::scene::{At, Caller, Form, Scene};
use crate::turns::turns;
use std::alloc::{AllocError, Global};
use std::sync::Wait;
use std::sync::atomic::Ordering;
use std::thread::{self, yield_now};
use std::time::{Clock, Duration};
use test_language::language::{Call, Failed, Move, Subject};
use test_language::reply::{Replies, Reply, ReplyWord, number, word};

// How many places look for their turn without a pause; and how long the others sleep between two looks, in microseconds.
const FEW: usize = 4;

const GLANCE: u64 = 200;

/// Who takes part in a story: a place, by its number, or the story itself.
#[derive(Drop)]
pub struct Member<C> {
    place: usize,
    caller: Option<C>,
}

/// The members of a story at a form: the story, and callers at the last places, the last first.
pub fn members_of<C: Drop>(
    alloc: Global,
    callers: Vec<C>,
    places: u16,
) -> Result<Vec<Member<C>>, AllocError> {
    let mut members = Vec::new(alloc);
    let mut place = usize::from(places);
    let caller = None;
    members.push(Member { place, caller })?;
    for caller in callers {
        let caller = Some(caller);
        place = place.saturating_sub(1);
        members.push(Member { place, caller })?;
    }
    Ok(members)
}

/// Takes part in a story: the first row that is answered otherwise. A place leaves in the end, unless all stay.
pub fn play<R: Wait + Clock, F: Form, C: Caller<R, F> + Drop>(
    scene: &Scene<'_, R, F>,
    member: Member<C>,
) -> Option<Failed<'static>> {
    let Member { place, caller } = member;
    let failed = match caller {
        Some(mut caller) => {
            scene.begin(place);
            let failed = first_of_place(scene, place, &mut caller);
            if !scene.moves.iter().any(|row| row.call.verb == "stay") {
                caller.leave(scene.rt);
            }
            failed
        }
        None => scene.lead(),
    };
    if failed.is_some() {
        scene.has_failed.store(true, Ordering::SeqCst);
        scene.form.let_all_go(scene.rt);
    }
    failed
}

// The first row of a place that is answered otherwise.
fn first_of_place<R: Wait + Clock, F: Form, C: Caller<R, F>>(
    scene: &Scene<'_, R, F>,
    place: usize,
    caller: &mut C,
) -> Option<Failed<'static>> {
    let scene = &*scene;
    let at = &At { scene, place };
    for (number, row) in scene.moves.iter().enumerate() {
        let (first, count) = places_of(&row.call);
        let call = call_of(&row.call);
        let is_here = place >= first && place.saturating_sub(first) < count;
        if is_here && is_made(call.verb) {
            if !at.awaits_turn(number, first, call.verb) {
                return None;
            }
            let reply = match call.verb {
                "turns" => turns(caller, at, &call),
                _ => caller.make(at, &call),
            };
            let failed = Failed::unless(row, reply);
            if failed.is_some() {
                return failed;
            }
        }
        scene.pass(place, number);
    }
    None
}

impl<R: Wait + Clock, F: Form> At<'_, R, F> {
    // Waits for the turn of a move whose first place is this, and registers after the places before it; whether the turn comes.
    fn awaits_turn(&self, number: usize, first: usize, verb: &str) -> bool {
        let scene = self.scene;
        for _turn in scene.rt.forever() {
            if scene.has_failed() {
                return false;
            }
            let is_next = !verb.starts_with("register")
                || self.place == first
                || scene.has_passed(self.place.saturating_sub(1), number);
            if is_next && scene.begun.load(Ordering::SeqCst) > number {
                return true;
            }
            if self.place < FEW {
                yield_now();
            } else {
                thread::sleep(scene.rt, Duration::from_micros(GLANCE));
            }
        }
        unreachable!()
    }
}

impl<R: Wait, F: Form> Scene<'_, R, F> {
    // The first of the story's own rows that is answered otherwise.
    fn lead(&self) -> Option<Failed<'static>> {
        for (at, row) in self.moves.iter().enumerate() {
            if self.has_failed() {
                return None;
            }
            if let Some(reply) = self.answer(at, row) {
                let failed = Failed::unless(row, reply);
                if failed.is_some() {
                    return failed;
                }
            }
        }
        None
    }

    // Makes a move of the story, or gives places their turn; what it answers, unless their rows say it.
    fn answer(&self, at: usize, row: &Move<'_>) -> Option<Reply> {
        let places = places_of(&row.call);
        let call = call_of(&row.call);
        if is_setting(call.verb) {
            return None;
        }
        if places.1 == 0 {
            return Some(self.made(at, &call));
        }
        let is_awaited = matches!(call.verb, "ends" | "holds");
        if is_made(call.verb) || is_awaited {
            self.begun.store(at.saturating_add(1), Ordering::SeqCst);
            self.await_places(at, places, call.verb);
            return is_awaited.then_some(word(ReplyWord::Done));
        }
        Some(self.read(at, places, call.verb))
    }

    // How many of these places are done with their moves up to this one.
    fn passed(&self, at: usize, (first, count): (usize, usize)) -> usize {
        let mut passed = 0usize;
        for place in first..first.saturating_add(count) {
            passed = passed.saturating_add(usize::from(self.has_passed(place, at)));
        }
        passed
    }

    // Waits until each of these places is done with a move, or is away; or has ended, or is held, where that is waited for.
    fn await_places(&self, at: usize, (first, count): (usize, usize), verb: &str) {
        for place in first..first.saturating_add(count) {
            for _turn in self.rt.forever() {
                let is_there = match verb {
                    "ends" => self.has_passed(place, at),
                    "holds" => self.is_held(place),
                    _ => self.has_passed(place, at) || self.is_away(place),
                };
                if is_there || self.has_failed() {
                    break;
                }
                yield_now();
            }
        }
    }

    // What is read of places.
    fn read(&self, at: usize, (place, count): (usize, usize), verb: &str) -> Reply {
        match verb {
            "ended" => number(self.passed(at.saturating_sub(1), (place, count))),
            "marked" => self.form.is_marked(place).reply(),
            "deferred" => self.is_deferred(place).reply(),
            "in_order" => {
                let seat = self.seat(place);
                seat.is_some_and(|seat| seat.tally.is_in_order()).reply()
            }
            _ => number(self.count_of(place, verb) as usize),
        }
    }

    // Makes a move of the story.
    fn made(&self, at: usize, call: &Call<'_>) -> Reply {
        match (call.subject, call.verb) {
            (Subject::Task(task), "woken") => return self.task(task).is_woken().reply(),
            (Subject::Task(task), _) => self.task(task).enter(|_cx| ()),
            (_, "go") => {
                self.let_go.fetch_add(1, Ordering::SeqCst);
            }
            (_, "faults") => return number(self.inside.faults() as usize),
            (_, "refused") => return number(self.refused.load(Ordering::SeqCst)),
            (_, "in_turn") => return self.in_turn(at, call),
            (_, verb) => return self.form.once(self.rt, verb, call.number().unwrap_or(0)),
        }
        word(ReplyWord::Done)
    }

    // Makes a call so often, of which each ends the calls of so many of the crowd: how often that was so, and no other ended.
    fn in_turn(&self, at: usize, call: &Call<'_>) -> Reply {
        let (times, then) = (call.number().unwrap_or(0), call.then());
        let each = then.number().unwrap_or(1);
        let all = times.saturating_mul(each);
        let mut right = 0usize;
        for time in 1..=times {
            self.form.once(self.rt, then.verb, each);
            let ended = time.saturating_mul(each);
            self.await_places(at, (1, ended), "ends");
            right = right.saturating_add(usize::from(self.passed(at, (1, all)) == ended));
        }
        number(right)
    }
}
