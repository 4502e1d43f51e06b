//! The straight path of the flag's holder: it walks the queue, publishes what it grants, and shows the answers.
//!
//! These are the very steps of `act`, of the same stages, but contracts alone see the stages: what a walk remembers stays in a few numbers, and no
//! position is built or copied. Places and visitors walk alike, since no step of a walk is on a word of one's own.

ghost use Rattle.std.specs.Prelude.{◌≡◌, ◌==◌, if◌then◌else◌, ℕ, Some};
ghost use Rattle.saa_core_spec.specs.Values.{granted_value};
ghost use Rattle.saa_word_steps.specs.declared.operation.Operation.TheVariants.{Load, Exchange, Add, Store};
ghost use Rattle.saa_word_steps.specs.declared.place.Stage.TheVariants.{BackLoad, Forward, Close, Empty, Retry, ShowLoad};
ghost use Rattle.saa_word_steps.specs.Steps.{finished, next_of, operation_of, settled_word, shown_all};
ghost use Rattle.saa_word_proofs.specs.Refinement.{IsVisiting};
ghost use Rattle.saa_word_threads.specs.Pending.{IsSameSeat, about_of, needs};
ghost use Rattle.saa_word_threads.specs.Walks.{GoesOnUnderway, IsUnderway, afterwards_of, at_stage, publishing, stage_behind, staying, top_of};

use crate::form::Form;
use crate::table::{Mover, View};
use crate::watch::{Moment, Watch};
use atomic_table::Seat;
use saa_core_words::answer_word;
use saa_core_words::line_word::LineWord;
use saa_core_words::word::Word;
use saa_word_steps::place::{AfterShow, Place as Position, Stage};
use std::marker::Brand;
use std::snapshot::Snapshot;
use std::sync::Wait;

// The value of the answer that grants.
const GRANTED: u8 = 0;

/// What a call under way began with: that of a place, or of a visitor.
pub trait Course {
    ghost use Rattle.saa_word_threads.specs.Beginnings.{Beginning};

    ghost begun: { Self → Beginning };
}

/// A walk of a call under way: of its place contracts alone see more than what comes once it is done with the queue.
#[derive(Drop)]
pub(crate) struct Walk<'c, C> {
    pub(crate) course: &'c C,
    pub(crate) place: Position,
}

/// What a walk to the tail has found.
pub(crate) enum Front {
    /// All fit, and make the count so much; the tail's line word.
    All { count: u16, line: LineWord },
    /// Those before one who stays fit, and make the count so much; the newest of them, or 0.
    Before { count: u16, top: u16 },
}

impl<C: Course> Walk<'_, C> {
    // The place of the walk, at this stage.
    #[inline(always)]
    fn at(&self, stage: Stage) -> Snapshot<Position>
        ensures { result.value ≡ at_stage self.now.place stage }
    {
        Snapshot::of(&Position {
            stage,
            ..self.place
        })
    }
}

impl Form {
    // Settles the queue: grants those who fit until nobody more does, and shows them their answers. The flag is clear then.
    //
    // It begins at the tail, or at a waiter whose newer neighbour is known.
    pub(crate) fn settle<R: Wait, W: Watch, C: Course>(
        &self,
        rt: &R,
        watch: &W,
        seat: &mut Seat<(), View>,
        walk: &Walk<'_, C>,
        first: Word,
        from: u16,
        behind: u16,
    )
        requires { IsUnderway self.now (C.begun walk.now.course.now) (at_stage walk.now.place (BackLoad first from behind)) seat.old }
        ensures same { IsSameSeat seat.old seat.new }
        ensures underway { GoesOnUnderway self.now (C.begun walk.now.course.now) (finished walk.now.place walk.now.place.back) seat.new }
    {
        let mut seen = first;
        let (mut current, mut newer) = (from, behind);
        for _ in rt.forever() {
            let oldest = self.walk_back(rt, watch, seat, walk, seen, current, newer);
            let front = self.walk_forward(rt, watch, seat, walk, seen, oldest);
            let (top, now) = self.publish_front(rt, watch, seat, walk, seen, front);
            self.show(rt, watch, seat, walk, top, now);
            let Some(word) = now else {
                return;
            };
            seen = word;
            current = word.tail;
            newer = 0;
        }
        unreachable!()
    }

    // Links each waiter to the next newer one, up to the oldest: that is the answer.
    fn walk_back<R: Wait, W: Watch, C: Course>(
        &self,
        rt: &R,
        watch: &W,
        seat: &mut Seat<(), View>,
        walk: &Walk<'_, C>,
        seen: Word,
        from: u16,
        behind: u16,
    ) -> u16
        requires { IsUnderway self.now (C.begun walk.now.course.now) (at_stage walk.now.place (BackLoad seen from behind)) seat.old }
        ensures same { IsSameSeat seat.old seat.new }
        ensures underway { IsUnderway self.now (C.begun walk.now.course.now) (at_stage walk.now.place (Forward seen result seen.count)) seat.new }
    {
        let mut current = from;
        let mut newer = behind;
        for _ in rt.forever() {
            let older = self.link_back(watch, seat, walk, seen, current, newer);
            if older == 0 {
                return current;
            }
            newer = current;
            current = older;
        }
        unreachable!()
    }

    // Links a waiter to the next newer one. The next older one is the answer, or 0.
    #[inline(always)]
    fn link_back<W: Watch, C: Course>(
        &self,
        watch: &W,
        seat: &mut Seat<(), View>,
        walk: &Walk<'_, C>,
        seen: Word,
        current: u16,
        newer: u16,
    ) -> u16
        requires { IsUnderway self.now (C.begun walk.now.course.now) (at_stage walk.now.place (BackLoad seen current newer)) seat.old }
        ensures same { IsSameSeat seat.old seat.new }
        ensures underway { IsUnderway self.now (C.begun walk.now.course.now) (at_stage walk.now.place (if result == 0 then Forward seen current seen.count else BackLoad seen result current)) seat.new }
    {
        let index = usize::from(current);
        let loading = walk.at(Stage::BackLoad {
            seen,
            current,
            newer,
        });
        let line = LineWord::unpack(self.walk_load::<C, Brand>(seat, walk, loading, index));
        let storing = walk.at(Stage::BackStore {
            seen,
            current,
            newer,
            line,
        });
        let linked = LineWord { newer, ..line };
        self.walk_store::<W, C, Brand>(watch, seat, walk, storing, index, linked.pack());
        line.older
    }

    // Counts those who fit, from the oldest on, and cuts the first who stays off them.
    fn walk_forward<R: Wait, W: Watch, C: Course>(
        &self,
        rt: &R,
        watch: &W,
        seat: &mut Seat<(), View>,
        walk: &Walk<'_, C>,
        seen: Word,
        oldest: u16,
    ) -> Front
        requires { IsUnderway self.now (C.begun walk.now.course.now) (at_stage walk.now.place (Forward seen oldest seen.count)) seat.old }
        ensures same { IsSameSeat seat.old seat.new }
        ensures underway { IsUnderway self.now (C.begun walk.now.course.now) (at_stage walk.now.place (stage_behind seen result)) seat.new }
    {
        let mut current = oldest;
        let mut count = seen.count;
        for _ in rt.forever() {
            let looking = walk.at(Stage::Forward {
                seen,
                current,
                count,
            });
            let index = usize::from(current);
            let line = LineWord::unpack(self.walk_load::<C, Brand>(seat, walk, looking, index));
            if !self.rules.fits(count, line.request) {
                return self.cut_before(watch, seat, walk, seen, current, count, line);
            }
            count = self.rules.plus(count, line.request);
            if current == seen.tail {
                return Front::All { count, line };
            }
            current = line.newer;
        }
        unreachable!()
    }

    // Cuts a waiter who stays off those before, if there are any.
    fn cut_before<W: Watch, C: Course>(
        &self,
        watch: &W,
        seat: &mut Seat<(), View>,
        walk: &Walk<'_, C>,
        seen: Word,
        current: u16,
        count: u16,
        line: LineWord,
    ) -> Front
        requires { IsUnderway self.now (C.begun walk.now.course.now) (at_stage walk.now.place (staying seen current count line)) seat.old }
        ensures same { IsSameSeat seat.old seat.new }
        ensures underway { IsUnderway self.now (C.begun walk.now.course.now) (at_stage walk.now.place (stage_behind seen result)) seat.new }
    {
        let top = line.older;
        if top != 0 {
            let cutting = walk.at(Stage::CutToClose {
                seen,
                current,
                count,
                line,
            });
            let index = usize::from(current);
            let cut = LineWord { older: 0, ..line };
            self.walk_store::<W, C, Brand>(watch, seat, walk, cutting, index, cut.pack());
        }
        Front::Before { count, top }
    }

    // Publishes what a walk has granted: the newest of those who are granted, if any is, and the word to walk anew from, if that has to be.
    #[inline(always)]
    fn publish_front<R: Wait, W: Watch, C: Course>(
        &self,
        rt: &R,
        watch: &W,
        seat: &mut Seat<(), View>,
        walk: &Walk<'_, C>,
        seen: Word,
        front: Front,
    ) -> (Option<u16>, Option<Word>)
        requires { IsUnderway self.now (C.begun walk.now.course.now) (at_stage walk.now.place (stage_behind seen front)) seat.old }
        ensures same { IsSameSeat seat.old seat.new }
        ensures underway { GoesOnUnderway self.now (C.begun walk.now.course.now) (publishing walk.now.place result.0 result.1) seat.new }
    {
        match front {
            Front::All { count, line } => self.publish_all(watch, seat, walk, seen, count, line),
            Front::Before { count, top } => self.publish(rt, watch, seat, walk, seen, count, top),
        }
    }

    // Publishes what is granted, and clears the flag; tries again where only the tail differs, and retries where something was given back.
    fn publish<R: Wait, W: Watch, C: Course>(
        &self,
        rt: &R,
        watch: &W,
        seat: &mut Seat<(), View>,
        walk: &Walk<'_, C>,
        first: Word,
        count: u16,
        top: u16,
    ) -> (Option<u16>, Option<Word>)
        requires { IsUnderway self.now (C.begun walk.now.course.now) (at_stage walk.now.place (Close first count top)) seat.old }
        ensures same { IsSameSeat seat.old seat.new }
        ensures underway { GoesOnUnderway self.now (C.begun walk.now.course.now) (publishing walk.now.place result.0 result.1) seat.new }
    {
        let mut seen = first;
        for _ in rt.forever() {
            let closing = walk.at(Stage::Close { seen, count, top });
            let old = seen.pack();
            let new = settled(count, seen.tail).pack();
            watch.at(Moment::Publishes);
            let found = self.walk_exchange::<C, Brand>(seat, walk, closing, old, new);
            if found == old {
                return (newest(top), None);
            }
            let now = Word::unpack(found);
            if now.count != seen.count {
                return self.go_round(watch, seat, walk, seen, count, top);
            }
            seen = now;
        }
        unreachable!()
    }

    // Publishes that all are granted and nobody is in the queue, and clears the flag; or retries, with the tail kept, where another waiter has joined
    // behind it.
    fn publish_all<W: Watch, C: Course>(
        &self,
        watch: &W,
        seat: &mut Seat<(), View>,
        walk: &Walk<'_, C>,
        seen: Word,
        count: u16,
        line: LineWord,
    ) -> (Option<u16>, Option<Word>)
        requires { IsUnderway self.now (C.begun walk.now.course.now) (at_stage walk.now.place (Empty seen seen.tail count line)) seat.old }
        ensures same { IsSameSeat seat.old seat.new }
        ensures underway { GoesOnUnderway self.now (C.begun walk.now.course.now) (publishing walk.now.place result.0 result.1) seat.new }
    {
        let current = seen.tail;
        let emptying = walk.at(Stage::Empty {
            seen,
            current,
            count,
            line,
        });
        let old = seen.pack();
        let new = settled(count, 0).pack();
        watch.at(Moment::Publishes);
        if self.walk_exchange::<C, Brand>(seat, walk, emptying, old, new) == old {
            return (Some(current), None);
        }
        let count = count.saturating_sub(self.rules.takes(line.request));
        let top = line.older;
        if top != 0 {
            let cutting = walk.at(Stage::CutForRetry {
                seen,
                current,
                count,
                line,
            });
            let index = usize::from(current);
            let cut = LineWord { older: 0, ..line };
            self.walk_store::<W, C, Brand>(watch, seat, walk, cutting, index, cut.pack());
        }
        self.go_round(watch, seat, walk, seen, count, top)
    }

    // Adds what is granted to the count, and keeps the flag: it is shown, and then comes a walk from the word that is there now.
    fn go_round<W: Watch, C: Course>(
        &self,
        watch: &W,
        seat: &mut Seat<(), View>,
        walk: &Walk<'_, C>,
        seen: Word,
        count: u16,
        top: u16,
    ) -> (Option<u16>, Option<Word>)
        requires { IsUnderway self.now (C.begun walk.now.course.now) (at_stage walk.now.place (Retry seen count top)) seat.old }
        ensures same { IsSameSeat seat.old seat.new }
        ensures underway { GoesOnUnderway self.now (C.begun walk.now.course.now) (publishing walk.now.place result.0 result.1) seat.new }
    {
        let going = walk.at(Stage::Retry { seen, count, top });
        let added = u64::from(count.saturating_sub(seen.count));
        watch.at(Moment::Publishes);
        let found = self.walk_add::<C, Brand>(seat, walk, going, added);
        let now = Word::unpack(found.wrapping_add(added));
        (newest(top), Some(now))
    }

    // Shows their answers to those who are granted, if any is.
    #[inline(always)]
    fn show<R: Wait, W: Watch, C: Course>(
        &self,
        rt: &R,
        watch: &W,
        seat: &mut Seat<(), View>,
        walk: &Walk<'_, C>,
        top: Option<u16>,
        now: Option<Word>,
    )
        requires { GoesOnUnderway self.now (C.begun walk.now.course.now) (publishing walk.now.place top now) seat.old }
        ensures same { IsSameSeat seat.old seat.new }
        ensures underway { GoesOnUnderway self.now (C.begun walk.now.course.now) (shown_all walk.now.place (afterwards_of now)) seat.new }
    {
        if let Some(newest) = top {
            self.show_from(rt, watch, seat, walk, newest, now);
        }
    }

    // Shows their answers to a place that is granted and to those before it.
    fn show_from<R: Wait, W: Watch, C: Course>(
        &self,
        rt: &R,
        watch: &W,
        seat: &mut Seat<(), View>,
        walk: &Walk<'_, C>,
        top: u16,
        now: Option<Word>,
    )
        requires { IsUnderway self.now (C.begun walk.now.course.now) (at_stage walk.now.place (ShowLoad top granted_value (afterwards_of now))) seat.old }
        ensures same { IsSameSeat seat.old seat.new }
        ensures underway { GoesOnUnderway self.now (C.begun walk.now.course.now) (shown_all walk.now.place (afterwards_of now)) seat.new }
    {
        let mut current = top;
        for _ in rt.forever() {
            let next = self.show_one(watch, seat, walk, current, now);
            if next == 0 {
                return;
            }
            current = next;
        }
        unreachable!()
    }

    // Shows its answer to a place that is granted. The place right before it is the answer, or 0.
    #[inline(always)]
    fn show_one<W: Watch, C: Course>(
        &self,
        watch: &W,
        seat: &mut Seat<(), View>,
        walk: &Walk<'_, C>,
        current: u16,
        now: Option<Word>,
    ) -> u16
        requires { IsUnderway self.now (C.begun walk.now.course.now) (at_stage walk.now.place (ShowLoad current granted_value (afterwards_of now))) seat.old }
        ensures same { IsSameSeat seat.old seat.new }
        ensures underway { GoesOnUnderway self.now (C.begun walk.now.course.now) (if result == 0 then shown_all walk.now.place (afterwards_of now) else publishing walk.now.place (Some result) now) seat.new }
    {
        let value = GRANTED;
        let afterwards = behind(now);
        let loading = walk.at(Stage::ShowLoad {
            current,
            value,
            afterwards,
        });
        let found = self.walk_load::<C, Brand>(seat, walk, loading, usize::from(current));
        let next = LineWord::unpack(found).older;
        let storing = walk.at(Stage::ShowStore {
            current,
            next,
            value,
            afterwards,
        });
        let index = usize::from(self.places) + usize::from(current);
        let number = u64::from(answer_word::pack(Some(value)));
        self.walk_store::<W, C, Brand>(watch, seat, walk, storing, index, number);
        next
    }

    // Loads a word, at this stage of a walk.
    #[inline(always)]
    fn walk_load<C: Course, M: Mover>(
        &self,
        seat: &mut Seat<(), View>,
        walk: &Walk<'_, C>,
        at: Snapshot<Position>,
        index: usize,
    ) -> u64
        requires mover { (M.about ≡ about_of self.now) × (M.place ≡ at.value) × (M.me ≡ seat.old.me.0.number) }
        requires visits { IsVisiting at.value.stage }
        requires underway { IsUnderway self.now (C.begun walk.now.course.now) at.value seat.old }
        requires loads { operation_of (needs self.now) self.now.places 0 at.value.stage ≡ Load index }
        ensures same { IsSameSeat seat.old seat.new }
        ensures underway { GoesOnUnderway self.now (C.begun walk.now.course.now) (next_of (needs self.now) 0 at.value at.value.stage result) seat.new }
    {
        self.load::<M>(seat, index)
    }

    // Writes a word, at this stage of a walk, and wakes the place that waits for it, if any does.
    #[inline(always)]
    fn walk_store<W: Watch, C: Course, M: Mover>(
        &self,
        watch: &W,
        seat: &mut Seat<(), View>,
        walk: &Walk<'_, C>,
        at: Snapshot<Position>,
        index: usize,
        number: u64,
    )
        requires mover { (M.about ≡ about_of self.now) × (M.place ≡ at.value) × (M.me ≡ seat.old.me.0.number) }
        requires visits { IsVisiting at.value.stage }
        requires underway { IsUnderway self.now (C.begun walk.now.course.now) at.value seat.old }
        requires stores { operation_of (needs self.now) self.now.places 0 at.value.stage ≡ Store index number }
        ensures same { IsSameSeat seat.old seat.new }
        ensures underway { (found : ℕ) × GoesOnUnderway self.now (C.begun walk.now.course.now) (next_of (needs self.now) 0 at.value at.value.stage found) seat.new }
    {
        self.store::<M, W>(watch, seat, index, number);
    }

    // Exchanges the main word, at this stage of a walk.
    #[inline(always)]
    fn walk_exchange<C: Course, M: Mover>(
        &self,
        seat: &mut Seat<(), View>,
        walk: &Walk<'_, C>,
        at: Snapshot<Position>,
        old: u64,
        new: u64,
    ) -> u64
        requires mover { (M.about ≡ about_of self.now) × (M.place ≡ at.value) × (M.me ≡ seat.old.me.0.number) }
        requires visits { IsVisiting at.value.stage }
        requires underway { IsUnderway self.now (C.begun walk.now.course.now) at.value seat.old }
        requires exchanges { operation_of (needs self.now) self.now.places 0 at.value.stage ≡ Exchange 0 old new }
        ensures same { IsSameSeat seat.old seat.new }
        ensures underway { GoesOnUnderway self.now (C.begun walk.now.course.now) (next_of (needs self.now) 0 at.value at.value.stage result) seat.new }
    {
        self.exchange::<M>(seat, 0, old, new)
    }

    // Adds to the main word, at this stage of a walk.
    #[inline(always)]
    fn walk_add<C: Course, M: Mover>(
        &self,
        seat: &mut Seat<(), View>,
        walk: &Walk<'_, C>,
        at: Snapshot<Position>,
        number: u64,
    ) -> u64
        requires mover { (M.about ≡ about_of self.now) × (M.place ≡ at.value) × (M.me ≡ seat.old.me.0.number) }
        requires visits { IsVisiting at.value.stage }
        requires underway { IsUnderway self.now (C.begun walk.now.course.now) at.value seat.old }
        requires adds { operation_of (needs self.now) self.now.places 0 at.value.stage ≡ Add 0 number }
        ensures same { IsSameSeat seat.old seat.new }
        ensures underway { GoesOnUnderway self.now (C.begun walk.now.course.now) (next_of (needs self.now) 0 at.value at.value.stage result) seat.new }
    {
        self.add::<M>(seat, 0, number)
    }
}

// The newest of those who are granted, if any is.
#[inline(always)]
fn newest(top: u16) -> Option<u16>
    ensures { result ≡ top_of top }
{
    if top == 0 { None } else { Some(top) }
}

// What comes behind the answers that are shown.
#[inline(always)]
fn behind(now: Option<Word>) -> AfterShow
    ensures { result ≡ afterwards_of now }
{
    match now {
        None => AfterShow::Ends,
        Some(word) => AfterShow::Again(word),
    }
}

// The main word of a queue that is settled.
#[inline(always)]
fn settled(count: u16, tail: u16) -> Word
    ensures { result ≡ settled_word count tail }
{
    Word {
        count,
        is_flagged: false,
        is_poisoned: false,
        tail,
    }
}
