//! How a place waits for another one: it spins, yields, and then parks on its own answer word.

ghost use Rattle.std.specs.Prelude.{◌<◌, ◌+◌};

use crate::form::Form;
use crate::limit::{Endless, Limit};
use crate::watch::{Moment, Pause, Watch};
use saa_word_steps::place::Stage;
use std::sync::Wait;

// How often a place looks at its answer word before it begins to yield, and how often it yields before it parks. To wake a thread takes as long as many turns:
// if a waiter yielded for less than a few wakes take, all waiters would park for each turn once one of them had.
pub(crate) const LOOKS: u32 = 50;

const YIELDS: u32 = 2_000;

impl Form {
    // Waits a while at this stage: for the own answer, and else for the flag's holder, which has no word to park on.
    pub(crate) fn wait<R: Wait, W: Watch>(&self, rt: &R, watch: &W, me: u16, stage: Stage)
        requires { me < self.now.places }
    {
        if let Stage::Take { .. } = stage {
            self.await_answer(rt, watch, me, &Endless);
        } else {
            Pause::Defers.make(watch);
        }
    }

    // Waits until the answer word of a place has changed, or the time is up.
    pub(crate) fn await_until<R: Wait, W: Watch, L: Limit>(
        &self,
        rt: &R,
        watch: &W,
        me: u16,
        limit: &L,
    )
        requires { me < self.now.places }
    {
        for _ in rt.forever() {
            if self.is_answered(me) || limit.left().is_none() {
                return;
            }
            self.await_answer(rt, watch, me, limit);
        }
    }

    // Waits until the answer word of a place may have changed, or the time is up.
    pub(crate) fn await_answer<R: Wait, W: Watch, L: Limit>(
        &self,
        rt: &R,
        watch: &W,
        me: u16,
        limit: &L,
    )
        requires { me < self.now.places }
    {
        let cell = self.cell(usize::from(self.places) + usize::from(me) + 1);
        if !self.spins_until_changed(watch, cell) {
            self.await_changed(rt, watch, me, limit);
        }
    }

    // The same of a place that has spun: it yields, and then parks.
    pub(crate) fn await_changed<R: Wait, W: Watch, L: Limit>(
        &self,
        rt: &R,
        watch: &W,
        me: u16,
        limit: &L,
    )
        requires { me < self.now.places }
    {
        let cell = self.cell(usize::from(self.places) + usize::from(me) + 1);
        if self.yields_until_changed(watch, cell, limit) {
            return;
        }
        let Some(left) = limit.left() else {
            return;
        };
        // Why this order: the place that shows the answer looks at this mark once the answer is written, and parking looks at the word once the mark
        // is set. The other way round no wake would follow an answer between the two.
        let place = usize::from(me);
        self.marks.set_parked(place);
        watch.at(Moment::Parks);
        self.table.shared.park_timeout(rt, cell, 0, left);
        watch.at(Moment::IsBack);
        self.marks.clear_parked(place);
    }

    // Spins until an answer word has changed, or so often that it is time to yield; whether it has changed.
    #[inline(always)]
    fn spins_until_changed<W: Watch>(&self, watch: &W, cell: usize) -> bool
        requires { cell < self.now.table.shared.table_id.words }
    {
        for _turn in 0..LOOKS {
            watch.at(Moment::LooksForAnswer);
            if self.table.shared.peek(cell) != 0 {
                return true;
            }
            Pause::SpinsForAnswer.make(watch);
        }
        false
    }

    // Yields until an answer word has changed, or so often that it is time to park, or the time is up; whether it has changed.
    #[inline(always)]
    fn yields_until_changed<W: Watch, L: Limit>(&self, watch: &W, cell: usize, limit: &L) -> bool
        requires { cell < self.now.table.shared.table_id.words }
    {
        for _turn in 0..YIELDS {
            if self.table.shared.peek(cell) != 0 {
                return true;
            }
            if limit.left().is_none() {
                return false;
            }
            Pause::YieldsForAnswer.make(watch);
        }
        false
    }
}
