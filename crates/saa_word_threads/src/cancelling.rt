//! The straight path of a cancel that looks for itself: it holds the flag, and goes from the tail on to its own line word.
//!
//! These are the very steps of `act`, of the same stages, but contracts alone see the stages: what the look remembers stays in a few numbers, and no
//! position is built or copied until the place has found itself, or hasn't.

ghost use Rattle.std.specs.Prelude.{◌≡◌, ◌+◌, ◌==◌, if◌then◌else◌, false};
ghost use Rattle.saa_word_steps.specs.declared.place.Stage.TheVariants.{Forward, LookLoad};
ghost use Rattle.saa_word_threads.specs.Pending.{GoesOn, IsPending, IsSameSeat};
ghost use Rattle.saa_word_threads.specs.Walks.{at_stage};

use crate::call::Pending;
use crate::form::Form;
use crate::table::View;
use crate::watch::Watch;
use atomic_table::Seat;
use saa_core_words::line_word::LineWord;
use saa_core_words::word::Word;
use saa_word_steps::place::{Next, Place as Position, Stage};
use std::marker::Brand;
use std::snapshot::Snapshot;
use std::sync::Wait;

impl Form {
    // Looks for its own place, from this waiter on, whose newer neighbour is `behind`; `written` is that one's line word. How the place goes on then.
    pub(crate) fn look_back<R: Wait, W: Watch>(
        &self,
        rt: &R,
        watch: &W,
        seat: &mut Seat<(), View>,
        place: Position,
        pending: &Pending,
        seen: Word,
        from: u16,
        behind: u16,
        written: LineWord,
    ) -> Next
        requires { IsPending self.now pending.now (at_stage place (LookLoad seen from behind written)) seat.old }
        ensures same { IsSameSeat seat.old seat.new }
        ensures next { GoesOn self.now pending.now place result seat.new }
    {
        let (mut current, mut newer, mut previous) = (from, behind, written);
        for _ in rt.forever() {
            if u32::from(current) == u32::from(pending.me) + 1 {
                return self.look_at_own(seat, place, pending, seen, newer, previous);
            }
            let line = self.look_past(watch, seat, place, pending, seen, current, newer, previous);
            if line.older == 0 {
                let count = seen.count;
                let stage = Stage::Forward {
                    seen,
                    current,
                    count,
                };
                return Next::Going(Position { stage, ..place });
            }
            previous = LineWord { newer, ..line };
            newer = current;
            current = line.older;
        }
        unreachable!()
    }

    // Links a waiter who isn't this place to the next newer one. The line word that was found there.
    #[inline(always)]
    fn look_past<W: Watch>(
        &self,
        watch: &W,
        seat: &mut Seat<(), View>,
        place: Position,
        pending: &Pending,
        seen: Word,
        current: u16,
        newer: u16,
        previous: LineWord,
    ) -> LineWord
        requires pending { IsPending self.now pending.now (at_stage place (LookLoad seen current newer previous)) seat.old }
        requires other { (current == pending.now.me + 1) ≡ false }
        ensures same { IsSameSeat seat.old seat.new }
        ensures next { IsPending self.now pending.now (at_stage place (if result.older == 0 then Forward seen current seen.count else LookLoad seen result.older current (record result { newer = newer }))) seat.new }
    {
        let index = usize::from(current);
        let looking = Snapshot::of(&Position {
            stage: Stage::LookLoad {
                seen,
                current,
                newer,
                previous,
            },
            ..place
        });
        let line = LineWord::unpack(self.pending_load::<Brand>(seat, looking, pending, index));
        let linking = Snapshot::of(&Position {
            stage: Stage::LookStore {
                seen,
                current,
                newer,
                line,
            },
            ..place
        });
        let linked = LineWord { newer, ..line };
        self.pending_store::<Brand, W>(watch, seat, linking, pending, index, linked.pack());
        line
    }

    // Looks at its own line word. It leaves the line next: as the tail, or from behind a newer neighbour.
    fn look_at_own(
        &self,
        seat: &mut Seat<(), View>,
        place: Position,
        pending: &Pending,
        seen: Word,
        newer: u16,
        previous: LineWord,
    ) -> Next
        requires { IsPending self.now pending.now (at_stage place (LookLoad seen (pending.now.me + 1) newer previous)) seat.old }
        ensures same { IsSameSeat seat.old seat.new }
        ensures next { GoesOn self.now pending.now place result seat.new }
    {
        let current = pending.me + 1;
        let index = usize::from(current);
        let looking = Snapshot::of(&Position {
            stage: Stage::LookLoad {
                seen,
                current,
                newer,
                previous,
            },
            ..place
        });
        let line = LineWord::unpack(self.pending_load::<Brand>(seat, looking, pending, index));
        let older = line.older;
        let stage = if newer == 0 {
            Stage::DropTail { seen, older }
        } else {
            Stage::Unlink {
                seen,
                newer,
                line: previous,
                older,
            }
        };
        Next::Going(Position { stage, ..place })
    }
}
