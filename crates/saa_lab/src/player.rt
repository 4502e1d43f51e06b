//! A schedule as it is played: lines that start a call or make one step, with what each replies and the state after it.

ghost use Rattle.std.specs.Prelude.{◌<◌};

use crate::machine_words::{call_text, step_text};
use crate::trouble::Trouble;
use saa_lab_explore::plan::Plan;
use saa_lab_explore::state::{PLACES, State};
use saa_word::kind::{Kind, kind_at};
use saa_word::moves::Step;
use saa_word_steps::call::WordCall;
use saa_word_steps::rules::Rules;
use std::alloc::Global;

/// How many steps a line makes at most.
const MOST_STEPS: u16 = 1000;

/// A line of a schedule and what came of it.
#[derive(Drop)]
pub struct Played {
    /// The line, as `saa-run machine` reads it.
    pub line: String,
    /// What it replies.
    pub reply: String,
    /// Which place it is of.
    pub place: u16,
    /// What it did.
    pub step: Step,
    /// The kind of the step that it made; `None` where it started a call.
    pub kind: Option<Kind>,
    /// The state after it.
    pub state: State,
}

/// A form in words on which lines are played.
#[derive(Drop)]
pub struct Player {
    /// By what rules the form grants.
    pub rules: Rules,
    /// The state now.
    pub state: State,
    /// The lines that were played.
    pub played: Vec<Played>,
    /// The call that each place started last.
    pub last: [Option<WordCall>; 4],
}

impl Player {
    /// A form on which nothing was played.
    pub fn new(alloc: Global, rules: Rules, state: State) -> Player {
        Player {
            rules,
            state,
            played: Vec::new(alloc),
            last: [None, None, None, None],
        }
    }

    /// The call that a place is in the middle of.
    pub fn unfinished(&self, place: u16) -> Option<WordCall>
        requires { place < 4 }
    {
        if self.state.is_quiet(place) {
            return None;
        }
        self.last[usize::from(place)]
    }

    /// Starts a call at a place.
    pub fn start(&mut self, alloc: Global, place: u16, call: WordCall) -> Result<(), Trouble>
        requires { place < 4 }
    {
        let step = self.state.start(self.rules, place, call);
        if step != Step::Busy {
            self.last[usize::from(place)] = Some(call);
        }
        let called = call_text(alloc, call)?;
        let line = format!(in alloc; "start {place} {called}")?;
        self.note(alloc, line, place, None, step)
    }

    /// Makes one step at a place.
    pub fn go(&mut self, alloc: Global, place: u16) -> Result<(), Trouble>
        requires { place < 4 }
    {
        let kind = kind_at(self.state.places[usize::from(place)].stage);
        let step = self.state.go(self.rules, place).unwrap_or(Step::Idle);
        let line = format!(in alloc; "go {place}")?;
        self.note(alloc, line, place, kind, step)
    }

    /// Makes steps at a place until one is no `going`, or the next is of a kind; at most 1000.
    pub fn until(&mut self, alloc: Global, place: u16, kind: Option<Kind>) -> Result<(), Trouble>
        requires { place < 4 }
    {
        for _step in 0..MOST_STEPS {
            let next = kind_at(self.state.places[usize::from(place)].stage);
            if next.is_some() && next == kind {
                break;
            }
            let step = self.state.go(self.rules, place).unwrap_or(Step::Idle);
            let line = format!(in alloc; "go {place}")?;
            self.note(alloc, line, place, next, step)?;
            if step != Step::Going {
                break;
            }
        }
        Ok(())
    }

    fn note(
        &mut self,
        alloc: Global,
        line: String,
        place: u16,
        kind: Option<Kind>,
        step: Step,
    ) -> Result<(), Trouble> {
        let reply = step_text(alloc, self.rules.is_lock(), step)?;
        self.played.push(Played {
            line,
            reply,
            place,
            step,
            kind,
            state: self.state,
        })?;
        Ok(())
    }

    /// Starts the first calls of each place.
    fn start_first(&mut self, alloc: Global, plan: &Plan) -> Result<(), Trouble> {
        for me in 0..PLACES {
            // (a call that was left unfinished is the first of its place)
            if !self.state.is_quiet(me) {
                self.state.made[usize::from(me)] = 1;
            }
            self.start_next(alloc, plan, me)?;
        }
        Ok(())
    }

    /// Starts the next calls of a place that is in none, until one needs a word.
    fn start_next(&mut self, alloc: Global, plan: &Plan, me: u16) -> Result<(), Trouble>
        requires { me < 4 }
    {
        if !self.state.is_quiet(me) {
            return Ok(());
        }
        for _call in 0..=u8::MAX {
            let made = self.state.made[usize::from(me)];
            let Some(call) = plan.call(me, made) else {
                break;
            };
            self.start(alloc, me, call)?;
            self.state.made[usize::from(me)] = made.saturating_add(1);
            if !self.state.is_quiet(me) {
                break;
            }
        }
        Ok(())
    }
}

/// A schedule that is played from a state on: the first calls of a plan, and then the steps of these places.
pub fn replay(alloc: Global, plan: &Plan, schedule: &[u16]) -> Result<Vec<Played>, Trouble> {
    let mut player = Player::new(alloc, plan.rules, plan.begins);
    player.start_first(alloc, plan)?;
    for place in schedule.iter() {
        if *place < PLACES {
            player.go(alloc, *place)?;
            player.start_next(alloc, plan, *place)?;
        }
    }
    Ok(player.played)
}
