//! Tasks that take turns at a primitive: each asks, keeps what it was granted until it is polled again, gives it back, and asks anew.

ghost use Rattle.std.specs.Prelude.{◌≡◌};

use crate::asks::Asks;
use crate::machine::Machine;
use crate::pass::{Label, Pass, figure_since, print_cell};
use crate::sides::Side;
use futures::executor::{TaskSet, block_on};
use futures::task::{Context, Doorbell, Poll};
use futures::{Future, ready};
use std::alloc::AllocGlobal;
use std::io;
use std::random::RandomSource;
use std::sync::Wait;
use std::time::Instant;

// How many tasks there are in one thread, and about how long a turn of one takes.
const TASKS: u64 = 16;

const NANOS: u64 = 500;

/// A task that takes so many turns.
#[derive(Drop)]
pub struct TurnsOf<P: Asks> {
    asks: P,
    left: u64,
    asked: P::Asked,
    granted: Option<P::Granted>,
}

impl<P: Asks> TurnsOf<P> {
    /// A task that takes so many turns.
    pub fn new(asks: P, turns: u64) -> Self
        ensures { P.Asked.can_poll result.asked }
    {
        let asked = asks.ask();
        TurnsOf {
            asks,
            left: turns,
            asked,
            granted: None,
        }
    }
}

impl<P: Asks> Future for TurnsOf<P> {
    type Output = ();

    ghost can_poll = { λ turns. P.Asked.can_poll turns.asked };

    ghost needs = { λ turns. P.Asked.needs turns.asked };

    fn poll(&mut self, cx: &mut Context<'_>) -> Poll<()> {
        self.granted = None;
        if self.left == 0 {
            return Poll::Ready(());
        }
        let granted = ready!(self.asked.poll(cx));
        self.left = self.left.saturating_sub(1);
        self.granted = Some(granted);
        self.asked = self.asks.ask();
        cx.yield_now()
    }
}

/// Runs tasks in this thread that take turns together, and prints how long a turn takes.
pub fn print_tasks<R: Machine, P: Asks + Copy>(
    rt: &R,
    pass: Pass,
    label: Label<'_>,
    column: &str,
    asks: P,
) -> io::Result<()> {
    let share = pass.turns_of(TASKS * NANOS);
    let tasks = TaskSet::new(rt, Doorbell::spinning(), 1)?;
    spawn_all(&tasks, asks, share)?;
    let start = Instant::now(rt)?;
    tasks.work(rt, 0);
    let turns = share.saturating_mul(TASKS);
    print_cell(rt, pass, label, column, figure_since(rt, start, turns))
}

// Spawns all tasks, of so many turns each.
fn spawn_all<P: Asks + Copy>(tasks: &TaskSet<TurnsOf<P>>, asks: P, share: u64) -> io::Result<()> {
    for _task in 0..TASKS {
        tasks.spawn(TurnsOf::new(asks, share))?;
    }
    Ok(())
}

/// Has a task of this thread take so many turns.
pub fn take_turns<R: Wait + RandomSource + AllocGlobal, P: Asks + Copy>(
    rt: &R,
    asks: P,
    turns: u64,
) {
    let _refused = block_on(rt, TurnsOf::new(asks, turns));
}

/// A side with one task, whose turns it takes.
#[derive(Drop)]
pub struct TaskOf<P>(pub P);

impl<P: Asks + Copy> Side for TaskOf<P> {
    fn play<R: Machine>(self, rt: &R, rounds: u64) {
        take_turns(rt, self.0, rounds);
    }
}
