//! Futures polled by hand in one task: turns, and waits that are told.

use crate::asks::Asks;
use crate::machine::Machine;
use crate::meeting::is_time;
use crate::pass::{Figure, Label, Pass, figure_since, print_cell};
use futures::Future;
use futures::task::{Context, Poll};
use futures::test::MockTask;
use std::io;
use std::time::Instant;
use tokio::sync::{Barrier, Notify};

/// What a task does that is polled by hand, without an executor.
pub trait Polls {
    /// Makes futures, and polls them until they are ready.
    fn poll_turn(&self, cx: &mut Context<'_>);
}

/// Prints how long a turn takes of one task that is polled by hand.
pub fn print_polled<R: Machine, P: Polls>(
    rt: &R,
    pass: Pass,
    label: Label<'_>,
    column: &str,
    polls: &P,
) -> io::Result<()> {
    let task = MockTask::new(rt)?;
    let figure = task.enter(|cx| poll_for(rt, pass, polls, cx));
    print_cell(rt, pass, label, column, figure)
}

// Takes turns for as long as the pass says.
fn poll_for<R: Machine, P: Polls>(
    rt: &R,
    pass: Pass,
    polls: &P,
    cx: &mut Context<'_>,
) -> Option<Figure> {
    let start = Instant::now(rt).ok()?;
    let turns = poll_until(rt, pass, start, polls, cx);
    figure_since(rt, start, turns)
}

// Takes turns until it is time; how many.
fn poll_until<R: Machine, P: Polls>(
    rt: &R,
    pass: Pass,
    start: Instant,
    polls: &P,
    cx: &mut Context<'_>,
) -> u64 {
    let mut turns = 0u64;
    for _turn in rt.forever() {
        if is_time(rt, pass, start, turns) {
            break;
        }
        polls.poll_turn(cx);
        turns = turns.saturating_add(1);
    }
    turns
}

/// A turn that is granted at the first poll.
#[derive(Drop)]
pub struct One<P>(pub P);

impl<P: Asks> Polls for One<P> {
    fn poll_turn(&self, cx: &mut Context<'_>) {
        let mut asked = self.0.ask();
        let _granted = asked.poll(cx);
    }
}

/// Two turns that overlap: the second is pending, and granted once the first is over.
#[derive(Drop)]
pub struct Two<P>(pub P);

impl<P: Asks> Polls for Two<P> {
    fn poll_turn(&self, cx: &mut Context<'_>) {
        let mut first = self.0.ask();
        let granted = first.poll(cx);
        let mut second = self.0.ask();
        let polled = second.poll(cx);
        drop(granted);
        if let Poll::Pending = polled {
            let _told = second.poll(cx);
        }
    }
}

// A task waits, and is told.
impl Polls for Notify {
    fn poll_turn(&self, cx: &mut Context<'_>) {
        let mut wait = self.notified();
        if let Poll::Pending = wait.poll(cx) {
            self.notify_one();
            let _told = wait.poll(cx);
        }
    }
}

// The second arrival tells the first.
impl Polls for Barrier {
    fn poll_turn(&self, cx: &mut Context<'_>) {
        let mut wait = self.wait();
        if let Poll::Pending = wait.poll(cx) {
            let mut last = self.wait();
            let _led = last.poll(cx);
            let _told = wait.poll(cx);
        }
    }
}
