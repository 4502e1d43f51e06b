//! The threaded gate and barrier, as what tasks and threads do at them.

use futures::Future;
use futures::task::{Context, Poll};
use measure_turns::polls::Polls;
use measure_turns::turns::Turn;
use saa_sync::{Barrier, Gate};
use std::sync::Wait;

/// A gate, at which a task waits until it is let pass.
#[derive(Drop)]
pub struct Passages<'g, S: Wait + Drop>(pub &'g Gate<S>);

impl<S: Wait + Drop> Polls for Passages<'_, S> {
    fn poll_turn(&self, cx: &mut Context<'_>) {
        let mut wait = self.0.enter_async();
        if let Poll::Pending = wait.poll(cx) {
            let _passed = self.0.permit();
            let _told = wait.poll(cx);
        }
    }
}

/// A barrier of two: tasks of which the second tells the first, and threads that wait for one another.
#[derive(Drop)]
pub struct Arrivals<'b, S: Wait + Drop>(pub &'b Barrier<S>);

impl<S: Wait + Drop> Polls for Arrivals<'_, S> {
    fn poll_turn(&self, cx: &mut Context<'_>) {
        let mut wait = self.0.wait_async();
        if let Poll::Pending = wait.poll(cx) {
            let mut last = self.0.wait_async();
            let _led = last.poll(cx);
            let _told = wait.poll(cx);
        }
    }
}

impl<S: Wait + Drop> Turn for Arrivals<'_, S> {
    fn take_turn<R: Wait>(&self, _rt: &R) {
        let _is_leader = self.0.wait_sync();
    }
}

/// A barrier of two, at which a thread waits for one other that has arrived and gone on.
#[derive(Drop)]
pub struct AfterArrival<'b, S: Wait + Drop>(pub &'b Barrier<S>);

impl<S: Wait + Drop> Turn for AfterArrival<'_, S> {
    fn take_turn<R: Wait>(&self, _rt: &R) {
        let _completes = self.0.arrive();
        let _is_leader = self.0.wait_sync();
    }
}
