//! How far a story is: its threads make their calls in turn, and one may hold what it took until the story lets it go.

use std::alloc::{AllocError, Global};
use std::hint::spin_loop;
use std::sync::Wait;
use std::sync::atomic::{AtomicBool, AtomicUsize, Ordering};
use std::thread::yield_now;

/// How many threads there are beside the story's own.
pub(crate) const THREADS: usize = 3;

/// How far a story is.
#[derive(Drop)]
pub(crate) struct Stage {
    // How many moves may have begun, and for each thread how many of them have ended or are another's.
    begun: AtomicUsize,
    ended: Vec<AtomicUsize>,
    is_held: AtomicBool,
    has_failed: AtomicBool,
}

impl Stage {
    pub(crate) fn new(alloc: Global) -> Result<Self, AllocError> {
        let mut ended = Vec::new(alloc);
        for _thread in 0..THREADS {
            ended.push(AtomicUsize::new(0))?;
        }
        Ok(Stage {
            begun: AtomicUsize::new(0),
            ended,
            is_held: AtomicBool::new(false),
            has_failed: AtomicBool::new(false),
        })
    }

    /// Lets a move begin.
    pub(crate) fn begin(&self, at: usize) {
        self.begun.store(at.saturating_add(1), Ordering::SeqCst);
    }

    /// Waits until a move may begin; whether it may.
    pub(crate) fn awaits_turn(&self, rt: &impl Wait, at: usize) -> bool {
        for _ in rt.forever() {
            if self.has_failed() || self.begun.load(Ordering::SeqCst) > at {
                break;
            }
            yield_now();
        }
        !self.has_failed()
    }

    /// A thread is done with its moves up to this one.
    pub(crate) fn end(&self, thread: usize, at: usize) {
        if let Some(ended) = self.ended.get(thread) {
            ended.store(at.saturating_add(1), Ordering::SeqCst);
        }
    }

    /// Waits until a thread is done with its moves up to this one.
    pub(crate) fn awaits_end(&self, rt: &impl Wait, thread: usize, at: usize) {
        let Some(ended) = self.ended.get(thread) else {
            return;
        };
        for _ in rt.forever() {
            if self.has_failed() || ended.load(Ordering::SeqCst) > at {
                return;
            }
            yield_now();
        }
    }

    /// Waits until a call holds what it took, or holds it no more.
    pub(crate) fn awaits_held(&self, rt: &impl Wait, is_held: bool) {
        for _ in rt.forever() {
            if self.is_held.load(Ordering::SeqCst) == is_held || self.has_failed() {
                return;
            }
            yield_now();
        }
    }

    /// A call holds what it took from now on, or is to give it back.
    pub(crate) fn set_held(&self, is_held: bool) {
        self.is_held.store(is_held, Ordering::SeqCst);
    }

    /// Whether a move was answered otherwise than it must be.
    pub(crate) fn has_failed(&self) -> bool {
        self.has_failed.load(Ordering::SeqCst)
    }

    /// Nothing more is waited for.
    pub(crate) fn fail(&self) {
        self.has_failed.store(true, Ordering::SeqCst);
    }
}

/// What a call does between what it was granted and its end.
#[derive(Clone, Copy)]
pub(crate) enum Keep<'k> {
    Nothing,
    Spins(usize),
    /// It holds what it took until the story lets it go.
    Holds(&'k Stage),
}

impl<'k> Keep<'k> {
    pub(crate) fn pass(self, rt: &impl Wait) {
        match self {
            Keep::Nothing => {}
            Keep::Spins(hints) => spin(hints),
            Keep::Holds(stage) => {
                stage.set_held(true);
                stage.awaits_held(rt, false);
            }
        }
    }
}

/// Gives so many spin hints.
pub(crate) fn spin(hints: usize) {
    for _hint in 0..hints {
        spin_loop();
    }
}
