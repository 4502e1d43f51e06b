//! Two threads that need one another, for a number of rounds: they wake one another in turn, meet at a barrier, or each run a task.
//!
//! Where no second thread can be made, one that needs it waits for ever.

use crate::machine::Machine;
use crate::pass::{Label, Pass, Rounds, figure_since, print_cell};
use crate::turns::Turn;
use crossbeam_utils::sync::{Parker as CrossbeamParker, Unparker};
use std::io;
use std::sync::Wait;
use std::thread::{Parker, join};
use std::time::Instant;

/// What one of two threads does.
pub trait Side: Drop {
    /// Plays so many rounds.
    fn play<R: Machine>(self, rt: &R, rounds: u64);
}

/// Prints how long a turn takes where two threads play so many rounds, of so many turns each.
pub fn print_sides<R: Machine, A: Side + Send, B: Side>(
    rt: &R,
    pass: Pass,
    label: Label<'_>,
    column: &str,
    rounds: Rounds,
    sides: (A, B),
) -> io::Result<()> {
    let start = Instant::now(rt)?;
    play_both(rt, rounds.count, sides);
    let turns = rounds.count.saturating_mul(rounds.turns);
    print_cell(rt, pass, label, column, figure_since(rt, start, turns))
}

// Plays both sides, each in a thread of its own.
fn play_both<R: Machine, A: Side + Send, B: Side>(rt: &R, rounds: u64, sides: (A, B)) {
    let (first, second) = sides;
    let _both = join(
        rt,
        move || first.play(rt, rounds),
        move || second.play(rt, rounds),
    );
}

/// A side that takes turns at one thing.
#[derive(Drop)]
pub struct TurnsAt<'t, T>(pub &'t T);

impl<T: Turn> Side for TurnsAt<'_, T> {
    fn play<R: Machine>(self, rt: &R, rounds: u64) {
        for _round in 0..rounds {
            self.0.take_turn(rt);
        }
    }
}

/// A signal that a thread waits for, and takes.
pub trait Waits: Drop {
    /// Waits for the signal, and takes it.
    fn wait<R: Wait>(&self, rt: &R);
}

/// A signal that a thread gives to another.
pub trait Wakes: Drop {
    /// Gives the signal, which is kept until it is taken.
    fn wake(&self);
}

/// A side that waits for its own signal, and gives the other's.
#[derive(Drop)]
pub struct HandOff<W, K> {
    /// Its own signal.
    pub waits: W,
    /// The other's.
    pub wakes: K,
    /// Whether it gives the first signal of all.
    pub begins: bool,
}

impl<W: Waits, K: Wakes> Side for HandOff<W, K> {
    fn play<R: Machine>(self, rt: &R, rounds: u64) {
        if self.begins {
            self.wakes.wake();
        }
        for _round in 0..rounds {
            self.waits.wait(rt);
            self.wakes.wake();
        }
    }
}

/// Two sides that wake one another in turn: each waits for the first of its pair, and gives the second.
pub fn hand_offs<W: Waits, K: Wakes>(one: (W, K), other: (W, K)) -> (HandOff<W, K>, HandOff<W, K>) {
    let ((waits, wakes), (others_waits, others_wakes)) = (one, other);
    let first = HandOff {
        waits,
        wakes,
        begins: true,
    };
    let second = HandOff {
        waits: others_waits,
        wakes: others_wakes,
        begins: false,
    };
    (first, second)
}

impl Waits for &Parker {
    fn wait<R: Wait>(&self, rt: &R) {
        self.park(rt);
    }
}

impl Wakes for &Parker {
    fn wake(&self) {
        self.unpark();
    }
}

impl Waits for CrossbeamParker {
    fn wait<R: Wait>(&self, rt: &R) {
        self.park(rt);
    }
}

impl Wakes for Unparker {
    fn wake(&self) {
        self.unpark();
    }
}
