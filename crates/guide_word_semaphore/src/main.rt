//! Two threads that take permits of one atomic word, each at a place of its own.
#![tactic(auto)]

ghost use Rattle.saa_word_forms.specs.WordSemaphores.{IsDealtBy};

use saa_word_forms::{Place, Semaphore};
use std::sync::Wait;
use std::{io, thread};

fn main(rt: HostRuntime) -> io::Result<()> {
    // 63 permits, none of them withheld, and a place for each thread and for this one.
    let (permits, mut places) = Semaphore::new(rt.alloc(), 0, 3)?;
    let Some(own) = places.pop() else {
        unreachable!()
    };
    let Some(second) = places.pop() else {
        unreachable!()
    };
    let Some(first) = places.pop() else {
        unreachable!()
    };
    let (one, other) = {
        let first = Worker {
            permits: &permits,
            place: first,
        };
        let second = Worker {
            permits: &permits,
            place: second,
        };
        thread::join(&rt, || first.work(&rt), || second.work(&rt))
    };
    // Nobody shares the semaphore any more: its main word says how many permits are out.
    let left = permits.leave(&rt, own);
    let out = permits.close(left).main();
    println!(rt;
        "{} turns were taken, and {out} permits are out",
        one.saturating_add(other)
    )
}

// A place and the semaphore that dealt it. Each call asks for that, and this type keeps it.
#[derive(Drop)]
struct Worker<'s> {
    permits: &'s Semaphore,
    place: Place,
    ghost dealt: { IsDealtBy permits.now place },
}

impl Worker<'_> {
    // Takes 40 of the 63 permits a hundred times, and counts its turns.
    fn work<R: Wait>(mut self, rt: &R) -> u64 {
        let mut turns = 0u64;
        for _turn in 0..100 {
            turns = turns.saturating_add(u64::from(self.turn(rt)));
        }
        turns
    }

    // Takes 40 permits and gives them back. It waits in line while the other worker has its 40: both don't fit.
    fn turn<R: Wait>(&mut self, rt: &R) -> bool {
        self.permits.acquire_many(rt, &mut self.place, 40)
            && self.permits.release_many(rt, &mut self.place, 40)
    }
}
