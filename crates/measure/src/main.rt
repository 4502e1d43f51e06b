//! Times the threaded semaphore, barrier and gate beside plain ones under std's `Mutex` and `Condvar`, the threaded lock
//! beside std's `RwLock`, values behind our `Mutex` and `RwLock` beside std's, the word's semaphore beside the one under a mutex, the
//! lock-free forms beside the threaded ones, and futures beside calls, in one run; and locks at which threads meet, with how long one
//! of them waits there.
//!
//! With the argument `measure` it prints, for some numbers of threads, what one acquire with its release costs by each,
//! and the ratio, and for one thread the ratios to two bare turns at a `Mutex`; with the name of a part it prints that part, and with
//! any other arguments only how to run it. What is measured here is proved nowhere. The counter is unfair: the first that comes takes
//! what is there.
//!
//! What is printed is a table (`tables`); what is timed is a load (`loads`), and one function times each.
#![tactic(auto)]

mod alone;
mod cores;
mod crowds;
mod lines;
mod listed;
mod loads;
mod lock_free;
mod lock_free_lines;
mod meeting;
mod parts;
mod places;
mod polls;
mod print;
mod rounds;
mod tables;
mod takers;
mod times;
mod turns;
mod words;

use std::io;

fn main(rt: HostRuntime) -> io::Result<()> {
    parts::print_chosen(&rt, rt.alloc())
}
