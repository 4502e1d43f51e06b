//! A future of each kind, awaited by `block_on` while another thread has what it asks for, and lets it have that only once its task sleeps.
//!
//! A wait takes no memory, nor does a waker, which is one more owner of what `block_on` has made: only `block_on` itself can be refused, and then the
//! future is awaited anew. `scripts/refuse_everything` sees that each row takes as much as a future that is ready.

use crate::outcome::{Outcome, anew_if, only_if, row};
use crate::watch::Watch;
use futures::future::ready;
use saa_sync::gate::{Gate, State};
use saa_sync::lock_api::{Mutex, lock_async};
use saa_sync::pager::Pager;
use saa_sync::semaphore::Semaphore;
use std::alloc::{AllocError, AllocGlobal, Global};
use std::io;
use std::random::RandomSource;
use std::rt::Runtime;
use std::sync::Wait;
use std::thread::{self, Threads};

// What is awaited: a future of each kind, since those of all forms are written once.
#[derive(Clone, Copy)]
enum What {
    Permit,
    // With a callback.
    Gate,
    Pager,
    Mutex,
}

// What is awaited, in the order of the rows.
static ROWS: [(&str, What); 4] = [
    ("a permit awaited", What::Permit),
    ("a gate awaited with a callback", What::Gate),
    ("a semaphore's pager awaited", What::Pager),
    ("a mutex awaited", What::Mutex),
];

// A semaphore of no permit, a gate, and a number behind a mutex.
#[derive(Drop)]
struct Forms<'r, R: Wait> {
    semaphore: Semaphore<&'r R>,
    gate: Gate<&'r R>,
    mutex: Mutex<&'r R, u32>,
}

/// Awaits each, and prints a line for each.
pub fn rows<R: Runtime + RandomSource + AllocGlobal + Threads + Wait + Sync>(
    rt: &R,
    alloc: Global,
) -> io::Result<()> {
    row(rt, "what is ready awaited", ready_awaited(rt))?;
    let (forms, outcome) = match new_forms(rt, alloc) {
        Ok(forms) => (forms, Outcome::AtOnce),
        Err(_) => (new_forms(rt, alloc)?, Outcome::Anew),
    };
    row(rt, "all forms", outcome)?;
    rows_of(rt, &forms)
}

// New forms, with room for 4 each.
fn new_forms<R: Wait>(rt: &R, alloc: Global) -> Result<Forms<'_, R>, AllocError> {
    Ok(Forms {
        semaphore: Semaphore::with_permits(rt, alloc, 0, 4)?,
        gate: Gate::new(rt, alloc, 4)?,
        mutex: Mutex::new(rt, alloc, 5u32, 4)?,
    })
}

// The rows of forms that are made.
fn rows_of<R: Runtime + RandomSource + AllocGlobal + Threads + Wait + Sync>(
    rt: &R,
    forms: &Forms<'_, R>,
) -> io::Result<()> {
    for (name, what) in &ROWS {
        row(rt, name, contended(rt, forms, *what))?;
    }
    Ok(())
}

// Awaits what is ready at once: all memory is `block_on`'s.
fn ready_awaited<R: RandomSource + AllocGlobal + Wait>(rt: &R) -> Outcome {
    let watch = Watch::new();
    match watch.awaited(rt, ready(5u32)) {
        Some(answer) => only_if(answer == 5),
        None => anew_if(watch.awaited(rt, ready(5u32)) == Some(5)),
    }
}

// Awaits something in another thread once this one has it, which lets it go once the task there sleeps.
fn contended<R: RandomSource + AllocGlobal + Threads + Wait + Sync>(
    rt: &R,
    forms: &Forms<'_, R>,
    what: What,
) -> Outcome {
    let watch = Watch::new();
    let (outcome, is_let_go) = thread::join(
        rt,
        || {
            watch.await_held(rt);
            awaited(rt, forms, what, &watch)
        },
        || lets_go(rt, forms, what, &watch),
    );
    outcome.and(only_if(is_let_go))
}

// Has what is awaited until the task that awaits it sleeps, and lets it go then. Whether one task was let in.
fn lets_go<R: Wait>(rt: &R, forms: &Forms<'_, R>, what: What, watch: &Watch) -> bool {
    let guard = match what {
        What::Mutex => forms.mutex.try_lock(),
        _ => None,
    };
    watch.hold();
    watch.await_asleep(rt);
    match what {
        What::Permit | What::Pager => forms.semaphore.release(),
        What::Gate => forms.gate.permit() == Ok(1),
        What::Mutex => guard.is_some(),
    }
}

// Awaits it, anew if that was refused.
fn awaited<R: RandomSource + AllocGlobal + Wait>(
    rt: &R,
    forms: &Forms<'_, R>,
    what: What,
    watch: &Watch,
) -> Outcome {
    if matches!(what, What::Pager) {
        return paged(rt, forms, watch);
    }
    match is_answered(rt, forms, what, watch) {
        Some(is_right) => only_if(is_right),
        None => anew_if(is_answered(rt, forms, what, watch) == Some(true)),
    }
}

// Whether a future is answered as it must be; nothing if it was refused to await it.
fn is_answered<R: RandomSource + AllocGlobal + Wait>(
    rt: &R,
    forms: &Forms<'_, R>,
    what: What,
    watch: &Watch,
) -> Option<bool> {
    match what {
        What::Permit => Some(watch.awaited(rt, forms.semaphore.acquire_async())? == Ok(())),
        What::Gate => {
            let entry = forms.gate.enter_async_with(|| {});
            Some(watch.awaited(rt, entry)? == Ok(Ok(State::Controlled)))
        }
        What::Mutex => Some(watch.awaited(rt, lock_async(&forms.mutex))?.is_ok()),
        What::Pager => Some(false),
    }
}

// Registers a pager and polls it until it is answered, anew if that was refused: it stays registered then.
fn paged<R: RandomSource + AllocGlobal + Wait>(
    rt: &R,
    forms: &Forms<'_, R>,
    watch: &Watch,
) -> Outcome {
    let mut pager = Pager::new();
    if forms.semaphore.register_pager(&mut pager, 1, false) != Ok(true) {
        return Outcome::Wrong;
    }
    match watch.awaited(rt, pager.poll_async()) {
        Some(answer) => only_if(answer == Ok(())),
        None => anew_if(watch.awaited(rt, pager.poll_async()) == Some(Ok(()))),
    }
}
