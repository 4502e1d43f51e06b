//! Twenty calls under a journal: one that is refused, as the history has to grow, is made when it is asked for anew.
//!
//! That a refused call changes nothing is proved (`refused`, `unwritten`, `uncounted` of `Journalled::call`).

ghost use Rattle.std.specs.Prelude.{◌≡◌, replicate};
ghost use Rattle.saa_core.specs.declared.ticket.Registration.TheVariants.{Unregistered};
ghost use Rattle.saa_core.specs.Tickets.{object_of};

use crate::outcome::{Outcome, anew_if};
use saa_core::semaphore::{SemaphoreCall, SemaphoreCore};
use saa_core_bench::bench::CommandOf;
use saa_core_bench::journal::{Journal, Journalled, Share};
use std::alloc::{AllocError, Global};
use std::io;
use std::marker::Brand;
use std::rt::Runtime;
use std::sync::ledger::Blank;

/// Makes a journal and twenty calls under it, anew if making it was refused, and prints a line.
pub fn rows<R: Runtime>(rt: &R, alloc: Global) -> io::Result<()> {
    let outcome = match made(alloc) {
        Ok(outcome) => outcome,
        Err(_) => Outcome::Anew.and(made(alloc)?),
    };
    println!(rt; "20 calls under a journal: {outcome}")
}

// Makes a core, and twenty calls of it under a journal.
fn made(alloc: Global) -> Result<Outcome, AllocError> {
    let core = SemaphoreCore::new(alloc, 4)?;
    twenty_calls::<Brand>(alloc, core, Blank::new(1))
}

// Makes the journal, and the calls.
fn twenty_calls<J: Journal>(
    alloc: Global,
    core: SemaphoreCore,
    blank: Blank,
) -> Result<Outcome, AllocError>
    requires name { blank.name ≡ J.name }
    requires parts { blank.parts ≡ J.parts }
    requires one_each { J.dealt ≡ J.parts }
    requires dealt { blank.parts ≡ 1 }
    requires opening { object_of core (replicate 2 Unregistered) ≡ J.opening }
{
    let (mut journal, mut shares) = Journalled::<SemaphoreCore, J>::new(alloc, core, 2, blank, 1)?;
    match shares.pop() {
        Some(mut share) => Ok(all_made(&mut journal, &mut share)),
        None => Ok(Outcome::Wrong),
    }
}

// Makes the calls: the outcome of all, which is wrong if they aren't twenty.
fn all_made<J: Journal>(
    journal: &mut Journalled<SemaphoreCore, J>,
    share: &mut Share<J>,
) -> Outcome {
    let mut outcome = Outcome::AtOnce;
    for _call in 0..20 {
        if !is_made(journal, share) {
            outcome = outcome.and(anew_if(is_made(journal, share)));
        }
    }
    if journal.history().len() == 20 && share.calls() == 20 {
        outcome
    } else {
        Outcome::Wrong
    }
}

// Makes a call: whether it wasn't refused.
fn is_made<J: Journal>(journal: &mut Journalled<SemaphoreCore, J>, share: &mut Share<J>) -> bool {
    let command = CommandOf::Call(SemaphoreCall::TryAcquireMany(1));
    journal.call(&command, share).is_ok()
}
