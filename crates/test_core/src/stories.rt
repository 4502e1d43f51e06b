//! Stories of the cores, in the language of `test_language`: worked rows, their words, the order of pending wakes, the numbers of answers, and what they
//! print; and a ticket at another core than its own.

use crate::widths::{Fewest, Most, fewest, most};
use saa_core::barrier::BarrierCore;
use saa_core::lock::LockCore;
use saa_core::primitive::Primitive;
use saa_core::semaphore::{SemaphoreCore, SemaphoreCoreOf};
use saa_core::ticket::{Error, Full, How, Ticket};
use std::test::Fail;
use test_asserts::same;
use test_language::cores::first_failed;
use test_language::worked;

const STORIES: &str = "\
# The word shows what is out, and the newest waiter.
semaphore 63 1
word -> 0; try 63; word -> 63; reg 0 1 sync; word -> 262207; release; word -> 63; poll_sync 0; word -> 63

bounded 1000 1000 1
try 1000; reg 0 1 sync; word -> 263144

bounded 65535 70000 4
available -> 65535; try 65535; word -> 65535

# A shut wakes the oldest first, is a bit of the word, and empties the queue.
semaphore 63 2
try 62; reg 0 2 sync; reg 1 1 async; shut; next -> 1; next -> 0; next -> none; poll_sync 0 -> closed; poll_async 1 -> closed

semaphore 63 1
try 62; reg 0 2 sync; word -> 262206; shut; word -> 131134; poll_number 0 -> 2; reg 1 1 sync; cancel 1; available -> 1

# The word shows the owners, poison and the newest waiter.
lock 1
try_share; try_share; word -> 2; release_share; release_share; word -> 0; try_lock; word -> 63; reg 0 shared sync; word -> 262207; poison_lock
word -> 131072; clear_poison; word -> 0

# An answered slot is still held, and is the next pending wake once.
semaphore 63 1
try 63; reg 0 1 sync; reg 1 1 sync -> full; release; next -> 0; next -> none; reg 1 1 sync -> full; poll_number 0 -> 0; reg 1 1 sync

gate 1
reg 0 sync; poll_sync 0 -> not_ready; open -> controlled 1; next -> 0; next -> none; poll_async 0 -> wrong_mode; registered 0; poll_sync 0 -> ok open
poll_sync 0 -> not_registered

# A slot that is answered anew while its wake is pending has one wake, where it was; and another once that was reported.
gate 2
reg 0 sync; reg 1 sync; permit -> ok 2; poll_sync 1 -> ok controlled; reg 1 sync; reject -> ok 1; poll_sync 1 -> rejected; next -> 1; next -> 0
next -> none; reg 1 sync; permit -> ok 1; next -> 0; next -> none

# Of three waiters the second is dropped first, so the first is answered before it is dropped.
gate 4
reg 0 sync; reg 1 sync; reg 2 sync; cancel 1; cancel 0; poll_number 2 -> 12; permit -> ok 0

# The last arrival needs no slot.
barrier 2 1
reg 0 sync; reg 1 sync; reg 2 sync -> full; next -> 0; next -> none; poll_number 0 -> 0; poll_number 1 -> 1; reg 2 sync; count -> 1

# One that leaves quietly wakes nobody, and so does an arrival that is dropped.
gate 2
reg 0 sync; reg 1 sync; leave 0; next -> none; permit_many 2 -> ok 1; seal -> controlled 0; permit_many 1 -> err sealed

barrier 3 4
reg 0 sync; reg 1 sync; cancel 0; registered 0 -> false; count -> 2; next -> none

# An arrival that doesn't wait, a task that leaves and one that joins wake all that wait, the oldest first.
barrier 3 1
reg 0 sync; arrive -> false; next -> none; arrive; next -> 0; next -> none

barrier 2 2
reg 0 sync; join; reg 1 sync; next -> none; leave_barrier; next -> 1; next -> 0; next -> none

# Nobody passes a barrier of size 0.
barrier 0 2
count -> 0; reg 0 sync; reg 1 sync; poll_sync 0 -> not_ready; leave_barrier -> false; next -> none; join; next -> 1; next -> 0; next -> none
poll_number 0 -> 0; poll_number 1 -> 0

# A waiter for no permits gives none back as it is dropped.
semaphore 63 4
try 63; reg 0 0 sync; cancel 0; available -> 0

# What each prints: numbers whole, however many digits they have. An answered ticket holds its slot until it takes its answer, and waits no more.
semaphore 4 2
reg 0 5 sync; reg 1 5 async; prints -> SemaphoreCore { available_permits: 4, waiting: 2 }

bounded 1000 64 300
crowd 257 reg 0 1000; prints -> SemaphoreCore { available_permits: 64, waiting: 257 }

bounded 65535 65535 300
prints -> SemaphoreCore { available_permits: 65535, waiting: 0 }; try 64534; crowd 64 reg 0 65535
prints -> SemaphoreCore { available_permits: 1001, waiting: 64 }

lock 4
prints -> LockCore { locked: false, share_count: 0, poisoned: false, waiting: 0 }; try_share
prints -> LockCore { locked: false, share_count: 1, poisoned: false, waiting: 0 }; reg 0 exclusive sync
prints -> LockCore { locked: false, share_count: 1, poisoned: false, waiting: 1 }; cancel 0; release_share; try_lock
prints -> LockCore { locked: true, share_count: 0, poisoned: false, waiting: 0 }; poison_lock
prints -> LockCore { locked: false, share_count: 0, poisoned: true, waiting: 0 }

lock 300
crowd 320 reg 0 shared; prints -> LockCore { locked: false, share_count: 62, poisoned: false, waiting: 258 }

gate 300
prints -> GateCore { state: Controlled, waiting: 0 }; crowd 259 reg 0; prints -> GateCore { state: Controlled, waiting: 259 }; seal -> controlled 259
prints -> GateCore { state: Sealed, waiting: 0 }; open -> sealed 0; prints -> GateCore { state: Open, waiting: 0 }

barrier 3 4
prints -> BarrierCore { count: 3, waiting: 0 }; reg 0 sync; reg 1 async; prints -> BarrierCore { count: 1, waiting: 2 }; reg 2 sync
prints -> BarrierCore { count: 3, waiting: 0 }

barrier 63 300
crowd 62 reg 0; prints -> BarrierCore { count: 1, waiting: 62 }
";

#[test]
fn cores_answer(rt: HostRuntime) -> Result<(), Fail> {
    for stories in [
        worked::SEMAPHORES,
        worked::SHUTS,
        worked::LOCKS,
        worked::GATES,
        worked::BARRIERS,
        STORIES,
    ] {
        same!(rt; first_failed(rt.alloc(), stories)?, None);
    }
    Ok(())
}

#[test]
fn each_core_has_its_bound(rt: HostRuntime) -> Result<(), Fail> {
    let bounds = [
        SemaphoreCore::MAX_PERMITS,
        Fewest::MAX_PERMITS,
        SemaphoreCoreOf::<1_000>::MAX_PERMITS,
        Most::MAX_PERMITS,
        BarrierCore::MAX_TASKS,
        LockCore::MAX_SHARED_OWNERS,
    ];
    same!(rt; bounds, [63, 1, 1_000, 65_535, 63, 62]);
    same!(rt; fewest(rt.alloc(), 2)?.available_permits(), 1);
    same!(rt; most(rt.alloc(), 70_000, 4)?.available_permits(), 65_535);
    Ok(())
}

// What a ticket answers that waits at one core and moves at another: it is nothing there; and once it is cancelled there, its slot is held at the core
// that it left, is answered there, and isn't free for another.
#[test]
fn a_ticket_is_nothing_to_another_core(rt: HostRuntime) -> Result<(), Fail> {
    let mut own = SemaphoreCore::with_permits(rt.alloc(), 0, 1)?;
    let mut other = SemaphoreCore::new(rt.alloc(), 1)?;
    let mut ticket = Ticket::new();
    same!(rt; own.register(&mut ticket, 1, true), Ok(true));
    same!(rt; other.poll(&mut ticket, How::Sync), Err(Error::NotRegistered));
    same!(rt; own.poll(&mut ticket, How::Sync), Err(Error::NotReady));
    other.cancel(&mut ticket);
    same!(rt; (ticket.is_registered(), other.available_permits()), (false, 63));
    same!(rt; (own.release(), own.available_permits()), (true, 0));
    same!(rt; own.register(&mut ticket, 1, true), Err(Full));
    Ok(())
}
