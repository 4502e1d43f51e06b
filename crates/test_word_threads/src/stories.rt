//! The stories of the word's forms ([`crate::orders`] has their words), and their tests.

use crate::played::first_failed;
use saa_word_threads::semaphore::SemaphoreOf;
use std::test::Fail;
use test_asserts::same;

// What calls answer, and which words they leave.
const SEMAPHORES: &str = "\
# A release that fits later.
semaphore 0 2
p0 try 63; p1 register 10; p1 register 1 -> false; p1 acquire 1 -> false; p1 try_poll -> not_ready; p0 available -> 0; p0 release 5; p0 available -> 5
p0 release 5; p0 available -> 0; p1 try_poll; p1 try_poll -> not_registered; main -> 63

# As many permits are available as aren't withheld, and no more are withheld than there are.
semaphore 0 1
p0 available -> 63; main -> 0

semaphore 62 1
p0 available -> 1; main -> 62

semaphore 18446744073709551615 1
p0 available -> 0; main -> 63

# The last but one of as many places as there can be.
semaphore 62 65534
p65533 register 2; release 1; p65533 poll
main -> 63; line_word 65534 -> 0; answer_word 65534 -> 0; line_word 65535 -> none; answer_word 65535 -> none

# Words of waiters: from bit 18 on the main word has the newest one's number plus 1, 3 times 262144; from bit 16 on a line word has the older neighbour's,
# 2 times 65536.
semaphore 63 3
p1 register 10; p2 register 5; p0 release 0; stay; main -> 786495; line_word 2 -> 131077; answer_word 0 -> 0; answer_word 1 -> 0; answer_word 2 -> 0

# And of one that is answered: 1 grants.
semaphore 63 3
p1 register 10; p2 register 5; p0 release 12; stay; main -> 786493; line_word 2 -> 5; answer_word 0 -> 0; answer_word 1 -> 1; answer_word 2 -> 0

# Visitors: one permit is there, but a waiter is before them.
semaphore 5 1
available -> 58; release 6 -> false; try 50; try 9 -> false; try 64 -> false; release 64 -> false; release 0; p0 register 20; available -> 8; try 1 -> false
release 11; p0 try_poll -> not_ready; release 1; available -> 0; p0 try_poll; release 3; main -> 60

# A semaphore is shut while one waits: bit 17 of its main word says so, which is 131072.
semaphore 0 2
p0 try 60; p1 register 10; p0 is_shut -> false; p0 shut; p1 try_poll -> closed; p1 try_poll -> not_registered; p0 is_shut; p0 shut -> false
p0 try 1 -> false; p0 available -> 3; p1 register 1; p1 poll -> closed; p1 acquire 1 -> false; p0 release 60; p0 release 1 -> false; p0 available -> 63
main -> 131072

semaphore 63 1
p0 register 1; is_shut -> false; shut; shut -> false; is_shut; p0 poll -> closed; release 3; try 1 -> false; available -> 3; main -> 131132
";

const LOCKS: &str = "\
# A downgrade lets a sharer in.
lock 2
p0 try_lock; p1 register shared; p1 try_poll -> not_ready; p0 downgrade; p0 is_shared; p1 try_poll -> true; p0 release_share; p1 release_share
p1 release_share -> false; main -> 0

# Poison answers a wait mode.
lock 2
p0 try_lock; p1 register wait_shared; p0 poison; p1 poll -> false; p1 share -> false; p1 try_share -> poisoned; p0 is_poisoned; p0 clear; main -> 0

# Modes, cancels, and what is read. In the end one share is out.
lock 2
p0 is_free; p0 lock; p1 is_free -> false; p1 is_locked; p1 is_shared -> false; p1 try_lock -> would_block; p1 register wait_exclusive
p1 register shared -> false; p1 share -> false; p0 release_lock; p0 release_lock -> false; p1 poll -> true; p1 poll -> not_registered; p1 is_free
p1 is_poisoned -> false; p0 downgrade -> false; p0 poison -> false; p0 clear -> false; p1 share; p0 register exclusive; p1 try_share -> would_block
p0 cancel; p0 try_poll -> not_registered; main -> 1

# Shares to the top.
lock 32
crowd 31 try_share -> ok; crowd 31 try_share -> ok; p0 try_share -> would_block; main -> 62

# A visitor lowers the lock to a share beside a place that waits for one, and poisons it beside one that waits.
lock 1
is_free; try_lock; try_lock -> would_block; try_share -> would_block; is_locked; p0 register shared; downgrade; p0 poll -> true; is_shared
release_lock -> false; release_share; release_share; release_share -> false; downgrade -> false; is_locked -> false; is_shared -> false; is_free
poison -> false; try_lock; p0 register exclusive; poison; p0 poll -> false; is_poisoned; try_share -> poisoned; release_lock -> false; clear; clear -> false
try_share; release_share; is_poisoned -> false; poison -> false; main -> 0
";

// A call looks once and in each turn of its spin policy; it rests for 8 turns before the second look, for twice as many before each further one, and for 1,024
// at most; it yields last, and joins. A visitor that passes through a share is let in as the call looks, and refused once it has joined.
const LOOKING: &str = "\
lock 2
spins 0 0; at_looks 0 pass; p0 try_share; p1 watched_register exclusive; p1 looks -> 1; p1 rests -> 0; p1 yields -> 0; p1 takes -> 0; refused -> 0
p1 try_poll -> not_ready; pass -> false; p0 watched_release_share; p0 answers -> 1; p0 wakes -> 0; p1 try_poll -> true

lock 2
spins 1 0; at_looks 0 pass; p0 try_share; p1 watched_register exclusive; p1 looks -> 2; p1 rests -> 8; p1 yields -> 0; p1 takes -> 0; refused -> 0
p1 try_poll -> not_ready; pass -> false; p0 watched_release_share; p0 answers -> 1; p0 wakes -> 0; p1 try_poll -> true; p1 in_order

lock 2
spins 0 1; at_looks 0 pass; p0 try_share; p1 watched_register exclusive; p1 looks -> 2; p1 rests -> 0; p1 yields -> 1; p1 takes -> 0; refused -> 0
p1 try_poll -> not_ready; pass -> false; p0 watched_release_share; p0 answers -> 1; p0 wakes -> 0; p1 try_poll -> true; p1 in_order

lock 2
spins 12 3; at_looks 0 pass; p0 try_share; p1 watched_register exclusive; p1 looks -> 16; p1 rests -> 6136; p1 yields -> 3; p1 takes -> 0; refused -> 0
p1 try_poll -> not_ready; pass -> false; p0 watched_release_share; p0 answers -> 1; p0 wakes -> 0; p1 try_poll -> true; p1 in_order

lock 2
at_looks 0 pass; p0 try_share; p1 watched_register exclusive; p1 looks -> 117; p1 rests -> 10232; p1 yields -> 100; p1 takes -> 0; refused -> 0
p1 try_poll -> not_ready; pass -> false; p0 watched_release_share; p0 answers -> 1; p0 wakes -> 0; p1 try_poll -> true; p1 in_order

# It takes the lock after the look that finds it free, and never joins.
lock 2
spins 0 4294967295; at_looks 1000 release_share; p0 try_share; p1 watched_register exclusive; p1 looks -> 1001; p1 rests -> 0; p1 yields -> 1000
p1 takes -> 1; refused -> 0; p1 try_poll -> true; pass -> false; p0 release_share -> false; p1 try_poll -> not_registered

# A try looks once, and is about to take what it asks for once, if it sees that it may.
lock 2
at_looks 0 pass; p1 watched_try_share; p1 looks -> 1; p1 rests -> 0; p1 yields -> 0; p1 takes -> 1; refused -> 0; p1 try_poll -> not_registered
pass; p0 release_share

lock 2
at_looks 0 pass; p0 try_lock; p1 watched_try_share -> would_block; p1 looks -> 1; p1 rests -> 0; p1 yields -> 0; p1 takes -> 0; refused -> 1
p1 try_poll -> not_registered; pass -> false; p0 release_share -> false

# One that misses it is refused, and looks no more; a registration looks on as its spin policy says, and joins.
lock 2
at_takes 1 try_lock; p1 watched_try_share -> would_block; p1 looks -> 1; p1 rests -> 0; p1 yields -> 0; p1 takes -> 1; refused -> 0
p1 try_poll -> not_registered; pass -> false

lock 2
spins 0 0; at_takes 1 try_lock; p1 watched_register exclusive; p1 looks -> 1; p1 rests -> 0; p1 yields -> 0; p1 takes -> 1; refused -> 0
p1 try_poll -> not_ready; pass -> false

lock 2
spins 2 1; at_looks 0 pass; at_takes 1 try_lock; p1 watched_register exclusive; p1 looks -> 4; p1 rests -> 24; p1 yields -> 1; p1 takes -> 1; refused -> 3
p1 try_poll -> not_ready; pass -> false; p1 in_order

# A call that looks would exchange a word that was free: while it is, and once it is poisoned, but not while it is held.
lock 1
may_exchange; p0 try_lock; may_exchange -> false; p0 poison; may_exchange
";

// A waiter looks for its answer 50 times and spins, then yields 2,000 times, and parks, with its mark set. It sleeps until it is woken, after its answer is written.
const PARKING: &str = "\
lock 2
p0 marked -> false; p1 marked -> false; p0 try_share; p1 watched_wait exclusive; p1 looks -> 117; p1 rests -> 10232; p1 yields -> 100; p1 takes -> 0
p1 answer_looks -> 50; p1 answer_spins -> 50; p1 answer_yields -> 2000; p1 parks -> 1; p1 backs -> 0; p1 marked; p1 in_order; p0 watched_release_share
p1 ends; p0 writes -> 1; p0 answers -> 1; p0 wakes -> 1; p1 answer_looks -> 50; p1 answer_yields -> 2000; p1 parks -> 1; p1 backs -> 1; p1 blocks -> 1
p1 marked -> false; faults -> 0; p1 release_lock; main -> 0

# So do the public calls.
lock 2
p0 try_lock; p1 lock; p1 marked; p0 release_lock; p1 ends; p1 release_lock; main -> 0

lock 2
p0 try_lock; p1 share; p1 marked; p0 downgrade; p1 ends; p1 release_share; p0 release_share; main -> 0

semaphore 63 2
p1 acquire 5; p1 marked; p0 release 5; p1 ends; p1 release 5; main -> 58

semaphore 63 2
p1 register 5; p1 poll_for 1h -> ok; p1 marked; p0 release 5; p1 ends; p1 release 5; main -> 58

semaphore 63 2
p1 watched_acquire 5; p1 marked; p0 release 5; p1 ends; p1 looks -> 117; p1 rests -> 10232; p1 yields -> 100; p1 takes -> 0; p1 answer_looks -> 50
p1 answer_spins -> 50; p1 answer_yields -> 2000; p1 parks -> 1; p1 backs -> 1; faults -> 0; p1 release 5; main -> 58

# A timed poll ends with its answer, or in time.
lock 2
p0 poll_for 1h -> not_registered; p0 register exclusive; p0 poll_for 0ns -> true; p1 register exclusive; p1 poll_for 0ns -> not_ready
p1 poll_now -> not_ready; p1 poll_for 2ms -> not_ready; p1 ends; p0 release_lock; p1 poll_for 1h -> true; p1 release_lock; main -> 0

# Its limit is asked first, before each yield, and as it parks. Once its time is up its mark is cleared, and it leaves the queue by a cancel.
lock 2
p0 try_lock; p1 register exclusive; p1 poll_within 2002 -> not_ready; p1 ends; p1 answer_looks -> 50; p1 answer_spins -> 50; p1 answer_yields -> 2000
p1 parks -> 1; p1 backs -> 1; p1 marked -> false; p1 cancel; p0 release_lock; p0 is_free; faults -> 0; line_word 1 -> 0; answer_word 1 -> 0

lock 2
p0 try_lock; p1 register exclusive; p1 poll_within 101 -> not_ready; p1 ends; p1 answer_looks -> 50; p1 answer_spins -> 50; p1 answer_yields -> 100
p1 parks -> 0; p1 backs -> 0; p1 marked -> false; p1 cancel; p0 release_lock; p0 is_free; faults -> 0; line_word 1 -> 0; answer_word 1 -> 0

lock 2
p0 try_lock; p1 register exclusive; p1 poll_within 0 -> not_ready; p1 ends; p1 answer_looks -> 0; p1 answer_spins -> 0; p1 answer_yields -> 0
p1 parks -> 0; p1 backs -> 0; p1 marked -> false; p1 cancel; p0 release_lock; p0 is_free; faults -> 0; line_word 1 -> 0; answer_word 1 -> 0
";

// Which tasks are woken, when, and how often. A waker that goes wakes its task, which is how it is seen to go.
const TASKS: &str = "\
# One task that polled is woken after the write, and once.
lock 2
p0 try_share; p1 poll_task a -> not_registered; p1 register exclusive; p1 poll_task a -> pending; a woken -> false; p0 watched_release_share
p0 writes -> 1; p0 answers -> 1; p0 wakes -> 1; faults -> 0; a woken; b woken -> false; p1 poll_task a -> true; a woken -> false; p1 release_lock
a woken -> false

# The last task is woken by the answer, and the one before by the second poll alone.
lock 2
p0 try_share; p1 register exclusive; p1 poll_task b -> pending; b woken -> false; p1 poll_task a -> pending; a woken -> false; b woken; a calm; b calm
p0 watched_release_share; p0 writes -> 1; p0 answers -> 1; p0 wakes -> 1; faults -> 0; a woken; b woken -> false; p1 poll_task a -> true; a woken -> false
p1 release_lock; a woken -> false; b woken -> false

# A waker is dropped as its place cancels, and no waiter is answered then.
lock 2
p0 try_share; p1 register exclusive; p1 poll_task a -> pending; a woken -> false; p1 cancel; a woken; p1 poll_task a -> not_registered; a woken -> false
p0 watched_release_share; p0 writes -> 0; p0 answers -> 0; p0 wakes -> 0; a woken -> false; p0 try_lock; a woken -> false

# A thread that parks until its time is up leaves the waker of a task.
lock 2
p0 try_share; p1 register exclusive; p1 poll_task a -> pending; p1 poll_within 2002 -> not_ready; p1 ends; a woken -> false; p0 watched_release_share
p0 writes -> 1; p0 answers -> 1; p0 wakes -> 1; faults -> 0; a woken; p1 poll_within 2002 -> true; p1 ends; a woken; p1 release_lock; b woken -> false

# Poison answers a task.
lock 2
p0 try_share; p0 watched_release_share; p0 writes -> 0; p0 try_lock; p1 register exclusive; p1 poll_task a -> pending; a woken -> false; p0 poison; a woken
p1 poll_task a -> false; a woken -> false; p0 clear

# A poll that finds its answer, which comes right before its waker is kept or right after, leaves no waker.
lock 2
at_keeps 1 release_share; p0 try_share; p1 register exclusive; p1 poll_task a -> true; a woken; a calm; p1 release_lock; a woken -> false; p0 try_lock
a woken -> false

lock 2
at_polls 1 release_share; p0 try_share; p1 register exclusive; p1 poll_task a -> true; a woken; a calm; p1 release_lock; a woken -> false; p0 try_lock
a woken -> false

semaphore 63 1
p0 register 5; p0 poll_task a -> pending; a woken -> false; release 5; a woken; p0 poll_task a -> ok
";

// A release is held right before it publishes: another release there never blocks, and neither does a try, a registration or a poll; a cancel yields each time
// that it finds the flag set. Nothing of it all is lost: 10 and 1 are granted.
const HELD: &str = "\
semaphore 63 4
at_publishes 1 hold; p0 register 10; p1 register 4; p2 watched_release 5; p2 ended -> 0; p3 try 1 -> false; p3 register 1; p3 try_poll -> not_ready
p3 release 6; p3 available -> 11; p1 watched_cancel; p1 ended -> 0; p2 ended -> 0; go; p1 ends; p2 ends; p1 deferred
p1 try_poll -> not_registered; p3 poll -> ok; p0 try_poll -> ok; main -> 63

lock 3
at_publishes 1 hold; p0 try_share; p1 try_share; p2 register exclusive; p0 watched_release_share; p0 ended -> 0; p1 release_share; p0 ended -> 0; go; p0 ends
p2 try_poll -> true; p0 answers -> 1; faults -> 0
";

// Many waiters sleep, and each is woken by the answer that is its own.
const CROWDS: &str = "\
# By releases of a place, of one permit and of many.
semaphore 63 25
crowd 24 register 1; crowd 24 poll; crowd 24 ended -> 0; p0 release 1; crowd 1 ends; crowd 24 ended -> 1; p0 release 4; crowd 5 ends; crowd 24 ended -> 5
p0 release 19; crowd 24 ends; main -> 63

# By visitors: one by one, four by four, and all.
semaphore 63 25
crowd 24 register 1; crowd 24 poll; crowd 24 ended -> 0; in_turn 24 release 1 -> 24; main -> 63

semaphore 63 25
crowd 24 register 1; crowd 24 poll; crowd 24 ended -> 0; in_turn 6 release 4 -> 6; main -> 63

semaphore 63 25
crowd 24 register 1; crowd 24 poll; crowd 24 ended -> 0; in_turn 1 release 24 -> 1; main -> 63

# By the oldest waiter, which cancels.
semaphore 63 25
p0 register 40; p0 release 24; crowd 24 register 1; crowd 24 poll; crowd 24 ended -> 0; p0 cancel; crowd 24 ends; main -> 63

# By a shut, which leaves what is out as it is.
semaphore 63 25
crowd 24 register 1; crowd 24 poll -> closed; crowd 24 ended -> 0; p0 shut; crowd 24 ends; main -> 131135

semaphore 63 25
crowd 24 register 1; crowd 24 poll -> closed; crowd 24 ended -> 0; shut; crowd 24 ends; main -> 131135

# By poison, in all four modes.
lock 33
p0 try_lock; crowd 32 register_each; crowd 32 poll -> false; crowd 32 ended -> 0; p0 poison; crowd 32 ends; p0 clear; main -> 0
";

// Threads that meet lose nothing, and keep one another out.
const TURNS: &str = "\
semaphore 0 3
crowd 2 turns 100 forty -> 100; crowd 2 ends; main -> 0

semaphore 7 3
crowd 2 turns 2000 permits -> 2000; crowd 2 ends; main -> 7

semaphore 7 5
crowd 4 turns 2000 permits -> 2000; crowd 4 ends; main -> 7

semaphore 7 33
crowd 32 turns 100 permits -> 100; crowd 32 ends; main -> 7

semaphore 7 5
crowd 4 turns 2000 visits -> 2000; crowd 4 ends; main -> 7

semaphore 7 33
crowd 32 turns 100 visits -> 100; crowd 32 ends; main -> 7

lock 5
crowd 4 turns 100 locks -> 100; crowd 4 ends; main -> 0

lock 3
crowd 2 turns 10000 owners -> 10000; crowd 2 ends; faults -> 0; main -> 0

lock 5
crowd 4 turns 4000 owners -> 4000; crowd 4 ends; faults -> 0; main -> 0

lock 33
crowd 32 turns 300 owners -> 300; crowd 32 ends; faults -> 0; main -> 0

lock 5
crowd 4 turns 5000 visitors -> 5000; crowd 4 ends; faults -> 0; main -> 0
";

// Guards show what was written, and keep others out. A call for one sleeps while the lock has an owner, and has its turn before a later try; a writer that
// sleeps isn't let in by an owner that only lowers the lock to a share.
const GUARDS: &str = "\
rwlock
p0 keep_read -> 5; p1 try_write -> none; p1 read -> 5; p1 try_read -> 5; go; p0 ends; p0 keep_write 6 -> 5; p1 try_read -> none; go; p0 ends
p1 try_write -> 6; p0 keep_lowered 7 -> 6; p1 try_write -> none; p1 try_read -> 7; go; p0 ends; p1 try_write -> 7; faults -> 0; value -> 7; main -> 0

rwlock
try_lock; p1 keep_read -> 5; p1 marked; release_lock; pass; try_lock -> would_block; p1 holds; go; p1 ends; try_lock; release_lock; main -> 0

rwlock
try_lock; p1 keep_write 6 -> 5; p1 marked; release_lock; pass -> false; try_lock -> would_block; p1 holds; go; p1 ends; try_lock; release_lock; main -> 0

rwlock
try_share; p1 keep_write 6 -> 5; p1 marked; release_share; pass -> false; try_lock -> would_block; p1 holds; go; p1 ends; try_lock; release_lock; main -> 0

rwlock
try_lock; p1 keep_read -> 5; p1 marked; downgrade; pass; p1 holds; release_share; try_lock -> would_block; go; p1 ends; try_lock; release_lock; main -> 0

rwlock
try_lock; p1 keep_write 6 -> 5; p1 marked; downgrade; pass -> false; p1 marked; release_share; pass -> false; try_lock -> would_block; p1 holds; go; p1 ends
try_lock; release_lock; value -> 6; main -> 0
";

#[test]
fn calls_answer(rt: HostRuntime) -> Result<(), Fail> {
    for stories in [SEMAPHORES, LOCKS, GUARDS] {
        same!(rt; first_failed(&rt, rt, stories)?, None);
    }
    same!(rt; SemaphoreOf::<1_000>::MAX_PERMITS, 1_000);
    Ok(())
}

#[test]
fn calls_look_and_waiters_are_woken_after_their_answers(rt: HostRuntime) -> Result<(), Fail> {
    for stories in [LOOKING, PARKING, TASKS, HELD] {
        same!(rt; first_failed(&rt, rt, stories)?, None);
    }
    Ok(())
}

#[test]
fn crowds_are_woken_and_lose_nothing(rt: HostRuntime) -> Result<(), Fail> {
    for stories in [CROWDS, TURNS] {
        same!(rt; first_failed(&rt, rt, stories)?, None);
    }
    Ok(())
}
