//! Stories of many threads that sleep at a form: all that a call answers wake, no other does, and each parker is notified once. At the threaded forms, which
//! say how many sleep.

/// Behind one that asks for a permit, those that ask for none are answered with it, up to one that has to wait for more; by each way of waiting.
pub(crate) const PERMITS: &str = "\
# Calls with a callback: a release, one of a number, and the one ahead is cancelled, or goes.
each 1 2 3 48 100
semaphore 0 104 sleepy
reg 0 1 sync; crowd N acquire_with 0; reg 1 63 sync; t1 acquire 0; t2 acquire 0; crowd N ended -> 0; crowd N joined -> N
- release; crowd N ends; notified -> N+1; parked -> 2; t1 ended -> 0; t2 ended -> 0; cancel 1; t1 ends; t2 ends; parked -> 0; available -> 0
- release 1; crowd N ends; notified -> N+1; parked -> 2; drop 1; t1 ends; t2 ends; parked -> 0
- cancel 0; crowd N ends; notified -> N; parked -> 2; cancel 1; t1 ends; t2 ends; parked -> 0
- drop 0; crowd N ends; notified -> N; parked -> 2; cancel 1; t1 ends; t2 ends; parked -> 0

# Plain calls.
each 1 2 3 48 100
semaphore 0 104 sleepy
reg 0 1 sync; crowd N acquire 0; reg 1 63 sync; t1 acquire 0; t2 acquire 0; crowd N ended -> 0
- release; crowd N ends; notified -> N+1; parked -> 2; cancel 1; t1 ends; t2 ends; parked -> 0
- cancel 0; crowd N ends; notified -> N; parked -> 2; cancel 1; t1 ends; t2 ends; parked -> 0

# Pagers.
each 1 2 3 48 100
semaphore 0 104 sleepy
reg 0 1 sync; crowd N reg 0 0 sync; crowd N poll_sync 0; reg 1 63 sync; t1 acquire 0; t2 acquire 0; crowd N ended -> 0
- release; crowd N ends; notified -> N+1; parked -> 2; cancel 1; t1 ends; t2 ends; parked -> 0
- drop 0; crowd N ends; notified -> N; parked -> 2; cancel 1; t1 ends; t2 ends; parked -> 0

# Waiters that spin before they sleep: each may still be awake as it is answered.
each 1 2 3 48 100
semaphore 0 104
- reg 0 1 sync; crowd N acquire_with 0 joins; reg 1 63 sync; crowd N ended -> 0; release; crowd N ends; notified -> N+1; try_poll 1 -> not_ready
- reg 0 1 sync; crowd N acquire_with 0 joins; reg 1 63 sync; crowd N ended -> 0; cancel 0; crowd N ends; notified -> N; try_poll 1 -> not_ready
- reg 0 1 sync; crowd N reg 0 0 sync; crowd N poll_sync 0 begins; reg 1 63 sync; release 1; crowd N ends; notified -> N+1; try_poll 1 -> not_ready

# Each release answers one, and wakes no other.
each 1 2 3 48
semaphore 0 48 sleepy
crowd N acquire_with; crowd N joined -> N; in_turn N release -> N; crowd N acquire; in_turn N release 1 -> N; crowd N reg 0 1 sync; crowd N poll_sync 0
in_turn N release -> N; available -> 0

each 1 2 3 48
semaphore 0 48
crowd N acquire_with 1 joins; in_turn_awake N release -> N; crowd N reg 0 1 sync; crowd N poll_sync 0 begins; in_turn_awake N release 1 -> N; available -> 0

# Held back for a while, one alone and many, for one permit and for two of which one is there.
each 1 24
semaphore 0 N
crowd N acquire_with; pause; crowd N ended -> 0; crowd N joined -> N; try 0 -> false; in_turn N release -> N; available -> 0

each 1 24
semaphore 1 N
crowd N acquire_with 2; pause; crowd N ended -> 0; crowd N joined -> N; try 0 -> false; in_turn N release 2 -> N; available -> 1
";

/// A permit that goes wakes the next; and a task that joined between two threads is granted between them.
pub(crate) const IN_BETWEEN: &str = "\
# One that sleeps takes the permit that another one drops.
semaphore 1 1 sleepy
t1 hold_permit holds -> 0; t2 take_permit -> 0; t1 ends; t2 ends; available -> 1

# A task between two that sleep.
semaphore 0 4 sleepy
t1 acquire; f0 acquire; f0 poll a -> pending; t2 acquire; release; t1 ends; pause; t2 ended -> 0; a woken -> false; release; a woken; pause; t2 ended -> 0
f0 poll a; release; t2 ends; available -> 0
";

/// All at a gate: by a call with a callback, by a plain one and by a pager, at parkers that were notified before.
pub(crate) const PASSINGS: &str = "\
# Let in.
each 1 2 3 48 100
gate N+1 sleepy
- crowd N enter_with -> ok controlled; crowd N joined -> N; crowd N ended -> 0; permit -> ok N; crowd N ends; parked -> 0; notified -> N
crowd N enter -> ok controlled; permit -> ok N; crowd N ends; parked -> 0; notified -> N
crowd N reg 0 sync; crowd N poll_sync 0 -> ok controlled; permit -> ok N; crowd N ends; parked -> 0; notified -> N
# Rejected.
- crowd N enter_with -> rejected; crowd N ended -> 0; reject -> ok N; crowd N ends; parked -> 0; notified -> N
crowd N enter -> rejected; reject -> ok N; crowd N ends; parked -> 0; notified -> N
crowd N reg 0 sync; crowd N poll_sync 0 -> rejected; reject -> ok N; crowd N ends; parked -> 0; notified -> N
# It opens.
- crowd N enter_with -> ok open; crowd N ended -> 0; open -> controlled N; crowd N ends; parked -> 0; notified -> N; reset -> open
crowd N enter -> ok open; open -> controlled N; crowd N ends; parked -> 0; notified -> N; reset -> open
crowd N reg 0 sync; crowd N poll_sync 0 -> ok open; open -> controlled N; crowd N ends; parked -> 0; notified -> N
# It is sealed.
- crowd N enter_with -> sealed; crowd N ended -> 0; seal -> controlled N; crowd N ends; parked -> 0; notified -> N; reset -> sealed
crowd N enter -> sealed; seal -> controlled N; crowd N ends; parked -> 0; notified -> N; reset -> sealed
crowd N reg 0 sync; crowd N poll_sync 0 -> sealed; seal -> controlled N; crowd N ends; parked -> 0; notified -> N
# Another pager is cancelled, or goes.
- crowd N enter_with -> spurious; crowd N ended -> 0; reg 0 sync; cancel 0; crowd N ends; parked -> 0; notified -> N
crowd N enter -> spurious; reg 0 sync; cancel 0; crowd N ends; parked -> 0; notified -> N
crowd N reg 0 sync; crowd N poll_sync 0 -> spurious; reg 0 sync; cancel 0; crowd N ends; parked -> 0; notified -> N
- crowd N enter_with -> spurious; crowd N ended -> 0; give_up; crowd N ends; parked -> 0; notified -> N
crowd N enter -> spurious; give_up; crowd N ends; parked -> 0; notified -> N
crowd N reg 0 sync; crowd N poll_sync 0 -> spurious; give_up; crowd N ends; parked -> 0; notified -> N

# Held back for a while by waiters that spin before they sleep.
each 1 24
gate N
crowd N enter_with -> ok controlled; pause; crowd N ended -> 0; crowd N joined -> N; state -> controlled; permit -> ok N; crowd N ends

# A future that two threads poll.
gate 1
f0 enter; f0 poll a -> pending; f0 poll_away b -> pending; a calm; a woken -> false; b woken -> false; permit -> ok 1; a woken -> false; b woken
f0 poll_away a -> ok controlled
";

/// At a lock that has an owner: each is held back, and the lock goes from one to the next; or all share it, or are told that it is poisoned.
pub(crate) const TURNS: &str = "\
each 1 24
lock N
- try_lock; crowd N lock_with; pause; crowd N ended -> 0; crowd N joined -> N; is_locked; in_turn N release_lock -> N; is_locked; release_lock; is_free
- try_lock; crowd N share_with; pause; crowd N ended -> 0; crowd N joined -> N; is_locked; release_lock; crowd N ends; is_shared; crowd N release_share; is_free
- try_lock; crowd N share_with -> false; pause; crowd N ended -> 0; crowd N joined -> N; is_locked; poison_lock; crowd N ends; is_poisoned
- try_lock; crowd N lock_with -> false; pause; crowd N ended -> 0; crowd N joined -> N; is_locked; poison_lock; crowd N ends; is_poisoned
";

/// All arrivals of a round but what completes it: the last, which waits or doesn't, a task that leaves, or, of size 0, one that joins.
pub(crate) const ARRIVALS: &str = "\
each 1 24
barrier N+1 N
- crowd N wait_with -> false; pause; crowd N ended -> 0; crowd N joined -> N; round -> 0; count -> 1; wait; crowd N ends; round -> 1; count -> N+1
- crowd N wait_with -> false; pause; crowd N ended -> 0; crowd N joined -> N; round -> 0; count -> 1; arrive; crowd N ends; round -> 1; count -> N+1
- crowd N wait_with -> false; pause; crowd N ended -> 0; crowd N joined -> N; round -> 0; count -> 1; leave_barrier; crowd N ends; round -> 1; count -> N

each 1 24
barrier 0 N
crowd N wait_with -> false; pause; crowd N ended -> 0; crowd N joined -> N; round -> 0; count -> 0; join; crowd N ends; round -> 1; count -> 1
";

/// Futures that threads poll one after another, each for a task of its own: an answer wakes the last of these alone, and any thread may take it. At both
/// forms.
pub(crate) const AWAY: &str = "\
semaphore 0 1
f0 acquire; f0 poll a -> pending; f0 poll_away b -> pending; a calm; a woken -> false; b woken -> false; release; a woken -> false; b woken; f0 poll_away a

lock 1
try_lock; f0 lock; f0 poll a -> pending; f0 poll_away b -> pending; a calm; a woken -> false; b woken -> false; release_lock; a woken -> false; b woken
f0 poll_away a; is_locked
";

/// Threads that take in every way, while pagers are dropped: all ends, never are too many inside, and in the end all is back and each place is free. With a
/// place for each none is refused; with one, whether one is refused is the schedule's.
pub(crate) const CHAOS: &str = "\
each 0 1
bounded 1000 1000 6 spins N
crowd 6 chaos 200 begins -> 200; crowd 6 ends; meetings -> 0; try 1000; room -> 6

bounded 1000 1000 1 spins 1
crowd 6 chaos_full 200 begins -> 200; crowd 6 ends; meetings -> 0; try 1000; room -> 1

each 0 1
lock 6 spins N
crowd 6 chaos 200 begins -> 200; crowd 6 ends; meetings -> 0; try_lock; room -> 6

lock 1 spins 1
crowd 6 chaos_full 200 begins -> 200; crowd 6 ends; meetings -> 0; try_lock; room -> 1
";

/// Threads that stamp their turns: a call that has joined the queue is passed by no later call.
pub(crate) const STAMPS: &str = "\
each 0 1
lock 4 spins N
crowd 4 stamped 100 begins -> 100; crowd 4 ends; passed -> 0

each 0 1
bounded 1 1 4 spins N
crowd 4 stamped 100 begins -> 100; crowd 4 ends; passed -> 0
";

/// Time that is up as the grant comes. At the threaded form.
pub(crate) const RACES: &str = "\
each 0 3 500
semaphore 1 1 1us yields N
t1 race 2000 begins -> 2000; t2 disturb begins -> 0; t1 ends; t2 ends; available -> 1
";
