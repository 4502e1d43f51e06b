//! Worked rows, which are played at the cores and at each form.

/// Of semaphores.
pub const SEMAPHORES: &str = "\
# A release grants the oldest waiters while they fit.
semaphore 63 4
try 60; reg 0 5 sync; reg 1 1 sync; try -> false; release; available -> 4; release; available -> 0; poll_sync 0; try_poll 1 -> not_ready; release 5
poll_sync 1; available -> 4

# A waiter that cancels lets the next one be granted.
semaphore 63 4
try 63; reg 0 11 sync; reg 1 9 sync; release 9; available -> 9; drop 0; poll_sync 1; available -> 0

# An answer that isn't taken holds its place.
semaphore 63 1
try 63; reg 0 1 sync; reg 1 1 sync -> full; release; reg 1 1 sync -> full; poll_sync 0; reg 1 1 sync

# No room, and no permit asked for.
semaphore 63 0
try 63; acquire 1 -> full; reg 0 0 sync; poll_sync 0

# A call for 0 permits is queued behind a waiter.
semaphore 63 4
try 63; reg 0 1 sync; try 0 -> false; reg 1 0 sync; release 0; try_poll 1 -> not_ready; release; poll_sync 0; poll_sync 1; available -> 0

# More permits than there are.
semaphore 100 4
available -> 63; try 64 -> false; reg 0 64 sync -> false; release 64 -> false; release 256 -> false; available -> 63

# All permits are out from the start.
semaphore 0 4
release; available -> 1; try; release 63; release -> false

# Sixty-two and one.
semaphore 63 4
acquire 62; try; try -> false; release; release 63 -> false; release 62; available -> 63

# A grant made at once goes back.
semaphore 63 4
try 60; reg 0 3 sync; available -> 0; drop 0; available -> 3
";

/// Of semaphores that are shut.
pub const SHUTS: &str = "\
# A shut answers all that wait, and each that comes later; permits that are out come back.
semaphore 63 2
try 62; reg 0 2 sync; reg 1 1 async; is_shut -> false; shut; is_shut; poll_sync 0 -> closed; registered 0 -> false; poll_async 1 -> closed
available -> 1; try -> false; reg 0 1 sync; poll_sync 0 -> closed; reg 0 64 sync -> false; release 62; release -> false; shut -> false

# A grant before a shut is a grant: one is taken, and one is dropped, which gives its permit back.
semaphore 63 2
try 63; reg 0 1 sync; reg 1 1 sync; release 2; shut; poll_sync 0; available -> 0; cancel 1; available -> 1; is_open
";

/// Of locks.
pub const LOCKS: &str = "\
# Readers and a writer pass in order, and poison ends all.
lock 4
try_lock; reg 0 shared async; reg 1 wait_exclusive async; reg 2 exclusive async; release_lock; try_poll 0; try_poll 1 -> not_ready
try_poll 2 -> not_ready; release_share; try_poll 1; try_poll 2; reg 1 wait_shared async; try_poll 1 -> not_ready; poison_lock; try_poll 1 -> false

# Sixty-two share and no more.
lock 4
try_shares 62 -> 62; try_share -> would_block; reg 0 wait_shared sync; release_share; poll_sync 0; try_share

# A poisoned answer gives nothing back.
lock 4
try_lock; reg 0 exclusive sync; poison_lock; clear_poison; try_lock; drop 0; is_locked

# A writer that leaves lets the reader behind it in.
lock 4
try_share; reg 0 exclusive sync; reg 1 shared sync; drop 0; try_poll 1; release_share; release_share; release_share -> false

# A dropped grant passes the lock on.
lock 4
try_lock; reg 0 exclusive sync; reg 1 exclusive sync; release_lock; drop 0; try_poll 1; is_locked

# A grant that is dropped at a poisoned lock gives nothing back.
lock 4
reg 0 exclusive sync; poison_lock; drop 0; is_poisoned

# A lock is taken, refused and poisoned.
lock 4
try_lock; try_lock -> would_block; try_share -> would_block; release_share -> false; release_lock; lock; poison_lock; lock -> false; clear_poison
";

/// Of gates.
pub const GATES: &str = "\
# A gate is sealed and reset.
gate 4
seal -> controlled 0; reset -> sealed; state -> controlled; reset -> none

# A pager that is cancelled answers the others.
gate 4
reg 0 sync; reg 1 sync; drop 0; try_poll 1 -> spurious; permit -> ok 0; open -> controlled 0; permit -> err open

# A pager is polled in its mode.
gate 4
try_poll 0 -> not_registered; reg 0 sync; open -> controlled 1; poll_async 0 -> wrong_mode; registered 0; poll_sync 0 -> ok open
poll_sync 0 -> not_registered

# An open gate needs no room.
gate 0
reg 0 sync -> full; open -> controlled 0; reg 0 sync; try_poll 0 -> ok open

# A sealed gate refuses all, and an open one lets all pass.
gate 4
seal -> controlled 0; enter -> sealed; open -> sealed 0; enter -> ok open
";

/// Of barriers.
pub const BARRIERS: &str = "\
# An arrival that is dropped is taken back.
barrier 3 4
reg 0 sync; reg 1 sync; count -> 1; drop 0; count -> 2; reg 2 sync; try_poll 2 -> not_ready; reg 3 sync; try_poll 3; try_poll 1 -> false
try_poll 2 -> false; count -> 3

# The only task of a round is its leader, and needs no room.
barrier 1 0
reg 0 sync; poll_sync 0; count -> 1

# The last arrival needs no room.
barrier 2 1
reg 0 sync; reg 1 sync; reg 2 sync -> full; poll_sync 0 -> false; poll_sync 1; reg 2 sync; count -> 1

# An arrival that doesn't wait counts, and has no leader where it completes a round.
barrier 3 4
arrive -> false; count -> 2; reg 0 sync; round -> 0; arrive; round -> 1; poll_sync 0 -> false; arrive -> false; arrive -> false; reg 1 sync
poll_sync 1; round -> 2; count -> 3

# It isn't cancelled with one that waits.
barrier 3 4
arrive -> false; reg 0 sync; count -> 1; drop 0; count -> 2; leave_barrier -> false; count -> 1; leave_barrier; round -> 1; count -> 1

# A task joins while one waits; as it leaves, both that wait pass.
barrier 2 4
reg 0 sync; join; count -> 2; reg 1 sync; try_poll 0 -> not_ready; leave_barrier; poll_sync 0 -> false; poll_sync 1 -> false; round -> 1; count -> 2

# All tasks leave, and nobody passes until one joins.
barrier 1 2
leave_barrier -> false; leave_barrier -> false; count -> 0; arrive -> false; reg 0 sync; reg 1 sync; try_poll 0 -> not_ready; count -> 0; round -> 0
join; poll_sync 0 -> false; poll_sync 1 -> false; round -> 1; count -> 1; arrive; round -> 2

# It has sixty-three tasks at most.
barrier 62 0
join; join -> false; count -> 63; leave_barrier -> false; count -> 62
";
