//! Stories of locks.

/// Each public call, granted and with each of its errors. Owners and sharers come in the order of joining, and an answer wakes the last task that polled, and
/// no other. No place is lost: poison ends waits too.
pub(crate) const AT_BOTH: &str = "\
# A lock that is poisoned answers all at once.
lock 0
- try_lock; poison_lock; is_poisoned; is_free -> false; is_locked -> false; is_shared -> false; try_lock -> poisoned; try_share -> poisoned
release_lock -> false; poison_lock -> false; lock -> false; share -> false; lock_for 2ms -> false
lock_until 2ms -> false; share_for 2ms -> false; share_until 2ms -> false; lock_with release_lock -> false; share_with release_lock -> false
a lock_with release_lock -> false; a share_with release_lock -> false; calls -> 0; f0 lock; f0 poll a -> false; f0 share; f0 poll a -> false; f0 ended
reg 0 exclusive sync; poll_async 0 -> wrong_mode; poll_sync 0 -> false; reg 0 shared async; poll 0 a -> false; registered 0 -> false
reg 0 exclusive sync; cancel 0; is_poisoned; clear_poison; clear_poison -> false; is_free; try_lock
# With no room a call that needn't wait works, and one that has to is full.
- lock; release_lock; lock_for 2ms; release_lock; lock_until 2ms; release_lock; share; share_for 2ms; share_until 2ms; share_with poison_lock
a share_with poison_lock; f0 share; f0 poll a; lock -> full; lock_for 2ms -> full; lock_until 2ms -> full
lock_with release_share -> full; a lock_with release_share -> full; f0 lock; f0 poll a -> full; f0 ended; f0 poll a -> pending
reg 0 exclusive sync -> full; registered 0 -> false; calls -> 0; try_shares 70 -> 56; share -> full; share_for 2ms -> full; room -> 0

# Calls that wait.
lock 1
- lock; lock_for 2ms -> timed_out; lock_until 2ms -> timed_out; share_for 2ms -> timed_out; share_until 2ms -> timed_out; is_locked
lock_with release_lock; is_locked; share_with downgrade; release_share; release_share; is_free; try_lock; a lock_with release_lock
a share_with release_lock; lock_with release_share; calls -> 5; t1 lock; release_lock; t1 ends; t1 lock_for 50s; release_lock; t1 ends; t1 share_for 50s
release_lock; t1 ends; t1 lock_for 50s; release_share; t1 ends; t1 share; downgrade; t1 ends; release_share; is_shared; release_share; is_free; room -> 1
try_lock; reg 0 exclusive sync; lock_with release_lock -> full; a share_with release_lock -> full; cancel 0; room -> 1
# Poison is told to calls that wait.
- try_lock; lock_with poison_lock -> false; calls -> 1; clear_poison; try_lock; a share_with poison_lock -> false; calls -> 2; clear_poison; try_lock
t1 lock_for 50s -> false; poison_lock; t1 ends; clear_poison; try_lock; t1 share -> false; poison_lock; t1 ends; is_poisoned; clear_poison; room -> 1
is_free
# Poison is an answer.
- try_lock; lock_with poison_lock -> false; clear_poison; room -> 1; try_lock; a lock_with poison_lock -> false; clear_poison; room -> 1; try_lock
t1 share_for 50s -> false; poison_lock; t1 ends; clear_poison; room -> 1; try_lock; reg 0 shared sync; poison_lock; clear_poison; room -> 0
poll_sync 0 -> false; room -> 1; try_lock; reg 0 exclusive async; poison_lock; cancel 0; clear_poison; room -> 1; try_lock; f0 share
f0 poll a -> pending; poison_lock; a woken; f0 drop; clear_poison; is_free; room -> 1
# What is answered at once has no place.
try_lock; poison_lock; reg 0 exclusive sync; reg 1 shared sync; clear_poison; room -> 1
# It has nothing to give back: the lock is another's by then.
try_lock; drop 0; is_locked; release_lock; poll_sync 1 -> false; room -> 1; is_free

# Pagers.
lock 2
- try_poll 0 -> not_registered; poll_until 0 2ms -> not_registered; reg 0 shared sync; reg 0 shared sync -> false; is_shared; drop 0; is_free
reg 0 exclusive async; poll_for 0 2ms -> wrong_mode; drop_away 0; is_free; reg 0 exclusive async; poll_async 0; is_locked; reg 0 shared sync
reg 1 exclusive async; reg 2 shared async -> full; try_poll 0 -> not_ready; poll_for 0 2ms -> timed_out; poll_until 0 2ms -> timed_out
poll 1 a -> pending; downgrade; a woken -> false; poll_until 0 2ms; release_share; a woken -> false; release_share; a woken
# What it was granted and didn't take is given back.
is_locked; cancel 1; is_free; room -> 2
# Wait modes take nothing.
- reg 0 wait_exclusive sync; poll_sync 0; is_free; reg 0 wait_shared async; cancel 0; try_lock; reg 0 wait_exclusive async; reg 1 wait_shared sync
poll 0 a -> pending; try_poll 1 -> not_ready; downgrade; a woken -> false; try_poll 1 -> not_ready; release_share; a woken; poll 0 a; poll_sync 1
is_free; try_lock; reg 0 wait_exclusive sync; poison_lock; poll_sync 0 -> false; clear_poison; room -> 2; f0 lock; f0 drop; is_free
# The last task that polled is woken.
- try_lock; f0 lock; f0 poll a -> pending; f1 share; f1 poll c -> pending; f0 poll b -> pending; a calm; release_lock; a woken -> false; b woken
c woken -> false; b calm; f0 poll a; release_lock; b woken -> false; c woken; f0 drop; f1 poll b; is_shared; room -> 2
# Pagers and futures.
- try_lock; reg 0 exclusive sync; reg 1 shared async; room -> 0; drop_away 0; room -> 1; drop 1; room -> 2; reg 0 exclusive sync
poll_until 0 2ms -> timed_out; release_lock; room -> 1; drop_away 0; is_free; room -> 2; try_lock; f0 lock; f0 poll a -> pending; f1 share
f1 poll b -> pending; room -> 0; release_lock; a woken; b woken -> false
# Dropped with a grant that no poll took: it goes to the next.
f0 drop; b woken; is_shared; room -> 1; f1 drop; is_free; room -> 2

# Owners and sharers come in the order of joining.
lock 6
- try_share; reg 0 exclusive sync; try_share -> would_block; try_lock -> would_block; share_for 2ms -> timed_out; reg 1 shared sync; f0 share
f0 poll a -> pending; reg 2 exclusive async; try_poll 1 -> not_ready; release_share; is_locked; try_poll 0; try_poll 1 -> not_ready; a woken -> false
release_lock
# Both sharers, and not the owner behind.
is_shared; a woken; try_poll 1; f0 poll a; try_poll 2 -> not_ready; try_share -> would_block; release_share; try_poll 2 -> not_ready; release_share
try_poll 2; is_locked; room -> 6
# A downgrade lets in sharers, up to an owner.
- try_lock; reg 0 shared sync; f0 lock; f0 poll a -> pending; reg 1 shared sync; downgrade; try_poll 0; try_poll 1 -> not_ready; a woken -> false
# A waiter that cancels lets those behind it be granted.
f0 drop; try_poll 1; release_share; release_share; release_share; is_free
# Poison answers and wakes all.
- try_lock; reg 0 exclusive sync; reg 1 shared async; poll 1 b -> pending; reg 2 wait_exclusive sync; f0 lock; f0 poll a -> pending; b woken -> false
poison_lock; a woken; b woken; clear_poison; try_lock
# Each is told, though the lock is clear again.
poll_sync 0 -> false; poll 1 b -> false; poll_sync 2 -> false; f0 poll a -> false; is_locked
";

/// At the lock-free form alone: the threaded one has no calls with receipts, and answers a wait mode at once where it can, with no place.
pub(crate) const WITH_RECEIPTS: &str = "\
# Ends with receipts.
lock 0
release_lock_witnessed -> false; release_share_witnessed -> false; downgrade_witnessed -> false; poison_lock_witnessed -> false
try_as wait_exclusive -> would_block; try_as exclusive; try_as exclusive -> would_block; try_as shared -> would_block; release_share_witnessed -> false
release_lock_witnessed; is_free; take_witnessed exclusive -> 0; downgrade_witnessed; is_shared; release_share_witnessed; take_witnessed shared -> 0
try_as shared; release_share; release_share; try_lock; poison_lock_witnessed; is_poisoned; try_as exclusive -> poisoned; take_witnessed exclusive -> 2
take_witnessed shared -> 2

# A call in a wait mode takes a place in any case, and nothing else.
lock 1
- take_witnessed wait_shared -> 0; take_witnessed wait_exclusive -> 0; is_free; try_share; reg 0 wait_shared sync; reg 1 wait_shared sync -> full
take_witnessed wait_shared -> full; poll_sync 0; release_share; try_lock; poison_lock; take_witnessed wait_shared -> 2
take_witnessed wait_exclusive -> 2; clear_poison; room -> 1
# Wait modes.
- take_witnessed wait_exclusive -> 0; room -> 1; reg 0 wait_exclusive sync; room -> 0; poll_sync 0; room -> 1; reg 0 wait_shared async; drop 0; room -> 1
try_lock; reg 0 wait_shared async; try_poll 0 -> not_ready; take_witnessed wait_shared -> full; take_witnessed exclusive -> full; cancel 0; room -> 1
reg 0 wait_shared async; downgrade; poll_async 0; release_share; is_free; room -> 1
";
