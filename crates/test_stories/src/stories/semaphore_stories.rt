//! Stories of semaphores.

/// Each public call, granted and with each of its errors. Waiters are granted in the order of joining, none is passed, and an answer wakes the last task that
/// polled, and no other. No place is lost: after whatever ends a wait, as many can wait as before, and one more can't.
pub(crate) const AT_BOTH: &str = "\
# With no room a call that needn't wait works, and one that has to is full.
semaphore 10 0
bound -> 63; acquire; acquire 3; acquire_for 2ms; acquire_until 1 2ms; acquire_with release; acquire_with 1 release 1; a acquire_with release
reg 0 1 sync; poll_sync 0; available -> 0; acquire 0; acquire -> full; acquire 1 -> full; acquire 64 -> false; acquire_for 2ms -> full
acquire_until 2ms -> full; acquire_for 2 2ms -> full; acquire_until 63 2ms -> full; acquire_for 64 2ms -> false; acquire_until 64 2ms -> false
acquire_with release -> full; acquire_with 2 release 2 -> full; acquire_with 64 release 64 -> false; a acquire_with 64 release 64 -> false; f1 acquire 64
f1 poll b -> false; f1 ended; a acquire_with release -> full; a acquire_with 2 release 2 -> full; take_permit -> full; try_permit -> timed_out
permit_for 2ms -> full; permit_until 2ms forget -> full; reg 0 1 sync -> full; registered 0 -> false; reg 0 64 sync -> false; f0 acquire
f0 poll a -> full; f0 ended; f0 poll a -> pending; a woken; calls -> 0; available -> 0; room -> 0; release 10; available -> 10

# Permits give themselves back.
semaphore 1 1
- take_permit -> 0; available -> 1; try_permit -> 0; available -> 1; permit_for 2ms -> 0; available -> 1; permit_until 2ms -> 0; available -> 1
take_permit forget -> 0; available -> 0; try_permit -> timed_out; release; try_permit forget -> 0; available -> 0; release; permit_for 2ms forget -> 0
permit_for 2ms forget -> timed_out; release; permit_until 2ms forget -> 0; available -> 0; release
# The waiter has what the permit gives back.
pass_permit 0 -> 0; poll_sync 0; available -> 0
# A callback runs once it waits, and never else.
- acquire_with release; calls -> 0; acquire_with release; calls -> 1; a acquire_with release; calls -> 2; a acquire_with 63 release 63; calls -> 3

# With both permits out there is no more, and no room to wait; each gives back itself alone.
semaphore 2 0
take_permit forget -> 1; available -> 1; take_permit -> 0; available -> 1; take_permit forget -> 0; try_permit -> timed_out; take_permit -> full
available -> 0; release; try_permit -> 0; available -> 1; release; available -> 2

# A permit that is forgotten beside a waiter stays out, and a try doesn't wait.
semaphore 2 2
take_permit forget -> 1; pass_permit 0 forget -> 0; try_poll 0 -> not_ready; try_permit -> timed_out; available -> 0; release; try_poll 0; available -> 0

# No permit passes a waiter.
semaphore 2 1
reg 0 3 async; try_permit -> timed_out; take_permit -> full; available -> 2; cancel 0; try_permit -> 1; available -> 2

# Pagers.
semaphore 1 2
- try_poll 0 -> not_registered; poll_sync 0 -> not_registered; poll_async 0 -> not_registered; poll 0 a -> not_registered
poll_for 0 2ms -> not_registered; cancel 0; reg 0 64 async -> false
# At once, and given back by a cancel.
reg 0 1 async; reg 0 1 async -> false; available -> 0; registered 0; poll_sync 0 -> wrong_mode; poll_until 0 2ms -> wrong_mode; cancel 0
registered 0 -> false; available -> 1; reg 0 1 sync; poll_async 0 -> wrong_mode; poll 0 a -> wrong_mode; poll_for 0 2ms; registered 0 -> false
available -> 0
# In the queue.
reg 0 1 sync; reg 0 1 sync -> false; try_poll 0 -> not_ready; poll_async 0 -> wrong_mode; poll 0 a -> wrong_mode; poll_for 0 2ms -> timed_out
poll_until 0 2ms -> timed_out; registered 0; reg 1 1 async; poll_sync 1 -> wrong_mode; poll_for 1 2ms -> wrong_mode; poll_async 1 -> not_ready
poll 1 b -> pending; release 64 -> false; release; poll_until 0 2ms; b woken -> false; release; b woken; poll_sync 1 -> wrong_mode; poll 1 b
registered 1 -> false; room -> 2
# A task is not woken by what others were granted; answered at once it keeps no waker.
- f0 acquire; f0 poll a; a woken -> false; release; a woken -> false; try; f0 acquire; f0 poll a -> pending; release 64 -> false
acquire_for 2ms -> timed_out; a woken -> false; f0 drop; a calm; release; a woken -> false; available -> 1

# What a pager was granted and didn't take is given back.
semaphore 3 1
- reg 0 3 sync; available -> 0; drop 0; available -> 3; reg 0 2 async; drop_away 0; available -> 3; try 2; reg 0 2 sync; release; available -> 0
cancel 0; available -> 2; room -> 1
# Futures.
- f0 acquire; f0 ended -> false; available -> 3; f0 poll a; f0 ended; available -> 2; f0 drop; available -> 2; f0 acquire 64; f0 poll a -> false
f0 ended; f0 acquire 63; f0 poll a -> pending; f0 ended -> false; a woken -> false; release 61; a woken; f0 poll a; f0 ended; f0 poll a -> pending
a woken; a acquire_with release; calls -> 1; a acquire_with 5 release 5; calls -> 2; acquire_with release; acquire_with 60 release 60
acquire_with 0 release 0; calls -> 4; available -> 0; room -> 1

# The last task that polled is woken.
semaphore 0 1
- f0 acquire; f0 poll a -> pending; f0 poll b -> pending; a calm; b woken -> false; release; a woken -> false; b woken; f0 poll a
# A pager's too, which one future after another polls.
reg 0 1 async; poll 0 a -> pending; poll 0 b -> pending; poll 0 b -> pending; poll 0 c -> pending; a calm; b calm; release; a woken -> false
b woken -> false; c woken; poll 0 a; available -> 0
# The same task again.
f1 acquire; f1 poll c -> pending; f1 poll c -> pending; f1 poll c -> pending; c woken -> false; release; c woken; f1 poll c; available -> 0
# Timed calls that are late.
- room -> 1; acquire_for 2ms -> timed_out; room -> 1; acquire_until 2ms -> timed_out; room -> 1; acquire_for 3 2ms -> timed_out; room -> 1
acquire_until 3 2ms -> timed_out; room -> 1; permit_for 2ms -> timed_out; room -> 1; permit_until 2ms forget -> timed_out; room -> 1; acquire_for 0 2ms
available -> 0; room -> 1
# Calls that are granted once they wait.
- t1 acquire_for 3 50s; release 3; t1 ends; room -> 1; t1 acquire_until 1 50s; release 1; t1 ends; room -> 1; t1 acquire 2; release 2; t1 ends
room -> 1; acquire_with release
room -> 1; acquire_with 2 release 2; room -> 1; a acquire_with release; room -> 1; a acquire_with 4 release 4; room -> 1; calls -> 4; available -> 0
# Calls that are full.
- reg 0 1 sync; room -> 0; acquire -> full; acquire 2 -> full; acquire_for 2ms -> full; acquire_until 1 2ms -> full; acquire_with release -> full
acquire_with 0 release 0 -> full; a acquire_with release -> full; a acquire_with 1 release 1 -> full; reg 1 1 async -> full; reg 1 1 sync -> full
f0 acquire; f0 poll a -> full; f0 drop; f1 acquire 64; f1 poll a -> false; acquire 64 -> false; take_permit -> full; calls -> 0; room -> 0
try_poll 0 -> not_ready; release; try_poll 0; available -> 0; room -> 1
# Above the bound, where it joins nothing.
acquire 64 -> false; acquire_for 64 2ms -> false; reg 0 64 sync -> false; f0 acquire 64; f0 poll a -> false; room -> 1
# Pagers.
- reg 0 1 sync; reg 1 1 sync -> full; cancel 0; room -> 1; reg 0 1 async; poll 0 a -> pending; drop 0; room -> 1; reg 0 1 sync; drop_away 0; room -> 1
# The place is its own until it takes its answer, or is cancelled.
reg 0 1 sync; poll_for 0 2ms -> timed_out; poll_until 0 2ms -> timed_out; room -> 0; release; room -> 0; poll_async 0 -> wrong_mode; room -> 0
poll_for 0 2ms; room -> 1; reg 0 1 sync; release; cancel 0; available -> 1; room -> 1; try; reg 0 1 async; release; drop_away 0; available -> 1
room -> 1; try; reg 0 1 async; poll_async 0 -> not_ready; release; poll_async 0; room -> 1; reg 0 1 async; poll 0 a -> pending; poll 0 b -> pending
release; poll 0 c; room -> 1; reg 0 1 sync; release; poll_sync 0; room -> 1
# Futures, of which one that no task has polled has no place.
- f0 acquire; f1 acquire; room -> 1; f0 drop; room -> 1; f1 poll a -> pending; room -> 0; f1 poll b -> pending; room -> 0; f1 drop; room -> 1
# Granted, and dropped before it is polled.
f0 acquire; f0 poll a -> pending; release; a woken; available -> 0; room -> 0; f0 drop; available -> 1; room -> 1; try
# Granted, and polled.
f0 acquire 2; f0 poll a -> pending; release 2; room -> 0; f0 poll a; room -> 1; f0 poll a -> pending; room -> 1; f0 drop; available -> 0; room -> 1
f0 acquire 2; f0 poll a -> pending; f0 drop; room -> 1

# Grants come in the order of joining.
semaphore 0 6
reg 1 1 sync; reg 0 1 async; f2 acquire; f2 poll c -> pending; reg 2 1 sync; release; try_poll 0 -> not_ready; try_poll 2 -> not_ready
c woken -> false; try_poll 1; release; c woken -> false; try_poll 2 -> not_ready; try_poll 0; release; c woken; try_poll 2 -> not_ready; f2 poll c
release; poll_sync 2; available -> 0

# No later call passes a waiter.
semaphore 0 4
- try 0; reg 0 3 sync; try 0 -> false; release 2; available -> 2; is_open; try 0 -> false; try -> false; try 1 -> false; try_permit -> timed_out
acquire_for 2ms -> timed_out; acquire_for 0 2ms -> timed_out; reg 1 1 sync; f0 acquire 0; f0 poll a -> pending; try_poll 1 -> not_ready
try_poll 0 -> not_ready; available -> 2; release; try_poll 0; try_poll 1 -> not_ready; a woken -> false; available -> 0; release
# Those for no permits come in turn too.
a woken; try_poll 1; f0 poll a; try 0
# A waiter that cancels lets those behind it be granted.
- reg 0 3 sync; reg 1 1 sync; f0 acquire; f0 poll a -> pending; reg 2 1 sync; release 2; try_poll 1 -> not_ready; cancel 0; a woken; try_poll 1
try_poll 2 -> not_ready; f0 poll a; available -> 0; drop 2
# A future ahead, which is dropped.
f1 acquire 9; f1 poll b -> pending; reg 0 2 sync; release 2; try_poll 0 -> not_ready; f1 drop; try_poll 0; available -> 0
# Of a grant that isn't taken, too.
reg 0 2 sync; reg 1 1 sync; release 2; try_poll 1 -> not_ready; drop_away 0; try_poll 1; available -> 1; try
# A timed call ahead, whose time is up.
t1 acquire_for 63 50ms -> timed_out; reg 0 1 sync; release; t1 ends; try_poll 0; available -> 0; room -> 4
# Room for four.
- room -> 4; reg 0 1 sync; reg 1 2 async; reg 2 1 sync; room -> 1; drop_away 1; room -> 2; drop_away 0; cancel 2; room -> 4
acquire_for 2 2ms -> timed_out; acquire_with release; room -> 4

# Futures that are dropped leave the queue.
semaphore 0 3
- f0 acquire; f1 acquire; f2 acquire; f0 poll a -> pending; f1 poll b -> pending; f2 poll c -> pending; f1 drop; b calm; release 2; a woken
b woken -> false; c woken; f2 poll c; f0 poll a; available -> 0; room -> 3
# One answer wakes one task once.
- f0 acquire 2; f1 acquire; f0 poll a -> pending; f1 poll b -> pending; a woken -> false; b woken -> false; release; a woken -> false; b woken -> false
release; a woken; b woken -> false; a calm; release; a woken -> false; b woken; f0 poll a; f1 poll b; release; a woken -> false; b woken -> false
available -> 1

# Calls that are granted at once.
semaphore 63 1
acquire; acquire 3; acquire_for 2ms; acquire_with release; take_permit -> 56; f0 acquire; f0 poll a; reg 0 1 sync; cancel 0; reg 0 1 sync
poll_until 0 2ms; reg 0 1 async; drop 0; a acquire_with release; calls -> 0; room -> 1

# Room for two.
semaphore 0 2
room -> 2; reg 0 1 sync; room -> 1; acquire_for 2ms -> timed_out; room -> 1; f0 acquire; f0 poll a -> pending; room -> 0; acquire_for 2ms -> full
reg 1 1 async -> full; release 2; room -> 0; f0 drop; room -> 1; drop 0; available -> 2; room -> 2; try 2; f0 acquire 2; f0 poll a -> pending
acquire_for 2ms -> timed_out; release; acquire_for 2ms -> timed_out; available -> 1; release; f0 poll a; room -> 2

# Of a thousand permits: one more is refused at once.
bounded 1000 1000 2
bound -> 1000; f0 acquire 300; acquire 1001 -> false; available -> 1000; try 1001 -> false; try 1000; reg 0 300 sync; f0 poll a -> pending; release 299
available -> 299; try_poll 0 -> not_ready; release 1; available -> 0; try_poll 0; release 299; f0 poll a -> pending; release 1; available -> 0; f0 poll a
release 1001 -> false; release 1000; available -> 1000; acquire 300; available -> 700

# Of the most: it begins with more than there are.
bounded 65535 70000 2
bound -> 65535; f0 acquire 65535; acquire 65536 -> false; available -> 65535; try 65535; release 65536 -> false; release 65535; f0 poll a; available -> 0

# Of one: both ask for it.
bounded 1 1 2
bound -> 1; f0 acquire 1; acquire 2 -> false; available -> 1; try 1; f0 poll a -> pending; reg 0 1 sync; release 1; f0 poll a; try_poll 0 -> not_ready
release 1; try_poll 0
";

/// A shut tells all that wait, in every way of waiting, and each later call.
pub(crate) const SHUT: &str = "\
# A call that sleeps for one permit, by each way: none is there.
semaphore 0 1
- is_shut -> false; t1 acquire -> closed; shut; t1 ends; is_shut; acquire -> closed; shut -> false; release 60; available -> 60
- t1 acquire_with -> closed; shut; t1 ends; acquire_with release -> closed; calls -> 0; release 60; available -> 60
- t1 acquire_for 1h -> closed; shut; t1 ends; acquire_for 1h -> closed; release 60; available -> 60
- t1 acquire_until 1h -> closed; shut; t1 ends; acquire_until 1h -> closed; release 60; available -> 60
- t1 take_permit -> closed; shut; t1 ends; take_permit -> closed; try_permit -> timed_out; release 60; available -> 60
- t1 permit_for 1h -> closed; shut; t1 ends; permit_for 1h -> closed; release 60; available -> 60
- t1 permit_until 1h -> closed; shut; t1 ends; permit_until 1h -> closed; release 60; available -> 60
- t1 reg 0 1 sync; t1 poll_sync 0 -> closed; shut; t1 ends; reg 1 1 sync; poll_sync 1 -> closed; release 60; available -> 60
- t1 reg 0 1 sync; t1 poll_for 0 1h -> closed; shut; t1 ends; reg 1 1 sync; poll_until 1 1h -> closed; release 60; available -> 60
# Futures, polled before the shut and after it; and a callback that shuts.
- f0 acquire; f0 poll a -> pending; shut; a woken; f0 poll a -> closed; f0 ended; f1 acquire; f1 poll a -> closed; f2 acquire 2; f2 poll b -> closed
f2 acquire 64; f2 poll b -> false
- acquire_with shut -> closed; calls -> 1; a acquire_with release -> closed; calls -> 1

# A call that sleeps for two, of which one is there.
semaphore 1 1
- t1 acquire 2 -> closed; shut; t1 ends; acquire 2 -> closed; acquire 64 -> false; release 60; available -> 61
- t1 acquire_with 2 -> closed; shut; t1 ends; acquire_with 2 release 2 -> closed; calls -> 0; release 60; available -> 61
- t1 acquire_for 2 1h -> closed; shut; t1 ends; acquire_for 2 1h -> closed; release 60; available -> 61
- t1 acquire_until 2 1h -> closed; shut; t1 ends; acquire_until 2 1h -> closed; release 60; available -> 61

# Two sleep.
semaphore 0 2
t1 acquire -> closed; t2 acquire 2 -> closed; shut; t1 ends; t2 ends

# A crowd.
semaphore 0 24
crowd 24 acquire -> closed; shut; crowd 24 ends; is_shut; available -> 0

# Two pagers that wait.
semaphore 3 2
reg 0 4 sync; reg 1 1 sync; try_poll 0 -> not_ready; try_poll 1 -> not_ready; is_shut -> false; shut; try_poll 0 -> closed; try_poll 1 -> closed
try -> false; is_shut

# A shut needs no place: with none, each later call is told of it, and not that the room is full.
semaphore 0 0
acquire -> full; acquire 2 -> full; shut; acquire -> closed; acquire 2 -> closed

# An answer of the shut that isn't taken gives nothing back; a grant before it does.
semaphore 2 2
reg 0 2 sync; reg 1 1 sync; shut; drop 1; available -> 0; drop 0; available -> 2; try -> false; reg 2 1 sync; cancel 2; available -> 2
";

/// Calls with receipts, at the lock-free form alone.
pub(crate) const WITH_RECEIPTS: &str = "\
semaphore 63 1
release_witnessed 2 -> false; try_witnessed 62; try_witnessed 2 -> false; available_witnessed -> 1; acquire_witnessed 1 -> 0
acquire_witnessed 64 -> false; reg 0 1 sync; try_witnessed 0 -> false; acquire_witnessed 1 -> full; release_witnessed 60; poll_sync 0
available_witnessed -> 59; room -> 1
";
