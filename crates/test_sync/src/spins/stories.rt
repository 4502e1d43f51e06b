//! Stories of spins. The spin hints of 9 looks are 8, twice as many each further time, and 1,024 at most: 3,064.

/// In each line a form, what its holder calls, and the calls of which a story below is told: those that look before they register, timed calls, which don't,
/// and calls whose waiters spin.
pub(crate) const THAT_LOOK: &str = "\
semaphore few_none; acquire 63 holds; acquire; acquire 63; acquire_with; acquire_with 63; acquire_permit
lock few_none; lock holds; lock; share; lock_with; share_with
mutex few_none; lock holds; lock
rwlock few_none; write holds; read; write";

pub(crate) const TIMED: &str = "\
semaphore few_none; acquire 63 holds; acquire_for
lock few_none; lock holds; lock_for; lock_until
mutex few_none; lock holds; lock_for
rwlock few_none; write holds; read_for";

pub(crate) const THAT_WAIT: &str = "\
semaphore none_few; acquire 63 holds; acquire; acquire 63; acquire_with; acquire_with 63; acquire_permit; acquire_for
lock none_few; lock holds; lock; share; lock_with; share_with; lock_for; lock_until
mutex none_few; lock holds; lock; lock_for
rwlock none_few; write holds; read; write; read_for";

/// A call that is granted at once takes one turn at the mutex, and its end another. Beside a holder it tries before its first look and at it; then the hint says
/// that it is in vain. It registers, and polls before it parks. The hint that the first call leaves is of no use to the second.
pub(crate) const LOOKS: &str = "\
t1 call; t1 ends; looked -> 0; turns -> 2
t2 holder; t1 call; until 13 looked; until 1 parked; looked -> 13; spins -> 3064; yields -> 4; waited -> 0; turns -> 7; t2 goes; t1 ends; t2 ends
t2 holder; t1 call; until 26 looked; until 1 parked; looked -> 26; spins -> 6128; yields -> 8; waited -> 0; turns -> 14; t2 goes; t1 ends; t2 ends
lookers -> 0; turns -> 16
";

/// A timed call registers at once.
pub(crate) const JOINS: &str = "\
t1 call; t1 ends; looked -> 0; turns -> 2
t2 holder; t1 call; until 1 parked; looked -> 0; waited -> 0; turns -> 5; t2 goes; t1 ends; t2 ends; turns -> 7
";

/// A waiter looks and spins 9 times, and looks and yields 4 times, before it parks.
pub(crate) const WAITS: &str = "\
t1 call; t1 ends; waited -> 0; turns -> 2
t2 holder; t1 call; until 1 parked; waited -> 13; waited_spins -> 9; waited_yields -> 4; turns -> 5; t2 goes; t1 ends; t2 ends
t2 holder; t1 call; until 1 parked; waited -> 26; waited_spins -> 18; waited_yields -> 8; turns -> 10; t2 goes; t1 ends; t2 ends
looked -> 0; spins -> 0; yields -> 0
";

/// Stories of single calls.
pub(crate) const STORIES: &str = "\
# A pager spins and parks as calls do, and not if it needn't wait.
lock none_few
page; page_for; waited -> 0; t2 lock holds; t1 page; until 1 parked; waited -> 13; waited_spins -> 9; waited_yields -> 4; t2 goes; t1 ends; t2 ends
t2 lock holds; t1 page_for; until 1 parked; waited -> 26; waited_spins -> 18; waited_yields -> 8; t2 goes; t1 ends; t2 ends

# The same at a gate and at a barrier, where no call looks.
gate none_few
t1 enter; until 1 parked; waited -> 13; waited_spins -> 9; waited_yields -> 4; turns -> 2; permit; t1 ends
t1 enter; until 1 parked; looked -> 0; waited -> 26; turns -> 5; permit; t1 ends

barrier none_few
t1 wait; until 1 parked; waited -> 13; waited_spins -> 9; waited_yields -> 4; turns -> 2; wait_last; t1 ends
t1 wait; until 1 parked; looked -> 0; waited -> 26; turns -> 5; wait_last; t1 ends

# Calls of no time don't spin: each joins and leaves, a pager in a turn each to register, to poll and to leave, and a future in one to be polled.
lock none_looks
take; turns -> 1; lock_for 0ns -> false; turns -> 3; lock_until 0ns -> false; turns -> 5; page_for 0ns -> false; turns -> 8
drop_future; turns -> 10; waited -> 0

# Spin hints come first: who is granted before they are over hasn't yielded, nor parked.
lock looks_none
take; t1 lock; until 1 lookers; stays 0 parked; release_lock; t1 ends; yields -> 0; waited -> 0

lock none_looks
take; t1 lock; until 2 turns; stays 0 parked; release_lock; t1 ends; waited_yields -> 0
take; t1 lock_for; until 7 turns; stays 0 parked; release_lock; t1 ends; waited_yields -> 0; yields -> 0

# Steps that needn't wait, and ends, take one turn each, and so do tries in vain, which don't look.
lock few_none
try_lock; turns -> 2; try_share; turns -> 4; lower; turns -> 7; take; try_lock -> false; turns -> 9; try_share -> false; turns -> 10; release_lock
turns -> 11; looked -> 0

semaphore few_none
try; turns -> 2; try 3; turns -> 4; try_permit; turns -> 6; t2 acquire 63 holds; turns -> 7; try -> false; turns -> 8; try 2 -> false; turns -> 9
try_permit -> false; turns -> 10; looked -> 0; t2 goes; t2 ends; turns -> 11

mutex few_none
try_lock; turns -> 2; t2 lock holds; try_lock -> false; turns -> 4; looked -> 0; t2 goes; t2 ends; turns -> 5

rwlock few_none
try_write; turns -> 2; try_read; turns -> 4; lower_write; turns -> 7; t2 write holds; try_read -> false; turns -> 9; try_write -> false; turns -> 10
looked -> 0; t2 goes; t2 ends; turns -> 11

# A call that looks doesn't wait for the mutex: neither the first, which is due to try, nor one that another's hint lets try.
lock few_none
t1 look until_looked -> timed_out; t1 ends; looked -> 13; spins -> 3064; yields -> 4; turns -> 1

lock few_none
t1 look_beside until_looked -> timed_out; t1 ends; looked -> 13; spins -> 3064; yields -> 4; turns -> 1

# The first to look tries until it has had the mutex once: the hint that it finds says that the lock is held, which it isn't any more.
lock yields_none
look -> 0; release_lock; t1 look until_looker -> 0; t1 ends; lookers -> 0

# A call that finds the mutex taken rests and tries ten times before it blocks there; the spin hints double up to 1,024.
lock none_none
try_lock; lock; lock_for; page; blocked -> 0; met -> 0; t1 try_lock until_blocked; t1 ends; blocked -> 10; blocked_spins -> 4088; blocked_yields -> 0
met -> 0

lock none_none
t1 lock until_blocked; t1 ends; blocked -> 10; blocked_spins -> 4088; blocked_yields -> 0; met -> 0

lock none_none
t1 lock_for until_blocked; t1 ends; blocked -> 10; blocked_spins -> 4088; blocked_yields -> 0; met -> 0

lock none_none
t1 page until_blocked; t1 ends; blocked -> 10; blocked_spins -> 4088; blocked_yields -> 0; met -> 0

# It mostly has it at one of its tries.
lock none_none
t1 meets; t2 meets; t1 ends; t2 ends

# A sleeper is woken while others look. The second that looks has the hint of the first, and takes no turn at the mutex.
lock yields_none
take; crowd page; until 1 parked; until 4 turns; t1 lock; until 1 lookers; until 6 turns; t2 lock; until 2 lookers; stays 6 turns; release_lock
t1 ends; t2 ends; crowd ends; lookers -> 0

# A call that looks for ever sees what lets it in: a downgrade, poison, a pager that is cancelled ahead of it, and a future that is dropped.
lock yields_none
take; t1 share; until 3 turns; downgrade; t1 ends; release_share; take; t1 share -> false; until 10 turns; poison_lock; t1 ends

lock yields_none
take; downgrade; t2 leave holds; t1 share; until 5 turns; t2 goes; t1 ends; t2 ends
t2 drop_future holds; t1 share; until 11 turns; t2 goes; t1 ends; t2 ends; lookers -> 0; release_share

# Grants come in the order of registrations: first a call that joins at once, and one whose looks are over.
lock none_none
take; t1 lock keeps; until 1 parked; t2 page; until 2 parked; release_lock; stays 1 parked; t1 goes; t1 ends; t2 ends

lock few_none
take; t1 lock keeps; until 1 parked; t2 page; until 2 parked; release_lock; stays 1 parked; t1 goes; t1 ends; t2 ends

# A waiter that has registered is granted before all that look.
lock yields_none
take; t1 lock; t2 lock; until 2 lookers; crowd page keeps; until 1 parked; release_lock; stays 2 lookers; crowd goes; t1 ends; t2 ends; crowd ends; lookers -> 0

# No wake is lost as calls give up looking and register, each of which sleeps at once.
lock some_none
t1 often 4000 lock -> 4000; t2 often 4000 lock -> 4000; crowd often 4000 lock -> 4000; t1 ends; t2 ends; crowd ends; lookers -> 0; parked -> 0

# Nor between a poll and the sleep after it.
semaphore none_none
t1 often 3000 acquire 63 -> 3000; t2 often 3000 acquire 63 -> 3000; crowd often 3000 acquire 63 -> 3000; t1 ends; t2 ends; crowd ends; try 63

# Nor between the look of a task's poll for its answer and the keeping of its waker, which it makes in one turn.
semaphore none_none
t2 acquire 63 holds; t1 page_async 63; until 3 turns; stays 3 turns; t2 goes; t1 ends; t2 ends; turns -> 6
t1 often 2000 page_async 63 -> 2000; t2 often 2000 page_async 63 -> 2000; crowd often 2000 page_async 63 -> 2000; t1 ends; t2 ends; crowd ends; try 63
";
