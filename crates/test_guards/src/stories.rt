//! Stories of guards.
//!
//! A first line `locks 5 2` makes a mutex and a reader-writer lock round the number 5, each with room for two waiters; `poisoned 5 2` has both
//! poisoned. Moves are those of `test_language`, with these words. Who makes one is the story itself, a task (`a`, `b`, `c`), each of a crowd in turn, or
//! one of two threads beside it (`t1`, `t2`), whose guard goes at once.
//!
//! | Words | Mean |
//! |---|---|
//! | `lock`, `read`, `write`, with `try_` ahead, or `_for`, `_until` and a time behind | a call for a guard, which is then held: its number, `full`, or `none` |
//! | `a lock_async`, `a read_async`, `a write_async` | the task polls a new future of a guard: as above, or `pending` |
//! | `a poll`, `a woken`, `a cancel` | it polls that again; whether it was woken since; it drops the future |
//! | `shows`, `put 6`, `downgrade`, `unlock_fair`, `drop` | the guard's number, which is written; it becomes a reader's; it is given up, by the call for that or by a drop |
//! | `turns 100 lock` | so often a guard that makes the number 2 more, by 1 at a time, if it may (of `downgrade` a writer's, which then reads): how often it showed a number that it must not |
//! | `count`, `await 3`, `counted` | adds one to the count of all threads, waits until it is so many, gives way many times and says how many it is |

/// Those of one thread.
pub(crate) static ALONE: [&str; 5] = [MUTEX, RWLOCK, TASKS, ROOMS, POISONED];

/// The mutex in one thread: what its guard shows and writes, and when its calls answer that they can't.
const MUTEX: &str = "\
# What a guard wrote the next one shows, after a drop and after a fair unlock.
locks 0 4
lock -> 0; put 1; shows -> 1; a try_lock -> none; drop; try_lock -> 1; put 7; a try_lock -> none; unlock_fair; a try_lock -> 7; a drop
# Timed calls: at once, late, and again once the holder goes.
lock_for 2ms -> 7; drop; lock_until 2ms -> 7; a lock_for 2ms -> none; a lock_until 2ms -> none; drop; a lock_for 2ms -> 7; a drop; a lock_until 2ms -> 7

# With no room, while it is locked, no thread may wait for it, no try is granted, and no task may wait.
locks 5 0
lock -> 5; a lock -> full; a try_lock -> none; a lock_async -> full; a lock_for 2ms -> full; a lock_until 2ms -> full; drop
a lock_for 2ms -> 5; a drop; a lock_until 2ms -> 5
";

/// The reader-writer lock in one thread: readers share it, a writer is alone.
const RWLOCK: &str = "\
# Two guards show the value at the same time.
locks 0 4
read -> 0; a read -> 0; shows -> 0; a shows -> 0; drop; a drop
# Two get shares, and no writer is granted the lock meanwhile.
read -> 0; a try_read -> 0; b try_write -> none; drop; a drop
# Beside a writer neither a reader nor another writer is granted the lock.
write -> 0; put 1; a try_read -> none; a try_write -> none; drop; read -> 1; drop
# A writer that becomes a reader reads what it wrote.
write -> 1; put 2; downgrade; shows -> 2
# Another reader sees it too, and no writer is granted the lock meanwhile.
a try_read -> 2; a drop; b try_write -> none; drop; try_write -> 2; put 7; drop; try_read -> 7; drop
# Timed calls: at once, beside a reader, beside a writer, and once nobody has it.
write_for 2ms -> 7; drop; write_until 2ms -> 7; drop; read_until 2ms -> 7; drop; read_for 2ms -> 7
a read_for 2ms -> 7; a drop; a read_until 2ms -> 7; a drop; a write_for 2ms -> none; a write_until 2ms -> none; drop; write_for 2ms -> 7
a read_for 2ms -> none; a read_until 2ms -> none; a write_for 2ms -> none; a write_until 2ms -> none; drop
a read_until 2ms -> 7; a drop; a write_until 2ms -> 7

# With no room nobody may wait to write beside a reader, and another may read.
locks 5 0
read_for 2ms -> 5; a write -> full; a write_for 2ms -> full; a write_until 2ms -> full; a read -> 5; a drop; a read_until 2ms -> 5; drop; a drop
# Nobody may wait beside a writer.
try_write -> 5; a write -> full; a read -> full; a read_for 2ms -> full; a read_until 2ms -> full; drop; write_for 2ms -> 5; drop; write_until 2ms -> 5

# As many readers as may share: no more shares are granted, and there is no room to wait for one.
locks 9 0
crowd 62 try_read -> 9; try_read -> none; read -> full; crowd 62 shows -> 9; crowd 62 drop; try_write -> 9
";

/// Futures of guards, polled by hand: they are granted in the order in which they joined the queue, and leave it when dropped.
const TASKS: &str = "\
# A mutex is granted in the order of joining: to the oldest waiter, and to no other before that one.
locks 0 2
try_lock -> 0; a lock_async -> pending; b lock_async -> pending; c lock -> full; a woken -> false; b woken -> false; drop; a woken; b woken -> false
c try_lock -> none; b poll -> pending; a poll -> 0; a put 1; a drop; b woken; b poll -> 1; b put 2

# Behind a writer that waits no reader is granted a share beside the first.
locks 0 2
read -> 0; a write_async -> pending; c try_read -> none; b read_async -> pending; c read -> full; drop; a woken; b woken -> false; a poll -> 0; a put 1
b poll -> pending; a drop; b poll -> 1; c try_write -> none; c try_read -> 1

# A writer that becomes a reader lets readers in up to the next writer.
locks 0 3
try_write -> 0; put 1; a read_async -> pending; b write_async -> pending; c read_async -> pending; downgrade; a woken; b woken -> false; c woken -> false
a poll -> 1; shows -> 1
# The writer waits behind both readers, and is woken once both are gone.
b poll -> pending; drop; b woken -> false; a drop; b woken; c woken -> false; b poll -> 1; b drop; c woken; c poll -> 1

# A dropped writer lets the readers behind it in.
locks 4 3
try_read -> 4; a write_async -> pending; b read_async -> pending; c read_async -> pending; b woken -> false; c woken -> false; a cancel; b woken; c woken
b poll -> 4; c poll -> 4

# A grant that is dropped untaken goes to the next waiter.
locks 0 2
try_lock -> 0; a lock_async -> pending; b lock_async -> pending; c lock -> full; a woken -> false; b woken -> false; drop; a woken; b woken -> false
a cancel; b woken; b poll -> 0; b drop; c try_lock -> 0

# Futures of a full room end; a task that polls one after its end waits, and is woken to poll it again.
locks 0 0
try_write -> 0; a read_async -> full; b write_async -> full; b poll -> pending; b woken
";

/// Every room is filled to its last place and one more: each place keeps its task's waker, and the next call is told that the room is full.
const ROOMS: &str = "\
# A mutex: the oldest is woken alone.
each 0 19 31 299
locks 0 N+1
try_lock -> 0; a lock_async -> pending; a woken -> false; crowd N lock_async -> pending; crowd N woken -> false; b lock -> full; b lock_async -> full
drop; a woken; crowd N woken -> false

# A reader-writer lock, by a writer.
locks 0 1
try_write -> 0; c write_async -> pending; c woken -> false; b read -> full; b write -> full; b read_async -> full; drop; c woken

# By readers, and a writer behind them.
each 18 30 298
locks 0 N+2
try_write -> 0; a read_async -> pending; a woken -> false; crowd N read_async -> pending; crowd N woken -> false; c write_async -> pending
c woken -> false; b read -> full; b write -> full; b read_async -> full; drop; a woken; c woken -> false
";

/// Locks that are poisoned, as those below mutexes and reader-writer locks never are: a call that waits clears the poison, and a try and a future are
/// given nothing.
const POISONED: &str = "\
# A mutex is cleared, and then owned alone.
poisoned 3 1
try_lock -> none; a lock_async -> pending; a woken; a poll -> pending; a cancel; lock -> 3; a try_lock -> none; drop; a try_lock -> 3
# A reader-writer lock is, by a writer.
b try_write -> none; b write_async -> pending; b woken; b cancel; write -> 3; b try_read -> none; drop; b try_write -> 3

# Or by a reader.
poisoned 5 1
try_read -> none; a read_async -> pending; a woken; a cancel; read -> 5; a try_read -> 5; b try_write -> none; drop; a drop

# By timed calls.
poisoned 6 1
lock_for 1h -> 6; a write_until 1h -> 6; b try_lock -> none; b try_read -> none

poisoned 6 1
lock_until 1h -> 6; a read_for 1h -> 6; b try_lock -> none; b try_write -> none; b try_read -> 6

poisoned 6 1
write_for 1h -> 6; a try_read -> none; drop; read_until 1h -> 6; a try_write -> none; a try_read -> 6
";

/// Several threads: guards exclude each other, and a call that has to wait does, is granted the lock once the holder's guard goes, and sees what was
/// written. (With room for each thread: one that asks again may find its neighbour's place not given back yet.)
pub(crate) const THREADS: &str = "\
# Nothing that is added is lost.
locks 100 4
t1 turns 150 lock -> 0; t1 count; t2 turns 150 lock -> 0; t2 count; turns 150 lock -> 0; await 2; try_lock -> 1000

# No reader sees half a write.
locks 100 4
t1 turns 150 write -> 0; t1 count; t2 turns 150 read -> 0; t2 count; turns 150 write -> 0; await 2; try_write -> 700

# Nobody writes between a write and the reading after it.
locks 100 4
t1 turns 150 downgrade -> 0; t1 count; t2 turns 150 write -> 0; t2 count; turns 150 downgrade -> 0; await 2; try_write -> 1000

# Beside an owner no other call is granted the mutex. Each thread counts as it begins, and the others count again as they are let in.
each 1 2 3
locks 100 4
try_lock -> 100; count; await 3; counted -> 3; put 200; drop; await 5; try_lock -> 200
t1 await 1; t1 count; t1 lock -> 200; t1 count; t2 await 1; t2 count; t2 lock_for 50s -> 200; t2 count

# Beside a writer neither readers nor writers are.
each 1 2 3
locks 100 4
try_write -> 100; count; await 3; counted -> 3; put 200; drop; await 5; try_write -> 200
t1 await 1; t1 count; t1 read -> 200; t1 count; t2 await 1; t2 count; t2 write -> 200; t2 count

# A writer waits for readers too.
each 1 2 3
locks 100 4
try_read -> 100; count; await 3; counted -> 3; drop; await 5; try_write -> 100
t1 await 1; t1 count; t1 write -> 100; t1 count; t2 await 1; t2 count; t2 write_for 50s -> 100; t2 count
";

/// A story of which a row is wrong: it is found.
pub(crate) const WRONG: &str = "\
locks 1 0
lock -> 1; count; await 2; t2 await 1; t2 try_lock -> 1; t2 count
";
