//! Stories of the barrier.

/// A leader and followers, by each poll, by a future and by a call. An answer wakes exactly the tasks that it concerns, and a parker is reset for the next. A
/// callback runs once, where its future or call joins the queue, with the mutex free, and never else; it counts how many are missing then.
pub(crate) const ALL: &str = "\
# A follower by each poll. Of size 5: the last arrival answers the four.
barrier 5 4
reg 0 sync; reg 1 sync; reg 2 async; reg 3 async; poll 3 a -> pending; wait; try_poll 0 -> false; poll_sync 1 -> false; poll_async 2 -> false
poll 3 a -> false

# A leader by each poll. Of size 1: each arrival leads.
barrier 1 0
- reg 0 sync; reg 1 sync; reg 2 async; reg 3 async; poll 3 a; wait; try_poll 0; poll_sync 1; poll_async 2
# An answer at once. Of one.
- reg 0 async; block_on 0

# Wakes. The third task arrives last.
barrier 3 4
- f0 wait; f1 wait; f2 wait; f0 poll a -> pending; f1 poll b -> pending; a woken -> false; b woken -> false; f2 poll c; a woken; b woken
c woken -> false; f0 poll a -> false; f1 poll b -> false; count -> 3
# Arrivals that don't wait. Of three, of which one waits.
- f0 wait; f0 poll a -> pending; arrive -> false; count -> 1; a woken -> false; arrive; a woken; f0 poll a -> false; round -> 1; count -> 3

# A full room. There is room for one of the four that may come.
barrier 4 1
f0 wait; f1 wait; f0 poll a -> pending; f1 poll b -> full; count -> 3

# A dropped arrival. The first task leaves, the second stays.
barrier 2 2
- f0 wait; f0 poll a -> pending; count -> 1; f0 drop; count -> 2; f1 wait; f1 poll b -> pending; b woken -> false
# Threads that sleep are woken by an arrival that doesn't wait, by a task that leaves, and by one that joins.
- t1 wait -> false; leave_barrier; t1 ends; round -> 1; count -> 1

# A used slot. The first task is the old one, whose waker went as it left.
barrier 2 1
- f0 wait; f0 poll a -> pending; f0 drop; a calm; f1 wait; f1 poll b -> pending; a woken -> false; wait; a woken -> false; b woken; f1 poll b -> false
# A task that polls. Of two, of which the other arrives in a call.
- reg 0 async; poll 0 a -> pending; wait; a woken; poll 0 a -> false
# A pager's used slot. The first task is the old one; the slot's new task is woken alone.
- reg 0 async; poll 0 a -> pending; cancel 0; a calm; f0 wait; f0 poll b -> pending; a woken -> false; wait; a woken -> false; b woken; f0 poll b -> false
# A first poll wakes the waiter that it answers, and a parker is reset for the next. The last arrival, a future or a call, notifies the only parker as it answers. The next waiter of that slot is a task, which resets the parker as it joins.
- f0 wait; f0 poll a -> pending; notified -> 0; f1 wait; f1 poll b; f1 drop; a woken; notified -> 1; f0 poll a -> false; f0 drop; f0 wait
f0 poll a -> pending; notified -> 0; wait; a woken; notified -> 1; f0 poll a -> false
# One comes and leaves, and its callback never runs again; then two others meet, and the callback of the last doesn't run.
- a wait_with count -> pending; calls -> 1001; f0 wait; f0 poll a -> pending; b wait_with count; calls -> 1001; a woken; f0 poll a -> false

# A dropped future wakes no other task. The others stay, of which one came before and one after.
barrier 4 3
- f0 wait; f1 wait; f2 wait; f0 poll a -> pending; f1 poll b -> pending; f2 poll c -> pending; f1 drop; a woken -> false; c woken -> false; count -> 2
b calm; f1 wait; f1 poll b -> pending; wait; a woken; c woken; f0 poll a -> false; f2 poll c -> false
# A cancelled pager wakes no other task. One waits before it, and one behind it.
- f0 wait; f1 wait; f0 poll a -> pending; reg 0 async; poll 0 c -> pending; f1 poll b -> pending; cancel 0; a woken -> false; b woken -> false
count -> 2; reg 0 async; wait; a woken; b woken; f1 poll b -> false

# A task joins and leaves. Of two, of which one waits while a third joins, and leaves again.
barrier 2 4
f0 wait; f1 wait; f0 poll a -> pending; join; f1 poll b -> pending; a woken -> false; count -> 1; leave_barrier; a woken; b woken
f0 poll a -> false; f1 poll b -> false; round -> 1; count -> 2

# A barrier of size 0. Nobody passes it before a task joins.
barrier 0 4
f0 wait; f0 poll a -> pending; arrive -> false; leave_barrier -> false; a woken -> false; round -> 0; join; a woken; f0 poll a -> false; round -> 1

# An arrival of a pager wakes too. The last of three, beside a task and a thread that sleeps.
barrier 3 2
- f0 wait; f0 poll a -> pending; t1 wait -> false; reg 0 async; a woken; t1 ends; f0 poll a -> false; poll_async 0; count -> 3
# Threads that sleep are woken by an arrival that doesn't wait, by a task that leaves, and by one that joins.
- t1 wait -> false; t2 wait -> false; round -> 0; arrive; t1 ends; t2 ends; round -> 1

barrier 0 2
t1 wait -> false; join; t1 ends; round -> 1

# At a barrier of size 0 too.
barrier 0 1
f0 wait_with count; calls -> 0; a wait_with count -> pending; calls -> 1
";
