//! Stories of a pool and of a queue; `places` says what their words mean. First come those with no other task beside the calls, then those with futures
//! that are polled by hand, and threads that sleep.

pub(crate) const POOL: &str = "\
# The value that was in for longest goes out first, in each way. One that is too many, or given back for none, is refused.
pool 2 0
add 1; add 2; add 3 -> false; give_back 4 -> false; try_check_out -> 1; check_out -> 2; check_out_for 0ns -> 1; check_out_until 0ns -> 2
check_out_async -> 1; inside -> 2; out -> 0; values -> 2; served -> 5; timed_out -> 0; waiting -> 0

# Nothing goes out where all are: with room for a waiter, and with none. So where there is no value at all.
pool 2 1
add 1; add 2; keep -> 1; keep -> 2; try_check_out -> would_block; check_out_for 0ns -> timed_out; check_out_until 0ns -> timed_out
inside -> 0; out -> 2; kept -> 2; waiting -> 0; served -> 2; timed_out -> 2; give_back 1; inside -> 1; out -> 1; try_check_out -> 1

pool 2 0
try_check_out -> would_block; check_out -> full; check_out_async -> full; values -> 0; add 1; add 2; keep -> 1; keep -> 2; try_check_out -> would_block
check_out -> full; check_out_for 0ns -> full; check_out_until 0ns -> full; check_out_async -> full; out -> 2; served -> 2; timed_out -> 0

# 500 values are out at once.
pool 500 1
repeat 500 add -> 500; repeat 500 keep -> 500; try_check_out -> would_block; check_out_for 0ns -> timed_out; inside -> 0; out -> 500; kept -> 500
repeat 500 give_back -> 500; inside -> 500; out -> 0; kept -> 0; served -> 500; timed_out -> 1; check_out -> 1

# A value that is kept has its place, nobody is let in for it, and it is given back once, or another for it.
pool 2 1
add 1; add 2; keep -> 1; inside -> 1; out -> 1; kept -> 1; add 5 -> false; keep -> 2; try_check_out -> would_block; check_out_for 0ns -> timed_out
give_back 7; try_check_out -> 7; give_back 2; inside -> 2; out -> 0; kept -> 0; give_back 8 -> false; check_out -> 7; check_out -> 2; served -> 5

# A value is replaced, or the pool says that it shrank, and can be filled up again.
pool 2 0
add 1; add 2; replace -> 10; check_out -> 2; check_out -> 10; shrink -> 1; inside -> 1; out -> 0; shrink -> 0; inside -> 0; out -> 0; kept -> 0
served -> 5; try_check_out -> would_block; add 7; add 8; add 9 -> false; inside -> 2; close; drain -> 78

# A closed pool refuses in each way, and takes back what is out; it is drained, and an open one isn't.
pool 500 1
add 1; add 2; add 3; keep -> 1; keep -> 2; drain -> 0; inside -> 1; is_closed -> false; close; close -> false; is_closed; try_check_out -> closed
check_out -> closed; check_out_for 1h -> closed; check_out_until 1h -> closed; check_out_async -> closed; drain -> 3; add 9 -> false; give_back 2
give_back 1; drain -> 21; drain -> 0; inside -> 0; out -> 0; kept -> 0; served -> 2; timed_out -> 0

# Futures are let in in the order of their first polls, the second by the guard of the first; a try isn't let in before them.
pool 1 2
add 1; keep -> 1; f0 check_out; f1 check_out; f1 poll b -> pending; f0 poll a -> pending; waiting -> 2; a woken -> false; b woken -> false; give_back 1
b woken; a woken -> false; waiting -> 1; try_check_out -> would_block; f1 poll b -> 1; a woken; f0 poll a -> 1; inside -> 1; waiting -> 0; served -> 3

# One that is let in and dropped lets the next in; one that waits leaves the queue.
pool 1 2
add 1; keep -> 1; f0 check_out; f1 check_out; f0 poll a -> pending; f1 poll b -> pending; give_back 1; a woken; b woken -> false; f0 drop; b woken
try_check_out -> would_block; f1 poll b -> 1; inside -> 1; waiting -> 0; keep -> 1; f0 check_out; f0 poll a -> pending; f0 drop; waiting -> 0
give_back 1; try_check_out -> 1

# A close answers one that waits, one that was let in and not polled, and one that wasn't polled yet.
pool 1 3
add 1; keep -> 1; f0 check_out; f1 check_out; f2 check_out; f0 poll a -> pending; f1 poll b -> pending; give_back 1; b woken -> false; close; b woken
f0 poll a -> closed; f1 poll b -> closed; f2 poll b -> closed; inside -> 1; waiting -> 0; served -> 1

# Threads that sleep, in each way, are let in in turn, for values that are given back or added; and are refused as the pool is closed.
pool 500 8
crowd 8 keep 1h add -> 8; out -> 8; crowd 8 keep 1h give_back -> 8; out -> 8; kept -> 8; waiting -> 0; crowd 8 check_out 1h close -> 8
waiting -> 0; served -> 16; timed_out -> 0
";

pub(crate) const QUEUE: &str = "\
# Items leave in the order in which they came, pushed and popped in each way.
each 0 1 2 3 4
queue 5 0
is_empty; try_push 1; push 2; push_for 3 0ns; push_until 4 0ns; push_async 5; len -> 5; is_empty -> false; pop_by N -> 1; pop_by N -> 2; pop_by N -> 3
pop_by N -> 4; pop_by N -> 5; is_empty

# A full queue and an empty one refuse: with room for a waiter, and with none.
queue 1 1
try_pop -> would_block; pop_for 0ns -> timed_out; pop_until 0ns -> timed_out; push 1; try_push 2 -> would_block; push_for 3 0ns -> timed_out
push_until 4 0ns -> timed_out; producers -> 0; consumers -> 0; pop -> 1; is_empty

queue 1 0
try_pop -> would_block; pop -> full; pop_for 0ns -> full; pop_until 0ns -> full; pop_async -> full; push 1; try_push 2 -> would_block; push 3 -> full
push_for 4 0ns -> full; push_until 5 0ns -> full; push_async 6 -> full; pop -> 1; is_empty

# A closed queue refuses items in each way, and gives what is left, in each way.
each 0 1 2 3 4
queue 5 1
push 1; push 2; is_closed -> false; close; close -> false; is_closed; try_push 3 -> closed; push 4 -> closed; push_for 5 1h -> closed
push_until 6 1h -> closed; push_async 7 -> closed; len -> 2; pop_by N -> 1; pop_by N -> 2; pop_by N -> closed; pop -> closed; is_empty

# A place goes to the push that waits for longest; the next gets one as an item is popped.
queue 1 2
push 1; f0 push 2; f1 push 3; f1 poll b -> pending; f0 poll a -> pending; producers -> 2; pop -> 1; b woken; a woken -> false; try_push 4 -> would_block
f1 poll b; a woken -> false; pop -> 3; a woken; f1 end -> none; f0 poll a; try_pop -> 2; producers -> 0

# Or as the first is ended before its poll, which hands its item back, or dropped with it.
queue 1 2
push 1; f0 push 2; f1 push 3; f0 poll a -> pending; f1 poll b -> pending; pop -> 1; a woken; b woken -> false; f0 end -> 2; b woken; f1 poll b
try_pop -> 3; try_pop -> would_block
push 1; f0 push 2; f1 push 3; f0 poll a -> pending; f1 poll b -> pending; pop -> 1; a woken; b woken -> false; f0 drop; b woken; f1 poll b
try_pop -> 3; try_pop -> would_block

# An item goes to the pop that waits for longest, at a closed queue too, where the next is answered `closed`; or to the next as the first is dropped.
queue 2 2
f0 pop; f1 pop; f1 poll b -> pending; f0 poll a -> pending; consumers -> 2; push 1; close; b woken; a woken -> false; try_pop -> would_block
f1 poll b -> 1; a woken; f0 poll a -> closed; try_pop -> closed; consumers -> 0

queue 2 2
f0 pop; f1 pop; f0 poll a -> pending; f1 poll b -> pending; push 1; close; a woken; b woken -> false; f0 drop; b woken; f1 poll b -> 1; try_pop -> closed

# A close answers a push that waits, one that was let in and not polled, and one that wasn't polled yet; each has its item back.
queue 2 3
push 1; push 2; f0 push 3; f1 push 4; f2 push 5; f0 poll a -> pending; f1 poll b -> pending; pop -> 1; b woken -> false; close; b woken
f0 poll a -> closed; f1 poll b -> closed; f2 poll b -> closed; pop -> 2; pop -> closed; producers -> 0

# Threads that sleep at either end, in each way, are let in in turn; and are refused, with their items, as the queue is closed: the one that is in stays.
queue 1 8
push 0; crowd 8 push 1h pop -> 8; pop -> 8; crowd 8 pop 1h push -> 8; is_empty; producers -> 0; consumers -> 0
push 0; crowd 8 push 1h close -> 8; len -> 1; pop -> 0; producers -> 0

queue 1 8
crowd 8 pop 1h close -> 8; is_empty; consumers -> 0
";
