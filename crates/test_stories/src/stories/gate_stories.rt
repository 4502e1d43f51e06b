//! Stories of the gate.

/// Every value that a gate can answer, by a poll of a task, of a pager in each way, by a future, and by a call. An answer wakes exactly the tasks that it concerns,
/// and a slot keeps no waker behind it. A callback runs once, where its future or call joins the queue, with the mutex free, and never else.
pub(crate) const ALL: &str = "\
# Each answer by each poll: two tasks polled before, and both are woken.
gate 6
reg 0 sync; reg 1 sync; reg 2 async; reg 3 async; poll 2 b -> pending; poll 3 a -> pending
- permit -> ok 4; a woken; b woken; try_poll 0 -> ok controlled; poll_sync 1 -> ok controlled; poll_async 2 -> ok controlled; poll 3 a -> ok controlled
- reject -> ok 4; a woken; b woken; try_poll 0 -> rejected; poll_sync 1 -> rejected; poll_async 2 -> rejected; poll 3 a -> rejected
- give_up; a woken; b woken; try_poll 0 -> spurious; poll_sync 1 -> spurious; poll_async 2 -> spurious; poll 3 a -> spurious
- seal -> controlled 4; a woken; b woken; try_poll 0 -> sealed; poll_sync 1 -> sealed; poll_async 2 -> sealed; poll 3 a -> sealed
- open -> controlled 4; a woken; b woken; try_poll 0 -> ok open; poll_sync 1 -> ok open; poll_async 2 -> ok open; poll 3 a -> ok open

# By a future and by a call.
gate 6
f0 enter; f0 poll a -> pending
- permit -> ok 1; f0 poll a -> ok controlled; enter_with permit -> ok controlled
- reject -> ok 1; f0 poll a -> rejected; enter_with reject -> rejected
- give_up; f0 poll a -> spurious; enter_with give_up -> spurious
- seal -> controlled 1; f0 poll a -> sealed; reset -> sealed; enter_with seal -> sealed
- open -> controlled 1; f0 poll a -> ok open; reset -> open; enter_with open -> ok open

# All at a sealed gate that has no room: the answer is there at once, for pagers, a future and two calls.
gate 0
- seal -> controlled 0; reg 0 sync; reg 1 sync; reg 2 async; reg 3 async; poll 3 a -> sealed; seal -> sealed 0; try_poll 0 -> sealed
poll_sync 1 -> sealed; poll_async 2 -> sealed; f0 enter; f0 poll a -> sealed; enter -> sealed; enter_with state -> sealed
# All at an open gate that has no room: the answer is there at once, for pagers, a future and two calls.
- open -> controlled 0; reg 0 sync; reg 1 sync; reg 2 async; reg 3 async; poll 3 a -> ok open; open -> open 0; try_poll 0 -> ok open
poll_sync 1 -> ok open; poll_async 2 -> ok open; f0 enter; f0 poll a -> ok open; enter -> ok open; enter_with state -> ok open

# The oldest are let in, as many as are asked for, or all where fewer wait.
gate 4
- permit_many 1 -> ok 0; reg 0 sync; reg 1 async; reg 2 sync; permit_many 0 -> ok 0; try_poll 0 -> not_ready; permit_many 2 -> ok 2
poll_sync 0 -> ok controlled; poll_async 1 -> ok controlled; try_poll 2 -> not_ready; permit_many 9 -> ok 1; poll_sync 2 -> ok controlled
open -> controlled 0; permit_many 1 -> err open; seal -> open 0; permit_many 1 -> err sealed
# Wakes.
- f0 enter; f1 enter; f0 poll a -> pending; f1 poll b -> pending; permit -> ok 2; a woken; b woken; f0 poll a -> ok controlled; f1 poll b -> ok controlled
f2 enter; f2 poll a -> pending; reject -> ok 1; a woken; f2 poll a -> rejected; open -> controlled 0; f2 enter; f2 block_on -> ok open
# A waiter is dropped. The first task leaves, and the others wait on, until they are let in. Then one is dropped that was never polled, and one that has its
# answer, which neither changes.
- f1 enter; f0 enter; f2 enter; f0 poll a -> pending; f1 poll b -> pending; f2 poll c -> pending; f0 drop; b woken -> false; c woken -> false
f1 poll b -> pending; permit_many 1 -> ok 1; b woken; c woken -> false; f1 poll b -> ok controlled; permit -> ok 1; f2 poll c -> ok controlled
permit -> ok 0; f1 enter; f0 enter; f1 poll b -> pending; f0 drop; f2 drop; b woken -> false; permit -> ok 1; f1 poll b -> ok controlled
# A pager's mode.
- try_poll 0 -> not_registered; reg 0 sync; poll 0 a -> wrong_mode; open -> controlled 1; a woken -> false; block_on 0 -> wrong_mode; registered 0
poll_sync 0 -> ok open; poll_sync 0 -> not_registered; block_on 0 -> not_registered

# A full room, and the newest task. There is room for two. Then the newest task that polled is woken, and not the one before.
gate 2
- f0 enter; f1 enter; f2 enter; f0 poll a -> pending; f1 poll b -> pending; f2 poll c -> full; f0 poll c -> pending; a calm; permit -> ok 2
a woken -> false; b woken; c woken
# A cancelled pager. A pager that is cancelled answers all others.
- reg 0 async; poll 0 a -> pending; f1 enter; f1 poll b -> pending; cancel 0; b woken; f1 poll b -> spurious
# It may permit. One future is never polled, one has to wait, and one comes to an open gate.
- f0 enter_with permit; calls -> 0; a enter_with permit -> ok controlled; calls -> 1001; open -> controlled 0; a enter_with permit -> ok open
enter_with permit -> ok open; calls -> 1001; reset -> open; enter_with permit -> ok controlled; calls -> 2002

# A task that polls. The gate rejects.
gate 1
- reg 0 async; poll 0 a -> pending
# The poll is dropped.
registered 0; a woken -> false; reject -> ok 1; a woken; poll 0 a -> rejected; a woken -> false; registered 0 -> false
# An answer at once. The gate permits, and then it is sealed.
- reg 0 async; poll 0 a -> pending; permit -> ok 1; poll 0 a -> ok controlled; seal -> controlled 0; reg 1 async; block_on 1 -> sealed
# A slot has no waker once a future's answer is taken.
- f0 enter; f0 poll a -> pending; permit_untold; a woken -> false; f0 poll a -> ok controlled; a calm; f1 enter; f1 poll b -> pending; a woken -> false
# A slot has no waker once a pager's answer is taken.
- reg 0 async; poll 0 a -> pending; permit_untold; a woken -> false; poll 0 a -> ok controlled; a calm; f1 enter; f1 poll b -> pending; a woken -> false
";
