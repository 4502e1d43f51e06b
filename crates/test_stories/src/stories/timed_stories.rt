//! Stories of timed calls, which are told by a duration and by an instant: where time decides, the clock is the story's own, so that none depends on how fast
//! the machine is.

/// Each call in one thread: granted at once, time that is up, and what stays behind.
pub(crate) const ALONE: &str = "\
# Permits in time. A permit of its own goes back, and none is there where time is up.
bounded 65535 3 1 1ns
acquire_for ever; acquire_for 1 0ns; acquire_for 65536 ever -> false; acquire_for 2 0ns -> timed_out; available -> 1; acquire_for 1000 0ns -> timed_out
acquire_for 0ns; acquire_for 0ns -> timed_out; available -> 0; release; permit_for 0ns forget -> 0; permit_for 0ns -> timed_out; release; available -> 1
permit_for 0ns -> 0; permit_for ever -> 0; available -> 1

# Some of all there are, and then the rest; and all at once.
bounded 65535 65535 1 1ns
acquire_for 65536 0ns -> false; acquire_for 18446744073709551615 0ns -> false; acquire_for 0 0ns; available -> 65535; acquire_for 1001 0ns
available -> 64534; acquire_for 64535 9ns -> timed_out; acquire_for 65535 0ns -> timed_out; available -> 64534; acquire_for 31766 0ns; available -> 32768
acquire_for 32769 0ns -> timed_out; acquire_for 32767 ever; available -> 1; release 65534; acquire_for 65535 0ns; acquire_for 1 9ns -> timed_out
acquire_for 65536 0ns -> false; available -> 0

# No permits are there at once, and nothing is taken; but behind a waiter they are waited for as any others.
bounded 65535 0 2 1ns
- acquire_for 0 0ns; acquire_for 0 ever; available -> 0; release; acquire_for 0 0ns; acquire_for 0 ever; available -> 1; acquire_for 0ns; reg 0 1 sync
acquire_for 0 0ns -> timed_out; acquire_for 0 9ns -> timed_out; try_poll 0 -> not_ready; release; poll_for 0 0ns; available -> 0
# A pager whose time is up stays registered; an answer that is there is taken whatever the time.
- poll_for 0 ever -> not_registered; reg 0 1 sync; poll_for 0 9ns -> timed_out; poll_for 0 0ns -> timed_out; registered 0; release; poll_for 0 0ns
registered 0 -> false; poll_for 0 0ns -> not_registered; release; reg 0 1 sync; poll_for 0 ever; reg 0 1 async; poll_for 0 ever -> wrong_mode; available -> 0

# A broken clock ends a wait.
bounded 65535 1 1 0ns
clock broken; acquire_for ever; acquire_for ever -> timed_out; clock 0ns; clock broken; acquire_until 10ms -> timed_out; release; available -> 1

# A lock, whose sharers leave as they came.
lock 1 1ns
lock_for 0ns; lock_for 0ns -> timed_out; share_for 0ns -> timed_out; release_lock; share_for 0ns; lock_for 0ns -> timed_out; share_for 0ns; share_for ever
release_share; release_share; release_share; is_free; lock_for ever; is_locked; poison_lock; lock_for 0ns -> false; lock_for ever -> false
share_for 0ns -> false; share_for ever -> false

# A gate, open and sealed, and a barrier of one.
gate 0 1ns
open -> controlled 0; enter_for 0ns -> ok open; enter_for ever -> ok open; seal -> open 0; enter_for 0ns -> sealed; enter_for ever -> sealed

barrier 1 0 1ns
wait_for 0ns; wait_for ever; count -> 1
";

/// Calls that would have to wait where there is no room. A poll of a pager has its slot already, and is never told so.
pub(crate) const FULL: &str = "\
# No room for a permit: each is told so at once, whatever its time, and nothing is changed.
bounded 65535 0 0 1s
- acquire_for 0ns -> full; acquire_for ever -> full; available -> 0; release; acquire_for 0ns; acquire_for ever -> full
- permit_for 0ns -> full; permit_for ever -> full; available -> 0; release; permit_for 0ns -> 0; available -> 1

bounded 65535 2 0 1s
acquire_for 3 0ns -> full; acquire_for 3 ever -> full; available -> 2; acquire_for 2 0ns; acquire_for 1 0ns -> full; acquire_for 1 ever -> full

# No room beside a sharer, and beside an owner.
lock 0 1s
- share_for ever; lock_for 0ns -> full; lock_for ever -> full; try_share; release_share; release_share; is_free
- lock_for ever; share_for 0ns -> full; share_for ever -> full; lock_for 0ns -> full; lock_for ever -> full; is_locked; release_lock; is_free

# No room at a gate, and at a barrier.
gate 0 1s
enter_for 0ns -> full; enter_for ever -> full; permit -> ok 0; open -> controlled 0; enter_for 0ns -> ok open

barrier 2 0 1s
wait_for 0ns -> full; wait_for ever -> full; count -> 2

# A waiter has the room. One that asks for no permit waits as any other, and so has no room either.
bounded 65535 0 1 1s
reg 0 1 sync; acquire_for 0ns -> full; acquire_for ever -> full; acquire_for 2 0ns -> full; acquire_for 2 ever -> full; acquire_for 0 0ns -> full
acquire_for 0 ever -> full; permit_for 0ns -> full; permit_for ever -> full; try_poll 0 -> not_ready; release; poll_for 0 0ns; available -> 0
";

/// Each timed call four times: granted while it is parked; late, no earlier than its time; and late by a clock that stands still until another waits behind it, of
/// a while, and of an hour of which all but a while is over at once.
pub(crate) const EVERY_CALL: &str = "\
# A lock.
lock 2 looking
- try_share; t1 lock_for 1h; rests; release_share; t1 ends; is_locked; release_lock; is_free
- try_share; lock_for 3ms -> timed_out; release_share; is_free
# A share.
- try_lock; t1 share_for 1h; rests; release_lock; t1 ends; release_share; is_free
- try_lock; share_for 3ms -> timed_out; is_locked; release_lock; is_free
# A share of a lock that is poisoned.
- try_lock; t1 share_for 1h -> false; rests; poison_lock; t1 ends

# A lock.
lock 2 0ns looking
- try_share; t1 lock_for 10500777ns -> timed_out; clock 10500776ns; pause; parked -> 1; clock 10500777ns; t1 ends; try_share; release_share; release_share; is_free
- try_share; leap 3599989499223ns; t1 lock_for 1h -> timed_out; clock 3599999999999ns; pause; parked -> 1; clock 1h; t1 ends; try_share; release_share; release_share; is_free
# A share.
- try_lock; t1 share_for 10500777ns -> timed_out; clock 10500776ns; pause; parked -> 1; clock 10500777ns; t1 ends; is_locked; release_lock; is_free
- try_lock; leap 3599989499223ns; t1 share_for 1h -> timed_out; clock 3599999999999ns; pause; parked -> 1; clock 1h; t1 ends; is_locked; release_lock; is_free

# One permit.
bounded 65535 0 2 looking
- t1 acquire_for 1h; rests; release; t1 ends; available -> 0; release; available -> 1
- acquire_for 3ms -> timed_out; available -> 0; release; available -> 1
# No permits behind a waiter.
- reg 0 1 sync; t1 acquire_for 0 1h; rests; release 3; t1 ends; available -> 2
- reg 0 1 sync; acquire_for 0 3ms -> timed_out; try_poll 0 -> not_ready; release; poll_for 0 0ns; available -> 0
# A pager.
- t1 reg 0 1 sync; t1 poll_for 0 1h; rests; release; t1 ends; available -> 0; release; available -> 1
- reg 2 1 sync; poll_for 2 3ms -> timed_out; registered 2; drop 2; registered 2 -> false; available -> 0; release; available -> 1
# A permit that gives itself back.
- t1 permit_for 1h -> 0; rests; release; t1 ends; available -> 1
- permit_for 3ms -> timed_out; available -> 0; release; available -> 1

# One permit.
bounded 65535 0 2 0ns looking
- t1 acquire_for 10500777ns -> timed_out; reg 0 1 sync; clock 10500776ns; pause; parked -> 1; clock 10500777ns; t1 ends; try_poll 0 -> not_ready; release; poll_for 0 0ns; available -> 0
- leap 3599989499223ns; t1 acquire_for 1h -> timed_out; reg 0 1 sync; clock 3599999999999ns; pause; parked -> 1; clock 1h; t1 ends; try_poll 0 -> not_ready; release; poll_for 0 0ns; available -> 0
# No permits behind a waiter.
- reg 0 1 sync; t1 acquire_for 0 10500777ns -> timed_out; clock 10500776ns; pause; parked -> 1; clock 10500777ns; t1 ends; try_poll 0 -> not_ready; release; poll_for 0 0ns; available -> 0
- reg 0 1 sync; leap 3599989499223ns; t1 acquire_for 0 1h -> timed_out; clock 3599999999999ns; pause; parked -> 1; clock 1h; t1 ends; try_poll 0 -> not_ready; release; poll_for 0 0ns; available -> 0
# A pager.
- t1 reg 0 1 sync; t1 poll_for 0 10500777ns -> timed_out; reg 0 1 sync; clock 10500776ns; pause; parked -> 1; clock 10500777ns; t1 ends; try_poll 0 -> not_ready; release; poll_for 0 0ns; available -> 0
- t1 reg 0 1 sync; leap 3599989499223ns; t1 poll_for 0 1h -> timed_out; reg 0 1 sync; clock 3599999999999ns; pause; parked -> 1; clock 1h; t1 ends; try_poll 0 -> not_ready; release; poll_for 0 0ns; available -> 0

# 300 permits.
bounded 65535 250 2 looking
- t1 acquire_for 300 1h; rests; release 100; t1 ends; available -> 50; release 300; available -> 350
- acquire_for 300 3ms -> timed_out; available -> 250; release 50; available -> 300

bounded 65535 250 2 0ns looking
- t1 acquire_for 300 10500777ns -> timed_out; reg 0 1 sync; clock 10500776ns; pause; parked -> 1; clock 10500777ns; t1 ends; poll_for 0 0ns; available -> 249
- leap 3599989499223ns; t1 acquire_for 300 1h -> timed_out; reg 0 1 sync; clock 3599999999999ns; pause; parked -> 1; clock 1h; t1 ends; poll_for 0 0ns; available -> 249

# A passing.
gate 2 looking
- t1 enter_for 1h -> ok controlled; rests; permit -> ok 1; t1 ends; permit -> ok 0
- enter_for 3ms -> timed_out; enter_for 0ns -> timed_out; permit -> ok 0
# A passing that is rejected.
- t1 enter_for 1h -> rejected; rests; reject -> ok 1; t1 ends; permit -> ok 0

# A passing.
gate 2 0ns looking
- t1 enter_for 10500777ns -> timed_out; clock 10500776ns; pause; parked -> 1; clock 10500777ns; t1 ends; permit -> ok 0
- leap 3599989499223ns; t1 enter_for 1h -> timed_out; clock 3599999999999ns; pause; parked -> 1; clock 1h; t1 ends; permit -> ok 0

# An arrival.
barrier 2 2 looking
- t1 wait_for 1h -> false; rests; wait_for 0ns; t1 ends; count -> 2
- wait_for 3ms -> timed_out; count -> 2; wait_for 0ns -> timed_out

barrier 2 2 0ns looking
- t1 wait_for 10500777ns -> timed_out; clock 10500776ns; pause; parked -> 1; clock 10500777ns; t1 ends; count -> 2; wait_for 0ns -> timed_out
- leap 3599989499223ns; t1 wait_for 1h -> timed_out; clock 3599999999999ns; pause; parked -> 1; clock 1h; t1 ends; count -> 2; wait_for 0ns -> timed_out
";

/// Parked waiters, some of which are late: those behind them are granted at once, and no permit is lost.
pub(crate) const CROWD: &str = "\
# A waiter behind a late one is granted at once.
bounded 65535 20 2 0ns sleepy
t1 acquire_for 40 10ms -> timed_out; acquire_with late; t1 ends; available -> 19

# Of two parked waiters one has its time over: the other stays parked, and is granted the permit, whichever of them was first.
bounded 65535 0 2 0ns sleepy
- t1 acquire_for 10ms -> timed_out; t2 acquire; late; t1 ends; asleep 1; release; t2 ends; available -> 0; asleep 0
# The longest wait there is ends by its answer, and so does one of a clock that stands still.
- t1 acquire_for ever; t2 acquire_for 10ms; release 2; t1 ends; t2 ends; available -> 0; asleep 0
# The longest wait lasts for hundreds of years.
- leap 18446744073709551614ns; t1 acquire_for ever; release; t1 ends; available -> 0
# A wait of some nanoseconds lasts for all of them.
- t1 acquire_for 9ns; clock 8ns; pause; asleep 1; release; t1 ends; available -> 0

# Time is up as the permit comes, and no parker is notified: the call looks once more, and takes it.
bounded 65535 0 1 0ns sleepy
t1 acquire_for 10ms; release_untold; late; t1 ends; available -> 0

# A wait at a gate whose time is up disturbs nobody: the other waits on until it is let in.
gate 2 0ns sleepy
- t1 enter -> ok controlled; t2 enter_for 10ms -> timed_out; late; t2 ends; asleep 1; permit -> ok 1; t1 ends; asleep 0
- t1 enter_for 10ms -> timed_out; t2 enter -> ok controlled; late; t1 ends; asleep 1; permit_many 1 -> ok 1; t2 ends; permit -> ok 0
";

/// A timed call joins the queue at once, where one that may wait for ever looks first; and one that leaves tells those that look.
pub(crate) const ORDER: &str = "\
# A timed call is queued beside a permit that is there, and the plain one that comes later looks.
bounded 65535 1 2 0ns looking
- t1 acquire_for 300 1h; try -> false; t2 acquire looks; release 299; t1 release 300; t2 release; available -> 300
# The permit that is looked for is kept from its call by nothing but the one that is late.
- t1 acquire_for 300 10ms -> timed_out; t2 acquire looks; late; t1 ends; t2 ends; available -> 0

# A call that spins at its parker doesn't park, and sees that it is notified.
bounded 65535 0 1 0ns awake
t1 acquire_for 1h joins; pause; parked -> 0; release; t1 ends; available -> 0

# A plain call that yields at its parker doesn't park, and sees that it is notified.
bounded 65535 0 1 0ns yielding_alone
t1 acquire joins; pause; parked -> 0; release; t1 ends; available -> 0

# A timed one that yields there reads its clock, and so does a pager. The parker was notified for the waiter before.
bounded 65535 0 1 0ns yielding
- reg 0 1 sync; release; poll_for 0 0ns; t1 acquire_for 1h joins; read 100; parked -> 0; release; t1 ends; available -> 0
- reg 0 1 sync; release; poll_for 0 0ns; t1 reg 0 1 sync; t1 poll_for 0 1h joins; read 100; parked -> 0; release; t1 ends; available -> 0

# No wait ends early, where its waiter yields for as long as there is time, or looks a million times first. Its slot is free again behind it.
bounded 65535 0 1 yielding
acquire_for 3ms -> timed_out; acquire_for 2 3ms -> timed_out; parked -> 0; release 2; available -> 2

bounded 65535 0 1 looking_long
acquire_for 3ms -> timed_out; acquire_for 2 3ms -> timed_out; parked -> 0; release 2; available -> 2
";
