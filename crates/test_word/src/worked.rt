//! The schedules, in the language of `schedules`.

/// Of a semaphore.
pub(crate) const SEMAPHORES: &str = "\
# Place 0 waits for 10 permits. Place 1 gives 5 back and is about to publish; then place 2 may take none of them, and gives 5 back in place, and place 1
# grants for both.
semaphore 0 3
1 try 63: ask ask 63/0/0/0 true; 0 reg 10: ask prepare join 63/0/0/1 true; 1 release 5: release release 58/1/0/1 walk walk walk publish
2 try 1: ask false; 2 release 5: release release 53/1/0/1 true; 1: publish walk walk walk publish 63/0/0/0 show show true idle; 0 try_poll: take granted

# A waiter is shown nothing until the release that grants it takes its last step, and a try of another place can't move it on.
semaphore 63 3
0 reg 1: .. 63/0/0/1 true; 0 poll: take waits; 0 poll: busy; 0: waits; 0 poll: busy; 0: waits; 0 poll: busy; 2 try 1: .. false
1 release 1: .. 63/0/0/0 true; 0: granted

# A place in a call is busy, and one in none is idle: neither is changed, nor is the word.
semaphore 3 2
0: idle; 1: idle; 0 try 60: ask; 0 try 0: busy; 0 reg 1: busy; 0 release 64: busy; 0 try_poll: busy; 0 poll: busy; 0 available: busy
0: ask; 0 available: busy; 1: idle; 0: 63/0/0/0 true idle; 1 available: ask 0

# An exchange that finds another word goes on from that word: of a try, a join, and a release.
semaphore 60 4
0 try 1: ask ask; 1 try 1: ask ask 61/0/0/0 true; 0: ask 62/0/0/0 true; 0 reg 5: ask prepare join; 1 reg 5: ask prepare join 62/0/0/2 true
0: prepare join 62/0/0/1 true; 2 release 1: release release; 3 release 1: release release 61/1/0/1 walk; 2: release 60/1/0/1 true

# Place 2 leaves the queue as its tail. Then place 0 leaves, by which place 1 is granted; place 1 gives that up, waits until it is shown, and gives 2
# back.
semaphore 60 3
0 reg 10: .. 60/0/0/1 true; 1 reg 2: .. 60/0/0/2 true; 2 reg 1: .. 60/0/0/3 true
2 cancel: flag flag 60/1/0/3 unlink tail 60/1/0/2 walk walk walk walk walk publish 60/0/0/2 done; 2 poll: not_registered
0 cancel: flag flag 60/1/0/2 unlink unlink unlink unlink walk publish 62/0/0/0 show; 1 cancel: flag take waits; 0: show done
1: release release 60/0/0/0 done

# The least bound and the greatest: all permits are taken at once, and their release grants a waiter one.
bounded 1 0 2
0 try 2: false; 0 try 18446744073709551615: false; 0 try 1: .. 1/0/0/0 true; 1 reg 1: .. 1/0/0/2 true; 0 release 2: false
0 release 1: .. 1/0/0/0 true; 1 poll: .. granted
bounded 65535 0 2
0 try 65536: false; 0 try 65535: .. 65535/0/0/0 true; 1 reg 1: .. 65535/0/0/2 true; 0 release 65536: false; 0 release 65535: .. 1/0/0/0 true
1 poll: .. granted

# The last of all places that there can be waits, and is granted.
semaphore 63 65535
65534 reg 1: .. 63/0/0/65535 true; 0 release 1: .. 63/0/0/0 true; 65534 poll: .. granted

# Each place waits for the only permit. The one in the middle leaves, and the waiter after it is next.
bounded 1 0 4
3 try 1: .. 1/0/0/0 true; 0 reg 1: .. 1/0/0/1 true; 1 reg 1: .. 1/0/0/2 true; 2 reg 1: .. 1/0/0/3 true; 1 cancel: .. done
1 release 1: .. true; 0 try_poll: .. granted; 0 release 1: .. 1/0/0/0 true; 2 poll: .. granted

# A shut empties the queue by one exchange and keeps what is out; then each waiter is shown that.
semaphore 60 3
0 reg 10: .. 60/0/0/1 true; 1 reg 2: .. 60/0/0/2 true; 2 is_shut: .. false; 2 shut: poison poison 60/0/1/0 show show show
1 poll: .. refused; 0 poll: take waits; 2: show true; 0: refused; 2 shut: .. false; 2 is_shut: .. true; 2 try 1: .. false; 2 try 0: .. false
2 reg 1: .. true; 2 poll: refused; 2 reg 64: false; 2 reg 0: .. true; 2 cancel: done; 2 available: .. 3; 1 release 61: .. false
1 release 59: .. 1/0/1/0 true; 0 release 1: .. 0/0/1/0 true; 0 release 1: .. false; 0 try 63: .. false

# A shut waits for the flag's holder. Then place 0, which was granted 4 at once, cancels, and gives them back at the shut semaphore.
semaphore 59 4
0 reg 4: .. 63/0/0/0 true; 1 reg 10: .. 63/0/0/2 true; 2 release 5: release release 58/1/0/2 walk; 3 shut: poison waits
2: walk walk publish; 3: waits; 2: 58/0/0/2 true; 3: poison 58/0/1/0 show show true; 1 poll: .. refused; 0 cancel: .. 54/0/1/0 done
";

/// Of a lock.
pub(crate) const LOCKS: &str = "\
# Each call, with each of its steps: of a free lock, of one owner's, of a shared and of a poisoned one.
lock 2
0 is_free: ask true; 0 try_lock: ask ask 63/0/0/0 ok; 1 try_lock: ask would_block; 1 try_share: ask would_block; 1 is_locked: ask true
1 is_shared: ask false; 1 is_free: ask false; 1 is_poisoned: ask false; 1 release_share: release false
0 release_lock: release release 0/0/0/0 true; 0 release_lock: release false
0 try_share: ask ask 1/0/0/0 ok; 1 try_share: ask ask 2/0/0/0 ok; 1 is_shared: ask true; 1 is_locked: ask false; 1 try_lock: ask would_block
1 poison_lock: poison false; 1 release_lock: release false; 1 release_share: release release 1/0/0/0 true
0 release_share: release release 0/0/0/0 true; 0 reg wait_shared: ask true; 0 reg shared: false; 0 poll: granted
0 reg exclusive: ask ask 63/0/0/0 true; 0 cancel: release release 0/0/0/0 done; 0 cancel: done; 1 clear_poison: clear false
0 try_lock: ask ask 63/0/0/0 ok; 1 reg wait_shared: ask prepare join 63/0/0/2 true; 1 try_poll: take not_ready
0 poison_lock: poison poison 0/0/1/0 show show true; 1 poll: take refused; 1 try_lock: ask poisoned; 1 try_share: ask poisoned
0 is_poisoned: ask true; 0 is_free: ask false; 0 is_locked: ask false; 0 release_lock: release false; 0 poison_lock: poison false
1 reg shared: ask true; 1 cancel: done; 1 reg exclusive: ask true; 1 try_poll: refused; 0 clear_poison: clear 0/0/0/0 true; 0 is_free: ask true

# Place 1 leaves the queue; meanwhile place 0 can't poison, nor place 2 leave. Then place 0 poisons, and place 2, whose answer is due by then, gives it
# up once it is shown.
lock 3
0 try_lock: .. 63/0/0/0 ok; 1 reg shared: .. 63/0/0/2 true; 2 reg wait_exclusive: .. 63/0/0/3 true; 1 cancel: flag flag 63/1/0/3 unlink
0 poison_lock: poison waits; 2 cancel: flag waits; 1: unlink unlink unlink walk publish; 0: waits; 1: 63/0/0/3 done
0: poison 0/0/1/0 show; 2: take waits; 0: show true; 2: done

# A downgrade takes the flag by the same exchange, and lets a sharer in beside it; the owner after that waits on.
lock 3
0 try_lock: .. 63/0/0/0 ok; 1 reg shared: .. 63/0/0/2 true; 2 reg exclusive: .. 63/0/0/3 true; 0 downgrade: release release 1/1/0/3 walk .. publish
0: .. 2/0/0/3 true; 1 try_poll: .. granted; 2 try_poll: .. not_ready

# A downgrade is made in place while a cancel holds the flag, and the cancel grants the sharer after it.
lock 3
0 try_lock: .. 63/0/0/0 ok; 1 reg exclusive: .. 63/0/0/2 true; 2 reg shared: .. 63/0/0/3 true; 1 cancel: flag flag 63/1/0/3 unlink
0 downgrade: release release 1/1/0/3 true; 2 try_poll: .. not_ready; 1: .. 2/0/0/0 done; 2 try_poll: .. granted

# Only one owner is downgraded.
lock 2
0 downgrade: release false; 0 try_lock: ask ask 63/0/0/0 ok; 0 downgrade: release release 1/0/0/0 true; 0 downgrade: release false
1 is_shared: ask true; 1 try_share: ask ask 2/0/0/0 ok; 1 release_share: release release 1/0/0/0 true
0 release_share: release release 0/0/0/0 true; 0 try_lock: ask ask 63/0/0/0 ok; 0 poison_lock: poison poison 0/0/1/0 true
0 downgrade: release false; 0 clear_poison: clear 0/0/0/0 true

# Poison answers three waiters, who take that by three calls.
lock 4
0 try_lock: .. 63/0/0/0 ok; 1 reg shared: .. 63/0/0/2 true; 2 reg wait_exclusive: .. 63/0/0/3 true; 3 reg exclusive: .. 63/0/0/4 true
0 poison_lock: .. 0/0/1/0 true; 1 try_poll: .. refused; 2 poll: .. refused; 3 cancel: .. done; 2 clear_poison: .. 0/0/0/0 true
2 poison_lock: .. false
";
