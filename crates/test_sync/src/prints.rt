//! What forms and guards print. A form prints its core and its room; `test_core` has what each core prints.

use saa_sync::pager::Pager;
use saa_sync::{Mutex, RwLock, SemaphoreOf};
use std::alloc::{AllocError, Global};
use std::fmt::Debug;
use std::test::Fail;
use test_asserts::holds;

// Whether this is printed.
fn prints<T: Debug>(alloc: Global, shown: &T, wanted: &str) -> Result<bool, AllocError> {
    Ok(format!(in alloc; "{shown:?}")?.as_str() == wanted)
}

#[test]
fn a_semaphore_shows_what_is_available_who_waits_and_its_room(rt: HostRuntime) -> Result<(), Fail> {
    let permits = SemaphoreOf::<_, 5>::new(&rt, rt.alloc(), 3)?;
    let four = permits.try_acquire_permits(4);
    let mut pager = Pager::new();
    holds!(rt; permits.register_pager(&mut pager, 2, true) == Ok(true));
    holds!(rt; permits.waiting() == 1);
    holds!(rt; permits.room() == 3);
    let waits = "Form { core: SemaphoreCore { available_permits: 1, waiting: 1 }, room: 3 }";
    holds!(rt; prints(rt.alloc(), &permits, waits)?);
    holds!(rt; prints(rt.alloc(), &four, "Some(Permits { count: 4, .. })")?);
    drop(four);
    holds!(rt; permits.waiting() == 0);
    Ok(())
}

#[test]
fn guards_show_their_value(rt: HostRuntime) -> Result<(), Fail> {
    let mutex = Mutex::new(&rt, rt.alloc(), 7u64, 0)?;
    let guard = mutex.lock()?;
    holds!(rt; format!(in rt.alloc(); "{guard} {guard:?} {guard:>3}")?.as_str() == "7 7   7");
    let words = RwLock::new(&rt, rt.alloc(), "a", 0)?;
    let reader = words.read()?;
    holds!(rt; format!(in rt.alloc(); "{reader} {reader:?}")?.as_str() == "a \"a\"");
    Ok(())
}
