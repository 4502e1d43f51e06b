//! A guard whose clause says which mutex it is of.

ghost use Rattle.std.specs.Prelude.{◌≡◌, IfOk};

use saa_sync::{Full, Mutex, MutexGuard};
use std::sync::Wait;

/// Takes the mutex.
pub fn take<'a, R: Wait + Drop>(desk: &'a Mutex<R, u64>) -> Result<MutexGuard<'a, R, u64>, Full>
    ensures { IfOk result (λ guard. guard.turn.lock.now ≡ desk.now) }
{
    desk.lock()
}
