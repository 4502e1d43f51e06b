//! What a turn of a thread is: at a mutex, at a barrier, or at what others have left already.

use crossbeam_utils::sync::WaitGroup;
use saa_core_guards::mutex::Mutex;
use saa_core_guards::raw_lock::RawLock;
use std::alloc::{AllocError, Global};
use std::sync::{Barrier, Mutex as StdMutex, Wait};

/// Something that threads take turns at.
pub trait Turn {
    /// Takes one turn, waiting where it must.
    fn take_turn<R: Wait>(&self, rt: &R);
}

// Of each of our locks. A turn adds 1.
impl<L: RawLock + Drop> Turn for Mutex<L, u64> {
    #[inline(always)]
    fn take_turn<R: Wait>(&self, _rt: &R) {
        if let Ok(mut number) = self.lock() {
            *number = number.wrapping_add(1);
        }
    }
}

impl Turn for StdMutex<u64> {
    #[inline(always)]
    fn take_turn<R: Wait>(&self, rt: &R) {
        let mut number = self.lock(rt);
        *number = number.wrapping_add(1);
    }
}

// A turn arrives, and waits until the round is complete.
impl Turn for Barrier {
    fn take_turn<R: Wait>(&self, rt: &R) {
        let _result = self.wait(rt);
    }
}

/// A wait for one other that has left already, by a `WaitGroup`, which is made anew for each wait, since its `wait` takes it.
#[derive(Drop)]
pub struct AfterGroup(pub Global);

impl Turn for AfterGroup {
    fn take_turn<R: Wait>(&self, rt: &R) {
        let _made = wait_for_group(rt, self.0);
    }
}

// Makes a group of two, of which one leaves, and waits for it.
fn wait_for_group<R: Wait>(rt: &R, alloc: Global) -> Result<(), AllocError> {
    let group = WaitGroup::new(alloc)?;
    let member = group.clone()?;
    drop(member);
    group.wait(rt);
    Ok(())
}
