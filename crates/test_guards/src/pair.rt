//! A type whose invariant matters, behind a mutex: two numbers that agree (`guide_mutex` has one behind a reader-writer lock).
//!
//! An owner has to leave the numbers equal, and may use that they are. Beside them a plain number, which shows that what is written through a guard is
//! what it shows at its next use.

ghost use Rattle.std.specs.Prelude.{◌≡◌, IfOk};

use saa_core::ticket::Full;
use saa_core_guards::mutex::Mutex;
use saa_core_guards::raw_lock::RawLock;

/// Two numbers that agree.
#[derive(Drop)]
pub struct Pair {
    first: u64,
    second: u64,
    ghost agree: { first ≡ second },
}

impl Pair {
    /// This number, twice.
    pub fn new(number: u64) -> Self
        ensures { (result.first ≡ number) × (result.second ≡ number) }
    {
        Pair {
            first: number,
            second: number,
        }
    }

    /// Makes both this number.
    pub fn set(&mut self, number: u64)
        ensures { (self.new.first ≡ number) × (self.new.second ≡ number) }
    {
        self.first = number;
        self.second = number;
    }
}

/// Makes both numbers of a mutex this one.
pub fn store<L: RawLock + Drop>(mutex: &Mutex<L, Pair>, number: u64) -> Result<(), Full> {
    mutex.lock()?.set(number);
    Ok(())
}

/// Both numbers of a mutex, which agree.
pub fn load<L: RawLock + Drop>(mutex: &Mutex<L, Pair>) -> Result<(u64, u64), Full>
    ensures { IfOk result (λ numbers. numbers.0 ≡ numbers.1) }
{
    let guard = mutex.lock()?;
    Ok((guard.first, guard.second))
}

/// Writes a number behind a mutex, and reads it back through the same guard: it is the number that was written.
pub fn put<L: RawLock + Drop>(mutex: &Mutex<L, u64>, number: u64) -> Result<u64, Full>
    ensures { IfOk result (λ shown. shown ≡ number) }
{
    let mut guard = mutex.lock()?;
    *guard = number;
    Ok(*guard)
}

#[cfg(test)]
mod tests {
    use saa_sync::Mutex;
    use std::test::Fail;
    use test_asserts::same;

    #[test]
    fn a_number_of_its_own(rt: HostRuntime) -> Result<(), Fail> {
        let mut mutex = Mutex::new(&rt, rt.alloc(), 5, 0)?;
        same!(rt; *mutex.get_mut(), 5);
        *mutex.get_mut() = 6;
        same!(rt; mutex.into_inner(), 6);
        Ok(())
    }
}
