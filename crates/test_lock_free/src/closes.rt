//! Forms that are closed with a receipt: the words are those of what was out, and no place has an answer.

ghost use Rattle.std.specs.Prelude.{IfSome};
ghost use Rattle.saa_word_threads.specs.Locks.{table_of};
ghost use Rattle.saa_word_threads.specs.Receipts.{IsReceiptAt};

use saa_core_waits::spin_policy::NONE;
use saa_word_lock_free::laws::turns;
use saa_word_lock_free::lock::Lock;
use saa_word_lock_free::lock_api::{Guard, Mutex, RwLock, close, join_receipt};
use saa_word_lock_free::semaphore::SemaphoreOf;
use saa_word_lock_free::{Receipt, Words};
use std::alloc::{AllocError, AllocGlobal};
use std::sync::Wait;
use std::test::Fail;
use std::time::{Clock, Duration};
use test_asserts::same;

// The main word, and the answers of two places and of none.
type Shown = (u64, [Option<u64>; 3]);

fn shown(words: &Words) -> Shown {
    let answers = [words.answer(0), words.answer(1), words.answer(2)];
    (words.main(), answers)
}

// 4 of 9 are withheld, and 3 are out; a call had waited.
fn semaphore_closed<H: Wait + Clock + AllocGlobal>(
    rt: &H,
) -> Result<(bool, u16, Shown), AllocError> {
    let semaphore = SemaphoreOf::<&H, 9>::with_spin_policy(rt, rt.alloc(), 5, 2, NONE)?;
    let is_taken = semaphore.try_acquire_many(3);
    let answer = semaphore.acquire_many_sync_for(9, Duration::from_millis(1));
    let (available, receipt) = semaphore.available_permits_witnessed();
    let words = semaphore.close(receipt);
    Ok((is_taken && answer == Ok(None), available, shown(&words)))
}

// A share is out; a call had waited.
fn lock_closed<H: Wait + Clock + AllocGlobal>(rt: &H) -> Result<(bool, Shown), AllocError> {
    let lock = Lock::with_spin_policy(rt, rt.alloc(), 2, NONE)?;
    let is_taken = lock.lock_sync();
    let answer = lock.share_sync_for(Duration::from_millis(1));
    let (is_ended, receipt) = lock.downgrade_witnessed();
    let words = lock.close(receipt);
    let is_right = is_taken == Ok(true) && answer == Ok(None) && is_ended;
    Ok((is_right, shown(&words)))
}

// Adds to the value of a mutex, and keeps the receipt of that turn.
fn add<R: Wait + Drop>(mutex: &Mutex<R, u64>, number: u64) -> Option<Receipt>
    ensures { IfSome result (IsReceiptAt (table_of mutex.now.word)) }
{
    turns();
    let mut guard = mutex.try_lock()?;
    *guard = guard.wrapping_add(number);
    Some(Guard::unlock_witnessed(guard))
}

// Nobody has it; the receipts of two turns are joined.
fn mutex_closed<H: Wait + AllocGlobal>(rt: &H) -> Result<Option<(u64, Shown)>, AllocError> {
    let mutex: Mutex<&H, u64> = Mutex::new(rt, rt.alloc(), 3, 2)?;
    let (Some(first), Some(second)) = (add(&mutex, 4), add(&mutex, 5)) else {
        return Ok(None);
    };
    let mut receipt = first;
    join_receipt(&mutex, &mut receipt, second);
    let (value, words) = close(mutex, receipt);
    Ok(Some((value, shown(&words))))
}

// Reads the value of a writer's guard that was lowered, and keeps the receipt of its share.
fn lower<R: Wait + Drop>(lock: &RwLock<R, u64>) -> Option<(u64, Receipt)>
    ensures { IfSome result (λ read. IsReceiptAt (table_of lock.now.word) read.1) }
{
    turns();
    let guard = Guard::downgrade(lock.try_write()?);
    let value = *guard;
    Some((value, Guard::unlock_witnessed(guard)))
}

// Nobody has it; the receipt is that of a share.
fn rw_lock_closed<H: Wait + AllocGlobal>(rt: &H) -> Result<Option<(u64, u64, u64)>, AllocError> {
    let lock: RwLock<&H, u64> = RwLock::with_spin_policy(rt, rt.alloc(), 3, 0, NONE)?;
    let Some((read, receipt)) = lower(&lock) else {
        return Ok(None);
    };
    let (value, words) = close(lock, receipt);
    Ok(Some((read, value, words.main())))
}

const NO_ANSWERS: [Option<u64>; 3] = [Some(0), Some(0), None];

#[test]
fn closes_with_a_receipt(rt: HostRuntime) -> Result<(), Fail> {
    same!(rt; semaphore_closed(&rt)?, (true, 2, (7, NO_ANSWERS)));
    same!(rt; lock_closed(&rt)?, (true, (1, NO_ANSWERS)));
    same!(rt; mutex_closed(&rt)?, Some((12, (0, NO_ANSWERS))));
    same!(rt; rw_lock_closed(&rt)?, Some((3, 3, 0)));
    Ok(())
}
