//! What crates above may use of this crate's facts: functions whose contracts are laws.

ghost use Rattle.std.specs.Prelude.{◌≡◌};
ghost use Rattle.saa_core_spec.specs.declared.lock.Mode.{Mode};
ghost use Rattle.saa_word_threads.specs.declared.lock.Lock.{Lock};
ghost use Rattle.saa_word_threads.specs.declared.receipt.Receipt.{Receipt};
ghost use Rattle.saa_word_threads.specs.Locks.{table_of};
ghost use Rattle.saa_word_threads.specs.Receipts.{IsReceiptAt};
ghost use Rattle.saa_word_lock_free.specs.Turns.{IsTurn};

/// The receipt of a turn was given at the table of its lock, so it may be joined and handed in there. Does nothing.
pub fn turns()
    ensures { (lock : Lock) (mode : Mode) (receipt : Receipt) → ∥ IsTurn lock mode receipt ∥₁ → IsReceiptAt (table_of lock) receipt }
{}
