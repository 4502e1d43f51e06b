//! Every public name of `saa`, passed on by a crate that stands on `saa` alone: a name that is gone doesn't compile here.
//!
//! What the names do is shown by other tests. Names that several modules of `saa` have are passed on in as many modules here.
#![tactic(auto)]

ghost use Rattle.saa.specs.WordLocks.{IsDealtBy as IsDealtByLock};
ghost use Rattle.saa.specs.WordSemaphores.{IsDealtBy};

pub use saa::{
    AcquireError, Barrier, Full, Gate, Guard, Lock, Lowers, Mutex, MutexGuard, Pager, Permit,
    PermitOf, RwLock, RwLockReadGuard, RwLockWriteGuard, Semaphore, SemaphoreOf, TryLockError,
    Turn, ValueMut, ValueRef, Writing, lock_async, read_async, write_async,
};

/// The cores and forms of the four primitives, and the pool and the queue on them.
pub mod primitives {
    pub use saa::barrier::{Barrier, BarrierAnswer, BarrierCall, BarrierCore};
    pub use saa::gate::{Error, Gate, GateAnswer, GateCall, GateCore, State, TimedEntry};
    pub use saa::lock::{Lock, LockAnswer, LockCall, LockCore, Mode, TryLockError};
    pub use saa::pool::{CheckingOut, Checkout, Counts, Drained, Pool, Refused, Shrunk};
    pub use saa::queue::{PopError, Popping, PoppingFrom, PushError, Pushing, PushingTo, Queue};
    pub use saa::semaphore::{
        AcquirePermits, AcquirePermitsOf, Holder, InTime, OwnedPermit, OwnedPermitOf, Permit,
        PermitCore, PermitFrom, PermitOf, PermitsFuture, RawSemaphore, Semaphore, SemaphoreAnswer,
        SemaphoreCall, SemaphoreCore, SemaphoreCoreOf, SemaphoreOf,
    };
}

/// What threaded forms have in common, and the future of each call.
pub mod forms {
    pub use saa::form::Form;
    pub use saa::future::{
        Acquire, AcquireMany, AcquireManyOf, AcquireManyWith, AcquireManyWithOf, AcquireOf,
        AcquireWith, AcquireWithOf, Acquiring, AcquiringWith, AnswerReader, Arrival, ArriveFuture,
        ArriveFutureWith, Enter, EnterWith, LockFuture, LockFutureWith, ManyPermits, MutexFuture,
        OnePermit, Passing, PendingRegistration, PollPager, Progress, ReadFuture, ShareFuture,
        ShareFutureWith, Turn, WriteFuture,
    };
    pub use saa::lock_api::Mutex;
    pub use saa::pager::{Error, How, Pager, SyncResult, Ticket};
    pub use saa::spin_policy::NONE;
    pub use saa::timed::{Deadline, Timed};
    pub use saa::waits::Pends;
}

/// What cores are asked and made of; benches, journals, and the laws of runs.
pub mod cores {
    pub use saa::bench::{Bench, Command, CommandOf, Primitive, Reply, ReplyOf, laws};
    pub use saa::journal::{Journal, JournalMemory, Journalled, Share};
    pub use saa::laws::{
        all, answers_in_order, answers_once, barrier_runs, false_registrations, gate_runs, leaders,
        lock_runs, lock_stays_settled, nobody_waits_for_nothing, permits_conserved, semaphore_runs,
        semaphore_stays_settled, settling,
    };
    pub use saa::line::laws::wakes;
    pub use saa::line::order::{Order, Queue};
    pub use saa::line::{Line, LineOf, LinkedLine};
    pub use saa::request::{Full as FullOfRequest, Request as RequestOfRequest};
    pub use saa::ticket::{Error, Full, How, Registration, Request, Ticket};
    pub use saa::words::answer_word::{AnswerWord, pack, unpack};
    pub use saa::words::line_word::LineWord;
    pub use saa::words::links::Links;
    pub use saa::words::requests::{ForModes, ForPermits, Requests, request_number};
    pub use saa::words::word::Word;
}

/// The word forms; and contracts of calls at places that a form dealt, by definitions that `saa` passes on.
pub mod word {
    pub use saa::word::{
        Error, Guard, Left, Lock, LockLeft, LockPlace, Lowers, Mode, Mutex, MutexGuard,
        MutexWorker, Place, Receipt, RwLock, RwLockReadGuard, RwLockWorker, RwLockWriteGuard,
        Semaphore, SemaphoreOf, TryLockError, Turn, ValueMut, ValueRef, Visitor, Words, Writing,
    };
    use std::sync::Wait;

    /// Takes both permits at a place.
    pub fn is_taken<R: Wait>(rt: &R, semaphore: &SemaphoreOf<2>, place: &mut Place) -> bool
        requires { IsDealtBy semaphore.now place.old }
        ensures { IsDealtBy semaphore.now place.new }
    {
        semaphore.try_acquire_many(rt, place, 2)
    }

    /// Takes a share at a place.
    pub fn is_shared<R: Wait>(rt: &R, lock: &Lock, place: &mut LockPlace) -> bool
        requires { IsDealtByLock lock.now place.old }
        ensures { IsDealtByLock lock.now place.new }
    {
        lock.try_share(rt, place).is_ok()
    }
}

/// The machine of words.
pub mod machine {
    pub use saa::word::machine::{
        Answer, Error, Kind, Machine, Mode, Move, Step, TryLockError, WordCall,
    };
}

/// The lock-free forms.
pub mod lock_free {
    pub use saa::lock_free::{
        Guard, Lock, Lowers, Mutex, MutexGuard, Pager, Permit, PermitOf, RwLock, RwLockReadGuard,
        RwLockWriteGuard, Semaphore, SemaphoreOf, Turn, ValueMut, ValueRef, Witnessed, Writing,
        lock_async, read_async, write_async,
    };
}

/// What the modules of lock-free forms have.
pub mod lock_free_forms {
    pub use saa::lock_free::form::{AtRest, BorrowedPlace, Form, NoPlace};
    pub use saa::lock_free::future::{
        AcquireManyOf, AcquireManyWithOf, AcquireOf, AcquireWithOf, Acquiring, AcquiringWith,
        AnswerReader, LockFuture, LockFutureWith, ManyPermits, OnePermit, Turn,
    };
    pub use saa::lock_free::lock::{Error, Lock, Mode, TryLockError};
    pub use saa::lock_free::pager::{Pager, PagerForm};
    pub use saa::lock_free::permit::{
        AcquirePermits, AcquirePermitsOf, Holder, InTime, OwnedPermit, OwnedPermitOf, Permit,
        PermitFrom, PermitOf, PermitsFuture, RawSemaphore, RawSemaphoreAsync, RawSemaphoreUntil,
    };
    pub use saa::lock_free::registration::{Kept, Registration};
    pub use saa::lock_free::semaphore::{Semaphore, SemaphoreOf};
    pub use saa::lock_free::tasks::Pending;
    pub use saa::lock_free::word_form::WordForm;
    pub use saa::lock_free::{laws, lock_api, timed};
}
