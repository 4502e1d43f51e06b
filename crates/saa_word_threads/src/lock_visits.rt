//! What a lock does for callers with no place: they take it where it is there at once, give it back, lower it, poison it, clear it and read it.
//!
//! A call by a kept visitor ends in `_by`. One that ends in `_once` is by a visitor that comes for this call alone, and gives it out beside the answer, so
//! that contracts can say what the call did. Both are held to `specs/Visits.antt`.

ghost use Rattle.std.specs.Prelude.{◌≡◌, [], ◌∷◌, ◌++◌};
ghost use Rattle.saa_word_steps.specs.declared.call.Answer.{Answer};
ghost use Rattle.saa_word_steps.specs.declared.call.WordCall.TheVariants.{TryLock, TryShare, ReleaseLock, ReleaseShare, Downgrade, PoisonLock, ClearPoison, IsFree, IsLocked, IsShared, IsPoisoned};
ghost use Rattle.saa_word_threads.specs.Dealt.{IsLedTo, numbers};
ghost use Rattle.saa_word_threads.specs.Public.{is_yes, tried};
ghost use Rattle.saa_word_threads.specs.Kept.{departed};
ghost use Rattle.saa_word_threads.specs.Receipts.{IsLedOn, IsReceiptAt, said};
ghost use Rattle.saa_word_threads.specs.Visits.{IsNewVisitor, view_of};

use crate::answers::yes;
use crate::lock::{EXCLUSIVE, Lock, SHARED, tried};
use crate::receipt::Receipt;
use crate::visitor::Visitor;
use crate::watch::Unwatched;
use crate::words::Words;
use saa_word_steps::call::{TryLockError, WordCall};
use saa_word_steps::place::{Reading, ReleaseAmount, Stage};
use std::sync::Wait;

impl Lock {
    ghost use Rattle.saa_word_threads.specs.Locks.{IsVisited, IsVisitedOnce, IsVisitorOf, about_of, table_of};

    /// A visitor enters: it takes the lock where it is there at once, gives it back, lowers, poisons, clears and reads it, and never waits for it.
    ///
    /// There may be any number of visitors, and any thread may make one. Costs one load.
    #[inline(always)]
    pub fn visit(&self) -> Visitor
        ensures { IsNewVisitor (table_of self.now) (about_of self.now).places result }
    {
        self.form.enter()
    }

    /// [`Self::try_lock`] by a visitor.
    #[inline(always)]
    pub fn try_lock_by<R: Wait>(&self, rt: &R, visitor: &mut Visitor) -> Result<(), TryLockError>
        requires { IsVisitorOf self.now visitor.old }
        ensures { (answer : Answer) × (result ≡ tried answer) × IsVisited TryLock visitor.old answer visitor.new }
    {
        let call = WordCall::TryLock;
        tried(
            self.form
                .visit_ask(rt, &Unwatched, visitor, call, EXCLUSIVE),
        )
    }

    /// [`Self::try_share`] by a visitor.
    #[inline(always)]
    pub fn try_share_by<R: Wait>(&self, rt: &R, visitor: &mut Visitor) -> Result<(), TryLockError>
        requires { IsVisitorOf self.now visitor.old }
        ensures { (answer : Answer) × (result ≡ tried answer) × IsVisited TryShare visitor.old answer visitor.new }
    {
        let call = WordCall::TryShare;
        tried(self.form.visit_ask(rt, &Unwatched, visitor, call, SHARED))
    }

    /// [`Self::release_lock`] by a visitor.
    ///
    /// It works on the queue as a place does: it grants the oldest waiters while they fit, shows them their answers and wakes them.
    #[inline(always)]
    pub fn release_lock_by<R: Wait>(&self, rt: &R, visitor: &mut Visitor) -> bool
        requires { IsVisitorOf self.now visitor.old }
        ensures { (answer : Answer) × (result ≡ is_yes answer) × IsVisited ReleaseLock visitor.old answer visitor.new }
    {
        let call = WordCall::ReleaseLock;
        self.form
            .visit_give(rt, &Unwatched, visitor, call, EXCLUSIVE)
    }

    /// [`Self::release_share`] by a visitor.
    #[inline(always)]
    pub fn release_share_by<R: Wait>(&self, rt: &R, visitor: &mut Visitor) -> bool
        requires { IsVisitorOf self.now visitor.old }
        ensures { (answer : Answer) × (result ≡ is_yes answer) × IsVisited ReleaseShare visitor.old answer visitor.new }
    {
        let call = WordCall::ReleaseShare;
        self.form.visit_give(rt, &Unwatched, visitor, call, SHARED)
    }

    /// [`Self::downgrade`] by a visitor.
    pub fn downgrade_by<R: Wait>(&self, rt: &R, visitor: &mut Visitor) -> bool
        requires { IsVisitorOf self.now visitor.old }
        ensures { (answer : Answer) × (result ≡ is_yes answer) × IsVisited Downgrade visitor.old answer visitor.new }
    {
        let given = ReleaseAmount::AllButAShare;
        let stage = Stage::ReleaseLoad { given };
        yes(
            self.form
                .visit_call(rt, &Unwatched, visitor, WordCall::Downgrade, stage),
        )
    }

    /// [`Self::poison_lock`] by a visitor.
    pub fn poison_lock_by<R: Wait>(&self, rt: &R, visitor: &mut Visitor) -> bool
        requires { IsVisitorOf self.now visitor.old }
        ensures { (answer : Answer) × (result ≡ is_yes answer) × IsVisited PoisonLock visitor.old answer visitor.new }
    {
        let call = WordCall::PoisonLock;
        yes(
            self.form
                .visit_call(rt, &Unwatched, visitor, call, Stage::PoisonLoad),
        )
    }

    /// [`Self::clear_poison`] by a visitor.
    pub fn clear_poison_by<R: Wait>(&self, rt: &R, visitor: &mut Visitor) -> bool
        requires { IsVisitorOf self.now visitor.old }
        ensures { (answer : Answer) × (result ≡ is_yes answer) × IsVisited ClearPoison visitor.old answer visitor.new }
    {
        let call = WordCall::ClearPoison;
        yes(
            self.form
                .visit_call(rt, &Unwatched, visitor, call, Stage::Clear),
        )
    }

    /// [`Self::is_free`] by a visitor.
    pub fn is_free_by(&self, visitor: &mut Visitor) -> bool
        requires { IsVisitorOf self.now visitor.old }
        ensures { (answer : Answer) × (result ≡ is_yes answer) × IsVisited IsFree visitor.old answer visitor.new }
    {
        yes(
            self.form
                .visit_read(visitor, WordCall::IsFree, Reading::IsFree),
        )
    }

    /// [`Self::is_locked`] by a visitor.
    pub fn is_locked_by(&self, visitor: &mut Visitor) -> bool
        requires { IsVisitorOf self.now visitor.old }
        ensures { (answer : Answer) × (result ≡ is_yes answer) × IsVisited IsLocked visitor.old answer visitor.new }
    {
        yes(
            self.form
                .visit_read(visitor, WordCall::IsLocked, Reading::IsLocked),
        )
    }

    /// [`Self::is_shared`] by a visitor.
    pub fn is_shared_by(&self, visitor: &mut Visitor) -> bool
        requires { IsVisitorOf self.now visitor.old }
        ensures { (answer : Answer) × (result ≡ is_yes answer) × IsVisited IsShared visitor.old answer visitor.new }
    {
        yes(
            self.form
                .visit_read(visitor, WordCall::IsShared, Reading::IsShared),
        )
    }

    /// [`Self::is_poisoned`] by a visitor.
    pub fn is_poisoned_by(&self, visitor: &mut Visitor) -> bool
        requires { IsVisitorOf self.now visitor.old }
        ensures { (answer : Answer) × (result ≡ is_yes answer) × IsVisited IsPoisoned visitor.old answer visitor.new }
    {
        yes(
            self.form
                .visit_read(visitor, WordCall::IsPoisoned, Reading::IsPoisoned),
        )
    }

    /// [`Self::try_lock`] with no place. Costs one load more.
    #[inline(always)]
    pub fn try_lock_once<R: Wait>(&self, rt: &R) -> (Result<(), TryLockError>, Visitor)
        ensures { (answer : Answer) × (result.0 ≡ tried answer) × IsVisitedOnce self.now TryLock answer result.1 }
    {
        let mut visitor = self.visit();
        let taken = self.try_lock_by(rt, &mut visitor);
        (taken, visitor)
    }

    /// [`Self::try_share`] with no place. Costs one load more.
    #[inline(always)]
    pub fn try_share_once<R: Wait>(&self, rt: &R) -> (Result<(), TryLockError>, Visitor)
        ensures { (answer : Answer) × (result.0 ≡ tried answer) × IsVisitedOnce self.now TryShare answer result.1 }
    {
        let mut visitor = self.visit();
        let taken = self.try_share_by(rt, &mut visitor);
        (taken, visitor)
    }

    /// [`Self::release_lock`] with no place. Costs one load more.
    #[inline(always)]
    pub fn release_lock_once<R: Wait>(&self, rt: &R) -> (bool, Visitor)
        ensures { (answer : Answer) × (result.0 ≡ is_yes answer) × IsVisitedOnce self.now ReleaseLock answer result.1 }
    {
        let mut visitor = self.visit();
        let done = self.release_lock_by(rt, &mut visitor);
        (done, visitor)
    }

    /// [`Self::release_share`] with no place. Costs one load more.
    #[inline(always)]
    pub fn release_share_once<R: Wait>(&self, rt: &R) -> (bool, Visitor)
        ensures { (answer : Answer) × (result.0 ≡ is_yes answer) × IsVisitedOnce self.now ReleaseShare answer result.1 }
    {
        let mut visitor = self.visit();
        let done = self.release_share_by(rt, &mut visitor);
        (done, visitor)
    }

    /// [`Self::downgrade`] with no place. Costs one load more.
    pub fn downgrade_once<R: Wait>(&self, rt: &R) -> (bool, Visitor)
        ensures { (answer : Answer) × (result.0 ≡ is_yes answer) × IsVisitedOnce self.now Downgrade answer result.1 }
    {
        let mut visitor = self.visit();
        let done = self.downgrade_by(rt, &mut visitor);
        (done, visitor)
    }

    /// [`Self::poison_lock`] with no place. Costs one load more.
    pub fn poison_lock_once<R: Wait>(&self, rt: &R) -> (bool, Visitor)
        ensures { (answer : Answer) × (result.0 ≡ is_yes answer) × IsVisitedOnce self.now PoisonLock answer result.1 }
    {
        let mut visitor = self.visit();
        let done = self.poison_lock_by(rt, &mut visitor);
        (done, visitor)
    }

    /// [`Self::clear_poison`] with no place. Costs one load more.
    pub fn clear_poison_once<R: Wait>(&self, rt: &R) -> (bool, Visitor)
        ensures { (answer : Answer) × (result.0 ≡ is_yes answer) × IsVisitedOnce self.now ClearPoison answer result.1 }
    {
        let mut visitor = self.visit();
        let done = self.clear_poison_by(rt, &mut visitor);
        (done, visitor)
    }

    /// [`Self::is_free`] with no place. Costs one load more.
    pub fn is_free_once(&self) -> (bool, Visitor)
        ensures { (answer : Answer) × (result.0 ≡ is_yes answer) × IsVisitedOnce self.now IsFree answer result.1 }
    {
        let mut visitor = self.visit();
        let found = self.is_free_by(&mut visitor);
        (found, visitor)
    }

    /// [`Self::is_locked`] with no place. Costs one load more.
    pub fn is_locked_once(&self) -> (bool, Visitor)
        ensures { (answer : Answer) × (result.0 ≡ is_yes answer) × IsVisitedOnce self.now IsLocked answer result.1 }
    {
        let mut visitor = self.visit();
        let found = self.is_locked_by(&mut visitor);
        (found, visitor)
    }

    /// [`Self::is_shared`] with no place. Costs one load more.
    pub fn is_shared_once(&self) -> (bool, Visitor)
        ensures { (answer : Answer) × (result.0 ≡ is_yes answer) × IsVisitedOnce self.now IsShared answer result.1 }
    {
        let mut visitor = self.visit();
        let found = self.is_shared_by(&mut visitor);
        (found, visitor)
    }

    /// [`Self::is_poisoned`] with no place. Costs one load more.
    pub fn is_poisoned_once(&self) -> (bool, Visitor)
        ensures { (answer : Answer) × (result.0 ≡ is_yes answer) × IsVisitedOnce self.now IsPoisoned answer result.1 }
    {
        let mut visitor = self.visit();
        let found = self.is_poisoned_by(&mut visitor);
        (found, visitor)
    }

    /// A receipt of what a visitor has seen, as [`Self::receipt`] gives one of a place.
    pub fn receipt_by(&self, visitor: &mut Visitor) -> Receipt
        requires { IsVisitorOf self.now visitor.old }
        ensures same { visitor.new ≡ visitor.old }
        ensures table { IsReceiptAt (table_of self.now) result }
        ensures seen { said result ≡ departed (view_of visitor.old) ∷ [] }
    {
        self.form.receipt(&mut visitor.seat)
    }

    /// A receipt says from now on what another one says, too. Costs one load.
    pub fn join_receipt(&self, receipt: &mut Receipt, other: Receipt)
        requires { IsReceiptAt (table_of self.now) receipt.old × IsReceiptAt (table_of self.now) other }
        ensures table { IsReceiptAt (table_of self.now) receipt.new }
        ensures joined { said receipt.new ≡ said receipt.old ++ said other }
    {
        self.form.join_receipt(receipt, other);
    }

    /// The words at the end, with a receipt as the witness of what led there; never blocks. Costs O(1).
    pub fn close_on(self, receipt: Receipt) -> Words
        requires { IsReceiptAt (table_of self) receipt }
        ensures places { result.places ≡ (about_of self).places }
        ensures led { IsLedOn (about_of self) (numbers result) (said receipt) }
    {
        let Lock { form } = self;
        form.close_on(receipt)
    }

    /// The words at the end, with a visitor as the witness of what led there; never blocks. Costs O(1).
    pub fn close_by(self, visitor: Visitor) -> Words
        requires { IsVisitorOf self visitor }
        ensures places { result.places ≡ (about_of self).places }
        ensures led { IsLedTo (about_of self) (numbers result) (view_of visitor) }
    {
        let Lock { form } = self;
        form.close_by(visitor)
    }
}
