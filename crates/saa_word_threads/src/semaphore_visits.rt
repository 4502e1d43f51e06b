//! What a semaphore does for callers with no place: they take permits where they are there at once, give back, shut it and read.
//!
//! A call by a kept visitor ends in `_by`. One that ends in `_once` is by a visitor that comes for this call alone, and gives it out beside the answer, so
//! that contracts can say what the call did. Both are held to `specs/Visits.antt`.

ghost use Rattle.std.specs.Prelude.{◌≡◌, [], ◌∷◌, ◌++◌};
ghost use Rattle.saa_word_steps.specs.declared.call.Answer.{Answer};
ghost use Rattle.saa_word_steps.specs.declared.call.Answer.TheVariants.{Number};
ghost use Rattle.saa_word_steps.specs.declared.call.WordCall.TheVariants.{Try, Release, Available, Shut, IsShut};
ghost use Rattle.saa_word_threads.specs.Dealt.{IsLedTo, numbers};
ghost use Rattle.saa_word_threads.specs.Public.{is_yes};
ghost use Rattle.saa_word_threads.specs.Kept.{departed};
ghost use Rattle.saa_word_threads.specs.Receipts.{IsLedOn, IsReceiptAt, said};
ghost use Rattle.saa_word_threads.specs.Visits.{IsNewVisitor, view_of};

use crate::answers::yes;
use crate::receipt::Receipt;
use crate::semaphore::SemaphoreOf;
use crate::visitor::Visitor;
use crate::watch::Unwatched;
use crate::words::Words;
use saa_word_steps::call::{Answer, WordCall};
use saa_word_steps::place::{Reading, Stage};
use std::sync::Wait;

impl<const MAX: usize> SemaphoreOf<MAX> {
    ghost use Rattle.saa_word_threads.specs.Semaphores.{IsVisited, IsVisitedOnce, IsVisitorOf, about_of, table_of};

    /// A visitor enters: it takes permits where they are there at once, gives back, shuts and reads, and never waits for a permit.
    ///
    /// There may be any number of visitors, and any thread may make one. Costs one load.
    #[inline(always)]
    pub fn visit(&self) -> Visitor
        ensures { IsNewVisitor (table_of self.now) (about_of self.now).places result }
    {
        self.form.enter()
    }

    /// [`Self::try_acquire_many`] by a visitor.
    #[inline(always)]
    pub fn try_acquire_many_by<R: Wait>(&self, rt: &R, visitor: &mut Visitor, count: usize) -> bool
        requires { IsVisitorOf self.now visitor.old }
        ensures { (answer : Answer) × (result ≡ is_yes answer) × IsVisited self.now (Try count) visitor.old answer visitor.new }
    {
        if count > MAX {
            return false;
        }
        let call = WordCall::Try(count);
        yes(
            self.form
                .visit_ask(rt, &Unwatched, visitor, call, count as u16),
        )
    }

    /// [`Self::release_many`] by a visitor.
    ///
    /// It works on the queue as a place does: it grants the oldest waiters while they fit, shows them their answers and wakes them.
    #[inline(always)]
    pub fn release_many_by<R: Wait>(&self, rt: &R, visitor: &mut Visitor, count: usize) -> bool
        requires { IsVisitorOf self.now visitor.old }
        ensures { (answer : Answer) × (result ≡ is_yes answer) × IsVisited self.now (Release count) visitor.old answer visitor.new }
    {
        if count > MAX {
            return false;
        }
        if count == 0 {
            return true;
        }
        let call = WordCall::Release(count);
        self.form
            .visit_give(rt, &Unwatched, visitor, call, count as u16)
    }

    /// [`Self::available_permits`] by a visitor.
    pub fn available_permits_by(&self, visitor: &mut Visitor) -> u16
        requires { IsVisitorOf self.now visitor.old }
        ensures { IsVisited self.now Available visitor.old (Number result) visitor.new }
    {
        match self
            .form
            .visit_read(visitor, WordCall::Available, Reading::Available)
        {
            Answer::Number(number) => number,
            _ => unreachable!(),
        }
    }

    /// [`Self::shut`] by a visitor.
    pub fn shut_by<R: Wait>(&self, rt: &R, visitor: &mut Visitor) -> bool
        requires { IsVisitorOf self.now visitor.old }
        ensures { (answer : Answer) × (result ≡ is_yes answer) × IsVisited self.now Shut visitor.old answer visitor.new }
    {
        let call = WordCall::Shut;
        yes(
            self.form
                .visit_call(rt, &Unwatched, visitor, call, Stage::PoisonLoad),
        )
    }

    /// [`Self::is_shut`] by a visitor.
    pub fn is_shut_by(&self, visitor: &mut Visitor) -> bool
        requires { IsVisitorOf self.now visitor.old }
        ensures { (answer : Answer) × (result ≡ is_yes answer) × IsVisited self.now IsShut visitor.old answer visitor.new }
    {
        yes(
            self.form
                .visit_read(visitor, WordCall::IsShut, Reading::IsPoisoned),
        )
    }

    /// [`Self::try_acquire_many`] with no place. Costs one load more.
    #[inline(always)]
    pub fn try_acquire_many_once<R: Wait>(&self, rt: &R, count: usize) -> (bool, Visitor)
        ensures { (answer : Answer) × (result.0 ≡ is_yes answer) × IsVisitedOnce self.now (Try count) answer result.1 }
    {
        let mut visitor = self.visit();
        let taken = self.try_acquire_many_by(rt, &mut visitor, count);
        (taken, visitor)
    }

    /// [`Self::release_many`] with no place. Costs one load more.
    #[inline(always)]
    pub fn release_many_once<R: Wait>(&self, rt: &R, count: usize) -> (bool, Visitor)
        ensures { (answer : Answer) × (result.0 ≡ is_yes answer) × IsVisitedOnce self.now (Release count) answer result.1 }
    {
        let mut visitor = self.visit();
        let given = self.release_many_by(rt, &mut visitor, count);
        (given, visitor)
    }

    /// [`Self::available_permits`] with no place. Costs one load more.
    pub fn available_permits_once(&self) -> (u16, Visitor)
        ensures { IsVisitedOnce self.now Available (Number result.0) result.1 }
    {
        let mut visitor = self.visit();
        let available = self.available_permits_by(&mut visitor);
        (available, visitor)
    }

    /// [`Self::shut`] with no place. Costs one load more.
    pub fn shut_once<R: Wait>(&self, rt: &R) -> (bool, Visitor)
        ensures { (answer : Answer) × (result.0 ≡ is_yes answer) × IsVisitedOnce self.now Shut answer result.1 }
    {
        let mut visitor = self.visit();
        let done = self.shut_by(rt, &mut visitor);
        (done, visitor)
    }

    /// [`Self::is_shut`] with no place. Costs one load more.
    pub fn is_shut_once(&self) -> (bool, Visitor)
        ensures { (answer : Answer) × (result.0 ≡ is_yes answer) × IsVisitedOnce self.now IsShut answer result.1 }
    {
        let mut visitor = self.visit();
        let found = self.is_shut_by(&mut visitor);
        (found, visitor)
    }

    /// A receipt of what a visitor has seen, as [`Self::receipt`] gives one of a place.
    pub fn receipt_by(&self, visitor: &mut Visitor) -> Receipt
        requires { IsVisitorOf self.now visitor.old }
        ensures same { visitor.new ≡ visitor.old }
        ensures table { IsReceiptAt (table_of self.now) result }
        ensures seen { said result ≡ departed (view_of visitor.old) ∷ [] }
    {
        self.form.receipt(&mut visitor.seat)
    }

    /// A receipt says from now on what another one says, too. Costs one load.
    pub fn join_receipt(&self, receipt: &mut Receipt, other: Receipt)
        requires { IsReceiptAt (table_of self.now) receipt.old × IsReceiptAt (table_of self.now) other }
        ensures table { IsReceiptAt (table_of self.now) receipt.new }
        ensures joined { said receipt.new ≡ said receipt.old ++ said other }
    {
        self.form.join_receipt(receipt, other);
    }

    /// The words at the end, with a receipt as the witness of what led there; never blocks. Costs O(1).
    pub fn close_on(self, receipt: Receipt) -> Words
        requires { IsReceiptAt (table_of self) receipt }
        ensures places { result.places ≡ (about_of self.entry).places }
        ensures led { IsLedOn (about_of self.entry) (numbers result) (said receipt) }
    {
        let SemaphoreOf { form } = self;
        form.close_on(receipt)
    }

    /// The words at the end, with a visitor as the witness of what led there; never blocks. Costs O(1).
    pub fn close_by(self, visitor: Visitor) -> Words
        requires { IsVisitorOf self visitor }
        ensures places { result.places ≡ (about_of self.entry).places }
        ensures led { IsLedTo (about_of self.entry) (numbers result) (view_of visitor) }
    {
        let SemaphoreOf { form } = self;
        form.close_by(visitor)
    }
}
