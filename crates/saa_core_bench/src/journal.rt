//! A bench that keeps its history: every command that it did, with its reply, in order.
//!
//! For a core behind a lock of your own no contract can say what a call did at the moment of the lock. A journal can: what
//! all threads made together is a history, and the type keeps that it replays, from the core that was handed in to the
//! bench as it stands. Each thread has a share, which counts its own calls; the shares together count the history, so a
//! thread that asks for all of them back knows that nothing is missing.

ghost use Rattle.std.specs.Prelude.{◌≡◌, ℕ, ◌↔◌, ◌+◌, ◌<◌, ◌++◌, ◌∷◌, [], All, IfErr, IfOk, IfSome, IsSome, length, replicate, sum_by, ◌≤◌};
ghost use Rattle.saa_core_spec.specs.Object.{Object};
ghost use Rattle.saa_core_spec.specs.Run.{IsWithin, done};
ghost use Rattle.saa_core.specs.declared.ticket.Registration.TheVariants.{Unregistered};
ghost use Rattle.saa_core.specs.Tickets.{object_of};

use crate::bench::{Bench, Command, Reply};
use saa_core::primitive::Primitive;
use std::alloc::{AllocError, Global};
use std::io;
use std::io::ErrorKind;
use std::marker::{Brand, Model};
use std::sync::ledger::{self, Blank, Book, Ledger};
use thiserror::Error;

/// Which journal a share is of, and what its history replays from.
///
/// No program implements it: a function that makes a journal is generic over it, and is called with `Brand`.
pub trait Journal: Ledger {
    // The bench as it was made, and how many shares are dealt: as many as the ledger has parts.
    ghost opening: { Object };

    ghost dealt: { ℕ };
}

impl Journal for Brand {
    ghost use Rattle.saa_core_bench.specs.History.{nothing};

    ghost opening = { nothing };

    ghost dealt = { 0 };
}

/// Memory for the history was refused; nothing is changed.
#[derive(Clone, Copy, Debug, Eq, Error, PartialEq)]
#[error("memory for the journal's history was refused")]
pub struct JournalMemory;

/// Of the kind `OutOfMemory`.
impl From<JournalMemory> for io::Error {
    ghost use Rattle.std.specs.IoError.{error_kind};
    ghost use Rattle.std.specs.declared.io.ErrorKind.TheVariants.{OutOfMemory};

    ghost from_gives = { λ _ error. error_kind error ≡ OutOfMemory };

    fn from(_refused: JournalMemory) -> io::Error {
        io::Error::from(ErrorKind::OutOfMemory)
    }
}

/// The right to call one journal, with the count of the calls that were made by it.
///
/// It fits only the journal that dealt it, which is checked as a program is proved. It can't be copied.
///
/// Contracts see how many calls were made by it.
#[derive(Drop)]
pub struct Share<J: Journal> {
    calls: usize,
    token: ledger::Share<J>,
}

impl<J: Journal> Model for Share<J> {
    ghost use Rattle.std.specs.Prelude.{◌≡◌};
    ghost use Rattle.saa_core_bench.specs.Journals.{ShareState};

    ghost Value = { ShareState };

    ghost view = { λ share. record { calls = share.calls } };

    ghost invariant = { λ share. (share.token.parts ≡ 1) × (share.token.amount ≡ share.calls) };
}

impl<J: Journal> Share<J> {
    /// How many calls were made by it.
    pub fn calls(&self) -> usize
        ensures { result ≡ self.now.calls }
    {
        self.calls
    }

    // Counts one call more, of a journal that counts so many and one more fits.
    fn count(&mut self, book: &mut Book<J>)
        requires { book.old.total < 18446744073709551615 }
        ensures calls { self.new.calls ≡ self.old.calls + 1 }
        ensures total { book.new.total ≡ book.old.total + 1 }
    {
        let Share { calls, token } = self;
        book.audit(token);
        book.add(token, 1);
        *calls += 1;
    }
}

/// A bench with its history, and the book of the shares that were dealt.
///
/// Contracts see the bench, the history, and for how many commands the history has memory.
#[derive(Drop)]
pub struct Journalled<P: Primitive, J: Journal> {
    bench: Bench<P>,
    history: Vec<(Command<P>, Reply<P>)>,
    book: Book<J>,
    dealt: u16,
}

impl<P: Primitive, J: Journal> Model for Journalled<P, J> {
    ghost use Rattle.std.specs.Prelude.{length, vec_capacity};
    ghost use Rattle.saa_core_bench.specs.Journals.{IsJournal, JournalState};

    ghost Value = { JournalState P.Call P.Ask P.Answer P.Value };

    ghost view = { λ journal. record { bench = journal.bench; history = journal.history.items; reserved = vec_capacity journal.history } };

    ghost invariant = { λ journal. IsJournal P.request P.step P.value J.opening J.dealt journal.bench journal.history.items journal.book.total journal.dealt };
}

impl<P: Primitive, J: Journal> Journalled<P, J> {
    /// A bench over the core that is handed in, with no history yet, and so many shares to call it by.
    ///
    /// The blank has as many parts as there are shares, and at least one. Costs O(`pagers` + `shares`). Errors come only
    /// where memory was refused; the core is dropped then.
    pub fn new(
        alloc: Global,
        core: P,
        pagers: u16,
        blank: Blank,
        shares: u16,
    ) -> Result<(Self, Vec<Share<J>>), AllocError>
        requires name { blank.name ≡ J.name }
        requires parts { blank.parts ≡ J.parts }
        requires dealt { blank.parts ≡ shares }
        requires one_each { J.dealt ≡ J.parts }
        requires some { 0 < shares }
        requires opening { object_of (P.core core) (replicate pagers Unregistered) ≡ J.opening }
        ensures bench { IfOk result (λ made. made.0.bench ≡ J.opening) }
        ensures history { IfOk result (λ made. made.0.history ≡ []) }
        ensures shares { IfOk result (λ made. length made.1.items ≡ shares) }
        ensures unused { IfOk result (λ made. All (λ share. share.calls ≡ 0) made.1.items) }
    {
        let bench = Bench::new(alloc, core, pagers)?;
        let mut dealt = Vec::with_capacity(alloc, usize::from(shares))?;
        let (book, mut rest) = blank.open::<J>();
        for _share in 0..shares {
            let token = rest.split_off(1, 0);
            dealt.push_reserved(Share { calls: 0, token });
        }
        let journal = Journalled {
            bench,
            history: Vec::new(alloc),
            book,
            dealt: shares,
        };
        Ok((journal, dealt))
    }

    /// How many pagers there are.
    pub fn pagers(&self) -> usize
        ensures { result ≡ length self.now.bench.book }
    {
        self.bench.pagers()
    }

    /// Does one command, writes it into the history with its reply, and counts it in the caller's share.
    ///
    /// The history grows first. `JournalMemory`: memory for that was refused; history, share and bench are as they were.
    pub fn call(
        &mut self,
        command: &Command<P>,
        share: &mut Share<J>,
    ) -> Result<Reply<P>, JournalMemory>
        requires { IsWithin (length self.old.bench.book) command.now }
        ensures acts { IfOk result (λ reply. done P.request P.step P.value command.now self.old.bench ≡ record { state = self.new.bench; reply = reply }) }
        ensures written { IfOk result (λ reply. self.new.history ≡ self.old.history ++ (command.now, reply) ∷ []) }
        ensures counted { IfOk result (λ reply. share.new.calls ≡ share.old.calls + 1) }
        ensures refused { IfErr result (λ refused. self.new.bench ≡ self.old.bench) }
        ensures unwritten { IfErr result (λ refused. self.new.history ≡ self.old.history) }
        ensures uncounted { IfErr result (λ refused. share.new.calls ≡ share.old.calls) }
        ensures no_room { IfErr result (λ refused. self.old.reserved ≤ length self.old.history) }
        ensures pagers { length self.new.bench.book ≡ length self.old.bench.book }
    {
        let Journalled {
            bench,
            history,
            book,
            dealt: _dealt,
        } = self;
        if history.reserve(1).is_err() {
            return Err(JournalMemory);
        }
        let reply = bench.do_one(command);
        history.push_reserved((*command, reply));
        share.count(book);
        Ok(reply)
    }

    /// Every command that was done, with its reply, in order.
    pub fn history(&self) -> &[(Command<P>, Reply<P>)]
        ensures { result.now ≡ self.now.history }
    {
        &self.history
    }

    /// How many commands were done, by the shares alone: `Some` exactly where all shares that were dealt are handed in, and
    /// then it is the length of the history, and what the shares count together. The shares end either way. Costs O(how many
    /// shares there are).
    pub fn gather(&mut self, shares: Vec<Share<J>>) -> Option<usize>
        requires one_each { J.dealt ≡ J.parts }
        ensures all { IsSome result ↔ (length shares.items ≡ J.parts) }
        ensures number { IfSome result (λ number. number ≡ length self.old.history) }
        ensures counted { IfSome result (λ number. number ≡ sum_by (λ share. share.calls) shares.items) }
        ensures bench { self.new.bench ≡ self.old.bench }
        ensures history { self.new.history ≡ self.old.history }
    {
        if shares.len() != usize::from(self.dealt) {
            return None;
        }
        merge(&mut self.book, shares)
    }
}

// What all shares that were dealt count together, each of which ends by this; `None` only where there are none.
fn merge<J: Journal>(book: &mut Book<J>, shares: Vec<Share<J>>) -> Option<usize>
    requires all { length shares.items ≡ J.parts }
    requires fits { book.old.total ≤ 18446744073709551615 }
    ensures some { IsSome result ↔ (0 < length shares.items) }
    ensures number { IfSome result (λ number. number ≡ book.old.total) }
    ensures counted { IfSome result (λ number. number ≡ sum_by (λ share. share.calls) shares.items) }
    ensures book { book.new.total ≡ book.old.total }
{
    let mut shares = shares;
    let Share { calls, token } = shares.pop()?;
    let mut all = token;
    let mut number = calls;
    while let Some(Share { calls, token }) = shares.pop() {
        all.merge(token);
        book.audit(&mut all);
        number += calls;
    }
    book.audit(&mut all);
    Some(number)
}
