//! What a task keeps of its registration at a form: nothing, what it was answered at once, or a place that is out of the pool.

ghost use Rattle.std.specs.Prelude.{◌≡◌, false, true};

use crate::form::BorrowedPlace;
use crate::word_form::WordForm;
use saa_core_spec::polling::How;
use saa_word_threads::visitor::Visitor;
use std::marker::Model;
use std::mem;

/// What is kept of a registration.
#[derive(Drop)]
pub enum Kept<A, P: Drop, W> {
    /// Nothing is registered.
    Nothing,
    /// The value that it was answered at once, what it asked, and the visitor that was told.
    AtOnce(u8, A, Visitor),
    /// Its place, and what it asked.
    AtPlace(BorrowedPlace<P, W>, A),
}

/// What a task keeps of its registration at a form.
///
/// It is unregistered until the form registers it, and again once its answer is taken or it is cancelled there. One that is dropped while it is registered
/// keeps its place out of the pool, and what it is granted stays taken, so cancel it first; pagers and futures do.
#[derive(Drop)]
pub struct Registration<W: WordForm> {
    kept: Kept<W::Ask, W::Place, W>,
    is_sync: bool,
}

impl<W: WordForm> Model for Registration<W> {
    ghost use Rattle.saa_word_lock_free.specs.Registered.{Registered};
    ghost use Rattle.saa_word_lock_free.specs.KeptAs.{Awaits, IsKept, registered_as};

    ghost Value = { Registered W.Ask W };

    ghost view = { λ registration. registered_as registration.is_sync registration.kept };

    ghost invariant = { λ registration. IsKept (Awaits W.calls W.table W.home W.rests) registration.kept };
}

impl<W: WordForm> Registration<W> {
    ghost use Rattle.saa_word_lock_free.specs.Registered.{at_once, at_place, is_busy, is_wrong_mode, unregistered};
    ghost use Rattle.saa_word_lock_free.specs.KeptAs.{registered_as, Awaits, IsKept, IsKeptAs};

    /// One that is registered for nothing. Takes no memory.
    pub fn new() -> Self
        ensures { result ≡ unregistered }
    {
        Registration {
            kept: Kept::Nothing,
            is_sync: false,
        }
    }

    // One that was answered at once.
    pub(crate) fn at_once(value: u8, ask: W::Ask, visitor: Visitor, is_sync: bool) -> Self
        ensures { result ≡ at_once value ask visitor is_sync }
    {
        Registration {
            kept: Kept::AtOnce(value, ask, visitor),
            is_sync,
        }
    }

    // One that has a place which awaits the answer.
    pub(crate) fn at_place(borrowed: BorrowedPlace<W::Place, W>, ask: W::Ask, is_sync: bool) -> Self
        requires { Awaits W.calls W.table W.home W.rests borrowed.seat.me.0.key ask borrowed.value }
        ensures { result ≡ at_place borrowed.seat.me.0.key borrowed.seat.table_id ask is_sync }
    {
        Registration {
            kept: Kept::AtPlace(borrowed, ask),
            is_sync,
        }
    }

    /// Whether something is registered: it waits, or its answer isn't taken yet.
    pub fn is_registered(&self) -> bool
        ensures { result ≡ is_busy self.now }
    {
        !matches!(self.kept, Kept::Nothing)
    }

    // Whether it is polled in the way of the other mode.
    pub(crate) fn is_wrong_mode(&self, how: How) -> bool
        ensures { result ≡ is_wrong_mode how self.now }
    {
        match self.kept {
            Kept::Nothing => false,
            _ => !how.is_right_mode(self.is_sync),
        }
    }

    // What is kept of it, and its mode; it is registered for nothing then.
    pub(crate) fn take(&mut self) -> (Kept<W::Ask, W::Place, W>, bool)
        ensures taken { IsKeptAs (Awaits W.calls W.table W.home W.rests) self.old result.1 result.0 }
        ensures left { self.new ≡ unregistered }
    {
        let Registration { kept, is_sync } = mem::replace(self, Registration::new());
        (kept, is_sync)
    }
}
