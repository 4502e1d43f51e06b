//! Looks before a call registers: it tries where what is asked may be there, until its spin policy says to register.

use super::Form;
use crate::rest::Spent;
use crate::spin_policy::NONE;
use saa_core::primitive::Primitive;
use std::sync::Wait;

impl<R: Wait + Drop, P: Primitive> Form<R, P> {
    // Looks before it asks: tries where what is asked may be there, until its spin policy says to register. `None`: it is to register.
    //
    // A call that finds it at once makes one turn at the mutex, without a ticket.
    #[inline(always)]
    pub(crate) fn look(&self, ask: P::Ask) -> Option<u8> {
        if self.unregistered == NONE {
            return None;
        }
        if self.hint.is_watched() && !P::may_succeed(ask, self.hint.word()) {
            return self.look_on(ask);
        }
        let mut locked = self.lock();
        let answer = locked.core.try_now(ask);
        self.unlock(locked);
        if answer.is_some() {
            return answer;
        }
        self.look_on(ask)
    }

    // Looks at the hint, which is kept up meanwhile.
    #[inline(never)]
    pub(crate) fn look_on(&self, ask: P::Ask) -> Option<u8> {
        let is_first = self.hint.arrive();
        let mut spent = Spent::new();
        let answer = self.look_while(ask, is_first, &mut spent);
        self.hint.depart(&spent);
        answer
    }

    // Looks so often, and tries where the hint says that it may have what it asks, or is none yet. Says how often it looked and rested.
    fn look_while(&self, ask: P::Ask, is_due: bool, spent: &mut Spent) -> Option<u8> {
        let mut is_due = is_due;
        for turn in 0..self.unregistered.turns() {
            spent.look();
            if is_due || P::may_succeed(ask, self.hint.word()) {
                // Waits for nobody at the mutex: all who look come at once when the hint changes, and would queue there.
                if let Some(mut locked) = self.mutex.try_lock() {
                    is_due = false;
                    locked.count();
                    let answer = locked.core.try_now(ask);
                    self.unlock(locked);
                    if answer.is_some() {
                        return answer;
                    }
                }
            }
            spent.rest(self.unregistered.rest(turn));
        }
        None
    }
}
