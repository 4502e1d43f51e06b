//! What a form shows of itself: for how many waiters it has slots, how many there are, and its `Debug`.

ghost use Rattle.std.specs.Prelude.{◌≡◌};
ghost use Rattle.saa_sync.specs.Forms.{room_of};

use super::Form;
use arrayvec::ArrayString;
use saa_core::granting::{Granting, Needs};
use saa_core::primitive::Primitive;
use std::fmt;
use std::fmt::{Debug, Write};
use std::sync::Wait;

// How many bytes a core's text has at most: those of a barrier with the largest numbers are fewer.
const TEXT: usize = 96;

impl<R: Wait + Drop, P: Primitive> Form<R, P> {
    /// For how many waiters there are slots: the room that it was made with. Takes no lock.
    pub fn room(&self) -> usize
        ensures { result ≡ room_of self.now }
    {
        self.parkers.len()
    }
}

impl<R: Wait + Drop, N: Needs> Form<R, Granting<N>>
where
    Granting<N>: Primitive,
{
    /// How many waiters there are: those that are registered and not answered yet. Others may come and go as this is read.
    pub fn waiting(&self) -> usize {
        usize::from(self.lock().core.waiting())
    }
}

impl<R: Wait + Drop, P: Primitive + Debug> Debug for Form<R, P> {
    /// Shows the core, with what is held and how many wait, and the room. It waits for one turn at the mutex, and writes with the mutex free.
    fn fmt<W: fmt::Write>(&self, f: &mut fmt::Formatter<W>) -> fmt::Result {
        let core = self.text_of_core()?;
        let room = self.room();
        write!(f, "Form {{ core: {core}, room: {room} }}")
    }
}

impl<R: Wait + Drop, P: Primitive + Debug> Form<R, P> {
    // What the core shows of itself.
    fn text_of_core(&self) -> Result<ArrayString<TEXT>, fmt::Error> {
        let mut text = ArrayString::new();
        let locked = self.lock();
        write!(text, "{:?}", locked.core)?;
        drop(locked);
        Ok(text)
    }
}
