//! Connections to ledgers: how they are opened, used, replaced, and looked at in the end.

ghost use Rattle.std.specs.Prelude.{◌≡◌, IfOk, IfSome};

use crate::counts::{Done, Found};
use crate::ledger::{self, BALANCE, CREDITED, TRANSFERS};
use crate::pooled::{Pooled, Turn, Unopened};
use sqlite::{Alter, Connection, File, FileStore};

/// What opens databases, each by its number.
pub trait Databases<S: Alter + Drop> {
    /// Opens the database of this number, and makes an empty one if there is none; none if the system or SQLite refuses it.
    fn open(&self, number: usize) -> Option<Connection<S>>;
}

/// What connections to files store.
pub type Store = FileStore<File>;

/// A connection, and the number of its database.
///
/// It is generic in the connection: that a thread may be sent one is found for each type of connection, and isn't for a struct that names this one.
#[derive(Drop)]
pub struct Numbered<C: Drop> {
    pub number: usize,
    pub connection: C,
}

/// A connection to a database that is a file.
pub type Database = Numbered<Connection<Store>>;

impl Pooled for Numbered<Connection<Store>> {
    fn number(&self) -> usize {
        self.number
    }

    fn is_in_order(&self) -> bool {
        ledger::is_in_order(&self.connection)
    }

    fn take_turn(&mut self, turn: Turn) -> Option<Done> {
        take_turn(&mut self.connection, turn)
    }

    fn found(&mut self) -> Option<Found> {
        found(&mut self.connection)
    }
}

/// A connection to the database of this number, with an empty ledger.
pub fn created<S: Alter + Drop, F: Databases<S>>(
    files: &F,
    number: usize,
) -> Option<Numbered<Connection<S>>>
    ensures { IfSome result (λ database. database.number ≡ number) }
{
    let mut connection = files.open(number)?;
    if ledger::make(&mut connection) {
        Some(Numbered { number, connection })
    } else {
        None
    }
}

/// Closes a connection, and opens its database again: what was committed is there, and what wasn't is gone.
pub fn reopened<S: Alter + Drop, F: Databases<S>>(
    files: &F,
    broken: Numbered<Connection<S>>,
) -> Result<Numbered<Connection<S>>, Unopened>
    ensures { IfOk result (λ database. database.number ≡ broken.number) }
{
    let Numbered { number, connection } = broken;
    // Before the open, which is refused while another connection has the file.
    drop(connection);
    match files.open(number) {
        Some(connection) => Ok(Numbered { number, connection }),
        None => Err(Unopened),
    }
}

/// Makes a transfer at a connection that is in order, and reads the balance.
pub fn take_turn<S: Alter>(connection: &mut Connection<S>, turn: Turn) -> Option<Done> {
    if !ledger::transfer(connection, i64::from(turn.amount)) {
        return None;
    }
    let balance = ledger::number::<_, i64>(connection, BALANCE)?;
    if turn.breaks && !ledger::break_off(connection) {
        return None;
    }
    Some(Done {
        transfers: 1,
        credited: u64::from(turn.amount),
        balanced: u64::from(balance == 0),
        replaced: 0,
    })
}

/// What SQL finds in the ledger of a connection.
pub fn found<S: Alter>(connection: &mut Connection<S>) -> Option<Found> {
    let transfers = ledger::number(connection, TRANSFERS)?;
    let credited = ledger::number(connection, CREDITED)?;
    let balance = ledger::number(connection, BALANCE)?;
    Some(Found {
        transfers,
        credited,
        balance,
    })
}
