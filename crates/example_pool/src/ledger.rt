//! A ledger in a SQLite database: how transfers are entered, and what SQL says of them.
//!
//! Each function is for any store of the kit's `sqlite`, and most make one call of it: a proof over one store, or over several calls, takes minutes.

use sqlite::types::FromSql;
use sqlite::{Alter, Connection, Transaction, params};

const TABLE: &str = "CREATE TABLE entry (amount INTEGER NOT NULL) STRICT";

const ENTER: &str = "INSERT INTO entry VALUES (?1)";

const HALF: &str = "BEGIN; INSERT INTO entry VALUES (1)";

/// How many transfers there are: each has one credit.
pub const TRANSFERS: &str = "SELECT count(*) FROM entry WHERE amount > 0";

/// The sum of all credits.
pub const CREDITED: &str = "SELECT coalesce(sum(amount), 0) FROM entry WHERE amount > 0";

/// The sum of all entries: 0 if each transfer has both of its entries.
pub const BALANCE: &str = "SELECT coalesce(sum(amount), 0) FROM entry";

/// Makes an empty ledger; whether it did.
pub fn make<S: Alter>(connection: &mut Connection<S>) -> bool {
    connection.execute_batch(TABLE).is_ok()
}

/// Whether a connection is in order: not in a transaction that its last user left open.
pub fn is_in_order<S: Alter>(connection: &Connection<S>) -> bool {
    connection.is_autocommit()
}

/// Enters a credit and a debit of this amount in one transaction, both or none; whether it did.
pub fn transfer<S: Alter>(connection: &mut Connection<S>, amount: i64) -> bool {
    connection.is_autocommit() && enter_both(connection.transaction(), amount)
}

// Enters both, and commits them.
fn enter_both<S: Alter>(mut transaction: Transaction<'_, S>, amount: i64) -> bool {
    enter(&mut transaction, amount)
        && enter(&mut transaction, amount.saturating_neg())
        && transaction.commit().is_ok()
}

// Enters an amount; whether it did.
fn enter<S: Alter>(transaction: &mut Transaction<'_, S>, amount: i64) -> bool {
    transaction.execute(ENTER, params![amount]).is_ok()
}

/// Breaks a connection: it is left in the middle of a transfer, in a transaction that nothing ends. Whether it is.
pub fn break_off<S: Alter>(connection: &mut Connection<S>) -> bool {
    connection.execute_batch(HALF).is_ok()
}

/// The number that a query shows; none if SQLite refuses it, or it shows something else.
pub fn number<S: Alter, N: FromSql>(connection: &mut Connection<S>, query: &str) -> Option<N> {
    let row = connection.query_row(query, &[]).ok()?;
    row.get(0).ok()
}
