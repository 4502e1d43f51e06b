//! Workers that share a few connections by a pool.

use crate::counts::{Done, Found};
use crate::pooled::{Opens, Pooled, Turn};
use saa_sync_pool::{Checkout, Pool};
use std::alloc::Global;
use std::sync::Wait;
use std::thread::{self, Threads};

/// How many connections there are, each to a database of its own.
pub const CONNECTIONS: usize = 3;

// How many workers may wait for one.
const WAITERS: u16 = 16;

/// How many connections go out one after another before the workers start.
pub const FIRST: usize = 6;

// How many turns each worker has. Their amounts are 1, 2, 3 and so on.
const TURNS: u16 = 10;

// The turn in which the first worker breaks its connection: one of its later turns, or a turn of another worker, finds it so.
const BREAKS: u16 = 6;

/// Connections that are shared. Each is in a box, whose size is known whatever the connection is.
pub type Connections<'r, R, T> = Pool<'r, R, Box<T>, CONNECTIONS>;

/// A connection that is out.
type Lent<'p, 'r, R, T> = Checkout<'p, 'r, R, Box<T>, CONNECTIONS>;

/// What was seen of a pool.
#[derive(Clone, Copy, PartialEq)]
pub struct Seen {
    /// The numbers of the connections that went out one after another, before the workers started.
    pub order: [usize; FIRST],
    /// What workers did.
    pub done: Done,
    /// What SQL finds in all databases, once all connections are back.
    pub found: Found,
}

/// Has so many workers share connections; then closes the pool, takes all connections out, and asks SQL.
///
/// None if memory, a file, SQLite or the pool refused.
pub fn share<R, T, F>(rt: &R, alloc: Global, files: &F, workers: u16) -> Option<Seen>
where
    R: Threads + Wait + Sync,
    T: Pooled + Drop + Send,
    F: Opens<T> + Sync,
{
    let pool: Connections<'_, R, T> = filled(rt, alloc, files)?;
    let order = order(&pool)?;
    let done = all_work(rt, alloc, &pool, files, workers)?;
    pool.close();
    let found = found(alloc, &pool)?;
    Some(Seen { order, done, found })
}

// A pool of connections, each to an empty ledger.
fn filled<'r, R, T, F>(rt: &'r R, alloc: Global, files: &F) -> Option<Connections<'r, R, T>>
where
    R: Wait,
    T: Pooled + Drop,
    F: Opens<T>,
{
    let pool: Connections<'r, R, T> = Pool::new(rt, alloc, WAITERS).ok()?;
    for number in 0..CONNECTIONS {
        if !is_added(&pool, files, number) {
            return None;
        }
    }
    Some(pool)
}

// Adds a connection; whether it did.
fn is_added<R, T, F>(pool: &Connections<'_, R, T>, files: &F, number: usize) -> bool
where
    R: Wait,
    T: Pooled + Drop,
    F: Opens<T>,
{
    match files.created(number) {
        Some(connection) => pool.add(connection).is_ok(),
        None => false,
    }
}

// Checks connections out one after another, and gives each back before the next: their numbers.
fn order<R: Wait, T: Pooled + Drop>(pool: &Connections<'_, R, T>) -> Option<[usize; FIRST]> {
    let mut order = [0; FIRST];
    for number in &mut order {
        *number = next_number(pool)?;
    }
    Some(order)
}

// The number of the connection that goes out next, which comes back at once.
fn next_number<R: Wait, T: Pooled + Drop>(pool: &Connections<'_, R, T>) -> Option<usize> {
    let lent = pool.check_out().ok()?;
    Some(lent.number())
}

// What so many workers do, each in a thread of its own.
fn all_work<R, T, F>(
    rt: &R,
    alloc: Global,
    pool: &Connections<'_, R, T>,
    files: &F,
    workers: u16,
) -> Option<Done>
where
    R: Threads + Wait + Sync,
    T: Pooled + Drop + Send,
    F: Opens<T> + Sync,
{
    let workers = usize::from(workers);
    let by_worker = thread::map_indices(
        rt,
        alloc,
        workers,
        &|worker| { work(pool, files, worker) },
    );
    let mut all = Done::default();
    for done in by_worker.ok()? {
        all = all.with(done?);
    }
    Some(all)
}

// What one worker does in all its turns.
fn work<R, T, F>(pool: &Connections<'_, R, T>, files: &F, worker: usize) -> Option<Done>
where
    R: Wait,
    T: Pooled + Drop,
    F: Opens<T>,
{
    let mut all = Done::default();
    for amount in 1..=TURNS {
        let breaks = worker == 0 && amount == BREAKS;
        all = all.with(take_turn(pool, files, Turn { amount, breaks })?);
    }
    Some(all)
}

// Checks a connection out for a turn, and replaces it first if it is broken. Its guard puts it back.
fn take_turn<R, T, F>(pool: &Connections<'_, R, T>, files: &F, turn: Turn) -> Option<Done>
where
    R: Wait,
    T: Pooled + Drop,
    F: Opens<T>,
{
    let mut lent = pool.check_out().ok()?;
    if lent.is_in_order() {
        lent.take_turn(turn)
    } else {
        take_turn_anew(lent, files, turn)
    }
}

// Replaces a broken connection, and takes a turn with the other.
fn take_turn_anew<R, T, F>(broken: Lent<'_, '_, R, T>, files: &F, turn: Turn) -> Option<Done>
where
    R: Wait,
    T: Pooled + Drop,
    F: Opens<T>,
{
    let mut lent = broken
        .replace(|connection| files.reopened(connection))
        .ok()?;
    let done = lent.take_turn(turn)?;
    Some(Done {
        replaced: 1,
        ..done
    })
}

// What SQL finds in the ledgers of all connections that are back in a closed pool; it takes them out.
fn found<R: Wait, T: Pooled + Drop>(alloc: Global, pool: &Connections<'_, R, T>) -> Option<Found> {
    let mut all = Found::default();
    for mut connection in pool.drain(alloc).ok()? {
        all = all.with(connection.found()?);
    }
    Some(all)
}
