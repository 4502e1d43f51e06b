//! A pool of values, without a lock.

ghost use Rattle.std.specs.Prelude.{◌≡◌, ℕ, ◌+◌, ◌<◌, ◌≤◌, ◌∷◌, ◌++◌, [], All, false, IfOk, IfErr, IfSome, IsTrue, None, Some, replicate, slice_index_or, slice_set, vec_capacity, vec_len};
ghost use Rattle.saa_word_pool.specs.declared.table.Part.TheVariants.{Refused, Reserved, Holding, Returning, Returned};
ghost use Rattle.std.specs.Slots.{IsFull, slots_filled, slots_items, slots_len};
ghost use mathlib.Core.Option.{some};
ghost use lib.ListN.{get_elem?};
ghost use Rattle.saa_word_pool.specs.Kept.{IsRest, at_part};

use crate::hints::Hints;
use crate::table::{Counted, CountedBack, Looked, PoolRule, PutBack, Resting, Taken, View};
use atomic_table::{Closed, Seat, Table};
use std::alloc::{AllocError, Global};
use std::sync::Wait;

// The word of a slot: its value is out, or rests in it.
const OUT: u64 = 0;

const RESTS: u64 = 1;

// How often a call goes by the hints before it looks at every slot.
const ATTEMPTS: usize = 64;

/// Values that rest until somebody takes one out.
#[derive(Drop)]
pub struct Pool<T, K, P: PoolRule<T, K>> {
    table: Table<Option<T>, View<K>, K, Resting<P>, Global>,
    hints: Hints,
    // No value lies here outside of the table, whose slots threads share without sharing the values: so a pool may cross threads if its values may.
    places: u16,
    ghost hinted: { hints.slots ≡ places },
    ghost wide: { (table.shared.table_id.words ≡ places + 1) × (table.shared.table_id.slots ≡ places) },
}

/// A value that is out of a pool, and the slot that it comes from. Give it back, or keep its value by `into_value`: one that is dropped instead counts as out
/// from then on, and its value is dropped.
#[derive(Drop)]
pub struct Borrowed<T, K> {
    seat: Seat<Option<T>, View<K>>,
    index: u16,
    pub value: T,
    ghost holds: { seat.me ≡ (at_part seat.me.0.key (Holding index), (index, None) ∷ []) },
}

/// A call that was refused, as the witness that all values were out when it looked. It has no bytes.
#[derive(Drop)]
pub struct AllOut<T, K> {
    seat: Seat<Option<T>, View<K>>,
    ghost refused: { seat.me.0.part ≡ Refused },
}

/// A call that has given its value back, as the witness of that. It has no bytes.
#[derive(Drop)]
pub struct Receipt<T, K> {
    seat: Seat<Option<T>, View<K>>,
    ghost returned: { seat.me.0.part ≡ Returned },
}

// A call that has taken one from the count.
struct Reservation<T, K> {
    seat: Seat<Option<T>, View<K>>,
    ghost reserved: { seat.me ≡ (at_part seat.me.0.key Reserved, []) },
}

impl<T: Drop, K, P: PoolRule<T, K>> Pool<T, K, P> {
    ghost use Rattle.saa_word_pool.specs.Pools.{key_of, places_of};

    /// A pool that has these values, none of which is out. It takes memory for a slot of each, and no other call of a pool takes any.
    ///
    /// Costs O(values).
    ///
    /// # Errors
    ///
    /// `AllocError` if there is no memory: then the values are dropped.
    pub fn new(alloc: Global, values: Vec<T>, about: &K) -> Result<Self, AllocError>
        requires bounded { vec_len values < 65536 }
        requires belong { All (P.belongs about.now) values.items }
        ensures made { IfOk result (λ pool. (places_of pool ≡ vec_len values) × (key_of pool ≡ about.now)) }
    {
        let places = values.len() as u16;
        let hints = Hints::new(alloc, places)?;
        let words = opening_words(alloc, places)?;
        let slots = Self::lay(alloc, about, values)?;
        match Table::new(alloc, words.as_slice(), slots, about) {
            Ok((table, _seat)) => Ok(Pool {
                table,
                hints,
                places,
            }),
            Err(_refused) => Err(AllocError),
        }
    }

    // Puts each value into a slot.
    fn lay(alloc: Global, about: &K, values: Vec<T>) -> Result<Vec<Option<T>>, AllocError>
        requires { All (P.belongs about.now) values.items }
        ensures { IfOk result (λ slots. (vec_len slots ≡ vec_len values) × All (IsRest (P.belongs about.now)) slots.items) }
    {
        let mut values = values;
        let mut slots = Vec::with_capacity(alloc, values.len())?;
        while let Some(value) = values.pop() {
            slots.push_reserved(Some(value));
        }
        Ok(slots)
    }

    /// How many values the pool has, in or out.
    pub fn places(&self) -> u16
        ensures { result ≡ places_of self.now }
    {
        self.places
    }

    /// The values that are in, at the end, in an empty `room` of the caller's. A value that is out, or was kept by `into_value`, isn't among them.
    ///
    /// Costs O(places), and takes no memory: the room has to have some for each value ([`Self::places`]).
    pub fn close(self, room: Vec<T>) -> Vec<T>
        requires { (vec_len room ≡ 0) × (places_of self ≤ vec_capacity room) }
        ensures belong { All (P.belongs (key_of self)) result.items }
        ensures bounded { vec_len result ≤ places_of self }
    {
        let Pool {
            table,
            hints: _,
            places,
        } = self;
        let mut closed = table.close();
        let mut values = room;
        for index in 0..places {
            if let Some(value) = take_rest(&mut closed, usize::from(index)) {
                values.push_reserved(value);
            }
        }
        closed.free();
        values
    }
}

// Empties a slot: its value, if it rests there.
fn take_rest<T: Drop>(closed: &mut Closed<Option<T>, Global>, slot: usize) -> Option<T>
    requires words { IsFull closed.old.words × (slot < slots_len closed.old.words) }
    requires slots { (slot < slots_len closed.old.slots) × IsTrue (slice_index_or (slots_filled closed.old.slots) slot false) }
    ensures rest { IfSome result (λ value. (get_elem? (slots_items closed.old.words) slot ≡ some 1) × (get_elem? (slots_items closed.old.slots) slot ≡ some (Some value))) }
    ensures words { closed.new.words ≡ closed.old.words }
    ensures slots { (slots_items closed.new.slots ≡ slots_items closed.old.slots) × (slots_len closed.new.slots ≡ slots_len closed.old.slots) }
    ensures emptied { slots_filled closed.new.slots ≡ slice_set (slots_filled closed.old.slots) slot false }
{
    let number = closed.word(slot);
    let inside = closed.take(slot);
    if number == RESTS { inside } else { None }
}

// The words of a pool of which all values are in.
fn opening_words(alloc: Global, places: u16) -> Result<Vec<u64>, AllocError>
    ensures { IfOk result (λ words. words.items ≡ replicate places 1 ++ places ∷ []) }
{
    let mut words = Vec::from_elem(alloc, RESTS, usize::from(places))?;
    words.push(u64::from(places))?;
    Ok(words)
}

impl<T, K> Borrowed<T, K> {
    /// The value, for good: it never comes back to the pool, and counts as out from then on.
    pub fn into_value(self) -> T
        ensures { result ≡ self.value }
    {
        let Borrowed {
            seat: _,
            index: _,
            value,
        } = self;
        value
    }
}

impl<T, K, P: PoolRule<T, K>> Pool<T, K, P> {
    ghost use Rattle.saa_word_pool.specs.Pools.{IsAt, IsFrom, IsReceiptOf, IsRefusedBy, key_of};

    /// Takes a value out, which no other call gets until it is given back.
    ///
    /// It takes one from the count by an exchange, which it tries anew only where another call has changed the count meanwhile. Then it finds a slot, and
    /// looks anew only where another call was faster there. Costs O(1) besides: it looks at 16 words of hints at most, and at every slot only if other
    /// calls were in its way 64 times.
    ///
    /// # Errors
    ///
    /// `AllOut` exactly where the count is 0: as many calls have a value, or are about to take one out or to count one that they gave back, as there are
    /// values. Nothing has changed then.
    pub fn take<R: Wait>(&self, rt: &R) -> Result<Borrowed<T, K>, AllOut<T, K>>
        ensures taken { IfOk result (λ borrowed. IsFrom self.now borrowed × P.belongs (key_of self.now) borrowed.value) }
        ensures refused { IfErr result (λ all_out. IsRefusedBy self.now all_out) }
    {
        let reservation = self.reserve(rt)?;
        Ok(self.redeem(rt, reservation))
    }

    // Takes one from the count.
    fn reserve<R: Wait>(&self, rt: &R) -> Result<Reservation<T, K>, AllOut<T, K>>
        ensures reserved { IfOk result (λ reservation. IsAt self.now reservation.seat) }
        ensures refused { IfErr result (λ all_out. IsRefusedBy self.now all_out) }
    {
        let count = usize::from(self.places);
        let (mut found, mut seat) = self.table.shared.load_new_seat::<Looked>(count);
        for _turn in rt.forever() {
            if found == 0 {
                return Err(AllOut { seat });
            }
            let seen = found;
            found = self
                .table
                .shared
                .compare_exchange::<Counted>(&mut seat, count, seen, seen - 1);
            if found == seen {
                return Ok(Reservation { seat });
            }
        }
        unreachable!()
    }

    // Takes the value out of a slot, for a call that has taken one from the count.
    fn redeem<R: Wait>(&self, rt: &R, reservation: Reservation<T, K>) -> Borrowed<T, K>
        requires { IsAt self.now reservation.seat }
        ensures { IsFrom self.now result × P.belongs (key_of self.now) result.value }
    {
        let mut reservation = reservation;
        for _turn in rt.forever() {
            match self.seek(reservation) {
                Ok(borrowed) => return borrowed,
                Err(still) => reservation = still,
            }
            match self.scan(reservation) {
                Ok(borrowed) => return borrowed,
                Err(still) => reservation = still,
            }
        }
        unreachable!()
    }

    // Goes by the hints, so often that other calls must have been in the way each time.
    fn seek(&self, reservation: Reservation<T, K>) -> Result<Borrowed<T, K>, Reservation<T, K>>
        requires { IsAt self.now reservation.seat }
        ensures taken { IfOk result (λ borrowed. IsFrom self.now borrowed × P.belongs (key_of self.now) borrowed.value) }
        ensures missed { IfErr result (λ still. IsAt self.now still.seat) }
    {
        let mut reservation = reservation;
        for _attempt in 0..ATTEMPTS {
            if let Some(index) = self.hints.claim() {
                match self.take_from(index, reservation) {
                    Ok(borrowed) => return Ok(borrowed),
                    Err(still) => reservation = still,
                }
            }
        }
        Err(reservation)
    }

    // Looks at every slot once.
    fn scan(&self, reservation: Reservation<T, K>) -> Result<Borrowed<T, K>, Reservation<T, K>>
        requires { IsAt self.now reservation.seat }
        ensures taken { IfOk result (λ borrowed. IsFrom self.now borrowed × P.belongs (key_of self.now) borrowed.value) }
        ensures missed { IfErr result (λ still. IsAt self.now still.seat) }
    {
        let mut reservation = reservation;
        for index in 0..self.places {
            match self.take_from(index, reservation) {
                Ok(borrowed) => {
                    self.hints.clear(index);
                    return Ok(borrowed);
                }
                Err(still) => reservation = still,
            }
        }
        Err(reservation)
    }

    // Takes the value of a slot, where it rests there.
    fn take_from(
        &self,
        index: u16,
        reservation: Reservation<T, K>,
    ) -> Result<Borrowed<T, K>, Reservation<T, K>>
        requires within { index < self.now.places }
        requires ours { IsAt self.now reservation.seat }
        ensures taken { IfOk result (λ borrowed. IsFrom self.now borrowed × P.belongs (key_of self.now) borrowed.value) }
        ensures missed { IfErr result (λ still. IsAt self.now still.seat) }
    {
        let slot = usize::from(index);
        if self.table.shared.peek(slot) != RESTS {
            return Err(reservation);
        }
        let Reservation { mut seat } = reservation;
        let found = self.table.shared.swap::<Taken<P>>(&mut seat, slot, OUT);
        if found != RESTS {
            return Err(Reservation { seat });
        }
        match self.table.shared.exchange(&mut seat, slot, None) {
            Some(value) => Ok(Borrowed { seat, index, value }),
            None => unreachable!(),
        }
    }

    /// Gives a value back, into the slot that it was taken from, and counts it then. It is never refused. Costs O(1), and waits for nothing.
    pub fn give(&self, borrowed: Borrowed<T, K>) -> Receipt<T, K>
        requires ours { IsFrom self.now borrowed }
        requires belongs { P.belongs (key_of self.now) borrowed.value }
        ensures { IsReceiptOf self.now result }
    {
        let Borrowed {
            mut seat,
            index,
            value,
        } = borrowed;
        let slot = usize::from(index);
        match self.table.shared.exchange(&mut seat, slot, Some(value)) {
            None => {}
            Some(_) => unreachable!(),
        }
        self.table.shared.store::<PutBack>(&mut seat, slot, RESTS);
        self.hints.show(index);
        self.table
            .shared
            .fetch_add::<CountedBack>(&mut seat, usize::from(self.places), 1);
        Receipt { seat }
    }
}
