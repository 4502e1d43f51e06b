//! Receipts: witnesses of what a place or a visitor has seen of the one history of its form.
//!
//! A receipt makes no step, is needed for no call, and takes no bytes. What it says stays so: from then on the history begins with it.

ghost use Rattle.std.specs.Prelude.{◌≡◌, [], ◌∷◌, ◌++◌};
ghost use Rattle.saa_word_threads.specs.declared.table.Role.TheVariants.{Acting, Receipt as IsReceipt};
ghost use Rattle.saa_word_threads.specs.Kept.{departed};
ghost use Rattle.saa_word_threads.specs.Dealt.{numbers};

use crate::form::Form;
use crate::place::Place;
use crate::table::{JoinedReceipt, Received, View, Witnessed};
use crate::words::Words;
use atomic_table::Seat;
use std::marker::Brand;

/// What a place or a visitor had seen when it gave this, and what other receipts say that were joined to it.
#[derive(Drop)]
pub struct Receipt {
    pub(crate) seat: Seat<(), View>,
    ghost receipt: { (seat.me.0.role ≡ IsReceipt) × (seat.me.1 ≡ []) },
}

impl Form {
    ghost use Rattle.saa_word_threads.specs.Receipts.{IsLedOn, IsReceiptAt, said};

    // Gives a receipt of what this seat has seen. Costs a load.
    pub(crate) fn receipt(&self, seat: &mut Seat<(), View>) -> Receipt
        requires table { seat.old.table_id ≡ self.now.table.shared.table_id }
        requires acting { seat.old.me.0.role ≡ Acting }
        ensures same { (seat.new.table_id ≡ seat.old.table_id) × (seat.new.id ≡ seat.old.id) × (seat.new.me ≡ seat.old.me) }
        ensures table { IsReceiptAt self.now.table.shared.table_id result }
        ensures seen { said result ≡ departed seat.old.me.0 ∷ [] }
    {
        let seat = self.table.shared.split_seat::<Witnessed>(seat);
        Receipt { seat }
    }

    // Gives a receipt of what a place has seen.
    pub(crate) fn receipt_at(&self, place: &mut Place) -> Receipt
        requires { place.old.seat.table_id ≡ self.now.table.shared.table_id }
        ensures same { place.new ≡ place.old }
        ensures table { IsReceiptAt self.now.table.shared.table_id result }
        ensures seen { said result ≡ departed place.old.seat.me.0 ∷ [] }
    {
        self.receipt(&mut place.seat)
    }

    // Joins what another receipt says to a receipt. Costs a load.
    pub(crate) fn join_receipt(&self, receipt: &mut Receipt, other: Receipt)
        requires table { IsReceiptAt self.now.table.shared.table_id receipt.old × IsReceiptAt self.now.table.shared.table_id other }
        ensures table { IsReceiptAt self.now.table.shared.table_id receipt.new }
        ensures joined { said receipt.new ≡ said receipt.old ++ said other }
    {
        self.join_received::<Brand>(receipt, other);
    }

    fn join_received<M: Received>(&self, receipt: &mut Receipt, other: Receipt)
        requires table { IsReceiptAt self.now.table.shared.table_id receipt.old × IsReceiptAt self.now.table.shared.table_id other }
        requires received { M.view ≡ other.seat.me.0 }
        ensures table { IsReceiptAt self.now.table.shared.table_id receipt.new }
        ensures joined { said receipt.new ≡ said receipt.old ++ said other }
    {
        let Receipt { seat } = other;
        self.table
            .shared
            .join_seat::<JoinedReceipt<M>>(&mut receipt.seat, seat);
    }

    // The words at the end, with a receipt as the witness of what led there.
    pub(crate) fn close_on(self, receipt: Receipt) -> Words
        requires { IsReceiptAt self.table.shared.table_id receipt }
        ensures places { result.places ≡ self.places }
        ensures led { IsLedOn self.table.shared.key (numbers result) (said receipt) }
    {
        let Form {
            table,
            rules: _,
            places,
            marks: _,
            wakers: _,
        } = self;
        let Receipt { seat } = receipt;
        let closed = table.close_with(seat);
        Words { closed, places }
    }
}
