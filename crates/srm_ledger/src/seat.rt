//! What a holder of a ledger's seat has.
ghost use Rattle.srm_ledger.specs.Seats.{SeatView, IsSeat, seat_of};

use crate::rule::Holding;
use std::marker::Model;

/// The most that a seat's share of a word may be.
pub const SHARE_MOST: u64 = 1 << 47;

/// The weights of all seats of a ledger, added up.
pub const WHOLE: u64 = 65_536;

/// One holder's shares of a ledger's words, what it last read of them, and its part of the weight of all seats.
///
/// A seat that is dropped takes its shares and its weight along, and the ledger can't be closed any more.
#[derive(Drop)]
pub struct Seat {
    pub(crate) shares: Vec<u64>,
    pub(crate) seen: Vec<u64>,
    pub(crate) weight: u64,
    pub(crate) hold: atomic_table::Seat<(), Holding>,
}

impl Model for Seat {
    ghost Value = { SeatView };

    ghost view = { λ s. seat_of s.hold.table_id s.weight s.shares.items s.seen.items };

    ghost invariant = { λ s. IsSeat s.hold.me s.hold.table_id.words s.weight s.shares.items s.seen.items };
}
