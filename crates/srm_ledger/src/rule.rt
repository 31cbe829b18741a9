//! The rule that the words of a ledger keep, and what a seat may do to one: add, read, be split, be joined.
ghost use Rattle.std.specs.Prelude.{ℕ};

use atomic_table::{Join, Play, Split, TableRule};
use std::collections::LinkedList;

/// What the rule knows of a seat. No value of it is made.
pub struct Holding {
    /// The seat's part of the weight of all seats.
    pub weight: u64,
    /// What the seat added to each word, the spare one first.
    pub shares: LinkedList<u64>,
    /// What the seat last read of each word, the spare one first.
    pub seen: LinkedList<u64>,
}

/// Each word is the sum of its seats' shares, all weights add up to [`WHOLE`](crate::seat::WHOLE), and no seat has read more than
/// its words.
pub struct SumsOfShares;

impl TableRule<(), Holding, usize> for SumsOfShares {
    ghost use Rattle.srm_ledger.specs.Tally.{Tallied, opened};

    ghost holds = { λ n. Tallied n };

    ghost first = { λ n. opened n };
}

/// An addition to one word.
pub(crate) struct Adds;

impl Play<(), Holding> for Adds {
    ghost use Rattle.srm_ledger.specs.Tally.{adds};

    ghost then = { adds };
}

/// A look at one word.
pub(crate) struct Read;

impl Play<(), Holding> for Read {
    ghost use Rattle.srm_ledger.specs.Tally.{reads};

    ghost then = { reads };
}

/// A seat in two halves.
pub(crate) struct SeatHalves;

impl Split<Holding> for SeatHalves {
    ghost use Rattle.srm_ledger.specs.Tally.{first_half, second_half};

    ghost left = { first_half };

    ghost right = { second_half };
}

/// Two seats in one.
pub(crate) struct BothSeats;

impl Join<Holding> for BothSeats {
    ghost use Rattle.srm_ledger.specs.Tally.{joined_holding, spent};

    ghost both = { joined_holding };

    ghost spent = { spent };
}
