//! Beginnings of a history that were seen.
ghost use Rattle.std.specs.Prelude.{◌≡◌, ◌<◌, ◌^◌, ◌++◌, ◌∷◌, [], length, MatchOption};
ghost use Rattle.srm_team.specs.Rules.{Agree};

use crate::batch::Batch;
use crate::book::Book;
use crate::law::{Add, Law, NoGain};
use crate::naming::Naming;
use logbook::{Offer, Seen};
use std::marker::{Model, PhantomData};

/// A beginning of the history that was seen. Clauses see its lists.
#[derive(Drop)]
pub struct Front<W, T, J: Naming> {
    lists: u64,
    seen: Seen<Batch<W, T>, u64, Law>,
    of: PhantomData<J>,
}

impl<W, T, J: Naming> Model for Front<W, T, J> {
    ghost use Rattle.std.specs.Prelude.{◌≡◌, List, length};
    ghost use Rattle.srm_team.specs.declared.batch.Batch.{Batch};

    ghost Value = { List (Batch W T) };

    ghost view = { λ f. f.seen.log };

    ghost invariant = { λ f. (f.lists ≡ length f.seen.log) × (f.seen.book ≡ J.book) };
}

impl<W, T, J: Naming> Front<W, T, J> {
    /// The beginning that has no list.
    pub(crate) fn new(seen: Seen<Batch<W, T>, u64, Law>) -> Front<W, T, J>
        requires book { seen.book ≡ J.book }
        requires empty { seen.log ≡ [] }
        ensures { result ≡ [] }
    {
        Front {
            lists: 0,
            seen,
            of: PhantomData,
        }
    }

    /// A copy.
    pub(crate) fn again(&self) -> Front<W, T, J>
        ensures { result ≡ self.now }
    {
        Front {
            lists: self.lists,
            seen: self.seen.again(),
            of: PhantomData,
        }
    }

    /// Two beginnings of one history have the same lists.
    pub(crate) fn beside(&self, other: &Front<W, T, J>)
        ensures { Agree self.now other.now }
    {
        let mut both = self.seen.again();
        both.learn(&other.seen);
    }

    /// Adds a list behind all that was seen, and gives its number; or does nothing, where the history is longer. Only a team's
    /// leader adds to its history, so it never is; but no proof says so.
    pub(crate) fn ask(&mut self, book: &Book<W, T, J>, batch: &Batch<W, T>) -> Option<u64>
        requires { length self.old < 2 ^ 62 }
        ensures { MatchOption result (self.new ≡ self.old)
            (λ n. (n ≡ length self.old) × (self.new ≡ self.old ++ batch.now ∷ [])) }
    {
        let number = self.lists;
        let mut seen = self.seen.again();
        let mut offer: Offer<Batch<W, T>, u64, Law, NoGain> = seen.plain::<
            NoGain,
            Batch<W, T>,
            Add,
        >(batch);
        let mut pen = seen.no_pen();
        let found = book
            .head
            .compare_exchange::<Add, NoGain>(number, number + 1, &mut seen, &mut offer, &mut pen);
        if found != number {
            return None;
        }
        self.seen = seen;
        self.lists = number + 1;
        Some(number)
    }
}
