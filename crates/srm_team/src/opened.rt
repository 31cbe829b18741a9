//! A history that has no name yet.
ghost use Rattle.std.specs.Prelude.{◌≡◌, []};

use crate::batch::Batch;
use crate::book::Book;
use crate::front::Front;
use crate::law::Law;
use crate::naming::Naming;
use logbook::{Seen, Start, Word};
use std::marker::Model;

/// An empty history, which no team has yet. Clauses see which one it is.
pub struct Opened<W, T> {
    head: Word<Batch<W, T>, u64, Law>,
    seen: Seen<Batch<W, T>, u64, Law>,
}

impl<W, T> Model for Opened<W, T> {
    ghost use Rattle.std.specs.Prelude.{◌≡◌, []};
    ghost use Rattle.logbook.specs.Pages.{Book};
    ghost use Rattle.srm_team.specs.Rules.{head_of};

    ghost Value = { Book };

    ghost view = { λ o. o.seen.book };

    ghost invariant = { λ o. (o.seen.log ≡ []) × (o.head ≡ head_of o.seen.book) };
}

impl<W, T> Opened<W, T> {
    /// An empty history. It does not allocate.
    pub fn new() -> Opened<W, T> {
        let (seen, mut first, _second) = Seen::open(Start::alone(), 0, 0);
        Opened {
            head: Word::tracked(0, &mut first),
            seen,
        }
    }

    /// The history under a name: its length, and the beginning that has no list.
    pub fn named<J: Naming>(self) -> (Book<W, T, J>, Front<W, T, J>)
        requires { self ≡ J.book }
        ensures { result.1 ≡ [] }
    {
        let Opened { head, seen } = self;
        (Book::new(head), Front::new(seen))
    }
}
