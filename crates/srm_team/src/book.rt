//! The length of a history.
ghost use Rattle.std.specs.Prelude.{◌≡◌};
ghost use Rattle.srm_team.specs.Rules.{head_of};

use crate::batch::Batch;
use crate::law::Law;
use crate::naming::Naming;
use logbook::Word;
use std::marker::PhantomData;

/// The length of the history: the one word that threads share.
#[derive(Drop)]
pub struct Book<W, T, J: Naming> {
    pub(crate) head: Word<Batch<W, T>, u64, Law>,
    of: PhantomData<J>,
    pub(crate) ghost head_is: { head ≡ head_of J.book },
}

impl<W, T, J: Naming> Book<W, T, J> {
    /// The book that has this word.
    pub(crate) fn new(head: Word<Batch<W, T>, u64, Law>) -> Book<W, T, J>
        requires { head ≡ head_of J.book }
    {
        Book {
            head,
            of: PhantomData,
        }
    }
}
