//! Counts of packets, link by link.
ghost use Rattle.std.specs.Prelude.{◌≡◌, ◌<◌, ◌+◌, ◌*◌, ◌^◌, List, ℕ, length, drop, IfOk, All};
ghost use Rattle.std.specs.List.{concat};
ghost use Rattle.srm_ledger.specs.Counts.{counted_at, more_by, one_more, nothing_at};
ghost use Rattle.srm_ledger.specs.Seats.{words_of};

use crate::kind::Kind;
use crate::words::word_of;
use std::alloc::{AllocError, Global};
use std::marker::Model;

/// Five numbers for each link: the packets of each [`Kind`]. Contracts see them as one list, the five of link 0 first.
///
/// In memory one spare number stands in front, as in a ledger: so the shares of its last seat become totals where they
/// stand.
#[derive(Debug, Drop)]
pub struct Totals {
    words: Vec<u64>,
}

impl Model for Totals {
    ghost use Rattle.std.specs.Prelude.{◌≡◌, List, ℕ, length, drop};
    ghost use Rattle.srm_ledger.specs.Seats.{words_of};

    ghost Value = { List ℕ };

    ghost view = { λ t. drop 1 t.words.items };

    ghost invariant = { λ t. (links : ℕ) × (length t.words.items ≡ words_of links) };
}

impl Totals {
    /// Nothing counted yet at any of `links` links.
    ///
    /// # Errors
    /// [`AllocError`].
    pub fn new(alloc: Global, links: u16) -> Result<Self, AllocError>
        ensures { IfOk result (λ t. t ≡ nothing_at links) }
    {
        let words = Vec::from_elem(alloc, 0, 5 * usize::from(links) + 1)?;
        Ok(Totals { words })
    }

    /// The numbers of a list of words, the first of which is spare. It does not allocate.
    pub(crate) fn of_words(words: Vec<u64>) -> Self
        requires { (links : ℕ) × (length words.items ≡ words_of links) }
        ensures { result ≡ drop 1 words.items }
    {
        Totals { words }
    }

    /// Counts one more packet of a kind at a link. It does not allocate.
    pub fn count(&mut self, link: u16, kind: Kind)
        requires within { 5 * link + 4 < length self.old }
        requires room { counted_at self.old link kind + 1 < 2 ^ 64 }
        ensures { self.new ≡ one_more self.old link kind }
    {
        let word = word_of(usize::from(link), kind);
        self.words[word] += 1;
    }

    /// Counts `n` more packets of a kind at a link. It does not allocate.
    pub fn add(&mut self, link: u16, kind: Kind, n: u64)
        requires within { 5 * link + 4 < length self.old }
        requires room { counted_at self.old link kind + n < 2 ^ 64 }
        ensures { self.new ≡ more_by n self.old link kind }
    {
        self.words[word_of(usize::from(link), kind)] += n;
    }

    /// How many packets of a kind were counted at a link. It does not allocate.
    pub fn number(&self, link: u16, kind: Kind) -> u64
        requires { 5 * link + 4 < length self.now }
        ensures { result ≡ counted_at self.now link kind }
    {
        self.words[word_of(usize::from(link), kind)]
    }

    /// The five numbers of each link, in the order of [`Kind`]'s variants. It does not allocate.
    pub fn links(&self) -> &[[u64; 5]]
        ensures numbers { concat result.now ≡ self.now }
        ensures five { All (λ ns. length ns ≡ 5) result.now }
    {
        self.words[1..].as_chunks::<5>().0
    }
}
