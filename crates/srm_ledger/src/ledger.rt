//! Counts of packets per link and kind, in words that threads add to at once.
ghost use Rattle.std.specs.Prelude.{◌≡◌, ℕ, ◌+◌, ◌*◌, ◌≤◌, ◌<◌, ◌↔◌, length, IfOk, IfErr, MatchResult};
ghost use Rattle.srm_net.specs.Limits.{most_links};
ghost use Rattle.srm_ledger.specs.Tally.{AllFit, SomePast};
ghost use Rattle.srm_ledger.specs.Seats.{LedgerView, IsLedger, word_at, words_of, share, seen_there, whole_seat};
ghost use Rattle.srm_ledger.specs.Seats.{SeatGrows, IsFull, with_seen, half_with_shares, half_without, both_seats};
ghost use Rattle.srm_ledger.specs.Seats.{totals_of, ReadsAreIn};

pub use crate::fault::{LedgerFault, NotWhole, ShareFull, SplitFault};
use crate::kind::Kind;
use crate::rule::{Adds, BothSeats, Holding, Read, SeatHalves, SumsOfShares};
pub use crate::seat::{SHARE_MOST, Seat, WHOLE};
use crate::totals::Totals;
use crate::words::{add_each, copy_words, fit, raise_each, word_of};
use atomic_table::Table;
use std::alloc::Global;
use std::marker::Model;

/// Five words for each link, behind a spare one that stays 0. Threads share them, each with a seat of its own.
///
/// At every moment, whatever the threads do, each word is the sum of what all seats added to it, and the weights of all
/// seats add up to [`WHOLE`]. No call waits for another thread.
#[derive(Drop)]
pub struct Ledger {
    table: Table<(), Holding, usize, SumsOfShares, Global>,
    links: usize,
}

impl Model for Ledger {
    ghost Value = { LedgerView };

    ghost view = { λ l. record { name = l.table.shared.table_id; links = l.links } };

    ghost invariant = { λ l. IsLedger l.links l.table.shared.table_id l.table.shared.key };
}

// The place of the word of a link and a kind, in a ledger of so many links.
fn word_in(links: usize, link: usize, kind: Kind) -> usize
    requires { (link < links) × (links ≤ most_links) }
    ensures word { result ≡ word_at link kind }
    ensures below { result < words_of links }
{
    word_of(link, kind)
}

impl Ledger {
    /// A ledger of fewer links than [`MOST_NODES`](srm_net::limits::MOST_NODES) whose words are all 0, and its whole seat.
    ///
    /// # Errors
    /// `NoMemory`.
    pub fn open(alloc: Global, links: usize) -> Result<(Ledger, Seat), LedgerFault>
        requires { links ≤ most_links }
        ensures { IfOk result (λ r. (r.0.links ≡ links) × (r.1 ≡ whole_seat r.0.name links)) }
    {
        let count = 5 * links + 1;
        let Ok(words) = Vec::from_elem(alloc, 0u64, count) else {
            return Err(LedgerFault::NoMemory);
        };
        let Ok(shares) = Vec::from_elem(alloc, 0u64, count) else {
            return Err(LedgerFault::NoMemory);
        };
        let Ok(seen) = Vec::from_elem(alloc, 0u64, count) else {
            return Err(LedgerFault::NoMemory);
        };
        let Ok((table, hold)) = Table::of_words(alloc, words.as_slice(), &count) else {
            return Err(LedgerFault::NoMemory);
        };
        let seat = Seat {
            shares,
            seen,
            weight: WHOLE,
            hold,
        };
        Ok((Ledger { table, links }, seat))
    }

    /// How many links there are: fewer than [`MOST_NODES`](srm_net::limits::MOST_NODES).
    pub fn links(&self) -> usize
        ensures links { result ≡ self.now.links }
        ensures few { self.now.links ≤ most_links }
    {
        self.links
    }

    /// Adds `n` to the word of a link and a kind, and to the seat's share of it. It does not allocate.
    ///
    /// # Errors
    /// `ShareFull` exactly where the seat's share would pass [`SHARE_MOST`]. The seat is then as it was, and nothing was added to
    /// the word.
    pub fn add(&self, seat: &mut Seat, link: usize, kind: Kind, n: u64) -> Result<(), ShareFull>
        requires seat { seat.old.ledger ≡ self.now.name }
        requires link { link < self.now.links }
        ensures wide { length seat.old.shares ≡ words_of self.now.links }
        ensures sum { MatchResult result (λ _. SeatGrows seat.old link kind n seat.new) (λ _. IsFull seat.old link kind n) }
        ensures same { IfErr result (λ _. seat.new ≡ seat.old) }
    {
        let word = word_in(self.links, link, kind);
        let share = seat.shares[word];
        if n > SHARE_MOST - share {
            return Err(ShareFull);
        }
        self.table.shared.fetch_add::<Adds>(&mut seat.hold, word, n);
        seat.shares[word] = share + n;
        Ok(())
    }

    /// What the word of a link and a kind is at one moment of the call. It does not allocate.
    pub fn read(&self, seat: &mut Seat, link: usize, kind: Kind) -> u64
        requires seat { seat.old.ledger ≡ self.now.name }
        requires link { link < self.now.links }
        ensures share { share seat.old link kind ≤ result }
        ensures before { seen_there seat.old link kind ≤ result }
        ensures whole { seat.old.weight ≡ 65536 → result ≡ share seat.old link kind }
        ensures seat { seat.new ≡ with_seen seat.old link kind result }
    {
        let word = word_in(self.links, link, kind);
        let found = self.table.shared.load::<Read>(&mut seat.hold, word);
        seat.seen[word] = found;
        found
    }

    /// The first half keeps the shares and the larger half of the weight, the second begins with no shares. Both keep what
    /// was read.
    ///
    /// # Errors
    /// `TooManySeats` exactly where the seat's weight is 1, and `NoMemory` only where it is more. The seat comes back as it was.
    pub fn split(&self, alloc: Global, seat: Seat) -> Result<(Seat, Seat), (Seat, SplitFault)>
        requires { seat.ledger ≡ self.now.name }
        ensures weight { IfOk result (λ _. 2 ≤ seat.weight) }
        ensures halves { IfOk result (λ h. (h.0 ≡ half_with_shares seat) × (h.1 ≡ half_without seat)) }
        ensures fault { IfErr result (λ e. e.1 ≡ SplitFault.TooManySeats ↔ seat.weight ≡ 1) }
        ensures same { IfErr result (λ e. e.0 ≡ seat) }
    {
        if seat.weight < 2 {
            return Err((seat, SplitFault::TooManySeats));
        }
        let Ok(new_shares) = Vec::from_elem(alloc, 0u64, seat.shares.len()) else {
            return Err((seat, SplitFault::NoMemory));
        };
        let Ok(new_seen) = Vec::from_slice(alloc, seat.seen.as_slice()) else {
            return Err((seat, SplitFault::NoMemory));
        };
        let Seat {
            shares,
            seen,
            weight,
            mut hold,
        } = seat;
        let new_hold = self.table.shared.split_seat::<SeatHalves>(&mut hold);
        let half = weight / 2;
        let first = Seat {
            shares,
            seen,
            weight: weight - half,
            hold,
        };
        let second = Seat {
            shares: new_shares,
            seen: new_seen,
            weight: half,
            hold: new_hold,
        };
        Ok((first, second))
    }

    /// Shares and weights are added, and of each two numbers that were read the larger is kept. It does not allocate.
    ///
    /// # Errors
    /// Refused exactly where two shares of some word would add up to more than [`SHARE_MOST`]: both seats come back as they were.
    pub fn join(&self, first: Seat, second: Seat) -> Result<Seat, (Seat, Seat)>
        requires first { first.ledger ≡ self.now.name }
        requires second { second.ledger ≡ self.now.name }
        ensures fit { IfOk result (λ _. AllFit first.shares second.shares) }
        ensures both { IfOk result (λ s. s ≡ both_seats first second) }
        ensures past { IfErr result (λ _. SomePast first.shares second.shares) }
        ensures same { IfErr result (λ e. (e.0 ≡ first) × (e.1 ≡ second)) }
    {
        if !fit(&first.shares, &second.shares) {
            return Err((first, second));
        }
        let Seat {
            mut shares,
            mut seen,
            weight,
            mut hold,
        } = first;
        let Seat {
            shares: other_shares,
            seen: other_seen,
            weight: other_weight,
            hold: other,
        } = second;
        self.table.shared.join_seat::<BothSeats>(&mut hold, other);
        // This read of the spare word shows that the weights of two seats are no more than the whole.
        self.table.shared.load::<Read>(&mut hold, 0);
        add_each(&mut shares, &other_shares);
        raise_each(&mut seen, &other_seen);
        Ok(Seat {
            shares,
            seen,
            weight: weight + other_weight,
            hold,
        })
    }

    /// The words, which are the whole seat's shares; nothing that was read is above them. It does not allocate.
    ///
    /// # Errors
    /// `NotWhole` exactly where the seat's weight is below the whole: ledger and seat come back as they were.
    pub fn close(self, seat: Seat) -> Result<Totals, (Ledger, Seat, NotWhole)>
        requires { seat.ledger ≡ self.name }
        ensures whole { IfOk result (λ _. seat.weight ≡ 65536) }
        ensures long { IfOk result (λ t. length t ≡ 5 * self.links) }
        ensures totals { IfOk result (λ t. t ≡ totals_of seat) }
        ensures seen { IfOk result (λ t. ReadsAreIn seat t) }
        ensures part { IfErr result (λ _. seat.weight < 65536) }
        ensures same { IfErr result (λ e. (e.0 ≡ self) × (e.1 ≡ seat)) }
    {
        if seat.weight < WHOLE {
            return Err((self, seat, NotWhole));
        }
        let Ledger { table, links: _ } = self;
        let Seat {
            mut shares,
            seen: _,
            weight: _,
            hold,
        } = seat;
        let closed = table.close_with(hold);
        copy_words(&closed, &mut shares);
        closed.free();
        Ok(Totals::of_words(shares))
    }
}
