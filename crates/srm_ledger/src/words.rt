//! Lists of words, place by place.
ghost use Rattle.std.specs.Prelude.{◌≡◌, ℕ, ◌≤◌, ◌<◌, ◌^◌, length, slice_index, MatchBool};
ghost use Rattle.std.specs.Mem.Slots.{slots_items, slots_len, IsFull};
ghost use mathlib.Core.Option.{some};
ghost use lib.ListN.{get_elem?};
ghost use Rattle.srm_ledger.specs.Tally.{added, larger, AllFit, SomePast, AllSmall, AreWords};
ghost use Rattle.srm_ledger.specs.Seats.{word_at};

use crate::kind::Kind;
use crate::seat::SHARE_MOST;
use atomic_table::Closed;
use std::alloc::Global;

/// The place of the word of a link and a kind. Word 0 is spare.
pub(crate) fn word_of(link: usize, kind: Kind) -> usize
    requires { link < 2 ^ 16 }
    ensures { result ≡ word_at link kind }
{
    5 * link + kind.place() + 1
}

/// Whether two shares of each word may be added.
pub(crate) fn fit(xs: &Vec<u64>, ys: &Vec<u64>) -> bool
    requires long { length xs.now.items ≡ length ys.now.items }
    requires small { AllSmall xs.now.items × AllSmall ys.now.items }
    ensures { MatchBool result (AllFit xs.now.items ys.now.items) (SomePast xs.now.items ys.now.items) }
{
    for i in 0..xs.len() {
        if xs[i] + ys[i] > SHARE_MOST {
            return false;
        }
    }
    true
}

/// Adds to each number that of the other list.
pub(crate) fn add_each(xs: &mut Vec<u64>, ys: &Vec<u64>)
    requires long { length xs.old.items ≡ length ys.now.items }
    requires fit { AllFit xs.old.items ys.now.items }
    ensures { xs.new.items ≡ added xs.old.items ys.now.items }
{
    for i in 0..xs.len() {
        xs[i] += ys[i];
    }
}

/// Takes of each two numbers the larger.
pub(crate) fn raise_each(xs: &mut Vec<u64>, ys: &Vec<u64>)
    requires { length xs.old.items ≡ length ys.now.items }
    ensures { xs.new.items ≡ larger xs.old.items ys.now.items }
{
    for i in 0..xs.len() {
        if xs[i] < ys[i] {
            xs[i] = ys[i];
        }
    }
}

/// Writes the words of a closed table over the numbers of the last seat, which are the same.
pub(crate) fn copy_words(closed: &Closed<(), Global>, into: &mut Vec<u64>)
    requires full { IsFull closed.now.words × (slots_len closed.now.words ≡ length into.old.items) }
    requires same { AreWords (slots_items closed.now.words) into.old.items }
    ensures { into.new.items ≡ into.old.items }
{
    for i in 0..into.len() {
        into[i] = closed.word(i);
    }
}
