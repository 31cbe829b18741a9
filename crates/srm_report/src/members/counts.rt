//! What the rows of a member say of it.
ghost use Rattle.std.specs.Prelude.{◌≡◌, ℕ, List, ◌+◌, ◌<◌, ◌^◌, [], ◌∷◌, ◌++◌, None, ◌&&◌, cond};
ghost use Rattle.srm_member.specs.declared.row.Row.{Row as R};
ghost use Rattle.srm_report.specs.Counted.{IsAtMost, first_known};
ghost use Rattle.srm_report.specs.Members.{counts_of};
ghost use Rattle.srm_member.specs.Kinds.{is_sent};

use srm_member::row::Row;
use srm_member::told::Told;

/// What the rows of a member say of it.
#[derive(Clone, Copy)]
pub(crate) struct Counts {
    /// When it joined, in ticks.
    pub joined: Option<u64>,
    /// When it left, in ticks.
    pub left: Option<u64>,
    /// How many drawing operations it sent.
    pub drawn: u64,
    /// How many packets arrived at it.
    pub heard: u64,
    /// How many names it found to be missing. Each stands in memory, in a list of its row.
    pub lost: u128,
    /// How many names it took in that it was missing.
    pub fixed: u64,
    /// How many requests it sent.
    pub requests: u64,
    /// How many repairs it sent.
    pub repairs: u64,
    /// How many session messages it sent.
    pub sessions: u64,
}

impl Counts {
    /// What no rows say.
    pub(crate) fn new() -> Self
        ensures counts { result ≡ counts_of [] }
        ensures bound { IsAtMost 0 result }
    {
        Counts {
            joined: None,
            left: None,
            drawn: 0,
            heard: 0,
            lost: 0,
            fixed: 0,
            requests: 0,
            repairs: 0,
            sessions: 0,
        }
    }

    /// Counts one more row of the member.
    pub(crate) fn add(&mut self, row: &Row)
        requires { IsAtMost (2 ^ 63) self.old }
        ensures counts { (rs : List R) → self.old ≡ counts_of rs → self.new ≡ counts_of (rs ++ row.now ∷ []) }
        ensures bound { (n : ℕ) → IsAtMost n self.old → IsAtMost (n + 1) self.new }
    {
        let Row {
            key,
            cause,
            told,
            lost,
            ..
        } = row;
        self.joined = first_time(self.joined, key.time, cause.is_join());
        self.left = first_time(self.left, key.time, cause.is_leave());
        self.drawn += one_if_sent(cause.is_draw(), *told);
        self.heard += one_if(cause.is_arrival());
        self.lost += lost.len() as u128;
        self.fixed += one_if(told.is_fixed());
        self.requests += one_if_sent(cause.is_ask(), *told);
        self.repairs += one_if_sent(cause.is_answer(), *told);
        self.sessions += one_if_sent(cause.is_report(), *told);
    }
}

// The time that was known before, or else this one, where it is one.
fn first_time(known: Option<u64>, time: u64, is_one: bool) -> Option<u64>
    ensures { result ≡ first_known known time is_one }
{
    match known {
        None if is_one => Some(time),
        _ => known,
    }
}

// 1 where the test holds.
fn one_if(test: bool) -> u64
    ensures { result ≡ cond test 1 0 }
{
    u64::from(test)
}

// 1 where the event is of the kind asked for, and the member sent a packet.
fn one_if_sent(is_of_kind: bool, told: Told) -> u64
    ensures { result ≡ cond (is_of_kind && is_sent told) 1 0 }
{
    one_if(is_of_kind && told.is_sent())
}
