//! Which of a cell's events is next.
ghost use Rattle.std.specs.Prelude.{◌≡◌, ◌↔◌, ◌⊎◌, ℕ, IsTrue, IsSomeAnd, Some, None, []};
ghost use Rattle.std.specs.Ordering.{is_gt};
ghost use Rattle.srm_net.specs.declared.rank.Rank.TheVariants as ranks;
ghost use Rattle.srm_net.specs.Keys.{key_cmp};
ghost use Rattle.srm_cell.specs.Cells.{PlainCell, first_arrival, first_mark, next_timer};
ghost use Rattle.srm_cell.specs.Pending as pending;
ghost use Rattle.srm_cell.specs.declared.pending_event.Source.TheVariants as sources;

use crate::inbox::Inbox;
use crate::script::Script;
use srm_member::due::Due;
use srm_net::key::Key;
use srm_net::packet::PacketId;
use srm_net::rank::Rank;
use srm_scenario::mark::Mark;
use std::cmp::Ordering;

// No event is later.
const NEVER: u64 = u64::MAX;

/// Where a cell has an event.
#[derive(Clone, Copy)]
pub(crate) enum Source {
    /// In its inbox.
    Inbox,
    /// In its script.
    Script,
    /// In its member's timers.
    Timer,
    /// It has none.
    Nowhere,
}

/// When a cell's next event is, and where the cell has it. Times mostly tell which it is: its key is made as it is taken.
#[derive(Clone, Copy)]
pub(crate) struct Next {
    /// When it is, in ticks; where there is none, never.
    pub(crate) time: u64,
    /// Where the cell has it.
    pub(crate) source: Source,
}

impl Next {
    /// That of what is pending.
    pub(crate) fn of(found: Option<PendingEvent>) -> Self
        ensures { result ≡ pending.next_of found }
    {
        match found {
            None => Next {
                time: NEVER,
                source: Source::Nowhere,
            },
            Some(event) => Next {
                time: event.key.time,
                source: event.source,
            },
        }
    }

    /// Whether it is a packet's arrival.
    pub(crate) fn is_arrival(&self) -> bool
        ensures { IsTrue result ↔ (self.now.source ≡ sources.Inbox) }
    {
        match self.source {
            Source::Inbox => true,
            Source::Script | Source::Timer | Source::Nowhere => false,
        }
    }
}

/// An event that a cell has.
#[derive(Clone, Copy)]
pub(crate) struct PendingEvent {
    /// The event's key.
    pub(crate) key: Key,
    /// Where the cell has it.
    pub(crate) source: Source,
}

impl PendingEvent {
    /// A packet that arrives at tick `time`.
    pub(crate) fn arriving(member: u16, time: u64, id: PacketId) -> Self
        ensures { result ≡ pending.arriving member time id }
    {
        PendingEvent {
            key: Key {
                time,
                member,
                rank: Rank::Arrival,
                a: id.sender,
                b: 0,
                c: id.count,
            },
            source: Source::Inbox,
        }
    }

    /// A mark at tick `time`.
    pub(crate) fn marked(member: u16, time: u64, mark: Mark) -> Self
        ensures { result ≡ pending.marked member time mark }
    {
        PendingEvent {
            key: Key {
                time,
                member,
                rank: mark.rank,
                a: 0,
                b: 0,
                c: u64::from(mark.place),
            },
            source: Source::Script,
        }
    }

    /// A timer that expires at tick `time`.
    pub(crate) fn expiring(member: u16, time: u64, due: Due) -> Self
        ensures { result ≡ pending.expiring member time due }
    {
        PendingEvent {
            key: Key {
                time,
                member,
                rank: due.rank,
                a: due.name.source,
                b: due.name.page,
                c: u64::from(due.name.number),
            },
            source: Source::Timer,
        }
    }

    /// Takes the place of what is next, unless that has the lesser key: then nothing is copied.
    #[inline(always)]
    pub(crate) fn take_place(self, next: &mut Option<PendingEvent>)
        ensures { next.new ≡ pending.sooner_pending (Some self) next.old }
    {
        let is_later = match next {
            None => false,
            Some(other) => self.is_after(other),
        };
        if !is_later {
            *next = Some(self);
        }
    }

    /// The same of what may be there.
    pub(crate) fn take_place_if_any(event: Option<PendingEvent>, next: &mut Option<PendingEvent>)
        ensures { next.new ≡ pending.sooner_pending event next.old }
    {
        if let Some(event) = event {
            event.take_place(next);
        }
    }

    // Whether another has the lesser key.
    fn is_after(&self, other: &PendingEvent) -> bool
        ensures { result ≡ is_gt (key_cmp self.now.key other.now.key) }
    {
        self.key.cmp(&other.key) == Ordering::Greater
    }
}

/// When the first packet arrives; without one, never.
#[inline(always)]
pub(crate) fn arrival_time(inbox: &Inbox) -> u64
    ensures { (m : ℕ) (c : PlainCell) → result ≡ pending.tick_of (first_arrival m c inbox.now) }
{
    match inbox.first() {
        None => NEVER,
        Some((time, _)) => time,
    }
}

/// When the first mark is; without one, never.
#[inline(always)]
pub(crate) fn mark_time(script: &Script) -> u64
    ensures { (m : ℕ) (c : PlainCell) → result ≡ pending.tick_of (first_mark m c script.now) }
{
    match script.first() {
        None => NEVER,
        Some(mark) => mark.at,
    }
}

/// When a timer expires; without one, never.
#[inline(always)]
pub(crate) fn timer_time(due: Option<Due>) -> u64
    ensures { (m : ℕ) (c : PlainCell) → result ≡ pending.tick_of (next_timer m c due) }
{
    match due {
        None => NEVER,
        Some(due) => due.time,
    }
}

/// Whether there is a timer of a request or of a repair: of one tick, packets go before it.
#[inline(always)]
pub(crate) fn is_expiry(due: Option<Due>) -> bool
    ensures { IsTrue result ↔ IsSomeAnd due (λ d. (d.rank ≡ ranks.Request) ⊎ (d.rank ≡ ranks.Repair)) }
{
    match due {
        None => false,
        Some(due) => matches!(due.rank, Rank::Request | Rank::Repair),
    }
}

/// Whether there is no packet, no mark and no timer.
#[inline(always)]
pub(crate) fn is_idle(inbox: &Inbox, script: &Script, due: Option<Due>) -> bool
    ensures { IsTrue result ↔ (inbox.now ≡ []) × (script.now ≡ []) × (due ≡ None) }
{
    let None = due else {
        return false;
    };
    let None = script.first() else {
        return false;
    };
    match inbox.first() {
        None => true,
        Some(_) => false,
    }
}
