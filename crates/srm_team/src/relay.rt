//! Teams that are given one item after the other.
ghost use Rattle.std.specs.Prelude.{◌≡◌, ◌≤◌, ◌<◌, ◌^◌, ◌++◌, ◌∷◌, [], Err, drop, length, nat_lt};
ghost use Rattle.std.specs.Prelude.{All, IfErr, IfOk, OnOk};
ghost use Rattle.srm_team.specs.Tells.{Filled, lists_after};
ghost use Rattle.srm_team.specs.Relays.{items_of, IsAsked};

use crate::answer::Answer;
use crate::batch::Batch;
use crate::bench::Bench;
use crate::fault::TeamFault;
use crate::front::Front;
use crate::leader_ends::LeaderEnds;
use crate::naming::Naming;
use crate::opened::Opened;
use crate::work::Work;
use std::alloc::{AllocError, Global};
use std::marker::Model;
use std::snapshot::Snapshot;
use std::sync::Wait;

// How many items a relay may take up.
const MOST_ITEMS: u64 = 1 << 62;

/// The leader's hold of a team that is given one item after the other, and gives what comes of each in the order of the items. As
/// many items as it has room for may be under way, and a worker that comes free takes the next of them. As it is written, the
/// workers end once it is dropped. Clauses see the work, the room, how many items it took up, and those that are under way.
#[derive(Drop)]
pub struct Relay<W: Work<T, D> + Copy, T: Drop, D: Drop, J: Naming> {
    ends: LeaderEnds<W, T, D, J>,
    work: W,
    room: usize,
    // What came back of each item that is under way, the oldest first.
    slots: Vec<Option<D>>,
    // How many items are no longer under way: the place of the oldest in the history.
    given: u64,
    // How many items it took up: the history has no more.
    lists: u64,
}

impl<W: Work<T, D> + Copy, T: Drop, D: Drop, J: Naming> Model for Relay<W, T, D, J> {
    ghost use Rattle.std.specs.Prelude.{◌≤◌, drop, length, All};
    ghost use Rattle.srm_team.specs.Tells.{Filled};
    ghost use Rattle.srm_team.specs.Relays.{items_of, IsAsked, RelayView};

    ghost Value = { RelayView W T };

    ghost view = { λ r. record {
      work = r.work;
      room = r.room;
      lists = r.lists;
      under_way = items_of (drop r.given r.ends.front);
    } };

    ghost invariant = { λ r. (length r.slots.items ≤ r.room) × (r.given ≤ length r.ends.front)
        × (length r.ends.front ≤ r.lists) × All (IsAsked r.work) (drop r.given r.ends.front)
        × Filled (λ x d. W.gives r.work x d) (items_of (drop r.given r.ends.front)) r.slots.items };
}

/// A relay for this work with room for so many items, and the bench for its workers.
///
/// # Errors
/// [`AllocError`]: the history is gone.
pub fn open_relay<W: Work<T, D> + Copy, T: Drop, D: Drop, J: Naming>(
    alloc: Global,
    opened: Opened<W, T>,
    work: W,
    room: usize,
) -> Result<(Relay<W, T, D, J>, Bench<W, T, D, J>), AllocError>
    requires { opened ≡ J.book }
    ensures asked { IfOk result (λ r. (r.0.work ≡ work) × (r.0.room ≡ room)) }
    ensures idle { IfOk result (λ r. (r.0.lists ≡ 0) × (r.0.under_way ≡ [])) }
{
    let (ends, bench) = LeaderEnds::open(alloc, opened, room)?;
    let relay = Relay {
        ends,
        work,
        room,
        slots: Vec::new(alloc),
        given: 0,
        lists: 0,
    };
    Ok((relay, bench))
}

// Keeps an answer in the slot of its item. One of an item that is no longer under way is dropped.
fn keep<W: Work<T, D> + Copy, T: Drop, D: Drop, J: Naming>(
    front: &Front<W, T, J>,
    work: W,
    given: u64,
    slots: &mut Vec<Option<D>>,
    answer: Answer<W, T, D, J>,
)
    requires given { given ≤ length front.now }
    requires asked { All (IsAsked work) (drop given front.now) }
    requires filled { Filled (λ x d. W.gives work x d) (items_of (drop given front.now)) slots.old.items }
    ensures { Filled (λ x d. W.gives work x d) (items_of (drop given front.now)) slots.new.items }
{
    let Answer {
        number,
        place,
        done,
        front: seen,
    } = answer;
    front.beside(&seen);
    if number < given || place != 0 {
        return;
    }
    let at = (number - given) as usize;
    if at < slots.len() {
        slots[at] = Some(done);
    }
}

// Waits until the first slot is full, where there is one.
fn fill_first<W: Work<T, D> + Copy, T: Drop, D: Drop, J: Naming, R: Wait>(
    ends: &LeaderEnds<W, T, D, J>,
    rt: &R,
    work: W,
    given: u64,
    slots: &mut Vec<Option<D>>,
) -> Result<(), TeamFault>
    requires given { given ≤ length ends.now.front }
    requires asked { All (IsAsked work) (drop given ends.now.front) }
    requires filled { Filled (λ x d. W.gives work x d) (items_of (drop given ends.now.front)) slots.old.items }
    ensures filled { Filled (λ x d. W.gives work x d) (items_of (drop given ends.now.front)) slots.new.items }
    ensures some { OnOk result (0 < length slots.new.items) }
    ensures idle { slots.old.items ≡ [] → result ≡ Err TeamFault.Left }
    ensures left { IfErr result (λ e. e ≡ TeamFault.Left) }
{
    for _ in rt.forever() {
        if slots.is_empty() {
            return Err(TeamFault::Left);
        }
        if slots[0].is_some() {
            return Ok(());
        }
        let answer = match ends.next(rt) {
            Ok(answer) => answer,
            Err(fault) => return Err(fault),
        };
        keep(&ends.front, work, given, slots, answer);
    }
    unreachable!()
}

impl<W: Work<T, D> + Copy, T: Drop, D: Drop, J: Naming> Relay<W, T, D, J> {
    /// The work on each item.
    pub fn work(&self) -> W
        ensures { result ≡ self.now.work }
    {
        self.work
    }

    /// Whether there is room for another item.
    pub fn has_room(&self) -> bool
        ensures { result ≡ nat_lt (length self.now.under_way) self.now.room }
    {
        self.slots.len() < self.room
    }

    /// Gives the team another item.
    ///
    /// # Errors
    /// 1. `TooMany`: exactly where as many items are under way as the relay has room for.
    /// 2. `Worn`: exactly where the relay took up 2^62 items before. It took up each that it refused for neither of these.
    /// 3. As met: `NoMemory` or `Left`. As it is written, `Left` comes where another leader added to the history, or a channel
    ///    was closed, which no call meets.
    ///
    /// The item is then gone.
    pub fn begin<R: Wait>(&mut self, rt: &R, alloc: Global, item: T) -> Result<(), TeamFault>
        requires { W.ready self.old.work item }
        ensures work { self.new.work ≡ self.old.work }
        ensures room { self.new.room ≡ self.old.room }
        ensures lists { self.new.lists ≡ lists_after result self.old.lists }
        ensures begun { OnOk result (self.new.under_way ≡ self.old.under_way ++ item ∷ []) }
        ensures within { length self.new.under_way ≤ self.new.room }
        ensures full { self.old.room ≤ length self.old.under_way → result ≡ Err TeamFault.TooMany }
        ensures full_only { IfErr result (λ e. e ≡ TeamFault.TooMany → self.old.room ≤ length self.old.under_way) }
        ensures worn { length self.old.under_way < self.old.room → 2 ^ 62 ≤ self.old.lists → result ≡ Err TeamFault.Worn }
        ensures worn_only { IfErr result (λ e. e ≡ TeamFault.Worn → 2 ^ 62 ≤ self.old.lists) }
    {
        if self.slots.len() >= self.room {
            return Err(TeamFault::TooMany);
        }
        if self.lists >= MOST_ITEMS {
            return Err(TeamFault::Worn);
        }
        self.lists += 1;
        let mut items = Vec::new(alloc);
        if items.push(item).is_err() || self.slots.push(None).is_err() {
            return Err(TeamFault::NoMemory);
        }
        let batch = Batch {
            work: self.work,
            items,
        };
        let asked = Snapshot::of(&batch);
        let Some(number) = self.ends.front.ask(&self.ends.book, &batch) else {
            let _ = self.slots.pop();
            return Err(TeamFault::Left);
        };
        self.ends.send_all(rt, number, batch, &asked)
    }

    /// What comes of the oldest item that is under way, which it waits for. The leader's own thread works on items that no worker
    /// has taken.
    ///
    /// # Errors
    /// `Left`, alone: no item is under way. As it is written, no other call meets it.
    pub fn next<R: Wait>(&mut self, rt: &R) -> Result<D, TeamFault>
        ensures work { self.new.work ≡ self.old.work }
        ensures room { self.new.room ≡ self.old.room }
        ensures lists { self.new.lists ≡ self.old.lists }
        ensures given { IfOk result (λ d. (x : T) × (self.old.under_way ≡ x ∷ self.new.under_way)
            × W.gives self.old.work x d) }
        ensures within { length self.new.under_way ≤ self.new.room }
        ensures idle { self.old.under_way ≡ [] → result ≡ Err TeamFault.Left }
        ensures left { IfErr result (λ e. e ≡ TeamFault.Left) }
    {
        match fill_first(&self.ends, rt, self.work, self.given, &mut self.slots) {
            Ok(()) => {}
            Err(fault) => return Err(fault),
        }
        let slot = self.slots.remove(0);
        self.given += 1;
        let Some(done) = slot else {
            return Err(TeamFault::Left);
        };
        Ok(done)
    }
}
