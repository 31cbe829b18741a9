//! Teams: workers who live as long as their leader runs.
ghost use Rattle.std.specs.Prelude.{◌≡◌, ◌<◌, ◌≤◌, ◌^◌, Err, length, All, IfOk, IfErr};
ghost use Rattle.std.specs.List.{AllZip};
ghost use Rattle.srm_team.specs.Tells.{lists_after};

use crate::bench::Bench;
use crate::fault::TeamFault;
use crate::leader_ends::LeaderEnds;
use crate::naming::Naming;
use crate::opened::Opened;
use crate::work::Work;
use std::alloc::{AllocError, Global};
use std::marker::Model;
use std::sync::Wait;

// How many lists a team may take up.
const MOST_LISTS: u64 = 1 << 62;

/// The leader's hold of a team: it is given lists of items, and gives what comes of each. As it is written, the workers end once
/// it is dropped. Clauses see how many items a list may have, and how many lists the team took up.
#[derive(Drop)]
pub struct Team<W: Work<T, D> + Copy, T: Drop, D: Drop, J: Naming> {
    ends: LeaderEnds<W, T, D, J>,
    room: usize,
    // How many lists it took up: the history has no more.
    lists: u64,
}

impl<W: Work<T, D> + Copy, T: Drop, D: Drop, J: Naming> Model for Team<W, T, D, J> {
    ghost use Rattle.std.specs.Prelude.{◌≤◌, length};
    ghost use Rattle.srm_team.specs.Tells.{TeamView};

    ghost Value = { TeamView };

    ghost view = { λ t. record { room = t.room; lists = t.lists } };

    ghost invariant = { λ t. length t.ends.front ≤ t.lists };
}

/// A team for lists of at most `room` items, and the bench for its workers.
///
/// # Errors
/// [`AllocError`]: the history is gone.
pub fn open_team<W: Work<T, D> + Copy, T: Drop, D: Drop, J: Naming>(
    alloc: Global,
    opened: Opened<W, T>,
    room: usize,
) -> Result<(Team<W, T, D, J>, Bench<W, T, D, J>), AllocError>
    requires { opened ≡ J.book }
    ensures { IfOk result (λ r. (r.0.room ≡ room) × (r.0.lists ≡ 0)) }
{
    let (ends, bench) = LeaderEnds::open(alloc, opened, room)?;
    Ok((
        Team {
            ends,
            room,
            lists: 0,
        },
        bench,
    ))
}

impl<W: Work<T, D> + Copy, T: Drop, D: Drop, J: Naming> Team<W, T, D, J> {
    /// How many items a list may have.
    pub fn room(&self) -> usize
        ensures { result ≡ self.now.room }
    {
        self.room
    }

    /// What comes of each item, in order of places. The workers and the leader's own thread take items as they come free, so any
    /// of them may work on any item. It returns when the last result is back.
    ///
    /// # Errors
    /// 1. `TooMany`: exactly where there are more items than the team has room for.
    /// 2. `Worn`: exactly where the team took up 2^62 lists before. It took up each that it refused for neither of these.
    /// 3. As met: `NoMemory` or `Left`. As it is written, `Left` comes where another leader added to the history, or a channel
    ///    was closed, while results were to come, which no call meets.
    ///
    /// The items are then gone. The team may be called again.
    pub fn map<R: Wait>(
        &mut self,
        rt: &R,
        alloc: Global,
        work: W,
        items: Vec<T>,
    ) -> Result<Vec<D>, TeamFault>
        requires { All (λ x. W.ready work x) items.items }
        ensures given { IfOk result (λ v. AllZip (λ x d. W.gives work x d) items.items v.items) }
        ensures refused { self.old.room < length items.items → result ≡ Err TeamFault.TooMany }
        ensures else_other { IfErr result (λ e. e ≡ TeamFault.TooMany → self.old.room < length items.items) }
        ensures worn { length items.items ≤ self.old.room → 2 ^ 62 ≤ self.old.lists → result ≡ Err TeamFault.Worn }
        ensures worn_only { IfErr result (λ e. e ≡ TeamFault.Worn → 2 ^ 62 ≤ self.old.lists) }
        ensures room { self.new.room ≡ self.old.room }
        ensures lists { self.new.lists ≡ lists_after result self.old.lists }
    {
        if items.len() > self.room {
            return Err(TeamFault::TooMany);
        }
        if self.lists >= MOST_LISTS {
            return Err(TeamFault::Worn);
        }
        self.lists += 1;
        self.ends.map(rt, alloc, work, items)
    }
}
