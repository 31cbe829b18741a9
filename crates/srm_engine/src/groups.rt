//! The cells of all members, those of each job together.
ghost use Rattle.std.specs.Prelude.{◌≡◌, ◌<◌, ◌≤◌, [], ℕ, List, All, IfOk, length};
ghost use Rattle.srm_member.specs.declared.row.Row.{Row as OneRow};
ghost use Rattle.srm_cell.specs.Crossings.{packets_of};
ghost use Rattle.srm_cell.specs.Hearing.{IsSent, packets_in};
ghost use Rattle.srm_interfaces.specs.Watches.{MayLead};
ghost use Rattle.srm_engine.specs.Starts.{setting_on};
ghost use Rattle.srm_engine.specs.Seen.{AreInOrder};
ghost use Rattle.srm_engine.specs.Groups.{AreCuts, sizes, all_in};
ghost use Rattle.srm_engine.specs.Groups.{IsCut, AreKept, MayLookAgain, LooksAgain};
ghost use Rattle.srm_engine.specs.Groups.{MayHearInAnyOrder, HearsInSomeOrder};

use crate::sent::sent_in_turn;
use crate::soonest::{Soonest, soonest_in, soonest_of_each};
use srm_cell::cell::Cell;
use srm_cell::sent::Sent;
use srm_interfaces::watch::Watch;
use srm_interfaces::watch_crew::WatchCrew;
use srm_member::member::Member;
use srm_member::participant::Participant;
use srm_scenario::session::Session;
use std::alloc::{AllocError, Global};

/// The cells of all members, those of each job together, and how soon something is due in each of these groups.
#[derive(Drop)]
pub(crate) struct Groups<M = Box<dyn Member>> {
    /// How many cells a group has. The last one may have fewer.
    pub(crate) cut: usize,
    pub(crate) groups: Vec<Vec<Cell<M>>>,
    pub(crate) soon: Vec<Soonest>,
}

impl<M: Participant> Groups<M> {
    /// These cells in groups of `cut`.
    pub(crate) fn of(
        alloc: Global,
        session: Session,
        cells: Vec<Cell<M>>,
        cut: usize,
    ) -> Result<Groups<M>, AllocError>
        requires cut { IsCut cut }
        requires members { length cells.items ≤ length session.scenario.now.members }
        ensures cut { IfOk result (λ all. all.cut ≡ cut) }
        ensures same { IfOk result (λ all. all_in all.groups.items ≡ cells.items) }
        ensures kept { IfOk result (λ all. (seed : ℕ) → AreInOrder M.plain cells.items
            → AreKept M.plain (setting_on session.entry seed) all) }
    {
        let groups = group(alloc, cells, cut)?;
        let soon = soonest_of_each(alloc, session, groups.as_slice(), cut)?;
        Ok(Groups { cut, groups, soon })
    }

    /// Looks again for how soon something is due in each group in which something was due before tick `till`, after the own runs of
    /// all cells to it: where nothing was, no cell has changed.
    pub(crate) fn look_again(self, session: Session, till: u64) -> Groups<M>
        requires may { MayLookAgain (length session.scenario.now.members) self }
        ensures same { (result.cut ≡ self.cut) × (result.groups ≡ self.groups) }
        ensures soon { (seed : ℕ) → LooksAgain M.plain
            (setting_on session.entry seed) till self result }
    {
        let until = session.scenario.until();
        let Groups { cut, groups, soon } = self;
        let mut soon = soon;
        let all = groups.as_slice();
        let kept = soon.as_mut_slice();
        for (index, group) in all.iter().enumerate() {
            if kept[index].time < till {
                kept[index] = soonest_in(session, group.as_slice(), index * cut, until);
            }
        }
        Groups { cut, groups, soon }
    }

    /// The groups after every member heard what was sent in some rows, in some order. It is handed over in lists that
    /// stand in order.
    pub(crate) fn heard_from<K, W: Watch<K>, C: WatchCrew<M, K, W>>(
        self,
        alloc: Global,
        session: Session,
        crew: &mut C,
        sent: Vec<Vec<Sent>>,
    ) -> Result<Groups<M>, AllocError>
        requires lead { MayLead C.ready C.serves crew.old session }
        requires sent { All (λ x. IsSent session.scenario.now session.net.now x) (all_in sent.items) }
        requires may { (seed : ℕ) × (rows : List OneRow) × (packets_of rows ≡ packets_in (all_in sent.items))
            × MayHearInAnyOrder M.plain (setting_on session seed) rows self }
        ensures lead { MayLead C.ready C.serves crew.new session.entry }
        ensures same { C.same crew.old crew.new }
        ensures handed { C.handed crew.old [] crew.new }
        ensures cut { IfOk result (λ heard. heard.cut ≡ self.cut) }
        ensures sizes { IfOk result (λ heard. sizes heard.groups.items ≡ sizes self.groups.items) }
        ensures heard { IfOk result (λ heard. (seed : ℕ) (rows : List OneRow)
            → packets_of rows ≡ packets_in (all_in sent.items)
            → HearsInSomeOrder M.plain (setting_on session.entry seed) rows self heard) }
    {
        if sent.is_empty() {
            return Ok(self);
        }
        let Groups { cut, groups, .. } = self;
        let sent = sent_in_turn(alloc, sent)?;
        let groups = crew.hear(alloc, session, sent, groups)?;
        let soon = soonest_of_each(alloc, session, groups.as_slice(), cut)?;
        Ok(Groups { cut, groups, soon })
    }

    /// All cells in one vector, in order of the members' numbers.
    pub(crate) fn into_cells(self, alloc: Global) -> Result<Vec<Cell<M>>, AllocError>
        ensures { IfOk result (λ cells. cells.items ≡ all_in self.groups.items) }
    {
        let mut cells = Vec::new(alloc);
        for group in self.groups {
            let mut group = group;
            cells.append(&mut group)?;
        }
        Ok(cells)
    }
}

// The cells in groups of `cut`, the last of which may have fewer.
fn group<M: Participant>(
    alloc: Global,
    cells: Vec<Cell<M>>,
    cut: usize,
) -> Result<Vec<Vec<Cell<M>>>, AllocError>
    requires { 0 < cut }
    ensures same { IfOk result (λ groups. all_in groups.items ≡ cells.items) }
    ensures cuts { IfOk result (λ groups. AreCuts cut (sizes groups.items)) }
{
    let mut groups = Vec::new(alloc);
    let mut group = Vec::new(alloc);
    for cell in cells {
        if group.len() == cut {
            groups.push(group)?;
            group = Vec::new(alloc);
        }
        group.push(cell)?;
    }
    if !group.is_empty() {
        groups.push(group)?;
    }
    Ok(groups)
}
