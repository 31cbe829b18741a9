//! What repairs change of what a member knows.
ghost use Rattle.std.specs.Prelude.{◌≡◌, ◌<◌, IfOk, OnOk, Some};
ghost use Rattle.std.specs.FinMap.Entries.{find};
ghost use Rattle.srm_net.specs.Limits.{end_of_time};
ghost use Rattle.srm_net.specs.Names.{name_cmp};
ghost use Rattle.srm_member.specs.React.{with_mark, with_rest, rest_of, with_timer_ended, with_duplicate_repair, begins_second_step, with_second_step, after_repair, with_timer_taken_over, with_own_timer_ended};

use crate::entries::Repairing;
use crate::mark::RepairMark;
use crate::member_state::MemberState;
use crate::resting::Resting;
use crate::steps::Steps;
use srm_net::packet::{Local, Name};
use std::alloc::AllocError;

impl MemberState {
    // The mark of a name's rest is now this, or none. Gives the one before.
    fn mark(
        &mut self,
        name: Name,
        mark: Option<RepairMark>,
    ) -> Result<Option<RepairMark>, AllocError>
        ensures before { IfOk result (λ k. k ≡ find name_cmp name self.old.marks) }
        ensures ok { OnOk result (self.new ≡ with_mark name mark self.old) }
        ensures fixed { self.new.fixed ≡ self.old.fixed }
    {
        let Some(mark) = mark else {
            return Ok(self.marks.take(name));
        };
        let before = self.marks.get(name);
        self.marks.put(name, mark)?;
        Ok(before)
    }

    // A repair with this mark was sent: the member does not answer requests that it serves for a while. Gives the name's rest before.
    fn rest(
        &mut self,
        at: u64,
        name: Name,
        who: u16,
        mark: Option<RepairMark>,
    ) -> Result<Resting, AllocError>
        requires { at < end_of_time }
        ensures before { IfOk result (λ r. r ≡ rest_of name self.old) }
        ensures ok { OnOk result (self.new ≡ with_rest at name who mark self.old) }
        ensures fixed { self.new.fixed ≡ self.old.fixed }
    {
        let base = self.base(name, who);
        let until = self.rests.replace(name, at + 3 * base)?;
        let before = self.mark(name, mark)?;
        Ok(Resting {
            until: until.unwrap_or(0),
            mark: before,
        })
    }

    // A name's rest.
    pub(crate) fn rest_of(&self, name: Name) -> Resting
        ensures { result ≡ rest_of name self.now }
    {
        Resting {
            until: self.rests.get(name).unwrap_or(0),
            mark: self.marks.get(name),
        }
    }

    // A repair with this mark ends a pending repair timer, if it serves the request.
    fn end_timer(&mut self, at: u64, name: Name, mark: Option<RepairMark>, repair: Repairing)
        requires { at < end_of_time }
        ensures { self.new ≡ with_timer_ended at name mark repair self.old }
    {
        if !self.fixed.serves(mark, repair.requester, repair.width) {
            return;
        }
        if !self.fixed.is_second_step(repair) {
            self.take_in_repair_delay(at, repair);
        }
        self.pending.forget_repair(name);
    }

    // A repair by this member is a duplicate after such a rest, or is not.
    fn see_duplicate(&mut self, at: u64, rest: Resting, who: u16, local: Option<Local>)
        ensures { self.new ≡ with_duplicate_repair at rest who local self.old }
    {
        if self.fixed.is_duplicate(at, rest, who, local) {
            self.repair_interval.hear_duplicate();
        }
    }

    // Whether a repair with this for it begins a second step, after such a rest.
    fn begins_second_step(&self, at: u64, name: Name, rest: Resting, local: Local) -> bool
        ensures { result ≡ begins_second_step at name rest local self.now }
    {
        let own = self.fixed.member;
        matches!(self.fixed.steps, Steps::Two)
            && local.requester == own
            && self.held.get(name).is_some()
            && self.pending.repair(name).is_none()
            && !self.fixed.rests_for(at, rest, own, Some(local.width))
    }

    // The second step of a repair, sent on by the member that asked (Floyd et al. 1997): a tick later (this project's own).
    fn send_on(
        &mut self,
        at: u64,
        name: Name,
        rest: Resting,
        local: Local,
    ) -> Result<(), AllocError>
        requires { at < end_of_time }
        ensures ok { OnOk result (self.new ≡ with_second_step at name rest (Some local) self.old) }
        ensures fixed { self.new.fixed ≡ self.old.fixed }
    {
        if !self.begins_second_step(at, name, rest, local) {
            return Ok(());
        }
        let interval = self.repair_interval;
        let length = self.length(0, interval.start(), interval.width(), 0);
        let repair = Repairing {
            set: at,
            expiry: at + length,
            requester: self.fixed.member,
            width: Some(local.width),
        };
        self.pending.plan(name, repair)?;
        Ok(())
    }

    // A repair of a name by this member is heard: the member rests; a pending repair timer that the repair serves ends, or the repair
    // is a duplicate; the member sends it on, where it asked for it.
    pub(crate) fn see_repair(
        &mut self,
        at: u64,
        name: Name,
        who: u16,
        local: Option<Local>,
    ) -> Result<(), AllocError>
        requires { at < end_of_time }
        ensures ok { OnOk result (self.new ≡ after_repair at name who local self.old) }
        ensures fixed { self.new.fixed ≡ self.old.fixed }
    {
        let mark = self.fixed.mark_from(who, local);
        let pending = self.pending.repair(name);
        let rest = self.rest(at, name, who, mark)?;
        match pending {
            Some(repair) => self.end_timer(at, name, mark, repair),
            None => self.see_duplicate(at, rest, who, local),
        }
        match local {
            Some(local) => self.send_on(at, name, rest, local),
            None => Ok(()),
        }
    }

    // A request of this width by that member takes a pending repair timer over, if it is wider. When it expires stays.
    pub(crate) fn take_over(
        &mut self,
        name: Name,
        who: u16,
        width: Option<u16>,
        repair: Repairing,
    ) -> Result<(), AllocError>
        ensures ok { OnOk result (self.new ≡ with_timer_taken_over name who width repair self.old) }
        ensures fixed { self.new.fixed ≡ self.old.fixed }
    {
        if !self.fixed.takes_over(width, repair) {
            return Ok(());
        }
        let wider = Repairing {
            set: repair.set,
            expiry: repair.expiry,
            requester: who,
            width,
        };
        self.pending.plan(name, wider)?;
        Ok(())
    }

    // A repair timer expired, and the member rests, with this mark.
    pub(crate) fn end_own_timer(
        &mut self,
        at: u64,
        name: Name,
        repair: Repairing,
        mark: Option<RepairMark>,
    ) -> Result<(), AllocError>
        requires { at < end_of_time }
        ensures ok { OnOk result (self.new ≡ with_own_timer_ended at name repair mark self.old) }
        ensures fixed { self.new.fixed ≡ self.old.fixed }
    {
        if !self.fixed.is_second_step(repair) {
            self.answer_first(at, repair);
        }
        let own = self.fixed.member;
        self.rest(at, name, own, mark)?;
        self.pending.forget_repair(name);
        Ok(())
    }
}
