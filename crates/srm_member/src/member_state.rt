//! What an active member knows, and how it answers.
ghost use Rattle.std.specs.Prelude.{◌≡◌, ◌⊎◌, ◌+◌, ◌-◌, ◌<◌, ◌≤◌, ◌^◌, [], ◌++◌, ◌&&◌, IfOk, OnOk, Some, None};
ghost use Rattle.srm_net.specs.Limits.{end_of_time, greatest_distance};
ghost use Rattle.srm_net.specs.Names;
ghost use Rattle.srm_member.specs.Backoff.{span_by};
ghost use Rattle.srm_member.specs.Intervals.{greatest_adapted, has_constants_of};
ghost use Rattle.srm_member.specs.Record.{opening_state, exit_of, earliest, timers_of};
ghost use Rattle.srm_net.specs.Paths.{is_in};
ghost use Rattle.srm_member.specs.React.{distance_to, length_in, with_next_word, request_length, repair_length, with_request_delay, back_off, begins_at, meet, with_progress, lose_one, lose_from, with_losses_begun, lose_below, names_from, lost_below, hear_data, base, after_repair_delay, with_repairs_begun, with_repair_timer, hear_request_of_missing, hear_request_of_held, hear_request, after_entry, lost_by_entry, hear_session, hear_body, with_request_first, expire_request, with_repair_first, expire_repair, own_progress, draw_operation, session_of, send_body, intervals_of, adapted_since};
ghost use Rattle.srm_member.specs.Fit.{IsBounded, Acts, Gives};

use crate::adapted::Adapted;
use crate::due::Due;
use crate::entries::{Missing, Repairing};
use crate::exit::Exit;
use crate::fixed::Fixed;
use crate::held::Held;
use crate::interval::Interval;
use crate::intervals::Intervals;
use crate::mark::RepairMark;
use crate::named::Named;
use crate::pages::Pages;
use crate::pending::Pending;
use crate::progress::Progress;
use crate::react::React;
use crate::rising::Rising;
use crate::timers::draw;
use crate::told::Told;
use rand_core::utils::NextWord;
use rand_pcg::Lcg64Xsh32;
use srm_net::packet::{Body, Heard, Name, Packet, PageId};
use srm_net::role::Role;
use srm_net::sequence::Sequence;
use std::alloc::{AllocError, Global};
use std::marker::Model;

/// A sender draws at most so many operations on a page.
const MOST_DRAWN: u64 = 4096;

/// What an active member knows: its fixed part, its generator, the intervals of its timers, and its tables.
#[derive(Drop)]
pub struct MemberState {
    progress: Pages,
    pub(crate) held: Held,
    pub(crate) pending: Pending,
    pub(crate) rests: Rising<u64>,
    // of rests that come from a repair with a scope
    pub(crate) marks: Named<RepairMark>,
    words: Lcg64Xsh32,
    request_interval: Interval,
    pub(crate) repair_interval: Interval,
    pub(crate) fixed: Fixed,
}

impl Model for MemberState {
    ghost use Rattle.srm_member.specs.Record.{MemberState as Seen};
    ghost use Rattle.srm_member.specs.Fit.{IsBounded};

    ghost Value = { Seen };

    ghost view = { λ t. record {
      fixed = t.fixed;
      words = t.words;
      request_interval = t.request_interval;
      repair_interval = t.repair_interval;
      progress = t.progress;
      held = t.held;
      missing = t.pending.0;
      repairs = t.pending.1;
      rests = t.rests;
      marks = t.marks;
    } };

    ghost invariant = { λ t. IsBounded t.fixed };
}

impl MemberState {
    /// What a member knows at first. It does not allocate.
    pub fn new(alloc: Global, fixed: Fixed) -> Self
        requires { IsBounded fixed }
        ensures { result ≡ opening_state fixed }
    {
        let words = Lcg64Xsh32::new(fixed.seed, fixed.stream);
        let request_interval = Interval::new(fixed.c1, fixed.c2);
        let repair_interval = Interval::new(fixed.d1, fixed.d2);
        MemberState {
            fixed,
            words,
            request_interval,
            repair_interval,
            progress: Pages::new(alloc),
            held: Held::new(alloc),
            pending: Pending::new(alloc),
            rests: Rising::new(alloc),
            marks: Named::new(alloc),
        }
    }

    /// The member's number.
    pub fn number(&self) -> u16
        ensures { result ≡ self.now.fixed.member }
    {
        self.fixed.member
    }

    // The distance to a member that timers and rests go by, in ticks.
    fn distance_to(&mut self, who: u16) -> u64
        ensures value { result ≡ distance_to self.old who }
        ensures bound { result ≤ greatest_distance }
        ensures same { self.new ≡ self.old }
    {
        self.fixed.dist.to(who)
    }

    // The length of a new timer, in ticks, which takes one word of the generator.
    pub(crate) fn length(&mut self, i: u32, x: u32, y: u32, d: u64) -> u64
        requires least { x ≤ greatest_adapted }
        requires more { y ≤ greatest_adapted }
        requires distance { d ≤ greatest_distance }
        ensures length { result ≡ length_in self.old (span_by self.old.fixed.backoff i x y d) }
        ensures word { self.new ≡ with_next_word self.old }
        ensures bound { result < 2 ^ 58 }
    {
        let (lo, hi) = self.fixed.backoff.span(i, x, y, d);
        draw(self.words.next_word(), lo, hi)
    }

    // The length of a new request timer after `i` backoffs, in ticks.
    fn request_length(&mut self, i: u32, name: Name) -> u64
        ensures length { result ≡ request_length self.old i name }
        ensures word { self.new ≡ with_next_word self.old }
        ensures bound { result < 2 ^ 58 }
    {
        let distance = self.distance_to(name.source);
        let interval = self.request_interval;
        self.length(i, interval.start(), interval.width(), distance)
    }

    // The length of a new repair timer for a request of this member, in ticks.
    fn repair_length(&mut self, who: u16) -> u64
        ensures length { result ≡ repair_length self.old (distance_to self.old who) }
        ensures word { self.new ≡ with_next_word self.old }
        ensures bound { result < 2 ^ 58 }
    {
        let distance = self.distance_to(who);
        let interval = self.repair_interval;
        self.length(0, interval.start(), interval.width(), distance)
    }

    // The first time that a member backs off for a name, the request interval takes in the delay since its loss was detected.
    fn take_in_request_delay(&mut self, at: u64, name: Name, missing: Missing)
        requires { at < end_of_time }
        ensures { self.new ≡ with_request_delay at name missing self.old }
    {
        if missing.backoffs > 0 {
            return;
        }
        let distance = self.distance_to(name.source);
        self.request_interval
            .take_in_delay(at.saturating_sub(missing.detected), distance);
    }

    // The repair interval takes in the delay since a repair timer was set.
    pub(crate) fn take_in_repair_delay(&mut self, at: u64, repair: Repairing)
        requires { at < end_of_time }
        ensures { self.new ≡ record self.old { repair_interval = after_repair_delay at repair self.old } }
    {
        let distance = self.distance_to(repair.requester);
        self.repair_interval
            .take_in_delay(at.saturating_sub(repair.set), distance);
    }

    // Backs off: the request timer of a missing name is set anew (Floyd et al. 1997). Its span grows up to the tenth
    // backoff, or with the factor three up to the sixth: where it stops is this project's own.
    fn back_off(&mut self, at: u64, name: Name, missing: Missing) -> Result<(), AllocError>
        requires { at < end_of_time }
        ensures ok { OnOk result (self.new ≡ back_off at name missing self.old) }
        ensures fixed { self.new.fixed ≡ self.old.fixed }
    {
        self.take_in_request_delay(at, name, missing);
        let backoffs = missing.backoffs.min(9) + 1;
        let length = self.request_length(backoffs, name);
        let later = Missing {
            detected: missing.detected,
            expiry: at + length,
            backoffs,
            ignore: at + length / 2,
        };
        self.pending.miss(name, later)?;
        Ok(())
    }

    // Loses a name: it is missing from here on, with a new request timer.
    fn lose_one(&mut self, at: u64, name: Name) -> Result<(), AllocError>
        requires { at < end_of_time }
        ensures ok { OnOk result (self.new ≡ lose_one at name self.old) }
        ensures fixed { self.new.fixed ≡ self.old.fixed }
    {
        let length = self.request_length(0, name);
        let missing = Missing {
            detected: at,
            expiry: at + length,
            backoffs: 0,
            ignore: at,
        };
        self.pending.miss(name, missing)?;
        Ok(())
    }

    // Loses the names of a page from number `from` to below `to`, in rising order, and lists them.
    fn lose_from(
        &mut self,
        at: u64,
        page: PageId,
        from: u64,
        to: u64,
        lost: &mut Sequence<Name>,
    ) -> Result<(), AllocError>
        requires time { at < end_of_time }
        requires numbers { to ≤ 2 ^ 32 }
        ensures ok { OnOk result (self.new ≡ lose_from at page (to - from) from self.old) }
        ensures names { OnOk result (lost.new ≡ lost.old ++ names_from page (to - from) from) }
        ensures fixed { self.new.fixed ≡ self.old.fixed }
    {
        for number in from..to {
            let name = Name {
                source: page.source,
                page: page.page,
                number: number as u32,
            };
            self.lose_one(at, name)?;
            lost.push(name)?;
        }
        Ok(())
    }

    // Whether a page is one of those that a late member wants whole.
    fn wants(&self, page: u16) -> bool
        ensures { result ≡ is_in self.now.fixed.pages page }
    {
        self.fixed.pages.as_slice().iter().any(|p| *p == page)
    }

    // Where a page begins for this member: a late member does not ask for what came before on pages that it does not want.
    fn begins_at(&self, page: PageId, begin: u64) -> u64
        ensures value { result ≡ begins_at self.now page begin }
        ensures bound { result ≤ begin }
    {
        if matches!(self.fixed.role, Role::Late) && !self.wants(page.page) {
            begin
        } else {
            0
        }
    }

    // How far the member follows a page, which it may meet here for the first time: then it begins here or earlier.
    fn meet(&self, page: PageId, begin: u64) -> Progress
        requires { begin ≤ 2 ^ 32 }
        ensures value { result ≡ meet self.now page begin }
        ensures known { (begin < result.floor) ⊎ (begin < result.next) → with_progress page result self.now ≡ self.now }
    {
        match self.progress.get(page) {
            Some(progress) => progress,
            None => {
                let begin = self.begins_at(page, begin);
                Progress::new(begin, begin)
            }
        }
    }

    // The same, where the member follows the page from here on.
    fn follow(&mut self, page: PageId, begin: u64) -> Result<Progress, AllocError>
        requires { begin ≤ 2 ^ 32 }
        ensures value { IfOk result (λ s. s ≡ meet self.old page begin) }
        ensures ok { IfOk result (λ s. self.new ≡ with_progress page s self.old) }
        ensures fixed { self.new.fixed ≡ self.old.fixed }
    {
        if let Some(progress) = self.progress.get(page) {
            return Ok(progress);
        }
        let begin = self.begins_at(page, begin);
        let progress = Progress::new(begin, begin);
        self.progress.put(page, progress)?;
        Ok(progress)
    }

    // A period of request timers begins, if an event loses numbers of a page below `n`, and lost none before.
    fn begin_losses(&mut self, n: u64, progress: Progress, lost: &Sequence<Name>)
        ensures { self.new ≡ with_losses_begun lost.now n progress self.old }
    {
        if lost.is_empty() && progress.next() < n {
            self.request_interval
                .begin_period(self.fixed.c1, self.fixed.c2);
        }
    }

    // Loses every number of a page below `n` that was not heard of, and lists them; the page's next number is then `next`.
    #[tactic(auto, unfolding(crate::specs::React::lose_below))]
    fn lose_below(
        &mut self,
        at: u64,
        page: PageId,
        n: u64,
        next: u64,
        progress: Progress,
        lost: &mut Sequence<Name>,
    ) -> Result<(), AllocError>
        requires time { at < end_of_time }
        requires numbers { n ≤ 2 ^ 32 }
        requires after { next ≤ 2 ^ 32 }
        ensures ok { OnOk result (self.new ≡ lose_below at page n next progress lost.old self.old) }
        ensures names { OnOk result (lost.new ≡ lost.old ++ lost_below page n progress) }
        ensures fixed { self.new.fixed ≡ self.old.fixed }
    {
        self.begin_losses(n, progress, lost);
        self.lose_from(at, page, progress.next(), n, lost)?;
        self.progress
            .put(page, Progress::new(progress.floor(), next))?;
        Ok(())
    }

    // Takes in data, or a repair, of a name.
    #[tactic(auto, unfolding(crate::specs::React::hear_data))]
    fn hear_data(
        &mut self,
        alloc: Global,
        at: u64,
        name: Name,
        ink: u32,
        repaired: bool,
    ) -> Result<React, AllocError>
        requires { at < end_of_time }
        ensures { Acts self.old (hear_data at name ink repaired self.old) result self.new }
    {
        let page = page_of(name);
        let number = u64::from(name.number);
        let progress = self.meet(page, number);
        if number < progress.floor() {
            return Ok(React::quiet(Told::Skip));
        }
        if number == progress.next() {
            // in turn, as most are: nothing is lost
            self.progress
                .put(page, Progress::new(progress.floor(), number + 1))?;
            self.held.put(name, ink)?;
            return Ok(React::quiet(Told::Fresh));
        }
        if number > progress.next() {
            let mut lost = Sequence::new(alloc);
            self.lose_below(at, page, number, number + 1, progress, &mut lost)?;
            self.held.put(name, ink)?;
            return React::losing(alloc, Told::Fresh, lost);
        }
        if let Some(missing) = self.pending.missing(name) {
            if repaired {
                self.take_in_request_delay(at, name, missing);
            }
            self.held.put(name, ink)?;
            self.pending.forget_missing(name);
            return Ok(React::quiet(Told::Fixed));
        }
        Ok(React::quiet(Told::Again))
    }

    // The distance on which a name's rest is based, in ticks: that to its source; at the source itself that to whoever set the
    // pending repair timer, or without one to the member that sent the repair.
    pub(crate) fn base(&mut self, name: Name, who: u16) -> u64
        ensures value { result ≡ base self.old name who }
        ensures bound { result ≤ greatest_distance }
        ensures same { self.new ≡ self.old }
    {
        if name.source != self.fixed.member {
            return self.distance_to(name.source);
        }
        match self.pending.repair(name) {
            Some(repair) => self.distance_to(repair.requester),
            None => self.distance_to(who),
        }
    }

    // A period of repair timers begins.
    fn begin_repairs(&mut self)
        ensures { self.new ≡ with_repairs_begun self.old }
    {
        self.repair_interval
            .begin_period(self.fixed.d1, self.fixed.d2);
    }

    // Plans a repair, for a request of this width by that member (Floyd et al. 1997).
    fn plan(&mut self, at: u64, name: Name, who: u16, width: Option<u16>) -> Result<(), AllocError>
        requires { at < end_of_time }
        ensures ok { OnOk result (self.new ≡ with_repair_timer at name who width self.old) }
        ensures fixed { self.new.fixed ≡ self.old.fixed }
    {
        self.begin_repairs();
        let length = self.repair_length(who);
        let repair = Repairing {
            set: at,
            expiry: at + length,
            requester: who,
            width,
        };
        self.pending.plan(name, repair)?;
        Ok(())
    }

    // A request for a name that is missing.
    fn hear_request_of_missing(
        &mut self,
        alloc: Global,
        at: u64,
        name: Name,
        lost: Sequence<Name>,
    ) -> Result<React, AllocError>
        requires { at < end_of_time }
        ensures { Acts self.old (hear_request_of_missing at name lost self.old) result self.new }
    {
        match self.pending.missing(name) {
            None => React::losing(alloc, Told::Hold, lost),
            Some(missing) => {
                if at < missing.ignore {
                    self.request_interval.hear_duplicate();
                    return React::losing(alloc, Told::Hold, lost);
                }
                self.back_off(at, name, missing)?;
                React::losing(alloc, Told::Back, lost)
            }
        }
    }

    // A request of this width for a name that is held, by that member.
    fn hear_request_of_held(
        &mut self,
        at: u64,
        name: Name,
        who: u16,
        width: Option<u16>,
    ) -> Result<React, AllocError>
        requires { at < end_of_time }
        ensures { Acts self.old (hear_request_of_held at name who width self.old) result self.new }
    {
        if self.fixed.rests_for(at, self.rest_of(name), who, width) {
            return Ok(React::quiet(Told::Rest));
        }
        match self.pending.repair(name) {
            None => {
                self.plan(at, name, who, width)?;
                Ok(React::quiet(Told::Plan))
            }
            Some(repair) => {
                self.take_over(name, who, width, repair)?;
                Ok(React::quiet(Told::Busy))
            }
        }
    }

    // A request of this width for a name, by that member.
    #[tactic(auto, unfolding(crate::specs::React::hear_request))]
    fn hear_request(
        &mut self,
        alloc: Global,
        at: u64,
        name: Name,
        who: u16,
        width: Option<u16>,
    ) -> Result<React, AllocError>
        requires { at < end_of_time }
        ensures { Acts self.old (hear_request at name who width self.old) result self.new }
    {
        let page = page_of(name);
        let number = u64::from(name.number);
        let progress = self.follow(page, number + 1)?;
        if number < progress.floor() {
            return Ok(React::quiet(Told::Skip));
        }
        if self.held.get(name).is_some() {
            return self.hear_request_of_held(at, name, who, width);
        }
        let mut lost = Sequence::new(alloc);
        if number >= progress.next() {
            self.lose_below(at, page, number + 1, number + 1, progress, &mut lost)?;
        }
        self.hear_request_of_missing(alloc, at, name, lost)
    }

    // Takes in an entry of a session message, and lists the names that are lost by it.
    #[tactic(auto, unfolding(crate::specs::React::after_entry))]
    fn after_entry(
        &mut self,
        at: u64,
        heard: Heard,
        lost: &mut Sequence<Name>,
    ) -> Result<(), AllocError>
        requires { at < end_of_time }
        ensures ok { OnOk result (self.new ≡ after_entry at heard lost.old self.old) }
        ensures names { OnOk result (lost.new ≡ lost.old ++ lost_by_entry heard self.old) }
        ensures fixed { self.new.fixed ≡ self.old.fixed }
    {
        let page = PageId {
            source: heard.source,
            page: heard.page,
        };
        let highest = u64::from(heard.highest);
        let progress = self.meet(page, highest + 1);
        if highest >= progress.next() {
            self.lose_below(at, page, highest + 1, highest + 1, progress, lost)?;
        } else {
            self.progress.put(page, progress)?;
        }
        Ok(())
    }

    // Takes in a session message.
    fn hear_session(&mut self, alloc: Global, at: u64, heard: &[Heard]) -> Result<React, AllocError>
        requires { at < end_of_time }
        ensures { Acts self.old (hear_session at heard.now self.old []) result self.new }
    {
        let mut lost = Sequence::new(alloc);
        for entry in heard {
            self.after_entry(at, *entry, &mut lost)?;
        }
        React::losing(alloc, Told::Heard, lost)
    }

    /// Takes in a packet.
    pub fn hear(&mut self, alloc: Global, at: u64, packet: &Packet) -> Result<React, AllocError>
        requires { at < end_of_time }
        ensures { Acts self.old (hear_body at packet.now.id.sender packet.now.body self.old) result self.new }
    {
        let who = packet.id.sender;
        match &packet.body {
            Body::Drawop { name, ink } => self.hear_data(alloc, at, *name, *ink, false),
            Body::Repair { name, ink, local } => {
                let react = self.hear_data(alloc, at, *name, *ink, true)?;
                if !matches!(react.told(), Told::Skip) {
                    self.see_repair(at, *name, who, *local)?;
                }
                Ok(react)
            }
            Body::Request { name, scope } => self.hear_request(alloc, at, *name, who, *scope),
            Body::Session { heard } => self.hear_session(alloc, at, heard.as_slice()),
        }
    }

    // The member asks for a name: it asks first, if it had not backed off for it.
    fn ask_first(&mut self, missing: Missing)
        ensures { self.new ≡ with_request_first missing self.old }
    {
        if missing.backoffs == 0 {
            self.request_interval.send_first(self.fixed.c1);
        }
    }

    /// The request timer of a name expires: the member asks for the name, and backs off.
    #[tactic(auto, unfolding(crate::specs::React::expire_request))]
    pub fn ask(&mut self, alloc: Global, at: u64, name: Name) -> Result<React, AllocError>
        requires { at < end_of_time }
        ensures { Acts self.old (expire_request at name self.old) result self.new }
    {
        match self.pending.missing(name) {
            None => Ok(React::quiet(Told::Skip)),
            Some(missing) => {
                let scope = self.fixed.scope_of_request(missing.backoffs);
                self.ask_first(missing);
                self.back_off(at, name, missing)?;
                React::sent(alloc, Body::Request { name, scope })
            }
        }
    }

    // The member answers first, and the delay since it set the timer is taken in.
    pub(crate) fn answer_first(&mut self, at: u64, repair: Repairing)
        requires { at < end_of_time }
        ensures { self.new ≡ with_repair_first at repair self.old }
    {
        self.repair_interval.send_first(self.fixed.d1);
        self.take_in_repair_delay(at, repair);
    }

    /// The repair timer of a name expires: the member sends what it holds.
    #[tactic(auto, unfolding(crate::specs::React::expire_repair))]
    pub fn answer(&mut self, alloc: Global, at: u64, name: Name) -> Result<React, AllocError>
        requires { at < end_of_time }
        ensures { Acts self.old (expire_repair at name self.old) result self.new }
    {
        match self.pending.repair(name) {
            None => Ok(React::quiet(Told::Skip)),
            Some(repair) => {
                let local = self.fixed.local_of(repair);
                let ink = self.held.get(name).unwrap_or(0);
                self.end_own_timer(at, name, repair, RepairMark::after(local, 0))?;
                React::sent(alloc, Body::Repair { name, ink, local })
            }
        }
    }

    // How far the member follows a page of its own.
    fn own_progress(&self, page: PageId) -> Progress
        ensures { result ≡ own_progress self.now page }
    {
        match self.progress.get(page) {
            Some(progress) => progress,
            None => Progress::new(0, 0),
        }
    }

    /// A sender draws, up to 4,096 (`MOST_DRAWN`) operations on a page.
    #[tactic(auto, unfolding(crate::specs::React::draw_operation))]
    pub fn draw_op(&mut self, alloc: Global, page: u16, ink: u32) -> Result<React, AllocError>
        ensures { Acts self.old (draw_operation page ink self.old) result self.new }
    {
        let source = self.fixed.member;
        let place = PageId { source, page };
        let progress = self.own_progress(place);
        let next = progress.next();
        if !matches!(self.fixed.role, Role::Sender) || next >= MOST_DRAWN {
            return Ok(React::quiet(Told::Skip));
        }
        let name = Name {
            source,
            page,
            number: next as u32,
        };
        self.progress
            .put(place, Progress::new(progress.floor(), next + 1))?;
        self.held.put(name, ink)?;
        React::sent(alloc, Body::Drawop { name, ink })
    }

    /// The session message that tells of every page that the member follows.
    pub fn report(&self, alloc: Global) -> Result<React, AllocError>
        ensures { IfOk result (λ a. Gives a self.now (send_body self.now (session_of self.now))) }
    {
        let heard = self.progress.heard(alloc)?;
        React::sent(alloc, Body::Session { heard })
    }

    /// Both intervals.
    #[inline(always)]
    pub fn intervals(&self) -> Intervals
        ensures { result ≡ intervals_of self.now }
    {
        Intervals {
            request: self.request_interval,
            repair: self.repair_interval,
        }
    }

    // Whether the four constants are those of these intervals.
    #[inline(always)]
    fn has_constants_of(&self, before: Intervals) -> bool
        ensures { result ≡ (has_constants_of before.request self.now.request_interval
            && has_constants_of before.repair self.now.repair_interval) }
    {
        self.request_interval.has_constants_of(before.request)
            && self.repair_interval.has_constants_of(before.repair)
    }

    /// The answer to an event that is no join, with what it tells of the intervals, which were these before the event.
    #[inline(always)]
    pub fn tell(&self, alloc: Global, before: Intervals, react: React) -> Result<React, AllocError>
        ensures { IfOk result (λ r. r ≡ record react { adapted = adapted_since before (intervals_of self.now) }) }
    {
        if self.has_constants_of(before) {
            // most events adapt none, and of most there is no more to tell
            return react.telling(alloc, Adapted::nothing());
        }
        self.tell_intervals(alloc, react)
    }

    /// The answer, which tells the intervals besides.
    #[inline(never)]
    pub fn tell_intervals(&self, alloc: Global, react: React) -> Result<React, AllocError>
        ensures { IfOk result (λ r. r ≡ record react { adapted = Some (intervals_of self.now) }) }
    {
        let adapted = Adapted::of(alloc, Some(self.intervals()))?;
        react.telling(alloc, adapted)
    }

    /// What the member ends with.
    pub fn exit(&self, alloc: Global) -> Result<Exit, AllocError>
        ensures { IfOk result (λ e. e ≡ exit_of self.now) }
    {
        let held = self.held.entries(alloc)?;
        let missing = self.pending.names(alloc)?;
        Ok(Exit {
            member: self.fixed.member,
            held,
            missing,
        })
    }

    /// The least timer by time, rank and name.
    pub fn due(&self) -> Option<Due>
        ensures { result ≡ earliest (timers_of self.now) }
    {
        self.pending.due()
    }
}

fn page_of(name: Name) -> PageId
    ensures { result ≡ Names.page_of name }
{
    PageId {
        source: name.source,
        page: name.page,
    }
}
