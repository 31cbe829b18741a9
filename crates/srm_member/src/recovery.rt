//! Loss recovery.
ghost use Rattle.std.specs.Prelude.{◌≡◌, ◌≢◌, ℕ, ◌<◌, ◌^◌};
ghost use Rattle.srm_net.specs.Limits.{end_of_time};
ghost use Rattle.srm_net.specs.declared.role.Role.TheVariants.{Listener};
ghost use Rattle.srm_member.specs.declared.cause.Cause.TheVariants.{Join, Arrival, Ask, Answer, Draw, Report};
ghost use Rattle.srm_member.specs.Record.{fixed_part, due_of, opening_record};
ghost use Rattle.srm_member.specs.Reacts.{Reacts, Finishes};
ghost use Rattle.srm_member.specs.Fit.{IsBounded};

use crate::cause::Cause;
use crate::due::Due;
use crate::exit::Exit;
use crate::fault::MemberFault;
use crate::fixed::Fixed;
use crate::gone::begin;
use crate::member_state::MemberState;
use crate::react::React;
use crate::told::Told;
use srm_net::packet::{Name, Packet};
use std::alloc::Global;
use std::marker::Model;

/// The loss recovery of a sender, a receiver or a late joiner (Floyd et al. 1997), which contracts see as its record.
///
/// Each timer that is set takes one word of the member's own generator, and nothing else takes one. After
/// [`MemberFault::NoMemory`], and after a `finish` that answered `Ok`, the record is gone: every later call answers
/// [`MemberFault::Spent`], and `due` answers `None`.
#[derive(Drop)]
pub struct Recovery {
    gone: bool,
    state: MemberState,
}

impl Model for Recovery {
    ghost use Rattle.std.specs.Prelude.{◌≡◌, false};
    ghost use Rattle.srm_net.specs.Roles.{is_listener};
    ghost use Rattle.srm_member.specs.Record.{Record};
    ghost use Rattle.srm_member.specs.Fit.{record_of};

    ghost Value = { Record };

    ghost view = { λ r. record_of r.gone r.state };

    ghost invariant = { λ r. is_listener r.state.fixed.role ≡ false };
}

impl Recovery {
    /// The record with which a member begins. It does not allocate.
    pub fn new(alloc: Global, fixed: Fixed) -> Self
        requires active { fixed.role ≢ Listener }
        requires fit { IsBounded fixed }
        ensures { result ≡ opening_record fixed }
    {
        Recovery {
            state: MemberState::new(alloc, fixed),
            gone: false,
        }
    }

    /// The member's number. It does not allocate.
    pub fn number(&self) -> u16
        ensures { result ≡ (fixed_part self.now).member }
    {
        self.state.number()
    }

    /// The least timer by time, rank and name. It does not allocate.
    pub fn due(&self) -> Option<Due>
        ensures { result ≡ due_of self.now }
    {
        if self.gone {
            return None;
        }
        self.state.due()
    }

    /// The member joins.
    ///
    /// # Errors
    /// As of [`Member::react`](crate::member::Member::react): `Spent` and `NoMemory`.
    pub fn join(&mut self, alloc: Global) -> Result<React, MemberFault>
        ensures { (at : ℕ) → Reacts self.old at Join result self.new }
    {
        begin(&mut self.gone)?;
        let react = self
            .state
            .tell_intervals(alloc, React::quiet(Told::Entered))?;
        self.gone = false;
        Ok(react)
    }

    /// A packet arrives at a time, in ticks, below 2^40.
    ///
    /// # Errors
    /// As of [`Member::react`](crate::member::Member::react): `Spent` and `NoMemory`.
    pub fn hear(&mut self, alloc: Global, at: u64, packet: &Packet) -> Result<React, MemberFault>
        requires { at < end_of_time }
        ensures { Reacts self.old at (Arrival packet.now) result self.new }
    {
        begin(&mut self.gone)?;
        let before = self.state.intervals();
        let outcome = self.state.hear(alloc, at, packet)?;
        let react = self.state.tell(alloc, before, outcome)?;
        self.gone = false;
        Ok(react)
    }

    /// The request timer of a name expires at a time, in ticks, below 2^40.
    ///
    /// # Errors
    /// As of [`Member::react`](crate::member::Member::react): `Spent` and `NoMemory`.
    pub fn ask(&mut self, alloc: Global, at: u64, name: Name) -> Result<React, MemberFault>
        requires { at < end_of_time }
        ensures { Reacts self.old at (Ask name) result self.new }
    {
        begin(&mut self.gone)?;
        let before = self.state.intervals();
        let outcome = self.state.ask(alloc, at, name)?;
        let react = self.state.tell(alloc, before, outcome)?;
        self.gone = false;
        Ok(react)
    }

    /// The repair timer of a name expires at a time, in ticks, below 2^40.
    ///
    /// # Errors
    /// As of [`Member::react`](crate::member::Member::react): `Spent` and `NoMemory`.
    pub fn answer(&mut self, alloc: Global, at: u64, name: Name) -> Result<React, MemberFault>
        requires { at < end_of_time }
        ensures { Reacts self.old at (Answer name) result self.new }
    {
        begin(&mut self.gone)?;
        let before = self.state.intervals();
        let outcome = self.state.answer(alloc, at, name)?;
        let react = self.state.tell(alloc, before, outcome)?;
        self.gone = false;
        Ok(react)
    }

    /// The member is to draw on a page at a time, in ticks.
    ///
    /// # Errors
    /// As of [`Member::react`](crate::member::Member::react): `Spent` and `NoMemory`.
    pub fn draw_op(
        &mut self,
        alloc: Global,
        at: u64,
        page: u16,
        ink: u32,
    ) -> Result<React, MemberFault>
        ensures { Reacts self.old at (Draw page ink) result self.new }
    {
        begin(&mut self.gone)?;
        let before = self.state.intervals();
        let outcome = self.state.draw_op(alloc, page, ink)?;
        let react = self.state.tell(alloc, before, outcome)?;
        self.gone = false;
        Ok(react)
    }

    /// The member is to send a session message.
    ///
    /// # Errors
    /// As of [`Member::react`](crate::member::Member::react): `Spent` and `NoMemory`.
    pub fn report(&mut self, alloc: Global) -> Result<React, MemberFault>
        ensures { (at : ℕ) → Reacts self.old at Report result self.new }
    {
        begin(&mut self.gone)?;
        let before = self.state.intervals();
        let outcome = self.state.report(alloc)?;
        let react = self.state.tell(alloc, before, outcome)?;
        self.gone = false;
        Ok(react)
    }

    /// Handles a cause at a time, in ticks, below 2^40.
    ///
    /// # Errors
    /// As of [`Member::react`](crate::member::Member::react): `Spent` and `NoMemory`.
    // in each role's own `react`: an answer is copied once less
    #[inline(always)]
    pub fn react(&mut self, alloc: Global, at: u64, cause: &Cause) -> Result<React, MemberFault>
        requires { at < end_of_time }
        ensures { Reacts self.old at cause.now result self.new }
    {
        match cause {
            Cause::Join => self.join(alloc),
            Cause::Arrival { packet } => self.hear(alloc, at, packet),
            Cause::Ask { name } => self.ask(alloc, at, *name),
            Cause::Answer { name } => self.answer(alloc, at, *name),
            Cause::Draw { page, ink } => self.draw_op(alloc, at, *page, *ink),
            Cause::Report => self.report(alloc),
        }
    }

    /// Ends the member, and gives what it holds and lacks. It is gone then, whatever the answer.
    ///
    /// # Errors
    /// As of [`Member::finish`](crate::member::Member::finish): `Spent` and `NoMemory`.
    pub fn finish(&mut self, alloc: Global) -> Result<Exit, MemberFault>
        ensures { Finishes self.old result self.new }
    {
        begin(&mut self.gone)?;
        let exit = self.state.exit(alloc)?;
        Ok(exit)
    }
}
