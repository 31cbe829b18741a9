//! Listeners.
ghost use Rattle.std.specs.Prelude.{◌≡◌, [], IfOk, OnErr, MatchResult};
ghost use Rattle.srm_net.specs.declared.role.Role.TheVariants as role;
ghost use Rattle.srm_member.specs.declared.fault.MemberFault.TheVariants.{NoMemory};
ghost use Rattle.srm_member.specs.Record.{MemberState, opening_record};
ghost use Rattle.srm_member.specs.React.{quietly, listen_data, react_listener};
ghost use Rattle.srm_roles.specs.Opening.{HasRole, fixed_of};

use crate::fixed::fixed_of;
use srm_member::cause::Cause;
use srm_member::due::Due;
use srm_member::exit::Exit;
use srm_member::fault::MemberFault;
use srm_member::fixed::Fixed;
use srm_member::gone::begin;
use srm_member::held::Held;
use srm_member::member::Member;
use srm_member::react::React;
use srm_member::told::Told;
use srm_net::net::Net;
use srm_net::packet::{Body, Name};
use srm_net::sequence::Sequence;
use srm_scenario::scenario::Scenario;
use std::alloc::{AllocError, Global};
use std::marker::Model;

/// A member that hears, and neither asks nor answers (this project's own). It never draws, and takes no word of its generator.
#[derive(Drop)]
pub struct Listener {
    fixed: Fixed,
    held: Held,
    gone: bool,
}

impl Model for Listener {
    ghost use Rattle.std.specs.Prelude.{◌≡◌, true};
    ghost use Rattle.srm_net.specs.Roles.{is_listener};
    ghost use Rattle.srm_member.specs.Record.{Record};
    ghost use Rattle.srm_member.specs.Fit.{record_of};
    ghost use Rattle.srm_roles.specs.Opening.{listening};

    ghost Value = { Record };

    ghost view = { λ s. record_of s.gone (listening s.fixed s.held) };

    ghost invariant = { λ s. is_listener s.fixed.role ≡ true };
}

impl Listener {
    /// Member m of a scenario, with the record with which it begins.
    ///
    /// # Errors
    ///
    /// [`MemberFault::NoMemory`] alone.
    pub fn new(
        alloc: Global,
        scenario: &Scenario,
        net: &Net,
        seed: u64,
        m: u16,
    ) -> Result<Self, MemberFault>
        requires { HasRole scenario.now net.now m role.Listener }
        ensures { MatchResult result (λ s. s ≡ opening_record (fixed_of scenario.now seed m))
            (λ e. e ≡ NoMemory) }
    {
        let fixed = fixed_of(alloc, scenario, net, seed, m)?;
        Ok(Listener {
            fixed,
            held: Held::new(alloc),
            gone: false,
        })
    }
}

impl Member for Listener {
    ghost plain = { λ s. s };

    fn number(&self) -> u16 {
        self.fixed.member
    }

    fn due(&self) -> Option<Due> {
        let _fixed = &self.fixed;
        None
    }

    fn react(&mut self, _alloc: Global, _at: u64, cause: &Cause) -> Result<React, MemberFault> {
        begin(&mut self.gone)?;
        let told = listen(&mut self.held, cause)?;
        self.gone = false;
        Ok(React::quiet(told))
    }

    fn finish(&mut self, alloc: Global) -> Result<Exit, MemberFault> {
        begin(&mut self.gone)?;
        let held = self.held.entries(alloc)?;
        Ok(Exit {
            member: self.fixed.member,
            held,
            missing: Sequence::new(alloc),
        })
    }
}

// What comes of a cause, and the names held after it.
fn listen(held: &mut Held, cause: &Cause) -> Result<Told, AllocError>
    ensures ok { IfOk result (λ told. (m : MemberState) → m.held ≡ held.old
        → react_listener m cause.now ≡ quietly (record m { held = held.new }) told []) }
    ensures err { OnErr result (held.new ≡ held.old) }
{
    match cause {
        Cause::Join => Ok(Told::Entered),
        Cause::Arrival { packet } => match &packet.body {
            Body::Drawop { name, ink } => hold(held, *name, *ink),
            Body::Repair { name, ink, .. } => hold(held, *name, *ink),
            Body::Request { .. } => Ok(Told::Skip),
            Body::Session { .. } => Ok(Told::Skip),
        },
        Cause::Ask { .. } => Ok(Told::Skip),
        Cause::Answer { .. } => Ok(Told::Skip),
        Cause::Draw { .. } => Ok(Told::Skip),
        Cause::Report => Ok(Told::Skip),
    }
}

// Takes in data or a repair of a name.
fn hold(held: &mut Held, name: Name, ink: u32) -> Result<Told, AllocError>
    ensures ok { IfOk result (λ told. (m : MemberState) → m.held ≡ held.old
        → listen_data name ink m ≡ quietly (record m { held = held.new }) told []) }
    ensures err { OnErr result (held.new ≡ held.old) }
{
    if held.get(name).is_some() {
        return Ok(Told::Again);
    }
    held.put(name, ink)?;
    Ok(Told::Fresh)
}
