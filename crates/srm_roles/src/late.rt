//! Late joiners.
ghost use Rattle.std.specs.Prelude.{◌≡◌, MatchResult};
ghost use Rattle.srm_net.specs.declared.role.Role.TheVariants as role;
ghost use Rattle.srm_member.specs.declared.fault.MemberFault.TheVariants.{NoMemory};
ghost use Rattle.srm_member.specs.Record.{opening_record};
ghost use Rattle.srm_roles.specs.Opening.{HasRole, fixed_of};

use crate::fixed::fixed_of;
use srm_member::cause::Cause;
use srm_member::due::Due;
use srm_member::exit::Exit;
use srm_member::fault::MemberFault;
use srm_member::member::Member;
use srm_member::react::React;
use srm_member::recovery::Recovery;
use srm_net::net::Net;
use srm_scenario::scenario::Scenario;
use std::alloc::Global;
use std::marker::Model;

/// A member that joins late: it takes part in loss recovery, and asks for earlier operations of chosen pages alone (this
/// project's own).
#[derive(Drop)]
pub struct Late {
    recovery: Recovery,
}

impl Model for Late {
    ghost use Rattle.srm_member.specs.Record.{Record};

    ghost Value = { Record };

    ghost view = { λ s. s.recovery };
}

impl Late {
    /// Member m of a scenario, with the record with which it begins.
    ///
    /// # Errors
    ///
    /// [`MemberFault::NoMemory`] alone.
    pub fn new(
        alloc: Global,
        scenario: &Scenario,
        net: &Net,
        seed: u64,
        m: u16,
    ) -> Result<Self, MemberFault>
        requires { HasRole scenario.now net.now m role.Late }
        ensures { MatchResult result (λ s. s ≡ opening_record (fixed_of scenario.now seed m))
            (λ e. e ≡ NoMemory) }
    {
        let fixed = fixed_of(alloc, scenario, net, seed, m)?;
        Ok(Late {
            recovery: Recovery::new(alloc, fixed),
        })
    }
}

impl Member for Late {
    ghost plain = { λ s. s };

    fn number(&self) -> u16 {
        self.recovery.number()
    }

    fn due(&self) -> Option<Due> {
        self.recovery.due()
    }

    fn react(&mut self, alloc: Global, at: u64, cause: &Cause) -> Result<React, MemberFault> {
        self.recovery.react(alloc, at, cause)
    }

    fn finish(&mut self, alloc: Global) -> Result<Exit, MemberFault> {
        self.recovery.finish(alloc)
    }
}
