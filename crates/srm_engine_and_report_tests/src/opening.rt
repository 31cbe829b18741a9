//! Scenarios that are accepted, and their members.
ghost use Rattle.std.specs.Prelude.{◌≡◌, ◌<◌, length, map, IfOk};
ghost use Rattle.srm_scenario.specs.Plain.{network_of};
ghost use Rattle.srm_member.specs.Record.{opening_record};
ghost use Rattle.srm_cell.specs.Setting.{fixed_of};
ghost use Rattle.srm_engine.specs.Openings.{HoldOpeningRecords};

use srm_examples::watched::MemberWatch;
use srm_member::member::Member;
use srm_net::net::Net;
use srm_net::role::Role;
use srm_roles::late::Late;
use srm_roles::listener::Listener;
use srm_roles::receiver::Receiver;
use srm_roles::sender::Sender;
use srm_scenario::fault::ScenarioFault;
use srm_scenario::feed::ReadFeed;
use srm_scenario::reading::read_scenario;
use srm_scenario::scenario::Scenario;
use std::alloc::{AllocError, Global};
use std::process::Abort;

/// A scenario that is accepted, and its network.
pub(crate) fn opened(
    rt: &impl Abort,
    alloc: Global,
    text: &str,
) -> Result<(Scenario, Net), AllocError>
    ensures { IfOk result (λ r. r.1 ≡ network_of r.0) }
{
    let mut feed = ReadFeed::new(text.as_bytes());
    let scenario = match read_scenario(alloc, &mut feed) {
        Ok(scenario) => scenario,
        Err(fault) => {
            assert_eq!(rt; fault, ScenarioFault::NoMemory);
            return Err(AllocError);
        }
    };
    match scenario.net(alloc) {
        Ok(net) => Ok((scenario, net)),
        Err(_) => Err(AllocError),
    }
}

// Member m of a scenario, made by its role with random words of seed 0, and watched.
fn member_of(
    alloc: Global,
    scenario: &Scenario,
    net: &Net,
    m: u16,
    watch: &mut MemberWatch,
) -> Result<Box<dyn Member>, AllocError>
    requires member { m < length scenario.now.members }
    requires network { net.now ≡ network_of scenario.now }
    ensures { IfOk result (λ b. (⟦<dyn Member as Member>⟧ b.vtable).plain b.value
        ≡ opening_record (fixed_of scenario.now 0 m)) }
{
    match scenario.role(m) {
        Role::Sender => {
            let Ok(sender) = Sender::new(alloc, scenario, net, 0, m) else {
                return Err(AllocError);
            };
            Ok(Box::new(alloc, watch.over(alloc, sender)?)?)
        }
        Role::Receiver => {
            let Ok(receiver) = Receiver::new(alloc, scenario, net, 0, m) else {
                return Err(AllocError);
            };
            Ok(Box::new(alloc, watch.over(alloc, receiver)?)?)
        }
        Role::Late => {
            let Ok(late) = Late::new(alloc, scenario, net, 0, m) else {
                return Err(AllocError);
            };
            Ok(Box::new(alloc, watch.over(alloc, late)?)?)
        }
        Role::Listener => {
            let Ok(listener) = Listener::new(alloc, scenario, net, 0, m) else {
                return Err(AllocError);
            };
            Ok(Box::new(alloc, watch.over(alloc, listener)?)?)
        }
    }
}

/// All of them.
pub(crate) fn members_of(
    alloc: Global,
    scenario: &Scenario,
    net: &Net,
    watch: &mut MemberWatch,
) -> Result<Vec<Box<dyn Member>>, AllocError>
    requires { net.now ≡ network_of scenario.now }
    ensures { IfOk result (λ members. HoldOpeningRecords scenario.now 0
        (map (λ b. (⟦<dyn Member as Member>⟧ b.vtable).plain b.value) members.items)) }
{
    let mut members = Vec::new(alloc);
    for m in 0..scenario.members() {
        members.push(member_of(alloc, scenario, net, m, watch)?)?;
    }
    Ok(members)
}
