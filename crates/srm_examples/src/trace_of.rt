//! How the crates are called, from the text of a scenario to the trace of its run.
ghost use Rattle.std.specs.Prelude.{◌≡◌, IfSome};
ghost use Rattle.srm_scenario.specs.Plain.{network_of};
ghost use Rattle.srm_cell.specs.Setting.{setting_of};
ghost use Rattle.srm_model.specs.World.{IsOutcome};
ghost use Rattle.srm_examples.specs.Traces.{IsTraceOf};

use srm_engine::outcome::Outcome;
use srm_engine::step_run::step_run;
use srm_member::member::Member;
use srm_net::net::Net;
use srm_net::role::Role;
use srm_report::listing::trace::trace_text;
use srm_roles::late::Late;
use srm_roles::listener::Listener;
use srm_roles::receiver::Receiver;
use srm_roles::sender::Sender;
use srm_scenario::reading::scenario_of_text;
use srm_scenario::scenario::Scenario;
use std::alloc::Global;

/// The trace of the scenario that a text describes, as CSV: of its sequential run, with random words and losses of this seed.
///
/// It is `None` where the text or the run is refused, or memory runs out. This example does not tell which: each call does.
pub fn trace_of(alloc: Global, text: &[u8], seed: u64) -> Option<Vec<u8>>
    ensures { IfSome result (λ trace. IsTraceOf text.now seed trace.items) }
{
    let scenario = scenario_of_text(alloc, text).ok()?.with_seed(seed);
    let net = scenario.net(alloc).ok()?;
    let outcome = outcome_of(alloc, &scenario, &net, seed)?;
    trace_text(alloc, outcome.trace.as_slice()).ok()
}

// The sequential run of a scenario's members, each made by its role and put into a box.
fn outcome_of(alloc: Global, scenario: &Scenario, net: &Net, seed: u64) -> Option<Outcome>
    requires { net.now ≡ network_of scenario.now }
    ensures { IfSome result (λ outcome. IsOutcome (setting_of scenario.now seed)
        outcome.trace.items outcome.exits.items outcome.totals) }
{
    let mut members: Vec<Box<dyn Member>> = Vec::new(alloc);
    for m in 0..scenario.members() {
        let member: Box<dyn Member> = match scenario.role(m) {
            Role::Sender => Box::new(alloc, Sender::new(alloc, scenario, net, seed, m).ok()?).ok()?,
            Role::Receiver => {
                Box::new(alloc, Receiver::new(alloc, scenario, net, seed, m).ok()?).ok()?
            }
            Role::Late => Box::new(alloc, Late::new(alloc, scenario, net, seed, m).ok()?).ok()?,
            Role::Listener => {
                Box::new(alloc, Listener::new(alloc, scenario, net, seed, m).ok()?).ok()?
            }
        };
        members.push(member).ok()?;
    }
    step_run(alloc, scenario, net, members).ok()
}
