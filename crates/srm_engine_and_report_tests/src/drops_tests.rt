//! Members of whole runs: each box is dropped exactly once, in both engines, whatever comes of the run.
ghost use Rattle.std.specs.Prelude.{◌≡◌};
ghost use Rattle.srm_scenario.specs.Plain.{network_of};

use crate::opening::{members_of, opened};
use srm_crew::plain::PlainCrew;
use srm_engine::fault::RunFault;
use srm_engine::step_run::step_run;
use srm_engine::width::{Width, Windows};
use srm_engine::window_run::window_run;
use srm_examples::watched::MemberWatch;
use srm_net::net::Net;
use srm_scenario::scenario::Scenario;
use std::alloc::{AllocError, Global};
use std::process::Abort;

// A chain with a member of each role: the receiver loses the first packet and leaves, the late joiner comes when all is
// sent.
const EACH_ROLE: &str = r#"version = 1
until = 100
c1 = 1000
c2 = 0
d1 = 1000
d2 = 0
topology = "chain"
size = 4
delay = 1
member = [
  { node = 0, role = "sender", stream = 1 },
  { node = 1, role = "receiver", stream = 2, leave = 30 },
  { node = 2, role = "listener", stream = 3 },
  { node = 3, role = "late", stream = 4, join = 40 },
]
draw = [
  { member = 0, page = 0, ink = 7, at = 0 },
  { member = 0, page = 0, ink = 8, at = 10 },
]
drop = [{ link = 0, sender = 0, count = 0 }]
"#;

// Runs the members of a scenario, each watched: in windows, or else in the sequential run.
fn run_watched(
    rt: &impl Abort,
    alloc: Global,
    scenario: &Scenario,
    net: &Net,
    asked: Option<Windows>,
    watch: &mut MemberWatch,
) -> Result<(), AllocError>
    requires { net.now ≡ network_of scenario.now }
{
    let members = members_of(alloc, scenario, net, watch)?;
    let fault = match asked {
        Some(windows) => {
            window_run(
                alloc,
                scenario,
                net,
                members,
                &mut PlainCrew::new(),
                windows,
            )
            .err()
        }
        None => step_run(alloc, scenario, net, members).err(),
    };
    match fault {
        None => Ok(()),
        Some(fault) => {
            assert_eq!(rt; fault, RunFault::NoMemory);
            Err(AllocError)
        }
    }
}

// One run with a member of each role. Whatever comes of it, each box that was made was dropped once when it has ended.
fn run_once(rt: &impl Abort, alloc: Global, asked: Option<Windows>) -> Result<(), AllocError> {
    let (scenario, net) = opened(rt, alloc, EACH_ROLE)?;
    let mut watch = MemberWatch::new(alloc)?;
    let answer = run_watched(rt, alloc, &scenario, &net, asked, &mut watch);
    assert!(rt; watch.saw_each_dropped_once());
    if answer.is_ok() {
        assert_eq!(rt; watch.members(), scenario.members() as usize);
    }
    answer
}

// The same, and once more where memory was refused.
fn run_to_the_end(
    rt: &impl Abort,
    alloc: Global,
    asked: Option<Windows>,
) -> Result<(), AllocError> {
    if run_once(rt, alloc, asked).is_err() {
        run_once(rt, alloc, asked)?;
    }
    Ok(())
}

#[test]
fn a_sequential_run_drops_each_box_once(rt: HostRuntime) -> Result<(), AllocError> {
    run_to_the_end(&rt, rt.alloc(), None)
}

// Windows are as wide as may be, with two cells in a job.
#[test]
fn a_run_in_windows_drops_each_box_once(rt: HostRuntime) -> Result<(), AllocError> {
    let pairs = Windows {
        cut: 2,
        width: Width::Promise,
    };
    run_to_the_end(&rt, rt.alloc(), Some(pairs))
}
