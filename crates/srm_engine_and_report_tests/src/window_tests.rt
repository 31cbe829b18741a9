//! The windows of a whole run, as a crew that notes its calls is handed them.
use crate::opening::{members_of, opened};
use crate::recording::{Note, Recording};
use srm_engine::fault::RunFault;
use srm_engine::width::{Width, Windows};
use srm_engine::window_run::window_run;
use srm_examples::scenarios::A_SENDER_AND_TWO_LISTENERS;
use srm_examples::watched::MemberWatch;
use std::alloc::{AllocError, Global};
use std::process::Abort;

// The crew to which promise windows of a scenario's run were handed, with three cells in a job.
fn recorded(rt: &impl Abort, alloc: Global, text: &str) -> Result<Recording, AllocError> {
    let (scenario, net) = opened(rt, alloc, text)?;
    let members = members_of(alloc, &scenario, &net, &mut MemberWatch::new(alloc)?)?;
    let mut crew = Recording::new(alloc);
    let windows = Windows {
        cut: 3,
        width: Width::Promise,
    };
    match window_run(alloc, &scenario, &net, members, &mut crew, windows) {
        Ok(_) => Ok(crew),
        Err(fault) => {
            assert_eq!(rt; fault, RunFault::NoMemory);
            Err(AllocError)
        }
    }
}

// Of the three members only the first promises: at tick 0 to send nothing that arrives before tick 1, at tick 1, with
// its next draw at tick 10, nothing that arrives before tick 11, and then, with nothing pending, nothing to the end of
// the run.
#[test]
fn listeners_make_no_window_shorter(rt: HostRuntime) -> Result<(), AllocError> {
    let crew = recorded(&rt, rt.alloc(), A_SENDER_AND_TWO_LISTENERS)?;
    let ends = [1, 11, 1000];
    assert_eq!(rt; crew.calls().len(), ends.len());
    for (till, call) in ends.iter().zip(crew.calls()) {
        let job = Note {
            place: 0,
            till: *till,
            cells: 3,
        };
        assert_eq!(rt; call.as_slice(), [job].as_slice());
    }
    Ok(())
}
