//! How a member is led through a story.
use crate::stories::carried::Carried;
use crate::stories::event::Event;
use crate::stories::step::Step;
use crate::stories::story::Story;
use srm_member::cause::Cause;
use srm_member::fault::MemberFault;
use srm_member::member::Member;
use srm_net::packet::Name;
use std::alloc::{AllocError, Global};
use std::process::Abort;

const NAME: Name = Name {
    source: 0,
    page: 0,
    number: 0,
};

// One event of each kind.
const EVENTS: [Event; 6] = [
    Event::Join,
    Event::Arrival {
        sender: 0,
        carried: Carried::Data { name: NAME, ink: 7 },
    },
    Event::Ask { name: NAME },
    Event::Answer { name: NAME },
    Event::Draw { page: 0, ink: 7 },
    Event::Report,
];

/// Leads a new member through a story, and asserts that each of its answers is the stated one, and that it is gone after its end.
///
/// # Errors
/// Memory was refused. Where it was refused to a call of the member, the member is gone, which is asserted.
pub(crate) fn follow(
    rt: &impl Abort,
    alloc: Global,
    member: &mut Box<dyn Member>,
    story: &Story,
) -> Result<(), AllocError> {
    let opening = (member.number(), member.due());
    assert_eq!(rt; opening, (story.member, None));
    for step in story.steps {
        live(rt, alloc, member, step)?;
    }
    end(rt, alloc, member, story)
}

// One step of a story.
fn live(
    rt: &impl Abort,
    alloc: Global,
    member: &mut Box<dyn Member>,
    step: &Step,
) -> Result<(), AllocError> {
    let at = u64::from(step.at);
    let cause = step.event.cause(alloc)?;
    match member.react(alloc, at, &cause) {
        Ok(react) => {
            let due = member.due();
            assert!(rt;
                step.expects(&react, due),
                "{react:?} and {due:?} at {step:?}"
            );
            Ok(())
        }
        Err(fault) => end_for_want(rt, alloc, member, fault),
    }
}

// The end of a story.
fn end(
    rt: &impl Abort,
    alloc: Global,
    member: &mut Box<dyn Member>,
    story: &Story,
) -> Result<(), AllocError> {
    match member.finish(alloc) {
        Ok(exit) => {
            let number = member.number();
            assert!(rt; story.expects(&exit, number), "{exit:?} of member {number}");
            stay_gone(rt, alloc, member)
        }
        Err(fault) => end_for_want(rt, alloc, member, fault),
    }
}

// The end of a member that answered with a fault: memory was refused to it, and it is gone.
fn end_for_want(
    rt: &impl Abort,
    alloc: Global,
    member: &mut Box<dyn Member>,
    fault: MemberFault,
) -> Result<(), AllocError> {
    assert_eq!(rt; fault, MemberFault::NoMemory);
    stay_gone(rt, alloc, member)?;
    Err(AllocError)
}

// A member that is gone has no timer, and answers nothing.
fn stay_gone(
    rt: &impl Abort,
    alloc: Global,
    member: &mut Box<dyn Member>,
) -> Result<(), AllocError> {
    for event in EVENTS {
        let cause = event.cause(alloc)?;
        assert!(rt; is_gone(alloc, member, &cause), "at {event:?}");
    }
    Ok(())
}

// Whether a member has no timer, and answers neither a cause nor its end.
fn is_gone(alloc: Global, member: &mut Box<dyn Member>, cause: &Cause) -> bool {
    member.due().is_none() && !reacts(alloc, member, cause) && !ends(alloc, member)
}

// Whether a member answers a cause in any way but as one that is gone.
fn reacts(alloc: Global, member: &mut Box<dyn Member>, cause: &Cause) -> bool {
    !matches!(member.react(alloc, 1, cause), Err(MemberFault::Spent))
}

// Whether a member answers its end in any way but as one that is gone.
fn ends(alloc: Global, member: &mut Box<dyn Member>) -> bool {
    !matches!(member.finish(alloc), Err(MemberFault::Spent))
}

/// Makes an attempt, and another one where the first is refused memory, which is then told on standard error.
pub(crate) fn attempt_twice<F: Fn() -> Result<(), AllocError>>(
    rt: &impl Eprint,
    attempt: F,
) -> Result<(), AllocError>
    requires { F.IsAlwaysCallable attempt }
{
    match attempt() {
        Ok(()) => Ok(()),
        Err(_) => {
            let _ = eprintln!(rt; "memory was refused");
            attempt()
        }
    }
}
