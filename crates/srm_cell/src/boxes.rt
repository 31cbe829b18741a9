//! Calls of a member.
ghost use Rattle.std.specs.Prelude.{◌<◌};
ghost use Rattle.srm_net.specs.Limits.{end_of_time};
ghost use Rattle.srm_member.specs.Reacts.{Reacts, Finishes};

use srm_member::cause::Cause;
use srm_member::exit::Exit;
use srm_member::fault::MemberFault;
use srm_member::participant::Participant;
use srm_member::react::React;
use std::alloc::Global;

pub(crate) fn react<M: Participant>(
    alloc: Global,
    member: &mut M,
    at: u64,
    cause: &Cause,
) -> Result<React, MemberFault>
    requires { at < end_of_time }
    ensures { Reacts (M.plain member.old) at cause.now result (M.plain member.new) }
{
    member.react(alloc, at, cause)
}

pub(crate) fn finish<M: Participant>(alloc: Global, member: &mut M) -> Result<Exit, MemberFault>
    ensures { Finishes (M.plain member.old) result (M.plain member.new) }
{
    member.finish(alloc)
}
