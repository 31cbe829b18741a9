//! What a run sees of a member.
ghost use Rattle.std.specs.Prelude.{◌≡◌, ◌<◌, ◌^◌};
ghost use Rattle.srm_net.specs.Limits.{end_of_time};
ghost use Rattle.srm_member.specs.Record.{Record, fixed_part, due_of};
ghost use Rattle.srm_member.specs.Reacts.{Reacts, Finishes};

use crate::cause::Cause;
use crate::due::Due;
use crate::exit::Exit;
use crate::fault::MemberFault;
use crate::react::React;
use std::alloc::Global;

/// A member of a session, of any role, which contracts see as its record.
///
/// After [`MemberFault::NoMemory`], and after a `finish` that answered `Ok`, the member is gone: every later `react` and `finish`
/// answers [`MemberFault::Spent`], and `due` answers `None`.
pub trait Member: Send + Drop {
    // The member's record.
    ghost plain: { Self → Record };

    /// The member's number. It does not allocate.
    fn number(&self) -> u16
        ensures { result ≡ (fixed_part (plain self.now)).member };

    /// The member's least timer by time, rank and name. It does not allocate.
    fn due(&self) -> Option<Due>
        ensures { result ≡ due_of (plain self.now) };

    /// Handles a cause at a time, in ticks, below 2^40.
    ///
    /// # Errors
    /// `Spent` exactly where the member is gone: it is then as it was. Else `NoMemory` alone: it is then gone.
    fn react(&mut self, alloc: Global, at: u64, cause: &Cause) -> Result<React, MemberFault>
        requires { at < end_of_time }
        ensures { Reacts (plain self.old) at cause.now result (plain self.new) };

    /// Ends the member, and gives what it holds and lacks. It is gone then, whatever is answered.
    ///
    /// # Errors
    /// `Spent` exactly where the member was gone, and else `NoMemory` alone. It is gone, whatever the answer.
    fn finish(&mut self, alloc: Global) -> Result<Exit, MemberFault>
        ensures { Finishes (plain self.old) result (plain self.new) };
}
