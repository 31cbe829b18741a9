//! What a cell sees of its member.
ghost use Rattle.std.specs.Prelude.{◌≡◌, ◌<◌, ◌^◌};
ghost use Rattle.srm_net.specs.Limits.{end_of_time};
ghost use Rattle.srm_member.specs.Record.{Record, fixed_part, due_of};
ghost use Rattle.srm_member.specs.Reacts.{Reacts, Finishes};

use crate::cause::Cause;
use crate::due::Due;
use crate::exit::Exit;
use crate::fault::MemberFault;
use crate::member::Member;
use crate::react::React;
use std::alloc::Global;

/// What holds a member, and does what it does: the calls of [`Member`], with the same promises.
///
/// It need not be such as may be handed to another thread, so that what is generic in it can stand where no thread is known of.
pub trait Participant: Drop {
    // The member's record.
    ghost plain: { Self → Record };

    /// As [`Member::number`].
    fn number(&self) -> u16
        ensures { result ≡ (fixed_part (plain self.now)).member };

    /// As [`Member::due`].
    fn due(&self) -> Option<Due>
        ensures { result ≡ due_of (plain self.now) };

    /// As [`Member::react`].
    ///
    /// # Errors
    /// `Spent` exactly where the member is gone: it is then as it was. Else `NoMemory` alone: it is then gone.
    fn react(&mut self, alloc: Global, at: u64, cause: &Cause) -> Result<React, MemberFault>
        requires { at < end_of_time }
        ensures { Reacts (plain self.old) at cause.now result (plain self.new) };

    /// As [`Member::finish`].
    ///
    /// # Errors
    /// `Spent` exactly where the member was gone, and else `NoMemory` alone. It is gone, whatever the answer.
    fn finish(&mut self, alloc: Global) -> Result<Exit, MemberFault>
        ensures { Finishes (plain self.old) result (plain self.new) };
}

/// A box does what the member in it does.
impl Participant for Box<dyn Member> {
    ghost plain = { λ b. (Member-box b).plain b.value };

    fn number(&self) -> u16 {
        (**self).number()
    }

    fn due(&self) -> Option<Due> {
        (**self).due()
    }

    fn react(&mut self, alloc: Global, at: u64, cause: &Cause) -> Result<React, MemberFault> {
        (**self).react(alloc, at, cause)
    }

    fn finish(&mut self, alloc: Global) -> Result<Exit, MemberFault> {
        (**self).finish(alloc)
    }
}
