//! The guard of a member that may be gone.
ghost use Rattle.std.specs.Prelude.{◌≡◌, true, false, OnOk, OnErr, IfErr};

use crate::fault::MemberFault;

/// Begins a call of a member that may be gone: it counts as gone until the call is done, so that it is if memory is refused on
/// the way.
///
/// # Errors
/// `Spent` alone, exactly where the member is gone: it is as it was. As it is written, nothing is allocated.
pub fn begin(gone: &mut bool) -> Result<(), MemberFault>
    ensures here { OnOk result (gone.old ≡ false) }
    ensures spent { IfErr result (λ e. e ≡ MemberFault.Spent) }
    ensures gone { OnErr result (gone.old ≡ true) }
    ensures until_done { gone.new ≡ true }
{
    if *gone {
        return Err(MemberFault::Spent);
    }
    *gone = true;
    Ok(())
}
