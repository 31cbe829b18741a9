//! Writing a text to a device.
ghost use Rattle.std.specs.Prelude.{◌≡◌, ◌<◌, ◌+◌, ◌-◌, ◌^◌, length, take, is_ok, IfErr, MatchResult, if◌then◌else◌};
ghost use Rattle.std.specs.Io.KnownBytes.{Appends};

use crate::outlet::{OutFault, Outlet};

/// A device failed while a text was written to it.
#[derive(Clone, Copy, Debug, PartialEq, Eq)]
pub struct WriteFault {
    /// How many bytes of the text it had taken, from its front.
    pub written: u64,
}

/// Writes the text to the outlet. It does not allocate.
///
/// # Errors
/// `WriteFault` exactly where the outlet failed in the call. The outlet has then taken a prefix of the text, with as many bytes
/// as the fault says and fewer than all, and its count of failures is one higher.
pub fn write_out<O: Outlet>(outlet: &mut O, text: &[u8]) -> Result<(), WriteFault>
    requires { O.failures outlet.old < 2 ^ 64 - 1 }
    // The count rises exactly where the answer is a fault, and then by one.
    ensures failures { O.failures outlet.new
        ≡ (if is_ok result then O.failures outlet.old else O.failures outlet.old + 1) }
    ensures taken { MatchResult result
        (λ _. Appends (O.taken outlet.old) (O.taken outlet.new) text.now)
        (λ fault. Appends (O.taken outlet.old) (O.taken outlet.new) (take fault.written text.now)) }
    ensures part { IfErr result (λ fault. fault.written < length text.now) }
{
    let mut written = 0;
    while written < text.len() {
        match outlet.put(&text[written..]) {
            Ok(count) => written += count,
            Err(OutFault) => {
                return Err(WriteFault {
                    written: written as u64,
                });
            }
        }
    }
    Ok(())
}
