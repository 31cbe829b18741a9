//! Devices that take bytes.
ghost use Rattle.std.specs.Prelude.{◌≡◌, ℕ, List, Option, ◌<◌, ◌+◌, ◌-◌, ◌^◌, length, is_ok, IfOk, if◌then◌else◌};
ghost use Rattle.std.specs.Io.{WritesAtMost};
ghost use Rattle.std.specs.Io.KnownBytes.{WriteAppends};

use std::io::Write;

/// A device for bytes failed. Why, is not told.
#[derive(Clone, Copy, Debug, PartialEq, Eq)]
pub struct OutFault;

/// A device for bytes. A contract sees the bytes that it has taken, where they are known, and how often it failed.
pub trait Outlet {
    // The bytes that the device has taken, where they are known.
    ghost taken: { Self → Option (List ℕ) };

    // How often the device failed.
    ghost failures: { Self → ℕ };

    /// Takes bytes from the front of the piece, and answers how many: at least one where there is one.
    ///
    /// # Errors
    /// `OutFault`: the device failed, and took no byte. The outlet's count of failures is one higher, and it may be asked again.
    fn put(&mut self, piece: &[u8]) -> Result<usize, OutFault>
        requires { failures self.old < 2 ^ 64 - 1 }
        ensures bound { WritesAtMost result piece.now }
        ensures goes_on { IfOk result (λ count. 0 < length piece.now → 0 < count) }
        ensures bytes { WriteAppends (taken self.old) (taken self.new) result piece.now }
        ensures failures { failures self.new ≡ (if is_ok result then failures self.old else failures self.old + 1) };
}

/// An outlet of any writer. Each error of the writer is one failure. So is each time that it takes nothing of a piece that has a
/// byte.
#[derive(Drop)]
pub struct WriteOutlet<W> {
    writer: W,
    failures: u64,
}

impl<W: Write> WriteOutlet<W> {
    ghost use Rattle.srm_report.specs.Devices.{writer_under, writer_failures};

    /// The outlet of this writer, which has not failed yet.
    pub fn new(writer: W) -> Self
        ensures writer { writer_under result ≡ writer }
        ensures failures { writer_failures result ≡ 0 }
    {
        WriteOutlet {
            writer,
            failures: 0,
        }
    }

    /// The writer under the outlet.
    pub fn into_inner(self) -> W
        ensures { result ≡ writer_under self }
    {
        let WriteOutlet { writer, .. } = self;
        writer
    }
}

impl<W: Write> Outlet for WriteOutlet<W> {
    ghost use Rattle.srm_report.specs.Devices.{writer_under, writer_failures};

    ghost taken = { λ o. W.contents (writer_under o) };

    ghost failures = { writer_failures };

    fn put(&mut self, piece: &[u8]) -> Result<usize, OutFault> {
        match self.writer.write(piece) {
            Ok(count) if count > 0 || piece.is_empty() => Ok(count),
            _ => {
                self.failures += 1;
                Err(OutFault)
            }
        }
    }
}
