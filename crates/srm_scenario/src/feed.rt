//! Devices that give bytes.
ghost use Rattle.std.specs.Prelude.{◌≡◌, ℕ, List, Option, ◌<◌, ◌+◌, ◌-◌, ◌^◌, is_ok, if◌then◌else◌};
ghost use Rattle.std.specs.Io.{ReadsAtMost};
ghost use Rattle.std.specs.Io.KnownBytes.{ReadConsumes};

use std::io::Read;

/// A device of bytes failed. Why, is not told.
#[derive(Clone, Copy, Debug, PartialEq, Eq)]
pub struct FeedFault;

/// A device of bytes. A contract sees the bytes that it has still to give, where they are known, and how often it failed.
pub trait Feed {
    // The bytes still to come, where they are known.
    ghost remaining: { Self → Option (List ℕ) };

    // How often the device failed.
    ghost failures: { Self → ℕ };

    /// Writes the next bytes into the front of the buffer, and answers how many. It answers 0 for a buffer with room
    /// only at the end of the bytes.
    ///
    /// # Errors
    /// `FeedFault`: the device failed, and gave no byte. The feed's count of failures is one higher, and it may be asked again.
    fn feed(&mut self, buf: &mut [u8]) -> Result<usize, FeedFault>
        requires { failures self.old < 2 ^ 64 - 1 }
        ensures bound { ReadsAtMost result buf.new }
        ensures bytes { ReadConsumes (remaining self.old) (remaining self.new) result buf.new }
        ensures failures { failures self.new ≡ (if is_ok result then failures self.old else failures self.old + 1) };
}

/// A feed of any reader. Each error of the reader is one failure.
#[derive(Drop)]
pub struct ReadFeed<R> {
    reader: R,
    failures: u64,
}

impl<R: Read> ReadFeed<R> {
    ghost use Rattle.srm_scenario.specs.Feed.{reader_under, reader_failures};

    /// The feed of this reader, which has not failed yet.
    pub fn new(reader: R) -> Self
        ensures reader { reader_under result ≡ reader }
        ensures failures { reader_failures result ≡ 0 }
    {
        ReadFeed {
            reader,
            failures: 0,
        }
    }
}

impl<R: Read> Feed for ReadFeed<R> {
    ghost use Rattle.srm_scenario.specs.Feed.{reader_under, reader_failures};

    ghost remaining = { λ f. R.remaining (reader_under f) };

    ghost failures = { reader_failures };

    fn feed(&mut self, buf: &mut [u8]) -> Result<usize, FeedFault> {
        match self.reader.read(buf) {
            Ok(count) => Ok(count),
            Err(_) => {
                self.failures += 1;
                Err(FeedFault)
            }
        }
    }
}
