//! Reading a text from a device.
ghost use Rattle.std.specs.Prelude.{◌≡◌, ℕ, List, ◌<◌, ◌≤◌, ◌+◌, ◌-◌, ◌^◌, length, IfSome, IfOk, OnOk};
ghost use Rattle.std.specs.Io.KnownBytes.{Consumes, IsAtEnd};
ghost use Rattle.srm_scenario.specs.Feed.{failures_after_text, TextOf, Took};

use crate::feed::{Feed, FeedFault};
use std::alloc::Global;

/// How many bytes a text has at most.
pub const LONGEST_TEXT: usize = 1_048_576;

// How many bytes are asked for at a time.
const PIECE: usize = 4096;

/// Why a text was not read.
#[derive(Clone, Copy, Debug, PartialEq, Eq)]
pub enum TextFault {
    /// The device failed.
    ReadFault,
    /// There are more than [`LONGEST_TEXT`] bytes.
    TooLong,
    /// Memory ran out.
    NoMemory,
}

/// Reads all bytes that the feed has still to give. It takes at most one byte more than [`LONGEST_TEXT`].
///
/// # Errors
/// In this order, but for `NoMemory`, which may come at any place:
///
/// 1. `ReadFault`: exactly where the feed failed in the call. Its count of failures is then one higher, and else as it was.
/// 2. `TooLong`: more than [`LONGEST_TEXT`] bytes were still to come. It then took one byte more than that; of a text that is
///    answered it took at most that many, and before any other refusal at most one more.
pub fn read_text<F: Feed>(alloc: Global, feed: &mut F) -> Result<Vec<u8>, TextFault>
    requires { F.failures feed.old < 2 ^ 64 - 1 }
    // The count rises exactly where the answer is `ReadFault`, and then by one.
    ensures failures { F.failures feed.new ≡ failures_after_text result (F.failures feed.old) }
    // What is known to be still to come decides between `TooLong` and the whole text.
    ensures text { IfSome (F.remaining feed.old) (TextOf result) }
    ensures end { OnOk result (IsAtEnd (F.remaining feed.new)) }
    ensures bound { IfOk result (λ text. length text.items ≤ LONGEST_TEXT) }
    ensures taken { (given : List ℕ) × Consumes (F.remaining feed.old) (F.remaining feed.new) given
        × Took result given }
{
    let mut text = Vec::new(alloc);
    let mut piece = [0; PIECE];
    while text.len() <= LONGEST_TEXT {
        let room = PIECE.min(LONGEST_TEXT + 1 - text.len());
        match feed.feed(&mut piece[..room]) {
            Err(FeedFault) => return Err(TextFault::ReadFault),
            Ok(0) => return Ok(text),
            Ok(count) => {
                if text.extend_from_slice(&piece[..count]).is_err() {
                    return Err(TextFault::NoMemory);
                }
            }
        }
    }
    Err(TextFault::TooLong)
}
