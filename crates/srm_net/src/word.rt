//! The words that decide which packets links lose.
ghost use Rattle.std.specs.Prelude.{◌≡◌};
ghost use Rattle.srm_net.specs.Losses.{mix, loss_word};

use crate::packet::PacketId;

/// What SplitMix64 adds to its state (Steele, Lea and Flood 2014): 2^64 over the golden ratio.
const GAMMA: u64 = 0x9e37_79b9_7f4a_7c15;

/// The output function of SplitMix64 (Steele, Lea and Flood 2014).
fn mix(z: u64) -> u64
    ensures { result ≡ mix z }
{
    let z = (z ^ (z >> 30)).wrapping_mul(0xbf58_476d_1ce4_e5b9);
    let z = (z ^ (z >> 27)).wrapping_mul(0x94d0_49bb_1331_11eb);
    z ^ (z >> 31)
}

/// The word of 32 bits that decides, for a seed and a stream, what becomes of a packet at a link.
pub(crate) fn loss_word(seed: u64, stream: u64, link: u16, id: PacketId) -> u64
    ensures { result ≡ loss_word seed stream link id }
{
    let of_stream = mix(mix(seed.wrapping_add(GAMMA)) ^ stream);
    let of_sender = mix(of_stream ^ (u64::from(link) * 65_536 + u64::from(id.sender)));
    mix(of_sender ^ id.count) >> 32
}
