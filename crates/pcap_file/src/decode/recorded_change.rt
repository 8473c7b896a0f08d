//! A recorded change of gains, read from the payload of its packet.
ghost use Rattle.std.specs.Prelude.{◌≡◌, ◌⊎◌, ◌≤◌, ◌<◌, Some, None, IfSome, length, take, drop};
ghost use Rattle.pcap_file.specs.RecordedChange.{change_of, head_with};

use crate::decode::endian::Endian;
use crate::encode::recorded_change::{GAIN_LEN, GAINS_PLACE};
use byteorder::{BigEndian, ByteOrder};

/// A recorded change without its gains.
#[derive(Clone, Copy, PartialEq, Eq)]
pub struct ChangeHead {
    /// The time from which the gains are in force, in sampling instants since the studio was opened.
    pub at: i64,
    /// The number of the next block when the change was taken.
    pub next_block: u64,
    /// The number of the gains.
    pub gains: usize,
}

/// Reads a change from a packet's payload, and its gains to the start of `gains`. Returns `None`, and changes no gain,
/// if the payload is that of no change or has more gains than `gains` has space for.
#[tactic(auto, unfolding(crate::specs::RecordedChange::change_of))]
pub fn read_change(payload: &[u8], gains: &mut [i32]) -> Option<ChangeHead>
    ensures change { IfSome result
        (λ head. change_of payload.now ≡ Some (head_with head (take head.gains gains.new))) }
    ensures within { IfSome result (λ head. head.gains ≤ length gains.old) }
    ensures rest { IfSome result (λ head. drop head.gains gains.new ≡ drop head.gains gains.old) }
    ensures none { result ≡ None
        → IfSome (change_of payload.now) (λ change. length gains.old < length change.gains) }
    ensures kept { result ≡ None → gains.new ≡ gains.old }
    ensures length { length gains.new ≡ length gains.old }
{
    let octets = payload.len().checked_sub(GAINS_PLACE)?;
    let count = octets / GAIN_LEN;
    if octets % GAIN_LEN != 0 || count > gains.len() {
        return None;
    }
    BigEndian::read_i32_into(&payload[GAINS_PLACE..], &mut gains[..count]);
    Some(ChangeHead {
        at: Endian::Big.read_u64(payload, 0).cast_signed(),
        next_block: Endian::Big.read_u64(payload, 8),
        gains: count,
    })
}
