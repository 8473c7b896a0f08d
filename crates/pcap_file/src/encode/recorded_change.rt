//! A change of gains that a run took, as it is recorded: as the payload of a packet.
ghost use Rattle.std.specs.Prelude.{◌≡◌, ◌+◌, ◌*◌, ◌≤◌, length};
ghost use Rattle.pcap_file.specs.RecordedChange.{change_octets, change_view};

use byteorder::{BigEndian, ByteOrder};

/// The greatest number of gains of a recorded change.
// A matrix of a studio has no more, so each change that a run takes can be recorded.
pub const MAX_RECORDED_GAINS: usize = 8_192;

/// The greatest length of a change's payload in octets: two numbers of 8, and 4 for each gain.
pub(crate) const MAX_CHANGE_LEN: usize = 32_784;

/// The length of the two numbers before the gains, in octets.
pub(crate) const GAINS_PLACE: usize = 16;

/// The length of a gain, in octets.
pub(crate) const GAIN_LEN: usize = 4;

/// An accepted change of gains with its place in the run. Its gains are borrowed.
#[derive(Clone, Copy)]
pub struct RecordedChange<'a> {
    /// The number of the interface `gains`: the number of all paths.
    pub interface: u32,
    /// The time of the last clock reading before the change, in nanoseconds since the studio was opened.
    pub nanoseconds: u64,
    /// The time from which the gains are in force, in sampling instants since the studio was opened.
    pub at: i64,
    /// The number of the next block when the change was taken.
    pub next_block: u64,
    /// The gains of the new matrix, row by row.
    pub gains: &'a [i32],
}

/// Writes the payload of a change, which is as long as `out`.
#[tactic(auto, unfolding(crate::specs::RecordedChange::change_octets))]
pub(crate) fn write_payload(change: &RecordedChange<'_>, out: &mut [u8])
    requires { length out.old ≡ 16 + 4 * length change.now.gains.now }
    ensures { out.new ≡ change_octets (change_view change.now) }
{
    BigEndian::write_i64(out, change.at);
    BigEndian::write_u64(&mut out[8..], change.next_block);
    BigEndian::write_i32_into(change.gains, &mut out[GAINS_PLACE..]);
}
