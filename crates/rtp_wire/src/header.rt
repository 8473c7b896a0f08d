//! Writing the fixed header of an RTP packet (RFC 3550, 5.1).
ghost use Rattle.std.specs.Prelude.{◌≡◌, ◌≤◌, ◌<◌, ◌++◌, length, drop};
ghost use Rattle.rtp_wire.specs.Head.{head_octets, head_of};

use crate::limits::HEADER_OCTETS;
use byteorder::{BigEndian, ByteOrder};

/// The fields of an RTP header without padding, extension and contributing sources.
#[derive(Clone, Copy, Debug, PartialEq, Eq)]
pub struct RtpHead {
    pub marker: bool,
    /// The payload type, below 128.
    pub pt: u8,
    /// The sequence number.
    pub seq: u16,
    /// The timestamp, in sampling instants at the payload's clock rate.
    pub ts: u32,
    /// The synchronization source.
    pub ssrc: u32,
}

/// Writes a header to the front of `out`, and returns its length, 12 octets.
pub fn write_head(out: &mut [u8], h: &RtpHead) -> usize
    requires space { 12 ≤ length out.old }
    requires pt { h.now.pt < 128 }
    ensures written { out.new ≡ head_octets (head_of h.now) ++ drop 12 out.old }
    ensures len { result ≡ 12 }
{
    // Version 2 in the upper two bits; no padding, extension or contributing source.
    out[0] = 128;
    out[1] = if h.marker { 128 + h.pt } else { h.pt };
    BigEndian::write_u16(&mut out[2..], h.seq);
    BigEndian::write_u32(&mut out[4..], h.ts);
    BigEndian::write_u32(&mut out[8..], h.ssrc);
    HEADER_OCTETS
}
