//! Reading the RTP packet in a datagram (RFC 3550, 5.1 and 5.3.1).
ghost use Rattle.std.specs.Prelude.{◌≡◌, ◌≤◌, ◌-◌, ◌↔◌, false, IsOk, IsSome, IfErr, IfOk, IfSome, length};
ghost use Rattle.rtp_wire.specs.Datagram.{
  IsDatagram,
  has_bad_padding,
  head_at,
  padding_count,
  payload_at,
  payload_start,
  sources_end,
  view_head,
  wire_fault_of,
};

use crate::fault::WireFault;
use crate::limits::HEADER_OCTETS;
use byteorder::{BigEndian, ByteOrder};

/// An RTP packet in a datagram: the fields of its header, and its payload, which is borrowed from the datagram.
///
/// The CSRC list, the header extension and the padding are skipped: a receiver that refused them would refuse
/// valid streams.
#[derive(Clone, Copy, Debug, PartialEq, Eq)]
pub struct RtpView<'a> {
    pub marker: bool,
    /// The payload type, below 128.
    pub pt: u8,
    /// The sequence number.
    pub seq: u16,
    /// The timestamp, in sampling instants at the payload's clock rate.
    pub ts: u32,
    /// The synchronization source.
    pub ssrc: u32,
    /// The octets between the header and the padding.
    pub payload: &'a [u8],
}

/// Returns the RTP packet in a datagram, or the first fault, in the order of `WireFault`.
pub fn read(d: &[u8]) -> Result<RtpView<'_>, WireFault>
    ensures datagram { IfOk result (λ view. IsDatagram d.now (view_head view) view.payload.now) }
    ensures fault { IfErr result (λ fault. wire_fault_of d.now ≡ Some fault) }
    ensures ok { IsOk result ↔ (wire_fault_of d.now ≡ None) }

    // The same header and payload, computed from their places in the datagram.
    ensures head { IfOk result (λ view. view_head view ≡ head_at d.now) }
    ensures payload { IfOk result (λ view. view.payload.now ≡ payload_at d.now) }
{
    // Each fault is tested once the octets that the test needs are known to be there. So the first fault says how
    // far the datagram could be read.
    if d.len() < HEADER_OCTETS {
        return Err(WireFault::Short);
    }
    // Bits are read by division here and below, as the definitions in `specs/Datagram` read them.
    if d[0] / 64 != 2 {
        return Err(WireFault::Version);
    }
    let place = HEADER_OCTETS + 4 * usize::from(d[0] % 16);
    if d.len() < place {
        return Err(WireFault::CsrcCut);
    }
    let begin = begin_of_payload(d, place).ok_or(WireFault::ExtensionCut)?;
    let end = end_of_payload(d, begin).ok_or(WireFault::Padding)?;
    Ok(RtpView {
        marker: d[1] >= 128,
        pt: d[1] % 128,
        seq: BigEndian::read_u16(&d[2..]),
        ts: BigEndian::read_u32(&d[4..]),
        ssrc: BigEndian::read_u32(&d[8..]),
        payload: &d[begin..end],
    })
}

/// Returns the place where the payload begins, given the place where the CSRC list ends; `None` if the header
/// extension is cut (RFC 3550, 5.3.1).
fn begin_of_payload(d: &[u8], place: usize) -> Option<usize>
    requires header { 12 ≤ length d.now }
    requires sources { place ≡ sources_end d.now }
    ensures begin { IfSome result (λ begin. begin ≡ payload_start d.now) }
    ensures fits { IsSome result ↔ (payload_start d.now ≤ length d.now) }
{
    if d[0] / 16 % 2 != 1 {
        // `read` has tested this, but no `requires` says so.
        return (place <= d.len()).then_some(place);
    }
    if d.len() < place + 4 {
        return None;
    }
    let begin = place + 4 + 4 * usize::from(BigEndian::read_u16(&d[place + 2..]));
    (begin <= d.len()).then_some(begin)
}

/// Returns the place where the payload ends, given the place where it begins; `None` if the padding's count is
/// wrong.
fn end_of_payload(d: &[u8], begin: usize) -> Option<usize>
    requires header { 12 ≤ length d.now }
    requires begin { begin ≡ payload_start d.now }
    ensures end { IfSome result (λ end. end ≡ length d.now - padding_count d.now) }
    ensures good { IsSome result ↔ (has_bad_padding d.now ≡ false) }
{
    if d[0] / 32 % 2 != 1 {
        return Some(d.len());
    }
    let count = usize::from(d[d.len() - 1]);
    // The count includes its own octet, so 0 is wrong (RFC 3550, 5.1). Padding may leave an empty payload.
    if d.len() <= begin || count == 0 || d.len() < begin + count {
        return None;
    }
    Some(d.len() - count)
}
