//! The reception of a datagram: its packet of the stream, or the reason why there is none.
ghost use Rattle.std.specs.Prelude.{◌≡◌};
ghost use Rattle.rtp_stream.specs.Reception.{FitsReception, IsShortReception, reception_from, reception_of};

use crate::packet::{Packet, PacketRef};
use crate::stream_spec::{AdmitFault, StreamSpec};
use rtp_wire::WireFault;

/// The reception of a datagram: its packet of the stream, or the reason why there is none.
#[derive(Debug, Drop)]
pub enum Reception {
    /// The datagram is a packet of the stream.
    Sent(Packet),
    /// The datagram is no RTP packet, and its first fault.
    Bad(WireFault),
    /// The RTP packet has another payload type.
    WrongType,
    /// The RTP packet has the stream's payload type, and a payload of another length.
    WrongLength,
}

/// The reception of a datagram, with its packet borrowed: the samples stay in the datagram.
#[derive(Clone, Copy, Debug)]
pub enum ReceptionRef<'a> {
    /// The datagram is a packet of the stream.
    Sent(PacketRef<'a>),
    /// The datagram is no RTP packet, and its first fault.
    Bad(WireFault),
    /// The RTP packet has another payload type.
    WrongType,
    /// The RTP packet has the stream's payload type, and a payload of another length.
    WrongLength,
}

/// Returns the reception of a datagram, whose samples are borrowed.
pub fn receive_ref<'a>(spec: &StreamSpec, datagram: &'a [u8]) -> ReceptionRef<'a>
    ensures value { reception_from result ≡ reception_of spec.now datagram.now }
    ensures fits { FitsReception spec.now (reception_from result) }
    ensures short { IsShortReception result }
{
    let view = match rtp_wire::read(datagram) {
        Ok(view) => view,
        Err(fault) => return ReceptionRef::Bad(fault),
    };
    match spec.admit_ref(&view) {
        Ok(packet) => ReceptionRef::Sent(packet),
        Err(AdmitFault::WrongType) => ReceptionRef::WrongType,
        Err(AdmitFault::WrongLength) => ReceptionRef::WrongLength,
    }
}
