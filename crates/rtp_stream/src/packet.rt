//! The packets of a stream: what a merge needs of an RTP packet.
ghost use Rattle.std.specs.Prelude.{◌≡◌, ◌≤◌, length};
ghost use Rattle.rtp_stream.specs.PacketRef.{packet_of};

use rtp_wire::Payload;

/// An RTP packet of a stream's type and length: the fields that place it, and its samples.
#[derive(Debug, Drop)]
pub struct Packet {
    /// The sequence number.
    pub seq: u16,
    /// The timestamp, in sampling instants at 48 kHz.
    pub ts: u32,
    /// The synchronization source.
    pub ssrc: u32,
    /// The octets of the samples.
    pub payload: Payload,
}

/// A packet whose samples are borrowed from a datagram or from another packet.
#[derive(Clone, Copy, Debug)]
pub struct PacketRef<'a> {
    /// The sequence number.
    pub seq: u16,
    /// The timestamp, in sampling instants at 48 kHz.
    pub ts: u32,
    /// The synchronization source.
    pub ssrc: u32,
    /// The octets of the samples.
    pub payload: &'a [u8],
}

impl Packet {
    /// Returns this packet with its samples borrowed.
    #[inline]
    pub fn as_ref(&self) -> PacketRef<'_>
        ensures packet { packet_of result ≡ self.now }
        ensures short { length result.payload.now ≤ 1440 }
    {
        PacketRef {
            seq: self.seq,
            ts: self.ts,
            ssrc: self.ssrc,
            payload: self.payload.as_slice(),
        }
    }

    /// Returns a copy of this packet. Takes no memory.
    pub fn duplicate(&self) -> Packet
        ensures { result ≡ self.now }
    {
        self.as_ref().to_packet()
    }

    /// Replaces this packet by a copy of a borrowed one. Of the payload's 1,440 octets only those in use are copied.
    #[inline(always)]
    pub fn copy_from(&mut self, packet: PacketRef<'_>)
        requires { length packet.payload.now ≤ 1440 }
        ensures { self.new ≡ packet_of packet.entry }
    {
        self.seq = packet.seq;
        self.ts = packet.ts;
        self.ssrc = packet.ssrc;
        refill(&mut self.payload, packet.payload);
    }
}

impl PacketRef<'_> {
    /// Returns this packet with a copy of the samples. Takes no memory.
    pub fn to_packet(self) -> Packet
        requires { length self.payload.now ≤ 1440 }
        ensures { result ≡ packet_of self.entry }
    {
        let mut payload = Payload::new();
        // This doesn't fail: there are at most 1,440 octets, the payload's capacity.
        let _ = payload.try_extend_from_slice(self.payload);
        Packet {
            seq: self.seq,
            ts: self.ts,
            ssrc: self.ssrc,
            payload,
        }
    }
}

/// Replaces a payload's octets by these.
#[inline(always)]
fn refill(payload: &mut Payload, octets: &[u8])
    requires { length octets.now ≤ 1440 }
    ensures { payload.new.items ≡ octets.now }
{
    // As many octets as before are written over them: `clear` blanks what it drops.
    if payload.len() == octets.len() {
        payload.as_mut_slice().copy_from_slice(octets);
    } else {
        refill_cold(payload, octets);
    }
}

/// Replaces a payload's octets by these, which are more or fewer.
// Out of line, since it is rare: a slot's payload begins empty, and then keeps its stream's length.
#[inline(never)]
fn refill_cold(payload: &mut Payload, octets: &[u8])
    requires { length octets.now ≤ 1440 }
    ensures { payload.new.items ≡ octets.now }
{
    payload.clear();
    // This doesn't fail: there are at most 1,440 octets, the payload's capacity.
    let _ = payload.try_extend_from_slice(octets);
}
