//! A cell for a packet in a ring, and the pushing end of a ring whose cells have one size.
ghost use Rattle.std.specs.Prelude.{◌≡◌, ◌+◌, ◌<◌, ◌≤◌, ◌++◌, ◌∷◌, [], ◌↔◌, IfSome, IsTrue, length};
ghost use Rattle.rtrb.specs.Ring.{Finishes, ProducerLooked, SameProducer, known_free, sent};
ghost use Rattle.rtp_stream.specs.PacketRef.{packet_of};

use crate::rings::payload_cell::PayloadCell;
use rtp_stream::PacketRef;
use rtrb::{Finished, Producer};
use std::marker::Model;

/// A packet whose payload lies in a cell of `N` octets. Contracts see it as that packet.
#[derive(Clone, Copy)]
pub(crate) struct PacketCell<const N: usize> {
    seq: u16,
    ts: u32,
    ssrc: u32,
    payload: PayloadCell<N>,
}

impl<const N: usize> Model for PacketCell<N> {
    ghost use Rattle.rtp_stream.specs.declared.packet.Packet.{Packet};

    ghost Value = { Packet };

    ghost view = { λ r. record { seq = r.seq; ts = r.ts; ssrc = r.ssrc; payload = record { items = r.payload } } };

    ghost inverse = { λ p. record { seq = p.seq; ts = p.ts; ssrc = p.ssrc; payload = p.payload.items } };
}

impl<const N: usize> PacketCell<N> {
    /// Returns a packet with an empty payload.
    pub(crate) fn new() -> PacketCell<N> {
        PacketCell {
            seq: 0,
            ts: 0,
            ssrc: 0,
            payload: PayloadCell::new(),
        }
    }

    /// Replaces the packet by a copy of a borrowed one.
    #[inline(always)]
    pub(crate) fn fill(&mut self, packet: PacketRef<'_>)
        requires { length packet.payload.now ≤ N }
        ensures { self.new ≡ packet_of packet.entry }
    {
        self.seq = packet.seq;
        self.ts = packet.ts;
        self.ssrc = packet.ssrc;
        self.payload.fill(packet.payload);
    }

    /// Returns the packet with its payload borrowed.
    #[inline]
    pub(crate) fn as_ref(&self) -> PacketRef<'_>
        ensures { packet_of result ≡ self.now }
    {
        PacketRef {
            seq: self.seq,
            ts: self.ts,
            ssrc: self.ssrc,
            payload: self.payload.octets(),
        }
    }
}

/// The pushing end of a ring of packets, and a cell that each packet is written to before it is pushed.
/// Contracts see it as that end.
#[derive(Drop)]
pub(crate) struct SizedPacketProducer<const N: usize> {
    ring: Producer<PacketCell<N>>,
    // One cell for all packets: its octets are zeroed only if the length changes, and copied to the ring once.
    cell: PacketCell<N>,
}

impl<const N: usize> Model for SizedPacketProducer<N> {
    ghost use Rattle.std.specs.declared.alloc.Global.{Global};
    ghost use Rattle.rtrb.specs.declared.AnyItems.{AnyItems};
    ghost use Rattle.rtrb.specs.declared.producer.Producer.{Producer};
    ghost use Rattle.rtp_stream.specs.declared.packet.Packet.{Packet};

    ghost Value = { Producer Packet Global AnyItems };

    ghost view = { λ s. s.ring };
}

impl<const N: usize> SizedPacketProducer<N> {
    /// Returns a pushing end over this ring.
    pub(crate) fn new(ring: Producer<PacketCell<N>>) -> SizedPacketProducer<N>
        ensures { result ≡ ring.entry }
    {
        SizedPacketProducer {
            ring,
            cell: PacketCell::new(),
        }
    }

    /// Returns true if no place is known to be free.
    pub(crate) fn is_full(&mut self) -> bool
        ensures looked { ProducerLooked self.old self.new }
        ensures value { IsTrue result ↔ (known_free self.new ≡ 0) }
    {
        self.ring.is_full()
    }

    /// Pushes a packet to a place that is known to be free.
    pub(crate) fn push(&mut self, packet: PacketRef<'_>)
        requires free { 0 < known_free self.old }
        requires short { length packet.payload.now ≤ N }
        ensures ring { SameProducer self.old self.new }
        ensures sent { sent self.new ≡ sent self.old ++ packet_of packet.entry ∷ [] }
    {
        self.cell.fill(packet);
        self.ring.push_reserved(self.cell);
    }

    /// Consumes the end and returns its token; `None` if the consumer was dropped.
    pub(crate) fn finish(self) -> Option<Finished<PacketCell<N>>>
        ensures { IfSome result (λ done. Finishes self.entry done) }
    {
        let SizedPacketProducer { ring, cell: _ } = self;
        ring.finish()
    }
}
