//! One slot of a window, which keeps its packet in place.
ghost use Rattle.std.specs.Prelude.{◌≡◌, ◌≤◌, Some, None, length, option_copied};
ghost use Rattle.rtp_stream.specs.declared.packet.Packet.{Packet};
ghost use Rattle.rtp_stream.specs.PacketRef.{packet_of};
ghost use Rattle.rtp_stream.specs.Put.{put_answer};

use crate::payload_eq::are_same;
use rtp_stream::{Packet, PacketRef, Put};
use rtp_wire::Payload;
use std::marker::Model;

/// Space for one packet. A free slot keeps the octets that were written last, unseen.
#[derive(Drop)]
pub(crate) struct Slot {
    // A flag and a packet instead of an `Option`: a freed packet's octets aren't blanked, and the next one is written
    // over it.
    held: bool,
    packet: Packet,
}

impl Model for Slot {
    ghost use Rattle.std.specs.Prelude.{Option, Some, None, if◌then◌else◌};
    ghost use Rattle.rtp_stream.specs.declared.packet.Packet.{Packet};

    ghost Value = { Option Packet };

    ghost view = { λ s. if s.held then Some s.packet else None };
}

impl Slot {
    /// Returns a free slot.
    pub(crate) fn new() -> Slot
        ensures { result ≡ None }
    {
        Slot {
            held: false,
            packet: Packet {
                seq: 0,
                ts: 0,
                ssrc: 0,
                payload: Payload::new(),
            },
        }
    }

    /// Returns the result of putting a packet here, without putting it.
    #[inline(always)]
    pub(crate) fn answer(&self, packet: PacketRef<'_>) -> Put
        ensures { result ≡ put_answer self.now (packet_of packet.entry) }
    {
        if !self.held {
            return Put::Taken;
        }
        if are_same(self.packet.payload.as_slice(), packet.payload) {
            Put::Double
        } else {
            Put::Unlike
        }
    }

    /// Writes a packet over the one that it holds or held last.
    #[inline(always)]
    pub(crate) fn write(&mut self, packet: PacketRef<'_>)
        requires { length packet.payload.now ≤ 1440 }
        ensures { self.new ≡ Some (packet_of packet.entry) }
    {
        self.packet.copy_from(packet);
        self.held = true;
    }

    /// Returns the packet that it holds, if it isn't free.
    #[inline]
    pub(crate) fn packet(&self) -> Option<&Packet>
        ensures { option_copied result ≡ self.now }
    {
        if self.held { Some(&self.packet) } else { None }
    }

    /// Frees the slot.
    #[inline]
    pub(crate) fn free(&mut self)
        ensures { self.new ≡ None }
    {
        self.held = false;
    }
}
