//! A path's ring of packets, with cells of the least of three sizes that the stream's payloads fit.
ghost use Rattle.std.specs.Prelude.{
  ◌≡◌,
  ℕ,
  ◌<◌,
  ◌≤◌,
  ◌++◌,
  ◌∷◌,
  [],
  ◌↔◌,
  List,
  IfOk,
  IfSome,
  IsSomeAnd,
  IsTrue,
  MatchOption,
  None,
  Some,
  length,
};
ghost use Rattle.rtrb.specs.Ring.{
  Finishes,
  IsFinishedOf,
  IsPair,
  ProducerLooked,
  SameConsumer,
  SameProducer,
  all_sent,
  known_free,
  received,
  sent,
};
ghost use Rattle.rtp_stream.specs.PacketRef.{packet_of};
ghost use Rattle.rtp_stream.specs.declared.packet.Packet.{Packet};
ghost use Rattle.studio_ends.specs.Fitting.{fitting};
ghost use Rattle.studio_ends.specs.CellSizes.{HasCellsFor};
ghost use Rattle.studio_ends.specs.DrainedRing.{IsDrained};
ghost use Rattle.studio_ends.specs.Stats.{NotesAll};
ghost use Rattle.studio_ends.specs.StreamTurns.{Joins, TakesPackets, arrivals_by};

use crate::rings::TokenConsumer;
use crate::rings::packet_cell::{PacketCell, SizedPacketProducer};
use crate::rings::payload_cell::{LONG, MIDDLE, SHORT};
use crate::stream_end::packets_in::take_path;
use path_merge::{Merge, SlotWindow};
use rtp_stats::StreamStatsSender;
use rtp_stream::{PacketRef, Path, StreamSpec};
use rtrb::{Finished, RingBuffer};
use std::alloc::{AllocError, Global};
use std::marker::Model;

/// The pushing end of a ring of packets, by the size of its cells.
#[derive(Drop)]
enum ProducerBySize {
    Short(SizedPacketProducer<SHORT>),
    Middle(SizedPacketProducer<MIDDLE>),
    Long(SizedPacketProducer<LONG>),
}

/// The popping end of a ring of packets, by the size of its cells.
#[derive(Drop)]
enum ConsumerBySize {
    Short(TokenConsumer<PacketCell<SHORT>>),
    Middle(TokenConsumer<PacketCell<MIDDLE>>),
    Long(TokenConsumer<PacketCell<LONG>>),
}

/// The token of a pushing end, by the size of its ring's cells.
#[derive(Drop)]
enum TokenBySize {
    Short(Finished<PacketCell<SHORT>>),
    Middle(Finished<PacketCell<MIDDLE>>),
    Long(Finished<PacketCell<LONG>>),
}

/// The pushing end. Contracts see it as that of a ring of packets, whose ghost name holds the size of its cells.
#[derive(Drop)]
pub(crate) struct PacketProducer {
    end: ProducerBySize,
}

/// The popping end, with the token of the pushing end once it was passed in.
#[derive(Drop)]
pub(crate) struct PacketConsumer {
    end: ConsumerBySize,
}

/// The token of the pushing end.
#[derive(Drop)]
pub(crate) struct PacketToken {
    token: TokenBySize,
}

impl Model for PacketProducer {
    ghost use Rattle.std.specs.declared.alloc.Global.{Global};
    ghost use Rattle.rtrb.specs.declared.AnyItems.{AnyItems};
    ghost use Rattle.rtrb.specs.declared.producer.Producer.{Producer};
    ghost use Rattle.rtp_stream.specs.declared.packet.Packet.{Packet};
    ghost use Rattle.studio_ends.specs.PacketRings.{sender_in};

    ghost Value = { Producer Packet Global AnyItems };

    ghost view = { λ s. sender_in s.end };
}

impl Model for PacketConsumer {
    ghost use Rattle.rtp_stream.specs.contracts.packet.Packet as packet_row;
    ghost use Rattle.studio_ends.specs.contracts.rings.TokenConsumer as side_row;
    ghost use Rattle.rtp_stream.specs.declared.packet.Packet.{Packet};
    ghost use Rattle.studio_ends.specs.declared.rings.TokenConsumer.{TokenConsumer};
    ghost use Rattle.studio_ends.specs.PacketRings.{side_in};

    ghost Value = { TokenConsumer Packet };

    ghost coded = { (side_row.the_row packet_row.the_row).coded };

    ghost view = { λ s. side_in s.end };
}

impl Model for PacketToken {
    ghost use Rattle.std.specs.declared.alloc.Global.{Global};
    ghost use Rattle.rtrb.specs.declared.AnyItems.{AnyItems};
    ghost use Rattle.rtrb.specs.declared.finished.Finished.{Finished};
    ghost use Rattle.rtp_stream.specs.declared.packet.Packet.{Packet};
    ghost use Rattle.studio_ends.specs.PacketRings.{token_in};

    ghost Value = { Finished Packet Global AnyItems };

    ghost view = { λ s. token_in s.token };
}

impl PacketProducer {
    /// Returns true if no place is known to be free.
    pub(crate) fn is_full(&mut self) -> bool
        ensures looked { ProducerLooked self.old self.new }
        ensures value { IsTrue result ↔ (known_free self.new ≡ 0) }
    {
        match &mut self.end {
            ProducerBySize::Short(end) => end.is_full(),
            ProducerBySize::Middle(end) => end.is_full(),
            ProducerBySize::Long(end) => end.is_full(),
        }
    }

    /// Pushes a packet to a place that is known to be free.
    pub(crate) fn push(&mut self, packet: PacketRef<'_>)
        requires free { 0 < known_free self.old }
        requires cells { HasCellsFor (length packet.payload.now) self.old }
        ensures ring { SameProducer self.old self.new }
        ensures sent { sent self.new ≡ sent self.old ++ packet_of packet.entry ∷ [] }
    {
        match &mut self.end {
            ProducerBySize::Short(end) => end.push(packet),
            ProducerBySize::Middle(end) => end.push(packet),
            ProducerBySize::Long(end) => end.push(packet),
        }
    }

    /// Consumes the end and returns its token; `None` if the consumer was dropped.
    pub(crate) fn finish(self) -> Option<PacketToken>
        ensures { IfSome result (λ done. Finishes self done) }
    {
        let PacketProducer { end } = self;
        let token = match end {
            ProducerBySize::Short(end) => TokenBySize::Short(end.finish()?),
            ProducerBySize::Middle(end) => TokenBySize::Middle(end.finish()?),
            ProducerBySize::Long(end) => TokenBySize::Long(end.finish()?),
        };
        Some(PacketToken { token })
    }
}

impl PacketConsumer {
    /// Offers the packets in the ring to the merge as those of a path, at most 64. Returns their number.
    pub(crate) fn take(
        &mut self,
        spec: &StreamSpec,
        merge: &mut Merge<SlotWindow>,
        path: Path,
        sender: &mut Option<StreamStatsSender>,
    ) -> u32
        requires spec { merge.old.spec ≡ spec.now }
        requires path { path < spec.now.paths }
        ensures took { (packets : List Packet) × TakesPackets self.old self.new packets × (length packets ≡ result)
            × Joins merge.old merge.new (λ stream. arrivals_by path (fitting stream packets))
            × NotesAll merge.old (λ stream. arrivals_by path (fitting stream packets)) sender.old sender.new }
    {
        match &mut self.end {
            ConsumerBySize::Short(side) => take_path(side, spec, merge, path, sender),
            ConsumerBySize::Middle(side) => take_path(side, spec, merge, path, sender),
            ConsumerBySize::Long(side) => take_path(side, spec, merge, path, sender),
        }
    }

    /// Takes the token of the pushing end.
    pub(crate) fn hand_in(&mut self, done: PacketToken)
        requires { IsFinishedOf done self.old.ring }
        ensures { (self.new.ring ≡ self.old.ring) × (self.new.done ≡ Some done) }
    {
        // A token belongs to one ring, and the ring's ghost name fixes the size: the other sizes cannot come.
        let PacketToken { token } = done;
        match &mut self.end {
            ConsumerBySize::Short(side) => match token {
                TokenBySize::Short(done) => side.hand_in(done),
                TokenBySize::Middle(_) => unreachable!(),
                TokenBySize::Long(_) => unreachable!(),
            },
            ConsumerBySize::Middle(side) => match token {
                TokenBySize::Short(_) => unreachable!(),
                TokenBySize::Middle(done) => side.hand_in(done),
                TokenBySize::Long(_) => unreachable!(),
            },
            ConsumerBySize::Long(side) => match token {
                TokenBySize::Short(_) => unreachable!(),
                TokenBySize::Middle(_) => unreachable!(),
                TokenBySize::Long(done) => side.hand_in(done),
            },
        }
    }

    /// Returns true if the pushing end has finished and all that it pushed was taken.
    pub(crate) fn is_drained(&mut self) -> bool
        ensures drained { IsTrue result ↔ IsDrained self.new.ring self.new.done }
        ensures ring { SameConsumer self.old.ring self.new.ring × (received self.new.ring ≡ received self.old.ring) }
        ensures done { MatchOption self.old.done (self.new.done ≡ None)
            (λ d. IsSomeAnd self.new.done (λ e. all_sent e ≡ all_sent d)) }
    {
        match &mut self.end {
            ConsumerBySize::Short(side) => side.is_drained(),
            ConsumerBySize::Middle(side) => side.is_drained(),
            ConsumerBySize::Long(side) => side.is_drained(),
        }
    }
}

/// Opens a ring whose cells have one size and returns both ends.
fn open_sized<const N: usize>(
    alloc: Global,
    places: usize,
) -> Result<(SizedPacketProducer<N>, TokenConsumer<PacketCell<N>>), AllocError>
    ensures pair { IfOk result (λ r. IsPair r.0 r.1.ring) }
    ensures producer { IfOk result (λ r. (sent r.0 ≡ []) × (known_free r.0 ≡ places)) }
    ensures side { IfOk result (λ r. (received r.1.ring ≡ []) × (r.1.done ≡ None)) }
{
    let (push, pop) = RingBuffer::new(alloc, places)?;
    Ok((SizedPacketProducer::new(push), TokenConsumer::new(pop)))
}

/// Opens a ring of `places` places for payloads of `len` octets and returns both ends.
pub(crate) fn open_packets(
    alloc: Global,
    len: usize,
    places: usize,
) -> Result<(PacketProducer, PacketConsumer), AllocError>
    requires { len ≤ 1440 }
    ensures pair { IfOk result (λ r. IsPair r.0 r.1.ring) }
    ensures producer { IfOk result (λ r. (sent r.0 ≡ []) × (known_free r.0 ≡ places)) }
    ensures side { IfOk result (λ r. (received r.1.ring ≡ []) × (r.1.done ≡ None)) }
    ensures space { IfOk result (λ r. HasCellsFor len r.0) }
{
    let (push, pop) = if len <= SHORT {
        let (push, pop) = open_sized(alloc, places)?;
        (ProducerBySize::Short(push), ConsumerBySize::Short(pop))
    } else if len <= MIDDLE {
        let (push, pop) = open_sized(alloc, places)?;
        (ProducerBySize::Middle(push), ConsumerBySize::Middle(pop))
    } else {
        let (push, pop) = open_sized(alloc, places)?;
        (ProducerBySize::Long(push), ConsumerBySize::Long(pop))
    };
    Ok((PacketProducer { end: push }, PacketConsumer { end: pop }))
}
