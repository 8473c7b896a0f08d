//! The end of a path: datagrams in, packets into the ring of the path.
ghost use Rattle.std.specs.Prelude.{◌≡◌, ◌≤◌, ◌<◌, ◌^◌, IfSome, false, length, true};
ghost use Rattle.rtrb.specs.Ring.{all_sent, known_free, sent, Finishes, ProducerLooked, SameProducer};
ghost use Rattle.rtp_stream.specs.MarkFacts.{payload_length};
ghost use Rattle.rtp_stream.specs.StreamSpecFacts.{format_of};
ghost use Rattle.rtp_stream.specs.declared.packet.Packet.{Packet};
ghost use Rattle.rtp_stream.specs.Reception.{reception_from, reception_of};
ghost use Rattle.rtp_stream.specs.declared.reception.Reception.TheVariants.{Sent as Received};
ghost use Rattle.studio_ends.specs.Fitting.{fitting};
ghost use Rattle.studio_ends.specs.CellSizes.{HasCellsFor};
ghost use Rattle.studio_ends.specs.Stats.{TellsPath};

use crate::rings::packets::{PacketProducer, PacketToken};
use rtp_stats::PathCountsSender;
use rtp_stream::{MAX_ARRIVALS, PathCounts, ReceptionRef, StreamSpec, receive_ref};
use rtp_wire::WireFault;

/// The end of a path, which takes the path's datagrams.
///
/// `offer` takes a datagram. `finish` ends the path. Neither allocates or blocks.
#[derive(Drop)]
pub struct PathEnd {
    pub(crate) spec: StreamSpec,
    pub(crate) ring: PacketProducer,
    pub(crate) counts: PathCounts,
    /// The sender of these counts; `None` if the rings were opened without statistics.
    pub(crate) sender: Option<PathCountsSender>,
    ghost few: { counts.offered ≤ 2 ^ 62 },
    ghost all_counted: { counts.sent ≡ length (sent ring) },
    ghost cells: { HasCellsFor (payload_length (format_of spec)) ring },
    ghost all_fit: { fitting spec (sent ring) ≡ sent ring },
}

/// The outcome of `PathEnd::offer`: the first of these that applies. Each but `CountersFull` is counted.
#[derive(Clone, Copy, PartialEq, Eq)]
pub enum Offer {
    /// 2^62 datagrams were offered before. This one is not counted.
    CountersFull,
    /// The datagram is not an RTP packet (RFC 3550 5.1), and its first fault.
    Bad(WireFault),
    /// The packet has another payload type than the stream.
    WrongType,
    /// The payload has another length than the stream's.
    WrongLength,
    /// No free place is known in the ring. The caller may offer the datagram again.
    Full,
    /// The packet was pushed to the ring.
    Sent,
}

/// The token of a finished path's end. `StreamEnd::path_done` takes it, before the stream can close.
#[derive(Drop)]
pub struct PathDone {
    pub(crate) token: PacketToken,
}

/// Returns true if the datagram is a packet of the stream and no free place is known for it.
fn lacks_space(ring: &mut PacketProducer, reception: ReceptionRef<'_>) -> bool
    ensures ring { ProducerLooked ring.old ring.new }
    ensures full { result ≡ true → ((packet : Packet) × (reception_from reception.entry ≡ Received packet))
        × (known_free ring.new ≡ 0) }
    ensures space { result ≡ false → (packet : Packet) → reception_from reception.entry ≡ Received packet
        → 0 < known_free ring.new }
{
    match reception {
        ReceptionRef::Sent(_) => ring.is_full(),
        ReceptionRef::Bad(_) => false,
        ReceptionRef::WrongType => false,
        ReceptionRef::WrongLength => false,
    }
}

/// Sends counts, if the path has a sender.
fn send_stats(sender: &mut Option<PathCountsSender>, counts: PathCounts)
    ensures { TellsPath counts sender.old sender.new }
{
    if let Some(sender) = sender {
        sender.send(counts);
    }
}

impl PathEnd {
    // Imported here, since the struct depends on what its file imports, and `Paths` names the struct.
    ghost use Rattle.studio_ends.specs.Paths.{Offers};
    ghost use Rattle.studio_ends.specs.declared.path_end.Offer.TheVariants as offer;

    /// Pushes the packet of a datagram to the stream's end, if it is a packet of the stream.
    ///
    /// Reads the fields that RFC 3550 5.1 defines. Never allocates or blocks.
    pub fn offer(&mut self, datagram: &[u8]) -> Offer
        ensures answer { Offers datagram.now self.old result self.new }
        ensures known { (packet : Packet) → self.old.counts.offered < 2 ^ 62 → 0 < known_free self.old.ring
            → reception_of self.old.spec datagram.now ≡ Received packet → result ≡ offer.Sent }
        ensures told { self.old.counts.offered < 2 ^ 62 → TellsPath self.new.counts self.old.sender self.new.sender }
        ensures ring { SameProducer self.old.ring self.new.ring }
        ensures spec { self.new.spec ≡ self.old.spec }
    {
        // From 2^62 on nothing is counted, so no counter ever wraps.
        if self.counts.offered == MAX_ARRIVALS {
            return Offer::CountersFull;
        }
        let reception = receive_ref(&self.spec, datagram);
        // The ring's space is tested before the datagram is counted: each is counted once, as full or as received.
        if lacks_space(&mut self.ring, reception) {
            self.counts.add_full();
            send_stats(&mut self.sender, self.counts);
            return Offer::Full;
        }
        self.counts.add(reception);
        send_stats(&mut self.sender, self.counts);
        match reception {
            ReceptionRef::Sent(packet) => {
                self.ring.push(packet);
                Offer::Sent
            }
            ReceptionRef::Bad(fault) => Offer::Bad(fault),
            ReceptionRef::WrongType => Offer::WrongType,
            ReceptionRef::WrongLength => Offer::WrongLength,
        }
    }

    /// Sends the counts of datagrams, if the path has a sender. For use while no datagram arrives: `offer` sends
    /// them itself.
    pub fn send_counts(&mut self)
        ensures same { self.new ≡ record self.old { sender = self.new.sender } }
        ensures told { TellsPath self.old.counts self.old.sender self.new.sender }
    {
        send_stats(&mut self.sender, self.counts);
    }

    /// Consumes the end and returns its token and the counts of its datagrams. The token is `None` if the stream's
    /// end was dropped.
    pub fn finish(self) -> (Option<PathDone>, PathCounts)
        ensures token { IfSome result.0 (λ done. Finishes self.ring done.token) }
        ensures fit { IfSome result.0 (λ done. fitting self.spec (all_sent done.token) ≡ all_sent done.token) }
        ensures count { IfSome result.0 (λ done. self.counts.sent ≡ length (all_sent done.token)) }
        ensures counts { result.1 ≡ self.counts }
    {
        let PathEnd {
            spec: _,
            ring,
            counts,
            sender: _,
        } = self;
        match ring.finish() {
            Some(token) => (Some(PathDone { token }), counts),
            None => (None, counts),
        }
    }
}
