//! Takes packets from the rings of a stream's paths and offers them to its merge.
ghost use Rattle.std.specs.Prelude.{◌≡◌, ℕ, ◌+◌, ◌<◌, List, [], ◌∷◌, length, vec_len, get_or};
ghost use Rattle.rtp_stream.specs.declared.packet.Packet.{Packet};
ghost use Rattle.studio_ends.specs.Fitting.{fitting};
ghost use Rattle.path_merge.specs.Steps.{next_deadline_of};
ghost use Rattle.rtp_stream.specs.PacketRef.{packet_of};
ghost use Rattle.rtp_stream.specs.StreamSpec.{Fits};
ghost use Rattle.studio_ends.specs.Stats.{Notes, NotesAll, NotesPacket};
ghost use Rattle.studio_ends.specs.StreamTurns.{AllTakePackets, Joins, TakesPackets, arrivals_by, arrivals_from};

use crate::rings::TokenConsumer;
use crate::rings::packet_cell::PacketCell;
use crate::rings::packets::PacketConsumer;
use path_merge::{Merge, SlotWindow};
use rtp_stats::StreamStatsSender;
use rtp_stream::{Fate, PacketRef, Path, StreamSpec};

/// The most packets of a path, or marks of a stream, that one turn moves.
// A limit, so that a ring that never runs empty cannot hold up the rings that a turn comes to after it.
pub(crate) const BATCH: u32 = 64;

/// Notes the fate of a packet, if the stream has a sender of statistics.
fn note(
    sender: &mut Option<StreamStatsSender>,
    merge: &Merge<SlotWindow>,
    path: Path,
    packet: PacketRef<'_>,
    fate: Fate,
)
    ensures { Notes path fate (packet_of packet.entry) (next_deadline_of merge.now) merge.now.time
        sender.old sender.new }
{
    if let Some(sender) = sender {
        sender.note(path, packet, fate, merge.next_deadline(), merge.time());
    }
}

/// Offers a packet to the merge if its payload has the stream's length. Any other packet is left out.
fn offer_packet<const N: usize>(
    spec: &StreamSpec,
    merge: &mut Merge<SlotWindow>,
    path: Path,
    cell: &PacketCell<N>,
    sender: &mut Option<StreamStatsSender>,
)
    requires spec { merge.old.spec ≡ spec.now }
    requires path { path < spec.now.paths }
    ensures joins { Joins merge.old merge.new (λ stream. arrivals_by path (fitting stream (cell.now ∷ []))) }
    ensures noted { Fits spec.now cell.now → NotesPacket merge.old path cell.now merge.new sender.old sender.new }
    ensures unfit { (Fits spec.now cell.now → ⊥) → sender.new ≡ sender.old }
{
    let packet = cell.as_ref();
    if packet.payload.len() == spec.payload_len() {
        let fate = merge.offer_ref(path, packet);
        note(sender, merge, path, packet, fate);
    }
}

/// Offers the packets in a path's ring to the merge, at most 64. Returns their number.
pub(crate) fn take_path<const N: usize>(
    side: &mut TokenConsumer<PacketCell<N>>,
    spec: &StreamSpec,
    merge: &mut Merge<SlotWindow>,
    path: Path,
    sender: &mut Option<StreamStatsSender>,
) -> u32
    requires spec { merge.old.spec ≡ spec.now }
    requires path { path < spec.now.paths }
    ensures took { (packets : List Packet) × TakesPackets side.old side.new packets × (length packets ≡ result)
        × Joins merge.old merge.new (λ stream. arrivals_by path (fitting stream packets))
        × NotesAll merge.old (λ stream. arrivals_by path (fitting stream packets)) sender.old sender.new }
{
    let mut taken = 0;
    while taken < BATCH {
        if side.is_empty() {
            return taken;
        }
        // The packet is borrowed from its place in the ring, and dropped once the merge has copied it.
        offer_packet(spec, merge, path, side.peek(), sender);
        side.drop_next();
        taken += 1;
    }
    taken
}

/// Offers the packets in the rings of all paths to the merge, path by path. Returns the number taken of each path.
pub(crate) fn take_all(
    sides: &mut Vec<PacketConsumer>,
    spec: &StreamSpec,
    merge: &mut Merge<SlotWindow>,
    sender: &mut Option<StreamStatsSender>,
) -> [u32; 4]
    requires spec { merge.old.spec ≡ spec.now }
    requires paths { vec_len sides.old ≡ spec.now.paths }
    ensures took { (taken : List (List Packet)) × AllTakePackets sides.old.items sides.new.items taken
        × ((i : ℕ) → get_or result i 0 ≡ length (get_or taken i []))
        × Joins merge.old merge.new (λ stream. arrivals_from stream 0 taken)
        × NotesAll merge.old (λ stream. arrivals_from stream 0 taken) sender.old sender.new }
    ensures count { vec_len sides.new ≡ vec_len sides.old }
{
    let mut from = [0u32; 4];
    for number in 0..spec.paths() {
        let Some(path) = Path::new(number) else {
            unreachable!();
        };
        let place = usize::from(number);
        let count = sides[place].take(spec, merge, path, sender);
        from[place] = count;
    }
    from
}
