//! Probation of a source that may have restarted (RFC 3550, A.1).
ghost use Rattle.std.specs.Prelude.{◌≡◌, ◌≤◌, ◌&&◌, ℕ, nat_eq, false};
ghost use Rattle.rtp_stream.specs.PacketRef.{packet_of};
ghost use Rattle.rtp_stream.specs.Anchor.{is_source_wanted};
ghost use Rattle.rtp_stream.specs.PathProbation.{is_complete, probation_at, probation_heard};
ghost use Rattle.rtp_stream.specs.declared.stream_spec.Stream.{Stream};

use crate::anchor::is_wanted_source;
use crate::packet::PacketRef;
use crate::path::Path;
use crate::stream_spec::StreamSpec;

/// The number of packets in sequence that complete a probation.
// RFC 3550, A.1 names 2; but a strayed or forged pair must not move a programme.
const MIN_SEQUENTIAL: u8 = 8;

/// One path's probation: its last packets that are of another source or off the anchor's grid, counted while they
/// are in sequence, and what the next one has to be.
#[derive(Clone, Copy, Debug)]
pub struct Probation {
    /// The number of packets in sequence, at most 8.
    pub count: u8,
    /// The synchronization source of these.
    pub source: u32,
    /// The sequence number of the packet that would follow.
    pub seq: u16,
    /// The timestamp of the packet that would follow.
    pub ts: u32,
}

impl Probation {
    ghost use Rattle.rtp_stream.specs.PathProbation.{no_probation, probation_after, is_complete};

    /// Returns the probation of a path that has received nothing since the anchor's arrival.
    pub fn new() -> Probation
        ensures { result ≡ no_probation }
    {
        Probation {
            count: 0,
            source: 0,
            seq: 0,
            ts: 0,
        }
    }

    /// Adds a packet of the path: `off` if it is of another source or off the grid, `frames` sampling instants long.
    ///
    /// A packet that isn't off breaks the probation. A packet that is off but doesn't follow begins another.
    #[inline(always)]
    pub fn update(&mut self, frames: u32, off: bool, packet: &PacketRef<'_>)
        requires { frames ≤ 192 }
        ensures { (stream : Stream) → stream.frames ≡ frames
            → self.new ≡ probation_after stream self.old (off, packet_of packet.now) }
    {
        if !off {
            *self = Probation::new();
            return;
        }
        let follows = self.count > 0
            && packet.ssrc == self.source
            && packet.seq == self.seq
            && packet.ts == self.ts;
        let count = if !follows {
            1
        } else if self.count < MIN_SEQUENTIAL {
            self.count + 1
        } else {
            // Each further packet in sequence completes the probation again.
            MIN_SEQUENTIAL
        };
        *self = Probation {
            count,
            source: packet.ssrc,
            seq: packet.seq.wrapping_add(1),
            ts: packet.ts.wrapping_add(frames),
        };
    }

    /// Returns true if the last eight are in sequence.
    pub fn is_complete(&self) -> bool
        ensures { result ≡ is_complete self.now }
    {
        self.count >= MIN_SEQUENTIAL
    }
}

/// Adds a packet to its path's probation, and returns true if it completes that. A packet of a source that the stream
/// doesn't ask for is left out.
#[inline(always)]
pub fn update_probation(
    probations: &mut [Probation; 4],
    path: Path,
    spec: &StreamSpec,
    off: bool,
    packet: &PacketRef<'_>,
) -> bool
    ensures heard { probation_at probations.new path
        ≡ probation_heard spec.now (probation_at probations.old path) off (packet_of packet.now) }
    ensures others { (other : ℕ) → nat_eq other path ≡ false
        → probation_at probations.new other ≡ probation_at probations.old other }
    ensures complete { result ≡ is_source_wanted spec.now.ssrc packet.now.ssrc
        && is_complete (probation_at probations.new path) }
{
    // A packet of a source that isn't asked for opens no epoch, and breaks no probation either.
    if !is_wanted_source(spec.ssrc(), packet.ssrc) {
        return false;
    }
    let place = usize::from(path.number());
    let mut probation = probations[place];
    probation.update(u32::from(spec.frames()), off, packet);
    probations[place] = probation;
    probation.is_complete()
}
