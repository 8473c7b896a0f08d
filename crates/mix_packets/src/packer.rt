//! The packets of an output, one by one.
ghost use Rattle.std.specs.Prelude.{◌≡◌, ◌+◌, ◌^◌, ◌<◌, ◌≤◌, ◌++◌, drop, length};
ghost use Rattle.std.specs.List.{All};
ghost use Rattle.rtp_wire.specs.Sample.{FitsEncoding};
ghost use Rattle.mix_packets.specs.OutSpec.{datagram_length, sample_total};
ghost use Rattle.mix_packets.specs.Block.{block_datagram, timestamp_of};

use crate::out_spec::OutSpec;
use rtp_wire::{RtpHead, write_head, write_samples};
use std::marker::Model;

/// A writer of an output's datagrams, one after another, each from one block of samples.
///
/// `next` takes a block; `number` returns the number of blocks taken. No call allocates.
#[derive(Debug, Drop)]
pub struct Packer {
    spec: OutSpec,
    number: u64,
    // The next sequence number and timestamp are kept, so that no product of `number` is computed.
    /// The sequence number of the next datagram.
    seq: u16,
    /// The timestamp of the next datagram.
    ts: u32,
}

impl Model for Packer {
    ghost use Rattle.mix_packets.specs.Packer.{PackerState, IsInStep};

    ghost Value = { PackerState };

    ghost view = { λ p. record { spec = p.spec; number = p.number } };

    ghost invariant = { λ p. IsInStep (view p) p.seq p.ts };
}

/// Returns the timestamp of the first datagram.
fn first_timestamp(spec: &OutSpec) -> u32
    ensures { result ≡ timestamp_of spec.now 0 }
{
    // The remainder is taken before the cast, which may not lose bits.
    let low = spec.start() as u64 % 4_294_967_296;
    (low as u32).wrapping_add(spec.offset())
}

impl Packer {
    /// Returns a packer that has written nothing yet.
    pub fn new(spec: OutSpec) -> Packer
        ensures { result ≡ record { spec = spec; number = 0 } }
    {
        Packer {
            spec,
            number: 0,
            seq: spec.seq0(),
            ts: first_timestamp(&spec),
        }
    }

    /// Writes the next datagram to the start of `out`, and returns its length in octets.
    ///
    /// The block has its samples frame by frame: all channels of one sampling instant, then those of the next.
    pub fn next(&mut self, block: &[i32], out: &mut [u8]) -> usize
        requires whole { length block.now ≡ sample_total self.old.spec }
        requires fit { All (FitsEncoding self.old.spec.enc) block.now }
        requires space { datagram_length self.old.spec ≤ length out.old }
        requires number { self.old.number < 2 ^ 60 }
        ensures written { out.new ≡ block_datagram self.old.spec self.old.number block.now
            ++ drop (datagram_length self.old.spec) out.old }
        ensures number { self.new ≡ record { spec = self.old.spec; number = self.old.number + 1 } }
        ensures len { result ≡ datagram_length self.old.spec }
    {
        let head = RtpHead {
            marker: false,
            pt: self.spec.pt(),
            seq: self.seq,
            ts: self.ts,
            ssrc: self.spec.ssrc(),
        };
        let start = write_head(out, &head);
        let octets = write_samples(self.spec.enc(), block, &mut out[start..]);
        self.number += 1;
        self.seq = self.seq.wrapping_add(1);
        self.ts = self.ts.wrapping_add(u32::from(self.spec.frames()));
        start + octets
    }

    /// Returns the number of datagrams written.
    pub fn number(&self) -> u64
        ensures { result ≡ self.now.number }
    {
        self.number
    }
}
