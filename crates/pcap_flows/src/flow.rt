//! A flow of RTP packets and its counts.
ghost use Rattle.std.specs.Prelude.{◌≡◌, IfOk};
ghost use Rattle.pcap_flows.specs.Flow.{
  flow_first,
  flow_view,
  flow_with,
  lost_of,
  lengths_first,
  lengths_with,
  steps_first,
  steps_with,
};
ghost use Rattle.pcap_flows.specs.ReceivedNumbers.{numbers_view};

use crate::packet::FlowPacket;
use crate::received_numbers::ReceivedNumbers;
use std::alloc::{AllocError, Global};

/// The counts of a flow of RTP packets. It keeps none of the packets.
#[derive(Drop)]
pub(crate) struct Flow {
    packets: u64,
    numbers: ReceivedNumbers,
    lengths: Lengths,
    steps: Steps,
}

impl Flow {
    /// Returns a flow with its first packet. Returns `AllocError` if the allocation of 1 MiB fails.
    pub(crate) fn new(alloc: Global, first: &FlowPacket) -> Result<Flow, AllocError>
        ensures { IfOk result (λ flow. flow_view flow ≡ flow_first first.now) }
    {
        let numbers = ReceivedNumbers::new(alloc, first.seq, first.ts)?;
        Ok(Flow {
            packets: 1,
            numbers,
            lengths: Lengths::new(first.len),
            steps: Steps::new(first.seq, first.ts),
        })
    }

    /// Counts a packet of the flow, in the order of the capture.
    pub(crate) fn add(&mut self, next: &FlowPacket)
        ensures { flow_view self.new ≡ flow_with (flow_view self.old) next.now }
    {
        self.packets = self.packets.saturating_add(1);
        self.numbers.add(next.seq, next.ts);
        self.lengths.add(next.len);
        self.steps.add(next.seq, next.ts);
    }

    /// Returns the number of all its packets, including those with repeated numbers.
    pub(crate) fn packets(&self) -> u64
        ensures { result ≡ self.now.packets }
    {
        self.packets
    }

    /// Returns its sequence numbers.
    pub(crate) fn numbers(&self) -> &ReceivedNumbers
        ensures { result.now ≡ self.now.numbers }
    {
        &self.numbers
    }

    /// Returns the number of missing sequence numbers from the least to the greatest (RFC 3550, A.3).
    pub(crate) fn lost(&self) -> u64
        ensures { result ≡ lost_of (flow_view self.now) }
    {
        let distinct = self.packets.saturating_sub(self.numbers.repeated());
        self.numbers.span().saturating_sub(distinct)
    }

    /// Returns its payload lengths.
    pub(crate) fn lengths(&self) -> Lengths
        ensures { result ≡ self.now.lengths }
    {
        self.lengths
    }

    /// Returns its timestamp steps.
    pub(crate) fn steps(&self) -> Steps
        ensures { result ≡ self.now.steps }
    {
        self.steps
    }
}

/// The least and the greatest payload length of a flow, in octets.
#[derive(Clone, Copy)]
pub(crate) struct Lengths {
    /// The least length.
    pub least: usize,
    /// The greatest length.
    pub greatest: usize,
}

impl Lengths {
    /// Returns the lengths of a single packet.
    pub(crate) fn new(len: usize) -> Lengths
        ensures { result ≡ lengths_first len }
    {
        Lengths {
            least: len,
            greatest: len,
        }
    }

    /// Adds the length of a packet.
    pub(crate) fn add(&mut self, len: usize)
        ensures { self.new ≡ lengths_with self.old len }
    {
        self.least = self.least.min(len);
        self.greatest = self.greatest.max(len);
    }
}

/// The timestamp steps from each packet to the next in the capture, if that has the next sequence number.
#[derive(Clone, Copy)]
pub(crate) struct Steps {
    /// The sequence number of the last packet.
    pub seq: u16,
    /// The timestamp of the last packet.
    pub ts: u32,
    /// The first such step, in sampling instants.
    pub first: Option<u32>,
    /// The number of steps that are the first or equal to it.
    pub same: u64,
    /// True if another step was different.
    pub varies: bool,
}

impl Steps {
    /// Returns the steps of a single packet, which has none.
    pub(crate) fn new(seq: u16, ts: u32) -> Steps
        ensures { result ≡ steps_first seq ts }
    {
        Steps {
            seq,
            ts,
            first: None,
            same: 0,
            varies: false,
        }
    }

    /// Adds the next packet of the capture.
    #[tactic(auto, unfolding(crate::specs::Flow::steps_with))]
    pub(crate) fn add(&mut self, seq: u16, ts: u32)
        ensures { self.new ≡ steps_with self.old seq ts }
    {
        if seq == self.seq.wrapping_add(1) {
            let step = ts.wrapping_sub(self.ts);
            match self.first {
                Some(first) if first != step => self.varies = true,
                _ => {
                    self.first = Some(step);
                    self.same = self.same.saturating_add(1);
                }
            }
        }
        self.seq = seq;
        self.ts = ts;
    }
}
