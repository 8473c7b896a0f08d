//! The table of a capture's flows.
ghost use Rattle.std.specs.Prelude.{◌≡◌, ◌≤◌, IfOk, OnOk, length, vec_len, position, option_map, slice_get};
ghost use Rattle.pcap_file.specs.Capture.{item_view, packets_left, packets_of};
ghost use Rattle.pcap_flows.specs.CaptureTimes.{jump_of};
ghost use Rattle.pcap_flows.specs.FlowPacket.{same_flow};

use crate::capture_times::{CaptureTimes, TimeJump};
use crate::flow::Flow;
use crate::packet::{FlowKey, FlowPacket, flow_packet};
use pcap_file::{Capture, CaptureFault, Packet, open};
use std::alloc::{AllocError, Global};

/// The greatest number of flows of a table.
// Each takes 1 MiB for its sequence numbers and timestamps, so a table takes little more than 256 MiB.
pub(crate) const MAX_FLOWS: usize = 256;

/// The flows of a capture, in the order of their first packets.
#[derive(Drop)]
pub struct FlowTable {
    keys: Vec<FlowKey>,
    flows: Vec<Flow>,
    /// The number of packets of flows that have no space in the table.
    untracked: u64,
    /// The number of UDP packets that are cut, fragments or no RTP.
    not_rtp: u64,
    /// The fault at which the capture ended.
    fault: Option<CaptureFault>,
    /// The steps of the capture's time.
    times: CaptureTimes,
    ghost same: { vec_len flows ≡ vec_len keys },
}

impl FlowTable {
    ghost use Rattle.pcap_flows.specs.FlowTable.{
      no_table,
      table_after,
      table_begun,
      table_counting,
      table_view,
      table_with,
    };

    /// Returns the flows of the capture `octets`, up to its end or its fault. Returns `AllocError` if an allocation
    /// fails.
    #[tactic(auto, using(crate::proofs::FlowTableLemmas::table_after_fault))]
    pub fn of(alloc: Global, octets: &[u8]) -> Result<FlowTable, AllocError>
        ensures { IfOk result (λ table. table_view table ≡ table_after no_table (packets_of octets.now)) }
    {
        let mut table = FlowTable::new(alloc);
        match open(octets) {
            Ok(capture) => {
                table.read(alloc, capture)?;
                Ok(table)
            }
            Err(fault) => {
                table.fault = Some(fault);
                Ok(table)
            }
        }
    }

    /// Returns a table without flows.
    pub fn new(alloc: Global) -> FlowTable
        ensures { table_view result ≡ no_table }
    {
        FlowTable {
            keys: Vec::new(alloc),
            flows: Vec::new(alloc),
            untracked: 0,
            not_rtp: 0,
            fault: None,
            times: CaptureTimes::new(),
        }
    }

    /// Counts a packet in its flow; the first of a flow begins it, if there are fewer than 256. Returns `AllocError` if
    /// an allocation fails.
    #[tactic(auto, unfolding(crate::specs::FlowTable::table_counting))]
    pub(crate) fn add(&mut self, alloc: Global, next: &FlowPacket) -> Result<(), AllocError>
        ensures { OnOk result (table_view self.new ≡ table_counting (table_view self.old) next.now) }
    {
        match place_of(&self.keys, &next.key) {
            Some(place) => {
                self.flows[place].add(next);
                Ok(())
            }
            None if self.keys.len() < MAX_FLOWS => self.add_flow(alloc, next),
            None => {
                self.untracked = self.untracked.saturating_add(1);
                Ok(())
            }
        }
    }

    /// Begins a flow with its first packet.
    fn add_flow(&mut self, alloc: Global, first: &FlowPacket) -> Result<(), AllocError>
        ensures { OnOk result (table_view self.new ≡ table_begun (table_view self.old) first.now) }
    {
        // Both lists take their space first, so that they can't get different lengths.
        self.keys.reserve(1)?;
        self.flows.reserve(1)?;
        let flow = Flow::new(alloc, first)?;
        self.flows.push(flow)?;
        self.keys.push(first.key)?;
        Ok(())
    }

    /// Counts an item of a capture: a packet, or the fault that comes last. Returns `AllocError` if an allocation
    /// fails.
    #[tactic(auto, unfolding(crate::specs::FlowTable::table_with))]
    pub fn take(
        &mut self,
        alloc: Global,
        item: Result<Packet<'_>, CaptureFault>,
    ) -> Result<(), AllocError>
        ensures { OnOk result (table_view self.new ≡ table_with (table_view self.old) (item_view item.entry)) }
    {
        match item {
            Ok(packet) => {
                self.times.add(packet.time);
                match flow_packet(&packet) {
                    Some(next) => self.add(alloc, &next)?,
                    None => self.not_rtp = self.not_rtp.saturating_add(1),
                }
            }
            Err(fault) => self.fault = Some(fault),
        }
        Ok(())
    }

    /// Counts all items that are left of a capture.
    #[tactic(auto, using(crate::proofs::FlowTableLemmas::table_after_none, crate::proofs::FlowTableLemmas::table_after_next))]
    fn read(&mut self, alloc: Global, mut capture: Capture<'_>) -> Result<(), AllocError>
        ensures { OnOk result (table_view self.new ≡ table_after (table_view self.old) (packets_left capture.entry)) }
    {
        while let Some(item) = capture.next() {
            self.take(alloc, item)?;
        }
        Ok(())
    }

    /// Returns the keys of the flows, in the order of their first packets.
    pub(crate) fn keys(&self) -> &[FlowKey]
        ensures { result.now ≡ self.now.keys.items }
    {
        self.keys.as_slice()
    }

    /// Returns the counts of the flows, in the same order.
    pub(crate) fn flows(&self) -> &[Flow]
        ensures { result.now ≡ self.now.flows.items }
    {
        self.flows.as_slice()
    }

    /// Returns the key and the counts of the flow at a place, if there is one.
    pub(crate) fn flow(&self, place: usize) -> Option<(FlowKey, &Flow)>
        ensures key { option_map (λ f. f.0) result ≡ slice_get self.now.keys.items place }
        ensures flow { option_map (λ f. f.1.now) result ≡ slice_get self.now.flows.items place }
    {
        Some((*self.keys.get(place)?, self.flows.get(place)?))
    }

    /// Returns the place of a flow, if it is in the table.
    pub(crate) fn index_of(&self, key: &FlowKey) -> Option<usize> {
        place_of(self.keys(), key)
    }

    /// Returns the number of packets of flows that have no space in the table.
    pub(crate) fn untracked(&self) -> u64
        ensures { result ≡ self.now.untracked }
    {
        self.untracked
    }

    /// Returns the number of UDP packets that are cut, fragments or no RTP.
    pub(crate) fn not_rtp(&self) -> u64
        ensures { result ≡ self.now.not_rtp }
    {
        self.not_rtp
    }

    /// Returns the fault at which the capture ended, if it has one.
    pub fn fault(&self) -> Option<CaptureFault>
        ensures { result ≡ self.now.fault }
    {
        self.fault
    }

    /// Returns the longest step back of the capture's time if it is longer than a second, or else the longest step
    /// forward if it is longer than `gap` seconds. Each counts from the latest time of a UDP packet before it.
    pub fn time_jump(&self, gap: u64) -> Option<TimeJump>
        ensures { result ≡ jump_of (table_view self.now).times gap }
    {
        self.times.jump(gap)
    }
}

/// Returns the place of a flow, if it is in the table.
fn place_of(keys: &[FlowKey], key: &FlowKey) -> Option<usize>
    ensures { result ≡ position (same_flow key.now) keys.now }
{
    keys.iter().position(|other| key.is_same(other))
}
