//! The routing of a capture's datagrams to paths, with the origin of its clock readings.
ghost use Rattle.std.specs.Prelude.{◌≡◌, ℕ, List, [], Some, true, false, IfOk, IfErr, OnOk};
ghost use Rattle.pcap_file.specs.Entries.{Entry};
ghost use Rattle.pcap_file.specs.ReadBuffer.{octets_of};
ghost use Rattle.pcap_file.specs.Reader.{HasReturned, IsLong, IsNext};
ghost use Rattle.pcap_replay.specs.Replay.{EndsAt};
ghost use Rattle.pcap_replay.specs.Routing as spec;
ghost use Rattle.pcap_file.specs.Packet.{packet_view};
ghost use Rattle.pcap_replay.specs.Routing.{clock_before, closing_of, longest_of, opening_of, plan_view, role_of};

use crate::changes::RecordedChanges;
use pcap_file::{BlockParser, Packet, ReadBuffer, ReaderFault, has_block, has_whole_block};
use pcap_flows::{CaptureClock, Route, route_in};
use rtp_stream::StreamSpec;
use std::io::Read;

/// The rule by which packets get paths and times.
#[derive(Clone, Copy)]
pub(crate) enum Routing<'a> {
    /// A packet's flow has a route, and readings count from the first packet's time.
    Flows(&'a [Route]),
    /// A packet's interface is the place of its path among those of all streams, or the one behind them, of changes of
    /// gains. Readings count from the opening.
    Interfaces {
        streams: &'a [StreamSpec],
        /// The time of the opening, in sampling instants at 48 kHz.
        open_at: u64,
        changes: RecordedChanges,
        /// The longest step of the clock that is no fault, in sampling instants.
        longest: u64,
    },
}

/// The rule by which the time of a packet or of the close becomes a clock reading.
#[derive(Clone, Copy)]
pub(crate) struct ReadingRule {
    /// The time from which readings count, in sampling instants at 48 kHz.
    pub(crate) from: u64,
    /// The longest step that is no fault, in sampling instants.
    pub(crate) longest: u64,
    /// The number of octets before the record or block with the time.
    pub(crate) place: usize,
}

/// A path of a stream, by the numbers of both, from 0.
#[derive(Clone, Copy)]
pub(crate) struct StreamPath {
    pub(crate) stream: usize,
    pub(crate) path: u8,
}

/// The part of a packet in a replay.
#[derive(Clone, Copy)]
pub(crate) enum PacketRole {
    /// Nothing: it is passed over.
    Passed,
    /// A datagram of a path.
    Arrival(StreamPath),
    /// A change of gains.
    Change,
}

impl Routing<'_> {
    /// Returns what a packet is.
    pub(crate) fn role(&self, packet: &Packet<'_>) -> PacketRole
        ensures { result ≡ role_of (plan_view self.now) (packet_view packet.now) }
    {
        match self {
            Routing::Flows(routes) => match route_in(routes, packet) {
                Some(route) => PacketRole::Arrival(path_of_route(&route)),
                None => PacketRole::Passed,
            },
            Routing::Interfaces {
                streams,
                changes,
                ..
            } => role_at(*changes, streams, packet.interface),
        }
    }

    /// Returns the time from which readings count, in sampling instants at 48 kHz.
    pub(crate) fn opening(&self) -> u64
        ensures { result ≡ opening_of (plan_view self.now) }
    {
        match self {
            Routing::Flows(_) => 0,
            Routing::Interfaces { open_at, .. } => *open_at,
        }
    }

    /// Returns the longest step of the clock that is no fault, in sampling instants. A capture that is no record has
    /// none: its times were tested before.
    pub(crate) fn longest_step(&self) -> u64
        ensures { result ≡ longest_of (plan_view self.now) }
    {
        match self {
            Routing::Flows(_) => u64::MAX,
            Routing::Interfaces { longest, .. } => *longest,
        }
    }

    /// Returns the time of the close by its mark, in nanoseconds. Only a record has one: statistics of another capture
    /// mean nothing for it.
    pub(crate) fn closing(&self, marked: Option<u64>) -> Option<u64>
        ensures { result ≡ closing_of (plan_view self.now) marked }
    {
        match self {
            Routing::Flows(_) => None,
            Routing::Interfaces { .. } => marked,
        }
    }

    /// Reads until the next record or block is whole, or the file ends. Returns true if one comes. A record ends before
    /// a block that the file's end cuts; in any other capture that is a fault, which `next_block` returns.
    pub(crate) fn has_next<R: Read>(
        &self,
        parts: &BlockParser,
        window: &mut ReadBuffer,
        reader: &mut R,
    ) -> Result<bool, ReaderFault>
        ensures returned { OnOk result ((file : List ℕ) (entries : List Entry)
            → HasReturned file entries (R.remaining reader.old) parts.now (octets_of window.old) window.old.ended
            → HasReturned file entries (R.remaining reader.new) parts.now (octets_of window.new) window.new.ended) }
        ensures next { IfOk result
            (λ some. some ≡ true → IsNext parts.now (octets_of window.new) window.new.ended) }
        ensures end { IfOk result (λ some. some ≡ false → (file : List ℕ) (entries : List Entry)
            → HasReturned file entries (R.remaining reader.old) parts.now (octets_of window.old) window.old.ended
            → EndsAt (plan_view self.now) file entries) }
        ensures fault { IfErr result (λ fault. IsLong fault) }
    {
        match self {
            Routing::Flows(_) => has_block(parts, window, reader),
            Routing::Interfaces { .. } => has_whole_block(parts, window, reader),
        }
    }

    /// Returns the clock before the first packet.
    pub(crate) fn clock(&self) -> CaptureClock
        ensures { result ≡ clock_before (plan_view self.now) }
    {
        let mut clock = CaptureClock::new();
        match self {
            Routing::Flows(_) => {}
            // A record's times count from the opening, so its clock begins at 0 and not at the first packet's time.
            Routing::Interfaces { .. } => clock.read(Some(0)),
        }
        clock
    }
}

impl RecordedChanges {
    /// Returns what a change of gains is by this rule.
    fn role(self) -> PacketRole
        ensures { result ≡ spec.role_by self }
    {
        match self {
            RecordedChanges::Taken => PacketRole::Change,
            RecordedChanges::Skipped => PacketRole::Passed,
        }
    }
}

/// Returns the path of a route.
fn path_of_route(route: &Route) -> StreamPath
    ensures { PacketRole.Arrival result ≡ spec.role_of_route (Some route.now) }
{
    StreamPath {
        stream: usize::from(route.stream),
        path: route.letter.saturating_sub(b'a'),
    }
}

/// Returns what a packet at a place among the paths of all streams is.
fn role_at(changes: RecordedChanges, streams: &[StreamSpec], place: u32) -> PacketRole
    ensures { result ≡ spec.role_at changes 0 streams.now place }
{
    let mut left = place;
    for number in 0..streams.len() {
        let paths = u32::from(streams[number].paths());
        if left < paths {
            return PacketRole::Arrival(StreamPath {
                stream: number,
                path: left as u8,
            });
        }
        left -= paths;
    }
    role_behind(changes, streams.len(), left)
}

/// Returns the role of a packet that is `left` places behind all paths, if `streams` streams have paths.
#[tactic(auto, unfolding(crate::specs::Routing::role_at))]
fn role_behind(changes: RecordedChanges, streams: usize, left: u32) -> PacketRole
    ensures { result ≡ spec.role_at changes streams [] left }
{
    if left == 0 {
        return changes.role();
    }
    // No stream has this number, so the arrival is a fault.
    PacketRole::Arrival(StreamPath {
        stream: streams,
        path: 0,
    })
}
