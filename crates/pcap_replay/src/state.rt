//! The state of a replay.
ghost use Rattle.std.specs.Prelude.{◌≤◌};
ghost use Rattle.mix_packets.specs.OutSpec.{datagram_length};

use pcap_flows::CaptureClock;
use studio_engine::Engine;
use studio_run::TextBuffer;

/// A replay between two packets: its engine and clock, and the text that is not written yet.
#[derive(Drop)]
pub(crate) struct ReplayState {
    pub(crate) engine: Engine,
    pub(crate) clock: CaptureClock,
    /// The number of events so far, which is the place of the next in a fault.
    pub(crate) count: usize,
    /// The number of changes of gains so far.
    pub(crate) changes: u64,
    pub(crate) text: TextBuffer,
    pub(crate) ghost short: { datagram_length engine.mixer.packer.spec ≤ 1452 },
}
