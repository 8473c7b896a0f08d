//! The observer of a replay that tracks what the streams of a chart receive.
ghost use Rattle.std.specs.Prelude.{⊤};

use pcap_replay::ReplayObserver;
use reception_chart::{Extent, PanelData, ReceptionObserver, StudioTracker};
use rtp_stream::Path;
use std::alloc::{AllocError, Global};
use studio_config::StudioSpec;

/// The trackers of a chart's streams. The first pass over a capture measures, and the second fills the panels.
#[derive(Drop)]
pub(crate) struct ChartObserver<O> {
    pub(crate) streams: StudioTracker<O>,
}

impl ChartObserver<Extent> {
    /// Returns the observer of the second pass, over what the first measured.
    pub(crate) fn for_drawing(
        &self,
        alloc: Global,
        studio: &StudioSpec,
    ) -> Result<ChartObserver<PanelData>, AllocError> {
        Ok(ChartObserver {
            streams: self.streams.for_drawing(alloc, studio)?,
        })
    }
}

impl<O: ReceptionObserver + Drop> ReplayObserver for ChartObserver<O> {
    // Contracts follow the WAV files alone. The chart is outside them.
    ghost heard = { λ _ _ _ _. ⊤ };

    fn arrived(&mut self, stream: usize, path: Path, octets: &[u8]) {
        self.streams.arrived(stream, path, octets);
    }

    fn read(&mut self, time: i64) {
        self.streams.read(time);
    }

    fn closed(&mut self) {
        self.streams.closed();
    }

    fn output(&mut self, _datagram: &[u8]) {}
}
