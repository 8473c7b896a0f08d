//! The status of an engine while its run goes on: snapshots of its counts, with the statistics of each path's copies.
ghost use Rattle.std.specs.Prelude.{
  ◌≡◌,
  ◌<◌,
  ◌≤◌,
  length,
  true,
  false,
  None,
  IfOk,
  IfSome,
  MatchBool,
  option_copied,
  slice_get,
};
ghost use Rattle.live_status.specs.Each.{AreEach};
ghost use Rattle.studio_engine.specs.Engine.{stream_deadline_of};
ghost use Rattle.live_status.specs.Engine.{AreEngineCounts, AreStatsOf, HasEngineCounts, HasEnginePathCounts};
ghost use Rattle.live_status.specs.EngineOffers.{IsNewTracker, Notes};
ghost use Rattle.live_status.specs.Publisher.{is_due_at};
ghost use Rattle.live_status.specs.EngineStatus.{IsEngineOutput, FillsEngineStream, FillsEngineStreamAt, ShowsEngine};

use crate::engine_offers::{copy_trackers, note_offer};
use crate::health::{HealthSource, fill_health};
use crate::meter::Meter;
use crate::publisher::StatusPublisher;
use crate::snapshot_fill::{fill_outputs, fill_stream};
use rtp_stats::{CopyTracker, MAX_CHANNELS, MixStats, StreamStats};
use rtp_stream::{Path, PathCounts, StreamSpec};
use status_page::{ChannelState, StreamState};
use std::alloc::{AllocError, Global};
use std::io::Write;
use studio_engine::Engine;
use studio_session::ArriveOutcome;

/// The publisher of an engine's status, with a copy tracker for each stream.
#[derive(Drop)]
pub struct EngineStatus<'a, E, H> {
    publisher: StatusPublisher<E>,
    /// The copy tracker of each stream.
    trackers: Vec<CopyTracker>,
    /// The meter of the mix, if there is one.
    meter: Option<&'a Meter>,
    /// The health of the run.
    health: H,
}

impl<'a, E: Write + Drop, H: HealthSource> EngineStatus<'a, E, H> {
    /// Returns the status of an engine of these streams, which was passed no datagram yet. Allocates all its memory,
    /// and returns `AllocError` if that fails.
    pub fn new(
        alloc: Global,
        streams: &[StreamSpec],
        publisher: StatusPublisher<E>,
        meter: Option<&'a Meter>,
        health: H,
    ) -> Result<EngineStatus<'a, E, H>, AllocError>
        ensures publisher { IfOk result (λ status. status.publisher ≡ publisher) }
        ensures trackers { IfOk result (λ status. AreEach IsNewTracker streams.now status.trackers.items) }
    {
        let trackers = copy_trackers(alloc, streams)?;
        Ok(EngineStatus {
            publisher,
            trackers,
            meter,
            health,
        })
    }

    /// Notes a datagram that was just passed to the engine, and the engine's result for it. Call it before the engine
    /// is passed anything else.
    pub fn note(&mut self, engine: &Engine, stream: usize, path: Path, outcome: ArriveOutcome)
        ensures noted { Notes outcome stream path
            (stream_deadline_of (slice_get engine.now.cursors stream)) engine.now.time
            self.old.trackers.items self.new.trackers.items }
        ensures publisher { self.new.publisher ≡ self.old.publisher }
    {
        // A datagram that was not offered to a merge has no fate: the engine's counts of its path show it.
        let ArriveOutcome::Offered(packet) = outcome else {
            return;
        };
        let due = engine.stream_deadline(stream);
        let trackers = self.trackers.as_mut_slice();
        note_offer(trackers, stream, path, packet, due, engine.time());
    }

    /// Publishes the engine's status, if a snapshot or lines are due by the engine's time.
    pub fn publish_if_due(&mut self, engine: &Engine)
        ensures shown { MatchBool (is_due_at self.old.publisher engine.now.time)
            (ShowsEngine engine.now self.old.trackers.items (H.says self.old.health) false
            self.old.publisher self.new.publisher)
            (self.new.publisher ≡ self.old.publisher) }
        ensures trackers { self.new.trackers ≡ self.old.trackers }
    {
        if self.publisher.is_due(engine.time()) {
            self.publish(engine, false);
        }
    }

    /// Publishes the status of an engine that was closed, as the last one.
    pub fn publish_last(&mut self, engine: &Engine)
        ensures shown { ShowsEngine engine.now self.old.trackers.items (H.says self.old.health) true
            self.old.publisher self.new.publisher }
        ensures trackers { self.new.trackers ≡ self.old.trackers }
    {
        self.publish(engine, true);
    }

    /// Publishes the engine's status.
    fn publish(&mut self, engine: &Engine, has_ended: bool)
        ensures shown { ShowsEngine engine.now self.old.trackers.items (H.says self.old.health) has_ended
            self.old.publisher self.new.publisher }
        ensures trackers { self.new.trackers ≡ self.old.trackers }
    {
        let mut snapshot = self.publisher.blank_snapshot();
        let streams = snapshot.streams.as_mut_slice();
        fill_streams(engine, self.trackers.as_slice(), streams);
        fill_engine_outputs(engine, self.meter, snapshot.outputs.as_mut_slice());
        fill_health(&self.health, &mut snapshot);
        self.publisher.publish(engine.time(), snapshot, has_ended);
    }
}

/// Fills in the streams of an engine.
fn fill_streams(engine: &Engine, trackers: &[CopyTracker], streams: &mut [StreamState])
    ensures { AreEach (FillsEngineStreamAt engine.now trackers.now) streams.old streams.new }
{
    for (number, stream) in streams.iter_mut().enumerate() {
        fill_engine_stream(engine, number, trackers.get(number), stream);
    }
}

/// Fills in a stream of an engine: its counts and its paths.
fn fill_engine_stream(
    engine: &Engine,
    number: usize,
    tracker: Option<&CopyTracker>,
    stream: &mut StreamState,
)
    ensures { FillsEngineStream engine.now (option_copied tracker.entry) number stream.old stream.new }
{
    let stats = engine_stats(engine, number, tracker);
    let counts = engine_path_counts(engine, number);
    fill_stream(&stats, &counts, stream);
}

/// Returns the statistics of a stream of an engine, or `None` if there is no such stream.
fn engine_stats(
    engine: &Engine,
    number: usize,
    tracker: Option<&CopyTracker>,
) -> Option<StreamStats>
    ensures whole { IfSome result (λ stats. HasEngineCounts engine.now number stats.counts) }
    ensures paths { IfSome result (AreStatsOf (option_copied tracker.entry) engine.now.time) }
    ensures none { result ≡ None → length engine.now.cursors ≤ number }
{
    let counts = engine.counts(number)?;
    match tracker {
        Some(tracker) => Some(tracker.stream_stats(counts, engine.time())),
        // Never for an engine of the streams that `new` had: each of them has a tracker.
        None => Some(StreamStats::of_counts(counts)),
    }
}

/// Returns the counts of the datagrams of each path of a stream; `None` if there is no such stream.
fn engine_path_counts(engine: &Engine, number: usize) -> [Option<PathCounts>; 4]
    ensures { AreEngineCounts engine.now number result }
{
    [
        engine_counts_at(engine, number, 0),
        engine_counts_at(engine, number, 1),
        engine_counts_at(engine, number, 2),
        engine_counts_at(engine, number, 3),
    ]
}

/// Returns the counts of the datagrams of the path with this number, 0 to 3, or `None` if there is no such stream.
fn engine_counts_at(engine: &Engine, number: usize, path: u8) -> Option<PathCounts>
    requires { path < 4 }
    ensures value { IfSome result (HasEnginePathCounts engine.now number path) }
    ensures none { result ≡ None → length engine.now.cursors ≤ number }
{
    match Path::new(path) {
        Some(path) => engine.path_counts(number, path),
        None => unreachable!(),
    }
}

/// Fills in the output channels of an engine: their saturated samples and, if there is a meter, their peaks.
fn fill_engine_outputs(engine: &Engine, meter: Option<&Meter>, outputs: &mut [ChannelState])
    ensures { AreEach (IsEngineOutput engine.now) outputs.old outputs.new }
{
    let peaks = match meter {
        Some(meter) => meter.take_peaks(),
        None => [0; MAX_CHANNELS],
    };
    fill_outputs(&MixStats::new(engine.saturated(), peaks), outputs);
}
