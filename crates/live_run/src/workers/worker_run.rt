//! The ends of the rings, the feeds, the clocks and the sink of a run's workers.
ghost use Rattle.std.specs.Prelude.{◌≡◌, [], false, is_some, length, IfOk, IfErr};
ghost use Rattle.studio_rings.specs.StreamResults.{AreOpenedTogether};
ghost use Rattle.run_outputs.specs.Ends.{HasMixEnds};
ghost use Rattle.live_run.specs.RingPlaces.{ring_places};
ghost use Rattle.live_run.specs.RunResult.{IsEarly, IsRunOf, IsRunWith};

use crate::context::RunTiming;
use crate::fault::LiveFault;
use crate::run_end::RunEnd;
use live_gains::RunGains;
use live_io::{
    FeedFlags, RunPeriod, Sockets, SystemClock, TimelySink, UdpFeed, UdpSink, udp_feeds,
};
use run_outputs::{MixOutput, NoOutput, OutputEnds, OutputSink};
use std::alloc::{AllocError, Global};
use std::sync::Wait;
use std::thread::Threads;
use std::time::Clock;
use studio_config::StudioSpec;
use studio_ends::Ends;
use studio_io::{GainSource, NoGains};
use studio_rings::WorkerDevices;

/// The ends of the rings, the feeds, the clocks and the sink of a run's workers.
#[derive(Drop)]
pub(crate) struct WorkerRun<'a, R: Clock, M> {
    pub(crate) ends: Ends,
    pub(crate) feeds: Vec<UdpFeed<'a, R>>,
    pub(crate) clocks: Vec<SystemClock<'a, R>>,
    sink: OutputSink<TimelySink<'a, UdpSink<'a>, SystemClock<'a, R>>, M>,
}

/// Returns the devices of the workers on these rings and sockets: a feed for each path, a clock for each stream, and
/// the sink, which passes the mix to `mix` too. Returns `AllocError` if an allocation fails.
pub(crate) fn prepare_workers<'a, R: Wait + Clock, M: MixOutput>(
    rt: &'a R,
    alloc: Global,
    ends: Ends,
    sockets: Sockets<'a>,
    mix: M,
    timing: RunTiming,
    flags: FeedFlags<'a>,
) -> Result<WorkerRun<'a, R, M>, AllocError>
    ensures ends { IfOk result (λ workers. workers.ends ≡ ends) }
    ensures feeds { IfOk result (λ workers. length workers.feeds.items ≡ length sockets.entry.receiving.items) }
    ensures clocks { IfOk result (λ workers. length workers.clocks.items ≡ length ends.streams.items) }
{
    let RunTiming { period, late } = timing;
    let Sockets { receiving, sink } = sockets;
    let clocks = clocks_of(rt, alloc, ends.streams.len(), period)?;
    let feeds = udp_feeds(rt, alloc, receiving, period, flags)?;
    let sink = TimelySink::new(alloc, sink, period.clock(rt), late, flags.health)?;
    Ok(WorkerRun {
        ends,
        feeds,
        clocks,
        sink: OutputSink::new(sink, mix),
    })
}

/// Returns `count` clocks of a run.
fn clocks_of<R: Clock>(
    rt: &R,
    alloc: Global,
    count: usize,
    period: RunPeriod,
) -> Result<Vec<SystemClock<'_, R>>, AllocError>
    ensures { IfOk result (λ clocks. length clocks.items ≡ count) }
{
    let mut clocks = Vec::with_capacity(alloc, count)?;
    for _ in 0..count {
        clocks.push(period.clock(rt))?;
    }
    Ok(clocks)
}

/// Runs the workers of a studio, whose gains can be changed if there is a source. Returns the report once all have
/// ended, and why the outputs ended.
pub(crate) fn run_controlled<'a, R: Threads + Wait + Sync + Clock, M: MixOutput>(
    rt: &R,
    alloc: Global,
    studio: &StudioSpec,
    workers: WorkerRun<'a, R, M>,
    gains: Option<RunGains<'a, R>>,
) -> Result<RunEnd, LiveFault>
    requires opened { AreOpenedTogether studio.now (ring_places studio.now) workers.ends }
    requires feeds { length workers.feeds.items ≡ length workers.ends.paths.items }
    requires clocks { length workers.clocks.items ≡ length workers.ends.streams.items }
    ensures run { IfOk result (λ end. IsRunOf false (is_some gains.entry) studio.now end.report) }
    ensures ends { IfOk result (λ end. HasMixEnds M.ended end.outputs) }
    ensures early { IfErr result IsEarly }
{
    // Two calls, so that a run without control is proved to take no change.
    match gains {
        Some(gains) => workers.run(rt, alloc, studio, gains),
        None => workers.run(rt, alloc, studio, NoGains),
    }
}

impl<R: Threads + Wait + Sync + Clock, M: MixOutput> WorkerRun<'_, R, M> {
    /// Runs the workers of a studio with this source of gains. Returns the report once all have ended, and why the
    /// outputs ended.
    fn run<G: GainSource>(
        self,
        rt: &R,
        alloc: Global,
        studio: &StudioSpec,
        gains: G,
    ) -> Result<RunEnd, LiveFault>
        requires opened { AreOpenedTogether studio.now (ring_places studio.now) self.ends }
        requires feeds { length self.feeds.items ≡ length self.ends.paths.items }
        requires clocks { length self.clocks.items ≡ length self.ends.streams.items }
        ensures run { IfOk result (λ end. (after : G)
            × IsRunWith false studio.now end.report (G.taken gains) (G.taken after)) }
        ensures ends { IfOk result (λ end. HasMixEnds M.ended end.outputs) }
        ensures early { IfErr result IsEarly }
    {
        // Called for its contract alone, which says that the studio is sound: the proof of this function needs that.
        let _open_at = studio.open_at();
        let WorkerRun {
            ends,
            feeds,
            clocks,
            sink,
        } = self;
        let devices = WorkerDevices {
            feeds,
            clocks,
            sink,
            gains,
        };
        let (report, sink, _gains) = devices.run(rt, alloc, ends)?;
        // A run by workers passes no events to its outputs.
        let (mut sink, mix) = sink.into_parts();
        sink.finish(rt);
        let outputs = OutputEnds::of_parts(&NoOutput, &mix);
        Ok(RunEnd { report, outputs })
    }
}
