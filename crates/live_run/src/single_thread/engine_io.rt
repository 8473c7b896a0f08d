//! The feeds, the clock, the sink and the wait of a run in one thread.
ghost use Rattle.std.specs.Prelude.{◌≡◌, None, true, IfOk, IfErr};
ghost use Rattle.run_outputs.specs.Ends.{AreEndsIn};
ghost use Rattle.live_run.specs.RunResult.{IsEarly, IsRunWith};

use crate::context::RunTiming;
use crate::fault::LiveFault;
use crate::run_end::RunEnd;
use crate::single_thread::observer::LiveObserver;
use crate::single_thread::socket_wait::SocketWait;
use engine_run::{RunDevices, run_engine};
use live_io::{FeedFlags, Sockets, SystemClock, TimelySink, UdpFeed, UdpSink, udp_feeds};
use live_status::Meter;
use run_outputs::{EventOutput, MixOutput, OutputEnds, OutputSink};
use std::alloc::{AllocError, Global};
use std::io::Write;
use std::sync::Wait;
use std::time::Clock;
use studio_config::StudioSpec;
use studio_io::{GainSource, MixedBlock, SendAnswer, Sink};

/// The feeds, the clock, the sink and the wait of a run in one thread.
#[derive(Drop)]
pub(crate) struct EngineDevices<'a, R: Wait + Clock, M> {
    feeds: Vec<UdpFeed<'a, R>>,
    clock: SystemClock<'a, R>,
    sink: MeteredSink<'a, OutputSink<TimelySink<'a, UdpSink<'a>, SystemClock<'a, R>>, M>>,
    wait: SocketWait<'a, R>,
}

/// The settings of these devices.
#[derive(Clone, Copy)]
pub(crate) struct IoSettings<'a> {
    /// When the run begins and ends, and when its copies are sent.
    pub(crate) timing: RunTiming,
    /// The flags that the feeds share with the wait and with the supervisor.
    pub(crate) flags: FeedFlags<'a>,
    /// The meter of the mix. `None` if there is no page.
    pub(crate) meter: Option<&'a Meter>,
    /// True if the gains can be changed while the run goes on.
    pub(crate) is_controlled: bool,
}

/// A sink with a meter, if there is one.
#[derive(Drop)]
struct MeteredSink<'a, K> {
    /// The sink that sends.
    sink: K,
    /// The meter. `None` if there is no page.
    meter: Option<&'a Meter>,
}

impl<K> MeteredSink<'_, K> {
    /// Measures a datagram of the mix, if there is a meter.
    fn measure(&self, datagram: &[u8]) {
        if let Some(meter) = self.meter {
            meter.measure(datagram);
        }
    }
}

impl<K: Sink> Sink for MeteredSink<'_, K> {
    ghost handed = { λ sink. K.handed sink.sink };

    ghost answered = { λ sink. K.answered sink.sink };

    fn send(&mut self, datagram: &[u8]) -> SendAnswer {
        // Measured after it was sent, so that the meter does not delay the datagram.
        let answer = self.sink.send(datagram);
        self.measure(datagram);
        answer
    }

    fn send_block(&mut self, datagram: &[u8], block: &MixedBlock<'_>) -> SendAnswer {
        let answer = self.sink.send_block(datagram, block);
        self.measure(datagram);
        answer
    }
}

/// Returns the feeds of these sockets, and the clock, the sink and the wait of a studio's run. The sink passes the mix
/// to `mix` too. Returns `AllocError` if an allocation fails.
pub(crate) fn prepare_engine_io<'a, R: Wait + Clock, M: MixOutput>(
    rt: &'a R,
    alloc: Global,
    studio: &StudioSpec,
    sockets: Sockets<'a>,
    mix: M,
    settings: IoSettings<'a>,
) -> Result<EngineDevices<'a, R, M>, AllocError> {
    let IoSettings {
        timing: RunTiming { period, late },
        flags,
        meter,
        is_controlled,
    } = settings;
    let Sockets { receiving, sink } = sockets;
    let clock = period.clock(rt);
    // The wait takes the descriptors before the feeds take the sockets.
    let receivers = receiving.as_slice();
    let wait = SocketWait::new(rt, alloc, studio, receivers, flags, clock, is_controlled)?;
    let feeds = udp_feeds(rt, alloc, receiving, period, flags)?;
    let sink = TimelySink::new(alloc, sink, period.clock(rt), late, flags.health)?;
    Ok(EngineDevices {
        feeds,
        clock: period.clock(rt),
        sink: MeteredSink {
            sink: OutputSink::new(sink, mix),
            meter,
        },
        wait,
    })
}

impl<R: Wait + Clock, M: MixOutput> EngineDevices<'_, R, M> {
    /// Runs an engine with this observer and this source of gains. Returns its report, and why its outputs ended.
    pub(crate) fn run<E: Write + Drop, V: EventOutput, G: GainSource>(
        self,
        rt: &R,
        alloc: Global,
        studio: &StudioSpec,
        observer: LiveObserver<'_, E, V>,
        gains: G,
    ) -> Result<RunEnd, LiveFault>
        ensures run { IfOk result (λ end. (after : G)
            × IsRunWith true studio.now end.report (G.taken gains) (G.taken after)) }
        ensures ends { IfOk result (λ end. AreEndsIn true V.ended M.ended end.outputs) }
        ensures early { IfErr result IsEarly }
    {
        let EngineDevices {
            feeds,
            clock,
            sink,
            wait,
        } = self;
        let devices = RunDevices {
            feeds,
            clock,
            sink,
            observer,
            wait,
            gains,
        };
        let (report, sink, observer, _gains) = run_engine(rt, alloc, studio, devices)?;
        let MeteredSink { sink, meter: _ } = sink;
        let (mut sink, mix) = sink.into_parts();
        sink.finish(rt);
        let outputs = OutputEnds::of_parts(observer.outputs(), &mix);
        Ok(RunEnd { report, outputs })
    }
}
