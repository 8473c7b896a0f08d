//! The specification of a studio: all that is fixed before the first packet.
ghost use Rattle.std.specs.Prelude.{◌≡◌, ◌^◌, ◌≤◌, pos, ◌≤ℤ◌, None, length};
ghost use Rattle.gain_mix.specs.Gain.{ins_of};
ghost use Rattle.studio_config.specs.Ports.{absent_rows};
ghost use Rattle.studio_config.specs.Networks.{absent_networks};
ghost use Rattle.studio_config.specs.Studio.{Studio, IsStudio, channel_total};
ghost use Rattle.studio_config.specs.declared.output_clock.OutputClock.TheVariants.{Run};

mod media;
mod shift;

use crate::networks::Networks;
use crate::output_clock::OutputClock;
use crate::ports::Ports;
use gain_mix::Schedule;
use mix_packets::OutSpec;
use rtp_stream::StreamSpec;
use std::marker::Model;

/// The streams of a studio, its output, the gains between them, and the ports and addresses that are known.
#[derive(Drop)]
pub struct StudioSpec {
    open_at: i64,
    streams: Vec<StreamSpec>,
    output: OutSpec,
    clock: OutputClock,
    schedule: Schedule,
    ports: Ports,
    networks: Networks,
    /// The delay of the output's copies in which a stream is missing, in sampling instants.
    late: u16,
}

impl Model for StudioSpec {
    ghost use Rattle.studio_config.specs.Studio.{Studio, IsStudio};

    ghost Value = { Studio };

    ghost view = { λ s. record { open_at = s.open_at; streams = s.streams.items; output = s.output; clock = s.clock; schedule = s.schedule; ports = s.ports; networks = s.networks; late = s.late } };

    ghost invariant = { λ s. IsStudio (view s) };
}

impl StudioSpec {
    /// Returns a studio whose merges open at `open_at`, in sampling instants at 48 kHz, with its output by the clock of
    /// the run and its copies sent at once, and with no known port or address.
    pub fn new(
        open_at: i64,
        streams: Vec<StreamSpec>,
        output: OutSpec,
        schedule: Schedule,
    ) -> StudioSpec
        requires not_low { pos 0 ≤ℤ open_at }
        requires not_high { open_at ≤ℤ pos (2 ^ 60) }
        requires some { 1 ≤ length streams.items }
        requires few { length streams.items ≤ 16 }
        requires outs { length schedule.first ≡ output.channels }
        requires ins { ins_of schedule.first ≡ channel_total streams.items }
        ensures { result ≡ record { open_at = open_at; streams = streams.items; output = output; clock = Run; schedule = schedule; ports = record { paths = absent_rows 16; to_a = None; to_b = None }; networks = absent_networks; late = 0 } }
    {
        StudioSpec {
            open_at,
            streams,
            output,
            clock: OutputClock::Run,
            schedule,
            ports: Ports::absent(),
            networks: Networks::absent(),
            late: 0,
        }
    }

    /// Returns the studio with these ports.
    pub fn with_ports(mut self, ports: Ports) -> StudioSpec
        ensures { result ≡ record self { ports = ports } }
    {
        self.ports = ports;
        self
    }

    /// Returns the studio with these addresses.
    pub fn with_networks(mut self, networks: Networks) -> StudioSpec
        ensures { result ≡ record self { networks = networks } }
    {
        self.networks = networks;
        self
    }

    /// Returns the studio with this clock of its output, which says how the output moves with the opening. The output
    /// stays as it is: `by_media_clock` aligns it.
    pub fn with_output_clock(mut self, clock: OutputClock) -> StudioSpec
        ensures { result ≡ record self { clock = clock } }
    {
        self.clock = clock;
        self
    }

    /// Returns the studio whose output's copies wait for this many sampling instants more if one stream is missing in
    /// them, and twice as long if more are. With 0 none waits.
    pub fn with_late(mut self, late: u16) -> StudioSpec
        ensures { result ≡ record self { late = late } }
    {
        self.late = late;
        self
    }

    /// Returns the time at which the merges open, in sampling instants.
    pub fn open_at(&self) -> i64
        ensures value { result ≡ self.now.open_at }
        ensures sound { IsStudio self.now }
    {
        self.open_at
    }

    /// Returns the streams.
    pub fn streams(&self) -> &[StreamSpec]
        ensures value { result.now ≡ self.now.streams }
        ensures sound { IsStudio self.now }
    {
        self.streams.as_slice()
    }

    /// Returns the output.
    pub fn output(&self) -> &OutSpec
        ensures { result.now ≡ self.now.output }
    {
        &self.output
    }

    /// Returns the clock of the output.
    pub fn output_clock(&self) -> OutputClock
        ensures { result ≡ self.now.clock }
    {
        self.clock
    }

    /// Returns for how many sampling instants a copy of the output waits in which one stream is missing. With 0 none
    /// waits.
    pub fn late(&self) -> u16
        ensures { result ≡ self.now.late }
    {
        self.late
    }

    /// Returns the gains and their changes.
    pub fn schedule(&self) -> &Schedule
        ensures { result.now ≡ self.now.schedule }
    {
        &self.schedule
    }

    /// Returns the known ports.
    pub fn ports(&self) -> &Ports
        ensures { result.now ≡ self.now.ports }
    {
        &self.ports
    }

    /// Returns the known addresses.
    pub fn networks(&self) -> &Networks
        ensures { result.now ≡ self.now.networks }
    {
        &self.networks
    }
}
