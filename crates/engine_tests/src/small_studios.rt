//! Small studios: streams of one channel, added into one channel.
use gain_mix::{Matrix, Schedule};
use mix_packets::OutSpec;
use rtp_stream::{SpecFault, StreamClock, StreamSpec};
use rtp_wire::Enc;
use std::alloc::Global;
use studio_config::{StudioSpec, channel_total};

/// Returns a stream of one channel of L24, by the media clock, with a window of eight packets. `frames` and `latency`
/// are in sampling instants at 48 kHz.
pub fn stream(frames: u16, latency: u32, paths: u8) -> Result<StreamSpec, SpecFault> {
    let clock = StreamClock::Media { offset: 0 };
    StreamSpec::new(Enc::L24, 1, frames, 96, None, clock, latency, 8, paths)
}

/// Returns the studio that adds the streams at gain 1 into one channel of L24, in packets of `frames` sampling
/// instants. The first datagram has sequence number 65,535. Returns `None` if an allocation fails, if there are no
/// streams or more than 16, or if no output has packets of this length.
pub fn sum_of(alloc: Global, specs: &[StreamSpec], frames: u16) -> Option<StudioSpec> {
    sum_from(alloc, specs, frames, 65_535)
}

/// Returns the studio of `sum_of`, whose first datagram has this sequence number.
pub fn sum_from(alloc: Global, specs: &[StreamSpec], frames: u16, seq0: u16) -> Option<StudioSpec> {
    if specs.is_empty() || specs.len() > 16 {
        return None;
    }
    let output = OutSpec::new(Enc::L24, 1, frames, 97, 2, seq0, 0, 0).ok()?;
    let ins = channel_total(specs);
    let streams = Vec::from_slice(alloc, specs).ok()?;
    let schedule = gain_of_one(alloc, ins)?;
    // Never, but `StudioSpec::new` requires equal shapes, which no clause of `gain_of_one` states.
    if schedule.outs() != usize::from(output.channels()) || schedule.ins() != ins {
        return None;
    }
    Some(StudioSpec::new(0, streams, output, schedule))
}

/// Returns a schedule of gain 1 from each of `ins` inputs to one output, without changes.
fn gain_of_one(alloc: Global, ins: usize) -> Option<Schedule> {
    let matrix = row_of_ones(alloc, ins)?;
    Schedule::new(matrix, Vec::new(alloc)).ok()
}

/// Returns a matrix of gain 1 from each of `ins` inputs to one output.
fn row_of_ones(alloc: Global, ins: usize) -> Option<Matrix> {
    let gains = vec![in alloc; 65_536; ins].ok()?;
    Matrix::new(alloc, 1, ins, &gains).ok()
}

/// Returns a studio that adds two streams into packets of 48 sampling instants: one of 6 sampling instants a packet and
/// one of 48, each on `paths` paths. Returns `None` if an allocation fails.
pub fn six_and_forty_eight(alloc: Global, paths: u8) -> Option<StudioSpec> {
    let specs = [stream(6, 12, paths).ok()?, stream(48, 48, paths).ok()?];
    sum_of(alloc, &specs, 48)
}
