//! The configuration that fits a capture's trace: its text, and the parts that the text is to describe.
use crate::fault::ImportFault;
use crate::import::stream_plan::{StreamPlan, stream_plans};
use crate::routes::Routes;
use crate::table::FlowTable;
use rtp_stream::{Stream, StreamClock};
use std::alloc::{AllocError, Global};

/// The greatest number of channels of an output.
const MAX_OUTPUTS: usize = 8;

/// The greatest length of a datagram's payload, in octets.
const MAX_PAYLOAD: usize = 1440;

/// A configuration that fits a capture's trace.
#[derive(Drop)]
pub struct CaptureConfig {
    /// The text of the configuration, in TOML.
    pub text: String,
    /// The streams that the text is to describe.
    pub streams: Vec<Stream>,
    /// The output's sampling instants per packet that the text is to describe.
    pub frames: u16,
}

/// Returns the configuration for the trace of these routes: each stream with an offset by which its first packet is in
/// time, or with the clock that follows its sender if capture time less timestamp moved by more than the latency; and
/// an output of the first channels of all streams, at most 8, unchanged. `latency` is in milliseconds; if it
/// is none, a stream's latency is twice the greatest skew of its paths, and at least 10 ms. `octets` is the capture,
/// and `table` has its flows. Returns an error if a stream has no format or no window, or an allocation fails.
pub fn config_for(
    alloc: Global,
    table: &FlowTable,
    octets: &[u8],
    routes: &Routes,
    latency: Option<u32>,
) -> Result<CaptureConfig, ImportFault> {
    let plans = stream_plans(alloc, table, octets, routes, latency)?;
    let streams = streams_of(alloc, plans.as_slice())?;
    let channels = input_total(streams.as_slice());
    let frames = frames_for(streams.as_slice(), channels.min(MAX_OUTPUTS));
    let mut text = head_of(alloc, plans.as_slice(), latency.is_none())?;
    push_output(&mut text, alloc, channels, frames)?;
    Ok(CaptureConfig {
        text,
        streams,
        frames,
    })
}

/// Returns the streams of plans.
fn streams_of(alloc: Global, plans: &[StreamPlan]) -> Result<Vec<Stream>, AllocError> {
    let mut streams = Vec::with_capacity(alloc, plans.len())?;
    for plan in plans.iter() {
        streams.push(plan.stream)?;
    }
    Ok(streams)
}

/// Returns the text up to the output: that of the streams, with a comment if their latencies were chosen.
fn head_of(alloc: Global, plans: &[StreamPlan], is_chosen: bool) -> Result<String, AllocError> {
    let mut text = String::from_str(alloc, "open_at = 0\n")?;
    if is_chosen {
        text.push_str(
            "# latency: twice the greatest skew between the paths, and 10 ms at least\n",
        )?;
    }
    for plan in plans.iter() {
        push_stream(&mut text, alloc, plan)?;
    }
    Ok(text)
}

/// Appends the table of a stream.
fn push_stream(text: &mut String, alloc: Global, plan: &StreamPlan) -> Result<(), AllocError> {
    let stream = plan.stream;
    let (enc, channels, frames, pt) = (
        stream.enc.name(),
        stream.channels,
        stream.frames,
        stream.pt,
    );
    let (latency, window, paths) = (stream.latency, stream.window, stream.paths);
    let packets = format!(in alloc;
        "[[stream]]\nencoding = \"{enc}\"\nchannels = {channels}\nframes = {frames}\npt = {pt}\n"
    )?;
    text.push_str(&packets)?;
    push_clock(text, alloc, plan)?;
    let times = format!(in alloc; "latency = {latency}\nwindow = {window}\npaths = {paths}\n")?;
    text.push_str(&times)
}

/// Appends the clock of a stream: that of its media with an offset, or the one that follows its sender, and why.
fn push_clock(text: &mut String, alloc: Global, plan: &StreamPlan) -> Result<(), AllocError> {
    if let StreamClock::Media { offset } = plan.stream.clock {
        let clock = format!(in alloc; "clock = \"media\"\noffset = {offset}\n")?;
        return text.push_str(&clock);
    }
    let (ms, (seconds, ppm)) = (plan.times.moved() / 48, plan.times.rate());
    let reason = format!(in alloc;
        "# capture time less timestamp moved by {ms} ms, more than the latency; from first to last {ppm} ppm in {seconds} s\n"
    )?;
    text.push_str(&reason)?;
    text.push_str("clock = \"follow\"\n")
}

/// Returns the number of channels that streams have together, which is the number of inputs of the gains.
fn input_total(streams: &[Stream]) -> usize {
    let mut inputs = 0usize;
    for stream in streams.iter() {
        inputs = inputs.saturating_add(usize::from(stream.channels));
    }
    inputs
}

/// Appends the table of the output. Its channels are the first of this many inputs.
fn push_output(
    text: &mut String,
    alloc: Global,
    inputs: usize,
    frames: u16,
) -> Result<(), AllocError> {
    let channels = inputs.min(MAX_OUTPUTS);
    let start = format!(in alloc;
        "[output]\nencoding = \"L24\"\nchannels = {channels}\nframes = {frames}\npt = 97\n"
    )?;
    text.push_str(&start)?;
    text.push_str("ssrc = 1\nseq = 0\nstart = 0\ngains = [\n")?;
    for output in 0..channels {
        push_row(text, output, inputs)?;
    }
    text.push_str("]\n")
}

/// Returns the first stream's sampling instants per packet, or 48 if that many don't fit a packet of an output with
/// this many channels.
fn frames_for(streams: &[Stream], channels: usize) -> u16 {
    match streams.first() {
        Some(stream)
            if channels
                .saturating_mul(3)
                .saturating_mul(usize::from(stream.frames))
                <= MAX_PAYLOAD => { stream.frames }
        // 8 channels of L24 then take 1,152 octets.
        _ => 48,
    }
}

/// Appends the gains of an output channel: 1 for the input with its number, and 0 for the others.
fn push_row(text: &mut String, output: usize, inputs: usize) -> Result<(), AllocError> {
    text.push_str("    [")?;
    for input in 0..inputs {
        if input > 0 {
            text.push_str(", ")?;
        }
        text.push_str(if input == output { "65536" } else { "0" })?;
    }
    text.push_str("],\n")
}
