//! The configuration of an import, which is read back before it is written.
ghost use Rattle.std.specs.Prelude.{◌≡◌, ◌↔◌, ◌++◌, pos, [], IfOk, OnOk, IsTrue, string_bytes};
ghost use Rattle.gain_mix.specs.Gain.{rows_of};
ghost use Rattle.file_commands.specs.ImportedConfig.{
  IsImported,
  ReadsBack,
  imported_gains,
  imported_output,
  unit_gain,
  unit_gains,
  unit_row,
};

use crate::fault::{CaptureInputFault, CommandFault};
use gain_mix::Schedule;
use mix_packets::OutSpec;
use pcap_flows::CaptureConfig;
use rtp_stream::{Stream, StreamSpec};
use rtp_wire::Enc;
use std::alloc::{AllocError, Global};
use studio_config::{SpecErrorKind, StudioSpec, channel_total};

/// The gain 1, in units of 1/65,536.
const UNIT: i32 = 65_536;

/// The greatest number of channels of an output.
const MAX_OUTPUTS: usize = 8;

/// Returns the text of a configuration, if it reads back as the studio that it is for.
// The text is read by the same calls as in every other command. So no proof has to follow the grammar of TOML through a
// text with unknown numbers.
pub(crate) fn readable_text(alloc: Global, config: CaptureConfig) -> Result<String, CommandFault>
    ensures text { IfOk result (λ text. text ≡ config.text) }
    ensures back { IfOk result (λ text. ReadsBack (string_bytes text) config.streams.items config.frames) }
{
    let CaptureConfig {
        text,
        streams,
        frames,
    } = config;
    if reads_back(alloc, text.as_str(), streams.as_slice(), frames)? {
        return Ok(text);
    }
    Err(CommandFault::Capture(CaptureInputFault::NotReadBack))
}

/// Returns true if a text is the configuration of the studio of an import with these streams.
fn reads_back(
    alloc: Global,
    text: &str,
    streams: &[Stream],
    frames: u16,
) -> Result<bool, AllocError>
    ensures { IfOk result (λ reads. IsTrue reads → ReadsBack text.now streams.now frames) }
{
    let table = match toml::table_from_str(alloc, text) {
        Ok(table) => table,
        Err(error) if error.is_memory() => return Err(AllocError),
        Err(_) => return Ok(false),
    };
    match StudioSpec::from_table(alloc, &table) {
        Ok(studio) => is_imported(alloc, &studio, streams, frames),
        Err(error) if error.kind == SpecErrorKind::Memory => Err(AllocError),
        Err(_) => Ok(false),
    }
}

/// Returns true if a studio is what an import with these streams describes.
fn is_imported(
    alloc: Global,
    studio: &StudioSpec,
    streams: &[Stream],
    frames: u16,
) -> Result<bool, AllocError>
    ensures { IfOk result (λ is. IsTrue is → IsImported studio.now streams.now frames) }
{
    if studio.open_at() != 0 || !are_same(studio.streams(), streams) {
        return Ok(false);
    }
    let inputs = channel_total(studio.streams());
    let channels = inputs.min(MAX_OUTPUTS);
    if !is_imported_output(studio.output(), channels, frames) {
        return Ok(false);
    }
    has_unit_gains(alloc, studio.schedule(), channels, inputs)
}

/// Returns true if streams are what these parts describe, in this order.
fn are_same(streams: &[StreamSpec], parts: &[Stream]) -> bool
    ensures { IsTrue result → streams.now ≡ parts.now }
{
    let Some((stream, later)) = streams.split_first() else {
        return parts.is_empty();
    };
    match parts.split_first() {
        Some((first, others)) => is_same(stream, first) && are_same(later, others),
        None => false,
    }
}

/// Returns true if a stream is what these parts describe.
#[tactic(auto, using(crate::proofs::ImportedConfigLemmas::same_stream))]
fn is_same(stream: &StreamSpec, parts: &Stream) -> bool
    ensures { IsTrue result → stream.now ≡ parts.now }
{
    has_packets(stream, parts) && has_reception(stream, parts)
}

/// Returns true if a stream has the packets of these parts.
fn has_packets(stream: &StreamSpec, parts: &Stream) -> bool
    ensures enc { IsTrue result → stream.now.enc ≡ parts.now.enc }
    ensures channels { IsTrue result → stream.now.channels ≡ parts.now.channels }
    ensures frames { IsTrue result → stream.now.frames ≡ parts.now.frames }
    ensures pt { IsTrue result → stream.now.pt ≡ parts.now.pt }
{
    stream.enc() == parts.enc
        && stream.channels() == parts.channels
        && stream.frames() == parts.frames
        && stream.pt() == parts.pt
}

/// Returns true if a stream has the source, the clock, the times and the paths of these parts.
fn has_reception(stream: &StreamSpec, parts: &Stream) -> bool
    ensures ssrc { IsTrue result → stream.now.ssrc ≡ parts.now.ssrc }
    ensures clock { IsTrue result → stream.now.clock ≡ parts.now.clock }
    ensures latency { IsTrue result → stream.now.latency ≡ parts.now.latency }
    ensures window { IsTrue result → stream.now.window ≡ parts.now.window }
    ensures paths { IsTrue result → stream.now.paths ≡ parts.now.paths }
{
    stream.ssrc() == parts.ssrc
        && stream.clock() == parts.clock
        && stream.latency() == parts.latency
        && stream.window() == parts.window
        && stream.paths() == parts.paths
}

/// Returns true if an output is the one of an import, with this many channels.
fn is_imported_output(output: &OutSpec, channels: usize, frames: u16) -> bool
    ensures { IsTrue result ↔ (output.now ≡ record {
      enc = Enc.L24;
      channels = channels;
      frames = frames;
      pt = 97;
      ssrc = 1;
      seq0 = 0;
      start = pos 0;
      offset = 0;
    }) }
{
    let has_packets = output.enc() == Enc::L24
        && usize::from(output.channels()) == channels
        && output.frames() == frames
        && output.pt() == 97;
    let has_numbers = output.ssrc() == 1 && output.seq0() == 0;
    has_packets && has_numbers && output.start() == 0 && output.offset() == 0
}

/// Returns true if gains never change, and pass on to each of this many outputs its own input alone, unchanged.
fn has_unit_gains(
    alloc: Global,
    schedule: &Schedule,
    outputs: usize,
    inputs: usize,
) -> Result<bool, AllocError>
    ensures { IfOk result (λ has. IsTrue has → schedule.now ≡ record {
      first = rows_of inputs outputs (unit_gains outputs inputs);
      later = [];
    }) }
{
    let gains = schedule.first();
    if !schedule.later().is_empty() || gains.outs() != outputs || gains.ins() != inputs {
        return Ok(false);
    }
    let wanted = unit_gains(alloc, outputs, inputs)?;
    if gains.gains() != wanted.as_slice() {
        return Ok(false);
    }
    Ok(true)
}

/// Returns gains that pass on to each of this many outputs its own input alone, unchanged.
fn unit_gains(alloc: Global, outputs: usize, inputs: usize) -> Result<Vec<i32>, AllocError>
    ensures { IfOk result (λ gains. gains.items ≡ unit_gains outputs inputs) }
{
    let mut gains = Vec::new(alloc);
    for output in 0..outputs {
        push_unit_row(&mut gains, output, inputs)?;
    }
    Ok(gains)
}

/// Appends the gains of an output from this many inputs.
fn push_unit_row(gains: &mut Vec<i32>, output: usize, inputs: usize) -> Result<(), AllocError>
    ensures { OnOk result (gains.new.items ≡ gains.old.items ++ unit_row output inputs) }
{
    for input in 0..inputs {
        gains.push(if input == output { UNIT } else { 0 })?;
    }
    Ok(())
}
