//! The packet format of a flow, as a stream can have it: linear PCM of 16 or 24 bits (RFC 3551, 4.5.11; RFC 3190, 4).
ghost use Rattle.std.specs.Prelude.{◌≡◌, ◌||◌, is_none, is_some, None};
ghost use Rattle.rtp_wire.specs.declared.encoding.Enc.TheVariants as enc;
ghost use Rattle.rtp_stream.specs.declared.stream_spec.StreamClock.TheVariants.{Media};
ghost use Rattle.rtp_stream.specs.StreamSpecFacts.{spec_fault_of};
ghost use Rattle.pcap_flows.specs.Flow.{flow_view};
ghost use Rattle.pcap_flows.specs.PacketFormat.{fit_of, has_format, is_format};

use crate::flow::Flow;
use crate::table::FlowTable;
use rtp_stream::{StreamClock, StreamSpec};
use rtp_wire::Enc;

/// The format of a stream's packets.
#[derive(Clone, Copy, PartialEq, Eq)]
pub(crate) struct PacketFormat {
    /// The encoding, L16 or L24.
    pub enc: Enc,
    /// The number of channels.
    pub channels: u8,
    /// The sampling instants of a packet.
    pub frames: u16,
    /// The payload type.
    pub pt: u8,
}

impl PacketFormat {
    /// Returns true if a stream can have this format, with a latency in sampling instants, a window in packets and a
    /// number of paths.
    pub(crate) fn is_stream(&self, latency: u32, window: u16, paths: u8) -> bool
        ensures { result ≡ is_none (spec_fault_of (record {
          enc = self.now.enc;
          channels = self.now.channels;
          frames = self.now.frames;
          pt = self.now.pt;
          ssrc = None;
          clock = Media 0;
          latency = latency;
          window = window;
          paths = paths;
        })) }
    {
        let clock = StreamClock::Media { offset: 0 };
        let (enc, channels, frames, pt) = (self.enc, self.channels, self.frames, self.pt);
        match StreamSpec::new(
            enc, channels, frames, pt, None, clock, latency, window, paths,
        ) {
            Ok(_) => true,
            Err(_) => false,
        }
    }
}

/// Returns the format that a flow's packets fit, if all have the same length and timestamp step. If both L24 and L16
/// fit, it is L24.
#[tactic(auto, unfolding(crate::specs::PacketFormat::has_format))]
pub(crate) fn format_of(pt: u8, flow: &Flow) -> Option<PacketFormat>
    ensures { is_some result ≡ has_format pt (flow_view flow.now) }
{
    let (lengths, steps) = (flow.lengths(), flow.steps());
    match steps.first {
        Some(step) if !steps.varies && lengths.least == lengths.greatest => {
            format_by(pt, lengths.least, step)
        }
        _ => None,
    }
}

/// Returns the format that packets of `len` octets and `step` sampling instants fit.
fn format_by(pt: u8, len: usize, step: u32) -> Option<PacketFormat>
    ensures { is_some result ≡ (is_format pt enc.L24 3 len step || is_format pt enc.L16 2 len step) }
{
    match format_with(pt, Enc::L24, 3, len, step) {
        Some(format) => Some(format),
        None => format_with(pt, Enc::L16, 2, len, step),
    }
}

/// Returns the format of the first of these flows of a table that has one.
pub(crate) fn first_format(table: &FlowTable, places: &[usize]) -> Option<PacketFormat> {
    for place in places.iter() {
        if let Some((key, flow)) = table.flow(*place)
            && let Some(format) = format_of(key.pt, flow)
        {
            return Some(format);
        }
    }
    None
}

/// Returns the format with an encoding whose samples have `octets` octets, if it fits.
#[tactic(auto, unfolding(crate::specs::PacketFormat::is_format))]
fn format_with(pt: u8, enc: Enc, octets: usize, len: usize, step: u32) -> Option<PacketFormat>
    ensures { is_some result ≡ is_format pt enc octets len step }
{
    let fit = channels_that_fit(len, step, octets)?;
    if fit.channels > 255 || fit.frames > 65_535 {
        return None;
    }
    let format = PacketFormat {
        enc,
        channels: fit.channels as u8,
        frames: fit.frames as u16,
        pt,
    };
    // The least latency, window and number of paths, so that only the format decides.
    if format.is_stream(1, 8, 1) {
        Some(format)
    } else {
        None
    }
}

/// The channels and sampling instants of a packet.
#[derive(Clone, Copy)]
pub(crate) struct Fit {
    /// The number of channels.
    pub channels: usize,
    /// The number of sampling instants.
    pub frames: u32,
}

/// Returns the number of channels that fill a payload of `len` octets with `frames` sampling instants, if samples have
/// `octets` octets. Returns none if no whole number of channels does.
#[tactic(auto, unfolding(crate::specs::PacketFormat::fit_of))]
pub(crate) fn channels_that_fit(len: usize, frames: u32, octets: usize) -> Option<Fit>
    ensures { result ≡ fit_of len frames octets }
{
    let instant = u128::from(frames) * octets as u128;
    if instant == 0 || len == 0 || len as u128 % instant != 0 {
        return None;
    }
    Some(Fit {
        channels: (len as u128 / instant) as usize,
        frames,
    })
}
