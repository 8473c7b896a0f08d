//! The structs that C receives. Each begins with its size, which the caller sets: a later version may append fields.
ghost use Rattle.std.specs.Prelude.{◌≡◌};
ghost use Rattle.rtp_wire.specs.Sample.{octets_per_sample};
ghost use Rattle.darbexum_c.specs.Records.{output_record, stream_record};

use crate::codes::clock_code;
use mix_packets::OutSpec;
use rtp_stream::StreamSpec;
use rtp_wire::Enc;

/// The size of `Counts` in octets.
pub(crate) const COUNTS_SIZE: usize = 128;
/// The size of `PathCounts` in octets.
pub(crate) const PATH_COUNTS_SIZE: usize = 56;
/// The size of `Output` in octets.
pub(crate) const OUTPUT_SIZE: usize = 40;
/// The size of `Stream` in octets.
pub(crate) const STREAM_SIZE: usize = 40;

/// The counts of a stream's merge.
#[repr(C)]
#[derive(Clone, Copy)]
pub struct Counts {
    pub size: usize,
    pub arrived: u64,
    pub taken: u64,
    pub taken_by: [u64; 4],
    pub double: u64,
    pub unlike: u64,
    pub off_grid: u64,
    pub late: u64,
    pub ahead: u64,
    pub wrong_source: u64,
    pub got: u64,
    pub lost: u64,
    pub restarts: u64,
}

/// The counts of the datagrams of a path.
#[repr(C)]
#[derive(Clone, Copy)]
pub struct PathCounts {
    pub size: usize,
    pub offered: u64,
    pub sent: u64,
    pub bad: u64,
    pub wrong_type: u64,
    pub wrong_length: u64,
    pub full: u64,
}

/// The specification of the output.
#[repr(C)]
#[derive(Clone, Copy)]
pub struct Output {
    pub size: usize,
    /// The media time of the first packet, in sampling instants.
    pub start: i64,
    /// The number of octets of each sample: 2 or 3.
    pub sample_octets: u32,
    pub channels: u32,
    /// Sampling instants per packet.
    pub frames: u32,
    /// The RTP payload type.
    pub payload_type: u32,
    /// The synchronization source.
    pub ssrc: u32,
    /// The number of octets of each datagram.
    pub datagram_octets: u32,
}

/// The specification of a stream.
#[repr(C)]
#[derive(Clone, Copy)]
pub struct Stream {
    pub size: usize,
    /// The number of octets of each sample: 2 or 3.
    pub sample_octets: u32,
    pub channels: u32,
    /// Sampling instants per packet.
    pub frames: u32,
    /// The RTP payload type.
    pub payload_type: u32,
    /// The number of paths, 1 to 4.
    pub paths: u32,
    /// The time from a packet's media time to its deadline, in sampling instants.
    pub latency: u32,
    /// The number of packets that may be held.
    pub window: u32,
    /// 0 for the media clock, 1 for the arrival clock, 2 for the clock that follows the sender.
    pub clock: u32,
}

/// Returns the number of octets of a sample.
fn sample_octets(enc: Enc) -> u32
    ensures { result ≡ octets_per_sample enc }
{
    match enc {
        Enc::L16 => 2,
        Enc::L24 => 3,
    }
}

impl Output {
    /// Returns the values of an output in a struct of this size.
    pub(crate) fn of(spec: &OutSpec, size: usize) -> Output
        ensures { result ≡ output_record size spec.now }
    {
        Output {
            size,
            start: spec.start(),
            sample_octets: sample_octets(spec.enc()),
            channels: u32::from(spec.channels()),
            frames: u32::from(spec.frames()),
            payload_type: u32::from(spec.pt()),
            ssrc: spec.ssrc(),
            datagram_octets: spec.datagram_len() as u32,
        }
    }
}

impl Stream {
    /// Returns the values of a stream in a struct of this size.
    pub(crate) fn of(spec: StreamSpec, size: usize) -> Stream
        ensures { result ≡ stream_record size spec }
    {
        Stream {
            size,
            sample_octets: sample_octets(spec.enc()),
            channels: u32::from(spec.channels()),
            frames: u32::from(spec.frames()),
            payload_type: u32::from(spec.pt()),
            paths: u32::from(spec.paths()),
            latency: spec.latency(),
            window: u32::from(spec.window()),
            clock: clock_code(spec.clock()),
        }
    }
}
