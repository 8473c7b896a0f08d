//! The numbers of a stream.
ghost use Rattle.rtp_stream.specs.Counts.{tally_of};
ghost use Rattle.std.specs.Prelude.{◌≡◌};
ghost use Rattle.status_page.specs.Fields.{stream_help, stream_key, stream_kind, stream_value};

use crate::fields::MetricKind;
use crate::path_condition::redundancy;
use crate::snapshot::StreamState;
use rtp_stream::CountField;

/// A number of a stream. `help` describes each. The counts are shown first, in the order of `COUNT_FIELDS`.
#[derive(Clone, Copy, PartialEq, Eq)]
pub(crate) enum StreamField {
    Count(CountField),
    Latency,
    SecondsLeft,
    Redundancy,
}

impl StreamField {
    /// Returns the number's name in `/state` and `/metrics`.
    pub(crate) fn key(self) -> &'static str
        ensures { result.now ≡ stream_key self }
    {
        match self {
            StreamField::Count(count) => count.key(),
            StreamField::Latency => "latency",
            StreamField::SecondsLeft => "seconds_left",
            StreamField::Redundancy => "redundancy",
        }
    }

    /// Returns the number's kind.
    pub(crate) fn kind(self) -> MetricKind
        ensures { result ≡ stream_kind self }
    {
        match self {
            StreamField::Count(_) => MetricKind::Counter,
            StreamField::Latency | StreamField::SecondsLeft | StreamField::Redundancy => {
                MetricKind::Gauge
            },
        }
    }

    /// Returns the number's description in `/metrics`, one line.
    pub(crate) fn help(self) -> &'static str
        ensures { result.now ≡ stream_help self }
    {
        match self {
            StreamField::Count(count) => count.help(),
            StreamField::Latency =>
                "From a packet's media time to its deadline, in periods of 48 kHz.",
            StreamField::SecondsLeft =>
                "Seconds until packets will be late or too early, at the drift of the path with the most time left; 31536000 (a year) is the most.",
            StreamField::Redundancy =>
                "Paths by each of which alone the audio would go on, with gaps if the path is losing.",
        }
    }

    /// Returns the number's value, or `None` if it is not known.
    pub(crate) fn value(self, stream: &StreamState) -> Option<u64>
        ensures { result ≡ stream_value self stream.now }
    {
        match self {
            StreamField::Count(count) => Some(count.of(&stream.counts)),
            StreamField::Latency => Some(stream.latency),
            StreamField::SecondsLeft => stream.seconds_left,
            StreamField::Redundancy => Some(redundancy(stream.paths.as_slice())),
        }
    }
}
