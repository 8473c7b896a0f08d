//! The numbers of an output channel.
ghost use Rattle.std.specs.Prelude.{◌≡◌};
ghost use Rattle.status_page.specs.Fields.{output_help, output_key, output_kind, output_value};

use crate::fields::MetricKind;
use crate::snapshot::ChannelState;

/// A number of an output channel. `help` describes each.
#[derive(Clone, Copy, PartialEq, Eq)]
pub(crate) enum OutputField {
    Peak,
    Saturated,
}

/// The numbers of an output channel, in the order in which they are shown.
pub(crate) const OUTPUT_FIELDS: [OutputField; 2] = [OutputField::Peak, OutputField::Saturated];

impl OutputField {
    /// Returns the number's name in `/state` and `/metrics`.
    pub(crate) fn key(self) -> &'static str
        ensures { result.now ≡ output_key self }
    {
        match self {
            OutputField::Peak => "peak",
            OutputField::Saturated => "saturated",
        }
    }

    /// Returns the number's kind.
    pub(crate) fn kind(self) -> MetricKind
        ensures { result ≡ output_kind self }
    {
        match self {
            OutputField::Peak => MetricKind::Gauge,
            _ => MetricKind::Counter,
        }
    }

    /// Returns the number's description in `/metrics`, one line.
    pub(crate) fn help(self) -> &'static str
        ensures { result.now ≡ output_help self }
    {
        match self {
            OutputField::Peak =>
                "The greatest magnitude of a sample of the last tenth of a second, of 8388608 at full scale.",
            OutputField::Saturated =>
                "Samples that were saturated: their rounded sum lay past what the output can hold.",
        }
    }

    /// Returns the number's value.
    pub(crate) fn value(self, output: &ChannelState) -> u64
        ensures { result ≡ output_value self output.now }
    {
        match self {
            OutputField::Peak => u64::from(output.peak),
            OutputField::Saturated => output.saturated,
        }
    }
}
