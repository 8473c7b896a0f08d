//! The kinds of a run's outputs, which a run writes next to the datagrams of its mix, and the texts of each kind.
ghost use Rattle.std.specs.Prelude.{◌≡◌, ◌<◌, ◌≤◌, length};
ghost use Rattle.studio_io.specs.Outputs.{has_reader, left_out_help, metric_group, output_index};
ghost use Rattle.studio_io.specs.Outputs.{output_key, output_unit, state_help, written_help, written_word};

use std::fmt;
use std::fmt::{Display, Formatter};

/// A kind of output of a run. A run has at most one output of each kind.
#[derive(Clone, Copy, Debug, PartialEq, Eq)]
pub enum OutputKind {
    /// The record of the datagrams that arrived.
    Record,
    /// The WAV file of the mix, or its WAV files one after another.
    Wav,
    /// The raw PCM of the mix.
    Pcm,
}

/// All kinds, in the order in which outputs are shown.
pub const OUTPUT_KINDS: [OutputKind; 3] = [OutputKind::Record, OutputKind::Wav, OutputKind::Pcm];

/// The number of kinds.
pub(crate) const KIND_COUNT: usize = OUTPUT_KINDS.len();

impl OutputKind {
    /// Returns the place of the kind in `OUTPUT_KINDS`.
    pub(crate) fn index(self) -> usize
        ensures index { result ≡ output_index self }
        ensures few { result < 3 }
    {
        match self {
            OutputKind::Record => 0,
            OutputKind::Wav => 1,
            OutputKind::Pcm => 2,
        }
    }

    /// Returns the output's name in `/state`, in reports and in faults.
    pub fn key(self) -> &'static str
        ensures name { result.now ≡ output_key self }
        ensures few { length result.now ≤ 6 }
    {
        match self {
            OutputKind::Record => "record",
            OutputKind::Wav => "wav",
            OutputKind::Pcm => "pcm",
        }
    }

    /// Returns the name of the units in which the output is written: the datagrams that arrived, or blocks of the mix.
    pub fn unit(self) -> &'static str
        ensures name { result.now ≡ output_unit self }
        ensures few { length result.now ≤ 9 }
    {
        match self {
            OutputKind::Record => "datagrams",
            OutputKind::Wav | OutputKind::Pcm => "blocks",
        }
    }

    /// Returns the word before the number of units that were written, in the lines of `--stats`.
    pub fn written_word(self) -> &'static str
        ensures word { result.now ≡ written_word self }
        ensures few { length result.now ≤ 10 }
    {
        match self {
            OutputKind::Record => "recorded",
            OutputKind::Wav => "wav_blocks",
            OutputKind::Pcm => "pcm_blocks",
        }
    }

    /// Returns the group of the output's metrics: the front of their names in `/metrics`, without the program's name.
    #[tactic(auto, unfolding(crate::specs::Outputs::metric_group))]
    pub fn metric_group(self) -> &'static str
        ensures { result.now ≡ metric_group self }
    {
        match self {
            OutputKind::Record => "record_",
            OutputKind::Wav => "wav_",
            OutputKind::Pcm => "pcm_",
        }
    }

    /// Returns the description of the metric of the output's state, one line.
    pub fn state_help(self) -> &'static str
        ensures { result.now ≡ state_help self }
    {
        match self {
            OutputKind::Record =>
                "The state of the record: 1 for the state that it is in, and 0 for the others.",
            OutputKind::Wav =>
                "The state of the WAV file: 1 for the state that it is in, and 0 for the others.",
            OutputKind::Pcm =>
                "The state of the raw PCM: 1 for the state that it is in, and 0 for the others.",
        }
    }

    /// Returns the description of the metric of the units that were written, one line.
    pub fn written_help(self) -> &'static str
        ensures { result.now ≡ written_help self }
    {
        match self {
            OutputKind::Record => "Datagrams that the record holds.",
            OutputKind::Wav => "Blocks of the mix that the WAV file holds.",
            OutputKind::Pcm => "Blocks of the mix that were written as raw PCM.",
        }
    }

    /// Returns the description of the metric of the units that were left out, one line. It is empty for an output that
    /// has no reader: there is no such metric of it.
    pub fn left_out_help(self) -> &'static str
        ensures { result.now ≡ left_out_help self }
    {
        match self {
            OutputKind::Record | OutputKind::Wav => "",
            OutputKind::Pcm =>
                "Blocks of the mix that were left out of the raw PCM, because its reader was slow or there was none.",
        }
    }

    /// Returns true if somebody has to read the output while it is written. It waits for its reader, and leaves out the
    /// units that a slow reader does not take. Any other output ends if it is too slow.
    pub fn has_reader(self) -> bool
        ensures { result ≡ has_reader self }
    {
        match self {
            OutputKind::Record | OutputKind::Wav => false,
            OutputKind::Pcm => true,
        }
    }
}

impl Display for OutputKind {
    /// Writes the output's name.
    fn fmt<W: fmt::Write>(&self, f: &mut Formatter<W>) -> fmt::Result {
        Display::fmt(self.key(), f)
    }
}
