//! The state of an output of a run, with its counts and the reason of its end.
ghost use Rattle.std.specs.Prelude.{◌≡◌, ◌≤◌, length};
ghost use Rattle.studio_io.specs.Outputs.{counts_in, end_of, left_out_units, state_name, written_units};

use thiserror::Error;

/// The reason why an output ended before its run.
#[derive(Clone, Copy, Debug, PartialEq, Eq, Error)]
pub enum OutputEnd {
    /// A write failed.
    #[error("write")]
    Write,
    /// The output was so slow that the ring in front of it was full.
    #[error("too slow")]
    Slow,
    /// A datagram is too long, or a time does not fit the format.
    #[error("does not fit")]
    Unfit,
    /// Nobody reads the output any more.
    #[error("closed")]
    Closed,
}

/// The counts of an output, in its units: datagrams of a record, and blocks of the mix else.
#[derive(Clone, Copy, PartialEq, Eq)]
pub struct OutputCounts {
    /// The number of units that the run gave to the output so far, also if they were not written.
    pub given: u64,
    /// The number of units that were written whole.
    pub written: u64,
    /// The number of units that were left out, because the reader was slow or there was none.
    pub left_out: u64,
}

/// The state of an output.
#[derive(Clone, Copy, PartialEq, Eq)]
pub enum OutputState {
    /// The run does not have the output.
    Absent,
    /// Nobody reads the output yet.
    Waiting(OutputCounts),
    /// The output is being written.
    Writing(OutputCounts),
    /// The output ended before its run, for this reason. Nothing is added to it.
    Ended(OutputCounts, OutputEnd),
}

impl OutputState {
    /// Returns the state's name in `/state`, in `/metrics` and in lines of counts.
    pub fn name(self) -> &'static str
        ensures name { result.now ≡ state_name self }
        ensures few { length result.now ≤ 7 }
    {
        match self {
            OutputState::Absent => "none",
            OutputState::Waiting(_) => "waiting",
            OutputState::Writing(_) => "writing",
            OutputState::Ended(..) => "ended",
        }
    }

    /// Returns the counts, or `None` without the output.
    pub fn counts(self) -> Option<OutputCounts>
        ensures { result ≡ counts_in self }
    {
        match self {
            OutputState::Absent => None,
            OutputState::Waiting(counts)
            | OutputState::Writing(counts)
            | OutputState::Ended(counts, _) => Some(counts),
        }
    }

    /// Returns the reason why the output ended before its run, or `None` if it did not.
    pub fn end(self) -> Option<OutputEnd>
        ensures { result ≡ end_of self }
    {
        match self {
            OutputState::Absent | OutputState::Waiting(_) | OutputState::Writing(_) => None,
            OutputState::Ended(_, end) => Some(end),
        }
    }

    /// Returns the number of units that were written, or `None` without the output.
    pub fn written(self) -> Option<u64>
        ensures { result ≡ written_units self }
    {
        match self {
            OutputState::Absent => None,
            OutputState::Waiting(counts)
            | OutputState::Writing(counts)
            | OutputState::Ended(counts, _) => Some(counts.written),
        }
    }

    /// Returns the number of units that were left out, or `None` without the output.
    pub fn left_out(self) -> Option<u64>
        ensures { result ≡ left_out_units self }
    {
        match self {
            OutputState::Absent => None,
            OutputState::Waiting(counts)
            | OutputState::Writing(counts)
            | OutputState::Ended(counts, _) => Some(counts.left_out),
        }
    }
}
