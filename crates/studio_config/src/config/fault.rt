//! The faults of a configuration, and their texts.
ghost use Rattle.std.specs.Prelude.{◌≡◌, Some};
ghost use Rattle.studio_config.specs.Config.{no_memory};

use crate::config::keys::Key;
use gain_mix::{MatrixFault, ScheduleFault};
use mix_packets::OutFault;
use rtp_stream::SpecFault;
use std::alloc::{AllocError, AllocFailed};
use std::error::Error;
use std::fmt;

/// A table of the configuration.
#[derive(Clone, Copy, Debug, PartialEq, Eq)]
pub enum ConfigTable {
    /// The whole document.
    Top,
    /// The table of a stream, which counts from 0.
    Stream(usize),
    /// The table of the output.
    Output,
    /// The table of a change of the output's gains, which counts from 0.
    Change(usize),
}

/// The kind of a configuration's fault.
#[derive(Clone, Copy, Debug, PartialEq, Eq)]
pub enum SpecErrorKind {
    /// A required key is absent.
    Missing,
    /// A value has another TOML type than its key needs.
    WrongKind,
    /// A value is out of its range.
    OutOfRange,
    /// The table has a key that is none of its own.
    Unknown,
    /// The keys of a stream's table break a rule of streams.
    Stream(SpecFault),
    /// The keys of the output's table break a rule of outputs.
    Output(OutFault),
    /// The gains have another shape than the channels of the streams and the output need, or one is out of range.
    Gains(MatrixFault),
    /// The changes of the gains break a rule of schedules.
    Schedule(ScheduleFault),
    /// The output is by the media clock, and a stream has another one.
    Streams,
    /// An allocation failed.
    Memory,
}

/// The first fault of a configuration: its table, its key (`None` if the table as a whole is at fault) and its kind.
///
/// Its text names the place first, as `stream[1].frames: range`.
#[derive(Clone, Copy, Debug, PartialEq, Eq)]
pub struct SpecError {
    pub place: ConfigTable,
    pub key: Option<Key>,
    pub kind: SpecErrorKind,
}

impl SpecError {
    /// Returns the fault of this kind at a key of a table.
    pub(crate) fn at_key(place: ConfigTable, key: Key, kind: SpecErrorKind) -> SpecError
        ensures { result ≡ record { place = place; key = Some key; kind = kind } }
    {
        SpecError {
            place,
            key: Some(key),
            kind,
        }
    }
}

impl From<AllocError> for SpecError {
    ghost from_gives = { λ _ fault. fault ≡ no_memory };

    // An allocation failure belongs to no table, so it is put at the top.
    fn from(_error: AllocError) -> SpecError {
        SpecError {
            place: ConfigTable::Top,
            key: None,
            kind: SpecErrorKind::Memory,
        }
    }
}

impl<T: Drop> From<AllocFailed<T>> for SpecError {
    ghost from_gives = { λ _ fault. fault ≡ no_memory };

    fn from(_refused: AllocFailed<T>) -> SpecError {
        SpecError::from(AllocError)
    }
}

impl fmt::Display for ConfigTable {
    fn fmt<W: fmt::Write>(&self, f: &mut fmt::Formatter<W>) -> fmt::Result {
        match self {
            ConfigTable::Top => f.write_str("top"),
            ConfigTable::Stream(stream) => write!(f, "stream[{stream}]"),
            ConfigTable::Output => f.write_str("output"),
            ConfigTable::Change(change) => write!(f, "output.change[{change}]"),
        }
    }
}

impl SpecErrorKind {
    /// Returns its word, and the number of the rule that is broken if the word names several.
    fn word_and_rule(self) -> (&'static str, Option<u8>) {
        // The rules are numbered from 1 in docs/CONFIGURATION.md.
        match self {
            SpecErrorKind::Missing => ("missing", None),
            SpecErrorKind::WrongKind => ("kind", None),
            SpecErrorKind::OutOfRange => ("range", None),
            SpecErrorKind::Unknown => ("unknown", None),
            SpecErrorKind::Stream(fault) => ("stream", Some(fault as u8 + 1)),
            SpecErrorKind::Output(fault) => ("output", Some(fault as u8 + 1)),
            SpecErrorKind::Gains(fault) => ("gains", Some(fault as u8 + 1)),
            SpecErrorKind::Schedule(fault) => ("schedule", Some(fault as u8 + 1)),
            SpecErrorKind::Streams => ("streams", None),
            SpecErrorKind::Memory => ("memory", None),
        }
    }
}

// One format for all kinds: each further one costs the proof some seconds.
impl fmt::Display for SpecErrorKind {
    fn fmt<W: fmt::Write>(&self, f: &mut fmt::Formatter<W>) -> fmt::Result {
        let (word, rule) = self.word_and_rule();
        f.write_str(word)?;
        match rule {
            Some(rule) => write!(f, " {rule}"),
            None => Ok(()),
        }
    }
}

impl fmt::Display for SpecError {
    fn fmt<W: fmt::Write>(&self, f: &mut fmt::Formatter<W>) -> fmt::Result {
        match self.key {
            None => fmt::Display::fmt(&self.place, f)?,
            // A key of the document has no table's name before it.
            Some(key) if self.place == ConfigTable::Top => f.write_str(key.name())?,
            Some(key) => {
                fmt::Display::fmt(&self.place, f)?;
                f.write_str(".")?;
                f.write_str(key.name())?;
            }
        }
        f.write_str(": ")?;
        fmt::Display::fmt(&self.kind, f)
    }
}

impl Error for SpecError {}
