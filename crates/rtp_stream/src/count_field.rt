//! The numbers of `Counts`, each with its names, its description and its value. Reports, lines of counts, the page and
//! its metrics are made from the lists of this file, so a further count is shown in all of them.
ghost use Rattle.rtp_stream.specs.CountField.{count_help, count_key, count_value, count_word};
ghost use Rattle.rtp_stream.specs.Counts.{tally_of};
ghost use Rattle.std.specs.Prelude.{◌≡◌, ◌≤◌, length};

use crate::counts::Counts;

/// A number of `Counts`. `taken_by` is not among them, since it has a number for each path. `help` describes each.
#[derive(Clone, Copy, Debug, PartialEq, Eq)]
pub enum CountField {
    Arrived,
    Taken,
    Double,
    Unlike,
    OffGrid,
    Late,
    Ahead,
    WrongSource,
    Got,
    Lost,
    Restarts,
}

/// The numbers that a report shows before the packets taken by each path, in that order.
pub const COUNTS_BEFORE_PATHS: [CountField; 2] = [CountField::Arrived, CountField::Taken];

/// The numbers that a report shows after the packets taken by each path, in that order.
pub const COUNTS_AFTER_PATHS: [CountField; 9] = [
    CountField::Double,
    CountField::Unlike,
    CountField::OffGrid,
    CountField::Late,
    CountField::Ahead,
    CountField::WrongSource,
    CountField::Got,
    CountField::Lost,
    CountField::Restarts,
];

/// All numbers, in the order of `/state` and `/metrics`.
pub const COUNT_FIELDS: [CountField; 11] = [
    CountField::Got,
    CountField::Lost,
    CountField::Arrived,
    CountField::Taken,
    CountField::Double,
    CountField::Unlike,
    CountField::OffGrid,
    CountField::Late,
    CountField::Ahead,
    CountField::WrongSource,
    CountField::Restarts,
];

impl CountField {
    /// Returns the number's name in `/state` and `/metrics`, which is that of its field.
    pub fn key(self) -> &'static str
        ensures name { result.now ≡ count_key self }
        ensures few { length result.now ≤ 12 }
    {
        match self {
            CountField::Arrived => "arrived",
            CountField::Taken => "taken",
            CountField::Double => "double",
            CountField::Unlike => "unlike",
            CountField::OffGrid => "off_grid",
            CountField::Late => "late",
            CountField::Ahead => "ahead",
            CountField::WrongSource => "wrong_source",
            CountField::Got => "got",
            CountField::Lost => "lost",
            CountField::Restarts => "restarts",
        }
    }

    /// Returns the number's name in a report and in a line of counts.
    pub fn word(self) -> &'static str
        ensures name { result.now ≡ count_word self }
        ensures few { length result.now ≤ 12 }
    {
        match self {
            CountField::WrongSource => "source",
            _ => self.key(),
        }
    }

    /// Returns the number's description in `/metrics`, one line.
    pub fn help(self) -> &'static str
        ensures { result.now ≡ count_help self }
    {
        match self {
            CountField::Arrived => "Packets that came to the merge.",
            CountField::Taken => "Packets that were the first copy of their number.",
            CountField::Double => "Further copies, with the payload of the first.",
            CountField::Unlike => "Further copies, with another payload than the first.",
            CountField::OffGrid => "Packets whose timestamp was not in step with their number.",
            CountField::Late => "Packets that came after their deadline.",
            CountField::Ahead => "Packets beyond the reorder window.",
            CountField::WrongSource => "Packets of another synchronization source.",
            CountField::Got => "Slots that were passed to the mix with a payload.",
            CountField::Lost => "Slots that were passed to the mix as lost.",
            CountField::Restarts => "Packets that opened a new epoch.",
        }
    }

    /// Returns the number.
    pub fn of(self, counts: &Counts) -> u64
        ensures { result ≡ count_value self (tally_of counts.now) }
    {
        match self {
            CountField::Arrived => counts.arrived,
            CountField::Taken => counts.taken,
            CountField::Double => counts.double,
            CountField::Unlike => counts.unlike,
            CountField::OffGrid => counts.off_grid,
            CountField::Late => counts.late,
            CountField::Ahead => counts.ahead,
            CountField::WrongSource => counts.wrong_source,
            CountField::Got => counts.got,
            CountField::Lost => counts.lost,
            CountField::Restarts => counts.restarts,
        }
    }
}
