//! The numbers of a path.
ghost use Rattle.std.specs.Prelude.{◌≡◌};
ghost use Rattle.status_page.specs.Fields.{
  counted,
  flag,
  known_flag,
  path_count,
  path_help,
  path_key,
  path_kind,
  path_value,
};

use crate::fields::{MetricKind, Number};
use crate::snapshot::PathState;

/// A number of a path. `help` describes each.
#[derive(Clone, Copy, PartialEq, Eq)]
pub(crate) enum PathField {
    Datagrams,
    First,
    Sent,
    Lost,
    Double,
    Unlike,
    Late,
    Ahead,
    Repeated,
    Bad,
    WrongType,
    WrongLength,
    Full,
    SpareLeast,
    SpareMedian,
    SpareGreatest,
    Drift,
    Astray,
    Repeating,
    Unexpected,
    SocketFaults,
    SocketEnded,
    SocketDropped,
    TooLong,
    HeldUp,
}

/// The numbers of a path, in the order in which they are shown.
pub(crate) const PATH_FIELDS: [PathField; 25] = [
    PathField::Datagrams,
    PathField::First,
    PathField::Sent,
    PathField::Lost,
    PathField::Double,
    PathField::Unlike,
    PathField::Late,
    PathField::Ahead,
    PathField::Repeated,
    PathField::Bad,
    PathField::WrongType,
    PathField::WrongLength,
    PathField::Full,
    PathField::SpareLeast,
    PathField::SpareMedian,
    PathField::SpareGreatest,
    PathField::Drift,
    PathField::Astray,
    PathField::Repeating,
    PathField::Unexpected,
    PathField::SocketFaults,
    PathField::SocketEnded,
    PathField::SocketDropped,
    PathField::TooLong,
    PathField::HeldUp,
];

impl PathField {
    /// Returns the number's name in `/state` and `/metrics`.
    pub(crate) fn key(self) -> &'static str
        ensures { result.now ≡ path_key self }
    {
        match self {
            PathField::Datagrams => "datagrams",
            PathField::First => "first",
            PathField::Sent => "packets",
            PathField::Lost => "lost",
            PathField::Double => "double",
            PathField::Unlike => "unlike",
            PathField::Late => "late",
            PathField::Ahead => "ahead",
            PathField::Repeated => "repeated",
            PathField::Bad => "bad",
            PathField::WrongType => "wrong_type",
            PathField::WrongLength => "wrong_length",
            PathField::Full => "full",
            PathField::SpareLeast => "spare_least",
            PathField::SpareMedian => "spare_median",
            PathField::SpareGreatest => "spare_greatest",
            PathField::Drift => "drift_ppm",
            PathField::Astray => "astray",
            PathField::Repeating => "repeating",
            PathField::Unexpected => "unexpected",
            PathField::SocketFaults => "socket_faults",
            PathField::SocketEnded => "socket_ended",
            PathField::SocketDropped => "socket_dropped",
            PathField::TooLong => "too_long",
            PathField::HeldUp => "held_up",
        }
    }

    /// Returns the number's kind.
    pub(crate) fn kind(self) -> MetricKind
        ensures { result ≡ path_kind self }
    {
        match self {
            PathField::Repeated
            | PathField::SpareLeast
            | PathField::SpareMedian
            | PathField::SpareGreatest
            | PathField::Drift
            | PathField::Astray
            | PathField::Repeating
            | PathField::SocketEnded => MetricKind::Gauge,
            _ => MetricKind::Counter,
        }
    }

    /// Returns the number's description in `/metrics`, one line.
    pub(crate) fn help(self) -> &'static str
        ensures { result.now ≡ path_help self }
    {
        match self {
            PathField::Datagrams => "Datagrams that came on the path.",
            PathField::First => "Packets of which the path brought the first copy.",
            PathField::Sent =>
                "Packets of the stream that found room on their way to the merge; an offer that found none counts as full.",
            PathField::Lost =>
                "Packets that the stream lost, also if the path brought them late, and packets that another path brought and this one did not within the reorder window.",
            PathField::Double => "Further copies, with the payload of the first.",
            PathField::Unlike => "Further copies, with another payload than the first.",
            PathField::Late => "Packets that came after their deadline.",
            PathField::Ahead => "Packets that came too early for the window.",
            PathField::Repeated =>
                "Packets in a row, up to the last one, that came late and repeat numbers which were heard.",
            PathField::Bad => "Datagrams that were no RTP packets.",
            PathField::WrongType => "Datagrams of another payload type.",
            PathField::WrongLength => "Datagrams of another length.",
            PathField::Full => "Packets that found no room on their way to the merge.",
            PathField::SpareLeast =>
                "The least time before its deadline that a packet of the last second came, in periods of 48 kHz.",
            PathField::SpareMedian =>
                "The median time before their deadlines that packets of the last second came, in periods of 48 kHz; past 6138 it may be more.",
            PathField::SpareGreatest =>
                "The greatest time before its deadline that a packet of the last second came, in periods of 48 kHz.",
            PathField::Drift =>
                "The drift of the least arrival margin over the last minute, in parts per million; above 0 if packets come earlier and earlier.",
            PathField::Astray =>
                "1 if every packet of the last two seconds was late or too early, and 0 otherwise.",
            PathField::Repeating =>
                "1 if the last 64 packets repeat numbers that were heard, while no path of the stream is in time, and 0 otherwise.",
            PathField::Unexpected => "Datagrams from other addresses than the path's source.",
            PathField::SocketFaults => "Receives that failed at the path's socket.",
            PathField::SocketEnded =>
                "1 once the path was given up because its socket failed again and again, and 0 before.",
            PathField::SocketDropped =>
                "Datagrams that the system dropped because the buffer of the path's socket was full.",
            PathField::TooLong =>
                "Datagrams that were left out because they were longer than 2048 octets.",
            PathField::HeldUp =>
                "Datagrams that were left out after a hold-up, until the mix had caught up.",
        }
    }

    /// Returns the number's value, or `None` if it is not known.
    pub(crate) fn value(self, path: &PathState) -> Option<Number>
        ensures { result ≡ path_value self path.now }
    {
        match self {
            PathField::Drift => path.drift.map(|ppm| Number::Change(ppm)),
            _ => counted(self.count(path)),
        }
    }

    /// Returns the number's value if it is a count, or `None` if it is not known.
    fn count(self, path: &PathState) -> Option<u64>
        ensures { result ≡ path_count self path.now }
    {
        match self {
            PathField::Datagrams => Some(path.datagrams),
            PathField::First => Some(path.first),
            PathField::Sent => path.counts.map(|counts| counts.sent),
            PathField::Lost => path.copies.map(|copies| copies.lost),
            PathField::Double => path.copies.map(|copies| copies.double),
            PathField::Unlike => path.copies.map(|copies| copies.unlike),
            PathField::Late => path.copies.map(|copies| copies.late),
            PathField::Ahead => path.copies.map(|copies| copies.ahead),
            PathField::Repeated => path.copies.map(|copies| copies.repeated),
            PathField::Bad => path.counts.map(|counts| counts.bad),
            PathField::WrongType => path.counts.map(|counts| counts.wrong_type),
            PathField::WrongLength => path.counts.map(|counts| counts.wrong_length),
            PathField::Full => path.counts.map(|counts| counts.full),
            PathField::SpareLeast => path.spare.map(|spare| u64::from(spare.least)),
            // The median is rounded down to a multiple of 6, so it may be below the least.
            PathField::SpareMedian => path
                .spare
                .map(|spare| u64::from(spare.median.max(spare.least))),
            PathField::SpareGreatest => path.spare.map(|spare| u64::from(spare.greatest)),
            PathField::Drift => None,
            PathField::Astray => known_flag(path, path.is_astray),
            PathField::Repeating => known_flag(path, path.is_repeating),
            PathField::Unexpected => path.socket.and_then(|socket| socket.unexpected),
            PathField::SocketFaults => path.socket.map(|socket| socket.faults),
            PathField::SocketEnded => path.socket.map(|socket| flag(socket.has_ended)),
            PathField::SocketDropped => path.socket.and_then(|socket| socket.dropped),
            PathField::TooLong => path.socket.map(|socket| socket.too_long),
            PathField::HeldUp => path.socket.map(|socket| socket.held_up),
        }
    }
}

/// Returns 1 if something holds, and 0 otherwise: the value of its metric.
pub(crate) fn flag(holds: bool) -> u64
    ensures { result ≡ flag holds }
{
    if holds { 1 } else { 0 }
}

/// Returns the flag of a path whose copies are counted, and `None` for any other path.
fn known_flag(path: &PathState, holds: bool) -> Option<u64>
    ensures { result ≡ known_flag path.now holds }
{
    match path.copies {
        Some(_) => Some(flag(holds)),
        None => None,
    }
}

/// Returns a count as a number.
pub(crate) fn counted(count: Option<u64>) -> Option<Number>
    ensures { result ≡ counted count }
{
    match count {
        Some(count) => Some(Number::Count(count)),
        None => None,
    }
}
