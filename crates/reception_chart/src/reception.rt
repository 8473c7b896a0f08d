//! The events of a stream's reception. The submodules track these, count them by time (`bins`, on an `axis`) and by
//! arrival margin (`margins`), and find their extent in time. Lost slots next to each other are taken as one
//! (`lost_slots`).
ghost use Rattle.std.specs.Prelude.{◌≡◌, ◌<◌};
ghost use Rattle.reception_chart.specs.Bins.{row_of};

use crate::reception::lost_slots::LostSlots;
use rtp_stream::Path;

pub(crate) mod axis;
pub(crate) mod bins;
pub(crate) mod extent;
pub(crate) mod lost_slots;
pub(crate) mod margins;
pub(crate) mod panel_data;
pub(crate) mod stream_tracker;
pub(crate) mod studio_tracker;

/// The row of duplicates. The rows 0 to 3 are those of packets taken from the paths.
pub(crate) const DOUBLE_ROW: usize = 4;

/// The row of late packets.
pub(crate) const LATE_ROW: usize = 5;

/// The row of lost slots.
pub(crate) const LOST_ROW: usize = 6;

/// The row of packets that were refused for another reason.
pub(crate) const REFUSED_ROW: usize = 7;

/// The row of restarts.
pub(crate) const RESTART_ROW: usize = 8;

/// The kind of an event, which has a row in a strip.
#[derive(Clone, Copy, PartialEq, Eq)]
pub enum ReceptionKind {
    /// A packet was taken from a path.
    Taken(Path),
    /// A duplicate of a packet arrived, with the same payload.
    Double,
    /// A packet arrived after its deadline.
    Late,
    /// A packet was refused for another reason: it is a duplicate with a different payload, off the grid, too early for
    /// the window, or of an unexpected source.
    Refused,
    /// A slot is lost.
    Lost,
    /// A packet restarted the stream and so opened an epoch. It is an event as a taken packet too.
    Restart,
}

impl ReceptionKind {
    /// Returns the row of the kind in a strip: for a taken packet that of its path.
    pub(crate) fn row(self) -> usize
        ensures value { result ≡ row_of self }
        ensures within { result < 9 }
    {
        match self {
            ReceptionKind::Taken(path) => usize::from(path.number()),
            ReceptionKind::Double => DOUBLE_ROW,
            ReceptionKind::Late => LATE_ROW,
            ReceptionKind::Lost => LOST_ROW,
            ReceptionKind::Refused => REFUSED_ROW,
            ReceptionKind::Restart => RESTART_ROW,
        }
    }
}

/// The path and the arrival margin of a copy.
#[derive(Clone, Copy, PartialEq, Eq)]
pub struct CopyTiming {
    /// The path on which it arrived.
    pub path: Path,
    /// The arrival margin: the time from its arrival to its deadline, in sampling instants at 48 kHz. It means nothing
    /// for a late copy.
    pub margin: i64,
}

/// An event of a stream's reception.
#[derive(Clone, Copy, PartialEq, Eq)]
pub struct ReceptionEvent {
    /// The media time of the packet or slot. For a packet off the grid, too early for the window or of an unexpected
    /// source, and before the first packet, it is the clock reading.
    pub time: i64,
    /// The kind of the event.
    pub kind: ReceptionKind,
    /// The path and the margin of a copy whose media time is known; none for other events.
    pub copy: Option<CopyTiming>,
}

/// An observer of the events of a stream's reception.
pub trait ReceptionObserver {
    /// Receives the next event.
    fn observe(&mut self, event: &ReceptionEvent);

    /// Receives lost slots next to each other, for the events that each of them is.
    // Not one by one: a clock reading may be far ahead of the last packet, and the slots up to it are then too many.
    fn observe_lost(&mut self, slots: &LostSlots);
}
