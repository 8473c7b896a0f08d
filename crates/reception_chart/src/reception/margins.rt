//! The arrival margins of a stream's copies by path: the times from their arrival to their deadlines.
use crate::reception::{CopyTiming, ReceptionEvent, ReceptionKind};
use rtp_stream::Path;

/// The number of intervals of the time before a deadline.
pub(crate) const MARGIN_BINS: usize = 96;

/// The arrival margins of a path's copies.
#[derive(Clone, Copy, PartialEq, Eq)]
pub(crate) struct PathMargins {
    /// The number of copies in time in each interval before their deadlines; the first interval is next to the
    /// deadline.
    pub bins: [u64; MARGIN_BINS],
    /// The number of all copies in time.
    pub in_time: u64,
    /// The number of late copies.
    pub late: u64,
    /// The least arrival margin of a copy in time, in sampling instants at 48 kHz, if there is one.
    pub least: Option<i64>,
}

impl PathMargins {
    /// Returns the margins of a path before its first copy.
    fn new() -> PathMargins {
        PathMargins {
            bins: [0; MARGIN_BINS],
            in_time: 0,
            late: 0,
            least: None,
        }
    }

    /// Counts a copy in time by its arrival margin, in intervals of `span` sampling instants.
    fn add(&mut self, margin: i64, span: u64) {
        let spans = u64::try_from(margin)
            .unwrap_or(0)
            .checked_div(span)
            .unwrap_or(0);
        let bin = spans.min(MARGIN_BINS as u64 - 1) as usize;
        self.bins[bin] = self.bins[bin].saturating_add(1);
        self.in_time = self.in_time.saturating_add(1);
        self.least = match self.least {
            Some(least) => Some(least.min(margin)),
            None => Some(margin),
        };
    }
}

/// The arrival margins of the copies of each path of a stream.
#[derive(Drop)]
pub(crate) struct Margins {
    /// The length of an interval, in sampling instants.
    span: u64,
    paths: [PathMargins; 4],
}

impl Margins {
    /// Returns the margins before the first copy, in intervals up to a greatest margin. A greater one belongs to the
    /// last interval.
    pub(crate) fn new(greatest: i64) -> Margins {
        let span = (u64::try_from(greatest).unwrap_or(0) / MARGIN_BINS as u64).saturating_add(1);
        Margins {
            span,
            paths: [PathMargins::new(); 4],
        }
    }

    /// Returns the length of an interval, in sampling instants at 48 kHz.
    pub(crate) fn span(&self) -> u64 {
        self.span
    }

    /// Counts the copy of an event, if it has one.
    pub(crate) fn add(&mut self, event: &ReceptionEvent) {
        let Some(copy) = event.copy else {
            return;
        };
        let place = usize::from(copy.path.number());
        let mut path = self.paths[place];
        if event.kind == ReceptionKind::Late {
            path.late = path.late.saturating_add(1);
        } else {
            path.add(copy.margin, self.span);
        }
        self.paths[place] = path;
    }

    /// Returns the arrival margins of a path's copies.
    pub(crate) fn path(&self, path: Path) -> &PathMargins {
        &self.paths[usize::from(path.number())]
    }
}
