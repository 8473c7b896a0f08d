//! The extent of a stream's events in media time.
use crate::reception::lost_slots::LostSlots;
use crate::reception::{ReceptionEvent, ReceptionKind, ReceptionObserver};

/// The media time from the first to the last packet that was taken or lost, in sampling instants at 48 kHz, and the
/// greatest arrival margin.
#[derive(Clone, Copy, PartialEq, Eq)]
pub struct Extent {
    /// The sampling instants of a packet.
    frames: u16,
    first: Option<i64>,
    last: i64,
    /// The greatest arrival margin.
    greatest_margin: i64,
}

impl Extent {
    /// Returns the extent before the first event of a stream with packets of this many sampling instants.
    pub(crate) fn new(frames: u16) -> Extent {
        Extent {
            frames,
            first: None,
            last: 0,
            greatest_margin: 0,
        }
    }

    /// Returns the media time at which the first packet begins, if there is one.
    pub(crate) fn first(&self) -> Option<i64> {
        self.first
    }

    /// Returns the media time at which the last packet ends, or 0 if there is none.
    pub(crate) fn last(&self) -> i64 {
        self.last
    }

    /// Returns the greatest arrival margin of a copy in time, or 0 if there is none.
    pub(crate) fn greatest_margin(&self) -> i64 {
        self.greatest_margin
    }

    /// Extends the extent to a stretch of media time.
    fn cover(&mut self, begin: i64, end: i64) {
        match self.first {
            Some(first) => {
                self.first = Some(first.min(begin));
                self.last = self.last.max(end);
            }
            None => {
                self.first = Some(begin);
                self.last = end;
            }
        }
    }
}

impl ReceptionObserver for Extent {
    fn observe(&mut self, event: &ReceptionEvent) {
        match event.copy {
            Some(copy) if event.kind != ReceptionKind::Late => {
                self.greatest_margin = self.greatest_margin.max(copy.margin);
            }
            _ => {}
        }
        match event.kind {
            ReceptionKind::Taken(_) | ReceptionKind::Lost => {
                let end = event.time.saturating_add(i64::from(self.frames));
                self.cover(event.time, end);
            }
            _ => {}
        }
    }

    fn observe_lost(&mut self, slots: &LostSlots) {
        if slots.count > 0 {
            self.cover(slots.first, slots.end());
        }
    }
}
