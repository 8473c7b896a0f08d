//! The data of a stream's panel.
use crate::reception::axis::Axis;
use crate::reception::bins::Bins;
use crate::reception::lost_slots::LostSlots;
use crate::reception::margins::Margins;
use crate::reception::{ReceptionEvent, ReceptionObserver};
use std::alloc::{AllocError, Global};

/// The data of a stream's panel: its events by time and kind, and the arrival margins of its copies.
#[derive(Drop)]
pub struct PanelData {
    pub(crate) bins: Bins,
    pub(crate) margins: Margins,
}

impl PanelData {
    /// Returns the data before the first event. Returns `AllocError` if an allocation fails.
    pub(crate) fn new(alloc: Global, axis: Axis, greatest: i64) -> Result<PanelData, AllocError> {
        let bins = Bins::new(alloc, axis)?;
        Ok(PanelData {
            bins,
            margins: Margins::new(greatest),
        })
    }
}

impl ReceptionObserver for PanelData {
    fn observe(&mut self, event: &ReceptionEvent) {
        self.bins.add(event.time, event.kind);
        self.margins.add(event);
    }

    fn observe_lost(&mut self, slots: &LostSlots) {
        // A lost slot has no copy, and so no arrival margin.
        self.bins.add_lost(slots);
    }
}
