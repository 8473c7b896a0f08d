//! An SVG chart of a trace: the packets of each stream and path, over media time.
//!
//! `chart` does all of it: it reads a trace to its end as `studio_run::play` does, and writes one SVG.
//!
//! If events arrive one by one, as from a capture, a `StudioTracker` takes them for all streams. A chart
//! takes all events twice. In the first pass each stream has an `Extent`, which finds its media time.
//! In the second it has a `PanelData`, which counts packets, slots and arrival margins.
//!
//! The work of a chart grows with its events and the intervals of its axis, and not with the media time
//! that they cover.
//!
//! The numbers next to a row are sums over its intervals. The counts below a panel are those of the
//! report.
#![tactic(auto)]

mod draw;
mod reception;
mod render;

pub use reception::ReceptionObserver;
pub use reception::extent::Extent;
pub use reception::lost_slots::LostSlots;
pub use reception::panel_data::PanelData;
pub use reception::studio_tracker::StudioTracker;
pub use render::chart;
