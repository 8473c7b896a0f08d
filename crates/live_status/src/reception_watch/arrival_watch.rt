//! The watch of a path: its condition, the drift of its arrival margin, and when a packet last came in time, late or
//! too early.
ghost use Rattle.std.specs.Prelude.{◌≡◌, if◌then◌else◌};
ghost use Rattle.rtp_stats.specs.Drift.{minute_from};
ghost use Rattle.live_status.specs.Counts.{in_time_of};
ghost use Rattle.live_status.specs.Watch.{
  IsNoted,
  astray_count,
  astray_of,
  in_time_count,
  is_astray,
  is_repeating,
  minute_with,
  new_arrival_watch,
  shown_path,
};

use crate::reception_watch::count_watch::CountWatch;
use crate::reception_watch::second_watch::SecondWatch;
use rtp_stats::{ArrivalMargin, Drift, MarginMinute, second_of};
use status_page::{CopyCounts, PathCondition, PathState};

/// The number of packets in a row that show a path that repeats numbers.
const REPEATS: u64 = 64;

/// The watch of a path.
#[derive(Drop)]
pub(crate) struct ArrivalWatch {
    /// The arrival margins of the last minute.
    minute: MarginMinute,
    /// The packets that came in time.
    in_time: CountWatch,
    /// The packets that came late or too early.
    astray: CountWatch,
    /// The packets by seconds.
    second: SecondWatch,
    /// The path's condition at the last update, if its copies are counted.
    condition: Option<PathCondition>,
    /// The drift at the last update.
    pub(crate) drift: Option<Drift>,
    /// True if, at the last update, a packet had come in time in the last two seconds.
    pub(crate) is_in_time: bool,
    /// True if, at the last update, packets had come in the last two seconds and all of them were late or too early.
    is_astray: bool,
}

impl ArrivalWatch {
    /// Returns the watch of a path on which no packet arrived by the time `now`, in sampling instants.
    pub(crate) fn new(now: i64) -> ArrivalWatch
        ensures { result ≡ new_arrival_watch now }
    {
        ArrivalWatch {
            minute: MarginMinute::new(),
            in_time: CountWatch::new(now),
            astray: CountWatch::new(now),
            second: SecondWatch::new(now),
            condition: None,
            drift: None,
            is_in_time: false,
            is_astray: false,
        }
    }

    /// Notes the state of the path at the time `now`, in sampling instants. `window_span` is the time that the stream's
    /// window holds, and `begins` is true if an epoch began since the last update.
    pub(crate) fn note(&mut self, now: i64, window_span: u32, begins: bool, path: &PathState)
        ensures { IsNoted now window_span begins path.now self.old self.new }
    {
        let second = second_of(now);
        begin_at(&mut self.minute, second, begins);
        note_margin(&mut self.minute, path.spare);
        note_in_time(&mut self.in_time, now, path.first, path.copies);
        note_astray(&mut self.astray, now, path.copies);
        self.condition = self.second.note(now, path);
        self.drift = self.minute.drift(second, window_span);
        self.is_in_time = !self.in_time.is_still(now);
        self.is_astray = is_astray(&self.in_time, &self.astray, now);
    }

    /// Fills in what the watch shows of a path. `others` is true if some path of the stream is in time, and `has_ended`
    /// if the stream has ended.
    pub(crate) fn show(&self, has_ended: bool, others: bool, path: &mut PathState)
        ensures { path.new ≡ shown_path has_ended others self.now path.old }
    {
        path.condition = self.condition;
        path.is_repeating = is_repeating(has_ended, others, path.copies);
        path.is_astray = !has_ended && self.is_astray;
        path.drift = self.drift.map(|drift| drift.ppm);
    }
}

/// Begins a minute again in a second, if an epoch began.
fn begin_at(minute: &mut MarginMinute, second: u64, begins: bool)
    ensures { minute.new ≡ (if begins then minute_from second else minute.old) }
{
    if begins {
        minute.begin(second);
    }
}

/// Notes the margins of a second, if there are any.
fn note_margin(minute: &mut MarginMinute, margin: Option<ArrivalMargin>)
    ensures { minute.new ≡ minute_with margin minute.old }
{
    if let Some(margin) = margin {
        minute.note(margin);
    }
}

/// Notes the number of a path's packets that came in time, if it is known.
fn note_in_time(watch: &mut CountWatch, now: i64, first: u64, copies: Option<CopyCounts>)
    ensures { watch.new ≡ in_time_count copies first now watch.old }
{
    if let Some(copies) = copies {
        watch.update(now, in_time_of(first, &copies));
    }
}

/// Notes the number of a path's packets that came late or too early, if it is known.
fn note_astray(watch: &mut CountWatch, now: i64, copies: Option<CopyCounts>)
    ensures { watch.new ≡ astray_count copies now watch.old }
{
    if let Some(copies) = copies {
        watch.update(now, astray_of(&copies));
    }
}

/// Returns true if packets came in the last two seconds, and all of them were late or too early.
fn is_astray(in_time: &CountWatch, astray: &CountWatch, now: i64) -> bool
    ensures { result ≡ is_astray in_time.now astray.now now }
{
    if in_time.is_still(now) {
        return !astray.is_still(now);
    }
    false
}

/// Returns true if the last packets of a path repeat numbers that were received in time, while no path is in time.
fn is_repeating(has_ended: bool, others: bool, copies: Option<CopyCounts>) -> bool
    ensures { result ≡ is_repeating has_ended others copies }
{
    if has_ended {
        return false;
    }
    if others {
        return false;
    }
    match copies {
        Some(copies) => copies.repeated >= REPEATS,
        None => false,
    }
}

/// Returns the number of a path's packets that came in time.
pub(crate) fn in_time_of(first: u64, copies: &CopyCounts) -> u64
    ensures { result ≡ in_time_of first copies.now }
{
    first
        .saturating_add(copies.double)
        .saturating_add(copies.unlike)
}

/// Returns the number of a path's packets that came late or too early.
fn astray_of(copies: &CopyCounts) -> u64
    ensures { result ≡ astray_of copies.now }
{
    copies.late.saturating_add(copies.ahead)
}
