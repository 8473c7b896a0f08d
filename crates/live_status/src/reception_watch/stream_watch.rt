//! The watch of a stream and of its paths.
ghost use Rattle.std.specs.Prelude.{◌≡◌, ◌*◌, None, IfOk, not, ◌==◌};
ghost use Rattle.live_status.specs.Each.{AreEach};
ghost use Rattle.live_status.specs.Watch.{NotesPath, ShowsPath, any_in_time, left_with, most_left};

use crate::reception_watch::arrival_watch::ArrivalWatch;
use rtp_stream::StreamSpec;
use status_page::{PathState, StreamState};
use std::alloc::{AllocError, Global};

/// The watch of a stream.
#[derive(Drop)]
pub(crate) struct StreamWatch {
    /// The time that the stream's window holds, in sampling instants.
    window_span: u32,
    /// The number of the epoch at the last update.
    restarts: u64,
    /// The watch of each path; those of paths that the stream does not have show nothing.
    paths: [ArrivalWatch; 4],
}

impl StreamWatch {
    ghost use Rattle.live_status.specs.StreamWatch.{IsNewWatch, NotesStream, ShowsWatch};

    /// Returns the watch of a stream without an arrival by the time `now`, in sampling instants.
    pub(crate) fn new(stream: &StreamSpec, now: i64) -> StreamWatch
        ensures { IsNewWatch now stream.now result }
    {
        StreamWatch {
            window_span: u32::from(stream.window()) * u32::from(stream.frames()),
            restarts: 0,
            paths: [
                ArrivalWatch::new(now),
                ArrivalWatch::new(now),
                ArrivalWatch::new(now),
                ArrivalWatch::new(now),
            ],
        }
    }

    /// Notes the state of the stream at the time `now`, in sampling instants.
    pub(crate) fn note(&mut self, now: i64, stream: &StreamState)
        ensures { NotesStream now stream.now self.old self.new }
    {
        let begins = stream.counts.restarts != self.restarts;
        self.restarts = stream.counts.restarts;
        let paths = stream.paths.as_slice();
        note_paths(&mut self.paths, now, self.window_span, begins, paths);
    }

    /// Fills in what the watch shows of the stream. `has_ended` is true if the stream has ended.
    pub(crate) fn show(&self, has_ended: bool, stream: &mut StreamState)
        ensures { ShowsWatch has_ended self.now stream.old stream.new }
    {
        stream.seconds_left = most_left(&self.paths);
        let others = any_in_time(&self.paths);
        let paths = stream.paths.as_mut_slice();
        show_paths(&self.paths, has_ended, others, paths);
    }
}

/// Notes the state of each path.
fn note_paths(
    watches: &mut [ArrivalWatch],
    now: i64,
    window_span: u32,
    begins: bool,
    paths: &[PathState],
)
    ensures { AreEach (NotesPath now window_span begins paths.now) watches.old watches.new }
{
    for (place, watch) in watches.iter_mut().enumerate() {
        note_path_at(paths, place, now, window_span, begins, watch);
    }
}

/// Notes the state of the path at a place, if the stream has one there.
fn note_path_at(
    paths: &[PathState],
    place: usize,
    now: i64,
    window_span: u32,
    begins: bool,
    watch: &mut ArrivalWatch,
)
    ensures { NotesPath now window_span begins paths.now place watch.old watch.new }
{
    if let Some(path) = paths.get(place) {
        watch.note(now, window_span, begins, path);
    }
}

/// Returns true if some path brought a packet in time in the last two seconds.
fn any_in_time(watches: &[ArrivalWatch]) -> bool
    ensures { result ≡ any_in_time watches.now }
{
    let mut found = false;
    for watch in watches {
        if watch.is_in_time {
            found = true;
        }
    }
    found
}

/// Returns the greatest time left of these paths, or `None` if no drift is known.
fn most_left(watches: &[ArrivalWatch]) -> Option<u64>
    ensures { result ≡ most_left watches.now }
{
    let mut most = None;
    for watch in watches {
        most = left_with(most, watch);
    }
    most
}

/// Returns the greater of a time left and that of a path.
fn left_with(most: Option<u64>, watch: &ArrivalWatch) -> Option<u64>
    ensures { result ≡ left_with most watch.now }
{
    let Some(drift) = watch.drift else {
        return most;
    };
    match most {
        Some(left) => Some(left.max(drift.left)),
        None => Some(drift.left),
    }
}

/// Fills in what these watches show of each path.
fn show_paths(watches: &[ArrivalWatch], has_ended: bool, others: bool, paths: &mut [PathState])
    ensures { AreEach (ShowsPath has_ended others watches.now) paths.old paths.new }
{
    for (place, path) in paths.iter_mut().enumerate() {
        show_path_at(watches, place, has_ended, others, path);
    }
}

/// Fills in what the watch at a place shows of a path, if there is one.
fn show_path_at(
    watches: &[ArrivalWatch],
    place: usize,
    has_ended: bool,
    others: bool,
    path: &mut PathState,
)
    ensures { ShowsPath has_ended others watches.now place path.old path.new }
{
    if let Some(watch) = watches.get(place) {
        watch.show(has_ended, others, path);
    }
}
