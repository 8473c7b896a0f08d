//! The watch of all streams: the condition and the drift of each path, the time that is left, and paths without a
//! packet in time. `stream_watch` has the watch of a stream, `arrival_watch` of a path, `second_watch` of what comes on
//! it second by second, and `count_watch` the time since which a count stays.
ghost use Rattle.std.specs.Prelude.{IfOk};
ghost use Rattle.live_status.specs.Each.{AreEach};
ghost use Rattle.live_status.specs.StreamWatch.{IsNewWatchAt, NotesStreamAt, ShowsWatchAt};

use crate::reception_watch::stream_watch::StreamWatch;
use rtp_stream::StreamSpec;
use status_page::StreamState;
use std::alloc::{AllocError, Global};

mod arrival_watch;
mod count_watch;
mod second_watch;
pub(crate) mod stream_watch;

/// Returns the watch of each of these streams. No packet arrived by the time `now`, in sampling instants.
/// Returns `AllocError` if an allocation fails.
pub(crate) fn watches_of(
    alloc: Global,
    streams: &[StreamSpec],
    now: i64,
) -> Result<Vec<StreamWatch>, AllocError>
    ensures { IfOk result (λ watches. AreEach (IsNewWatchAt now) streams.now watches.items) }
{
    let mut watches = Vec::with_capacity(alloc, streams.len())?;
    for stream in streams {
        watches.push(StreamWatch::new(stream, now))?;
    }
    Ok(watches)
}

/// Notes the state of each stream at the time `now`, in sampling instants.
pub(crate) fn note_streams(watches: &mut [StreamWatch], now: i64, streams: &[StreamState])
    ensures { AreEach (NotesStreamAt now streams.now) watches.old watches.new }
{
    for (number, watch) in watches.iter_mut().enumerate() {
        note_stream_at(streams, number, now, watch);
    }
}

/// Notes the state of the stream of this number, if there is one.
fn note_stream_at(streams: &[StreamState], number: usize, now: i64, watch: &mut StreamWatch)
    ensures { NotesStreamAt now streams.now number watch.old watch.new }
{
    if let Some(stream) = streams.get(number) {
        watch.note(now, stream);
    }
}

/// Fills in what these watches show of each stream. `have_ended` is true if the streams have ended.
pub(crate) fn show_watches(watches: &[StreamWatch], have_ended: bool, streams: &mut [StreamState])
    ensures { AreEach (ShowsWatchAt have_ended watches.now) streams.old streams.new }
{
    for (number, stream) in streams.iter_mut().enumerate() {
        show_watch_at(watches, number, have_ended, stream);
    }
}

/// Fills in what the watch of this number shows of a stream, if there is one.
fn show_watch_at(watches: &[StreamWatch], number: usize, has_ended: bool, stream: &mut StreamState)
    ensures { ShowsWatchAt has_ended watches.now number stream.old stream.new }
{
    if let Some(watch) = watches.get(number) {
        watch.show(has_ended, stream);
    }
}
