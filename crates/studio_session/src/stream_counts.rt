//! The counts of a run: of each path, and of each merge.
ghost use Rattle.std.specs.Prelude.{◌≡◌, ℕ, ℤ, List, All, IfOk};
ghost use Rattle.rtp_stream.specs.declared.stream_spec.Stream.{Stream};
ghost use Rattle.studio_config.specs.Studio.{Studio};
ghost use Rattle.studio_session.specs.Event.{TraceEvent};
ghost use Rattle.rtp_stream.specs.PathCounts.{tallies_of};
ghost use Rattle.studio_session.specs.Counts.{AreTallies, path_tallies};
ghost use Rattle.studio_session.specs.Cursor.{IsReadyFor, IsRunnable};
ghost use Rattle.studio_session.specs.Play.{IsRunnableBy};
ghost use Rattle.studio_session.specs.Report.{AreCounts, AreCountsOf, ArePulled, HasPulledSome};

use crate::cursor::Cursor;
use crate::finish::finish_stream;
use crate::source::EventSource;
use rtp_stream::{Path, PathCounts, StreamCounts};
use std::alloc::{AllocError, Global};

/// Returns the counts of each path of a stream.
fn all_path_counts(alloc: Global, cursor: &Cursor) -> Result<Vec<PathCounts>, AllocError>
    ensures { IfOk result (λ counts. (stream : Stream) (number : ℕ) (events : List TraceEvent)
        → AreTallies stream number events cursor.now.tallies
        → tallies_of counts.items ≡ path_tallies stream number events cursor.now.spec.paths) }
{
    let mut counts = Vec::new(alloc);
    for place in 0..cursor.spec().paths() {
        let Some(path) = Path::new(place) else {
            unreachable!()
        };
        counts.push(cursor.path_counts(path))?;
    }
    Ok(counts)
}

/// Returns the counts of a stream after all its marks.
fn stream_counts<E: EventSource>(
    alloc: Global,
    cursor: &mut Cursor,
    source: &E,
) -> Result<StreamCounts, AllocError>
    requires ready { IsReadyFor (E.events source.now) cursor.old }
    ensures ready { IsReadyFor (E.events source.now) cursor.new }
    ensures counts { IfOk result (λ counts. (stream : Stream) (number : ℕ) (open_at : ℤ)
        → IsRunnable stream number open_at (E.events source.now)
        → HasPulledSome stream number open_at (E.events source.now) cursor.old
        → AreCountsOf stream number open_at (E.events source.now) counts) }
{
    finish_stream(cursor, source);
    let paths = all_path_counts(alloc, cursor)?;
    Ok(StreamCounts {
        paths,
        merge: cursor.counts(),
    })
}

/// Returns the counts of each stream after all marks.
pub(crate) fn all_counts<E: EventSource>(
    alloc: Global,
    cursors: &mut [Cursor],
    source: &E,
) -> Result<Vec<StreamCounts>, AllocError>
    requires ready { All (IsReadyFor (E.events source.now)) cursors.old }
    ensures { IfOk result (λ counts. (studio : Studio) → IsRunnableBy studio (E.events source.now)
        → ArePulled studio (E.events source.now) cursors.old → AreCounts studio (E.events source.now) counts.items) }
{
    let mut counts = Vec::new(alloc);
    for number in 0..cursors.len() {
        let counted = stream_counts(alloc, &mut cursors[number], source)?;
        counts.push(counted)?;
    }
    Ok(counts)
}
