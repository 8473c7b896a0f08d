//! A feed of a run with the state of reading it.
ghost use Rattle.std.specs.Prelude.{◌≡◌, drop, length, map, take, true, IsTrue, IfOk, OnOk};
ghost use Rattle.std.specs.Vec.Iter.{into_iter_items};
ghost use Rattle.engine_run.specs.Grouping.{path_total};
ghost use Rattle.engine_run.specs.Intake.{AllEnded, HaveBegun, HaveEnded, new_reader};

use rtp_stream::StreamSpec;
use std::alloc::{AllocError, Global};
use std::vec::IntoIter;
use studio_io::FeedState;

/// A feed with the state of reading it.
#[derive(Drop)]
pub(crate) struct FeedReader<F> {
    pub(crate) feed: F,
    pub(crate) state: FeedState,
}

impl<F: Drop> FeedReader<F> {
    /// Returns a reader of a feed that was not called yet.
    pub(crate) fn new(feed: F) -> FeedReader<F>
        ensures { result ≡ new_reader feed }
    {
        FeedReader {
            feed,
            state: FeedState::new(),
        }
    }
}

/// Allocates the readers of the next `count` feeds, or of those that are left. None of the feeds was called yet.
fn next_readers<F: Drop>(
    alloc: Global,
    feeds: &mut IntoIter<F>,
    count: u8,
) -> Result<Vec<FeedReader<F>>, AllocError>
    ensures taken { IfOk result (λ own. own.items ≡ map new_reader (take count (into_iter_items feeds.old))) }
    ensures left { OnOk result (into_iter_items feeds.new ≡ drop count (into_iter_items feeds.old)) }
{
    let mut own = Vec::with_capacity(alloc, usize::from(count))?;
    for _ in 0..count {
        let Some(feed) = feeds.next() else {
            return Ok(own);
        };
        own.push(FeedReader::new(feed))?;
    }
    Ok(own)
}

/// Allocates the readers of these streams' feeds, which are ordered by stream and then by path. None was called yet.
/// Also returns true if there is one feed for each path.
pub(crate) fn all_readers<F: Drop>(
    alloc: Global,
    feeds: Vec<F>,
    specs: &[StreamSpec],
) -> Result<(Vec<Vec<FeedReader<F>>>, bool), AllocError>
    ensures begun { IfOk result (λ r. HaveBegun specs.now feeds.items r.0.items) }
    ensures fits { IfOk result (λ r. r.1 ≡ true → length feeds.items ≡ path_total specs.now) }
{
    let mut readers = Vec::with_capacity(alloc, specs.len())?;
    let mut feeds = feeds.into_iter();
    let mut enough = true;
    for stream in 0..specs.len() {
        let count = specs[stream].paths();
        let own = next_readers(alloc, &mut feeds, count)?;
        enough &= own.len() == usize::from(count);
        readers.push(own)?;
    }
    let fits = enough & (feeds.len() == 0);
    Ok((readers, fits))
}

/// Returns true if every feed of a stream has ended.
fn have_ended<F: Drop>(readers: &[FeedReader<F>]) -> bool
    ensures { IsTrue result → HaveEnded readers.now }
{
    for place in 0..readers.len() {
        if !readers[place].state.ended {
            return false;
        }
    }
    true
}

/// Returns true if every feed has ended.
pub(crate) fn have_all_ended<F: Drop>(streams: &[Vec<FeedReader<F>>]) -> bool
    ensures { IsTrue result → AllEnded streams.now }
{
    for place in 0..streams.len() {
        if !have_ended(streams[place].as_slice()) {
            return false;
        }
    }
    true
}
