//! The outputs of a run's status: its page, and the publisher of snapshots and lines.

use crate::count_lines::CountLines;
use crate::meter::Meter;
use crate::page_thread::{PageFault, PageThread};
use crate::publisher::{PublisherOutputs, StatusPublisher};
use rtrb::Producer;
use status_page::{Control, GainRequester, RunFacts, Snapshot, StreamName};
use std::alloc::{AllocError, Global};
use std::io::Write;
use std::net::Net;
use std::random::RandomSource;
use studio_config::StudioSpec;

/// The inputs of a run's status.
#[derive(Clone, Copy)]
pub struct StatusInputs<'a> {
    /// The name of each stream, if it has one.
    pub names: &'a [Option<StreamName>],
    /// The meter of the mix.
    pub meter: &'a Meter,
}

/// The outputs of a run's status, as far as they are wanted.
#[derive(Drop)]
pub struct StatusOutputs<'a, E> {
    /// The publisher. `None` if neither lines nor a page are wanted.
    pub publisher: Option<StatusPublisher<E>>,
    /// The meter of the mix of a run in one thread. `None` if no page is wanted.
    pub meter: Option<&'a Meter>,
}

/// The page of a run and the end of the ring for its snapshots. Both are `None` without a page.
#[derive(Drop)]
pub struct OpenPage<D: GainRequester> {
    /// The page's server. The caller runs it in a thread of its own.
    pub thread: Option<PageThread<D>>,
    /// The end of the ring into which the publisher puts snapshots.
    pub snapshots: Option<Producer<Snapshot>>,
}

/// Binds the page's port, if a page is wanted, which shows these facts of the run and gets this control of the run's
/// gains, if there is one. Returns `PageFault::Memory` if an allocation fails, and `PageFault::Page` if the port cannot
/// be bound.
pub fn open_page<R: Net + RandomSource, D: GainRequester>(
    rt: &R,
    alloc: Global,
    port: Option<u16>,
    facts: RunFacts,
    control: Option<Control<D>>,
) -> Result<OpenPage<D>, PageFault> {
    let Some(port) = port else {
        return Ok(OpenPage {
            thread: None,
            snapshots: None,
        });
    };
    let (thread, snapshots) = PageThread::bind(rt, alloc, port, facts, control)?;
    Ok(OpenPage {
        thread: Some(thread),
        snapshots: Some(snapshots),
    })
}

/// Returns the outputs of a run's status: snapshots for the page, if there is one, and lines for `faults` each `stats`
/// seconds, if lines are wanted. Allocates all their memory, and returns `AllocError` if that fails.
pub fn open_outputs<'a, E: Write + Drop>(
    alloc: Global,
    studio: &StudioSpec,
    stats: Option<u32>,
    inputs: StatusInputs<'a>,
    snapshots: Option<Producer<Snapshot>>,
    faults: E,
) -> Result<StatusOutputs<'a, E>, AllocError> {
    // The mix is measured only for a page.
    let has_page = snapshots.is_some();
    let publisher = open_publisher(alloc, studio, stats, inputs.names, snapshots, faults)?;
    Ok(StatusOutputs {
        publisher,
        meter: has_page.then_some(inputs.meter),
    })
}

/// Returns the publisher of a run's status, or `None` if neither lines nor a page are wanted.
fn open_publisher<E: Write + Drop>(
    alloc: Global,
    studio: &StudioSpec,
    stats: Option<u32>,
    names: &[Option<StreamName>],
    snapshots: Option<Producer<Snapshot>>,
    faults: E,
) -> Result<Option<StatusPublisher<E>>, AllocError> {
    if snapshots.is_none() && stats.is_none() {
        return Ok(None);
    }
    let now = studio.open_at();
    let lines = match stats {
        Some(seconds) => Some(CountLines::new(alloc, now, seconds)?),
        None => None,
    };
    let outputs = PublisherOutputs {
        lines,
        page: snapshots,
        writer: faults,
    };
    let channels = studio.output().channels();
    Ok(Some(StatusPublisher::new(alloc, studio.streams(), names, now, channels, outputs)?))
}
