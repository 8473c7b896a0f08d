//! The publisher of a run's status while it goes on: snapshots for its page, and lines on standard error.
ghost use Rattle.std.specs.Prelude.{
  ◌≡◌,
  ◌≤◌,
  ◌^◌,
  [],
  min,
  pos,
  replicate,
  length,
  IfOk,
  IsNone,
  IsSomeAnd,
  MatchOption,
  ◌≤ℤ◌,
  ◌+ℤ◌,
};
ghost use Rattle.live_status.specs.Each.{AreEach};
ghost use Rattle.live_status.specs.Outputs.{blank_output};
ghost use Rattle.live_status.specs.Conditions.{Updates, UpdatesAt, SetsCondition};
ghost use Rattle.live_status.specs.StreamStatus.{IsBlankOf, IsNewStatusAt};
ghost use Rattle.live_status.specs.StreamWatch.{IsNewWatchAt, ShowsStreams};

use crate::count_lines::CountLines;
use crate::reception_watch::stream_watch::StreamWatch;
use crate::reception_watch::{note_streams, show_watches, watches_of};
use crate::stream_status::StreamStatus;
use rtp_stats::MAX_CHANNELS;
use rtp_stream::StreamSpec;
use rtrb::Producer;
use status_page::{ChannelState, Snapshot, StreamName, StreamState};
use std::alloc::{AllocError, Global};
use std::io::Write;

/// The period of snapshots, in sampling instants at 48 kHz: a tenth of a second.
// The page asks for a snapshot ten times a second, and the workers send their statistics as often. The watches of the
// streams need each second, also if only lines are wanted.
const SNAPSHOT_INTERVAL: i64 = 4_800;

/// The publisher of a run's status, to its page and as lines on standard error.
#[derive(Drop)]
pub struct StatusPublisher<E> {
    streams: Vec<StreamStatus>,
    /// The watch of each stream.
    watches: Vec<StreamWatch>,
    /// The schedule of the lines, if lines are wanted.
    lines: Option<CountLines>,
    /// The ring to the page, if there is one. A snapshot that finds it full is dropped.
    page: Option<Producer<Snapshot>>,
    /// The time at which the next snapshot is due, in sampling instants.
    next: i64,
    /// The number of output channels.
    channels: usize,
    /// The writer of the lines.
    writer: E,
    ghost few: { channels ≤ 8 },
}

/// The outputs of a publisher.
#[derive(Drop)]
pub(crate) struct PublisherOutputs<E> {
    /// The schedule of the lines, if lines are wanted.
    pub(crate) lines: Option<CountLines>,
    /// The ring to the page, if there is one.
    pub(crate) page: Option<Producer<Snapshot>>,
    /// The writer of the lines.
    pub(crate) writer: E,
}

impl<E: Write + Drop> StatusPublisher<E> {
    ghost use Rattle.rtp_stats.specs.Channel.{Gives};
    ghost use Rattle.live_status.specs.Publisher.{HasStopped, IsBlankSnapshot, IsShown, Shows, is_due_at};
    ghost use Rattle.live_status.specs.SnapshotLines.{WritesLines, snapshot_lines};

    /// Returns the publisher of the status of these streams and this many output channels; channels past the eighth are
    /// ignored. `now` is in sampling instants. Allocates all its memory, and returns `AllocError` if that fails.
    pub(crate) fn new(
        alloc: Global,
        streams: &[StreamSpec],
        names: &[Option<StreamName>],
        now: i64,
        channels: u8,
        outputs: PublisherOutputs<E>,
    ) -> Result<StatusPublisher<E>, AllocError>
        ensures streams { IfOk result
            (λ publisher. AreEach (IsNewStatusAt names.now now) streams.now publisher.streams.items) }
        ensures watches { IfOk result
            (λ publisher. AreEach (IsNewWatchAt now) streams.now publisher.watches.items) }
        ensures next { IfOk result (λ publisher. publisher.next ≡ now) }
        ensures page { IfOk result (λ publisher. (publisher.page ≡ outputs.page) × (publisher.lines ≡ outputs.lines)) }
        ensures channels { IfOk result (λ publisher. publisher.channels ≡ min channels 8) }
    {
        let watches = watches_of(alloc, streams, now)?;
        let streams = StreamStatus::of_streams(alloc, streams, names, now)?;
        let PublisherOutputs {
            lines,
            page,
            writer,
        } = outputs;
        Ok(StatusPublisher {
            streams,
            watches,
            lines,
            page,
            next: now,
            channels: usize::from(channels).min(MAX_CHANNELS),
            writer,
        })
    }

    /// Returns true if a snapshot or lines are due at the time `now`, in sampling instants.
    pub fn is_due(&self, now: i64) -> bool
        ensures { result ≡ is_due_at self.now now }
    {
        if now >= self.next {
            return true;
        }
        match &self.lines {
            Some(lines) => lines.is_due(now),
            None => false,
        }
    }

    /// Returns a snapshot of all streams and output channels in which all counts are 0. The caller fills in the counts
    /// that it knows, and passes it to `publish`.
    pub fn blank_snapshot(&self) -> Snapshot
        ensures { IsBlankSnapshot self.now.streams.items self.now.channels result }
    {
        let mut snapshot = Snapshot::new();
        add_streams(&mut snapshot, self.streams.as_slice());
        add_outputs(&mut snapshot, self.channels);
        snapshot
    }

    /// Publishes a snapshot at the time `now`, in sampling instants: sets the condition of each stream and the drift of
    /// each path, writes the lines that are due, and sends the snapshot to the page. `have_ended` is true if the
    /// streams have ended.
    pub fn publish(&mut self, now: i64, mut snapshot: Snapshot, have_ended: bool)
        ensures shown { Shows self.old.watches.items self.old.streams.items now have_ended snapshot
            self.old.page self.new.page }
        ensures lines { (shown : Snapshot)
            × IsShown self.old.watches.items self.old.streams.items now have_ended snapshot shown
            × WritesLines (HasStopped self.new.lines)
            (E.contents self.old.writer) (snapshot_lines now shown) (E.contents self.new.writer) }
        ensures streams { AreEach (Updates snapshot.streams.items now) self.old.streams.items self.new.streams.items }
        ensures next { self.new.next ≤ℤ (now +ℤ SNAPSHOT_INTERVAL) }
        ensures waits { now ≤ℤ pos (2 ^ 62) → self.new.next ≡ now +ℤ SNAPSHOT_INTERVAL }
    {
        self.next = now.saturating_add(SNAPSHOT_INTERVAL);
        self.set_shown(now, &mut snapshot, have_ended);
        self.write_lines(now, &snapshot);
        self.show_page(snapshot);
    }

    /// Sets the condition of each stream of a snapshot at the time `now`, and what its watch shows of it.
    fn set_shown(&mut self, now: i64, snapshot: &mut Snapshot, have_ended: bool)
        ensures shown { IsShown self.old.watches.items self.old.streams.items now have_ended
            snapshot.old snapshot.new }
        ensures streams { AreEach (Updates snapshot.old.streams.items now)
            self.old.streams.items self.new.streams.items }
        ensures lines { (self.new.lines ≡ self.old.lines) × (self.new.writer ≡ self.old.writer) }
        ensures page { (self.new.page ≡ self.old.page) × (self.new.next ≡ self.old.next) }
    {
        let statuses = self.streams.as_mut_slice();
        let watches = self.watches.as_mut_slice();
        let streams = snapshot.streams.as_mut_slice();
        set_streams(statuses, watches, now, streams, have_ended);
    }

    /// Writes the lines that are due at the time `now`.
    fn write_lines(&mut self, now: i64, snapshot: &Snapshot)
        ensures lines { WritesLines (HasStopped self.new.lines)
            (E.contents self.old.writer) (snapshot_lines now snapshot.now) (E.contents self.new.writer) }
        ensures streams { self.new.streams ≡ self.old.streams }
        ensures page { (self.new.page ≡ self.old.page) × (self.new.next ≡ self.old.next) }
    {
        if let Some(lines) = &mut self.lines {
            if lines.is_due(now) {
                lines.write_due(now, snapshot, &mut self.writer);
            }
        }
    }

    /// Sends a snapshot to the page, if there is one.
    fn show_page(&mut self, snapshot: Snapshot)
        ensures shown { MatchOption self.old.page (IsNone self.new.page)
            (λ ring. IsSomeAnd self.new.page (Gives snapshot ring)) }
        ensures lines { (self.new.lines ≡ self.old.lines) × (self.new.writer ≡ self.old.writer) }
        ensures streams { self.new.streams ≡ self.old.streams }
        ensures next { self.new.next ≡ self.old.next }
    {
        if let Some(page) = &mut self.page {
            // A full ring means that the page's thread is slow. The run does not wait for its page.
            let _ = page.push(snapshot);
        }
    }
}

/// Adds these streams to a snapshot that has none.
fn add_streams(snapshot: &mut Snapshot, statuses: &[StreamStatus])
    requires { snapshot.old.streams.items ≡ [] }
    ensures streams { length statuses.now ≤ 16 → AreEach IsBlankOf statuses.now snapshot.new.streams.items }
    ensures outputs { snapshot.new.outputs ≡ snapshot.old.outputs }
{
    for status in statuses {
        // A snapshot has space for 16 streams, as many as a studio has at most.
        let _ = snapshot.streams.try_push(status.blank());
    }
}

/// Adds this many output channels to a snapshot that has none.
fn add_outputs(snapshot: &mut Snapshot, channels: usize)
    requires none { snapshot.old.outputs.items ≡ [] }
    requires few { channels ≤ 8 }
    ensures outputs { snapshot.new.outputs.items ≡ replicate channels blank_output }
    ensures streams { snapshot.new.streams ≡ snapshot.old.streams }
{
    for _ in 0..channels {
        // A snapshot has space for eight channels.
        let _ = snapshot.outputs.try_push(ChannelState::default());
    }
}

/// Sets the condition of each of these streams at the time `now`, and what their watches show of them.
fn set_streams(
    statuses: &mut [StreamStatus],
    watches: &mut [StreamWatch],
    now: i64,
    streams: &mut [StreamState],
    have_ended: bool,
)
    ensures streams { ShowsStreams watches.old statuses.old now have_ended streams.old streams.new }
    ensures statuses { AreEach (Updates streams.old now) statuses.old statuses.new }
    ensures watches { length watches.new ≡ length watches.old }
{
    set_conditions(statuses, now, streams, have_ended);
    note_streams(watches, now, streams);
    show_watches(watches, have_ended, streams);
}

/// Sets the condition of each of these streams at the time `now`.
fn set_conditions(
    statuses: &mut [StreamStatus],
    now: i64,
    streams: &mut [StreamState],
    have_ended: bool,
)
    ensures streams { AreEach (SetsCondition statuses.old now have_ended) streams.old streams.new }
    ensures statuses { AreEach (Updates streams.old now) statuses.old statuses.new }
{
    for (number, stream) in streams.iter_mut().enumerate() {
        set_condition_at(statuses, number, now, stream, have_ended);
    }
}

/// Sets the condition of the stream of this number at the time `now`.
fn set_condition_at(
    statuses: &mut [StreamStatus],
    number: usize,
    now: i64,
    stream: &mut StreamState,
    has_ended: bool,
)
    ensures stream { SetsCondition statuses.old now has_ended number stream.old stream.new }
    ensures statuses { UpdatesAt number stream.old.counts.taken now statuses.old statuses.new }
{
    if number < statuses.len() {
        statuses[number].set_condition(now, stream, has_ended);
    }
}
