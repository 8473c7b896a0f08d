//! When the datagrams of the mix are due, how long they are useful, and how far the mix has come.
ghost use Rattle.std.specs.Prelude.{◌≡◌, ◌↔◌, ◌+◌, ◌*◌, ◌≤◌, ◌^◌, pos, ◌≤ℤ◌, ◌<ℤ◌, ◌+ℤ◌, IsTrue};
ghost use Rattle.live_io.specs.MixSpans.{greatest_latency, greatest_span, latency_with, span_of, span_with};

use rtp_stream::StreamSpec;
use std::sync::atomic::{AtomicI64, AtomicU64, Ordering};
use studio_config::StudioSpec;

/// A second, in sampling instants.
const SECOND: u32 = 48_000;

/// The time from which on the end of the next block is no longer moved, in sampling instants.
// No run comes so far: it is more than a million years.
const LAST_END: i64 = 1 << 61;

/// The time at which a datagram of the mix is due, and for how long it is useful after it, in sampling instants.
#[derive(Clone, Copy)]
pub struct MixDue {
    /// The time at which it is due.
    pub at: i64,
    /// The time from then on in which it is useful.
    pub useful: u32,
}

impl MixDue {
    ghost use Rattle.live_io.specs.MixTimes.{IsStale, IsWithin};

    /// Returns true if the datagram is useless to every receiver at this time.
    pub fn is_stale(&self, now: i64) -> bool
        ensures { IsTrue result ↔ IsStale self.now now }
    {
        now.saturating_sub(self.at) > i64::from(self.useful)
    }

    /// Returns true if the datagram is overdue by no more than this many sampling instants.
    pub fn is_within(&self, tolerance: u32, now: i64) -> bool
        ensures { IsTrue result ↔ IsWithin tolerance self.now now }
    {
        now.saturating_sub(self.at) <= i64::from(tolerance)
    }
}

/// The times of a mix: the end of its next block, and what the times of its datagrams depend on, in sampling instants.
#[derive(Clone, Copy)]
pub struct MixTimes {
    /// The end of the next block.
    end: i64,
    /// The length of each block.
    frames: u16,
    open_at: i64,
    /// The greatest latency of the streams.
    latency: u32,
    /// The greatest span of their windows.
    span: u32,
    ghost not_late: { end ≤ℤ pos (2 ^ 61 + 65536) },
    ghost opened: { open_at ≤ℤ pos (2 ^ 60) },
    ghost short: { span ≤ 65535 * 65535 },
}

impl MixTimes {
    ghost use Rattle.live_io.specs.MixTimes.{BeginMix, due_after, due_of};

    /// Returns the times of a studio's mix before its first block.
    pub fn of(studio: &StudioSpec) -> MixTimes
        ensures { BeginMix studio.now result }
    {
        let output = studio.output();
        MixTimes {
            end: output.start() + i64::from(output.frames()),
            frames: output.frames(),
            open_at: studio.open_at(),
            latency: greatest_latency(studio.streams()),
            span: greatest_span(studio.streams()),
        }
    }

    /// Returns when the datagram of the next block is due: at the end of the block, or at the opening if that is later,
    /// and the greatest latency later. It is useful for as long as the greatest window spans, and a second more.
    pub fn due(&self) -> MixDue
        ensures { result ≡ due_of self.now }
    {
        MixDue {
            at: self.end.max(self.open_at) + i64::from(self.latency),
            useful: self.span + SECOND,
        }
    }

    /// Returns when a copy of that datagram is due that waits for so long, in sampling instants. From then on it is
    /// useful for as long as one that does not wait.
    pub fn due_after(&self, delay: u32) -> MixDue
        ensures { result ≡ due_after delay self.now }
    {
        let due = self.due();
        MixDue {
            at: due.at + i64::from(delay),
            useful: due.useful,
        }
    }

    /// Goes on to the block after the next.
    pub fn advance(&mut self)
        ensures end { self.old.end <ℤ pos (2 ^ 61) → self.new.end ≡ (self.old.end +ℤ pos self.old.frames) }
        ensures frames { self.new.frames ≡ self.old.frames }
        ensures open_at { self.new.open_at ≡ self.old.open_at }
        ensures latency { self.new.latency ≡ self.old.latency }
        ensures span { self.new.span ≡ self.old.span }
    {
        if self.end < LAST_END {
            self.end += i64::from(self.frames);
        }
    }
}

/// Returns the greatest latency of streams, in sampling instants.
pub fn greatest_latency(streams: &[StreamSpec]) -> u32
    ensures { result ≡ greatest_latency streams.now }
{
    let mut most = 0;
    for stream in streams {
        most = latency_with(most, stream);
    }
    most
}

/// Returns the greater of a latency and that of a stream.
fn latency_with(most: u32, stream: &StreamSpec) -> u32
    ensures { result ≡ latency_with most stream.now }
{
    most.max(stream.latency())
}

/// Returns what the greatest of the streams' windows spans, in sampling instants.
fn greatest_span(streams: &[StreamSpec]) -> u32
    ensures value { result ≡ greatest_span streams.now }
    ensures short { result ≤ 65535 * 65535 }
{
    let mut most = 0;
    for stream in streams {
        most = span_with(most, stream);
    }
    most
}

/// Returns the greater of a span and that of a stream's window.
fn span_with(most: u32, stream: &StreamSpec) -> u32
    ensures value { result ≡ span_with most stream.now }
    ensures short { most ≤ 65535 * 65535 → result ≤ 65535 * 65535 }
{
    most.max(span_of(stream))
}

/// Returns what a stream's window spans, in sampling instants.
pub(crate) fn span_of(stream: &StreamSpec) -> u32
    ensures value { result ≡ span_of stream.now }
    ensures short { result ≤ 65535 * 65535 }
{
    u32::from(stream.window()) * u32::from(stream.frames())
}

/// The progress of a run's mix: when its next datagram is due, how many were stale or lacked a stream, and what became
/// of those.
// Atomics, since the thread of the mix writes, and those of the feeds and of the status read.
#[derive(Drop)]
pub struct MixProgress {
    begin: MixTimes,
    /// The time at which the next datagram is due, in sampling instants.
    due_at: AtomicI64,
    stale: AtomicU64,
    incomplete: AtomicU64,
    sent_late: AtomicU64,
    left_out: AtomicU64,
}

impl MixProgress {
    /// Returns the progress of a studio's mix before its first block.
    pub fn new(studio: &StudioSpec) -> MixProgress {
        let begin = MixTimes::of(studio);
        MixProgress {
            begin,
            due_at: AtomicI64::new(begin.due().at),
            stale: AtomicU64::new(0),
            incomplete: AtomicU64::new(0),
            sent_late: AtomicU64::new(0),
            left_out: AtomicU64::new(0),
        }
    }

    /// Returns the times of the mix before its first block.
    pub fn begin(&self) -> MixTimes {
        self.begin
    }

    /// Returns when the next datagram of the mix is due.
    pub fn due(&self) -> MixDue {
        MixDue {
            at: self.due_at.load(Ordering::SeqCst),
            useful: self.begin.due().useful,
        }
    }

    /// Returns the number of datagrams that were not sent because they were stale.
    pub fn stale(&self) -> u64 {
        self.stale.load(Ordering::SeqCst)
    }

    /// Returns the number of datagrams in whose block a stream was missing, sent or not, in a run whose copies wait for
    /// that. In other runs it is 0.
    pub fn incomplete(&self) -> u64 {
        self.incomplete.load(Ordering::SeqCst)
    }

    /// Returns the number of datagrams that were sent later than one in whose block nothing is missing.
    pub fn sent_late(&self) -> u64 {
        self.sent_late.load(Ordering::SeqCst)
    }

    /// Returns the number of datagrams that were left out because nothing was in them that a listener lacks, or because
    /// the run ended before their time.
    pub fn left_out(&self) -> u64 {
        self.left_out.load(Ordering::SeqCst)
    }

    /// Sets when the next datagram of the mix is due.
    pub(crate) fn set_due(&self, due: MixDue) {
        self.due_at.store(due.at, Ordering::SeqCst);
    }

    /// Counts a datagram that was not sent because it was stale.
    pub(crate) fn note_stale(&self) {
        self.stale.fetch_add(1, Ordering::SeqCst);
    }

    /// Counts a datagram in whose block a stream is missing.
    pub(crate) fn note_incomplete(&self) {
        self.incomplete.fetch_add(1, Ordering::SeqCst);
    }

    /// Counts a datagram that was sent later.
    pub(crate) fn note_sent_late(&self) {
        self.sent_late.fetch_add(1, Ordering::SeqCst);
    }

    /// Counts datagrams that were left out.
    pub(crate) fn note_left_out(&self, count: u64) {
        self.left_out.fetch_add(count, Ordering::SeqCst);
    }
}
