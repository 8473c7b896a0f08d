//! The status of a stream in addition to its counts: its name, its latency and its condition.
ghost use Rattle.std.specs.Prelude.{◌≡◌, ◌≤◌, None, IfOk, slice_index_or};
ghost use Rattle.live_status.specs.Each.{AreEach};

use crate::signal_presence::SignalPresence;
use rtp_stream::StreamSpec;
use status_page::{PathState, StreamName, StreamState};
use std::alloc::{AllocError, Global};

/// The name of a stream, its fixed properties, and the presence of its signal.
#[derive(Drop)]
pub(crate) struct StreamStatus {
    name: Option<StreamName>,
    /// The latency, in sampling instants at 48 kHz.
    latency: u32,
    /// The number of paths.
    paths: u8,
    /// The presence of its signal, by the times at which its packets were taken.
    presence: SignalPresence,
    ghost few: { paths ≤ 4 },
}

impl StreamStatus {
    ghost use Rattle.status_page.specs.Blank.{IsBlank};
    ghost use Rattle.live_status.specs.Conditions.{updated, with_condition};
    ghost use Rattle.live_status.specs.StreamStatus.{IsNewStatus, IsNewStatusAt};

    /// Returns the status of a stream with a name, before any packet was taken. `now` is in sampling instants.
    pub(crate) fn new(name: Option<StreamName>, stream: &StreamSpec, now: i64) -> StreamStatus
        ensures { IsNewStatus name now stream.now result }
    {
        StreamStatus {
            name,
            latency: stream.latency(),
            paths: stream.paths(),
            presence: SignalPresence::new(now),
        }
    }

    /// Returns the status of these streams with their names, before any packet was taken. `now` is in sampling
    /// instants. Returns `AllocError` if an allocation fails.
    pub(crate) fn of_streams(
        alloc: Global,
        streams: &[StreamSpec],
        names: &[Option<StreamName>],
        now: i64,
    ) -> Result<Vec<StreamStatus>, AllocError>
        ensures { IfOk result (λ statuses. AreEach (IsNewStatusAt names.now now) streams.now statuses.items) }
    {
        let mut statuses = Vec::with_capacity(alloc, streams.len())?;
        for (number, stream) in streams.iter().enumerate() {
            statuses.push(StreamStatus::new(name_at(names, number), stream, now))?;
        }
        Ok(statuses)
    }

    /// Returns the state of the stream for a snapshot, in which all counts are 0.
    pub(crate) fn blank(&self) -> StreamState
        ensures { IsBlank self.now.name self.now.latency self.now.paths result }
    {
        let mut stream = StreamState::default();
        stream.name = self.name;
        stream.latency = u64::from(self.latency);
        for _ in 0..self.paths {
            // There is space for four paths, as many as a stream has at most.
            let _ = stream.paths.try_push(PathState::default());
        }
        stream
    }

    /// Sets the condition of the stream at the time `now`, by the number of its packets that were taken.
    pub(crate) fn set_condition(&mut self, now: i64, stream: &mut StreamState, has_ended: bool)
        ensures stream { stream.new ≡ with_condition self.old.presence now has_ended stream.old }
        ensures status { self.new ≡ updated stream.old.counts.taken now self.old }
    {
        stream.condition = self.presence.update(now, stream.counts.taken, has_ended);
    }
}

/// Returns the name at a place, or `None` if there is none.
fn name_at(names: &[Option<StreamName>], number: usize) -> Option<StreamName>
    ensures { result ≡ slice_index_or names.now number None }
{
    match names.get(number) {
        Some(name) => *name,
        None => None,
    }
}
