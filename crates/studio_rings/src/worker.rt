//! The pause of a worker that has nothing to do. `path`, `stream` and `mixer` are the workers; `clocked_stream` and
//! `clocked_turn` are a stream's end with its clock, and its turns; `gain_requests` asks a source of gains.

use std::sync::Wait;
use std::thread::Parker;
use std::time::Duration;

pub(crate) mod clocked_stream;
mod clocked_turn;
pub(crate) mod gain_requests;
pub(crate) mod mixer;
pub(crate) mod path;
pub(crate) mod stream;

/// The first pause of most workers, in microseconds: 1 ms.
// The packet time that all AES67 devices have: about one packet of a path comes in such a pause.
const FIRST: u64 = 1_000;

/// Pauses that grow while nothing arrives: each is twice the one before, up to a longest.
// A worker pauses instead of being woken for each packet, which costs more: packets are passed on at deadlines, not at
// arrivals. So nobody wakes the parker.
#[derive(Drop)]
pub struct Backoff {
    parker: Parker,
    first: u64,
    next: u64,
    longest: u64,
}

impl Backoff {
    /// Pauses of at most `longest` microseconds. The first is 1 ms, or `longest` if that is shorter.
    pub fn up_to(longest: u64) -> Backoff {
        Backoff::between(FIRST.min(longest), longest)
    }

    /// Pauses from one length to another, in microseconds.
    pub(crate) fn between(first: u64, longest: u64) -> Backoff {
        Backoff {
            parker: Parker::new(),
            first,
            next: first,
            longest,
        }
    }

    /// Waits for the next pause. It may end early.
    pub fn snooze<R: Wait>(&mut self, rt: &R) {
        self.wait(rt, self.next);
    }

    /// Waits until the clock, which now reads `now` sampling instants, reaches a multiple of the pause. It may end
    /// early.
    // Workers that have the same pause wake together, which costs the machine less.
    pub(crate) fn snooze_aligned<R: Wait>(&mut self, rt: &R, now: i64) {
        // There are 6 sampling instants in 125 microseconds. The length is at least 1, so that the
        // remainder by it exists.
        let length = (self.next.saturating_mul(6) / 125).max(1);
        let gone = now.unsigned_abs() % length;
        self.wait(rt, self.next.saturating_sub(gone.saturating_mul(125) / 6));
    }

    /// Waits for `microseconds` and doubles the next pause, up to the longest.
    fn wait<R: Wait>(&mut self, rt: &R, microseconds: u64) {
        self.parker
            .park_timeout(rt, Duration::from_micros(microseconds));
        self.next = self.next.saturating_mul(2).min(self.longest);
    }

    /// Sets the next pause to the first again. For use when something arrived.
    pub(crate) fn reset(&mut self) {
        self.next = self.first;
    }
}
