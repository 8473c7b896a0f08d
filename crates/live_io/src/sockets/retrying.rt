//! A socket that is read again and again: until it is empty, after each wait, and less often while it fails.
ghost use Rattle.std.specs.Prelude.{◌≡◌, ◌≤◌, ℕ, length, IfOk, IfSome};
ghost use Rattle.studio_io.specs.Answers.{IsWithin};

use crate::clock::PauseClock;
use crate::sockets::backoff::FaultBackoff;
use crate::sockets::health::SocketHealth;
use crate::sockets::pace::{ReceivePace, ReceiveWait};
use std::io;
use std::io::ErrorKind;
use std::sync::atomic::{AtomicBool, Ordering};
use studio_io::FeedAnswer;

/// The longest wait for a datagram, in milliseconds.
// A feed tests its end after each wait, so the wait bounds how late the feed ends.
const LONGEST_WAIT: i32 = 100;

/// The longest pause of a socket that fails, in sampling instants: 100 ms.
// As long as the wait for a datagram, so that the end of the feed is found as soon.
const LONGEST_PAUSE: i64 = 4_800;

/// A socket that receives the datagrams of a path.
pub trait DatagramSocket: Drop {
    /// Receives a datagram into `buf`, and returns its length in octets, or `None` if it is from an unexpected source
    /// or too long.
    /// Returns `ErrorKind::WouldBlock` at once if the socket is empty.
    fn receive(&mut self, buf: &mut [u8]) -> io::Result<Option<usize>>
        ensures within { IfOk result (λ own. IfSome own (λ count. count ≤ length buf.old)) };

    /// Waits for a datagram, but at most this many milliseconds. Returns false if none arrived in that time, and true
    /// if one may have arrived.
    fn wait(&mut self, milliseconds: i32) -> bool;
}

/// A socket that is read again and again, and less often while it fails.
///
/// An attempt at an empty socket waits by `ReceivePace`: it pauses while packets flow, and waits for a datagram while
/// none come. If a flag says when the socket is to be read, it clears the flag instead.
///
/// An attempt that fails is a fault. The next attempt follows after the delay of `FaultBackoff`, and there is nothing
/// until then. After 1,000 faults without a datagram the socket has ended.
#[derive(Drop)]
pub struct RetryingSocket<'a, S, C> {
    pub socket: S,
    pub clock: C,
    backoff: FaultBackoff,
    pace: ReceivePace,
    /// The health that the attempts set, if other threads read it.
    health: Option<&'a SocketHealth>,
    /// A flag that is true if the socket is to be read until it is empty. `None` if attempts at an empty one wait.
    ready: Option<&'a AtomicBool>,
}

impl<'a, S: DatagramSocket, C: PauseClock> RetryingSocket<'a, S, C> {
    /// Returns a socket that has not failed, and that is read at this pace.
    pub fn new(
        socket: S,
        clock: C,
        pace: ReceivePace,
        health: Option<&'a SocketHealth>,
        ready: Option<&'a AtomicBool>,
    ) -> RetryingSocket<'a, S, C>
        ensures { result.socket ≡ socket }
    {
        RetryingSocket {
            socket,
            clock,
            backoff: FaultBackoff::new(),
            pace,
            health,
            ready,
        }
    }

    /// Returns true if attempts at an empty socket wait, because no flag says if it has a datagram.
    pub fn waits(&self) -> bool {
        self.ready.is_none()
    }

    /// Makes the next attempts read the socket until it is empty, whatever its flag says.
    pub fn set_ready(&self) {
        if let Some(ready) = self.ready {
            ready.store(true, Ordering::SeqCst);
        }
    }

    /// Receives a datagram into `buf`, and returns a feed's result, or `None` after one that the path does not take.
    pub fn next(&mut self, buf: &mut [u8]) -> Option<FeedAnswer>
        ensures { IfSome result (λ answer. IsWithin answer (length buf.old)) }
    {
        if self.backoff.has_ended() {
            return Some(FeedAnswer::Ended);
        }
        if !self.is_attempt_due() {
            return Some(FeedAnswer::Nothing);
        }
        match self.socket.receive(buf) {
            Ok(own) => {
                self.note_datagram();
                datagram_of(own)
            }
            Err(fault) => Some(self.note_error(fault.kind())),
        }
    }

    /// Returns true if the socket is to be read now. While it pauses and attempts would wait, it pauses here.
    fn is_attempt_due(&mut self) -> bool {
        let Some(at) = self.backoff.next_at() else {
            return self.is_ready();
        };
        let now = self.clock.now();
        if self.backoff.is_due(now) {
            return true;
        }
        // Without this pause the path's worker would ask again at once.
        if self.waits() {
            self.clock.pause(pause_until(at, now));
        }
        false
    }

    /// Returns true if the socket is to be read, as far as a flag says so.
    fn is_ready(&self) -> bool {
        match self.ready {
            Some(ready) => ready.load(Ordering::SeqCst),
            None => true,
        }
    }

    /// Notes a datagram.
    fn note_datagram(&mut self) {
        self.note_success();
        self.backoff.note_datagram();
        self.pace.note_datagram();
    }

    /// Waits after an attempt at an empty socket, or clears the flag that says if it has a datagram.
    fn wait_after_empty(&mut self) {
        if let Some(ready) = self.ready {
            ready.store(false, Ordering::SeqCst);
            return;
        }
        let now = self.clock.now();
        match self.pace.next_wait(now) {
            ReceiveWait::Pause(instants) => self.clock.pause(until_multiple(instants, now)),
            ReceiveWait::Datagram => self.wait_for_datagram(),
        }
    }

    /// Waits until the socket has a datagram or an error, for at most `LONGEST_WAIT`.
    fn wait_for_datagram(&mut self) {
        if self.socket.wait(LONGEST_WAIT) {
            // Packets flow again from the first one on. Otherwise each of them would be waited for, and wake this
            // thread on the sender's time. It also follows a wait that failed, so that a pause comes before the next.
            self.pace.note_datagram();
        }
    }

    /// Notes an attempt that failed with this error, and returns the feed's result.
    fn note_error(&mut self, kind: ErrorKind) -> FeedAnswer
        ensures { (len : ℕ) → IsWithin result len }
    {
        match kind {
            ErrorKind::WouldBlock | ErrorKind::Interrupted => {
                self.note_success();
                self.backoff.note_nothing();
                self.wait_after_empty();
                FeedAnswer::Nothing
            }
            _ => {
                self.note_fault();
                FeedAnswer::Fault
            }
        }
    }

    /// Sets the health after an attempt that did not fail.
    fn note_success(&self) {
        // Only after a fault, since this is on the way of each datagram.
        if self.backoff.next_at().is_none() {
            return;
        }
        if let Some(health) = self.health {
            health.note_success();
        }
    }

    /// Notes a fault, and sets the health.
    fn note_fault(&mut self) {
        let now = self.clock.now();
        self.backoff.note_fault(now);
        // The next attempt follows by the clock. Until then the flag would say that there is something to be read.
        if let Some(ready) = self.ready {
            ready.store(false, Ordering::SeqCst);
        }
        let Some(health) = self.health else {
            return;
        };
        health.note_fault();
        if self.backoff.has_ended() {
            health.note_end();
        }
    }
}

/// Returns the feed's result for a datagram of this length, or `None` if there is none.
fn datagram_of(own: Option<usize>) -> Option<FeedAnswer>
    ensures { (len : ℕ) → IfSome own (λ count. count ≤ len) → IfSome result (λ answer. IsWithin answer len) }
{
    match own {
        Some(count) => Some(FeedAnswer::Datagram(count)),
        None => None,
    }
}

/// Returns the pause from `now` until a later time, in sampling instants, at most `LONGEST_PAUSE`.
fn pause_until(at: i64, now: i64) -> u32 {
    u32::try_from(at.saturating_sub(now).clamp(0, LONGEST_PAUSE)).unwrap_or(0)
}

/// Returns the time from `now` to the next multiple of a pause, in sampling instants.
// Threads with the same pause wake together, which costs the machine less.
fn until_multiple(pause: u32, now: i64) -> u32 {
    let gone = now.unsigned_abs() % u64::from(pause.max(1));
    pause.saturating_sub(u32::try_from(gone).unwrap_or(0))
}
