//! The feeds of the paths, one for each socket that receives.
ghost use Rattle.std.specs.Prelude.{◌≡◌, ◌<◌, ◌^◌, ℕ, [], Some, length, slice_get, IfOk, IfSome};
ghost use Rattle.studio_io.specs.Answers.{IsWithin};
ghost use Rattle.live_io.specs.HoldUps.{IsNoDatagram};

use crate::clock::{RunPeriod, SystemClock};
use crate::sockets::PathReading;
use crate::sockets::health::RunHealth;
use crate::sockets::hold_up::HoldUp;
use crate::sockets::pace::ReceivePace;
use crate::sockets::receiver::Receiver;
use crate::sockets::retrying::RetryingSocket;
use run_outputs::DatagramOrigin;
use std::alloc::{AllocError, Global};
use std::sync::atomic::{AtomicBool, Ordering};
use std::time::Clock;
use studio_io::{Clock as ReadClock, Feed, FeedAnswer};

/// The number of datagrams that the path does not take after which a call of `next` returns `Nothing`.
// A bound, so that the path's worker or engine goes on with its other work during a flood from an unexpected source.
const MAX_UNEXPECTED: u32 = 64;

/// The greatest number of datagrams that a call of `next` leaves out after a hold-up.
// More than a socket's buffer of 8 MiB holds. Only a flood has more, and the next call goes on with it.
const MAX_HELD_UP: u32 = 65_536;

/// The flags and the health that all feeds of a run share with other threads and with the wait for sockets.
#[derive(Clone, Copy)]
pub struct FeedFlags<'a> {
    /// True once each feed is to end.
    pub stop: &'a AtomicBool,
    /// For each path a flag that is true if its socket is to be read until it is empty. Its feed clears the flag. Empty
    /// if the feeds wait.
    pub ready: &'a [AtomicBool],
    /// The health of the run: of each path's socket, which its feed writes, and the progress of the mix.
    pub health: &'a RunHealth,
}

/// A feed from a socket. It waits once the socket is empty, or it has a flag that says if the socket is read. It ends
/// once the flag `stop` is set, once its clock has reached a time, or after 1,000 faults of the socket without a
/// datagram. After a hold-up it leaves out what the socket has, until the mix has caught up.
#[derive(Drop)]
pub struct UdpFeed<'a, R: Clock> {
    retrying: RetryingSocket<'a, Receiver<'a>, SystemClock<'a, R>>,
    hold_up: HoldUp,
    health: &'a RunHealth,
    /// The time at which the feed ends, in sampling instants, if the clock ends it.
    until: Option<i64>,
    stop: &'a AtomicBool,
    /// The path's index among the paths of all streams.
    path_index: u32,
}

impl<'a, R: Clock> UdpFeed<'a, R> {
    /// Returns the feed of the path at an index, from its socket.
    pub(crate) fn new(
        rt: &'a R,
        receiver: Receiver<'a>,
        period: RunPeriod,
        flags: FeedFlags<'a>,
        path_index: usize,
    ) -> UdpFeed<'a, R>
        ensures socket { result.retrying.socket ≡ receiver.entry }
        ensures path { path_index < 2 ^ 32 → result.path_index ≡ path_index }
    {
        let health = flags.health.paths().get(path_index);
        let ready = flags.ready.get(path_index);
        let PathReading { pause, hold_up } = receiver.reading;
        let pace = ReceivePace::new(pause);
        UdpFeed {
            retrying: RetryingSocket::new(receiver, period.clock(rt), pace, health, ready),
            hold_up,
            health: flags.health,
            until: period.until(),
            stop: flags.stop,
            path_index: u32::try_from(path_index).unwrap_or(u32::MAX),
        }
    }

    /// Returns the path on which the last datagram arrived, with its two addresses. The source address is 0.0.0.0:0 if
    /// the receiver keeps no sources.
    pub fn origin(&self) -> DatagramOrigin
        ensures path { result.path_index ≡ self.now.path_index }
        ensures source { result.source ≡ self.now.retrying.socket.last_source }
        ensures destination { result.destination ≡ self.now.retrying.socket.address }
    {
        DatagramOrigin {
            path_index: self.path_index,
            source: self.retrying.socket.last_source,
            destination: self.retrying.socket.address,
        }
    }

    /// Returns true if nothing more is to be received at this time.
    fn has_ended(&self, now: i64) -> bool {
        if self.stop.load(Ordering::SeqCst) {
            return true;
        }
        match self.until {
            Some(until) => now >= until,
            None => false,
        }
    }

    /// Receives a datagram at this time, and returns the result for the run.
    fn take(&mut self, now: i64, buf: &mut [u8]) -> FeedAnswer
        ensures { IsWithin result (length buf.old) }
    {
        let mut now = now;
        for _ in 0..MAX_UNEXPECTED {
            // Tested again after each receive, so that a flood from an unexpected source does not delay the end.
            if self.has_ended(now) {
                return FeedAnswer::Ended;
            }
            if let Some(answer) = self.retrying.next(buf) {
                return answer;
            }
            now = self.retrying.clock.now();
        }
        FeedAnswer::Nothing
    }

    /// Receives at this time until the socket is empty, and counts the datagrams as held up. Returns the result for the
    /// run, which is no datagram.
    fn leave_out(&mut self, now: i64, buf: &mut [u8]) -> FeedAnswer
        ensures none { IsNoDatagram result }
        ensures within { IsWithin result (length buf.old) }
    {
        // The flag may be older than the hold-up.
        self.retrying.set_ready();
        let mut now = now;
        for _ in 0..MAX_HELD_UP {
            if self.has_ended(now) {
                return FeedAnswer::Ended;
            }
            match self.retrying.next(buf) {
                Some(FeedAnswer::Datagram(_)) => self.note_held_up(),
                Some(FeedAnswer::Nothing) => return FeedAnswer::Nothing,
                Some(FeedAnswer::Fault) => return FeedAnswer::Fault,
                Some(FeedAnswer::Ended) => return FeedAnswer::Ended,
                None => {}
            }
            now = self.retrying.clock.now();
        }
        FeedAnswer::Nothing
    }

    /// Counts a datagram that was left out after a hold-up.
    fn note_held_up(&self) {
        let index = self.path_index as usize;
        if let Some(health) = self.health.paths().get(index) {
            health.note_held_up();
        }
    }
}

/// Returns a feed for each socket, in the order of the sockets. The place of a socket is its path's index. The feeds
/// end by the run's clock or by their flags. Returns `AllocError` if an allocation fails.
pub fn udp_feeds<'a, R: Clock>(
    rt: &'a R,
    alloc: Global,
    receivers: Vec<Receiver<'a>>,
    period: RunPeriod,
    flags: FeedFlags<'a>,
) -> Result<Vec<UdpFeed<'a, R>>, AllocError>
    ensures count { IfOk result (λ feeds. length feeds.items ≡ length receivers.entry.items) }
    ensures sockets { IfOk result (λ feeds. (place : ℕ) → IfSome (slice_get feeds.items place)
        (λ feed. slice_get receivers.entry.items place ≡ Some feed.retrying.socket)) }
    ensures paths { IfOk result (λ feeds. (place : ℕ) → IfSome (slice_get feeds.items place)
        (λ feed. place < 2 ^ 32 → feed.path_index ≡ place)) }
{
    let mut feeds = Vec::with_capacity(alloc, receivers.len())?;
    for receiver in receivers {
        let path_index = feeds.len();
        feeds.push(UdpFeed::new(rt, receiver, period, flags, path_index))?;
    }
    Ok(feeds)
}

impl<R: Clock> Feed for UdpFeed<'_, R> {
    ghost told = { λ feed. [] };

    fn next(&mut self, buf: &mut [u8]) -> FeedAnswer {
        let now = self.retrying.clock.now();
        if self.hold_up.note_call(now, self.health.mix().due()) {
            return self.leave_out(now, buf);
        }
        self.take(now, buf)
    }

    /// Returns true if the feed waits at an empty socket, because no flag says if it has a datagram.
    fn waits(&self) -> bool {
        self.retrying.waits()
    }
}
