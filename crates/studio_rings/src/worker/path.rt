//! The worker of a path: each datagram of its feed to its end.
ghost use Rattle.std.specs.Prelude.{◌≡◌, true, length, IfSome, None};
ghost use Rattle.rtrb.specs.Ring.{all_sent, sent, Finishes, SameProducer};
ghost use Rattle.studio_ends.specs.Fitting.{fitting};
ghost use Rattle.studio_io.specs.Answers.{reaches_end};
ghost use Rattle.studio_io.specs.FaultCounts.{CountsFaults};
ghost use Rattle.studio_rings.specs.PathWorkers.{IsPathResult, IsTokenOf, OffersAgain, SendsFeed};

use crate::jobs::{PathJob, PathResult};
use crate::worker::Backoff;
use rtp_wire::MAX_ARRIVAL_OCTETS;
use std::sync::Wait;
use std::sync::atomic::{AtomicBool, Ordering};
use studio_ends::{Offer, PathEnd};
use studio_io::{Feed, FeedAnswer, FeedState};

/// The longest pause after a feed had nothing, in microseconds: 10 ms.
// Only for feeds that do not wait by themselves: the first datagram after a silence may wait so long.
const FEED_PAUSE: u64 = 10_000;

/// The longest pause after a feed failed, in microseconds: 2 ms.
// Short, since a datagram may wait behind the fault. 1,000 faults in a row, which end a feed, take two seconds.
const FAULT_PAUSE: u64 = 2_000;

/// The pause between two offers at a full ring, in microseconds: 0.2 ms.
// 1,000 of them are 200 ms, far longer than the 5 ms that a stream pauses at most before it takes packets.
const FULL_PAUSE: u64 = 200;

/// Offers a datagram, and again while the result is `Full`, at most 1,000 times more. Returns false if it was stopped
/// before the datagram was taken.
fn offer_until_taken<R: Wait>(rt: &R, end: &mut PathEnd, datagram: &[u8], stop: &AtomicBool) -> bool
    ensures ring { SameProducer end.old.ring end.new.ring }
    ensures spec { end.new.spec ≡ end.old.spec }
    ensures offers { result ≡ true → OffersAgain datagram.now end.old end.new }
{
    let mut pause = Backoff::up_to(FULL_PAUSE);
    // One offer and 1,000 more. If all fail, the datagram is dropped, and the path goes on with the next.
    for _ in 0..1001u32 {
        if end.offer(datagram) != Offer::Full {
            return true;
        }
        if stop.load(Ordering::SeqCst) {
            return false;
        }
        pause.snooze(rt);
    }
    true
}

/// Finishes the end and sets the path's flag.
fn finish_path(end: PathEnd, faults: u64, ended: &AtomicBool) -> PathResult
    ensures done { IfSome result.done (λ done. Finishes end.ring done.token) }
    ensures fit { IfSome result.done (λ done. fitting end.spec (all_sent done.token) ≡ all_sent done.token) }
    ensures count { IfSome result.done (λ done. end.counts.sent ≡ length (all_sent done.token)) }
    ensures counts { result.counts ≡ end.counts }
    ensures faults { result.faults ≡ faults }
{
    let (done, counts) = end.finish();
    ended.store(true, Ordering::SeqCst);
    PathResult {
        done,
        counts,
        faults,
    }
}

/// Finishes the end without a token, since not all of the feed was sent, and sets the path's flag.
fn abandon_path(end: PathEnd, faults: u64, ended: &AtomicBool) -> PathResult
    ensures { result.done ≡ None }
{
    let (_done, counts) = end.finish();
    ended.store(true, Ordering::SeqCst);
    PathResult {
        done: None,
        counts,
        faults,
    }
}

/// Pauses after a feed had nothing, unless the feed has waited by itself.
fn rest_for<R: Wait, F: Feed>(rt: &R, feed: &F, pause: &mut Backoff) {
    if !feed.waits() {
        pause.snooze(rt);
    }
}

/// Sends the datagrams of the feed until it ends or the workers must stop. Returns the state of the feed, which has
/// ended unless the workers must stop.
fn send_feed<R: Wait, F: Feed>(
    rt: &R,
    end: &mut PathEnd,
    feed: &mut F,
    stop: &AtomicBool,
) -> FeedState
    ensures ring { SameProducer end.old.ring end.new.ring }
    ensures spec { end.new.spec ≡ end.old.spec }
    ensures sent { result.ended ≡ true → reaches_end 0 (F.told feed.old) ≡ true
        → SendsFeed (F.told feed.old) end.old (sent end.new.ring) end.new.counts }
    ensures faults { CountsFaults (F.told feed.old) result (F.told feed.new) }
{
    let mut state = FeedState::new();
    let mut pause = Backoff::up_to(FEED_PAUSE);
    let mut fault_pause = Backoff::up_to(FAULT_PAUSE);
    // The contract of `Feed::next` says what it returns for a buffer of this length only.
    let mut buf = [0u8; MAX_ARRIVAL_OCTETS];
    for _ in rt.forever() {
        if state.ended {
            return state;
        }
        if stop.load(Ordering::SeqCst) {
            return state;
        }
        let answer = feed.next(&mut buf);
        state.note(answer);
        match answer {
            FeedAnswer::Datagram(count) => {
                pause.reset();
                if !offer_until_taken(rt, end, &buf[..count], stop) {
                    return state;
                }
            }
            FeedAnswer::Nothing => {
                // `offer` sends the counts with each datagram. While none comes, a reader gets the last ones here.
                end.send_counts();
                rest_for(rt, feed, &mut pause);
            }
            FeedAnswer::Fault => fault_pause.snooze(rt),
            FeedAnswer::Ended => {}
        }
    }
    unreachable!()
}

/// Runs a path until its feed ends, fails 1,000 times in a row, or the workers must stop.
///
/// Sets `ended` at the end. The caller sets `stop` to stop it; the result then has no token.
pub fn run_path<R: Wait, F: Feed>(
    rt: &R,
    job: PathJob<F>,
    ended: &AtomicBool,
    stop: &AtomicBool,
) -> PathResult
    ensures { IsPathResult F.told job result }
{
    let PathJob { end, feed } = job;
    let mut end = end;
    let mut feed = feed;
    let state = send_feed(rt, &mut end, &mut feed, stop);
    if state.ended {
        finish_path(end, state.faults, ended)
    } else {
        abandon_path(end, state.faults, ended)
    }
}
