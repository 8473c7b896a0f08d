//! The worker of a stream: its paths, its turns, and its end once they have ended.
ghost use Rattle.std.specs.Prelude.{◌≡◌, ◌≤◌, map, vec_len, vec_capacity, true, IfOk, OnOk};
ghost use Rattle.rtp_stream.specs.Counts.{tally_of};
ghost use Rattle.studio_rings.specs.Turns.{GoesOn, HaveTold};
ghost use Rattle.studio_rings.specs.StreamWorkers.{
  AllTokensFit,
  EndsStream,
  FitsAt,
  HandsOne,
  PathsGiveTokens,
  IsReady,
  IsStreamResult,
  told_by,
};
ghost use Rattle.studio_rings.specs.StreamClose.{ClosesLater, Drains, Finishes};

use crate::jobs::{PathResult, StreamJob, StreamResult};
use crate::path_threads::{WorkerStopped, run_paths};
use crate::worker::Backoff;
use crate::worker::clocked_stream::ClockedStream;
use rtp_stream::{Counts, PathCounts, StreamCounts};
use std::sync::Wait;
use std::sync::atomic::{AtomicBool, Ordering};
use std::thread::Threads;
use studio_ends::{PathDone, StreamDone, StreamEnd};
use studio_io::{Clock, Feed};

/// The longest pause at a full ring of marks, in microseconds: 2 ms.
// Half of the longest pause of the mixer, whose turns free the places.
const DRAIN_PAUSE: u64 = 2_000;

/// Passes the token of the path at a place to the stream. Returns true if there is one.
fn pass_token<C: Clock>(stream: &mut ClockedStream<C>, place: usize, done: Option<PathDone>) -> bool
    requires { FitsAt done place stream.old.end.sides.items }
    ensures later { GoesOn C.told stream.old stream.new }
    ensures handed { HandsOne done place stream.old.end.sides.items result stream.new.end.sides.items }
{
    match done {
        Some(done) => {
            stream.end.path_done(place, done);
            true
        }
        None => false,
    }
}

/// Passes the tokens of the paths to the stream, and appends each path's counts and faults. Returns true if every path
/// returned a token.
fn pass_tokens<C: Clock>(
    stream: &mut ClockedStream<C>,
    results: Vec<PathResult>,
    counts: &mut Vec<PathCounts>,
    faults: &mut Vec<u64>,
) -> bool
    requires tokens { AllTokensFit results.items stream.old.end.sides.items }
    requires counts { (vec_len counts.old ≡ 0) × (vec_len results ≤ vec_capacity counts.old) }
    requires faults { (vec_len faults.old ≡ 0) × (vec_len results ≤ vec_capacity faults.old) }
    ensures later { GoesOn C.told stream.old stream.new }
    ensures given { result ≡ true → PathsGiveTokens results.items }
    ensures told { result ≡ true → HaveTold stream.new.end.sides.items (map told_by results.items) }
    ensures counts { counts.new.items ≡ map (λ (r : PathResult). r.counts) results.items }
    ensures faults { faults.new.items ≡ map (λ (r : PathResult). r.faults) results.items }
{
    let mut place = 0usize;
    let mut all = true;
    for result in results {
        let PathResult {
            done,
            counts: own,
            faults: own_faults,
        } = result;
        counts.push_reserved(own);
        faults.push_reserved(own_faults);
        all &= pass_token(stream, place, done);
        place += 1;
    }
    all
}

/// Makes turns until all that the paths sent was taken, and closes the stream. Returns `WorkerStopped` if the workers
/// must stop.
fn close_when_taken<R: Wait, C: Clock>(
    rt: &R,
    stream: ClockedStream<C>,
    stop: &AtomicBool,
) -> Result<StreamEnd, WorkerStopped>
    ensures { IfOk result (λ end. ClosesLater C.told stream end) }
{
    let mut stream = stream;
    for _ in rt.forever() {
        match stream.try_close() {
            Ok(end) => return Ok(end),
            Err(rest) => stream = rest,
        }
        if stop.load(Ordering::SeqCst) {
            return Err(WorkerStopped);
        }
        stream.turn(rt);
    }
    unreachable!()
}

/// Pushes the marks that are left after the close. Returns `WorkerStopped` if the workers must stop.
fn drain<R: Wait>(rt: &R, end: &mut StreamEnd, stop: &AtomicBool) -> Result<(), WorkerStopped>
    ensures { OnOk result (Drains end.old end.new) }
{
    let mut pause = Backoff::up_to(DRAIN_PAUSE);
    for _ in rt.forever() {
        if end.drain_turn() {
            return Ok(());
        }
        if stop.load(Ordering::SeqCst) {
            return Err(WorkerStopped);
        }
        pause.snooze(rt);
    }
    unreachable!()
}

/// Takes the packets that are left, closes the stream, pushes the marks that are left and finishes the end. Returns its
/// token and counts, or `WorkerStopped` if the workers must stop.
fn close_and_finish<R: Wait, C: Clock>(
    rt: &R,
    stream: ClockedStream<C>,
    stop: &AtomicBool,
) -> Result<(Option<StreamDone>, Counts), WorkerStopped>
    ensures { IfOk result (λ r. Finishes C.told stream r.0 (tally_of r.1)) }
{
    let mut end = close_when_taken(rt, stream, stop)?;
    drain(rt, &mut end, stop)?;
    Ok(end.finish())
}

/// Ends a stream whose paths have ended: passes in their tokens, takes the packets that are left, closes the stream and
/// pushes the marks that are left. If a path returned no token the stream stays open, and returns none itself.
// Without a path's token its ring is never drained, so waiting for the close would not end.
fn end_stream<R: Wait, C: Clock>(
    rt: &R,
    stream: ClockedStream<C>,
    results: Vec<PathResult>,
    counts: Vec<PathCounts>,
    faults: Vec<u64>,
    stop: &AtomicBool,
) -> Result<StreamResult, WorkerStopped>
    requires tokens { AllTokensFit results.items stream.end.sides.items }
    requires counts { (vec_len counts ≡ 0) × (vec_len results ≤ vec_capacity counts) }
    requires faults { (vec_len faults ≡ 0) × (vec_len results ≤ vec_capacity faults) }
    ensures { IfOk result (λ r. EndsStream C.told stream results.items r) }
{
    let mut stream = stream;
    let mut counts = counts;
    let mut faults = faults;
    if !pass_tokens(&mut stream, results, &mut counts, &mut faults) {
        let (_done, merge) = stream.finish();
        let counts = StreamCounts {
            paths: counts,
            merge,
        };
        return Ok(StreamResult {
            done: None,
            counts,
            faults,
        });
    }
    let (done, merge) = close_and_finish(rt, stream, stop)?;
    let counts = StreamCounts {
        paths: counts,
        merge,
    };
    Ok(StreamResult {
        done,
        counts,
        faults,
    })
}

/// Runs a stream and its paths until all feeds have ended and all marks were pushed.
fn run_stream_and_paths<R: Threads + Wait + Sync, F: Feed + Send, C: Clock>(
    rt: &R,
    job: StreamJob<F, C>,
    stop: &AtomicBool,
) -> Result<StreamResult, WorkerStopped>
    requires { IsReady job }
    ensures { IfOk result (λ r. IsStreamResult F.told C.told job r) }
{
    let StreamJob {
        end,
        clock,
        paths,
        ended,
        results,
        counts,
        faults,
    } = job;
    let stream = ClockedStream::new(end, clock);
    let (results, stream) = run_paths(rt, paths, results, stream, &ended, stop)?;
    end_stream(rt, stream, results, counts, faults, stop)
}

/// Runs a stream and its paths, and sets the stream's flag at the end.
pub(crate) fn run_stream<R: Threads + Wait + Sync, F: Feed + Send, C: Clock>(
    rt: &R,
    job: StreamJob<F, C>,
    ended: &AtomicBool,
    stop: &AtomicBool,
) -> Result<StreamResult, WorkerStopped>
    requires { IsReady job }
    ensures { IfOk result (λ r. IsStreamResult F.told C.told job r) }
{
    // The flag is set on every way out, since the mixer's worker waits for the flags of all streams.
    let result = run_stream_and_paths(rt, job, stop);
    ended.store(true, Ordering::SeqCst);
    result
}
