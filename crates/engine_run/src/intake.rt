//! Takes datagrams from the feeds and passes them to the engine.
ghost use Rattle.std.specs.Prelude.{◌≡◌, ℕ, List, length, IfOk, OnOk};
ghost use Rattle.studio_config.specs.Studio.{Studio};
ghost use Rattle.studio_session.specs.Event.{TraceEvent};
ghost use Rattle.studio_engine.specs.Session.{HasSession};
ghost use Rattle.engine_run.specs.FeedFaults.{AllKeepFaults, ReaderKeepsFaults, StreamKeepsFaults};
ghost use Rattle.engine_run.specs.Intake.{GaveBy, Takes, TakesAll, TakesStream};

use crate::feed_reader::FeedReader;
use crate::observer::RunObserver;
use rtp_stream::Path;
use studio_engine::{ArriveFault, Engine};
use studio_io::{Feed, FeedAnswer};

/// The greatest number of datagrams that a round takes from one feed.
// A limit, so that a feed that never runs dry cannot hold up the other feeds, the clock and the sink.
const MAX_TAKEN: u32 = 64;

/// The longest pause, in sampling instants at 48 kHz: 50 ms.
// A feed that has nothing is called again by then, so a run ends at most 50 ms after its feeds.
pub(crate) const LONGEST_PAUSE: i64 = 2_400;

/// The longest pause after a feed failed, in sampling instants at 48 kHz: 2 ms.
// Short, since a datagram may wait behind the fault.
const FAULT_PAUSE: i64 = 96;

/// The outcome of one call of a feed.
#[derive(Clone, Copy, PartialEq, Eq)]
enum FeedOutcome {
    /// The feed returned a datagram, which the engine took.
    Datagram,
    /// The feed returned a fault.
    Fault,
    /// The feed had nothing, or it has ended.
    Nothing,
}

/// Calls a feed once, passes its datagram to the engine, and notifies the observer.
///
/// Returns the engine's `ArriveFault` if the engine does not take it.
fn take_one<F: Feed, T: RunObserver<F>>(
    engine: &mut Engine,
    stream: usize,
    path: Path,
    reader: &mut FeedReader<F>,
    observer: &mut T,
    buf: &mut [u8],
) -> Result<FeedOutcome, ArriveFault>
    requires space { length buf.old ≡ 2048 }
    ensures takes { IfOk result (λ outcome. (studio : Studio) (events : List TraceEvent) (datagrams : List (List ℕ))
        → HasSession studio engine.old events datagrams
        → (t : Takes F.told studio engine.new events datagrams stream path reader.old reader.new (T.heard observer.old)
        (T.heard observer.new) 1) × GaveBy outcome t.given) }
    ensures noted { T.noted observer.new ≡ T.noted observer.old }
    ensures faults { ReaderKeepsFaults F.told reader.old reader.new }
{
    if reader.state.ended {
        return Ok(FeedOutcome::Nothing);
    }
    let answer = reader.feed.next(buf);
    reader.state.note(answer);
    match answer {
        FeedAnswer::Datagram(count) => {
            let outcome = engine.arrive(stream, path, &buf[..count])?;
            observer.arrived(engine, stream, path, &buf[..count], outcome, &reader.feed);
            Ok(FeedOutcome::Datagram)
        }
        FeedAnswer::Nothing => Ok(FeedOutcome::Nothing),
        FeedAnswer::Fault => Ok(FeedOutcome::Fault),
        FeedAnswer::Ended => Ok(FeedOutcome::Nothing),
    }
}

/// Takes the datagrams of a feed, at most 64. Returns the time that the run may pause for it, in sampling instants at
/// 48 kHz: 0 if the feed may have more.
fn take_some<F: Feed, T: RunObserver<F>>(
    engine: &mut Engine,
    stream: usize,
    path: Path,
    reader: &mut FeedReader<F>,
    observer: &mut T,
    buf: &mut [u8],
) -> Result<i64, ArriveFault>
    requires space { length buf.old ≡ 2048 }
    ensures takes { OnOk result ((studio : Studio) (events : List TraceEvent) (datagrams : List (List ℕ))
        → HasSession studio engine.old events datagrams
        → Takes F.told studio engine.new events datagrams stream path reader.old reader.new (T.heard observer.old)
        (T.heard observer.new) 64) }
    ensures noted { T.noted observer.new ≡ T.noted observer.old }
    ensures faults { ReaderKeepsFaults F.told reader.old reader.new }
{
    for _ in 0..MAX_TAKEN {
        let outcome = take_one(engine, stream, path, reader, observer, buf)?;
        match outcome {
            FeedOutcome::Datagram => {}
            FeedOutcome::Fault => return Ok(FAULT_PAUSE),
            FeedOutcome::Nothing => return Ok(LONGEST_PAUSE),
        }
    }
    Ok(0)
}

/// Returns the path with this number, and `ArriveFault::Path` if it is not 0 to 3: no stream has such a path.
fn path_of(number: usize) -> Result<Path, ArriveFault>
    ensures { IfOk result (λ path. path ≡ number) }
{
    match u8::try_from(number) {
        Ok(number) => Path::new(number).ok_or(ArriveFault::Path),
        Err(_) => Err(ArriveFault::Path),
    }
}

/// Takes the datagrams of a stream's feeds. Returns the time that the run may pause for them, in sampling instants.
fn take_stream<F: Feed, T: RunObserver<F>>(
    engine: &mut Engine,
    stream: usize,
    readers: &mut [FeedReader<F>],
    observer: &mut T,
    buf: &mut [u8],
) -> Result<i64, ArriveFault>
    requires space { length buf.old ≡ 2048 }
    ensures takes { OnOk result ((studio : Studio) (events : List TraceEvent) (datagrams : List (List ℕ))
        → HasSession studio engine.old events datagrams
        → TakesStream F.told studio engine.new events datagrams stream readers.old readers.new (T.heard observer.old)
        (T.heard observer.new) (length readers.old)) }
    ensures noted { T.noted observer.new ≡ T.noted observer.old }
    ensures faults { StreamKeepsFaults F.told readers.old readers.new }
{
    // The feed that allows the shortest pause decides.
    let mut most = LONGEST_PAUSE;
    for number in 0..readers.len() {
        let path = path_of(number)?;
        most = take_some(engine, stream, path, &mut readers[number], observer, buf)?.min(most);
    }
    Ok(most)
}

/// Takes the datagrams of a stream's feeds, which are in a `Vec`.
// `take_stream` with its clause on the items of the `Vec`, which is what the loop over all streams needs.
fn take_own<F: Feed, T: RunObserver<F>>(
    engine: &mut Engine,
    stream: usize,
    own: &mut Vec<FeedReader<F>>,
    observer: &mut T,
    buf: &mut [u8],
) -> Result<i64, ArriveFault>
    requires space { length buf.old ≡ 2048 }
    ensures takes { OnOk result ((studio : Studio) (events : List TraceEvent) (datagrams : List (List ℕ))
        → HasSession studio engine.old events datagrams
        → TakesStream F.told studio engine.new events datagrams stream own.old.items own.new.items
        (T.heard observer.old)
        (T.heard observer.new) (length own.old.items)) }
    ensures noted { T.noted observer.new ≡ T.noted observer.old }
    ensures faults { StreamKeepsFaults F.told own.old.items own.new.items }
{
    take_stream(engine, stream, own.as_mut_slice(), observer, buf)
}

/// Takes the datagrams of all feeds. Returns the time that the run may pause for them, in sampling instants at 48 kHz.
pub(crate) fn take_all<F: Feed, T: RunObserver<F>>(
    engine: &mut Engine,
    streams: &mut [Vec<FeedReader<F>>],
    observer: &mut T,
    buf: &mut [u8],
) -> Result<i64, ArriveFault>
    requires space { length buf.old ≡ 2048 }
    ensures takes { OnOk result ((studio : Studio) (events : List TraceEvent) (datagrams : List (List ℕ))
        → HasSession studio engine.old events datagrams
        → TakesAll F.told studio engine.new events datagrams streams.old streams.new (T.heard observer.old)
        (T.heard observer.new) (length streams.old)) }
    ensures noted { T.noted observer.new ≡ T.noted observer.old }
    ensures faults { AllKeepFaults F.told streams.old streams.new }
{
    let mut most = LONGEST_PAUSE;
    for stream in 0..streams.len() {
        most = take_own(engine, stream, &mut streams[stream], observer, buf)?.min(most);
    }
    Ok(most)
}
