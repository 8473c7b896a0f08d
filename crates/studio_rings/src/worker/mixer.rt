//! The worker of the mixer: turns of its end, and each datagram to the sink.
ghost use Rattle.std.specs.Prelude.{true};
ghost use Rattle.studio_io.specs.SendSums.{CountsAnswers, KeepsSums};
ghost use Rattle.studio_rings.specs.MixWorker.{Mixes, MixesWith};

use crate::worker::Backoff;
use crate::worker::gain_requests::ask_source;
use mix_packets::MAX_OUTPUT_OCTETS;
use std::sync::Wait;
use std::sync::atomic::{AtomicBool, Ordering};
use studio_ends::MixEnd;
use studio_io::{GainSource, MAX_GAINS, NoGains, SendCounts, Sink};

/// The first pause after a turn that found nothing, in microseconds: 2 ms.
// Two packets of a millisecond are then mixed and sent one after the other, which costs less than a turn for each.
const FIRST_PAUSE: u64 = 2_000;

/// The longest pause after a turn that found nothing, in microseconds: 4 ms.
// A block that becomes ready in a pause waits for its end.
const LONGEST_PAUSE: u64 = 4_000;

/// The result of the mixer's worker: its end, the sink, and the counts of datagrams sent.
#[derive(Drop)]
pub struct MixResult<K> {
    pub end: MixEnd,
    pub sink: K,
    pub counts: SendCounts,
}

/// A worker of the mixer as one value: as it begins, and as it has ended.
// One type for the threads of the streams: each further type that they pass on costs time to prove.
pub(crate) trait MixTask: Drop {
    /// The second is what the first has become once every stream has ended.
    ghost mixed: { Self → Self → Type 0 };

    /// Mixes until every stream has ended, or the workers must stop, and a turn after that found nothing.
    fn mix<R: Wait>(self, rt: &R, ended: &[AtomicBool], stop: &AtomicBool) -> Self
        ensures { mixed self result };
}

/// The mixer's worker with a source of gains.
#[derive(Drop)]
pub(crate) struct MixWorker<K, G> {
    pub(crate) mixed: MixResult<K>,
    pub(crate) gains: G,
}

impl<K: Sink, G: GainSource> MixTask for MixWorker<K, G> {
    ghost mixed = { λ s t. MixesWith K.handed s.mixed.end s.mixed.sink 0 true
        t.mixed.end t.mixed.sink t.mixed.counts.blocks (G.taken s.gains) (G.taken t.gains)
        × CountsAnswers (K.answered s.mixed.sink) t.mixed.counts (K.answered t.mixed.sink) };

    fn mix<R: Wait>(self, rt: &R, ended: &[AtomicBool], stop: &AtomicBool) -> MixWorker<K, G> {
        let MixWorker { mixed, gains } = self;
        let MixResult {
            end,
            sink,
            counts: _,
        } = mixed;
        let (mixed, gains) = run_mixer_with_gains(rt, end, sink, gains, ended, stop);
        MixWorker { mixed, gains }
    }
}

/// Makes one turn of the mixer and sends the datagram that it writes, once. Returns true if the turn took no mark and
/// wrote no datagram.
fn mix_once<K: Sink>(end: &mut MixEnd, sink: &mut K, counts: &mut SendCounts) -> bool
    ensures mixes { Mixes K.handed end.old sink.old counts.old.blocks result end.new sink.new counts.new.blocks }
    ensures sums { KeepsSums counts.old (K.answered sink.old) counts.new (K.answered sink.new) }
{
    let mut out = [0u8; MAX_OUTPUT_OCTETS];
    let len = end.datagram_len();
    let note = end.turn(&mut out);
    if note.len.is_none() {
        return note.taken == 0;
    }
    let answer = sink.send_block(&out[..len], &end.last_block());
    counts.add(answer);
    false
}

/// Mixes until every stream has ended, or the workers must stop, and a turn after that found nothing.
///
/// `ended` has a flag for each stream, which the stream's worker sets. The caller sets `stop` to stop it early.
pub fn run_mixer<R: Wait, K: Sink>(
    rt: &R,
    end: MixEnd,
    sink: K,
    ended: &[AtomicBool],
    stop: &AtomicBool,
) -> MixResult<K>
    ensures mixes { Mixes K.handed end sink 0 true result.end result.sink result.counts.blocks }
    ensures sums { CountsAnswers (K.answered sink) result.counts (K.answered result.sink) }
{
    let (mixed, _) = run_mixer_with_gains(rt, end, sink, NoGains, ended, stop);
    mixed
}

/// Mixes as `run_mixer` does. Before each turn `gains` is asked for changes of gains, until it has no request or 64
/// were answered.
pub fn run_mixer_with_gains<R: Wait, K: Sink, G: GainSource>(
    rt: &R,
    end: MixEnd,
    sink: K,
    gains: G,
    ended: &[AtomicBool],
    stop: &AtomicBool,
) -> (MixResult<K>, G)
    ensures mixes { MixesWith K.handed end sink 0 true result.0.end result.0.sink result.0.counts.blocks
        (G.taken gains) (G.taken result.1) }
    ensures sums { CountsAnswers (K.answered sink) result.0.counts (K.answered result.0.sink) }
{
    let mut end = end;
    let mut sink = sink;
    let mut gains = gains;
    let mut counts = SendCounts::new();
    let mut pause = Backoff::between(FIRST_PAUSE, LONGEST_PAUSE);
    let mut buffer = [0i32; MAX_GAINS];
    for _ in rt.forever() {
        // The flags are read before the turn: a stream sets its flag after its last mark, so if all flags were set and
        // the turn still found nothing, no later turn finds anything.
        let last = stop.load(Ordering::SeqCst)
            || ended.iter().all(|flag| flag.load(Ordering::SeqCst));
        // Before the turn: a change that is asked for now is in force from the block of this turn on.
        ask_source(&mut end, &mut gains, &mut buffer);
        if !mix_once(&mut end, &mut sink, &mut counts) {
            pause.reset();
            continue;
        }
        if last {
            return (MixResult { end, sink, counts }, gains);
        }
        pause.snooze(rt);
    }
    unreachable!()
}
