//! The engines of the tests, their packets, and steps that call an engine.
use crate::small_studios::{stream, sum_of};
use gain_mix::ChangeFault;
use path_merge::{ClockFault, Fate, Path, StreamSpec};
use std::alloc::Global;
use std::process::Abort;
use studio_engine::{ArriveFault, Engine, Unfinished};
use studio_session::{ArriveOutcome, OfferedPacket};

/// The greatest number of octets of an output's datagram.
const MAX_OCTETS: usize = 1452;

/// Returns an engine of one stream, in and out in packets of 6 sampling instants.
pub fn six(rt: &impl Abort, alloc: Global) -> Engine {
    let six = stream(6, 12, 2).expect(rt, "a stream");
    engine_of(rt, alloc, &[six], 6)
}

/// Returns an engine of a stream in packets of 6 sampling instants and one in packets of 48, into packets of 48.
pub fn six_and_forty_eight(rt: &impl Abort, alloc: Global) -> Engine {
    let six = stream(6, 12, 2).expect(rt, "a stream");
    let forty_eight = stream(48, 96, 2).expect(rt, "a stream");
    engine_of(rt, alloc, &[six, forty_eight], 48)
}

/// Returns an engine of streams that are added into packets of `block` sampling instants.
fn engine_of(rt: &impl Abort, alloc: Global, streams: &[StreamSpec], block: u16) -> Engine {
    let spec = sum_of(alloc, streams, block).expect(rt, "there is memory");
    Engine::new(alloc, &spec).expect(rt, "there is memory")
}

/// Returns the path of this number.
pub fn path(rt: &impl Abort, number: u8) -> Path {
    Path::new(number).expect(rt, "a path")
}

/// Returns a datagram of N octets: a header of this payload type, sequence number, timestamp and source, and samples of
/// L24 that are all this one.
fn octets<const N: usize>(pt: u8, seq: u16, ts: u8, ssrc: u8, sample: u8) -> [u8; N] {
    let [high, low] = seq.to_be_bytes();
    let mut octets = [0u8; N];
    for (place, octet) in octets.iter_mut().enumerate() {
        *octet = match place {
            0 => 0x80,
            1 => pt,
            2 => high,
            3 => low,
            7 => ts,
            11 => ssrc,
            _ if place > 11 && place % 3 == 2 => sample,
            _ => 0,
        };
    }
    octets
}

/// Returns a packet of 6 sampling instants with this sequence number and timestamp, whose samples are all this one.
pub fn packet_of_six(seq: u8, ts: u8, sample: u8) -> [u8; 30] {
    octets(96, u16::from(seq), ts, 1, sample)
}

/// Returns a packet of 48 sampling instants with this sequence number and timestamp, whose samples are all this one.
pub fn packet_of_48(seq: u8, ts: u8, sample: u8) -> [u8; 156] {
    octets(96, u16::from(seq), ts, 1, sample)
}

/// Returns the sequence number of a block: that of block 0 is 65,535.
fn number_of(block: u8) -> u16 {
    u16::from(block).wrapping_sub(1)
}

/// Returns the datagram of block 0 or 1 of an output in packets of 6 sampling instants.
pub fn block_of_six(block: u8, sample: u8) -> [u8; 30] {
    octets(
        97,
        number_of(block),
        if block == 0 { 0 } else { 6 },
        2,
        sample,
    )
}

/// Returns the datagram of block 0 or 1 of an output in packets of 48 sampling instants.
pub fn block_of_48(block: u8, sample: u8) -> [u8; 156] {
    octets(
        97,
        number_of(block),
        if block == 0 { 0 } else { 48 },
        2,
        sample,
    )
}

/// A call of an engine of one stream in packets of 6 sampling instants, and its result. A block is 0 or 1, and its
/// samples are all one value.
#[derive(Clone, Copy)]
pub enum Step {
    /// Packet 1 or 2, at 0 or 6, arrives on a path and has this fate, or is refused. Its samples are all its number.
    Hand(u8, u8, Result<Fate, ArriveFault>),
    /// A turn to a clock reading returns this block with this sample.
    Give(i64, u8, u8),
    /// A turn to a clock reading returns no block, or is refused.
    Turn(i64, Result<Option<usize>, ClockFault>),
    /// A close, with its result.
    Close(Result<(), Unfinished>),
    /// A drain returns this block with this sample.
    DrainOne(u8, u8),
    /// A drain returns nothing.
    DrainNone,
    /// `settled`, with its result.
    Settled(bool),
    /// The numbers of the stream's packets taken, and of its slots got and lost.
    Counts(u64, u64, u64),
    /// `next_deadline`, with its result.
    Deadline(Option<i64>),
    /// A change of the gain from a time on, with its result.
    Move(i64, i32, Result<(), ChangeFault>),
    /// `next_block_start`, with its result.
    NextBlock(i64),
    /// The gain in force at a time.
    Gain(i64, i32),
}

/// Takes these steps with a new engine, and tests each result.
pub fn play(rt: &impl Abort, alloc: Global, steps: &[Step]) {
    let engine = &mut six(rt, alloc);
    for (place, step) in steps.iter().enumerate() {
        assert!(rt; gives_result(engine, *step), "step {place}");
    }
}

/// Takes a step, and returns true if its result is the expected one.
fn gives_result(engine: &mut Engine, step: Step) -> bool {
    match step {
        Step::Hand(on, number, want) => arrives(engine, on, number, want),
        Step::Give(now, block, sample) => gives(engine, now, &block_of_six(block, sample)),
        Step::Turn(now, want) => answers(engine, now, want),
        Step::Close(want) => engine.close() == want,
        Step::DrainOne(block, sample) => drains(engine, Some(30), &block_of_six(block, sample)),
        Step::DrainNone => drains(engine, None, &[]),
        Step::Settled(want) => engine.settled() == want,
        Step::Counts(taken, got, lost) => match engine.counts(0) {
            Some(counts) => (counts.taken, counts.got, counts.lost) == (taken, got, lost),
            None => false,
        },
        Step::Deadline(want) => engine.next_deadline() == want,
        Step::Move(at, gain, want) => engine.change_gains(at, &[gain]) == want,
        Step::NextBlock(want) => engine.next_block_start() == want,
        Step::Gain(at, want) => engine.gains(at).gains() == [want].as_slice(),
    }
}

/// Returns true if packet 1 or 2 arrives on a path with this fate, or is refused so, and there is such a path.
fn arrives(engine: &mut Engine, on: u8, number: u8, want: Result<Fate, ArriveFault>) -> bool {
    let ts = if number == 1 { 0 } else { 6 };
    let Some(path) = Path::new(on) else {
        return false;
    };
    engine.arrive(0, path, &packet_of_six(number, ts, number)) == offered(number, ts, want)
}

/// Returns the result of `arrive` for a packet with this sequence number, timestamp and fate, or for one that is
/// refused.
pub fn offered(
    seq: u8,
    ts: u8,
    fate: Result<Fate, ArriveFault>,
) -> Result<ArriveOutcome, ArriveFault> {
    Ok(ArriveOutcome::Offered(OfferedPacket {
        seq: u16::from(seq),
        ts: u32::from(ts),
        fate: fate?,
    }))
}

/// Returns true if a turn returns this datagram.
pub fn gives(engine: &mut Engine, now: i64, want: &[u8]) -> bool {
    let mut out = [0u8; MAX_OCTETS];
    // Called for its clause: a datagram has at most `MAX_OCTETS` octets, so `out` has space.
    let _short = engine.output().datagram_len();
    engine.turn(now, &mut out) == Ok(Some(want.len())) && out.starts_with(want)
}

/// Returns true if a turn returns this result.
pub fn answers(engine: &mut Engine, now: i64, want: Result<Option<usize>, ClockFault>) -> bool {
    let mut out = [0u8; MAX_OCTETS];
    // Called for its clause, as in `gives`.
    let _short = engine.output().datagram_len();
    engine.turn(now, &mut out) == want
}

/// Returns true if a drain returns a datagram of this length and these octets, or none if there is no length.
fn drains(engine: &mut Engine, len: Option<usize>, want: &[u8]) -> bool {
    let mut out = [0u8; MAX_OCTETS];
    // Called for its clause, as in `gives`.
    let _short = engine.output().datagram_len();
    engine.drain(&mut out) == len && out.starts_with(want)
}
