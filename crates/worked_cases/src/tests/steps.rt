//! The steps of a stream, in words.
//!
//! - `tick T`: calls of `advance` until T is passed.
//! - `advance T`: one call.
//! - `close`: the close.
//! - `a 1 0`: a packet's path, sequence number and timestamp. After these may come `of S`, its source if that is not 1;
//!   `odd`, for a payload that differs from the other copies'; and `x 8`, for this many packets in sequence.
use path_merge::{Packet, Path, StreamSpec};
use rtp_wire::Payload;
use std::process::Abort;
use std::str::{FromStr, SplitWhitespace};

/// A packet as it was sent.
#[derive(Clone, Copy)]
pub struct Sent {
    pub seq: u16,
    pub ts: u32,
    pub source: u32,
    pub odd: bool,
}

impl Sent {
    /// Returns a packet of source 1.
    pub fn new(seq: u16, ts: u32) -> Sent {
        Sent {
            seq,
            ts,
            source: 1,
            odd: false,
        }
    }

    /// Returns the next packet of this one's sender, 6 sampling instants later.
    pub fn next(self) -> Sent {
        Sent {
            seq: self.seq.wrapping_add(1),
            ts: self.ts.wrapping_add(6),
            ..self
        }
    }

    /// Returns the packet for a stream. Its payload counts up from 1, and ends in the sequence number's low octet, or
    /// in that octet's complement if the packet is odd.
    pub fn packet(self, spec: &StreamSpec) -> Packet {
        let [_, low] = self.seq.to_be_bytes();
        let last = if self.odd { !low } else { low };
        let payload = payload_of(spec.payload_len(), last);
        Packet {
            seq: self.seq,
            ts: self.ts,
            ssrc: self.source,
            payload,
        }
    }
}

/// Returns a payload of this many octets, which count up from 1, except for the last one.
pub fn payload_of(len: usize, last: u8) -> Payload {
    let mut payload = Payload::new();
    for place in 1..len {
        let _ = payload.try_push((place % 256) as u8);
    }
    let _ = payload.try_push(last);
    payload
}

/// A step of a stream.
#[derive(Clone, Copy)]
pub enum Step {
    /// This many packets in sequence arrive on a path, from this one on.
    On(Path, Sent, u16),
    /// `advance` is called until this clock reading is passed.
    Tick(i64),
    /// `advance` is called once, with this clock reading.
    Advance(i64),
    /// The stream is closed.
    Close,
}

/// Returns the step of a text. Aborts if the text has another form.
pub fn step_of(rt: &impl Abort, text: &str) -> Step {
    let words = &mut text.split_whitespace();
    let word = words.next().expect(rt, "a step is missing");
    match path_of(word) {
        Some(path) => arrival(rt, path, words),
        None => reading(rt, word, words),
    }
}

/// Returns the path with this name, if there is one.
fn path_of(word: &str) -> Option<Path> {
    match word {
        "a" => Path::new(0),
        "b" => Path::new(1),
        "c" => Path::new(2),
        _ => None,
    }
}

/// Returns the step of a clock reading, or of the close.
fn reading(rt: &impl Abort, word: &str, words: &mut SplitWhitespace<'_>) -> Step {
    match word {
        "tick" => Step::Tick(number(rt, words)),
        "advance" => Step::Advance(number(rt, words)),
        "close" => Step::Close,
        _ => { panic!(rt; "no step: {word}") }
    }
}

/// Returns the step of packets that arrive on a path.
fn arrival(rt: &impl Abort, path: Path, words: &mut SplitWhitespace<'_>) -> Step {
    let mut sent = Sent::new(number(rt, words), number(rt, words));
    let mut times = 1;
    // There are three words that may follow, each at most once.
    for _ in 0..3u8 {
        let Some(word) = words.next() else {
            break;
        };
        match word {
            "of" => sent.source = number(rt, words),
            "odd" => sent.odd = true,
            "x" => times = number(rt, words),
            _ => { panic!(rt; "no packet: {word}") }
        }
    }
    Step::On(path, sent, times)
}

/// Returns the next word as a number. Aborts if it is none.
pub fn number<N: FromStr>(rt: &impl Abort, words: &mut SplitWhitespace<'_>) -> N {
    let word = words.next().expect(rt, "a number is missing");
    match word.parse::<N>() {
        Ok(number) => number,
        Err(_) => { panic!(rt; "no number: {word}") }
    }
}
