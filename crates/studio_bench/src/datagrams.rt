//! The datagrams of one stream, made before a kernel is timed, and the numbers of the command line.
use rtp_stream::{StreamClock, StreamSpec};
use rtp_wire::Enc;
use std::alloc::Global;
use std::env::Args;

/// The number of octets of a fixed RTP header (RFC 3550, 5.1).
const HEADER: usize = 12;

// The same as `NUMBERS` in bench/merge.c, whose sum has to be equal.
/// The number of datagrams, which are numbered from 0 on.
pub(crate) const NUMBERS: u32 = 12_000;

/// Datagrams of one length, next to each other in memory.
#[derive(Drop)]
pub(crate) struct Datagrams {
    octets: Vec<u8>,
    len: usize,
}

/// Returns the next word as a number, or none if it is none.
pub(crate) fn number(words: &mut Args) -> Option<u32> {
    words.next()?.parse::<u32>().ok()
}

/// Returns a stream of L24 whose payloads have this many octets, with a window of `width` packets and the longest
/// latency that it spans. None for other lengths than 18, 144, 288 and 1,152, or if the window is not allowed.
pub(crate) fn stream(octets: u32, width: u32) -> Option<StreamSpec> {
    let (channels, frames) = match octets {
        18 => (1, 6),
        144 => (1, 48),
        288 => (2, 48),
        1152 => (2, 192),
        _ => return None,
    };
    let width = u16::try_from(width).ok()?;
    // A window has to span the latency and two packets.
    let latency = u32::from(width.saturating_sub(2)) * u32::from(frames);
    let clock = StreamClock::Media { offset: 0 };
    StreamSpec::new(
        Enc::L24,
        channels,
        frames,
        96,
        None,
        clock,
        latency,
        width,
        2,
    )
    .ok()
}

/// Returns the datagrams of all numbers, or none if an allocation fails.
pub(crate) fn make_datagrams(alloc: Global, spec: &StreamSpec) -> Option<Datagrams> {
    let len = HEADER + spec.payload_len();
    let mut octets = vec![in alloc; 0u8; len * NUMBERS as usize].ok()?;
    for (datagram, number) in octets.as_mut_slice().chunks_mut(len).zip(0..NUMBERS) {
        write_datagram(datagram, number, u32::from(spec.frames()));
    }
    Some(Datagrams { octets, len })
}

/// Writes the datagram of a number: a header of payload type 96 and source 7, and octets that count up from the number.
fn write_datagram(datagram: &mut [u8], number: u32, frames: u32) {
    let [_, _, high, low] = number.to_be_bytes();
    let [first, second, third, fourth] = number.wrapping_mul(frames).to_be_bytes();
    let head = [
        0x80, 96, high, low, first, second, third, fourth, 0, 0, 0, 7,
    ];
    for (octet, value) in datagram.iter_mut().zip(head.iter()) {
        *octet = *value;
    }
    for (octet, value) in datagram.iter_mut().skip(HEADER).zip(number..) {
        *octet = (value % 256) as u8;
    }
}

impl Datagrams {
    /// Returns the datagram with this number, if there is one.
    pub(crate) fn of(&self, number: u32) -> Option<&[u8]> {
        let begin = (number as usize).wrapping_mul(self.len);
        self.octets.as_slice().get(begin..)?.get(..self.len)
    }
}
