//! The specification of a stream: each of its limits, the packets that it admits, and the numbers of its paths.
use super::cases::{STREAM, spec_of};
use rtp_stream::{AdmitFault, Path, SpecFault, Stream, StreamSpec};
use rtp_wire::read;
use std::process::Abort;

/// The parts of a stream, and the first fault in them, or the number of octets of a payload.
#[derive(Clone, Copy)]
struct Parts {
    shows: &'static str,
    stream: Stream,
    result: Result<usize, SpecFault>,
}

const PARTS: [Parts; 12] = [
    Parts {
        shows: "a packet of one channel of L24 and 6 instants has 18 octets",
        stream: STREAM,
        result: Ok(18),
    },
    Parts {
        shows: "5 instants per packet are not allowed",
        stream: Stream {
            frames: 5,
            ..STREAM
        },
        result: Err(SpecFault::Frames),
    },
    Parts {
        shows: "eight channels of L24 and 192 instants would be 4,608 octets",
        stream: Stream {
            channels: 8,
            frames: 192,
            ..STREAM
        },
        result: Err(SpecFault::TooLong),
    },
    Parts {
        shows: "a window of 12 packets is no power of two",
        stream: Stream {
            window: 12,
            ..STREAM
        },
        result: Err(SpecFault::Window),
    },
    Parts {
        shows: "8 packets of 6 hold a latency of 36",
        stream: Stream {
            latency: 36,
            ..STREAM
        },
        result: Ok(18),
    },
    Parts {
        shows: "they do not hold one of 37",
        stream: Stream {
            latency: 37,
            ..STREAM
        },
        result: Err(SpecFault::Latency),
    },
    Parts {
        shows: "payload type 10 is a static one",
        stream: Stream { pt: 10, ..STREAM },
        result: Err(SpecFault::PayloadType),
    },
    Parts {
        shows: "level C has 64 channels in packets of 6 instants, of 1,152 octets",
        stream: Stream {
            channels: 64,
            ..STREAM
        },
        result: Ok(1_152),
    },
    Parts {
        shows: "9 channels are not allowed in packets of 48 instants",
        stream: Stream {
            channels: 9,
            frames: 48,
            ..STREAM
        },
        result: Err(SpecFault::Frames),
    },
    Parts {
        shows: "65 channels are too many",
        stream: Stream {
            channels: 65,
            ..STREAM
        },
        result: Err(SpecFault::Channels),
    },
    Parts {
        shows: "a stream has up to four paths",
        stream: Stream { paths: 4, ..STREAM },
        result: Ok(18),
    },
    Parts {
        shows: "five paths are too many",
        stream: Stream { paths: 5, ..STREAM },
        result: Err(SpecFault::Paths),
    },
];

/// Returns the number of octets of a stream's payloads, or the stream's first fault.
fn payload_len_of(stream: Stream) -> Result<usize, SpecFault> {
    Ok(StreamSpec::of(stream)?.payload_len())
}

/// Each limit of a stream's channels, packets, window, latency and paths is tried, with the fault that a stream past it
/// has.
#[test]
fn stream_faults_and_payload_lengths(rt: HostRuntime) {
    for parts in &PARTS {
        let found = payload_len_of(parts.stream);
        assert!(rt; found == parts.result, "{}: {found:?}", parts.shows);
    }
}

/// The packet (1, 0) of the stream, whose samples are 1 to 6.
const DATAGRAM: [u8; 30] = [
    0x80, 0x60, 0, 1, 0, 0, 0, 0, 0, 0, 0, 1, 0, 0, 1, 0, 0, 2, 0, 0, 3, 0, 0, 4, 0, 0, 5, 0, 0, 6,
];

/// A copy of it with payload type 97.
const OF_TYPE_97: [u8; 30] = [
    0x80, 0x61, 0, 1, 0, 0, 0, 0, 0, 0, 0, 1, 0, 0, 1, 0, 0, 2, 0, 0, 3, 0, 0, 4, 0, 0, 5, 0, 0, 6,
];

/// Returns the fault by which the stream refuses a datagram, if it does.
fn fault_of(rt: &impl Abort, octets: &[u8]) -> Option<AdmitFault> {
    let view = read(octets).expect(rt, "a datagram");
    spec_of(rt, STREAM).admit(&view).err()
}

/// A datagram of the stream is admitted as its packet. One of another payload type, and one without its last octet, are
/// refused.
#[test]
fn packets_of_the_type_and_length_are_admitted(rt: HostRuntime) {
    let view = read(&DATAGRAM).expect(&rt, "a datagram");
    let packet = spec_of(&rt, STREAM).admit(&view).expect(&rt, "a packet");
    assert!(rt; (packet.seq, packet.ts, packet.ssrc) == (1, 0, 1));
    assert!(rt; packet.payload.as_slice() == &DATAGRAM[12..]);
    assert!(rt; fault_of(&rt, &OF_TYPE_97) == Some(AdmitFault::WrongType));
    assert!(rt; fault_of(&rt, &DATAGRAM[..29]) == Some(AdmitFault::WrongLength));
}

/// Paths have the numbers 0 to 3. There is no path 4.
#[test]
fn there_are_four_paths(rt: HostRuntime) {
    for number in 0..4u8 {
        let path = Path::new(number).map(|path| path.number());
        assert!(rt; path == Some(number), "path {number}");
    }
    assert!(rt; Path::new(4).is_none());
}
