//! Test vectors of outputs and their datagrams.
use mix_packets::{OutFault, OutSpec, Packer};
use rtp_wire::{Enc, read};
use std::process::Abort;

/// The latest start of an output, 2^60.
const LATEST: i64 = 1_152_921_504_606_846_976;

/// Sequence number 65535 and timestamp 2^32 - 48 are followed by 0 and 0.
#[test]
fn sequence_and_timestamp_wrap(rt: HostRuntime) {
    let Ok(spec) = OutSpec::new(Enc::L24, 1, 48, 97, 2, 65_535, 4_294_967_248, 0) else {
        panic!(rt; "an output without a fault")
    };
    let mut packer = Packer::new(spec);
    assert!(rt; packer.number() == 0);
    // One octet more than a datagram has, to see that nothing is written after it.
    let mut out = [0x55u8; 157];
    assert!(rt; packer.next(&[1000; 48], &mut out) == 156);
    assert!(rt;
        &out[..15]
            == [
                0x80, 0x61, 0xff, 0xff, 0xff, 0xff, 0xff, 0xd0, 0, 0, 0, 2, 0, 3, 0xe8
            ]
            .as_slice()
    );
    assert!(rt; packer.number() == 1);
    assert!(rt; packer.next(&[1000; 48], &mut out) == 156);
    assert!(rt; &out[..15] == [0x80, 0x61, 0, 0, 0, 0, 0, 0, 0, 0, 0, 2, 0, 3, 0xe8].as_slice());
    assert!(rt; (packer.number(), out[156]) == (2, 0x55));
}

/// The sampling instants per packet of an output, its payload type and its start, and its fault.
#[derive(Clone, Copy)]
struct Refused {
    shows: &'static str,
    frames: u16,
    pt: u8,
    start: i64,
    fault: OutFault,
}

const REFUSED: [Refused; 3] = [
    Refused {
        shows: "5 instants per packet are not allowed",
        frames: 5,
        pt: 97,
        start: 0,
        fault: OutFault::Frames,
    },
    Refused {
        shows: "payload type 95 is a static one",
        frames: 6,
        pt: 95,
        start: 0,
        fault: OutFault::PayloadType,
    },
    Refused {
        shows: "a start is not negative",
        frames: 6,
        pt: 97,
        start: -1,
        fault: OutFault::Start,
    },
];

/// An output of other packets, of a static payload type or with a negative start is refused by name.
#[test]
fn output_faults(rt: HostRuntime) {
    for row in &REFUSED {
        let spec = OutSpec::new(Enc::L24, 1, row.frames, row.pt, 2, 0, row.start, 0);
        assert!(rt; spec.err() == Some(row.fault), "{}", row.shows);
    }
}

/// A start and an offset, and the first timestamp.
#[derive(Clone, Copy)]
struct Offset {
    shows: &'static str,
    start: i64,
    offset: u32,
    ts: u32,
}

const OFFSETS: [Offset; 5] = [
    Offset {
        shows: "the offset alone",
        start: 0,
        offset: 4_294_967_295,
        ts: 4_294_967_295,
    },
    Offset {
        shows: "the sum is modulo 2^32",
        start: 1,
        offset: 4_294_967_295,
        ts: 0,
    },
    Offset {
        shows: "the latest start is a multiple of 2^32",
        start: LATEST,
        offset: 0,
        ts: 0,
    },
    Offset {
        shows: "one before it, and an offset of 3",
        start: LATEST - 1,
        offset: 3,
        ts: 2,
    },
    Offset {
        shows: "a start of five cycles and 1,000",
        start: 4_294_967_296 * 5 + 1000,
        offset: 10,
        ts: 1010,
    },
];

/// The first timestamp is the start plus the offset, modulo 2^32, up to the latest start.
#[test]
fn the_offset_is_ahead_of_the_start(rt: HostRuntime) {
    for row in &OFFSETS {
        let ts = first_timestamp(&rt, row.start, row.offset);
        assert!(rt; ts == row.ts, "{}", row.shows);
    }
}

/// Returns the timestamp of the first datagram of an output of L16.
fn first_timestamp(rt: &impl Abort, start: i64, offset: u32) -> u32 {
    let spec = OutSpec::new(Enc::L16, 1, 6, 96, 1, 0, start, offset).expect(rt, "an output");
    let mut out = [0u8; 24];
    let _len = Packer::new(spec).next(&[0; 6], &mut out);
    read(&out).expect(rt, "a datagram").ts
}

/// The least, the greatest and ordinary samples of L16 are written frame by frame (RFC 3551, 4.5).
#[test]
fn samples_of_16_bits_stand_frame_by_frame_at_their_extremes(rt: HostRuntime) {
    let spec = OutSpec::new(Enc::L16, 2, 6, 96, 1, 0, 0, 0).expect(&rt, "an output");
    let block = [-32_768, 32_767, -1, 1, 0, 2, 0, 3, 0, 4, 0, 258];
    let mut out = [0u8; 36];
    assert!(rt; Packer::new(spec).next(&block, &mut out) == 36);
    assert!(rt; &out[12..22] == [0x80, 0, 0x7f, 0xff, 0xff, 0xff, 0, 1, 0, 0].as_slice());
    assert!(rt; &out[34..] == [1, 2].as_slice());
}

/// The least, the greatest and ordinary samples of L24 are written frame by frame (RFC 3190, 4).
#[test]
fn samples_of_24_bits_stand_frame_by_frame_at_their_extremes(rt: HostRuntime) {
    let spec = OutSpec::new(Enc::L24, 1, 6, 96, 1, 0, 0, 0).expect(&rt, "an output");
    let block = [-8_388_608, 8_388_607, -1, 0, 1, 66_051];
    let mut out = [0u8; 30];
    assert!(rt; Packer::new(spec).next(&block, &mut out) == 30);
    assert!(rt; &out[12..21] == [0x80, 0, 0, 0x7f, 0xff, 0xff, 0xff, 0xff, 0xff].as_slice());
    assert!(rt; &out[21..] == [0, 0, 0, 0, 0, 1, 1, 2, 3].as_slice());
}
