//! Test vectors of the nearest number with given low bits (RFC 3550, A.1).
use rtp_stream::{near16, near32};
use std::process::Abort;

/// A sequence number, the reference, and the nearest number.
#[derive(Clone, Copy)]
struct Nearest16 {
    shows: &'static str,
    seq: u16,
    reference: i64,
    nearest: i64,
}

const NEAREST_16: [Nearest16; 6] = [
    Nearest16 {
        shows: "the next cycle begins with 0",
        seq: 0,
        reference: 131_071,
        nearest: 131_072,
    },
    Nearest16 {
        shows: "a late packet is of the cycle before",
        seq: 65_535,
        reference: 131_072,
        nearest: 131_071,
    },
    Nearest16 {
        shows: "half a cycle below the reference is the lower number",
        seq: 0,
        reference: 98_304,
        nearest: 65_536,
    },
    Nearest16 {
        shows: "a reference one lower gives the same number",
        seq: 0,
        reference: 98_303,
        nearest: 65_536,
    },
    Nearest16 {
        shows: "half a cycle below the begin of a cycle is in the cycle before",
        seq: 32_768,
        reference: 65_536,
        nearest: 32_768,
    },
    Nearest16 {
        shows: "half a cycle less one above it is in the same cycle",
        seq: 32_767,
        reference: 65_536,
        nearest: 98_303,
    },
];

/// A timestamp, the reference, and the nearest number.
#[derive(Clone, Copy)]
struct Nearest32 {
    shows: &'static str,
    ts: u32,
    reference: i64,
    nearest: i64,
}

const NEAREST_32: [Nearest32; 3] = [
    Nearest32 {
        shows: "a timestamp just below 2^32 is negative next to 0",
        ts: 4_294_967_290,
        reference: 0,
        nearest: -6,
    },
    Nearest32 {
        shows: "timestamp 0 follows 2^32 - 6",
        ts: 0,
        reference: 4_294_967_290,
        nearest: 4_294_967_296,
    },
    Nearest32 {
        shows: "half a cycle away is the lower number",
        ts: 2_147_483_648,
        reference: 0,
        nearest: -2_147_483_648,
    },
];

/// Returns the number nearest to a reference with these low 16 bits.
fn nearest_16(rt: &impl Abort, seq: u16, reference: i64) -> i64 {
    // `near16` requires a reference from -2^61 to 2^61.
    assert!(rt; -4_294_967_296 <= reference && reference <= 4_294_967_296);
    near16(seq, reference)
}

/// Returns the number nearest to a reference with these low 32 bits.
fn nearest_32(rt: &impl Abort, ts: u32, reference: i64) -> i64 {
    // As does `near32`.
    assert!(rt; -4_294_967_296 <= reference && reference <= 4_294_967_296);
    near32(ts, reference)
}

/// Sequence numbers of 16 bits and timestamps of 32 have their nearest numbers: from half a cycle below the reference
/// to just below half a cycle above it.
#[test]
fn low_bits_extend_to_the_nearest_number(rt: HostRuntime) {
    for row in &NEAREST_16 {
        let found = nearest_16(&rt, row.seq, row.reference);
        assert!(rt; found == row.nearest, "{}: {found}", row.shows);
    }
    for row in &NEAREST_32 {
        let found = nearest_32(&rt, row.ts, row.reference);
        assert!(rt; found == row.nearest, "{}: {found}", row.shows);
    }
}
