//! Test vectors of RTP headers (RFC 3550, 5.1), payloads and samples.
ghost use Rattle.rtp_wire.specs.Sample.{FitsEncoding};

use rtp_wire::{Enc, WireFault, read, read_samples, sample, write_sample, write_samples};

/// A header and its fault, if it has one, or else its payload. All but the first are of type 96, number 1, timestamp 0
/// and source 1.
#[derive(Clone, Copy)]
struct Header {
    shows: &'static str,
    octets: &'static [u8],
    fault: Option<WireFault>,
    payload: &'static [u8],
}

const HEADERS: [Header; 11] = [
    Header {
        shows: "eleven octets are too short",
        octets: &[0x60, 0, 1, 0, 0, 0, 0, 0, 0, 0, 1],
        fault: Some(WireFault::Short),
        payload: &[],
    },
    Header {
        shows: "version 1 is refused",
        octets: &[0x40, 0x60, 0, 1, 0, 0, 0, 0, 0, 0, 0, 1],
        fault: Some(WireFault::Version),
        payload: &[],
    },
    Header {
        shows: "an extension of which two octets are there is cut",
        octets: &[0x90, 0x60, 0, 1, 0, 0, 0, 0, 0, 0, 0, 1, 0xbe, 0xef],
        fault: Some(WireFault::ExtensionCut),
        payload: &[],
    },
    Header {
        shows: "an extension of one word without the word is cut",
        octets: &[0x90, 0x60, 0, 1, 0, 0, 0, 0, 0, 0, 0, 1, 0xbe, 0xef, 0, 1],
        fault: Some(WireFault::ExtensionCut),
        payload: &[],
    },
    Header {
        shows: "an extension of no words is skipped",
        octets: &[
            0x90, 0x60, 0, 1, 0, 0, 0, 0, 0, 0, 0, 1, 0xbe, 0xef, 0, 0, 1, 2,
        ],
        fault: None,
        payload: &[1, 2],
    },
    Header {
        shows: "padding in an empty payload is refused",
        octets: &[0xa0, 0x60, 0, 1, 0, 0, 0, 0, 0, 0, 0, 1],
        fault: Some(WireFault::Padding),
        payload: &[],
    },
    Header {
        shows: "padding of no octets is refused",
        octets: &[0xa0, 0x60, 0, 1, 0, 0, 0, 0, 0, 0, 0, 1, 0, 0, 0],
        fault: Some(WireFault::Padding),
        payload: &[],
    },
    Header {
        shows: "padding of more octets than the payload is refused",
        octets: &[0xa0, 0x60, 0, 1, 0, 0, 0, 0, 0, 0, 0, 1, 0, 0, 0xff],
        fault: Some(WireFault::Padding),
        payload: &[],
    },
    Header {
        shows: "padding of one octet is that octet itself",
        octets: &[0xa0, 0x60, 0, 1, 0, 0, 0, 0, 0, 0, 0, 1, 0xaa, 0xbb, 1],
        fault: None,
        payload: &[0xaa, 0xbb],
    },
    Header {
        shows: "padding may be the whole payload",
        octets: &[0xa0, 0x60, 0, 1, 0, 0, 0, 0, 0, 0, 0, 1, 0, 0, 3],
        fault: None,
        payload: &[],
    },
    Header {
        shows: "a header of twelve octets is followed by the payload",
        octets: &[0x80, 0x60, 0, 1, 0, 0, 0, 0, 0, 0, 0, 1, 9],
        fault: None,
        payload: &[9],
    },
];

/// A header with fifteen contributing sources, and no payload.
const SOURCES: [u8; 72] = [
    0x8f, 0x60, 0, 1, 0, 0, 0, 0, 0, 0, 0, 1, 0, 0, 0, 0, 0, 0, 0, 0, 0, 0, 0, 0, 0, 0, 0, 0, 0, 0,
    0, 0, 0, 0, 0, 0, 0, 0, 0, 0, 0, 0, 0, 0, 0, 0, 0, 0, 0, 0, 0, 0, 0, 0, 0, 0, 0, 0, 0, 0, 0, 0,
    0, 0, 0, 0, 0, 0, 0, 0, 0, 0,
];

/// Returns true if a datagram has this fault, or, if there is no fault, this payload.
fn is_read_as(octets: &[u8], fault: Option<WireFault>, payload: &[u8]) -> bool {
    match read(octets) {
        Ok(view) => fault == None && view.payload == payload,
        Err(found) => fault == Some(found),
    }
}

/// Of cut headers, other versions, contributing sources, extensions and padding, `read` returns the first fault or the
/// payload.
#[test]
fn header_faults_and_payloads(rt: HostRuntime) {
    for header in &HEADERS {
        let is_so = is_read_as(header.octets, header.fault, header.payload);
        assert!(rt; is_so, "{}", header.shows);
    }
}

/// Fifteen contributing sources are 60 octets: a header that is one octet short of them is cut, and one of 72 octets is
/// whole.
#[test]
fn fifteen_contributing_sources_are_60_octets(rt: HostRuntime) {
    assert!(rt; is_read_as(&SOURCES[..71], Some(WireFault::CsrcCut), &[]));
    assert!(rt; is_read_as(&SOURCES, None, &[]));
}

/// A datagram with two contributing sources, an extension and padding.
const FULL: [u8; 33] = [
    0xb2, 0x60, 0, 1, 0, 0, 0, 0, 0, 0, 0, 1, 1, 1, 1, 1, 2, 2, 2, 2, 0xbe, 0xef, 0, 1, 3, 3, 3, 3,
    0xaa, 0xbb, 0, 0, 3,
];

/// Returns the fault of the first k octets of `FULL`, or none if those are all.
fn fault_of_cut(k: usize) -> Option<WireFault> {
    match k {
        0..=11 => Some(WireFault::Short),
        12..=19 => Some(WireFault::CsrcCut),
        20..=27 => Some(WireFault::ExtensionCut),
        28..=32 => Some(WireFault::Padding),
        _ => None,
    }
}

/// Each cut of a datagram with two contributing sources, an extension and padding has the fault of the part in which
/// the cut is.
#[test]
fn each_cut_of_a_full_header_has_its_fault(rt: HostRuntime) {
    for k in 0..34usize {
        let is_so = is_read_as(&FULL[..k], fault_of_cut(k), &[0xaa, 0xbb]);
        assert!(rt; is_so, "the first {k}");
    }
}

/// The samples -1, the least and the greatest of L16.
const EDGES_16: [u8; 6] = [0xff, 0xff, 0x80, 0, 0x7f, 0xff];

/// The least and the greatest sample of L24, and one between them.
const EDGES_24: [u8; 9] = [0x80, 0, 0, 0x7f, 0xff, 0xff, 1, 2, 3];

/// The least and greatest samples of L16 and L24 have their values on 24 bits: they are signed and big-endian (RFC
/// 3551, 4.5; RFC 3190, 4).
#[test]
fn samples_are_signed_and_big_endian(rt: HostRuntime) {
    assert!(rt; sample(Enc::L16, &EDGES_16, 0) == -256);
    assert!(rt; sample(Enc::L16, &EDGES_16, 1) == -8_388_608);
    assert!(rt; sample(Enc::L16, &EDGES_16, 2) == 8_388_352);
    assert!(rt; sample(Enc::L24, &EDGES_24, 0) == -8_388_608);
    assert!(rt; sample(Enc::L24, &EDGES_24, 1) == 8_388_607);
    assert!(rt; sample(Enc::L24, &EDGES_24, 2) == 66_051);
}

/// Returns four octets as one number: those of a written sample, and 0x55 in the rest.
fn octets_of(enc: Enc, value: i32) -> u32
    requires { FitsEncoding enc value }
{
    let mut out = [0x55u8; 4];
    write_sample(enc, value, &mut out);
    u32::from_be_bytes(out)
}

/// The least and greatest samples of L16 and L24 are written in network order, and nothing after them.
#[test]
fn samples_are_written_in_network_order(rt: HostRuntime) {
    assert!(rt; octets_of(Enc::L16, -1) == 0xffff_5555);
    assert!(rt; octets_of(Enc::L16, -32_768) == 0x8000_5555);
    assert!(rt; octets_of(Enc::L16, 32_767) == 0x7fff_5555);
    assert!(rt; octets_of(Enc::L24, 8_388_607) == 0x7fff_ff55);
    assert!(rt; octets_of(Enc::L24, -8_388_608) == 0x8000_0055);
}

/// Four samples of L24, or six of L16, and an octet that is none.
const OCTETS: [u8; 13] = [0, 1, 2, 0x80, 0, 0, 0x7f, 0xff, 0xff, 0xff, 0xff, 0xfe, 9];

/// The samples of `OCTETS` as L24, and the rest of the buffer, which is not written.
const OF_24: [i32; 7] = [258, -8_388_608, 8_388_607, -2, 5, 5, 5];

/// The samples of `OCTETS` as L16, and the rest of the buffer, which is not written.
const OF_16: [i32; 7] = [256, 163_840, 0, 8_388_352, -256, -512, 5];

/// Twelve octets are four samples of L24 or six of L16. Octets that do not fill a sample are not read: a thirteenth
/// one, and two of L24.
#[test]
fn blocks_are_their_samples_side_by_side(rt: HostRuntime) {
    let mut out = [5i32; 7];
    assert!(rt; read_samples(Enc::L24, &OCTETS, &mut out) == 4 && out == OF_24);
    assert!(rt; read_samples(Enc::L24, &[1, 2], &mut out) == 0 && out == OF_24);
    assert!(rt; read_samples(Enc::L16, &OCTETS, &mut out) == 6 && out == OF_16);
}

/// The samples 258 and -2 in the octets of L24, and the rest of the buffer, which is not written.
const AS_24: [u8; 8] = [0, 1, 2, 0xff, 0xff, 0xfe, 0x55, 0x55];

/// The samples 258 and -2 in the octets of L16, and the rest of the buffer, which is not written.
const AS_16: [u8; 8] = [1, 2, 0xff, 0xfe, 0x55, 0x55, 0x55, 0x55];

/// Two samples are written next to each other, as six octets of L24 and as four of L16.
#[test]
fn samples_are_written_side_by_side(rt: HostRuntime) {
    let mut out = [0x55u8; 8];
    assert!(rt; write_samples(Enc::L24, &[258, -2], &mut out) == 6 && out == AS_24);
    let mut out = [0x55u8; 8];
    assert!(rt; write_samples(Enc::L16, &[258, -2], &mut out) == 4 && out == AS_16);
}
