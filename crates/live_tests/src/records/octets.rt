//! The octets of a record's blocks, and the packets that a reader finds in them.
ghost use Rattle.std.specs.Prelude.{◌≡◌, length};

use super::record::record;
use pcap_file::{
    Capture, ChangeHead, MAX_BLOCK_LEN, Packet, RecordedChange, RecordedDatagram, RecordedStream,
    UdpBody, UdpDatagram, UdpPacket, nanoseconds_after, open, read_change, write_change,
    write_gains_interface, write_interface, write_packet, write_section_header, write_statistics,
};
use std::net::Ipv4Addr;

/// Returns the record's datagram: three octets, on the second interface.
fn arrival() -> RecordedDatagram<'static>
    ensures { length result.octets.now ≡ 3 }
{
    RecordedDatagram {
        interface: 1,
        nanoseconds: 4_295_020_834,
        source: Ipv4Addr::new(10, 0, 0, 1),
        source_port: 5004,
        destination: Ipv4Addr::new(239, 1, 2, 3),
        destination_port: 5006,
        octets: &[1, 2, 3],
    }
}

/// Returns true if a call wrote these octets, and nothing after them.
fn is_written(out: &[u8], len: usize, want: Option<&[u8]>) -> bool {
    // 0x55 is the octet that each test fills its buffer with.
    out.get(..len) == want && out.get(len) == Some(&0x55)
}

/// Returns true if the opening of a studio at 1000 is written as these octets.
fn is_opening(octets: Option<&[u8]>) -> bool {
    let mut out = [0x55u8; MAX_BLOCK_LEN];
    let len = write_section_header(1000, &mut out);
    is_written(&out, len, octets)
}

/// Returns true if the interface of a stream's path with a description is written as these octets.
fn is_interface(stream: u16, letter: u8, description: &[u8], octets: Option<&[u8]>) -> bool {
    // `write_interface` needs a description of at most 64 octets.
    if description.len() > 64 {
        return false;
    }
    let mut out = [0x55u8; MAX_BLOCK_LEN];
    let len = write_interface(stream, letter, description, &mut out);
    is_written(&out, len, octets)
}

/// The interface of the second path of stream 12, with the description `mono`.
const INTERFACE: [u8; 48] = [
    1, 0, 0, 0, 0x30, 0, 0, 0, 0x65, 0, 0, 0, 0, 0, 0, 0, 2, 0, 4, 0, 0x31, 0x32, 0x20, 0x62, 9, 0,
    1, 0, 9, 0, 0, 0, 3, 0, 4, 0, 0x6d, 0x6f, 0x6e, 0x6f, 0, 0, 0, 0, 0x30, 0, 0, 0,
];

/// Each call writes one block to the start of its buffer, and nothing after it.
#[test]
fn the_opening_and_interfaces_are_these_octets(rt: HostRuntime) {
    let record = record();
    assert!(rt; is_opening(record.get(..60)), "the opening");
    assert!(rt;
        is_interface(12, b'b', b"mono", Some(INTERFACE.as_slice())),
        "an interface"
    );
}

/// Returns true if a stream has this description, and only this text is read as the stream.
fn is_described(stream: RecordedStream, text: &[u8]) -> bool {
    stream.description().as_slice() == text && RecordedStream::of(text) == Some(stream)
}

/// Texts that describe no stream: a plus sign, a leading zero, another word, an octet more, a number too great.
const NO_STREAMS: [&[u8]; 6] = [
    b"",
    b"encoding L24 channels +2 frames 48 pt 96 paths 2",
    b"encoding L24 channels 02 frames 48 pt 96 paths 2",
    b"encoding L24 channels 2 frames 48 type 96 paths 2",
    b"encoding L24 channels 2 frames 48 pt 96 paths 2 ",
    b"encoding L24 channels 256 frames 48 pt 96 paths 2",
];

/// The configuration of a stream is described by a text that is read back.
#[test]
fn a_stream_is_described_by_this_text(rt: HostRuntime) {
    let small = RecordedStream {
        bits: 16,
        channels: 1,
        frames: 6,
        pt: 0,
        paths: 1,
    };
    let great = RecordedStream {
        bits: 255,
        channels: 255,
        frames: 65535,
        pt: 255,
        paths: 255,
    };
    assert!(rt;
        is_described(small, b"encoding L16 channels 1 frames 6 pt 0 paths 1"),
        "small"
    );
    assert!(rt;
        is_described(
            great,
            b"encoding L255 channels 255 frames 65535 pt 255 paths 255"
        ),
        "great"
    );
    for text in &NO_STREAMS {
        assert!(rt; RecordedStream::of(text).is_none(), "no stream");
    }
}

/// Returns true if the record's datagram is written as these octets.
fn is_datagram(octets: Option<&[u8]>) -> bool {
    let mut out = [0x55u8; MAX_BLOCK_LEN];
    let len = write_packet(&arrival(), &mut out);
    is_written(&out, len, octets)
}

/// The interface of changes of gains.
const GAINS: [u8; 56] = [
    1, 0, 0, 0, 0x38, 0, 0, 0, 0x65, 0, 0, 0, 0, 0, 0, 0, 2, 0, 5, 0, 0x67, 0x61, 0x69, 0x6e, 0x73,
    0, 0, 0, 9, 0, 1, 0, 9, 0, 0, 0, 3, 0, 5, 0, 0x67, 0x61, 0x69, 0x6e, 0x73, 0, 0, 0, 0, 0, 0, 0,
    0x38, 0, 0, 0,
];

/// A change of the gains of one output and two inputs, to 65,536 and -1 from 480 on, at block 80. The sum of its IPv4
/// header's other words is 0xc545.
const CHANGE: [u8; 84] = [
    6, 0, 0, 0, 0x54, 0, 0, 0, 2, 0, 0, 0, 1, 0, 0, 0, 0x22, 0xd1, 0, 0, 0x34, 0, 0, 0, 0x34, 0, 0,
    0, 0x45, 0, 0, 0x34, 0, 0, 0x40, 0, 0x40, 0x11, 0x3a, 0xba, 0, 0, 0, 0, 0, 0, 0, 0, 0, 0, 0, 0,
    0, 0x20, 0, 0, 0, 0, 0, 0, 0, 0, 1, 0xe0, 0, 0, 0, 0, 0, 0, 0, 0x50, 0, 1, 0, 0, 0xff, 0xff,
    0xff, 0xff, 0x54, 0, 0, 0,
];

/// Returns true if the interface of changes of gains is written as it should be.
fn is_gains_interface() -> bool {
    let mut out = [0x55u8; MAX_BLOCK_LEN];
    let len = write_gains_interface(&mut out);
    is_written(&out, len, Some(GAINS.as_slice()))
}

/// Returns true if a change of gains is written as it should be.
fn is_change() -> bool {
    let change = RecordedChange {
        interface: 2,
        nanoseconds: 4_295_020_834,
        at: 480,
        next_block: 80,
        gains: &[65_536, -1],
    };
    let mut out = [0x55u8; MAX_BLOCK_LEN];
    let len = write_change(&change, &mut out);
    is_written(&out, len, Some(CHANGE.as_slice()))
}

/// Returns true if the payload of that change is read as it, and into no shorter buffer.
fn is_change_read() -> bool {
    let head = ChangeHead {
        at: 480,
        next_block: 80,
        gains: 2,
    };
    let payload = &CHANGE[56..80];
    let mut gains = [7; 3];
    let mut buffer = [7; 1];
    read_change(payload, &mut gains) == Some(head)
        && gains == [65_536, -1, 7]
        && read_change(payload, &mut buffer).is_none()
        && buffer == [7]
}

/// A change of gains is written as a packet on an interface of its own, and read back.
#[test]
fn a_change_of_gains_is_these_octets(rt: HostRuntime) {
    assert!(rt; is_gains_interface(), "the interface");
    assert!(rt; is_change(), "the change");
    assert!(rt; is_change_read(), "the change, read");
}

/// Returns true if the record's close is written as these octets.
fn is_close(octets: Option<&[u8]>) -> bool {
    let mut out = [0x55u8; MAX_BLOCK_LEN];
    let len = write_statistics(4_295_083_334, &mut out);
    is_written(&out, len, octets)
}

/// A datagram is written as an IPv4 packet with a correct checksum, and the close as an interface's statistics.
#[test]
fn a_datagram_and_the_close_are_these_octets(rt: HostRuntime) {
    let record = record();
    assert!(rt; is_datagram(record.get(140..204)), "the datagram");
    assert!(rt; is_close(record.get(204..)), "the close");
}

/// Sampling instants after the opening, and the first nanosecond that is not before them.
const TIMES: [(u64, Option<u64>); 7] = [
    (0, Some(0)),
    (1, Some(20_834)),
    (2, Some(41_667)),
    (3, Some(62_500)),
    (206_161, Some(4_295_020_834)),
    (885_443_715_538_058, Some(18_446_744_073_709_541_667)),
    (885_443_715_538_059, None),
];

/// A time is rounded up to a nanosecond. A time that does not fit into 64 bits has no nanoseconds.
#[test]
fn times_are_rounded_up(rt: HostRuntime) {
    for (instants, want) in &TIMES {
        assert!(rt; nanoseconds_after(*instants) == *want, "{instants}");
    }
}

/// Returns the record's datagram as a reader finds it.
fn packet() -> Packet<'static> {
    Packet {
        time: Some(4_295_020_834),
        interface: 1,
        ip: UdpPacket {
            source: Ipv4Addr::new(10, 0, 0, 1),
            destination: Ipv4Addr::new(239, 1, 2, 3),
            body: UdpBody::Datagram(UdpDatagram {
                source_port: 5004,
                destination_port: 5006,
                payload: &[1, 2, 3],
            }),
        },
    }
}

/// Returns true if a capture has the record's datagram next.
fn gives_datagram(capture: &mut Capture<'_>) -> bool {
    match capture.next() {
        Some(Ok(given)) => given == packet(),
        Some(Err(_)) | None => false,
    }
}

/// A record is a capture of the datagrams that arrived.
#[test]
fn a_record_is_a_capture_of_its_datagrams(rt: HostRuntime) {
    let record = record();
    let capture = &mut open(&record).expect(&rt, "a capture");
    assert!(rt; gives_datagram(capture), "the datagram");
    assert!(rt; capture.next().is_none(), "nothing more");
}
