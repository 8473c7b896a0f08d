//! Packets of the small studios' streams, and datagrams of their mix, octet by octet.
use std::alloc::{AllocError, Global};

/// The first packet of a stream of 6 sampling instants a packet: the samples 1 to 6.
pub const FIRST: [u8; 30] = [
    0x80, 0x60, 0, 1, 0, 0, 0, 0, 0, 0, 0, 1, 0, 0, 1, 0, 0, 2, 0, 0, 3, 0, 0, 4, 0, 0, 5, 0, 0, 6,
];

/// The packet after it: the samples 7 to 12.
pub const SECOND: [u8; 30] = [
    0x80, 0x60, 0, 2, 0, 0, 0, 6, 0, 0, 0, 1, 0, 0, 7, 0, 0, 8, 0, 0, 9, 0, 0, 10, 0, 0, 11, 0, 0,
    12,
];

/// Returns both packets.
pub fn both_packets(alloc: Global) -> Result<Vec<Vec<u8>>, AllocError> {
    let mut packets = Vec::new(alloc);
    packets.push(Vec::from_slice(alloc, &FIRST)?)?;
    packets.push(Vec::from_slice(alloc, &SECOND)?)?;
    Ok(packets)
}

/// Returns a header, and after it each of these samples, repeated as often as the number before it says.
pub fn datagram(
    alloc: Global,
    head: [u8; 12],
    runs: &[(u8, [u8; 3])],
) -> Result<Vec<u8>, AllocError> {
    let mut octets = Vec::from_slice(alloc, &head)?;
    for (times, sample) in runs {
        for _ in 0..*times {
            octets.extend_from_slice(sample)?;
        }
    }
    Ok(octets)
}

/// Returns eight packets of 6 sampling instants from 0 on, of numbers 1 to 8, all of whose samples are 1000.
pub fn thousands(alloc: Global) -> Result<Vec<Vec<u8>>, AllocError> {
    let mut packets = Vec::new(alloc);
    for number in 0..8u8 {
        packets.push(thousand(alloc, number)?)?;
    }
    Ok(packets)
}

/// Returns one of these packets, the first of which is 0.
fn thousand(alloc: Global, number: u8) -> Result<Vec<u8>, AllocError> {
    let (seq, ts) = (number.wrapping_add(1), number.wrapping_mul(6));
    let head = [0x80, 0x60, 0, seq, 0, 0, 0, ts, 0, 0, 0, 1];
    datagram(alloc, head, &[(6, [0, 3, 0xe8])])
}

/// Returns the packet of 48 sampling instants from 20 on, of number 100, all of whose samples are 1.
pub fn ones(alloc: Global) -> Result<Vec<u8>, AllocError> {
    let head = [0x80, 0x60, 0, 100, 0, 0, 0, 20, 0, 0, 0, 1];
    datagram(alloc, head, &[(48, [0, 0, 1])])
}

/// The header of a first datagram of 48 sampling instants.
const FIRST_HEAD: [u8; 12] = [0x80, 0x61, 0xff, 0xff, 0, 0, 0, 0, 0, 0, 0, 2];

/// Returns the datagram of the first 48 sampling instants of the thousands and the ones: their sums.
pub fn sums(alloc: Global) -> Result<Vec<u8>, AllocError> {
    datagram(alloc, FIRST_HEAD, &[(20, [0, 3, 0xe8]), (28, [0, 3, 0xe9])])
}

/// Returns the datagram of the next 48, which the thousands don't reach: the ones, and silence from 68 on.
pub fn ones_alone(alloc: Global) -> Result<Vec<u8>, AllocError> {
    let head = [0x80, 0x61, 0, 0, 0, 0, 0, 48, 0, 0, 0, 2];
    datagram(alloc, head, &[(20, [0, 0, 1]), (28, [0, 0, 0])])
}

/// Returns the datagram of the first 48 sampling instants of the thousands and a silent stream.
pub fn thousands_alone(alloc: Global) -> Result<Vec<u8>, AllocError> {
    datagram(alloc, FIRST_HEAD, &[(48, [0, 3, 0xe8])])
}
