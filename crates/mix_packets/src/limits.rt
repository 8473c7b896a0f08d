//! The limit of a datagram of the output.

/// The most octets of a datagram of the output: an RTP header of 12 (RFC 3550, 5.1) and a payload of 1,440.
pub const MAX_OUTPUT_OCTETS: usize = 1452;
