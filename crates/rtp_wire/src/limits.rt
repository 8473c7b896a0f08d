//! The size of a header, and the limit of a received datagram.

/// The octets of the fixed part of a header, before the CSRC list (RFC 3550, 5.1).
pub const HEADER_OCTETS: usize = 12;

/// The most octets of a datagram that is received.
// A packet of the greatest payload has 1,452, so what is cut off is never a packet of a stream. A trace's line of 4,096
// octets has two for each octet of a datagram.
pub const MAX_ARRIVAL_OCTETS: usize = 2048;
