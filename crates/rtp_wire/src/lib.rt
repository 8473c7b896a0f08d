//! RTP datagrams, read and written: their header, their payload and its linear PCM samples.
//!
//! Begin with `read`: it returns the header and the payload of a datagram as an `RtpView`, or its
//! first fault as a `WireFault`. The payload stays in the datagram, which the caller keeps.
//! `read_samples` then reads all samples of a payload, and `sample` reads one.
//!
//! To write a datagram, call `write_head` with a slice, and `write_samples` with the rest of it. Each
//! returns the number of octets that it wrote. The caller keeps the slice.
//!
//! The header follows RFC 3550 (5.1 and 5.3.1), 16-bit samples RFC 3551, 24-bit samples RFC 3190, and
//! packet times AES67 (7.2). Nothing here keeps state, allocates or reads a socket.
#![tactic(auto)]

mod datagram;
mod encoding;
mod fault;
mod header;
mod laws;
mod limits;
mod packet_time;
mod samples;

pub use datagram::{RtpView, read};
pub use encoding::{Enc, Payload};
pub use fault::WireFault;
pub use header::{RtpHead, write_head};
pub use laws::{datagrams_are_read_one_way, written_heads_read_back};
pub use limits::{HEADER_OCTETS, MAX_ARRIVAL_OCTETS};
pub use packet_time::is_packet_time;
pub use samples::{read_samples, sample, write_sample, write_samples};
