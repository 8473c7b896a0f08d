//! The packetizer of the output: each block of samples becomes one RTP datagram.
//!
//! 1. `OutSpec::of` checks the parameters of the output, or returns its first fault.
//! 2. `Packer::next` writes the datagram of the next block to the start of the caller's slice: the
//!    header, then the samples. It returns the length of the datagram, which is `datagram_len` of the
//!    output each time.
//!
//! A `Packer` numbers the blocks from 0. Nothing here allocates.
#![tactic(auto)]

mod laws;
mod limits;
mod out_spec;
mod packer;

pub use laws::datagrams_count_up;
pub use limits::MAX_OUTPUT_OCTETS;
pub use out_spec::{OutFault, OutSpec, Output};
pub use packer::Packer;
