//! The position in a capture up to which its packets were returned.
ghost use Rattle.std.specs.Prelude.{◌+◌, ◌<◌, ◌^◌, length};

use crate::decode::pcap::Pcap;
use crate::decode::pcapng::Section;

/// The format of a capture.
#[derive(Clone, Copy, PartialEq, Eq)]
pub(crate) enum Format {
    Pcap(Pcap),
    Pcapng,
}

/// An iterator over the UDP packets of a capture, up to the first fault, which comes last.
#[derive(Drop)]
pub struct Capture<'a> {
    pub(crate) format: Format,
    pub(crate) section: Section,
    /// The number of octets before those that are left.
    pub(crate) place: usize,
    /// The octets that are left.
    pub(crate) octets: &'a [u8],
    pub(crate) ghost within: { place + length octets.now < 2 ^ 64 },
}
