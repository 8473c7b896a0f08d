//! The encodings of a sample, and the payload that holds samples.
ghost use Rattle.std.specs.Prelude.{◌≡◌};
ghost use Rattle.rtp_wire.specs.Sample.{encoding_name, octets_per_sample};

use arrayvec::ArrayVec;

/// The octets of one packet's samples, at most 1,440.
// With 1,440 octets a packet fits an Ethernet frame and its payload an array, so packets take no memory of their
// own.
pub type Payload = ArrayVec<u8, 1440>;

/// The encoding of a sample: linear PCM of 16 bits (L16; RFC 3551, 4.5) or 24 bits (L24; RFC 3190, 4).
#[derive(Clone, Copy, Debug, PartialEq, Eq)]
pub enum Enc {
    L16,
    L24,
}

impl Enc {
    /// Returns the number of octets of one sample.
    pub fn octets(self) -> usize
        ensures { result ≡ octets_per_sample self }
    {
        match self {
            Enc::L16 => 2,
            Enc::L24 => 3,
        }
    }
    /// Returns its name as a media subtype (RFC 3551, 4.5.11; RFC 3190, 4).
    pub fn name(self) -> &'static str
        ensures { result.now ≡ encoding_name self }
    {
        match self {
            Enc::L16 => "L16",
            Enc::L24 => "L24",
        }
    }
}
