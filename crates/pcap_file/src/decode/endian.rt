//! Numbers of several octets, in the byte order of the machine that wrote the capture.
ghost use Rattle.std.specs.Prelude.{◌≡◌, ◌≤◌, ◌+◌, length};
ghost use Rattle.pcap_file.specs.Octets.{number_at};

use byteorder::{BigEndian, ByteOrder, LittleEndian};

/// The byte order of a capture's numbers.
#[derive(Clone, Copy, PartialEq, Eq)]
pub enum Endian {
    /// The most significant octet comes first.
    Big,
    /// The least significant octet comes first.
    Little,
}

impl Endian {
    /// Returns the number of two octets at a place.
    #[tactic(auto, unfolding(crate::specs::Octets::number_at))]
    pub(crate) fn read_u16(self, octets: &[u8], place: usize) -> u16
        requires { place + 2 ≤ length octets.now }
        ensures { result ≡ number_at self 2 place octets.now }
    {
        match self {
            Endian::Big => BigEndian::read_u16(&octets[place..]),
            Endian::Little => LittleEndian::read_u16(&octets[place..]),
        }
    }

    /// Returns the number of four octets at a place.
    #[tactic(auto, unfolding(crate::specs::Octets::number_at))]
    pub(crate) fn read_u32(self, octets: &[u8], place: usize) -> u32
        requires { place + 4 ≤ length octets.now }
        ensures { result ≡ number_at self 4 place octets.now }
    {
        match self {
            Endian::Big => BigEndian::read_u32(&octets[place..]),
            Endian::Little => LittleEndian::read_u32(&octets[place..]),
        }
    }

    /// Returns the number of eight octets at a place.
    #[tactic(auto, unfolding(crate::specs::Octets::number_at))]
    pub(crate) fn read_u64(self, octets: &[u8], place: usize) -> u64
        requires { place + 8 ≤ length octets.now }
        ensures { result ≡ number_at self 8 place octets.now }
    {
        match self {
            Endian::Big => BigEndian::read_u64(&octets[place..]),
            Endian::Little => LittleEndian::read_u64(&octets[place..]),
        }
    }
}
