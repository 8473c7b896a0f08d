//! The byte order of samples: RTP has the most significant octet first (RFC 3551, 4.5.11; RFC 3190, 4), WAV the least.
ghost use Rattle.std.specs.Prelude.{◌≡◌, ◌≤◌, length};
ghost use Rattle.wav_file.specs.Samples.{little_16, little_24, little_samples};

use rtp_wire::{Enc, Payload};

/// Returns the whole samples of a payload, of at most 1,440 octets, least significant octet first.
pub fn to_little_endian(enc: Enc, octets: &[u8]) -> Payload
    requires short { length octets.now ≤ 1440 }
    ensures { result.items ≡ little_samples enc octets.now }
{
    match enc {
        Enc::L16 => to_little_endian_16(octets),
        Enc::L24 => to_little_endian_24(octets),
    }
}

/// Returns the whole samples of 16 bits, least significant octet first.
fn to_little_endian_16(octets: &[u8]) -> Payload
    requires { length octets.now ≤ 1440 }
    ensures { result.items ≡ little_16 octets.now }
{
    let mut out = Payload::new();
    for i in 0..octets.len() / 2 {
        out.push(octets[2 * i + 1]);
        out.push(octets[2 * i]);
    }
    out
}

/// Returns the whole samples of 24 bits, least significant octet first.
fn to_little_endian_24(octets: &[u8]) -> Payload
    requires { length octets.now ≤ 1440 }
    ensures { result.items ≡ little_24 octets.now }
{
    let mut out = Payload::new();
    for i in 0..octets.len() / 3 {
        out.push(octets[3 * i + 2]);
        out.push(octets[3 * i + 1]);
        out.push(octets[3 * i]);
    }
    out
}
