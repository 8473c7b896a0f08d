//! Reading and writing linear PCM samples (L16; RFC 3551, 4.5; L24; RFC 3190, 4).
ghost use Rattle.std.specs.Prelude.{◌≡◌, ◌≤◌, ◌<◌, ◌+◌, ◌*◌, ◌++◌, ℕ, Some, drop, length, slice_get};
ghost use Rattle.std.specs.List.{All};
ghost use Rattle.rtp_wire.specs.declared.encoding.Enc.TheVariants.{L16, L24};
ghost use Rattle.rtp_wire.specs.Sample.{
  FitsEncoding,
  Is24Bits,
  block_octets,
  octets_per_sample,
  sample_at,
  sample_count,
  sample_octets,
  samples_of,
};

use crate::encoding::Enc;
use byteorder::{BigEndian, ByteOrder};

/// Returns the sample at `index` of a payload, on the scale of 24 bits: one of 16 bits is multiplied by 256.
pub fn sample(enc: Enc, octets: &[u8], index: usize) -> i32
    requires { octets_per_sample enc * (index + 1) ≤ length octets.now }
    ensures { result ≡ sample_at enc octets.now index }
{
    match enc {
        // Samples have 24 bits everywhere, so that both encodings mix on one scale.
        Enc::L16 => 256 * i32::from(BigEndian::read_i16(&octets[2 * index..])),
        Enc::L24 => BigEndian::read_i24(&octets[3 * index..]),
    }
}

/// Writes a sample to the front of `out`. The sample is on the encoding's own scale.
pub fn write_sample(enc: Enc, v: i32, out: &mut [u8])
    requires space { octets_per_sample enc ≤ length out.old }
    requires fits { FitsEncoding enc v }
    ensures { out.new ≡ sample_octets enc v ++ drop (octets_per_sample enc) out.old }
{
    match enc {
        Enc::L16 => BigEndian::write_i16(out, v as i16),
        Enc::L24 => BigEndian::write_i24(out, v),
    }
}

/// Reads the whole samples of a payload to the front of `out`, on the scale of 24 bits, and returns their number.
///
/// Their order is that of the payload: all channels of one sampling instant, then those of the next.
pub fn read_samples(enc: Enc, octets: &[u8], out: &mut [i32]) -> usize
    requires { sample_count enc octets.now ≤ length out.old }
    ensures count { result ≡ sample_count enc octets.now }
    ensures samples { out.new ≡ samples_of enc octets.now
        ++ drop (sample_count enc octets.now) out.old }
    ensures each { (k : ℕ) → k < result → slice_get out.new k ≡ Some (sample_at enc octets.now k) }
    ensures in_24_bits { All Is24Bits (samples_of enc octets.now) }
{
    match enc {
        Enc::L16 => read_16(octets, out),
        Enc::L24 => read_24(octets, out),
    }
}

/// Writes samples to the front of `out`, side by side, and returns the number of octets written.
///
/// The samples are on the encoding's own scale.
pub fn write_samples(enc: Enc, samples: &[i32], out: &mut [u8]) -> usize
    requires space { octets_per_sample enc * length samples.now ≤ length out.old }
    requires fit { All (FitsEncoding enc) samples.now }
    ensures written { out.new ≡ block_octets enc samples.now
        ++ drop (octets_per_sample enc * length samples.now) out.old }
    ensures len { result ≡ octets_per_sample enc * length samples.now }
{
    match enc {
        Enc::L16 => write_16(samples, out),
        Enc::L24 => write_24(samples, out),
    }
}

/// Reads the samples of an L16 payload to the front of `out`, and returns their number.
fn read_16(octets: &[u8], out: &mut [i32]) -> usize
    requires { sample_count L16 octets.now ≤ length out.old }
    ensures count { result ≡ sample_count L16 octets.now }
    ensures samples { out.new ≡ samples_of L16 octets.now
        ++ drop (sample_count L16 octets.now) out.old }
{
    let count = octets.len() / 2;
    for i in 0..count {
        out[i] = sample(Enc::L16, octets, i);
    }
    count
}

/// Returns the sample of 24 bits at `index`, if an octet follows it.
fn sample_in_word(octets: &[u8], index: usize) -> i32
    requires { 3 * (index + 1) < length octets.now }
    ensures { result ≡ sample_at L24 octets.now index }
{
    // The sample is the upper 24 bits of four octets, so that one load is enough instead of three.
    BigEndian::read_i32(&octets[3 * index..]) >> 8
}

/// Reads the samples of an L24 payload to the front of `out`, and returns their number.
fn read_24(octets: &[u8], out: &mut [i32]) -> usize
    requires { sample_count L24 octets.now ≤ length out.old }
    ensures count { result ≡ sample_count L24 octets.now }
    ensures samples { out.new ≡ samples_of L24 octets.now
        ++ drop (sample_count L24 octets.now) out.old }
{
    let count = octets.len() / 3;
    if count == 0 {
        return 0;
    }
    let last = count - 1;
    for i in 0..last {
        out[i] = sample_in_word(octets, i);
    }
    // No octet follows the last sample for certain, so `sample_in_word` can't read it.
    out[last] = sample(Enc::L24, octets, last);
    count
}

/// Writes samples as L16 to the front of `out`, and returns the number of octets written.
fn write_16(samples: &[i32], out: &mut [u8]) -> usize
    requires space { 2 * length samples.now ≤ length out.old }
    requires fit { All (FitsEncoding L16) samples.now }
    ensures written { out.new ≡ block_octets L16 samples.now
        ++ drop (2 * length samples.now) out.old }
    ensures len { result ≡ 2 * length samples.now }
{
    for i in 0..samples.len() {
        let [high, low] = (samples[i] as i16).to_be_bytes();
        out[2 * i] = high;
        out[2 * i + 1] = low;
    }
    2 * samples.len()
}

/// Writes samples as L24 to the front of `out`, and returns the number of octets written.
fn write_24(samples: &[i32], out: &mut [u8]) -> usize
    requires space { 3 * length samples.now ≤ length out.old }
    requires fit { All (FitsEncoding L24) samples.now }
    ensures written { out.new ≡ block_octets L24 samples.now
        ++ drop (3 * length samples.now) out.old }
    ensures len { result ≡ 3 * length samples.now }
{
    for i in 0..samples.len() {
        let [_, high, middle, low] = samples[i].to_be_bytes();
        out[3 * i] = high;
        out[3 * i + 1] = middle;
        out[3 * i + 2] = low;
    }
    3 * samples.len()
}
