//! The header of a WAV file, and the format of its samples: RIFF WAVE, and RF64 if its size doesn't fit 32 bits (EBU
//! Tech 3306).
ghost use Rattle.std.specs.Prelude.{◌≡◌, ◌+◌, ◌++◌, ◌^◌, ◌<◌, ◌≤◌, ◌/◌, length};
ghost use Rattle.wav_file.specs.Header.{
  frame_length,
  format_octets,
  header_with,
  is_long,
  riff_size,
  reserved_chunk,
  reserved_octets,
  size_octets,
};
ghost use Rattle.arrayvec.specs.ArrayVec.{array_vec_len};

use arrayvec::ArrayVec;
use rtp_wire::Enc;

/// The format of a WAV file's samples at 48 kHz. The channels of a sampling instant are next to each other.
#[derive(Clone, Copy, PartialEq, Eq)]
pub struct WavFormat {
    /// The encoding: samples of 16 bits (L16) or 24 bits (L24).
    pub enc: Enc,
    /// The number of channels.
    pub channels: u8,
}

impl WavFormat {
    /// Returns the number of octets of a sampling instant.
    pub fn frame_len(self) -> u16
        ensures { result ≡ frame_length self }
    {
        u16::from(self.channels) * self.enc.octets() as u16
    }
}

/// The octets of a header, up to the data: 80, and those of a `bext` chunk.
type Header = ArrayVec<u8, 690>;

/// Returns the header of a file with `count` octets of data. `chunk` is a chunk more before the format, or empty.
// Behind the space for `ds64`, which has to be the first chunk of a long file.
pub(crate) fn header_octets(format: WavFormat, chunk: &[u8], count: u64) -> Header
    requires count { count < 2 ^ 63 }
    requires chunk { length chunk.now ≤ 610 }
    ensures head { result.items ≡ header_with format chunk.now count }
    ensures length { array_vec_len result ≡ 80 + length chunk.now }
{
    let more = chunk.len() as u64;
    let mut head = Header::new();
    push(
        &mut head,
        if is_long(more, count) {
            b"RF64"
        } else {
            b"RIFF"
        },
    );
    push_size(&mut head, more, count, riff_size(more, count));
    push(&mut head, b"WAVE");
    push_ds64_or_junk(&mut head, format, more, count);
    push(&mut head, chunk);
    push_format(&mut head, format);
    push(&mut head, b"data");
    push_size(&mut head, more, count, count);
    head
}

/// Returns the file's size: the number of octets behind this field. `more` of them are a further chunk. After data of
/// an odd length there is one octet more.
fn riff_size(more: u64, count: u64) -> u64
    requires count { count < 2 ^ 63 }
    requires more { more ≤ 610 }
    ensures { result ≡ riff_size more count }
{
    72 + more + count + count % 2
}

/// Returns true if the file's size doesn't fit 32 bits.
fn is_long(more: u64, count: u64) -> bool
    requires count { count < 2 ^ 63 }
    requires more { more ≤ 610 }
    ensures { result ≡ is_long more count }
{
    riff_size(more, count) >= 4_294_967_296
}

/// Returns the number of sampling instants in this many octets.
fn frames_in(format: WavFormat, count: u64) -> u64
    ensures { result ≡ count / frame_length format }
{
    // Without channels there are none.
    count
        .checked_div(u64::from(format.frame_len()))
        .unwrap_or(0)
}

/// Appends octets.
fn push(head: &mut Header, octets: &[u8])
    requires { array_vec_len head.old + length octets.now ≤ 690 }
    ensures items { head.new.items ≡ head.old.items ++ octets.now }
    ensures length { array_vec_len head.new ≡ array_vec_len head.old + length octets.now }
{
    // The clause above requires the space.
    let Ok(()) = head.try_extend_from_slice(octets) else {
        unreachable!()
    };
}

/// Appends a size of 32 bits: all ones in a long file, whose `ds64` chunk has it.
fn push_size(head: &mut Header, more: u64, count: u64, size: u64)
    requires space { array_vec_len head.old + 4 ≤ 690 }
    requires count { count < 2 ^ 63 }
    requires more { more ≤ 610 }
    requires size { size ≤ riff_size more count }
    ensures items { head.new.items ≡ head.old.items ++ size_octets more count size }
    ensures length { array_vec_len head.new ≡ array_vec_len head.old + 4 }
{
    let size = if is_long(more, count) {
        u32::MAX
    } else {
        size as u32
    };
    push(head, &size.to_le_bytes());
}

/// Appends the chunk with the sizes of a long file, or a chunk of the same length that is ignored.
// The file's length isn't known when its header is first written. `JUNK` keeps the space for `ds64`.
fn push_ds64_or_junk(head: &mut Header, format: WavFormat, more: u64, count: u64)
    requires space { array_vec_len head.old + 36 ≤ 690 }
    requires count { count < 2 ^ 63 }
    requires more { more ≤ 610 }
    ensures items { head.new.items ≡ head.old.items ++ reserved_octets format more count }
    ensures length { array_vec_len head.new ≡ array_vec_len head.old + 36 }
{
    if is_long(more, count) {
        push_sizes(
            head,
            b"ds64",
            riff_size(more, count),
            count,
            frames_in(format, count),
        );
    } else {
        push_sizes(head, b"JUNK", 0, 0, 0);
    }
}

/// Appends a chunk of this name, with the sizes of a long file and its number of sampling instants.
fn push_sizes(head: &mut Header, name: &[u8; 4], all: u64, count: u64, frames: u64)
    requires space { array_vec_len head.old + 36 ≤ 690 }
    ensures items { head.new.items ≡ head.old.items ++ reserved_chunk name.now all count frames }
    ensures length { array_vec_len head.new ≡ array_vec_len head.old + 36 }
{
    push(head, name);
    push(head, &28_u32.to_le_bytes());
    push(head, &all.to_le_bytes());
    push(head, &count.to_le_bytes());
    push(head, &frames.to_le_bytes());
    // A table of no further chunk sizes.
    push(head, &0_u32.to_le_bytes());
}

/// Appends the chunk of the format.
fn push_format(head: &mut Header, format: WavFormat)
    requires { array_vec_len head.old + 24 ≤ 690 }
    ensures items { head.new.items ≡ head.old.items ++ format_octets format }
    ensures length { array_vec_len head.new ≡ array_vec_len head.old + 24 }
{
    let frame = format.frame_len();
    push(head, b"fmt ");
    push(head, &16_u32.to_le_bytes());
    // The format 1 is linear PCM.
    push(head, &1_u16.to_le_bytes());
    push(head, &u16::from(format.channels).to_le_bytes());
    push(head, &48_000_u32.to_le_bytes());
    push(head, &(48_000 * u32::from(frame)).to_le_bytes());
    push(head, &frame.to_le_bytes());
    push(head, &(8 * format.enc.octets() as u16).to_le_bytes());
}
