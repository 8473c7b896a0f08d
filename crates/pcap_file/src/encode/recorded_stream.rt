//! The configuration of a stream, as a record has it in the descriptions of its paths' interfaces.
ghost use Rattle.std.specs.Prelude.{◌≡◌, ◌+◌, ◌≤◌, ◌++◌, length, IfSome};
ghost use Rattle.arrayvec.specs.ArrayVec.{array_vec_len};
ghost use Rattle.pcap_file.specs.RecordedStream.{counted, description_of};

use crate::decode::record_mark::decimal_number;
use crate::encode::body::{BlockBody, push};
use arrayvec::ArrayVec;
use itoa::Buffer;

/// The text of a description. It has at most 64 octets.
// The type in which the bodies of blocks are made, so that both are made by the same calls.
pub type Description = ArrayVec<u8, 128>;

/// The configuration of a stream, as a record has it.
#[derive(Clone, Copy, PartialEq, Eq)]
pub struct RecordedStream {
    /// The number of bits of a sample: 16 of L16, and 24 of L24.
    pub bits: u8,
    /// The number of channels.
    pub channels: u8,
    /// The number of sampling instants of a packet.
    pub frames: u16,
    /// The payload type.
    pub pt: u8,
    /// The number of paths.
    pub paths: u8,
}

impl RecordedStream {
    /// Returns the description of the stream's paths, as `encoding L24 channels 2 frames 48 pt 96 paths 2`.
    #[tactic(auto, unfolding(crate::specs::RecordedStream::description_of))]
    pub fn description(&self) -> Description
        ensures text { result.items ≡ description_of self.now }
        ensures few { array_vec_len result ≤ 64 }
    {
        let mut text = BlockBody::new();
        push_counted(&mut text, b"encoding L", u16::from(self.bits));
        push_counted(&mut text, b" channels ", u16::from(self.channels));
        push_counted(&mut text, b" frames ", self.frames);
        push_counted(&mut text, b" pt ", u16::from(self.pt));
        push_counted(&mut text, b" paths ", u16::from(self.paths));
        text
    }

    /// Returns the configuration in a description, if `description` returns this text for it.
    pub fn of(description: &[u8]) -> Option<RecordedStream>
        ensures { IfSome result (λ stream. description.now ≡ description_of stream) }
    {
        let stream = read_stream(description)?;
        if stream.description().as_slice() != description {
            return None;
        }
        Some(stream)
    }
}

/// Appends words and a number.
fn push_counted(text: &mut BlockBody, words: &[u8], number: u16)
    requires { array_vec_len text.old + (length words.now + 5) ≤ 128 }
    ensures items { text.new.items ≡ text.old.items ++ counted words.now number }
    ensures length { array_vec_len text.new ≤ array_vec_len text.old + (length words.now + 5) }
{
    push(text, words);
    push(text, Buffer::new().format(number).as_bytes());
}

/// Returns the numbers of a description, each behind its words.
fn read_stream(description: &[u8]) -> Option<RecordedStream> {
    let rest = description.strip_prefix(b"encoding L")?;
    let (bits, rest) = number_before(rest, b" channels ")?;
    let (channels, rest) = number_before(rest, b" frames ")?;
    let (frames, rest) = number_before(rest, b" pt ")?;
    let (pt, rest) = number_before(rest, b" paths ")?;
    Some(RecordedStream {
        bits: octet(bits)?,
        channels: octet(channels)?,
        frames: u16::try_from(frames).ok()?,
        pt: octet(pt)?,
        paths: octet(decimal_number(rest)?)?,
    })
}

/// Returns a number, if it fits 8 bits.
fn octet(number: u64) -> Option<u8> {
    u8::try_from(number).ok()
}

/// Returns the number up to the first space of a text, and what follows these words, which begin with that space.
fn number_before<'a>(text: &'a [u8], words: &[u8]) -> Option<(u64, &'a [u8])> {
    let end = text.iter().position(|octet| *octet == b' ')?;
    let number = decimal_number(text.get(..end)?)?;
    Some((number, text.get(end..)?.strip_prefix(words)?))
}
