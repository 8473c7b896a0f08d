//! Whole texts from a reader and to a writer.
ghost use Rattle.std.specs.Prelude.{◌≡◌, ℕ, ◌<◌, ◌≤◌, List, length, take, ◌+◌, ◌++◌, vec_len, OnOk, OnErr, IfOk, IfErr};
ghost use Rattle.std.specs.Io.KnownBytes.{Appends, Consumes, IsAtEnd};
ghost use Rattle.studio_run.specs.declared.text_io.ReadFault.TheVariants.{TooMany};

use crate::trace::reader::MAX_TRACE_OCTETS;
use std::alloc::{AllocError, Global};
use std::io::{Read, Write};
use thiserror::Error;

// Each call reads an octet or more, so a text is too long before it comes to this limit. The limit bounds the loop.
/// The greatest number of calls of a reader for one text.
const MAX_CALLS: u32 = 100_000_000;

/// The greatest number of octets of one read.
// As many as a pipe of Linux holds, so that one read empties it.
const MAX_READ: usize = 65_536;

/// The reason why a text was not read.
#[derive(Clone, Copy, Debug, PartialEq, Eq, Error)]
pub enum ReadFault {
    /// A read failed, or 100,000,000 reads did not reach the end.
    #[error("device: read")]
    Device,
    /// The text has more octets than a trace may have.
    #[error("trace line 0: toomany")]
    TooMany,
    /// An allocation for the text failed.
    #[error("out of memory")]
    Memory,
}

/// The fault of a writer: a write failed, or took no octet.
#[derive(Clone, Copy, Debug, PartialEq, Eq, Error)]
#[error("device: write")]
pub struct WriteFault;

/// Reads to the end of the input, or to the first octet that is too many for a trace.
pub fn read_octets<R: Read>(alloc: Global, reader: &mut R) -> Result<Vec<u8>, ReadFault>
    ensures ok { IfOk result (λ text. Consumes (R.remaining reader.old) (R.remaining reader.new) text.items) }
    ensures end { OnOk result (IsAtEnd (R.remaining reader.new)) }
    ensures fits { IfOk result (λ text. length text.items ≤ MAX_TRACE_OCTETS) }
    ensures long { IfErr result (λ fault. fault ≡ TooMany → (octets : List ℕ) × (MAX_TRACE_OCTETS < length octets)
        × Consumes (R.remaining reader.old) (R.remaining reader.new) octets) }
{
    let mut text = Vec::with_capacity(alloc, MAX_READ).map_err(|_| ReadFault::Memory)?;
    let mut chunk = [0u8; MAX_READ];
    // The label names the loop in its proof.
    'reads: for _ in 0..MAX_CALLS {
        match reader.read(&mut chunk) {
            Err(_) => return Err(ReadFault::Device),
            Ok(0) => return Ok(text),
            // The length is tested before the octets are kept, so no text takes more memory than the longest one.
            Ok(count) if count > MAX_TRACE_OCTETS - text.len() => return Err(ReadFault::TooMany),
            Ok(count) => {
                push_chunk(&mut text, &chunk[..count]).map_err(|_| ReadFault::Memory)?;
            }
        }
    }
    Err(ReadFault::Device)
}

/// Appends octets that were read.
fn push_chunk(text: &mut Vec<u8>, chunk: &[u8]) -> Result<(), AllocError>
    requires fits { vec_len text.old + length chunk.now ≤ MAX_TRACE_OCTETS }
    ensures items { OnOk result (text.new.items ≡ text.old.items ++ chunk.now) }
{
    // The capacity doubles, but not past the longest text: the old memory and the new one together are at most 3/2 of
    // that.
    if text.capacity() - text.len() < chunk.len() {
        let capacity = text.capacity().saturating_mul(2).min(MAX_TRACE_OCTETS);
        text.reserve_exact(capacity - text.len())?;
    }
    text.extend_from_slice(chunk)
}

/// Writes a text to its end. After a fault a prefix of it was written.
pub fn write_text<W: Write>(writer: &mut W, text: &[u8]) -> Result<(), WriteFault>
    ensures ok { OnOk result (Appends (W.contents writer.old) (W.contents writer.new) text.now) }
    ensures fault { OnErr result ((n : ℕ) × (n < length text.now)
        × Appends (W.contents writer.old) (W.contents writer.new) (take n text.now)) }
{
    let mut done = 0;
    while done < text.len() {
        match writer.write(&text[done..]) {
            // A writer that takes nothing is at fault, since the loop would not end.
            Ok(0) | Err(_) => return Err(WriteFault),
            Ok(count) => done += count,
        }
    }
    Ok(())
}
