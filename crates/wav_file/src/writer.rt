//! The writer of a WAV file.
ghost use Rattle.std.specs.Prelude.{◌≡◌, ◌+◌, ◌≤◌, ◌++◌, ℕ, List, [], length, take, OnOk, OnErr, IfOk};
ghost use Rattle.std.specs.Io.KnownBytes.{Appends};
ghost use Rattle.wav_file.specs.Samples.{little_samples};
ghost use Rattle.wav_file.specs.Header.{header_octets};
ghost use Rattle.wav_file.specs.PartFile.{BecomesPart, HasPrefix};
ghost use Rattle.wav_file.specs.File.{Becomes, IsBegun, pad_octets, silent_octets, wav_octets};

use crate::files::Overwrite;
use crate::header::{WavFormat, header_octets};
use crate::samples::to_little_endian;
use std::io::{ErrorKind, Write};
use std::marker::Model;
use thiserror::Error;

/// The greatest number of octets of data to which more are added.
// With a payload more it stays below 2^63, as a header requires.
pub(crate) const MAX_DATA_OCTETS: u64 = 1 << 62;

/// The greatest number of octets of silence that are written at once: those of the longest payload.
const MAX_ZEROS: usize = 1440;

/// The error of writing a WAV file: a write failed or took no octet, or the file has more than 2^62 octets of data.
#[derive(Clone, Copy, Debug, PartialEq, Eq, Error)]
#[error("write")]
pub struct WavFault;

/// The writer of a WAV file, which is passed the file at each call.
///
/// `push` and `push_silence` write samples. Call `finish` after the last of them, or `finish_partial` after one that
/// failed. Until then the header has the sizes of an empty file.
#[derive(Drop)]
pub struct WavWriter {
    format: WavFormat,
    /// The number of octets of data.
    count: u64,
}

impl Model for WavWriter {
    ghost use Rattle.std.specs.Prelude.{◌≤◌, ◌+◌, ◌^◌};
    ghost use Rattle.wav_file.specs.File.{WavState};

    ghost Value = { WavState };

    ghost view = { λ w. record { format = w.format; count = w.count } };

    ghost invariant = { λ w. w.count ≤ 2 ^ 62 + 1440 };
}

impl WavWriter {
    /// Writes the header to an empty file. Returns an error if a write fails.
    pub fn begin<W: Write>(format: WavFormat, writer: &mut W) -> Result<WavWriter, WavFault>
        ensures ok { OnOk result (Appends (W.contents writer.old) (W.contents writer.new) (header_octets format 0)) }
        ensures fault { OnErr result ((n : ℕ)
            × Appends (W.contents writer.old) (W.contents writer.new) (take n (header_octets format 0))) }
        ensures empty { IfOk result (λ wav. wav ≡ record { format = format; count = 0 }) }
    {
        write_octets(writer, header_octets(format, &[], 0).as_slice())?;
        Ok(WavWriter { format, count: 0 })
    }

    /// Writes the samples of a packet's payload, of at most 1,440 octets. Returns an error if a write fails or the file
    /// has more than 2^62 octets of data.
    pub fn push<W: Write>(&mut self, writer: &mut W, payload: &[u8]) -> Result<(), WavFault>
        requires short { length payload.now ≤ 1440 }
        ensures ok { OnOk result
            (Appends (W.contents writer.old) (W.contents writer.new) (little_samples self.old.format.enc payload.now)) }
        ensures fault { OnErr result ((n : ℕ)
            × Appends (W.contents writer.old) (W.contents writer.new)
            (take n (little_samples self.old.format.enc payload.now))) }
        ensures counted { OnOk result (self.new ≡ record { format = self.old.format; count = self.old.count + length (little_samples self.old.format.enc payload.now) }) }
        ensures same { OnErr result (self.new ≡ self.old) }
    {
        if self.count > MAX_DATA_OCTETS {
            return Err(WavFault);
        }
        let samples = to_little_endian(self.format.enc, payload);
        write_octets(writer, samples.as_slice())?;
        self.count += samples.len() as u64;
        Ok(())
    }

    /// Writes this many sampling instants of silence. Returns an error as `push` does.
    pub fn push_silence<W: Write>(&mut self, writer: &mut W, instants: u64) -> Result<(), WavFault>
        ensures ok { OnOk result
            (Appends (W.contents writer.old) (W.contents writer.new) (silent_octets self.old.format instants)) }
        ensures counted { OnOk result (self.new ≡ record { format = self.old.format; count = self.old.count + length (silent_octets self.old.format instants) }) }
        ensures fault { OnErr result (HasPrefix (W.contents writer.old) (W.contents writer.new) self.old self.new
            (silent_octets self.old.format instants)) }
    {
        let frame = usize::from(self.format.frame_len());
        // Without channels there are no samples, and no chunk would end the loop.
        if frame == 0 {
            return Ok(());
        }
        let zeros = [0; MAX_ZEROS];
        let most = (MAX_ZEROS / frame) as u64;
        let mut done = 0;
        // The label names the loop in its proof.
        'chunks: while done < instants {
            let count = (instants - done).min(most);
            self.push(writer, &zeros[..count as usize * frame])?;
            done += count;
        }
        Ok(())
    }

    /// Writes the sizes of the data to the header, and an octet more behind data of an odd length. Returns an error if
    /// a write fails.
    pub fn finish<W: Overwrite>(self, writer: &mut W) -> Result<(), WavFault>
        ensures ok { OnOk result ((octets : List ℕ) → IsBegun (W.Write.contents writer.old) self octets []
            → Becomes (W.Write.contents writer.old) (W.Write.contents writer.new) (wav_octets self.format octets)) }
        ensures fault { OnErr result ((octets : List ℕ) → IsBegun (W.Write.contents writer.old) self octets []
            → (n : ℕ) × BecomesPart (W.Write.contents writer.old) (W.Write.contents writer.new) self.format octets
            (take n (pad_octets (length octets)))) }
    {
        let padded = self.pad(writer);
        // The samples are whole without the octet behind them, so their sizes are written in any case.
        self.finish_partial(writer)?;
        padded
    }

    /// Writes the sizes of the whole payloads to the header, after a failed call. A part of a payload may be behind
    /// them. Returns an error if the write fails.
    pub fn finish_partial<W: Overwrite>(self, writer: &mut W) -> Result<(), WavFault>
        ensures ok { OnOk result ((octets rest : List ℕ) → IsBegun (W.Write.contents writer.old) self octets rest
            → Becomes (W.Write.contents writer.old) (W.Write.contents writer.new)
            (header_octets self.format (length octets) ++ octets ++ rest)) }
        ensures fault { OnErr result ((octets rest : List ℕ) → IsBegun (W.Write.contents writer.old) self octets rest
            → BecomesPart (W.Write.contents writer.old) (W.Write.contents writer.new) self.format octets rest) }
    {
        let head = header_octets(self.format, &[], self.count);
        match writer.overwrite(head.as_slice()) {
            Ok(()) => Ok(()),
            Err(_) => Err(WavFault),
        }
    }

    /// Writes an octet more after data of an odd length, since a chunk of RIFF has an even one.
    fn pad<W: Write>(&self, writer: &mut W) -> Result<(), WavFault>
        ensures ok { OnOk result (Appends (W.contents writer.old) (W.contents writer.new) (pad_octets self.now.count)) }
        ensures fault { OnErr result ((n : ℕ)
            × Appends (W.contents writer.old) (W.contents writer.new) (take n (pad_octets self.now.count))) }
    {
        if self.count % 2 == 1 {
            write_octets(writer, &[0])
        } else {
            Ok(())
        }
    }
}

/// Writes all octets. A write that a signal interrupts is tried again. After an error a prefix of them was written.
pub(crate) fn write_octets<W: Write>(writer: &mut W, octets: &[u8]) -> Result<(), WavFault>
    ensures ok { OnOk result (Appends (W.contents writer.old) (W.contents writer.new) octets.now) }
    ensures fault { OnErr result ((n : ℕ)
        × Appends (W.contents writer.old) (W.contents writer.new) (take n octets.now)) }
{
    let mut done = 0;
    // The label names the loop in its proof.
    'writes: for _ in 0..u64::MAX {
        if done == octets.len() {
            return Ok(());
        }
        match writer.write(&octets[done..]) {
            Ok(0) => return Err(WavFault),
            Ok(count) => done += count,
            // A signal came before anything was written.
            Err(fault) if fault.kind() == ErrorKind::Interrupted => {}
            Err(_) => return Err(WavFault),
        }
    }
    Err(WavFault)
}
