//! The writer of a WAV file that is written live.
ghost use Rattle.std.specs.Prelude.{◌≡◌, ◌+◌, ◌≤◌, ◌++◌, ℕ, List, [], Some, length, take, drop, OnOk, OnErr, IfOk};
ghost use Rattle.std.specs.Io.KnownBytes.{Appends};
ghost use Rattle.wav_file.specs.Samples.{little_samples};
ghost use Rattle.wav_file.specs.Header.{header_with};
ghost use Rattle.wav_file.specs.File.{pad_octets};
ghost use Rattle.wav_file.specs.LiveFile.{HasData, header_over, KeepsData, live_octets};

use crate::bext::BextChunk;
use crate::header::{WavFormat, header_octets};
use crate::live_file::LiveWavFile;
use crate::samples::to_little_endian;
use crate::writer::{MAX_DATA_OCTETS, WavFault, write_octets};
use std::io;
use std::io::Write;
use std::marker::Model;

/// The number of octets of a header without a chunk more.
const HEADER_OCTETS: u64 = 80;

/// The writer of a WAV file that is written live, a `LiveWavFile`, which is passed at each call.
///
/// `push` writes samples, and `renew` sets the sizes while samples are still to come. Call `finish_synced` after the
/// last of them, or `cut_and_finish` after a call that failed.
#[derive(Drop)]
pub struct LiveWav {
    format: WavFormat,
    /// The chunk before the format, or no octet.
    chunk: BextChunk,
    /// The number of octets of data.
    count: u64,
}

impl Model for LiveWav {
    ghost use Rattle.std.specs.Prelude.{◌≤◌, ◌+◌, ◌^◌, length};
    ghost use Rattle.wav_file.specs.LiveFile.{LiveState};

    ghost Value = { LiveState };

    ghost view = { λ w. record { format = w.format; chunk = w.chunk.items; count = w.count } };

    ghost invariant = { λ w. w.count ≤ 2 ^ 62 + 1440 };
}

impl LiveWav {
    /// Writes the header to an empty file, with this chunk before the format. Returns an error if a write fails.
    pub fn begin<W: Write>(
        format: WavFormat,
        chunk: BextChunk,
        writer: &mut W,
    ) -> Result<LiveWav, WavFault>
        ensures ok { OnOk result
            (Appends (W.contents writer.old) (W.contents writer.new) (header_with format chunk.items 0)) }
        ensures empty { IfOk result (λ wav. wav ≡ record { format = format; chunk = chunk.items; count = 0 }) }
        ensures size { length (header_with format chunk.items 0) ≡ 80 + length chunk.items }
    {
        write_octets(
            writer,
            header_octets(format, chunk.as_slice(), 0).as_slice(),
        )?;
        Ok(LiveWav {
            format,
            chunk,
            count: 0,
        })
    }

    /// Writes the samples of a packet's payload, of at most 1,440 octets. Returns an error if a write fails or the file
    /// has more than 2^62 octets of data.
    pub fn push<W: Write>(&mut self, writer: &mut W, payload: &[u8]) -> Result<(), WavFault>
        requires short { length payload.now ≤ 1440 }
        ensures ok { OnOk result
            (Appends (W.contents writer.old) (W.contents writer.new) (little_samples self.old.format.enc payload.now)) }
        ensures fault { OnErr result ((n : ℕ)
            × Appends (W.contents writer.old) (W.contents writer.new)
            (take n (little_samples self.old.format.enc payload.now))) }
        ensures counted { OnOk result (self.new ≡ record { format = self.old.format; chunk = self.old.chunk; count = self.old.count + length (little_samples self.old.format.enc payload.now) }) }
        ensures same { OnErr result (self.new ≡ self.old) }
    {
        if self.count > MAX_DATA_OCTETS {
            return Err(WavFault);
        }
        let samples = to_little_endian(self.format.enc, payload);
        write_octets(writer, samples.as_slice())?;
        self.count += samples.len() as u64;
        Ok(())
    }

    /// Returns the number of octets of data.
    pub fn data_len(&self) -> u64
        ensures { result ≡ self.now.count }
    {
        self.count
    }

    /// Sets the sizes in the header of a file that is written live to those of the data so far. Waits until the data
    /// are on the device, writes the sizes, and waits until these are too. Returns an error if one of these fails.
    pub fn renew<W: LiveWavFile>(&self, writer: &mut W) -> Result<(), WavFault>
        ensures ok { OnOk result ((head octets rest : List ℕ)
            → HasData (W.Write.contents writer.old) self.now head octets rest
            → HasData (W.Write.contents writer.new) self.now
            (header_with self.now.format self.now.chunk (length octets)) octets rest) }
        ensures synced { OnOk result (W.synced writer.new) }
        ensures fault { OnErr result ((head octets rest : List ℕ)
            → HasData (W.Write.contents writer.old) self.now head octets rest → (n : ℕ)
            × HasData (W.Write.contents writer.new) self.now
            (header_over self.now.format self.now.chunk (length octets) n head) octets rest) }
    {
        let sizes = header_octets(self.format, self.chunk.as_slice(), self.count);
        match put_header(writer, sizes.as_slice()) {
            Ok(()) => Ok(()),
            Err(_) => Err(WavFault),
        }
    }

    /// Finishes a file that is written live: an octet more behind data of an odd length, and the sizes, as `renew` sets
    /// them. Returns an error if a write fails. The data stay then.
    pub fn finish_synced<W: LiveWavFile>(&self, writer: &mut W) -> Result<(), WavFault>
        ensures ok { OnOk result ((head octets : List ℕ)
            → HasData (W.Write.contents writer.old) self.now head octets []
            → W.Write.contents writer.new ≡ Some (live_octets self.now.format self.now.chunk octets)) }
        ensures synced { OnOk result (W.synced writer.new) }
        ensures fault { OnErr result ((head octets : List ℕ)
            → HasData (W.Write.contents writer.old) self.now head octets []
            → KeepsData (W.Write.contents writer.new) self.now octets) }
    {
        let padded = self.pad(writer);
        // The samples are whole without the octet behind them, so their sizes are written in any case.
        self.renew(writer)?;
        padded
    }

    /// Cuts a file that is written live behind its data, after a failed call, and finishes it. Returns an error if it
    /// cannot be cut or a write fails.
    pub fn cut_and_finish<W: LiveWavFile>(&self, writer: &mut W) -> Result<(), WavFault>
        ensures ok { OnOk result ((head octets rest : List ℕ)
            → HasData (W.Write.contents writer.old) self.now head octets rest
            → W.Write.contents writer.new ≡ Some (live_octets self.now.format self.now.chunk octets)) }
        ensures synced { OnOk result (W.synced writer.new) }
    {
        let cut = writer.cut(HEADER_OCTETS + self.chunk.as_slice().len() as u64 + self.count);
        // The sizes are written in any case: they leave out what could not be cut.
        self.finish_synced(writer)?;
        match cut {
            Ok(()) => Ok(()),
            Err(_) => Err(WavFault),
        }
    }

    /// Writes an octet more after data of an odd length, since a chunk of RIFF has an even one.
    fn pad<W: Write>(&self, writer: &mut W) -> Result<(), WavFault>
        ensures ok { OnOk result (Appends (W.contents writer.old) (W.contents writer.new) (pad_octets self.now.count)) }
        ensures fault { OnErr result ((n : ℕ)
            × Appends (W.contents writer.old) (W.contents writer.new) (take n (pad_octets self.now.count))) }
    {
        if self.count % 2 == 1 {
            write_octets(writer, &[0])
        } else {
            Ok(())
        }
    }
}

/// Writes a header over the first octets of a file once all of the file is on its device, and waits until the header is
/// too.
fn put_header<W: LiveWavFile>(writer: &mut W, head: &[u8]) -> io::Result<()>
    ensures ok { OnOk result ((octets : List ℕ) → W.Write.contents writer.old ≡ Some octets
        → length head.now ≤ length octets
        → W.Write.contents writer.new ≡ Some (head.now ++ drop (length head.now) octets)) }
    ensures synced { OnOk result (W.synced writer.new) }
    ensures fault { OnErr result ((octets : List ℕ) → W.Write.contents writer.old ≡ Some octets
        → length head.now ≤ length octets → (n : ℕ) × (n ≤ length head.now)
        × (W.Write.contents writer.new ≡ Some (take n head.now ++ drop n octets))) }
{
    writer.sync()?;
    writer.overwrite(head)?;
    writer.sync()
}
