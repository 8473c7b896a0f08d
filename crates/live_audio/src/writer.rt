//! The writer of a run's audio, which moves samples from the ring to the files.
ghost use Rattle.std.specs.Prelude.{◌≡◌, ◌*◌, ◌≤◌, ◌<◌, ℕ, List, [], Some, true, false, length, Option};
ghost use Rattle.std.specs.Prelude.{IfOk, IfErr, OnOk, OnErr};
ghost use Rattle.mix_packets.specs.OutSpec.{IsOutput};
ghost use Rattle.mix_packets.specs.declared.out_spec.Output.{Output};
ghost use Rattle.rtrb.specs.Ring.{received};
ghost use Rattle.wav_file.specs.LiveFile.{HasData, live_octets};
ghost use Rattle.wav_file.specs.MixSamples.{output_format};
ghost use Rattle.live_audio.specs.Parts.{plan_of};
ghost use Rattle.live_audio.specs.declared.writer.AudioStop.TheVariants as stop;
ghost use Rattle.live_audio.specs.AudioWriter.{
  HasFailed,
  HasMoved,
  HasWritten,
  IsFresh,
  IsSameWriter,
  IsStopped,
  IsWritten,
  LacksBlock,
};

use crate::parts::{AudioParts, PartPlan, WavParts, chunk_of, plan_of};
use crate::renewal::is_renewal_due;
use mix_packets::OutSpec;
use rtrb::Consumer;
use std::sync::Wait;
use std::thread::Parker;
use std::time::Duration;
use studio_io::{OutputEnd, OutputProgress};
use wav_file::{LiveWav, LiveWavFile, WavFault, WavFiles, WavFormat};

/// The number of octets that are taken from the ring at once, at most: as many as a payload may have.
pub(crate) const CHUNK_OCTETS: usize = 1440;

/// The pause of the writer if the ring is empty, in milliseconds.
// The ring holds far more than comes in that time, so the run's thread never has to wake the writer.
pub(crate) const PAUSE_MS: u64 = 10;

/// The result of writing a run's WAV files.
#[derive(Clone, Copy, Debug, PartialEq, Eq)]
pub struct AudioFile {
    /// The number of blocks in all files, up to 2^64 - 1.
    pub blocks: u64,
    /// True if the files have the samples of all blocks that came: no write of them failed, and each file was created.
    pub is_all: bool,
    /// True if the last file is a whole WAV file of its samples: its end and its sizes could be written.
    pub is_whole: bool,
}

/// The end of the files before their run.
#[derive(Clone, Copy, Debug, PartialEq, Eq)]
pub(crate) enum AudioStop {
    /// A write failed. The file still has to be cut behind its last whole block and finished.
    Failed,
    /// The next file could not be begun. The value is true if the last file is whole.
    Ended(bool),
}

/// The end of a ring from which samples are taken, with what is known of the files to which they go.
#[derive(Drop)]
pub struct AudioWriter<'a> {
    ring: Consumer<u8>,
    /// The format of the files.
    format: WavFormat,
    /// The number of octets of a block's samples.
    block_len: usize,
    /// The division of the audio into files.
    plan: PartPlan,
    /// The number of blocks in all files so far.
    blocks: u64,
    /// The progress of the files, in which the number of blocks so far is set.
    audio: &'a OutputProgress,
}

impl<'a> AudioWriter<'a> {
    /// Returns the writer from a ring to an empty file, of the samples of an output, divided into parts or not.
    pub(crate) fn new(
        ring: Consumer<u8>,
        output: &OutSpec,
        parts: Option<AudioParts>,
        audio: &'a OutputProgress,
    ) -> AudioWriter<'a>
        ensures ring { result.ring ≡ ring }
        ensures fresh { received ring ≡ [] → IsFresh output.now result }
        ensures plan { result.plan ≡ plan_of output.now parts }
    {
        AudioWriter {
            ring,
            format: format_of(output),
            block_len: output.datagram_len() - 12,
            plan: plan_of(output, parts),
            blocks: 0,
            audio,
        }
    }

    /// Returns true if nothing more is put into the ring: its other end was dropped, or the file's end was set.
    fn is_last(&mut self) -> bool
        ensures same { IsSameWriter self.old self.new }
    {
        self.ring.is_abandoned() || self.audio.end().is_some()
    }

    /// Writes the whole blocks that came, as many as fit a chunk and the file, renews the sizes if they are due, and
    /// returns the number of these blocks. Before them it begins the next file, if the file has no space. Returns the
    /// end of the files if a write fails or the next file cannot be begun.
    fn write_some<F: WavFiles>(
        &mut self,
        parts: &mut WavParts,
        files: &mut F,
        file: &mut F::File,
    ) -> Result<usize, AudioStop>
        ensures written { OnOk result
            (HasWritten (F.closed files.old) (F.File.Write.contents file.old) self.old parts.old
            → HasWritten (F.closed files.new) (F.File.Write.contents file.new) self.new parts.new) }
        ensures empty { IfOk result (λ blocks. blocks ≡ 0
            → HasWritten (F.closed files.old) (F.File.Write.contents file.old) self.old parts.old
            → LacksBlock self.new) }
        ensures stopped { IfErr result (λ stop.
            HasWritten (F.closed files.old) (F.File.Write.contents file.old) self.old parts.old
            → IsStopped (F.closed files.new) (F.File.Write.contents file.new) self.new parts.new stop) }
    {
        let ready = self.blocks_ready();
        if ready == 0 {
            return Ok(0);
        }
        match self.begin_part_if_full(parts, files, file) {
            Ok(()) => {}
            Err(is_whole) => return Err(AudioStop::Ended(is_whole)),
        }
        let blocks = blocks_that_fit(ready, parts.left);
        match self.write_chunk(parts, file, blocks) {
            Ok(()) => Ok(blocks),
            Err(_) => Err(AudioStop::Failed),
        }
    }

    /// Begins the next file if the file has no space. Returns an error if it cannot be begun, with true if the file
    /// before it is whole.
    fn begin_part_if_full<F: WavFiles>(
        &self,
        parts: &mut WavParts,
        files: &mut F,
        file: &mut F::File,
    ) -> Result<(), bool>
        ensures begun { OnOk result
            (HasWritten (F.closed files.old) (F.File.Write.contents file.old) self.now parts.old
            → HasWritten (F.closed files.new) (F.File.Write.contents file.new) self.now parts.new) }
        ensures space { OnOk result (0 < self.now.plan.blocks → 0 < parts.new.left) }
        ensures ended { IfErr result (λ is_whole.
            HasWritten (F.closed files.old) (F.File.Write.contents file.old) self.now parts.old
            → IsStopped (F.closed files.new) (F.File.Write.contents file.new) self.now parts.new
            (stop.Ended is_whole)) }
    {
        if parts.left > 0 {
            return Ok(());
        }
        self.begin_part(parts, files, file)
    }

    /// Finishes the file, which has no space, and begins the next one. Returns an error as `begin_part_if_full` does.
    fn begin_part<F: WavFiles>(
        &self,
        parts: &mut WavParts,
        files: &mut F,
        file: &mut F::File,
    ) -> Result<(), bool>
        ensures begun { OnOk result (parts.old.left ≡ 0
            → HasWritten (F.closed files.old) (F.File.Write.contents file.old) self.now parts.old
            → HasWritten (F.closed files.new) (F.File.Write.contents file.new) self.now parts.new) }
        ensures space { OnOk result (parts.new.left ≡ self.now.plan.blocks) }
        ensures ended { IfErr result (λ is_whole. parts.old.left ≡ 0
            → HasWritten (F.closed files.old) (F.File.Write.contents file.old) self.now parts.old
            → IsStopped (F.closed files.new) (F.File.Write.contents file.new) self.now parts.new
            (stop.Ended is_whole)) }
    {
        if !finish_file(&parts.wav, file) {
            return Err(false);
        }
        let at = parts.at.saturating_add(self.plan.step);
        match files.next(file, at) {
            Ok(()) => match LiveWav::begin(self.format, chunk_of(self.plan, at), file) {
                Ok(wav) => {
                    *parts = WavParts {
                        wav,
                        at,
                        left: self.plan.blocks,
                        sized: 0,
                    };
                    Ok(())
                }
                Err(_) => Err(false),
            },
            Err(_) => Err(true),
        }
    }

    /// Writes this many blocks, which are known to be in the ring and to have space in the file, and renews the sizes
    /// if they are due. Returns an error if a write fails.
    fn write_chunk<D: LiveWavFile>(
        &mut self,
        parts: &mut WavParts,
        file: &mut D,
        blocks: usize,
    ) -> Result<(), WavFault>
        requires short { blocks * self.old.block_len ≤ 1440 }
        requires space { blocks ≤ parts.old.left }
        ensures written { OnOk result ((closed : Option (List (List ℕ)))
            → HasWritten closed (D.Write.contents file.old) self.old parts.old
            → HasWritten closed (D.Write.contents file.new) self.new parts.new) }
        ensures failed { OnErr result ((closed : Option (List (List ℕ)))
            → HasWritten closed (D.Write.contents file.old) self.old parts.old
            → HasFailed closed (D.Write.contents file.new) self.new parts.new) }
    {
        let mut chunk = [0; CHUNK_OCTETS];
        let len = blocks * self.block_len;
        self.move_blocks(parts, file, blocks, &mut chunk[..len])?;
        self.renew_if_due(parts, file)
    }

    /// Returns the number of whole blocks that are in the ring, as many as fit a chunk.
    fn blocks_ready(&mut self) -> usize
        ensures same { IsSameWriter self.old self.new }
        ensures fits { result * self.new.block_len ≤ 1440 }
        ensures none { result ≡ 0 → LacksBlock self.new }
    {
        blocks_in(self.ring.slots().min(CHUNK_OCTETS), self.block_len)
    }

    /// Moves this many blocks, which are known to be in the ring, to the file, by way of a chunk of their length.
    fn move_blocks<D: LiveWavFile>(
        &mut self,
        parts: &mut WavParts,
        file: &mut D,
        blocks: usize,
        chunk: &mut [u8],
    ) -> Result<(), WavFault>
        requires short { length chunk.old ≤ 1440 }
        requires size { length chunk.old ≡ blocks * self.old.block_len }
        requires space { blocks ≤ parts.old.left }
        ensures moved { OnOk result ((closed : Option (List (List ℕ)))
            → HasMoved closed (D.Write.contents file.old) self.old parts.old
            → HasMoved closed (D.Write.contents file.new) self.new parts.new) }
        ensures failed { OnErr result ((closed : Option (List (List ℕ)))
            → HasMoved closed (D.Write.contents file.old) self.old parts.old
            → HasFailed closed (D.Write.contents file.new) self.new parts.new) }
    {
        match self.ring.pop_entire_slice(chunk) {
            Ok(()) => {
                parts.wav.push(file, chunk)?;
                parts.left -= blocks as u64;
                self.blocks = self.blocks.saturating_add(blocks as u64);
                Ok(())
            }
            // Not reached: the ring is known to have them.
            Err(_) => Ok(()),
        }
    }

    /// Renews the sizes in the header, if a second of audio came since they were set. Returns an error if that fails.
    fn renew_if_due<D: LiveWavFile>(
        &self,
        parts: &mut WavParts,
        file: &mut D,
    ) -> Result<(), WavFault>
        ensures renewed { OnOk result ((closed : Option (List (List ℕ)))
            → HasMoved closed (D.Write.contents file.old) self.now parts.old
            → HasWritten closed (D.Write.contents file.new) self.now parts.new) }
        ensures failed { OnErr result ((closed : Option (List (List ℕ)))
            → HasMoved closed (D.Write.contents file.old) self.now parts.old
            → HasFailed closed (D.Write.contents file.new) self.now parts.new) }
    {
        if !is_renewal_due(self.format, parts.wav.data_len(), parts.sized) {
            return Ok(());
        }
        parts.wav.renew(file)?;
        parts.sized = parts.wav.data_len();
        Ok(())
    }

    /// Finishes the last file behind the last block.
    fn finish<F: WavFiles>(&self, parts: &WavParts, files: &F, file: &mut F::File) -> AudioFile
        ensures { HasWritten (F.closed files.now) (F.File.Write.contents file.old) self.now parts.now
            → LacksBlock self.now
            → IsWritten (F.closed files.now) (F.File.Write.contents file.new) self.now result }
    {
        let is_whole = finish_file(&parts.wav, file);
        if !is_whole {
            self.audio.set_end(OutputEnd::Write);
        }
        self.report_end(file);
        AudioFile {
            blocks: self.blocks,
            is_all: true,
            is_whole,
        }
    }

    /// Ends the files before their run: cuts the last one behind its last whole block and finishes it, unless that was
    /// done.
    fn stop<F: WavFiles>(
        &self,
        parts: &WavParts,
        files: &F,
        file: &mut F::File,
        stop: AudioStop,
    ) -> AudioFile
        ensures { IsStopped (F.closed files.now) (F.File.Write.contents file.old) self.now parts.now stop
            → IsWritten (F.closed files.now) (F.File.Write.contents file.new) self.now result }
    {
        match stop {
            AudioStop::Failed => {
                let is_whole = cut_and_finish_file(&parts.wav, file);
                self.end_early(is_whole, file)
            }
            AudioStop::Ended(is_whole) => self.end_early(is_whole, file),
        }
    }

    /// Sets and reports the end of the files before their run. The last one is whole or not.
    fn end_early<D: LiveWavFile>(&self, is_whole: bool, file: &mut D) -> AudioFile
        ensures same { D.Write.contents file.new ≡ D.Write.contents file.old }
        ensures result { result ≡ record { blocks = self.now.blocks; is_all = false; is_whole = is_whole } }
    {
        self.audio.set_end(OutputEnd::Write);
        self.report_end(file);
        AudioFile {
            blocks: self.blocks,
            is_all: false,
            is_whole,
        }
    }

    /// Sets the number of blocks in the files, and reports their end if they ended before the run.
    fn report_end<D: LiveWavFile>(&self, file: &mut D)
        ensures { D.Write.contents file.new ≡ D.Write.contents file.old }
    {
        self.audio.set_written(self.blocks);
        if let Some(end) = self.audio.end() {
            file.report(end, self.audio.written());
        }
    }
}

/// Returns the format of an output's samples.
pub(crate) fn format_of(output: &OutSpec) -> WavFormat
    ensures value { result ≡ output_format output.now }
    ensures sound { IsOutput output.now }
{
    WavFormat {
        enc: output.enc(),
        channels: output.channels(),
    }
}

/// Returns the number of whole blocks of this length in this many octets, or 0 if the length is 0.
pub(crate) fn blocks_in(octets: usize, block_len: usize) -> usize
    ensures fits { result * block_len ≤ octets }
    ensures none { result ≡ 0 → 0 < block_len → octets < block_len }
{
    octets.checked_div(block_len).unwrap_or(0)
}

/// Returns the number of blocks that are written at once: those that came, as far as a file has space for them.
fn blocks_that_fit(ready: usize, left: u64) -> usize
    ensures ready { result ≤ ready }
    ensures left { result ≤ left }
    ensures some { 0 < ready → 0 < left → 0 < result }
{
    match usize::try_from(left) {
        Ok(left) => ready.min(left),
        Err(_) => ready,
    }
}

/// Finishes a file behind its data, and returns true if it is whole.
fn finish_file<D: LiveWavFile>(wav: &LiveWav, file: &mut D) -> bool
    ensures { result ≡ true → (head octets : List ℕ) → HasData (D.Write.contents file.old) wav.now head octets []
        → D.Write.contents file.new ≡ Some (live_octets wav.now.format wav.now.chunk octets) }
{
    match wav.finish_synced(file) {
        Ok(()) => true,
        Err(_) => false,
    }
}

/// Cuts a file behind its data and finishes it, and returns true if it is whole.
fn cut_and_finish_file<D: LiveWavFile>(wav: &LiveWav, file: &mut D) -> bool
    ensures { result ≡ true → (head octets rest : List ℕ) → HasData (D.Write.contents file.old) wav.now head octets rest
        → D.Write.contents file.new ≡ Some (live_octets wav.now.format wav.now.chunk octets) }
{
    match wav.cut_and_finish(file) {
        Ok(()) => true,
        Err(_) => false,
    }
}

/// Writes the samples that come through the ring to an empty file and the files that follow it, until the ring's other
/// end was dropped and it is empty, or the files end before. It blocks the calling thread until then. If the files end
/// before their run, it reports that to the last file at that moment.
pub fn write_audio<R: Wait, F: WavFiles>(
    rt: &R,
    writer: &mut AudioWriter<'_>,
    files: &mut F,
    file: &mut F::File,
) -> AudioFile
    ensures { (output : Output) → IsFresh output writer.old → F.closed files.old ≡ Some []
        → F.File.Write.contents file.old ≡ Some []
        → IsWritten (F.closed files.new) (F.File.Write.contents file.new) writer.new result }
{
    let plan = writer.plan;
    match LiveWav::begin(writer.format, chunk_of(plan, plan.at), file) {
        Ok(wav) => {
            let parts = WavParts {
                wav,
                at: plan.at,
                left: plan.blocks,
                sized: 0,
            };
            write_blocks(rt, writer, parts, files, file)
        }
        Err(_) => {
            writer.audio.set_end(OutputEnd::Write);
            writer.report_end(file);
            AudioFile {
                blocks: 0,
                is_all: false,
                is_whole: false,
            }
        }
    }
}

/// Writes the samples that come through the ring to a file whose header was written, and to the files that follow it.
fn write_blocks<R: Wait, F: WavFiles>(
    rt: &R,
    writer: &mut AudioWriter<'_>,
    parts: WavParts,
    files: &mut F,
    file: &mut F::File,
) -> AudioFile
    ensures { HasWritten (F.closed files.old) (F.File.Write.contents file.old) writer.old parts
        → IsWritten (F.closed files.new) (F.File.Write.contents file.new) writer.new result }
{
    let mut parts = parts;
    let parker = Parker::new();
    // The label names the loop in its proof.
    'turns: for _ in rt.forever() {
        // This is read before the ring: once it is true nothing more is put, so a ring that is empty then is the end.
        let is_last = writer.is_last();
        match writer.write_some(&mut parts, files, file) {
            Ok(0) => {
                if is_last {
                    return writer.finish(&parts, files, file);
                }
                parker.park_timeout(rt, Duration::from_millis(PAUSE_MS));
            }
            Ok(_) => writer.audio.set_written(writer.blocks),
            Err(stop) => return writer.stop(&parts, files, file, stop),
        }
    }
    unreachable!()
}
