//! The writer of a run's raw PCM, which moves samples from the ring to a pipe, a FIFO or a file.
ghost use Rattle.std.specs.Prelude.{◌≡◌, ◌^◌, ◌*◌, ◌/◌, ◌≤◌, ◌+◌, ℕ, List, [], Option, None, length, take, IfOk, OnErr};
ghost use Rattle.std.specs.Io.KnownBytes.{Appends, Keeps};
ghost use Rattle.mix_packets.specs.declared.out_spec.Output.{Output};
ghost use Rattle.rtrb.specs.Ring.{received};
ghost use Rattle.live_audio.specs.PcmWriter.{
  HasPiped,
  HasPipedAll,
  IsFreshPcm,
  IsPiped,
  IsSamePcm,
  LacksPcmBlock,
  WritesPart,
};
ghost use Rattle.wav_file.specs.Samples.{little_samples};

use crate::writer::{CHUNK_OCTETS, PAUSE_MS, blocks_in};
use mix_packets::OutSpec;
use rtp_wire::Enc;
use rtrb::Consumer;
use std::io::{Error, ErrorKind};
use std::sync::Wait;
use std::thread::Parker;
use std::time::Duration;
use studio_io::{OutputEnd, OutputProgress};
use wav_file::{PcmOutput, PcmSpace, to_little_endian};

/// The greatest number of octets behind which more are written.
// With a chunk more it stays below 2^63.
const MAX_OCTETS: u64 = 1 << 62;

/// The number of times that a full output is waited for once the run has ended, each for a pause: half a second.
// A reader that goes on gets the last blocks. One that has stopped does not hold up the run's report for longer.
const LAST_WAITS: u32 = 50;

/// The result of writing a run's raw PCM.
#[derive(Clone, Copy, Debug, PartialEq, Eq)]
pub struct PcmWritten {
    /// The number of octets that were written.
    pub octets: u64,
    /// The number of blocks that were written whole.
    pub blocks: u64,
    /// True if the samples of all blocks that came were written.
    pub is_all: bool,
}

/// Why nothing more is written.
#[derive(Clone, Copy, Debug, PartialEq, Eq)]
pub enum PcmStop {
    /// The output ended before its run.
    Ended(OutputEnd),
    /// The run has ended, and the reader does not take the rest.
    Late,
}

/// The part of some octets that was written.
#[derive(Clone, Copy, Debug, PartialEq, Eq)]
struct PcmPart {
    count: usize,
    /// Why the others were not written. `None` if all were.
    stop: Option<PcmStop>,
}

/// The end of a ring from which samples are taken, with what is known of the output to which they go.
#[derive(Drop)]
pub struct PcmWriter<'a> {
    ring: Consumer<u8>,
    enc: Enc,
    /// The number of octets of a block's samples.
    block_len: usize,
    /// The number of octets that were written.
    octets: u64,
    /// The number of times that a full output may still be waited for once the run has ended.
    waits: u32,
    /// The progress of the output, in which the number of blocks so far is set.
    pcm: &'a OutputProgress,
}

impl<'a> PcmWriter<'a> {
    /// Returns the writer from a ring, of the samples of an output of the studio.
    pub(crate) fn new(
        ring: Consumer<u8>,
        output: &OutSpec,
        pcm: &'a OutputProgress,
    ) -> PcmWriter<'a>
        ensures ring { result.ring ≡ ring }
        ensures fresh { received ring ≡ [] → IsFreshPcm output.now result }
    {
        PcmWriter {
            ring,
            enc: output.enc(),
            block_len: output.datagram_len() - 12,
            octets: 0,
            waits: LAST_WAITS,
            pcm,
        }
    }

    /// Returns the number of octets of a block's samples.
    pub(crate) fn block_len(&self) -> usize
        ensures { result ≡ self.now.block_len }
    {
        self.block_len
    }

    /// Opens the way to an output that somebody reads, or that needs no reader, if it is not open yet. Does not wait.
    /// Returns `Closed` if nobody reads it any more.
    pub fn open<D: PcmOutput>(&mut self, output: &mut D) -> Option<PcmStop>
        ensures same { IsSamePcm self.old self.new }
        ensures contents { D.Write.contents output.new ≡ D.Write.contents output.old }
    {
        if self.pcm.is_writing() {
            return None;
        }
        match output.space(0) {
            PcmSpace::Unread => None,
            PcmSpace::Closed => Some(PcmStop::Ended(OutputEnd::Closed)),
            PcmSpace::Ready | PcmSpace::Full => {
                self.pcm.set_writing();
                None
            }
        }
    }

    /// Returns true if nothing more is put into the ring: its other end was dropped.
    fn is_last(&mut self) -> bool
        ensures same { IsSamePcm self.old self.new }
    {
        self.ring.is_abandoned()
    }

    /// Returns the number of whole blocks that are in the ring, as many as fit a chunk.
    fn blocks_ready(&mut self) -> usize
        ensures same { IsSamePcm self.old self.new }
        ensures fits { result * self.new.block_len ≤ 1440 }
        ensures none { result ≡ 0 → LacksPcmBlock self.new }
    {
        blocks_in(self.ring.slots().min(CHUNK_OCTETS), self.block_len)
    }

    /// Writes the whole blocks that came, as many as fit a chunk, and returns their number. Returns an error if nothing
    /// more is to be written.
    fn write_some<R: Wait, D: PcmOutput>(
        &mut self,
        rt: &R,
        output: &mut D,
    ) -> Result<usize, PcmStop>
        ensures written { IfOk result (λ _. (before : Option (List ℕ))
            → HasPipedAll before (D.Write.contents output.old) self.old
            → HasPipedAll before (D.Write.contents output.new) self.new) }
        ensures empty { IfOk result (λ blocks. blocks ≡ 0 → LacksPcmBlock self.new) }
        ensures stopped { OnErr result ((before : Option (List ℕ))
            → HasPipedAll before (D.Write.contents output.old) self.old
            → HasPiped before (D.Write.contents output.new) self.new self.new.octets) }
    {
        let blocks = self.blocks_ready();
        if blocks == 0 {
            return Ok(0);
        }
        let mut chunk = [0; CHUNK_OCTETS];
        let len = blocks * self.block_len;
        self.move_blocks(rt, output, blocks, &mut chunk[..len])?;
        Ok(blocks)
    }

    /// Moves this many blocks, which are known to be in the ring, to the output, by way of a chunk of their length.
    fn move_blocks<R: Wait, D: PcmOutput>(
        &mut self,
        rt: &R,
        output: &mut D,
        blocks: usize,
        chunk: &mut [u8],
    ) -> Result<(), PcmStop>
        requires short { length chunk.old ≤ 1440 }
        requires size { length chunk.old ≡ blocks * self.old.block_len }
        ensures moved { IfOk result (λ _. (before : Option (List ℕ))
            → HasPipedAll before (D.Write.contents output.old) self.old
            → HasPipedAll before (D.Write.contents output.new) self.new) }
        ensures stopped { OnErr result ((before : Option (List ℕ))
            → HasPipedAll before (D.Write.contents output.old) self.old
            → HasPiped before (D.Write.contents output.new) self.new self.new.octets) }
    {
        if self.octets > MAX_OCTETS {
            return Err(PcmStop::Ended(OutputEnd::Write));
        }
        match self.ring.pop_entire_slice(chunk) {
            Ok(()) => self.write_chunk(rt, output, chunk),
            // Not reached: the ring is known to have them.
            Err(_) => Ok(()),
        }
    }

    /// Writes the samples of blocks, and counts their octets. Returns an error if not all of them were written.
    fn write_chunk<R: Wait, D: PcmOutput>(
        &mut self,
        rt: &R,
        output: &mut D,
        chunk: &[u8],
    ) -> Result<(), PcmStop>
        requires short { length chunk.now ≤ 1440 }
        requires few { self.old.octets ≤ 2 ^ 62 }
        ensures all { IfOk result (λ _. WritesPart (D.Write.contents output.old) (D.Write.contents output.new) self.old
            self.new (little_samples self.old.enc chunk.now) (length (little_samples self.old.enc chunk.now))) }
        ensures part { OnErr result ((count : ℕ)
            × WritesPart (D.Write.contents output.old) (D.Write.contents output.new) self.old self.new
            (little_samples self.old.enc chunk.now) count) }
    {
        let samples = to_little_endian(self.enc, chunk);
        let part = self.write_samples(rt, output, samples.as_slice());
        self.octets += part.count as u64;
        match part.stop {
            Some(stop) => Err(stop),
            None => Ok(()),
        }
    }

    /// Writes octets as the output takes them.
    fn write_samples<R: Wait, D: PcmOutput>(
        &mut self,
        rt: &R,
        output: &mut D,
        octets: &[u8],
    ) -> PcmPart
        ensures same { IsSamePcm self.old self.new }
        ensures few { result.count ≤ length octets.now }
        ensures written { Appends (D.Write.contents output.old) (D.Write.contents output.new)
            (take result.count octets.now) }
        ensures all { result.stop ≡ None → result.count ≡ length octets.now }
    {
        let mut count = 0;
        // The label names the loop in its proof.
        'writes: for _ in rt.forever() {
            if count >= octets.len() {
                return PcmPart { count, stop: None };
            }
            match self.write_ready(output, &octets[count..]) {
                Ok(written) => count += written,
                Err(stop) => {
                    return PcmPart {
                        count,
                        stop: Some(stop),
                    };
                }
            }
        }
        unreachable!()
    }

    /// Waits for the output, and writes as many octets as it takes without blocking. Returns their number, which is 0
    /// if it took none within a pause.
    fn write_ready<D: PcmOutput>(&mut self, output: &mut D, octets: &[u8]) -> Result<usize, PcmStop>
        ensures same { IsSamePcm self.old self.new }
        ensures written { IfOk result (λ count. (count ≤ length octets.now)
            × Appends (D.Write.contents output.old) (D.Write.contents output.new) (take count octets.now)) }
        ensures stopped { OnErr result (Keeps (D.Write.contents output.old) (D.Write.contents output.new)) }
    {
        match output.space(PAUSE_MS as u32) {
            PcmSpace::Ready => match output.write(octets) {
                Ok(0) => Err(PcmStop::Ended(OutputEnd::Write)),
                Ok(count) => Ok(count),
                Err(fault) => self.stop_or_retry(&fault),
            },
            PcmSpace::Full => self.retry(),
            PcmSpace::Unread | PcmSpace::Closed => Err(PcmStop::Ended(OutputEnd::Closed)),
        }
    }

    /// Returns 0 if a write that failed may be tried again, and else why nothing more is written.
    fn stop_or_retry(&mut self, fault: &Error) -> Result<usize, PcmStop>
        ensures same { IsSamePcm self.old self.new }
        ensures none { IfOk result (λ count. count ≡ 0) }
    {
        match fault.kind() {
            ErrorKind::Interrupted | ErrorKind::WouldBlock => self.retry(),
            ErrorKind::BrokenPipe => Err(PcmStop::Ended(OutputEnd::Closed)),
            _ => Err(PcmStop::Ended(OutputEnd::Write)),
        }
    }

    /// Returns 0 if the output is to be waited for again: the run goes on, or has ended just now.
    fn retry(&mut self) -> Result<usize, PcmStop>
        ensures same { IsSamePcm self.old self.new }
        ensures none { IfOk result (λ count. count ≡ 0) }
    {
        if !self.is_last() {
            return Ok(0);
        }
        match self.waits.checked_sub(1) {
            Some(waits) => {
                self.waits = waits;
                Ok(0)
            }
            None => Err(PcmStop::Late),
        }
    }

    /// Sets the number of blocks that were written whole, and returns it.
    fn note_written(&self) -> u64
        ensures { result ≡ self.now.octets / self.now.block_len }
    {
        let blocks = self.octets.checked_div(self.block_len as u64).unwrap_or(0);
        self.pcm.set_written(blocks);
        blocks
    }

    /// Returns the result of an output that ends behind all that came.
    fn finish(&self) -> PcmWritten
        ensures { (before after : Option (List ℕ)) → HasPipedAll before after self.now → LacksPcmBlock self.now
            → IsPiped before after self.now result }
    {
        PcmWritten {
            octets: self.octets,
            blocks: self.note_written(),
            is_all: true,
        }
    }

    /// Returns the result of an output that ends for this reason, and reports an end before the run's.
    fn break_off<D: PcmOutput>(&self, stop: PcmStop, output: &mut D) -> PcmWritten
        ensures { (before : Option (List ℕ))
            → HasPiped before (D.Write.contents output.old) self.now self.now.octets
            → IsPiped before (D.Write.contents output.new) self.now result }
    {
        let blocks = self.note_written();
        if let PcmStop::Ended(end) = stop {
            self.pcm.set_end(end);
            output.report(end, blocks);
        }
        PcmWritten {
            octets: self.octets,
            blocks,
            is_all: false,
        }
    }
}

/// Writes the samples that come through the ring to an output, until the ring's other end was dropped and it is empty,
/// or the output ends before. It blocks the calling thread until then. If the output ends before its run, it reports
/// that to the output at that moment.
pub fn write_pcm<R: Wait, D: PcmOutput>(
    rt: &R,
    writer: &mut PcmWriter<'_>,
    output: &mut D,
) -> PcmWritten
    ensures { (mix : Output) → IsFreshPcm mix writer.old
        → IsPiped (D.Write.contents output.old) (D.Write.contents output.new) writer.new result }
{
    let parker = Parker::new();
    // The label names the loop in its proof.
    'turns: for _ in rt.forever() {
        // This is read before the ring: once it is true nothing more is put, so a ring that is empty then is the end.
        let is_last = writer.is_last();
        match writer.write_some(rt, output) {
            Ok(0) => {
                if is_last {
                    return writer.finish();
                }
                if let Some(stop) = writer.open(output) {
                    return writer.break_off(stop, output);
                }
                parker.park_timeout(rt, Duration::from_millis(PAUSE_MS));
            }
            Ok(_) => {
                let _ = writer.note_written();
            }
            Err(stop) => return writer.break_off(stop, output),
        }
    }
    unreachable!()
}
