//! The end of a ring into which the samples of the mix are put, a block as a whole or not at all.
ghost use Rattle.std.specs.Prelude.{◌≡◌, ◌≤◌, drop, length, None};
ghost use Rattle.live_audio.specs.Producer.{Puts, StaysEnded, wav_end};

use rtrb::Producer;
use run_outputs::MixOutput;
use studio_io::{MixedBlock, OutputEnd, OutputKind, OutputProgress};

/// The end of a ring in the run's thread, into which the samples of each datagram are put. It never waits.
#[derive(Drop)]
pub struct AudioProducer<'a> {
    ring: Producer<u8>,
    /// Why the file ended, if it did. Nothing is put any more then.
    end: Option<OutputEnd>,
    /// The number of blocks that were passed to it, also after the end.
    given: u64,
    /// The progress of the file, in which that number and the reason of the file's end are set.
    audio: &'a OutputProgress,
}

impl<'r> AudioProducer<'r> {
    /// Returns the end of a ring, into which it has put nothing yet.
    pub(crate) fn new(ring: Producer<u8>, audio: &'r OutputProgress) -> AudioProducer<'r>
        ensures ring { result.ring ≡ ring }
        ensures open { result.end ≡ None }
    {
        AudioProducer {
            ring,
            end: None,
            given: 0,
            audio,
        }
    }

    /// Returns why the file ended, if it did.
    pub fn end(&self) -> Option<OutputEnd>
        ensures { result ≡ self.now.end }
    {
        self.end
    }

    /// Puts the samples of a datagram of the mix, which are behind the twelve octets of its header, if the ring has
    /// space for all of them. The first block without space ends the file.
    pub fn put(&mut self, datagram: &[u8])
        ensures puts { Puts self.old (drop 12 datagram.now) self.new }
        ensures ended { StaysEnded self.old self.new }
    {
        self.given = self.given.saturating_add(1);
        self.audio.set_given(self.given);
        // Nothing is put after a block that is missing: the file would have a hole in the middle.
        if self.end.is_some() {
            return;
        }
        if self.ring.push_entire_slice(samples_of(datagram)).is_err() {
            self.end = Some(OutputEnd::Slow);
            self.audio.set_end(OutputEnd::Slow);
        }
    }
}

impl MixOutput for AudioProducer<'_> {
    ghost mixes = { λ old mixed new. Puts old (drop 12 mixed.datagram) new × StaysEnded old new };

    ghost ended = { λ producer kind. wav_end kind producer };

    fn mixed(&mut self, datagram: &[u8], _block: &MixedBlock<'_>) {
        self.put(datagram);
    }

    fn end_of(&self, kind: OutputKind) -> Option<OutputEnd> {
        match kind {
            OutputKind::Wav => self.end,
            OutputKind::Record | OutputKind::Pcm => None,
        }
    }
}

/// Returns the octets behind a datagram's header.
// An RTP header has 12 octets (RFC 3550, 5.1): the output has no CSRC list and no extension.
pub(crate) fn samples_of(datagram: &[u8]) -> &[u8]
    ensures { result.now ≡ drop 12 datagram.now }
{
    if datagram.len() >= 12 {
        &datagram[12..]
    } else {
        &[]
    }
}
