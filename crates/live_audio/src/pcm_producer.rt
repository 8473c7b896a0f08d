//! The end of a ring into which the samples of the mix are put for raw PCM: a block as a whole, or it is left out.
ghost use Rattle.std.specs.Prelude.{◌≡◌, ◌∷◌, ◌++◌, [], ℕ, List, drop, false, true, None};
ghost use Rattle.rtrb.specs.Ring.{sent};
ghost use Rattle.live_audio.specs.PcmProducer.{HasProduced, LeavesOut, Takes};

use crate::producer::samples_of;
use rtrb::Producer;
use run_outputs::MixOutput;
use studio_io::{MixedBlock, OutputEnd, OutputKind, OutputProgress};

/// The end of a ring in the run's thread, into which the samples of each datagram are put. It never waits.
#[derive(Drop)]
pub struct PcmProducer<'a> {
    ring: Producer<u8>,
    /// True once somebody reads the output. Before that each block is left out.
    is_open: bool,
    /// The number of blocks that were left out.
    left_out: u64,
    /// The number of blocks that were passed to it.
    given: u64,
    /// The progress of the output, in which these numbers are set.
    pcm: &'a OutputProgress,
}

impl<'r> PcmProducer<'r> {
    /// Returns the end of a ring, into which it has put nothing yet.
    pub(crate) fn new(ring: Producer<u8>, pcm: &'r OutputProgress) -> PcmProducer<'r>
        ensures ring { result.ring ≡ ring }
        ensures none { sent ring ≡ [] → HasProduced [] result }
    {
        PcmProducer {
            ring,
            is_open: false,
            left_out: 0,
            given: 0,
            pcm,
        }
    }

    /// Returns the number of blocks that were left out, up to 2^64 - 1.
    pub fn left_out(&self) -> u64
        ensures { result ≡ self.now.left_out }
    {
        self.left_out
    }

    /// Puts the samples of a datagram of the mix, which are behind the twelve octets of its header. Leaves the block
    /// out if the ring has no space for all of them, or nobody reads the output yet.
    // Blocks before the first reader are left out, so that a reader that opens late hears the audio of that time.
    pub fn put(&mut self, datagram: &[u8])
        ensures takes { Takes self.old (drop 12 datagram.now) self.new }
        ensures produced { (blocks : List (List ℕ)) → HasProduced blocks self.old
            → HasProduced (blocks ++ drop 12 datagram.now ∷ []) self.new }
        ensures open { self.old.is_open ≡ true → self.new.is_open ≡ true }
    {
        self.given = self.given.saturating_add(1);
        self.pcm.set_given(self.given);
        if !self.opens() {
            self.leave_out();
            return;
        }
        match self.ring.push_entire_slice(samples_of(datagram)) {
            Ok(()) => {}
            Err(_full) => self.leave_out(),
        }
    }

    /// Returns true once somebody reads the output.
    fn opens(&mut self) -> bool
        ensures value { result ≡ self.new.is_open }
        ensures open { self.old.is_open ≡ true → self.new.is_open ≡ true }
        ensures ring { self.new.ring ≡ self.old.ring }
        ensures left_out { self.new.left_out ≡ self.old.left_out }
    {
        if !self.is_open {
            self.is_open = self.pcm.is_writing();
        }
        self.is_open
    }

    /// Counts a block that is left out.
    fn leave_out(&mut self)
        ensures left_out { LeavesOut self.old self.new }
        ensures ring { self.new.ring ≡ self.old.ring }
        ensures open { self.new.is_open ≡ self.old.is_open }
    {
        self.left_out = self.left_out.saturating_add(1);
        self.pcm.set_left_out(self.left_out);
    }
}

impl MixOutput for PcmProducer<'_> {
    ghost mixes = { λ old mixed new. Takes old (drop 12 mixed.datagram) new };

    ghost ended = { λ producer kind. None };

    fn mixed(&mut self, datagram: &[u8], _block: &MixedBlock<'_>) {
        self.put(datagram);
    }

    // Blocks that have no space are left out, and the output goes on. It ends in its writer alone.
    fn end_of(&self, _kind: OutputKind) -> Option<OutputEnd> {
        None
    }
}
