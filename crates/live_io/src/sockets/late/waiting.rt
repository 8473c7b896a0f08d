//! Copies of the mix that wait for their time, in its order.
ghost use Rattle.std.specs.Prelude.{◌≡◌, ◌↔◌, ◌<◌, [], length, None, IsTrue, IfOk, IfSome, MatchOption};
ghost use Rattle.live_io.specs.LateCopies.{HasFirstDue, IsFirstDue, Takes};

use crate::sockets::mix_times::MixDue;
use arrayvec::ArrayVec;
use circular_buffer::HeapCircularBuffer;
use mix_packets::MAX_OUTPUT_OCTETS;
use std::alloc::{AllocError, Global};

/// A copy of the mix that waits.
#[derive(Drop)]
pub(crate) struct WaitingCopy {
    /// When it is sent.
    pub(crate) due: MixDue,
    /// The octets of its datagram.
    pub(crate) datagram: ArrayVec<u8, MAX_OUTPUT_OCTETS>,
}

/// Returns a copy with these octets, which is due then, or `None` if there are too many.
fn copy_of(due: MixDue, octets: &[u8]) -> Option<WaitingCopy>
    ensures due { IfSome result (λ copy. copy.due ≡ due) }
    ensures octets { IfSome result (λ copy. copy.datagram.items ≡ octets.now) }
    ensures none { result ≡ None → 1452 < length octets.now }
{
    let mut datagram = ArrayVec::new();
    match datagram.try_extend_from_slice(octets) {
        Ok(()) => Some(WaitingCopy { due, datagram }),
        Err(_too_long) => None,
    }
}

/// Copies of the mix that wait for their time, each for the same delay: so the first of them is due first.
#[derive(Drop)]
pub(crate) struct WaitingCopies {
    copies: HeapCircularBuffer<WaitingCopy>,
}

impl WaitingCopies {
    /// Returns no copies, with space for this many. Returns `AllocError` if an allocation fails.
    pub(crate) fn new(alloc: Global, most: usize) -> Result<WaitingCopies, AllocError>
        ensures { IfOk result (λ copies. copies.copies.items ≡ []) }
    {
        let copies = HeapCircularBuffer::with_capacity(alloc, most)?;
        Ok(WaitingCopies { copies })
    }

    /// Takes a copy that is due after those before. Returns false, and does not take it, if there is no space for it.
    pub(crate) fn take(&mut self, due: MixDue, octets: &[u8]) -> bool
        ensures { Takes result due octets.now self.old self.new }
    {
        let Some(copy) = copy_of(due, octets) else {
            return false;
        };
        match self.copies.try_push_back(copy) {
            Ok(()) => true,
            Err(_full) => false,
        }
    }

    /// Removes the first copy if its time has come, and returns it.
    pub(crate) fn next_due(&mut self, now: i64) -> Option<WaitingCopy>
        ensures one { MatchOption result (self.new ≡ self.old) (λ copy. IsFirstDue now copy self.old self.new) }
        ensures none { result ≡ None → HasFirstDue now self.old.copies.items → ⊥ }
    {
        if !self.is_first_due(now) {
            return None;
        }
        self.copies.pop_front()
    }

    /// Returns true if there is a first copy, and its time has come.
    fn is_first_due(&self, now: i64) -> bool
        ensures { IsTrue result ↔ HasFirstDue now self.now.copies.items }
    {
        match self.copies.front() {
            Some(copy) => copy.due.at <= now,
            None => false,
        }
    }

    /// Returns the number of copies that wait.
    pub(crate) fn len(&self) -> usize
        ensures { result ≡ length self.now.copies.items }
    {
        self.copies.len()
    }

    /// Removes all copies, and returns how many there were.
    pub(crate) fn clear(&mut self) -> u64
        ensures { self.new.copies.items ≡ [] }
    {
        let count = self.copies.len() as u64;
        self.copies.clear();
        count
    }
}
