//! The extended sequence numbers of a flow that a capture has (RFC 3550, A.1), with their timestamps.
ghost use Rattle.std.specs.Prelude.{◌≡◌, IfOk, vec_len};

use crate::sequence::{first_number, no_numbers, number_near};
use std::alloc::{AllocError, Global};

/// A received packet: its extended sequence number, and its timestamp.
#[derive(Clone, Copy)]
pub(crate) struct Received {
    /// The extended sequence number; 0 if there was no packet.
    pub number: u64,
    /// The timestamp (RFC 3550, 5.1).
    pub ts: u32,
}

/// The least and the greatest sequence number of a flow, extended by their cycles, and the number of repeated ones.
#[derive(Drop)]
pub(crate) struct ReceivedNumbers {
    least: u64,
    greatest: u64,
    repeated: u64,
    /// The last packet for each number of 16 bits.
    last_seen: Vec<Received>,
    ghost filled: { vec_len last_seen ≡ 65536 },
}

impl ReceivedNumbers {
    ghost use Rattle.pcap_flows.specs.ReceivedNumbers.{numbers_first, numbers_view, numbers_with, span_of};

    /// Returns the numbers of a single packet. Returns `AllocError` if the allocation of 1 MiB fails.
    pub(crate) fn new(alloc: Global, seq: u16, ts: u32) -> Result<ReceivedNumbers, AllocError>
        ensures { IfOk result (λ numbers. numbers_view numbers ≡ numbers_first seq ts) }
    {
        let mut last_seen = no_numbers(alloc)?;
        let first = first_number(seq);
        last_seen[usize::from(seq)] = Received { number: first, ts };
        Ok(ReceivedNumbers {
            least: first,
            greatest: first,
            repeated: 0,
            last_seen,
        })
    }

    /// Adds a packet, with its number extended to the one nearest to the greatest so far.
    pub(crate) fn add(&mut self, seq: u16, ts: u32)
        ensures { numbers_view self.new ≡ numbers_with (numbers_view self.old) seq ts }
    {
        let number = number_near(self.greatest, seq);
        if self.last_seen[usize::from(seq)].number == number {
            self.repeated = self.repeated.saturating_add(1);
        }
        self.last_seen[usize::from(seq)] = Received { number, ts };
        self.least = self.least.min(number);
        self.greatest = self.greatest.max(number);
    }

    /// Returns the number of packets with a number that an earlier packet had.
    pub(crate) fn repeated(&self) -> u64
        ensures { result ≡ self.now.repeated }
    {
        self.repeated
    }

    /// Returns the number of sequence numbers from the least to the greatest.
    pub(crate) fn span(&self) -> u64
        ensures { result ≡ span_of (numbers_view self.now) }
    {
        self.greatest.saturating_sub(self.least).saturating_add(1)
    }

    /// Returns the last packet for each number of 16 bits.
    pub(crate) fn last_seen(&self) -> &[Received]
        ensures { result.now ≡ self.now.last_seen.items }
    {
        self.last_seen.as_slice()
    }
}
