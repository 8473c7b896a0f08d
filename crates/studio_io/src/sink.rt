//! The sink of a run, which takes the datagrams of the mix, and the counts of its results.
ghost use Rattle.std.specs.Prelude.{◌≡◌, ◌+◌, ◌<◌, ◌^◌, List, ℕ, [], ◌∷◌, Option, if◌then◌else◌};
ghost use Rattle.studio_io.specs.Sinks.{Hands, Returns};
ghost use Rattle.studio_io.specs.declared.sink.SendAnswer.{SendAnswer};

use crate::mixed_block::MixedBlock;

/// The result of `Sink::send` for each of the two addresses: true if it took the datagram.
#[derive(Clone, Copy, PartialEq, Eq)]
pub struct SendAnswer {
    /// True if the first address took the datagram.
    pub a: bool,
    /// True if the second address took the datagram.
    pub b: bool,
}

/// A sink for datagrams, each for two addresses (SMPTE ST 2022-7). `send` must not block.
pub trait Sink: Drop {
    /// All datagrams that the sink was passed, in order; `None` if they are not known. Once they are not known they
    /// never are again.
    ghost handed: { Self → Option (List (List ℕ)) };

    /// All results that the sink returned, in order; `None` if they are not known. Once they are not known they never
    /// are again.
    ghost answered: { Self → Option (List SendAnswer) };

    /// Sends one datagram to both addresses, and returns the result for each.
    fn send(&mut self, datagram: &[u8]) -> SendAnswer
        ensures handed { Hands (handed self.old) (datagram.now ∷ []) (handed self.new) }
        ensures answered { Returns (answered self.old) (result ∷ []) (answered self.new) };

    /// Sends the datagram of a block to both addresses, and returns the result for each. Runs call this one. It does
    /// the same as `send`, unless the sink uses the block.
    fn send_block(&mut self, datagram: &[u8], _block: &MixedBlock<'_>) -> SendAnswer
        ensures handed { Hands (handed self.old) (datagram.now ∷ []) (handed self.new) }
        ensures answered { Returns (answered self.old) (result ∷ []) (answered self.new) }
    {
        self.send(datagram)
    }
}

/// The numbers of datagrams that a sink was passed. At each address the sent and the failed ones add up to all of them.
#[derive(Clone, Copy)]
pub struct SendCounts {
    /// The number of all datagrams.
    pub blocks: u64,
    /// The datagrams that the first address took.
    pub sent_a: u64,
    /// The datagrams that the second address took.
    pub sent_b: u64,
    /// The datagrams that failed at the first address.
    pub fault_a: u64,
    /// The datagrams that failed at the second address.
    pub fault_b: u64,
    ghost balanced_a: { sent_a + fault_a ≡ blocks },
    ghost balanced_b: { sent_b + fault_b ≡ blocks },
}

impl SendCounts {
    /// Returns the counts of a sink that was passed no datagram yet.
    pub fn new() -> SendCounts
        ensures { result.blocks ≡ 0 }
    {
        SendCounts {
            blocks: 0,
            sent_a: 0,
            sent_b: 0,
            fault_a: 0,
            fault_b: 0,
        }
    }

    /// Counts a datagram by its result. After 2^64 - 1 datagrams it counts no more.
    pub fn add(&mut self, answer: SendAnswer)
        ensures blocks { self.old.blocks + 1 < 2 ^ 64 → self.new.blocks ≡ self.old.blocks + 1 }
        ensures sent_a { self.old.blocks + 1 < 2 ^ 64
            → self.new.sent_a ≡ self.old.sent_a + (if answer.a then 1 else 0) }
        ensures sent_b { self.old.blocks + 1 < 2 ^ 64
            → self.new.sent_b ≡ self.old.sent_b + (if answer.b then 1 else 0) }
        ensures full { self.old.blocks + 1 ≡ 2 ^ 64 → self.new ≡ self.old }
    {
        // Nothing is counted from here on: single counters that stay at their greatest would not add up any more.
        if self.blocks == u64::MAX {
            return;
        }
        if answer.a {
            self.sent_a += 1;
        } else {
            self.fault_a += 1;
        }
        if answer.b {
            self.sent_b += 1;
        } else {
            self.fault_b += 1;
        }
        self.blocks += 1;
    }
}
