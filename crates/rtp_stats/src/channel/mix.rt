//! The channel that reports the saturated samples and the peaks of the mix.
ghost use Rattle.std.specs.Prelude.{◌≡◌, min, IfOk};
ghost use Rattle.rtrb.specs.Ring.{SameConsumer, SameProducer};
ghost use Rattle.rtp_stats.specs.Channel.{IsFreshPair, IsNewest};
ghost use Rattle.rtp_stats.specs.Channels.{AreRaised, TellsMix, no_peaks};

use crate::channel::mix_sender::{MAX_CHANNELS, MixStatsSender};
use crate::channel::{take_newest, try_send};
use crate::peaks::raise_peaks;
use crate::stats::MixStats;
use rtp_wire::{Enc, HEADER_OCTETS};
use rtrb::{Consumer, RingBuffer};
use std::alloc::{AllocError, Global};

/// The receiver of the statistics of the mix.
#[derive(Drop)]
pub struct MixStatsReceiver {
    ring: Consumer<MixStats>,
}

/// Opens the channel for a mix of this many channels. At most the first 8 are reported.
///
/// Allocates all memory of both ends. Returns `AllocError` if that fails.
// One place is enough: the peaks stay with the sender until the place is free, so no peak is lost.
pub fn mix_stats_channel(
    alloc: Global,
    enc: Enc,
    channels: u8,
) -> Result<(MixStatsSender, MixStatsReceiver), AllocError>
    ensures pair { IfOk result (λ ends. IsFreshPair 1 ends.0.ring ends.1.ring) }
    ensures enc { IfOk result (λ ends. ends.0.enc ≡ enc) }
    ensures channels { IfOk result (λ ends. ends.0.channels ≡ min channels 8) }
    ensures peaks { IfOk result (λ ends. ends.0.peaks ≡ no_peaks) }
{
    let (producer, consumer) = RingBuffer::new(alloc, 1)?;
    let sender = MixStatsSender {
        enc,
        channels: usize::from(channels).min(MAX_CHANNELS),
        peaks: [0; MAX_CHANNELS],
        ring: producer,
    };
    Ok((sender, MixStatsReceiver { ring: consumer }))
}

impl MixStatsSender {
    /// Sends the counts of saturated samples and the peaks, with those of the datagram's samples, for the first 8
    /// channels. If the receiver did not take the last ones, it sends nothing and keeps the peaks for the next call.
    pub fn send(&mut self, saturated: &[u64], datagram: &[u8])
        ensures told { TellsMix saturated.now datagram.now self.old self.new }
        ensures ring { SameProducer self.old.ring self.new.ring }
        ensures enc { self.new.enc ≡ self.old.enc }
        ensures channels { self.new.channels ≡ self.old.channels }
    {
        self.peaks = self.raised(datagram);
        // The peaks start again only once they were sent: a peak between two looks of the receiver is never lost.
        if try_send(&mut self.ring, MixStats::new(saturated, self.peaks)) {
            self.peaks = [0; MAX_CHANNELS];
        }
    }

    /// Returns the peaks, raised by the samples of a datagram.
    fn raised(&self, datagram: &[u8]) -> [u32; MAX_CHANNELS]
        ensures { AreRaised self.now.enc self.now.channels datagram.now self.now.peaks result }
    {
        let mut peaks = self.peaks;
        // A header of the mix has no CSRC list and no extension, so the samples follow its fixed part.
        if self.channels == 0 || datagram.len() < HEADER_OCTETS {
            return peaks;
        }
        raise_peaks(
            &mut peaks[..self.channels],
            self.enc,
            &datagram[HEADER_OCTETS..],
        );
        peaks
    }
}

impl MixStatsReceiver {
    /// Returns the statistics that were sent since the last call; `None` if none were. They are of the first datagram
    /// of the mix after that call.
    pub fn latest(&mut self) -> Option<MixStats>
        ensures newest { IsNewest 1 result self.old.ring self.new.ring }
        ensures ring { SameConsumer self.old.ring self.new.ring }
    {
        take_newest(&mut self.ring, 1)
    }
}
