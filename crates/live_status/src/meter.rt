//! The meter of the mix's peaks.
ghost use Rattle.std.specs.Prelude.{◌≡◌, ◌≤◌, min};

use rtp_stats::{MAX_CHANNELS, raise_peaks};
use rtp_wire::{Enc, HEADER_OCTETS};
use std::sync::atomic::{AtomicU32, Ordering};

/// A meter that measures the datagrams of the mix as they are sent, and that another thread may read.
// Peaks are atomics and not behind a lock, so the thread that sends never waits for the one that reads.
#[derive(Drop)]
pub struct Meter {
    enc: Enc,
    channels: usize,
    /// The peak of each channel since it was last read.
    peaks: [AtomicU32; MAX_CHANNELS],
    ghost few: { channels ≤ 8 },
}

impl Meter {
    /// Returns the meter of a mix in this encoding with this many channels. Channels past the eighth are ignored.
    pub fn new(enc: Enc, channels: u8) -> Meter
        ensures { result.channels ≡ min channels 8 }
    {
        // Each peak is written out: an atomic is not `Copy`, as `[AtomicU32::new(0); 8]` would need.
        Meter {
            enc,
            channels: usize::from(channels).min(MAX_CHANNELS),
            peaks: [
                AtomicU32::new(0),
                AtomicU32::new(0),
                AtomicU32::new(0),
                AtomicU32::new(0),
                AtomicU32::new(0),
                AtomicU32::new(0),
                AtomicU32::new(0),
                AtomicU32::new(0),
            ],
        }
    }

    /// Raises the peaks by the samples of a datagram of the mix. Ignores one that is shorter than a header.
    pub fn measure(&self, datagram: &[u8]) {
        // A header of the mix has no CSRC list and no extension, so the samples follow its fixed part.
        if datagram.len() < HEADER_OCTETS || self.channels == 0 {
            return;
        }
        // Collected here first, so that there is one atomic operation for each channel and not for each sample.
        let mut peaks = [0u32; MAX_CHANNELS];
        raise_peaks(
            &mut peaks[..self.channels],
            self.enc,
            &datagram[HEADER_OCTETS..],
        );
        for (channel, peak) in self.peaks.iter().zip(peaks) {
            channel.fetch_max(peak, Ordering::SeqCst);
        }
    }

    /// Returns each channel's peak since it was last read, and sets the peaks to 0.
    pub(crate) fn take_peaks(&self) -> [u32; MAX_CHANNELS] {
        let mut taken = [0u32; MAX_CHANNELS];
        for (peak, channel) in taken.iter_mut().zip(self.peaks.iter()) {
            *peak = channel.swap(0, Ordering::SeqCst);
        }
        taken
    }
}
