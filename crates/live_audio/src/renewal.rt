//! The times at which the sizes in a file's header are renewed.
ghost use Rattle.std.specs.Prelude.{◌≡◌, ◌-◌, ◌*◌, nat_le};
ghost use Rattle.wav_file.specs.Header.{frame_length};

use wav_file::WavFormat;

/// The number of sampling instants in a second.
const SECOND: u64 = 48_000;

/// Returns true if the sizes of a file are to be renewed: a second of audio, or more, came since they were set for
/// `sized` octets of data. The file has `count` now.
// By the audio and not by a clock: the mix has 48,000 sampling instants a second, and the file a known state at each.
pub fn is_renewal_due(format: WavFormat, count: u64, sized: u64) -> bool
    ensures { result ≡ nat_le (48000 * frame_length format) (count - sized) }
{
    count.saturating_sub(sized) >= SECOND * u64::from(format.frame_len())
}
