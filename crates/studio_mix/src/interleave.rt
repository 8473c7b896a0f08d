//! Copies the frames of one stream into the frames of all.
ghost use Rattle.std.specs.Prelude.{◌≡◌, ℕ, ◌+◌, ◌*◌, ◌<◌, ◌≤◌, ◌++◌, length, take, drop, All};
ghost use Rattle.gain_mix.specs.Mix.{Is24Bits};

/// Copies the frames of one stream into the frames of all streams, from channel `at` of each frame on.
pub(crate) fn lay_stream(
    frames: usize,
    channels: usize,
    values: &[i32],
    width: usize,
    at: usize,
    wide: &mut [i32],
)
    requires values { length values.now ≡ frames * channels }
    requires wide { length wide.old ≡ frames * width }
    requires within { at + channels ≤ width }
    requires in_24_bits { All Is24Bits values.now }
    requires wide_in_24_bits { All Is24Bits wide.old }
    ensures laid { (f : ℕ) → f < frames → take (at + channels) (drop (f * width) wide.new)
        ≡ take at (drop (f * width) wide.old) ++ take channels (drop (f * channels) values.now) }
    ensures in_24_bits { All Is24Bits wide.new }
{
    // One or two channels are copied sample by sample: for so few, a copy of a slice takes longer.
    if channels == 1 {
        lay_samples(frames, values, width, at, wide);
    } else if channels == 2 {
        lay_pairs(frames, values, width, at, wide);
    } else {
        lay_frames(frames, channels, values, width, at, wide);
    }
}

/// Copies the samples of a stream of one channel.
fn lay_samples(frames: usize, values: &[i32], width: usize, at: usize, wide: &mut [i32])
    requires values { length values.now ≡ frames }
    requires wide { length wide.old ≡ frames * width }
    requires within { at < width }
    requires in_24_bits { All Is24Bits values.now }
    requires wide_in_24_bits { All Is24Bits wide.old }
    ensures laid { (f : ℕ) → f < frames → take (at + 1) (drop (f * width) wide.new)
        ≡ take at (drop (f * width) wide.old) ++ take 1 (drop f values.now) }
    ensures in_24_bits { All Is24Bits wide.new }
{
    for frame in 0..frames {
        wide[frame * width + at] = values[frame];
    }
}

/// Copies the frames of a stream of two channels.
fn lay_pairs(frames: usize, values: &[i32], width: usize, at: usize, wide: &mut [i32])
    requires values { length values.now ≡ frames * 2 }
    requires wide { length wide.old ≡ frames * width }
    requires within { at + 2 ≤ width }
    requires in_24_bits { All Is24Bits values.now }
    requires wide_in_24_bits { All Is24Bits wide.old }
    ensures laid { (f : ℕ) → f < frames → take (at + 2) (drop (f * width) wide.new)
        ≡ take at (drop (f * width) wide.old) ++ take 2 (drop (f * 2) values.now) }
    ensures in_24_bits { All Is24Bits wide.new }
{
    for frame in 0..frames {
        let place = frame * width + at;
        wide[place] = values[frame * 2];
        wide[place + 1] = values[frame * 2 + 1];
    }
}

/// Copies the frames of a stream of several channels.
fn lay_frames(
    frames: usize,
    channels: usize,
    values: &[i32],
    width: usize,
    at: usize,
    wide: &mut [i32],
)
    requires values { length values.now ≡ frames * channels }
    requires wide { length wide.old ≡ frames * width }
    requires within { at + channels ≤ width }
    requires in_24_bits { All Is24Bits values.now }
    requires wide_in_24_bits { All Is24Bits wide.old }
    ensures laid { (f : ℕ) → f < frames → take (at + channels) (drop (f * width) wide.new)
        ≡ take at (drop (f * width) wide.old) ++ take channels (drop (f * channels) values.now) }
    ensures in_24_bits { All Is24Bits wide.new }
{
    for frame in 0..frames {
        let from = frame * channels;
        let to = frame * width + at;
        wide[to..to + channels].copy_from_slice(&values[from..from + channels]);
    }
}
