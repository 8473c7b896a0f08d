//! Counting the output samples that are saturated.
ghost use Rattle.std.specs.Prelude.{
  ◌≡◌,
  ℕ,
  ℤ,
  pos,
  true,
  false,
  ◌<◌,
  ◌≤◌,
  ◌*◌,
  ◌^◌,
  ◌⊎◌,
  ◌+ℤ◌,
  ◌≤ℤ◌,
  length,
  List,
  All,
  Some,
  slice_get,
};
ghost use Rattle.std.specs.Int.RustNames.{unsigned_abs};
ghost use Rattle.gain_mix.specs.Gain.{ins_of};
ghost use Rattle.gain_mix.specs.Changes.{matrix_at};
ghost use Rattle.gain_mix.specs.Mix.{Is24Bits, IsMixed, mixed_frame, output_sample, rounded_sum, saturated_sum};
ghost use Rattle.gain_mix.specs.Saturated.{AreAdded, is_saturated, is_saturated_sample, saturated_at, saturated_count};

use crate::live_schedule::LiveSchedule;
use crate::matrix::Matrix;
use crate::mix::{rounded, saturated, weighted_sum};
use crate::schedule::mix_span;

/// Returns true if no output sample can hold a sum, once the sum is rounded.
fn is_past(sum: i64, shift: u32) -> bool
    requires bounded { unsigned_abs sum ≤ 2 ^ 53 }
    requires shift { (shift ≡ 16) ⊎ (shift ≡ 24) }
    ensures { result ≡ is_saturated shift (rounded_sum shift sum) }
{
    let whole = rounded(sum, shift);
    i64::from(saturated(whole, shift)) != whole
}

/// Returns true if an output sample is the greatest or the least that there is. Any other sample isn't saturated.
fn is_limit(sample: i32, shift: u32) -> bool
    requires shift { (shift ≡ 16) ⊎ (shift ≡ 24) }
    ensures { result ≡ false → (sum : ℤ) → sample ≡ saturated_sum shift sum → is_saturated shift sum ≡ false }
{
    if shift == 16 {
        sample == 8_388_607 || sample == -8_388_608
    } else {
        sample == 32_767 || sample == -32_768
    }
}

/// Returns true if an output's sample of these inputs is saturated.
fn is_saturated(matrix: &Matrix, ins: &[i32], output: usize, sample: i32, shift: u32) -> bool
    requires ins_len { length ins.now ≡ ins_of matrix.now }
    requires within { output < length matrix.now }
    requires in_24_bits { All Is24Bits ins.now }
    requires shift { (shift ≡ 16) ⊎ (shift ≡ 24) }
    requires mixed { (row : List ℤ) → slice_get matrix.now output ≡ Some row
        → sample ≡ output_sample shift ins.now row }
    ensures { (row : List ℤ) → slice_get matrix.now output ≡ Some row → result ≡ is_saturated_sample shift ins.now row }
{
    // A sample at a limit may be exactly its rounded sum, so the sum is made again. Other samples need no sum.
    is_limit(sample, shift) && is_past(weighted_sum(matrix.row(output), ins), shift)
}

/// Adds one to the count of each output whose sample of a frame is saturated.
fn count_frame(matrix: &Matrix, ins: &[i32], outs: &[i32], shift: u32, counts: &mut [u64])
    requires ins_len { length ins.now ≡ ins_of matrix.now }
    requires counts_len { length counts.old ≡ length matrix.now }
    requires in_24_bits { All Is24Bits ins.now }
    requires shift { (shift ≡ 16) ⊎ (shift ≡ 24) }
    requires mixed { outs.now ≡ mixed_frame matrix.now ins.now shift }
    ensures { AreAdded counts.old counts.new (saturated_at matrix.now ins.now shift) }
{
    for output in 0..counts.len() {
        if is_saturated(matrix, ins, output, outs[output], shift) {
            // A count may be any number before, and stays at the greatest instead of wrapping.
            counts[output] = counts[output].saturating_add(1);
        }
    }
}

/// Adds to each output's count the number of its samples that are saturated, of inputs and outputs that `mix_span`
/// mixed.
fn count_saturated(
    schedule: &LiveSchedule,
    t: i64,
    ins: &[i32],
    outs: &[i32],
    frames: usize,
    shift: u32,
    counts: &mut [u64],
)
    requires not_early { pos 0 ≤ℤ t }
    requires not_late { t ≤ℤ pos (2 ^ 62) }
    requires ins_len { length ins.now ≡ frames * ins_of schedule.now.first }
    requires outs_len { length outs.now ≡ frames * length schedule.now.first }
    requires counts_len { length counts.old ≡ length schedule.now.first }
    requires in_24_bits { All Is24Bits ins.now }
    requires shift { (shift ≡ 16) ⊎ (shift ≡ 24) }
    requires mixed { IsMixed (λ f. matrix_at schedule.now (t +ℤ pos f)) ins.now outs.now frames shift }
    ensures { AreAdded counts.old counts.new
        (λ output. saturated_count (λ f. matrix_at schedule.now (t +ℤ pos f)) ins.now shift output frames) }
{
    let width = schedule.ins();
    let height = schedule.outs();
    for frame in 0..frames {
        let matrix = schedule.at(t + frame as i64);
        let from = frame * width;
        let to = frame * height;
        count_frame(
            matrix,
            &ins[from..from + width],
            &outs[to..to + height],
            shift,
            counts,
        );
    }
}

/// Mixes as `mix_span` does, and adds to each output's count the number of its samples that were saturated.
pub fn mix_counted(
    schedule: &LiveSchedule,
    t: i64,
    ins: &[i32],
    outs: &mut [i32],
    frames: usize,
    shift: u32,
    counts: &mut [u64],
)
    requires not_early { pos 0 ≤ℤ t }
    requires not_late { t ≤ℤ pos (2 ^ 62) }
    requires ins_len { length ins.now ≡ frames * ins_of schedule.now.first }
    requires outs_len { length outs.old ≡ frames * length schedule.now.first }
    requires counts_len { length counts.old ≡ length schedule.now.first }
    requires in_24_bits { All Is24Bits ins.now }
    requires shift { (shift ≡ 16) ⊎ (shift ≡ 24) }
    ensures mixed { IsMixed (λ f. matrix_at schedule.now (t +ℤ pos f)) ins.now outs.new frames shift }
    ensures outs { (u : ℤ) → length (matrix_at schedule.now u) ≡ length schedule.now.first }
    ensures ins { (u : ℤ) → ins_of (matrix_at schedule.now u) ≡ ins_of schedule.now.first }
    ensures counted { AreAdded counts.old counts.new
        (λ output. saturated_count (λ f. matrix_at schedule.now (t +ℤ pos f)) ins.now shift output frames) }
{
    mix_span(schedule, t, ins, outs, frames, shift);
    count_saturated(schedule, t, ins, outs, frames, shift, counts);
}
