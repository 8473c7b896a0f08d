//! Output samples: gains times inputs, rounded half up and saturated once.
ghost use Rattle.std.specs.Prelude.{◌≡◌, ℤ, pos, true, ◌<◌, ◌≤◌, ◌+◌, ◌*◌, ◌^◌, ◌⊎◌, ◌+ℤ◌, ◌*ℤ◌, length, All};
ghost use Rattle.std.specs.Int.RustNames.{unsigned_abs};
ghost use Rattle.gain_mix.specs.Four.{AreRows, AreSumsTo, IsSumTo, AreWeighted, AreBounded, with_four};
ghost use Rattle.gain_mix.specs.Gain.{IsGain, IsRow, ins_of};
ghost use Rattle.gain_mix.specs.Mix.{Is24Bits, IsWeighted, HasMixed, rounded_sum, saturated_sum, mixed_frame, IsMixed};

use crate::four_rows::{FourRows, FourSums};
use crate::matrix::Matrix;

/// Returns the sum with one more input.
#[inline(always)]
fn add_input(sum: i64, gain: i64, value: i32) -> i64
    requires bounded { unsigned_abs sum ≤ 2 ^ 53 }
    requires in_range { IsGain gain }
    requires in_24_bits { Is24Bits value }
    ensures { result ≡ sum +ℤ (gain *ℤ value) }
{
    // The cast says that both factors have 32 bits. Processors compute many such products at once, but not products of
    // factors of 64 bits.
    sum + i64::from(gain as i32) * i64::from(value)
}

/// Returns the sum over the inputs so far, with one more input.
// A function of its own, since the four sums of `add_to_four` then cost a quarter of the proof.
#[inline(always)]
fn add_next(sum: i64, gains: &[i64], input: usize, values: &[i32]) -> i64
    requires row { IsRow (length values.now) gains.now }
    requires within { input < length values.now }
    requires few { length values.now ≤ 1024 }
    requires in_24_bits { All Is24Bits values.now }
    requires so_far { IsSumTo gains.now values.now input sum }
    ensures { IsSumTo gains.now values.now (input + 1) result }
{
    add_input(sum, gains[input], values[input])
}

/// Returns the sum over all inputs of gain times value.
pub(crate) fn weighted_sum(gains: &[i64], values: &[i32]) -> i64
    requires row { IsRow (length values.now) gains.now }
    requires few { length values.now ≤ 1024 }
    requires in_24_bits { All Is24Bits values.now }
    ensures { IsWeighted gains.now values.now result }
{
    let mut sum: i64 = 0;
    // By index, here and below, since contracts and invariants say up to which input a sum goes.
    for input in 0..values.len() {
        sum = add_next(sum, gains, input, values);
    }
    sum
}

/// Returns the sums of four outputs, by one pass over the inputs.
fn weigh_four(rows: &FourRows<'_>, values: &[i32]) -> FourSums
    requires rows { AreRows (length values.now) rows.now }
    requires few { length values.now ≤ 1024 }
    requires in_24_bits { All Is24Bits values.now }
    ensures { AreWeighted rows.now values.now result }
{
    let mut sums = FourSums::NONE;
    for input in 0..values.len() {
        sums = add_to_four(sums, rows, input, values);
    }
    sums
}

/// Returns the sums of eight outputs, by one pass over the inputs.
fn weigh_eight(low: &FourRows<'_>, high: &FourRows<'_>, values: &[i32]) -> (FourSums, FourSums)
    requires low { AreRows (length values.now) low.now }
    requires high { AreRows (length values.now) high.now }
    requires few { length values.now ≤ 1024 }
    requires in_24_bits { All Is24Bits values.now }
    ensures low { AreWeighted low.now values.now result.0 }
    ensures high { AreWeighted high.now values.now result.1 }
{
    let mut low_sums = FourSums::NONE;
    let mut high_sums = FourSums::NONE;
    for input in 0..values.len() {
        low_sums = add_to_four(low_sums, low, input, values);
        high_sums = add_to_four(high_sums, high, input, values);
    }
    (low_sums, high_sums)
}

/// Returns the sums of four outputs with one more input.
#[inline(always)]
fn add_to_four(sums: FourSums, rows: &FourRows<'_>, input: usize, values: &[i32]) -> FourSums
    requires rows { AreRows (length values.now) rows.now }
    requires within { input < length values.now }
    requires few { length values.now ≤ 1024 }
    requires in_24_bits { All Is24Bits values.now }
    requires so_far { AreSumsTo rows.now values.now input sums }
    ensures { AreSumsTo rows.now values.now (input + 1) result }
{
    FourSums {
        first: add_next(sums.first, rows.first, input, values),
        second: add_next(sums.second, rows.second, input, values),
        third: add_next(sums.third, rows.third, input, values),
        fourth: add_next(sums.fourth, rows.fourth, input, values),
    }
}

/// Returns a sum in units of output samples, rounded half up.
#[inline(always)]
pub(crate) fn rounded(sum: i64, shift: u32) -> i64
    requires bounded { unsigned_abs sum ≤ 2 ^ 53 }
    requires shift { (shift ≡ 16) ⊎ (shift ≡ 24) }
    ensures { result ≡ rounded_sum shift sum }
{
    // Half a unit is added, and the shift rounds down. Gains are in units of 2^-16; for L16 eight bits more are
    // dropped.
    if shift == 16 {
        (sum + 32_768) >> 16
    } else {
        (sum + 8_388_608) >> 24
    }
}

/// Returns the output sample that is nearest to a rounded sum.
#[inline(always)]
pub(crate) fn saturated(sum: i64, shift: u32) -> i32
    requires shift { (shift ≡ 16) ⊎ (shift ≡ 24) }
    ensures { result ≡ saturated_sum shift sum }
{
    // A shift of 16 means L24 output, one of 24 L16 output.
    if shift == 16 {
        sum.clamp(-8_388_608, 8_388_607) as i32
    } else {
        sum.clamp(-32_768, 32_767) as i32
    }
}

/// Returns the output sample of a sum: rounded half up, then saturated.
fn sample_of(sum: i64, shift: u32) -> i32
    requires bounded { unsigned_abs sum ≤ 2 ^ 53 }
    requires shift { (shift ≡ 16) ⊎ (shift ≡ 24) }
    ensures { result ≡ saturated_sum shift (rounded_sum shift sum) }
{
    saturated(rounded(sum, shift), shift)
}

/// Returns true if all values are 0.
pub(crate) fn is_silent(values: &[i32]) -> bool
    ensures { result ≡ true → All (λ (value : ℤ). value ≡ pos 0) values.now }
{
    values.iter().all(|value| *value == 0)
}

/// Mixes the inputs of one sampling instant, samples of 24 bits, into its outputs.
///
/// The shift is 16 for L24 output and 24 for L16 output.
pub fn mix_frame(matrix: &Matrix, ins: &[i32], outs: &mut [i32], shift: u32)
    requires ins_len { length ins.now ≡ ins_of matrix.now }
    requires outs_len { length outs.old ≡ length matrix.now }
    requires in_24_bits { All Is24Bits ins.now }
    requires shift { (shift ≡ 16) ⊎ (shift ≡ 24) }
    ensures { outs.new ≡ mixed_frame matrix.now ins.now shift }
{
    let count = outs.len();
    let mut output = 0;
    // As many outputs as possible are mixed by one pass over the inputs.
    while 8 <= count - output {
        mix_eight(matrix, ins, outs, output, shift);
        output += 8;
    }
    while 4 <= count - output {
        mix_four(matrix, ins, outs, output, shift);
        output += 4;
    }
    while output < count {
        mix_one(matrix, ins, outs, output, shift);
        output += 1;
    }
}

/// Mixes eight outputs from `output` on; those before it are mixed.
fn mix_eight(matrix: &Matrix, ins: &[i32], outs: &mut [i32], output: usize, shift: u32)
    requires ins_len { length ins.now ≡ ins_of matrix.now }
    requires within { output + 8 ≤ length matrix.now }
    requires in_24_bits { All Is24Bits ins.now }
    requires shift { (shift ≡ 16) ⊎ (shift ≡ 24) }
    requires before { HasMixed matrix.now ins.now shift output outs.old }
    ensures { HasMixed matrix.now ins.now shift (output + 8) outs.new }
{
    let low = matrix.four_rows(output);
    let high = matrix.four_rows(output + 4);
    let (low_sums, high_sums) = weigh_eight(&low, &high, ins);
    put_four(low_sums, outs, output, shift);
    put_four(high_sums, outs, output + 4, shift);
}

/// Mixes four outputs from `output` on; those before it are mixed.
fn mix_four(matrix: &Matrix, ins: &[i32], outs: &mut [i32], output: usize, shift: u32)
    requires ins_len { length ins.now ≡ ins_of matrix.now }
    requires within { output + 4 ≤ length matrix.now }
    requires in_24_bits { All Is24Bits ins.now }
    requires shift { (shift ≡ 16) ⊎ (shift ≡ 24) }
    requires before { HasMixed matrix.now ins.now shift output outs.old }
    ensures { HasMixed matrix.now ins.now shift (output + 4) outs.new }
{
    let rows = matrix.four_rows(output);
    put_four(weigh_four(&rows, ins), outs, output, shift);
}

/// Puts the samples of four sums in their places, from `output` on.
#[inline(always)]
fn put_four(sums: FourSums, outs: &mut [i32], output: usize, shift: u32)
    requires within { output + 4 ≤ length outs.old }
    requires bounded { AreBounded sums }
    requires shift { (shift ≡ 16) ⊎ (shift ≡ 24) }
    ensures { outs.new ≡ with_four shift sums output outs.old }
{
    outs[output] = sample_of(sums.first, shift);
    outs[output + 1] = sample_of(sums.second, shift);
    outs[output + 2] = sample_of(sums.third, shift);
    outs[output + 3] = sample_of(sums.fourth, shift);
}

/// Mixes the output `output`; those before it are mixed.
fn mix_one(matrix: &Matrix, ins: &[i32], outs: &mut [i32], output: usize, shift: u32)
    requires ins_len { length ins.now ≡ ins_of matrix.now }
    requires within { output < length matrix.now }
    requires in_24_bits { All Is24Bits ins.now }
    requires shift { (shift ≡ 16) ⊎ (shift ≡ 24) }
    requires before { HasMixed matrix.now ins.now shift output outs.old }
    ensures { HasMixed matrix.now ins.now shift (output + 1) outs.new }
{
    outs[output] = sample_of(weighted_sum(matrix.row(output), ins), shift);
}

/// Mixes the inputs of `frames` sampling instants, samples of 24 bits, frame by frame.
///
/// The shift is 16 for L24 output and 24 for L16 output.
pub fn mix_block(matrix: &Matrix, ins: &[i32], outs: &mut [i32], frames: usize, shift: u32)
    requires ins_len { length ins.now ≡ frames * ins_of matrix.now }
    requires outs_len { length outs.old ≡ frames * length matrix.now }
    requires in_24_bits { All Is24Bits ins.now }
    requires shift { (shift ≡ 16) ⊎ (shift ≡ 24) }
    ensures { IsMixed (λ _. matrix.now) ins.now outs.new frames shift }
{
    let width = matrix.ins();
    let height = matrix.outs();
    for frame in 0..frames {
        let from = frame * width;
        let to = frame * height;
        mix_frame(
            matrix,
            &ins[from..from + width],
            &mut outs[to..to + height],
            shift,
        );
    }
}
