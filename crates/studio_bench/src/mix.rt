//! The benchmark of mixing blocks: inputs into outputs by a matrix of gains. `bench/mix.c` does the same work.
ghost use Rattle.std.specs.Prelude.{IsTrue, All};
ghost use Rattle.gain_mix.specs.Mix.{Is24Bits};

use anyhow::bail;
use gain_mix::{Matrix, mix_block};
use std::alloc::Global;
use std::rt::Clock;
use std::time::Instant;

/// The sampling instants of a block.
const FRAMES: usize = 48;

/// The number of blocks that are mixed between two clock readings.
const BLOCKS: u32 = 500;

/// The numbers of outputs and inputs that are timed, those of bench/mix.c. The first pair is compared with C.
const SHAPES: [(usize, usize); 5] = [(8, 128), (8, 64), (4, 128), (1, 128), (8, 1024)];

/// Prints a line for each shape: its outputs, its inputs, the frames a second, and a sum of the outputs.
pub fn time_shapes(rt: &(impl Clock + Print), alloc: Global) -> anyhow::Result<()> {
    for (outs, ins) in &SHAPES {
        time_shape(rt, alloc, *outs, *ins)?;
    }
    Ok(())
}

/// Prints the line of a shape.
fn time_shape(
    rt: &(impl Clock + Print),
    alloc: Global,
    outs: usize,
    ins: usize,
) -> anyhow::Result<()> {
    let Some((rate, check)) = rate_of_shape(rt, alloc, outs, ins) else {
        bail!("the block does not fit the matrix");
    };
    println!(rt; "{outs} {ins} {rate} {check}")?;
    Ok(())
}

/// Returns the frames a second, and a sum of the outputs. None if an allocation or a clock fails.
fn rate_of_shape(
    clock: &impl Clock,
    alloc: Global,
    outs: usize,
    ins: usize,
) -> Option<(u128, i64)> {
    let matrix = noisy_matrix(alloc, outs, ins)?;
    let values = noise(alloc, FRAMES.saturating_mul(ins), 8, -8_388_608)?;
    let mut samples = noise(alloc, FRAMES.saturating_mul(outs), 8, 0)?;
    let rate = rate_of(clock, &matrix, &values, &mut samples)?;
    Some((rate, check_of(&samples)))
}

/// Returns a matrix of pseudorandom gains.
fn noisy_matrix(alloc: Global, outs: usize, ins: usize) -> Option<Matrix> {
    let gains = noise(alloc, outs.saturating_mul(ins), 11, -1_048_576)?;
    Matrix::new(alloc, outs, ins, &gains).ok()
}

/// Returns a sum of samples that depends on their order.
fn check_of(samples: &[i32]) -> i64 {
    let mut check: i64 = 0;
    for sample in samples {
        check = check.wrapping_mul(31).wrapping_add(i64::from(*sample));
    }
    check
}

/// Returns `count` pseudorandom numbers from `least` on: the top bits that are left after a shift.
fn noise(alloc: Global, count: usize, shift: u32, least: i32) -> Option<Vec<i32>> {
    let mut numbers = vec![in alloc; 0; count].ok()?;
    let mut seed: u32 = 1;
    for number in numbers.as_mut_slice().iter_mut() {
        // A linear congruential generator, whose top bits are its best. bench/mix.c has the same one.
        seed = seed.wrapping_mul(1_664_525).wrapping_add(1_013_904_223);
        *number = least.wrapping_add(seed.wrapping_shr(shift).cast_signed());
    }
    Some(numbers)
}

/// Mixes the block many times, for output as L16, and returns the frames a second.
fn rate_of(
    clock: &impl Clock,
    matrix: &Matrix,
    values: &[i32],
    samples: &mut [i32],
) -> Option<u128> {
    // Never false, but `mix_block` requires these.
    let fits = FRAMES.checked_mul(matrix.ins()) == Some(values.len())
        && FRAMES.checked_mul(matrix.outs()) == Some(samples.len());
    if !fits || !are_24_bits(values) {
        return None;
    }
    let start = Instant::now(clock).ok()?;
    for _ in 0..BLOCKS {
        mix_block(matrix, values, samples, FRAMES, 24);
    }
    // `max` shows that the divisor is not 0.
    let nanos = start.elapsed(clock).ok()?.as_nanos().max(1);
    Some(u128::from(BLOCKS) * FRAMES as u128 * 1_000_000_000 / nanos)
}

/// Returns true if all values have 24 bits.
fn are_24_bits(values: &[i32]) -> bool
    ensures { IsTrue result → All Is24Bits values.now }
{
    values
        .iter()
        .all(|value| -8_388_608 <= *value && *value <= 8_388_607)
}
