//! The change of gains that a line specifies.
ghost use Rattle.std.specs.Prelude.{◌≡◌, ◌⊎◌, ◌*◌, ◌+◌, ◌≤◌, ◌∷◌, [], true, length, Ok, Err, IfOk, IfErr};
ghost use Rattle.gain_mix.specs.Gain.{ins_of};
ghost use Rattle.gain_mix.specs.Matrix.{has_range};
ghost use Rattle.studio_run.specs.Fields.{fields_after, fields_of};
ghost use Rattle.studio_run.specs.Gains.{
  IsChange,
  all_gains,
  fields_said,
  is_channel,
  is_gain,
  is_time,
  one_gain,
  then_said,
};
ghost use Rattle.studio_run.specs.GainsNumbers.{numbers_of};
ghost use Rattle.studio_run.specs.declared.gains.fault.GainsFaultKind.TheVariants as kind;

use crate::gains::change::matrix_with_gain;
use crate::gains::fault::GainsFaultKind;
use crate::gains::field::numbers_in;
use crate::text_field::split_field;
use gain_mix::{Matrix, MatrixFault, Schedule};
use rtp_stream::MAX_TIME;
use std::alloc::{AllocError, Global};

/// The greatest size of a gain, 16 times the input.
const MAX_GAIN: u64 = 1_048_576;

/// Returns the change that a line specifies: its time, and the gains from then on.
pub(crate) fn read_change(
    alloc: Global,
    schedule: &Schedule,
    line: &[u8],
) -> Result<(i64, Matrix), GainsFaultKind>
    ensures fits { IfOk result (IsChange schedule.now) }
    ensures ok { IfOk result (λ change. fields_said schedule.now (fields_of line.now) ≡ Ok change) }
    ensures fault { IfErr result
        (λ e. (e ≡ kind.Memory) ⊎ (fields_said schedule.now (fields_of line.now) ≡ Err e)) }
{
    let (word, fields) = split_field(line);
    read_fields(alloc, schedule, word, fields)
}

/// Returns the change that a word and the fields after it specify.
fn read_fields(
    alloc: Global,
    schedule: &Schedule,
    word: &[u8],
    fields: Option<&[u8]>,
) -> Result<(i64, Matrix), GainsFaultKind>
    ensures fits { IfOk result (IsChange schedule.now) }
    ensures ok { IfOk result
        (λ change. fields_said schedule.now (word.now ∷ fields_after fields.entry) ≡ Ok change) }
    ensures fault { IfErr result (λ e. (e ≡ kind.Memory)
        ⊎ (fields_said schedule.now (word.now ∷ fields_after fields.entry) ≡ Err e)) }
{
    if word == b"gain".as_slice() {
        return read_one(alloc, schedule, fields);
    }
    if word == b"gains".as_slice() {
        return read_all(alloc, schedule, fields);
    }
    Err(GainsFaultKind::Word)
}

/// Reads the fields after the word `gain`: a time, an output, an input and a gain.
fn read_one(
    alloc: Global,
    schedule: &Schedule,
    fields: Option<&[u8]>,
) -> Result<(i64, Matrix), GainsFaultKind>
    ensures fits { IfOk result (IsChange schedule.now) }
    ensures ok { IfOk result
        (λ change. then_said (one_gain schedule.now) (numbers_of 4 (fields_after fields.entry)) ≡ Ok change) }
    ensures fault { IfErr result (λ e. (e ≡ kind.Memory)
        ⊎ (then_said (one_gain schedule.now) (numbers_of 4 (fields_after fields.entry)) ≡ Err e)) }
{
    match numbers_in(alloc, fields, 4) {
        Ok(numbers) => change_of_one(alloc, schedule, numbers.as_slice()),
        Err(kind) => Err(kind),
    }
}

/// Reads the fields after the word `gains`: a time, and the gains row by row.
fn read_all(
    alloc: Global,
    schedule: &Schedule,
    fields: Option<&[u8]>,
) -> Result<(i64, Matrix), GainsFaultKind>
    ensures fits { IfOk result (IsChange schedule.now) }
    ensures ok { IfOk result (λ change. then_said (all_gains schedule.now)
        (numbers_of (length schedule.now.first * ins_of schedule.now.first + 1) (fields_after fields.entry))
        ≡ Ok change) }
    ensures fault { IfErr result (λ e. (e ≡ kind.Memory) ⊎ (then_said (all_gains schedule.now)
        (numbers_of (length schedule.now.first * ins_of schedule.now.first + 1) (fields_after fields.entry))
        ≡ Err e)) }
{
    match numbers_in(alloc, fields, gain_count(schedule) + 1) {
        Ok(numbers) => change_of_all(alloc, schedule, numbers.as_slice()),
        Err(kind) => Err(kind),
    }
}

/// Returns the number of gains of each matrix.
fn gain_count(schedule: &Schedule) -> usize
    ensures count { result ≡ length schedule.now.first * ins_of schedule.now.first }
    ensures few { result ≤ 8192 }
{
    let first = schedule.first();
    first.gains().len()
}

/// Returns the change that the numbers after the word `gain` specify.
fn change_of_one(
    alloc: Global,
    schedule: &Schedule,
    numbers: &[i64],
) -> Result<(i64, Matrix), GainsFaultKind>
    ensures fits { IfOk result (IsChange schedule.now) }
    ensures ok { IfOk result (λ change. one_gain schedule.now numbers.now ≡ Ok change) }
    ensures fault { IfErr result (λ e. (e ≡ kind.Memory) ⊎ (one_gain schedule.now numbers.now ≡ Err e)) }
{
    match numbers {
        [at, output, input, gain] => one_change(alloc, schedule, *at, *output, *input, *gain),
        _ => Err(GainsFaultKind::Fields),
    }
}

/// Returns the change of one gain from a time on.
fn one_change(
    alloc: Global,
    schedule: &Schedule,
    at: i64,
    output: i64,
    input: i64,
    gain: i64,
) -> Result<(i64, Matrix), GainsFaultKind>
    ensures fits { IfOk result (IsChange schedule.now) }
    ensures ok { IfOk result (λ change. one_gain schedule.now (at ∷ output ∷ input ∷ gain ∷ []) ≡ Ok change) }
    ensures fault { IfErr result (λ e. (e ≡ kind.Memory)
        ⊎ (one_gain schedule.now (at ∷ output ∷ input ∷ gain ∷ []) ≡ Err e)) }
{
    if !is_time(at) {
        return Err(GainsFaultKind::Range);
    }
    if !is_channel(schedule.outs(), output) {
        return Err(GainsFaultKind::Range);
    }
    if !is_channel(schedule.ins(), input) {
        return Err(GainsFaultKind::Range);
    }
    if !is_gain(gain) {
        return Err(GainsFaultKind::Range);
    }
    let output = output.unsigned_abs() as usize;
    let input = input.unsigned_abs() as usize;
    match matrix_with_gain(alloc, schedule.at(at), output, input, gain as i32) {
        Ok(matrix) => Ok((at, matrix)),
        Err(_) => Err(GainsFaultKind::Memory),
    }
}

/// Returns the change that the numbers after the word `gains` specify.
fn change_of_all(
    alloc: Global,
    schedule: &Schedule,
    numbers: &[i64],
) -> Result<(i64, Matrix), GainsFaultKind>
    requires { length numbers.now ≡ length schedule.now.first * ins_of schedule.now.first + 1 }
    ensures fits { IfOk result (IsChange schedule.now) }
    ensures ok { IfOk result (λ change. all_gains schedule.now numbers.now ≡ Ok change) }
    ensures fault { IfErr result (λ e. (e ≡ kind.Memory) ⊎ (all_gains schedule.now numbers.now ≡ Err e)) }
{
    match numbers {
        [at, gains @ ..] => whole_change(alloc, schedule, *at, gains),
        _ => Err(GainsFaultKind::Fields),
    }
}

/// Returns the change of all gains from a time on.
fn whole_change(
    alloc: Global,
    schedule: &Schedule,
    at: i64,
    gains: &[i64],
) -> Result<(i64, Matrix), GainsFaultKind>
    requires { length gains.now ≡ length schedule.now.first * ins_of schedule.now.first }
    ensures fits { IfOk result (IsChange schedule.now) }
    ensures ok { IfOk result (λ change. all_gains schedule.now (at ∷ gains.now) ≡ Ok change) }
    ensures fault { IfErr result (λ e. (e ≡ kind.Memory) ⊎ (all_gains schedule.now (at ∷ gains.now) ≡ Err e)) }
{
    if !is_time(at) {
        return Err(GainsFaultKind::Range);
    }
    if !has_range(gains) {
        return Err(GainsFaultKind::Range);
    }
    let Ok(gains) = narrowed(alloc, gains) else {
        return Err(GainsFaultKind::Memory);
    };
    let first = schedule.first();
    match Matrix::new(alloc, first.outs(), first.ins(), gains.as_slice()) {
        Ok(matrix) => Ok((at, matrix)),
        Err(MatrixFault::Memory) => Err(GainsFaultKind::Memory),
        Err(_) => unreachable!(),
    }
}

/// Returns true if a time is from 0 to 2^60.
fn is_time(at: i64) -> bool
    ensures { result ≡ is_time at }
{
    0 <= at && at <= MAX_TIME
}

/// Returns true if a number is that of one of `count` channels.
fn is_channel(count: usize, number: i64) -> bool
    ensures { result ≡ is_channel count number }
{
    0 <= number && number.unsigned_abs() < count as u64
}

/// Returns true if a gain is from -1,048,576 to 1,048,576, which are factors of -16 and 16.
fn is_gain(gain: i64) -> bool
    ensures { result ≡ is_gain gain }
{
    gain.unsigned_abs() <= MAX_GAIN
}

/// Returns true if these gains are in their range.
fn has_range(gains: &[i64]) -> bool
    ensures { result ≡ has_range gains.now }
{
    gains.iter().all(|gain| is_gain(*gain))
}

/// Returns gains in 32 bits, which they fit since they are in their range.
fn narrowed(alloc: Global, gains: &[i64]) -> Result<Vec<i32>, AllocError>
    requires in_range { has_range gains.now ≡ true }
    ensures { IfOk result (λ narrow. narrow.items ≡ gains.now) }
{
    let mut narrow = Vec::with_capacity(alloc, gains.len())?;
    for gain in gains {
        narrow.push(*gain as i32)?;
    }
    Ok(narrow)
}
