//! Gains as levels in decibels, as a person reads them.
use std::io;
use std::io::Write;

/// The gain 1 while a level is looked for: 2^60.
// With these units no gain is so near to a bound between two levels that rounding in the steps below changes its level.
const ONE: u128 = 1_152_921_504_606_846_976;

/// The number of these units in a unit of gains, 1/65,536.
const UNITS: u128 = 17_592_186_044_416;

/// The gain of half a tenth of a decibel, 10^(1/400).
const HALF_TENTH: u128 = 1_159_577_393_089_001_151;

/// The gain of a tenth of a decibel, 10^(1/200).
const TENTH: u128 = 1_166_271_706_434_695_346;

/// The number of tenths of a decibel in a factor of 10.
const TENTHS_IN_TEN: i32 = 200;

/// Writes a gain as a level: `-6.0 dB` for 32768, `off` for 0, and with `inverted` for a negative gain.
pub(crate) fn write_level<W: Write>(gain: i32, output: &mut W) -> io::Result<()> {
    if gain == 0 {
        return write!(output, "off");
    }
    let tenths = tenths_of(gain.unsigned_abs());
    let sign = if tenths < 0 { "-" } else { "" };
    let tenths = tenths.unsigned_abs();
    let (whole, rest) = (tenths / 10, tenths % 10);
    write!(output, "{sign}{whole}.{rest} dB")?;
    if gain < 0 {
        write!(output, " inverted")?;
    }
    Ok(())
}

/// Returns the level of an amount of 1/65,536 in tenths of a decibel, rounded.
// In whole numbers, so that the text is the same on every machine.
fn tenths_of(amount: u32) -> i32 {
    let (scaled, tens) = from_one_to_ten(u128::from(amount).saturating_mul(UNITS));
    tens.saturating_mul(TENTHS_IN_TEN)
        .saturating_add(tenths_above_one(scaled))
}

/// Returns an amount as one from 1 to less than 10, with the number of tens by which the amount is greater.
// The least gain, 1/65,536, is more than 10^-5, and the greatest one, 16, less than 10^2.
fn from_one_to_ten(amount: u128) -> (u128, i32) {
    let mut scaled = amount;
    let mut tens = 0i32;
    for _ in 0..5 {
        if scaled < ONE {
            scaled = scaled.saturating_mul(10);
            tens = tens.saturating_sub(1);
        }
    }
    if scaled >= ONE.saturating_mul(10) {
        return (scaled / 10, tens.saturating_add(1));
    }
    (scaled, tens)
}

/// Returns the level of an amount from 1 to less than 10 in tenths of a decibel, rounded.
fn tenths_above_one(amount: u128) -> i32 {
    let mut tenths = 0i32;
    let mut least = HALF_TENTH;
    for _ in 0..TENTHS_IN_TEN {
        if amount < least {
            return tenths;
        }
        tenths = tenths.saturating_add(1);
        least = least.saturating_mul(TENTH) / ONE;
    }
    tenths
}
