//! The ticks below a strip, with their times in seconds.
use crate::draw::bars::{LEFT, PLOT_WIDTH};
use crate::draw::fmt_result;
use crate::reception::axis::Axis;
use std::alloc::AllocError;
use std::io::Write;

/// The greatest number of ticks behind the first.
const MAX_TICKS: u8 = 8;

/// The height of the ticks with their times.
pub(crate) const TICKS_HEIGHT: u32 = 22;

/// Appends a tick at each round time from the beginning of the axis on, with this time in seconds.
pub(crate) fn push_ticks(svg: &mut Vec<u8>, top: u32, axis: &Axis) -> Result<(), AllocError> {
    let micros = micros(axis.length());
    let step = step_of(micros);
    for number in 0..MAX_TICKS + 1 {
        let time = step.saturating_mul(u128::from(number));
        if time > micros {
            break;
        }
        push_tick(svg, top, time, micros)?;
    }
    Ok(())
}

/// Returns sampling instants at 48 kHz in microseconds, rounded down.
// In 128 bits: a clock reading of 2^60 has more microseconds than 64 bits hold.
fn micros(instants: u64) -> u128 {
    // 1,000,000 / 48,000 microseconds for each instant, in lowest terms.
    u128::from(instants) * 125 / 6
}

/// Returns the least step of 1, 2, 5, 10 and so on, in microseconds, with at most 8 ticks behind the first.
fn step_of(micros: u128) -> u128 {
    let mut ten: u128 = 1;
    for _ in 0..20 {
        for times in [1, 2, 5] {
            let step = ten.saturating_mul(times);
            if micros / step.max(1) <= u128::from(MAX_TICKS) {
                return step;
            }
        }
        ten = ten.saturating_mul(10);
    }
    ten
}

/// Appends a tick and its time.
fn push_tick(svg: &mut Vec<u8>, top: u32, time: u128, micros: u128) -> Result<(), AllocError> {
    let along = time.saturating_mul(u128::from(PLOT_WIDTH)) / micros.max(1);
    let x = LEFT.saturating_add(u32::try_from(along).unwrap_or(0));
    let (bottom, y) = (top.saturating_add(5), top.saturating_add(17));
    fmt_result(write!(
        svg,
        "<path class=\"tick\" d=\"M{x} {top}V{bottom}\"/><text class=\"soft middle\" x=\"{x}\" y=\"{y}\">"
    ))?;
    push_seconds(svg, time)?;
    svg.extend_from_slice(b" s</text>\n")
}

/// Appends a time in seconds, with as many places as it needs.
fn push_seconds(svg: &mut Vec<u8>, micros: u128) -> Result<(), AllocError> {
    let (whole, rest) = (micros / 1_000_000, micros % 1_000_000);
    if rest == 0 {
        return fmt_result(write!(svg, "{whole}"));
    }
    if rest % 1000 == 0 {
        let millis = rest / 1000;
        if millis % 100 == 0 {
            let tenths = millis / 100;
            return fmt_result(write!(svg, "{whole}.{tenths}"));
        }
        return fmt_result(write!(svg, "{whole}.{millis:03}"));
    }
    fmt_result(write!(svg, "{whole}.{rest:06}"))
}
