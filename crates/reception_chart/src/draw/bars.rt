//! Bars side by side.
use crate::draw::fmt_result;
use std::alloc::AllocError;
use std::io::Write;

/// The place at which bars begin.
pub(crate) const LEFT: u32 = 110;

/// The width of all bars together.
pub(crate) const PLOT_WIDTH: u32 = 880;

/// The greatest height of a bar, in units.
pub(crate) const UNITS: u64 = 12;

/// Returns the height of a bar for `count` of `all`, in units: 0 if there are none, else at least `least`.
pub(crate) fn height_of(count: u64, all: u64, least: u64) -> u8 {
    if count == 0 {
        return 0;
    }
    let part = count.min(all).saturating_mul(UNITS).div_ceil(all.max(1));
    part.max(least).min(UNITS) as u8
}

/// Appends bars of these heights over the whole width, on their background. Neighbours of the same height are one bar.
pub(crate) fn push_bars(
    svg: &mut Vec<u8>,
    class: &str,
    y: u32,
    height: u32,
    heights: &[u8],
) -> Result<(), AllocError> {
    // A nested `svg` stretches a bar's width of 1 and its units to the plot, so that coordinates are whole numbers.
    let count = heights.len();
    fmt_result(write!(
        svg,
        "<rect class=\"ground\" x=\"{LEFT}\" y=\"{y}\" width=\"{PLOT_WIDTH}\" height=\"{height}\"/>\n\
        <svg x=\"{LEFT}\" y=\"{y}\" width=\"{PLOT_WIDTH}\" height=\"{height}\" viewBox=\"0 0 {count} {UNITS}\" \
        preserveAspectRatio=\"none\"><path class=\"bars {class}\" d=\""
    ))?;
    push_runs(svg, heights)?;
    svg.extend_from_slice(b"\"/></svg>\n")
}

/// Appends the outline of each run of bars of the same height.
fn push_runs(svg: &mut Vec<u8>, heights: &[u8]) -> Result<(), AllocError> {
    let mut from = 0;
    for place in 0..heights.len() {
        let height = heights[place];
        let last = match heights.get(place + 1) {
            Some(next) => *next != height,
            None => true,
        };
        if last {
            push_run(svg, from, place + 1, height)?;
            from = place + 1;
        }
    }
    Ok(())
}

/// Appends the outline of the bars from one place to another.
fn push_run(svg: &mut Vec<u8>, from: usize, to: usize, height: u8) -> Result<(), AllocError> {
    if height == 0 {
        return Ok(());
    }
    let top = UNITS.saturating_sub(u64::from(height));
    let width = to.saturating_sub(from);
    fmt_result(write!(svg, "M{from} {top}h{width}v{height}h-{width}z"))
}
