//! The strip of a stream: a row for each kind, over media time.
ghost use Rattle.std.specs.Prelude.{◌<◌};

use crate::draw::bars::{LEFT, PLOT_WIDTH, UNITS, height_of, push_bars};
use crate::draw::{fmt_result, push_text};
use crate::reception::bins::{Bins, ROWS};
use crate::reception::{DOUBLE_ROW, LATE_ROW, LOST_ROW, REFUSED_ROW, RESTART_ROW};
use std::alloc::{AllocError, Global};
use std::io::Write;

/// The distance of rows.
pub(crate) const ROW_STEP: u32 = 16;

/// The names of a row: its class in the style sheet, and the text next to it.
struct RowName {
    class: &'static str,
    text: &'static str,
}

/// The class and the text of each path's row.
const PATHS: [(&str, &str); 4] = [
    ("from_a", "from a"),
    ("from_b", "from b"),
    ("from_c", "from c"),
    ("from_d", "from d"),
];

/// Returns the height of the strip of a stream with this many paths: a row for each, and five more.
pub(crate) fn strip_height(paths: u8) -> u32 {
    u32::from(paths).saturating_add(5).saturating_mul(ROW_STEP)
}

/// Appends a strip, from a height on.
pub(crate) fn push_strip(
    svg: &mut Vec<u8>,
    alloc: Global,
    top: u32,
    paths: u8,
    bins: &Bins,
) -> Result<(), AllocError> {
    let mut y = top;
    for row in 0..usize::from(paths.min(4)) {
        let (class, text) = PATHS[row];
        push_row(svg, alloc, y, paths, bins, row, RowName { class, text })?;
        y = y.saturating_add(ROW_STEP);
    }
    push_common(svg, alloc, y, paths, bins)
}

/// Appends the rows behind those of the paths.
fn push_common(
    svg: &mut Vec<u8>,
    alloc: Global,
    top: u32,
    paths: u8,
    bins: &Bins,
) -> Result<(), AllocError> {
    let mut y = top;
    for row in DOUBLE_ROW..ROWS {
        push_row(svg, alloc, y, paths, bins, row, name_of(row))?;
        y = y.saturating_add(ROW_STEP);
    }
    Ok(())
}

/// Returns the names of a row behind those of the paths, which are one word.
fn name_of(row: usize) -> RowName {
    let name = match row {
        DOUBLE_ROW => "double",
        LATE_ROW => "late",
        LOST_ROW => "lost",
        REFUSED_ROW => "refused",
        _ => "restart",
    };
    RowName {
        class: name,
        text: name,
    }
}

/// Appends a row: its name, its bars and its total.
fn push_row(
    svg: &mut Vec<u8>,
    alloc: Global,
    y: u32,
    paths: u8,
    bins: &Bins,
    row: usize,
    name: RowName,
) -> Result<(), AllocError>
    requires { row < 9 }
{
    let RowName { class, text } = name;
    let base = y.saturating_add(11);
    push_text(svg, "end", LEFT - 8, base, text)?;
    let heights = heights_of(alloc, paths, bins, row)?;
    push_bars(svg, class, y, ROW_STEP - 2, heights.as_slice())?;
    let (x, total) = (LEFT + PLOT_WIDTH + 8, bins.total(row));
    fmt_result(write!(
        svg,
        "<text class=\"total {class}_total\" x=\"{x}\" y=\"{base}\">{total}</text>\n"
    ))
}

/// Returns the height of each bar of a row: its part of the packets of its interval, and at least half if it shows a
/// fault.
fn heights_of(alloc: Global, paths: u8, bins: &Bins, row: usize) -> Result<Vec<u8>, AllocError>
    requires { row < 9 }
{
    let mut heights = Vec::new(alloc);
    for bin in 0..bins.axis().bins {
        let packets = packets_in(bins, bin);
        let height = height_in(bins.count(bin, row), packets, paths, row);
        heights.push(height)?;
    }
    Ok(heights)
}

/// Returns the height of the bar for a row's count in an interval with this many packets.
fn height_in(count: u64, packets: u64, paths: u8, row: usize) -> u8 {
    // Each packet can have a duplicate from every path but one.
    let copies = u64::from(paths).saturating_sub(1).max(1);
    match row {
        DOUBLE_ROW => height_of(count, packets.saturating_mul(copies), 1),
        LATE_ROW | LOST_ROW | REFUSED_ROW => height_of(count, packets, UNITS / 2),
        // A restart is a single packet: its part of an interval would be too low to notice.
        RESTART_ROW => height_of(count, 1, UNITS),
        _ => height_of(count, packets, 1),
    }
}

/// Returns the number of packets of an interval, which were taken or lost.
fn packets_in(bins: &Bins, bin: usize) -> u64
    requires { bin < bins.now.axis.bins }
{
    let mut packets = bins.count(bin, LOST_ROW);
    for row in 0..DOUBLE_ROW {
        packets = packets.saturating_add(bins.count(bin, row));
    }
    packets
}
