//! The rows of arrival margins: the time from the arrival of each path's copies to their deadlines.
use crate::draw::bars::{LEFT, PLOT_WIDTH, height_of, push_bars};
use crate::draw::{fmt_result, push_text};
use crate::reception::margins::{MARGIN_BINS, Margins, PathMargins};
use rtp_stream::Path;
use std::alloc::AllocError;
use std::io::Write;
use studio_run::millis;

/// The distance of the paths' rows.
const MARGIN_STEP: u32 = 24;

/// The class and the name of each path's row.
const PATHS: [(&str, &str); 4] = [
    ("from_a", "a, spare"),
    ("from_b", "b, spare"),
    ("from_c", "c, spare"),
    ("from_d", "d, spare"),
];

/// Returns the height of the rows of a stream with this many paths, with their scale.
pub(crate) fn margins_height(paths: u8) -> u32 {
    u32::from(paths)
        .saturating_mul(MARGIN_STEP)
        .saturating_add(18)
}

/// Appends the row of each path and the scale, from a height on.
pub(crate) fn push_margins(
    svg: &mut Vec<u8>,
    top: u32,
    paths: u8,
    margins: &Margins,
) -> Result<(), AllocError> {
    let mut y = top;
    for (place, (class, name)) in PATHS.iter().take(usize::from(paths)).enumerate() {
        if let Some(path) = Path::new(place as u8) {
            push_text(svg, "end", LEFT - 8, y.saturating_add(15), name)?;
            push_path(svg, y, class, margins.path(path))?;
        }
        y = y.saturating_add(MARGIN_STEP);
    }
    push_scale(svg, y, margins)
}

/// Appends a path's row: its bars in proportion to the greatest of them, its counts and its least margin.
fn push_path(svg: &mut Vec<u8>, y: u32, class: &str, path: &PathMargins) -> Result<(), AllocError> {
    let mut greatest = 0;
    for count in path.bins.iter() {
        greatest = greatest.max(*count);
    }
    let mut heights = [0; MARGIN_BINS];
    for place in 0..MARGIN_BINS {
        heights[place] = height_of(path.bins[place], greatest, 1);
    }
    push_bars(svg, class, y, MARGIN_STEP - 4, &heights)?;
    let (x, in_time, late) = (LEFT + PLOT_WIDTH + 8, path.in_time, path.late);
    fmt_result(write!(
        svg,
        "<text class=\"spare {class}_spare\" x=\"{x}\" y=\"{}\">in time {in_time}, late {late}</text>\n",
        y.saturating_add(9)
    ))?;
    if let Some(least) = path.least {
        let (ms, us) = millis(u64::try_from(least).unwrap_or(0));
        fmt_result(write!(
            svg,
            "<text class=\"soft\" x=\"{x}\" y=\"{}\">least spare {ms}.{us:03} ms</text>\n",
            y.saturating_add(20)
        ))?;
    }
    Ok(())
}

/// Appends the times at both ends of the scale.
fn push_scale(svg: &mut Vec<u8>, y: u32, margins: &Margins) -> Result<(), AllocError> {
    let (ms, us) = millis(margins.span().saturating_mul(MARGIN_BINS as u64));
    push_text(
        svg,
        "soft",
        LEFT,
        y.saturating_add(10),
        "0 ms before the deadline",
    )?;
    fmt_result(write!(
        svg,
        "<text class=\"soft end\" x=\"{}\" y=\"{}\">{ms}.{us:03} ms before the deadline</text>\n",
        LEFT + PLOT_WIDTH,
        y.saturating_add(10)
    ))
}
