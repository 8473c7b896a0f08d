//! The panel of a stream: its name, strip, ticks, arrival margins and counts.
use crate::draw::count_lines::{counts_height, push_counts};
use crate::draw::fmt_result;
use crate::draw::margin_rows::{margins_height, push_margins};
use crate::draw::strip::{push_strip, strip_height};
use crate::draw::ticks::{TICKS_HEIGHT, push_ticks};
use crate::reception::panel_data::PanelData;
use rtp_stream::StreamSpec;
use std::alloc::{AllocError, Global};
use std::io::Write;
use studio_run::millis;
use studio_session::Cursor;

/// The height of a panel's name.
const NAME_HEIGHT: u32 = 24;

/// The gap between panels.
const GAP: u32 = 24;

/// Returns the height of the panel of a stream with this many paths.
pub(crate) fn panel_height(paths: u8) -> u32 {
    (NAME_HEIGHT + TICKS_HEIGHT + GAP)
        .saturating_add(strip_height(paths))
        .saturating_add(margins_height(paths))
        .saturating_add(counts_height(paths))
}

/// Appends the panel of a stream whose events were all taken.
pub(crate) fn push_panel(
    svg: &mut Vec<u8>,
    alloc: Global,
    top: u32,
    cursor: &Cursor,
    data: &PanelData,
) -> Result<(), AllocError> {
    let spec = cursor.spec();
    let paths = spec.paths();
    let number = cursor.number();
    fmt_result(write!(svg, "<g id=\"stream{number}\">\n"))?;
    push_name(svg, top, number, &spec)?;
    let top = top.saturating_add(NAME_HEIGHT);
    push_strip(svg, alloc, top, paths, &data.bins)?;
    let top = top.saturating_add(strip_height(paths));
    push_ticks(svg, top, &data.bins.axis())?;
    let top = top.saturating_add(TICKS_HEIGHT);
    push_margins(svg, top, paths, &data.margins)?;
    let top = top.saturating_add(margins_height(paths));
    push_counts(svg, alloc, top, cursor)?;
    svg.extend_from_slice(b"</g>\n")
}

/// Appends the name of a stream, with its paths, format and latency.
fn push_name(svg: &mut Vec<u8>, top: u32, number: u8, spec: &StreamSpec) -> Result<(), AllocError> {
    let y = top.saturating_add(15);
    let enc = spec.enc().name();
    let (paths, channels) = (spec.paths(), spec.channels());
    let (ms, us) = millis(u64::from(spec.frames()));
    let (late_ms, late_us) = millis(u64::from(spec.latency()));
    fmt_result(write!(
        svg,
        "<text class=\"name\" x=\"24\" y=\"{y}\">stream {number}: paths {paths}, {enc}, channels {channels}, \
        packets of {ms}.{us:03} ms, latency {late_ms}.{late_us:03} ms</text>\n"
    ))
}
