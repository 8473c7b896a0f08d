//! The counts of a stream, in the lines of its report.
use crate::draw::fmt_result;
use rtp_stream::Path;
use std::alloc::{AllocError, Global};
use std::io::Write;
use studio_run::{TextBuffer, write_merge_counts, write_path_counts};
use studio_session::Cursor;

/// The distance of lines.
const LINE_STEP: u32 = 13;

/// Returns the height of the counts of a stream with this many paths.
pub(crate) fn counts_height(paths: u8) -> u32 {
    u32::from(paths)
        .saturating_add(1)
        .saturating_mul(LINE_STEP)
        .saturating_add(4)
}

/// Appends the line of each path and that of the merge, from a height on.
pub(crate) fn push_counts(
    svg: &mut Vec<u8>,
    alloc: Global,
    top: u32,
    cursor: &Cursor,
) -> Result<(), AllocError> {
    let mut text = TextBuffer::new(alloc)?;
    let mut y = top.saturating_add(LINE_STEP);
    let paths = cursor.spec().paths();
    for place in 0..paths {
        let Some(path) = Path::new(place) else {
            break;
        };
        begin(svg, y)?;
        let counts = cursor.path_counts(path);
        // A write to a `Vec` fails only if an allocation fails.
        write_path_counts(&mut text, svg, cursor.number(), path, &counts).map_err(|_| AllocError)?;
        end(svg, &mut text)?;
        y = y.saturating_add(LINE_STEP);
    }
    begin(svg, y)?;
    write_merge_counts(&mut text, svg, cursor.number(), paths, &cursor.counts()).map_err(
        |_| AllocError,
    )?;
    end(svg, &mut text)
}

/// Appends the beginning of a line of counts.
fn begin(svg: &mut Vec<u8>, y: u32) -> Result<(), AllocError> {
    fmt_result(write!(svg, "<text class=\"counts\" x=\"24\" y=\"{y}\">\n"))
}

/// Appends the rest of a line's text and its end.
fn end(svg: &mut Vec<u8>, text: &mut TextBuffer) -> Result<(), AllocError> {
    text.finish(svg).map_err(|_| AllocError)?;
    svg.extend_from_slice(b"</text>\n")
}
