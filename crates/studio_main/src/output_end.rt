//! The line on standard error of an output that ends before its run.

use live_io::{STDERR, is_ready};
use std::io::Write;
use studio_io::{OutputEnd, OutputKind};

/// Writes that the output of a kind ends before its run, for this reason and behind this many units. The line is left
/// out if standard error would block, so that a reader who has stopped keeps no run from its end.
pub(crate) fn report_output_end<E: Write>(
    faults: &mut E,
    kind: OutputKind,
    end: OutputEnd,
    units: u64,
) {
    if !is_ready(STDERR, libc::net::POLLOUT) {
        return;
    }
    let unit = kind.unit();
    // A line that cannot be written is lost, as a fault's line is.
    let _ = writeln!(faults, "device: {kind} {end}, after {units} {unit}");
}
