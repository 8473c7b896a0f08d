//! The line of a run whose output is by the media clock, while the run is not.

use live_io::{STDERR, is_ready};
use std::io::Write;
use studio_config::{OutputClock, StudioSpec};

/// The line, with its line feed.
const OTHER_CLOCK: &str =
    "live: the output is by the media clock and the run is not, so another receiver gives its numbers to other audio. Start it with --clock tai.\n";

/// Writes the line if the output of a studio is by the media clock, and the studio does not open by International
/// Atomic Time. The line is left out if standard error would block. Errors of the write are ignored.
pub(crate) fn write_clock_line<W: Write>(studio: &StudioSpec, is_by_tai: bool, writer: &mut W) {
    if is_by_tai {
        return;
    }
    match studio.output_clock() {
        OutputClock::Run => {}
        OutputClock::Media => {
            if is_ready(STDERR, libc::net::POLLOUT) {
                let _ = writer.write_all(OTHER_CLOCK.as_bytes());
            }
        }
    }
}
