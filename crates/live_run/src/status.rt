//! Opening the status of a run: the first lines on standard error, and the outputs that the run fills.

use crate::address_line::write_address_line;
use crate::clock_line::write_clock_line;
use crate::end_hint::write_end_hint;
use crate::inputs::LiveRun;
use live_io::Sockets;
use live_status::{Meter, StatusInputs, StatusOutputs, open_outputs};
use rtrb::Producer;
use status_page::Snapshot;
use std::alloc::{AllocError, Global};
use std::io::Write;
use std::net::SocketAddr;

/// The link from a run to its page. Both fields are `None` without a page.
#[derive(Drop)]
pub(crate) struct PageLink {
    /// The address at which the page is served. `None` also if the system does not say it.
    pub(crate) address: Option<SocketAddr>,
    /// The end of the ring into which the run puts snapshots.
    pub(crate) snapshots: Option<Producer<Snapshot>>,
}

/// Opens the status of a run whose sockets and page are open: writes the line with the run's addresses, if there is a
/// page or lines are wanted. Then it writes that the output is by the media clock, if the run is not, and how to end
/// the run, if that is not by a signal: at a terminal, if Ctrl-C would end it without a report, and anywhere, if the
/// system does not list the signals. Lines go to `faults`. Allocates all memory of the status, and returns
/// `AllocError` if that fails.
pub(crate) fn open_status<'a, E: Write + Drop>(
    alloc: Global,
    run: LiveRun<'a>,
    sockets: &Sockets<'_>,
    page: PageLink,
    meter: &'a Meter,
    faults: E,
) -> Result<StatusOutputs<'a, E>, AllocError> {
    let LiveRun {
        studio,
        options,
        inputs,
    } = run;
    let PageLink { address, snapshots } = page;
    let mut faults = faults;
    if options.stats.is_some() || snapshots.is_some() {
        write_address_line(studio, sockets, address, &mut faults);
    }
    write_clock_line(studio, inputs.is_by_tai, &mut faults);
    write_end_hint(inputs.signals, options.until_eof, &mut faults);
    let shown = StatusInputs {
        names: inputs.names,
        meter,
    };
    open_outputs(alloc, studio, options.stats, shown, snapshots, faults)
}
