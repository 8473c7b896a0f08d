//! A live run of a studio on real sockets, with one thread per path and stream or in a single thread.
//!
//! Begin with `run_studio_live`. It opens the sockets, runs the studio in the form that `LiveOptions`
//! selects until all feeds have ended, and writes the report. The caller passes the runtime, the
//! memory, both writers and the outputs, of which no module here knows the kinds: they are one type
//! parameter with the bound `CreateOutput`.
//!
//! The modules, in the order of a run:
//!
//! - `launch` opens sockets, page and status, creates the outputs, and calls one of the two forms with
//!   a `RunContext`. `page_task` is the task of the thread that serves the page.
//! - `status` opens the outputs of the status, and writes the line of addresses, that the output is by
//!   another clock than the run, and how to end the run, if that is not by a signal. `shown_health`
//!   reads what the status shows of sockets, sends and outputs. `path_order` has the place of a path
//!   among the paths of all streams.
//! - `workers` is the form with a thread for each path and stream and one for the mix,
//!   `run_in_workers`. It passes its mix to the outputs.
//! - `single_thread` is the form with an engine in one thread, `run_in_one_thread`. It waits by
//!   poll(2) until a socket has a datagram. It passes its mix and its events to the outputs.
//! - `report` writes the text of the final report.
//! - `supervisor` is the task of the thread that ends the feeds, as the options say or on a pending
//!   signal that was blocked at the start, and runs the status task. Its `SignalFile` finds the signal.
//! - `socket_watch` is the supervisor's task that writes a line for each path that fails or ends, and
//!   reads what the kernel dropped.
//!
//! If a form returns an early `LiveFault`, no run has begun.
#![tactic(auto)]

mod address_line;
mod clock_line;
mod context;
mod end_hint;
mod fault;
mod inputs;
mod launch;
mod page_task;
mod path_order;
mod report;
mod run;
mod run_end;
mod shown_health;
mod single_thread;
mod socket_watch;
mod status;
mod supervisor;
mod workers;

pub use fault::LiveFault;
pub use inputs::{LiveInputs, LiveRun, PageInputs};
pub use run::run_studio_live;
pub use supervisor::signal_file::SignalFile;
