//! Replays a capture of any length, or the record of a live run, to its report.
//!
//! Memory does not grow with the length of the capture. Each call reads the file once, from the
//! front; the caller opens it.
//!
//! 1. `record_opening` returns when the studio was opened if the file is the record of a live run,
//!    from what comes before its first packet. If the file can't be read twice, `has_first_packet`
//!    says of its first octets if they are enough for that.
//! 2. For a record, `recorded_paths` returns the paths that it describes, and `recording_fault` how they
//!    differ from a studio's. `replay_record` then reads the file, with the studio of that run, up to
//!    the close that the record contains. It passes on the changes of gains that the run took, or
//!    skips them. A last block that is cut ends the record before it. A time that jumps is a fault.
//! 3. For any other capture, `scan_flows` finds the flows, from which `pcap_flows` makes routes.
//!    `replay` then writes the report of the same events as in the trace that `pcap_flows` would
//!    write.
//!
//! A `ReplayObserver` is called with these events and with their datagrams.
#![tactic(auto)]

mod changes;
mod count_lines;
mod events;
mod fault;
mod flow_scan;
mod laws;
mod observer;
mod output;
mod player;
mod record_times;
mod recording;
mod routing;
mod state;

pub use changes::RecordedChanges;
pub use fault::{RecordedChangeFault, ReplayFault};
pub use flow_scan::scan_flows;
pub use laws::{a_record_says_its_run, a_replay_takes_its_import, other_captures_change_no_gains};
pub use observer::ReplayObserver;
pub use player::{replay, replay_record};
pub use record_times::record_opening;
pub use recording::{
    RecordedPath, RecordingFault, has_first_packet, recorded_paths, recording_fault,
};
