//! The RTP flows of a capture: which there are, which are paths of one stream, and a trace and
//! configuration made of them.
//!
//! Begin with `FlowTable`. The caller keeps the octets of the capture.
//!
//! 1. `FlowTable::of` reads the capture once, and counts the packets of its flows, in the order of
//!    their first packets. `time_jump` returns the longest step of the capture's time, if it is too
//!    long, and `place_of_packet` the place of its packet in the file.
//! 2. `StreamList::new` finds the streams of the table that are to be listed. Flows of one source
//!    whose common packets agree in number and timestamp are paths of one stream. `measure` reads
//!    the capture once for each 16 skews between paths. `table_text` returns a line for each path,
//!    stream by stream.
//! 3. `routes_of` decides which flow is which path of which stream of a trace.
//! 4. `trace_text` returns the trace of the capture by these routes, and `config_for` a configuration
//!    that fits it. The clock of a trace counts sampling instants at 48 kHz from the time of the
//!    first datagram, and never goes back.
//!
//! The table, the routes, the texts and the times of up to 16 pairs of paths are allocated.
#![tactic(auto)]

mod capture_skews;
mod capture_times;
mod fault;
mod flow;
mod flow_text;
mod import;
mod packet;
mod packet_format;
mod packet_place;
mod pair_times;
mod received_numbers;
mod routes;
mod same_packets;
mod sequence;
mod skew;
mod stream_list;
mod streams;
mod table;

pub use capture_times::TimeJump;
pub use fault::ImportFault;
pub use flow_text::table_text;
pub use import::clock::CaptureClock;
pub use import::config::{CaptureConfig, config_for};
pub use import::{datagram_octets, route_in, trace_text};
pub use packet::FlowKey;
pub use packet_place::place_of_packet;
pub use routes::{Route, Routes, routes_of};
pub use stream_list::StreamList;
pub use table::FlowTable;
