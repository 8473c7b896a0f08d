//! The report of a run.
use rtp_stream::StreamCounts;

/// The datagrams of all blocks that are ready, and the counts of each stream.
#[derive(Debug, Drop)]
pub struct Report {
    pub datagrams: Vec<Vec<u8>>,
    pub streams: Vec<StreamCounts>,
}
