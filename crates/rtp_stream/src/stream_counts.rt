//! The counts of a stream: of each path's datagrams, by what became of them before the merge, and of its merge.
ghost use Rattle.std.specs.Prelude.{◌≡◌, ◌+◌, ◌<◌};
ghost use Rattle.rtp_stream.specs.Reception.{reception_from};

use crate::counts::Counts;
use crate::reception::ReceptionRef;

/// The number of a path's datagrams, by what became of them before the merge. The counts balance in every value.
#[derive(Clone, Copy, Debug, PartialEq, Eq)]
pub struct PathCounts {
    /// All datagrams.
    pub offered: u64,
    /// Packets of the stream.
    pub sent: u64,
    /// Datagrams that are no RTP packets.
    pub bad: u64,
    /// RTP packets of another payload type.
    pub wrong_type: u64,
    /// RTP packets of the stream's payload type, with a payload of another length.
    pub wrong_length: u64,
    /// Packets that found the ring full on their way to the merge.
    pub full: u64,
    pub ghost balanced: { offered ≡ sent + bad + wrong_type + wrong_length + full },
}

impl PathCounts {
    ghost use Rattle.rtp_stream.specs.PathCounts.{empty_path_tally, path_tally_of, with_full, with_reception};

    /// Returns counts of 0: nothing was offered.
    pub fn new() -> PathCounts
        ensures { path_tally_of result ≡ empty_path_tally }
    {
        PathCounts {
            offered: 0,
            sent: 0,
            bad: 0,
            wrong_type: 0,
            wrong_length: 0,
            full: 0,
        }
    }

    /// Counts a datagram by its reception.
    pub fn add(&mut self, reception: ReceptionRef<'_>)
        requires { self.old.offered < u64.MAX }
        ensures { path_tally_of self.new ≡ with_reception (path_tally_of self.old) (reception_from reception.entry) }
    {
        match reception {
            ReceptionRef::Sent(_) => self.sent += 1,
            ReceptionRef::Bad(_) => self.bad += 1,
            ReceptionRef::WrongType => self.wrong_type += 1,
            ReceptionRef::WrongLength => self.wrong_length += 1,
        }
        self.offered += 1;
    }

    /// Counts a packet that found the ring full.
    pub fn add_full(&mut self)
        requires { self.old.offered < u64.MAX }
        ensures { path_tally_of self.new ≡ with_full (path_tally_of self.old) }
    {
        self.full += 1;
        self.offered += 1;
    }
}

/// The counts of a stream, after its last mark.
#[derive(Debug, Drop)]
pub struct StreamCounts {
    /// The counts of each of its paths.
    pub paths: Vec<PathCounts>,
    /// The counts of its merge.
    pub merge: Counts,
}
