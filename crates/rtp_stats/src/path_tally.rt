//! The counts of one path's packets.

/// The numbers of a path's packets by fate. Each stays at 2^64 - 1 once it is reached.
#[derive(Clone, Copy, PartialEq, Eq)]
pub struct PathTally {
    /// The packets that were the first copies of their numbers.
    pub first: u64,
    /// The duplicates, with the payload of the first copy.
    pub double: u64,
    /// The duplicates with a different payload than the first copy.
    pub unlike: u64,
    /// The packets that arrived after their deadlines.
    pub late: u64,
    /// The packets that arrived too early for the window.
    pub ahead: u64,
    /// The packets that the path brought last, one after another, each of them late and with a number that was received
    /// in time or is less than one that was. A sender that was started again with the same numbers brings many of them.
    pub repeated: u64,
    /// The numbers that another path brought and this one did not, until a number one window later was taken.
    pub missed: u64,
}
