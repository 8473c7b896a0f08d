//! The arrival margins of packets: the time between an arrival and the packet's deadline.

/// The arrival margins of the packets of a second, in sampling instants at 48 kHz.
#[derive(Clone, Copy, Default, PartialEq, Eq)]
pub struct ArrivalMargin {
    /// The number of the second, counted from the time 0.
    pub second: u64,
    /// The least margin.
    pub least: u32,
    /// The median margin, rounded down to a multiple of 6, and at most 6,138 (128 ms).
    pub median: u32,
    /// The greatest margin.
    pub greatest: u32,
}
