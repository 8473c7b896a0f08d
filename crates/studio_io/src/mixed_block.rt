//! The block of which a datagram of the mix was mixed: its inputs, and what was missing in it.

/// The streams that are missing in a block of a mix: how many, and whether anything else is in it.
#[derive(Clone, Copy, Debug, PartialEq, Eq)]
pub struct Missing {
    /// The number of streams that are used at some time of the block for which no packet of theirs came.
    ///
    /// A stream is used while a gain in force from one of its channels isn't 0.
    pub streams: usize,
    /// Streams are missing, and at no time of the block is there a packet of a stream that is used: its samples are 0.
    pub is_empty: bool,
}

impl Missing {
    /// Nothing is missing.
    pub const NOTHING: Missing = Missing {
        streams: 0,
        is_empty: false,
    };
}

/// The block of which a datagram was mixed.
#[derive(Clone, Copy)]
pub struct MixedBlock<'a> {
    /// The samples of all channels of all streams in it, before any gain: frame by frame, in each frame stream after
    /// stream. Empty if they are not known.
    pub inputs: &'a [i32],
    /// The streams that are missing in it, and whether there is anything else.
    pub missing: Missing,
}
