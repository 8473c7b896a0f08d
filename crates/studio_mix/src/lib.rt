//! The mixer over all streams of a studio: their marks go in, and the datagrams of the output come
//! out.
//!
//! `Mixer::new` allocates; no later call does. The streams may take turns in any order:
//!
//! 1. As long as the mixer `wants` a mark of a stream, take the next mark of that stream and `feed`
//!    it if the mixer `accepts` it.
//! 2. `next_block` writes the next datagram to the start of the caller's slice once every stream is
//!    final to the end of its block. Until then it changes nothing and returns `None`.
//!
//! After all streams have ended, `next_block` writes the blocks that are left.
//!
//! `Mixer::for_early_marks` makes a mixer that also takes marks before they are wanted: `keep_ref` takes a
//! mark if the mixer `has_space` for it.
//!
//! `change_gains` changes the gains between blocks. `answer_request` answers a request of a
//! `GainSource`, which may ask for such a change.
#![tactic(auto)]

mod gain_requests;
mod interleave;
mod lane_capacity;
mod lanes;
mod laws;
mod missing;
mod mixer;
mod whole_laws;

pub use laws::{changes_follow_one_another, later_changes_change_no_block, ready_blocks_stay};
pub use mixer::Mixer;
pub use whole_laws::{
    empty_blocks_are_silent, later_changes_keep_what_is_missing, longer_marks_keep_what_is_missing,
    twins_are_copies, unions_keep_whole_blocks, whole_blocks_are_the_senders_mix,
};
