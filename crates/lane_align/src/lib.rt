//! Aligns one stream: its marks go in, and the values of its channels at media times come out, block
//! by block.
//!
//! `Lane::new` allocates; no later call does. For each block:
//!
//! 1. As long as the lane `wants` the end of the block, take the next mark of the stream and `feed`
//!    it if the lane `accepts` it. The caller drops a mark that is not accepted.
//! 2. `read_block` then writes the values of the block, frame by frame, and moves the lane to the
//!    next block.
//!
//! `cover` returns the time up to which the values are final, and `end` the time at which the last
//! mark ends.
//!
//! `Lane::with_capacity` makes a lane that also takes marks before they are wanted: `keep_ref` takes a
//! mark if the lane `has_space` for it.
#![tactic(auto)]

mod cover;
mod frame_queue;
mod lane;
mod last_slot;
mod laws;
mod presence;
mod slot_samples;

pub use cover::Cover;
pub use lane::Lane;
pub use laws::{accepted_marks_are_a_mark_list, values_before_the_cover_stay};
