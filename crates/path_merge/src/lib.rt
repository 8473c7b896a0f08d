//! Merges the paths of one stream into a list of marks, with a window that holds packets until their
//! deadlines.
//!
//! Begin with `Merge`. `Merge::new` allocates a `SlotWindow` for it; `Merge::with_window` takes any
//! `Window`. No later call allocates.
//!
//! 1. `offer` takes each packet with its path, in the order of arrival, and returns its fate.
//! 2. `advance` takes a clock reading and returns the next mark that is due by then. Call it again
//!    with the same reading as long as it returns a slot: more slots may be due.
//! 3. `close` ends the stream. `drain` then returns the remaining marks, one with each call.
//!
//! `run_merge` does all of this for a list of events.
//!
//! These calls copy each packet and mark with space for 1,440 octets. Use them if packets or marks are
//! kept, or if speed does not matter. The following calls have the same contracts, and copy a payload
//! once, from the datagram to its slot in the window:
//!
//! - `StreamSpec::admit_ref` makes a `PacketRef` from the view of a datagram, and `offer_ref` takes
//!   it.
//! - `goal` checks a clock reading once. After a close the goal is the end.
//! - `mark_to` returns a reference to the next mark on the way to the goal. `pass_to` removes that
//!   mark, and returns whether more may follow.
//!
//! For example:
//!
//!     let goal = merge.goal(now)?;
//!     loop { use_up(merge.mark_to(goal)); if !merge.pass_to(goal) { break; } }
//!
//! A `MarkRef` ends before the next `&mut` call; `to_mark` copies it.
//!
//! `pass_lost` passes all lost slots up to a clock reading at once, for callers that need their number and
//! not their marks. Its time does not grow with their number.
//!
//! A `Window` has space for `size` numbers from `base` on. `SlotWindow` has a slot for each number, so
//! no call takes longer if more packets are held. `SortedWindow` keeps its packets sorted, and is the
//! plain implementation to compare with. Only their `new` allocates.
#![tactic(auto)]

mod clock;
mod event_list;
mod goal;
mod laws;
mod media_laws;
mod merge;
mod payload_eq;
mod slot_window;
mod sorted_window;
mod window;

pub use clock::{ClockFault, clock_fault};
pub use event_list::{RunFault, run_merge};
pub use goal::Goal;
pub use laws::{
    a_sender_in_time_is_heard_as_by_arrival, aliases_are_off_grid,
    an_epoch_begins_past_all_that_was_heard, arrivals_change_no_mark,
    each_epoch_recovers_its_numbers, each_number_is_handed_on_once, marks_are_a_mark_list,
    marks_keep_up_with_the_clock, merges_stand_at_their_histories, near_numbers_open_one_epoch,
    next_number_is_the_least_due, nothing_follows_a_close, sent_numbers_are_recovered,
    ticks_may_be_split,
};
pub use media_laws::{
    media_time_is_absolute, one_packet_has_one_time, slots_hold_the_sound_of_their_packets,
};
pub use merge::Merge;
pub use rtp_stream::{
    AdmitFault, Body, Counts, Event, Fate, Mark, MarkKind, MarkKindRef, MarkRef, Packet,
    PacketFormat, PacketRef, Path, Probation, Put, SpecFault, Stream, StreamClock, StreamSpec,
    near16, near32,
};
pub use slot_window::SlotWindow;
pub use sorted_window::SortedWindow;
pub use window::Window;
