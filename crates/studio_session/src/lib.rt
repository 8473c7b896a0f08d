//! A studio run offline, in one thread: from a list of events to its datagrams and counts.
//!
//! `run_studio` is the whole: it returns all datagrams and counts in memory. If there is no memory
//! for lists, use its parts in this order:
//!
//! 1. An `EventSource` returns events by index, and stays with the caller. `EventList` is one in
//!    memory.
//! 2. `first_fault` returns the first event at fault, if there is one.
//! 3. `Session::new` allocates; no later call does.
//! 4. `Session::next_datagram` writes the next datagram. Call it until it returns `None`.
//! 5. `Session::into_cursors` returns a `Cursor` for each stream. `finish_stream` brings its counts
//!    to the end.
//!
//! If events come one by one, pass each to every cursor: the cursor of its stream takes a datagram by
//! `push_datagram` and the others `skip` it, or pass over all that they missed by `pass_to`; all take a
//! reading by `push_tick` and a close by `push_close`. `pull_marks` then passes the marks of a cursor
//! on.
//!
//! For marks instead of datagrams, `studio_cursors` returns a cursor for each stream, which returns
//! references to the marks.
//!
//! `Cursor::pass_lost` lets lost slots go at once, for callers that count them and need no mark of each. Its
//! time does not grow with their number.
#![tactic(auto)]

mod arrive_outcome;
mod cursor;
mod datagrams;
mod event;
mod fault;
mod feed_mixer;
mod finish;
mod laws;
mod report;
mod run_list;
mod session;
mod sound_laws;
mod source;
mod stream_counts;

pub use arrive_outcome::{ArriveOutcome, OfferedPacket};
pub use cursor::Cursor;
pub use cursor::lost_stretch::LostStretch;
pub use event::{EventHeader, StudioEvent};
pub use fault::{StudioFault, first_fault, is_runnable};
pub use feed_mixer::pull_marks;
pub use finish::finish_stream;
pub use laws::ticks_may_be_left_out;
pub use report::Report;
pub use run_list::run_studio;
pub use session::{Session, studio_cursors};
pub use sound_laws::{
    a_whole_datagram_is_the_senders_mix, events_have_the_sound_of_their_packets,
    receivers_of_one_sound_return_copies,
};
pub use source::{DatagramBuffer, EventSource};
