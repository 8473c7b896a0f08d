//! One stream: its parameters, packets, marks and counts, and the rules of reception as definitions.
//!
//! 1. `StreamSpec::of` checks the parameters of a stream, a `Stream`. Begin there; the caller keeps
//!    the result.
//! 2. `StreamSpec::admit` makes a `Packet` from the view of a datagram, or returns why the datagram
//!    is not a packet of this stream. `admit_ref` does the same with the payload left in the
//!    datagram.
//! 3. `receive_ref` does step 2 from the octets of the datagram. `PathCounts` counts what it returns.
//! 4. `CountField` has the name, the description and the value of each number of `Counts`. Its lists
//!    are in the order in which reports and pages show them.
//!
//! The rules of reception are definitions in `specs/`, over whole lists of `Event`s and unbounded
//! numbers: anchors and epochs (`Epochs`), the copies of each number (`Copies`), the fate of an
//! arrival (`Fate`), the counts (`Counts`) and the marks (`Marks`). No definition has a queue or follows
//! the code's loops. Of the window only its size is in them: it decides which packets are Ahead.
//!
//! Merges are built from functions that decide about one packet. `place_of` returns the number of the
//! packet or why it has none, from `number_of` and `is_in_step`. `fate_of_first` and `continues_media_time` decide
//! whether the packet may begin an epoch. `update_probation` decides whether it completes the
//! probation of its path, `update_track` whether its sender is astray by the clock `Follow`, and
//! `width_of` how many packets are in time by that clock.
#![tactic(auto)]

mod anchor;
mod arrival;
mod arrival_bits;
mod count_field;
mod counts;
mod event;
mod extend;
mod fate;
mod follow;
mod limits;
mod mark;
mod mark_ref;
mod packet;
mod path;
mod probation;
mod reception;
mod stream_counts;
mod stream_spec;

pub use anchor::{Anchor, media_of_first, media_of_restart};
pub use arrival::{
    continues_media_time, fate_of_first, fate_of_put, is_off_place, is_taken, place_of,
};
pub use arrival_bits::ArrivalBits;
pub use count_field::{COUNT_FIELDS, COUNTS_AFTER_PATHS, COUNTS_BEFORE_PATHS, CountField};
pub use counts::Counts;
pub use event::Event;
pub use extend::{near16, near32};
pub use fate::{Fate, Put};
pub use follow::{Moment, Track, update_track, width_of};
pub use limits::{MAX_ARRIVALS, MAX_TIME};
pub use mark::{Body, Mark, MarkKind, PacketFormat};
pub use mark_ref::{MarkKindRef, MarkRef};
pub use packet::{Packet, PacketRef};
pub use path::Path;
pub use probation::{Probation, update_probation};
pub use reception::{Reception, ReceptionRef, receive_ref};
pub use stream_counts::{PathCounts, StreamCounts};
pub use stream_spec::{AdmitFault, SpecFault, Stream, StreamClock, StreamSpec};
