//! The engine of a studio as a static library for C, and for every language that calls C.
//!
//! `Handle` is C's `struct darbexum`: one pointer, which is null if there is no engine. The caller zeroes it, opens it
//! and frees it at the end. Each call is made for one handle, and by one thread at a time.
//!
//! 1. `darbexum_open` makes the engine of a configuration. `darbexum_free` frees it.
//! 2. `darbexum_arrive` takes a datagram. `darbexum_turn` takes a clock reading and writes the next datagram, until it
//!    returns 0.
//! 3. `darbexum_close` ends all streams. `darbexum_drain` then writes the remaining datagrams, until it returns 0.
//!
//! The other calls read. Each returns a code if it fails, and has then changed nothing. `bindings/c/darbexum.h` has the
//! declarations, and states what the caller has to ensure.
#![tactic(auto)]

mod block_calls;
mod calls;
mod codes;
mod handle;
mod input;
mod lifetime;
mod open;
mod raw_box;
mod readers;
mod record_calls;
mod records;
mod texts;
mod version;

pub use handle::Handle;
pub use records::{Counts, Output, PathCounts, Stream};
