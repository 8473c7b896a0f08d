//! A studio as one object without I/O: datagrams and clock readings go in, datagrams come out.
//!
//! Begin with `Engine`. `Engine::new` allocates; no later call does. The engine has no thread, no
//! socket and no list of events.
//!
//! 1. `arrive` takes a datagram of a stream with its path, and returns its outcome.
//! 2. `turn` takes a clock reading, moves all merges to it, and writes the next datagram. Call it
//!    with the same reading until it returns `None`: until then it takes nothing else.
//!    `next_deadline` returns the reading before which no datagram comes if nothing arrives.
//! 3. `close` ends all streams. `drain` then writes the remaining datagrams, until it returns `None`.
//!
//! Afterwards the engine is `settled`, and its counts are complete.
#![tactic(auto)]

mod cursors;
mod datagram_laws;
mod deadline;
mod dispatch;
mod early_marks;
mod engine;
mod fault;
mod laws;
mod next_block;

pub use datagram_laws::an_engine_gives_the_datagrams_of_its_events;
pub use engine::Engine;
pub use fault::{ArriveFault, Unfinished};
pub use laws::marks_are_near;
