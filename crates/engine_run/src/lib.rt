//! Runs an engine in one thread: datagrams of feeds go in, and the mix goes to a sink, by a clock.
//!
//! Begin with `run_engine`. It takes `RunDevices`: the `Feed`s, one per path, a `Clock`, a `Sink`, a
//! `RunObserver`, an `IdleWait` and a `GainSource`. Each round
//!
//! 1. answers at most 64 requests of the `GainSource`, and calls `changed` of the observer for each change;
//! 2. reads the clock and sends what is due by then;
//! 3. calls `before_wait` of the observer;
//! 4. waits by the `IdleWait`;
//! 5. takes at most 64 datagrams from each feed.
//!
//! The datagrams of a round are judged by the clock reading of that round. So a datagram that came in
//! time is not late because of the wait. If the `IdleWait` says that this reading is too old, the
//! datagrams are judged by a new one.
//!
//! Once every feed has ended, the clock is read a last time, the engine is closed, and the remaining
//! datagrams are sent. If the report is `settled`, there is one list of events: the sink received
//! its datagrams, the observer its arrivals, and the report its counts. They are those of the studio
//! with the changes of gains that the `GainSource` took. The observer gets exactly these
//! changes, also in a run that is not settled.
//!
//! `Engine::answer_request` answers one request, for callers that have a loop of their own.
#![tactic(auto)]

mod feed_reader;
mod gain_requests;
mod intake;
mod laws;
mod observer;
mod output;
mod report;
mod run;
mod state;

pub use laws::a_run_without_changes_is_one_of_its_studio;
pub use observer::{NoObserver, RunObserver};
pub use run::{IdleWait, RunDevices, run_engine};
