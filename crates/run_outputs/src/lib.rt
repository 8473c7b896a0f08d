//! The outputs of a run: what it passes to them, their creation, and the threads that write them.
//!
//! An output is what a run writes in addition to the datagrams of its mix, such as a record or a WAV
//! file. It has at most three parts:
//!
//! 1. An `EventOutput` takes the events of a run in one thread: each datagram that arrived, each
//!    change of gains, and the close.
//! 2. A `MixOutput` takes each datagram of the mix with its block, after it was sent, in a run of either form.
//! 3. A `SideTask` writes what these two took, in a thread of its own.
//!
//! `CreateOutput` makes the three. `Option<O>` and pairs of outputs are outputs too, and `NoOutput`
//! takes nothing. So a run has one type parameter for all of its outputs, and names none of them.
//!
//! A file that an output created is removed again if the run does not begin, so that the next start finds nothing at
//! its path. `RunStart` says whether it has begun: `run_beside` notes it at the end of the run, and `NotedOutput`
//! already with the first datagram of the mix. A run that cannot begin notes that.
//!
//! The first two are called in the threads of the run, and must not wait. Each says why its output ended, if it did:
//! `OutputEnds` has these reasons once the run has returned them. `OutputSink` is the run's
//! `Sink` with a `MixOutput` behind it, and `run_beside` starts the tasks and calls the run.
#![tactic(auto)]

mod create;
mod ends;
mod events;
mod fault;
mod mix;
mod side_task;
mod start;

pub use create::{CreateOutput, CreatedOutput, TaskOutput};
pub use ends::OutputEnds;
pub use events::{ArrivedDatagram, DatagramOrigin, EventOutput, TakenChange};
pub use fault::OutputFault;
pub use mix::{MixOutput, NoOutput, OutputSink};
pub use side_task::{EitherTask, OneTask, SideTask, SideTasks, ThreadFault, run_beside};
pub use start::{NotedMix, NotedOutput, RunStart};
