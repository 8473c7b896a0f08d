//! The start of a run: whether it has succeeded. A file that was created for a run goes again if its start fails.
ghost use Rattle.std.specs.Prelude.{◌≡◌, ◌∷◌, ℕ, List, Option};
ghost use Rattle.studio_config.specs.Studio.{Studio};

use crate::create::{CreateOutput, CreatedOutput};
use crate::fault::OutputFault;
use crate::mix::MixOutput;
use std::alloc::Global;
use std::sync::Wait;
use std::sync::atomic::{AtomicU32, Ordering};
use std::thread::Parker;
use std::time::Duration;
use studio_config::StudioSpec;
use studio_io::{MixedBlock, OutputEnd, OutputKind};

/// The state of a start that is still under way.
const PENDING: u32 = 0;

/// The state of a start that has succeeded.
const BEGUN: u32 = 1;

/// The state of a start that has failed.
const FAILED: u32 = 2;

/// The pause between two looks at a start that is under way, in milliseconds.
const PAUSE_MS: u64 = 10;

/// The start of a run, which is under way, has succeeded or has failed. The threads of the run share it.
///
/// A file that was created for the run is removed when it is dropped before the run has begun. So a task waits for the
/// start before it drops its file.
// An atomic, since the threads set and read it through a shared reference. No clause can say what it holds.
#[derive(Drop)]
pub struct RunStart {
    state: AtomicU32,
}

impl RunStart {
    /// Returns a start that is under way.
    pub fn new() -> RunStart {
        RunStart {
            state: AtomicU32::new(PENDING),
        }
    }

    /// Notes that the run has begun, unless its start has failed.
    pub fn set_begun(&self) {
        self.set(BEGUN);
    }

    /// Notes that the start has failed, unless the run has begun. A run notes it before it returns its error.
    pub fn set_failed(&self) {
        self.set(FAILED);
    }

    /// Ends a start that is under way with this state.
    fn set(&self, state: u32) {
        let _ = self
            .state
            .compare_exchange(PENDING, state, Ordering::SeqCst, Ordering::SeqCst);
    }

    /// Returns true once the run has begun.
    pub fn has_begun(&self) -> bool {
        self.state.load(Ordering::SeqCst) == BEGUN
    }

    /// Waits until the start has succeeded or failed.
    pub fn wait<R: Wait>(&self, rt: &R) {
        let parker = Parker::new();
        for _ in rt.forever() {
            if self.state.load(Ordering::SeqCst) != PENDING {
                return;
            }
            parker.park_timeout(rt, Duration::from_millis(PAUSE_MS));
        }
    }
}

/// An output of a run that notes in its start, with the first datagram of the mix, that the run has begun.
// By then all threads of the run were started: the mix needs the marks of all streams, and a stream has none before
// each of its paths has its thread. So a file that ends early is closed at once, and not only when the run has ended.
#[derive(Drop)]
pub struct NotedOutput<'a, O> {
    start: &'a RunStart,
    output: O,
}

impl<'a, O: CreateOutput> NotedOutput<'a, O> {
    /// Returns this output of a run with this start.
    pub fn new(start: &'a RunStart, output: O) -> NotedOutput<'a, O> {
        NotedOutput { start, output }
    }
}

/// The part of a `NotedOutput` that takes the mix.
#[derive(Drop)]
pub struct NotedMix<'a, M> {
    start: &'a RunStart,
    mix: M,
    /// True once a datagram came.
    has_begun: bool,
}

impl<M: MixOutput> MixOutput for NotedMix<'_, M> {
    ghost mixes = { λ old mixed new. M.mixes old.mix mixed new.mix };

    ghost ended = { λ output kind. M.ended output.mix kind };

    fn mixed(&mut self, datagram: &[u8], block: &MixedBlock<'_>) {
        if !self.has_begun {
            self.has_begun = true;
            self.start.set_begun();
        }
        self.mix.mixed(datagram, block);
    }

    fn end_of(&self, kind: OutputKind) -> Option<OutputEnd> {
        self.mix.end_of(kind)
    }
}

impl<'a, O: CreateOutput> CreateOutput for NotedOutput<'a, O> {
    type Events = O::Events;

    type Mix = NotedMix<'a, O::Mix>;

    type Tasks = O::Tasks;

    ghost begins = { λ is_controlled studio events mix. O.begins is_controlled studio events mix.mix };

    fn create(
        self,
        alloc: Global,
        studio: &StudioSpec,
        is_controlled: bool,
    ) -> Result<CreatedOutput<O::Events, NotedMix<'a, O::Mix>, O::Tasks>, OutputFault> {
        let NotedOutput { start, output } = self;
        let CreatedOutput { events, mix, tasks } = output.create(alloc, studio, is_controlled)?;
        Ok(CreatedOutput {
            events,
            mix: NotedMix {
                start,
                mix,
                has_begun: false,
            },
            tasks,
        })
    }
}
