//! The progress of a run's outputs, which the run's threads set and other threads read while the run goes on.
ghost use Rattle.std.specs.Prelude.{◌≡◌, None, Some};
ghost use Rattle.studio_io.specs.Outputs.{end_number};

use crate::output_kind::{KIND_COUNT, OUTPUT_KINDS, OutputKind};
use crate::output_state::{OutputCounts, OutputEnd, OutputState};
use crate::output_states::OutputStates;
use std::array;
use std::sync::atomic::{AtomicU32, AtomicU64, Ordering};

/// The phase of an output that the run does not have, or has not created yet.
const ABSENT: u32 = 0;

/// The phase of an output that waits for its reader.
const WAITING: u32 = 1;

/// The phase of an output that is being written, or was written until it ended.
const WRITING: u32 = 2;

/// The progress of an output: its phase, its counts, and the reason of its end if it ended before its run.
// Atomics, since the threads of the run set them through a shared reference. No clause can say what they hold.
#[derive(Drop)]
pub struct OutputProgress {
    given: AtomicU64,
    written: AtomicU64,
    left_out: AtomicU64,
    phase: AtomicU32,
    /// The number of the reason why the output ended before its run, or 0 if it did not.
    end: AtomicU32,
}

impl OutputProgress {
    /// Returns the progress of an output that the run does not have, or not yet.
    pub fn new() -> OutputProgress {
        OutputProgress {
            given: AtomicU64::new(0),
            written: AtomicU64::new(0),
            left_out: AtomicU64::new(0),
            phase: AtomicU32::new(ABSENT),
            end: AtomicU32::new(0),
        }
    }

    /// Sets the output to wait for its reader, unless it is being written already.
    pub fn set_waiting(&self) {
        let _ = self
            .phase
            .compare_exchange(ABSENT, WAITING, Ordering::SeqCst, Ordering::SeqCst);
    }

    /// Sets the output to be written: it was created, and somebody reads it if somebody has to.
    pub fn set_writing(&self) {
        self.phase.store(WRITING, Ordering::SeqCst);
    }

    /// Sets the number of units that the run gave to the output.
    pub fn set_given(&self, count: u64) {
        self.given.store(count, Ordering::SeqCst);
    }

    /// Sets the number of units that were written.
    pub fn set_written(&self, count: u64) {
        self.written.store(count, Ordering::SeqCst);
    }

    /// Sets the number of units that were left out.
    pub fn set_left_out(&self, count: u64) {
        self.left_out.store(count, Ordering::SeqCst);
    }

    /// Sets the reason why the output ends before its run. Only the first reason is kept.
    pub fn set_end(&self, end: OutputEnd) {
        let _ = self
            .end
            .compare_exchange(0, number_of(end), Ordering::SeqCst, Ordering::SeqCst);
    }

    /// Returns true once the output is written, also after its end.
    pub fn is_writing(&self) -> bool {
        self.phase.load(Ordering::SeqCst) == WRITING
    }

    /// Returns the number of units that were written.
    pub fn written(&self) -> u64 {
        self.written.load(Ordering::SeqCst)
    }

    /// Returns the counts.
    pub fn counts(&self) -> OutputCounts {
        OutputCounts {
            given: self.given.load(Ordering::SeqCst),
            written: self.written(),
            left_out: self.left_out.load(Ordering::SeqCst),
        }
    }

    /// Returns the reason why the output ended before its run, if it did.
    pub fn end(&self) -> Option<OutputEnd> {
        end_of(self.end.load(Ordering::SeqCst))
    }

    /// Returns the state of the output.
    pub fn state(&self) -> OutputState {
        let counts = self.counts();
        match (self.end(), self.phase.load(Ordering::SeqCst)) {
            (Some(end), _) => OutputState::Ended(counts, end),
            (None, ABSENT) => OutputState::Absent,
            (None, WAITING) => OutputState::Waiting(counts),
            (None, _) => OutputState::Writing(counts),
        }
    }
}

/// Returns the number of a reason.
fn number_of(end: OutputEnd) -> u32
    ensures { result ≡ end_number end }
{
    match end {
        OutputEnd::Write => 1,
        OutputEnd::Slow => 2,
        OutputEnd::Unfit => 3,
        OutputEnd::Closed => 4,
    }
}

/// Returns the reason of a number, or `None` if no reason has it.
fn end_of(number: u32) -> Option<OutputEnd>
    ensures reason { (end : OutputEnd) → number ≡ end_number end → result ≡ Some end }
    ensures none { number ≡ 0 → result ≡ None }
{
    match number {
        1 => Some(OutputEnd::Write),
        2 => Some(OutputEnd::Slow),
        3 => Some(OutputEnd::Unfit),
        4 => Some(OutputEnd::Closed),
        _ => None,
    }
}

/// The progress of all outputs of a run, by their kinds.
#[derive(Drop)]
pub struct RunProgress {
    /// The progress of each output, in the order of `OUTPUT_KINDS`.
    by_kind: [OutputProgress; KIND_COUNT],
}

impl RunProgress {
    /// Returns the progress of a run that has no output yet.
    pub fn new() -> RunProgress {
        RunProgress {
            by_kind: array::from_fn(|_| OutputProgress::new()),
        }
    }

    /// Returns the progress of the output of a kind.
    pub fn of(&self, kind: OutputKind) -> &OutputProgress {
        &self.by_kind[kind.index()]
    }

    /// Returns the states of all outputs.
    pub fn states(&self) -> OutputStates {
        let mut states = OutputStates::new();
        for kind in OUTPUT_KINDS {
            states.set(kind, self.of(kind).state());
        }
        states
    }
}
