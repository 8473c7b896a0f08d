//! The states of all outputs of a run, by their kinds.
ghost use Rattle.std.specs.Prelude.{◌≡◌};
ghost use Rattle.studio_io.specs.Outputs.{state_of, with_state};
ghost use Rattle.studio_io.specs.declared.output_state.OutputState.TheVariants.{Absent};

use crate::output_kind::{KIND_COUNT, OutputKind};
use crate::output_state::OutputState;

/// The state of the output of each kind.
#[derive(Clone, Copy, PartialEq, Eq)]
pub struct OutputStates {
    /// The states, in the order of `OUTPUT_KINDS`.
    by_kind: [OutputState; KIND_COUNT],
}

impl OutputStates {
    /// Returns the states of a run without outputs.
    pub fn new() -> OutputStates
        ensures { (kind : OutputKind) → state_of kind result ≡ Absent }
    {
        OutputStates {
            by_kind: [OutputState::Absent; KIND_COUNT],
        }
    }

    /// Returns the state of the output of a kind.
    pub fn of(&self, kind: OutputKind) -> OutputState
        ensures { result ≡ state_of kind self.now }
    {
        self.by_kind[kind.index()]
    }

    /// Sets the state of the output of a kind. The states of the other kinds stay as they are.
    pub fn set(&mut self, kind: OutputKind, state: OutputState)
        ensures { self.new ≡ with_state kind state self.old }
    {
        self.by_kind[kind.index()] = state;
    }
}
