//! Why the outputs of a run ended before it.
ghost use Rattle.std.specs.Prelude.{◌≡◌};
ghost use Rattle.run_outputs.specs.Ends.{AreEndsOf, either_end, end_in, fault_of, first_fault_in};

use crate::events::EventOutput;
use crate::mix::MixOutput;
use studio_io::{OUTPUT_KINDS, OutputEnd, OutputKind, OutputStates};

/// The reason why the output of each kind ended before its run, as the run's own parts of the outputs say: a part that
/// was too slow, or could not write what came, has ended. What happens to the file of an output, they do not know.
#[derive(Clone, Copy, PartialEq, Eq)]
pub struct OutputEnds {
    record: Option<OutputEnd>,
    wav: Option<OutputEnd>,
    pcm: Option<OutputEnd>,
}

impl OutputEnds {
    /// Returns the reasons that these two parts of a run's outputs say.
    pub fn of_parts<E: EventOutput, M: MixOutput>(events: &E, mix: &M) -> OutputEnds
        ensures { AreEndsOf E.ended M.ended events.now mix.now result }
    {
        OutputEnds {
            record: end_of_parts(events, mix, OutputKind::Record),
            wav: end_of_parts(events, mix, OutputKind::Wav),
            pcm: end_of_parts(events, mix, OutputKind::Pcm),
        }
    }

    /// Returns the reason why the output of a kind ended before its run, or `None` if no part of it says one.
    pub fn of(&self, kind: OutputKind) -> Option<OutputEnd>
        ensures { result ≡ end_in kind self.now }
    {
        match kind {
            OutputKind::Record => self.record,
            OutputKind::Wav => self.wav,
            OutputKind::Pcm => self.pcm,
        }
    }

    /// Returns the first output, in the order of `OUTPUT_KINDS`, that ended before its run by a fault, with the reason:
    /// that of the run's own part of it, or else that of its state, which its writer set. A reader that went away is no
    /// fault of the run.
    pub fn first_fault(&self, states: &OutputStates) -> Option<(OutputKind, OutputEnd)>
        ensures { result ≡ first_fault_in OUTPUT_KINDS self.now states.now }
    {
        first_fault_among(&OUTPUT_KINDS, self, states)
    }

    /// Returns the fault by which the output of a kind ended, if it has one.
    fn fault_of(&self, kind: OutputKind, states: &OutputStates) -> Option<OutputEnd>
        ensures { result ≡ fault_of self.now states.now kind }
    {
        match self.of(kind).or(states.of(kind).end()) {
            None | Some(OutputEnd::Closed) => None,
            Some(end) => Some(end),
        }
    }
}

/// Returns the first output of these kinds that has a fault, with the fault.
#[tactic(auto, unfolding(crate::specs::Ends::first_fault_in))]
fn first_fault_among(
    kinds: &[OutputKind],
    ends: &OutputEnds,
    states: &OutputStates,
) -> Option<(OutputKind, OutputEnd)>
    ensures { result ≡ first_fault_in kinds.now ends.now states.now }
{
    for kind in kinds {
        if let Some(end) = ends.fault_of(*kind, states) {
            return Some((*kind, end));
        }
    }
    None
}

/// Returns the reason why the output of a kind ended, as these two parts say.
fn end_of_parts<E: EventOutput, M: MixOutput>(
    events: &E,
    mix: &M,
    kind: OutputKind,
) -> Option<OutputEnd>
    ensures { result ≡ either_end (E.ended events.now kind) (M.ended mix.now kind) }
{
    match events.end_of(kind) {
        Some(end) => Some(end),
        None => mix.end_of(kind),
    }
}
