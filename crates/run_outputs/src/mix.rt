//! The outputs that take the mix of a run, and the sink that passes it to them.
ghost use Rattle.std.specs.Prelude.{◌≡◌, ◌∷◌, [], ℕ, ℤ, List, Option, None};
ghost use Rattle.studio_io.specs.Sinks.{Hands, Returns};
ghost use Rattle.studio_io.specs.declared.output_kind.OutputKind.{OutputKind};
ghost use Rattle.studio_io.specs.declared.output_state.OutputEnd.{OutputEnd};
ghost use Rattle.run_outputs.specs.Ends.{either_end, end_if};
ghost use Rattle.run_outputs.specs.Events.{Arrived, Changed, TakesIf};
ghost use Rattle.run_outputs.specs.Mixes.{Mixed, mixed_alone, mixed_of};

use crate::events::{ArrivedDatagram, EventOutput, TakenChange};
use studio_io::{Missing, MixedBlock, OutputEnd, OutputKind, SendAnswer, Sink};

/// An output that takes the datagrams of the mix with their blocks, in their order.
///
/// Its call runs in the thread that mixes, so it must not wait.
pub trait MixOutput: Drop {
    /// Holds between the states before and after a datagram of the mix with its block.
    ghost mixes: { Self → Mixed → Self → Type 0 };

    /// The reason why the output of a kind has ended, if this part of it knows one.
    ghost ended: { Self → OutputKind → Option OutputEnd };

    /// Takes a datagram of the mix and its block, after it was sent.
    fn mixed(&mut self, datagram: &[u8], block: &MixedBlock<'_>)
        ensures { mixes self.old (mixed_of datagram.now block.now) self.new };

    /// Returns the reason why the output of a kind has ended, or `None` if it has not, or this part of it knows none.
    fn end_of(&self, kind: OutputKind) -> Option<OutputEnd>
        ensures { result ≡ ended self.now kind };
}

impl<O: MixOutput> MixOutput for Option<O> {
    ghost mixes = { λ old mixed new. TakesIf (λ one other. O.mixes one mixed other) old new };

    ghost ended = { λ output kind. end_if O.ended output kind };

    fn mixed(&mut self, datagram: &[u8], block: &MixedBlock<'_>) {
        if let Some(output) = self {
            output.mixed(datagram, block);
        }
    }

    fn end_of(&self, kind: OutputKind) -> Option<OutputEnd> {
        match self {
            Some(output) => output.end_of(kind),
            None => None,
        }
    }
}

impl<A: MixOutput, B: MixOutput> MixOutput for (A, B) {
    ghost mixes = { λ old mixed new. A.mixes old.0 mixed new.0 × B.mixes old.1 mixed new.1 };

    ghost ended = { λ output kind. either_end (A.ended output.0 kind) (B.ended output.1 kind) };

    fn mixed(&mut self, datagram: &[u8], block: &MixedBlock<'_>) {
        self.0.mixed(datagram, block);
        self.1.mixed(datagram, block);
    }

    fn end_of(&self, kind: OutputKind) -> Option<OutputEnd> {
        match self.0.end_of(kind) {
            Some(end) => Some(end),
            None => self.1.end_of(kind),
        }
    }
}

/// A part of an output that takes nothing.
#[derive(Clone, Copy)]
pub struct NoOutput;

impl MixOutput for NoOutput {
    ghost mixes = { λ old mixed new. new ≡ old };

    ghost ended = { λ output kind. None };

    fn mixed(&mut self, _datagram: &[u8], _block: &MixedBlock<'_>) {}

    fn end_of(&self, _kind: OutputKind) -> Option<OutputEnd> {
        None
    }
}

impl EventOutput for NoOutput {
    ghost arrives = { λ old datagram new. new ≡ old };

    ghost changes = { λ old change new. new ≡ old };

    ghost closes = { λ old time new. new ≡ old };

    ghost ended = { λ output kind. None };

    fn needs_addresses(&self) -> bool {
        false
    }

    fn arrived(&mut self, _datagram: &ArrivedDatagram<'_>) {}

    fn changed(&mut self, _change: &TakenChange<'_>) {}

    fn closed(&mut self, _time: i64) {}

    fn end_of(&self, _kind: OutputKind) -> Option<OutputEnd> {
        None
    }
}

/// A sink, and an output that takes what was sent.
#[derive(Drop)]
pub struct OutputSink<K, M> {
    /// The sink that sends.
    sink: K,
    output: M,
}

impl<K: Sink, M: MixOutput> OutputSink<K, M> {
    /// Returns a sink that passes each datagram to `sink`, and then to `output`.
    pub fn new(sink: K, output: M) -> OutputSink<K, M>
        ensures sink { result.sink ≡ sink }
        ensures output { result.output ≡ output }
    {
        OutputSink { sink, output }
    }

    /// Returns the sink that sends, and the output that takes what was sent.
    pub fn into_parts(self) -> (K, M)
        ensures { result ≡ (self.sink, self.output) }
    {
        let OutputSink { sink, output } = self;
        (sink, output)
    }
}

impl<K: Sink, M: MixOutput> Sink for OutputSink<K, M> {
    ghost handed = { λ sink. K.handed sink.sink };

    ghost answered = { λ sink. K.answered sink.sink };

    fn send(&mut self, datagram: &[u8]) -> SendAnswer
        ensures handed { Hands (K.handed self.old.sink) (datagram.now ∷ []) (K.handed self.new.sink) }
        ensures answered { Returns (K.answered self.old.sink) (result ∷ []) (K.answered self.new.sink) }
        ensures mixed { M.mixes self.old.output (mixed_alone datagram.now) self.new.output }
    {
        let answer = self.sink.send(datagram);
        let block = MixedBlock {
            inputs: &[],
            missing: Missing::NOTHING,
        };
        self.output.mixed(datagram, &block);
        answer
    }

    fn send_block(&mut self, datagram: &[u8], block: &MixedBlock<'_>) -> SendAnswer
        ensures handed { Hands (K.handed self.old.sink) (datagram.now ∷ []) (K.handed self.new.sink) }
        ensures answered { Returns (K.answered self.old.sink) (result ∷ []) (K.answered self.new.sink) }
        ensures mixed { M.mixes self.old.output (mixed_of datagram.now block.now) self.new.output }
    {
        // After it was sent, so that the outputs do not delay the datagram.
        let answer = self.sink.send_block(datagram, block);
        self.output.mixed(datagram, block);
        answer
    }
}
