//! The outputs that take the events of a run, and the events.
ghost use Rattle.std.specs.Prelude.{◌≡◌, ℤ, Option};
ghost use Rattle.studio_io.specs.declared.output_kind.OutputKind.{OutputKind};
ghost use Rattle.studio_io.specs.declared.output_state.OutputEnd.{OutputEnd};
ghost use Rattle.run_outputs.specs.Ends.{either_end, end_if};
ghost use Rattle.run_outputs.specs.Events.{Arrived, Changed, TakesIf, arrived_of, changed_of};

use rtp_stream::Path;
use std::net::SocketAddrV4;
use studio_io::{OutputEnd, OutputKind};

/// The path on which a datagram arrived, and its two addresses.
#[derive(Clone, Copy, PartialEq, Eq)]
pub struct DatagramOrigin {
    /// The path's index among the paths of all streams, ordered by stream and then by path.
    pub path_index: u32,
    /// The address from which it was sent.
    pub source: SocketAddrV4,
    /// The address to which it was sent.
    pub destination: SocketAddrV4,
}

/// A datagram that arrived and that the run took.
#[derive(Clone, Copy)]
pub struct ArrivedDatagram<'a> {
    /// The number of its stream.
    pub stream: usize,
    /// The path of the stream.
    pub path: Path,
    /// The path's index, and the addresses of the datagram.
    pub origin: DatagramOrigin,
    /// The clock reading by which the run judged it, in sampling instants.
    pub time: i64,
    /// Its octets.
    pub octets: &'a [u8],
}

/// A change of gains that a run took.
#[derive(Clone, Copy)]
pub struct TakenChange<'a> {
    /// The clock reading before it, in sampling instants.
    pub time: i64,
    /// The time from which the gains are in force, in sampling instants.
    pub at: i64,
    /// The number of the next block of the mix.
    pub next_block: u64,
    /// The gains from that time on, row by row, in units of 1/65,536.
    pub gains: &'a [i32],
}

/// An output that takes the events of a run, in their order: each datagram that arrived, each change of gains, and the
/// close.
///
/// Its calls run in the run's thread, so they must not wait.
// No call has a default body: a body is proved once for all outputs, and could not say what the members of each say.
pub trait EventOutput: Drop {
    /// Holds between the states before and after a datagram that arrived.
    ghost arrives: { Self → Arrived → Self → Type 0 };

    /// Holds between the states before and after a change of gains.
    ghost changes: { Self → Changed → Self → Type 0 };

    /// Holds between the states before and after the close, which has this time.
    ghost closes: { Self → ℤ → Self → Type 0 };

    /// The reason why the output of a kind has ended, if this part of it knows one.
    ghost ended: { Self → OutputKind → Option OutputEnd };

    /// Returns true if it needs the addresses of each datagram. Otherwise the run may leave them out.
    fn needs_addresses(&self) -> bool;

    /// Takes a datagram that arrived.
    fn arrived(&mut self, datagram: &ArrivedDatagram<'_>)
        ensures { arrives self.old (arrived_of datagram.now) self.new };

    /// Takes a change of gains.
    fn changed(&mut self, change: &TakenChange<'_>)
        ensures { changes self.old (changed_of change.now) self.new };

    /// Takes the close of the run, whose last clock reading is `time`, in sampling instants.
    fn closed(&mut self, time: i64)
        ensures { closes self.old time self.new };

    /// Returns the reason why the output of a kind has ended, or `None` if it has not, or this part of it knows none.
    fn end_of(&self, kind: OutputKind) -> Option<OutputEnd>
        ensures { result ≡ ended self.now kind };
}

impl<O: EventOutput> EventOutput for Option<O> {
    ghost arrives = { λ old datagram new. TakesIf (λ one other. O.arrives one datagram other) old new };

    ghost changes = { λ old change new. TakesIf (λ one other. O.changes one change other) old new };

    ghost closes = { λ old time new. TakesIf (λ one other. O.closes one time other) old new };

    ghost ended = { λ output kind. end_if O.ended output kind };

    fn needs_addresses(&self) -> bool {
        match self {
            Some(output) => output.needs_addresses(),
            None => false,
        }
    }

    fn arrived(&mut self, datagram: &ArrivedDatagram<'_>) {
        if let Some(output) = self {
            output.arrived(datagram);
        }
    }

    fn changed(&mut self, change: &TakenChange<'_>) {
        if let Some(output) = self {
            output.changed(change);
        }
    }

    fn closed(&mut self, time: i64) {
        if let Some(output) = self {
            output.closed(time);
        }
    }

    fn end_of(&self, kind: OutputKind) -> Option<OutputEnd> {
        match self {
            Some(output) => output.end_of(kind),
            None => None,
        }
    }
}

impl<A: EventOutput, B: EventOutput> EventOutput for (A, B) {
    ghost arrives = { λ old datagram new. A.arrives old.0 datagram new.0 × B.arrives old.1 datagram new.1 };

    ghost changes = { λ old change new. A.changes old.0 change new.0 × B.changes old.1 change new.1 };

    ghost closes = { λ old time new. A.closes old.0 time new.0 × B.closes old.1 time new.1 };

    ghost ended = { λ output kind. either_end (A.ended output.0 kind) (B.ended output.1 kind) };

    fn needs_addresses(&self) -> bool {
        self.0.needs_addresses() || self.1.needs_addresses()
    }

    fn arrived(&mut self, datagram: &ArrivedDatagram<'_>) {
        self.0.arrived(datagram);
        self.1.arrived(datagram);
    }

    fn changed(&mut self, change: &TakenChange<'_>) {
        self.0.changed(change);
        self.1.changed(change);
    }

    fn closed(&mut self, time: i64) {
        self.0.closed(time);
        self.1.closed(time);
    }

    fn end_of(&self, kind: OutputKind) -> Option<OutputEnd> {
        match self.0.end_of(kind) {
            Some(end) => Some(end),
            None => self.1.end_of(kind),
        }
    }
}
