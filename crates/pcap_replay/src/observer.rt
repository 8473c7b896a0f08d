//! The observer of a replay, which receives its events and its datagrams.
ghost use Rattle.std.specs.Prelude.{[], ◌≡◌, ◌≤◌, ◌∷◌, ◌++◌, ℕ, List, length};
ghost use Rattle.studio_session.specs.Event.{TraceEvent, Arrival, Closing, Tick};
ghost use Rattle.pcap_replay.specs.Observed.{HasHeardIf};

use rtp_stream::Path;

/// An observer of each event that a replay takes, and of each datagram of the output, in order. The replay waits for
/// each call to return.
pub trait ReplayObserver {
    /// The events and the datagrams that the observer received, in order, while it changed from the first value to the
    /// second.
    ghost heard: { Self → Self → List TraceEvent → List (List ℕ) → Type 0 };

    /// Receives a datagram that arrived on a path.
    fn arrived(&mut self, stream: usize, path: Path, octets: &[u8])
        ensures heard { (begun : Self) (events : List TraceEvent) (datagrams : List (List ℕ))
            → heard begun self.old events datagrams
            → heard begun self.new (events ++ Arrival stream path octets.now ∷ []) datagrams };

    /// Receives a clock reading, in sampling instants at 48 kHz.
    fn read(&mut self, time: i64)
        ensures heard { (begun : Self) (events : List TraceEvent) (datagrams : List (List ℕ))
            → heard begun self.old events datagrams → heard begun self.new (events ++ Tick time ∷ []) datagrams };

    /// Receives the close of the studio, the last event.
    fn closed(&mut self)
        ensures heard { (begun : Self) (events : List TraceEvent) (datagrams : List (List ℕ))
            → heard begun self.old events datagrams → heard begun self.new (events ++ Closing ∷ []) datagrams };

    /// Receives a datagram of the output, an RTP packet with a header of 12 octets.
    fn output(&mut self, datagram: &[u8])
        requires header { 12 ≤ length datagram.now }
        requires short { length datagram.now ≤ 1452 }
        ensures heard { (begun : Self) (events : List TraceEvent) (datagrams : List (List ℕ))
            → heard begun self.old events datagrams → heard begun self.new events (datagrams ++ datagram.now ∷ []) };
}

/// An observer that may be absent.
impl<L: ReplayObserver> ReplayObserver for Option<L> {
    ghost heard = { λ begun now events datagrams. HasHeardIf L.heard begun now events datagrams };

    fn arrived(&mut self, stream: usize, path: Path, octets: &[u8]) {
        if let Some(observer) = self {
            observer.arrived(stream, path, octets);
        }
    }

    fn read(&mut self, time: i64) {
        if let Some(observer) = self {
            observer.read(time);
        }
    }

    fn closed(&mut self) {
        if let Some(observer) = self {
            observer.closed();
        }
    }

    fn output(&mut self, datagram: &[u8]) {
        if let Some(observer) = self {
            observer.output(datagram);
        }
    }
}
