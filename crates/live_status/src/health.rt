//! The health of a run in a snapshot: of the sockets of its paths, of its sends, and of its outputs.
ghost use Rattle.std.specs.Prelude.{◌≡◌};
ghost use Rattle.live_status.specs.Each.{AreEach};
ghost use Rattle.live_status.specs.Health.{
  FillsSocket,
  FillsSockets,
  HasHealth,
  OfFailed,
  OfIncomplete,
  OfLeftOut,
  OfOutputs,
  OfSentLate,
  OfSocket,
  OfStale,
  Said,
};

use status_page::{PathState, Snapshot, SocketState, StreamState};
use studio_io::OutputStates;

/// A source of the health of a run: the numbers that its threads last reported. No call waits.
pub trait HealthSource: Drop {
    /// Holds of what it may say.
    ghost says: { Self → Said → Type 0 };

    /// Returns the state of the socket of a path, by the numbers of its stream and of the path from 0. Returns `None`
    /// if it is not known.
    fn socket(&self, stream: usize, path: usize) -> Option<SocketState>
        ensures { says self.now (OfSocket stream path result) };

    /// Returns for each of the two copies of the mix the number of datagrams that were not sent.
    fn failed_sends(&self) -> [u64; 2]
        ensures { says self.now (OfFailed result) };

    /// Returns the number of datagrams of the mix that were left out because they were stale.
    fn stale(&self) -> u64
        ensures { says self.now (OfStale result) };

    /// Returns the number of datagrams of the mix in whose block a stream was missing, sent or not.
    fn incomplete(&self) -> u64
        ensures { says self.now (OfIncomplete result) };

    /// Returns the number of datagrams of the mix that were sent later than a whole one.
    fn sent_late(&self) -> u64
        ensures { says self.now (OfSentLate result) };

    /// Returns the number of datagrams of the mix that were left out because whole copies come from elsewhere.
    fn left_out(&self) -> u64
        ensures { says self.now (OfLeftOut result) };

    /// Returns the states of the run's outputs.
    fn outputs(&self) -> OutputStates
        ensures { says self.now (OfOutputs result) };
}

/// Fills in the health of a run: the socket of each path, the sends that failed or were left out, the datagrams in
/// which a stream was missing, and the states of the run's outputs.
pub fn fill_health<H: HealthSource>(health: &H, snapshot: &mut Snapshot)
    ensures streams { AreEach (FillsSockets (H.says health.now)) snapshot.old.streams.items snapshot.new.streams.items }
    ensures outputs { snapshot.new.outputs ≡ snapshot.old.outputs }
    ensures health { HasHealth (H.says health.now) snapshot.new }
{
    snapshot.failed_sends = health.failed_sends();
    snapshot.stale = health.stale();
    snapshot.incomplete = health.incomplete();
    snapshot.sent_late = health.sent_late();
    snapshot.left_out = health.left_out();
    snapshot.run_outputs = health.outputs();
    fill_sockets(health, snapshot.streams.as_mut_slice());
}

/// Fills in the socket of each path of each stream.
fn fill_sockets<H: HealthSource>(health: &H, streams: &mut [StreamState])
    ensures { AreEach (FillsSockets (H.says health.now)) streams.old streams.new }
{
    for (number, stream) in streams.iter_mut().enumerate() {
        fill_stream_sockets(health, number, stream);
    }
}

/// Fills in the socket of each path of the stream of this number.
fn fill_stream_sockets<H: HealthSource>(health: &H, number: usize, stream: &mut StreamState)
    ensures { FillsSockets (H.says health.now) number stream.old stream.new }
{
    fill_path_sockets(health, number, stream.paths.as_mut_slice());
}

/// Fills in the socket of each of these paths, which are those of the stream of this number.
fn fill_path_sockets<H: HealthSource>(health: &H, number: usize, paths: &mut [PathState])
    ensures { AreEach (FillsSocket (H.says health.now) number) paths.old paths.new }
{
    for (place, path) in paths.iter_mut().enumerate() {
        fill_socket(health, number, place, path);
    }
}

/// Fills in the socket of the path at a place, of the stream of this number.
fn fill_socket<H: HealthSource>(health: &H, number: usize, place: usize, path: &mut PathState)
    ensures { FillsSocket (H.says health.now) number place path.old path.new }
{
    path.socket = health.socket(number, place);
}
