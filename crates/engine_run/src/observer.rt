//! The observer of a run, which is notified of what the engine takes.
ghost use Rattle.std.specs.Prelude.{◌≡◌, ℤ, List, [], ◌∷◌, Option, None};
ghost use Rattle.engine_run.specs.Observers.{Heard, Hears, Came, Closed, NotesChanges};

use rtp_stream::Path;
use studio_engine::Engine;
use studio_session::ArriveOutcome;

/// An observer of a run. It is notified of each datagram and each change of gains that the engine took, of each pause,
/// and of the close, in the order of the run.
///
/// Its calls run in the run's thread, so they delay the run.
pub trait RunObserver<F>: Drop {
    /// Everything that the observer was notified of, in order; `None` if that is not known. Once it is not known it
    /// never is again.
    ghost heard: { Self → Option (List Heard) };

    /// The changes of gains that the observer was notified of, in order: the time from which gains are in force, and
    /// the gains, row by row; `None` if they are not known. Once they are not known they never are again.
    ghost noted: { Self → Option (List (ℤ × List ℤ)) };

    /// Notes a datagram of a path, which `feed` just returned. The engine took it at its time and returned `outcome`.
    fn arrived(
        &mut self,
        engine: &Engine,
        stream: usize,
        path: Path,
        octets: &[u8],
        outcome: ArriveOutcome,
        feed: &F,
    )
        ensures heard { Hears (heard self.old) (Came stream path engine.now.time octets.now outcome ∷ [])
            (heard self.new) }
        ensures noted { noted self.new ≡ noted self.old };

    /// Notes a change of gains, which the engine just took at its time: from `at` on these gains are in force, row by
    /// row.
    fn changed(&mut self, engine: &Engine, at: i64, gains: &[i32])
        ensures heard { Hears (heard self.old) [] (heard self.new) }
        ensures noted { NotesChanges (noted self.old) ((at, gains.now) ∷ []) (noted self.new) };

    /// Notes that the run is about to pause. The observer may look at the engine.
    fn before_wait(&mut self, engine: &Engine)
        ensures heard { Hears (heard self.old) [] (heard self.new) }
        ensures noted { noted self.new ≡ noted self.old };

    /// Notes that the engine was closed at its time.
    fn closed(&mut self, engine: &Engine)
        ensures heard { Hears (heard self.old) (Closed engine.now.time ∷ []) (heard self.new) }
        ensures noted { noted self.new ≡ noted self.old };
}

/// An observer that ignores all that it is notified of.
#[derive(Clone, Copy)]
pub struct NoObserver;

impl<F> RunObserver<F> for NoObserver {
    ghost heard = { λ observer. None };

    ghost noted = { λ observer. None };

    fn arrived(
        &mut self,
        _engine: &Engine,
        _stream: usize,
        _path: Path,
        _octets: &[u8],
        _outcome: ArriveOutcome,
        _feed: &F,
    ) {}

    fn changed(&mut self, _engine: &Engine, _at: i64, _gains: &[i32]) {}

    fn before_wait(&mut self, _engine: &Engine) {}

    fn closed(&mut self, _engine: &Engine) {}
}
