//! An observer of a run that keeps the order of its calls.
ghost use Rattle.std.specs.Prelude.{◌≡◌, None, Some, map};

use super::gain_moves::keep;
use engine_run::RunObserver;
use path_merge::Path;
use std::alloc::Global;
use std::process::Abort;
use studio_engine::Engine;
use studio_session::ArriveOutcome;

/// An observer that keeps the order of its calls, and the changes of gains.
#[derive(Drop)]
pub(super) struct OrderOfCalls<'a, R: Abort> {
    rt: &'a R,
    alloc: Global,
    /// A letter for each call: `d` for a datagram, `g` for a change of gains, and `c` for the close.
    pub(super) calls: Vec<u8>,
    pub(super) noted: Vec<(i64, Vec<i32>)>,
}

impl<'a, R: Abort> OrderOfCalls<'a, R> {
    pub(super) fn new(rt: &'a R, alloc: Global) -> OrderOfCalls<'a, R> {
        OrderOfCalls {
            rt,
            alloc,
            calls: Vec::new(alloc),
            noted: Vec::new(alloc),
        }
    }

    /// Keeps the letter of a call.
    fn keep_letter(&mut self, letter: u8)
        ensures noted { self.new.noted ≡ self.old.noted }
    {
        if self.calls.push(letter).is_err() {
            panic!(self.rt; "no memory for a letter")
        }
    }
}

impl<'a, F, R: Abort> RunObserver<F> for OrderOfCalls<'a, R> {
    ghost heard = { λ observer. None };

    ghost noted = { λ observer. Some (map (λ change. (change.0, change.1.items)) observer.noted.items) };

    fn arrived(
        &mut self,
        _engine: &Engine,
        _stream: usize,
        _path: Path,
        _octets: &[u8],
        _outcome: ArriveOutcome,
        _feed: &F,
    ) {
        self.keep_letter(b'd');
    }

    fn changed(&mut self, _engine: &Engine, at: i64, gains: &[i32]) {
        self.keep_letter(b'g');
        keep(self.rt, self.alloc, &mut self.noted, at, gains);
    }

    fn before_wait(&mut self, _engine: &Engine) {}

    fn closed(&mut self, _engine: &Engine) {
        self.keep_letter(b'c');
    }
}
