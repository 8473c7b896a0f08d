//! The pages that a server serves.
ghost use Rattle.std.specs.Prelude.{◌≡◌};

use crate::page::Page;
use crate::server::client::new_connection;
use crate::snapshot::Snapshot;
use http_server::Connection;
use std::alloc::Global;
use std::hash::RandomState;
use std::time::Duration;

/// The part of a run's gains in the last answer of its page.
#[derive(Clone, Copy, PartialEq, Eq)]
pub enum GainsAnswer {
    /// It neither showed nor changed them, or there was no answer.
    Neither,
    /// It refused to show them, because they were read too often.
    RefusedRead,
    /// It answered a read, and may have waited for the run.
    Read,
    /// It answered a change, and may have waited for the run.
    Change,
}

/// A page that a `PageServer` serves: a `Page`, or the `ControlPage` of a run whose gains can be changed.
pub trait ServedPage: Drop {
    ghost use Rattle.status_page.specs.declared.snapshot.Snapshot.{Snapshot as Shown};

    /// The snapshot from which the page responds.
    ghost shown: { Self → Shown };

    /// Returns the connection of a new client, from which nothing was read yet, with the limits of this page.
    fn connection(&self, alloc: Global, keys: RandomState) -> Connection;

    /// Responds from a newer snapshot from now on.
    fn show(&mut self, snapshot: Snapshot)
        ensures { shown self.new ≡ snapshot };

    /// Responds to the requests that were read from a client, and returns the part of the gains in the last answer.
    /// `now` is the reading of a monotonic clock.
    fn respond(&mut self, connection: &mut Connection, now: Duration) -> GainsAnswer
        ensures { shown self.new ≡ shown self.old };
}

impl ServedPage for Page {
    ghost shown = { λ page. page.snapshot };

    fn connection(&self, alloc: Global, keys: RandomState) -> Connection {
        new_connection(alloc, keys)
    }

    fn show(&mut self, snapshot: Snapshot) {
        self.update(snapshot);
    }

    fn respond(&mut self, connection: &mut Connection, _now: Duration) -> GainsAnswer {
        self.answer(connection);
        GainsAnswer::Neither
    }
}
