//! A client of the page: its connection, with the limits of its requests, and its turns.
ghost use Rattle.std.specs.Prelude.{◌≡◌};
ghost use Rattle.http_server.specs.Connection.{config_of, history};
ghost use Rattle.http_server.specs.History.{new_history};
ghost use Rattle.status_page.specs.Responses.{IsGuarded, IsGuardedUpTo};

use crate::server::served::{GainsAnswer, ServedPage};
use crate::server::times::RequestTimes;
use crate::server::unanswered::UnansweredReads;
use http_server::{Config, Connection};
use http1::Limits;
use mio::net::TcpStream;
use std::alloc::Global;
use std::hash::RandomState;
use std::io::{ErrorKind, Read};
use std::time::Duration;

/// The greatest number of octets of a request's head, of its trailers and of its body, and of one read.
// More than a browser or Prometheus sends, and a bound on what 64 clients can make the server hold.
const MAX_OCTETS: usize = 8192;

/// The greatest number of octets of a request's body if the gains can be changed.
// 8,192 gains of at most nine octets each, with their commas, are 74,000. So 64 clients can make the server hold 8 MiB
// of bodies, and some more while these grow. A client needs no token for that: the server reads a body before the page
// sees its head.
const MAX_CONTROL_OCTETS: usize = 131_072;

/// The greatest number of reads and writes in one turn.
// A read of a request and the write of its response. With more of them, 64 clients that pipeline requests would keep
// another one waiting for all of these.
const MAX_STEPS: u32 = 2;

/// Returns the connection of a new client, from which nothing was read yet. It refuses a head, trailers or a body of
/// more than 8,192 octets. While a response waits to be sent it reads no request.
pub fn new_connection(alloc: Global, keys: RandomState) -> Connection
    ensures limits { IsGuarded (config_of result) }
    ensures new { history result ≡ new_history }
{
    Connection::new(alloc, keys, config(MAX_OCTETS))
}

/// Returns the connection of a new client of a page whose gains can be changed. It differs from `new_connection` in
/// that it refuses a body only if it has more than 131,072 octets.
pub fn new_control_connection(alloc: Global, keys: RandomState) -> Connection
    ensures limits { IsGuardedUpTo 131072 (config_of result) }
    ensures new { history result ≡ new_history }
{
    Connection::new(alloc, keys, config(MAX_CONTROL_OCTETS))
}

/// Returns the limits of a connection that takes bodies of up to this many octets.
fn config(max_body_len: usize) -> Config
    ensures { IsGuardedUpTo max_body_len result }
{
    Config {
        limits: Limits {
            max_head_len: MAX_OCTETS,
            max_extensions_len: MAX_OCTETS,
            max_trailers_len: MAX_OCTETS,
        },
        max_body_len,
        // So a client that sends requests and reads no response cannot fill the memory with responses.
        max_pending: 0,
        read_size: MAX_OCTETS,
    }
}

/// The state of a client between two turns.
#[derive(Clone, Copy, PartialEq, Eq)]
pub(crate) enum Progress {
    /// The socket would block. The client waits for its next event.
    Blocked,
    /// The client may read or write at once.
    Ready,
    /// The client is to be disconnected.
    Closed,
}

/// A client of the page.
#[derive(Drop)]
pub(crate) struct Client {
    stream: TcpStream,
    connection: Connection,
    times: RequestTimes,
    reads: UnansweredReads,
    pub(crate) progress: Progress,
}

impl Client {
    /// Returns a client that connected at the clock reading `now`.
    pub(crate) fn new(stream: TcpStream, connection: Connection, now: Duration) -> Client {
        // Ready at first: a request may have arrived already.
        Client {
            stream,
            connection,
            times: RequestTimes::new(now),
            reads: UnansweredReads::new(),
            progress: Progress::Ready,
        }
    }

    /// Takes the client's turn if it is ready, and returns the part of the gains in the answer that ended it. A client
    /// that may read the gains has its turn only if `may_read` is true.
    pub(crate) fn run_turn<P: ServedPage>(
        &mut self,
        page: &mut P,
        now: Duration,
        may_read: bool,
    ) -> GainsAnswer {
        if self.progress == Progress::Ready {
            return self.turn(page, now, may_read);
        }
        GainsAnswer::Neither
    }

    /// Returns true if the client is to be disconnected.
    pub(crate) fn is_done(&self, now: Duration) -> bool {
        self.progress == Progress::Closed || self.times.is_overdue(now)
    }

    /// Returns the time of the last octet of the client's last complete request, or of its connection before the first
    /// one.
    pub(crate) fn complete_at(&self) -> Duration {
        self.times.complete_at()
    }

    /// Returns true if the client sent a complete request at the time `since` or later, and has its whole response.
    pub(crate) fn is_answered_since(&self, since: Duration) -> bool {
        self.times.complete_at() >= since && !self.connection.wants_write()
    }

    /// Reads requests and writes responses until the socket would block, the page has asked the run, or the steps of
    /// the turn are used up.
    fn turn<P: ServedPage>(&mut self, page: &mut P, now: Duration, may_read: bool) -> GainsAnswer {
        // A client stays ready until its socket would block: only then does the system send an event again.
        self.progress = Progress::Ready;
        for _ in 0..MAX_STEPS {
            // What is written already is not held up.
            if !may_read && self.reads.may_read() && !self.connection.wants_write() {
                return GainsAnswer::Neither;
            }
            let answered = self.answer(page, now);
            self.progress = self.step(now);
            // The page may have waited for the run, so the others come first.
            if matches!(answered, GainsAnswer::Read | GainsAnswer::Change) {
                return answered;
            }
            if self.progress != Progress::Ready {
                break;
            }
        }
        GainsAnswer::Neither
    }

    /// Responds to the request that was read, if it is complete, and returns the part of the gains in the answer.
    fn answer<P: ServedPage>(&mut self, page: &mut P, now: Duration) -> GainsAnswer {
        if self.connection.wants_write() {
            return GainsAnswer::Neither;
        }
        let answered = page.respond(&mut self.connection, now);
        if matches!(answered, GainsAnswer::Read | GainsAnswer::RefusedRead) {
            self.reads.note_answer();
        }
        // A response follows a complete request. A body that waits for `100 Continue` has another ten seconds.
        if self.connection.wants_write() {
            self.times.note_complete(now);
        }
        answered
    }

    /// Writes once if there is something to write, or else reads once, and returns the client's state.
    fn step(&mut self, now: Duration) -> Progress {
        if self.connection.wants_write() {
            return self.write(now);
        }
        if self.connection.is_done() || !self.connection.wants_read() {
            return Progress::Closed;
        }
        self.read(now)
    }

    /// Reads once, and returns the client's state.
    fn read(&mut self, now: Duration) -> Progress {
        let mut octets = [0; MAX_OCTETS];
        match self.stream.read(&mut octets) {
            Ok(count) => self.take(&octets[..count], now),
            Err(fault) => after(fault.kind()),
        }
    }

    /// Passes octets that were read to the connection, and returns the client's state.
    fn take(&mut self, octets: &[u8], now: Duration) -> Progress {
        self.reads.note(octets);
        let mut unread = octets;
        // A connection has space for as many octets as are read at once, unless an allocation fails.
        if self.connection.read_from(&mut unread).is_err() || !unread.is_empty() {
            return Progress::Closed;
        }
        self.times.note_read(now);
        Progress::Ready
    }

    /// Writes once, and returns the client's state.
    fn write(&mut self, now: Duration) -> Progress {
        match self.connection.write_to(&mut self.stream) {
            Ok(0) => Progress::Closed,
            Ok(_) => {
                self.times.note_write(now);
                Progress::Ready
            }
            Err(fault) => after(fault.kind()),
        }
    }
}

/// Returns the state of a client after an error of its socket.
fn after(kind: ErrorKind) -> Progress {
    match kind {
        ErrorKind::WouldBlock => Progress::Blocked,
        ErrorKind::Interrupted => Progress::Ready,
        _ => Progress::Closed,
    }
}
