//! The server of the page: its listener and its clients. `served` has the pages that it can serve, `client` a client's
//! turn, `times` the limits on its requests, `unanswered` the reads of the gains among them, `descriptors` the limit on
//! its socket, and `source` the snapshots and the loop of the page's thread.
use crate::server::client::{Client, Progress};
use crate::server::descriptors::DescriptorLimit;
use crate::server::served::{GainsAnswer, ServedPage};
use mio::net::{TcpListener, TcpStream};
use mio::{Events, Interest, Poll, Token};
use slab::Slab;
use std::alloc::Global;
use std::hash::RandomState;
use std::io;
use std::net::{Ipv4Addr, Net, SocketAddr};
use std::os::fd::AsRawFd;
use std::time::Duration;

pub(crate) mod client;
mod descriptors;
pub(crate) mod served;
pub(crate) mod source;
mod times;
mod unanswered;

/// The greatest number of clients at the same time. A further one takes the place of the client that has been longest
/// without a complete request.
// An open page and a scraper use a connection or two each. The limit bounds the memory of the server.
pub const MAX_CLIENTS: usize = 64;

/// The greatest number of events of one poll.
// More than there are sockets, which are 64 clients and the listener.
const MAX_EVENTS: usize = 128;

/// The greatest number of connections that are accepted in one turn.
// A limit, so that clients which connect again and again do not keep the others from their turns.
const MAX_AT_ONCE: u32 = 256;

/// The token of the listener.
// Clients have the numbers of their places, which are less.
const LISTENER: Token = Token(MAX_CLIENTS);

/// The server of the page: a listener at 127.0.0.1 and its clients.
#[derive(Drop)]
pub struct PageServer {
    alloc: Global,
    keys: RandomState,
    poll: Poll,
    events: Events,
    listener: TcpListener,
    clients: Slab<Client>,
    /// The place of the client that has the first turn.
    first: usize,
    descriptors: DescriptorLimit,
}

impl PageServer {
    /// Returns a server that listens at a port of 127.0.0.1; at 0 the system picks one. Returns the system's error if
    /// it refuses, or `ErrorKind::OutOfMemory` if an allocation fails.
    pub fn bind(
        net: &impl Net,
        alloc: Global,
        keys: RandomState,
        port: u16,
    ) -> io::Result<PageServer> {
        let address = SocketAddr::new(Ipv4Addr::LOCALHOST.into(), port);
        let mut listener = TcpListener::bind(net, address)?;
        let poll = Poll::new(net)?;
        poll.registry()
            .register(&mut listener, LISTENER, Interest::READABLE)?;
        Ok(PageServer {
            alloc,
            keys,
            poll,
            events: Events::with_capacity(alloc, MAX_EVENTS)?,
            listener,
            clients: Slab::with_capacity(alloc, MAX_CLIENTS)?,
            first: 0,
            descriptors: DescriptorLimit::read(),
        })
    }

    /// Returns the address at which the server listens, or the system's error if it cannot be read.
    pub fn address(&self) -> io::Result<SocketAddr> {
        self.listener.local_addr()
    }

    /// Waits until a socket is ready, but no longer than `most`, and not at all if a client is ready already.
    pub fn wait(&mut self, most: Duration) {
        let most = if self.has_more() {
            Duration::ZERO
        } else {
            most
        };
        // An error is ignored: clients that are ready have their turns all the same.
        let _ = self.poll.poll(&mut self.events, Some(most));
    }

    /// Returns true if a client is ready to read or write at once.
    fn has_more(&self) -> bool {
        for place in 0..MAX_CLIENTS {
            if let Some(client) = self.clients.get(place) {
                if client.progress == Progress::Ready {
                    return true;
                }
            }
        }
        false
    }

    /// Gives each client that is ready its turn, disconnects those that are done, that neither read nor wrote for 10 s,
    /// or whose request is not complete 10 s after its first octet, and accepts new ones. `now` is the reading of a
    /// monotonic clock. Call it after each `wait`.
    pub fn turn<P: ServedPage>(&mut self, page: &mut P, now: Duration) {
        self.note_ready();
        self.run_turns(page, now);
        // New clients come last: they may get the places of clients that were just disconnected.
        self.take_clients(page, now);
    }

    /// Gives each client its turn, but those that may read the gains only until one of them has.
    // A read of the gains waits for the run. So all other requests wait for at most one of them. The next turn begins
    // behind the client that had it, so that each has its turn.
    fn run_turns<P: ServedPage>(&mut self, page: &mut P, now: Duration) {
        let first = self.first;
        let mut may_read = true;
        for number in 0..MAX_CLIENTS {
            let place = first.wrapping_add(number) % MAX_CLIENTS;
            if self.turn_at(place, page, now, may_read) == GainsAnswer::Read {
                may_read = false;
                self.first = place + 1;
            }
        }
    }

    /// Reads, answers and writes for the client at a place, and disconnects it if it is done. Returns the part of the
    /// gains in the answer that ended its turn.
    fn turn_at<P: ServedPage>(
        &mut self,
        place: usize,
        page: &mut P,
        now: Duration,
        may_read: bool,
    ) -> GainsAnswer {
        let answered = run_turn_at(&mut self.clients, place, page, now, may_read);
        if is_done_at(&self.clients, place, now) {
            remove_client(&mut self.clients, place);
        }
        answered
    }

    /// Notes which clients are ready.
    fn note_ready(&mut self) {
        // The listener's token is no client's place. Each turn accepts new clients, also without its event.
        for event in self.events.iter() {
            if let Some(client) = self.clients.get_mut(event.token().0) {
                client.progress = Progress::Ready;
            }
        }
    }

    /// Returns true if each client sent a complete request at the time `since` or later, and has its whole response.
    fn has_answered_since(&self, since: Duration) -> bool {
        for place in 0..MAX_CLIENTS {
            if let Some(client) = self.clients.get(place) {
                if !client.is_answered_since(since) {
                    return false;
                }
            }
        }
        true
    }

    /// Accepts the clients that wait, and disconnects those at once whose descriptor is one of the last below the
    /// limit.
    fn take_clients<P: ServedPage>(&mut self, page: &P, now: Duration) {
        for _ in 0..MAX_AT_ONCE {
            let Ok((stream, _)) = self.listener.accept() else {
                return;
            };
            if self.has_space(&stream) {
                self.take(page, stream, now);
            }
        }
    }

    /// Returns true if a client's socket leaves enough descriptors to the run. Otherwise it is dropped, and so closed.
    fn has_space(&self, stream: &TcpStream) -> bool {
        match u64::try_from(stream.as_raw_fd()) {
            Ok(descriptor) => self.descriptors.allows(descriptor),
            Err(_) => false,
        }
    }

    /// Adds a client. If there is no place for it, the one that has been longest without a complete request is
    /// disconnected. The new one is disconnected if the system refuses to poll it or an allocation fails.
    // So no number of clients that hold their connections keeps others from the page.
    fn take<P: ServedPage>(&mut self, page: &P, mut stream: TcpStream, now: Duration) {
        if self.clients.len() >= MAX_CLIENTS {
            remove_longest_waiting(&mut self.clients);
        }
        if self.register_client(&mut stream) {
            let client = Client::new(stream, page.connection(self.alloc, self.keys), now);
            keep(&mut self.clients, client);
        }
    }

    /// Registers the socket of a client that gets the next free place, and returns true if the system allows it.
    fn register_client(&self, stream: &mut TcpStream) -> bool {
        let token = Token(self.clients.vacant_key());
        let both = Interest::READABLE | Interest::WRITABLE;
        self.poll.registry().register(stream, token, both).is_ok()
    }
}

/// Reads, answers and writes for the client at a place, if there is one. Returns the part of the gains in the answer
/// that ended its turn.
// This function and those below only borrow the clients, so that few functions hold sockets.
fn run_turn_at<P: ServedPage>(
    clients: &mut Slab<Client>,
    place: usize,
    page: &mut P,
    now: Duration,
    may_read: bool,
) -> GainsAnswer {
    match clients.get_mut(place) {
        Some(client) => client.run_turn(page, now, may_read),
        None => GainsAnswer::Neither,
    }
}

/// Returns true if there is a client at a place that is to be disconnected.
fn is_done_at(clients: &Slab<Client>, place: usize, now: Duration) -> bool {
    match clients.get(place) {
        Some(client) => client.is_done(now),
        None => false,
    }
}

/// Disconnects the client that has been longest without a complete request.
fn remove_longest_waiting(clients: &mut Slab<Client>) {
    if let Some(place) = longest_waiting(clients) {
        remove_client(clients, place);
    }
}

/// Returns the place of the client that has been longest without a complete request: since its last one, or since it
/// connected. Returns `None` if there is no client.
fn longest_waiting(clients: &Slab<Client>) -> Option<usize> {
    let mut longest: Option<usize> = None;
    let mut least = Duration::MAX;
    for place in 0..MAX_CLIENTS {
        if let Some(client) = clients.get(place) {
            if longest.is_none() || client.complete_at() < least {
                longest = Some(place);
                least = client.complete_at();
            }
        }
    }
    longest
}

/// Disconnects the client at a place.
fn remove_client(clients: &mut Slab<Client>, place: usize) {
    let _ = clients.try_remove(place);
}

/// Keeps a client. It is disconnected if an allocation fails.
fn keep(clients: &mut Slab<Client>, client: Client) {
    let _ = clients.insert(client);
}
