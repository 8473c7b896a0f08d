//! Clients at real sockets, with the server and the clients in one thread.
use super::sample::{facts, snapshot};
use status_page::{MAX_CLIENTS, Page, PageServer};
use std::alloc::Global;
use std::hash::RandomState;
use std::io::{ErrorKind, Read, Write};
use std::net::{Net, SocketAddr, TcpStream};
use std::process::Abort;
use std::time::Duration;

/// A request, and the response to it.
const REQUEST: &[u8] = b"GET /nothing HTTP/1.1\r\nHost: localhost\r\n\r\n";

const ANSWER: &[u8] = b"HTTP/1.1 404 Not Found\r\ncache-control: no-store\r\n\
    x-content-type-options: nosniff\r\nx-frame-options: DENY\r\n\
    content-security-policy: default-src 'none'; style-src 'unsafe-inline'; script-src 'unsafe-inline'; \
    connect-src 'self'; img-src data:; frame-ancestors 'none'\r\ncontent-length: 0\r\n\r\n";

/// The outcome of a client: it was answered, it was disconnected, or it waits.
enum Fate {
    Answered,
    LetGo,
    Waits,
}

/// Returns the outcome of a client.
fn fate_of(client: &mut TcpStream) -> Fate {
    let mut buffer = [0; 400];
    match client.read(&mut buffer) {
        Ok(0) => Fate::LetGo,
        Ok(count) if &buffer[..count] == ANSWER => Fate::Answered,
        Err(fault) if fault.kind() == ErrorKind::WouldBlock => Fate::Waits,
        _ => Fate::LetGo,
    }
}

/// Sends a request from a client.
fn ask(rt: &impl Abort, client: &mut TcpStream) {
    assert!(rt; client.write_all(REQUEST).is_ok());
    assert!(rt; client.set_nonblocking(true).is_ok());
}

/// Returns the numbers of clients that were answered, and that were removed.
fn fates_of(clients: &mut [TcpStream]) -> (u32, u32) {
    let (mut answered, mut let_go) = (0u32, 0u32);
    for client in clients.iter_mut() {
        match fate_of(client) {
            Fate::Answered => answered = answered.saturating_add(1),
            Fate::LetGo => let_go = let_go.saturating_add(1),
            Fate::Waits => {}
        }
    }
    (answered, let_go)
}

/// Returns this many clients of a server at this address, each of which sends a request.
fn clients_of(
    rt: &(impl Abort + Net<Stream = TcpStream>),
    alloc: Global,
    address: SocketAddr,
    count: usize,
) -> Vec<TcpStream> {
    let mut clients = Vec::new(alloc);
    for _ in 0..count {
        let mut client = TcpStream::connect(rt, address).expect(rt, "a connection");
        ask(rt, &mut client);
        assert!(rt; clients.push(client).is_ok());
    }
    clients
}

/// Lets a server take what its clients send.
fn take_turns(server: &mut PageServer, page: &mut Page) {
    for turn in 0..20 {
        server.wait(Duration::from_millis(10));
        server.turn(page, Duration::from_millis(turn));
    }
}

/// Tests that this many clients were answered, and this many removed.
fn have_fates(rt: &impl Abort, clients: &mut [TcpStream], wanted: (u32, u32)) {
    assert!(rt; fates_of(clients) == wanted);
}

/// Tests that a server answers 64 of 70 clients, and disconnects all after 10 s.
fn serves(rt: &impl Abort, server: &mut PageServer, page: &mut Page, clients: &mut [TcpStream]) {
    take_turns(server, page);
    have_fates(rt, clients, (64, 6));
    server.turn(page, Duration::from_secs(11));
    have_fates(rt, clients, (0, 70));
}

/// Tests that with a page that has something to show.
fn serves_page(rt: &impl Abort, alloc: Global, server: &mut PageServer, clients: &mut [TcpStream]) {
    serves(
        rt,
        server,
        &mut Page::new(alloc, facts(), snapshot()),
        clients,
    );
}

/// 70 clients at once: 64 are answered, and the others are disconnected. The 64 do nothing more, and are disconnected
/// after 10 s.
#[test]
fn clients_are_answered_or_let_go(rt: HostRuntime) {
    let keys = RandomState::new(&rt).expect(&rt, "random octets");
    let mut server = PageServer::bind(&rt, rt.alloc(), keys, 0).expect(&rt, "a port");
    let address = server.address().expect(&rt, "an address");
    let mut clients = clients_of(&rt, rt.alloc(), address, MAX_CLIENTS + 6);
    serves_page(&rt, rt.alloc(), &mut server, &mut clients);
}
