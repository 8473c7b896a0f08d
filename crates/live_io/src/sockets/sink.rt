//! The sink of the mix's datagrams: two addresses, each with a socket of its own (SMPTE ST 2022-7).
ghost use Rattle.std.specs.Prelude.{◌≡◌, ◌∷◌, [], ℕ, Bool, List, Option, None, IfOk};
ghost use Rattle.studio_io.specs.Sinks.{Hands, Returns};
ghost use Rattle.live_io.specs.Sending.{AreDestinations, Attempts, IsDestination};

use crate::sockets::SocketConfig;
use crate::sockets::health::SendHealth;
use mio::net::UdpSocket;
use os::FromRawFd;
use std::io::ErrorKind;
use std::net::{IpAddr, Ipv4Addr, Net, SocketAddr};
use std::{io, net};
use studio_config::OutputAddresses;
use studio_io::{SendAnswer, Sink};

/// A socket that sends one copy of the mix.
pub trait SendingSocket: Drop {
    /// All datagrams that the socket was passed, in order, each with true if it took it; `None` if they are not known.
    /// Once they are not known they never are again.
    ghost sends: { Self → Option (List (List ℕ × Bool)) };

    /// Sends a datagram, and returns true if the socket took it. It must not block.
    fn send(&mut self, datagram: &[u8]) -> bool
        ensures sends { Attempts (sends self.old) datagram.now result (sends self.new) };
}

/// A socket that sends to one address and port.
// Not connected: a connected socket reports an ICMP error of an earlier datagram, so every second send would fail while
// nobody listens.
#[derive(Drop)]
pub struct UdpSender {
    socket: UdpSocket,
    to: SocketAddr,
}

impl UdpSender {
    /// Returns a sender to an address and port, by the inherited socket, or else by a new one at an address and a port
    /// of the system's choice. Each of the two addresses is 127.0.0.1 if it is not configured.
    fn bind<R: Net>(
        rt: &R,
        inherited: Option<i32>,
        from: Option<Ipv4Addr>,
        to: Option<Ipv4Addr>,
        port: u16,
        ttl: Option<u8>,
    ) -> io::Result<UdpSender>
        ensures { IfOk result (λ sender. IsDestination to port sender.to) }
    {
        let from = from.unwrap_or(Ipv4Addr::LOCALHOST);
        let to = to.unwrap_or(Ipv4Addr::LOCALHOST);
        let socket = match inherited {
            Some(descriptor) => inherited_sender(descriptor)?,
            None => UdpSocket::bind(rt, SocketAddr::from((from, 0)))?,
        };
        if let Some(ttl) = ttl {
            set_time_to_live(&socket, to, u32::from(ttl))?;
        }
        Ok(UdpSender {
            socket,
            to: SocketAddr::new(IpAddr::V4(to), port),
        })
    }
}

impl SendingSocket for UdpSender {
    ghost sends = { λ sender. None };

    fn send(&mut self, datagram: &[u8]) -> bool {
        self.socket.send_to(datagram, self.to).is_ok()
    }
}

/// Returns the socket of an inherited descriptor, whose sends do not wait. Returns an error if the descriptor is below
/// 0, or the system's if it refuses.
fn inherited_sender(descriptor: i32) -> io::Result<UdpSocket> {
    if descriptor < 0 {
        return Err(io::Error::from(ErrorKind::InvalidInput));
    }
    // Nobody else owns an inherited descriptor: `InheritedSockets` gives each to one use.
    let socket = unsafe { net::UdpSocket::from_raw_fd(descriptor) };
    socket.set_nonblocking(true)?;
    Ok(UdpSocket::from_std(socket))
}

/// Sets the time to live of the datagrams that a socket sends to an address. Returns the system's error if it refuses.
fn set_time_to_live(socket: &UdpSocket, to: Ipv4Addr, ttl: u32) -> io::Result<()> {
    // Datagrams to a group have an option of their own.
    if to.is_multicast() {
        socket.set_multicast_ttl_v4(ttl)
    } else {
        socket.set_ttl(ttl)
    }
}

/// A sink of two sockets, each of which sends a copy of each datagram. A send that fails or would block is a fault of
/// that copy alone.
#[derive(Drop)]
pub struct UdpSink<'a, S = UdpSender> {
    a: S,
    b: S,
    health: &'a SendHealth,
}

impl<'a> UdpSink<'a> {
    /// Returns a sink to two ports at the output's addresses, by the inherited sockets if there are any. Returns the
    /// system's error if it refuses; the health notes which socket that was, behind those of `paths` paths.
    pub(crate) fn bind<R: Net>(
        rt: &R,
        addresses: &OutputAddresses,
        paths: usize,
        config: SocketConfig<'a>,
    ) -> io::Result<UdpSink<'a>>
        ensures { IfOk result (λ sink. AreDestinations addresses.now config.entry.ports.now sink.a.to sink.b.to) }
    {
        let ttl = addresses.ttl;
        let inherited = config.inherited;
        let a = UdpSender::bind(
            rt,
            inherited.to_a,
            addresses.from_a,
            addresses.to_a,
            config.ports.to_a,
            ttl,
        );
        let b = UdpSender::bind(
            rt,
            inherited.to_b,
            addresses.from_b,
            addresses.to_b,
            config.ports.to_b,
            ttl,
        );
        let noted = |index: usize, fault: io::Error| config.health.note_unopened(index, fault);
        let a = a.map_err(|fault| noted(paths, fault))?;
        let b = b.map_err(|fault| noted(paths.saturating_add(1), fault))?;
        Ok(UdpSink::new(a, b, config.health.sends()))
    }

    /// Returns the addresses and ports to which the two copies are sent.
    pub fn addresses(&self) -> [SocketAddr; 2]
        ensures { result ≡ self.now.a.to ∷ self.now.b.to ∷ [] }
    {
        [self.a.to, self.b.to]
    }
}

impl<'a, S: SendingSocket> UdpSink<'a, S> {
    /// Returns a sink of the sockets of the first and the second copy, which notes the sends that fail in `health`.
    pub fn new(a: S, b: S, health: &'a SendHealth) -> UdpSink<'a, S>
        ensures first { result.a ≡ a }
        ensures second { result.b ≡ b }
    {
        UdpSink { a, b, health }
    }
}

impl<S: SendingSocket> Sink for UdpSink<'_, S> {
    ghost handed = { λ sink. None };

    ghost answered = { λ sink. None };

    fn send(&mut self, datagram: &[u8]) -> SendAnswer
        ensures handed { Hands None (datagram.now ∷ []) None }
        ensures answered { Returns None (result ∷ []) None }
        ensures first { Attempts (S.sends self.old.a) datagram.now result.a (S.sends self.new.a) }
        ensures second { Attempts (S.sends self.old.b) datagram.now result.b (S.sends self.new.b) }
    {
        let answer = SendAnswer {
            a: self.a.send(datagram),
            b: self.b.send(datagram),
        };
        self.health.note(answer.a, answer.b);
        answer
    }
}
