//! The socket that receives a path.
ghost use Rattle.std.specs.Prelude.{◌≤◌, length, IfOk, IfSome};

use crate::sockets::PathReading;
use crate::sockets::health::SocketHealth;
use crate::sockets::retrying::DatagramSocket;
use crate::sockets::socket_kind::inode_of;
use crate::sockets::unexpected::ExpectedSource;
use crate::sockets::whole_datagrams::{RECEIVE_SPACE, copy_whole};
use libc::net::POLLIN;
use libc::types::pollfd;
use os::FromRawFd;
use std::io;
use std::io::ErrorKind;
use std::net::{Ipv4Addr, Net, SocketAddr, SocketAddrV4, UdpSocket};
use std::os::fd::AsRawFd;

/// The receive buffer of a socket, in octets. The system sets less if its own limit is lower.
// 8 MiB, so that a burst after a delayed sender is not dropped.
const RECEIVE_BUFFER: u32 = 8 << 20;

/// The socket that receives a path. Its receives do not wait.
#[derive(Drop)]
pub struct Receiver<'a> {
    socket: UdpSocket,
    /// The space into which it receives.
    space: [u8; RECEIVE_SPACE],
    /// The health that counts the datagrams that are too long, if there is one.
    health: Option<&'a SocketHealth>,
    /// How the socket is read.
    pub(crate) reading: PathReading,
    /// The path's source, if only its datagrams are taken.
    source: Option<ExpectedSource<'a>>,
    /// The address to which the path's datagrams are sent.
    pub(crate) address: SocketAddrV4,
    /// The source address of the last datagram, if sources are kept.
    pub(crate) last_source: SocketAddrV4,
    /// True if the source address of each datagram is kept.
    keeps_sources: bool,
}

impl<'a> Receiver<'a> {
    /// Returns the receiver of a path from its socket. Its address is the one that the socket is bound to, or `address`
    /// if that is 0.0.0.0 or not known.
    pub(crate) fn new(
        socket: UdpSocket,
        reading: PathReading,
        source: Option<ExpectedSource<'a>>,
        address: SocketAddrV4,
        health: Option<&'a SocketHealth>,
    ) -> Receiver<'a> {
        // An inherited socket may be bound elsewhere than the studio says.
        let address = match &socket.local_addr() {
            Ok(SocketAddr::V4(own)) if !own.ip().is_unspecified() => *own,
            _ => address,
        };
        if let Some(health) = health {
            health.set_inode(inode_of(socket.as_raw_fd()));
            health.set_address(*address.ip());
        }
        Receiver {
            socket,
            space: [0; RECEIVE_SPACE],
            health,
            reading,
            source,
            address,
            last_source: SocketAddrV4::new(Ipv4Addr::UNSPECIFIED, 0),
            keeps_sources: false,
        }
    }

    /// Makes the receiver keep the source address of each datagram, which makes each receive slower.
    pub fn keep_sources(&mut self) {
        self.keeps_sources = true;
    }

    /// Returns the socket's descriptor, by which its readiness is polled.
    pub fn descriptor(&self) -> i32 {
        self.socket.as_raw_fd()
    }

    /// Returns the address to which the path's datagrams are sent.
    pub fn address(&self) -> SocketAddrV4 {
        self.address
    }

    /// Receives a datagram into the space, and returns its length in octets, or `None` if it is from an unexpected
    /// source.
    fn receive_own(&mut self) -> io::Result<Option<usize>>
        ensures within { IfOk result (λ own. IfSome own (λ count. count ≤ 2049)) }
    {
        let source = self.source;
        // `recv` is cheaper than `recv_from`.
        if source.is_none() && !self.keeps_sources {
            return Ok(Some(self.socket.recv(&mut self.space)?));
        }
        let (count, from) = self.socket.recv_from(&mut self.space)?;
        if let SocketAddr::V4(from) = from {
            self.last_source = from;
        }
        match source {
            Some(source) if !source.accepts(from) => Ok(None),
            _ => Ok(Some(count)),
        }
    }

    /// Copies the datagram of this length in the space to the start of `buf`, and returns its length. Counts it and
    /// returns `None` if it is too long.
    fn take(&self, count: usize, buf: &mut [u8]) -> Option<usize>
        requires within { count ≤ 2049 }
        ensures { IfSome result (λ count. count ≤ length buf.old) }
    {
        let taken = copy_whole(&self.space[..count], buf);
        if taken.is_none() {
            if let Some(health) = self.health {
                health.note_too_long();
            }
        }
        taken
    }
}

impl DatagramSocket for Receiver<'_> {
    fn receive(&mut self, buf: &mut [u8]) -> io::Result<Option<usize>> {
        match self.receive_own()? {
            Some(count) => Ok(self.take(count, buf)),
            None => Ok(None),
        }
    }

    fn wait(&mut self, milliseconds: i32) -> bool {
        let mut polled = [pollfd {
            fd: self.socket.as_raw_fd(),
            events: POLLIN,
            revents: 0,
        }];
        libc::net::poll(&mut polled, milliseconds) != 0
    }
}

/// Returns a socket that is bound to an address and a port, whose receives do not wait. A shared one may be bound next
/// to others at the same group and port. Returns the system's error if it refuses.
pub(crate) fn receiving_socket<R: Net>(
    rt: &R,
    address: Ipv4Addr,
    port: u16,
    is_shared: bool,
) -> io::Result<UdpSocket> {
    let socket = if is_shared {
        shared_socket(address, port)?
    } else {
        UdpSocket::bind(rt, SocketAddr::from((address, port)))?
    };
    socket.set_nonblocking(true)?;
    set_receive_buffer(&socket);
    Ok(socket)
}

/// Returns a socket that may be bound next to others at the same group and port.
fn shared_socket(address: Ipv4Addr, port: u16) -> io::Result<UdpSocket> {
    // By libc, since SO_REUSEADDR has to be set between `socket` and `bind`, which `UdpSocket::bind` does in one.
    let kind = libc::net::SOCK_DGRAM | libc::net::SOCK_CLOEXEC;
    let descriptor = unsafe { libc::net::socket(libc::net::AF_INET, kind, 0) };
    if descriptor < 0 {
        return Err(io::Error::from_raw_os_error(os::errno()));
    }
    // Owned from here on, so that the descriptor is closed at each error.
    let socket = unsafe { UdpSocket::from_raw_fd(descriptor) };
    share(&socket)?;
    // 16 octets are a `sockaddr_in`.
    let bound = unsafe { libc::net::bind(descriptor, &raw_address(address, port), 16) };
    if bound != 0 {
        return Err(io::Error::from_raw_os_error(os::errno()));
    }
    Ok(socket)
}

/// Returns an address and port as the system's `sockaddr_in`: the family in the machine's octet order, the port and the
/// address in the network's.
fn raw_address(address: Ipv4Addr, port: u16) -> [u8; 128] {
    let mut raw = [0; 128];
    let family = libc::net::AF_INET as u16;
    raw[..2].copy_from_slice(&family.to_ne_bytes());
    raw[2..4].copy_from_slice(&port.to_be_bytes());
    raw[4..8].copy_from_slice(&address.octets());
    raw
}

/// Returns the socket of an inherited descriptor, whose receives do not wait from then on. Its receive buffer stays as
/// its opener set it. Returns an error if the descriptor is below 0, or the system's if it refuses.
pub(crate) fn inherited_socket(descriptor: i32) -> io::Result<UdpSocket> {
    if descriptor < 0 {
        return Err(io::Error::from(ErrorKind::InvalidInput));
    }
    // Nobody else owns an inherited descriptor: `InheritedSockets` gives each to one use.
    let socket = unsafe { UdpSocket::from_raw_fd(descriptor) };
    socket.set_nonblocking(true)?;
    Ok(socket)
}

/// Sets the receive buffer of a socket. The system may set less, and an error is ignored: nothing depends on the size.
fn set_receive_buffer(socket: &UdpSocket) {
    let value = option_of(RECEIVE_BUFFER);
    let _ = unsafe {
        libc::net::setsockopt(
            socket.as_raw_fd(),
            libc::net::SOL_SOCKET,
            libc::net::SO_RCVBUF,
            &value,
            4,
        )
    };
}

/// Allows other sockets at the address and port to which a socket will be bound. Returns the system's error if it
/// refuses.
fn share(socket: &UdpSocket) -> io::Result<()> {
    let value = option_of(1);
    let set = unsafe {
        libc::net::setsockopt(
            socket.as_raw_fd(),
            libc::net::SOL_SOCKET,
            libc::net::SO_REUSEADDR,
            &value,
            4,
        )
    };
    if set == 0 {
        Ok(())
    } else {
        Err(io::Error::from_raw_os_error(os::errno()))
    }
}

/// Returns the value of a socket's option in the machine's octet order. Its first four octets are the value.
// The others are unused: `setsockopt` of `libc` takes an array of 16 octets, as `bind` takes one of 128.
fn option_of(value: u32) -> [u8; 16] {
    let [a, b, c, d] = value.to_ne_bytes();
    [a, b, c, d, 0, 0, 0, 0, 0, 0, 0, 0, 0, 0, 0, 0]
}
