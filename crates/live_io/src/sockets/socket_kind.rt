//! The kind of a descriptor that was passed in: a UDP socket at an IPv4 address, or not.
ghost use Rattle.std.specs.Prelude.{◌≡◌, ◌≢◌, ◌<◌, ◌^◌, ◌<ℤ◌, ℕ, pos, None, IfSome};
ghost use Rattle.live_io.specs.Links.{link_text, socket_text};

use crate::sockets::udp_table::{UDP_TABLE, is_listed};
use itoa::Buffer;
use libc::net;
use os::FromRawFd;
use pcap_file::decimal_number;
use std::net::{SocketAddr, UdpSocket};
use std::os::fd::IntoRawFd;

/// The kernel's tables of other sockets than UDP's that have IPv4 addresses and no connections: raw sockets, those of
/// ICMP, and UDP-Lite's.
const OTHER_TABLES: [&[u8]; 3] = [
    b"/proc/self/net/raw",
    b"/proc/self/net/icmp",
    b"/proc/self/net/udplite",
];

/// The path of a descriptor's link, in which the digits of its number replace slashes from the end.
// Several slashes in a path have the effect of one, so the number needs no fixed place.
const LINK: [u8; 24] = *b"/proc/self/fd///////////";

/// The greatest number of octets of a socket's link, `socket:[INODE]`, with an inode of 20 digits, and more.
const MAX_LINK: usize = 32;

/// Returns true if a descriptor is a UDP socket at an IPv4 address, as far as the system says. The descriptor stays
/// open.
///
/// The kernel's tables say what kind a socket of this process's network is. A socket that no table lists, such as one
/// of another network, is refused if it is a stream socket.
pub(crate) fn is_udp_socket(descriptor: i32) -> bool {
    if !has_ipv4_address(descriptor) {
        return false;
    }
    let Some(inode) = inode_of(descriptor) else {
        return false;
    };
    if is_listed(UDP_TABLE, inode) {
        return true;
    }
    for table in OTHER_TABLES {
        if is_listed(table, inode) {
            return false;
        }
    }
    !is_stream_socket(descriptor)
}

/// Returns the inode of a socket, or `None` if the descriptor is not a socket.
// What a link says is up to the system, so no clause says more of a descriptor.
pub(crate) fn inode_of(descriptor: i32) -> Option<u64>
    ensures { descriptor <ℤ pos 0 → result ≡ None }
{
    let path = link_path(u32::try_from(descriptor).ok()?);
    let mut target = [0u8; MAX_LINK];
    let len = usize::try_from(os::readlink(&path, &mut target)).ok()?;
    inode_in(target.get(..len)?)
}

/// Returns the path of a descriptor's link.
fn link_path(descriptor: u32) -> [u8; 24]
    ensures { result ≡ link_text descriptor }
{
    let mut digits = Buffer::new();
    let digits = digits.format(descriptor).as_bytes();
    let mut path = LINK;
    let start = path.len() - digits.len();
    path[start..].copy_from_slice(digits);
    path
}

/// Returns the inode in a socket's link, `socket:[INODE]`, or `None` if it is the link of something else.
fn inode_in(target: &[u8]) -> Option<u64>
    ensures socket { IfSome result (λ inode. target.now ≡ socket_text inode) }
    ensures other { result ≡ None → (inode : ℕ) → inode < 2 ^ 63 → target.now ≢ socket_text inode }
{
    let Some(rest) = target.strip_prefix(b"socket:[") else {
        return None;
    };
    let Some(digits) = rest.strip_suffix(b"]") else {
        return None;
    };
    decimal_number(digits)
}

/// Returns true if a descriptor is a socket at an IPv4 address.
fn has_ipv4_address(descriptor: i32) -> bool {
    if descriptor < 0 {
        return false;
    }
    let socket = unsafe { UdpSocket::from_raw_fd(descriptor) };
    let is_ipv4 = matches!(&socket.local_addr(), Ok(SocketAddr::V4(_)));
    // Without this the socket would be closed here.
    let _ = socket.into_raw_fd();
    is_ipv4
}

/// Returns true if a socket has an option that only TCP has, or is one that receives nothing without a connection.
fn is_stream_socket(descriptor: i32) -> bool {
    has_tcp_option(descriptor) || needs_connection(descriptor)
}

/// Returns true if a socket has the option `TCP_NODELAY`.
fn has_tcp_option(descriptor: i32) -> bool {
    let mut value = [0; 16];
    let mut len = 4;
    let answer = unsafe {
        net::getsockopt(
            descriptor,
            net::IPPROTO_TCP,
            net::TCP_NODELAY,
            &mut value,
            &mut len,
        )
    };
    answer == 0
}

/// Returns true if a receive fails because the socket has no connection. It takes no datagram, and does not wait.
fn needs_connection(descriptor: i32) -> bool {
    let flags = net::MSG_PEEK | net::MSG_DONTWAIT;
    let mut octets = [0u8; 1];
    let count = unsafe { net::recv(descriptor, &mut octets, flags) };
    count < 0 && os::errno() == libc::ENOTCONN
}
