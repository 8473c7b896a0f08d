//! The socket from which a run reports its state to a service manager, in the protocol of sd_notify(3).

use crate::service::ManagerSocket;
use libc::net::{_SS_SIZE, AF_UNIX, MSG_DONTWAIT, MSG_NOSIGNAL, SOCK_CLOEXEC, SOCK_DGRAM};
use os::FromRawFd;
use std::os::fd::{AsRawFd, OwnedFd};

/// The greatest length of a path or an abstract name, in octets.
// C's `sockaddr_un` has 108 octets for either, and the last one of a path is zero.
const MAX_NAME: usize = 107;

/// The octets of an address before its path or name: those of its family.
const FAMILY_OCTETS: usize = 2;

/// The socket from which a run reports its state to a service manager.
#[derive(Drop)]
pub(crate) struct NotifySocket {
    socket: OwnedFd,
    /// The manager's address, as C's `sockaddr_un`.
    address: [u8; _SS_SIZE],
    /// The number of octets of the address.
    len: u32,
}

impl NotifySocket {
    /// Returns the socket that sends to the address of `NOTIFY_SOCKET`: a path, or an abstract name behind `@`. Returns
    /// `None` for another address, and if the system has no socket.
    pub(crate) fn to(name: &str) -> Option<NotifySocket> {
        let (address, len) = address_of(name.as_bytes())?;
        let kind = SOCK_DGRAM | SOCK_CLOEXEC;
        let descriptor = unsafe { libc::net::socket(AF_UNIX, kind, 0) };
        if descriptor < 0 {
            return None;
        }
        // Nobody else owns a descriptor that was opened just now.
        let socket = unsafe { OwnedFd::from_raw_fd(descriptor) };
        Some(NotifySocket {
            socket,
            address,
            len,
        })
    }
}

impl ManagerSocket for NotifySocket {
    fn send(&self, lines: &str) -> bool {
        let flags = MSG_NOSIGNAL | MSG_DONTWAIT;
        let len = self.len.min(_SS_SIZE as u32);
        let sent = unsafe {
            libc::net::sendto(
                self.socket.as_raw_fd(),
                lines.as_bytes(),
                flags,
                &self.address,
                len,
            )
        };
        sent >= 0
    }
}

/// Returns an address as C's `sockaddr_un`, and the number of its octets. Returns `None` if it is neither a path from
/// the root nor an abstract name, or too long.
fn address_of(name: &[u8]) -> Option<([u8; _SS_SIZE], u32)> {
    if name.len() > MAX_NAME {
        return None;
    }
    let mut address = [0u8; _SS_SIZE];
    let family = (AF_UNIX as u16).to_ne_bytes();
    for (place, octet) in family.iter().chain(name).enumerate() {
        if let Some(field) = address.get_mut(place) {
            *field = *octet;
        }
    }
    let len = name.len().saturating_add(FAMILY_OCTETS) as u32;
    match name.first() {
        // The zero behind a path counts.
        Some(b'/') => Some((address, len.saturating_add(1))),
        Some(b'@') => {
            if let Some(first) = address.get_mut(FAMILY_OCTETS) {
                *first = 0;
            }
            Some((address, len))
        }
        _ => None,
    }
}
