//! The first socket of a run that could not be opened, for a message to people.

use crate::sockets::SocketConfig;
use crate::sockets::addresses::addresses_of;
use rtp_stream::Path;
use std::alloc::{AllocError, Global};
use std::fmt::{Display, Formatter};
use std::net::{Ipv4Addr, SocketAddrV4};
use std::{fmt, io};
use studio_config::StudioSpec;
use thiserror::Error;

/// The system's error for a place that another socket of the run has.
pub(crate) const ADDRESS_IN_USE: i32 = libc::EADDRINUSE;

/// A socket that could not be opened: what it is for, its address, and the reason.
#[derive(Clone, Copy, Debug, PartialEq, Eq, Error)]
pub enum UnopenedSocket {
    /// The socket of a path: the stream's number and the path's letter, and the address and port.
    #[error("stream {0} path {1} at {2}: {3}")]
    Path(usize, &'static str, SocketAddrV4, SystemReason),
    /// The socket that sends a copy of the mix: the copy's name, and the address that it sends from.
    #[error("copy {0} of the mix from {1}: {2}")]
    Copy(&'static str, Ipv4Addr, SystemReason),
}

/// The reason of the system, by its error number; 0 if there is none.
#[derive(Clone, Copy, Debug, PartialEq, Eq)]
pub struct SystemReason(i32);

impl Display for SystemReason {
    fn fmt<W: fmt::Write>(&self, f: &mut Formatter<W>) -> fmt::Result {
        match self.0 {
            0 => Display::fmt("no usable UDP socket", f),
            code => Display::fmt(&io::Error::from_raw_os_error(code), f),
        }
    }
}

/// Returns the first socket of a run of this studio that could not be opened, if there is one. Returns `AllocError` if
/// an allocation fails.
pub fn unopened_socket(
    alloc: Global,
    studio: &StudioSpec,
    config: SocketConfig<'_>,
) -> Result<Option<UnopenedSocket>, AllocError> {
    let Some((index, code)) = config.health.unopened() else {
        return Ok(None);
    };
    let addresses = addresses_of(alloc, studio)?;
    let reason = SystemReason(code);
    // The sockets of the paths come first, then those of the two copies.
    if let (Some(address), Some(port)) = (addresses.get(index), config.ports.paths.get(index)) {
        let (stream, name) = path_at(studio, index);
        let place = SocketAddrV4::new(address.at, *port);
        return Ok(Some(UnopenedSocket::Path(stream, name, place, reason)));
    }
    let output = &studio.networks().output;
    let (name, from) = if index == addresses.len() {
        ("a", output.from_a)
    } else {
        ("b", output.from_b)
    };
    let from = from.unwrap_or(Ipv4Addr::LOCALHOST);
    Ok(Some(UnopenedSocket::Copy(name, from, reason)))
}

/// Returns the stream's number and the name of the path with an index among the paths of all streams.
fn path_at(studio: &StudioSpec, index: usize) -> (usize, &'static str) {
    let mut left = index;
    for (number, stream) in studio.streams().iter().enumerate() {
        let paths = usize::from(stream.paths());
        if left < paths {
            let path = u8::try_from(left).ok().and_then(Path::new);
            return (number, path.map_or("?", |path| path.letter()));
        }
        left = left.saturating_sub(paths);
    }
    (0, "?")
}
