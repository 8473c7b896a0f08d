//! The line with the addresses of a run: of its paths, of the mix and of the page.

use live_io::{STDERR, Sockets, is_ready};
use rtp_stream::Path;
use std::io;
use std::io::Write;
use std::net::SocketAddr;
use studio_config::StudioSpec;

/// Writes one line with the addresses of the paths, of the mix and of the page, if it has one. The line is left out if
/// standard error would block. Errors of the write are ignored.
pub(crate) fn write_address_line<W: Write>(
    studio: &StudioSpec,
    sockets: &Sockets<'_>,
    page: Option<SocketAddr>,
    writer: &mut W,
) {
    if is_ready(STDERR, libc::net::POLLOUT) {
        let _ = write_line(studio, sockets, page, writer);
    }
}

/// Writes the line. Returns the error of the first write that fails.
fn write_line<W: Write>(
    studio: &StudioSpec,
    sockets: &Sockets<'_>,
    page: Option<SocketAddr>,
    writer: &mut W,
) -> io::Result<()> {
    write!(writer, "live")?;
    write_addresses(studio, sockets, writer)?;
    if let Some(address) = page {
        write!(writer, " page=http://{address}/")?;
    }
    writeln!(writer)
}

/// Writes the address of each path and of the mix's two copies, as ` 0a=ADDRESS:PORT .. to_a=.. to_b=..`.
fn write_addresses<W: Write>(
    studio: &StudioSpec,
    sockets: &Sockets<'_>,
    writer: &mut W,
) -> io::Result<()> {
    let mut first = 0usize;
    for (stream, spec) in studio.streams().iter().enumerate() {
        write_paths(stream, spec.paths(), first, sockets, writer)?;
        first = first.saturating_add(usize::from(spec.paths()));
    }
    let [to_a, to_b] = sockets.sink.addresses();
    write!(writer, " to_a={to_a} to_b={to_b}")
}

/// Writes the addresses of a stream's paths. `first` is the index of the first path's socket.
fn write_paths<W: Write>(
    stream: usize,
    paths: u8,
    first: usize,
    sockets: &Sockets<'_>,
    writer: &mut W,
) -> io::Result<()> {
    for number in 0..paths {
        let index = first.saturating_add(usize::from(number));
        if let (Some(path), Some(receiver)) = (Path::new(number), sockets.receiving.get(index)) {
            let (letter, address) = (path.letter(), receiver.address());
            write!(writer, " {stream}{letter}={address}")?;
        }
    }
    Ok(())
}
