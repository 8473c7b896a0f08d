//! Standard error as a live run writes its lines to it.
ghost use Rattle.std.specs.Io.{WritesAtMost};
ghost use Rattle.std.specs.Io.KnownBytes.{WriteAppends};
ghost use Rattle.studio_main.specs.LiveLines.{written_lines};

use live_io::{STDERR, is_ready};
use std::io;
use std::io::Write;

/// The greatest number of octets that a terminal is given at once.
// A terminal counts as ready if it has space for one octet. It makes space in pieces of 256 octets at least, which hold
// so many octets also if each is a line feed, which becomes two.
const MAX_PIECE: usize = 64;

/// Standard error as a live run writes its lines to it: what a terminal does not take at once is left out.
// A pipe that is ready takes 4,096 octets, more than any line has. So a line that was begun there is written whole.
#[derive(Drop)]
pub(crate) struct LiveLines<'a, E> {
    faults: &'a mut E,
    is_terminal: bool,
}

impl<'a, E> LiveLines<'a, E> {
    /// Returns the lines on standard error, which `faults` has to be.
    pub(crate) fn new(faults: &'a mut E) -> LiveLines<'a, E> {
        LiveLines {
            faults,
            is_terminal: libc::isatty(STDERR) == 1,
        }
    }
}

impl<E: Write> Write for LiveLines<'_, E> {
    // What a terminal got is not known: octets are left out.
    ghost contents = { λ lines. written_lines lines.is_terminal (E.contents lines.faults.now) };

    fn write(&mut self, buf: &[u8]) -> io::Result<usize>
        ensures bound { WritesAtMost result buf.now }
        ensures bytes { WriteAppends (written_lines self.old.is_terminal (E.contents self.old.faults.now))
            (written_lines self.new.is_terminal (E.contents self.new.faults.now)) result buf.now }
    {
        if !self.is_terminal {
            return self.faults.write(buf);
        }
        if !is_ready(STDERR, libc::net::POLLOUT) {
            // Left out, and no error: after one the run would write no line any more.
            return Ok(buf.len());
        }
        let len = buf.len().min(MAX_PIECE);
        self.faults.write(&buf[..len])
    }

    fn flush(&mut self) -> io::Result<()> {
        self.faults.flush()
    }
}
