//! Datagrams as they are printed.

use anyhow::ensure;
use std::fmt;
use studio_io::MemorySink;

/// Displays a datagram of L24 samples: the 12 octets of its header, and then its samples. Equal samples in a row are
/// one entry with a count, such as `20 x 0003e8`.
#[derive(Clone, Copy)]
struct DatagramText<'a> {
    datagram: &'a [u8],
}

impl<'a> fmt::Display for DatagramText<'a> {
    fn fmt<W: fmt::Write>(&self, f: &mut fmt::Formatter<W>) -> fmt::Result {
        let (head, samples) = self.datagram.split_at(self.datagram.len().min(12));
        write_octets(f, head)?;
        let (mut sample, mut times) = (head, 0u32);
        for next in samples.chunks(3) {
            if next != sample {
                write_run(f, sample, times)?;
                (sample, times) = (next, 0);
            }
            times = times.saturating_add(1);
        }
        write_run(f, sample, times)
    }
}

/// Writes a sample that comes this many times in a row.
fn write_run<W: fmt::Write>(f: &mut fmt::Formatter<W>, sample: &[u8], times: u32) -> fmt::Result {
    match times {
        0 => return Ok(()),
        1 => write!(f, " ")?,
        _ => write!(f, " {times} x ")?,
    }
    write_octets(f, sample)
}

/// Writes two hexadecimal digits for each octet.
fn write_octets<W: fmt::Write>(f: &mut fmt::Formatter<W>, octets: &[u8]) -> fmt::Result {
    for octet in octets {
        write!(f, "{octet:02x}")?;
    }
    Ok(())
}

/// Prints a datagram.
pub(super) fn print_datagram(rt: &impl Print, datagram: &[u8]) -> anyhow::Result<()> {
    println!(rt; "{}", DatagramText { datagram })?;
    Ok(())
}

/// Prints the datagrams that a sink kept, unless it was out of memory for one of them.
pub(super) fn print_kept(rt: &impl Print, sink: &MemorySink) -> anyhow::Result<()> {
    ensure!(sink.is_whole(), "out of memory");
    for datagram in sink.kept() {
        print_datagram(rt, datagram)?;
    }
    Ok(())
}
