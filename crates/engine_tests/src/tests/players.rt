//! The tests of the report and the listing of a trace, with readers and writers that fail.
use crate::small_studios::{stream, sum_from};
use std::alloc::Global;
use std::io;
use std::io::{Read, Write};
use std::process::Abort;
use studio_config::StudioSpec;
use studio_run::{PlayFault, list_marks, play};

/// Two packets on the first path, with the readings at which they are due.
const TRACE: &str = "tick 0\n\
    a 0 806000010000000000000001000001000002000003000004000005000006\n\
    a 0 80600002000000060000000100000700000800000900000a00000b00000c\n\
    tick 12\ntick 18\nclose\n";

/// The report of `TRACE`.
const REPORT: &str = "out 806100000000000000000002000001000002000003000004000005000006\n\
    out 80610001000000060000000200000700000800000900000a00000b00000c\n\
    path 0 a offered 2 sent 2 bad 0 type 0 length 0 full 0\n\
    path 0 b offered 0 sent 0 bad 0 type 0 length 0 full 0\n\
    merge 0 arrived 2 taken 2 from_a 2 from_b 0 double 0 unlike 0 off_grid 0 late 0 ahead 0 source 0 \
    got 2 lost 0 restarts 0\n";

/// The listing of the marks of `TRACE`.
const LISTING: &str = "0 slot 65537 0 got 000001000002000003000004000005000006\n\
    0 slot 65538 6 got 00000700000800000900000a00000b00000c\n\
    0 end\n";

/// A reader of a trace that returns one octet per call. One of its calls fails, counted from 1; or none, if that is 0.
#[derive(Drop)]
struct OctetReader<'a> {
    octets: &'a [u8],
    calls: usize,
    failing: usize,
}

impl<'a> OctetReader<'a> {
    fn new(text: &'a str, failing: usize) -> OctetReader<'a> {
        OctetReader {
            octets: text.as_bytes(),
            calls: 0,
            failing,
        }
    }
}

impl Read for OctetReader<'_> {
    fn read(&mut self, buf: &mut [u8]) -> io::Result<usize> {
        self.calls = self.calls.saturating_add(1);
        if self.calls == self.failing {
            return Err(io::Error::from(io::ErrorKind::ConnectionReset));
        }
        let (Some((octet, rest)), Some(place)) = (self.octets.split_first(), buf.first_mut()) else {
            return Ok(0);
        };
        *place = *octet;
        self.octets = rest;
        Ok(1)
    }
}

/// A writer that takes a number of octets, and then fails. It compares what it takes with the text that it expects.
#[derive(Drop)]
struct ShortWriter<'a> {
    expected: &'a [u8],
    space: usize,
    taken: usize,
    is_expected: bool,
}

impl<'a> ShortWriter<'a> {
    fn new(expected: &'a str, space: usize) -> ShortWriter<'a> {
        ShortWriter {
            expected: expected.as_bytes(),
            space,
            taken: 0,
            is_expected: true,
        }
    }

    /// Returns true if it took exactly this many octets, and those are the first of the text.
    fn took(&self, count: usize) -> bool {
        self.is_expected && self.taken == count
    }
}

impl Write for ShortWriter<'_> {
    fn write(&mut self, buf: &[u8]) -> io::Result<usize> {
        let count = buf.len().min(self.space.saturating_sub(self.taken));
        if count == 0 {
            return Err(io::Error::from(io::ErrorKind::BrokenPipe));
        }
        let rest = self.expected.get(self.taken..).unwrap_or(&[]);
        self.is_expected &= rest.starts_with(&buf[..count]);
        self.taken = self.taken.saturating_add(count);
        Ok(count)
    }

    fn flush(&mut self) -> io::Result<()> {
        Ok(())
    }
}

/// The two texts of a trace.
#[derive(Clone, Copy, Debug)]
enum Kind {
    Report,
    Listing,
}

impl Kind {
    /// Returns the text of the trace.
    fn text(self) -> &'static str {
        match self {
            Kind::Report => REPORT,
            Kind::Listing => LISTING,
        }
    }

    /// Writes the text of what a reader returns.
    fn write<R: Read, W: Write>(
        self,
        alloc: Global,
        studio: &StudioSpec,
        reader: &mut R,
        writer: &mut W,
    ) -> Result<(), PlayFault> {
        match self {
            Kind::Report => play(alloc, studio, reader, writer),
            Kind::Listing => list_marks(alloc, studio, reader, writer),
        }
    }
}

const KINDS: [Kind; 2] = [Kind::Report, Kind::Listing];

/// Returns the studio of one stream, whose first datagram has sequence number 0. None if an allocation fails.
fn one_stream(alloc: Global) -> Option<StudioSpec> {
    let spec = stream(6, 12, 2).ok()?;
    sum_from(alloc, &[spec], 6, 0)
}

/// Both texts are whole if the reader returns one octet per call.
#[test]
fn a_trace_is_read_octet_by_octet(rt: HostRuntime) {
    let studio = one_stream(rt.alloc()).expect(&rt, "there is memory");
    for kind in KINDS {
        let reader = &mut OctetReader::new(TRACE, 0);
        let writer = &mut ShortWriter::new(kind.text(), 1_000);
        let done = kind.write(rt.alloc(), &studio, reader, writer);
        assert!(rt; done.is_ok() && writer.took(kind.text().len()), "{kind:?}");
    }
}

/// A reader that fails at its first, second or last call is reported, and nothing is written.
#[test]
fn a_failed_read_writes_nothing(rt: HostRuntime) {
    let studio = one_stream(rt.alloc()).expect(&rt, "there is memory");
    // The last call returns no octet, since the trace has ended.
    let last = TRACE.len() + 1;
    for kind in KINDS {
        for failing in [1, 2, last] {
            let reader = &mut OctetReader::new(TRACE, failing);
            let writer = &mut ShortWriter::new(kind.text(), 1_000);
            let done = kind.write(rt.alloc(), &studio, reader, writer);
            assert!(rt;
                matches!(done, Err(PlayFault::Read)),
                "{kind:?}: read {failing}"
            );
            assert!(rt;
                writer.took(0) && reader.calls == failing,
                "{kind:?}: read {failing}"
            );
        }
    }
}

/// A writer that fails after a number of octets has exactly the first octets of the text, for each number of them:
/// after ten a report is `out 806100`.
#[test]
fn a_failed_write_leaves_the_first_octets(rt: HostRuntime) {
    let studio = one_stream(rt.alloc()).expect(&rt, "there is memory");
    assert!(rt; REPORT.as_bytes().starts_with(b"out 806100"));
    for kind in KINDS {
        for space in 0..kind.text().len() {
            let reader = &mut TRACE.as_bytes();
            let writer = &mut ShortWriter::new(kind.text(), space);
            let done = kind.write(rt.alloc(), &studio, reader, writer);
            assert!(rt;
                matches!(done, Err(PlayFault::Write)),
                "{kind:?}: {space} octets"
            );
            assert!(rt; writer.took(space), "{kind:?}: {space} octets");
        }
    }
}

/// Returns true if a text was written whole. Returns false if an allocation failed, and then nothing was written.
fn is_written(rt: &impl Abort, alloc: Global, studio: &StudioSpec, kind: Kind) -> bool {
    let writer = &mut ShortWriter::new(kind.text(), 1_000);
    match kind.write(alloc, studio, &mut TRACE.as_bytes(), writer) {
        Ok(()) => {
            assert!(rt; writer.took(kind.text().len()));
            true
        }
        Err(fault) => {
            assert!(rt; matches!(fault, PlayFault::Memory), "only memory can lack");
            assert!(rt; writer.took(0), "nothing is written");
            false
        }
    }
}

/// Both texts are written twice: if one allocation fails, at most one of the calls returns an error, and that one
/// writes nothing.
#[test]
fn each_refused_allocation_of_a_text_is_answered(rt: HostRuntime) {
    let alloc = rt.alloc();
    // The allocation that fails may be one of the studio's, so that is tried twice as well.
    let studio = one_stream(alloc).or_else(|| one_stream(alloc));
    let studio = studio.expect(&rt, "with memory again");
    for kind in KINDS {
        let first = is_written(&rt, alloc, &studio, kind);
        let second = is_written(&rt, alloc, &studio, kind);
        assert!(rt; first || second, "with memory again: {kind:?}");
    }
}
