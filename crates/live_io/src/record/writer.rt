//! The writer of a record, which moves blocks from the ring to the record's file.
ghost use Rattle.std.specs.Prelude.{◌≡◌, ◌+◌, ◌^◌, ◌≤◌, ◌<◌, ℕ, List, [], Option, Some, length, take};
ghost use Rattle.std.specs.Prelude.{true, IfSome, IfOk, IfErr, OnOk};
ghost use Rattle.std.specs.Io.KnownBytes.{Appends};
ghost use Rattle.rtrb.specs.Ring.{received};
ghost use Rattle.live_io.specs.RecordFile.{IsCut};
ghost use Rattle.live_io.specs.RecordWriter.{FailsBehind, HasWritten, IsRecorded, SeesNone};

use crate::record::file::RecordFile;
use pcap_file::{WholeBlocks, whole_blocks};
use rtrb::Consumer;
use std::alloc::{AllocError, Global};
use std::io::{ErrorKind, Write};
use std::sync::Wait;
use std::thread::Parker;
use std::time::Duration;
use studio_io::{OutputEnd, OutputProgress};

/// The number of octets that are taken from the ring at once, at most.
// More than the longest block has, so a block always becomes whole.
const BUFFER_OCTETS: usize = 65_536;

/// The pause of the writer if the ring is empty, in milliseconds.
// The ring holds far more than arrives in that time, so the run's thread never has to wake the writer.
const PAUSE_MS: u64 = 10;

/// The result of writing a record's file.
#[derive(Clone, Copy, PartialEq, Eq)]
pub struct FileResult {
    /// The number of datagrams in the whole blocks that were written.
    pub datagrams: u64,
    /// True if a write failed. Nothing was written after it.
    pub failed: bool,
    /// True if the file ends with a whole block: no write failed, or the file was cut behind the last whole block.
    pub is_whole: bool,
}

/// The blocks that are left of a write that failed.
#[derive(Clone, Copy, PartialEq, Eq)]
pub(crate) struct FailedWrite {
    /// The extent of the whole blocks that were written.
    pub(crate) kept: WholeBlocks,
    /// True if the file was cut behind them.
    pub(crate) is_cut: bool,
}

/// The end of a ring from which blocks are taken, with what is known of the file to which they go.
#[derive(Drop)]
pub struct RecordWriter<'a> {
    ring: Consumer<u8>,
    /// The buffer for the octets that were taken from the ring.
    octets: Vec<u8>,
    /// The number of octets in the buffer that are left over: a prefix of a block that is not whole yet.
    held: usize,
    /// The number of octets in the file.
    len: u64,
    /// The number of datagrams that were written.
    datagrams: u64,
    /// The number of paths, whose interfaces are the first. A packet on another one is a change of gains.
    paths: u32,
    /// The progress of the record, in which the number of datagrams so far is set.
    recorded: &'a OutputProgress,
}

impl<'a> RecordWriter<'a> {
    /// Returns the writer from a ring to an empty file, of the record of a run with this many paths. Returns
    /// `AllocError` if an allocation fails.
    pub(crate) fn new(
        alloc: Global,
        ring: Consumer<u8>,
        paths: u32,
        recorded: &'a OutputProgress,
    ) -> Result<RecordWriter<'a>, AllocError>
        ensures fresh { IfOk result (λ writer. received ring ≡ [] → HasWritten (Some []) writer) }
        ensures paths { IfOk result (λ writer. writer.paths ≡ paths) }
    {
        let mut octets = Vec::with_capacity(alloc, BUFFER_OCTETS)?;
        octets.resize(BUFFER_OCTETS, 0)?;
        Ok(RecordWriter {
            ring,
            octets,
            held: 0,
            len: 0,
            datagrams: 0,
            paths,
            recorded,
        })
    }

    /// Writes the blocks that are whole by now, and returns the number of octets that were taken from the ring. After a
    /// failed write it returns the result of the whole file.
    fn write_some<D: RecordFile>(&mut self, file: &mut D) -> Result<usize, FileResult>
        ensures written { OnOk result (HasWritten (D.Write.contents file.old) self.old
            → HasWritten (D.Write.contents file.new) self.new) }
        ensures empty { IfOk result (λ taken. taken ≡ 0 → SeesNone self.old self.new) }
        ensures failed { IfErr result (λ ended. HasWritten (D.Write.contents file.old) self.old
            → IsRecorded (D.Write.contents file.new) self.new ended) }
    {
        // Only whole blocks are written, so the file ends with a whole one unless a write fails.
        let octets = self.octets.as_mut_slice();
        let held = self.held.min(octets.len());
        let taken = self.ring.pop_partial_slice(&mut octets[held..]);
        let end = held + taken;
        let blocks = whole_blocks(&octets[..end], self.paths);
        let Some(len) = end_of(self.len, blocks.len) else {
            return Err(FileResult {
                datagrams: self.datagrams,
                failed: true,
                is_whole: true,
            });
        };
        if let Err(failed) = append_blocks(file, self.paths, self.len, &octets[..blocks.len]) {
            return Err(FileResult {
                datagrams: self.datagrams.saturating_add(failed.kept.datagrams),
                failed: true,
                is_whole: failed.is_cut,
            });
        }
        octets.copy_within(blocks.len..end, 0);
        self.held = end - blocks.len;
        self.len = len;
        self.datagrams = self.datagrams.saturating_add(blocks.datagrams);
        Ok(taken)
    }

    /// Returns the result of a file to which all was written that is whole.
    fn written(&self) -> FileResult
        ensures { (contents : Option (List ℕ)) → HasWritten contents self.now → IsRecorded contents self.now result }
    {
        FileResult {
            datagrams: self.datagrams,
            failed: false,
            is_whole: true,
        }
    }
}

/// Writes whole blocks, of a record of this many paths, to the end of a file of `len` octets. If a write fails, it cuts
/// the file behind the last whole block that was written.
fn append_blocks<D: RecordFile>(
    file: &mut D,
    paths: u32,
    len: u64,
    octets: &[u8],
) -> Result<(), FailedWrite>
    ensures ok { OnOk result (Appends (D.Write.contents file.old) (D.Write.contents file.new) octets.now) }
    ensures failed { IfErr result
        (FailsBehind paths (D.Write.contents file.old) (D.Write.contents file.new) len octets.now) }
{
    let done = write_front(file, octets);
    if done == octets.len() {
        return Ok(());
    }
    let kept = whole_blocks(&octets[..done], paths);
    let is_cut = match end_of(len, kept.len) {
        Some(end) => cut_to(file, end),
        None => false,
    };
    Err(FailedWrite { kept, is_cut })
}

/// Returns the length of a file to which this many octets are added, if 64 bits hold it.
fn end_of(len: u64, more: usize) -> Option<u64>
    ensures sum { IfSome result (λ end. end ≡ len + more) }
    ensures small { IfSome result (λ end. end < 2 ^ 64) }
{
    len.checked_add(more as u64)
}

/// Cuts a file to its first octets, and returns true if it could be cut.
fn cut_to<D: RecordFile>(file: &mut D, len: u64) -> bool
    ensures { result ≡ true → IsCut (D.Write.contents file.old) (D.Write.contents file.new) len }
{
    match file.cut(len) {
        Ok(()) => true,
        Err(_) => false,
    }
}

/// Writes octets, and returns the number of those that were written: all of them, or those before a write that failed.
fn write_front<W: Write>(file: &mut W, octets: &[u8]) -> usize
    ensures written { Appends (W.contents file.old) (W.contents file.new) (take result octets.now) }
    ensures within { result ≤ length octets.now }
{
    let mut done = 0;
    // The label names the loop in its proof.
    'writes: for _ in 0..u64::MAX {
        if done == octets.len() {
            return done;
        }
        match file.write(&octets[done..]) {
            Ok(0) => return done,
            Ok(count) => done += count,
            // A signal came before anything was written.
            Err(fault) if fault.kind() == ErrorKind::Interrupted => {}
            Err(_) => return done,
        }
    }
    done
}

/// Writes the blocks that come through the ring to an empty file, until the ring's other end was dropped and it is
/// empty, or a write fails. It blocks the calling thread until then. If the record ends before its run, it reports that
/// to the file at that moment.
pub fn write_record<R: Wait, D: RecordFile>(
    rt: &R,
    writer: &mut RecordWriter<'_>,
    file: &mut D,
) -> FileResult
    ensures { HasWritten (D.Write.contents file.old) writer.old
        → IsRecorded (D.Write.contents file.new) writer.new result }
{
    let recorded = writer.recorded;
    let parker = Parker::new();
    let mut reported = false;
    'turns: for _ in rt.forever() {
        // This is read before the ring: once it is true nothing more is put, so a ring that is empty then is the end.
        let is_last = writer.ring.is_abandoned();
        match writer.write_some(file) {
            Ok(0) => {
                recorded.set_written(writer.datagrams);
                // Only now, when all blocks before the record's end are in the file.
                reported = report_end(recorded, reported, writer.datagrams, file);
                if is_last {
                    return writer.written();
                }
                parker.park_timeout(rt, Duration::from_millis(PAUSE_MS));
            }
            Ok(_) => recorded.set_written(writer.datagrams),
            Err(ended) => {
                recorded.set_written(ended.datagrams);
                recorded.set_end(OutputEnd::Write);
                report_end(recorded, reported, ended.datagrams, file);
                return ended;
            }
        }
    }
    unreachable!()
}

/// Reports the record's end to its file, if it ended and that was not reported. Returns true if it is reported now.
fn report_end<D: RecordFile>(
    recorded: &OutputProgress,
    reported: bool,
    datagrams: u64,
    file: &mut D,
) -> bool
    ensures { D.Write.contents file.new ≡ D.Write.contents file.old }
{
    match recorded.end() {
        Some(end) if !reported => {
            file.report(end, datagrams);
            true
        }
        _ => reported,
    }
}
