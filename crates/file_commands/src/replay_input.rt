//! The capture that `replay` reads: a file, or a record on standard input whose first octets were already read.
ghost use Rattle.std.specs.Prelude.{◌≡◌, map, pos, IfOk, IfSome, Some};
ghost use Rattle.pcap_file.specs.Described.{interfaces_of};
ghost use Rattle.pcap_file.specs.Entries.{entries_of};
ghost use Rattle.pcap_replay.specs.Record as spec;
ghost use Rattle.pcap_replay.specs.RecordedPaths.{ArePathsOf, texts_of};
ghost use Rattle.studio_config.specs.Shift.{shifted};
ghost use Rattle.file_commands.specs.ReplayedStudio.{HasGains, IsRecorded};

use crate::config::changed_studio;
use crate::fault::{CaptureInputFault, CommandFault};
use pcap_file::ReaderFault;
use pcap_replay::{
    RecordedPath, has_first_packet, record_opening, recorded_paths, recording_fault,
};
use std::alloc::{AllocError, Global};
use std::io;
use std::io::Read;
use studio_config::StudioSpec;

/// The numbers of octets that are read of standard input before the studio is known: each more if those before it have
/// no packet.
// A record begins with its section header and at most 65 interfaces, each of at most 124 octets: 8.1 KiB at most. Tools
// that edit captures add comments and tables of names there. The last number is more than the longest block that is
// read, and a bound for the memory that an input without a packet takes.
const FRONT_OCTETS: [usize; 4] = [16_384, 65_536, 262_144, 1_048_576];

/// As many reads as the last of `FRONT_OCTETS` can take, each of which brings an octet or the input's end.
const MAX_READS: u32 = 1_048_576;

/// A reader whose first octets were already read.
#[derive(Drop)]
pub(crate) struct PeekedInput<'a, R> {
    /// The octets that were read, and not returned yet.
    front: &'a [u8],
    rest: &'a mut R,
}

impl<'a, R: Read> PeekedInput<'a, R> {
    /// Returns the reader of these octets, and then of the others.
    pub(crate) fn new(front: &'a [u8], rest: &'a mut R) -> PeekedInput<'a, R> {
        PeekedInput { front, rest }
    }
}

impl<R: Read> Read for PeekedInput<'_, R> {
    fn read(&mut self, buf: &mut [u8]) -> io::Result<usize> {
        if self.front.is_empty() {
            return self.rest.read(buf);
        }
        let count = self.front.len().min(buf.len());
        buf[..count].copy_from_slice(&self.front[..count]);
        self.front = &self.front[count..];
        Ok(count)
    }
}

/// The first octets of an input.
#[derive(Drop)]
pub(crate) struct InputFront {
    pub(crate) octets: Vec<u8>,
    /// True if the first packet or fault of the capture is among them, or if they are all.
    pub(crate) is_enough: bool,
}

/// Reads the first octets of an input, up to its first packet or fault, but at most 1,048,576.
pub(crate) fn read_front<R: Read>(
    alloc: Global,
    input: &mut R,
) -> Result<InputFront, CommandFault> {
    let mut octets = Vec::new(alloc);
    let mut is_enough = false;
    for size in FRONT_OCTETS {
        if !is_enough {
            let ended = fill_front(&mut octets, size, input)?;
            is_enough = ended || has_packet(alloc, octets.as_slice())?;
        }
    }
    Ok(InputFront { octets, is_enough })
}

/// Returns the fault of an input with these first octets as the command's. If they don't reach to the first packet, the
/// paths that the record seems to lack may be behind them.
pub(crate) fn fault_behind(front: &InputFront, fault: CommandFault) -> CommandFault {
    match fault {
        CommandFault::Capture(CaptureInputFault::Recording(_)) if !front.is_enough => {
            CommandFault::Capture(CaptureInputFault::LongFront)
        }
        other => other,
    }
}

/// Reads an input until this many octets of it are there. Returns true if it ended before.
fn fill_front<R: Read>(
    front: &mut Vec<u8>,
    size: usize,
    input: &mut R,
) -> Result<bool, CommandFault> {
    let mut chunk = [0u8; 4096];
    for _ in 0..MAX_READS {
        let left = size.saturating_sub(front.len()).min(chunk.len());
        if left == 0 {
            return Ok(false);
        }
        match input.read(&mut chunk[..left]) {
            Ok(0) => return Ok(true),
            Ok(count) => push_all(front, &chunk[..count])?,
            Err(_) => return Err(CommandFault::Capture(CaptureInputFault::Unread)),
        }
    }
    Ok(false)
}

/// Returns true if no more octets are needed to know what a capture begins with. A fault of the capture is left to what
/// reads these octets next.
fn has_packet(alloc: Global, front: &[u8]) -> Result<bool, AllocError> {
    match has_first_packet(alloc, front) {
        Ok(reached) => Ok(reached),
        Err(ReaderFault::Memory) => Err(AllocError),
        Err(_) => Ok(true),
    }
}

/// Appends octets.
fn push_all(front: &mut Vec<u8>, octets: &[u8]) -> Result<(), AllocError> {
    for octet in octets {
        front.push(*octet)?;
    }
    Ok(())
}

/// Returns the opening time of the run, in sampling instants, if an input is the record of one.
pub(crate) fn opening_in<R: Read>(alloc: Global, input: &mut R) -> Result<Option<u64>, CommandFault>
    ensures { IfOk result (λ given. IfSome (R.remaining input.old) (λ file. spec.opening_in (entries_of file)
        ≡ given)) }
{
    Ok(record_opening(alloc, input)?)
}

/// Returns the paths that a record describes.
pub(crate) fn paths_in<R: Read>(
    alloc: Global,
    input: &mut R,
) -> Result<Vec<RecordedPath>, CommandFault>
    ensures { IfOk result (λ paths. IfSome (R.remaining input.old) (λ file. map texts_of paths.items
        ≡ interfaces_of file)) }
{
    Ok(recorded_paths(alloc, input)?)
}

/// The run of which a record is.
#[derive(Drop)]
struct RecordedRun {
    /// The opening time, in sampling instants.
    opening: u64,
    paths: Vec<RecordedPath>,
}

/// Returns a configuration's studio, moved to the record that begins with these octets, with the changes of a text of
/// gains. Returns `CaptureInputFault::NoRecord` if no record begins so.
pub(crate) fn recorded_studio(
    alloc: Global,
    studio: StudioSpec,
    front: &[u8],
    gains: &[u8],
) -> Result<StudioSpec, CommandFault>
    ensures { IfOk result (IsRecorded front.now studio gains.now) }
{
    let run = recorded_run(alloc, front)?;
    studio_for(alloc, studio, run.opening, run.paths.as_slice(), gains)
}

/// Returns the run that the record describes which begins with these octets.
fn recorded_run(alloc: Global, front: &[u8]) -> Result<RecordedRun, CommandFault>
    ensures opening { IfOk result (λ run. spec.opening_in (entries_of front.now) ≡ Some run.opening) }
    ensures paths { IfOk result (λ run. map texts_of run.paths.items ≡ interfaces_of front.now) }
{
    let mut start = front;
    let Some(opening) = opening_in(alloc, &mut start)? else {
        return Err(CommandFault::Capture(CaptureInputFault::NoRecord));
    };
    let mut again = front;
    let paths = paths_in(alloc, &mut again)?;
    Ok(RecordedRun { opening, paths })
}

/// Returns a configuration's studio, moved to a record: opened when the recorded run was, with the changes of a text
/// of gains. Returns a fault if the record is of another configuration.
// The gains of a live run change by the run's own clock, so the times of the text are times of the run. The studio is
// moved to the run's opening first, with the changes that the configuration plans, and the text changes that studio.
pub(crate) fn studio_for(
    alloc: Global,
    studio: StudioSpec,
    opening: u64,
    paths: &[RecordedPath],
    gains: &[u8],
) -> Result<StudioSpec, CommandFault>
    ensures paths { IfOk result (λ changed. ArePathsOf 0 studio.streams paths.now) }
    ensures changed { IfOk result (HasGains (shifted (pos opening) studio) gains.now) }
{
    if let Some(fault) = recording_fault(paths, studio.streams()) {
        return Err(CommandFault::Capture(CaptureInputFault::Recording(fault)));
    }
    let opened = opened_studio(alloc, studio, opening)?;
    changed_studio(alloc, &opened, gains)
}

/// Returns a studio that is opened at another time, in sampling instants.
fn opened_studio(
    alloc: Global,
    studio: StudioSpec,
    opening: u64,
) -> Result<StudioSpec, CommandFault>
    ensures { IfOk result (λ opened. opened ≡ shifted (pos opening) studio) }
{
    // A time of 2^63 or more becomes one that `shifted` refuses: it is past 2^60.
    let open_at = i64::try_from(opening).unwrap_or(i64::MAX);
    Ok(studio.shifted(alloc, open_at)?)
}
