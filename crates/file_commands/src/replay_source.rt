//! The capture that is replayed: its kind, and the studio and the rule for changes of gains that it is replayed by.
ghost use Rattle.std.specs.Prelude.{◌≡◌, ◌≢◌, ℕ, pos, [], None, IfOk};
ghost use Rattle.studio_config.specs.Shift.{shifted};
ghost use Rattle.file_commands.specs.ReplayedStudio.{HasGains, IsRecorded};

use crate::capture_flows::{RECORD_GAP, routes_at};
use crate::config::changed_studio;
use crate::fault::CommandFault;
use crate::host::{Host, open_capture};
use crate::replay_input::{opening_in, paths_in, recorded_studio, studio_for};
use command_line::ReplayArgs;
use pcap_file::CaptureFault;
use pcap_flows::Routes;
use pcap_replay::{RecordedChanges, RecordedPath, ReplayObserver, replay, replay_record};
use std::alloc::Global;
use std::io::{Read, Write};
use studio_config::StudioSpec;

/// The number of sampling instants in a second.
const INSTANTS_A_SECOND: u64 = 48_000;

/// The kind of a capture, which is known before it is replayed.
#[derive(Drop)]
pub(crate) enum CaptureKind {
    /// The record of a live run.
    Record,
    /// Another capture, with the routes of its flows.
    Flows(Routes),
}

/// The kind of a capture, and the studio that plays it.
#[derive(Drop)]
pub(crate) struct ReplaySource {
    pub(crate) studio: StudioSpec,
    kind: CaptureKind,
    /// The rule for the changes of gains of a record.
    changes: RecordedChanges,
    /// The longest step of a record's clock that is no fault, in sampling instants.
    longest: u64,
}

impl ReplaySource {
    /// Writes the report of a capture that is read, and reports each event and each datagram to an observer. Returns
    /// the fault of a record's last block, if it is cut.
    pub(crate) fn play<R: Read, W: Write, L: ReplayObserver>(
        &self,
        alloc: Global,
        input: &mut R,
        output: &mut W,
        observer: &mut L,
    ) -> Result<Option<CaptureFault>, CommandFault>
        requires fresh { L.heard observer.old observer.old [] [] }
    {
        let studio = &self.studio;
        match &self.kind {
            CaptureKind::Record => {
                let (changes, longest) = (self.changes, self.longest);
                Ok(replay_record(alloc, studio, changes, longest, input, output, observer)?)
            }
            CaptureKind::Flows(routes) => {
                replay(alloc, studio, routes.list(), input, output, observer)?;
                Ok(None)
            }
        }
    }
}

/// Returns the kind of the capture at a path, and the studio for it, with the changes of a text of gains.
pub(crate) fn source_of<H: Host>(
    host: &H,
    alloc: Global,
    studio: StudioSpec,
    gains: &[u8],
    args: &ReplayArgs<'_>,
) -> Result<ReplaySource, CommandFault>
    ensures record { IfOk result (λ source. source.kind ≡ CaptureKind.Record
        → (opening : ℕ) × HasGains (shifted (pos opening) studio) gains.now source.studio) }
    ensures flows { IfOk result (λ source. source.kind ≢ CaptureKind.Record
        → HasGains studio gains.now source.studio) }
    ensures taken { args.now.gains ≡ None → IfOk result
        (λ source. source.kind ≡ CaptureKind.Record → source.changes ≡ RecordedChanges.Taken) }
    ensures skipped { args.now.gains ≢ None → IfOk result (λ source. source.changes ≡ RecordedChanges.Skipped) }
{
    match opening_at(host, alloc, args.file)? {
        Some(opening) => record_source(host, alloc, studio, opening, gains, args),
        None => flow_source(host, alloc, &studio, gains, args),
    }
}

/// Returns the opening time of the run, in sampling instants, if the capture at a path is the record of one.
fn opening_at<H: Host>(host: &H, alloc: Global, path: &str) -> Result<Option<u64>, CommandFault> {
    opening_in(alloc, &mut open_capture(host, path)?)
}

/// Returns the paths that the record at a path describes.
fn paths_at<H: Host>(
    host: &H,
    alloc: Global,
    path: &str,
) -> Result<Vec<RecordedPath>, CommandFault> {
    paths_in(alloc, &mut open_capture(host, path)?)
}

/// Returns a record as a source: with a configuration's studio, opened when the recorded run was, and the changes of a
/// text of gains.
fn record_source<H: Host>(
    host: &H,
    alloc: Global,
    studio: StudioSpec,
    opening: u64,
    gains: &[u8],
    args: &ReplayArgs<'_>,
) -> Result<ReplaySource, CommandFault>
    ensures kind { IfOk result (λ source. source.kind ≡ CaptureKind.Record) }
    ensures studio { IfOk result (λ source. HasGains (shifted (pos opening) studio) gains.now source.studio) }
    ensures taken { args.now.gains ≡ None → IfOk result (λ source. source.changes ≡ RecordedChanges.Taken) }
    ensures skipped { args.now.gains ≢ None → IfOk result (λ source. source.changes ≡ RecordedChanges.Skipped) }
{
    let paths = paths_at(host, alloc, args.file)?;
    let studio = studio_for(alloc, studio, opening, paths.as_slice(), gains)?;
    Ok(record_by(studio, args))
}

/// Returns a capture that is no record as a source: with a configuration's studio, and the changes of a text of gains.
fn flow_source<H: Host>(
    host: &H,
    alloc: Global,
    studio: &StudioSpec,
    gains: &[u8],
    args: &ReplayArgs<'_>,
) -> Result<ReplaySource, CommandFault>
    ensures kind { IfOk result (λ source. source.kind ≢ CaptureKind.Record) }
    ensures studio { IfOk result (λ source. HasGains studio.now gains.now source.studio) }
    ensures changes { IfOk result (λ source. source.changes ≡ RecordedChanges.Skipped) }
{
    // Before the capture is read, which may take long.
    let studio = changed_studio(alloc, studio, gains)?;
    Ok(ReplaySource {
        studio,
        kind: flows_at(host, alloc, args)?,
        changes: RecordedChanges::Skipped,
        longest: longest_step(args),
    })
}

/// Returns the kind of the capture at a path that is no record.
fn flows_at<H: Host>(
    host: &H,
    alloc: Global,
    args: &ReplayArgs<'_>,
) -> Result<CaptureKind, CommandFault>
    ensures { IfOk result (λ kind. kind ≢ CaptureKind.Record) }
{
    let routes = routes_at(host, alloc, args.file, args.addresses.as_slice(), args.gap)?;
    Ok(CaptureKind::Flows(routes))
}

/// Returns the record that begins with these octets as a source: with a configuration's studio, moved to the record,
/// and the changes of a text of gains.
pub(crate) fn front_source(
    alloc: Global,
    studio: StudioSpec,
    front: &[u8],
    gains: &[u8],
    args: &ReplayArgs<'_>,
) -> Result<ReplaySource, CommandFault>
    ensures kind { IfOk result (λ source. source.kind ≡ CaptureKind.Record) }
    ensures studio { IfOk result (λ source. IsRecorded front.now studio gains.now source.studio) }
    ensures taken { args.now.gains ≡ None → IfOk result (λ source. source.changes ≡ RecordedChanges.Taken) }
    ensures skipped { args.now.gains ≢ None → IfOk result (λ source. source.changes ≡ RecordedChanges.Skipped) }
{
    let studio = recorded_studio(alloc, studio, front, gains)?;
    Ok(record_by(studio, args))
}

/// Returns a record as a source: with the studio that plays it, and the rule for its changes of gains.
fn record_by(studio: StudioSpec, args: &ReplayArgs<'_>) -> ReplaySource
    ensures kind { result.kind ≡ CaptureKind.Record }
    ensures studio { result.studio ≡ studio }
    ensures taken { args.now.gains ≡ None → result.changes ≡ RecordedChanges.Taken }
    ensures skipped { args.now.gains ≢ None → result.changes ≡ RecordedChanges.Skipped }
{
    ReplaySource {
        studio,
        kind: CaptureKind::Record,
        changes: recorded_changes(args),
        longest: longest_step(args),
    }
}

/// Returns the longest step of a record's clock that is no fault, in sampling instants.
fn longest_step(args: &ReplayArgs<'_>) -> u64 {
    args.gap
        .unwrap_or(RECORD_GAP)
        .saturating_mul(INSTANTS_A_SECOND)
}

/// Returns the rule for the changes of gains of a record: a file of gains takes their place.
// A mix of both would be one that nobody made: the changes of the file would meet gains that they were not made for. So
// a file says what the run would have sent with its own changes and no others.
fn recorded_changes(args: &ReplayArgs<'_>) -> RecordedChanges
    ensures taken { args.now.gains ≡ None → result ≡ RecordedChanges.Taken }
    ensures skipped { args.now.gains ≢ None → result ≡ RecordedChanges.Skipped }
{
    match args.gains {
        Some(_) => RecordedChanges::Skipped,
        None => RecordedChanges::Taken,
    }
}
