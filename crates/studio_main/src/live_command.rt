//! The command `live`: a live run, from a configuration to its report and the lines after it.
use crate::begun_studio::open_begun_studio;
use crate::explanation::{Explanation, TERMINAL, explained};
use crate::fault::ProgramFault;
use crate::keeper::{KeptGains, keeper_of};
use crate::kept_file::KeptFile;
use crate::left_out_lines::write_left_out;
use crate::live_host::LiveHost;
use crate::live_lines::LiveLines;
use crate::notify_socket::NotifySocket;
use crate::opening::OpenedStudio;
use crate::opening_changes::OpeningChanges;
use crate::run_files::{RunPaths, files_of, kept_file_of};
use crate::service::{Service, service_in_env};
use crate::std_fds::is_stdout_terminal;
use crate::token_file::token_of;
use command_line::{LiveArgs, VERSION};
use file_commands::{CommandFault, output_result, table_in};
use live_gains::GainNotes;
use live_io::{
    InheritedSockets, LivePorts, RunHealth, SocketConfig, UnexpectedSources, unopened_socket,
};
use live_run::{LiveFault, LiveInputs, LiveRun, PageInputs, SignalFile, run_studio_live};
use rtp_stream::Path;
use run_outputs::{CreateOutput, OutputEnds, RunStart};
use status_page::{RunFacts, StreamName, Token};
use std::alloc::{AllocError, Global};
use std::io::Write;
use std::net::Net;
use std::random::RandomSource;
use std::rt::Env;
use std::sync::Wait;
use std::thread::Threads;
use std::time::Clock;
use studio_config::StudioSpec;
use studio_io::{OUTPUT_KINDS, OutputKind, OutputState, RunProgress};
use toml::Value;

/// Runs the studio of a configuration's octets over sockets, and writes its report to `output`. If counts are asked for
/// while it runs, they go to `faults`. Files are the host's. Returns the first fault: of the configuration, of a file
/// of gains that cannot be read, of the offset or the time of `--clock`, of the clock that times the WAV files, of the
/// lines of that file, of the token's file, of a missing port or an inherited socket, of the run's files, or of the
/// run. The fault of a device is explained.
pub(crate) fn run_live<
    R: Threads + Wait + Sync + Net + Clock + RandomSource + Env + AllocGlobal,
    H: LiveHost,
>(
    rt: &R,
    alloc: Global,
    config: &[u8],
    args: LiveArgs<'_>,
    output: &mut H::Stdout,
    faults: &mut H::Stderr,
    host: &H,
) -> Result<(), ProgramFault> {
    let request = LiveRequest { config, args, host };
    let (begins, ran) = match open_begun_studio(rt, alloc, config, args, host) {
        Ok(opened) => (
            opened.parts.map(|parts| parts.at),
            load_and_run(rt, alloc, &request, opened, output, faults),
        ),
        Err(fault) => (None, Err(fault)),
    };
    match ran {
        Ok(()) => Ok(()),
        Err(fault) => Err(explained(rt, alloc, host, args, begins, fault)),
    }
}

/// The request of the command `live`.
#[derive(Drop)]
struct LiveRequest<'a, H> {
    /// The octets of the configuration.
    config: &'a [u8],
    args: LiveArgs<'a>,
    /// The host of the files.
    host: &'a H,
}

/// Runs a studio that opens as `run_live` does. Only the faults of a socket and of raw PCM to a terminal are explained.
fn load_and_run<
    R: Threads + Wait + Sync + Net + Clock + RandomSource + Env + AllocGlobal,
    H: LiveHost,
>(
    rt: &R,
    alloc: Global,
    request: &LiveRequest<'_, H>,
    opened: OpenedStudio,
    output: &mut H::Stdout,
    faults: &mut H::Stderr,
) -> Result<(), ProgramFault> {
    let (config, args, host) = (request.config, request.args, request.host);
    let token = token_of(alloc, host, args.control)?;
    let service = service_in_env(rt)?;
    let inputs = load_inputs(rt, alloc, &opened.studio, config, args.listen_fds)?;
    refuse_terminal(args)?;
    // The run creates its files once its sockets are bound. A file that is there already is refused before that.
    let files = files_of(alloc, host, args, opened.parts)?;
    let kept = kept_file_of(alloc, host, args)?;
    let gains = kept_gains(alloc, &opened.studio, args)?;
    let loaded = LoadedRun {
        opened,
        inputs,
        args,
        start: host.start(),
        progress: RunProgress::new(),
        gains,
    };
    let outputs = (files, service, kept);
    // Two calls, since the report goes to standard error if the samples go to standard output.
    if args.is_pcm_stdout() {
        return run_loaded(
            rt,
            alloc,
            &loaded,
            outputs,
            token,
            &mut host.stderr(),
            faults,
        );
    }
    run_loaded(rt, alloc, &loaded, outputs, token, output, faults)
}

/// Refuses raw PCM that would go to a terminal.
// A terminal counts as ready if it has space for one octet, so a write of more may wait for its reader, and the run for
// the write.
fn refuse_terminal(args: LiveArgs<'_>) -> Result<(), ProgramFault> {
    if args.is_pcm_stdout() && is_stdout_terminal() {
        let fault = LiveFault::Output(OutputKind::Pcm);
        return Err(ProgramFault::LiveExplained(fault, Explanation::Text(TERMINAL)));
    }
    Ok(())
}

/// Returns the gains that a run of this studio keeps, if it keeps them. By the clock of the configuration a media time
/// of this run is another time of the next one, so changes that are still to come are kept only with `--clock tai`.
fn kept_gains(
    alloc: Global,
    studio: &StudioSpec,
    args: LiveArgs<'_>,
) -> Result<Option<KeptGains>, AllocError> {
    if args.keep_gains.is_none() {
        return Ok(None);
    }
    Ok(Some(KeptGains::new(alloc, studio, args.tai_offset.is_some())?))
}

/// A studio with what its run shares with its outputs.
// All that the outputs borrow is here, so that it has one lifetime.
#[derive(Drop)]
struct LoadedRun<'a> {
    opened: OpenedStudio,
    inputs: LoadedInputs,
    args: LiveArgs<'a>,
    start: &'a RunStart,
    progress: RunProgress,
    /// The gains that the run keeps, if it keeps them.
    gains: Option<KeptGains>,
}

/// Runs a studio with its inputs, with the files that its options name, with the service manager that the environment
/// names, and with the file in which it keeps its gains. Writes the report and the lines after it.
fn run_loaded<
    R: Threads + Wait + Sync + Net + Clock + RandomSource + Env + AllocGlobal,
    H: LiveHost,
    W: Write,
>(
    rt: &R,
    alloc: Global,
    loaded: &LoadedRun<'_>,
    outputs: (
        RunPaths<'_, '_, H>,
        Option<Service<NotifySocket>>,
        Option<H::Kept>,
    ),
    control: Option<Token>,
    output: &mut W,
    faults: &mut H::Stderr,
) -> Result<(), ProgramFault> {
    let (files, service, kept) = outputs;
    let files = files.outputs(&loaded.progress);
    let lines = LiveLines::new(faults);
    let outputs = (files, service, kept);
    let ran = run_with_files(rt, alloc, loaded, outputs, control, output, lines);
    finish(alloc, ran, loaded, output)
}

/// Runs a studio as `run_with_outputs` does, with the outputs that are files, the service and the file of the gains.
// Functions of their own, in which the types of the files are parameters: a function in which all of them are written
// out is too large for the prover.
fn run_with_files<
    R: Threads + Wait + Sync + Net + Clock + RandomSource,
    W: Write,
    E: Write + Send + Drop,
    O: CreateOutput,
    K: KeptFile + Send + Drop,
>(
    rt: &R,
    alloc: Global,
    loaded: &LoadedRun<'_>,
    outputs: (O, Option<Service<NotifySocket>>, Option<K>),
    control: Option<Token>,
    output: &mut W,
    lines: E,
) -> Result<OutputEnds, LiveFault> {
    let (files, service, kept) = outputs;
    let keeper = keeper_of(loaded.gains.as_ref(), kept);
    let files = OpeningChanges::new(files, loaded.args.gains.is_some());
    let outputs = (files, (service, keeper));
    run_with_outputs(rt, alloc, loaded, outputs, control, output, lines)
}

/// Runs a studio as `run_studio_live` does, with its inputs and these outputs, and with a page that shows this
/// program's version.
// In a function of its own: the borrow checker doesn't cover a call in which what is `'static`, as the version, stands
// next to outputs of several lifetimes. Here the outputs are a type parameter.
fn run_with_outputs<
    R: Threads + Wait + Sync + Net + Clock + RandomSource,
    W: Write,
    E: Write + Send + Drop,
    O: CreateOutput,
>(
    rt: &R,
    alloc: Global,
    loaded: &LoadedRun<'_>,
    outputs: O,
    control: Option<Token>,
    output: &mut W,
    lines: E,
) -> Result<OutputEnds, LiveFault> {
    let run = LiveRun {
        studio: &loaded.opened.studio,
        options: &loaded.args.options,
        inputs: live_inputs(loaded),
    };
    let facts = RunFacts {
        version: VERSION,
        started: loaded.opened.started,
    };
    let page = PageInputs { facts, control };
    run_studio_live(rt, alloc, run, outputs, page, output, lines)
}

/// Returns the inputs of a run.
fn live_inputs<'a>(loaded: &'a LoadedRun<'_>) -> LiveInputs<'a> {
    let inputs = &loaded.inputs;
    LiveInputs {
        sockets: SocketConfig {
            ports: &inputs.ports,
            inherited: &inputs.inherited,
            unexpected: &inputs.unexpected,
            health: &inputs.health,
            shares_groups: loaded.args.share_groups,
        },
        names: inputs.names.as_slice(),
        outputs: &loaded.progress,
        signals: &inputs.signals,
        start: loaded.start,
        notes: notes_of(&loaded.gains),
        began: loaded.opened.began,
        is_by_tai: loaded.args.tai_offset.is_some(),
    }
}

/// Returns the notes of the gains that a run keeps, if it keeps them.
fn notes_of(gains: &Option<KeptGains>) -> Option<&GainNotes> {
    match gains {
        Some(gains) => Some(gains.notes()),
        None => None,
    }
}

/// Returns the fault of a run whose sockets could not all be opened, explained if the socket is known.
fn socket_fault(alloc: Global, studio: &StudioSpec, sockets: SocketConfig<'_>) -> ProgramFault {
    match unopened_socket(alloc, studio, sockets) {
        Ok(Some(unopened)) => {
            ProgramFault::LiveExplained(LiveFault::Socket, Explanation::Socket(unopened))
        }
        Ok(None) | Err(AllocError) => ProgramFault::Live(LiveFault::Socket),
    }
}

/// The inputs of a live run in addition to its studio.
#[derive(Drop)]
struct LoadedInputs {
    ports: LivePorts,
    inherited: InheritedSockets,
    names: Vec<Option<StreamName>>,
    unexpected: UnexpectedSources,
    health: RunHealth,
    signals: SignalFile,
}

/// Returns the inputs of a run of a configuration's studio.
fn load_inputs<R: Env + AllocGlobal>(
    rt: &R,
    alloc: Global,
    studio: &StudioSpec,
    config: &[u8],
    listen_fds: bool,
) -> Result<LoadedInputs, ProgramFault> {
    let ports = LivePorts::of(alloc, studio)?;
    let inherited = inherited_sockets(rt, alloc, studio, listen_fds)?;
    let names = names_in(alloc, config)?;
    let unexpected = UnexpectedSources::new(alloc, studio)?;
    let health = RunHealth::new(alloc, studio)?;
    Ok(LoadedInputs {
        ports,
        inherited,
        names,
        unexpected,
        health,
        signals: SignalFile::open(),
    })
}

/// Returns the inherited sockets, or none without `--listen-fds`.
fn inherited_sockets<R: Env + AllocGlobal>(
    rt: &R,
    alloc: Global,
    studio: &StudioSpec,
    listen_fds: bool,
) -> Result<InheritedSockets, ProgramFault> {
    if !listen_fds {
        return Ok(InheritedSockets::none());
    }
    Ok(InheritedSockets::from_env(rt, alloc, studio.streams())?)
}

/// Writes the lines after the report, if there is a report, and returns the result of the run. The fault of a socket is
/// explained.
fn finish<W: Write>(
    alloc: Global,
    ran: Result<OutputEnds, LiveFault>,
    loaded: &LoadedRun<'_>,
    output: &mut W,
) -> Result<(), ProgramFault> {
    let (studio, inputs) = (&loaded.opened.studio, live_inputs(loaded));
    // A run that is not settled has a report too.
    if matches!(ran, Ok(_) | Err(LiveFault::Unsettled)) {
        write_after_report(studio, inputs, loaded.args, output)?;
    }
    let ends = match ran {
        Ok(ends) => ends,
        Err(LiveFault::Socket) => return Err(socket_fault(alloc, studio, inputs.sockets)),
        Err(fault) => return Err(ProgramFault::from(fault)),
    };
    if let Some((kind, end)) = ends.first_fault(&inputs.outputs.states()) {
        return Err(ProgramFault::OutputEnded(kind, end));
    }
    if is_behind(&loaded.gains) {
        return Err(ProgramFault::GainsNotKept);
    }
    if inputs.sockets.health.has_ended_path() {
        return Err(ProgramFault::PathEnded);
    }
    Ok(())
}

/// Returns true if a run was to keep these gains, and their file does not have the last ones.
fn is_behind(gains: &Option<KeptGains>) -> bool {
    match gains {
        Some(gains) => gains.is_behind(),
        None => false,
    }
}

/// Writes the lines after the report: the opening time, if the run opened by International Atomic Time, the datagrams
/// from unexpected sources, and the units of each output that the run had.
fn write_after_report<W: Write>(
    studio: &StudioSpec,
    inputs: LiveInputs<'_>,
    args: LiveArgs<'_>,
    output: &mut W,
) -> Result<(), ProgramFault> {
    if args.tai_offset.is_some() {
        let open_at = studio.open_at();
        output_result(writeln!(output, "open_at {open_at}"))?;
    }
    write_unexpected(studio, inputs.sockets.unexpected, output)?;
    write_left_out(studio, inputs.sockets.health, output)?;
    for kind in OUTPUT_KINDS {
        write_output_line(kind, inputs.outputs.of(kind).state(), output)?;
    }
    Ok(())
}

/// Writes the number of units of an output that were written, and of those that the run gave to it. Writes nothing if
/// the run did not have the output.
fn write_output_line<W: Write>(
    kind: OutputKind,
    state: OutputState,
    output: &mut W,
) -> Result<(), ProgramFault> {
    let Some(counts) = state.counts() else {
        return Ok(());
    };
    let (written, given) = (counts.written, counts.given);
    output_result(writeln!(output, "{kind} {written} of {given}"))?;
    Ok(())
}

/// Writes the number of datagrams from unexpected sources, for each path that has a source address.
fn write_unexpected<W: Write>(
    studio: &StudioSpec,
    unexpected: &UnexpectedSources,
    output: &mut W,
) -> Result<(), ProgramFault> {
    // The counters are numbered through all paths, stream by stream.
    let mut place = 0;
    for (number, stream) in studio.streams().iter().enumerate() {
        for path in 0..stream.paths() {
            write_unexpected_of(studio, number, path, unexpected.count(place), output)?;
            place = place.saturating_add(1);
        }
    }
    Ok(())
}

/// Writes the count of a path, if the path has a source address.
fn write_unexpected_of<W: Write>(
    studio: &StudioSpec,
    stream: usize,
    path: u8,
    count: u64,
    output: &mut W,
) -> Result<(), ProgramFault> {
    let Some(path) = Path::new(path) else {
        return Ok(());
    };
    if studio.networks().source(stream, path).is_some() {
        let letter = path.letter();
        output_result(writeln!(output, "unexpected {stream} {letter} {count}"))?;
    }
    Ok(())
}

// Names are for people: no event, datagram or count depends on them.
/// Returns the name of each stream of a configuration, if it has one. The configuration has to describe a studio.
fn names_in(alloc: Global, octets: &[u8]) -> Result<Vec<Option<StreamName>>, CommandFault> {
    // Read again: a `StudioSpec` has no names.
    let table = table_in(alloc, octets)?;
    match table.get("stream") {
        Some(streams) => names_of(alloc, streams),
        None => Ok(Vec::new(alloc)),
    }
}

/// Returns the name of each stream in the value of the key `stream`, if it has one.
fn names_of(alloc: Global, streams: &Value) -> Result<Vec<Option<StreamName>>, CommandFault> {
    let mut names = Vec::new(alloc);
    if let Some(streams) = streams.as_array() {
        for stream in streams {
            names.push(name_in(stream))?;
        }
    }
    Ok(names)
}

/// Returns the name in a stream's table, if there is one that a `StreamName` can hold.
fn name_in(stream: &Value) -> Option<StreamName> {
    let name = stream.as_table()?.get("name")?.as_str()?;
    StreamName::from(name).ok()
}
