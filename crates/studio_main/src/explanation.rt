//! The explanations below the fault of a device: what could not be opened or read, and the system's error.
use crate::fault::ProgramFault;
use crate::run_files::path_of;
use crate::wav_files::part_path;
use command_line::LiveArgs;
use live_io::UnopenedSocket;
use live_run::LiveFault;
use std::alloc::{AllocError, Global};
use std::fmt::{Display, Formatter};
use std::net::{Ipv4Addr, Net, SocketAddrV4, TcpListener};
use std::{fmt, io};
use studio_io::OutputKind;
use thiserror::Error;

/// The explanation of clocks that could not be read together.
const CLOCKS: &str =
    "the time of day and the monotonic clock were not read within 100 microseconds of each other, in 100 tries, or one could not be read";

/// The explanation of a clock, if the offset of International Atomic Time is to be the one that the system knows.
const SYSTEM_OFFSET: &str =
    "the system does not know how far International Atomic Time is ahead (adjtimex): start ptp4l with phc2sys, or chrony, or pass --tai-offset SECONDS, such as 37; or the clocks were not read within 100 microseconds of each other, in 100 tries, or one could not be read";

/// The explanation of a thread that could not be started.
const THREAD: &str = "the system has no room for another thread (ulimit -u, TasksMax)";

/// The explanation of latencies that differ too much for a run by workers.
const LATENCIES: &str =
    "by workers, latencies may differ by at most 65280 packets of the stream with the shorter one: use --one-thread";

/// The explanation of raw PCM that would go to a terminal.
pub(crate) const TERMINAL: &str =
    "standard output is a terminal, which is no reader of samples: pass them on through a pipe, or name a FIFO or a file";

/// The explanation of a fault: what could not be opened or read, and why.
#[derive(Debug, Drop, Error)]
pub(crate) enum Explanation {
    /// A socket: what it is for, its address and the system's error.
    #[error("{0}")]
    Socket(UnopenedSocket),
    /// The port of the page.
    #[error("{0}: {1}")]
    Page(SocketAddrV4, Reason),
    /// A file, by its path.
    #[error("{0}: {1}")]
    File(String, Reason),
    /// Something that has no name.
    #[error("{0}")]
    Text(&'static str),
}

/// Why something could not be opened or read.
#[derive(Clone, Copy, Debug, PartialEq, Eq)]
pub(crate) enum Reason {
    /// The system's error number.
    System(i32),
    /// There is something at the path of a file that was to be created.
    Exists,
    /// The file of a token is not one, or is not private (`is_private`).
    NotPrivate,
    /// There is something at the path of kept gains that no run wrote.
    Foreign,
    /// Another run keeps its gains in the file.
    Locked,
    /// It can be opened by now.
    Passed,
}

impl Display for Reason {
    fn fmt<W: fmt::Write>(&self, f: &mut Formatter<W>) -> fmt::Result {
        match self {
            Reason::System(code) => Display::fmt(&io::Error::from_raw_os_error(*code), f),
            Reason::Exists => Display::fmt("it exists, and was not touched", f),
            Reason::NotPrivate => Display::fmt(
                "not a regular file of 16 to 256 visible ASCII characters that others may not read or write, and its group may not write",
                f,
            ),
            Reason::Foreign => Display::fmt(
                "it does not begin with the line '# kept by darbexum', and was not touched",
                f,
            ),
            Reason::Locked => Display::fmt("another run keeps its gains in it", f),
            Reason::Passed => Display::fmt("it was not free at the start, but is now", f),
        }
    }
}

/// The host's last error.
pub(crate) trait SystemErrors {
    /// Returns the system's number of the error with which the host last failed to create, open or read a file; 0 if
    /// there was none.
    fn last_error(&self) -> i32;
}

/// Returns the fault of a live run with its explanation, if it is one of a device and there is more to say, and memory
/// to say it. `begins` is the time of the first WAV file, if its name has it.
// The fault's own line and status are what a script reads: they are not lost for the lack of an explanation.
pub(crate) fn explained<R: Net, H: SystemErrors>(
    rt: &R,
    alloc: Global,
    host: &H,
    args: LiveArgs<'_>,
    begins: Option<u64>,
    fault: ProgramFault,
) -> ProgramFault {
    match fault {
        ProgramFault::Live(fault) => match explanation_of(rt, alloc, host, args, begins, fault) {
            Ok(Some(why)) => ProgramFault::LiveExplained(fault, why),
            Ok(None) | Err(AllocError) => ProgramFault::Live(fault),
        },
        ProgramFault::Control => match at_path(alloc, args.control, token_reason(host)) {
            Ok(Some(why)) => ProgramFault::ControlExplained(why),
            Ok(None) | Err(AllocError) => ProgramFault::Control,
        },
        ProgramFault::Clock => {
            ProgramFault::ClockExplained(Explanation::Text(clock_explanation(args.tai_offset)))
        }
        fault => fault,
    }
}

/// Returns the explanation of a clock's fault, for an offset as it was typed.
fn clock_explanation(offset: Option<&str>) -> &'static str {
    match offset {
        Some("system") => SYSTEM_OFFSET,
        _ => CLOCKS,
    }
}

/// Returns the explanation of a run's fault, if there is more to say of it.
fn explanation_of<R: Net, H: SystemErrors>(
    rt: &R,
    alloc: Global,
    host: &H,
    args: LiveArgs<'_>,
    begins: Option<u64>,
    fault: LiveFault,
) -> Result<Option<Explanation>, AllocError> {
    match fault {
        LiveFault::OutputExists(kind) => at_output(alloc, kind, args, begins, Reason::Exists),
        LiveFault::Output(kind) => {
            at_output(alloc, kind, args, begins, Reason::System(host.last_error()))
        }
        LiveFault::Page => Ok(args.options.page.map(|port| page_explanation(rt, port))),
        LiveFault::Thread => Ok(Some(Explanation::Text(THREAD))),
        LiveFault::Latencies => Ok(Some(Explanation::Text(LATENCIES))),
        LiveFault::Memory | LiveFault::Socket | LiveFault::Unsettled | LiveFault::Write => Ok(None),
    }
}

/// Returns the explanation of an output, if it has a path.
fn at_output(
    alloc: Global,
    kind: OutputKind,
    args: LiveArgs<'_>,
    begins: Option<u64>,
    reason: Reason,
) -> Result<Option<Explanation>, AllocError> {
    match kind {
        OutputKind::Wav => at_wav(alloc, args.wav, begins, reason),
        _ => at_path(alloc, path_of(kind, args), reason),
    }
}

/// Returns the explanation of a file at this path, if there is a path.
fn at_path(
    alloc: Global,
    path: Option<&str>,
    reason: Reason,
) -> Result<Option<Explanation>, AllocError> {
    match path {
        Some(path) => Ok(Some(Explanation::File(String::from_str(alloc, path)?, reason))),
        None => Ok(None),
    }
}

/// Returns the explanation of the first WAV file, if there is a path. `begins` is its time, if its name has it.
fn at_wav(
    alloc: Global,
    path: Option<&str>,
    begins: Option<u64>,
    reason: Reason,
) -> Result<Option<Explanation>, AllocError> {
    match (path, begins) {
        (Some(path), Some(at)) => {
            Ok(Some(Explanation::File(part_path(alloc, path, at)?, reason)))
        }
        _ => at_path(alloc, path, reason),
    }
}

/// Returns why the file of a token was not read, or has no token.
fn token_reason<H: SystemErrors>(host: &H) -> Reason {
    match host.last_error() {
        0 => Reason::NotPrivate,
        code => Reason::System(code),
    }
}

/// Returns the explanation of a page's port that could not be bound.
// The run does not keep the system's error, so the port is bound once more. If that succeeds, it is closed at once.
fn page_explanation<R: Net>(rt: &R, port: u16) -> Explanation {
    let address = SocketAddrV4::new(Ipv4Addr::LOCALHOST, port);
    let reason = match TcpListener::bind(rt, address) {
        Ok(_listener) => Reason::Passed,
        Err(error) => Reason::System(error.raw_os_error().unwrap_or(0)),
    };
    Explanation::Page(address, reason)
}
