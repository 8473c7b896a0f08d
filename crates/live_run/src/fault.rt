//! The error of a live run.
ghost use Rattle.std.specs.Prelude.{◌≡◌};
ghost use Rattle.live_run.specs.RunResult.{IsEarly};
ghost use Rattle.live_run.specs.declared.fault.LiveFault.TheVariants.{Write};

use live_status::PageFault;
use run_outputs::{OutputFault, ThreadFault};
use std::alloc::{AllocError, AllocFailed};
use std::io;
use std::io::ErrorKind;
use studio_ends::OpenFault;
use studio_io::{OutputKind, WorkFault};
use studio_run::WriteFault;
use thiserror::Error;

/// The error of a live run: it has no report, or the report is not settled or was not written completely.
#[derive(Clone, Copy, Debug, PartialEq, Eq, Error)]
pub enum LiveFault {
    /// An allocation failed.
    #[error("out of memory")]
    Memory,
    /// A socket could not be opened, bound or configured, or there is not one for each path.
    #[error("device: socket")]
    Socket,
    /// The latencies of the streams differ by more than the rings between workers hold.
    #[error("live: latencies")]
    Latencies,
    /// The port of the page could not be bound.
    #[error("device: socket page")]
    Page,
    /// A thread could not be started: a worker, the supervisor, or that of the page or of an output.
    #[error("device: thread")]
    Thread,
    /// There is something at the path of the output of this kind, and it is no FIFO for raw PCM. It was not touched.
    #[error("device: {0} exists")]
    OutputExists(OutputKind),
    /// The output of this kind could not be created or opened.
    #[error("device: {0}")]
    Output(OutputKind),
    /// The report was written, but it is not settled: something was left over.
    #[error("live: not settled")]
    Unsettled,
    /// The report was not written completely.
    #[error("device: write")]
    Write,
}

impl From<AllocError> for LiveFault {
    ghost from_gives = { λ _ to. IsEarly to };

    fn from(_fault: AllocError) -> LiveFault {
        LiveFault::Memory
    }
}

impl<T: Drop> From<AllocFailed<T>> for LiveFault {
    ghost from_gives = { λ _ to. IsEarly to };

    fn from(_refused: AllocFailed<T>) -> LiveFault {
        LiveFault::Memory
    }
}

impl From<io::Error> for LiveFault {
    ghost from_gives = { λ _ to. IsEarly to };

    fn from(fault: io::Error) -> LiveFault {
        match fault.kind() {
            ErrorKind::OutOfMemory => LiveFault::Memory,
            _ => LiveFault::Socket,
        }
    }
}

impl From<PageFault> for LiveFault {
    ghost from_gives = { λ _ to. IsEarly to };

    fn from(fault: PageFault) -> LiveFault {
        match fault {
            PageFault::Memory => LiveFault::Memory,
            PageFault::Page => LiveFault::Page,
        }
    }
}

impl From<OutputFault> for LiveFault {
    ghost from_gives = { λ _ to. IsEarly to };

    fn from(fault: OutputFault) -> LiveFault {
        match fault {
            OutputFault::Memory => LiveFault::Memory,
            OutputFault::Exists(kind) => LiveFault::OutputExists(kind),
            OutputFault::NotCreated(kind) => LiveFault::Output(kind),
        }
    }
}

impl From<ThreadFault> for LiveFault {
    ghost from_gives = { λ _ to. IsEarly to };

    fn from(_fault: ThreadFault) -> LiveFault {
        LiveFault::Thread
    }
}

impl From<OpenFault> for LiveFault {
    ghost from_gives = { λ _ to. IsEarly to };

    fn from(_fault: OpenFault) -> LiveFault {
        LiveFault::Memory
    }
}

impl From<WorkFault> for LiveFault {
    ghost from_gives = { λ _ to. IsEarly to };

    fn from(fault: WorkFault) -> LiveFault {
        match fault {
            WorkFault::Memory => LiveFault::Memory,
            WorkFault::Start => LiveFault::Thread,
        }
    }
}

impl From<WriteFault> for LiveFault {
    ghost from_gives = { λ _ to. to ≡ Write };

    fn from(_fault: WriteFault) -> LiveFault {
        LiveFault::Write
    }
}
