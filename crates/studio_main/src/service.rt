//! A run as a service. It reports to its service manager that it is ready, that its mix goes on, and that it ends, in
//! the protocol of sd_notify(3).
ghost use Rattle.std.specs.Prelude.{None, ⊤};

use crate::fault::ProgramFault;
use crate::notify_socket::NotifySocket;
use file_commands::CommandFault;
use rtrb::{Consumer, Producer, RingBuffer};
use run_outputs::{
    CreateOutput, CreatedOutput, MixOutput, NoOutput, OneTask, OutputFault, RunStart, SideTask,
};
use std::alloc::Global;
use std::env;
use std::env::VarError;
use std::rt::Env;
use std::sync::Wait;
use std::thread::Parker;
use std::time::{Clock, Duration};
use studio_config::StudioSpec;
use studio_io::{MixedBlock, OutputEnd, OutputKind};

/// The time between two looks at the mix, in milliseconds.
const POLL_MS: u64 = 50;

/// The sampling instants in a millisecond.
const MILLISECOND: u64 = 48;

/// The time for which a mix may stand still beyond what its studio explains, in milliseconds.
// A machine that is held up for so long is no reason to kill the run, which goes on behind it.
const SLACK_MS: u64 = 2_000;

/// The lines of a run that is ready.
const READY: &str = "READY=1\nSTATUS=The sockets are open.\n";

/// The line of a run whose mix goes on.
const GOING: &str = "STATUS=The mix goes on.\n";

/// The line of a run whose mix stands still.
const STILL: &str = "STATUS=The mix stands still.\n";

/// The line of a run whose mix goes on, which the manager asks for.
const ALIVE: &str = "WATCHDOG=1\n";

/// The lines of a run that has ended, before its report.
const ENDS: &str = "STOPPING=1\nSTATUS=The run has ended.\n";

/// A socket to a service manager.
pub(crate) trait ManagerSocket: Drop {
    /// Sends it lines of sd_notify(3), and returns true if it took them. It must not wait.
    fn send(&self, lines: &str) -> bool;
}

/// The service manager that started a run, as an output of the run.
#[derive(Drop)]
pub(crate) struct Service<S> {
    socket: S,
    /// The number of looks between two words that the mix goes on, if the manager asks for them.
    looks: Option<u64>,
}

/// Returns the service manager that the environment names, or `None` if it names none. Returns an error if an
/// allocation fails.
pub(crate) fn service_in_env<R: Env + AllocGlobal>(
    rt: &R,
) -> Result<Option<Service<NotifySocket>>, ProgramFault> {
    let Some(name) = variable(rt, "NOTIFY_SOCKET")? else {
        return Ok(None);
    };
    let looks = match variable(rt, "WATCHDOG_USEC")? {
        Some(interval) => looks_in(interval.as_str()),
        None => None,
    };
    match NotifySocket::to(name.as_str()) {
        Some(socket) => Ok(Some(Service { socket, looks })),
        None => Ok(None),
    }
}

/// Returns the text of a variable, or `None` if it is not set or no text.
fn variable<R: Env + AllocGlobal>(rt: &R, name: &str) -> Result<Option<String>, ProgramFault> {
    match env::var(rt, name) {
        Ok(text) => Ok(Some(text)),
        Err(VarError::NotPresent | VarError::NotUnicode) => Ok(None),
        Err(VarError::OutOfMemory) => Err(ProgramFault::Command(CommandFault::Memory)),
    }
}

/// Returns the number of looks in half of an interval in microseconds, or `None` if the text is no such interval.
// Half, as sd_watchdog_enabled(3) advises, so that a word that comes late is no failure.
fn looks_in(interval: &str) -> Option<u64> {
    let microseconds = interval.parse::<u64>().ok()?;
    if microseconds == 0 {
        return None;
    }
    Some((microseconds / 2_000 / POLL_MS).max(1))
}

/// The greatest number of looks in a row that find no datagram of the mix while a run goes on.
#[derive(Clone, Copy)]
struct Patience {
    /// Before the first datagram.
    first: u64,
    /// Behind it.
    later: u64,
}

impl Patience {
    /// Returns the patience with a run of this studio.
    // The mix stands still for a latency when a sender begins again, and before its first datagram up to its start.
    fn of(studio: &StudioSpec) -> Patience {
        let mut latency = 0;
        for stream in studio.streams() {
            latency = latency.max(stream.latency());
        }
        let ahead = studio.output().start().saturating_sub(studio.open_at());
        Patience {
            first: looks_for(u64::from(latency).saturating_add(ahead.max(0) as u64)),
            later: looks_for(u64::from(latency)),
        }
    }
}

/// Returns the number of looks for which a mix may stand still that is explained for so many sampling instants.
fn looks_for(instants: u64) -> u64 {
    (instants / MILLISECOND).saturating_add(SLACK_MS) / POLL_MS
}

/// The part of a service that takes the mix: it notes that there was a datagram.
#[derive(Drop)]
pub(crate) struct MixSign {
    /// The ring of one place to the service's task. Its end tells the task that the run has ended.
    ring: Producer<u8>,
}

impl MixOutput for MixSign {
    ghost mixes = { λ old mixed new. ⊤ };

    ghost ended = { λ output kind. None };

    fn mixed(&mut self, _datagram: &[u8], _block: &MixedBlock<'_>) {
        // A ring that is full says as much.
        let _ = self.ring.push(0);
    }

    fn end_of(&self, _kind: OutputKind) -> Option<OutputEnd> {
        None
    }
}

/// The status of a run as its manager hears it.
#[derive(Clone, Copy, PartialEq, Eq)]
enum MixStatus {
    /// The run is ready, and the mix has not begun.
    Ready,
    /// The mix goes on.
    Going,
    /// The mix stands still.
    Still,
}

impl MixStatus {
    /// Returns the lines that say it.
    fn lines(self) -> &'static str {
        match self {
            MixStatus::Ready => READY,
            MixStatus::Going => GOING,
            MixStatus::Still => STILL,
        }
    }
}

/// The task that reports a run to its service manager.
#[derive(Drop)]
pub(crate) struct ServiceTask<S> {
    service: Service<S>,
    ring: Consumer<u8>,
    patience: Patience,
    /// True once a datagram was found.
    has_begun: bool,
    /// The number of looks since a datagram was found.
    idle: u64,
    /// The number of looks since the manager heard that the mix goes on.
    unheard: u64,
    /// The last status that the manager took. It is ready first, whatever the mix does.
    reported: Option<MixStatus>,
}

impl<S: ManagerSocket> ServiceTask<S> {
    /// Looks at the mix, and reports to the manager what has changed, and that the mix goes on if that is due.
    fn look(&mut self) {
        self.idle = match self.ring.pop() {
            Ok(_) => {
                self.has_begun = true;
                0
            }
            Err(_) => self.idle.saturating_add(1),
        };
        let status = self.status();
        self.report(status);
        self.unheard = self.unheard.saturating_add(1);
        if self.is_going() && self.is_due() && self.service.socket.send(ALIVE) {
            self.unheard = 0;
        }
    }

    /// Reports a status that is new to the manager. A status that it does not take is reported again at the next look.
    fn report(&mut self, status: MixStatus) {
        if self.reported != Some(status) && self.service.socket.send(status.lines()) {
            self.reported = Some(status);
        }
    }

    /// Returns the status that the manager is to know.
    fn status(&self) -> MixStatus {
        if self.reported.is_none() {
            return MixStatus::Ready;
        }
        match (self.is_going(), self.has_begun) {
            (true, true) => MixStatus::Going,
            (true, false) => MixStatus::Ready,
            (false, _) => MixStatus::Still,
        }
    }

    /// Returns true if the manager is to hear that the mix goes on.
    fn is_due(&self) -> bool {
        match self.service.looks {
            Some(looks) => looks <= self.unheard,
            None => false,
        }
    }

    /// Returns true if the mix does not stand still.
    fn is_going(&self) -> bool {
        if self.has_begun {
            self.idle <= self.patience.later
        } else {
            self.idle <= self.patience.first
        }
    }
}

impl<S: ManagerSocket> SideTask for ServiceTask<S> {
    fn complete<R: Wait + Clock>(self, rt: &R, _start: &RunStart) {
        let mut task = self;
        let parker = Parker::new();
        // The sockets are open, and all files were created.
        task.report(MixStatus::Ready);
        for _ in rt.forever() {
            parker.park_timeout(rt, Duration::from_millis(POLL_MS));
            if task.ring.is_abandoned() {
                let _ = task.service.socket.send(ENDS);
                return;
            }
            task.look();
        }
    }
}

impl<S: ManagerSocket + Send> CreateOutput for Service<S> {
    type Events = NoOutput;

    type Mix = MixSign;

    type Tasks = OneTask<ServiceTask<S>>;

    ghost begins = { λ is_controlled studio events mix. ⊤ };

    fn create(
        self,
        alloc: Global,
        studio: &StudioSpec,
        _is_controlled: bool,
    ) -> Result<CreatedOutput<NoOutput, MixSign, OneTask<ServiceTask<S>>>, OutputFault> {
        let (producer, consumer) = RingBuffer::new(alloc, 1)?;
        let task = ServiceTask {
            service: self,
            ring: consumer,
            patience: Patience::of(studio),
            has_begun: false,
            idle: 0,
            unheard: 0,
            reported: None,
        };
        Ok(CreatedOutput {
            events: NoOutput,
            mix: MixSign { ring: producer },
            tasks: OneTask::new(task),
        })
    }
}
