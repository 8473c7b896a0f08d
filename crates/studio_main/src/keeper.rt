//! The keeper of a run's gains, an output of the run: it writes them to a file, by which a later run begins with them.
ghost use Rattle.std.specs.Prelude.{None, ⊤};

use crate::kept_file::KeptFile;
use live_gains::GainNotes;
use rtrb::{Consumer, Producer, RingBuffer};
use run_outputs::{
    CreateOutput, CreatedOutput, MixOutput, NoOutput, OneTask, OutputFault, RunStart, SideTask,
};
use std::alloc::{AllocError, Global};
use std::io;
use std::io::ErrorKind;
use std::sync::Wait;
use std::sync::atomic::{AtomicBool, Ordering};
use std::thread::Parker;
use std::time::{Clock, Duration};
use studio_config::StudioSpec;
use studio_io::{MixedBlock, OutputEnd, OutputKind};

/// The time between two looks at the gains, in milliseconds: they are written at most ten times a second.
const POLL_MS: u64 = 100;

/// The number of looks from a text that was not written to the next try.
// A second, so that a full disk is not asked ten times as often as it could have space again.
const RETRY_LOOKS: u32 = 10;

/// The gains that a run keeps, which its threads share.
#[derive(Drop)]
pub(crate) struct KeptGains {
    notes: GainNotes,
    /// True if the changes that are still to come are kept too.
    with_planned: bool,
    /// True if the file does not have the last gains, because they could not be written.
    is_behind: AtomicBool,
}

impl KeptGains {
    /// Returns the gains of a run of this studio, which has not begun. Changes that are still to come are kept only if
    /// they are wanted. Returns `AllocError` if an allocation fails.
    pub(crate) fn new(
        alloc: Global,
        studio: &StudioSpec,
        with_planned: bool,
    ) -> Result<KeptGains, AllocError> {
        Ok(KeptGains {
            notes: GainNotes::new(alloc, studio)?,
            with_planned,
            is_behind: AtomicBool::new(false),
        })
    }

    /// Returns the notes of the gains.
    pub(crate) fn notes(&self) -> &GainNotes {
        &self.notes
    }

    /// Returns true if the file does not have the last gains, because they could not be written.
    pub(crate) fn is_behind(&self) -> bool {
        self.is_behind.load(Ordering::SeqCst)
    }
}

/// The keeper of a run's gains, as an output of the run.
#[derive(Drop)]
pub(crate) struct Keeper<'a, F> {
    file: F,
    gains: &'a KeptGains,
}

/// Returns the keeper that writes these gains to this file, if there are both.
pub(crate) fn keeper_of<F: Drop>(
    gains: Option<&KeptGains>,
    file: Option<F>,
) -> Option<Keeper<'_, F>> {
    match (gains, file) {
        (Some(gains), Some(file)) => Some(Keeper { file, gains }),
        _ => None,
    }
}

/// The part of a keeper that takes the mix: it notes how far the mix has come.
#[derive(Drop)]
pub(crate) struct KeptMix<'a> {
    gains: &'a KeptGains,
    /// The number of blocks so far.
    blocks: u64,
    /// A ring through which nothing goes. Its end tells the task that the run has ended.
    _ring: Producer<u8>,
}

impl MixOutput for KeptMix<'_> {
    ghost mixes = { λ old mixed new. ⊤ };

    ghost ended = { λ output kind. None };

    fn mixed(&mut self, _datagram: &[u8], _block: &MixedBlock<'_>) {
        self.blocks = self.blocks.saturating_add(1);
        self.gains.notes.set_blocks(self.blocks);
    }

    fn end_of(&self, _kind: OutputKind) -> Option<OutputEnd> {
        None
    }
}

/// The task that writes the gains of a run to a file.
#[derive(Drop)]
pub(crate) struct KeeperTask<'a, F> {
    file: F,
    gains: &'a KeptGains,
    ring: Consumer<u8>,
    /// The last text.
    text: Vec<u8>,
    /// True if the file does not have the last text.
    is_pending: bool,
    /// The number of looks until a text is tried again that was not written.
    pause: u32,
}

impl<F: KeptFile> KeeperTask<'_, F> {
    /// Looks at the gains, and writes them if they are others than those of the file. `is_last` is true at the end of
    /// the run.
    fn look<R: Wait>(&mut self, rt: &R, is_last: bool) {
        self.pause = if is_last {
            0
        } else {
            self.pause.saturating_sub(1)
        };
        let gains = self.gains;
        match gains
            .notes
            .write_new(rt, gains.with_planned, &mut self.text)
        {
            Ok(is_new) => self.is_pending = self.is_pending || is_new,
            Err(AllocError) => {
                // The text is cut off. The next look makes it again.
                self.is_pending = false;
                self.fail(&io::Error::from(ErrorKind::OutOfMemory));
            }
        }
        if self.is_pending && self.pause == 0 {
            self.write();
        }
    }

    /// Writes the text to the file.
    fn write(&mut self) {
        match self.file.replace(self.text.as_slice()) {
            Ok(()) => {
                self.is_pending = false;
                self.gains.is_behind.store(false, Ordering::SeqCst);
            }
            Err(error) => {
                self.pause = RETRY_LOOKS;
                self.fail(&error);
            }
        }
    }

    /// Notes that the gains could not be written, and reports it if they could be before.
    fn fail(&mut self, error: &io::Error) {
        if !self.gains.is_behind() {
            self.gains.is_behind.store(true, Ordering::SeqCst);
            self.file.report(error);
        }
    }
}

impl<F: KeptFile + Drop> SideTask for KeeperTask<'_, F> {
    fn complete<R: Wait + Clock>(self, rt: &R, _start: &RunStart) {
        let mut task = self;
        let parker = Parker::new();
        for _ in rt.forever() {
            // Before the look, which then finds all that was noted.
            let is_last = task.ring.is_abandoned() && !task.gains.notes.is_open();
            task.look(rt, is_last);
            if is_last {
                return;
            }
            parker.park_timeout(rt, Duration::from_millis(POLL_MS));
        }
    }
}

impl<'a, F: KeptFile + Send + Drop> CreateOutput for Keeper<'a, F> {
    type Events = NoOutput;

    type Mix = KeptMix<'a>;

    type Tasks = OneTask<KeeperTask<'a, F>>;

    ghost begins = { λ is_controlled studio events mix. ⊤ };

    fn create(
        self,
        alloc: Global,
        _studio: &StudioSpec,
        _is_controlled: bool,
    ) -> Result<CreatedOutput<NoOutput, KeptMix<'a>, OneTask<KeeperTask<'a, F>>>, OutputFault> {
        let Keeper { file, gains } = self;
        let (producer, consumer) = RingBuffer::new(alloc, 1)?;
        let task = KeeperTask {
            file,
            gains,
            ring: consumer,
            text: Vec::new(alloc),
            is_pending: false,
            pause: 0,
        };
        Ok(CreatedOutput {
            events: NoOutput,
            mix: KeptMix {
                gains,
                blocks: 0,
                _ring: producer,
            },
            tasks: OneTask::new(task),
        })
    }
}
