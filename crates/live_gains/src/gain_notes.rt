//! The notes of a run's gains: the page's thread notes each change that the run takes, the run's thread how far the mix
//! has come, and a keeper reads both as a text.

use crate::gain_state::GainState;
use status_page::RequestOutcome;
use std::alloc::{AllocError, Global};
use std::sync::atomic::{AtomicBool, AtomicU64, Ordering};
use std::sync::{Mutex, Wait};
use studio_config::StudioSpec;
use studio_io::GainAnswer;

/// The notes of a run's gains, which the threads of the run share.
// The lock is one between the page and the keeper. The run's thread, which must not wait, sets a number alone.
#[derive(Drop)]
pub struct GainNotes {
    state: Mutex<GainState>,
    /// The media time of the mix's first block, in sampling instants.
    start: i64,
    /// The sampling instants of a block.
    frames: u16,
    /// The number of blocks of the mix so far.
    blocks: AtomicU64,
    /// True while there is a `NoteTaker`.
    is_open: AtomicBool,
}

impl GainNotes {
    /// Returns the notes of a run of this studio, whose mix has not begun. Returns `AllocError` if an allocation fails.
    pub fn new(alloc: Global, studio: &StudioSpec) -> Result<GainNotes, AllocError> {
        let output = studio.output();
        Ok(GainNotes {
            state: Mutex::new(GainState::new(alloc, studio)?),
            start: output.start(),
            frames: output.frames(),
            blocks: AtomicU64::new(0),
            is_open: AtomicBool::new(false),
        })
    }

    /// Notes the number of blocks of the mix so far. It does not wait.
    pub fn set_blocks(&self, blocks: u64) {
        self.blocks.store(blocks, Ordering::SeqCst);
    }

    /// Returns true while changes may still be noted: the run's page may still be asked for one.
    pub fn is_open(&self) -> bool {
        self.is_open.load(Ordering::SeqCst)
    }

    /// Replaces `text` by that of the gains in force and, if they are wanted, of the changes to come, if one of these
    /// is new since the last text. Returns false and leaves the text if none is. Returns `AllocError` if an allocation
    /// fails; then the next call tries it again.
    pub fn write_new<R: Wait>(
        &self,
        rt: &R,
        with_planned: bool,
        text: &mut Vec<u8>,
    ) -> Result<bool, AllocError> {
        let mut state = self.state.lock(rt);
        state.pass(self.next_block_start());
        state.write_new(with_planned, text)
    }

    /// Returns the media time at which the next block of the mix begins.
    fn next_block_start(&self) -> i64 {
        let blocks = self.blocks.load(Ordering::SeqCst);
        let instants = blocks.saturating_mul(u64::from(self.frames));
        self.start.saturating_add_unsigned(instants)
    }
}

/// The end of the notes that notes changes. The keeper of the gains goes on until it was dropped, so that it finds each
/// change that the page reported as taken.
pub(crate) struct NoteTaker<'a> {
    notes: &'a GainNotes,
}

impl<'a> NoteTaker<'a> {
    /// Returns the end that notes changes in these notes. There is at most one.
    pub(crate) fn new(notes: &'a GainNotes) -> NoteTaker<'a> {
        notes.is_open.store(true, Ordering::SeqCst);
        NoteTaker { notes }
    }

    /// Notes the change that was asked for, if the run took it. From its time on these gains are in force.
    pub(crate) fn note<R: Wait>(&self, rt: &R, outcome: RequestOutcome, gains: &[i32]) {
        match outcome {
            RequestOutcome::Answered {
                answer: GainAnswer::Taken(at),
                next_block_start,
            } => {
                let mut state = self.notes.state.lock(rt);
                state.note(at, next_block_start, gains);
            }
            _ => {}
        }
    }
}

impl Drop for NoteTaker<'_> {
    fn drop(self) {
        let NoteTaker { notes } = self;
        notes.is_open.store(false, Ordering::SeqCst);
    }
}
