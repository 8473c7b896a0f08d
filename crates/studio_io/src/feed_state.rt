//! The state of reading a feed: the faults that it returned, and whether it has ended.
ghost use Rattle.std.specs.Prelude.{◌≡◌, ◌+◌, ◌<◌, ◌^◌};
ghost use Rattle.studio_io.specs.FeedStates.{Notes, NotesFault, faults_in, new_state};

use crate::feed::FeedAnswer;

/// The number of faults in a row that end a feed.
// After each of them a run pauses for up to 2 ms, so a device may fail for two seconds before its path is given up.
const MAX_FAULTS_IN_A_ROW: u32 = 1_000;

/// The state of reading a feed.
#[derive(Clone, Copy)]
pub struct FeedState {
    /// The number of faults that the feed returned in a row, at most 999.
    pub in_a_row: u32,
    /// The number of faults that the feed returned in all. It stays at 2^64 - 1 once it is reached.
    pub faults: u64,
    /// True once the feed has ended: it said so, or failed 1,000 times in a row. It is not called again.
    pub ended: bool,
}

impl FeedState {
    /// Returns the state of a feed that was not called yet.
    pub fn new() -> FeedState
        ensures { result ≡ new_state }
    {
        FeedState {
            in_a_row: 0,
            faults: 0,
            ended: false,
        }
    }

    /// Notes what the feed returned.
    pub fn note(&mut self, answer: FeedAnswer)
        ensures noted { Notes answer self.old self.new }
        ensures faults { self.old.faults + faults_in answer < 2 ^ 64
            → self.new.faults ≡ self.old.faults + faults_in answer }
    {
        match answer {
            FeedAnswer::Datagram(_) => self.in_a_row = 0,
            FeedAnswer::Nothing => self.in_a_row = 0,
            FeedAnswer::Fault => self.note_fault(),
            FeedAnswer::Ended => self.ended = true,
        }
    }

    /// Notes a fault. The 1,000th in a row, which ends the feed, is not counted in `in_a_row`.
    fn note_fault(&mut self)
        ensures noted { NotesFault self.old self.new }
        ensures faults { self.old.faults + 1 < 2 ^ 64 → self.new.faults ≡ self.old.faults + 1 }
    {
        self.faults = self.faults.saturating_add(1);
        if self.in_a_row < MAX_FAULTS_IN_A_ROW - 1 {
            self.in_a_row += 1;
        } else {
            self.ended = true;
        }
    }
}
