//! A requester of two output channels and two inputs, in memory. The next block begins at 480. At first two changes are
//! planned.
ghost use Rattle.std.specs.Prelude.{min, take};

use gain_mix::ChangeFault;
use status_page::{GainRequester, GainShape, RequestOutcome};
use studio_io::{GainAction, GainAnswer, GainRequest};

/// The start of the next block.
const NEXT: i64 = 480;

/// A time before which there are too many changes.
const FULL: i64 = 4_800;

/// A requester that keeps one matrix.
#[derive(Drop)]
pub(super) struct MemoryRequester {
    shape: GainShape,
    gains: [i32; 4],
    /// The times of the planned changes: the first `count` of these.
    planned: [i64; 2],
    count: usize,
    /// True once the run has ended.
    pub(super) has_ended: bool,
}

impl MemoryRequester {
    /// Returns a requester with the gains 1 to 4.
    pub(super) fn new(shape: GainShape) -> MemoryRequester {
        MemoryRequester {
            shape,
            gains: [1, 2, 3, 4],
            planned: [2_400, 3_600],
            count: 2,
            has_ended: false,
        }
    }

    /// Returns the answer to a request with these gains.
    fn answer(&mut self, request: GainRequest, gains: &[i32]) -> GainAnswer {
        let at = request.time(NEXT);
        if !request.action.is_change() {
            return GainAnswer::Shown(at.max(NEXT));
        }
        if at < NEXT {
            return GainAnswer::Refused(ChangeFault::Time);
        }
        if at >= FULL {
            return GainAnswer::Refused(ChangeFault::TooMany);
        }
        if self.set(request.action, gains) {
            // Each change here is before the planned ones, and so replaces them.
            self.planned[0] = at;
            self.count = usize::from(at > NEXT);
            GainAnswer::Taken(at)
        } else {
            GainAnswer::Refused(ChangeFault::Shape)
        }
    }

    /// Sets the requested gains, and returns true if they are gains of the matrix.
    fn set(&mut self, action: GainAction, gains: &[i32]) -> bool {
        match action {
            GainAction::SetAll if gains.len() == 4 => {
                self.gains = [gains[0], gains[1], gains[2], gains[3]];
                true
            }
            GainAction::SetOne {
                output,
                input,
                gain,
            } if output < 2 && input < 2 => {
                self.gains[2 * output + input] = gain;
                true
            }
            _ => false,
        }
    }
}

impl GainRequester for MemoryRequester {
    // No clause says what this requester does: its tests look at the responses of the page.
    ghost asks = { λ old request sent outcome shown new. Unit {0} };

    ghost planned = { λ requester. take (min requester.count 2) requester.planned };

    fn shape(&self) -> GainShape {
        self.shape
    }

    fn planned(&self) -> &[i64] {
        &self.planned[..self.count.min(2)]
    }

    fn ask(&mut self, request: GainRequest, gains: &mut [i32]) -> RequestOutcome {
        if self.has_ended {
            return RequestOutcome::NoAnswer;
        }
        let answer = self.answer(request, gains);
        if gains.len() == 4 {
            gains.copy_from_slice(&self.gains);
        }
        RequestOutcome::Answered {
            answer,
            next_block_start: NEXT,
        }
    }
}
