//! Answers requests of a source of gains by the mixer.
ghost use Rattle.std.specs.Prelude.{◌≡◌, ◌≤ℤ◌, ◌∷◌, [], ℕ, ℤ, List, All, Some, MatchResult, OnErr, IfOk};
ghost use Rattle.gain_mix.specs.Changes.{matrix_at};
ghost use Rattle.studio_config.specs.Studio.{Studio};
ghost use Rattle.studio_io.specs.Gains.{AreShown, answer_of, changes_in, wanted_gains};
ghost use Rattle.studio_mix.specs.Changed.{with_changes};
ghost use Rattle.studio_mix.specs.Feed.{Feed};

use crate::mixer::Mixer;
use gain_mix::ChangeFault;
use studio_io::{GainAnswer, GainRequest, copy_gains};

impl Mixer {
    ghost use Rattle.studio_mix.specs.Mixer.{HasFeeds, next_start_of};

    /// Answers a request for the mixer's gains, and changes them if a change is asked for and can be taken. A request
    /// without a time is about the start of the next block.
    ///
    /// For `GainAction::SetAll`, `gains` has the gains that are asked for, row by row. Afterwards it has those in force
    /// from the time of the answer on. If the request was refused it has those at the next block's start, unless it
    /// does not have a place for each gain.
    pub fn answer_request(&mut self, request: GainRequest, gains: &mut [i32]) -> GainAnswer
        ensures answer { result ≡ answer_of request self.old.schedule (next_start_of self.old) gains.old }
        ensures shown { AreShown result request self.old.schedule (next_start_of self.old) gains.old gains.new }
        ensures stands { (studio : Studio) (feeds : List Feed) (number : ℕ) → HasFeeds studio self.old feeds number
            → HasFeeds (with_changes studio (changes_in result gains.new)) self.new feeds number }
        ensures later { All (λ (change : ℤ × List ℤ). next_start_of self.old ≤ℤ change.0)
            (changes_in result gains.new) }
        ensures kept { changes_in result gains.new ≡ [] → self.new ≡ self.old }
        ensures packer { self.new.packer ≡ self.old.packer }
        ensures lanes { self.new.lanes ≡ self.old.lanes }
        ensures saturated { self.new.saturated ≡ self.old.saturated }
    {
        let next = self.next_block_start();
        match self.try_request(request, next, gains) {
            Ok(answer) => answer,
            Err(fault) => {
                // The gains of the request are not in force, so the source is shown those that are.
                let _ = copy_gains(self.gains(next), gains);
                GainAnswer::Refused(fault)
            }
        }
    }

    /// Answers a request for the mixer's gains, whose next block begins at `next`. The error changes nothing, but
    /// `gains` may have the gains that were asked for.
    fn try_request(
        &mut self,
        request: GainRequest,
        next: i64,
        gains: &mut [i32],
    ) -> Result<GainAnswer, ChangeFault>
        requires next { next ≡ next_start_of self.old }
        ensures answer { MatchResult result
            (λ answer. answer ≡ answer_of request self.old.schedule next gains.old)
            (λ fault. GainAnswer.Refused fault ≡ answer_of request self.old.schedule next gains.old) }
        ensures shown { IfOk result (λ answer.
            AreShown answer request self.old.schedule next gains.old gains.new) }
        ensures stands { IfOk result (λ answer. (studio : Studio) (feeds : List Feed) (number : ℕ)
            → HasFeeds studio self.old feeds number
            → HasFeeds (with_changes studio (changes_in answer gains.new)) self.new feeds number) }
        ensures later { IfOk result (λ answer.
            All (λ (change : ℤ × List ℤ). next ≤ℤ change.0) (changes_in answer gains.new)) }
        ensures same { IfOk result (λ answer. changes_in answer gains.new ≡ [] → self.new ≡ self.old) }
        ensures kept { OnErr result (self.new ≡ self.old) }
        ensures packer { self.new.packer ≡ self.old.packer }
        ensures lanes { self.new.lanes ≡ self.old.lanes }
        ensures saturated { self.new.saturated ≡ self.old.saturated }
    {
        let at = request.time(next);
        request.action.write_gains(self.gains(at), gains)?;
        if request.action.is_change() {
            self.change_gains(at, gains)?;
            return Ok(GainAnswer::Taken(at));
        }
        Ok(GainAnswer::Shown(at.max(next)))
    }
}
