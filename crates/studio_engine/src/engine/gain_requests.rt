//! Answers requests of a source of gains by the engine.
ghost use Rattle.std.specs.Prelude.{◌≡◌, ℕ, List};
ghost use Rattle.studio_config.specs.Studio.{Studio};
ghost use Rattle.studio_io.specs.Gains.{AreShown, answer_of, changes_in};
ghost use Rattle.studio_mix.specs.Changed.{with_changes};
ghost use Rattle.studio_mix.specs.Mixer.{next_start_of};
ghost use Rattle.studio_session.specs.Event.{TraceEvent};
ghost use Rattle.studio_engine.specs.Session.{HasSession};

use super::Engine;
use studio_io::{GainAnswer, GainRequest};

impl Engine {
    /// Answers a request for the engine's gains, and changes them if a change is asked for and can be taken. A request
    /// without a time is about the start of the next block.
    ///
    /// For `GainAction::SetAll`, `gains` has the gains that are asked for, row by row. Afterwards it has those in force
    /// from the time of the answer on. If the request was refused it has those at the next block's start, unless it
    /// does not have a place for each gain.
    pub fn answer_request(&mut self, request: GainRequest, gains: &mut [i32]) -> GainAnswer
        ensures answer { result ≡ answer_of request self.old.mixer.schedule (next_start_of self.old.mixer) gains.old }
        ensures shown { AreShown result request self.old.mixer.schedule (next_start_of self.old.mixer)
            gains.old gains.new }
        ensures stands { (studio : Studio) (events : List TraceEvent) (datagrams : List (List ℕ))
            → HasSession studio self.old events datagrams
            → HasSession (with_changes studio (changes_in result gains.new)) self.new events datagrams }
        ensures time { self.new.time ≡ self.old.time }
    {
        self.mixer.answer_request(request, gains)
    }
}
