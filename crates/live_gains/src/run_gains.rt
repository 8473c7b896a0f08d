//! The run's end of a channel for gains: a source of requests, whose outcomes it sends to the page.
ghost use Rattle.std.specs.Prelude.{◌≡◌, ◌<◌, ◌≤ℤ◌, ◌+◌, ℤ, [], ◌++◌, List, length, true, false};
ghost use Rattle.std.specs.Prelude.{IfSome, IsNone, IfOk, IfErr, OnErr, Some, None};
ghost use Rattle.std.specs.Option.{ForSome};
ghost use Rattle.rtrb.specs.Ring.{known_free, received, sent};
ghost use Rattle.live_gains.specs.GainMessages.{HasGains, IsReturned, count_of, has_one};
ghost use Rattle.live_gains.specs.Planned.{planned_after};

use crate::link::GainLink;
use crate::messages::{Numbered, OutcomeMessage, RequestMessage};
use crate::planned::update_planned;
use rtrb::{Consumer, Producer};
use status_page::RequestOutcome;
use std::alloc::Global;
use std::sync::Wait;
use studio_io::{GainAction, GainAnswer, GainRequest, GainSource};

/// The run's end of a channel. The outcome of each request goes back with the request's own number, in order.
#[derive(Drop)]
pub struct RunGains<'a, R> {
    rt: &'a R,
    link: &'a GainLink,
    pub(crate) requests: Consumer<RequestMessage, Global, Numbered>,
    pub(crate) answers: Producer<OutcomeMessage, Global, Numbered>,
    /// The request that the run has to answer, if there is one.
    pub(crate) taken: Option<RequestMessage>,
    /// The times of the changes that are still to come, in memory for 64.
    pub(crate) planned: Vec<i64>,
    ghost in_turn: { length (received requests) ≡ length (sent answers) + count_of taken },
    ghost own_number: { ForSome taken (λ message. message.number ≡ length (sent answers)) },
    ghost has_place: { ForSome taken (λ message. 0 < known_free answers) },
}

impl<'a, R: Wait> RunGains<'a, R> {
    // Imported here, since the struct depends on what its file imports, and `GainChannel` names the struct.
    ghost use Rattle.studio_config.specs.Studio.{Studio};
    ghost use Rattle.live_gains.specs.GainChannel.{Answers, HasPlanned, Opens, PassesBack, PlansFrom, changes_by};
    ghost use Rattle.studio_io.specs.Gains.{changes_in};
    ghost use Rattle.live_gains.specs.declared.messages.RequestMessage.{RequestMessage};

    /// Returns the end of two rings, through which nothing has come yet. The studio plans changes at these times.
    pub(crate) fn new(
        rt: &'a R,
        link: &'a GainLink,
        requests: Consumer<RequestMessage, Global, Numbered>,
        answers: Producer<OutcomeMessage, Global, Numbered>,
        planned: Vec<i64>,
    ) -> RunGains<'a, R>
        requires received { received requests ≡ [] }
        requires sent { sent answers ≡ [] }
        ensures answers { result.answers ≡ answers }
        ensures taken { IsNone result.taken }
        ensures planned { result.planned ≡ planned }
    {
        RunGains {
            rt,
            link,
            requests,
            answers,
            taken: None,
            planned,
        }
    }

    /// Takes the next request, if there is one that the page has not withdrawn. A request to set all gains writes them
    /// to `gains`; one with another number of gains is not taken. A request that is not taken goes back.
    fn take_next(&mut self, gains: &mut [i32]) -> Option<GainRequest>
        ensures opens { IfSome result (λ request. Opens request gains.old gains.new self.old self.new) }
        ensures none { IsNone result → PassesBack self.old self.new }
        ensures planned { self.new.planned ≡ self.old.planned }
    {
        // A request is taken only if its outcome has a place, and the one before it has its answer: so no change is
        // made whose answer could not be sent.
        if self.taken.is_some() || self.answers.is_full() {
            return None;
        }
        let Ok(message) = self.requests.pop() else {
            return None;
        };
        let is_taken = self.link.take();
        match admit(message, is_taken, gains) {
            Ok(message) => {
                let request = message.request;
                self.taken = Some(message);
                Some(request)
            }
            Err(outcome) => {
                self.answers.push_reserved(outcome);
                self.link.wake();
                None
            }
        }
    }

    /// Sends the answer to the request that was taken, if there is one.
    fn send_answer(&mut self, answer: GainAnswer, next_block_start: i64, gains: &[i32])
        ensures none { IsNone self.new.taken }
        ensures sent { (message : RequestMessage) → self.old.taken ≡ Some message
            → Answers message answer next_block_start gains.now self.old self.new }
        ensures taken { has_one self.old.taken ≡ true
            → changes_by self.new ≡ changes_by self.old ++ changes_in answer gains.now }
        ensures planned { (studio : Studio) (from : ℤ) → PlansFrom studio from self.old → from ≤ℤ next_block_start
            → has_one self.old.taken ≡ true
            → PlansFrom studio next_block_start self.new × HasPlanned studio next_block_start self.new }
        ensures kept { self.old.taken ≡ None
            → (sent self.new.answers ≡ sent self.old.answers) × (self.new.planned ≡ self.old.planned) }
    {
        let Some(message) = self.taken.take() else {
            return;
        };
        let planned = &mut self.planned;
        let outcome = answered(self.rt, message, answer, next_block_start, gains, planned);
        self.answers.push_reserved(outcome);
        self.link.wake();
    }
}

impl<'a, R: Wait> GainSource for RunGains<'a, R> {
    ghost use Rattle.studio_config.specs.Studio.{Studio};
    ghost use Rattle.live_gains.specs.GainChannel.{Answers, HasPlanned, Opens, PassesBack, PlansFrom, changes_by};
    ghost use Rattle.studio_io.specs.Gains.{changes_in};
    ghost use Rattle.live_gains.specs.declared.messages.RequestMessage.{RequestMessage};

    ghost taken = { λ source. changes_by source };

    ghost asks = { λ source. has_one source.taken };

    fn next(&mut self, gains: &mut [i32]) -> Option<GainRequest>
        ensures asks { IfSome result (λ _. has_one self.new.taken ≡ true) }
        ensures taken { changes_by self.new ≡ changes_by self.old }
        ensures opens { IfSome result (λ request. Opens request gains.old gains.new self.old self.new) }
        ensures none { IsNone result → PassesBack self.old self.new }
        ensures planned { self.new.planned ≡ self.old.planned }
    {
        self.take_next(gains)
    }

    fn answer(&mut self, answer: GainAnswer, next_block_start: i64, gains: &[i32])
        ensures taken { has_one self.old.taken ≡ true
            → changes_by self.new ≡ changes_by self.old ++ changes_in answer gains.now }
        ensures sent { (message : RequestMessage) → self.old.taken ≡ Some message
            → Answers message answer next_block_start gains.now self.old self.new }
        ensures planned { (studio : Studio) (from : ℤ) → PlansFrom studio from self.old → from ≤ℤ next_block_start
            → has_one self.old.taken ≡ true
            → PlansFrom studio next_block_start self.new × HasPlanned studio next_block_start self.new }
        ensures kept { self.old.taken ≡ None
            → (sent self.new.answers ≡ sent self.old.answers) × (self.new.planned ≡ self.old.planned) }
    {
        self.send_answer(answer, next_block_start, gains);
    }
}

/// Returns a request that the run takes, after writing its gains to `gains` if it sets all. Returns its outcome, which
/// is no answer, if the run does not take it, or if it does not have as many gains as `gains`.
fn admit(
    message: RequestMessage,
    is_taken: bool,
    gains: &mut [i32],
) -> Result<RequestMessage, OutcomeMessage>
    ensures only { IfOk result (λ taken. (taken ≡ message) × (is_taken ≡ true)) }
    ensures gains { IfOk result (λ taken. HasGains taken.request.action taken.gains.items gains.old gains.new) }
    ensures returned { IfErr result (λ outcome. IsReturned message outcome) }
    ensures kept { OnErr result (gains.new ≡ gains.old) }
{
    if !is_taken {
        return Err(returned(message));
    }
    if message.request.action != GainAction::SetAll {
        return Ok(message);
    }
    if message.gains.len() != gains.len() {
        return Err(returned(message));
    }
    gains.copy_from_slice(message.gains.as_slice());
    Ok(message)
}

/// Returns the outcome of a request that was not taken.
fn returned(message: RequestMessage) -> OutcomeMessage
    ensures { IsReturned message result }
{
    let RequestMessage {
        number,
        request: _,
        gains,
        planned,
    } = message;
    OutcomeMessage {
        number,
        outcome: RequestOutcome::NoAnswer,
        gains,
        planned,
    }
}

/// Returns the outcome of a request that was taken: this answer, with the gains that it shows and the times of the
/// changes that are still to come. `planned` has these times, and is updated.
fn answered<R: Wait>(
    rt: &R,
    message: RequestMessage,
    answer: GainAnswer,
    next_block_start: i64,
    gains: &[i32],
    planned: &mut Vec<i64>,
) -> OutcomeMessage
    ensures own { result.number ≡ message.number }
    ensures answer { result.outcome ≡ RequestOutcome.Answered answer next_block_start }
    ensures shown { result.gains.items ≡ gains.now }
    ensures planned { planned.new.items ≡ planned_after answer next_block_start planned.old.items }
    ensures sent { result.planned.items ≡ planned.new.items }
{
    let RequestMessage {
        number,
        request: _,
        gains: memory,
        planned: times,
    } = message;
    let mut shown = memory;
    copy_gains(rt, gains, &mut shown);
    let mut left = times;
    update_planned(rt, answer, next_block_start, planned, &mut left);
    OutcomeMessage {
        number,
        outcome: RequestOutcome::Answered {
            answer,
            next_block_start,
        },
        gains: shown,
        planned: left,
    }
}

/// Copies gains to memory that a message carries.
// The memory has space for 8,192 gains, and a run passes no more, so the first copy succeeds without an allocation. The
// trait does not limit them: more of them wait here until there is memory, since what was taken has to be reported.
fn copy_gains<R: Wait>(rt: &R, gains: &[i32], memory: &mut Vec<i32>)
    ensures { memory.new.items ≡ gains.now }
{
    for _ in rt.forever() {
        memory.clear();
        if memory.extend_from_slice(gains).is_ok() {
            return;
        }
    }
    unreachable!()
}
