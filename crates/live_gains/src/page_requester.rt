//! The page's end of a channel for gains, which sends requests and waits for their outcomes.
ghost use Rattle.std.specs.Prelude.{◌≡◌, ◌+◌, ◌≤◌, ◌++◌, ◌∷◌, ℤ, List, [], length, true, false, IfOk, None};
ghost use Rattle.rtrb.specs.Ring.{received, sent};
ghost use Rattle.live_gains.specs.GainMemory.{CopiesIfFit, missing};

use crate::link::GainLink;
use crate::messages::{Numbered, OutcomeMessage, RequestMessage};
use crate::planned::MAX_PLANNED;
use rtrb::{Consumer, Producer, PushError};
use status_page::{GainRequester, GainShape, RequestOutcome};
use std::alloc::{AllocError, Global};
use std::sync::Wait;
use std::time::{Clock, Duration};
use studio_io::{GainRequest, MAX_GAINS};

/// The longest wait for a run to take a request, in milliseconds.
// A run with a channel looks for requests at least each 10 ms, so one that has not looked for 200 ms has ended or is
// stuck. The page serves nobody while it waits.
const LONGEST_WAIT_MS: u64 = 200;

/// The longest pause between two looks for an outcome, in milliseconds.
// An outcome ends the pause. Only the end of a run is found by looking again.
const PAUSE_MS: u64 = 10;

/// The memory that a message carries.
#[derive(Drop)]
pub(crate) struct MessageMemory {
    /// Space for the gains of a matrix.
    pub(crate) gains: Vec<i32>,
    /// Space for the times of the planned changes.
    pub(crate) planned: Vec<i64>,
}

/// The page's end of a channel.
#[derive(Drop)]
pub struct PageRequester<'a, R> {
    rt: &'a R,
    link: &'a GainLink,
    shape: GainShape,
    pub(crate) requests: Producer<RequestMessage, Global, Numbered>,
    pub(crate) outcomes: Consumer<OutcomeMessage, Global, Numbered>,
    /// The memory for gains and times. `None` while a message carries it, so that only one is on its way.
    memory: Option<MessageMemory>,
    /// The number of requests that were sent.
    count: u64,
    ghost counted: { count ≡ length (sent requests) },
    ghost one: { count ≡ length (received outcomes) + missing memory },
}

impl<'a, R: Wait + Clock> PageRequester<'a, R> {
    ghost use Rattle.live_gains.specs.PageRequester.{Collects, SendsIf, Shows};

    /// Returns the end of two rings, through which nothing has come yet. Allocates the memory for gains and
    /// times, and returns `AllocError` if that fails.
    pub(crate) fn new(
        rt: &'a R,
        alloc: Global,
        link: &'a GainLink,
        shape: GainShape,
        requests: Producer<RequestMessage, Global, Numbered>,
        outcomes: Consumer<OutcomeMessage, Global, Numbered>,
    ) -> Result<PageRequester<'a, R>, AllocError>
        requires sent { sent requests ≡ [] }
        requires received { received outcomes ≡ [] }
        ensures requests { IfOk result (λ requester. requester.requests ≡ requests) }
        ensures outcomes { IfOk result (λ requester. requester.outcomes ≡ outcomes) }
    {
        let gains = Vec::with_capacity(alloc, MAX_GAINS)?;
        let planned = Vec::with_capacity(alloc, MAX_PLANNED)?;
        Ok(PageRequester {
            rt,
            link,
            shape,
            requests,
            outcomes,
            memory: Some(MessageMemory { gains, planned }),
            count: 0,
        })
    }

    /// Sends a request with these gains, if the memory for them is here. Returns true if it was sent.
    fn send(&mut self, request: GainRequest, gains: &[i32]) -> bool
        ensures sent { SendsIf result request gains.now self.old self.new }
    {
        let Some(count) = self.count.checked_add(1) else {
            return false;
        };
        let Some(mut memory) = self.memory.take() else {
            return false;
        };
        memory.gains.clear();
        // Never refused: the memory has space for all gains of a matrix.
        if memory.gains.extend_from_slice(gains).is_err() {
            self.memory = Some(memory);
            return false;
        }
        self.link.begin();
        let MessageMemory { gains, planned } = memory;
        let message = RequestMessage {
            number: self.count,
            request,
            gains,
            planned,
        };
        match self.requests.push(message) {
            Ok(()) => {
                self.count = count;
                true
            }
            // Never full: the run has taken the request before, whose memory came back.
            Err(PushError::Full(message)) => {
                self.memory = Some(MessageMemory {
                    gains: message.gains,
                    planned: message.planned,
                });
                false
            }
        }
    }

    /// Takes the outcome that came back, if there is one, and keeps its memory.
    fn collect(&mut self) -> Option<RequestOutcome>
        requires { self.old.memory ≡ None }
        ensures { Collects self.old result self.new }
    {
        let Ok(message) = self.outcomes.pop() else {
            return None;
        };
        let OutcomeMessage {
            number: _,
            outcome,
            gains,
            planned,
        } = message;
        self.memory = Some(MessageMemory { gains, planned });
        Some(outcome)
    }

    /// Waits for an outcome until this reading of the clock, or without a limit, but not beyond the end of the run.
    fn wait_for_outcome(&mut self, until: Option<Duration>) -> Option<RequestOutcome>
        requires { self.old.memory ≡ None }
        ensures { Collects self.old result self.new }
    {
        for _ in self.rt.forever() {
            // Before the look, which finds what the run sent before it ended.
            let is_over = self.outcomes.is_abandoned();
            if let Some(outcome) = self.collect() {
                return Some(outcome);
            }
            let left = time_left(self.rt, until);
            if is_over || left.is_zero() {
                return None;
            }
            self.link
                .pause(self.rt, left.min(Duration::from_millis(PAUSE_MS)));
        }
        unreachable!()
    }

    /// Waits for the memory of a request that was withdrawn, if that has not come back yet. Returns true if it is here.
    fn wait_for_memory(&mut self, until: Duration) -> bool
        ensures { sent self.new.requests ≡ sent self.old.requests }
    {
        if self.memory.is_some() {
            return true;
        }
        self.wait_for_outcome(Some(until)).is_some()
    }

    /// Waits for the outcome of the request that was sent. Withdraws the request if the run has not taken it by then.
    fn wait_or_withdraw(&mut self, until: Duration) -> Option<RequestOutcome>
        requires { self.old.memory ≡ None }
        ensures { Collects self.old result self.new }
    {
        if let Some(outcome) = self.wait_for_outcome(Some(until)) {
            return Some(outcome);
        }
        if self.link.withdraw() {
            return None;
        }
        // The run takes the request, so the gains may change, and its answer comes. There is no limit, since an answer
        // that is not waited for would be a change that the page denies. The wait is short all the same: the run takes
        // and answers in one turn, in which it waits for nothing. If the run's end was dropped in that turn, no answer
        // was noted, so nothing was taken.
        self.wait_for_outcome(None)
    }

    /// Copies the gains of an answer that came back to `gains`, if they are as many. Copies none without an answer.
    fn show(&self, outcome: RequestOutcome, gains: &mut [i32])
        ensures { Shows outcome self.now.memory gains.old gains.new }
    {
        match outcome {
            RequestOutcome::Answered { .. } => copy_if_fit(&self.memory, gains),
            RequestOutcome::NoAnswer => {}
        }
    }
}

impl<'a, R: Wait + Clock> GainRequester for PageRequester<'a, R> {
    ghost use Rattle.live_gains.specs.PageRequester.{Asks};
    ghost use Rattle.live_gains.specs.GainMemory.{planned_in};

    ghost asks = { λ old request before outcome after new. Asks old request before outcome after new };

    ghost planned = { λ requester. planned_in requester.memory };

    fn shape(&self) -> GainShape {
        self.shape
    }

    fn planned(&self) -> &[i64] {
        match &self.memory {
            Some(memory) => memory.planned.as_slice(),
            None => &[],
        }
    }

    fn ask(&mut self, request: GainRequest, gains: &mut [i32]) -> RequestOutcome {
        let until = deadline(self.rt);
        if !self.wait_for_memory(until) || !self.send(request, gains) {
            return RequestOutcome::NoAnswer;
        }
        let Some(outcome) = self.wait_or_withdraw(until) else {
            return RequestOutcome::NoAnswer;
        };
        self.show(outcome, gains);
        outcome
    }
}

/// Copies the gains in the memory to `gains`, if it is here and they are as many.
fn copy_if_fit(memory: &Option<MessageMemory>, gains: &mut [i32])
    ensures { CopiesIfFit memory.now gains.old gains.new }
{
    if let Some(memory) = memory {
        if memory.gains.len() == gains.len() {
            gains.copy_from_slice(memory.gains.as_slice());
        }
    }
}

/// Returns the clock reading until which a request waits for the run. Returns 0 if the clock cannot be read, so that
/// the request does not wait.
fn deadline<R: Clock>(rt: &R) -> Duration {
    match rt.monotonic() {
        Ok(now) => now.saturating_add(Duration::from_millis(LONGEST_WAIT_MS)),
        Err(_) => Duration::ZERO,
    }
}

/// Returns the time until this reading of the clock, or a long time without a limit. Returns 0 if the clock cannot be
/// read.
fn time_left<R: Clock>(rt: &R, until: Option<Duration>) -> Duration {
    let Some(until) = until else {
        return Duration::from_millis(LONGEST_WAIT_MS);
    };
    match rt.monotonic() {
        Ok(now) => until.saturating_sub(now),
        Err(_) => Duration::ZERO,
    }
}
