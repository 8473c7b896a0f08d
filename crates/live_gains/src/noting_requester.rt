//! The page's end of a channel for gains, which also notes the changes that the run takes.
ghost use Rattle.std.specs.Prelude.{◌≡◌};

use crate::gain_notes::{GainNotes, NoteTaker};
use crate::page_requester::PageRequester;
use status_page::{GainRequester, GainShape, RequestOutcome};
use std::sync::Wait;
use std::time::Clock;
use studio_io::GainRequest;

/// The page's end of a channel. It notes each change that the run takes before the page reports it, if there are notes.
#[derive(Drop)]
pub struct NotingRequester<'a, R> {
    rt: &'a R,
    pub(crate) requester: PageRequester<'a, R>,
    notes: Option<NoteTaker<'a>>,
}

impl<'a, R: Wait + Clock> NotingRequester<'a, R> {
    /// Returns this end of a channel, which notes changes if there are notes.
    pub(crate) fn new(
        rt: &'a R,
        requester: PageRequester<'a, R>,
        notes: Option<&'a GainNotes>,
    ) -> NotingRequester<'a, R>
        ensures { result.requester ≡ requester.entry }
    {
        let notes = match notes {
            Some(notes) => Some(NoteTaker::new(notes)),
            None => None,
        };
        NotingRequester {
            rt,
            requester,
            notes,
        }
    }
}

impl<'a, R: Wait + Clock> GainRequester for NotingRequester<'a, R> {
    ghost use Rattle.live_gains.specs.PageRequester.{Asks};
    ghost use Rattle.live_gains.specs.GainMemory.{planned_in};

    ghost asks = { λ old request before outcome after new.
        Asks old.requester request before outcome after new.requester };

    ghost planned = { λ noting. planned_in noting.requester.memory };

    fn shape(&self) -> GainShape {
        self.requester.shape()
    }

    fn planned(&self) -> &[i64] {
        self.requester.planned()
    }

    fn ask(&mut self, request: GainRequest, gains: &mut [i32]) -> RequestOutcome {
        let outcome = self.requester.ask(request, gains);
        if let Some(notes) = &self.notes {
            notes.note(self.rt, outcome, gains);
        }
        outcome
    }
}
