//! The messages between a page and a run: requests for gains in one direction, and their outcomes in the other.
ghost use Rattle.std.specs.Prelude.{◌≡◌, length};

use rtrb::Protocol;
use status_page::RequestOutcome;
use studio_io::GainRequest;

/// A request on its way from the page to the run.
#[derive(Drop)]
pub(crate) struct RequestMessage {
    /// The number of requests before it.
    pub(crate) number: u64,
    pub(crate) request: GainRequest,
    /// The gains in the page's buffer. The outcome comes back in this memory.
    pub(crate) gains: Vec<i32>,
    /// Memory for the times of the planned changes.
    pub(crate) planned: Vec<i64>,
}

/// The outcome of a request on its way from the run to the page.
#[derive(Drop)]
pub(crate) struct OutcomeMessage {
    /// The number of the request.
    pub(crate) number: u64,
    pub(crate) outcome: RequestOutcome,
    /// The gains that the answer shows, or those of the request if it was not taken.
    pub(crate) gains: Vec<i32>,
    /// The times of the planned changes when the answer was made, or what the memory had if the request was not taken.
    pub(crate) planned: Vec<i64>,
}

/// The rule of both rings: the messages are numbered from 0 in the order in which they are sent.
#[derive(Clone, Copy)]
pub(crate) struct Numbered;

impl Protocol<RequestMessage> for Numbered {
    ghost allows = { λ before message. message.number ≡ length before };
}

impl Protocol<OutcomeMessage> for Numbered {
    ghost allows = { λ before message. message.number ≡ length before };
}
