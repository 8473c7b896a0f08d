//! The control of a run's gains by the page: `GainRequester` is the page's end of it, and `Control` adds the token that
//! a change needs. `token` has the token.
ghost use Rattle.std.specs.Prelude.{◌≡◌, ℤ, List, IfOk};
ghost use Rattle.studio_io.specs.declared.gain_source.GainRequest.{GainRequest as Asked};

use crate::control::shape::GainShape;
use crate::control::token::Token;
use std::alloc::{AllocError, Global};
use studio_io::{GainAnswer, GainRequest};

pub(crate) mod body;
pub(crate) mod fault;
mod integer;
pub(crate) mod rate;
pub(crate) mod reply;
mod requests;
pub(crate) mod shape;
pub(crate) mod token;
pub(crate) mod verdict;

/// The outcome of a request that a `GainRequester` passed to a run.
#[derive(Clone, Copy, PartialEq, Eq)]
pub enum RequestOutcome {
    /// The run answered. The buffer has the gains that its answer shows.
    Answered {
        answer: GainAnswer,
        /// The first time whose gains could still change when the answer was made.
        next_block_start: i64,
    },
    /// The run did not answer in time, or it has ended. The request was withdrawn: it changes nothing, then or later.
    NoAnswer,
}

/// The page's end of the control of a run's gains.
pub trait GainRequester: Drop {
    ghost use Rattle.status_page.specs.declared.control.RequestOutcome.{RequestOutcome as Outcome};

    /// States that a requester in the first state was asked for this request with these gains in the buffer, that the
    /// outcome and the gains in the buffer after it are these, and that the requester is in the last state then.
    ghost asks: { Self → Asked → List ℤ → Outcome → List ℤ → Self → Type 0 };

    /// The times of the planned changes that the last answer had, in rising order.
    ghost planned: { Self → List ℤ };

    /// Returns the shape of the run's gain matrix.
    fn shape(&self) -> GainShape;

    /// Returns the times of the changes that were still to come when the last answer was made, in rising order: behind
    /// the `next_block_start` of that answer. Without an answer there are none.
    fn planned(&self) -> &[i64]
        ensures { result.now ≡ planned self.now };

    /// Asks the run, and waits at most 200 ms for its answer. `gains` has a place for each gain of the matrix, row by
    /// row. For `GainAction::SetAll` it has the gains that are asked for. After an answer it has those that the answer
    /// shows.
    fn ask(&mut self, request: GainRequest, gains: &mut [i32]) -> RequestOutcome
        ensures { asks self.old request gains.old result gains.new self.new };
}

/// The control of a run's gains: the requester that passes requests to the run, and the token that a change needs.
#[derive(Drop)]
pub struct Control<D: GainRequester> {
    pub(crate) requester: D,
    pub(crate) token: Token,
    pub(crate) shape: GainShape,
    /// A place for each gain of the matrix.
    pub(crate) gains: Vec<i32>,
}

impl<D: GainRequester> Control<D> {
    /// Returns the control of a run's gains by this requester and this token, or `AllocError` if an allocation fails.
    pub fn new(alloc: Global, requester: D, token: Token) -> Result<Control<D>, AllocError>
        ensures requester { IfOk result (λ control. control.requester ≡ requester) }
        ensures token { IfOk result (λ control. control.token ≡ token) }
    {
        let shape = requester.shape();
        let mut gains = Vec::new(alloc);
        gains.resize(shape.outs() * shape.ins(), 0)?;
        Ok(Control {
            requester,
            token,
            shape,
            gains,
        })
    }
}
