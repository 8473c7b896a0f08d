//! The requests that clients make of a run's gains, through the requester.
ghost use Rattle.std.specs.Prelude.{◌≡◌, IfOk, OnErr, option_map};
ghost use Rattle.http_server.specs.Response.{IsBlank};
ghost use Rattle.status_page.specs.Controls.{
  Changes,
  ChangesBy,
  HasSameLock,
  IsFailed,
  IsWrittenOrFailed,
  Shows,
  ShowsBy,
  time_at,
  time_in_query,
};
ghost use Rattle.status_page.specs.GainBodies.{value_of};
ghost use Rattle.status_page.specs.GainReplies.{IsShownReply, IsTakenReply};

use crate::control::body::{read_change, write_places};
use crate::control::fault::ControlFault;
use crate::control::integer::integer_in_octets;
use crate::control::reply::{ShownTimes, shown_in, taken_in, write_shown, write_taken};
use crate::control::{Control, GainRequester};
use http::StatusCode;
use http_server::Response;
use std::alloc::{AllocError, Global};
use studio_io::{GainAction, GainRequest};

impl<D: GainRequester> Control<D> {
    /// Writes the response to a request for the gains with this query. If an allocation fails, the response is 500.
    // Not an error: the request may have been sent to the run already.
    pub(crate) fn show(&mut self, alloc: Global, query: Option<&str>, response: &mut Response)
        requires { IsBlank response.old }
        ensures shows { Shows D.asks D.planned self.old (option_map (λ query. query.now) query.entry) self.new
            response.new }
        ensures lock { HasSameLock self.old self.new }
    {
        match self.ask_for_gains(time_in_query(query)) {
            Ok(reply) => self.write_gains(alloc, reply, response),
            Err(_) => fail(response),
        }
    }

    /// Writes the response to a request for the gains. If an allocation fails, the response is 500.
    fn write_gains(
        &self,
        alloc: Global,
        reply: Result<ShownTimes, ControlFault>,
        response: &mut Response,
    )
        requires { IsBlank response.old }
        ensures { IsWrittenOrFailed
            (IsShownReply self.now.shape.outs self.now.shape.ins reply
            (D.planned self.now.requester) self.now.gains.items)
            response.new }
    {
        let planned = self.requester.planned();
        let gains = self.gains.as_slice();
        if write_shown(alloc, self.shape, reply, planned, gains, response).is_err() {
            fail(response);
        }
    }

    /// Writes the response to a request for the change in a body. If an allocation fails, the response is 500.
    pub(crate) fn change(&mut self, alloc: Global, body: &[u8], response: &mut Response)
        requires { IsBlank response.old }
        ensures changes { Changes D.asks self.old (value_of body.now) self.new response.new }
        ensures lock { HasSameLock self.old self.new }
    {
        match self.ask_for_change(alloc, body) {
            Ok(reply) => write_change(alloc, reply, response),
            Err(_) => fail(response),
        }
    }

    /// Requests the gains in force at a time from the run, unless the request has a fault already. After `Shown` the
    /// buffer has them. Returns `AllocError` if an allocation fails; then nothing was sent to the run.
    fn ask_for_gains(
        &mut self,
        at: Result<Option<i64>, ControlFault>,
    ) -> Result<Result<ShownTimes, ControlFault>, AllocError>
        ensures ok { IfOk result (λ reply. ShowsBy D.asks self.old at self.new reply) }
        ensures err { OnErr result (self.new.requester ≡ self.old.requester) }
        ensures lock { HasSameLock self.old self.new }
    {
        let at = match at {
            Ok(at) => at,
            Err(fault) => return Ok(Err(fault)),
        };
        write_places(self.shape, &mut self.gains)?;
        let action = GainAction::Show;
        let answer = self
            .requester
            .ask(GainRequest { at, action }, self.gains.as_mut_slice());
        Ok(shown_in(answer))
    }

    /// Sends the change in a body to the run, unless the body has a fault. Returns `AllocError` if an allocation fails;
    /// then nothing was sent to the run.
    fn ask_for_change(
        &mut self,
        alloc: Global,
        body: &[u8],
    ) -> Result<Result<i64, ControlFault>, AllocError>
        ensures ok { IfOk result (λ reply. ChangesBy D.asks self.old (value_of body.now) self.new reply) }
        ensures err { OnErr result (self.new.requester ≡ self.old.requester) }
        ensures lock { HasSameLock self.old self.new }
    {
        let request = match read_change(alloc, self.shape, body, &mut self.gains)? {
            Ok(request) => request,
            Err(fault) => return Ok(Err(fault)),
        };
        let answer = self.requester.ask(request, self.gains.as_mut_slice());
        Ok(taken_in(answer))
    }
}

/// Writes the response to a request for a change. If an allocation fails, the response is 500.
fn write_change(alloc: Global, reply: Result<i64, ControlFault>, response: &mut Response)
    requires { IsBlank response.old }
    ensures { IsWrittenOrFailed (IsTakenReply reply) response.new }
{
    if write_taken(alloc, reply, response).is_err() {
        fail(response);
    }
}

/// Writes the response to a request if there was not enough memory to answer it: 500.
fn fail(response: &mut Response)
    ensures { IsFailed response.new }
{
    response.clear();
    response.status = StatusCode::INTERNAL_SERVER_ERROR;
}

/// Returns the time that a query has, which is `None` without a query. The only error is `ControlFault::Query`.
fn time_in_query(query: Option<&str>) -> Result<Option<i64>, ControlFault>
    ensures { result ≡ time_in_query (option_map (λ query. query.now) query.entry) }
{
    match query {
        None => Ok(None),
        Some(query) => match time_at(query) {
            Some(at) => Ok(Some(at)),
            None => Err(ControlFault::Query),
        },
    }
}

/// Returns the time that a query has, or `None` if it is not `at=T` with an integer T.
fn time_at(query: &str) -> Option<i64>
    ensures { result ≡ time_at query.now }
{
    integer_in_octets(query.as_bytes().strip_prefix(b"at=")?)
}
