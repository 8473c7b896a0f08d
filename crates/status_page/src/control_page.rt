//! The page of a run whose gains can be changed. It serves what a `Page` does, and the gains at `/gains`.
ghost use Rattle.std.specs.Prelude.{◌≡◌, OnOk, true};
ghost use Rattle.http_server.specs.Connection.{config_of, history};
ghost use Rattle.http_server.specs.Exchange.{Calls};
ghost use Rattle.http_server.specs.History.{IsServed, Rests};
ghost use Rattle.http_server.specs.Response.{IsBlank, IsResponse};
ghost use Rattle.std.specs.declared.time.Duration.{Duration};
ghost use Rattle.status_page.specs.ControlPages.{control_content_of, control_page_text};
ghost use Rattle.status_page.specs.RequestRate.{allows, counted};
ghost use Rattle.status_page.specs.Responses.{shown_fields};
ghost use Rattle.status_page.specs.declared.page.resource.Resource.TheVariants.{Page as ThePage};
ghost use Rattle.status_page.specs.Controls.{
  ChangesGains,
  ShowsGains,
  at_time,
  control_answers,
  verdict_on,
};

use crate::control::fault::ControlFault;
use crate::control::rate::{MAX_CHANGES, MAX_READS, RequestRate};
use crate::control::reply::{ask_for_token, refuse, refuse_method};
use crate::control::verdict::{IsFree, Verdict, verdict_of};
use crate::control::{Control, GainRequester};
use crate::page::controls_html::controls_html;
use crate::page::html::page_html;
use crate::page::resource::Resource;
use crate::page::{self, Page};
use crate::server::client::new_control_connection;
use crate::server::served::{GainsAnswer, ServedPage};
use crate::snapshot::Snapshot;
use bytes::Bytes;
use http::{HeaderName, Request};
use http_server::{Connection, Response, Service};
use std::alloc::{AllocError, Global};
use std::hash::RandomState;
use std::time::Duration;

/// The page of a run whose gains can be changed.
#[derive(Drop)]
pub struct ControlPage<D: GainRequester> {
    page: Page,
    control: Control<D>,
    /// The changes with the token in a second.
    change_rate: RequestRate,
    /// The reads of the gains without the token in a second, by all clients.
    read_rate: RequestRate,
    /// The time of the requests that are answered next.
    time: Duration,
    /// The part of the gains in the last answer.
    answered: GainsAnswer,
}

impl<D: GainRequester> ControlPage<D> {
    /// Returns a page with this control of the run's gains.
    pub fn new(page: Page, control: Control<D>) -> ControlPage<D>
        ensures page { result.page ≡ page }
        ensures control { result.control ≡ control }
        ensures free { (now : Duration) → allows 200 result.change_rate now ≡ true }
        ensures reads { (now : Duration) → allows 20 result.read_rate now ≡ true }
    {
        ControlPage {
            page,
            control,
            change_rate: RequestRate::new(),
            read_rate: RequestRate::new(),
            time: Duration::ZERO,
            answered: GainsAnswer::Neither,
        }
    }

    /// Responds from a newer snapshot from now on.
    pub fn update(&mut self, snapshot: Snapshot)
        ensures facts { self.new.page.facts ≡ self.old.page.facts }
        ensures snapshot { self.new.page.snapshot ≡ snapshot }
        ensures control { self.new.control ≡ self.old.control }
        ensures change_rate { self.new.change_rate ≡ self.old.change_rate }
        ensures read_rate { self.new.read_rate ≡ self.old.read_rate }
    {
        self.page.update(snapshot);
    }

    /// Responds to the requests that were read from a client. `now` is the reading of a monotonic clock. Call it after
    /// each read and after each write.
    pub fn answer(&mut self, connection: &mut Connection, now: Duration)
        ensures served { ∥ IsServed (config_of connection.new) (history connection.new) ∥₁ }
        ensures calls { Calls (control_answers D.asks D.planned) (at_time self.old now) self.new
            (history connection.old).calls (history connection.new).calls }
        ensures rests { Rests (config_of connection.new) (history connection.new) }
        ensures page { self.new.page ≡ self.old.page }
        ensures config { config_of connection.new ≡ config_of connection.old }
    {
        self.time = now;
        self.answered = GainsAnswer::Neither;
        connection.advance(self);
    }

    /// Returns the verdict on a request.
    fn verdict(&self, request: &Request<Bytes>) -> Verdict
        ensures { result ≡ verdict_on self.now request.now }
    {
        let is_free = IsFree {
            changes: self.change_rate.allows(MAX_CHANGES, self.time),
            reads: self.read_rate.allows(MAX_READS, self.time),
        };
        verdict_of(request, &self.control.token, is_free)
    }

    /// Writes a resource into a response. Returns `AllocError` if an allocation fails.
    fn show_resource(
        &mut self,
        resource: Resource,
        response: &mut Response,
    ) -> Result<(), AllocError>
        requires { IsBlank response.old }
        ensures shown { OnOk result (IsResponse 200 (shown_fields resource)
            (control_content_of self.old.page resource) response.new) }
        ensures same { self.new ≡ self.old }
    {
        match resource {
            Resource::Page => show_page(response),
            Resource::State | Resource::Metrics => self.page.show(resource, response),
        }
    }

    /// Shows the gains to a client that has the token.
    fn show_gains(&mut self, request: &Request<Bytes>, response: &mut Response)
        requires { IsBlank response.old }
        ensures { ShowsGains D.asks D.planned self.old self.old.read_rate request.now response.new self.new }
    {
        let alloc = self.page.alloc();
        self.answered = GainsAnswer::Read;
        self.control.show(alloc, request.uri().query(), response);
    }

    /// Shows the gains to a client without the token, and counts the read.
    fn show_gains_counted(&mut self, request: &Request<Bytes>, response: &mut Response)
        requires { IsBlank response.old }
        ensures { ShowsGains D.asks D.planned self.old (counted 20 self.old.read_rate self.old.time) request.now
            response.new self.new }
    {
        let alloc = self.page.alloc();
        self.read_rate.count(MAX_READS, self.time);
        self.answered = GainsAnswer::Read;
        self.control.show(alloc, request.uri().query(), response);
    }

    /// Sends the change in the body of a request to the run.
    fn change_gains(&mut self, request: &Request<Bytes>, response: &mut Response)
        requires { IsBlank response.old }
        ensures { ChangesGains D.asks self.old request.now response.new self.new }
    {
        let alloc = self.page.alloc();
        self.change_rate.count(MAX_CHANGES, self.time);
        self.answered = GainsAnswer::Change;
        self.control.change(alloc, request.body(), response);
    }
}

impl<D: GainRequester> Service for ControlPage<D> {
    ghost answers = { control_answers D.asks D.planned };

    fn call(
        &mut self,
        request: &Request<Bytes>,
        response: &mut Response,
    ) -> Result<(), AllocError> {
        match self.verdict(request) {
            Verdict::OtherHost => page::misdirect(response),
            Verdict::Refused(fault) => refuse(fault, response),
            Verdict::NoResource => page::refuse_path(response),
            Verdict::WrongMethod => page::refuse(response),
            Verdict::WrongGainsMethod => refuse_method(response),
            Verdict::WithoutToken => ask_for_token(response),
            Verdict::TooManyReads => {
                refuse(ControlFault::Rate, response)?;
                self.answered = GainsAnswer::RefusedRead;
                Ok(())
            }
            Verdict::Show(resource) => self.show_resource(resource, response),
            Verdict::ShowGains => {
                self.show_gains(request, response);
                Ok(())
            }
            Verdict::ShowGainsCounted => {
                self.show_gains_counted(request, response);
                Ok(())
            }
            Verdict::ChangeGains => {
                self.change_gains(request, response);
                Ok(())
            }
        }
    }
}

/// The end of the page, before which its gains come.
const PAGE_END: &str = "</body>\n</html>\n";

/// Writes the page with its gains into a response. Returns `AllocError` if an allocation fails.
fn show_page(response: &mut Response) -> Result<(), AllocError>
    requires { IsBlank response.old }
    ensures { OnOk result (IsResponse 200 (shown_fields ThePage) control_page_text response.new) }
{
    let content_type = HeaderName::from_static("content-type");
    page::add_fields(response, content_type, Resource::Page.media_type())?;
    let text = page_html().as_bytes();
    let (front, _) = text.split_at(text.len().saturating_sub(PAGE_END.len()));
    response.body.push(Bytes::from_static(front))?;
    response
        .body
        .push(Bytes::from_static(controls_html().as_bytes()))?;
    response.body.push(Bytes::from_static(PAGE_END.as_bytes()))
}

impl<D: GainRequester> ServedPage for ControlPage<D> {
    ghost shown = { λ page. page.page.snapshot };

    fn connection(&self, alloc: Global, keys: RandomState) -> Connection {
        new_control_connection(alloc, keys)
    }

    fn show(&mut self, snapshot: Snapshot) {
        self.update(snapshot);
    }

    fn respond(&mut self, connection: &mut Connection, now: Duration) -> GainsAnswer {
        self.answer(connection, now);
        self.answered
    }
}
