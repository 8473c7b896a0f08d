//! The page: the service that responds to requests from one snapshot. `html` has the page's text, and `controls_html`
//! that of its gains. `state` writes the snapshot as JSON. `metrics` and `path_states` write it as metrics, and `facts`
//! appends those of the run. Their lines are in `samples`, and the pieces of lines in `text`. `resource` has the paths,
//! and `host` the hosts to which requests may be addressed.
ghost use Rattle.std.specs.Prelude.{◌≡◌, [], ◌∷◌, ◌++◌, codes, OnOk, IfOk};
ghost use Rattle.http_server.specs.Connection.{config_of, history};
ghost use Rattle.http_server.specs.History.{IsServed, Rests};
ghost use Rattle.http_server.specs.Response.{IsBlank, IsResponse, fields_of};
ghost use Rattle.status_page.specs.Connections.{page_answers, AnswersMore};
ghost use Rattle.status_page.specs.Responses.{
  content_of,
  guard_fields,
  is_read,
  misdirected_fields,
  misdirected_text,
  policy_text,
  refused_fields,
  shown_fields,
};
ghost use Rattle.status_page.specs.declared.page.resource.Resource.TheVariants.{State};

use crate::page::facts::run_metrics;
use crate::page::host::is_addressed_here;
use crate::page::html::page_html;
use crate::page::resource::Resource;
use crate::page::state::state_json;
use crate::run_facts::{RunFacts, ShownRun};
use crate::snapshot::Snapshot;
use bytes::Bytes;
use http::{HeaderName, HeaderValue, Method, Request, StatusCode};
use http_server::{Connection, Response, Service};
use std::alloc::{AllocError, Global};
use std::marker::Model;

pub(crate) mod controls_html;
mod facts;
pub(crate) mod host;
pub(crate) mod html;
pub(crate) mod metrics;
mod path_states;
pub(crate) mod resource;
mod samples;
pub(crate) mod state;
mod text;

/// The service that responds to the requests of all connections from one snapshot, which the caller updates.
#[derive(Drop)]
pub struct Page {
    alloc: Global,
    run: ShownRun,
    /// The response's body at `/state`, once there was a request for it.
    // Kept, since each open page requests it ten times a second: its JSON is written once for all of them.
    state: Option<Bytes>,
}

impl Model for Page {
    ghost use Rattle.std.specs.Prelude.{◌≡◌, IfSome};
    ghost use Rattle.status_page.specs.declared.run_facts.ShownRun as shown;
    ghost use Rattle.status_page.specs.declared.page.resource.Resource.TheVariants.{State};
    ghost use Rattle.status_page.specs.Responses.{content_of};

    ghost Value = { shown.ShownRun };

    ghost view = { λ page. page.run };

    ghost invariant = { λ page. IfSome page.state (λ octets. octets ≡ content_of page.run State) };
}

impl Page {
    /// Returns the page of a run with these facts and this snapshot.
    pub fn new(alloc: Global, facts: RunFacts, snapshot: Snapshot) -> Page
        ensures facts { result.facts ≡ facts }
        ensures snapshot { result.snapshot ≡ snapshot }
    {
        Page {
            alloc,
            run: ShownRun { facts, snapshot },
            state: None,
        }
    }

    /// Responds from a newer snapshot from now on.
    pub fn update(&mut self, snapshot: Snapshot)
        ensures facts { self.new.facts ≡ self.old.facts }
        ensures snapshot { self.new.snapshot ≡ snapshot }
    {
        self.run.snapshot = snapshot;
        self.state = None;
    }

    /// Responds to the requests that were read from a client. Call it after each read and after each write.
    pub fn answer(&mut self, connection: &mut Connection)
        ensures served { ∥ IsServed (config_of connection.new) (history connection.new) ∥₁ }
        ensures answers { AnswersMore self.old (history connection.old) (history connection.new) }
        ensures rests { Rests (config_of connection.new) (history connection.new) }
        ensures same { self.new ≡ self.old }
        ensures config { config_of connection.new ≡ config_of connection.old }
    {
        connection.advance(self);
    }

    /// Returns the allocator of the page.
    pub(crate) fn alloc(&self) -> Global {
        self.alloc
    }

    /// Writes a resource into a response. Returns `AllocError` if an allocation fails.
    pub(crate) fn show(
        &mut self,
        resource: Resource,
        response: &mut Response,
    ) -> Result<(), AllocError>
        requires { IsBlank response.old }
        ensures shown { OnOk result
            (IsResponse 200 (shown_fields resource) (content_of self.old resource) response.new) }
        ensures same { self.new ≡ self.old }
    {
        let content_type = HeaderName::from_static("content-type");
        add_fields(response, content_type, resource.media_type())?;
        response.body.push(self.content(resource)?)
    }

    /// Returns the octets of a resource, or `AllocError` if an allocation fails.
    fn content(&mut self, resource: Resource) -> Result<Bytes, AllocError>
        ensures shown { IfOk result (λ octets. octets ≡ content_of self.old resource) }
        ensures same { self.new ≡ self.old }
    {
        match resource {
            Resource::Page => Ok(Bytes::from_static(page_html().as_bytes())),
            Resource::State => self.state(),
            Resource::Metrics => shared(run_metrics(self.alloc, &self.run)?),
        }
    }

    /// Returns the snapshot as JSON, or `AllocError` if an allocation fails.
    fn state(&mut self) -> Result<Bytes, AllocError>
        ensures shown { IfOk result (λ octets. octets ≡ content_of self.old State) }
        ensures same { self.new ≡ self.old }
    {
        if let Some(state) = &self.state {
            return state.clone();
        }
        let state = shared(state_json(self.alloc, &self.run.snapshot)?)?;
        self.state = Some(state.clone()?);
        Ok(state)
    }
}

impl Service for Page {
    ghost answers = { page_answers };

    fn call(
        &mut self,
        request: &Request<Bytes>,
        response: &mut Response,
    ) -> Result<(), AllocError> {
        if !is_addressed_here(request) {
            return misdirect(response);
        }
        match Resource::of(request.uri().path()) {
            None => refuse_path(response),
            Some(resource) if is_read(request.method()) => self.show(resource, response),
            Some(_) => refuse(response),
        }
    }
}

/// Returns true if a method only reads.
pub(crate) fn is_read(method: &Method) -> bool
    ensures { result ≡ is_read method.now }
{
    method.as_str() == "GET" || method.as_str() == "HEAD"
}

/// Writes the response to a path at which there is no resource: 404.
pub(crate) fn refuse_path(response: &mut Response) -> Result<(), AllocError>
    requires { IsBlank response.old }
    ensures { OnOk result (IsResponse 404 guard_fields [] response.new) }
{
    response.status = StatusCode::NOT_FOUND;
    add_guard(response)
}

/// Writes the response to a method that does not only read: 405, with the allowed methods.
pub(crate) fn refuse(response: &mut Response) -> Result<(), AllocError>
    requires { IsBlank response.old }
    ensures { OnOk result (IsResponse 405 refused_fields [] response.new) }
{
    response.status = StatusCode::METHOD_NOT_ALLOWED;
    let allowed = HeaderValue::from_static("GET, HEAD");
    add_fields(response, HeaderName::from_static("allow"), allowed)
}

/// The text of the response to a request that is addressed to another host.
const MISDIRECTED_TEXT: &str =
    "The page answers only to the hosts 127.0.0.1, localhost and [::1].\n";

/// Writes the response to a request that is addressed to another host: 421, with the hosts to which the page answers.
pub(crate) fn misdirect(response: &mut Response) -> Result<(), AllocError>
    requires { IsBlank response.old }
    ensures { OnOk result (IsResponse 421 misdirected_fields misdirected_text response.new) }
{
    response.status = StatusCode::MISDIRECTED_REQUEST;
    let media_type = HeaderValue::from_static("text/plain; charset=utf-8");
    add_fields(
        response,
        HeaderName::from_static("content-type"),
        media_type,
    )?;
    response
        .body
        .push(Bytes::from_static(MISDIRECTED_TEXT.as_bytes()))
}

/// Adds a header field, and then those that every response has, to a response that has none.
pub(crate) fn add_fields(
    response: &mut Response,
    name: HeaderName,
    value: HeaderValue,
) -> Result<(), AllocError>
    requires none { fields_of response.old ≡ [] }
    ensures fields { OnOk result (fields_of response.new ≡ (name, value.bytes) ∷ guard_fields) }
    ensures status { response.new.status ≡ response.old.status }
    ensures body { response.new.body ≡ response.old.body }
{
    response.add_header(name, value)?;
    add_guard(response)
}

/// Adds the header fields that every response has, behind those that the response has already.
fn add_guard(response: &mut Response) -> Result<(), AllocError>
    ensures fields { OnOk result (fields_of response.new ≡ fields_of response.old ++ guard_fields) }
    ensures status { response.new.status ≡ response.old.status }
    ensures body { response.new.body ≡ response.old.body }
{
    add_no_store(response)?;
    add_no_sniff(response)?;
    add_no_frame(response)?;
    add_policy(response)
}

/// Adds the header field that keeps caches from keeping a response.
fn add_no_store(response: &mut Response) -> Result<(), AllocError>
    ensures fields { OnOk result (fields_of response.new
        ≡ fields_of response.old ++ (codes "cache-control", codes "no-store") ∷ []) }
    ensures status { response.new.status ≡ response.old.status }
    ensures body { response.new.body ≡ response.old.body }
{
    response.add_header(
        HeaderName::from_static("cache-control"),
        HeaderValue::from_static("no-store"),
    )
}

/// Adds the header field that keeps a browser from taking a response for another type than it says.
// Else a stream's name, which anyone may have chosen, could be run as a script.
fn add_no_sniff(response: &mut Response) -> Result<(), AllocError>
    ensures fields { OnOk result (fields_of response.new
        ≡ fields_of response.old ++ (codes "x-content-type-options", codes "nosniff") ∷ []) }
    ensures status { response.new.status ≡ response.old.status }
    ensures body { response.new.body ≡ response.old.body }
{
    response.add_header(
        HeaderName::from_static("x-content-type-options"),
        HeaderValue::from_static("nosniff"),
    )
}

/// Adds the header field that keeps a browser from showing a response in a frame of another page.
// Else a page of another site could lay the faders under something that an operator clicks. The policy says the same to
// browsers that know it.
fn add_no_frame(response: &mut Response) -> Result<(), AllocError>
    ensures fields { OnOk result (fields_of response.new
        ≡ fields_of response.old ++ (codes "x-frame-options", codes "DENY") ∷ []) }
    ensures status { response.new.status ≡ response.old.status }
    ensures body { response.new.body ≡ response.old.body }
{
    response.add_header(
        HeaderName::from_static("x-frame-options"),
        HeaderValue::from_static("DENY"),
    )
}

/// Adds the header field with the policy of a response.
fn add_policy(response: &mut Response) -> Result<(), AllocError>
    ensures fields { OnOk result (fields_of response.new
        ≡ fields_of response.old ++ (codes "content-security-policy", policy_text) ∷ []) }
    ensures status { response.new.status ≡ response.old.status }
    ensures body { response.new.body ≡ response.old.body }
{
    response.add_header(HeaderName::from_static("content-security-policy"), policy())
}

/// Returns what a browser may do with a response: it uses the style, the script and the icon that are in it, sends
/// requests to its own origin alone, and shows it in no frame.
// In a header, since a policy in the page itself cannot forbid frames. A function, so that a contract can name the text
// by `policy_text`, which is unfolded here alone.
#[tactic(auto, unfolding(crate::specs::Responses::policy_text))]
fn policy() -> HeaderValue
    ensures { result.bytes ≡ policy_text }
{
    HeaderValue::from_static(
        "default-src 'none'; style-src 'unsafe-inline'; script-src 'unsafe-inline'; \
        connect-src 'self'; img-src data:; frame-ancestors 'none'",
    )
}

/// Returns these octets in a form that connections share without a copy.
pub(crate) fn shared(octets: Vec<u8>) -> Result<Bytes, AllocError>
    ensures { IfOk result (λ shared. shared ≡ octets.items) }
{
    Ok(Bytes::from_vec(octets)?)
}
