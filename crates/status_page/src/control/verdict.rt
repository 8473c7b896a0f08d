//! The tests of a request to the page of a run whose gains can be changed, in their order.
ghost use Rattle.std.specs.Prelude.{◌≡◌, Bool, bytes_eq, codes, option_map};
ghost use Rattle.http.specs.Request.{head_of};
ghost use Rattle.http_header.specs.HeaderMap.{get};
ghost use Rattle.http_uri.specs.Uri.{uri_path};
ghost use Rattle.status_page.specs.Verdicts.{
  field_of,
  has_token,
  is_bearer,
  is_origin_of,
  is_own_origin,
  verdict_of,
  verdict_on_change,
  verdict_on_gains,
  verdict_on_page,
  verdict_on_path,
  verdict_on_read,
};
ghost use Rattle.status_page.specs.Responses.{resource_of};

use crate::control::fault::ControlFault;
use crate::control::token::Token;
use crate::page::host::is_addressed_here;
use crate::page::is_read;
use crate::page::resource::Resource;
use bytes::Bytes;
use http::{HeaderMap, HeaderValue, Method, Request};
use http1::text::eq_ignore_case;

/// The page's verdict on a request.
#[derive(Clone, Copy, PartialEq, Eq)]
pub(crate) enum Verdict {
    /// It is addressed to another host.
    OtherHost,
    /// It is refused for this reason.
    Refused(ControlFault),
    /// There is no such resource.
    NoResource,
    /// Its method is not a method of the resource, which can only be read.
    WrongMethod,
    /// Its method is not a method of the gains.
    WrongGainsMethod,
    /// It is a change without the token, or with another one.
    WithoutToken,
    /// It is a read of the gains without the token, of which there were as many in this second as are allowed.
    TooManyReads,
    /// The resource is shown.
    Show(Resource),
    /// The gains are shown to a client that has the token.
    ShowGains,
    /// The gains are shown to a client without the token, or with another one, and the read is counted.
    ShowGainsCounted,
    /// It is a change of the gains.
    ChangeGains,
}

/// Whether further requests are allowed at a time, by their rates.
#[derive(Clone, Copy, PartialEq, Eq)]
pub(crate) struct IsFree {
    /// Whether a further change is allowed.
    pub(crate) changes: bool,
    /// Whether a further read without the token is allowed.
    pub(crate) reads: bool,
}

/// Returns the verdict on a request to the page of a run whose changes need a token.
pub(crate) fn verdict_of(request: &Request<Bytes>, token: &Token, is_free: IsFree) -> Verdict
    ensures { result ≡ verdict_of token.now is_free (head_of request.now) }
{
    if !is_addressed_here(request) {
        return Verdict::OtherHost;
    }
    if !is_own_origin(request.headers()) {
        return Verdict::Refused(ControlFault::Origin);
    }
    verdict_on_path(request, token, is_free)
}

/// Returns the verdict on a request from an allowed origin.
fn verdict_on_path(request: &Request<Bytes>, token: &Token, is_free: IsFree) -> Verdict
    ensures { result ≡ verdict_on_path token.now is_free (head_of request.now) }
{
    if request.uri().path() == "/gains" {
        let is_allowed = has_token(request.headers(), token);
        return verdict_on_gains(request.method(), is_allowed, is_free);
    }
    verdict_on_page(
        Resource::of(request.uri().path()),
        is_read(request.method()),
    )
}

/// Returns the verdict on a request to the gains.
fn verdict_on_gains(method: &Method, is_allowed: bool, is_free: IsFree) -> Verdict
    ensures { result ≡ verdict_on_gains method.now is_allowed is_free }
{
    if is_read(method) {
        return verdict_on_read(is_allowed, is_free.reads);
    }
    if method.as_str() != "PUT" {
        return Verdict::WrongGainsMethod;
    }
    verdict_on_change(is_allowed, is_free.changes)
}

/// Returns the verdict on a read of the gains.
fn verdict_on_read(is_allowed: bool, is_free: bool) -> Verdict
    ensures { result ≡ verdict_on_read is_allowed is_free }
{
    if is_allowed {
        return Verdict::ShowGains;
    }
    if !is_free {
        return Verdict::TooManyReads;
    }
    Verdict::ShowGainsCounted
}

/// Returns the verdict on a change of the gains.
fn verdict_on_change(is_allowed: bool, is_free: bool) -> Verdict
    ensures { result ≡ verdict_on_change is_allowed is_free }
{
    if !is_allowed {
        return Verdict::WithoutToken;
    }
    if !is_free {
        return Verdict::Refused(ControlFault::Rate);
    }
    Verdict::ChangeGains
}

/// Returns the verdict on a request to another resource than the gains.
fn verdict_on_page(resource: Option<Resource>, is_read: bool) -> Verdict
    ensures { result ≡ verdict_on_page resource is_read }
{
    match resource {
        None => Verdict::NoResource,
        Some(resource) if is_read => Verdict::Show(resource),
        Some(_) => Verdict::WrongMethod,
    }
}

/// Returns true if a request comes from no page or from one of the same host and port: it has no `Origin` field, or one
/// with the value of its `Host` field.
// A browser adds the field to each request that can change something. So a page of another site, or of another program
// on this machine, cannot use a token that a user typed there by mistake.
fn is_own_origin(headers: &HeaderMap<HeaderValue>) -> bool
    ensures { result ≡ is_own_origin (field_of (codes "origin") headers.now) (field_of (codes "host") headers.now) }
{
    match (headers.get("origin"), headers.get("host")) {
        (None, _) => true,
        (Some(origin), Some(host)) => is_origin_of(host.as_bytes(), origin.as_bytes()),
        (Some(_), None) => false,
    }
}

/// Returns true if an origin is that of the pages at this host and port.
fn is_origin_of(host: &[u8], origin: &[u8]) -> bool
    ensures { result ≡ is_origin_of host.now origin.now }
{
    let (scheme, rest) = origin.split_at(7.min(origin.len()));
    eq_ignore_case(scheme, b"http://") && eq_ignore_case(rest, host)
}

/// Returns true if a request has this token.
fn has_token(headers: &HeaderMap<HeaderValue>, token: &Token) -> bool
    ensures { result ≡ has_token token.now (field_of (codes "authorization") headers.now) }
{
    match headers.get("authorization") {
        Some(value) => is_bearer(value.as_bytes(), token),
        None => false,
    }
}

/// Returns true if the value of an `Authorization` field is this token, behind its scheme.
fn is_bearer(value: &[u8], token: &Token) -> bool
    ensures { result ≡ is_bearer token.now value.now }
{
    let (scheme, rest) = value.split_at(7.min(value.len()));
    eq_ignore_case(scheme, b"bearer ") && token.is(rest)
}
