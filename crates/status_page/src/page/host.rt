//! The host to which a request is addressed. The page answers only if that is the machine itself.
ghost use Rattle.std.specs.Prelude.{◌≡◌, codes, option_map};
ghost use Rattle.http.specs.Request.{head_of};
ghost use Rattle.http_header.specs.HeaderMap.{get};
ghost use Rattle.status_page.specs.Host.{host_of, is_here, is_host, is_local, is_port};

use bytes::Bytes;
use http::{HeaderMap, HeaderValue, Request};
use http1::text::eq_ignore_case;

/// Returns true if a request is addressed to this machine: to 127.0.0.1, localhost or [::1], at any port.
// A page of another site can have a browser look up that site's name as 127.0.0.1, and then read what is answered under
// the name (DNS rebinding). Its requests have that name. Another port does no harm: `ssh -L 9000:127.0.0.1:8080` brings
// one.
pub(crate) fn is_addressed_here(request: &Request<Bytes>) -> bool
    ensures { result ≡ is_here (host_of (head_of request.now)) }
{
    if let Some(host) = request.uri().host() {
        return is_local(host.as_bytes());
    }
    is_field_local(request.headers())
}

/// Returns true if there is a `Host` field, and its host is the machine itself.
fn is_field_local(headers: &HeaderMap<HeaderValue>) -> bool
    ensures { result ≡ is_here (option_map (λ value. value.bytes) (get headers.now (codes "host"))) }
{
    match headers.get("host") {
        Some(value) => is_local(value.as_bytes()),
        None => false,
    }
}

/// Returns true if a host, which may have a port, is the machine itself.
fn is_local(host: &[u8]) -> bool
    ensures { result ≡ is_local host.now }
{
    is_host(host, b"127.0.0.1") || is_host(host, b"localhost") || is_host(host, b"[::1]")
}

/// Returns true if a host has this name, alone or before a port.
fn is_host(host: &[u8], name: &[u8]) -> bool
    ensures { result ≡ is_host name.now host.now }
{
    let (front, rest) = host.split_at(name.len().min(host.len()));
    eq_ignore_case(front, name) && is_port(rest)
}

/// Returns true if nothing is left of a host after its name, or a port.
// The server has refused a `Host` field in which something else than digits follows the colon.
fn is_port(rest: &[u8]) -> bool
    ensures { result ≡ is_port rest.now }
{
    rest.is_empty() || rest[0] == b':'
}
