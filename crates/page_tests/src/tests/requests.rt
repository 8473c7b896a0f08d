//! Requests and their responses, octet by octet.
use super::client::{sent_by, stands_alone};
use super::sample::{facts, snapshot};
use super::texts::STATE;
use status_page::{HTML, Page, RunFacts, new_connection, state_json};
use std::alloc::Global;
use std::hash::RandomState;
use std::process::Abort;
use std::random::RandomSource;

/// Returns the response of a page to a client that sends these octets and no more.
fn answers(
    rt: &(impl Abort + RandomSource),
    alloc: Global,
    page: &mut Page,
    octets: &[u8],
) -> Vec<u8> {
    let keys = RandomState::new(rt).expect(rt, "random octets");
    sent_by(rt, alloc, new_connection(alloc, keys), page, octets)
}

/// The header fields of every response.
const GUARD: &str =
    "cache-control: no-store\r\nx-content-type-options: nosniff\r\nx-frame-options: DENY\r\n\
    content-security-policy: default-src 'none'; style-src 'unsafe-inline'; script-src 'unsafe-inline'; \
    connect-src 'self'; img-src data:; frame-ancestors 'none'\r\n";

/// Requests with short responses, each in parts.
const SHORT: [(&str, &[&str]); 12] = [
    (
        "GET /nothing HTTP/1.1\r\nHost: localhost\r\n\r\n",
        &[
            "HTTP/1.1 404 Not Found\r\n",
            GUARD,
            "content-length: 0\r\n\r\n",
        ],
    ),
    (
        "POST / HTTP/1.1\r\nHost: localhost\r\nContent-Length: 2\r\n\r\nhi",
        &[
            "HTTP/1.1 405 Method Not Allowed\r\nallow: GET, HEAD\r\n",
            GUARD,
            "content-length: 0\r\n\r\n",
        ],
    ),
    (
        "DELETE /metrics?x HTTP/1.1\r\nHost: localhost\r\n\r\nGET /favicon.ico HTTP/1.1\r\nHost: localhost\r\n\r\n",
        &[
            "HTTP/1.1 405 Method Not Allowed\r\nallow: GET, HEAD\r\n",
            GUARD,
            "content-length: 0\r\n\r\nHTTP/1.1 404 Not Found\r\n",
            GUARD,
            "content-length: 0\r\n\r\n",
        ],
    ),
    (
        "HEAD /state HTTP/1.0\r\nHost: 127.0.0.1:8080\r\n\r\n",
        &[
            "HTTP/1.0 200 OK\r\ncontent-type: application/json\r\n",
            GUARD,
            "content-length: 1293\r\nconnection: close\r\n\r\n",
        ],
    ),
    (
        "PUT /state HTTP/1.1\r\nHost: localhost\r\nContent-Length: 8193\r\n\r\n",
        &["HTTP/1.1 413 Payload Too Large\r\nconnection: close\r\ncontent-length: 0\r\n\r\n"],
    ),
    (
        "GET / HTTP/1.1\r\n\r\n",
        &["HTTP/1.1 400 Bad Request\r\nconnection: close\r\ncontent-length: 0\r\n\r\n"],
    ),
    (
        "\u{16}\u{3}\u{1}",
        &["HTTP/1.1 400 Bad Request\r\nconnection: close\r\ncontent-length: 0\r\n\r\n"],
    ),
    (
        "GET / HTTP/1.1\r\nHost: localhost\r\nContent-Length: 5\r\n\r\n",
        &["HTTP/1.1 400 Bad Request\r\nconnection: close\r\ncontent-length: 0\r\n\r\n"],
    ),
    (
        "GET /state HTTP/1.1\r\nHost: evil.example:8080\r\n\r\n",
        &[
            "HTTP/1.1 421 Misdirected Request\r\ncontent-type: text/plain; charset=utf-8\r\n",
            GUARD,
            "content-length: 67\r\n\r\nThe page answers only to the hosts 127.0.0.1, localhost and [::1].\n",
        ],
    ),
    (
        "GET http://evil.example/state HTTP/1.1\r\nHost: localhost\r\n\r\n",
        &[
            "HTTP/1.1 421 Misdirected Request\r\ncontent-type: text/plain; charset=utf-8\r\n",
            GUARD,
            "content-length: 67\r\n\r\nThe page answers only to the hosts 127.0.0.1, localhost and [::1].\n",
        ],
    ),
    (
        "GET http://[::1]:9000/nothing HTTP/1.1\r\nHost: evil.example\r\n\r\n",
        &[
            "HTTP/1.1 404 Not Found\r\n",
            GUARD,
            "content-length: 0\r\n\r\n",
        ],
    ),
    ("", &[]),
];

/// Unknown paths, other hosts, methods that don't read, heads alone, bodies that are too long or cut, and text that is
/// no request.
#[test]
fn requests_are_answered_octet_by_octet(rt: HostRuntime) {
    let page = &mut Page::new(rt.alloc(), facts(), snapshot());
    for (request, answer) in &SHORT {
        is_answered(&rt, rt.alloc(), page, *request, *answer);
    }
}

/// Tests that a page sends this response to a client that sends a request and no more.
fn is_answered(
    rt: &(impl Abort + RandomSource),
    alloc: Global,
    page: &mut Page,
    request: &str,
    answer: &[&str],
) {
    let sent = answers(rt, alloc, page, request.as_bytes());
    let rest = behind(&sent, answer);
    assert!(rt; rest == Some(b"".as_slice()), "{request}");
}

/// Returns what follows these parts in octets that begin with them. Returns `None` if the octets do not.
fn behind<'a>(octets: &'a [u8], parts: &[&str]) -> Option<&'a [u8]> {
    let mut rest = octets;
    for part in parts {
        rest = rest.strip_prefix(part.as_bytes())?;
    }
    Some(rest)
}

/// The octets that are sent to a client that requests the state and then the page, up to the page's length.
const KEPT: [&str; 7] = [
    "HTTP/1.1 200 OK\r\ncontent-type: application/json\r\n",
    GUARD,
    "content-length: 1293\r\n\r\n",
    STATE,
    "HTTP/1.1 200 OK\r\ncontent-type: text/html; charset=utf-8\r\n",
    GUARD,
    "content-length: ",
];

/// One request after another on one connection: each has its response whole, with the length of its body.
#[test]
fn a_connection_is_kept(rt: HostRuntime) {
    let page = &mut Page::new(rt.alloc(), facts(), snapshot());
    let requests =
        b"GET /state HTTP/1.1\r\nHost: localhost\r\n\r\nGET /?now HTTP/1.1\r\nHost: localhost\r\n\r\n";
    has_kept_parts(&rt, &answers(&rt, rt.alloc(), page, requests), HTML);
}

/// Tests that these octets are those of `KEPT`, then the page's length, and the page.
fn has_kept_parts(rt: &impl Abort, sent: &[u8], html: &str) {
    let rest = behind(sent, &KEPT).expect(rt, "the parts");
    assert!(rt; rest.ends_with(html.as_bytes()));
}

/// The end of the metrics, from the last one of the snapshot to the time at which the run opened.
const METRICS_END: &str = "\ndarbexum_pcm_left_out_total 22\n\
    # HELP darbexum_build_info The version of the program, in a label. The value is 1.\n\
    # TYPE darbexum_build_info gauge\n\
    darbexum_build_info{version=\"7.8.9\"} 1\n\
    # HELP darbexum_start_time_seconds The time at which the run opened, in seconds since 1970 (Unix time).\n\
    # TYPE darbexum_start_time_seconds gauge\n";

/// Behind the metrics of the snapshot are those of the run: its version, and the time at which it opened.
#[test]
fn the_metrics_end_with_the_facts_of_the_run(rt: HostRuntime) {
    let page = &mut Page::new(rt.alloc(), facts(), snapshot());
    metrics_end_with(
        &rt,
        rt.alloc(),
        page,
        "darbexum_start_time_seconds 1764561185\n",
    );
}

/// The time at which the run opened has no line if it is not known.
#[test]
fn an_unknown_start_has_no_line(rt: HostRuntime) {
    let unknown = RunFacts {
        version: "7.8.9",
        started: None,
    };
    let page = &mut Page::new(rt.alloc(), unknown, snapshot());
    metrics_end_with(&rt, rt.alloc(), page, "");
}

/// Tests that the metrics of a page end with `METRICS_END` and this line, or none.
fn metrics_end_with(rt: &(impl Abort + RandomSource), alloc: Global, page: &mut Page, line: &str) {
    let request = b"GET /metrics HTTP/1.1\r\nHost: localhost\r\n\r\n";
    let sent = answers(rt, alloc, page, request);
    let rest = sent
        .as_slice()
        .strip_suffix(line.as_bytes())
        .expect(rt, "the line");
    assert!(rt; rest.ends_with(METRICS_END.as_bytes()));
}

/// Returns a request that begins so, of 9,000 octets.
fn long_request(rt: &impl Abort, alloc: Global, front: &str) -> Vec<u8> {
    let mut request = Vec::from_slice(alloc, front.as_bytes()).expect(rt, "there is memory");
    request.resize(9_000, b'x').expect(rt, "there is memory");
    request
}

/// The begin of a request that is too long, and of its response.
const LONG: [(&str, &str); 2] = [
    ("GET / HTTP/1.1\r\nHost: localhost\r\nX: ", "HTTP/1.1 431 "),
    ("GET /", "HTTP/1.1 414 "),
];

/// A head of more than 8,192 octets is refused, wherever it is cut.
#[test]
fn a_long_head_is_refused(rt: HostRuntime) {
    let page = &mut Page::new(rt.alloc(), facts(), snapshot());
    for (front, answer) in &LONG {
        is_refused(&rt, rt.alloc(), page, *front, *answer);
    }
}

/// Tests that the response to a long request begins with this text.
fn is_refused(
    rt: &(impl Abort + RandomSource),
    alloc: Global,
    page: &mut Page,
    front: &str,
    answer: &str,
) {
    let request = long_request(rt, alloc, front);
    let sent = answers(rt, alloc, page, &request);
    assert!(rt; sent.starts_with(answer.as_bytes()), "{front}");
}

/// The page is at most 40 KB, and nothing in it comes from elsewhere.
#[test]
fn the_page_stands_alone(rt: HostRuntime) {
    stands_alone(&rt, HTML, 40_000);
}
