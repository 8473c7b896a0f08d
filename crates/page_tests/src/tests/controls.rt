//! Requests to the gains of a run and their responses, over a requester in memory.
use super::client::{sent_by, stands_alone};
use super::memory_requester::MemoryRequester;
use super::sample::{facts, snapshot};
use http_server::Connection;
use status_page::{
    CONTROLS, Control, ControlPage, GainShape, HTML, Page, Token, new_control_connection,
};
use std::alloc::Global;
use std::hash::RandomState;
use std::process::Abort;
use std::random::RandomSource;
use std::time::Duration;

/// The token of the page.
const TOKEN: &str = "0123456789abcdef";

/// Returns a page over this requester.
fn page_over(
    rt: &impl Abort,
    alloc: Global,
    requester: MemoryRequester,
) -> ControlPage<MemoryRequester> {
    let token = Token::from_bytes(b"0123456789abcdef\n").expect(rt, "a token");
    let control = Control::new(alloc, requester, token).expect(rt, "there is memory");
    ControlPage::new(Page::new(alloc, facts(), snapshot()), control)
}

/// Returns a page over a new requester.
fn page(rt: &impl Abort, alloc: Global) -> ControlPage<MemoryRequester> {
    let shape = GainShape::new(2, 2).expect(rt, "a shape");
    page_over(rt, alloc, MemoryRequester::new(shape))
}

/// Returns the response of a page to a client that sends these octets and no more.
fn answers(
    rt: &(impl Abort + RandomSource),
    alloc: Global,
    page: &mut ControlPage<MemoryRequester>,
    octets: &[u8],
) -> Vec<u8> {
    let keys = RandomState::new(rt).expect(rt, "random octets");
    sent_by(rt, alloc, new_control_connection(alloc, keys), page, octets)
}

/// A request, and the begin and the end of its response.
struct Case {
    /// The sentence of the case.
    shows: &'static str,
    /// The method and the path.
    line: &'static str,
    /// The header fields behind `Host: localhost:8080`.
    fields: &'static str,
    /// The body.
    body: &'static str,
    /// The status.
    status: &'static str,
    /// The body of the response.
    answer: &'static str,
}

/// The header field with the token.
const BEARER: &str = "Authorization: Bearer 0123456789abcdef\r\n";

/// Requests to one page, one after another.
const CASES: [Case; 37] = [
    Case {
        shows: "the gains are shown without a token",
        line: "GET /gains",
        fields: "",
        body: "",
        status: "200 OK",
        answer: "{\"at\":480,\"next_block_start\":480,\"planned\":[2400,3600],\"gains\":[[1,2],[3,4]]}",
    },
    Case {
        shows: "the gains at a time are shown",
        line: "GET /gains?at=960",
        fields: "",
        body: "",
        status: "200 OK",
        answer: "{\"at\":960,\"next_block_start\":480,\"planned\":[2400,3600],\"gains\":[[1,2],[3,4]]}",
    },
    Case {
        shows: "a query without an integer is refused",
        line: "GET /gains?at=1.5",
        fields: "",
        body: "",
        status: "400 Bad Request",
        answer: "{\"fault\":\"query\"}",
    },
    Case {
        shows: "another query is refused",
        line: "GET /gains?to=960",
        fields: "",
        body: "",
        status: "400 Bad Request",
        answer: "{\"fault\":\"query\"}",
    },
    Case {
        shows: "all gains are changed, row by row",
        line: "PUT /gains",
        fields: BEARER,
        body: "{\"at\":null,\"gains\":[[5,-6],[1048576,-1048576]]}",
        status: "200 OK",
        answer: "{\"at\":480}",
    },
    Case {
        shows: "the change is shown",
        line: "GET /gains",
        fields: "",
        body: "",
        status: "200 OK",
        answer: "{\"at\":480,\"next_block_start\":480,\"planned\":[],\"gains\":[[5,-6],[1048576,-1048576]]}",
    },
    Case {
        shows: "one gain is changed, in the row of its output",
        line: "PUT /gains",
        fields: BEARER,
        body: " { \"gain\" : 7, \"cell\" : [ 0, 1 ], \"at\" : 960 } ",
        status: "200 OK",
        answer: "{\"at\":960}",
    },
    Case {
        shows: "only that gain has changed",
        line: "GET /gains",
        fields: "",
        body: "",
        status: "200 OK",
        answer: "{\"at\":480,\"next_block_start\":480,\"planned\":[960],\"gains\":[[5,7],[1048576,-1048576]]}",
    },
    Case {
        shows: "a time that has passed is refused by the run",
        line: "PUT /gains",
        fields: BEARER,
        body: "{\"at\":479,\"cell\":[0,0],\"gain\":1}",
        status: "409 Conflict",
        answer: "{\"fault\":\"time\"}",
    },
    Case {
        shows: "a change too many is refused by the run",
        line: "PUT /gains",
        fields: BEARER,
        body: "{\"at\":4800,\"cell\":[0,0],\"gain\":1}",
        status: "409 Conflict",
        answer: "{\"fault\":\"too many\"}",
    },
    Case {
        shows: "a cell outside of the matrix is refused by the run",
        line: "PUT /gains",
        fields: BEARER,
        body: "{\"at\":null,\"cell\":[2,0],\"gain\":1}",
        status: "400 Bad Request",
        answer: "{\"fault\":\"shape\"}",
    },
    Case {
        shows: "a row too few",
        line: "PUT /gains",
        fields: BEARER,
        body: "{\"at\":null,\"gains\":[[5,6]]}",
        status: "400 Bad Request",
        answer: "{\"fault\":\"shape\"}",
    },
    Case {
        shows: "a row that is too long, after one that is too short",
        line: "PUT /gains",
        fields: BEARER,
        body: "{\"at\":null,\"gains\":[[5],[6,7,8]]}",
        status: "400 Bad Request",
        answer: "{\"fault\":\"shape\"}",
    },
    Case {
        shows: "gains that are no array of rows",
        line: "PUT /gains",
        fields: BEARER,
        body: "{\"at\":null,\"gains\":[1,2,3,4]}",
        status: "400 Bad Request",
        answer: "{\"fault\":\"shape\"}",
    },
    Case {
        shows: "a gain above sixteen times",
        line: "PUT /gains",
        fields: BEARER,
        body: "{\"at\":null,\"gains\":[[5,6],[1048577,8]]}",
        status: "400 Bad Request",
        answer: "{\"fault\":\"range\"}",
    },
    Case {
        shows: "a gain below minus sixteen times",
        line: "PUT /gains",
        fields: BEARER,
        body: "{\"at\":null,\"cell\":[0,0],\"gain\":-1048577}",
        status: "400 Bad Request",
        answer: "{\"fault\":\"range\"}",
    },
    Case {
        shows: "a gain with a fraction",
        line: "PUT /gains",
        fields: BEARER,
        body: "{\"at\":null,\"cell\":[0,0],\"gain\":1.0}",
        status: "400 Bad Request",
        answer: "{\"fault\":\"range\"}",
    },
    Case {
        shows: "a gain with an exponent",
        line: "PUT /gains",
        fields: BEARER,
        body: "{\"at\":null,\"cell\":[0,0],\"gain\":1e3}",
        status: "400 Bad Request",
        answer: "{\"fault\":\"range\"}",
    },
    Case {
        shows: "a gain of more than 64 bits",
        line: "PUT /gains",
        fields: BEARER,
        body: "{\"at\":null,\"cell\":[0,0],\"gain\":18446744073709551617}",
        status: "400 Bad Request",
        answer: "{\"fault\":\"range\"}",
    },
    Case {
        shows: "a cell with a negative number",
        line: "PUT /gains",
        fields: BEARER,
        body: "{\"at\":null,\"cell\":[-1,0],\"gain\":1}",
        status: "400 Bad Request",
        answer: "{\"fault\":\"body\"}",
    },
    Case {
        shows: "a cell of three numbers",
        line: "PUT /gains",
        fields: BEARER,
        body: "{\"at\":null,\"cell\":[0,0,0],\"gain\":1}",
        status: "400 Bad Request",
        answer: "{\"fault\":\"body\"}",
    },
    Case {
        shows: "a body without a time",
        line: "PUT /gains",
        fields: BEARER,
        body: "{\"gains\":[[5,6],[7,8]]}",
        status: "400 Bad Request",
        answer: "{\"fault\":\"body\"}",
    },
    Case {
        shows: "a key that does not belong there, so that a misspelled time is not taken as none",
        line: "PUT /gains",
        fields: BEARER,
        body: "{\"at\":null,\"gains\":[[5,6],[7,8]],\"time\":960}",
        status: "400 Bad Request",
        answer: "{\"fault\":\"body\"}",
    },
    Case {
        shows: "a time twice",
        line: "PUT /gains",
        fields: BEARER,
        body: "{\"at\":null,\"at\":960,\"gains\":[[5,6],[7,8]]}",
        status: "400 Bad Request",
        answer: "{\"fault\":\"body\"}",
    },
    Case {
        shows: "a time that is a text",
        line: "PUT /gains",
        fields: BEARER,
        body: "{\"at\":\"960\",\"cell\":[0,0],\"gain\":1}",
        status: "400 Bad Request",
        answer: "{\"fault\":\"body\"}",
    },
    Case {
        shows: "a body that is cut",
        line: "PUT /gains",
        fields: BEARER,
        body: "{\"at\":null,\"gains\":[[5,6],[7,8]",
        status: "400 Bad Request",
        answer: "{\"fault\":\"body\"}",
    },
    Case {
        shows: "a body with something behind it",
        line: "PUT /gains",
        fields: BEARER,
        body: "{\"at\":null,\"cell\":[0,0],\"gain\":1}{}",
        status: "400 Bad Request",
        answer: "{\"fault\":\"body\"}",
    },
    Case {
        shows: "no token",
        line: "PUT /gains",
        fields: "",
        body: "{\"at\":null,\"cell\":[0,0],\"gain\":1}",
        status: "401 Unauthorized",
        answer: "{\"fault\":\"token\"}",
    },
    Case {
        shows: "a token that differs in its last octet",
        line: "PUT /gains",
        fields: "Authorization: Bearer 0123456789abcdeg\r\n",
        body: "{\"at\":null,\"cell\":[0,0],\"gain\":1}",
        status: "401 Unauthorized",
        answer: "{\"fault\":\"token\"}",
    },
    Case {
        shows: "the first octets of the token",
        line: "PUT /gains",
        fields: "Authorization: Bearer 0123456789abcde\r\n",
        body: "{\"at\":null,\"cell\":[0,0],\"gain\":1}",
        status: "401 Unauthorized",
        answer: "{\"fault\":\"token\"}",
    },
    Case {
        shows: "the token by another scheme",
        line: "PUT /gains",
        fields: "Authorization: Basic 0123456789abcdef\r\n",
        body: "{\"at\":null,\"cell\":[0,0],\"gain\":1}",
        status: "401 Unauthorized",
        answer: "{\"fault\":\"token\"}",
    },
    Case {
        shows: "the scheme in other letters, and the page's own origin",
        line: "PUT /gains",
        fields: "Origin: http://localhost:8080\r\nAuthorization: bearer 0123456789abcdef\r\n",
        body: "{\"at\":null,\"cell\":[1,0],\"gain\":0}",
        status: "200 OK",
        answer: "{\"at\":480}",
    },
    Case {
        shows: "the origin of another site, with the token",
        line: "PUT /gains",
        fields: "Origin: http://evil.example\r\nAuthorization: Bearer 0123456789abcdef\r\n",
        body: "{\"at\":null,\"cell\":[0,0],\"gain\":1}",
        status: "403 Forbidden",
        answer: "{\"fault\":\"origin\"}",
    },
    Case {
        shows: "the origin of another port, with the token",
        line: "PUT /gains",
        fields: "Origin: http://localhost:80801\r\nAuthorization: Bearer 0123456789abcdef\r\n",
        body: "{\"at\":null,\"cell\":[0,0],\"gain\":1}",
        status: "403 Forbidden",
        answer: "{\"fault\":\"origin\"}",
    },
    Case {
        shows: "the question of a browser whether a page of another site may change gains",
        line: "OPTIONS /gains",
        fields: "Origin: null\r\nAccess-Control-Request-Method: PUT\r\n",
        body: "",
        status: "403 Forbidden",
        answer: "{\"fault\":\"origin\"}",
    },
    Case {
        shows: "a method that the gains do not have",
        line: "POST /gains",
        fields: BEARER,
        body: "{\"at\":null,\"cell\":[0,0],\"gain\":1}",
        status: "405 Method Not Allowed\r\nallow: GET, HEAD, PUT",
        answer: "",
    },
    Case {
        shows: "none of the refused requests changed a gain",
        line: "GET /gains",
        fields: "",
        body: "",
        status: "200 OK",
        answer: "{\"at\":480,\"next_block_start\":480,\"planned\":[],\"gains\":[[5,7],[0,-1048576]]}",
    },
];

/// Returns the octets of a request.
fn request(rt: &impl Abort, alloc: Global, case: &Case) -> String {
    let Case {
        line,
        fields,
        body,
        ..
    } = case;
    let length = body.len();
    format!(in alloc;
        "{line} HTTP/1.1\r\nHost: localhost:8080\r\n{fields}Content-Length: {length}\r\n\r\n{body}"
    ).expect(rt, "there is memory")
}

/// Tests that the response to a case is the one that it names, and does not have the token in it.
fn is_answered(
    rt: &(impl Abort + RandomSource),
    alloc: Global,
    page: &mut ControlPage<MemoryRequester>,
    case: &Case,
) {
    let octets = request(rt, alloc, case);
    let sent = answers(rt, alloc, page, octets.as_bytes());
    let shows = case.shows;
    let sent = str::from_utf8(&sent).expect(rt, "a text");
    let rest = sent.strip_prefix("HTTP/1.1 ").expect(rt, "a version");
    assert!(rt; rest.starts_with(case.status), "{shows}: {sent}");
    assert!(rt; sent.ends_with(case.answer), "{shows}: {sent}");
    assert!(rt; !sent.contains(TOKEN), "{shows}: {sent}");
}

/// Tests the answers of a page to these cases, one after another.
// The cases are an argument: a constant would be followed octet by octet through each step.
fn are_answered(
    rt: &(impl Abort + RandomSource),
    alloc: Global,
    page: &mut ControlPage<MemoryRequester>,
    cases: &[Case],
) {
    for case in cases {
        is_answered(rt, alloc, page, case);
    }
}

/// Reads, changes, hostile bodies, wrong tokens and wrong origins.
#[test]
fn gains_are_shown_and_changed(rt: HostRuntime) {
    are_answered(&rt, rt.alloc(), &mut page(&rt, rt.alloc()), &CASES);
}

/// A change, and the responses to it while it is taken, once 200 changes were requested in a second, and after the
/// run's end.
const CHANGE: Case = Case {
    shows: "a change is taken",
    line: "PUT /gains",
    fields: BEARER,
    body: "{\"at\":null,\"cell\":[0,0],\"gain\":1}",
    status: "200 OK",
    answer: "{\"at\":480}",
};

const CHANGE_TOO_MANY: Case = Case {
    shows: "the 201st change of a second is refused",
    line: "PUT /gains",
    fields: BEARER,
    body: "{\"at\":null,\"cell\":[0,0],\"gain\":1}",
    status: "429 Too Many Requests",
    answer: "{\"fault\":\"rate\"}",
};

const AFTER_THE_END: Case = Case {
    shows: "a run that has ended does not answer",
    line: "PUT /gains",
    fields: BEARER,
    body: "{\"at\":null,\"cell\":[0,0],\"gain\":1}",
    status: "503 Service Unavailable",
    answer: "{\"fault\":\"no answer\"}",
};

const SHOWN_AFTER_THE_END: Case = Case {
    shows: "a run that has ended shows no gains",
    line: "GET /gains",
    fields: "",
    body: "",
    status: "503 Service Unavailable",
    answer: "{\"fault\":\"no answer\"}",
};

/// The 201st change of a second is refused, and the next second takes changes again.
#[test]
fn changes_are_limited(rt: HostRuntime) {
    let page = &mut page(&rt, rt.alloc());
    for _ in 0..200 {
        is_answered(&rt, rt.alloc(), page, &CHANGE);
    }
    is_answered(&rt, rt.alloc(), page, &CHANGE_TOO_MANY);
    is_taken_at(&rt, rt.alloc(), page, &CHANGE, Duration::from_secs(1));
    is_answered(&rt, rt.alloc(), page, &CHANGE);
}

/// A read without the token.
const READ: Case = Case {
    shows: "a read without the token is answered",
    line: "GET /gains",
    fields: "",
    body: "",
    status: "200 OK",
    answer: "\"gains\":[[1,2],[3,4]]}",
};

/// Reads after 20 others without the token in a second.
const READS_TOO_MANY: [Case; 5] = [
    Case {
        shows: "the 21st read of a second without the token is refused",
        line: "GET /gains",
        fields: "",
        body: "",
        status: "429 Too Many Requests",
        answer: "{\"fault\":\"rate\"}",
    },
    Case {
        shows: "one at another time is too",
        line: "HEAD /gains?at=960",
        fields: "",
        body: "",
        status: "429 Too Many Requests",
        answer: "\r\n\r\n",
    },
    Case {
        shows: "one with another token is too",
        line: "GET /gains",
        fields: "Authorization: Bearer 0123456789abcdeg\r\n",
        body: "",
        status: "429 Too Many Requests",
        answer: "{\"fault\":\"rate\"}",
    },
    Case {
        shows: "one with the token is not",
        line: "GET /gains",
        fields: BEARER,
        body: "",
        status: "200 OK",
        answer: "\"gains\":[[1,2],[3,4]]}",
    },
    Case {
        shows: "a change is not",
        line: "PUT /gains",
        fields: BEARER,
        body: "{\"at\":null,\"cell\":[0,0],\"gain\":1}",
        status: "200 OK",
        answer: "{\"at\":480}",
    },
];

/// The 21st read of a second without the token is refused, and the next second takes reads again. Reads with the token
/// count for nothing.
#[test]
fn reads_without_the_token_are_limited(rt: HostRuntime) {
    let page = &mut page(&rt, rt.alloc());
    for _ in 0..20 {
        is_answered(&rt, rt.alloc(), page, &READS_TOO_MANY[3]);
        is_answered(&rt, rt.alloc(), page, &READ);
    }
    are_answered(&rt, rt.alloc(), page, &READS_TOO_MANY);
    is_taken_at(&rt, rt.alloc(), page, &READ, Duration::from_secs(1));
}

/// Tests that the response to a case at a time says that it succeeded.
fn is_taken_at(
    rt: &(impl Abort + RandomSource),
    alloc: Global,
    page: &mut ControlPage<MemoryRequester>,
    case: &Case,
    now: Duration,
) {
    let keys = RandomState::new(rt).expect(rt, "random octets");
    let octets = request(rt, alloc, case);
    let is_taken = is_taken(new_control_connection(alloc, keys), page, &octets, now);
    assert!(rt; is_taken);
}

/// Returns true if the first response to a request at a time says that it succeeded.
fn is_taken(
    mut connection: Connection,
    page: &mut ControlPage<MemoryRequester>,
    request: &str,
    now: Duration,
) -> bool {
    let mut unread = request.as_bytes();
    let is_read = connection.read_from(&mut unread).is_ok();
    page.answer(&mut connection, now);
    is_read && connection.output().starts_with(b"HTTP/1.1 200 ")
}

/// After the end of a run there is no answer.
#[test]
fn a_run_that_has_ended_is_not_waited_for(rt: HostRuntime) {
    let shape = GainShape::new(2, 2).expect(&rt, "a shape");
    let mut requester = MemoryRequester::new(shape);
    requester.has_ended = true;
    let page = &mut page_over(&rt, rt.alloc(), requester);
    is_answered(&rt, rt.alloc(), page, &AFTER_THE_END);
    is_answered(&rt, rt.alloc(), page, &SHOWN_AFTER_THE_END);
}

/// The greatest bodies, and the begin of the responses to them.
const LONG_BODIES: [(usize, &str); 2] = [
    (131_072, "HTTP/1.1 400 Bad Request\r\ncontent-type"),
    (131_073, "HTTP/1.1 413 "),
];

/// A body of 131,072 octets is read, and a longer one is refused unread.
#[test]
fn a_body_has_a_limit(rt: HostRuntime) {
    let page = &mut page(&rt, rt.alloc());
    for (length, answer) in &LONG_BODIES {
        is_long_answered(&rt, rt.alloc(), page, *length, *answer);
    }
}

/// Tests that the response to a body of this many octets begins with this text.
fn is_long_answered(
    rt: &(impl Abort + RandomSource),
    alloc: Global,
    page: &mut ControlPage<MemoryRequester>,
    length: usize,
    answer: &str,
) {
    let head = format!(in alloc;
        "PUT /gains HTTP/1.1\r\nHost: localhost:8080\r\n{BEARER}Content-Length: {length}\r\n\r\n"
    ).expect(rt, "there is memory");
    let mut octets = Vec::from_slice(alloc, head.as_bytes()).expect(rt, "there is memory");
    let end = octets.len().saturating_add(length);
    octets.resize(end, b'[').expect(rt, "there is memory");
    let sent = answers(rt, alloc, page, &octets);
    assert!(rt; sent.starts_with(answer.as_bytes()), "{length}");
}

/// The contents of files, and whether they are a token.
const TOKENS: [(&str, bool); 7] = [
    ("0123456789abcdef", true),
    ("0123456789abcdef\n", true),
    ("0123456789abcde\n", false),
    ("0123456789abcdef\n\n", false),
    ("0123456789abcdef\r\n", false),
    ("0123456789 abcdef", false),
    ("0123456789\u{e4}bcdef", false),
];

/// A token has 16 visible octets or more, and one line feed may follow them.
#[test]
fn a_file_has_a_token_or_none(rt: HostRuntime) {
    for (contents, is_token) in &TOKENS {
        let token = Token::from_bytes(contents.as_bytes());
        assert!(rt; token.is_some() == *is_token, "{contents}");
    }
}

/// The end of a page.
const END: &str = "</body>\n</html>\n";

/// The page has the gains before its end. They are at most 10 KB, and nothing in them comes from elsewhere.
#[test]
fn the_page_has_its_gains(rt: HostRuntime) {
    has_gains(&rt, rt.alloc(), HTML, CONTROLS);
}

/// Tests that a page with these gains is sent, and that the gains stand alone.
fn has_gains(rt: &(impl Abort + RandomSource), alloc: Global, html: &str, gains: &str) {
    let page = &mut page(rt, alloc);
    let sent = answers(
        rt,
        alloc,
        page,
        b"GET / HTTP/1.1\r\nHost: localhost\r\n\r\n",
    );
    ends_with_gains(rt, &sent, html, gains);
    stands_alone(rt, gains, 10_000);
}

/// Tests that a response ends with the page, with the gains before its end.
fn ends_with_gains(rt: &impl Abort, sent: &[u8], html: &str, gains: &str) {
    let front = html.strip_suffix(END).expect(rt, "an end");
    let rest = sent.strip_suffix(END.as_bytes()).expect(rt, "an end");
    let rest = rest.strip_suffix(gains.as_bytes()).expect(rt, "the gains");
    assert!(rt; rest.ends_with(front.as_bytes()));
}
