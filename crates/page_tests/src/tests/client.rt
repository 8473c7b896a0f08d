//! A client of a page in memory, and what it may find there.
use http_server::{Connection, Service, serve};
use std::alloc::Global;
use std::process::Abort;

/// The words that would have a browser fetch something from elsewhere.
const FROM_ELSEWHERE: [&str; 5] = ["http:", "https:", "src=", "@import", "url("];

/// Returns what a service sends to a client that sends these octets and no more.
pub(super) fn sent_by<S: Service>(
    rt: &impl Abort,
    alloc: Global,
    connection: Connection,
    service: &mut S,
    octets: &[u8],
) -> Vec<u8> {
    let mut sent = Vec::new(alloc);
    let is_served = is_served(connection, service, octets, &mut sent);
    assert!(rt; is_served);
    sent
}

/// Serves a client until its connection is done.
// A function of its own, so that nothing else happens while the connection is held: each further step would follow all
// its parts.
fn is_served<S: Service>(
    mut connection: Connection,
    service: &mut S,
    octets: &[u8],
    sent: &mut Vec<u8>,
) -> bool {
    let mut unread = octets;
    serve(&mut connection, service, &mut unread, sent).is_ok()
}

/// Tests that a text has at most this many octets, and that nothing in it comes from elsewhere.
// The text is an argument: a constant would be followed octet by octet through each step.
pub(super) fn stands_alone(rt: &impl Abort, text: &str, most: usize) {
    assert!(rt; text.len() <= most);
    for from_elsewhere in &FROM_ELSEWHERE {
        assert!(rt; !text.contains(*from_elsewhere), "{from_elsewhere}");
    }
}
