//! The opening and the close of a run, in the blocks of its record, and headers that have neither.
use super::record::{latest_header, record};
use pcap_file::{BlockParser, RecordMark};
use std::process::Abort;

/// The length of each block of the record, and its mark.
const PARTS: [(usize, Option<RecordMark>); 5] = [
    (60, Some(RecordMark::Opened(1000))),
    (40, None),
    (40, None),
    (64, None),
    (24, Some(RecordMark::Closed(4_295_083_334))),
];

/// Returns the octets after the next block, if that block has this length and this mark.
fn goes_on<'a>(
    parts: &mut BlockParser,
    rest: &'a [u8],
    len: usize,
    mark: Option<RecordMark>,
) -> Option<&'a [u8]> {
    // `next` needs an octet, and a place so small that the lengths cannot overflow. The record has 228 octets.
    if rest.is_empty() || parts.place() > 1000 {
        return None;
    }
    match parts.next(rest) {
        Ok(part) if part.len == len && part.mark == mark => Some(&rest[part.len..]),
        _ => None,
    }
}

/// Returns the octets after the next blocks, if these have the lengths and the marks of the rows.
// The rows of a test are an argument: a constant would be followed row by row when the test is proved.
fn rest_after<'a>(
    parts: &mut BlockParser,
    octets: &'a [u8],
    rows: &[(usize, Option<RecordMark>)],
) -> Option<&'a [u8]> {
    let mut rest = octets;
    for (len, mark) in rows {
        rest = goes_on(parts, rest, *len, *mark)?;
    }
    Some(rest)
}

/// A record has the time at which its studio was opened and the time at which it was closed.
#[test]
fn a_record_says_its_opening_and_its_close(rt: HostRuntime) {
    let record = record();
    let mut parts = BlockParser::open(&record).expect(&rt, "a record");
    let rest = rest_after(&mut parts, &record, &PARTS);
    assert!(rt; rest == Some(&[]), "five blocks, and nothing more");
}

/// A place in the header of the latest opening, the octet that is written there, and the mark that the header has then.
const CHANGES: [(usize, u8, Option<RecordMark>); 12] = [
    (0, 0x0a, Some(RecordMark::Opened(9_223_372_036_854_775_807))),
    (26, 26, Some(RecordMark::Opened(922_337_203_685_477_580))),
    (54, b'8', None),
    (
        54,
        b'6',
        Some(RecordMark::Opened(9_223_372_036_854_775_806)),
    ),
    (
        36,
        b'1',
        Some(RecordMark::Opened(1_223_372_036_854_775_807)),
    ),
    (36, b'0', None),
    (36, b'+', None),
    (36, b' ', None),
    (32, b'-', None),
    (24, 2, None),
    (26, 60, None),
    (67, b'n', None),
];

/// Returns the mark of a header.
fn mark_of(rt: &impl Abort, header: &[u8; 76]) -> Option<RecordMark> {
    let mut parts = BlockParser::open(header).expect(rt, "a header");
    parts.next(header).expect(rt, "a block").mark
}

/// Tests the mark of the latest header with each of these octets in it.
fn have_marks(rt: &impl Abort, rows: &[(usize, u8, Option<RecordMark>)]) {
    for (place, octet, mark) in rows {
        let mut octets = latest_header();
        // The remainder shows that the place is one of the header's.
        octets[*place % 76] = *octet;
        assert!(rt; mark_of(rt, &octets) == *mark, "{octet} at {place}");
    }
}

/// A comment of another form, of another writer or of 2^63 and more is no opening. Neither are options that are cut.
/// None of them is a fault.
#[test]
fn only_a_whole_number_of_ours_is_an_opening(rt: HostRuntime) {
    have_marks(&rt, &CHANGES);
}
