//! The fates, marks and counts of a case in words, with commas between them.
use super::steps::payload_of;
use path_merge::{Body, ClockFault, Counts, Fate, Mark, MarkKind, StreamSpec};
use rtp_stream::COUNTS_AFTER_PATHS;
use std::process::Abort;

/// Appends a word.
pub fn say(rt: &impl Abort, text: &mut String, word: &str) {
    if !text.is_empty() {
        text.push_str(", ").expect(rt, "there is memory");
    }
    text.push_str(word).expect(rt, "there is memory");
}

/// Tests that a text is the one that is wanted. A failure reports what the case shows.
pub fn says(rt: &impl Abort, text: &str, wanted: &str, shows: &str) {
    assert!(rt; text == wanted, "{shows}: {text}");
}

/// Appends the name of a clock reading's fault.
pub fn say_fault(rt: &impl Abort, text: &mut String, fault: ClockFault) {
    let word = match fault {
        ClockFault::WentBack => "WentBack",
        ClockFault::TooFar => "TooFar",
        ClockFault::Closed => "Closed",
    };
    say(rt, text, word);
}

/// Appends a mark: `got N M` or `lost N M` with the number and media time, and with `K:` before N in a later epoch K;
/// `quiet T`; or `end`.
pub fn say_mark(rt: &impl Abort, spec: &StreamSpec, text: &mut String, mark: &Mark) {
    assert!(rt;
        mark.format() == spec.format(),
        "a mark says its stream's format"
    );
    match mark.kind() {
        MarkKind::Slot {
            epoch,
            number,
            media,
            body,
        } => {
            say(rt, text, word_of(rt, *number, body));
            say_place(rt, text, *epoch, *number, *media);
        }
        MarkKind::Quiet { until } => {
            say(rt, text, "quiet ");
            write!(text, "{until}").expect(rt, "there is memory");
        }
        MarkKind::End => say(rt, text, "end"),
    }
}

/// Appends a slot's number and media time.
fn say_place(rt: &impl Abort, text: &mut String, epoch: u64, number: u64, media: i64) {
    if epoch != 0 {
        write!(text, " {epoch}:{number} {media}").expect(rt, "there is memory");
    } else {
        write!(text, " {number} {media}").expect(rt, "there is memory");
    }
}

/// Returns `got` or `lost` for a slot, and tests that a payload is that of the packet with the slot's number.
fn word_of(rt: &impl Abort, number: u64, body: &Body) -> &'static str {
    let Body::Got(payload) = body else {
        return "lost";
    };
    let [.., low] = number.to_be_bytes();
    let sent = payload_of(payload.len(), low);
    assert!(rt;
        payload.as_slice() == sent.as_slice(),
        "the octets of number {number}"
    );
    "got"
}

/// Appends fates, each with the number of times that it came in a row.
pub fn say_fates(rt: &impl Abort, text: &mut String, fates: &[Fate]) {
    let mut last = None;
    let mut times: usize = 0;
    for fate in fates {
        if last != Some(*fate) {
            say_run(rt, text, last, times);
            times = 0;
        }
        last = Some(*fate);
        times = times.saturating_add(1);
    }
    say_run(rt, text, last, times);
}

/// Appends a fate and the number of times that it came in a row. Appends nothing if there is no fate.
fn say_run(rt: &impl Abort, text: &mut String, fate: Option<Fate>, times: usize) {
    if let Some(fate) = fate {
        // The empty word writes the comma.
        say(rt, text, "");
        write!(text, "{times} {fate:?}").expect(rt, "there is memory");
    }
}

/// Appends a count and its name, if it is not 0.
fn say_count(rt: &impl Abort, text: &mut String, count: u64, name: &str) {
    if count != 0 {
        // The empty word writes the comma.
        say(rt, text, "");
        write!(text, "{count} {name}").expect(rt, "there is memory");
    }
}

/// The names of the packets taken by each path.
const TAKEN_BY: [&str; 4] = ["from_a", "from_b", "from_c", "from_d"];

/// Appends the counts that are not 0; of `taken` those of each path.
pub fn say_counts(rt: &impl Abort, text: &mut String, counts: &Counts) {
    say_count(rt, text, counts.arrived, "arrived");
    for (name, count) in TAKEN_BY.iter().zip(counts.taken_by.iter()) {
        say_count(rt, text, *count, *name);
    }
    for field in COUNTS_AFTER_PATHS.iter() {
        say_count(rt, text, field.of(counts), field.word());
    }
}
