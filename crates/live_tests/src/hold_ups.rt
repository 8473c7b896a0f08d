//! Tests of what a feed leaves out: the calls that are held up, and datagrams that are too long.

use live_io::{HoldUp, MixDue, copy_whole};
use rtp_stream::{StreamClock, StreamSpec};
use rtp_wire::Enc;
use std::process::Abort;

/// The time for which a datagram of the mix is useful: what a window of 512 packets spans, 3,072 sampling instants, and
/// a second.
const USEFUL: u32 = 51_072;

/// Returns the hold-up of a feed of a stream with this packet time and window, whose latency is 20 ms.
fn new_hold_up(rt: &impl Abort, frames: u16, window: u16) -> HoldUp {
    let clock = StreamClock::Arrival;
    let spec = StreamSpec::new(Enc::L24, 1, frames, 96, None, clock, 960, window, 2);
    HoldUp::new(&spec.expect(rt, "the stream is fine"))
}

/// Returns a datagram of the mix that is due at a time.
fn due_at(at: i64) -> MixDue {
    MixDue { at, useful: USEFUL }
}

/// A call after a gap is held up, and further ones until the mix has caught up, also without a gap if the mix is stale.
#[test]
fn a_feed_is_held_up_until_the_mix_has_caught_up(rt: HostRuntime) {
    // For each call its time, when the next datagram of the mix is due, and whether the call is held up.
    let calls = [
        ("the first call", 1_000, 1_000, false),
        ("a second later", 49_000, 49_000, false),
        ("more than a second later", 97_001, 97_001, true),
        ("the mix has caught up to 20 ms", 97_002, 96_042, false),
        ("another gap", 200_000, 100_000, true),
        ("overdue by more than 20 ms", 200_010, 199_049, true),
        ("overdue by 20 ms", 200_020, 199_060, false),
        ("overdue and useful", 200_072, 149_000, false),
        ("stale", 200_073, 149_000, true),
        ("useful again, and overdue", 200_074, 149_100, true),
        ("in time", 200_075, 200_075, false),
    ];
    let mut hold_up = new_hold_up(&rt, 6, 512);
    for (shows, now, due, is_held_up) in calls {
        assert_eq!(rt; hold_up.note_call(now, due_at(due)), is_held_up, "{shows}");
    }
}

/// A feed of a stream whose window spans more than a second is held up only by a longer gap.
#[test]
fn a_wide_window_allows_a_longer_gap(rt: HostRuntime) {
    for (gap, is_held_up) in [(48_001, false), (98_304, false), (98_305, true)] {
        let mut hold_up = new_hold_up(&rt, 48, 2_048);
        assert!(rt; !hold_up.note_call(0, due_at(0)));
        assert_eq!(rt; hold_up.note_call(gap, due_at(gap)), is_held_up, "{gap}");
    }
}

/// A datagram of 2,048 octets is copied, and one of 2,049 is not.
#[test]
fn the_greatest_datagram_is_taken(rt: HostRuntime) {
    let received = [7u8; 2_049];
    let mut buf = [0u8; 2_048];
    assert_eq!(rt; copy_whole(&received, &mut buf), None);
    assert!(rt; buf == [0; 2_048]);
    assert_eq!(rt; copy_whole(&received[..2_048], &mut buf), Some(2_048));
    assert!(rt; buf == [7; 2_048]);
    assert_eq!(rt; copy_whole(&[], &mut buf), Some(0));
    assert_eq!(rt; copy_whole(&received[..3], &mut buf[..2]), None);
}
