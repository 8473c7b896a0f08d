//! The cases of one stream of one sender: its steps, fates, marks and counts.
use super::cases::{Case, STREAM};
use path_merge::{Stream, StreamClock};

const NUMBERS: [Case; 4] = [
    Case {
        shows: "sequence numbers wrap from 65535 to 0",
        stream: STREAM,
        open_at: 0,
        steps: "a 65535 0, b 0 6, tick 12, tick 18",
        fates: "2 Taken",
        marks: "got 131071 0, got 131072 6",
        counts: "2 arrived, 1 from_a, 1 from_b, 2 got",
    },
    Case {
        shows: "packets 2^25 numbers earlier, and 2^25 - 1 later, are off the grid, since 2^32 is no \
            multiple of 65,536 packets of 6",
        stream: STREAM,
        open_at: 0,
        steps: "a 1 0, a 1 4093640704, a 0 201326586",
        fates: "1 Taken, 2 OffGrid",
        marks: "",
        counts: "3 arrived, 1 from_a, 2 off_grid",
    },
    Case {
        shows: "timestamps off the grid, the first of them one cycle of sequence numbers earlier, \
            are refused",
        stream: STREAM,
        open_at: 0,
        steps: "a 1 0, a 1 4294574080, a 2 7, a 2 5, a 2 6",
        fates: "1 Taken, 3 OffGrid, 1 Taken",
        marks: "",
        counts: "5 arrived, 2 from_a, 3 off_grid",
    },
    Case {
        shows: "a stream of level C has 64 channels, and payloads of 1,152 octets",
        stream: Stream {
            channels: 64,
            ..STREAM
        },
        open_at: 0,
        steps: "a 1 0, tick 12",
        fates: "1 Taken",
        marks: "got 65537 0",
        counts: "1 arrived, 1 from_a, 1 got",
    },
];

/// Sequence numbers wrap from 65535 to 0, packets of other cycles are off the grid, and a stream may have 64 channels
/// (ST 2110-30, level C).
#[test]
fn numbers_wrap_and_other_cycles_are_off_the_grid(rt: HostRuntime) {
    for case in &NUMBERS {
        case.check(&rt, rt.alloc());
    }
}

const ORDER: [Case; 7] = [
    Case {
        shows: "a missing packet is lost, and then late",
        stream: STREAM,
        open_at: 0,
        steps: "a 65535 0, b 0 6, tick 12, tick 18, tick 24, a 1 12",
        fates: "2 Taken, 1 Late",
        marks: "got 131071 0, got 131072 6, lost 131073 12",
        counts: "3 arrived, 1 from_a, 1 from_b, 1 late, 2 got, 1 lost",
    },
    Case {
        shows: "nothing before the anchor is taken",
        stream: STREAM,
        open_at: 0,
        steps: "a 5 0, a 4 4294967290, tick 12",
        fates: "1 Taken, 1 Late",
        marks: "got 65541 0",
        counts: "2 arrived, 1 from_a, 1 late, 1 got",
    },
    Case {
        shows: "each due slot is given once",
        stream: STREAM,
        open_at: 0,
        steps: "a 1 0, tick 30, tick 30",
        fates: "1 Taken",
        marks: "got 65537 0, lost 65538 6, lost 65539 12, lost 65540 18",
        counts: "1 arrived, 1 from_a, 1 got, 3 lost",
    },
    Case {
        shows: "packets out of order are put in order",
        stream: STREAM,
        open_at: 0,
        steps: "a 1 0, a 4 18, b 2 6, a 3 12, tick 30",
        fates: "4 Taken",
        marks: "got 65537 0, got 65538 6, got 65539 12, got 65540 18",
        counts: "4 arrived, 3 from_a, 1 from_b, 4 got",
    },
    Case {
        shows: "a packet just before its deadline is taken",
        stream: STREAM,
        open_at: 0,
        steps: "a 65535 0, b 0 6, tick 12, tick 18, a 1 12, tick 24",
        fates: "3 Taken",
        marks: "got 131071 0, got 131072 6, got 131073 12",
        counts: "3 arrived, 2 from_a, 1 from_b, 3 got",
    },
    Case {
        shows: "the window ends at its width",
        stream: STREAM,
        open_at: 0,
        steps: "a 1 0, a 9 48, a 8 42",
        fates: "1 Taken, 1 Ahead, 1 Taken",
        marks: "",
        counts: "3 arrived, 2 from_a, 1 ahead",
    },
    Case {
        shows: "a first packet that is refused leaves the stream open to the next one",
        stream: STREAM,
        open_at: 100,
        steps: "a 9 88, a 9 136, a 3 90, tick 102",
        fates: "1 Late, 1 Ahead, 1 Taken",
        marks: "got 65539 90",
        counts: "3 arrived, 1 from_a, 1 late, 1 ahead, 1 got",
    },
];

/// Packets are missing, out of order, late, too early for the window or before the anchor. Each number that is due has
/// one slot, got or lost.
#[test]
fn slots_come_in_order_at_their_deadlines(rt: HostRuntime) {
    for case in &ORDER {
        case.check(&rt, rt.alloc());
    }
}

const COPIES: [Case; 5] = [
    Case {
        shows: "of three copies, of which the last differs in one octet, the first counts",
        stream: STREAM,
        open_at: 0,
        steps: "a 1 0, b 1 0, b 1 0 odd, tick 12",
        fates: "1 Taken, 1 Double, 1 Unlike",
        marks: "got 65537 0",
        counts: "3 arrived, 1 from_a, 1 double, 1 unlike, 1 got",
    },
    Case {
        shows: "a copy of a number that was handed on is late",
        stream: STREAM,
        open_at: 0,
        steps: "a 1 0, b 1 0, tick 12, b 1 0",
        fates: "1 Taken, 1 Double, 1 Late",
        marks: "got 65537 0",
        counts: "3 arrived, 1 from_a, 1 double, 1 late, 1 got",
    },
    Case {
        shows: "a third path counts as its own",
        stream: Stream { paths: 3, ..STREAM },
        open_at: 0,
        steps: "c 1 0, a 1 0, b 1 0, tick 12",
        fates: "1 Taken, 2 Double",
        marks: "got 65537 0",
        counts: "3 arrived, 1 from_c, 2 double, 1 got",
    },
    Case {
        shows: "a source that is not asked for is refused",
        stream: Stream {
            ssrc: Some(2),
            ..STREAM
        },
        open_at: 0,
        steps: "a 1 0, a 1 0 of 2",
        fates: "1 WrongSource, 1 Taken",
        marks: "",
        counts: "2 arrived, 1 from_a, 1 source",
    },
    Case {
        shows: "another source than the first packet's is refused",
        stream: STREAM,
        open_at: 0,
        steps: "a 1 0, a 2 6 of 2",
        fates: "1 Taken, 1 WrongSource",
        marks: "",
        counts: "2 arrived, 1 from_a, 1 source",
    },
];

/// Of copies on two and three paths the first is taken, and the others are named duplicates or late (SMPTE ST 2022-7).
/// Packets of another source are refused.
#[test]
fn the_first_copy_counts(rt: HostRuntime) {
    for case in &COPIES {
        case.check(&rt, rt.alloc());
    }
}

const CLOCKS: [Case; 2] = [
    Case {
        shows: "by the arrival clock the first packet has the media time of its arrival",
        stream: Stream {
            clock: StreamClock::Arrival,
            ..STREAM
        },
        open_at: 0,
        steps: "tick 1000, a 7 123456, a 8 123462, tick 1012, tick 1018",
        fates: "2 Taken",
        marks: "quiet 988, got 65543 1000, got 65544 1006",
        counts: "2 arrived, 2 from_a, 2 got",
    },
    Case {
        shows: "from the opening to the first slot each reading gives how far the stream is silent, \
            where that is new",
        stream: STREAM,
        open_at: 100,
        steps: "tick 100, tick 101, tick 101, a 1 96, tick 107, tick 108, tick 109, tick 114",
        fates: "1 Taken",
        marks: "quiet 89, quiet 95, got 65537 96, lost 65538 102",
        counts: "1 arrived, 1 from_a, 1 got, 1 lost",
    },
];

/// Clock readings before and between packets produce the times of silence and of slots, by the media clock and by the
/// arrival clock.
#[test]
fn silence_is_reported_and_the_arrival_clock_followed(rt: HostRuntime) {
    for case in &CLOCKS {
        case.check(&rt, rt.alloc());
    }
}

const CLOSES: [Case; 3] = [
    Case {
        shows: "a close gives what is held, and the end",
        stream: STREAM,
        open_at: 0,
        steps: "a 1 0, a 3 12, close, a 2 6",
        fates: "2 Taken, 1 Closed",
        marks: "got 65537 0, lost 65538 6, got 65539 12, end",
        counts: "2 arrived, 2 from_a, 2 got, 1 lost",
    },
    Case {
        shows: "an empty merge gives the end",
        stream: STREAM,
        open_at: 0,
        steps: "close, a 1 0",
        fates: "1 Closed",
        marks: "end",
        counts: "",
    },
    Case {
        shows: "with nothing held a close gives the end, once",
        stream: STREAM,
        open_at: 0,
        steps: "a 1 0, tick 18, close, close",
        fates: "1 Taken",
        marks: "got 65537 0, lost 65538 6, end",
        counts: "1 arrived, 1 from_a, 1 got, 1 lost",
    },
];

/// A close of a merge that is empty, that holds packets or that holds none produces the slots that are held and one
/// end,
/// and nothing after it.
#[test]
fn a_close_gives_what_is_held_and_the_end(rt: HostRuntime) {
    for case in &CLOSES {
        case.check(&rt, rt.alloc());
    }
}

// Tried by `check_calls` alone: `run_merge` returns no marks if a reading is out of order, and has no single `advance`.
const SINGLE_CALLS: [Case; 4] = [
    Case {
        shows: "four slots that are due at once come one per call, and then none",
        stream: STREAM,
        open_at: 0,
        steps: "a 1 0, advance 30, advance 30, advance 30, advance 30, advance 30",
        fates: "1 Taken",
        marks: "got 65537 0 at 12, lost 65538 6 at 18, lost 65539 12 at 24, lost 65540 18 at 30, \
            nothing at 30",
        counts: "1 arrived, 1 from_a, 1 got, 3 lost",
    },
    Case {
        shows: "a close at once gives the end alone, and no reading is taken after it",
        stream: STREAM,
        open_at: 0,
        steps: "close, advance 6",
        fates: "",
        marks: "end, Closed at 0",
        counts: "",
    },
    Case {
        shows: "readings are checked in order, and a refused one moves nothing",
        stream: STREAM,
        open_at: 0,
        steps: "advance 5, advance 5, advance 4, advance 1152921504606846977, advance 6, \
            advance 1152921504606846976, advance 1152921504606846976, close, \
            advance 1152921504606846976, advance 1152921504606846975, advance 1152921504606846977",
        fates: "",
        marks: "quiet -7 at 5, nothing at 5, WentBack at 5, TooFar at 5, quiet -6 at 6, \
            quiet 1152921504606846964 at 1152921504606846976, nothing at 1152921504606846976, end, \
            Closed at 1152921504606846976, WentBack at 1152921504606846976, \
            TooFar at 1152921504606846976",
        counts: "",
    },
    Case {
        shows: "a close amid the slots of one reading gives what is held, and moves no time",
        stream: STREAM,
        open_at: 0,
        steps: "a 1 0, b 3 12, advance 100, close, advance 100",
        fates: "2 Taken",
        marks: "got 65537 0 at 12, lost 65538 6, got 65539 12, end, Closed at 12",
        counts: "2 arrived, 1 from_a, 1 from_b, 2 got, 1 lost",
    },
];

/// Each call returns one mark, or the fault of a reading that goes back, is past 2^60 or follows a close. A close
/// between due slots produces those that are left.
#[test]
fn each_call_gives_one_mark_or_its_fault(rt: HostRuntime) {
    for case in &SINGLE_CALLS {
        case.check_calls(&rt, rt.alloc());
    }
}
