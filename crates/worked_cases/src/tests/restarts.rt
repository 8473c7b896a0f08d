//! The cases of one stream whose sender restarts: its steps, fates, marks and counts.
//!
//! A case begins with the packet (1, 0), whose slot comes at 12. After its restart the sender continues with
//! (500, -22), whose timestamp is written 4294967274, and so on, the eighth packet at 20.
use super::cases::{Case, STREAM};
use path_merge::{Stream, StreamClock};

const RESTARTS: [Case; 9] = [
    Case {
        shows: "eight packets in sequence restart",
        stream: STREAM,
        open_at: 0,
        steps: "tick 0, a 1 0, tick 12, a 500 4294967274 x 9, tick 32, tick 38",
        fates: "1 Taken, 7 OffGrid, 1 Restarted, 1 Taken",
        marks: "got 65537 0, got 1:66043 20, got 1:66044 26",
        counts: "10 arrived, 3 from_a, 7 off_grid, 3 got, 1 restarts",
    },
    Case {
        shows: "a restart waits for a packet that is held",
        stream: STREAM,
        open_at: 0,
        steps: "tick 0, a 1 0, tick 12, a 2 6, a 500 4294967274 x 8, tick 18, a 508 26, tick 38",
        fates: "2 Taken, 8 OffGrid, 1 Restarted",
        marks: "got 65537 0, got 65538 6, got 1:66044 26",
        counts: "11 arrived, 3 from_a, 8 off_grid, 3 got, 1 restarts",
    },
    Case {
        shows: "by the arrival clock an epoch begins at the time, 12, if that is after the media time \
            6 of the number next due",
        stream: Stream {
            clock: StreamClock::Arrival,
            ..STREAM
        },
        open_at: 0,
        steps: "tick 0, a 1 0, tick 12, a 500 4294967274 x 8, tick 24",
        fates: "1 Taken, 7 OffGrid, 1 Restarted",
        marks: "got 65537 0, got 1:66043 12",
        counts: "9 arrived, 2 from_a, 7 off_grid, 2 got, 1 restarts",
    },
    Case {
        shows: "and at the media time of the number next due, 6, if that is after the time, 3",
        stream: Stream {
            clock: StreamClock::Arrival,
            latency: 3,
            ..STREAM
        },
        open_at: 0,
        steps: "tick 0, a 1 0, tick 3, a 500 0 x 8, tick 9",
        fates: "1 Taken, 7 OffGrid, 1 Restarted",
        marks: "got 65537 0, got 1:66043 6",
        counts: "9 arrived, 2 from_a, 7 off_grid, 2 got, 1 restarts",
    },
    Case {
        shows: "both are 12 if a number was lost before",
        stream: Stream {
            clock: StreamClock::Arrival,
            latency: 3,
            ..STREAM
        },
        open_at: 0,
        steps: "tick 0, a 1 0, tick 12, a 500 0 x 8, tick 15",
        fates: "1 Taken, 7 OffGrid, 1 Restarted",
        marks: "got 65537 0, lost 65538 6, got 1:66043 12",
        counts: "9 arrived, 2 from_a, 7 off_grid, 2 got, 1 lost, 1 restarts",
    },
    Case {
        shows: "an epoch at 20 is opened while the slot at 18 is next",
        stream: STREAM,
        open_at: 0,
        steps: "tick 0, a 1 0, tick 12, a 500 4294967274 x 7, tick 29, a 507 20, tick 32",
        fates: "1 Taken, 7 OffGrid, 1 Restarted",
        marks: "got 65537 0, lost 65538 6, lost 65539 12, got 1:66043 20",
        counts: "9 arrived, 2 from_a, 7 off_grid, 2 got, 2 lost, 1 restarts",
    },
    Case {
        shows: "and not once the slot at 24 is, so media time doesn't go back",
        stream: STREAM,
        open_at: 0,
        steps: "tick 0, a 1 0, tick 12, a 500 4294967274 x 7, tick 30, a 507 20, tick 32",
        fates: "1 Taken, 8 OffGrid",
        marks: "got 65537 0, lost 65538 6, lost 65539 12, lost 65540 18",
        counts: "9 arrived, 1 from_a, 8 off_grid, 1 got, 3 lost",
    },
    Case {
        shows: "a second restart waits for the first",
        stream: STREAM,
        open_at: 0,
        steps: "tick 0, a 1 0, tick 12, a 500 4294967274 x 8, a 900 2 x 8, tick 32, a 908 50, tick 62",
        fates: "1 Taken, 7 OffGrid, 1 Restarted, 8 OffGrid, 1 Restarted",
        marks: "got 65537 0, got 1:66043 20, got 2:66444 50",
        counts: "18 arrived, 3 from_a, 15 off_grid, 3 got, 2 restarts",
    },
    Case {
        shows: "four restarts in a row",
        stream: STREAM,
        open_at: 0,
        steps: "tick 0, a 1 0, tick 12, a 500 4294967274 x 8, tick 32, a 1500 4294967294 x 8, tick \
            52, a 2500 18 x 8, tick 72, a 3500 38 x 8, tick 92",
        fates: "1 Taken, 7 OffGrid, 1 Restarted, 7 OffGrid, 1 Restarted, 7 OffGrid, 1 Restarted, 7 \
            OffGrid, 1 Restarted",
        marks: "got 65537 0, got 1:66043 20, got 2:67043 40, got 3:68043 60, got 4:69043 80",
        counts: "33 arrived, 5 from_a, 28 off_grid, 5 got, 4 restarts",
    },
];

/// A sender restarts up to four times. The eighth packet in sequence opens an epoch, if nothing is held and media time
/// does not go back.
#[test]
fn eight_packets_in_sequence_restart(rt: HostRuntime) {
    for case in &RESTARTS {
        case.check(&rt, rt.alloc());
    }
}

const PROBATIONS: [Case; 8] = [
    Case {
        shows: "a probation is of one path",
        stream: STREAM,
        open_at: 0,
        steps: "tick 0, a 1 0, tick 12, a 500 4294967274 x 4, b 504 2 x 4",
        fates: "1 Taken, 8 OffGrid",
        marks: "got 65537 0",
        counts: "9 arrived, 1 from_a, 8 off_grid, 1 got",
    },
    Case {
        shows: "each path has its own, and after the restart its copies are late or doubles",
        stream: STREAM,
        open_at: 0,
        steps: "tick 0, a 1 0, tick 12, a 500 4294967274 x 4, b 500 4294967274 x 4, a 504 2 x 4, b \
            504 2 x 4, tick 32",
        fates: "1 Taken, 11 OffGrid, 1 Restarted, 3 Late, 1 Double",
        marks: "got 65537 0, got 1:66043 20",
        counts: "17 arrived, 2 from_a, 1 double, 11 off_grid, 3 late, 2 got, 1 restarts",
    },
    Case {
        shows: "another source restarts the stream",
        stream: STREAM,
        open_at: 0,
        steps: "tick 0, a 1 0, tick 12, a 500 4294967274 of 2 x 8, tick 32",
        fates: "1 Taken, 7 WrongSource, 1 Restarted",
        marks: "got 65537 0, got 1:66043 20",
        counts: "9 arrived, 2 from_a, 7 source, 2 got, 1 restarts",
    },
    Case {
        shows: "a source that is not asked for restarts nothing",
        stream: Stream {
            ssrc: Some(1),
            ..STREAM
        },
        open_at: 0,
        steps: "tick 0, a 1 0, tick 12, a 500 4294967274 of 2 x 8, tick 32",
        fates: "1 Taken, 8 WrongSource",
        marks: "got 65537 0, lost 65538 6, lost 65539 12, lost 65540 18",
        counts: "9 arrived, 1 from_a, 8 source, 1 got, 3 lost",
    },
    Case {
        shows: "nor does it break a probation",
        stream: Stream {
            ssrc: Some(1),
            ..STREAM
        },
        open_at: 0,
        steps: "tick 0, a 1 0, tick 12, a 500 4294967274 x 7, a 3 12 of 2, a 507 20, tick 32",
        fates: "1 Taken, 7 OffGrid, 1 WrongSource, 1 Restarted",
        marks: "got 65537 0, got 1:66043 20",
        counts: "10 arrived, 2 from_a, 7 off_grid, 1 source, 2 got, 1 restarts",
    },
    Case {
        shows: "a packet in step breaks a probation",
        stream: STREAM,
        open_at: 0,
        steps: "tick 0, a 1 0, tick 12, a 500 4294967274 x 7, a 1 0, a 507 20",
        fates: "1 Taken, 7 OffGrid, 1 Late, 1 OffGrid",
        marks: "got 65537 0",
        counts: "10 arrived, 1 from_a, 8 off_grid, 1 late, 1 got",
    },
    Case {
        shows: "so does a packet out of sequence",
        stream: STREAM,
        open_at: 0,
        steps: "tick 0, a 1 0, tick 12, a 500 4294967274 x 7, a 508 26, a 509 32",
        fates: "1 Taken, 9 OffGrid",
        marks: "got 65537 0",
        counts: "10 arrived, 1 from_a, 9 off_grid, 1 got",
    },
    Case {
        shows: "probations begin again with an epoch: the second path's eighth comes after it",
        stream: STREAM,
        open_at: 0,
        steps: "tick 0, a 1 0, tick 12, b 100 1 x 7, a 500 4294967274 x 8, tick 32, b 107 43",
        fates: "1 Taken, 14 OffGrid, 1 Restarted, 1 OffGrid",
        marks: "got 65537 0, got 1:66043 20",
        counts: "17 arrived, 2 from_a, 15 off_grid, 2 got, 1 restarts",
    },
];

/// Eight packets in sequence restart a stream only if they come on one path, from one source that the stream allows,
/// and no other packet of the stream comes between them on that path.
#[test]
fn a_probation_is_of_one_path_and_source(rt: HostRuntime) {
    for case in &PROBATIONS {
        case.check(&rt, rt.alloc());
    }
}
