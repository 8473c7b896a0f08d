//! Tests of what no clause says: the attempts of a socket that fails, and the waits of one that is empty, over a socket
//! and a clock of the test's own; the kernel's table of UDP sockets; the opening by International Atomic Time; paths at
//! one place.
ghost use Rattle.std.specs.Prelude.{[]};

use live_io::{
    DatagramSocket, PathPlace, PauseClock, ReceivePace, RetryingSocket, SocketHealth, TaiOffset,
    drops_in, has_group, have_collision, tai_now,
};
use std::cell::Cell;
use std::io::ErrorKind;
use std::net::Ipv4Addr;
use std::process::Abort;
use std::sync::atomic::{AtomicBool, Ordering};
use std::time::Duration;
use std::{io, time};
use studio_io::{Clock, FeedAnswer};

/// A millisecond, in sampling instants.
const MILLISECOND: i64 = 48;

/// The rest of a socket while packets flow, in sampling instants: 4 ms.
const REST: u32 = 192;

/// The result of a receive of a `TestSocket`.
#[derive(Clone, Copy, PartialEq, Eq, Debug)]
enum Receive {
    Fault,
    Nothing,
    Datagram,
    Unexpected,
}

/// A socket whose receives have the result that the test sets.
#[derive(Drop)]
struct TestSocket {
    result: Receive,
    /// The number of receives so far.
    receives: u32,
}

impl TestSocket {
    /// Sets the result of the next receives.
    fn set_result(&mut self, next: Receive) {
        self.result = next;
    }
}

impl DatagramSocket for TestSocket {
    fn receive(&mut self, buf: &mut [u8]) -> io::Result<Option<usize>> {
        self.receives = self.receives.saturating_add(1);
        match self.result {
            Receive::Fault => Err(io::Error::from(ErrorKind::NotConnected)),
            Receive::Nothing => Err(io::Error::from(ErrorKind::WouldBlock)),
            Receive::Datagram => Ok(Some(buf.len().min(1))),
            Receive::Unexpected => Ok(None),
        }
    }

    fn wait(&mut self, _milliseconds: i32) -> bool {
        false
    }
}

/// A clock that reads what the test sets, in sampling instants, and that a rest sets forward.
#[derive(Drop)]
struct TestClock {
    now: i64,
}

impl Clock for TestClock {
    ghost told = { λ clock. [] };

    fn now(&mut self) -> i64 {
        self.now
    }
}

impl PauseClock for TestClock {
    fn pause(&mut self, instants: u32) {
        self.now = self.now.saturating_add(i64::from(instants));
    }
}

/// A socket under test, with a flag that says when it is to be read.
type Retrying<'a> = RetryingSocket<'a, TestSocket, TestClock>;

/// Lets this many sampling instants pass.
fn wait(retrying: &mut Retrying<'_>, instants: i64) {
    retrying.clock.now = retrying.clock.now.saturating_add(instants);
}

fn failing_socket<'a>(health: &'a SocketHealth, ready: &'a AtomicBool) -> Retrying<'a> {
    let socket = TestSocket {
        result: Receive::Fault,
        receives: 0,
    };
    let pace = ReceivePace::new(REST);
    RetryingSocket::new(
        socket,
        TestClock { now: 0 },
        pace,
        Some(health),
        Some(ready),
    )
}

/// A socket that always fails is tried after 1, 2, 4, .. 512 ms and each second, and ends after 1,000 faults.
#[test]
fn a_failing_socket_is_tried_less_often_until_it_ends(rt: HostRuntime) {
    let health = SocketHealth::new();
    let ready = AtomicBool::new(true);
    let mut retrying = failing_socket(&health, &ready);
    let mut buf = [0u8; 4];
    let mut delay = MILLISECOND;
    for fault in 1..=1000u64 {
        assert_eq!(rt;
            retrying.next(&mut buf),
            Some(FeedAnswer::Fault),
            "fault {fault}"
        );
        assert_eq!(rt; health.faults(), fault);
        assert!(rt; health.is_pausing());
        if fault == 1000 {
            break;
        }
        wait(&mut retrying, delay.saturating_sub(1));
        assert_eq!(rt;
            retrying.next(&mut buf),
            Some(FeedAnswer::Nothing),
            "before {fault}"
        );
        assert_eq!(rt; u64::from(retrying.socket.receives), fault);
        assert!(rt; !health.has_ended());
        wait(&mut retrying, 1);
        delay = delay.saturating_mul(2).min(1000 * MILLISECOND);
    }
    assert!(rt; health.has_ended());
    assert_eq!(rt; retrying.next(&mut buf), Some(FeedAnswer::Ended));
    assert_eq!(rt; retrying.socket.receives, 1000);
    // 1,023 ms in ten delays, and 989 s.
    assert_eq!(rt; retrying.clock.now, 990_023 * MILLISECOND);
}

/// After a datagram no fault counts. An attempt that found nothing ends the rest, and the faults still count.
#[test]
fn a_datagram_ends_the_back_off(rt: HostRuntime) {
    // For each result of the attempt after three faults: what `next` returns, and the delay after one more fault.
    let cases = [
        (
            Receive::Datagram,
            Some(FeedAnswer::Datagram(1)),
            MILLISECOND,
        ),
        (Receive::Unexpected, None, MILLISECOND),
        (Receive::Nothing, Some(FeedAnswer::Nothing), 8 * MILLISECOND),
        (Receive::Fault, Some(FeedAnswer::Fault), 16 * MILLISECOND),
    ];
    for (result, answer, delay) in cases {
        let health = SocketHealth::new();
        let ready = AtomicBool::new(true);
        let mut retrying = failing_socket(&health, &ready);
        let mut buf = [0u8; 4];
        for _ in 0..3 {
            let _ = retrying.next(&mut buf);
            wait(&mut retrying, 10 * MILLISECOND);
        }
        retrying.socket.set_result(result);
        assert_eq!(rt; retrying.next(&mut buf), answer, "{result:?}");
        assert_eq!(rt; health.is_pausing(), result == Receive::Fault, "{result:?}");
        // Without a rest the socket is read once its flag is set, and not before.
        if result != Receive::Fault {
            assert_eq!(rt;
                retrying.next(&mut buf),
                Some(FeedAnswer::Nothing),
                "{result:?}"
            );
            ready.store(true, Ordering::SeqCst);
        }
        wait(&mut retrying, 10 * MILLISECOND);
        retrying.socket.set_result(Receive::Fault);
        assert_eq!(rt;
            retrying.next(&mut buf),
            Some(FeedAnswer::Fault),
            "{result:?}"
        );
        wait(&mut retrying, delay.saturating_sub(1));
        assert_eq!(rt;
            retrying.next(&mut buf),
            Some(FeedAnswer::Nothing),
            "{result:?}"
        );
        wait(&mut retrying, 1);
        assert_eq!(rt;
            retrying.next(&mut buf),
            Some(FeedAnswer::Fault),
            "{result:?}"
        );
    }
}

/// A socket that has this many datagrams, and is then empty.
#[derive(Drop)]
struct QueueSocket {
    queued: u32,
    /// The number of waits for a datagram so far.
    waits: u32,
    /// The number of datagrams that come during the next wait.
    coming: u32,
}

impl DatagramSocket for QueueSocket {
    fn receive(&mut self, buf: &mut [u8]) -> io::Result<Option<usize>> {
        if self.queued == 0 {
            return Err(io::Error::from(ErrorKind::WouldBlock));
        }
        self.queued = self.queued.saturating_sub(1);
        Ok(Some(buf.len().min(1)))
    }

    fn wait(&mut self, _milliseconds: i32) -> bool {
        self.waits = self.waits.saturating_add(1);
        let has_come = self.coming > 0;
        self.queued = self.queued.saturating_add(self.coming);
        self.coming = 0;
        has_come
    }
}

/// A socket is read until it is empty. While packets flow a rest follows, and 20 ms after the last lot a wait for a
/// datagram. Packets flow from the first datagram of that wait on.
#[test]
fn an_empty_socket_rests_while_packets_flow(rt: HostRuntime) {
    // The datagrams that come before each step, and those that come during its wait, if there is one; then the
    // datagrams that are read until there is nothing, the clock after that in milliseconds, and the waits so far.
    let steps = [
        ("nothing came yet", 0, 0, 0, 0, 1),
        ("a wait ends with a datagram", 0, 1, 0, 0, 2),
        ("packets flow from it on", 0, 0, 1, 4, 2),
        ("a lot is read whole", 32, 0, 32, 8, 2),
        ("another", 1, 0, 1, 12, 2),
        ("4 ms after the last lot", 0, 0, 0, 16, 2),
        ("8 ms", 0, 0, 0, 20, 2),
        ("12 ms", 0, 0, 0, 24, 2),
        ("16 ms", 0, 0, 0, 28, 2),
        ("20 ms", 0, 0, 0, 28, 3),
        ("a wait follows a wait", 0, 0, 0, 28, 4),
        ("a lot after a wait", 2, 0, 2, 32, 4),
    ];
    let socket = QueueSocket {
        queued: 0,
        waits: 0,
        coming: 0,
    };
    let pace = ReceivePace::new(REST);
    let mut retrying = RetryingSocket::new(socket, TestClock { now: 0 }, pace, None, None);
    assert!(rt; retrying.waits());
    let mut buf = [0u8; 4];
    for (shows, queued, coming, wanted, milliseconds, waits) in steps {
        retrying.socket.queued = queued.max(retrying.socket.queued);
        retrying.socket.coming = coming;
        let mut read = 0u32;
        for _ in 0..100 {
            if retrying.next(&mut buf) == Some(FeedAnswer::Nothing) {
                break;
            }
            read = read.saturating_add(1);
        }
        assert_eq!(rt; read, wanted, "{shows}");
        assert_eq!(rt;
            retrying.clock.now,
            MILLISECOND.saturating_mul(milliseconds),
            "{shows}"
        );
        assert_eq!(rt; retrying.socket.waits, waits, "{shows}");
    }
}

/// With a flag a socket is read until it is empty. That clears the flag, and nothing waits.
#[test]
fn a_flag_is_cleared_by_an_empty_socket(rt: HostRuntime) {
    let ready = AtomicBool::new(false);
    let socket = QueueSocket {
        queued: 2,
        waits: 0,
        coming: 0,
    };
    let pace = ReceivePace::new(REST);
    let mut retrying = RetryingSocket::new(socket, TestClock { now: 0 }, pace, None, Some(&ready));
    let mut buf = [0u8; 4];
    assert!(rt; !retrying.waits());
    assert_eq!(rt;
        retrying.next(&mut buf),
        Some(FeedAnswer::Nothing),
        "not ready"
    );
    ready.store(true, Ordering::SeqCst);
    for left in [1, 0] {
        assert_eq!(rt; retrying.next(&mut buf), Some(FeedAnswer::Datagram(1)));
        assert_eq!(rt; retrying.socket.queued, left);
        assert!(rt; ready.load(Ordering::SeqCst), "{left} left");
    }
    assert_eq!(rt; retrying.next(&mut buf), Some(FeedAnswer::Nothing), "empty");
    assert!(rt; !ready.load(Ordering::SeqCst));
    assert_eq!(rt; (retrying.clock.now, retrying.socket.waits), (0, 0));
}

/// The kernel's table as Linux 6.1 prints it, with two sockets.
const TABLE: &[u8] =
    b"  sl  local_address rem_address   st tx_queue rx_queue tr tm->when retrnsmt   uid  timeout inode \
    ref pointer drops            \n   61: 0100007F:F03D 00000000:0000 07 00000000:00000000 00:00000000 00000000  1000 \
           0 31527 2 0000000000000000 0             \n 8107: 0109EFE0:138C 00000000:0000 07 00000000:00002280 \
    00:00000000 00000000     0        0 4026531 2 0000000000000000 18446744073709551615\n";

/// An inode, and the drops of its socket, if the table has it.
const DROPS: [(u64, Option<u64>); 6] = [
    (31_527, Some(0)),
    (4_026_531, Some(u64::MAX)),
    (61, None),
    (1_000, None),
    (0, None),
    (402_653, None),
];

/// Tests the drops of each inode in a table.
// The rows of a test are an argument: a constant would be followed row by row when the test is proved.
fn have_drops(rt: &impl Abort, table: &[u8], rows: &[(u64, Option<u64>)]) {
    for (inode, drops) in rows {
        assert_eq!(rt; drops_in(table, *inode), *drops, "inode {inode}");
    }
}

/// The drops of a socket are those of the line with its inode; no other number of a line is taken for one.
#[test]
fn drops_are_read_by_the_inode(rt: HostRuntime) {
    have_drops(&rt, TABLE, &DROPS);
    // A last line without its end is not read: the kernel writes whole lines.
    let [whole @ .., _] = TABLE else {
        return;
    };
    assert_eq!(rt; drops_in(whole, 4_026_531), None);
}

/// A table of the kernel: 224.0.0.1 is joined on both interfaces, and 239.71.10.5 on the second one.
const GROUPS: &[u8] = b"Idx\tDevice    : Count Querier\tGroup    Users Timer\tReporter\n\
    1\tlo        :     1      V3\n\
    \t\t\t\t010000E0     1 0:00000000\t\t0\n\
    3\t0A0A47EF  :     2      V3\n\
    \t\t\t\t050A47EF     2 0:00000000\t\t0\n\
    \t\t\t\t010000E0     1 0:00000000\t\t0\n";

/// A group is joined if a line of the table has it; the name of an interface is no group, and nor is half of one.
#[test]
fn groups_are_read_by_their_addresses(rt: HostRuntime) {
    assert!(rt; has_group(GROUPS, Ipv4Addr::new(224, 0, 0, 1)));
    assert!(rt; has_group(GROUPS, Ipv4Addr::new(239, 71, 10, 5)));
    assert!(rt; !has_group(GROUPS, Ipv4Addr::new(239, 71, 10, 10)));
    assert!(rt; !has_group(GROUPS, Ipv4Addr::new(5, 10, 71, 239)));
    assert!(rt; !has_group(b"\t\t\t\t050A47", Ipv4Addr::new(239, 71, 10, 5)));
    assert!(rt; !has_group(b"", Ipv4Addr::new(224, 0, 0, 1)));
}

/// A clock whose monotonic reading steps by this many microseconds each time, for this many readings, and then stays
/// the same.
#[derive(Drop)]
struct SteppingClock {
    readings: Cell<u64>,
    steps: u64,
    step: u64,
}

impl time::Clock for SteppingClock {
    fn monotonic(&self) -> io::Result<Duration> {
        let readings = self.readings.get();
        self.readings.set(readings.saturating_add(1));
        let steps = readings.min(self.steps);
        Ok(Duration::from_micros(steps.saturating_mul(self.step)))
    }

    fn since_1970(&self) -> io::Result<Duration> {
        Ok(Duration::from_secs(1))
    }
}

/// The clocks are read again until 100 microseconds at most lie between, and not more than 100 times.
#[test]
fn the_opening_is_read_again_after_a_preemption(rt: HostRuntime) {
    // The steps of the clock, their length, and the monotonic reading at the opening in microseconds, if there is one.
    let cases = [
        (1_000, 100, Some(0)),
        (1, 101, Some(101)),
        (198, 101, Some(19_998)),
        (199, 101, None),
        (1_000, 101, None),
    ];
    for (steps, step, began) in cases {
        let clock = SteppingClock {
            readings: Cell::new(0),
            steps,
            step,
        };
        let opened = tai_now(&clock, TaiOffset::Seconds(37));
        let found = opened.map(|time| (time.at, time.utc, time.began));
        let wanted = began.map(|micros| (38 * 48_000, 48_000, Duration::from_micros(micros)));
        assert_eq!(rt; found, wanted, "{steps} steps of {step}");
    }
}

/// The group and the port of a path, the sources of the path before it and of this one, and whether the two collide.
type Pair = (Ipv4Addr, u16, Option<Ipv4Addr>, Option<Ipv4Addr>, bool);

/// Tests three paths for each row: one at an interface, one at a group on port 5004, and one at the place of the row.
fn collide_as_said(rt: &impl Abort, interface: Ipv4Addr, group: Ipv4Addr, rows: &[Pair]) {
    for (at, port, first, second, collide) in rows {
        let places = [
            PathPlace {
                at: interface,
                port: 5004,
                from: None,
            },
            PathPlace {
                at: group,
                port: 5004,
                from: *first,
            },
            PathPlace {
                at: *at,
                port: *port,
                from: *second,
            },
        ];
        assert_eq!(rt; have_collision(&places), *collide, "{places:?}");
    }
}

/// Two paths at one place collide, unless it is a group and both have sources, which differ.
#[test]
fn paths_at_one_place_collide_unless_their_sources_differ(rt: HostRuntime) {
    let group = Ipv4Addr::new(239, 71, 1, 1);
    let [own, other] = [Ipv4Addr::new(10, 0, 0, 1), Ipv4Addr::new(10, 0, 0, 2)];
    let cases = [
        (group, 5004, Some(own), Some(other), false),
        (group, 5004, Some(own), Some(own), true),
        (group, 5004, Some(own), None, true),
        (group, 5004, None, Some(other), true),
        (group, 5004, None, None, true),
        (group, 5006, None, None, false),
        (Ipv4Addr::new(239, 71, 1, 2), 5004, None, None, false),
    ];
    collide_as_said(&rt, own, group, &cases);
    let interface = PathPlace {
        at: own,
        port: 5004,
        from: Some(own),
    };
    let elsewhere = PathPlace {
        at: own,
        port: 5004,
        from: Some(other),
    };
    assert!(rt; have_collision(&[interface, elsewhere]));
}
