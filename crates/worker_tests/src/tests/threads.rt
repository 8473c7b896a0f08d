//! One stream on two paths by four threads, two that offer, one that merges and one that mixes, to its end.
ghost use Rattle.std.specs.Thread.{IsSync};
ghost use Rattle.rtrb.specs.Ring.{SameProducer};
ghost use Rattle.studio_rings.specs.Turns.{AreSameRings};
ghost use Rattle.worker_tests.specs.OneStream.{HasSameRings};

use super::stream_ends::{
    ClosedStream, MEDIA, OneStream, close_paths, drains, mixed, one_stream, settle, turn,
};
use engine_tests::small_packets::FIRST;
use std::alloc::Global;
use std::process::Abort;
use std::sync::Wait;
use std::thread;
use std::thread::{Parker, Threads};
use std::time::Duration;
use studio_ends::{MixEnd, Offer, PathEnd, StreamEnd};

/// The number of packets that each path sends.
const PACKETS: u8 = 100;

/// The number of packets that are due before the stream is closed. One drain sends at most 64 marks, so the other 70
/// packets take two drains.
const DUE: u8 = 30;

/// Returns the packet of a number: six samples that say it.
fn packet(number: u8) -> [u8; 30] {
    let [high, low] = (u16::from(number) * 6).to_be_bytes();
    let mut octets = FIRST;
    for (place, octet) in octets.iter_mut().enumerate() {
        *octet = match place {
            3 => number,
            6 => high,
            7 => low,
            _ if place > 11 && place % 3 == 2 => number,
            _ => *octet,
        };
    }
    octets
}

/// Waits a little.
fn pause(rt: &impl Wait, parker: &Parker) {
    let _ = parker.park_timeout(rt, Duration::from_micros(50));
}

/// Offers a packet until it is sent.
fn send(rt: &(impl Wait + Abort), path: &mut PathEnd, parker: &Parker, packet: &[u8; 30])
    ensures { SameProducer path.old.ring path.new.ring }
{
    for _ in rt.forever() {
        let answer = path.offer(packet);
        if answer == Offer::Sent {
            return;
        }
        assert!(rt; answer == Offer::Full, "a packet of the stream");
        pause(rt, parker);
    }
    unreachable!()
}

/// Sends each packet.
fn send_all(rt: &(impl Wait + Abort), path: PathEnd) -> PathEnd
    ensures { SameProducer path.ring result.ring }
{
    let mut path = path;
    let parker = Parker::new();
    for number in 0..PACKETS {
        send(rt, &mut path, &parker, &packet(number));
    }
    path
}

/// Takes turns until all packets came on both paths and the marks of those that are due were sent. No reading is after
/// the end of the packets that came on both paths, so none of them is late.
fn merge_all(rt: &(impl Wait + Abort), stream: StreamEnd) -> StreamEnd
    ensures { HasSameRings stream result }
{
    let mut stream = stream;
    let parker = Parker::new();
    let all = u32::from(PACKETS);
    // The deadline of the last packet that is due: a latency of twelve after its first sampling instant.
    let last = i64::from(DUE) * 6 + 6;
    let mut first = 0u32;
    let mut second = 0u32;
    for _ in rt.forever() {
        let now = i64::from(first.min(second)).wrapping_mul(6).min(last);
        let (of_first, of_second, _, reached, _) = turn(rt, &mut stream, now);
        first = first.wrapping_add(of_first);
        second = second.wrapping_add(of_second);
        if first >= all && second >= all && reached == last {
            return stream;
        }
        pause(rt, &parker);
    }
    unreachable!()
}

/// Sends the marks that are left after the close.
fn drain_all(rt: &impl Wait, stream: StreamEnd) -> StreamEnd
    ensures { HasSameRings stream result }
{
    let mut stream = stream;
    let parker = Parker::new();
    for _ in rt.forever() {
        if drains(&mut stream) {
            return stream;
        }
        pause(rt, &parker);
    }
    unreachable!()
}

/// Takes turns until a datagram comes, which has the samples of this packet.
fn mix_next(rt: &(impl Wait + Abort), mix: &mut MixEnd, parker: &Parker, packet: &[u8; 30])
    ensures { AreSameRings mix.old.sides.items mix.new.sides.items }
{
    for _ in rt.forever() {
        let mut out = [0u8; 1452];
        let note = mixed(mix, &mut out);
        assert!(rt; note.strange == 0);
        if note.len.is_some() {
            assert!(rt; out[12..30] == packet[12..30], "the samples of the packet");
            return;
        }
        pause(rt, parker);
    }
    unreachable!()
}

/// Mixes a datagram of each packet from one number up to another.
fn mix_packets(rt: &(impl Wait + Abort), mix: MixEnd, from: u8, to: u8) -> MixEnd
    ensures { AreSameRings mix.sides.items result.sides.items }
{
    let mut mix = mix;
    let parker = Parker::new();
    for number in from..to {
        mix_next(rt, &mut mix, &parker, &packet(number));
    }
    mix
}

/// Sends all packets on both paths, by two threads.
fn send_both<R: Threads + Wait + Abort + Sync>(
    rt: &R,
    first: PathEnd,
    second: PathEnd,
) -> (PathEnd, PathEnd)
    ensures first { SameProducer first.ring result.0.ring }
    ensures second { SameProducer second.ring result.1.ring }
{
    thread::join(
        rt,
        move || -> PathEnd
            ensures { SameProducer first.ring result.ring }
        { send_all(rt, first) },
        move || -> PathEnd
            ensures { SameProducer second.ring result.ring }
        { send_all(rt, second) },
    )
}

/// Merges all packets of a stream and mixes those that are due, by two threads.
fn merge_and_mix<R: Threads + Wait + Abort + Sync>(
    rt: &R,
    stream: StreamEnd,
    mix: MixEnd,
) -> (StreamEnd, MixEnd)
    ensures stream { HasSameRings stream result.0 }
    ensures mix { AreSameRings mix.sides.items result.1.sides.items }
{
    thread::join(
        rt,
        move || -> StreamEnd
            ensures { HasSameRings stream result }
        { merge_all(rt, stream) },
        move || -> MixEnd
            ensures { AreSameRings mix.sides.items result.sides.items }
        { mix_packets(rt, mix, 0, DUE) },
    )
}

/// Sends all packets on both paths, merges them and mixes those that are due, by four threads.
fn run_all<R: Threads + Wait + Abort + Sync>(rt: &R, ends: OneStream) -> OneStream {
    let OneStream {
        first,
        second,
        stream,
        monitor,
        mix,
    } = ends;
    let ((first, second), (stream, mix)) = thread::join(
        rt,
        move || -> (PathEnd, PathEnd)
            requires { IsSync R.row }
            ensures first { SameProducer first.ring result.0.ring }
            ensures second { SameProducer second.ring result.1.ring }
        { send_both(rt, first, second) },
        move || -> (StreamEnd, MixEnd)
            requires { IsSync R.row }
            ensures stream { HasSameRings stream result.0 }
            ensures mix { AreSameRings mix.sides.items result.1.sides.items }
        { merge_and_mix(rt, stream, mix) },
    );
    OneStream {
        first,
        second,
        stream,
        monitor,
        mix,
    }
}

/// Drains the marks of a closed stream and mixes its packets from `DUE` on, by two threads.
fn drain_and_mix<R: Threads + Wait + Abort + Sync>(rt: &R, closed: ClosedStream) -> ClosedStream {
    let ClosedStream { stream, mix, paths } = closed;
    let (stream, mix) = thread::join(
        rt,
        move || -> StreamEnd
            ensures { HasSameRings stream result }
        { drain_all(rt, stream) },
        move || -> MixEnd
            ensures { AreSameRings mix.sides.items result.sides.items }
        { mix_packets(rt, mix, DUE, PACKETS) },
    );
    ClosedStream { stream, mix, paths }
}

/// Runs one stream by threads to its end, over rings of `places` places. The ends come back to this thread twice: to
/// close the stream, and to settle the mixer.
fn by_threads<R: Threads + Wait + Abort + Sync>(rt: &R, alloc: Global, places: usize) {
    let ends = one_stream(rt, alloc, MEDIA, 128, places);
    let ends = run_all(rt, ends);
    let closed = close_paths(rt, ends);
    for [offered, sent, full] in closed.paths {
        assert!(rt; (sent, offered.wrapping_sub(full)) == (100, 100));
    }
    let closed = drain_and_mix(rt, closed);
    let counts = settle(rt, closed);
    assert!(rt; (counts.arrived, counts.taken, counts.double) == (200, 100, 100));
    assert!(rt; (counts.got, counts.lost) == (100, 0));
}

/// Rings of 1 to 4,096 places between threads: each path sends 100 packets, each datagram has its packet's samples, the
/// stream closes with 70 packets that are not due, and the mixer is settled after the last of them.
#[test]
fn threads_over_rings_of_any_length_lose_nothing_and_settle(rt: HostRuntime) {
    for places in [1usize, 2, 3, 64, 4_096] {
        by_threads(&rt, rt.alloc(), places);
    }
}
