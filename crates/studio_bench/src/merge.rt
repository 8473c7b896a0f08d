//! The benchmark of merging two paths (ST 2022-7): ready datagrams in, their slots out, over a window that is as good
//! as full.
//!
//! `bench/merge.c` does the same work, and comes to the same sum.
ghost use Rattle.std.specs.Prelude.{◌≡◌};

use crate::datagrams::{Datagrams, NUMBERS, make_datagrams, number, stream};
use anyhow::bail;
use path_merge::{Merge, SlotWindow};
use rtp_stream::{MarkKindRef, MarkRef, Path, StreamSpec};
use rtp_wire::read;
use std::alloc::Global;
use std::env::Args;
use std::rt::Clock;
use std::time::Instant;

/// The work of a merge at a number: at most one packet arrives on each path, and then the clock advances by a packet's
/// time.
#[derive(Clone, Copy)]
struct Turn {
    first: Arrival,
    second: Arrival,
}

/// An arrival on a path, if there is one.
#[derive(Clone, Copy)]
enum Arrival {
    /// The datagram of a number arrives on a path.
    On(Path, u32),
    /// No datagram arrives.
    Nothing,
}

/// Merges the datagrams of one shape, by the words OCTETS WIDTH HALVES.
///
/// The first half fills the window. If there are two halves, the second is timed. Prints the shape, the picoseconds
/// that an arrival took, or 0, and a sum over fates and marks.
pub fn time_merge(
    rt: &(impl Clock + Print),
    alloc: Global,
    words: &mut Args,
) -> anyhow::Result<()> {
    let (Some(octets), Some(width), Some(halves)) = (number(words), number(words), number(words))
    else {
        bail!("merge: OCTETS WIDTH HALVES");
    };
    let Some((picos, sum)) = time_shape(rt, alloc, octets, width, halves) else {
        bail!("no such stream, or no memory for it");
    };
    println!(rt; "merge {octets} {width} {picos} {sum}")?;
    Ok(())
}

/// Returns the picoseconds that an arrival took, and the sum. None if there is no such stream, or if an allocation or a
/// clock fails.
fn time_shape(
    clock: &impl Clock,
    alloc: Global,
    octets: u32,
    width: u32,
    halves: u32,
) -> Option<(u128, u64)> {
    let spec = stream(octets, width)?;
    let datagrams = make_datagrams(alloc, &spec)?;
    let merge = &mut Merge::new(alloc, spec, 0).ok()?;
    time_halves(clock, alloc, merge, &spec, &datagrams, halves)
}

/// Fills the window with the first half, and times the second if there is one.
fn time_halves(
    clock: &impl Clock,
    alloc: Global,
    merge: &mut Merge<SlotWindow>,
    spec: &StreamSpec,
    datagrams: &Datagrams,
    halves: u32,
) -> Option<(u128, u64)>
    requires { merge.old.spec ≡ spec.now }
{
    let turns = make_turns(alloc)?;
    let (first, second) = turns.as_slice().split_at_checked(turns.len() / 2)?;
    let sum = merge_all(merge, spec, datagrams, first);
    if halves != 2 {
        return Some((0, sum));
    }
    let start = Instant::now(clock).ok()?;
    let more = merge_all(merge, spec, datagrams, second);
    // Half of the numbers on each of two paths are `NUMBERS` arrivals, but for the lost ones.
    let picos = start.elapsed(clock).ok()?.as_nanos() * 1000 / u128::from(NUMBERS);
    Some((picos, sum.wrapping_add(more)))
}

/// Returns the work at each number.
fn make_turns(alloc: Global) -> Option<Vec<Turn>> {
    let (first, second) = (Path::new(0)?, Path::new(1)?);
    let mut turns = Vec::new(alloc);
    for number in 0..NUMBERS {
        let turn = Turn {
            first: packet_of(first, swapped(number), 37),
            second: packet_of(second, number.wrapping_sub(4), 71),
        };
        turns.push(turn).ok()?;
    }
    Some(turns)
}

/// Returns the number of the first path's packet. The path swaps two in fifty.
fn swapped(number: u32) -> u32 {
    match number % 50 {
        10 => number.saturating_add(1),
        11 => number.saturating_sub(1),
        _ => number,
    }
}

/// Returns the arrival of a path's packet. The path loses one packet in a hundred.
fn packet_of(path: Path, number: u32, lost: u32) -> Arrival {
    // The second path is four packets behind, so its first four numbers wrapped below 0.
    if number >= NUMBERS || number % 100 == lost {
        Arrival::Nothing
    } else {
        Arrival::On(path, number)
    }
}

/// Does the work of these turns, and returns a sum over fates and marks.
fn merge_all(
    merge: &mut Merge<SlotWindow>,
    spec: &StreamSpec,
    datagrams: &Datagrams,
    turns: &[Turn],
) -> u64
    requires { merge.old.spec ≡ spec.now }
    ensures { merge.new.spec ≡ merge.old.spec }
{
    let mut sum = 0u64;
    for turn in turns {
        sum = sum.wrapping_add(take(merge, spec, datagrams, turn.first));
        sum = sum.wrapping_add(take(merge, spec, datagrams, turn.second));
        sum = sum.wrapping_add(give(merge, spec));
    }
    sum
}

/// Takes an arrival, and returns what it adds to the sum.
#[inline(always)]
fn take(
    merge: &mut Merge<SlotWindow>,
    spec: &StreamSpec,
    datagrams: &Datagrams,
    arrival: Arrival,
) -> u64
    requires { merge.old.spec ≡ spec.now }
    ensures { merge.new.spec ≡ merge.old.spec }
{
    let Arrival::On(path, number) = arrival else {
        return 0;
    };
    match datagrams.of(number) {
        Some(datagram) => arrive(merge, spec, path, datagram),
        None => 0,
    }
}

// Never inlined: a receiver makes a call for each datagram, too.
/// Offers the packet of a datagram, and returns its fate as a number, or 0 if the datagram is refused.
#[inline(never)]
fn arrive(merge: &mut Merge<SlotWindow>, spec: &StreamSpec, path: Path, datagram: &[u8]) -> u64
    requires { merge.old.spec ≡ spec.now }
    ensures { merge.new.spec ≡ merge.old.spec }
{
    if path.number() >= spec.paths() {
        return 0;
    }
    let Ok(view) = read(datagram) else {
        return 0;
    };
    let Ok(packet) = spec.admit_ref(&view) else {
        return 0;
    };
    merge.offer_ref(path, packet) as u64
}

/// Takes the marks of the clock reading that is a packet's time after the last, and returns what they add to the sum.
fn give(merge: &mut Merge<SlotWindow>, spec: &StreamSpec) -> u64
    ensures { merge.new.spec ≡ merge.old.spec }
{
    let now = merge.time().wrapping_add(i64::from(spec.frames()));
    let Ok(goal) = merge.goal(now) else {
        return 0;
    };
    let mut sum = 0u64;
    // The range bounds the loop. The goal is reached long before.
    for _ in 0..u64::MAX {
        if let Some(mark) = merge.mark_to(goal) {
            sum = sum.wrapping_add(sum_of(&mark));
        }
        if !merge.pass_to(goal) {
            break;
        }
    }
    sum
}

/// Returns what a mark adds to the sum.
fn sum_of(mark: &MarkRef<'_>) -> u64 {
    match mark.kind() {
        MarkKindRef::Slot {
            number,
            media,
            payload: Some(payload),
            ..
        } => number
            .wrapping_add(media.cast_unsigned())
            .wrapping_add(ends_of(payload)),
        MarkKindRef::Slot { number, .. } => number.wrapping_mul(3),
        MarkKindRef::Quiet { until } => until.cast_unsigned(),
        MarkKindRef::End => 0,
    }
}

/// Returns the sum of the first octet and the last.
fn ends_of(octets: &[u8]) -> u64 {
    match octets {
        [first, .., last] => u64::from(*first) + u64::from(*last),
        _ => 0,
    }
}
