//! The benchmark of an engine's calls: rounds of arrivals and turns.
//!
//! `bench/library.c` makes the same calls from C.
use crate::datagrams::number;
use crate::engine::studio_at;
use anyhow::bail;
use mix_packets::MAX_OUTPUT_OCTETS;
use rtp_stream::Path;
use std::env::Args;
use std::time::Instant;
use studio_engine::Engine;

/// Makes rounds of calls to the engine of a configuration, by the words CONFIG ROUNDS. Prints the nanoseconds that they
/// took, and the number of datagrams of the output.
pub fn time_rounds(rt: &HostRuntime, words: &mut Args) -> anyhow::Result<()> {
    let Some(path) = words.next() else {
        bail!("rounds: CONFIG ROUNDS");
    };
    let Some(rounds) = number(words) else {
        bail!("rounds: CONFIG ROUNDS");
    };
    let (nanos, given) = timed_at(rt, path.as_str(), rounds)?;
    println!(rt; "rounds {rounds} {nanos} {given}")?;
    Ok(())
}

/// Makes rounds of calls to the engine of the configuration at a path. Returns the nanoseconds that they took, and the
/// number of datagrams of the output.
fn timed_at(rt: &HostRuntime, path: &str, rounds: u32) -> anyhow::Result<(u128, u64)> {
    let spec = studio_at(rt, path)?;
    let mut engine = Engine::new(rt.alloc(), &spec)?;
    timed(rt, &mut engine, rounds)
}

/// Makes rounds of calls to an engine, as `timed_at` does.
// The engine is borrowed: an engine that is held is followed through each `?`, which took two minutes to prove.
fn timed(rt: &HostRuntime, engine: &mut Engine, rounds: u32) -> anyhow::Result<(u128, u64)> {
    let start = Instant::now(rt)?;
    let given = make_rounds(engine, rounds)?;
    Ok((start.elapsed(rt)?.as_nanos(), given))
}

/// Makes rounds of calls, and returns the number of datagrams of the output.
fn make_rounds(engine: &mut Engine, rounds: u32) -> anyhow::Result<u64> {
    let Some(stream) = engine.stream(0) else {
        bail!("no stream");
    };
    let mut packet = [0; MAX_OUTPUT_OCTETS];
    let mut value = 0u8;
    for octet in packet.iter_mut() {
        *octet = value;
        value = value.wrapping_add(31);
    }
    let size = 12 + stream.payload_len();
    let frames = u32::from(stream.frames());
    packet[..12].copy_from_slice(&[0x80, stream.pt(), 0, 0, 0, 0, 0, 0, 0, 0, 0, 0]);
    let mut given = 0u64;
    for number in 0..rounds {
        let seq = (number % 65_536) as u16;
        packet[2..4].copy_from_slice(&seq.to_be_bytes());
        packet[4..8].copy_from_slice(&number.wrapping_mul(frames).to_be_bytes());
        pass_to_all(engine, &packet[..size])?;
        let now = i64::from(number) * i64::from(frames);
        given = given.wrapping_add(turn_to(engine, now)?);
    }
    Ok(given)
}

/// Passes a datagram to each stream on its first two paths.
fn pass_to_all(engine: &mut Engine, octets: &[u8]) -> anyhow::Result<()> {
    for stream in 0..engine.streams() {
        for path in (0..2).flat_map(Path::new) {
            engine.arrive(stream, path, octets)?;
        }
    }
    Ok(())
}

/// Turns an engine to a clock reading, and returns the number of datagrams that it returned.
fn turn_to(engine: &mut Engine, now: i64) -> anyhow::Result<u64> {
    let mut out = [0; MAX_OUTPUT_OCTETS];
    let mut given = 0u64;
    // The range bounds the loop. The engine has no further datagram long before.
    for _ in 0..u64::MAX {
        // Called for its clause: a datagram has at most `MAX_OUTPUT_OCTETS` octets, so `out` has space.
        let _short = engine.output().datagram_len();
        if engine.turn(now, &mut out)?.is_none() {
            break;
        }
        given = given.wrapping_add(1);
    }
    Ok(given)
}
