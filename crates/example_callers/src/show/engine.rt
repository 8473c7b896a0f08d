//! An engine that is passed datagrams, turned by the clock and closed.

use super::datagram_text::print_kept;
use crate::engine::{send_due, send_rest};
use crate::inputs::{FIRST, ONE_STREAM, SECOND, path, studio_of};
use mix_packets::MAX_OUTPUT_OCTETS;
use std::alloc::Global;
use studio_engine::Engine;
use studio_io::MemorySink;

/// Prints the datagram that is due at 12, and the one that is left after a close.
pub(crate) fn show_engine(rt: &impl Print, alloc: Global) -> anyhow::Result<()> {
    let mut engine = one_stream(alloc)?;
    hand_both(&mut engine)?;
    print_sent(rt, alloc, &mut engine)
}

/// Returns an engine of `ONE_STREAM`.
fn one_stream(alloc: Global) -> anyhow::Result<Engine> {
    let studio = studio_of(alloc, ONE_STREAM)?;
    Ok(Engine::new(alloc, &studio)?)
}

/// Passes both packets to an engine, on the first path.
fn hand_both(engine: &mut Engine) -> anyhow::Result<()> {
    let path = path(0)?;
    engine.arrive(0, path, &FIRST)?;
    engine.arrive(0, path, &SECOND)?;
    Ok(())
}

/// Prints what an engine sends at 12, and after its close.
fn print_sent(rt: &impl Print, alloc: Global, engine: &mut Engine) -> anyhow::Result<()> {
    println!(rt; "send_due:")?;
    print_due(rt, alloc, engine, 12)?;
    engine.close()?;
    println!(rt; "send_rest:")?;
    print_rest(rt, alloc, engine)
}

/// Prints what the engine sends at this reading of the clock.
fn print_due(rt: &impl Print, alloc: Global, engine: &mut Engine, now: i64) -> anyhow::Result<()> {
    let mut sink = MemorySink::new(alloc);
    let mut out = [0; MAX_OUTPUT_OCTETS];
    // No datagram is longer than `out`: `datagram_len` ensures it.
    let _short = engine.output().datagram_len();
    send_due(engine, now, &mut out, &mut sink)?;
    print_kept(rt, &sink)
}

/// Prints what the engine sends after its close.
fn print_rest(rt: &impl Print, alloc: Global, engine: &mut Engine) -> anyhow::Result<()> {
    let mut sink = MemorySink::new(alloc);
    let mut out = [0; MAX_OUTPUT_OCTETS];
    let _short = engine.output().datagram_len();
    send_rest(engine, &mut out, &mut sink);
    print_kept(rt, &sink)
}
