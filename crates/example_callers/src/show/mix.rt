//! Two streams' datagrams to marks, and these to the output's datagrams.
ghost use Rattle.std.specs.Prelude.{◌≡◌, ◌≤◌, length, IfOk, OnOk};

use super::datagram_text::print_datagram;
use crate::inputs::{TWO_STREAMS, arrival, packet, path, studio_of};
use crate::mix::{Mixed, mix_next};
use crate::receive::receive_stream;
use anyhow::{Context, ensure};
use mix_packets::MAX_OUTPUT_OCTETS;
use path_merge::{Mark, StreamSpec};
use std::alloc::Global;
use studio_config::StudioSpec;
use studio_mix::Mixer;

/// Prints three calls of `mix_next`. The marks of the two streams are final to the end of two blocks, so there is no
/// third.
pub(crate) fn show_mix(rt: &impl Print, alloc: Global) -> anyhow::Result<()> {
    println!(rt; "mix_next:")?;
    let studio = studio_of(alloc, TWO_STREAMS)?;
    print_mix(rt, alloc, &studio)
}

/// Prints the mix of `thousands` and `ones`.
fn print_mix(rt: &impl Print, alloc: Global, studio: &StudioSpec) -> anyhow::Result<()> {
    let first = thousands(alloc, studio.streams().first().context("no stream")?)?;
    let second = ones(alloc, studio.streams().last().context("no stream")?)?;
    let mut mixer = Mixer::new(alloc, studio)?;
    print_blocks(rt, &mut mixer, &first, &second)
}

/// Prints three calls, each of which goes on with the marks that those before it left.
fn print_blocks(
    rt: &impl Print,
    mixer: &mut Mixer,
    first: &[Mark],
    second: &[Mark],
) -> anyhow::Result<()> {
    ensure!(mixer.streams() == 2, "two streams");
    let (mut first, mut second) = (first, second);
    for _ in 0..3 {
        let mixed = print_next(rt, mixer, first, second)?;
        first = first.split_at(mixed.first).1;
        second = second.split_at(mixed.second).1;
    }
    Ok(())
}

/// Mixes the next block, and prints how many marks of each stream it took, and its datagram.
fn print_next(
    rt: &impl Print,
    mixer: &mut Mixer,
    first: &[Mark],
    second: &[Mark],
) -> anyhow::Result<Mixed>
    requires streams { length mixer.old.lanes ≡ 2 }
    ensures first { IfOk result (λ mixed. mixed.first ≤ length first.now) }
    ensures second { IfOk result (λ mixed. mixed.second ≤ length second.now) }
    ensures streams { OnOk result (length mixer.new.lanes ≡ 2) }
{
    let mut out = [0; MAX_OUTPUT_OCTETS];
    // No datagram is longer than `out`: `datagram_len` ensures it.
    let _short = mixer.output().datagram_len();
    let mixed = mix_next(mixer, first, second, &mut out);
    println!(rt; "took {} and {} marks", mixed.first, mixed.second)?;
    if let Some(len) = mixed.len {
        print_datagram(rt, &out[..len])?;
    }
    Ok(mixed)
}

/// Returns the marks of a stream of eight packets of six samples, from 0 on, all of them 1000.
fn thousands(alloc: Global, spec: &StreamSpec) -> anyhow::Result<Vec<Mark>> {
    let path = path(0)?;
    let marks = receive_stream(
        alloc,
        *spec,
        0,
        &[
            arrival(0, path, &thousand(1, 0)),
            arrival(0, path, &thousand(2, 6)),
            arrival(0, path, &thousand(3, 12)),
            arrival(0, path, &thousand(4, 18)),
            arrival(0, path, &thousand(5, 24)),
            arrival(0, path, &thousand(6, 30)),
            arrival(0, path, &thousand(7, 36)),
            arrival(0, path, &thousand(8, 42)),
        ],
    )?;
    Ok(marks)
}

/// Builds a packet of six samples, all of them 1000.
fn thousand(number: u8, timestamp: u8) -> [u8; 30] {
    packet(number, timestamp, [0, 3, 0xe8])
}

/// Returns the marks of a stream of one packet of 48 samples, from 20 on, all of them 1.
fn ones(alloc: Global, spec: &StreamSpec) -> anyhow::Result<Vec<Mark>> {
    let packet: [u8; 156] = packet(100, 20, [0, 0, 1]);
    Ok(receive_stream(alloc, *spec, 0, &[arrival(0, path(0)?, &packet)])?)
}
