//! Benchmarks: times the kernels that carry the load, and plays a trace through an engine.
//!
//! Its first word selects a kernel; without words it writes nothing. The scripts in `bench/` build it
//! for a processor, run it next to C and compare. `diff/run engine` compares its word `engine` with
//! the program's `play`.
#![tactic(auto)]

mod datagrams;
mod engine;
mod merge;
mod mix;
mod rounds;

use anyhow::bail;
use std::env;

fn main(rt: HostRuntime) -> anyhow::Result<()> {
    let mut words = env::args(&rt)?;
    let _program = words.next();
    let Some(word) = words.next() else {
        return Ok(());
    };
    match word.as_str() {
        "engine" => engine::play_trace(&rt, &mut words),
        "merge" => merge::time_merge(&rt, rt.alloc(), &mut words),
        "mix" => mix::time_shapes(&rt, rt.alloc()),
        "rounds" => rounds::time_rounds(&rt, &mut words),
        _ => bail!("no kernel has this name"),
    }
}
