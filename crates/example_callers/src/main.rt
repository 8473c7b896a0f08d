//! Short callers of the other crates, to copy from. No crate depends on this one.
//!
//! | Module | What it shows |
//! |---|---|
//! | `first_call` | Two packets of one stream over two paths, merged into marks by the calls of a `Merge`. |
//! | `receive` | `receive_stream`: one stream's datagrams to its marks. |
//! | `report` | `report_trace`: a trace in memory to its report, by `play`. |
//! | `mix` | `mix_next`: the marks of two streams to the output's next datagram, by a `Mixer`. |
//! | `engine` | `send_due` and `send_rest`: an `Engine` in a program with a loop of its own. |
//! | `run` | `run_in_threads`: a studio's workers, over feeds, clocks and a sink in memory. |
//! | `arrival` | The datagrams that `receive_stream` takes. |
//! | `inputs` | Packets and configurations. |
//! | `show` | A call of each of these, which prints what it returned. |
//!
//! `main` makes all these calls. It prints the lines of the file `stdout` next to `src`.
#![tactic(auto)]

mod arrival;
mod engine;
mod first_call;
mod inputs;
mod mix;
mod receive;
mod report;
mod run;
mod show;

fn main(rt: HostRuntime) -> anyhow::Result<()> {
    let alloc = rt.alloc();
    first_call::first_call(&rt, alloc)?;
    show::show_receive(&rt, alloc)?;
    show::show_report(&rt, alloc)?;
    show::show_mix(&rt, alloc)?;
    show::show_engine(&rt, alloc)?;
    show::show_run(&rt, alloc)
}
