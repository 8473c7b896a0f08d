//! The schedule that the lines of a text lead to, and the studio that has it.
ghost use Rattle.std.specs.Prelude.{◌≡◌, ◌⊎◌, Ok, Err, IfOk, IfErr};
ghost use Rattle.studio_run.specs.GainsLines.{line_said, schedule_after};
ghost use Rattle.studio_run.specs.declared.gains.fault.GainsFaultKind.TheVariants as kind;

use crate::gains::change::schedule_with_change;
use crate::gains::fault::{GainsFault, GainsFaultKind};
use crate::gains::line::read_change;
use crate::text_field::first_place;
use gain_mix::Schedule;
use std::alloc::{AllocError, Global};
use studio_config::StudioSpec;

/// Returns the studio whose gains change as a text says. The changes of the text replace those that were planned from
/// the time of its first one on.
///
/// The error is the first fault of the text, or an allocation failure.
pub fn studio_with_gains(
    alloc: Global,
    studio: &StudioSpec,
    text: &[u8],
) -> Result<StudioSpec, GainsFault>
    ensures schedule { IfOk result (λ s. schedule_after studio.now.schedule text.now ≡ Ok s.schedule) }
    ensures others { IfOk result (λ s. s ≡ record studio.now { schedule = s.schedule }) }
    ensures fault { IfErr result
        (λ e. (e.kind ≡ kind.Memory) ⊎ (schedule_after studio.now.schedule text.now ≡ Err e)) }
{
    let Ok(schedule) = studio.schedule().duplicate(alloc) else {
        return Err(out_of_memory());
    };
    let Ok(streams) = Vec::from_slice(alloc, studio.streams()) else {
        return Err(out_of_memory());
    };
    match read_lines(alloc, schedule, text) {
        Ok(changed) => {
            let changed = StudioSpec::new(studio.open_at(), streams, *studio.output(), changed);
            Ok(with_others_of(studio, changed))
        }
        Err(fault) => Err(fault),
    }
}

/// Returns the second studio with the output's clock, the ports, the addresses and the delay of copies of the first.
fn with_others_of(studio: &StudioSpec, changed: StudioSpec) -> StudioSpec
    ensures { result ≡ record changed { clock = studio.now.clock; ports = studio.now.ports; networks = studio.now.networks; late = studio.now.late } }
{
    changed
        .with_output_clock(studio.output_clock())
        .with_ports(*studio.ports())
        .with_networks(*studio.networks())
        .with_late(studio.late())
}

/// Returns the fault of an allocation, which belongs to no line.
fn out_of_memory() -> GainsFault
    ensures { result.kind ≡ kind.Memory }
{
    GainsFault {
        line: 0,
        kind: GainsFaultKind::Memory,
    }
}

/// Returns the schedule that a text leads to.
fn read_lines(alloc: Global, schedule: Schedule, text: &[u8]) -> Result<Schedule, GainsFault>
    ensures ok { IfOk result (λ s. schedule_after schedule text.now ≡ Ok s) }
    ensures first { IfOk result (λ s. s.first ≡ schedule.first) }
    ensures fault { IfErr result (λ e. (e.kind ≡ kind.Memory) ⊎ (schedule_after schedule text.now ≡ Err e)) }
{
    let mut planned = schedule;
    let mut last = 0;
    let mut rest = text;
    let mut number = 0;
    while !rest.is_empty() {
        number += 1;
        let Some(end) = first_place(rest, b'\n') else {
            return Err(GainsFault {
                line: number,
                kind: GainsFaultKind::Cut,
            });
        };
        let (changed, at) = match read_line(alloc, planned, last, &rest[..end]) {
            Ok(state) => state,
            Err(kind) => return Err(GainsFault { line: number, kind }),
        };
        planned = changed;
        last = at;
        rest = &rest[end + 1..];
    }
    Ok(planned)
}

/// Returns what a line leads to: a schedule, and the time of its last change.
fn read_line(
    alloc: Global,
    schedule: Schedule,
    last: i64,
    line: &[u8],
) -> Result<(Schedule, i64), GainsFaultKind>
    ensures ok { IfOk result (λ state. line_said (schedule, last) line.now ≡ Ok state) }
    ensures first { IfOk result (λ state. state.0.first ≡ schedule.first) }
    ensures fault { IfErr result (λ e. (e ≡ kind.Memory) ⊎ (line_said (schedule, last) line.now ≡ Err e)) }
{
    if line.is_empty() || line[0] == b'#' {
        return Ok((schedule, last));
    }
    let (at, matrix) = match read_change(alloc, &schedule, line) {
        Ok(change) => change,
        Err(kind) => return Err(kind),
    };
    if at < last {
        return Err(GainsFaultKind::Order);
    }
    match schedule_with_change(schedule, at, matrix) {
        Ok(changed) => Ok((changed, at)),
        Err(kind) => Err(kind),
    }
}
