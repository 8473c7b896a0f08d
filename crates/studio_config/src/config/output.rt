//! The table of the output.
ghost use Rattle.std.specs.Prelude.{◌≡◌, ◌≤◌, ◌⊎◌, None, Some, OnOk, IfOk, IfErr, length, option_map, pos};
ghost use Rattle.toml.specs.View.{table_view};
ghost use Rattle.gain_mix.specs.Gain.{ins_of};
ghost use Rattle.mix_packets.specs.OutSpec.{out_fault_of};
ghost use Rattle.studio_config.specs.Values.{number_at, number_or, output_clock_at};
ghost use Rattle.studio_config.specs.Rows.{at_table, rows_fault};
ghost use Rattle.studio_config.specs.NetworkTable.{senders_of};
ghost use Rattle.studio_config.specs.OutputTable.{number_rows, address_rows, timing_rows, output_of, schedule_of, output_fault};
ghost use Rattle.studio_config.specs.Config.{no_memory};
ghost use Rattle.studio_config.specs.declared.config.keys.Key.TheVariants as key;
ghost use Rattle.studio_config.specs.declared.config.fault.ConfigTable.TheVariants as at;
ghost use Rattle.studio_config.specs.declared.config.fault.SpecErrorKind.TheVariants as kind;

use crate::config::enums::output_clock;
use crate::config::fault::{ConfigTable, SpecError, SpecErrorKind};
use crate::config::gain_rows::check_gains;
use crate::config::integers::{port, whole, whole_or};
use crate::config::keys::Key;
use crate::config::network_keys::read_senders;
use crate::config::packet_format::read_packets;
use crate::config::schedule::{check_changes, read_schedule};
use crate::config::tables::optional_tables;
use crate::config::unknown_keys::check_known;
use crate::networks::OutputAddresses;
use crate::output_clock::OutputClock;
use gain_mix::Schedule;
use mix_packets::{OutSpec, Output};
use rtp_stream::MAX_TIME;
use std::alloc::Global;
use toml::Table;

/// The SSRC of the output's packets, the sequence number and media time of the first one, and the timestamp offset.
#[derive(Clone, Copy)]
struct OutputNumbers {
    ssrc: u32,
    seq: u16,
    start: i64,
    offset: u32,
}

/// The UDP ports that the two copies of each packet are sent to.
#[derive(Clone, Copy)]
pub(crate) struct Addresses {
    pub to_a: Option<u16>,
    pub to_b: Option<u16>,
}

/// The clock of the output, and the delay of the copies in which streams are missing, in sampling instants.
#[derive(Clone, Copy)]
pub(crate) struct Timing {
    pub clock: OutputClock,
    pub late: u16,
}

/// The contents of the output's table: the output, its gains and their changes, the ports and addresses of its two
/// copies, and when they are sent.
#[derive(Drop)]
pub(crate) struct OutputEntry {
    pub spec: OutSpec,
    pub schedule: Schedule,
    pub addresses: Addresses,
    pub senders: OutputAddresses,
    pub timing: Timing,
}

/// The keys of the output's table.
const KEYS: [Key; 19] = [
    Key::Encoding,
    Key::Channels,
    Key::Frames,
    Key::Pt,
    Key::Ssrc,
    Key::Seq,
    Key::Start,
    Key::Offset,
    Key::Gains,
    Key::Change,
    Key::ToA,
    Key::ToB,
    Key::FromA,
    Key::FromB,
    Key::ToAddressA,
    Key::ToAddressB,
    Key::Ttl,
    Key::Clock,
    Key::Late,
];

/// Reads the output's table, for streams that have `ins` channels in all.
pub(crate) fn read_output(
    alloc: Global,
    table: &Table,
    ins: usize,
) -> Result<OutputEntry, SpecError>
    requires some_ins { 1 ≤ ins }
    requires few_ins { ins ≤ 1024 }
    ensures ok { OnOk result (output_fault ins (table_view table.now) ≡ None) }
    ensures output { IfOk result (λ o. o.spec ≡ output_of (table_view table.now)) }
    ensures schedule { IfOk result (λ o. o.schedule ≡ schedule_of (table_view table.now)) }
    ensures to_a { IfOk result (λ o. number_at (table_view table.now) key.ToA ≡ o.addresses.to_a) }
    ensures to_b { IfOk result (λ o. number_at (table_view table.now) key.ToB ≡ o.addresses.to_b) }
    ensures senders { IfOk result (λ o. o.senders ≡ senders_of (table_view table.now)) }
    ensures clock { IfOk result (λ o. output_clock_at (table_view table.now) key.Clock ≡ o.timing.clock) }
    ensures late { IfOk result (λ o. number_or (table_view table.now) key.Late 0 ≡ o.timing.late) }
    ensures outs { IfOk result (λ o. length o.schedule.first ≡ o.spec.channels) }
    ensures ins { IfOk result (λ o. ins_of o.schedule.first ≡ ins) }
    ensures fault { IfErr result (λ e. (e ≡ no_memory) ⊎ (output_fault ins (table_view table.now) ≡ Some e)) }
{
    let place = ConfigTable::Output;
    let packets = read_packets(table, place)?;
    let numbers = read_numbers(table, place)?;
    check_gains(table, place, Key::Gains)?;
    let changes = optional_tables(table, place, Key::Change)?;
    check_changes(changes)?;
    let addresses = read_addresses(table, place)?;
    let senders = read_senders(table, place)?;
    let timing = read_timing(table, place)?;
    check_known(table, place, &KEYS)?;
    // Each key is tested, an unknown one too, before the output as a whole. The gains come last, since their shape
    // depends on the output's channels.
    let spec = check_output(Output {
        enc: packets.enc,
        channels: packets.channels,
        frames: packets.frames,
        pt: packets.pt,
        ssrc: numbers.ssrc,
        seq0: numbers.seq,
        start: numbers.start,
        offset: numbers.offset,
    })?;
    let schedule = read_schedule(alloc, table, changes, usize::from(spec.channels()), ins)?;
    Ok(OutputEntry {
        spec,
        schedule,
        addresses,
        senders,
        timing,
    })
}

/// Returns the output, or its fault at the output's table.
fn check_output(output: Output) -> Result<OutSpec, SpecError>
    ensures ok { OnOk result (out_fault_of output ≡ None) }
    ensures output { IfOk result (λ o. o ≡ output) }
    ensures fault { IfErr result (λ e. at_table at.Output (option_map kind.Output (out_fault_of output)) ≡ Some e) }
{
    match OutSpec::of(output) {
        Ok(spec) => Ok(spec),
        Err(fault) => Err(SpecError {
            place: ConfigTable::Output,
            key: None,
            kind: SpecErrorKind::Output(fault),
        }),
    }
}

/// Reads the SSRC of the output's packets, the numbers of the first one and the timestamp offset.
fn read_numbers(table: &Table, place: ConfigTable) -> Result<OutputNumbers, SpecError>
    ensures ok { OnOk result (rows_fault place (table_view table.now) number_rows ≡ None) }
    ensures ssrc { IfOk result (λ n. number_or (table_view table.now) key.Ssrc 0 ≡ n.ssrc) }
    ensures seq { IfOk result (λ n. number_or (table_view table.now) key.Seq 0 ≡ n.seq) }
    ensures start { IfOk result (λ n. pos (number_or (table_view table.now) key.Start 0) ≡ n.start) }
    ensures offset { IfOk result (λ n. number_or (table_view table.now) key.Offset 0 ≡ n.offset) }
    ensures fault { IfErr result (λ e. rows_fault place (table_view table.now) number_rows ≡ Some e) }
{
    let ssrc = whole(table, place, Key::Ssrc, 0, 4_294_967_295)? as u32;
    let seq = whole(table, place, Key::Seq, 0, 65535)? as u16;
    let start = whole(table, place, Key::Start, 0, MAX_TIME as u64)? as i64;
    let offset = whole_or(table, place, Key::Offset, 0, 4_294_967_295, 0)? as u32;
    Ok(OutputNumbers {
        ssrc,
        seq,
        start,
        offset,
    })
}

/// Reads the UDP ports that the two copies of each packet are sent to.
fn read_addresses(table: &Table, place: ConfigTable) -> Result<Addresses, SpecError>
    ensures ok { OnOk result (rows_fault place (table_view table.now) address_rows ≡ None) }
    ensures to_a { IfOk result (λ a. number_at (table_view table.now) key.ToA ≡ a.to_a) }
    ensures to_b { IfOk result (λ a. number_at (table_view table.now) key.ToB ≡ a.to_b) }
    ensures fault { IfErr result (λ e. rows_fault place (table_view table.now) address_rows ≡ Some e) }
{
    let to_a = port(table, place, Key::ToA)?;
    let to_b = port(table, place, Key::ToB)?;
    Ok(Addresses { to_a, to_b })
}

/// Reads the clock of the output, and the delay of the copies in which streams are missing.
fn read_timing(table: &Table, place: ConfigTable) -> Result<Timing, SpecError>
    ensures ok { OnOk result (rows_fault place (table_view table.now) timing_rows ≡ None) }
    ensures clock { IfOk result (λ t. output_clock_at (table_view table.now) key.Clock ≡ t.clock) }
    ensures late { IfOk result (λ t. number_or (table_view table.now) key.Late 0 ≡ t.late) }
    ensures fault { IfErr result (λ e. rows_fault place (table_view table.now) timing_rows ≡ Some e) }
{
    let clock = output_clock(table, place, Key::Clock)?;
    let late = whole_or(table, place, Key::Late, 0, 4800, 0)? as u16;
    Ok(Timing { clock, late })
}
