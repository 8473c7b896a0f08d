//! The whole of a configuration: the top keys, then each stream's table, then the output's.
ghost use Rattle.std.specs.Prelude.{◌≡◌, ◌≤◌, ◌*◌, ◌⊎◌, true, None, Some, OnOk, IfOk, IfErr, map, length};
ghost use Rattle.std.specs.List.{list_all};
ghost use Rattle.toml.specs.View.{view, table_view};
ghost use Rattle.studio_config.specs.Ports.{absent_rows};
ghost use Rattle.studio_config.specs.Studio.{channel_total};
ghost use Rattle.studio_config.specs.Values.{members_in, is_table};
ghost use Rattle.studio_config.specs.StreamTable.{stream_of, stream_fault};
ghost use Rattle.studio_config.specs.OutputTable.{each_fault};
ghost use Rattle.studio_config.specs.Config.{
  port_table,
  bind_table,
  sender_table,
  studio_of,
  config_fault_of,
  no_memory,
};
ghost use Rattle.studio_config.specs.declared.config.fault.ConfigTable.TheVariants as at;

use crate::config::fault::{ConfigTable, SpecError};
use crate::config::integers::whole;
use crate::config::keys::Key;
use crate::config::output::read_output;
use crate::config::stream::read_stream;
use crate::config::tables::{few_tables, table_in, table_of};
use crate::config::unknown_keys::check_known;
use crate::networks::Networks;
use crate::ports::Ports;
use crate::studio::StudioSpec;
use rtp_stream::{MAX_TIME, StreamSpec};
use std::alloc::Global;
use toml::{Table, Value};

/// The keys of the whole document.
const KEYS: [Key; 3] = [Key::OpenAt, Key::Stream, Key::Output];

impl StudioSpec {
    /// Returns the studio that a configuration describes, or its first fault.
    ///
    /// Tables are tested in the order top, stream by stream, output. In a table each key is tested for its presence,
    /// its type and its range, in the order of docs/CONFIGURATION.md. An allocation failure is `SpecErrorKind::Memory`.
    pub fn from_table(alloc: Global, table: &Table) -> Result<StudioSpec, SpecError>
        ensures ok { OnOk result (config_fault_of (table_view table.now) ≡ None) }
        ensures studio { IfOk result (λ s. s ≡ studio_of (table_view table.now)) }
        ensures fault { IfErr result (λ e. (e ≡ no_memory) ⊎ (config_fault_of (table_view table.now) ≡ Some e)) }
    {
        let place = ConfigTable::Top;
        // A merge takes no later clock reading, so no later opening.
        let open_at = whole(table, place, Key::OpenAt, 0, MAX_TIME as u64)? as i64;
        // All of the top table is tested before a stream is read, since its faults come first.
        let tables = few_tables(table, place, Key::Stream, 1, 16)?;
        let output_table = table_in(table, place, Key::Output)?;
        check_known(table, place, &KEYS)?;
        let mut ports = Ports::absent();
        let mut networks = Networks::absent();
        let streams = read_streams(alloc, tables, &mut ports, &mut networks)?;
        let ins = channel_total(&streams);
        let output = read_output(alloc, output_table, ins)?;
        ports.to_a = output.addresses.to_a;
        ports.to_b = output.addresses.to_b;
        networks.output = output.senders;
        let studio = StudioSpec::new(open_at, streams, output.spec, output.schedule);
        // This fault comes last, since it is one of the whole.
        studio
            .with_ports(ports)
            .with_networks(networks)
            .with_late(output.timing.late)
            .by_clock(output.timing.clock)
    }
}

/// Reads the tables of streams, and enters the ports and addresses of their paths in `ports` and `networks`.
fn read_streams(
    alloc: Global,
    tables: &[Value],
    ports: &mut Ports,
    networks: &mut Networks,
) -> Result<Vec<StreamSpec>, SpecError>
    requires tables { list_all (λ t. is_table (view t)) tables.now ≡ true }
    requires few { length tables.now ≤ 16 }
    requires absent { ports.old.paths ≡ absent_rows 16 }
    requires unbound { networks.old.paths ≡ absent_rows 16 }
    requires unsent { networks.old.sources ≡ absent_rows 16 }
    ensures ok { OnOk result (each_fault (λ n. stream_fault (at.Stream n)) 0
        (map (λ t. members_in (view t)) tables.now) ≡ None) }
    ensures streams { IfOk result (λ s. s.items ≡ map stream_of (map (λ t. members_in (view t)) tables.now)) }
    ensures ports { OnOk result (ports.new.paths ≡ port_table (map (λ t. members_in (view t)) tables.now)) }
    ensures receive_at { OnOk result (networks.new.paths ≡ bind_table (map (λ t. members_in (view t)) tables.now)) }
    ensures sources { OnOk result (networks.new.sources ≡ sender_table (map (λ t. members_in (view t)) tables.now)) }
    ensures fault { IfErr result (λ e. (e ≡ no_memory)
        ⊎ (each_fault (λ n. stream_fault (at.Stream n)) 0 (map (λ t. members_in (view t)) tables.now) ≡ Some e)) }
{
    let mut streams = Vec::new(alloc);
    for (number, stream) in tables.iter().enumerate() {
        let entry = read_stream(table_of(stream), ConfigTable::Stream(number))?;
        streams.push(entry.spec)?;
        ports.set_path_ports(number, entry.ports);
        networks.set_path_addresses(number, entry.addresses);
    }
    Ok(streams)
}

/// Returns the number of channels that streams have together, which is the number of inputs of a studio's gains.
pub fn channel_total(streams: &[StreamSpec]) -> usize
    requires few { length streams.now ≤ 16 }
    ensures total { result ≡ channel_total streams.now }
    ensures some { length streams.now ≤ result }
    ensures few { result ≤ 64 * length streams.now }
{
    let mut total = 0;
    for stream in streams {
        total += usize::from(stream.channels());
    }
    total
}
