//! The summary of a configuration: lines for its streams and their paths, the output and its copies, and the gains.
ghost use Rattle.std.specs.Prelude.{◌≡◌, ◌*◌};
ghost use Rattle.file_commands.specs.Warning as spec;

use crate::explanation::table_at;
use crate::levels::write_level;
use crate::shared_place::shared_place;
use gain_mix::Matrix;
use mix_packets::OutSpec;
use rtp_stream::{Path, StreamClock, StreamSpec};
use rtp_wire::Enc;
use std::io;
use std::io::Write;
use std::net::Ipv4Addr;
use studio_config::{ConfigTable, Networks, OutputAddresses, OutputClock, Ports, StudioSpec};
use studio_run::millis;
use toml::Table;

/// How much earlier than its first packet a sender in software may settle, in sampling instants: 70 ms.
const SETTLING: u64 = 3_360;

/// Writes a line for each stream and each of its paths, for the output and each of its copies, and the gains with the
/// times from which they are in force. The names of streams are those of the configuration's table. Returns the
/// writer's error if a write fails.
pub(crate) fn write_summary<W: Write>(
    studio: &StudioSpec,
    table: &Table,
    output: &mut W,
) -> io::Result<()> {
    for (number, stream) in studio.streams().iter().enumerate() {
        write_head(number, name_of(table, number), output)?;
        write_stream(stream, output)?;
        write_paths(studio, number, stream, output)?;
    }
    write_output(studio.output(), studio.output_clock(), output)?;
    write_copies(studio.ports(), &studio.networks().output, output)?;
    write_late(studio.late(), output)?;
    writeln!(output, "gains from the start")?;
    write_gains(studio.schedule().first(), output)?;
    for (time, gains) in studio.schedule().later() {
        writeln!(output, "gains from {time}")?;
        write_gains(gains, output)?;
    }
    Ok(())
}

/// Returns the name of the stream of a number, if the configuration has one that is not empty.
fn name_of(table: &Table, number: usize) -> Option<&str> {
    let stream = table_at(table, ConfigTable::Stream(number))?;
    let name = stream.get("name")?.as_str()?;
    if name.is_empty() { None } else { Some(name) }
}

/// Writes the number of a stream, and its name if it has one. A control character is written as `?`.
fn write_head<W: Write>(number: usize, name: Option<&str>, output: &mut W) -> io::Result<()> {
    write!(output, "stream {number}")?;
    if let Some(name) = name {
        write!(output, " \"")?;
        for character in name.chars() {
            let shown = if character.is_control() {
                '?'
            } else {
                character
            };
            write!(output, "{shown}")?;
        }
        write!(output, "\"")?;
    }
    write!(output, ": ")
}

/// Writes sampling instants at 48 kHz as milliseconds.
fn write_time<W: Write>(instants: u64, output: &mut W) -> io::Result<()> {
    let (ms, us) = millis(instants);
    write!(output, "{ms}.{us:03} ms")
}

/// Writes sampling instants at 48 kHz as milliseconds, in parentheses.
fn write_millis<W: Write>(instants: u64, output: &mut W) -> io::Result<()> {
    write!(output, "(")?;
    write_time(instants, output)?;
    write!(output, ")")
}

/// Writes the encoding and the channels of packets, and their length in sampling instants and in milliseconds.
// Lines are written in several short formats: one format of many values takes long to prove.
fn write_packets<W: Write>(enc: Enc, channels: u8, frames: u16, output: &mut W) -> io::Result<()> {
    let name = enc.name();
    write!(output, "{name}, channels {channels}, packets of {frames} ")?;
    write_millis(u64::from(frames), output)
}

/// Writes the line of a stream behind its number and name, and a warning and advice on its window.
fn write_stream<W: Write>(stream: &StreamSpec, output: &mut W) -> io::Result<()> {
    write_packets(stream.enc(), stream.channels(), stream.frames(), output)?;
    let pt = stream.pt();
    write!(output, ", type {pt}")?;
    write_source(stream.ssrc(), output)?;
    write_clock(stream.clock(), output)?;
    write_wait(stream, output)?;
    write_warning(stream, output)?;
    write_early_advice(stream, output)
}

/// Writes a warning if the window of a stream is too short for its clock.
fn write_warning<W: Write>(stream: &StreamSpec, output: &mut W) -> io::Result<()> {
    if !is_window_short(stream) {
        return Ok(());
    }
    write!(output, "  warning: the window ")?;
    write_millis(span_of(stream), output)?;
    write!(output, " spans less than twice the latency ")?;
    write_millis(2 * u64::from(stream.latency()), output)?;
    writeln!(
        output,
        ": packets of a burst may come too early and be lost; raise window"
    )
}

/// Returns true if the clock of a stream follows its sender, and the window spans less than twice the latency.
// The latency, two packets and the sender's greatest burst have to fit into the window.
fn is_window_short(stream: &StreamSpec) -> bool
    ensures { result ≡ spec.is_window_short stream.now }
{
    let window = u64::from(stream.window()) * u64::from(stream.frames());
    match stream.clock() {
        StreamClock::Follow => window < 2 * u64::from(stream.latency()),
        StreamClock::Media { .. } | StreamClock::Arrival => false,
    }
}

/// Returns what the window of a stream spans, in sampling instants.
fn span_of(stream: &StreamSpec) -> u64
    ensures { result ≡ stream.now.window * stream.now.frames }
{
    u64::from(stream.window()) * u64::from(stream.frames())
}

/// Returns how early a packet of a stream may come, in sampling instants: what its window spans beyond the latency.
fn earliness_of(stream: &StreamSpec) -> u64
    ensures { result ≡ spec.earliness_of stream.now }
{
    span_of(stream).saturating_sub(u64::from(stream.latency()))
}

/// Writes advice if a sender in software may come too early for the window of a stream.
fn write_early_advice<W: Write>(stream: &StreamSpec, output: &mut W) -> io::Result<()> {
    if !is_close_to_first(stream) {
        return Ok(());
    }
    write!(
        output,
        "  advice: a sender in software, such as FFmpeg, may settle up to 70 ms earlier than its first packet; "
    )?;
    writeln!(output, "raise window")
}

/// Returns true if the media times of a stream follow from when its first packet arrived, and a later packet may come
/// by less than 70 ms earlier than that one.
fn is_close_to_first(stream: &StreamSpec) -> bool
    ensures { result ≡ spec.is_close_to_first stream.now }
{
    match stream.clock() {
        StreamClock::Follow | StreamClock::Arrival => earliness_of(stream) < SETTLING,
        StreamClock::Media { .. } => false,
    }
}

/// Writes the source (SSRC) that a stream's packets must have, or that it takes any source.
fn write_source<W: Write>(ssrc: Option<u32>, output: &mut W) -> io::Result<()> {
    match ssrc {
        Some(ssrc) => write!(output, ", source {ssrc}"),
        None => write!(output, ", any source"),
    }
}

/// Writes the clock by which media times are counted.
fn write_clock<W: Write>(clock: StreamClock, output: &mut W) -> io::Result<()> {
    match clock {
        StreamClock::Media { offset } => write!(output, ", media clock, offset {offset}"),
        StreamClock::Arrival => write!(output, ", arrival clock"),
        StreamClock::Follow => write!(output, ", arrival clock that follows its sender"),
    }
}

/// Writes how long a stream waits for packets, how many it may hold, and how early and late a packet may come.
fn write_wait<W: Write>(stream: &StreamSpec, output: &mut W) -> io::Result<()> {
    let (latency, window) = (stream.latency(), stream.window());
    write!(output, ", latency {latency} ")?;
    write_millis(u64::from(latency), output)?;
    write!(output, ", window of {window} packets ")?;
    write_millis(span_of(stream), output)?;
    write!(output, ", packets may come ")?;
    write_time(earliness_of(stream), output)?;
    write!(output, " early and ")?;
    write_time(u64::from(latency), output)?;
    writeln!(output, " late")
}

/// Writes a line for each path of a stream: its port, and its addresses if the configuration has them. Below it is a
/// warning, if it collides with an earlier path, and advice, if the path takes packets of any sender.
fn write_paths<W: Write>(
    studio: &StudioSpec,
    number: usize,
    stream: &StreamSpec,
    output: &mut W,
) -> io::Result<()> {
    for place in 0..stream.paths() {
        // Never none: a stream has at most four paths.
        let Some(path) = Path::new(place) else {
            return Ok(());
        };
        write_path_of(number, path, studio.ports(), studio.networks(), output)?;
        write_shared_place(studio, number, path, output)?;
        if takes_any_sender(stream, studio.networks(), number, path) {
            write_advice(path.letter(), output)?;
        }
    }
    Ok(())
}

/// Writes the line of a path of a stream.
fn write_path_of<W: Write>(
    number: usize,
    path: Path,
    ports: &Ports,
    networks: &Networks,
    output: &mut W,
) -> io::Result<()> {
    let at = networks.address(number, path);
    let from = networks.source(number, path);
    write_path(path.letter(), ports.port(number, path), at, from, output)
}

/// Writes a warning if a path collides with an earlier one.
fn write_shared_place<W: Write>(
    studio: &StudioSpec,
    number: usize,
    path: Path,
    output: &mut W,
) -> io::Result<()> {
    let Some(other) = shared_place(studio, number, path) else {
        return Ok(());
    };
    let (name, stream, letter) = (path.letter(), other.stream, other.path.letter());
    write!(output, "  warning: path {name} is at the address and port ")?;
    write!(
        output,
        "of stream {stream} path {letter}, which live refuses; "
    )?;
    if other.is_group {
        writeln!(
            output,
            "give each its own source, or its own interface by darbexum-join"
        )
    } else {
        writeln!(output, "change port_{name}")
    }
}

/// Returns true if a path takes packets of any sender: neither the source (SSRC) of its stream nor its own source
/// address is set.
fn takes_any_sender(stream: &StreamSpec, networks: &Networks, number: usize, path: Path) -> bool
    ensures { result ≡ spec.takes_any_sender stream.now networks.now number path }
{
    stream.ssrc().is_none() && networks.source(number, path).is_none()
}

/// Writes the advice on a path that takes packets of any sender.
fn write_advice<W: Write>(name: &str, output: &mut W) -> io::Result<()> {
    write!(
        output,
        "  advice: path {name} takes packets of any sender: whoever can send to it can be heard; "
    )?;
    writeln!(output, "set source_{name} or ssrc")
}

/// Writes a path's port, and, if the configuration has them, the address to which its packets come and the source
/// address that they must have. Of a group it says who has to join it: `live` does not.
fn write_path<W: Write>(
    name: &str,
    port: Option<u16>,
    at: Option<Ipv4Addr>,
    from: Option<Ipv4Addr>,
    output: &mut W,
) -> io::Result<()> {
    match port {
        Some(port) => write!(output, "  path {name}: port {port}")?,
        None => write!(output, "  path {name}: no port")?,
    }
    write_address(" at", at, output)?;
    write_address(", from", from, output)?;
    match at {
        Some(at) if at.is_multicast() => {
            write!(output, ", to be joined by darbexum-join or the system")?
        }
        _ => {}
    }
    writeln!(output)
}

/// Writes the line of the output. With the media clock its first packet is that of the configuration's opening.
fn write_output<W: Write>(spec: &OutSpec, clock: OutputClock, output: &mut W) -> io::Result<()> {
    write!(output, "output: ")?;
    write_packets(spec.enc(), spec.channels(), spec.frames(), output)?;
    let (pt, ssrc) = (spec.pt(), spec.ssrc());
    write!(output, ", type {pt}, source {ssrc}, ")?;
    let (seq, start) = (spec.seq0(), spec.start());
    write!(output, "first number {seq}, from {start}")?;
    match clock {
        OutputClock::Run => writeln!(output),
        OutputClock::Media => writeln!(output, ", counted by the media clock"),
    }
}

/// Writes how long the copies wait in which streams are missing, if they do.
fn write_late<W: Write>(late: u16, output: &mut W) -> io::Result<()> {
    if late == 0 {
        return Ok(());
    }
    write!(output, "  copies wait {late} ")?;
    write_millis(u64::from(late), output)?;
    write!(output, " longer in which one stream is missing, and ")?;
    write_time(2 * u64::from(late), output)?;
    writeln!(output, " longer in which more are")
}

/// Writes a line for each copy of the output that has a port.
fn write_copies<W: Write>(
    ports: &Ports,
    senders: &OutputAddresses,
    output: &mut W,
) -> io::Result<()> {
    let ttl = senders.ttl;
    write_copy("a", ports.to_a, senders.to_a, senders.from_a, ttl, output)?;
    write_copy("b", ports.to_b, senders.to_b, senders.from_b, ttl, output)
}

/// Writes the line of a copy of the output, if it has a port: the port, its addresses and the time to live, if the
/// configuration has them.
fn write_copy<W: Write>(
    name: &str,
    port: Option<u16>,
    to: Option<Ipv4Addr>,
    from: Option<Ipv4Addr>,
    ttl: Option<u8>,
    output: &mut W,
) -> io::Result<()> {
    let Some(port) = port else {
        return Ok(());
    };
    write!(output, "  to {name}: port {port}")?;
    write_address(" at", to, output)?;
    write_address(", from", from, output)?;
    if let Some(ttl) = ttl {
        write!(output, ", time to live {ttl}")?;
    }
    writeln!(output)
}

/// Writes a word and an address, or nothing if there is no address.
fn write_address<W: Write>(
    word: &str,
    address: Option<Ipv4Addr>,
    output: &mut W,
) -> io::Result<()> {
    match address {
        Some(address) => write!(output, "{word} {address}"),
        None => Ok(()),
    }
}

/// Writes a line for each output channel, with a gain for each input channel: in units of 1/65,536, and then as levels.
fn write_gains<W: Write>(matrix: &Matrix, output: &mut W) -> io::Result<()> {
    // A matrix has at least one input. `max` shows that no row is empty.
    for row in matrix.gains().chunks(matrix.ins().max(1)) {
        write!(output, " ")?;
        for gain in row.iter() {
            write!(output, " {gain}")?;
        }
        write_levels(row, output)?;
    }
    Ok(())
}

/// Writes the levels of a row of gains, in parentheses, and ends its line.
fn write_levels<W: Write>(row: &[i32], output: &mut W) -> io::Result<()> {
    for (place, gain) in row.iter().enumerate() {
        let space = if place == 0 { " (" } else { ", " };
        write!(output, "{space}")?;
        write_level(*gain, output)?;
    }
    writeln!(output, ")")
}
