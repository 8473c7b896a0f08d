//! The text that lists a capture's flows.
use crate::flow::{Flow, Lengths, Steps};
use crate::packet::FlowKey;
use crate::packet_format::channels_that_fit;
use crate::pair_times::MAX_DELAYS;
use crate::skew::Skew;
use crate::stream_list::StreamList;
use crate::streams::{FlowPath, StreamFlows};
use crate::table::FlowTable;
use rtp_stream::Path;
use rtp_wire::Enc;
use std::alloc::{AllocError, Global};
use std::net::Ipv4Addr;

/// The encodings of a stream's samples.
const ENCODINGS: [Enc; 2] = [Enc::L16, Enc::L24];

/// Returns a line for each path of a capture's streams, stream by stream. A stream of several paths has a line for the
/// skew of each further path behind these. The other flows are counted in a line, or, if `lists_all` is true, have a
/// line each. Returns `AllocError` if an allocation fails.
pub fn table_text(
    alloc: Global,
    table: &FlowTable,
    list: &StreamList,
    lists_all: bool,
) -> Result<String, AllocError> {
    let mut text = String::new(alloc);
    push_streams(
        &mut text,
        table,
        list.streams.as_slice(),
        list.skews.as_slice(),
    )?;
    if lists_all {
        push_others(&mut text, table, list.paths.as_slice())?;
    } else {
        push_other_count(&mut text, table, list.streams.as_slice())?;
    }
    push_rest(&mut text, table)?;
    Ok(text)
}

/// Appends the lines of each stream; `skews` has those of all streams in their order.
fn push_streams(
    text: &mut String,
    table: &FlowTable,
    streams: &[StreamFlows],
    skews: &[Option<Skew>],
) -> Result<(), AllocError> {
    let mut place = 0usize;
    for (number, stream) in streams.iter().enumerate() {
        push_flows(text, table, number, stream)?;
        let further = stream.places().len().saturating_sub(1);
        let next = place.saturating_add(further);
        push_skews(text, number, skews.get(place..next).unwrap_or(&[]))?;
        place = next;
    }
    Ok(())
}

/// Appends a line for each flow of a stream that is not listed.
fn push_others(text: &mut String, table: &FlowTable, paths: &[FlowPath]) -> Result<(), AllocError> {
    for path in paths.iter() {
        if !StreamFlows::new(paths, path.first).is_shown(table) {
            push_other(text, table, path.place)?;
        }
    }
    Ok(())
}

/// Appends the line of the flow at a place, which is no path of a stream that is listed.
fn push_other(text: &mut String, table: &FlowTable, place: usize) -> Result<(), AllocError> {
    let Some((key, flow)) = table.flow(place) else {
        return Ok(());
    };
    text.push_str("flow: ")?;
    push_flow(text, &key, flow)
}

/// Appends the number of flows of streams that are not listed, if there are any.
fn push_other_count(
    text: &mut String,
    table: &FlowTable,
    streams: &[StreamFlows],
) -> Result<(), AllocError> {
    let mut others = table.flows().len();
    for stream in streams.iter() {
        others = others.saturating_sub(stream.places().len());
    }
    if others > 0 {
        writeln!(
            text,
            "flows that are not shown to be RTP streams: {others}; --all lists them"
        )?;
    }
    Ok(())
}

/// Returns the name of the path with a number.
fn path_name(number: usize) -> &'static str {
    match u8::try_from(number).ok().and_then(Path::new) {
        Some(path) => path.letter(),
        // Never: a stream has at most four paths.
        None => "",
    }
}

/// Appends the line of each path.
fn push_flows(
    text: &mut String,
    table: &FlowTable,
    number: usize,
    stream: &StreamFlows,
) -> Result<(), AllocError> {
    // A loop over one slice: joined iterators with a `?` inside take several times as long to prove.
    for (path, place) in stream.places().iter().enumerate() {
        push_path(text, table, number, path, *place)?;
    }
    Ok(())
}

/// Appends the line of a path, whose flow is at a place of the table.
fn push_path(
    text: &mut String,
    table: &FlowTable,
    number: usize,
    path: usize,
    place: usize,
) -> Result<(), AllocError> {
    let Some((key, flow)) = table.flow(place) else {
        return Ok(());
    };
    let name = path_name(path);
    write!(text, "stream {number} path {name}: ")?;
    push_flow(text, &key, flow)
}

/// Appends a flow's addresses, counts and format.
fn push_flow(text: &mut String, key: &FlowKey, flow: &Flow) -> Result<(), AllocError> {
    push_ends(text, key)?;
    let (packets, lost, repeated) = (flow.packets(), flow.lost(), flow.numbers().repeated());
    write!(
        text,
        "packets {packets}, lost {lost}, repeated {repeated}, payload "
    )?;
    push_lengths(text, flow.lengths())?;
    push_steps(text, flow.lengths(), flow.steps())
}

/// Appends a flow's addresses, source (SSRC) and payload type.
fn push_ends(text: &mut String, key: &FlowKey) -> Result<(), AllocError> {
    let (from, to) = (Ipv4Addr::from_bits(key.from), Ipv4Addr::from_bits(key.to));
    let (from_port, to_port, ssrc, pt) = (key.from_port, key.to_port, key.ssrc, key.pt);
    write!(
        text,
        "{from}:{from_port} to {to}:{to_port}, source {ssrc}, type {pt}, "
    )
}

/// Appends payload lengths.
fn push_lengths(text: &mut String, lengths: Lengths) -> Result<(), AllocError> {
    let (least, greatest) = (lengths.least, lengths.greatest);
    if least == greatest {
        write!(text, "{least} octets, ")
    } else {
        write!(text, "{least} to {greatest} octets, ")
    }
}

/// Appends timestamp steps, and the encodings that fit them and the payload lengths.
fn push_steps(text: &mut String, lengths: Lengths, steps: Steps) -> Result<(), AllocError> {
    match steps.first {
        None => text.push_str("step unknown\n"),
        Some(_) if steps.varies => text.push_str("steps vary\n"),
        Some(step) if lengths.least != lengths.greatest => {
            push_step(text, step)?;
            text.push_str("\n")
        }
        Some(step) => push_fits(text, lengths.least, step),
    }
}

/// Appends a timestamp step with its sign: a step of 2^31 or more goes back.
fn push_step(text: &mut String, step: u32) -> Result<(), AllocError> {
    let (sign, size) = if step < 0x8000_0000 {
        ("", step)
    } else {
        ("-", 0u32.wrapping_sub(step))
    };
    write!(text, "step {sign}{size}")
}

/// Appends a step, the encodings and channels that fit it, and the packet time.
fn push_fits(text: &mut String, len: usize, step: u32) -> Result<(), AllocError> {
    push_step(text, step)?;
    text.push_str(": ")?;
    if !push_encodings(text, len, step)? {
        return text.push_str("no L16 or L24\n");
    }
    // A sampling instant at 48 kHz is 125/6 microseconds.
    let micros = u64::from(step) * 125 / 6;
    let (ms, us) = (micros / 1000, micros % 1000);
    writeln!(text, ", packets of {ms}.{us:03} ms at 48 kHz")
}

/// Appends the encodings and channels that fit. Returns true if any do.
fn push_encodings(text: &mut String, len: usize, step: u32) -> Result<bool, AllocError> {
    let mut before = "";
    for enc in ENCODINGS {
        if let Some(fit) = channels_that_fit(len, step, enc.octets()) {
            let (name, channels) = (enc.name(), fit.channels);
            write!(text, "{before}{name}, channels {channels}")?;
            before = " or ";
        }
    }
    Ok(!before.is_empty())
}

/// Appends a line for the skew of each further path.
fn push_skews(text: &mut String, number: usize, skews: &[Option<Skew>]) -> Result<(), AllocError> {
    for (path, skew) in skews.iter().enumerate() {
        push_behind(text, number, path, skew)?;
    }
    Ok(())
}

/// Appends the line of a further path's skew, if it has one.
fn push_behind(
    text: &mut String,
    number: usize,
    path: usize,
    skew: &Option<Skew>,
) -> Result<(), AllocError> {
    let Some(skew) = skew else {
        return Ok(());
    };
    // The skews are those of the paths after the first.
    let name = path_name(path.saturating_add(1));
    write!(text, "stream {number} path {name} behind a: ")?;
    push_skew(text, skew)
}

/// Appends a path's skew. Of a capture with more packets than delays are kept it says so.
fn push_skew(text: &mut String, skew: &Skew) -> Result<(), AllocError> {
    push_time(text, "least", skew.least)?;
    push_time(text, ", median", skew.median)?;
    push_time(text, ", greatest", skew.greatest)?;
    if skew.is_part {
        write!(text, "; median of the first {MAX_DELAYS}")?;
    }
    text.push_str("\n")
}

/// Appends nanoseconds as milliseconds with three places, rounded towards zero, behind a name.
fn push_time(text: &mut String, name: &str, nanoseconds: i64) -> Result<(), AllocError> {
    let micros = nanoseconds.unsigned_abs() / 1000;
    // A time that is shown as 0 has no sign.
    let sign = if nanoseconds < 0 && micros > 0 {
        "-"
    } else {
        ""
    };
    let (ms, us) = (micros / 1000, micros % 1000);
    write!(text, "{name} {sign}{ms}.{us:03} ms")
}

/// Appends the numbers of packets that are in no flow's line.
fn push_rest(text: &mut String, table: &FlowTable) -> Result<(), AllocError> {
    let (untracked, not_rtp) = (table.untracked(), table.not_rtp());
    if untracked > 0 {
        writeln!(text, "packets of flows beyond the first 256: {untracked}")?;
    }
    if not_rtp > 0 {
        writeln!(
            text,
            "UDP packets that are cut, in fragments or no RTP: {not_rtp}"
        )?;
    }
    Ok(())
}
