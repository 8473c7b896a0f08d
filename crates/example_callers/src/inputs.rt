//! Packets and configurations.

use crate::arrival::Arrival;
use anyhow::Context;
use path_merge::Path;
use std::alloc::Global;
use studio_config::StudioSpec;

/// The first packet of a stream of six sampling instants a packet: number 1, timestamp 0, source 1 and the samples 1
/// to 6.
pub(crate) const FIRST: [u8; 30] = [
    0x80, 96, 0, 1, 0, 0, 0, 0, 0, 0, 0, 1, 0, 0, 1, 0, 0, 2, 0, 0, 3, 0, 0, 4, 0, 0, 5, 0, 0, 6,
];

/// The packet after it: number 2, timestamp 6, source 1 and the samples 7 to 12.
pub(crate) const SECOND: [u8; 30] = [
    0x80, 96, 0, 2, 0, 0, 0, 6, 0, 0, 0, 1, 0, 0, 7, 0, 0, 8, 0, 0, 9, 0, 0, 10, 0, 0, 11, 0, 0, 12,
];

/// A studio of one stream: mono L24 on two paths, in packets of 6 sampling instants. Each slot is due 12 instants after
/// its media time. The output has the same samples.
pub(crate) const ONE_STREAM: &str = r#"
open_at = 0
[[stream]]
encoding = "L24"
channels = 1
frames = 6
pt = 96
clock = "media"
latency = 12
window = 8
paths = 2
[output]
encoding = "L24"
channels = 1
frames = 6
pt = 97
ssrc = 2
seq = 65535
start = 0
gains = [[65536]]
"#;

/// A studio of two streams, the second one in packets of 48 sampling instants on one path. The output is their sum, in
/// packets of 48.
pub(crate) const TWO_STREAMS: &str = r#"
open_at = 0
[[stream]]
encoding = "L24"
channels = 1
frames = 6
pt = 96
clock = "media"
latency = 12
window = 8
paths = 2
[[stream]]
encoding = "L24"
channels = 1
frames = 48
pt = 96
clock = "media"
latency = 48
window = 8
paths = 1
[output]
encoding = "L24"
channels = 1
frames = 48
pt = 97
ssrc = 2
seq = 65535
start = 0
gains = [[65536, 65536]]
"#;

/// Reads a configuration.
pub(crate) fn studio_of(alloc: Global, config: &str) -> anyhow::Result<StudioSpec> {
    let table = toml::table_from_str(alloc, config)?;
    Ok(StudioSpec::from_table(alloc, &table)?)
}

/// Returns the path of this number.
pub(crate) fn path(number: u8) -> anyhow::Result<Path> {
    Path::new(number).context("a path is 0 to 3")
}

/// Returns the arrival of a datagram on a path, at this clock reading.
pub(crate) fn arrival(time: i64, path: Path, datagram: &[u8]) -> Arrival<'_> {
    Arrival {
        time,
        path,
        datagram,
    }
}

/// Builds a packet of source 1: a header with this number and timestamp, and equal samples.
pub(crate) fn packet<const LEN: usize>(number: u8, timestamp: u8, sample: [u8; 3]) -> [u8; LEN] {
    let head = [0x80, 96, 0, number, 0, 0, 0, timestamp, 0, 0, 0, 1];
    let [high, middle, low] = sample;
    let mut octets = [low; LEN];
    for octet in octets.iter_mut().skip(12).step_by(3) {
        *octet = high;
    }
    for octet in octets.iter_mut().skip(13).step_by(3) {
        *octet = middle;
    }
    for (octet, value) in octets.iter_mut().zip(head.iter()) {
        *octet = *value;
    }
    octets
}
