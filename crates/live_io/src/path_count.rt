//! The number of a studio's paths.
ghost use Rattle.std.specs.Prelude.{◌≡◌, ◌≤◌, length};
ghost use Rattle.live_io.specs.Paths.{path_total};

use rtp_stream::StreamSpec;

/// Returns the number of paths that the streams have.
pub(crate) fn path_count(streams: &[StreamSpec]) -> u32
    requires few { length streams.now ≤ 16 }
    ensures { result ≡ path_total streams.now }
{
    let mut count = 0;
    for number in 0..streams.len() {
        count += u32::from(streams[number].paths());
    }
    count
}
