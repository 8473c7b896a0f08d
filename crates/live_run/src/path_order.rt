//! The order of all paths of a studio: by stream, and then by path.
ghost use Rattle.std.specs.Prelude.{◌≡◌, ◌≤◌};
ghost use Rattle.live_run.specs.PathPlace.{first_place, path_place};

use rtp_stream::Path;
use studio_config::StudioSpec;

/// Returns the place of a path of the stream of this number.
// The order of the record's interfaces, of the sockets and of their health.
pub(crate) fn path_place(studio: &StudioSpec, stream: usize, path: Path) -> u32
    ensures { result ≡ path_place studio.now.streams stream path }
{
    first_place(studio, stream) + u32::from(path.number())
}

/// Returns the place of the first path of the stream of this number.
fn first_place(studio: &StudioSpec, stream: usize) -> u32
    ensures value { result ≡ first_place studio.now.streams stream }
    ensures few { result ≤ 64 }
{
    let streams = studio.streams();
    let mut place = 0;
    for number in 0..stream.min(streams.len()) {
        place += u32::from(streams[number].paths());
    }
    place
}
