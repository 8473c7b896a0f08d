//! The UDP ports of a studio's paths, and of its output's two copies.
ghost use Rattle.std.specs.Prelude.{◌≡◌, ◌<◌, None, length, slice_set};
ghost use Rattle.studio_config.specs.Ports.{absent_rows, port_at};

use rtp_stream::Path;

/// The known UDP ports of a studio: each stream's, path by path, and the output's.
///
/// A studio has at most 16 streams, and a stream at most 4 paths; a port that isn't known is `None`.
#[derive(Clone, Copy, Debug, PartialEq, Eq)]
pub struct Ports {
    /// The port that each path of each stream is received at.
    pub paths: [[Option<u16>; 4]; 16],
    /// The port that the output's first copy is sent to.
    pub to_a: Option<u16>,
    /// The port that the output's second copy is sent to.
    pub to_b: Option<u16>,
}

impl Ports {
    /// Returns ports that are all unknown.
    pub fn absent() -> Ports
        ensures paths { result.paths ≡ absent_rows 16 }
        ensures to_a { result.to_a ≡ None }
        ensures to_b { result.to_b ≡ None }
    {
        Ports {
            paths: [[None; 4]; 16],
            to_a: None,
            to_b: None,
        }
    }

    /// Enters the ports of a stream's paths.
    pub(crate) fn set_path_ports(&mut self, stream: usize, row: [Option<u16>; 4])
        requires { stream < length self.old.paths }
        ensures { self.new.paths ≡ slice_set self.old.paths stream row }
    {
        self.paths[stream] = row;
    }

    /// Returns the port that a path of a stream is received at, or `None` if it isn't known.
    pub fn port(&self, stream: usize, path: Path) -> Option<u16>
        ensures { result ≡ port_at self.now.paths stream path }
    {
        match self.paths.get(stream) {
            Some(row) => row[usize::from(path.number())],
            None => None,
        }
    }
}
