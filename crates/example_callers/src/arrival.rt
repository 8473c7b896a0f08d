//! A datagram that arrived, with all that a receiver knows of it.

use path_merge::Path;

/// A datagram, with the path that it arrived on and the receiver's clock reading at its arrival, in
/// sampling instants.
#[derive(Clone, Copy, Debug)]
pub struct Arrival<'a> {
    pub time: i64,
    pub path: Path,
    pub datagram: &'a [u8],
}
