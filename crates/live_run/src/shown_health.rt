//! The health of a run as its status shows it: of its sockets, its sends and its outputs.
ghost use Rattle.std.specs.Prelude.{◌≡◌, is_some};
ghost use Rattle.studio_config.specs.Networks.{path_address};
ghost use Rattle.live_status.specs.Health.{OfSocket};
ghost use Rattle.live_run.specs.PathPlace.{path_place};
ghost use Rattle.live_run.specs.ShownHealth.{IsSaidOf};

use crate::path_order::path_place;
use live_io::{RunHealth, UnexpectedSources};
use live_status::HealthSource;
use rtp_stream::Path;
use status_page::SocketState;
use studio_config::StudioSpec;
use studio_io::{OutputStates, RunProgress};

/// The health of a run as its status shows it. The threads of the run set the numbers, and any thread may read them.
#[derive(Clone, Copy)]
pub(crate) struct ShownHealth<'a> {
    pub(crate) studio: &'a StudioSpec,
    pub(crate) health: &'a RunHealth,
    pub(crate) unexpected: &'a UnexpectedSources,
    pub(crate) outputs: &'a RunProgress,
}

impl ShownHealth<'_> {
    /// Returns the state of the socket of a path, whose place among all paths is this one, or `None` if it has no
    /// socket.
    fn state_at(&self, stream: usize, path: Path, place: u32) -> Option<SocketState>
        requires { place ≡ path_place self.now.studio.now.streams stream path }
        ensures { IsSaidOf self.now.studio.now (OfSocket stream path result) }
    {
        let health = self.health.paths().get(place as usize)?;
        Some(SocketState {
            faults: health.faults(),
            has_ended: health.has_ended(),
            is_unjoined: health.is_joined() == Some(false),
            dropped: health.dropped(),
            too_long: health.too_long(),
            held_up: health.held_up(),
            unexpected: self.unexpected_at(stream, path, place),
        })
    }

    /// Returns the number of datagrams from unexpected sources of a path, whose place among all paths is this one, or
    /// `None` if the path has no source.
    fn unexpected_at(&self, stream: usize, path: Path, place: u32) -> Option<u64>
        requires { place ≡ path_place self.now.studio.now.streams stream path }
        ensures { is_some result ≡ is_some (path_address self.now.studio.now.networks.sources stream path) }
    {
        self.studio.networks().source(stream, path)?;
        Some(self.unexpected.count(place as usize))
    }
}

impl HealthSource for ShownHealth<'_> {
    ghost says = { λ shown said. IsSaidOf shown.studio.now said };

    fn socket(&self, stream: usize, path: usize) -> Option<SocketState> {
        let path = Path::new(u8::try_from(path).ok()?)?;
        self.state_at(stream, path, path_place(self.studio, stream, path))
    }

    fn failed_sends(&self) -> [u64; 2] {
        self.health.sends().failed()
    }

    fn stale(&self) -> u64 {
        self.health.mix().stale()
    }

    fn incomplete(&self) -> u64 {
        self.health.mix().incomplete()
    }

    fn sent_late(&self) -> u64 {
        self.health.mix().sent_late()
    }

    fn left_out(&self) -> u64 {
        self.health.mix().left_out()
    }

    fn outputs(&self) -> OutputStates {
        self.outputs.states()
    }
}
