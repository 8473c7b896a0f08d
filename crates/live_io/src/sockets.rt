//! The sockets of a run. `ports` and `addresses` find where they are bound, `inherited` has those that were passed in,
//! and `receiver` and `sink` those that receive and send. `feed` makes a feed of a receiver; `unexpected` tests and
//! counts the sources of datagrams, and `whole_datagrams` says which of them are too long. `hold_up` says what a feed
//! leaves out after a hold-up, by the times of the mix in `mix_times`. `timely_sink` leaves out what the mix has too
//! late, and has the copies wait in which streams are missing, in `late`. `sharing` says which paths can be at one
//! place. A socket that fails is read by `retrying`, as `backoff` says, and one that is empty as `pace` says. `health`
//! has what the sockets count. Of the kernel's tables (`kernel_table`), `udp_table` has what the kernel counts, and
//! `group_table` the groups that are joined. `unopened` says which socket could not be opened.
ghost use Rattle.std.specs.Prelude.{IfOk};
ghost use Rattle.live_io.specs.Sending.{AreDestinations};

use crate::sockets::addresses::{PathAddress, addresses_of};
use crate::sockets::health::RunHealth;
use crate::sockets::hold_up::HoldUp;
use crate::sockets::inherited::InheritedSockets;
use crate::sockets::pace::pause_of;
use crate::sockets::ports::LivePorts;
use crate::sockets::receiver::{Receiver, inherited_socket, receiving_socket};
use crate::sockets::sharing::{PathPlace, have_collision};
use crate::sockets::sink::UdpSink;
use crate::sockets::unexpected::UnexpectedSources;
use crate::sockets::unopened::ADDRESS_IN_USE;
use std::alloc::{AllocError, Global};
use std::io;
use std::io::ErrorKind;
use std::net::{Net, SocketAddrV4, UdpSocket};
use studio_config::StudioSpec;

pub(crate) mod addresses;
pub(crate) mod backoff;
pub(crate) mod feed;
pub(crate) mod group_table;
pub(crate) mod health;
pub(crate) mod hold_up;
pub(crate) mod inherited;
pub(crate) mod kernel_table;
pub(crate) mod late;
pub(crate) mod mix_times;
pub(crate) mod names;
pub(crate) mod pace;
pub(crate) mod ports;
pub(crate) mod receiver;
pub(crate) mod retrying;
pub(crate) mod sharing;
pub(crate) mod sink;
pub(crate) mod socket_kind;
pub(crate) mod timely_sink;
pub(crate) mod udp_table;
pub(crate) mod unexpected;
pub(crate) mod unopened;
pub(crate) mod whole_datagrams;

/// The configuration of a run's sockets, in addition to the studio's addresses.
#[derive(Clone, Copy)]
pub struct SocketConfig<'a> {
    /// The ports of all paths and of the output.
    pub ports: &'a LivePorts,
    /// The inherited sockets.
    pub inherited: &'a InheritedSockets,
    /// The counts of datagrams from unexpected sources.
    pub unexpected: &'a UnexpectedSources,
    /// The health of the sockets, which the feeds and the sink write.
    pub health: &'a RunHealth,
    /// True if the sockets at groups are bound so that other programs may bind them too.
    pub shares_groups: bool,
}

/// The sockets of a run.
#[derive(Drop)]
pub struct Sockets<'a> {
    /// The sockets that receive, ordered by stream and then by path.
    pub receiving: Vec<Receiver<'a>>,
    /// The sockets that send.
    pub sink: UdpSink<'a>,
}

/// Returns all sockets of a run: the inherited ones, and new ones at the studio's addresses for the others. Returns the
/// error of the first socket that cannot be opened.
pub fn open_sockets<'a, R: Net>(
    rt: &R,
    alloc: Global,
    studio: &StudioSpec,
    config: SocketConfig<'a>,
) -> io::Result<Sockets<'a>>
    ensures { IfOk result (λ sockets.
        AreDestinations studio.now.networks.output config.entry.ports.now sockets.sink.a.to sockets.sink.b.to) }
{
    let receiving = open_receivers(rt, alloc, studio, config)?;
    let sink = UdpSink::bind(rt, &studio.networks().output, receiving.len(), config)?;
    Ok(Sockets { receiving, sink })
}

/// The places of the paths of a run, how each is read, and the descriptors of their inherited sockets, all ordered by
/// stream and then by path.
#[derive(Drop)]
struct ReceiverPlan<'a> {
    places: Vec<PathPlace>,
    readings: Vec<PathReading>,
    descriptors: Vec<Option<i32>>,
    config: SocketConfig<'a>,
}

/// Returns a socket for each path, ordered by stream and then by path. Before any socket is made it returns
/// `ErrorKind::AddrInUse` if two of the new ones would be at one place and could not share it. The health notes the
/// first socket that cannot be opened.
fn open_receivers<'a, R: Net>(
    rt: &R,
    alloc: Global,
    studio: &StudioSpec,
    config: SocketConfig<'a>,
) -> io::Result<Vec<Receiver<'a>>> {
    let plan = ReceiverPlan {
        places: places_of(alloc, studio, config.ports)?,
        readings: readings_of(alloc, studio)?,
        descriptors: config.inherited.descriptors(alloc, studio.streams())?,
        config,
    };
    let count = config.ports.paths.len();
    if have_collision(plan.new_places(alloc, count)?.as_slice()) {
        let fault = io::Error::from_raw_os_error(ADDRESS_IN_USE);
        return Err(
            config
                .health
                .note_unopened(plan.first_collision(alloc, count)?, fault),
        );
    }
    let mut receivers = Vec::with_capacity(alloc, count)?;
    for index in 0..count {
        match plan.receiver(rt, index) {
            Ok(receiver) => receivers.push(receiver)?,
            Err(fault) => return Err(config.health.note_unopened(index, fault)),
        }
    }
    Ok(receivers)
}

/// Returns the places of all paths. Returns `AllocError` if an allocation fails.
fn places_of(
    alloc: Global,
    studio: &StudioSpec,
    ports: &LivePorts,
) -> Result<Vec<PathPlace>, AllocError> {
    let addresses = addresses_of(alloc, studio)?;
    let mut places = Vec::with_capacity(alloc, addresses.len())?;
    for index in 0..addresses.len() {
        if let Some(place) = place_at(addresses.as_slice(), ports.paths.as_slice(), index) {
            places.push(place)?;
        }
    }
    Ok(places)
}

/// How the socket of a path is read.
#[derive(Clone, Copy)]
pub(crate) struct PathReading {
    /// The pause between two reads while packets flow, in sampling instants.
    pub(crate) pause: u32,
    /// The hold-up of its feed, after which it leaves out what the socket has.
    pub(crate) hold_up: HoldUp,
}

/// Returns how the socket of each path is read. Returns `AllocError` if an allocation fails.
fn readings_of(alloc: Global, studio: &StudioSpec) -> Result<Vec<PathReading>, AllocError> {
    let mut readings = Vec::new(alloc);
    for stream in studio.streams() {
        for _ in 0..stream.paths() {
            readings.push(PathReading {
                pause: pause_of(stream),
                hold_up: HoldUp::new(stream),
            })?;
        }
    }
    Ok(readings)
}

/// Returns the place of the path at an index, or `None` if there is no such path.
fn place_at(addresses: &[PathAddress], ports: &[u16], index: usize) -> Option<PathPlace> {
    let address = addresses.get(index)?;
    Some(PathPlace {
        at: address.at,
        port: *ports.get(index)?,
        from: address.from,
    })
}

impl<'a> ReceiverPlan<'a> {
    /// Returns the places of those of the first `count` paths that have no inherited sockets. Returns `AllocError` if
    /// an allocation fails.
    fn new_places(&self, alloc: Global, count: usize) -> Result<Vec<PathPlace>, AllocError> {
        let mut places = Vec::with_capacity(alloc, count)?;
        for index in 0..count {
            if let Some(place) = self.new_place(index) {
                places.push(place)?;
            }
        }
        Ok(places)
    }

    /// Returns the index of the first path that collides with a path before it, or `count` if none of the first `count`
    /// does. Returns `AllocError` if an allocation fails.
    fn first_collision(&self, alloc: Global, count: usize) -> Result<usize, AllocError> {
        for index in 0..count {
            if have_collision(self.new_places(alloc, index.saturating_add(1))?.as_slice()) {
                return Ok(index);
            }
        }
        Ok(count)
    }

    /// Returns the place of the path at an index, or `None` if there is no such path or its socket was inherited.
    fn new_place(&self, index: usize) -> Option<PathPlace> {
        match self.descriptors.get(index) {
            Some(Some(_)) => None,
            _ => self.places.get(index).copied(),
        }
    }

    /// Returns the socket of the path at an index.
    fn receiver<R: Net>(&self, rt: &R, index: usize) -> io::Result<Receiver<'a>> {
        let (Some(place), Some(reading)) = (self.places.get(index), self.readings.get(index)) else {
            return Err(io::Error::from(ErrorKind::InvalidInput));
        };
        let socket = self.socket(rt, index, place)?;
        let source = self.config.unexpected.source(index, place.from);
        let address = SocketAddrV4::new(place.at, place.port);
        let health = self.config.health.paths().get(index);
        Ok(Receiver::new(socket, *reading, source, address, health))
    }

    /// Returns the inherited socket of the path at an index, or a new one at this place if there is none.
    fn socket<R: Net>(&self, rt: &R, index: usize, place: &PathPlace) -> io::Result<UdpSocket> {
        match self.descriptors.get(index) {
            Some(Some(descriptor)) => inherited_socket(*descriptor),
            _ => receiving_socket(rt, place.at, place.port, self.is_shared(place)),
        }
    }

    /// Returns true if other sockets may be bound at the place of a path: at a group, if its datagrams are shared with
    /// another path of another source, or with other programs.
    fn is_shared(&self, own: &PathPlace) -> bool {
        // Only such sockets get SO_REUSEADDR: without it a second start of the same run is refused.
        let is_with_others = self.config.shares_groups && own.at.is_multicast();
        is_with_others || self.places.iter().any(|other| own.shares_with(other))
    }
}
