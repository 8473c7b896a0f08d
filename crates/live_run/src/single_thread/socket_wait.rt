//! The wait of a run in one thread for its sockets, and the flags of the sockets that are ready to be read.

use engine_run::IdleWait;
use libc::net;
use libc::net::POLLIN;
use libc::types::pollfd;
use live_io::{
    FeedFlags, ReceivePace, ReceiveWait, Receiver, SocketHealth, SystemClock, common_pause,
};
use std::alloc::{AllocError, Global};
use std::sync::Wait;
use std::sync::atomic::{AtomicBool, Ordering};
use std::thread::Parker;
use std::time::{Clock, Duration};
use studio_config::StudioSpec;
use studio_engine::Engine;
use studio_io::Clock as ReadClock;

/// A millisecond, in sampling instants.
const MILLISECOND: u64 = 48;

/// The greatest age of a clock reading by which the datagrams that end a wait for them are judged, in sampling
/// instants.
// By the arrival clock the first packet of a stream has the time of the reading, so an old one would put it too early.
const MAX_AGE: i64 = 48;

/// The number of nanoseconds in three sampling instants.
// One sampling instant is no whole number of nanoseconds.
const THREE_INSTANTS: u64 = 62_500;

/// The least wait for a datagram in milliseconds, if none comes.
// The blocks of silence that become due meanwhile are then sent in bursts, which saves wake-ups.
const QUIET_WAIT: i32 = 4;

/// The longest wait for a datagram in milliseconds, if gains can be changed while the run goes on.
// A run looks for changes between two waits, so a change is kept waiting in the page's thread for at most this long.
const CONTROLLED_WAIT: i32 = 10;

/// The descriptor that makes `poll` pass over its place.
const LEFT_OUT: i32 = -1;

/// Returns a flag for each of `count` sockets, which is true if the socket may have a datagram. The wait for the
/// sockets sets a flag. The socket's feed receives until the socket is empty, and then clears it. Returns `AllocError`
/// if an allocation fails.
pub(crate) fn ready_flags(alloc: Global, count: usize) -> Result<Vec<AtomicBool>, AllocError> {
    let mut ready = Vec::with_capacity(alloc, count)?;
    for _ in 0..count {
        // True at first: before the first wait nothing is known of a socket.
        ready.push(AtomicBool::new(true))?;
    }
    Ok(ready)
}

/// A wait until one of several sockets has a datagram.
///
/// While packets flow, the wait does not end at each of them. It rests for a tenth of the least latency, and then sets
/// the flags of the sockets that have a datagram, whose feeds take all that came. These datagrams are judged by the
/// clock reading before the rest, however long it was, so a rest makes nothing late. The rest goes on past deadlines,
/// and the blocks that become due meanwhile are sent after it.
///
/// Once no datagram has come for 20 ms, the first one ends the wait. It is then judged by the reading before the wait,
/// unless that is older than a millisecond.
///
/// A socket that failed is left out until its feed has tried it again without a fault. Its error would end each wait at
/// once.
#[derive(Drop)]
pub(crate) struct SocketWait<'a, R: Wait + Clock> {
    rt: &'a R,
    /// The descriptor of each socket.
    descriptors: Vec<i32>,
    sockets: Vec<pollfd>,
    /// The health of each socket, by which those that failed are left out.
    health: &'a [SocketHealth],
    /// The flag of each socket, which is true if it is to be read until it is empty.
    ready: &'a [AtomicBool],
    /// The pace of all sockets together.
    pace: ReceivePace,
    /// The parker in which it rests. Nobody unparks it.
    parker: Parker,
    /// The clock by which the age of a reading is measured.
    clock: SystemClock<'a, R>,
    /// The longest wait for a datagram, in milliseconds.
    longest: i32,
}

impl<'a, R: Wait + Clock> SocketWait<'a, R> {
    /// Returns a wait for the sockets of a studio, whose waits are short if its gains can be changed. Returns
    /// `AllocError` if an allocation fails.
    pub(crate) fn new(
        rt: &'a R,
        alloc: Global,
        studio: &StudioSpec,
        receivers: &[Receiver<'_>],
        flags: FeedFlags<'a>,
        clock: SystemClock<'a, R>,
        is_controlled: bool,
    ) -> Result<SocketWait<'a, R>, AllocError> {
        let mut descriptors = Vec::with_capacity(alloc, receivers.len())?;
        let mut sockets = Vec::with_capacity(alloc, receivers.len())?;
        for receiver in receivers {
            let descriptor = receiver.descriptor();
            descriptors.push(descriptor)?;
            sockets.push(pollfd {
                fd: descriptor,
                events: POLLIN,
                revents: 0,
            })?;
        }
        Ok(SocketWait {
            rt,
            descriptors,
            sockets,
            health: flags.health.paths(),
            ready: flags.ready,
            pace: ReceivePace::new(common_pause(studio.streams())),
            parker: Parker::new(),
            clock,
            longest: if is_controlled {
                CONTROLLED_WAIT
            } else {
                i32::MAX
            },
        })
    }

    /// Returns true if a socket may have more datagrams than its feed took.
    // So many come in one round only from a flood, or after a rest that the system made far longer.
    fn has_unread(&self) -> bool {
        self.ready.iter().any(|ready| ready.load(Ordering::SeqCst))
    }

    /// Rests for this many sampling instants, and then sets the flags of the sockets that have a datagram.
    fn pause(&mut self, instants: u32) {
        let nanoseconds = u64::from(instants) * THREE_INSTANTS / 3;
        self.parker
            .park_timeout(self.rt, Duration::from_nanos(nanoseconds));
        self.poll(0);
    }

    /// Waits until a socket has a datagram, but for at most this many sampling instants in whole milliseconds, or
    /// `QUIET_WAIT` if that is more, and never longer than the longest wait. Then sets the flags of the sockets that
    /// have a datagram.
    fn wait(&mut self, instants: u64) {
        let whole = i32::try_from(instants / MILLISECOND).unwrap_or(i32::MAX);
        self.poll(whole.max(QUIET_WAIT).min(self.longest));
    }

    /// Leaves the sockets out that failed, and puts those in that did not.
    fn leave_out_failed(&mut self) {
        let sockets = self.sockets.iter_mut().zip(self.descriptors.iter());
        for ((socket, descriptor), health) in sockets.zip(self.health) {
            socket.fd = if health.is_pausing() {
                LEFT_OUT
            } else {
                *descriptor
            };
        }
    }

    /// Polls the sockets for at most this many milliseconds, and sets the flags of those that have a datagram. If the
    /// system returns an error, any socket may have one.
    fn poll(&mut self, limit: i32) {
        self.leave_out_failed();
        let count = net::poll(self.sockets.as_mut_slice(), limit);
        if count == 0 {
            return;
        }
        self.pace.note_datagram();
        for (socket, ready) in self.sockets.iter().zip(self.ready) {
            // A socket with an error counts as ready, so that its feed reports the error.
            if socket.fd != LEFT_OUT && (count < 0 || socket.revents != 0) {
                ready.store(true, Ordering::SeqCst);
            }
        }
    }
}

impl<R: Wait + Clock> IdleWait for SocketWait<'_, R> {
    fn wait_for_input(&mut self, engine: &Engine, limit: i64) -> bool {
        if self.has_unread() {
            return true;
        }
        // The engine's time is the reading of this round.
        match self.pace.next_wait(engine.time()) {
            ReceiveWait::Pause(instants) => {
                self.pause(instants);
                true
            }
            ReceiveWait::Datagram => {
                self.wait(u64::try_from(limit).unwrap_or(0));
                self.clock.now().saturating_sub(engine.time()) <= MAX_AGE
            }
        }
    }
}
