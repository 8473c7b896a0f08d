//! The health of a run's sockets: what the feeds and the sink count, and other threads read.
ghost use Rattle.std.specs.Prelude.{◌≡◌, vec_len, IfOk};
ghost use Rattle.live_io.specs.Paths.{path_total};

use crate::path_count::path_count;
use crate::sockets::mix_times::MixProgress;
use std::alloc::{AllocError, Global};
use std::io;
use std::net::Ipv4Addr;
use std::sync::atomic::{AtomicBool, AtomicU32, AtomicU64, Ordering};
use studio_config::StudioSpec;

/// The value for a number of dropped datagrams that is not known.
const UNKNOWN: u64 = u64::MAX;

/// The value for an inode that is not known. No socket has it.
const NO_INODE: u64 = 0;

/// The value for a path that is at no group.
const NO_GROUP: u32 = 0;

/// The value for a group of which it is not known whether it is joined.
const JOIN_UNKNOWN: u32 = 0;

/// The value for a group that no interface has joined.
const NOT_JOINED: u32 = 1;

/// The value for a group that an interface has joined.
const JOINED: u32 = 2;

/// The health of all sockets of a run.
// Atomics throughout: feeds in several threads write, and the threads of the supervisor and of the page read.
#[derive(Drop)]
pub struct RunHealth {
    paths: Vec<SocketHealth>,
    sends: SendHealth,
    mix: MixProgress,
    /// The first socket that could not be opened: 2^32 times one more than its index, and the system's error number.
    unopened: AtomicU64,
}

impl RunHealth {
    /// Returns the health of a studio's sockets, none of which has failed. Returns `AllocError` if an allocation fails.
    pub fn new(alloc: Global, studio: &StudioSpec) -> Result<RunHealth, AllocError>
        ensures paths { IfOk result (λ health. vec_len health.paths ≡ path_total studio.now.streams) }
    {
        let mut paths = Vec::new(alloc);
        for _ in 0..path_count(studio.streams()) {
            paths.push(SocketHealth::new())?;
        }
        Ok(RunHealth {
            paths,
            sends: SendHealth::new(),
            mix: MixProgress::new(studio),
            unopened: AtomicU64::new(0),
        })
    }

    /// Returns the health of the socket of each path, ordered by stream and then by path.
    pub fn paths(&self) -> &[SocketHealth]
        ensures { result.now ≡ self.now.paths.items }
    {
        self.paths.as_slice()
    }

    /// Returns the health of the two sockets that send.
    pub fn sends(&self) -> &SendHealth {
        &self.sends
    }

    /// Returns the progress of the mix.
    pub fn mix(&self) -> &MixProgress {
        &self.mix
    }

    /// Notes that a socket could not be opened, and returns the fault. The index is that of a path, ordered by stream
    /// and then by path, or of a copy of the mix behind them.
    pub(crate) fn note_unopened(&self, index: usize, fault: io::Error) -> io::Error {
        let code = fault.raw_os_error().unwrap_or(0);
        let place = (index as u64).saturating_add(1).min(u64::from(u32::MAX));
        self.unopened.store(
            place << 32 | u64::from(code.unsigned_abs()),
            Ordering::SeqCst,
        );
        fault
    }

    /// Returns the index of the socket that could not be opened, and the system's error number, which is 0 if there is
    /// none. Returns `None` if all sockets were opened.
    pub(crate) fn unopened(&self) -> Option<(usize, i32)> {
        let noted = self.unopened.load(Ordering::SeqCst);
        let index = (noted >> 32).checked_sub(1)?;
        let code = i32::try_from(noted % 0x1_0000_0000).unwrap_or(0);
        Some((usize::try_from(index).ok()?, code))
    }

    /// Returns true if the socket of a path failed so often that the path was given up.
    pub fn has_ended_path(&self) -> bool {
        self.paths.iter().any(|path| path.has_ended())
    }
}

/// The health of the socket of a path.
#[derive(Drop)]
pub struct SocketHealth {
    faults: AtomicU64,
    too_long: AtomicU64,
    held_up: AtomicU64,
    ended: AtomicBool,
    pausing: AtomicBool,
    inode: AtomicU64,
    dropped: AtomicU64,
    group: AtomicU32,
    joined: AtomicU32,
}

impl SocketHealth {
    /// Returns the health of a socket that has not failed, before the kernel has said anything about it.
    pub fn new() -> SocketHealth {
        SocketHealth {
            faults: AtomicU64::new(0),
            too_long: AtomicU64::new(0),
            held_up: AtomicU64::new(0),
            ended: AtomicBool::new(false),
            pausing: AtomicBool::new(false),
            inode: AtomicU64::new(NO_INODE),
            dropped: AtomicU64::new(UNKNOWN),
            group: AtomicU32::new(NO_GROUP),
            joined: AtomicU32::new(JOIN_UNKNOWN),
        }
    }

    /// Returns the number of receives that failed so far.
    pub fn faults(&self) -> u64 {
        self.faults.load(Ordering::SeqCst)
    }

    /// Returns the number of datagrams that were left out because they were too long.
    pub fn too_long(&self) -> u64 {
        self.too_long.load(Ordering::SeqCst)
    }

    /// Returns the number of datagrams that were left out after a hold-up.
    pub fn held_up(&self) -> u64 {
        self.held_up.load(Ordering::SeqCst)
    }

    /// Returns true if the socket failed so often that its path was given up.
    pub fn has_ended(&self) -> bool {
        self.ended.load(Ordering::SeqCst)
    }

    /// Returns true if the last receive failed, so that the socket is not read until its next attempt.
    pub fn is_pausing(&self) -> bool {
        self.pausing.load(Ordering::SeqCst)
    }

    /// Returns the number of datagrams that the kernel dropped at the socket, as of the last `read_kernel_drops`.
    /// Returns `None` if the kernel's table did not list the socket.
    pub fn dropped(&self) -> Option<u64> {
        match self.dropped.load(Ordering::SeqCst) {
            UNKNOWN => None,
            dropped => Some(dropped),
        }
    }

    /// Returns the multicast group to which the path's datagrams are sent, or `None` if they are not sent to one.
    pub fn group(&self) -> Option<Ipv4Addr> {
        match self.group.load(Ordering::SeqCst) {
            NO_GROUP => None,
            group => Some(Ipv4Addr::from(group.to_be_bytes())),
        }
    }

    /// Returns true if this machine has joined the path's group on any interface, as of the last `read_joined_groups`.
    /// Returns `None` if the path is at no group, or if it is not known.
    pub fn is_joined(&self) -> Option<bool> {
        match self.joined.load(Ordering::SeqCst) {
            NOT_JOINED => Some(false),
            JOINED => Some(true),
            _ => None,
        }
    }

    /// Counts a receive that failed. No other follows before the next attempt.
    pub(crate) fn note_fault(&self) {
        self.faults.fetch_add(1, Ordering::SeqCst);
        self.pausing.store(true, Ordering::SeqCst);
    }

    /// Counts a datagram that was left out because it was too long.
    pub(crate) fn note_too_long(&self) {
        self.too_long.fetch_add(1, Ordering::SeqCst);
    }

    /// Counts a datagram that was left out after a hold-up.
    pub(crate) fn note_held_up(&self) {
        self.held_up.fetch_add(1, Ordering::SeqCst);
    }

    /// Notes that a receive did not fail.
    pub(crate) fn note_success(&self) {
        self.pausing.store(false, Ordering::SeqCst);
    }

    /// Notes that the path was given up.
    pub(crate) fn note_end(&self) {
        self.ended.store(true, Ordering::SeqCst);
    }

    /// Sets the socket's inode, by which the kernel's table lists it, if it is known.
    pub(crate) fn set_inode(&self, inode: Option<u64>) {
        self.inode
            .store(inode.unwrap_or(NO_INODE), Ordering::SeqCst);
    }

    /// Returns true if the socket has this inode.
    pub(crate) fn has_inode(&self, inode: u64) -> bool {
        inode != NO_INODE && self.inode.load(Ordering::SeqCst) == inode
    }

    /// Sets the address to which the path's datagrams are sent.
    pub(crate) fn set_address(&self, address: Ipv4Addr) {
        let group = if address.is_multicast() {
            u32::from_be_bytes(address.octets())
        } else {
            NO_GROUP
        };
        self.group.store(group, Ordering::SeqCst);
    }

    /// Sets whether this machine has joined the path's group, if it is known.
    pub(crate) fn set_joined(&self, joined: Option<bool>) {
        let value = match joined {
            Some(true) => JOINED,
            Some(false) => NOT_JOINED,
            None => JOIN_UNKNOWN,
        };
        self.joined.store(value, Ordering::SeqCst);
    }

    /// Sets the number of datagrams that the kernel dropped at the socket, if it is known.
    pub(crate) fn set_dropped(&self, dropped: Option<u64>) {
        self.dropped
            .store(dropped.unwrap_or(UNKNOWN), Ordering::SeqCst);
    }
}

/// The health of the two sockets that send the mix.
#[derive(Drop)]
pub struct SendHealth {
    failed_a: AtomicU64,
    failed_b: AtomicU64,
}

impl SendHealth {
    /// Returns the health of sockets whose sends have not failed.
    pub fn new() -> SendHealth {
        SendHealth {
            failed_a: AtomicU64::new(0),
            failed_b: AtomicU64::new(0),
        }
    }

    /// Returns the number of sends of each copy that failed so far: of the first copy, and of the second.
    pub fn failed(&self) -> [u64; 2] {
        [
            self.failed_a.load(Ordering::SeqCst),
            self.failed_b.load(Ordering::SeqCst),
        ]
    }

    /// Counts the sends of a datagram that failed, of each copy.
    pub(crate) fn note(&self, is_sent_a: bool, is_sent_b: bool) {
        if !is_sent_a {
            self.failed_a.fetch_add(1, Ordering::SeqCst);
        }
        if !is_sent_b {
            self.failed_b.fetch_add(1, Ordering::SeqCst);
        }
    }
}
