//! Sockets that are inherited from the program that started this one, by the convention of sd_listen_fds(3).
ghost use Rattle.std.specs.Prelude.{◌≡◌, ◌<◌, ◌++◌, Some, None, slice_index_or, slice_set, IfOk, OnOk};
ghost use Rattle.live_io.specs.Inherited.{
  descriptor_at,
  descriptor_of,
  path_descriptors,
  row_descriptors,
  with_descriptor,
  with_path,
};
ghost use Rattle.live_io.specs.Names.{IsRole};

use crate::sockets::names::SocketRole;
use crate::sockets::socket_kind::is_udp_socket;
use rtp_stream::StreamSpec;
use std::alloc::{AllocError, AllocFailed, Global};
use std::env;
use std::env::VarError;
use std::rt::Env;
use thiserror::Error;

/// The first inherited descriptor.
// SD_LISTEN_FDS_START of sd_listen_fds(3).
const FIRST_FD: i32 = 3;

/// The greatest number of inherited sockets: 16 streams with four paths each, and two copies of the mix.
const MAX_SOCKETS: u32 = 66;

/// The error of inherited sockets that are not taken.
#[derive(Debug, Drop, Error)]
pub enum InheritedSocketFault {
    /// An allocation failed.
    #[error("out of memory")]
    Memory,
    /// The name belongs to no path or copy, or to one that has a socket already; or the descriptor is no UDP socket at
    /// an IPv4 address; or a variable of the convention cannot be read, and then the name is the variable's.
    #[error("device: socket {0}")]
    Socket(String),
    /// The variable `LISTEN_PID` is no number, and so it names no process.
    #[error("device: socket LISTEN_PID names no process")]
    NoProcess,
    /// The sockets were passed to the process with the first number, and this process has the second number.
    #[error("device: socket LISTEN_PID is {0}, not {1}")]
    OtherProcess(u32, u32),
}

impl From<AllocError> for InheritedSocketFault {
    fn from(_fault: AllocError) -> InheritedSocketFault {
        InheritedSocketFault::Memory
    }
}

impl<T: Drop> From<AllocFailed<T>> for InheritedSocketFault {
    fn from(_refused: AllocFailed<T>) -> InheritedSocketFault {
        InheritedSocketFault::Memory
    }
}

/// The descriptors of the inherited sockets.
#[derive(Clone, Copy)]
pub struct InheritedSockets {
    /// The descriptor of each path of each stream.
    paths: [[Option<i32>; 4]; 16],
    /// The descriptor for the mix's first copy.
    pub(crate) to_a: Option<i32>,
    /// The descriptor for the mix's second copy.
    pub(crate) to_b: Option<i32>,
}

impl InheritedSockets {
    /// Returns the value for a run without inherited sockets.
    pub fn none() -> InheritedSockets {
        InheritedSockets {
            paths: [[None; 4]; 16],
            to_a: None,
            to_b: None,
        }
    }

    /// Returns the sockets that the environment lists for this process. Names are `0a`, `0b`, .. for the paths of
    /// streams, and `to_a` and `to_b`. Each descriptor is tested, and stays open. The first variable, name or
    /// descriptor that is not valid is an error, and so is a list for another process.
    pub fn from_env<R: Env + AllocGlobal>(
        rt: &R,
        alloc: Global,
        streams: &[StreamSpec],
    ) -> Result<InheritedSockets, InheritedSocketFault> {
        require_own_list(rt, alloc)?;
        let count = fd_count(rt, alloc)?;
        let names = variable(rt, alloc, "LISTEN_FDNAMES")?;
        let mut names = names.as_str().split(':');
        let mut inherited = InheritedSockets::none();
        let mut descriptor = FIRST_FD;
        for _ in 0..count {
            // The name that sd_listen_fds_with_names(3) uses for a descriptor without one; here it is refused.
            let name = names.next().unwrap_or("unknown");
            if !inherited.assign(name, streams, descriptor) {
                return Err(fault_of(alloc, name));
            }
            descriptor = descriptor.saturating_add(1);
        }
        match names.next() {
            // The list of no name is the empty text, which is one name for `split`.
            Some(name) if count > 0 || !name.is_empty() => Err(fault_of(alloc, name)),
            _ => Ok(inherited),
        }
    }

    /// Sets the descriptor of a name, and returns true if it did. Returns false if the studio has no socket of this
    /// name, it has a descriptor already, or the descriptor is no UDP socket at an IPv4 address.
    fn assign(&mut self, name: &str, streams: &[StreamSpec], descriptor: i32) -> bool {
        let Some(role) = SocketRole::of_name(name) else {
            return false;
        };
        if !has_socket(streams, role) || self.descriptor(role).is_some() {
            return false;
        }
        if !is_udp_socket(descriptor) {
            return false;
        }
        self.set(role, descriptor);
        true
    }

    /// Returns the descriptor of a role, if it has one.
    fn descriptor(&self, role: SocketRole) -> Option<i32>
        ensures { result ≡ descriptor_of self.now role }
    {
        match role {
            SocketRole::ToA => self.to_a,
            SocketRole::ToB => self.to_b,
            SocketRole::Path(stream, path) => descriptor_in(&self.paths, usize::from(stream), path),
        }
    }

    /// Sets the descriptor of a role.
    fn set(&mut self, role: SocketRole, descriptor: i32)
        requires known { IsRole role }
        ensures own { descriptor_of self.new role ≡ Some descriptor }
        ensures exact { self.new ≡ with_descriptor self.old role descriptor }
    {
        match role {
            SocketRole::ToA => self.to_a = Some(descriptor),
            SocketRole::ToB => self.to_b = Some(descriptor),
            SocketRole::Path(stream, path) => self.set_path(stream, path, Some(descriptor)),
        }
    }

    /// Sets the descriptor of a stream's path.
    fn set_path(&mut self, stream: u8, path: u8, descriptor: Option<i32>)
        requires known { (stream < 16) × (path < 4) }
        ensures own { descriptor_at self.new.paths stream path ≡ descriptor }
        ensures exact { self.new ≡ record self.old { paths = with_path self.old.paths stream path descriptor } }
    {
        set_in_row(&mut self.paths[usize::from(stream)], path, descriptor);
    }

    /// Returns the descriptor of each path, ordered by stream and then by path, or `None` for a path without one.
    /// Returns `AllocError` if an allocation fails.
    pub(crate) fn descriptors(
        &self,
        alloc: Global,
        streams: &[StreamSpec],
    ) -> Result<Vec<Option<i32>>, AllocError>
        ensures { IfOk result (λ found. found.items ≡ path_descriptors self.now.paths 0 streams.now) }
    {
        let mut found = Vec::new(alloc);
        // Loops over numbers here and in `push_row`: their invariants speak of the paths below the number.
        for number in 0..streams.len() {
            push_row(&mut found, &self.paths, number, streams[number].paths())?;
        }
        Ok(found)
    }
}

/// Appends the descriptors of a stream's first `count` paths. Returns `AllocError` if an allocation fails.
fn push_row(
    found: &mut Vec<Option<i32>>,
    rows: &[[Option<i32>; 4]; 16],
    number: usize,
    count: u8,
) -> Result<(), AllocError>
    ensures { OnOk result (found.new.items ≡ found.old.items ++ row_descriptors rows.now number count) }
{
    for path in 0..count {
        found.push(descriptor_in(rows, number, path))?;
    }
    Ok(())
}

/// Returns the descriptor of a stream's path, or `None` if it has none or there is no such path.
fn descriptor_in(rows: &[[Option<i32>; 4]; 16], stream: usize, path: u8) -> Option<i32>
    ensures { result ≡ descriptor_at rows.now stream path }
{
    let Some(row) = rows.get(stream) else {
        return None;
    };
    match row.get(usize::from(path)) {
        Some(descriptor) => *descriptor,
        None => None,
    }
}

/// Sets the descriptor of a path in its stream's row.
fn set_in_row(row: &mut [Option<i32>; 4], path: u8, descriptor: Option<i32>)
    requires few { path < 4 }
    ensures own { slice_index_or row.new path None ≡ descriptor }
    ensures exact { row.new ≡ slice_set row.old path descriptor }
{
    row[usize::from(path)] = descriptor;
}

/// Returns true if a studio of these streams has a socket of this role.
fn has_socket(streams: &[StreamSpec], role: SocketRole) -> bool {
    match role {
        SocketRole::ToA | SocketRole::ToB => true,
        SocketRole::Path(stream, path) => match streams.get(usize::from(stream)) {
            Some(spec) => path < spec.paths(),
            None => false,
        },
    }
}

/// Returns the error for a name that is refused.
fn fault_of(alloc: Global, name: &str) -> InheritedSocketFault {
    match String::from_str(alloc, name) {
        Ok(name) => InheritedSocketFault::Socket(name),
        Err(_) => InheritedSocketFault::Memory,
    }
}

/// Returns the text of a variable, which is empty if the variable is not set.
fn variable<R: Env + AllocGlobal>(
    rt: &R,
    alloc: Global,
    name: &str,
) -> Result<String, InheritedSocketFault> {
    match env::var(rt, name) {
        Ok(text) => Ok(text),
        Err(VarError::NotPresent) => Ok(String::new(alloc)),
        Err(VarError::NotUnicode) => Err(fault_of(alloc, name)),
        Err(VarError::OutOfMemory) => Err(InheritedSocketFault::Memory),
    }
}

/// Returns an error if the sockets were not passed to this process.
fn require_own_list<R: Env + AllocGlobal>(
    rt: &R,
    alloc: Global,
) -> Result<(), InheritedSocketFault> {
    let process = variable(rt, alloc, "LISTEN_PID")?;
    let Some(process) = number_of(process.as_str()) else {
        return Err(InheritedSocketFault::NoProcess);
    };
    let own = libc::getpid().unsigned_abs();
    if process != own {
        return Err(InheritedSocketFault::OtherProcess(process, own));
    }
    Ok(())
}

/// Returns the number of inherited sockets.
fn fd_count<R: Env + AllocGlobal>(rt: &R, alloc: Global) -> Result<u32, InheritedSocketFault> {
    let name = "LISTEN_FDS";
    let count = variable(rt, alloc, name)?;
    match number_of(count.as_str()) {
        Some(count) if count <= MAX_SOCKETS => Ok(count),
        _ => Err(fault_of(alloc, name)),
    }
}

/// Returns the number that a text of decimal digits is, without a sign and a leading zero, or `None` if it is none.
fn number_of(text: &str) -> Option<u32> {
    // `parse` also takes a sign and leading zeros.
    match text.as_bytes() {
        [b'0'] => Some(0),
        [b'1'..=b'9', ..] => text.parse::<u32>().ok(),
        _ => None,
    }
}
