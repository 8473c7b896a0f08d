//! The file with the token of the page's control of gains.
ghost use Rattle.std.specs.Prelude.{◌↔◌, IsTrue};
ghost use Rattle.studio_main.specs.TokenFile.{MayHoldToken};

use crate::fault::ProgramFault;
use file_commands::CommandFault;
use status_page::Token;
use std::alloc::Global;
use std::fs::Metadata;
use std::os::unix::fs::MetadataExt;
use std::{fs, io};
use studio_run::ReadFault;

/// The greatest number of octets of a token's file: 256 of the token, and a line feed.
const MAX_OCTETS: u64 = 257;

/// The host's files that hold a token.
pub(crate) trait TokenFiles {
    /// Returns the octets of the private file at a path. Returns `ReadFault::Memory` if an allocation fails, and
    /// another fault if the file cannot be read or is not private (`is_private`).
    fn read_private(&self, alloc: Global, path: &str) -> Result<Vec<u8>, ReadFault>;
}

/// Returns the token in the file at this path, if there is a path. Returns `ProgramFault::Control` if the file cannot
/// be read or is not private, or if it has no token.
pub(crate) fn token_of<H: TokenFiles>(
    alloc: Global,
    host: &H,
    path: Option<&str>,
) -> Result<Option<Token>, ProgramFault> {
    let Some(path) = path else {
        return Ok(None);
    };
    let octets = match host.read_private(alloc, path) {
        Ok(octets) => octets,
        Err(ReadFault::Memory) => return Err(ProgramFault::Command(CommandFault::Memory)),
        Err(_) => return Err(ProgramFault::Control),
    };
    match Token::from_bytes(octets.as_slice()) {
        Some(token) => Ok(Some(token)),
        None => Err(ProgramFault::Control),
    }
}

/// Returns true if a file is private, and may hold a token: a regular file of at most 257 octets that others may
/// neither read nor write, and its group may not write.
// A token that others can read lets them change gains, and one that others can write lets them choose it. The group may
// read it, since systemd gives a service its credentials by an access list: the group's rights in a mode are then the
// most that any entry of the list has. So the mode shows that no entry lets anybody write.
pub(crate) fn is_private(file: &Metadata) -> bool
    ensures exact { IsTrue result ↔ MayHoldToken file.now }
{
    let mode = file.mode();
    let is_closed_to_others = mode % 8 < 2;
    let is_read_only_to_group = mode / 16 % 2 == 0;
    file.is_file() && is_closed_to_others && is_read_only_to_group && file.len() <= MAX_OCTETS
}

/// Returns the private file at a path, open for reading. Returns `None` if it is not private, and an error if it cannot
/// be opened.
pub(crate) fn open_private(rt: &HostRuntime, path: &str) -> io::Result<Option<fs::File>> {
    // Before the file is opened, since opening a named pipe waits for its other end.
    if !is_private(&fs::metadata(rt, path)?) {
        return Ok(None);
    }
    let file = fs::open(rt, path)?;
    // And of the file that was opened, since another one may be at the path by now.
    if !is_private(&file.metadata()?) {
        return Ok(None);
    }
    Ok(Some(file))
}
