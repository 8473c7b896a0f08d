//! The names of inherited sockets.
ghost use Rattle.std.specs.Prelude.{◌≡◌, ◌≢◌, ◌<◌, ◌↔◌, ℕ, None, IsTrue, IfSome};
ghost use Rattle.live_io.specs.Names.{IsNoName, IsRole, name_of, path_name};

/// The number of streams that a studio can have.
const MAX_STREAMS: u8 = 16;

/// The number of paths that a stream can have.
const MAX_PATHS: u8 = 4;

/// The letter of a stream's first path.
const FIRST_LETTER: u8 = b'a';

/// The role of a socket.
#[derive(Clone, Copy, PartialEq, Eq)]
pub enum SocketRole {
    /// It receives a path: the stream's number, and the path's from 0 to 3.
    Path(u8, u8),
    /// It sends the mix's first copy.
    ToA,
    /// It sends the mix's second copy.
    ToB,
}

impl SocketRole {
    /// Returns the role of the socket of this name, or `None` if no socket has it. Names are `0a` to `15d` for paths,
    /// and `to_a` and `to_b`. A name has no sign and no leading zero.
    pub fn of_name(name: &str) -> Option<SocketRole>
        ensures named { IfSome result (λ role. name.now ≡ name_of role) }
        ensures known { IfSome result IsRole }
        ensures unknown { result ≡ None → IsNoName name.now }
    {
        match name.as_bytes() {
            b"to_a" => Some(SocketRole::ToA),
            b"to_b" => Some(SocketRole::ToB),
            other => role_of_path(other),
        }
    }
}

/// Returns the role of the path of this name, or `None` if no path has it.
// Each name is compared with the text: so only that text is taken, and no sign, leading zero or other digit.
fn role_of_path(name: &[u8]) -> Option<SocketRole>
    ensures named { IfSome result (λ role. name.now ≡ name_of role) }
    ensures known { IfSome result IsRole }
    ensures unknown { result ≡ None
        → (stream : ℕ) (path : ℕ) → stream < 16 → path < 4 → name.now ≢ path_name stream path }
{
    for stream in 0..MAX_STREAMS {
        if let Some(path) = path_of_stream(name, stream) {
            return Some(SocketRole::Path(stream, path));
        }
    }
    None
}

/// Returns the path of a stream that has this name, or `None` if none of its paths has it.
fn path_of_stream(name: &[u8], stream: u8) -> Option<u8>
    requires few { stream < 16 }
    ensures named { IfSome result (λ path. name.now ≡ path_name stream path) }
    ensures known { IfSome result (λ path. path < 4) }
    ensures unknown { result ≡ None → (path : ℕ) → path < 4 → name.now ≢ path_name stream path }
{
    for path in 0..MAX_PATHS {
        if is_path_name(name, stream, path) {
            return Some(path);
        }
    }
    None
}

/// Returns true if this is the name of a path.
fn is_path_name(name: &[u8], stream: u8, path: u8) -> bool
    requires streams { stream < 16 }
    requires paths { path < 4 }
    ensures { IsTrue result ↔ (name.now ≡ path_name stream path) }
{
    let letter = FIRST_LETTER + path;
    if stream < 10 {
        name == [b'0' + stream, letter].as_slice()
    } else {
        name == [b'1', b'0' + (stream - 10), letter].as_slice()
    }
}
