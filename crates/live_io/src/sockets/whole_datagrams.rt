//! The datagrams that a path takes: those that came whole.
ghost use Rattle.std.specs.Prelude.{◌≡◌, length, None, IfSome};
ghost use Rattle.live_io.specs.WholeDatagrams.{Fits, IsCopied};

/// The greatest number of octets of a datagram that a path takes.
pub(crate) const MAX_OCTETS: usize = 2_048;

/// The space into which a socket receives. A datagram that fills it may be longer.
// The system cuts what is longer than the space, and does not say so.
pub(crate) const RECEIVE_SPACE: usize = MAX_OCTETS + 1;

/// Copies a received datagram to the start of `buf`, and returns its length in octets. Returns `None` if it is too
/// long.
pub fn copy_whole(received: &[u8], buf: &mut [u8]) -> Option<usize>
    ensures whole { Fits (length received.now) (length buf.old)
        → IsCopied received.now buf.old buf.new result }
    ensures long { (Fits (length received.now) (length buf.old) → ⊥) → result ≡ None }
    ensures same { (Fits (length received.now) (length buf.old) → ⊥) → buf.new ≡ buf.old }
{
    let count = received.len();
    if count > MAX_OCTETS {
        return None;
    }
    if count > buf.len() {
        return None;
    }
    buf[..count].copy_from_slice(received);
    Some(count)
}
