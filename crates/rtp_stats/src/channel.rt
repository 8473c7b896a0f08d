//! Rings that carry statistics to a reader. Only the newest statistics count. `path`, `stream` and `mix` are the
//! channels of paths, streams and the mix; `mix_sender` is the sending end of the last.
ghost use Rattle.std.specs.Prelude.{◌≡◌, true, false};
ghost use Rattle.rtrb.specs.Ring.{SameConsumer, SameProducer};
ghost use Rattle.rtp_stats.specs.Channel.{Gives, GoesThrough, HasNoPlace, IsNewest};

use rtrb::{Consumer, Producer};

pub(crate) mod mix;
pub(crate) mod mix_sender;
pub(crate) mod path;
pub(crate) mod stream;

/// Sends a value, if there is space. Returns true if it was sent.
// A full ring means that the reader is slow. The value is dropped, since the sender must not wait.
pub(crate) fn try_send<T: Drop>(ring: &mut Producer<T>, value: T) -> bool
    ensures given { Gives value ring.old ring.new }
    ensures through { result ≡ true → GoesThrough value ring.old ring.new }
    ensures full { result ≡ false → HasNoPlace ring.old ring.new }
    ensures ring { SameProducer ring.old ring.new }
{
    ring.push(value).is_ok()
}

/// Takes up to `most` values from the ring and returns the newest; `None` if none is there.
// The limit makes it end even if the sender sends all the time.
pub(crate) fn take_newest<T: Drop>(ring: &mut Consumer<T>, most: usize) -> Option<T>
    ensures newest { IsNewest most result ring.old ring.new }
    ensures ring { SameConsumer ring.old ring.new }
{
    let mut newest = None;
    for _ in 0..most {
        match ring.pop() {
            Ok(value) => newest = Some(value),
            Err(_) => return newest,
        }
    }
    newest
}
