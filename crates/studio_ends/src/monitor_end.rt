//! The end of a monitor, which reads a stream's counts while it runs.
ghost use Rattle.std.specs.Prelude.{◌≡◌, ◌++◌, ◌∷◌, [], ◌<◌, IfSome, IsSome, None, length};
ghost use Rattle.rtrb.specs.Ring.{received, known_items, SameConsumer};

use rtp_stream::Counts;
use rtrb::Consumer;

/// The receiver of a stream's counts. It gets the counts of each turn that found space in its ring, in order.
#[derive(Drop)]
pub struct MonitorEnd {
    pub(crate) ring: Consumer<Counts>,
}

impl MonitorEnd {
    /// Returns the next turn's counts; `None` if none are there.
    pub fn next(&mut self) -> Option<Counts>
        ensures ring { SameConsumer self.old.ring self.new.ring }
        ensures some { IfSome result (λ counts. received self.new.ring ≡ received self.old.ring ++ counts ∷ []) }
        ensures none { result ≡ None → (received self.new.ring ≡ received self.old.ring)
            × (known_items self.new.ring ≡ []) }
        ensures known { 0 < length (known_items self.old.ring) → IsSome result }
    {
        self.ring.pop().ok()
    }
}
