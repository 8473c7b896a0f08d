//! The feed of a path: the source of its datagrams.
ghost use Rattle.std.specs.Prelude.{◌≡◌, List, length};
ghost use Rattle.studio_io.specs.Answers.{Answer, IsWithin, Tells};

/// The result of `Feed::next`.
#[derive(Clone, Copy, PartialEq, Eq, Debug)]
pub enum FeedAnswer {
    /// A datagram, with this number of octets, at the start of the buffer.
    Datagram(usize),
    /// No datagram has arrived yet.
    Nothing,
    /// The device failed. After 1,000 faults in a row, with a pause after each, the feed is not called again.
    Fault,
    /// No datagram will arrive any more.
    Ended,
}

/// A source of datagrams. `next` may wait for one, but not for long: a stream ends only once its feeds have
/// returned.
pub trait Feed: Drop {
    /// The next results of `next`, as far as they are known. Nothing is known of later ones.
    ghost told: { Self → List Answer };

    /// Writes the next datagram to the start of `buf`, if there is one, and returns the result. A run passes 2,048
    /// octets.
    fn next(&mut self, buf: &mut [u8]) -> FeedAnswer
        ensures within { IsWithin result (length buf.old) }
        ensures tells { length buf.old ≡ 2048 → Tells (told self.old) buf.new result (told self.new) };

    /// Returns true if `next` waits by itself before it returns `Nothing`. The path's worker then calls it again at
    /// once.
    // A pause of the worker in addition would delay the datagrams that arrive meanwhile.
    fn waits(&self) -> bool {
        false
    }
}
