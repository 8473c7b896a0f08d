//! The popping end of a ring, with the token of the pushing end.
//!
//! `packets` and `marks` are the rings of paths and streams. Their places are cells of three sizes: `packet_cell` and
//! `mark_cell` over `payload_cell`. `drained` looks for rings that are still open.
ghost use Rattle.std.specs.Prelude.{
  ◌≡◌,
  ◌+◌,
  ◌<◌,
  [],
  ◌∷◌,
  ◌++◌,
  IfSome,
  IsSomeAnd,
  MatchOption,
  length,
  IsTrue,
  true,
  false,
  ◌↔◌,
  None,
  Some,
};
ghost use Rattle.rtrb.specs.Ring.{received, known_items, ConsumerLooked, IsFinishedOf, all_sent, SameConsumer};
ghost use mathlib.Core.List.{IsPrefix};
ghost use Rattle.studio_ends.specs.DrainedRing.{IsDrained};
ghost use Rattle.std.proofs.Props.{props};

use rtrb::{Consumer, Finished};

pub(crate) mod drained;
pub(crate) mod mark_cell;
pub(crate) mod marks;
pub(crate) mod packet_cell;
pub(crate) mod packets;
mod payload_cell;

/// The popping end of a ring, with the token of the pushing end once it was passed in.
#[derive(Drop)]
pub struct TokenConsumer<T> {
    pub(crate) ring: Consumer<T>,
    pub(crate) done: Option<Finished<T>>,
    ghost mine: { IfSome done (λ d. IsFinishedOf d ring) } by { Prim.hlevel props },
}

impl<T: Drop> TokenConsumer<T> {
    /// Returns a popping end over this ring, without a token.
    pub(crate) fn new(ring: Consumer<T>) -> TokenConsumer<T>
        ensures { (result.ring ≡ ring) × (result.done ≡ None) }
    {
        TokenConsumer { ring, done: None }
    }

    /// Takes the token of the pushing end.
    pub(crate) fn hand_in(&mut self, done: Finished<T>)
        requires { IsFinishedOf done self.old.ring }
        ensures { (self.new.ring ≡ self.old.ring) × (self.new.done ≡ Some done) }
    {
        self.done = Some(done);
    }

    /// Returns true if no item is known. A known item is borrowed by `peek`, and then removed by `drop_next`.
    pub(crate) fn is_empty(&mut self) -> bool
        ensures ring { ConsumerLooked self.old.ring self.new.ring }
        ensures done { self.new.done ≡ self.old.done }
        ensures some { result ≡ false → 0 < length (known_items self.new.ring) }
        ensures none { result ≡ true → known_items self.new.ring ≡ [] }
    {
        self.ring.is_empty()
    }

    /// Returns a reference to the next item, in its place in the ring.
    pub(crate) fn peek(&self) -> &T
        requires { 0 < length (known_items self.now.ring) }
        ensures { IsPrefix (result.now ∷ []) (known_items self.now.ring) }
    {
        self.ring.peek_known()
    }

    /// Removes the next item from the ring and drops it.
    pub(crate) fn drop_next(&mut self)
        requires { 0 < length (known_items self.old.ring) }
        ensures ring { SameConsumer self.old.ring self.new.ring }
        ensures done { self.new.done ≡ self.old.done }
        ensures passed { (x : T) → IsPrefix (x ∷ []) (known_items self.old.ring)
            → (received self.new.ring ≡ received self.old.ring ++ x ∷ [])
            × (known_items self.old.ring ≡ x ∷ known_items self.new.ring) }
    {
        let _ = self.ring.pop_known();
    }

    /// Returns true if the pushing end has finished and all that it pushed was taken.
    pub(crate) fn is_drained(&mut self) -> bool
        ensures drained { IsTrue result ↔ IsDrained self.new.ring self.new.done }
        ensures ring { SameConsumer self.old.ring self.new.ring × (received self.new.ring ≡ received self.old.ring) }
        ensures done { MatchOption self.old.done (self.new.done ≡ None)
            (λ d. IsSomeAnd self.new.done (λ e. all_sent e ≡ all_sent d)) }
    {
        match &mut self.done {
            // Without the token the pushing end may still push, however empty the ring is.
            None => false,
            Some(done) => self.ring.slots_after(done) == 0,
        }
    }
}
