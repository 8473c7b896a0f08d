//! A cell of a fixed size for the octets of a payload.
ghost use Rattle.std.specs.Prelude.{◌≡◌, ◌≤◌, [], length, replicate};

use std::marker::Model;

/// The octets that a short cell holds: 125 microseconds of 3 channels of L24 have 54.
// Cells have three sizes, since a cell of 1,440 octets for a packet of 18 would be copied and zeroed whole.
pub(crate) const SHORT: usize = 64;

/// The octets that a middle cell holds: a millisecond of 2 channels of L24 has 288.
pub(crate) const MIDDLE: usize = 320;

/// The octets that a long cell holds: those of the longest payload.
pub(crate) const LONG: usize = 1440;

/// Up to `N` octets, in place. The cell is copied whole. The octets after the payload are 0.
// They are 0 so that equal payloads are equal cells: contracts see a cell as its payload, and `inverse` goes back.
#[derive(Clone, Copy)]
pub(crate) struct PayloadCell<const N: usize> {
    len: usize,
    octets: [u8; N],
}

impl<const N: usize> Model for PayloadCell<N> {
    ghost use Rattle.std.specs.Prelude.{ℕ, List, length, take};
    ghost use Rattle.studio_ends.specs.PayloadCells.{IsCell, padded};
    ghost use Rattle.studio_ends.specs.PayloadCells.{padded_back, taken_length};

    ghost Value = { List ℕ };

    ghost view = { λ r. take r.len r.octets };

    ghost invariant = { λ r. IsCell N r.len r.octets };

    ghost inverse = { λ octets. record { len = length octets; octets = padded N octets } };

    ghost inverse_ok = { λ r h i.
        record { len = taken_length N r.len r.octets h i; octets = padded_back N r.len r.octets h i } };
}

impl<const N: usize> PayloadCell<N> {
    /// Returns a cell with no octets.
    pub(crate) fn new() -> PayloadCell<N>
        ensures { result ≡ [] }
    {
        PayloadCell {
            len: 0,
            octets: [0; N],
        }
    }

    /// Returns a reference to the octets.
    #[inline]
    pub(crate) fn octets(&self) -> &[u8]
        ensures value { result.now ≡ self.now }
        ensures short { length result.now ≤ N }
    {
        &self.octets[..self.len]
    }

    /// Replaces the octets. If there are as many as before, no other octet is written.
    #[inline(always)]
    pub(crate) fn fill(&mut self, octets: &[u8])
        requires { length octets.now ≤ N }
        ensures { self.new ≡ octets.now }
    {
        let len = octets.len();
        self.set_len(len);
        self.octets[..len].copy_from_slice(octets);
    }

    /// Sets the number of octets; their values are arbitrary.
    #[inline(always)]
    fn set_len(&mut self, len: usize)
        requires { len ≤ N }
        ensures { length self.new ≡ len }
    {
        // Payloads of one stream have one length, so the cell is zeroed only next to marks without a payload.
        if self.len != len {
            self.blank(len);
        }
    }

    /// Replaces the octets by `len` zeros.
    // Out of line: it runs rarely, and `fill` stays small at each place that it is inlined to.
    #[inline(never)]
    fn blank(&mut self, len: usize)
        requires { len ≤ N }
        ensures { self.new ≡ replicate len 0 }
    {
        self.octets.fill(0);
        self.len = len;
    }
}
