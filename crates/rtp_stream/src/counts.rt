//! The counts of a stream's arrivals and slots.
ghost use Rattle.rtp_stream.specs.CountsFacts.{increased_at};
ghost use Rattle.rtp_stream.specs.declared.mark.Body.{Body};
ghost use Rattle.std.specs.Prelude.{◌≡◌, true, ◌+◌, ◌≤◌, ◌<◌, ◌^◌, sum};

use crate::fate::Fate;
use crate::path::Path;

/// The number of arrivals by fate and path, and of slots by body. The counts balance in every value.
///
/// A field with the name of a `Fate` counts the arrivals of that fate.
#[derive(Clone, Copy, Debug, PartialEq, Eq)]
pub struct Counts {
    /// All arrivals except those that came after a close, or after 2^62 others.
    pub arrived: u64,
    /// Packets taken, those that restarted the stream included.
    pub taken: u64,
    /// The packets taken, by the path that brought them; a path that the stream lacks has 0.
    pub taken_by: [u64; 4],
    pub double: u64,
    pub unlike: u64,
    pub off_grid: u64,
    pub late: u64,
    pub ahead: u64,
    pub wrong_source: u64,
    /// Slots produced with a payload.
    pub got: u64,
    /// Slots produced as lost.
    pub lost: u64,
    /// Arrivals that opened a new epoch; each is counted as taken too.
    pub restarts: u64,
    pub ghost balanced: { arrived ≡ taken + double + unlike + off_grid + late + ahead + wrong_source },
    pub ghost by_path: { taken ≡ sum taken_by },
    pub ghost given: { got ≤ taken },
    pub ghost restarted: { restarts ≤ taken },
}

/// Adds one to a path's count.
fn add_one_at(numbers: &mut [u64; 4], path: Path)
    requires { sum numbers.old < 2 ^ 63 }
    ensures value { numbers.new ≡ increased_at path numbers.old }
    ensures total { sum numbers.new ≡ sum numbers.old + 1 }
{
    numbers[usize::from(path.number())] += 1;
}

impl Counts {
    ghost use Rattle.rtp_stream.specs.CountsFacts.{empty_tally, with_fate, with_body};
    ghost use Rattle.rtp_stream.specs.Counts.{tally_of, is_got_body};

    /// Returns counts of 0: nothing has arrived, and no slot was produced.
    pub fn new() -> Self
        ensures { tally_of result ≡ empty_tally }
    {
        Counts {
            arrived: 0,
            taken: 0,
            taken_by: [0; 4],
            double: 0,
            unlike: 0,
            off_grid: 0,
            late: 0,
            ahead: 0,
            wrong_source: 0,
            got: 0,
            lost: 0,
            restarts: 0,
        }
    }

    /// Counts an arrival on a path by its fate.
    #[inline(always)]
    pub fn add_fate(&mut self, path: Path, fate: Fate)
        requires { self.old.arrived < 2 ^ 62 }
        ensures { tally_of self.new ≡ with_fate (tally_of self.old) path fate }
    {
        match fate {
            // These two are not counted, so that counts never wrap.
            Fate::Closed | Fate::CountersFull => {}
            Fate::WrongSource => {
                self.wrong_source += 1;
                self.arrived += 1;
            }
            Fate::OffGrid => {
                self.off_grid += 1;
                self.arrived += 1;
            }
            Fate::Late => {
                self.late += 1;
                self.arrived += 1;
            }
            Fate::Ahead => {
                self.ahead += 1;
                self.arrived += 1;
            }
            Fate::Taken => {
                add_one_at(&mut self.taken_by, path);
                self.taken += 1;
                self.arrived += 1;
            }
            Fate::Double => {
                self.double += 1;
                self.arrived += 1;
            }
            Fate::Unlike => {
                self.unlike += 1;
                self.arrived += 1;
            }
            Fate::Restarted => {
                add_one_at(&mut self.taken_by, path);
                self.taken += 1;
                self.restarts += 1;
                self.arrived += 1;
            }
        }
    }

    /// Counts a slot: with a payload if `got`, else as lost.
    #[inline]
    pub fn add_slot(&mut self, got: bool)
        requires held { got ≡ true → self.old.got < self.old.taken }
        requires few { self.old.lost < 2 ^ 63 }
        ensures { (body : Body) → is_got_body body ≡ got → tally_of self.new ≡ with_body (tally_of self.old) body }
    {
        if got {
            self.got += 1;
        } else {
            self.lost += 1;
        }
    }
}
