//! The copies of the last number that was taken at each place of the window, from which missed numbers follow.
ghost use Rattle.std.specs.Prelude.{
  ◌≡◌,
  ℕ,
  ◌+◌,
  ◌%◌,
  ◌<◌,
  ◌&&◌,
  length,
  slice_index,
  slice_index_or,
  slice_set,
  if◌then◌else◌,
};
ghost use Rattle.rtp_stats.specs.Offers.{count_in_64_bits};
ghost use Rattle.rtp_stats.specs.WindowCopies.{empty_entry, entry_after, entry_of, misses, with_copy};
ghost use Rattle.rtp_stream.specs.Counts.{is_taken_fate};

use rtp_stream::{Fate, Path, is_taken};

/// The last number that was taken at a place of the window, and the paths that brought a copy of it since.
#[derive(Clone, Copy)]
pub(crate) struct WindowCopies {
    /// True once a number was taken at this place.
    taken: bool,
    seq: u16,
    brought: [bool; 4],
}

impl WindowCopies {
    /// Returns a place at which no number was taken.
    pub(crate) fn new() -> WindowCopies
        ensures { result ≡ empty_entry }
    {
        WindowCopies {
            taken: false,
            seq: 0,
            brought: [false; 4],
        }
    }

    /// Returns a place at which a number was just taken from a path.
    #[inline(always)]
    fn of(path: Path, seq: u16) -> WindowCopies
        ensures { result ≡ entry_of path seq }
    {
        let mut brought = [false; 4];
        brought[usize::from(path.number())] = true;
        WindowCopies {
            taken: true,
            seq,
            brought,
        }
    }

    /// Returns the place after a further copy of a number.
    #[inline(always)]
    fn with_copy(mut self, path: Path, seq: u16) -> WindowCopies
        ensures { result ≡ with_copy path seq self }
    {
        if self.taken && self.seq == seq {
            self.brought[usize::from(path.number())] = true;
        }
        self
    }

    /// Returns the place after one more packet with a number at it.
    #[inline(always)]
    fn after(self, path: Path, fate: Fate, seq: u16) -> WindowCopies
        ensures { result ≡ entry_after path fate seq self }
    {
        match fate {
            Fate::Taken | Fate::Restarted => WindowCopies::of(path, seq),
            Fate::Double | Fate::Unlike | Fate::Late => self.with_copy(path, seq),
            Fate::Closed | Fate::CountersFull | Fate::WrongSource | Fate::OffGrid | Fate::Ahead =>
                self,
        }
    }

    /// Returns true if a number was taken and this path brought no copy of it.
    #[inline(always)]
    fn misses(&self, path: usize) -> bool
        requires { path < 4 }
        ensures { result ≡ misses self.now path }
    {
        self.taken && !self.brought[path]
    }
}

/// Counts the number of a place as missed for each path that brought no copy of it.
#[inline(always)]
fn add_missed(missed: &mut [u64; 4], entry: &WindowCopies)
    ensures four { length missed.new ≡ 4 }
    ensures each { (path : ℕ) → path < 4 → slice_index missed.new path
        ≡ (if misses entry.now path then count_in_64_bits (slice_index missed.old path + 1)
        else slice_index missed.old path) }
{
    for path in 0..4 {
        if entry.misses(path) {
            missed[path] = missed[path].saturating_add(1);
        }
    }
}

/// Notes a packet at the place of its number. If the packet is taken, the paths without a copy of the number that was
/// there before have missed it.
#[inline(always)]
pub(crate) fn note_copy(
    entries: &mut [WindowCopies],
    missed: &mut [u64; 4],
    path: Path,
    fate: Fate,
    seq: u16,
)
    requires { 0 < length entries.old }
    ensures kept { (d : WindowCopies) → entries.new
        ≡ slice_set entries.old (seq % length entries.old)
        (entry_after path fate seq (slice_index_or entries.old (seq % length entries.old) d)) }
    ensures four { length missed.new ≡ 4 }
    ensures missed { (d : WindowCopies) (on : ℕ) → on < 4 → slice_index missed.new on
        ≡ (if is_taken_fate fate && misses (slice_index_or entries.old (seq % length entries.old) d) on
        then count_in_64_bits (slice_index missed.old on + 1) else slice_index missed.old on) }
{
    // The window divides 65,536, so the place of a number follows from its low 16 bits.
    let at = usize::from(seq) % entries.len();
    let entry = entries[at];
    if is_taken(fate) {
        add_missed(missed, &entry);
    }
    entries[at] = entry.after(path, fate, seq);
}
