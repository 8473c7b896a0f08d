//! The packets in a row, path by path, that repeat numbers which were received in time.
ghost use Rattle.std.specs.Prelude.{◌≡◌, ◌<◌, slice_set};
ghost use Rattle.rtp_stats.specs.Repeats.{rows_after};

use rtp_stream::{Fate, Path};

/// Notes a packet of a path in the rows of four paths. `again` is true if its number is that of the last packet that
/// was taken before it, or less.
#[inline(always)]
pub(crate) fn note_repeat(rows: &mut [u64; 4], path: Path, fate: Fate, again: bool)
    ensures { rows.new ≡ rows_after path fate again rows.old }
{
    let at = usize::from(path.number());
    match fate {
        Fate::Late if again => rows[at] = rows[at].saturating_add(1),
        Fate::Restarted => *rows = [0; 4],
        Fate::Late | Fate::OffGrid | Fate::Ahead | Fate::Taken | Fate::Double | Fate::Unlike => {
            rows[at] = 0
        }
        // Not of the stream, or no longer counted.
        Fate::Closed | Fate::CountersFull | Fate::WrongSource => {}
    }
}
