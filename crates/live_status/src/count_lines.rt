//! The schedule of the lines on standard error while a run goes on: of each stream's counts and time left, of each
//! path's drift and socket, and of the run.
ghost use Rattle.std.specs.Prelude.{◌≡◌, ◌⊎◌, ◌≢◌, [], ◌^◌, ◌-◌, ◌*◌, ◌+ℤ◌, IfOk, int_le, pos};
ghost use Rattle.std.specs.Int.{saturate_to_bits};
ghost use Rattle.live_status.specs.SnapshotLines.{WritesLines, snapshot_lines};

use crate::lines::snapshot::write_snapshot;
use status_page::Snapshot;
use std::alloc::{AllocError, Global};
use std::io::Write;
use studio_run::TextBuffer;

/// A second, in sampling instants.
const SECOND: i64 = 48_000;

/// The schedule of the lines, and the buffer for their text.
#[derive(Drop)]
pub(crate) struct CountLines {
    /// The period of the lines, in sampling instants at 48 kHz.
    every: i64,
    /// The time at which lines are due next, in sampling instants. After a failed write it is the greatest `i64`.
    next: i64,
    /// The buffer for a line, which is allocated once. It is empty between two calls, unless a write failed.
    text: TextBuffer,
    ghost empty: { next ≢ pos (2 ^ 63 - 1) → text ≡ [] },
}

impl CountLines {
    /// Returns a schedule with the first lines `seconds` seconds after `from`, which is in sampling instants at 48 kHz,
    /// and then with this period. Returns `AllocError` if an allocation fails.
    pub(crate) fn new(alloc: Global, from: i64, seconds: u32) -> Result<CountLines, AllocError>
        ensures every { IfOk result (λ lines. lines.every ≡ pos (seconds * 48_000)) }
        ensures next { IfOk result (λ lines. lines.next ≡ saturate_to_bits 63 (from +ℤ lines.every)) }
    {
        let every = i64::from(seconds).saturating_mul(SECOND);
        Ok(CountLines {
            every,
            next: from.saturating_add(every),
            text: TextBuffer::new(alloc)?,
        })
    }

    /// Returns true if lines are due at the time `now`.
    pub(crate) fn is_due(&self, now: i64) -> bool
        ensures { result ≡ int_le self.now.next now }
    {
        now >= self.next
    }

    /// Writes the lines of a snapshot at the time `now`, except those that standard error does not take at once. After
    /// a failed write nothing more is written.
    pub(crate) fn write_due<W: Write>(&mut self, now: i64, snapshot: &Snapshot, writer: &mut W)
        ensures written { WritesLines (self.new.next ≡ pos (2 ^ 63 - 1))
            (W.contents writer.old) (snapshot_lines now snapshot.now) (W.contents writer.new) }
        ensures next { (self.new.next ≡ saturate_to_bits 63 (now +ℤ self.old.every))
            ⊎ (self.new.next ≡ pos (2 ^ 63 - 1)) }
        ensures every { self.new.every ≡ self.old.every }
    {
        if self.next == i64::MAX {
            return;
        }
        // The next lines count from now and not from the time that was due, so a late call makes no burst of lines.
        self.next = match write_snapshot(&mut self.text, writer, now, snapshot) {
            Ok(()) => now.saturating_add(self.every),
            Err(_) => i64::MAX,
        };
    }
}
