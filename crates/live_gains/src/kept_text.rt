//! The text in which the gains of a run are kept: lines of a file of gains, as `play --gains` reads it.
ghost use Rattle.std.specs.Prelude.{◌≡◌, ◌++◌, OnOk};
ghost use Rattle.std.specs.Fmt.{signed_decimal};
ghost use Rattle.studio_io.specs.Gains.{gains_in};
ghost use Rattle.live_gains.specs.KeptText.{gains_text, kept_text, line_text, lines_text};

use gain_mix::{LiveSchedule, Matrix};
use itoa::Buffer;
use std::alloc::AllocError;

/// The first line of each text, by which a run knows a file that a run wrote.
pub const KEPT_LINE: &str = "# kept by darbexum\n";

/// Replaces `text` by the text of the gains that are in force at `from`, and of the changes at these times. Returns
/// `AllocError` if an allocation fails.
// The gains in force are those of a change at time 0, so that they are in force from the opening of a run on, whenever
// it opens.
pub(crate) fn write_kept(
    schedule: &LiveSchedule,
    from: i64,
    times: &[i64],
    text: &mut Vec<u8>,
) -> Result<(), AllocError>
    ensures { OnOk result (text.new.items ≡ kept_text schedule.now from times.now) }
{
    text.clear();
    text.extend_from_slice(KEPT_LINE.as_bytes())?;
    push_matrix(text, 0, schedule.at(from))?;
    push_lines(text, schedule, times)
}

/// Appends a line for each of these times, with the gains that are in force from then on.
fn push_lines(text: &mut Vec<u8>, schedule: &LiveSchedule, times: &[i64]) -> Result<(), AllocError>
    ensures { OnOk result (text.new.items ≡ text.old.items ++ lines_text schedule.now times.now) }
{
    for time in times {
        push_matrix(text, *time, schedule.at(*time))?;
    }
    Ok(())
}

/// Appends the line that sets all gains of a matrix from a time on.
fn push_matrix(text: &mut Vec<u8>, at: i64, matrix: &Matrix) -> Result<(), AllocError>
    ensures { OnOk result (text.new.items ≡ text.old.items ++ line_text at (gains_in matrix.now)) }
{
    push_line(text, at, matrix.gains())
}

/// Appends the line that sets all gains from a time on.
#[tactic(auto, unfolding(crate::specs::KeptText::line_text))]
fn push_line(text: &mut Vec<u8>, at: i64, gains: &[i32]) -> Result<(), AllocError>
    ensures { OnOk result (text.new.items ≡ text.old.items ++ line_text at gains.now) }
{
    text.extend_from_slice(b"gains ")?;
    push_number(text, at)?;
    push_gains(text, gains)?;
    text.extend_from_slice(b"\n")
}

/// Appends gains, each behind a space.
fn push_gains(text: &mut Vec<u8>, gains: &[i32]) -> Result<(), AllocError>
    ensures { OnOk result (text.new.items ≡ text.old.items ++ gains_text gains.now) }
{
    for gain in gains {
        text.extend_from_slice(b" ")?;
        push_number(text, i64::from(*gain))?;
    }
    Ok(())
}

/// Appends a number in decimal digits, with a minus sign if it is negative.
fn push_number(text: &mut Vec<u8>, number: i64) -> Result<(), AllocError>
    ensures { OnOk result (text.new.items ≡ text.old.items ++ signed_decimal number) }
{
    text.extend_from_slice(Buffer::new().format(number).as_bytes())
}
