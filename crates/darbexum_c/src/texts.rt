//! Texts for C: each ends in a 0.
ghost use Rattle.std.specs.Prelude.{◌≡◌};
ghost use Rattle.darbexum_c.specs.Texts.{fault_text_of, buffer_after, unnamed_text_of};

use crate::codes::{
    BAD_GAIN, BAD_SHAPE, BAD_TIME, CLOSED, FULL, NO_ENGINE, NO_MEMORY, NO_PATH, NO_STREAM,
    NO_STUDIO, NO_TOML, NONE, SHORT_ROOM, TOO_FAR, TOO_MANY, UNFINISHED, WENT_BACK,
};

/// Writes a text to the front of a buffer, cut so that a 0 fits behind it. An empty buffer stays empty.
pub(crate) fn write_text(text: &[u8], buffer: &mut [u8])
    ensures { buffer.new ≡ buffer_after text.now buffer.old }
{
    let Some(last) = buffer.len().checked_sub(1) else {
        return;
    };
    let len = text.len().min(last);
    buffer[..len].copy_from_slice(&text[..len]);
    buffer[len] = 0;
}

/// Returns the text of a code.
pub(crate) fn fault_text(code: i32) -> &'static str
    ensures { result.now ≡ fault_text_of code }
{
    match code {
        NO_ENGINE => "the handle has no engine",
        UNFINISHED => "the turn isn't finished",
        NO_STREAM => "there is no such stream",
        NO_PATH => "the stream lacks the path",
        FULL => "the engine has taken 2^62 events",
        WENT_BACK => "the clock went back",
        TOO_FAR => "the clock is past 2^60",
        CLOSED => "the engine is closed",
        SHORT_ROOM => "the room is too short",
        NO_TOML => "the configuration is not TOML, or has more than 1048576 octets",
        NO_STUDIO => "the configuration describes no studio",
        NO_MEMORY => "out of memory",
        NONE => "there is none",
        BAD_SHAPE => "the gains are not one for each output and input channel",
        BAD_GAIN => "a gain is below -1048576 or above 1048576",
        BAD_TIME => "the time is before the next block, or past 2^60",
        TOO_MANY => "64 changes before the time are still to come",
        _ => unnamed_text(code),
    }
}

/// Returns the text of a number that is no code of a fault.
fn unnamed_text(code: i32) -> &'static str
    ensures { result.now ≡ unnamed_text_of code }
{
    if code >= 0 {
        return "no fault";
    }
    "unknown code"
}
