//! The faults of a trace, and its first line.
ghost use Rattle.std.specs.Prelude.{◌<◌, length, IfOk, IfErr};
ghost use Rattle.studio_run.specs.Trace.{FailsInLine};
ghost use Rattle.studio_run.specs.LineEvent.{IsLineOf};

use crate::trace::line::{LineEvent, read_event, split_line};
use thiserror::Error;

/// The greatest number of events of a trace.
pub const MAX_EVENTS: usize = 1_000_000;

/// The fault of a line: the first of these that holds. Its text is the kind's word.
#[derive(Clone, Copy, Debug, PartialEq, Eq, Error)]
pub enum TraceFaultKind {
    /// The line has more than 4,096 octets, without its line feed.
    #[error("toolong")]
    TooLong,
    /// The text ends before its line feed.
    #[error("cut")]
    Cut,
    /// The first field is no word of the trace.
    #[error("word")]
    Word,
    /// The line has too few or too many fields for its word.
    #[error("fields")]
    Fields,
    /// A time or a stream is no decimal number, or is out of range.
    #[error("number")]
    Number,
    /// A datagram is not a hexadecimal text of at least one octet.
    #[error("hex")]
    Hex,
    /// The line has event 1,000,001; or, at line 0, the whole text has more than 67,108,864 octets.
    #[error("toomany")]
    TooMany,
    /// The allocation for an event failed. Always at line 0.
    #[error("memory")]
    Memory,
}

/// The first fault of a trace.
#[derive(Clone, Copy, Debug, PartialEq, Eq, Error)]
#[error("trace line {line}: {kind}")]
pub struct TraceFault {
    /// The number of the line, counted from 1, or 0 if no line is at fault.
    pub line: u32,
    pub kind: TraceFaultKind,
}

/// The fault of an allocation, which belongs to no line.
pub(crate) const OUT_OF_MEMORY: TraceFault = TraceFault {
    line: 0,
    kind: TraceFaultKind::Memory,
};

/// Reads the first line of a text that comes after `events` events: returns the event of the line, if it has one, and
/// the text after it.
pub(crate) fn read_line<'a>(
    text: &'a [u8],
    events: usize,
) -> Result<(Option<LineEvent<'a>>, &'a [u8]), TraceFaultKind>
    requires { 0 < length text.now }
    ensures ok { IfOk result (λ read. IsLineOf text.now events read.0 read.1.now) }
    ensures fault { IfErr result (FailsInLine text.now events) }
{
    let (line, rest) = split_line(text)?;
    match read_event(line) {
        Ok(Some(event)) => {
            // The number of events is tested last: event 1,000,001 is too many only if its line is good.
            if events < MAX_EVENTS {
                Ok((Some(event), rest))
            } else {
                Err(TraceFaultKind::TooMany)
            }
        }
        Ok(None) => Ok((None, rest)),
        Err(kind) => Err(kind),
    }
}
