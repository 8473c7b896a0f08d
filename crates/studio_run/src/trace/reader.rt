//! A trace, read event by event. Nothing here allocates.
ghost use Rattle.std.specs.Prelude.{◌≡◌, ◌<◌, ◌≤◌, [], ◌++◌, List, length, IfOk, IfErr, IfSome, OnOk, Ok, Err, None};
ghost use Rattle.studio_session.specs.Event.{TraceEvent};
ghost use Rattle.studio_run.specs.Trace.{trace_events};

use crate::trace::fault::{TraceFault, TraceFaultKind, read_line};
use crate::trace::text_events::{TextEvent, text_event};

/// The greatest length of a trace in octets, 64 MiB.
pub const MAX_TRACE_OCTETS: usize = 67_108_864;

/// A trace, read up to the beginning of a line.
#[derive(Drop)]
pub(crate) struct TraceReader<'a> {
    text: &'a [u8],
    /// The place where the next line begins.
    at: usize,
    /// The number of the line before it.
    line: u32,
    /// The number of events of the lines before it.
    events: usize,
    ghost within: { at ≤ length text.now },
    ghost few_lines: { line ≤ at },
    ghost few_events: { events ≤ at },
    ghost few_octets: { length text.now ≤ 67108864 },
}

impl<'a> TraceReader<'a> {
    ghost use Rattle.studio_run.specs.Reader.{HasRead};
    ghost use Rattle.studio_run.specs.Places.{IsPlace, said_at};

    /// Returns a reader at the first line, or the fault of a text that is too long.
    pub(crate) fn new(text: &'a [u8]) -> Result<Self, TraceFault>
        ensures none { IfOk result (λ reader. HasRead reader []) }
        ensures text { IfOk result (λ reader. reader.text.now ≡ text.now) }
        ensures fault { IfErr result (λ e. trace_events text.now ≡ Err e) }
    {
        if text.len() > MAX_TRACE_OCTETS {
            return Err(TraceFault {
                line: 0,
                kind: TraceFaultKind::TooMany,
            });
        }
        Ok(TraceReader {
            text,
            at: 0,
            line: 0,
            events: 0,
        })
    }

    /// Returns the next event, or `None` at the end.
    pub(crate) fn next(&mut self) -> Result<Option<TextEvent>, TraceFault>
        ensures fault { IfErr result (λ e. (before : List TraceEvent) → HasRead self.old before
            → trace_events self.old.text.now ≡ Err e) }
        ensures read { IfOk result (λ place. (before : List TraceEvent) → HasRead self.old before
            → HasRead self.new (before ++ said_at self.old.text.now place)) }
        ensures end { result ≡ Ok None → (before : List TraceEvent) → HasRead self.old before
            → trace_events self.old.text.now ≡ Ok before }
        ensures text { self.new.text.now ≡ self.old.text.now }
        ensures place { IfOk result (λ place. IfSome place (IsPlace self.old.text.now)) }
        ensures further { IfOk result (λ place. IfSome place (λ _. self.old.at < self.new.at)) }
    {
        while self.at < self.text.len() {
            let place = self.next_line()?;
            if place.is_some() {
                return Ok(place);
            }
        }
        Ok(None)
    }

    /// Returns the event of the next line, if it has one.
    fn next_line(&mut self) -> Result<Option<TextEvent>, TraceFault>
        requires { self.old.at < length self.old.text.now }
        ensures fault { IfErr result (λ e. (before : List TraceEvent) → HasRead self.old before
            → trace_events self.old.text.now ≡ Err e) }
        ensures read { IfOk result (λ place. (before : List TraceEvent) → HasRead self.old before
            → HasRead self.new (before ++ said_at self.old.text.now place)) }
        ensures text { self.new.text.now ≡ self.old.text.now }
        ensures place { IfOk result (λ place. IfSome place (IsPlace self.old.text.now)) }
        ensures further { OnOk result (self.old.at < self.new.at) }
    {
        let rest = &self.text[self.at..];
        let number = self.line + 1;
        let (event, after) = match read_line(rest, self.events) {
            Ok(read) => read,
            Err(kind) => return Err(TraceFault { line: number, kind }),
        };
        let end = self.text.len() - after.len() - 1;
        self.at = end + 1;
        self.line = number;
        match event {
            Some(event) => {
                self.events += 1;
                Ok(Some(text_event(end as u32, &event)))
            }
            None => Ok(None),
        }
    }
}
