//! The numbers of a path (`path`), of a stream (`stream`) and of an output channel (`output`), each with its name, its
//! kind, its description and its value. `/state` and `/metrics` both use them.

pub(crate) mod output;
pub(crate) mod path;
pub(crate) mod stream;

/// A number that is shown.
#[derive(Clone, Copy, PartialEq, Eq)]
pub(crate) enum Number {
    /// A number of things, or a time.
    Count(u64),
    /// A change, which may be negative.
    Change(i64),
}

/// The kind of a number, as Prometheus has it.
#[derive(Clone, Copy, PartialEq, Eq)]
pub(crate) enum MetricKind {
    /// A number that only rises, from 0 at the start.
    Counter,
    /// A number that may fall.
    Gauge,
}
