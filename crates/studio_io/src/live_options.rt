//! The options of a live run, in addition to its studio.

/// The options of a live run: its end, its output while it runs, and its threads.
#[derive(Clone, Copy, PartialEq, Eq)]
pub struct LiveOptions {
    /// The sampling instants at 48 kHz after which the feeds end. If `None`, the clock does not end them.
    pub instants: Option<i64>,
    /// The period in seconds of the lines with each stream's counts. If `None`, the counts are written only at the end.
    pub stats: Option<u32>,
    /// The port of 127.0.0.1 for the page of the run. At 0 the system picks one. If `None`, there is no page.
    pub page: Option<u16>,
    /// True if the feeds end at the end of standard input.
    pub until_eof: bool,
    /// True if the run uses an engine in one thread instead of workers.
    pub one_thread: bool,
    /// The seconds after the opening in which each copy of the mix waits as if two streams were missing in it. 0 if
    /// none waits for that.
    pub yield_seconds: u32,
}
