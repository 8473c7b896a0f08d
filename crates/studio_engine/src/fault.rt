//! The errors of an engine's calls.
use thiserror::Error;

/// The reason why a datagram wasn't taken: the first of these. Nothing has changed.
#[derive(Clone, Copy, Debug, PartialEq, Eq, Error)]
pub enum ArriveFault {
    /// The last turn hasn't returned `None` yet.
    #[error("the turn isn't finished")]
    Unfinished,
    /// There is no such stream.
    #[error("there is no such stream")]
    Stream,
    /// The stream does not have the path.
    #[error("the stream lacks the path")]
    Path,
    /// 2^62 events were taken.
    #[error("the engine has taken 2^62 events")]
    Full,
}

/// The error of a call that has to wait until the last turn has returned `None`. Nothing has changed.
#[derive(Clone, Copy, Debug, PartialEq, Eq, Error)]
#[error("the turn isn't finished")]
pub struct Unfinished;
