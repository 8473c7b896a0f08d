//! The error of a WAV file that is created.
use thiserror::Error;

/// The error of a WAV file.
#[derive(Clone, Copy, Debug, PartialEq, Eq, Error)]
pub enum FileFault {
    /// The file could not be created.
    #[error("not made")]
    NotCreated,
    /// A write failed or took no octet, or the file has more than 2^62 octets of data.
    #[error("write")]
    Write,
}
