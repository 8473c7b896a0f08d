//! The error of an output that could not be created.

use std::alloc::{AllocError, AllocFailed};
use studio_io::OutputKind;

/// The error of an output that could not be created.
#[derive(Clone, Copy, Debug, PartialEq, Eq)]
pub enum OutputFault {
    /// An allocation failed.
    Memory,
    /// There is something at the path of the output of this kind. It was not touched.
    Exists(OutputKind),
    /// The system did not create or open the output of this kind.
    NotCreated(OutputKind),
}

impl From<AllocError> for OutputFault {
    fn from(_fault: AllocError) -> OutputFault {
        OutputFault::Memory
    }
}

impl<T: Drop> From<AllocFailed<T>> for OutputFault {
    fn from(_refused: AllocFailed<T>) -> OutputFault {
        OutputFault::Memory
    }
}
