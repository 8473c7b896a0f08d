//! One stream, from datagrams to marks.
ghost use Rattle.std.specs.Prelude.{◌≡◌, ◌<◌, ◌≤◌, ◌^◌, pos, ◌≤ℤ◌, true, OnOk, IfOk, IfErr};
ghost use Rattle.rtp_stream.specs.History.{is_well_timed};
ghost use Rattle.rtp_stream.specs.Marks.{marks_of};
ghost use Rattle.example_callers.specs.declared.receive.ReceiveFault.TheVariants.{Clock, Memory, Path as NoPath};
ghost use Rattle.example_callers.specs.Receive.{IsFaultOf, are_on_paths, history_of};

use crate::arrival::Arrival;
use path_merge::{ClockFault, Mark, Merge, Path, StreamSpec};
use rtp_wire::read;
use std::alloc::{AllocError, AllocFailed, Global};
use thiserror::Error;

/// The reason why arrivals have no marks.
#[derive(Debug, Drop, Error)]
pub enum ReceiveFault {
    /// A datagram came on a path that the stream does not have.
    #[error("a path that the stream lacks")]
    Path,
    /// A clock reading is less than the one before it, or more than 2^60.
    #[error("{0}")]
    Clock(ClockFault),
    /// An allocation failed.
    #[error("out of memory")]
    Memory,
}

impl From<ClockFault> for ReceiveFault {
    ghost from_gives = { λ clock fault. fault ≡ Clock clock };

    fn from(fault: ClockFault) -> ReceiveFault {
        ReceiveFault::Clock(fault)
    }
}

impl From<AllocError> for ReceiveFault {
    ghost from_gives = { λ _ fault. fault ≡ Memory };

    fn from(_error: AllocError) -> ReceiveFault {
        ReceiveFault::Memory
    }
}

impl<T: Drop> From<AllocFailed<T>> for ReceiveFault {
    ghost from_gives = { λ _ fault. fault ≡ Memory };

    fn from(_refused: AllocFailed<T>) -> ReceiveFault {
        ReceiveFault::Memory
    }
}

/// Returns an error for a path that the stream does not have.
fn check_path(spec: &StreamSpec, path: Path) -> Result<(), ReceiveFault>
    ensures here { OnOk result (path < spec.now.paths) }
    ensures lacking { IfErr result (λ fault. (fault ≡ NoPath) × (spec.now.paths ≤ path)) }
{
    if path.number() >= spec.paths() {
        return Err(ReceiveFault::Path);
    }
    Ok(())
}

/// Returns the marks of a stream that had these arrivals, the earliest first, and was then closed.
///
/// The time of an arrival is a clock reading. First the slots whose deadlines it reaches become marks; then the
/// datagram is offered, if it is a packet of the stream.
pub fn receive_stream(
    alloc: Global,
    spec: StreamSpec,
    open_at: i64,
    arrivals: &[Arrival<'_>],
) -> Result<Vec<Mark>, ReceiveFault>
    requires not_low { pos 0 ≤ℤ open_at }
    requires not_high { open_at ≤ℤ pos (2 ^ 60) }
    ensures marks { IfOk result (λ marks. marks.items ≡ marks_of spec open_at (history_of spec arrivals.now)) }
    ensures well_timed { OnOk result (is_well_timed open_at (history_of spec arrivals.now) ≡ true) }
    ensures paths { OnOk result (are_on_paths spec arrivals.now ≡ true) }
    ensures fault { IfErr result (IsFaultOf spec open_at arrivals.now) }
{
    let mut merge = Merge::new(alloc, spec, open_at)?;
    let mut marks = Vec::new(alloc);
    for arrival in arrivals {
        while let Some(mark) = merge.advance(arrival.time)? {
            marks.push(mark)?;
        }
        check_path(&spec, arrival.path)?;
        if let Ok(view) = read(arrival.datagram) {
            if let Ok(packet) = spec.admit(&view) {
                merge.offer(arrival.path, packet);
            }
        }
    }
    merge.close();
    while let Some(mark) = merge.drain() {
        marks.push(mark)?;
    }
    Ok(marks)
}
