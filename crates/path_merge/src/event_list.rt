//! A merge over a whole list of events.
ghost use Rattle.std.specs.Prelude.{
  ◌≡◌,
  ℕ,
  ◌+◌,
  ◌^◌,
  ◌∷◌,
  ◌++◌,
  [],
  List,
  ℤ,
  pos,
  ◌≤ℤ◌,
  None,
  true,
  OnOk,
  IfOk,
  IfErr,
  All,
  take,
};
ghost use Rattle.rtp_stream.specs.declared.event.Event.{Event};
ghost use Rattle.rtp_stream.specs.declared.event.Event.TheVariants.{Tick};
ghost use Rattle.rtp_stream.specs.History as spec;
ghost use Rattle.rtp_stream.specs.History.{first_clock_fault, is_well_timed};
ghost use Rattle.rtp_stream.specs.Marks.{marks_of};
ghost use Rattle.rtp_stream.specs.Marks as slots;
ghost use Rattle.path_merge.specs.Merge.{HasHistory};
ghost use Rattle.path_merge.specs.Run.{HasGiven, IsEventOf, IsInOrder, IsRunFault};
ghost use Rattle.path_merge.specs.Clock.{clock_fault_of};
ghost use Rattle.rtp_stream.specs.declared.stream_spec.Stream.{Stream};

use crate::clock::clock_fault;
use crate::merge::Merge;
use crate::window::Window;
use rtp_stream::{Event, Mark, MarkKind, StreamSpec};
use std::alloc::{AllocError, Global};
use thiserror::Error;

/// The reason why a list of events has no marks.
#[derive(Debug, Drop, Error)]
pub enum RunFault {
    /// A clock reading goes back, or past 2^60, or comes after a close: the first, by its place in the list.
    #[error("the clock reading at place {0} is out of order")]
    Clock(usize),
    /// An allocation failed.
    #[error("out of memory")]
    Memory(AllocError),
}

/// Returns the marks of a list of events, in order.
///
/// Returns `RunFault::Clock` if a clock reading is out of order, before memory is taken, and `RunFault::Memory` if an
/// allocation fails.
pub fn run_merge(
    alloc: Global,
    spec: StreamSpec,
    open_at: i64,
    events: &[Event],
) -> Result<Vec<Mark>, RunFault>
    requires not_low { pos 0 ≤ℤ open_at }
    requires not_high { open_at ≤ℤ pos (2 ^ 60) }
    requires of_stream { All (IsEventOf spec) events.now }
    ensures marks { IfOk result (λ marks. marks.items ≡ marks_of spec open_at events.now) }
    ensures well_timed { OnOk result (is_well_timed open_at events.now ≡ true) }
    ensures fault { IfErr result (IsRunFault open_at events.now) }
{
    if let Some(place) = first_fault(open_at, events) {
        return Err(RunFault::Clock(place));
    }
    marks_given(alloc, spec, open_at, events).map_err(RunFault::Memory)
}

/// Returns the marks of a list of events whose clock readings are in order.
fn marks_given(
    alloc: Global,
    spec: StreamSpec,
    open_at: i64,
    events: &[Event],
) -> Result<Vec<Mark>, AllocError>
    requires not_low { pos 0 ≤ℤ open_at }
    requires not_high { open_at ≤ℤ pos (2 ^ 60) }
    requires of_stream { All (IsEventOf spec) events.now }
    requires well_timed { is_well_timed open_at events.now ≡ true }
    ensures { IfOk result (λ marks. marks.items ≡ marks_of spec open_at events.now) }
{
    let mut merge = Merge::new(alloc, spec, open_at)?;
    let mut marks = Vec::new(alloc);
    for event in events {
        take_event(&mut merge, event, &mut marks)?;
    }
    Ok(marks)
}

/// Returns the place of the first clock reading that is out of order, if there is one.
fn first_fault(open_at: i64, events: &[Event]) -> Option<usize>
    ensures { result ≡ first_clock_fault open_at events.now }
{
    let mut time = open_at;
    let mut closed = false;
    for (place, event) in events.iter().enumerate() {
        match clock_after(time, closed, event) {
            Some((now, shut)) => {
                time = now;
                closed = shut;
            }
            None => return Some(place),
        }
    }
    None
}

/// Returns the time after an event, and true if the stream is then closed; `None` if the event is a clock reading
/// out of order.
fn clock_after(time: i64, closed: bool, event: &Event) -> Option<(i64, bool)>
    ensures { result ≡ spec.clock_after time closed event.now }
{
    match event {
        Event::Arrive(_, _) => Some((time, closed)),
        Event::Tick(now) => match clock_fault(time, closed, *now) {
            Some(_) => None,
            None => Some((*now, closed)),
        },
        Event::Close => Some((time, true)),
    }
}

/// Passes an event to a merge, and appends the marks that the merge then produces.
fn take_event<V: Window>(
    merge: &mut Merge<V>,
    event: &Event,
    marks: &mut Vec<Mark>,
) -> Result<(), AllocError>
    requires of_stream { IsEventOf merge.old.spec event.now }
    requires in_order { IsInOrder merge.old event.now }
    ensures { OnOk result ((stream : Stream) (open_at : ℤ) (events : List Event)
        → HasGiven stream open_at merge.old events marks.old.items
        → HasGiven stream open_at merge.new (events ++ event.now ∷ []) marks.new.items) }
{
    match event {
        Event::Arrive(path, packet) => {
            let _ = merge.offer_ref(*path, packet.as_ref());
        }
        Event::Tick(now) => advance_to(merge, *now, marks)?,
        Event::Close => {
            merge.close();
            drain_to(merge, marks)?;
        }
    }
    Ok(())
}

/// Returns true if a mark is a slot.
fn is_slot(mark: &Mark) -> bool
    ensures { result ≡ slots.is_slot mark.now.kind }
{
    matches!(mark.kind(), MarkKind::Slot { .. })
}

/// Moves a merge's time to `now`, and appends the marks.
fn advance_to<V: Window>(
    merge: &mut Merge<V>,
    now: i64,
    marks: &mut Vec<Mark>,
) -> Result<(), AllocError>
    requires { clock_fault_of merge.old.time merge.old.closed now ≡ None }
    ensures { OnOk result ((stream : Stream) (open_at : ℤ) (events : List Event)
        → HasGiven stream open_at merge.old events marks.old.items
        → HasGiven stream open_at merge.new (events ++ Tick now ∷ []) marks.new.items) }
{
    // The label is the loop's name in its proof.
    'advances: loop {
        match merge.advance(now) {
            Ok(Some(mark)) => {
                // Only a slot may be followed by more marks at the same reading.
                let slot = is_slot(&mark);
                marks.push(mark)?;
                if !slot {
                    return Ok(());
                }
            }
            Ok(None) => return Ok(()),
            // The caller makes sure that no reading is refused, so this arm is never reached.
            Err(_) => return Ok(()),
        }
    }
}

/// Appends the marks that are left after a close.
fn drain_to<V: Window>(merge: &mut Merge<V>, marks: &mut Vec<Mark>) -> Result<(), AllocError>
    requires { merge.old.closed ≡ true }
    ensures { OnOk result ((stream : Stream) (open_at : ℤ) (events : List Event) (k : ℕ)
        → HasHistory stream open_at merge.old events k → marks.old.items ≡ take k (marks_of stream open_at events)
        → HasGiven stream open_at merge.new events marks.new.items) }
{
    // The label is the loop's name in its proof.
    'drains: loop {
        match merge.drain() {
            Some(mark) => marks.push(mark)?,
            None => return Ok(()),
        }
    }
}
