//! The merge of a stream's paths: its state, its time and its close. `packets_in` holds the calls that take packets,
//! `marks_out` those that produce marks, and `lost_slots` the call that passes lost slots without their marks.
ghost use Rattle.std.specs.Prelude.{◌≡◌, ℕ, ◌+◌, ◌^◌, ◌≤◌, ◌∷◌, ◌++◌, [], List, ℤ, pos, ◌≤ℤ◌, IfOk, true, false};
ghost use Rattle.std.specs.FinMap as map;
ghost use Rattle.rtp_stream.specs.declared.event.Event.{Event};
ghost use Rattle.rtp_stream.specs.declared.event.Event.TheVariants.{Close};
ghost use Rattle.rtp_stream.specs.Counts.{tally_of};
ghost use Rattle.rtp_stream.specs.declared.stream_spec.Stream.{Stream};

use crate::slot_window::SlotWindow;
use crate::window::Window;
use rtp_stream::{Anchor, Counts, Probation, StreamSpec, Track};
use std::alloc::{AllocError, Global};
use std::marker::Model;

mod lost_slots;
mod marks_out;
mod packets_in;

/// The merge of a stream's paths: each number is passed on once, in order, at its deadline, with the first copy that
/// came in time or as lost (SMPTE ST 2022-7).
///
/// Inputs are `offer` or `offer_ref` for packets, `advance` or `pass_to` for readings of the clock, and `close`.
/// Outputs are the marks that `advance` returns, and `drain` after a close; or those that `mark_to` returns,
/// borrowed, on the way to a reading or to the end. `time`, `counts`, `closed`, `ended` and `next_deadline` read
/// the state. No call except `new` takes memory.
#[derive(Drop)]
pub struct Merge<V: Window> {
    spec: StreamSpec,
    time: i64,
    anchor: Option<Anchor>,
    window: V,
    /// The media time of the window's base, once there is an anchor.
    next_media: i64,
    /// The time of the last Quiet, and before one the opening time minus the latency.
    quiet: i64,
    counts: Counts,
    closed: bool,
    ended: bool,
    probations: [Probation; 4],
    tracks: [Track; 4],
}

impl<V: Window> Model for Merge<V> {
    ghost use Rattle.path_merge.specs.MergeState.{MergeState, IsSound};
    ghost use Rattle.rtp_stream.specs.Counts.{tally_of};
    ghost use Rattle.std.specs.FinMap as map;
    ghost use Rattle.std.specs.Coded.{codes, coded_ℕ};
    ghost use Rattle.std.specs.Ordering.{nat_cmp};
    ghost use Rattle.rtp_stream.specs.contracts.packet.Packet as packet;

    ghost Value = { MergeState };

    ghost coded = { Prim.hlevel (codes, map.code {R = nat_cmp} coded_ℕ packet.the_row.coded) };

    ghost view = { λ m. record {
      spec = m.spec;
      time = m.time;
      anchor = m.anchor;
      base = V.base m.window;
      size = V.size m.window;
      held = V.held m.window;
      quiet = m.quiet;
      counts = tally_of m.counts;
      closed = m.closed;
      ended = m.ended;
      probations = m.probations;
      tracks = m.tracks;
    } };

    ghost invariant = { λ m. IsSound (view m) m.next_media };
}

impl Merge<SlotWindow> {
    ghost use Rattle.path_merge.specs.Merge.{HasHistory};

    /// Returns a merge over a window of slots, at its opening time in sampling instants, or an error if the
    /// allocation of the window fails.
    pub fn new(alloc: Global, spec: StreamSpec, open_at: i64) -> Result<Self, AllocError>
        requires not_low { pos 0 ≤ℤ open_at }
        requires not_high { open_at ≤ℤ pos (2 ^ 60) }
        ensures stands { IfOk result (λ merge. HasHistory spec open_at merge [] 0) }
        ensures time { IfOk result (λ merge. merge.time ≡ open_at) }
        ensures open_yet { IfOk result (λ merge. merge.closed ≡ false) }
    {
        let window = SlotWindow::new(alloc, &spec)?;
        Ok(Merge::with_window(window, spec, open_at))
    }
}

impl<V: Window> Merge<V> {
    ghost use Rattle.path_merge.specs.MergeState.{MergeState};
    ghost use Rattle.path_merge.specs.Merge.{HasHistory};
    ghost use Rattle.path_merge.specs.Window.{IsEmpty};
    ghost use Rattle.path_merge.specs.Steps.{next_deadline_of};

    /// Returns a merge over an empty window of the stream's size, at its opening time in sampling instants.
    pub fn with_window(window: V, spec: StreamSpec, open_at: i64) -> Self
        requires not_low { pos 0 ≤ℤ open_at }
        requires not_high { open_at ≤ℤ pos (2 ^ 60) }
        requires empty { IsEmpty (V.held window) }
        requires size { V.size window ≡ spec.window }
        ensures stands { HasHistory spec open_at result [] 0 }
        ensures time { result.time ≡ open_at }
        ensures open_yet { result.closed ≡ false }
    {
        let quiet = open_at - i64::from(spec.latency());
        Merge {
            spec,
            time: open_at,
            anchor: None,
            window,
            next_media: 0,
            quiet,
            counts: Counts::new(),
            closed: false,
            ended: false,
            probations: [Probation::new(); 4],
            tracks: [Track::new(); 4],
        }
    }

    /// Returns the time in sampling instants: the opening time, or the time to which `advance` or `pass_to` moved it.
    pub fn time(&self) -> i64
        ensures { result ≡ self.now.time }
    {
        self.time
    }

    /// Returns the counts of the arrivals and slots so far.
    pub fn counts(&self) -> Counts
        ensures { tally_of result ≡ self.now.counts }
    {
        self.counts
    }

    /// Returns true if there was a close.
    pub fn closed(&self) -> bool
        ensures { result ≡ self.now.closed }
    {
        self.closed
    }

    /// Returns true if the end was returned: nothing is left to drain.
    pub fn ended(&self) -> bool
        ensures { result ≡ self.now.ended }
    {
        self.ended
    }

    /// Returns the deadline of the next slot, or `None` before the first packet is taken and after a close.
    pub fn next_deadline(&self) -> Option<i64>
        ensures { result ≡ next_deadline_of self.now }
    {
        if self.closed {
            return None;
        }
        self.anchor?;
        Some(self.next_media + i64::from(self.spec.latency()))
    }

    /// Ends the stream: later packets and clock readings are refused. `drain` then returns the remaining marks. A
    /// second close changes nothing.
    pub fn close(&mut self)
        ensures stands { (stream : Stream) (open_at : ℤ) (events : List Event) (k : ℕ)
            → HasHistory stream open_at self.old events k
            → HasHistory stream open_at self.new (events ++ Close ∷ []) k }
        ensures changed { self.new ≡ record self.old { closed = true } }
    {
        self.closed = true;
    }
}
