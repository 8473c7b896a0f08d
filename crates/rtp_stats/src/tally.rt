//! The tally of a stream's packets. `fate_counts` counts fates, `window_copies` finds missed numbers, and `margins`
//! keeps arrival margins.
ghost use Rattle.std.specs.Prelude.{
  ◌≡◌,
  ◌+◌,
  ◌^◌,
  ◌<◌,
  List,
  [],
  ◌∷◌,
  length,
  replicate,
  slice_index_or,
  slice_set,
  IfOk,
  IfSome,
  IsNone,
};
ghost use Rattle.rtp_stream.specs.declared.stream_spec.Stream.{Stream};
ghost use Rattle.rtp_stats.specs.Offer.{Offer};
ghost use Rattle.rtp_stats.specs.declared.tally.margins.MarginSecond.{MarginSecond};
ghost use Rattle.rtp_stats.specs.WindowCopies.{empty_entry};
ghost use Rattle.rtp_stats.specs.Missed.{missed_of};
ghost use Rattle.rtp_stats.specs.Offers.{ahead_of, count_in_64_bits, double_of, first_of, late_of, unlike_of};
ghost use Rattle.rtp_stats.specs.Repeats.{repeats_of};
ghost use Rattle.rtp_stats.specs.MarginSecond.{AreNewSeconds, place_of, second_after};
ghost use Rattle.rtp_stats.specs.Margins.{IsGreatest, IsLatest, IsLeast, IsMedian, last_spares, second_of};

use crate::arrival_margin::ArrivalMargin;
use crate::path_tally::PathTally;
use crate::tally::fate_counts::FateCounts;
use crate::tally::margins::{MarginSecond, second_of};
use crate::tally::repeats::note_repeat;
use crate::tally::window_copies::{WindowCopies, note_copy};
use rtp_stream::{Fate, Path, StreamSpec};
use std::alloc::{AllocError, Global};
use std::marker::Model;

mod fate_counts;
pub(crate) mod margins;
mod repeats;
mod window_copies;

/// The fates and arrival margins of the packets that were offered to one stream, path by path.
///
/// `new` allocates all memory. No other call allocates.
#[derive(Drop)]
pub struct StreamTally {
    counts: FateCounts,
    missed: [u64; 4],
    /// The packets in a row, by path, that repeat numbers which were received in time.
    repeats: [u64; 4],
    /// An entry for each place of the window.
    entries: Vec<WindowCopies>,
    /// The latest even second and the latest odd second of each path in which a packet arrived.
    // Two for each path: one second is read while the next one is filled.
    seconds: Vec<MarginSecond>,
}

impl Model for StreamTally {
    ghost use Rattle.std.specs.Prelude.{◌≡◌, ◌<◌, length};
    ghost use Rattle.rtp_stats.specs.Tally.{TallyState};

    ghost Value = { TallyState };

    ghost view = { λ t.
        record {
          counts = t.counts;
          missed = t.missed;
          repeats = t.repeats;
          entries = t.entries.items;
          seconds = t.seconds.items;
        } };

    ghost invariant = { λ t. record { places : 0 < length t.entries.items; eight : length t.seconds.items ≡ 8 } };
}

/// Allocates the entries of a window.
fn new_entries(alloc: Global, window: u16) -> Result<Vec<WindowCopies>, AllocError>
    ensures { IfOk result (λ entries. entries.items ≡ replicate window empty_entry) }
{
    let mut entries = Vec::with_capacity(alloc, usize::from(window))?;
    for _ in 0..window {
        entries.push(WindowCopies::new())?;
    }
    Ok(entries)
}

/// Allocates the seconds of four paths, each path's even second first.
fn new_seconds(alloc: Global) -> Result<Vec<MarginSecond>, AllocError>
    ensures { IfOk result (λ seconds. AreNewSeconds 8 seconds.items) }
{
    let mut seconds = Vec::with_capacity(alloc, 8)?;
    for place in 0..8_u64 {
        seconds.push(MarginSecond::new(place % 2))?;
    }
    Ok(seconds)
}

/// Returns the place of a path's second, 0 to 7.
#[inline(always)]
fn place_of(path: Path, second: u64) -> usize
    ensures value { result ≡ place_of path second }
    ensures few { result < 8 }
{
    2 * usize::from(path.number()) + (second % 2) as usize
}

/// Notes the arrival margin of a path's packet.
#[inline(always)]
fn note_spare(seconds: &mut [MarginSecond], path: Path, spare: u32, now: i64)
    requires { length seconds.old ≡ 8 }
    ensures { (d : MarginSecond) → seconds.new ≡ slice_set seconds.old (place_of path (second_of now))
        (second_after (second_of now) spare (slice_index_or seconds.old (place_of path (second_of now)) d)) }
{
    let second = second_of(now);
    seconds[place_of(path, second)].note(second, spare);
}

impl StreamTally {
    ghost use Rattle.rtp_stats.specs.Tally.{HasTally, TallyState};

    /// Returns a tally of a stream, before any packet was offered. Returns `AllocError` if an allocation fails.
    pub fn new(alloc: Global, spec: &StreamSpec) -> Result<StreamTally, AllocError>
        ensures { IfOk result (λ tally. HasTally spec.now [] tally) }
    {
        let entries = new_entries(alloc, spec.window())?;
        let seconds = new_seconds(alloc)?;
        Ok(StreamTally {
            counts: FateCounts::new(),
            missed: [0; 4],
            repeats: [0; 4],
            entries,
            seconds,
        })
    }

    /// Adds a packet that was offered on a path at the clock reading `now`, with its fate.
    ///
    /// `spare` is its arrival margin, in sampling instants at 48 kHz; `None` if it arrived at or after its deadline or
    /// has none. `again` is true if its number is that of the last packet that was taken before it, or less.
    #[inline]
    pub fn add(
        &mut self,
        path: Path,
        fate: Fate,
        seq: u16,
        spare: Option<u32>,
        now: i64,
        again: bool,
    )
        ensures { (stream : Stream) (offers : List Offer) → HasTally stream offers self.old
            → HasTally stream
            (record { path = path; fate = fate; seq = seq; spare = spare; now = now; again = again } ∷ offers)
            self.new }
    {
        self.counts.add(path, fate);
        note_copy(
            self.entries.as_mut_slice(),
            &mut self.missed,
            path,
            fate,
            seq,
        );
        note_repeat(&mut self.repeats, path, fate, again);
        if let Some(spare) = spare {
            note_spare(self.seconds.as_mut_slice(), path, spare, now);
        }
    }

    /// Returns the counts of a path's packets.
    pub fn path(&self, path: Path) -> PathTally
        ensures first { (stream : Stream) (offers : List Offer) → HasTally stream offers self.now
            → result.first ≡ count_in_64_bits (first_of path offers) }
        ensures double { (stream : Stream) (offers : List Offer) → HasTally stream offers self.now
            → result.double ≡ count_in_64_bits (double_of path offers) }
        ensures unlike { (stream : Stream) (offers : List Offer) → HasTally stream offers self.now
            → result.unlike ≡ count_in_64_bits (unlike_of path offers) }
        ensures late { (stream : Stream) (offers : List Offer) → HasTally stream offers self.now
            → result.late ≡ count_in_64_bits (late_of path offers) }
        ensures ahead { (stream : Stream) (offers : List Offer) → HasTally stream offers self.now
            → result.ahead ≡ count_in_64_bits (ahead_of path offers) }
        ensures repeated { (stream : Stream) (offers : List Offer) → HasTally stream offers self.now
            → result.repeated ≡ count_in_64_bits (repeats_of path offers) }
        ensures missed { (stream : Stream) (offers : List Offer) → HasTally stream offers self.now
            → result.missed ≡ count_in_64_bits (missed_of stream.window path offers) }
    {
        let at = usize::from(path.number());
        PathTally {
            first: self.counts.first[at],
            double: self.counts.double[at],
            unlike: self.counts.unlike[at],
            late: self.counts.late[at],
            ahead: self.counts.ahead[at],
            repeated: self.repeats[at],
            missed: self.missed[at],
        }
    }

    /// Returns the arrival margins of a path's packets in the whole second before that of the clock reading `now`;
    /// `None` if there were none.
    ///
    /// After the clock went back it may return `None` for an earlier second that had packets.
    pub fn spare(&self, path: Path, now: i64) -> Option<ArrivalMargin>
        ensures least { (stream : Stream) (offers : List Offer) → HasTally stream offers self.now
            → IfSome result (λ spare. IsLeast (last_spares path now offers) spare.least) }
        ensures greatest { (stream : Stream) (offers : List Offer) → HasTally stream offers self.now
            → IfSome result (λ spare. IsGreatest (last_spares path now offers) spare.greatest) }
        ensures second { IfSome result (λ spare. spare.second + 1 ≡ second_of now) }
        ensures median { (stream : Stream) (offers : List Offer) → HasTally stream offers self.now
            → length (last_spares path now offers) < 2 ^ 32
            → IfSome result (λ spare. IsMedian (last_spares path now offers) spare.median) }
        ensures none { (stream : Stream) (offers : List Offer) → HasTally stream offers self.now → IsLatest now offers
            → IsNone result → last_spares path now offers ≡ [] }
    {
        let second = second_of(now);
        // There is no second before the first.
        if second == 0 {
            return None;
        }
        self.seconds[place_of(path, second - 1)].margin_in(second - 1)
    }
}
