//! The record of each path's arrivals by the clock `Follow`, which shows that a sender is astray.
ghost use Rattle.std.specs.Prelude.{◌≡◌, ◌<◌, ◌≤◌, ◌+◌, ◌^◌, ◌&&◌, ℕ, ℤ, pos, ◌≤ℤ◌, nat_eq, false};
ghost use Rattle.rtp_stream.specs.PacketRef.{packet_of};
ghost use Rattle.rtp_stream.specs.Anchor.{is_source_wanted};
ghost use Rattle.rtp_stream.specs.Fate as fate;
ghost use Rattle.rtp_stream.specs.Grid.{of_width};
ghost use Rattle.rtp_stream.specs.Follow.{
  all_paths,
  any_path,
  empties,
  end_since,
  is_astray,
  is_following,
  is_for_long,
  is_silent,
  may_empty,
  standing_of,
};
ghost use Rattle.rtp_stream.specs.FollowTrack as spec;
ghost use Rattle.rtp_stream.specs.FollowTrack.{
  is_early,
  is_slip_by,
  since_after,
  width_by,
  track_after,
  track_at,
  track_heard,
};
ghost use Rattle.rtp_stream.specs.declared.stream_spec.Stream.{Stream};

use crate::anchor::{Anchor, is_wanted_source, number_of};
use crate::arrival_bits::ArrivalBits;
use crate::fate::Fate;
use crate::packet::PacketRef;
use crate::path::Path;
use crate::stream_spec::{StreamClock, StreamSpec};

/// The time after which a path's arrivals no longer count, a second, if no other one came on it.
// Or else a path that brought a few early packets once would empty the stream for as long as it is silent.
const SILENCE: i64 = 48_000;

/// The time for which a path has to be astray before an arrival on it opens an epoch, 20 ms.
// The backlog of a receiver that was held up comes at one time, and so do the packets of a burst. The packets of a
// sender whose clock moved are late, or early, for good.
const MIN_ASTRAY: i64 = 960;

/// A time of a stream, and the number that is due next at that time.
#[derive(Clone, Copy, Debug)]
pub struct Moment {
    /// The time, in sample periods.
    pub time: i64,
    /// The number due next.
    pub next: u64,
}

/// The standing of an arrival by the clock `Follow`: in time, behind or beyond.
#[derive(Clone, Copy, Debug)]
pub struct Standing {
    /// The path on which it came in.
    pub path: Path,
    /// The time at which it came in, in sample periods.
    pub time: i64,
    /// One past its number if it is a copy in time, and else 0.
    pub end: u64,
    /// It is late, and neither its number nor a greater one has a copy in time.
    pub behind: bool,
    /// It is past the width of the window that is in force.
    pub beyond: bool,
}

/// The record of one path since the anchor.
#[derive(Clone, Copy, Debug)]
pub struct Track {
    /// The arrivals that were behind or beyond.
    pub astray: ArrivalBits,
    /// The arrivals that were beyond.
    pub early: ArrivalBits,
    /// One past the greatest number with a copy in time, or 0.
    pub end: u64,
    /// The time of the last arrival, if it counts.
    pub last: Option<i64>,
    /// The time since which the path is astray, if it is.
    pub since: Option<i64>,
}

/// Returns true if a path's last arrival was more than a second before a time.
fn is_silent(last: Option<i64>, time: i64) -> bool
    requires { pos 0 ≤ℤ time }
    ensures { result ≡ is_silent last time }
{
    match last {
        Some(last) => last < time - SILENCE,
        None => false,
    }
}

/// Returns true if a path is astray, and was so 20 ms before a time.
fn is_for_long(since: Option<i64>, time: i64) -> bool
    requires { pos 0 ≤ℤ time }
    ensures { result ≡ is_for_long since time }
{
    match since {
        Some(since) => since <= time - MIN_ASTRAY,
        None => false,
    }
}

/// Returns the time since which a path is astray, after an arrival at `time` with which it is, or is not.
fn since_after(since: Option<i64>, often: bool, time: i64) -> Option<i64>
    ensures { result ≡ since_after since often time }
{
    if !often {
        return None;
    }
    match since {
        Some(since) => Some(since),
        None => Some(time),
    }
}

impl Track {
    ghost use Rattle.rtp_stream.specs.FollowTrack.{no_track, silenced, track_after, track_with};

    /// Returns a track on which nothing came since the anchor.
    pub fn new() -> Track
        ensures { result ≡ no_track }
    {
        Track {
            astray: ArrivalBits::new(),
            early: ArrivalBits::new(),
            end: 0,
            last: None,
            since: None,
        }
    }

    /// Returns the track without its arrivals, which are too long ago to count.
    fn silenced(&self) -> Track
        ensures { result ≡ silenced self.now }
    {
        Track {
            astray: ArrivalBits::new(),
            early: ArrivalBits::new(),
            end: self.end,
            last: None,
            since: None,
        }
    }

    /// Returns the track with one arrival more.
    fn with(&self, standing: &Standing) -> Track
        ensures { result ≡ track_with self.now standing.now }
    {
        let astray = self.astray.with(standing.behind || standing.beyond);
        Track {
            astray,
            early: self.early.with(standing.beyond),
            end: self.end.max(standing.end),
            last: Some(standing.time),
            since: since_after(self.since, astray.are_often(), standing.time),
        }
    }

    /// Adds an arrival of the path.
    fn update(&mut self, standing: &Standing)
        requires { pos 0 ≤ℤ standing.now.time }
        ensures { self.new ≡ track_after self.old standing.now }
    {
        if is_silent(self.last, standing.time) {
            *self = self.silenced();
        }
        *self = self.with(standing);
    }

    /// Returns true if the path brings packets beyond again and again.
    fn is_early(&self, time: i64) -> bool
        requires { pos 0 ≤ℤ time }
        ensures { result ≡ is_early self.now time }
    {
        !is_silent(self.last, time) && self.early.are_often()
    }
}

/// Returns true if a path brings packets beyond again and again, or nothing from it is held.
fn may_empty(moment: Moment, track: &Track) -> bool
    requires { pos 0 ≤ℤ moment.time }
    ensures { result ≡ may_empty moment.next (is_early track.now moment.time) track.now.end }
{
    track.is_early(moment.time) || track.end <= moment.next
}

/// Returns true if packets come beyond again and again on some path.
fn is_any_early(time: i64, tracks: &[Track; 4]) -> bool
    requires { pos 0 ≤ℤ time }
    ensures { result ≡ any_path (λ path. is_early (track_at tracks.now path) time) }
{
    tracks[0].is_early(time)
        || tracks[1].is_early(time)
        || tracks[2].is_early(time)
        || tracks[3].is_early(time)
}

/// Returns true if packets come beyond again and again on each path that brought something which is held.
fn may_all_empty(moment: Moment, tracks: &[Track; 4]) -> bool
    requires { pos 0 ≤ℤ moment.time }
    ensures { result ≡ all_paths
        (λ path. may_empty moment.next (is_early (track_at tracks.now path) moment.time)
        (track_at tracks.now path).end) }
{
    may_empty(moment, &tracks[0])
        && may_empty(moment, &tracks[1])
        && may_empty(moment, &tracks[2])
        && may_empty(moment, &tracks[3])
}

/// Returns true if the stream is emptying: what is held is passed on, and nothing more is taken.
// Each path counts, since a path that is early, or packets that are forged on it, must not empty a stream that
// another path brings in time.
fn is_emptying(anchor: &Anchor, moment: Moment, tracks: &[Track; 4]) -> bool
    requires { pos 0 ≤ℤ moment.time }
    ensures { result ≡ empties anchor.now moment.next (λ path. is_early (track_at tracks.now path) moment.time)
        (λ path. (track_at tracks.now path).end) }
{
    anchor.number < moment.next
        && is_any_early(moment.time, tracks)
        && may_all_empty(moment, tracks)
}

/// Returns the number of packets, from the one due next on, that are in time: the window, or 0 while the stream is
/// emptying.
#[inline]
pub fn width_of(spec: &StreamSpec, anchor: &Anchor, moment: Moment, tracks: &[Track; 4]) -> u64
    requires { pos 0 ≤ℤ moment.time }
    ensures value { result ≡ width_by spec.now anchor.now moment.next moment.time tracks.now }
    ensures few { result ≤ spec.now.window }
{
    match spec.clock() {
        StreamClock::Follow => {
            if is_emptying(anchor, moment, tracks) {
                0
            } else {
                u64::from(spec.window())
            }
        }
        _ => u64::from(spec.window()),
    }
}

/// Returns one past the greatest number with a copy in time, the anchor's own included.
fn end_of(anchor: &Anchor, tracks: &[Track; 4]) -> u64
    requires { anchor.now.number < 2 ^ 62 }
    ensures { result ≡ end_since anchor.now (λ path. (track_at tracks.now path).end) }
{
    let first = tracks[0]
        .end
        .max(tracks[1].end.max(tracks[2].end.max(tracks[3].end)));
    (anchor.number + 1).max(first)
}

/// Returns the standing of a packet with this place, if copies in time end at `end`.
fn standing_at(
    place: &Result<u64, Fate>,
    moment: Moment,
    end: u64,
    path: Path,
    packet: &PacketRef<'_>,
) -> Standing
    requires low { 32768 ≤ moment.next }
    requires high { moment.next ≤ 2 ^ 61 }
    ensures { (stream : Stream) (anchor : _) (width : ℕ)
        → place.now ≡ fate.place_of (of_width stream width) anchor moment.next (packet_of packet.now)
        → result ≡ standing_of stream anchor moment.next moment.time width end path (packet_of packet.now) }
{
    let number = number_of(packet, moment.next);
    Standing {
        path,
        time: moment.time,
        end: if place.is_ok() { number + 1 } else { 0 },
        behind: matches!(place, Err(Fate::Late)) && end <= number,
        beyond: matches!(place, Err(Fate::Ahead)),
    }
}

/// Returns true if an arrival of this source is judged: the clock follows its sender, and the stream asks for the
/// source.
fn is_judged(spec: &StreamSpec, source: u32) -> bool
    ensures { result ≡ is_following spec.now.clock && is_source_wanted spec.now.ssrc source }
{
    match spec.clock() {
        StreamClock::Follow => is_wanted_source(spec.ssrc(), source),
        _ => false,
    }
}

/// Adds an arrival to its path's track, and returns that.
fn note(tracks: &mut [Track; 4], standing: &Standing) -> Track
    requires { pos 0 ≤ℤ standing.now.time }
    ensures value { result ≡ track_after (track_at tracks.old standing.now.path) standing.now }
    ensures heard { track_at tracks.new standing.now.path ≡ result }
    ensures others { (other : ℕ) → nat_eq other standing.now.path ≡ false
        → track_at tracks.new other ≡ track_at tracks.old other }
{
    let place = usize::from(standing.path.number());
    let mut track = tracks[place];
    track.update(standing);
    tracks[place] = track;
    track
}

/// Returns true if an arrival is astray, and its path is so for at least 20 ms.
fn is_slip(standing: &Standing, track: &Track) -> bool
    requires { pos 0 ≤ℤ standing.now.time }
    ensures { result ≡ is_astray standing.now && is_for_long track.now.since standing.now.time }
{
    (standing.behind || standing.beyond) && is_for_long(track.since, standing.time)
}

/// Adds a packet with this place to its path's track, and returns true if its sender is astray with it.
///
/// A packet of a source that the stream doesn't ask for is left out, and every packet by another clock than `Follow`.
#[inline]
pub fn update_track(
    tracks: &mut [Track; 4],
    spec: &StreamSpec,
    anchor: &Anchor,
    moment: Moment,
    place: &Result<u64, Fate>,
    path: Path,
    packet: &PacketRef<'_>,
) -> bool
    requires time { pos 0 ≤ℤ moment.time }
    requires low { 65536 ≤ moment.next }
    requires high { moment.next ≤ 2 ^ 61 }
    requires anchor { anchor.now.number < 2 ^ 62 }
    requires place { place.now
        ≡ fate.place_of (of_width spec.now (width_by spec.now anchor.now moment.next moment.time tracks.old))
        anchor.now moment.next (packet_of packet.now) }
    ensures heard { track_at tracks.new path
        ≡ track_heard spec.now anchor.now moment.next moment.time tracks.old path (packet_of packet.now) }
    ensures others { (other : ℕ) → nat_eq other path ≡ false → track_at tracks.new other ≡ track_at tracks.old other }
    ensures slip { result ≡ is_source_wanted spec.now.ssrc packet.now.ssrc
        && is_slip_by spec.now anchor.now moment.next moment.time tracks.old path (packet_of packet.now) }
{
    if !is_judged(spec, packet.ssrc) {
        return false;
    }
    // The proof cites the ranges of these fields, which it sees only if the body reads them.
    let (_seq, _ts) = (packet.seq, packet.ts);
    let standing = standing_at(place, moment, end_of(anchor, tracks), path, packet);
    let track = note(tracks, &standing);
    is_slip(&standing, &track)
}
