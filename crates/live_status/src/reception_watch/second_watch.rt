//! The condition of a path, by what came on it in the last whole second.
ghost use Rattle.std.specs.Prelude.{◌≡◌};
ghost use Rattle.live_status.specs.PathSeconds.{
  condition_at,
  condition_in,
  is_given_up,
  is_unjoined,
  known_condition,
  losses_of,
  new_second_watch,
  no_tally,
  noted_second,
  others_of,
  tally_of,
  tally_since,
  watch_after,
};

use crate::reception_watch::arrival_watch::in_time_of;
use crate::reception_watch::count_watch::CountWatch;
use status_page::{CopyCounts, PathCondition, PathState, SocketState};

/// The time over which packets are counted, in sampling instants: a second.
const SECOND: i64 = 48_000;

/// Numbers of what came on a path.
#[derive(Clone, Copy, PartialEq, Eq)]
pub(crate) struct PathTally {
    /// All datagrams.
    datagrams: u64,
    /// The packets of the stream that came in time.
    in_time: u64,
    /// The packets that came after their deadlines.
    late: u64,
    /// The packets that came too early for the window.
    ahead: u64,
}

/// The watch of what comes on a path, second by second.
#[derive(Clone, Copy)]
pub(crate) struct SecondWatch {
    /// The time at which the present second began, in sampling instants.
    from: i64,
    /// The numbers of what had come by that time.
    begun: PathTally,
    /// The numbers of what came in the second before, once the first one is over.
    last: Option<PathTally>,
    /// The packets that were lost on the path or came late.
    losses: CountWatch,
}

impl SecondWatch {
    /// Returns the watch of a path on which nothing came by the time `now`, in sampling instants.
    pub(crate) fn new(now: i64) -> SecondWatch
        ensures { result ≡ new_second_watch now }
    {
        SecondWatch {
            from: now,
            begun: PathTally::none(),
            last: None,
            losses: CountWatch::new(now),
        }
    }

    /// Notes the state of the path at the time `now`, in sampling instants, and returns its condition, or `None` if its
    /// copies are not counted, or the first second is not over.
    pub(crate) fn note(&mut self, now: i64, path: &PathState) -> Option<PathCondition>
        ensures watch { self.new ≡ watch_after path.now now path.now.copies self.old }
        ensures condition { result ≡ condition_at self.new now path.now.socket path.now.copies }
    {
        let Some(copies) = path.copies else {
            return None;
        };
        self.note_second(now, PathTally::of(path, &copies));
        self.losses.update(now, losses_of(&copies));
        self.condition(now, path.socket)
    }

    /// Notes what had come by the time `now`, and begins the next second if the present one is over.
    fn note_second(&mut self, now: i64, tally: PathTally)
        ensures { self.new ≡ noted_second tally now self.old }
    {
        if now.saturating_sub(self.from) >= SECOND {
            self.last = Some(tally.since(self.begun));
            self.begun = tally;
            self.from = now;
        }
    }

    /// Returns the condition at the time `now` of a path with this socket, or `None` before the first second is over.
    fn condition(&self, now: i64, socket: Option<SocketState>) -> Option<PathCondition>
        ensures { result ≡ known_condition self.now now socket }
    {
        if is_given_up(socket) {
            return Some(PathCondition::GivenUp);
        }
        let is_losing = self.losses.has_risen_lately(now);
        match self.last {
            Some(second) => Some(condition_in(is_unjoined(socket), is_losing, second)),
            None => None,
        }
    }
}

impl PathTally {
    /// Returns the numbers of a path on which nothing came.
    fn none() -> PathTally
        ensures { result ≡ no_tally }
    {
        PathTally {
            datagrams: 0,
            in_time: 0,
            late: 0,
            ahead: 0,
        }
    }

    /// Returns the numbers of a path with these copies.
    fn of(path: &PathState, copies: &CopyCounts) -> PathTally
        ensures { result ≡ tally_of path.now copies.now }
    {
        PathTally {
            datagrams: path.datagrams.saturating_add(others_of(path.socket)),
            in_time: in_time_of(path.first, copies),
            late: copies.late,
            ahead: copies.ahead,
        }
    }

    /// Returns what came since these earlier numbers.
    fn since(self, earlier: PathTally) -> PathTally
        ensures { result ≡ tally_since self earlier }
    {
        PathTally {
            datagrams: self.datagrams.saturating_sub(earlier.datagrams),
            in_time: self.in_time.saturating_sub(earlier.in_time),
            late: self.late.saturating_sub(earlier.late),
            ahead: self.ahead.saturating_sub(earlier.ahead),
        }
    }
}

/// Returns the condition of a path that was not given up, by what came in a second.
fn condition_in(is_unjoined: bool, is_losing: bool, second: PathTally) -> PathCondition
    ensures { result ≡ condition_in is_unjoined is_losing second }
{
    if second.datagrams == 0 && is_unjoined {
        return PathCondition::NotJoined;
    }
    if second.datagrams == 0 {
        return PathCondition::NoDatagrams;
    }
    if second.in_time == 0 && second.late == 0 && second.ahead == 0 {
        return PathCondition::Refused;
    }
    if second.in_time.saturating_add(second.ahead) < second.late {
        return PathCondition::Late;
    }
    if second.in_time.saturating_add(second.late) < second.ahead {
        return PathCondition::TooEarly;
    }
    if is_losing {
        return PathCondition::Losing;
    }
    PathCondition::InTime
}

/// Returns the number of datagrams that came to a socket and were not passed on to the stream.
fn others_of(socket: Option<SocketState>) -> u64
    ensures { result ≡ others_of socket }
{
    match socket {
        Some(socket) => socket
            .unexpected
            .unwrap_or(0)
            .saturating_add(socket.too_long)
            .saturating_add(socket.held_up),
        None => 0,
    }
}

/// Returns true if a path was given up because its socket failed again and again.
fn is_given_up(socket: Option<SocketState>) -> bool
    ensures { result ≡ is_given_up socket }
{
    match socket {
        Some(socket) => socket.has_ended,
        None => false,
    }
}

/// Returns true if a path is at a group that this machine is known not to have joined.
fn is_unjoined(socket: Option<SocketState>) -> bool
    ensures { result ≡ is_unjoined socket }
{
    match socket {
        Some(socket) => socket.is_unjoined,
        None => false,
    }
}

/// Returns the number of packets that were lost on a path or came late.
// A packet that the stream lost and the path brought late counts twice: what matters is that the sum rises.
fn losses_of(copies: &CopyCounts) -> u64
    ensures { result ≡ losses_of copies.now }
{
    copies.lost.saturating_add(copies.late)
}
