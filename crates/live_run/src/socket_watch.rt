//! The watch of a run's sockets: the kernel's drops, the groups that are joined, and a line on standard error for each
//! path that fails, ends, or is at a group that is not joined.

use crate::supervisor::{POLL_INTERVAL_MS, StatusTask};
use live_io::{RunHealth, STDERR, SocketHealth, is_ready, read_joined_groups, read_kernel_drops};
use rtp_stream::{Path, StreamSpec};
use std::net::Ipv4Addr;
use studio_config::StudioSpec;

/// The greatest number of paths: 16 streams with four each.
const MAX_PATHS: usize = 64;

/// The number of polls from one reading of the kernel's drops to the next: a second.
const POLLS_PER_READING: u64 = 1_000 / POLL_INTERVAL_MS;

/// The number of polls from one reading of the groups that are joined to the next: ten seconds.
const POLLS_PER_GROUPS: u64 = 10_000 / POLL_INTERVAL_MS;

/// The rest of a path's line at its first fault.
const FAULT_TEXT: &[u8] = b": socket error\n";

/// The rest of a path's line at its end.
const END_TEXT: &[u8] = b": ended after 1000 socket errors\n";

/// The rest of a path's line once its group is found not to be joined, behind the group.
const UNJOINED_TEXT: &[u8] = b": not joined on any interface\n";

/// The rest of a path's line once its group is found to be joined again, behind the group.
const JOINED_TEXT: &[u8] = b": joined\n";

/// The watch of a run's sockets, which the supervisor's thread polls.
#[derive(Drop)]
pub(crate) struct SocketWatch<'a> {
    streams: &'a [StreamSpec],
    health: &'a RunHealth,
    /// True if the status of the run is shown, which has the kernel's drops.
    is_shown: bool,
    /// The number of polls since the kernel's drops were read.
    polls: u64,
    /// The number of polls since the groups that are joined were read.
    group_polls: u64,
    /// The lines that were written for each path.
    written: [WrittenLines; MAX_PATHS],
}

/// The lines that were written for a path.
#[derive(Clone, Copy)]
struct WrittenLines {
    fault: bool,
    end: bool,
    /// True if the last line on the path's group says that it is not joined.
    unjoined: bool,
}

impl<'a> SocketWatch<'a> {
    /// Returns the watch of a run of this studio. The kernel's drops are read each second if the status of the run is
    /// shown.
    pub(crate) fn new(
        studio: &'a StudioSpec,
        health: &'a RunHealth,
        is_shown: bool,
    ) -> SocketWatch<'a> {
        SocketWatch {
            streams: studio.streams(),
            health,
            is_shown,
            // The first poll reads.
            polls: POLLS_PER_READING,
            group_polls: POLLS_PER_GROUPS,
            written: [WrittenLines {
                fault: false,
                end: false,
                unjoined: false,
            }; MAX_PATHS],
        }
    }

    /// Reads the kernel's drops once a second, if they are shown.
    fn read_drops_if_due(&mut self) {
        if !self.is_shown {
            return;
        }
        self.polls = self.polls.saturating_add(1);
        if self.polls > POLLS_PER_READING {
            self.polls = 1;
            read_kernel_drops(self.health);
        }
    }

    /// Reads each ten seconds which groups are joined, if a path is at a group.
    fn read_groups_if_due(&mut self) {
        self.group_polls = self.group_polls.saturating_add(1);
        if self.group_polls <= POLLS_PER_GROUPS {
            return;
        }
        self.group_polls = 1;
        if self
            .health
            .paths()
            .iter()
            .any(|path| path.group().is_some())
        {
            // Only of a socket that the kernel's table lists is it known that its groups are in the other table.
            read_kernel_drops(self.health);
            read_joined_groups(self.health);
        }
    }

    /// Writes the lines of the paths of which there is something new since the last poll: the first fault, the end, a
    /// group that is not joined, or one that is joined again.
    fn write_lines(&mut self) {
        let mut paths = self.health.paths().iter().zip(self.written.iter_mut());
        for (number, stream) in self.streams.iter().enumerate() {
            for place in 0..stream.paths() {
                let (Some((health, written)), Some(path)) = (paths.next(), Path::new(place)) else {
                    return;
                };
                write_path_lines(number, path, health, written);
            }
        }
    }
}

impl StatusTask for SocketWatch<'_> {
    fn poll(&mut self) {
        self.read_drops_if_due();
        self.read_groups_if_due();
        self.write_lines();
    }

    fn publish_last(&mut self) {
        self.write_lines();
    }
}

/// A task of the supervisor, and the watch of the sockets before it.
#[derive(Drop)]
pub(crate) struct WatchedTask<'a, T> {
    pub(crate) watch: SocketWatch<'a>,
    pub(crate) task: T,
}

impl<T: StatusTask> StatusTask for WatchedTask<'_, T> {
    fn poll(&mut self) {
        self.watch.poll();
        self.task.poll();
    }

    fn publish_last(&mut self) {
        self.watch.publish_last();
        self.task.publish_last();
    }
}

/// Writes the lines of a path that are due. A line that standard error does not take now is written later.
fn write_path_lines(stream: usize, path: Path, health: &SocketHealth, written: &mut WrittenLines) {
    if health.faults() > 0 && !written.fault {
        written.fault = write_line(Line::of(stream, path), FAULT_TEXT);
    }
    if health.has_ended() && !written.end {
        written.end = write_line(Line::of(stream, path), END_TEXT);
    }
    if let (Some(group), Some(is_joined)) = (health.group(), health.is_joined()) {
        let rest = if is_joined {
            JOINED_TEXT
        } else {
            UNJOINED_TEXT
        };
        let is_new = written.unjoined == is_joined;
        if is_new && write_line(Line::of(stream, path).with_group(group), rest) {
            written.unjoined = !is_joined;
        }
    }
}

/// Writes a line with this rest to standard error, and returns true if it did. Returns false if standard error would
/// block.
// By the descriptor: the writer of standard error belongs to the status, which another thread may publish.
fn write_line(line: Line, rest: &[u8]) -> bool {
    if !is_ready(STDERR, libc::net::POLLOUT) {
        return false;
    }
    let mut line = line;
    line.push(rest);
    // In one call, so that no other line comes between. An error is ignored: nothing is left that could report it.
    let _ = libc::write(STDERR, &line.octets[..line.len.min(MAX_LINE)]);
    true
}

/// The greatest length of a line in octets.
const MAX_LINE: usize = 64;

/// A line that is put together before it is written.
#[derive(Clone, Copy)]
struct Line {
    octets: [u8; MAX_LINE],
    len: usize,
}

impl Line {
    /// Returns the begin of a path's line.
    fn of(stream: usize, path: Path) -> Line {
        let mut line = Line {
            octets: [0; MAX_LINE],
            len: 0,
        };
        line.push(b"path ");
        line.push_number(stream);
        line.push(path.letter().as_bytes());
        line
    }

    /// Returns the begin of a path's line with the path's group behind it.
    fn with_group(mut self, group: Ipv4Addr) -> Line {
        self.push(b": ");
        for (place, octet) in group.octets().iter().enumerate() {
            if place > 0 {
                self.push(b".");
            }
            self.push_number(usize::from(*octet));
        }
        self
    }

    /// Appends octets, as far as there is space.
    fn push(&mut self, octets: &[u8]) {
        for octet in octets {
            if let Some(place) = self.octets.get_mut(self.len) {
                *place = *octet;
                self.len = self.len.saturating_add(1);
            }
        }
    }

    /// Appends a number below 1,000 in decimal.
    fn push_number(&mut self, number: usize) {
        let [hundreds, tens, ones] = [number / 100 % 10, number / 10 % 10, number % 10];
        if hundreds > 0 {
            self.push(&[b'0' + hundreds as u8]);
        }
        if hundreds > 0 || tens > 0 {
            self.push(&[b'0' + tens as u8]);
        }
        self.push(&[b'0' + ones as u8]);
    }
}
