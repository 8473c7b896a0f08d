//! The file in which the system lists the signals of the process.

use os::FromRawFd;
use std::os::fd::{AsRawFd, OwnedFd};

/// The path of the file.
// The toolchain cannot handle, block or await a signal, so pending ones are read here.
const STATUS: &[u8] = b"/proc/self/status";

/// The greatest number of reads of the file.
// 1,024 reads of 4,096 octets. The longest line lists the groups of a process, 65,536 at most, in less than 1 MiB.
const MAX_STATUS_READS: u32 = 1_024;

/// The signals that ask a process to end: SIGHUP (1), SIGINT (2) and SIGTERM (15). Signal n is bit n - 1.
const ENDING: u64 = 0x4003;

/// The signal of Ctrl-C, SIGINT (2).
const INTERRUPT: u64 = 0x2;

/// The file in which the system lists the signals of the process.
// Opened once, and read again from its beginning: a run that has used up its descriptors could not open it any more,
// and no signal would end it.
#[derive(Drop)]
pub struct SignalFile {
    /// The open file. `None` if it cannot be opened.
    file: Option<OwnedFd>,
}

impl SignalFile {
    /// Opens the file. To be called before the first socket of a run, so that the run keeps a descriptor for it.
    pub fn open() -> SignalFile {
        let descriptor = os::open_read(STATUS);
        if descriptor < 0 {
            return SignalFile { file: None };
        }
        // Nobody else owns a descriptor that was opened just now.
        let file = unsafe { OwnedFd::from_raw_fd(descriptor) };
        SignalFile { file: Some(file) }
    }

    /// Returns true if a signal that asks the process to end is pending, and the process does not ignore it. Returns
    /// false if the system does not list the signals.
    // A signal that is both ignored and blocked is pending too: `nohup darbexum-live` ignores SIGHUP, and blocks it.
    pub(crate) fn has_stop_signal(&self) -> bool {
        match self.sets() {
            Some(sets) => sets.pending & ENDING & !sets.ignored != 0,
            None => false,
        }
    }

    /// Returns true if the process blocks the signal of Ctrl-C, so that the signal becomes pending and ends a run with
    /// its report. Returns `None` if the system does not list the signals.
    pub(crate) fn is_interrupt_blocked(&self) -> Option<bool> {
        let sets = self.sets()?;
        Some(sets.blocked & INTERRUPT != 0)
    }

    /// Returns the sets of signals of the process, or `None` if the system does not list them.
    fn sets(&self) -> Option<SignalSets> {
        let mut scan = StatusScan::new();
        match &self.file {
            Some(file) => scan_file(file.as_raw_fd(), &mut scan),
            None => return None,
        }
        scan.sets()
    }
}

/// The sets of signals of a process. Signal n is bit n - 1.
#[derive(Clone, Copy)]
struct SignalSets {
    /// The signals that are pending for the process as a whole, and not for one of its threads.
    pending: u64,
    /// The signals that the process blocks.
    blocked: u64,
    /// The signals that the process ignores.
    ignored: u64,
}

/// The greatest length of a line with a set, in octets. Of a longer line only the first of them are kept.
const MAX_LINE: usize = 32;

/// A scan of the text of a process's `/proc/PID/status`, octet by octet.
// So the text may have any length, and it need not be UTF-8: the system cuts the program's name within a character.
#[derive(Clone, Copy)]
struct StatusScan {
    /// The first octets of this line.
    line: [u8; MAX_LINE],
    /// The number of octets of this line so far, and at most `MAX_LINE`.
    len: usize,
    /// The pending signals, if a line before it has them.
    pending: Option<u64>,
    /// The blocked signals, if a line before it has them.
    blocked: Option<u64>,
    /// The ignored signals, if a line before it has them.
    ignored: Option<u64>,
}

impl StatusScan {
    /// Returns a scan at the start of a text.
    fn new() -> StatusScan {
        StatusScan {
            line: [0; MAX_LINE],
            len: 0,
            pending: None,
            blocked: None,
            ignored: None,
        }
    }

    /// Returns the sets of signals, if the text so far has all of them.
    fn sets(&self) -> Option<SignalSets> {
        Some(SignalSets {
            pending: self.pending?,
            blocked: self.blocked?,
            ignored: self.ignored?,
        })
    }

    /// Takes the next octets of the text.
    fn take_all(&mut self, octets: &[u8]) {
        for octet in octets {
            self.take(*octet);
        }
    }

    /// Takes the next octet of the text.
    fn take(&mut self, octet: u8) {
        if octet == b'\n' {
            self.end_line();
            self.len = 0;
            return;
        }
        if let Some(place) = self.line.get_mut(self.len) {
            *place = octet;
            self.len = self.len.saturating_add(1);
        }
    }

    /// Keeps the set of signals of this line, if it has one.
    fn end_line(&mut self) {
        let line = &self.line[..self.len.min(MAX_LINE)];
        if let Some(set) = set_after(line, b"ShdPnd:") {
            self.pending = Some(set);
        }
        if let Some(set) = set_after(line, b"SigBlk:") {
            self.blocked = Some(set);
        }
        if let Some(set) = set_after(line, b"SigIgn:") {
            self.ignored = Some(set);
        }
    }
}

/// Returns the set of signals in a line after its name and a tab, in hexadecimal digits. Returns `None` if the line has
/// another name, or no such set.
fn set_after(line: &[u8], name: &[u8]) -> Option<u64> {
    let digits = line.strip_prefix(name)?;
    let mut set = 0u64;
    for octet in digits {
        if *octet != b'\t' {
            set = set.checked_mul(16)?.checked_add(hex_digit(*octet)?)?;
        }
    }
    Some(set)
}

/// Returns the value of a hexadecimal digit, as the system writes it, or `None` for another octet.
fn hex_digit(octet: u8) -> Option<u64> {
    match octet {
        b'0'..=b'9' => Some(u64::from(octet - b'0')),
        b'a'..=b'f' => Some(u64::from(octet - b'a' + 10)),
        _ => None,
    }
}

/// Scans an open file from its beginning to its end.
fn scan_file(file: i32, scan: &mut StatusScan) {
    let mut octets = [0u8; 4096];
    let mut offset = 0i64;
    for _ in 0..MAX_STATUS_READS {
        // The position of the file stays at its beginning.
        let count = libc::pread(file, &mut octets, offset);
        if count <= 0 {
            return;
        }
        scan.take_all(&octets[..count as usize]);
        offset = offset.saturating_add(count as i64);
    }
}
