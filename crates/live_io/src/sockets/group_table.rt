//! The kernel's table of multicast groups, `/proc/self/net/igmp`: the groups that this machine has joined, on any
//! interface and by any program.

use crate::sockets::health::{RunHealth, SocketHealth};
use crate::sockets::kernel_table::{TableReader, read_table};
use std::net::Ipv4Addr;

/// The kernel's table of the groups of this process's network.
const GROUP_TABLE: &[u8] = b"/proc/self/net/igmp";

/// The greatest number of paths: 16 streams with four each.
const MAX_PATHS: usize = 64;

/// The number of hexadecimal digits of a group.
const GROUP_DIGITS: u32 = 8;

/// A scan of the table, octet by octet.
///
/// The line of a group begins with tabs. Its address follows them as a hexadecimal number, the last octet first on this
/// processor. All other lines begin with other octets.
#[derive(Clone, Copy)]
pub struct GroupScan {
    /// True if all octets of the line so far may be those of a group's line.
    is_group: bool,
    /// The number of tabs at the start of the line so far.
    tabs: u32,
    /// The number of digits of the address so far.
    digits: u32,
    /// The address as far as it was read, as the number that the digits say.
    number: u32,
}

impl GroupScan {
    /// Returns a scan at the start of a table.
    pub fn new() -> GroupScan {
        GroupScan {
            is_group: true,
            tabs: 0,
            digits: 0,
            number: 0,
        }
    }

    /// Takes the next octet of a table. Returns the group whose address ends there, if one does.
    pub fn take(&mut self, octet: u8) -> Option<Ipv4Addr> {
        if octet == b'\n' {
            *self = GroupScan::new();
            return None;
        }
        if !self.is_group {
            return None;
        }
        if octet == b'\t' && self.digits == 0 {
            self.tabs = self.tabs.saturating_add(1);
            return None;
        }
        self.take_digit(octet)
    }

    /// Takes an octet that is no tab before the address. Returns the group whose address ends there, if one does.
    fn take_digit(&mut self, octet: u8) -> Option<Ipv4Addr> {
        let Some(digit) = hex_digit(octet) else {
            self.is_group = false;
            return None;
        };
        if self.tabs == 0 {
            self.is_group = false;
            return None;
        }
        self.number = self.number << 4 | digit;
        self.digits = self.digits.saturating_add(1);
        if self.digits < GROUP_DIGITS {
            return None;
        }
        // What follows says how the group is used.
        self.is_group = false;
        Some(Ipv4Addr::from(self.number.to_le_bytes()))
    }
}

/// Returns the value of a hexadecimal digit in capitals, or `None` if the octet is none.
fn hex_digit(octet: u8) -> Option<u32> {
    match octet {
        b'0'..=b'9' => Some(u32::from(octet - b'0')),
        b'A'..=b'F' => Some(u32::from(octet - b'A') + 10),
        _ => None,
    }
}

/// Returns true if the text of a table has this group.
pub fn has_group(table: &[u8], group: Ipv4Addr) -> bool {
    let mut scan = GroupScan::new();
    table.iter().any(|octet| scan.take(*octet) == Some(group))
}

/// The paths of a run whose groups the table has.
#[derive(Drop)]
struct JoinedPaths<'a> {
    paths: &'a [SocketHealth],
    scan: GroupScan,
    /// For each path a flag that is true if the table has its group.
    is_joined: [bool; MAX_PATHS],
}

impl TableReader for JoinedPaths<'_> {
    fn take(&mut self, octet: u8) {
        let Some(group) = self.scan.take(octet) else {
            return;
        };
        for (path, is_joined) in self.paths.iter().zip(self.is_joined.iter_mut()) {
            if path.group() == Some(group) {
                *is_joined = true;
            }
        }
    }
}

/// Sets for each path at a group whether this machine has joined the group, from the kernel's table. Of a socket whose
/// drops are not known it sets that nothing is known: the kernel's table of sockets does not list it, so it may be of
/// another network.
///
/// It reads the whole table. So a thread that receives must not call it.
pub fn read_joined_groups(health: &RunHealth) {
    let mut joined = JoinedPaths {
        paths: health.paths(),
        scan: GroupScan::new(),
        is_joined: [false; MAX_PATHS],
    };
    let is_read = read_table(GROUP_TABLE, &mut joined);
    for (path, is_joined) in joined.paths.iter().zip(joined.is_joined) {
        let is_known = is_read && path.group().is_some() && path.dropped().is_some();
        path.set_joined(if is_known { Some(is_joined) } else { None });
    }
}
