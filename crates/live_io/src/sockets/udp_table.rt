//! The kernel's table of UDP sockets, `/proc/self/net/udp`: the inode of each socket, and the number of datagrams that
//! the kernel dropped there because the receive buffer was full.

use crate::sockets::health::{RunHealth, SocketHealth};
use crate::sockets::kernel_table::{TableReader, read_table};

/// The kernel's table of the UDP sockets of this process's network.
pub(crate) const UDP_TABLE: &[u8] = b"/proc/self/net/udp";

/// The greatest number of paths: 16 streams with four each.
const MAX_PATHS: usize = 64;

/// The field of a line with the socket's inode, counted from 0.
const INODE_FIELD: u32 = 9;

/// The field of a line with the number of dropped datagrams.
const DROPS_FIELD: u32 = 12;

/// A socket as a table of the kernel lists it.
#[derive(Clone, Copy, PartialEq, Eq)]
pub struct SocketRow {
    /// The socket's inode.
    pub inode: u64,
    /// The number of datagrams that the kernel dropped at the socket.
    pub drops: u64,
}

/// A scan of a table, octet by octet, so that no line and no table is too long.
///
/// A line has fields with spaces between them. The heading line has words in the fields of numbers, so it is no row.
#[derive(Clone, Copy)]
pub struct TableScan {
    /// The number of fields of this line that have begun.
    fields: u32,
    /// True in a field, and false between two.
    is_in_field: bool,
    /// The inode, as far as it was read. `None` if it is no number.
    inode: Option<u64>,
    /// The number of dropped datagrams, as far as it was read. `None` if it is no number.
    drops: Option<u64>,
}

impl TableScan {
    /// Returns a scan at the start of a table.
    pub fn new() -> TableScan {
        TableScan {
            fields: 0,
            is_in_field: false,
            inode: Some(0),
            drops: Some(0),
        }
    }

    /// Takes the next octet of a table. Returns the row of the line that ends there, if it has one.
    pub fn take(&mut self, octet: u8) -> Option<SocketRow> {
        match octet {
            b'\n' => {
                let row = self.row();
                *self = TableScan::new();
                return row;
            }
            b' ' => self.is_in_field = false,
            _ => self.take_in_field(octet),
        }
        None
    }

    /// Takes an octet of a field.
    fn take_in_field(&mut self, octet: u8) {
        if !self.is_in_field {
            self.is_in_field = true;
            self.fields = self.fields.saturating_add(1);
        }
        match self.fields.checked_sub(1) {
            Some(INODE_FIELD) => self.inode = with_digit(self.inode, octet),
            Some(DROPS_FIELD) => self.drops = with_digit(self.drops, octet),
            _ => {}
        }
    }

    /// Returns the row of the line so far, if the line has all fields up to the drops.
    fn row(&self) -> Option<SocketRow> {
        if self.fields <= DROPS_FIELD {
            return None;
        }
        Some(SocketRow {
            inode: self.inode?,
            drops: self.drops?,
        })
    }
}

/// Returns a number with one more decimal digit, or `None` if the octet is no digit or the number does not fit 64 bits.
fn with_digit(number: Option<u64>, octet: u8) -> Option<u64> {
    if !octet.is_ascii_digit() {
        return None;
    }
    let digit = u64::from(octet - b'0');
    number?.checked_mul(10)?.checked_add(digit)
}

/// Returns the number of datagrams that the kernel dropped at the socket of this inode, by the text of its table, or
/// `None` if the text does not list the socket.
pub fn drops_in(table: &[u8], inode: u64) -> Option<u64> {
    let mut scan = TableScan::new();
    for octet in table {
        if let Some(row) = scan.take(*octet) {
            if row.inode == inode {
                return Some(row.drops);
            }
        }
    }
    None
}

/// A visitor of a table's rows.
trait RowVisitor {
    /// Takes the next row.
    fn visit(&mut self, row: SocketRow);
}

/// The search for a socket's inode.
#[derive(Drop)]
struct InodeSearch {
    inode: u64,
    is_found: bool,
}

impl RowVisitor for InodeSearch {
    fn visit(&mut self, row: SocketRow) {
        if row.inode == self.inode {
            self.is_found = true;
        }
    }
}

/// The update of the sockets of a run from the table.
#[derive(Drop)]
struct DropsUpdate<'a> {
    paths: &'a [SocketHealth],
    /// For each path a flag that is true if a row was of its socket.
    is_listed: [bool; MAX_PATHS],
}

impl RowVisitor for DropsUpdate<'_> {
    fn visit(&mut self, row: SocketRow) {
        for (path, is_listed) in self.paths.iter().zip(self.is_listed.iter_mut()) {
            if path.has_inode(row.inode) {
                path.set_dropped(Some(row.drops));
                *is_listed = true;
            }
        }
    }
}

/// Returns true if a table of the kernel lists a socket of this inode. Returns false if it cannot be read.
pub(crate) fn is_listed(table: &[u8], inode: u64) -> bool {
    let mut search = InodeSearch {
        inode,
        is_found: false,
    };
    visit_rows(table, &mut search);
    search.is_found
}

/// Sets the number of datagrams that the kernel dropped at the socket of each path, from its table. The number of a
/// socket that the table does not list is not known afterwards.
///
/// It reads the whole table, which has 128 octets for each socket of the network. So a thread that receives must not
/// call it.
pub fn read_kernel_drops(health: &RunHealth) {
    let mut update = DropsUpdate {
        paths: health.paths(),
        is_listed: [false; MAX_PATHS],
    };
    visit_rows(UDP_TABLE, &mut update);
    for (path, is_listed) in update.paths.iter().zip(update.is_listed) {
        if !is_listed {
            path.set_dropped(None);
        }
    }
}

/// Passes the rows of a table to a visitor. Passes none if the table cannot be read.
fn visit_rows<V: RowVisitor>(table: &[u8], visitor: &mut V) {
    let mut rows = RowReader {
        scan: TableScan::new(),
        visitor,
    };
    read_table(table, &mut rows);
}

/// The reader of a table that passes its rows to a visitor.
#[derive(Drop)]
struct RowReader<'a, V> {
    scan: TableScan,
    visitor: &'a mut V,
}

impl<V: RowVisitor> TableReader for RowReader<'_, V> {
    fn take(&mut self, octet: u8) {
        if let Some(row) = self.scan.take(octet) {
            self.visitor.visit(row);
        }
    }
}
