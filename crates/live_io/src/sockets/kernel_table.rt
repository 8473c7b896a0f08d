//! A table of the kernel, read octet by octet, so that none is too long.

/// The greatest number of reads of a table.
// 65,536 reads of 4,096 octets, which hold two million sockets. A limit, since the table may grow while it is read.
const MAX_READS: u32 = 65_536;

/// A reader of a table.
pub(crate) trait TableReader {
    /// Takes the next octet.
    fn take(&mut self, octet: u8);
}

/// Passes the octets of a table to a reader. Returns true if it came to the table's end: not if the table cannot be
/// opened, if a read of it fails, or if it is too long.
pub(crate) fn read_table<T: TableReader>(table: &[u8], reader: &mut T) -> bool {
    let file = os::open_read(table);
    if file < 0 {
        return false;
    }
    let mut octets = [0u8; 4096];
    let mut is_read = false;
    for _ in 0..MAX_READS {
        let count = libc::read(file, &mut octets);
        if count <= 0 {
            // Only a read of no octets is the end: after an error more may follow.
            is_read = count == 0;
            break;
        }
        for octet in &octets[..count as usize] {
            reader.take(*octet);
        }
    }
    let _ = libc::close(file);
    is_read
}
