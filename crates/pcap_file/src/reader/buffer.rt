//! The buffer of a reader, which holds the octets of a file between reading and parsing.
ghost use Rattle.std.specs.Prelude.{
  ◌≡◌,
  ◌≤◌,
  ◌<◌,
  ◌+◌,
  ◌++◌,
  [],
  length,
  take,
  drop,
  vec_len,
  vec_capacity,
  IfOk,
  IfErr,
  OnOk,
  OnErr,
  true,
  false,
};
ghost use Rattle.pcap_file.specs.declared.fault.ReaderFault.TheVariants.{ReadFailed};

use crate::fault::ReaderFault;
use std::alloc::{AllocError, Global};
use std::io::Read;

/// The greatest number of octets that `front` returns; a record or block has no more.
// With the octets of a read these are 1 MiB, which is all memory that a reader takes.
const MAX_FRONT: usize = 983_040;

/// The greatest number of octets of one read.
const MAX_READ: usize = 65_536;

/// The number of octets that the buffer has space for.
const CAPACITY: usize = MAX_FRONT + MAX_READ;

/// The octets that were read. The first of them are passed over. Its memory, 1 MiB, is allocated once.
#[derive(Drop)]
pub struct ReadBuffer {
    pub(crate) held: Vec<u8>,
    /// The number of octets that are passed over.
    pub(crate) passed: usize,
    /// True if a read found the file's end.
    pub(crate) ended: bool,
    pub(crate) ghost within: { passed ≤ vec_len held },
    pub(crate) ghost space: { 1048576 ≤ vec_capacity held },
}

impl ReadBuffer {
    ghost use Rattle.pcap_file.specs.ReadBuffer.{octets_of, Reads};

    /// Returns an empty buffer with space for 1 MiB. Returns `AllocError` if the allocation fails.
    pub(crate) fn new(alloc: Global) -> Result<ReadBuffer, AllocError>
        ensures none { IfOk result (λ window. octets_of window ≡ []) }
        ensures going { IfOk result (λ window. window.ended ≡ false) }
    {
        let held = Vec::with_capacity(alloc, CAPACITY)?;
        Ok(ReadBuffer {
            held,
            passed: 0,
            ended: false,
        })
    }

    /// Returns the first octets that are not passed over, 983,040 at most.
    pub(crate) fn front(&self) -> &[u8]
        ensures { result.now ≡ take 983040 (octets_of self.now) }
    {
        let left = &self.held[self.passed..];
        &left[..left.len().min(MAX_FRONT)]
    }

    /// Returns true if 983,040 octets or more are not passed over.
    pub(crate) fn is_full(&self) -> bool
        ensures full { result ≡ true → 983040 ≤ length (octets_of self.now) }
        ensures space { result ≡ false → length (octets_of self.now) < 983040 }
    {
        self.held.len() - self.passed >= MAX_FRONT
    }

    /// Returns true if a read found the file's end.
    pub(crate) fn is_ended(&self) -> bool
        ensures { result ≡ self.now.ended }
    {
        self.ended
    }

    /// Passes over `count` octets, the length of the block that `next_block` returned.
    pub fn consume(&mut self, count: usize)
        requires { count ≤ length (octets_of self.old) }
        ensures octets { octets_of self.new ≡ drop count (octets_of self.old) }
        ensures ended { self.new.ended ≡ self.old.ended }
    {
        self.passed += count;
    }

    /// Reads once, and appends what was read. Returns `ReadFailed` if the read fails.
    pub(crate) fn read_more<R: Read>(&mut self, reader: &mut R) -> Result<(), ReaderFault>
        requires { length (octets_of self.old) < 983040 }
        ensures ok { OnOk result (Reads (R.remaining reader.old) (R.remaining reader.new)
            (octets_of self.old) (octets_of self.new) self.new.ended) }
        ensures unread { IfErr result (λ fault. fault ≡ ReadFailed) }
    {
        let mut chunk = [0u8; MAX_READ];
        match reader.read(&mut chunk) {
            Ok(count) => {
                self.take(&chunk[..count]);
                self.ended = count == 0;
                Ok(())
            }
            Err(_) => Err(ReaderFault::ReadFailed),
        }
    }

    /// Appends octets.
    fn take(&mut self, octets: &[u8])
        requires { length (octets_of self.old) + length octets.now ≤ 1048576 }
        ensures { octets_of self.new ≡ octets_of self.old ++ octets.now }
    {
        // Octets move only if there is no space behind them: once in many reads.
        if self.held.capacity() - self.held.len() < octets.len() {
            self.make_space();
        }
        // There is space for these octets, so nothing is allocated here.
        let Ok(()) = self.held.extend_from_slice(octets) else {
            unreachable!()
        };
    }

    /// Moves the octets that are not passed over to the start of the memory.
    fn make_space(&mut self)
        ensures same { octets_of self.new ≡ octets_of self.old }
        ensures alone { vec_len self.new.held ≡ length (octets_of self.old) }
    {
        let left = self.held.len() - self.passed;
        self.held.rotate_left(self.passed);
        self.held.truncate(left);
        self.passed = 0;
    }
}
