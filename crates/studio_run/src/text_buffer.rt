//! A buffer of fixed size for the text of a writer.
ghost use Rattle.std.specs.Prelude.{◌≡◌, ◌+◌, ◌*◌, ◌≤◌, [], ◌++◌, length, take, ℕ, ◌<◌, IfOk, OnOk, OnErr};
ghost use Rattle.std.specs.Io.KnownBytes.{Appends};
ghost use Rattle.hex.specs.Hex.{encode_lower};
ghost use Rattle.studio_run.specs.Buffer.{PassesOn, BreaksOff};

use crate::text_io::{WriteFault, write_text};
use itoa::Integer;
use std::alloc::{AllocError, Global};
use std::io::Write;
use std::marker::Model;

/// The greatest number of octets that are held.
// Sixteen of the longest lines, so that a write takes many lines at once.
const MAX_HELD: usize = 65_536;

// The longest lines, those of slots and datagrams, have two digits for each of at most 1,452 octets.
/// The greatest length of a line in octets, with its line feed.
const MAX_LINE: usize = 4096;

/// Text that no writer has taken yet: at most 65,536 octets. Only `new` allocates.
///
/// `write_mark`, `write_datagram` and the other functions of a line add a line each, and write what is held if there
/// is no space. A line of another form is made by `make_space` and then `push`, `push_number` and the like for its
/// parts. `finish` writes the rest after the last line. After a fault nothing more may be written.
#[derive(Drop)]
pub struct TextBuffer {
    held: Vec<u8>,
}

impl Model for TextBuffer {
    ghost use Rattle.std.specs.Prelude.{ℕ, ◌≤◌, List, vec_capacity};

    ghost Value = { List ℕ };

    ghost view = { λ b. b.held.items };

    ghost invariant = { λ b. 65536 ≤ vec_capacity b.held };
}

impl TextBuffer {
    /// Returns an empty buffer.
    pub fn new(alloc: Global) -> Result<Self, AllocError>
        ensures { IfOk result (λ buffer. buffer ≡ []) }
    {
        let held = Vec::with_capacity(alloc, MAX_HELD)?;
        Ok(TextBuffer { held })
    }

    /// Writes all that is held.
    pub fn finish<W: Write>(&mut self, writer: &mut W) -> Result<(), WriteFault>
        ensures ok { OnOk result (Appends (W.contents writer.old) (W.contents writer.new) self.old) }
        ensures fault { OnErr result ((n : ℕ) × (n < length self.old)
            × Appends (W.contents writer.old) (W.contents writer.new) (take n self.old)) }
        ensures empty { OnOk result (self.new ≡ []) }
    {
        write_text(writer, self.held.as_slice())?;
        self.held.clear();
        Ok(())
    }

    /// Makes space for one line, of at most 4,096 octets: writes what is held if there is none. Returns `WriteFault` if
    /// that fails.
    pub fn make_space<W: Write>(&mut self, writer: &mut W) -> Result<(), WriteFault>
        ensures ok { OnOk result (PassesOn (W.contents writer.old) self.old (W.contents writer.new) self.new []) }
        ensures fault { OnErr result (BreaksOff (W.contents writer.old) self.old (W.contents writer.new) []) }
        ensures space { OnOk result (length self.new + 4096 ≤ 65536) }
    {
        // The space is made once for a whole line, so that the parts of the line can't fail.
        if self.held.len() > MAX_HELD - MAX_LINE {
            self.finish(writer)?;
        }
        Ok(())
    }

    /// Adds a text. The caller has made space for it.
    pub fn push(&mut self, text: &str)
        requires { length self.old + length text.now ≤ 65536 }
        ensures text { self.new ≡ self.old ++ text.now }
        ensures length { length self.new ≡ length self.old + length text.now }
    {
        // The capacity is 65,536 octets since `new`, so nothing is allocated here.
        let Ok(()) = self.held.extend_from_slice(text.as_bytes()) else {
            unreachable!()
        };
    }

    /// Adds a decimal number. The caller has made space for it.
    pub fn push_number<I: Integer>(&mut self, number: I)
        requires { length self.old + 40 ≤ 65536 }
        ensures text { self.new ≡ self.old ++ I.text number }
        ensures few { length self.new ≤ length self.old + 40 }
    {
        let mut digits = itoa::Buffer::new();
        self.push(digits.format(number));
    }

    /// Adds octets, each as two hexadecimal digits.
    pub(crate) fn push_octets(&mut self, octets: &[u8])
        requires { length self.old + 2 * length octets.now ≤ 65536 }
        ensures text { self.new ≡ self.old ++ encode_lower octets.now }
        ensures length { length self.new ≡ length self.old + 2 * length octets.now }
    {
        let start = self.held.len();
        // The capacity is 65,536 octets since `new`, so nothing is allocated here.
        let Ok(()) = self.held.resize(start + 2 * octets.len(), 0) else {
            unreachable!()
        };
        let Ok(()) = hex::encode_to_slice(octets, &mut self.held[start..]) else {
            unreachable!()
        };
    }
}
