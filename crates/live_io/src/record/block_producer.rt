//! The end of a ring into which the blocks of a record are put, each as a whole or not at all.
ghost use Rattle.std.specs.Prelude.{◌≡◌, ◌≤◌, length, take, None};
ghost use Rattle.pcap_file.specs.RecordedChange.{change_view};
ghost use Rattle.pcap_file.specs.RecordedDatagram.{arrival_view};
ghost use Rattle.pcap_file.specs.Blocks.{
  change_block,
  closing_block,
  datagram_block,
  gains_interface_block,
  interface_block,
  section_block,
};
ghost use Rattle.studio_io.specs.declared.output_state.OutputEnd.TheVariants.{Unfit};
ghost use Rattle.live_io.specs.RecordBlocks.{Ends, Puts, StaysEnded};

use pcap_file::{
    MAX_BLOCK_LEN, RecordedChange, RecordedDatagram, write_change, write_gains_interface,
    write_interface, write_packet, write_section_header, write_statistics,
};
use rtrb::Producer;
use studio_io::OutputEnd;

/// The end of a ring into which blocks are put.
#[derive(Drop)]
pub(crate) struct BlockProducer {
    pub(crate) ring: Producer<u8>,
    /// Why the record ended, if it did. Nothing is put any more then.
    pub(crate) end: Option<OutputEnd>,
    /// The buffer in which a block is made.
    // A field and not a local array, which would be cleared for each block.
    pub(crate) block: [u8; MAX_BLOCK_LEN],
}

impl BlockProducer {
    /// Returns the end of a ring, into which it has put nothing yet.
    pub(crate) fn new(ring: Producer<u8>) -> BlockProducer
        ensures ring { result.ring ≡ ring }
        ensures open { result.end ≡ None }
    {
        BlockProducer {
            ring,
            end: None,
            block: [0; MAX_BLOCK_LEN],
        }
    }

    /// Puts the section header of a record, whose studio opens at this time in sampling instants.
    pub(crate) fn put_opening(&mut self, open_at: u64)
        ensures puts { Puts self.old (section_block open_at) self.new }
        ensures ended { StaysEnded self.old self.new }
    {
        let len = write_section_header(open_at, &mut self.block);
        self.put(len)
    }

    /// Puts the description of a path's interface, and of its stream's configuration.
    pub(crate) fn put_interface(&mut self, stream: u16, letter: u8, description: &[u8])
        requires few { length description.now ≤ 64 }
        ensures puts { Puts self.old (interface_block stream letter description.now) self.new }
        ensures ended { StaysEnded self.old self.new }
    {
        let len = write_interface(stream, letter, description, &mut self.block);
        self.put(len)
    }

    /// Puts the description of the interface of the run's changes of gains.
    pub(crate) fn put_gains_interface(&mut self)
        ensures puts { Puts self.old gains_interface_block self.new }
        ensures ended { StaysEnded self.old self.new }
    {
        let len = write_gains_interface(&mut self.block);
        self.put(len)
    }

    /// Puts the packet block of a datagram.
    pub(crate) fn put_datagram(&mut self, arrival: &RecordedDatagram<'_>)
        requires few { length arrival.now.octets.now ≤ 2048 }
        ensures puts { Puts self.old (datagram_block (arrival_view arrival.now)) self.new }
        ensures ended { StaysEnded self.old self.new }
    {
        let len = write_packet(arrival, &mut self.block);
        self.put(len)
    }

    /// Puts the packet block of a change of gains.
    pub(crate) fn put_change(&mut self, change: &RecordedChange<'_>)
        requires few { length change.now.gains.now ≤ 8192 }
        ensures puts { Puts self.old
            (change_block change.now.interface change.now.nanoseconds (change_view change.now)) self.new }
        ensures ended { StaysEnded self.old self.new }
    {
        let len = write_change(change, &mut self.block);
        self.put(len)
    }

    /// Puts the block that says that the studio was closed this many nanoseconds after its opening.
    pub(crate) fn put_closing(&mut self, nanoseconds: u64)
        ensures puts { Puts self.old (closing_block nanoseconds) self.new }
        ensures ended { StaysEnded self.old self.new }
    {
        let len = write_statistics(nanoseconds, &mut self.block);
        self.put(len)
    }

    /// Notes a block that does not fit the format of a record. It ends the record, unless that has ended before.
    pub(crate) fn note_unfit(&mut self)
        ensures unfit { self.old.end ≡ None → Ends Unfit self.old self.new }
        ensures ended { StaysEnded self.old self.new }
    {
        if self.end.is_none() {
            self.end = Some(OutputEnd::Unfit);
        }
    }

    /// Puts the first `len` octets of the buffer as one block, if the ring has space for all of them. The first block
    /// without space ends the record.
    fn put(&mut self, len: usize)
        requires within { len ≤ 32844 }
        ensures puts { Puts self.old (take len self.old.block) self.new }
        ensures ended { StaysEnded self.old self.new }
    {
        // Nothing is put after a block that is missing: a gap would replay as losses that never happened.
        if self.end.is_some() {
            return;
        }
        if self.ring.push_entire_slice(&self.block[..len]).is_err() {
            self.end = Some(OutputEnd::Slow);
        }
    }
}
