//! The observer of a run, which makes a record of the datagrams and of the changes of gains that the run takes.
ghost use Rattle.std.specs.Prelude.{◌≡◌, ◌⊎◌, ◌≤◌, ◌<◌, ◌+◌, ◌^◌, ℕ, [], length, IfSome, None, Some, false, pos, true};
ghost use Rattle.rtrb.specs.Ring.{sent};
ghost use Rattle.pcap_file.specs.RecordedChange.{change_view};
ghost use Rattle.pcap_file.specs.RecordedDatagram.{arrival_view};
ghost use Rattle.live_io.specs.RecordBlocks.{
  IsPacket,
  IsPast,
  IsSince,
  IsUnfit,
  Opens,
  PutsChange,
  PutsClose,
  PutsPacket,
  Sends,
  StaysEnded,
  change_from,
  gains_blocks,
  gains_interface_of,
  path_blocks,
  recorded_of,
  row_blocks,
  stream_blocks,
};

use crate::path_count::path_count;
use crate::record::block_producer::BlockProducer;
use pcap_file::{
    MAX_DATAGRAM_LEN, MAX_RECORDED_GAINS, RecordedChange, RecordedDatagram, RecordedStream,
    nanoseconds_after,
};
use rtp_stream::StreamSpec;
use rtp_wire::Enc;
use rtrb::Producer;
use run_outputs::DatagramOrigin;
use studio_config::StudioSpec;
use studio_io::{OutputEnd, OutputProgress};

/// The letter of a stream's first path.
const FIRST_LETTER: u8 = b'a';

/// The observer that makes the blocks of a record, and counts the datagrams. The record ends before the first block
/// that cannot be written: if the ring is full, the datagram is too long, or a time does not fit 64 bits.
#[derive(Drop)]
pub struct RecordObserver<'a> {
    blocks: BlockProducer,
    /// The progress of the record, in which the reason of its end is set.
    recorded: &'a OutputProgress,
    /// The studio's opening time, in sampling instants.
    open_at: i64,
    /// The number of the interface for changes of gains, if the gains of the run can be changed.
    gains_interface: Option<u32>,
    /// The number of datagrams that arrived, including those after the record's end.
    received: u64,
}

impl<'r> RecordObserver<'r> {
    /// Returns the observer of a run of this studio, and puts the start of the record into the ring: the studio's
    /// opening time, its paths, and an interface for changes of gains if these can be changed.
    pub(crate) fn new(
        ring: Producer<u8>,
        studio: &StudioSpec,
        is_controlled: bool,
        recorded: &'r OutputProgress,
    ) -> RecordObserver<'r>
        requires fresh { sent ring ≡ [] }
        ensures opens { Opens is_controlled studio.now result.blocks }
        ensures interface { result.gains_interface ≡ gains_interface_of is_controlled studio.now.streams }
        ensures open_at { result.open_at ≡ studio.now.open_at }
        ensures none { result.received ≡ 0 }
    {
        let open_at = studio.open_at();
        let mut blocks = BlockProducer::new(ring);
        blocks.put_opening(opening_of(open_at));
        put_streams(&mut blocks, studio.streams());
        let paths = path_count(studio.streams());
        let gains_interface = put_gains_interface(&mut blocks, is_controlled, paths);
        let observer = RecordObserver {
            blocks,
            recorded,
            open_at,
            gains_interface,
            received: 0,
        };
        observer.report_end();
        observer
    }

    /// Returns why the record ended, if it did.
    pub fn end(&self) -> Option<OutputEnd>
        ensures { result ≡ self.now.blocks.end }
    {
        self.blocks.end
    }

    /// Puts the packet block of a datagram that arrived at `time`, in sampling instants, and counts the datagram. It
    /// does not wait: if the block cannot be put, the record ends.
    pub fn record_datagram(&mut self, time: i64, octets: &[u8], origin: &DatagramOrigin)
        ensures puts { PutsPacket self.old.open_at time origin.now octets.now self.old.blocks self.new.blocks }
        ensures ended { StaysEnded self.old.blocks self.new.blocks }
        ensures received { self.old.received + 1 < 2 ^ 64 → self.new.received ≡ self.old.received + 1 }
    {
        self.received = self.received.saturating_add(1);
        self.recorded.set_given(self.received);
        if self.blocks.end.is_some() {
            return;
        }
        match self.arrival(time, octets, origin) {
            Some(arrival) => {
                self.blocks.put_datagram(&arrival);
                self.report_end();
            }
            None => {
                self.blocks.note_unfit();
                self.report_end();
            }
        }
    }

    /// Puts the packet block of a change of gains that was taken at `time`, when the block of number `next_block` was
    /// next: from `at` on these gains are in force, row by row. Both times are in sampling instants. A change is not
    /// counted. It does not wait: if the block cannot be put, the record ends.
    pub fn record_change(&mut self, time: i64, at: i64, next_block: u64, gains: &[i32])
        ensures puts { PutsChange self.old.open_at self.old.gains_interface time at next_block gains.now
            self.old.blocks self.new.blocks }
        ensures ended { StaysEnded self.old.blocks self.new.blocks }
        ensures received { self.new.received ≡ self.old.received }
    {
        if self.blocks.end.is_some() {
            return;
        }
        match self.change(time, at, next_block, gains) {
            Some(change) => {
                self.blocks.put_change(&change);
                self.report_end();
            }
            None => {
                self.blocks.note_unfit();
                self.report_end();
            }
        }
    }

    /// Puts the block of the close, which was at `time`, in sampling instants.
    pub fn record_close(&mut self, time: i64)
        ensures puts { PutsClose self.old.open_at time self.old.blocks self.new.blocks }
        ensures ended { StaysEnded self.old.blocks self.new.blocks }
        ensures received { self.new.received ≡ self.old.received }
    {
        match self.nanoseconds(time) {
            Some(nanoseconds) => {
                self.blocks.put_closing(nanoseconds);
                self.report_end();
            }
            None => {
                self.blocks.note_unfit();
                self.report_end();
            }
        }
    }

    /// Sets the reason of the record's end in its progress, if it has ended.
    fn report_end(&self) {
        if let Some(end) = self.blocks.end {
            self.recorded.set_end(end);
        }
    }

    /// Returns a datagram that arrived at `time` as it is recorded, or `None` if it cannot be written.
    fn arrival<'a>(
        &self,
        time: i64,
        octets: &'a [u8],
        origin: &DatagramOrigin,
    ) -> Option<RecordedDatagram<'a>>
        ensures few { IfSome result (λ arrival. length arrival.octets.now ≤ 2048) }
        ensures unfit { result ≡ None → (2048 < length octets.now) ⊎ IsPast self.now.open_at time }
        ensures packet { IfSome result
            (λ arrival. IsPacket self.now.open_at time origin.now octets.now (arrival_view arrival)) }
    {
        if octets.len() > MAX_DATAGRAM_LEN {
            return None;
        }
        let nanoseconds = self.nanoseconds(time)?;
        let (source, destination) = (&origin.source, &origin.destination);
        Some(RecordedDatagram {
            interface: origin.path_index,
            nanoseconds,
            source: *source.ip(),
            source_port: source.port(),
            destination: *destination.ip(),
            destination_port: destination.port(),
            octets,
        })
    }

    /// Returns a change of gains that was taken at `time` as it is recorded, or `None` if it cannot be written.
    fn change<'a>(
        &self,
        time: i64,
        at: i64,
        next_block: u64,
        gains: &'a [i32],
    ) -> Option<RecordedChange<'a>>
        ensures few { IfSome result (λ change. length change.gains.now ≤ 8192) }
        ensures unfit { result ≡ None → IsUnfit self.now.open_at self.now.gains_interface time at gains.now }
        ensures interface { IfSome result (λ change. self.now.gains_interface ≡ Some change.interface) }
        ensures since { IfSome result (λ change. IsSince self.now.open_at time change.nanoseconds) }
        ensures view { IfSome result
            (λ change. change_view change ≡ change_from self.now.open_at at next_block gains.now) }
    {
        if gains.len() > MAX_RECORDED_GAINS {
            return None;
        }
        let interface = self.gains_interface?;
        let nanoseconds = self.nanoseconds(time)?;
        let at = at.checked_sub(self.open_at)?;
        Some(RecordedChange {
            interface,
            nanoseconds,
            at,
            next_block,
            gains,
        })
    }

    /// Returns the nanoseconds from the opening to `time`, or `None` if `time` is before the opening or 64 bits do not
    /// hold them.
    fn nanoseconds(&self, time: i64) -> Option<u64>
        ensures since { IfSome result (λ nanoseconds. IsSince self.now.open_at time nanoseconds) }
        ensures past { result ≡ None → IsPast self.now.open_at time }
    {
        let instants = time.checked_sub(self.open_at)?;
        nanoseconds_after(u64::try_from(instants).ok()?)
    }
}

/// Returns an opening time, which is not below 0, as an unsigned number.
fn opening_of(open_at: i64) -> u64
    ensures { (at : ℕ) → open_at ≡ pos at → result ≡ at }
{
    // A studio's opening time is not below 0, so the 0 is never used.
    u64::try_from(open_at).unwrap_or(0)
}

/// Puts the description of the interface for changes of gains, if these can be changed. Returns its number, which is
/// that of all paths.
fn put_gains_interface(blocks: &mut BlockProducer, is_controlled: bool, paths: u32) -> Option<u32>
    ensures sends { Sends blocks.old (gains_blocks is_controlled) blocks.new }
    ensures ended { StaysEnded blocks.old blocks.new }
    ensures put { is_controlled ≡ true → result ≡ Some paths }
    ensures none { is_controlled ≡ false → result ≡ None }
{
    if !is_controlled {
        return None;
    }
    blocks.put_gains_interface();
    Some(paths)
}

/// Puts the descriptions of all paths of the streams.
fn put_streams(blocks: &mut BlockProducer, streams: &[StreamSpec])
    requires few { length streams.now ≤ 16 }
    ensures sends { Sends blocks.old (path_blocks 0 streams.now) blocks.new }
    ensures ended { StaysEnded blocks.old blocks.new }
{
    // Loops over numbers here and in `put_rows`: their invariants speak of the paths below the number.
    for number in 0..streams.len() {
        put_paths(blocks, number as u16, &streams[number]);
    }
}

/// Puts the descriptions of a stream's paths.
fn put_paths(blocks: &mut BlockProducer, number: u16, stream: &StreamSpec)
    ensures sends { Sends blocks.old (stream_blocks number stream.now) blocks.new }
    ensures ended { StaysEnded blocks.old blocks.new }
{
    let description = recorded_stream(stream).description();
    put_rows(blocks, number, stream.paths(), description.as_slice());
}

/// Puts the descriptions of the first `count` paths of a stream.
fn put_rows(blocks: &mut BlockProducer, stream: u16, count: u8, description: &[u8])
    requires few { count < 5 }
    requires short { length description.now ≤ 64 }
    ensures sends { Sends blocks.old (row_blocks stream description.now count) blocks.new }
    ensures ended { StaysEnded blocks.old blocks.new }
{
    for path in 0..count {
        blocks.put_interface(stream, FIRST_LETTER + path, description);
    }
}

/// Returns the configuration of a stream as a record has it.
fn recorded_stream(stream: &StreamSpec) -> RecordedStream
    ensures { result ≡ recorded_of stream.now }
{
    RecordedStream {
        bits: match stream.enc() {
            Enc::L16 => 16,
            Enc::L24 => 24,
        },
        channels: stream.channels(),
        frames: stream.frames(),
        pt: stream.pt(),
        paths: stream.paths(),
    }
}
