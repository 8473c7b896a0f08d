//! The record of a run, with its two ends. `observer` is the end in the run's thread, and `writer` that in a thread of
//! its own, which writes to a `file`. `block_producer` puts the observer's blocks into the ring between them. `output`
//! makes the record an output of a run.
ghost use Rattle.std.specs.Prelude.{◌≡◌, [], Some, IfOk};
ghost use Rattle.live_io.specs.Paths.{path_total};
ghost use Rattle.live_io.specs.RecordBlocks.{Opens, gains_interface_of};
ghost use Rattle.live_io.specs.RecordWriter.{HasWritten};

use crate::path_count::path_count;
use crate::record::observer::RecordObserver;
use crate::record::writer::RecordWriter;
use rtrb::RingBuffer;
use std::alloc::{AllocError, Global};
use studio_config::StudioSpec;
use studio_io::OutputProgress;

pub(crate) mod block_producer;
pub(crate) mod file;
pub(crate) mod observer;
pub(crate) mod output;
pub(crate) mod writer;

/// The number of octets that the ring of a record holds.
// 8 MiB, so that a file that is slow for a while does not end the record: the run's thread does not wait for it.
const RING_OCTETS: usize = 8 << 20;

/// The two ends of a record, over one ring.
#[derive(Drop)]
pub struct RecordChannel<'a> {
    /// The end that makes blocks of the datagrams and of the changes of gains of a run.
    pub observer: RecordObserver<'a>,
    /// The end that writes these blocks to the file.
    pub writer: RecordWriter<'a>,
}

impl<'a> RecordChannel<'a> {
    /// Returns the two ends of the record of a run of this studio, whose section header and interfaces are in the ring.
    /// Only if the gains of the run can be changed while it goes on, there is an interface for their changes. Both ends
    /// set their part of `recorded`. Returns `AllocError` if an allocation fails.
    pub fn new(
        alloc: Global,
        studio: &StudioSpec,
        is_controlled: bool,
        recorded: &'a OutputProgress,
    ) -> Result<RecordChannel<'a>, AllocError>
        ensures empty { IfOk result (λ channel. HasWritten (Some []) channel.writer) }
        ensures opens { IfOk result (λ channel. Opens is_controlled studio.now channel.observer.blocks) }
        ensures interface { IfOk result (λ channel.
            channel.observer.gains_interface ≡ gains_interface_of is_controlled studio.now.streams) }
        ensures open_at { IfOk result (λ channel. channel.observer.open_at ≡ studio.now.open_at) }
        ensures paths { IfOk result (λ channel. channel.writer.paths ≡ path_total studio.now.streams) }
    {
        let (producer, consumer) = RingBuffer::new(alloc, RING_OCTETS)?;
        let paths = path_count(studio.streams());
        let writer = RecordWriter::new(alloc, consumer, paths, recorded)?;
        Ok(RecordChannel {
            observer: RecordObserver::new(producer, studio, is_controlled, recorded),
            writer,
        })
    }
}
