//! The record as an output of a run.
ghost use Rattle.std.specs.Prelude.{◌≡◌};
ghost use Rattle.live_io.specs.RecordBlocks.{
  BeginsRecord,
  PutsChange,
  PutsClose,
  PutsPacket,
  StaysEnded,
  record_end,
};

use crate::record::RecordChannel;
use crate::record::file::{CreateRecord, RecordFault, RecordFile};
use crate::record::observer::RecordObserver;
use crate::record::writer::{RecordWriter, write_record};
use run_outputs::{
    ArrivedDatagram, CreateOutput, CreatedOutput, EventOutput, NoOutput, OneTask, OutputFault,
    RunStart, SideTask, TakenChange,
};
use std::alloc::Global;
use std::sync::Wait;
use std::time::Clock;
use studio_config::StudioSpec;
use studio_io::{OutputEnd, OutputKind, OutputProgress};

/// The record of a run, which is to be created.
#[derive(Drop)]
pub struct RecordOutput<'a, P> {
    /// The creator of its file.
    pub creator: P,
    /// Its progress, which the run sets.
    pub progress: &'a OutputProgress,
}

/// The task that writes a record: the end that takes its blocks from the ring, and the file.
#[derive(Drop)]
pub struct RecordTask<'a, D> {
    writer: RecordWriter<'a>,
    file: D,
}

impl<D: RecordFile + Drop> SideTask for RecordTask<'_, D> {
    fn complete<R: Wait + Clock>(self, rt: &R, start: &RunStart) {
        let RecordTask { writer, file } = self;
        let (mut writer, mut file) = (writer, file);
        // The writer itself sets the record's progress. It ends once the observer was dropped.
        let _written = write_record(rt, &mut writer, &mut file);
        start.wait(rt);
    }
}

impl EventOutput for RecordObserver<'_> {
    ghost arrives = { λ old datagram new.
        PutsPacket old.open_at datagram.time datagram.origin datagram.octets old.blocks new.blocks
        × StaysEnded old.blocks new.blocks };

    ghost changes = { λ old change new.
        PutsChange old.open_at old.gains_interface change.time change.at change.next_block change.gains old.blocks
        new.blocks × StaysEnded old.blocks new.blocks };

    ghost closes = { λ old time new.
        PutsClose old.open_at time old.blocks new.blocks × StaysEnded old.blocks new.blocks };

    ghost ended = { λ observer kind. record_end kind observer.blocks };

    fn needs_addresses(&self) -> bool {
        true
    }

    fn arrived(&mut self, datagram: &ArrivedDatagram<'_>) {
        self.record_datagram(datagram.time, datagram.octets, &datagram.origin);
    }

    fn changed(&mut self, change: &TakenChange<'_>) {
        self.record_change(change.time, change.at, change.next_block, change.gains);
    }

    fn closed(&mut self, time: i64) {
        self.record_close(time);
    }

    fn end_of(&self, kind: OutputKind) -> Option<OutputEnd> {
        match kind {
            OutputKind::Record => self.end(),
            OutputKind::Wav | OutputKind::Pcm => None,
        }
    }
}

impl<'a, P: CreateRecord + Drop> CreateOutput for RecordOutput<'a, P> {
    type Events = RecordObserver<'a>;

    type Mix = NoOutput;

    type Tasks = OneTask<RecordTask<'a, P::File>>;

    ghost begins = { λ is_controlled studio events mix. BeginsRecord is_controlled studio events };

    fn create(
        self,
        alloc: Global,
        studio: &StudioSpec,
        is_controlled: bool,
    ) -> Result<
        CreatedOutput<RecordObserver<'a>, NoOutput, OneTask<RecordTask<'a, P::File>>>,
        OutputFault,
    > {
        let RecordOutput { creator, progress } = self;
        let channel = RecordChannel::new(alloc, studio, is_controlled, progress)?;
        let RecordChannel { observer, writer } = channel;
        match creator.create() {
            Ok(file) => {
                progress.set_writing();
                Ok(CreatedOutput {
                    events: observer,
                    mix: NoOutput,
                    tasks: OneTask::new(RecordTask { writer, file }),
                })
            }
            Err(fault) => Err(fault_of(fault)),
        }
    }
}

/// Returns the error of a record that could not be created.
fn fault_of(fault: RecordFault) -> OutputFault {
    match fault {
        RecordFault::Memory => OutputFault::Memory,
        RecordFault::Exists => OutputFault::Exists(OutputKind::Record),
        RecordFault::NotCreated => OutputFault::NotCreated(OutputKind::Record),
    }
}
