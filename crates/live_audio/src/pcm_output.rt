//! The raw PCM of the mix as an output of a run.
ghost use Rattle.live_audio.specs.PcmProducer.{BeginsPcm};

use crate::pcm_channel::PcmChannel;
use crate::pcm_producer::PcmProducer;
use crate::pcm_writer::{PcmWriter, write_pcm};
use run_outputs::{
    CreateOutput, CreatedOutput, NoOutput, OneTask, OutputFault, RunStart, SideTask,
};
use std::alloc::Global;
use std::sync::Wait;
use std::time::Clock;
use studio_config::StudioSpec;
use studio_io::{OutputKind, OutputProgress};
use wav_file::{CreatePcm, PcmFault, PcmOutput};

/// The raw PCM of a run's mix, which is to be opened.
#[derive(Drop)]
pub struct RawPcmOutput<'a, P> {
    /// The opener of the pipe, FIFO or file to which it goes.
    pub creator: P,
    /// Its progress, which the run sets.
    pub progress: &'a OutputProgress,
}

/// The task that writes raw PCM: the end that takes samples from the ring, and the pipe, FIFO or file.
#[derive(Drop)]
pub struct PcmTask<'a, D> {
    writer: PcmWriter<'a>,
    output: D,
}

impl<D: PcmOutput + Drop> SideTask for PcmTask<'_, D> {
    fn complete<R: Wait + Clock>(self, rt: &R, start: &RunStart) {
        let PcmTask { writer, output } = self;
        let (mut writer, mut output) = (writer, output);
        // The writer itself sets the progress. It ends once the run's end of the ring was dropped.
        let _written = write_pcm(rt, &mut writer, &mut output);
        start.wait(rt);
    }
}

impl<'a, P: CreatePcm + Drop> CreateOutput for RawPcmOutput<'a, P> {
    type Events = NoOutput;

    type Mix = PcmProducer<'a>;

    type Tasks = OneTask<PcmTask<'a, P::Pcm>>;

    ghost begins = { λ is_controlled studio events mix. BeginsPcm studio mix };

    fn create(
        self,
        alloc: Global,
        studio: &StudioSpec,
        _is_controlled: bool,
    ) -> Result<
        CreatedOutput<NoOutput, PcmProducer<'a>, OneTask<PcmTask<'a, P::Pcm>>>,
        OutputFault,
    > {
        let RawPcmOutput { creator, progress } = self;
        let PcmChannel { producer, writer } = PcmChannel::new(alloc, studio, progress)?;
        match creator.create_pcm(writer.block_len()) {
            Ok(output) => {
                let (mut writer, mut output) = (writer, output);
                progress.set_waiting();
                // Before the run begins, so that an output that needs no reader, or has one, has the mix from its
                // first block on.
                let _ = writer.open(&mut output);
                Ok(CreatedOutput {
                    events: NoOutput,
                    mix: producer,
                    tasks: OneTask::new(PcmTask { writer, output }),
                })
            }
            Err(fault) => Err(fault_of(fault)),
        }
    }
}

/// Returns the error of raw PCM that could not be opened.
fn fault_of(fault: PcmFault) -> OutputFault {
    match fault {
        PcmFault::Memory => OutputFault::Memory,
        PcmFault::Exists => OutputFault::Exists(OutputKind::Pcm),
        PcmFault::NotCreated => OutputFault::NotCreated(OutputKind::Pcm),
    }
}
