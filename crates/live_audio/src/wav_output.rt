//! The WAV file of the mix as an output of a run.
ghost use Rattle.live_audio.specs.Producer.{BeginsProducing};

use crate::channel::AudioChannel;
use crate::parts::AudioParts;
use crate::producer::AudioProducer;
use crate::writer::{AudioWriter, write_audio};
use run_outputs::{
    CreateOutput, CreatedOutput, NoOutput, OneTask, OutputFault, RunStart, SideTask,
};
use std::alloc::Global;
use std::sync::Wait;
use std::time::Clock;
use studio_config::StudioSpec;
use studio_io::{OutputKind, OutputProgress};
use wav_file::{CreateLiveWav, LiveWavFault, WavFiles};

/// The WAV file of a run's mix, which is to be created.
#[derive(Drop)]
pub struct WavOutput<'a, P> {
    /// The creator of its files.
    pub creator: P,
    /// The division of the mix into files, if it is divided.
    pub parts: Option<AudioParts>,
    /// Its progress, which the run sets.
    pub progress: &'a OutputProgress,
}

/// The task that writes the WAV files: the end that takes samples from the ring, the files, and the one that is open.
#[derive(Drop)]
pub struct WavTask<'a, A: WavFiles> {
    writer: AudioWriter<'a>,
    files: A,
    file: A::File,
}

impl<A: WavFiles + Drop> SideTask for WavTask<'_, A> {
    fn complete<R: Wait + Clock>(self, rt: &R, start: &RunStart) {
        let WavTask {
            writer,
            files,
            file,
        } = self;
        let (mut writer, mut files, mut file) = (writer, files, file);
        // The writer itself sets the progress. It ends once the run's end of the ring was dropped.
        let _written = write_audio(rt, &mut writer, &mut files, &mut file);
        start.wait(rt);
    }
}

impl<'a, P: CreateLiveWav + Drop> CreateOutput for WavOutput<'a, P> {
    type Events = NoOutput;

    type Mix = AudioProducer<'a>;

    type Tasks = OneTask<WavTask<'a, P::Audio>>;

    ghost begins = { λ is_controlled studio events mix. BeginsProducing studio mix };

    fn create(
        self,
        alloc: Global,
        studio: &StudioSpec,
        _is_controlled: bool,
    ) -> Result<
        CreatedOutput<NoOutput, AudioProducer<'a>, OneTask<WavTask<'a, P::Audio>>>,
        OutputFault,
    > {
        let WavOutput {
            creator,
            parts,
            progress,
        } = self;
        let AudioChannel { producer, writer } = AudioChannel::new(alloc, studio, parts, progress)?;
        let mut files = creator.wav_files(alloc)?;
        match files.first() {
            Ok(file) => {
                progress.set_writing();
                let task = WavTask {
                    writer,
                    files,
                    file,
                };
                Ok(CreatedOutput {
                    events: NoOutput,
                    mix: producer,
                    tasks: OneTask::new(task),
                })
            }
            Err(fault) => Err(fault_of(fault)),
        }
    }
}

/// Returns the error of a WAV file that could not be created.
fn fault_of(fault: LiveWavFault) -> OutputFault {
    match fault {
        LiveWavFault::Memory => OutputFault::Memory,
        LiveWavFault::Exists => OutputFault::Exists(OutputKind::Wav),
        LiveWavFault::NotCreated => OutputFault::NotCreated(OutputKind::Wav),
    }
}
