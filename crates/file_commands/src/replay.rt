//! A replay: its capture is read, and its report and files are written.
ghost use Rattle.std.specs.Prelude.{◌≡◌, [], None, IfOk};
ghost use Rattle.wav_runs.specs.StreamObserver.{HasFollowedIf};
ghost use Rattle.wav_runs.specs.WavObserver.{HasSoundedIf};

use crate::chart_observer::ChartObserver;
use crate::config::{read_gains, studio_of};
use crate::fault::{CaptureInputFault, CommandFault};
use crate::host::{Host, open_capture};
use crate::replay_input::{PeekedInput, fault_behind, read_front};
use crate::replay_outputs::{Played, ReplayOutputs, create_wav, write_chart};
use crate::replay_source::{ReplaySource, front_source, source_of};
use crate::stream_output::{NumberedFile, check_stream, create_stream_wav};
use command_line::ReplayArgs;
use pcap_file::CaptureFault;
use pcap_replay::ReplayObserver;
use reception_chart::{Extent, StudioTracker};
use std::alloc::Global;
use std::io;
use std::io::Write;
use studio_config::StudioSpec;

/// A replay: the host of its files, its arguments, and the stream whose own WAV file is asked for.
// What is owned is passed by value to one call, and by reference to all others: a function that holds a studio or the
// outputs across several `?` takes long to prove.
#[derive(Drop)]
pub(crate) struct Replay<'a, H> {
    pub(crate) host: &'a H,
    pub(crate) alloc: Global,
    pub(crate) args: &'a ReplayArgs<'a>,
    pub(crate) stream: Option<NumberedFile<'a>>,
}

impl<H: Host> Replay<'_, H> {
    /// Reads the configuration at a path and the file of gains, and replays the capture.
    pub(crate) fn run(
        &self,
        config: &str,
        input: &mut H::Stdin,
        output: &mut H::Stdout,
        faults: &mut H::Stderr,
    ) -> Result<(), CommandFault> {
        let studio = studio_of(self.host, self.alloc, config)?;
        let gains = gains_of(self.host, self.alloc, self.args.gains)?;
        self.run_studio(studio, gains.as_slice(), input, output, faults)
    }

    /// Replays the capture by a studio and a text of gains.
    fn run_studio(
        &self,
        studio: StudioSpec,
        gains: &[u8],
        input: &mut H::Stdin,
        output: &mut H::Stdout,
        faults: &mut H::Stderr,
    ) -> Result<(), CommandFault> {
        check_stream(self.stream, &studio, faults)?;
        if self.args.is_stdin() {
            self.replay_input(studio, gains, input, output, faults)
        } else {
            let source = source_of(self.host, self.alloc, studio, gains, self.args)?;
            self.replay_file(&source, output, faults)
        }
    }

    /// Writes the report of the record on standard input, and the WAV files that are asked for.
    fn replay_input(
        &self,
        studio: StudioSpec,
        gains: &[u8],
        input: &mut H::Stdin,
        output: &mut H::Stdout,
        faults: &mut H::Stderr,
    ) -> Result<(), CommandFault> {
        let front = read_front(self.alloc, input)?;
        let octets = front.octets.as_slice();
        match front_source(self.alloc, studio, octets, gains, self.args) {
            Ok(source) => {
                let mut input = PeekedInput::new(octets, input);
                self.replay_peeked(&source, &mut input, output, faults)
            }
            Err(fault) => Err(fault_behind(&front, fault)),
        }
    }

    /// Writes the report of the record on standard input, whose first octets were already read, and the WAV files that
    /// are asked for.
    fn replay_peeked(
        &self,
        source: &ReplaySource,
        input: &mut PeekedInput<'_, H::Stdin>,
        output: &mut H::Stdout,
        faults: &mut H::Stderr,
    ) -> Result<(), CommandFault> {
        let mut outputs = self.create_outputs(&source.studio, faults)?;
        let played = source.play(self.alloc, input, output, &mut outputs);
        let played = outputs.finish(played, self.args, faults)?;
        cut_result(played.cut)
    }

    /// Writes the report of the capture in a file, and the WAV files and the chart that are asked for.
    fn replay_file(
        &self,
        source: &ReplaySource,
        output: &mut H::Stdout,
        faults: &mut H::Stderr,
    ) -> Result<(), CommandFault> {
        let mut outputs = self.create_outputs(&source.studio, faults)?;
        let played = self.play_file(source, output, &mut outputs);
        let played = outputs.finish(played, self.args, faults)?;
        self.draw(source, &played.chart, faults)?;
        cut_result(played.cut)
    }

    /// Creates the WAV files that are asked for, and returns them with the observer of the chart, if there is a chart.
    fn create_outputs(
        &self,
        studio: &StudioSpec,
        faults: &mut H::Stderr,
    ) -> Result<ReplayOutputs<H::Target>, CommandFault>
        ensures { IfOk result (λ files. HasSoundedIf files.wav files.wav [] []
            × HasFollowedIf files.stream files.stream [] []) }
    {
        let chart = self.measured_chart(studio)?;
        let wav = create_wav(self.host, self.args.wav, studio.output(), faults)?;
        let stream = create_stream_wav(self.host, self.alloc, self.stream, studio, faults)?;
        Ok(ReplayOutputs { wav, stream, chart })
    }

    /// Returns the observer of the chart's first pass, if there is a chart.
    fn measured_chart(
        &self,
        studio: &StudioSpec,
    ) -> Result<Option<ChartObserver<Extent>>, CommandFault> {
        match self.args.chart {
            Some(_) => Ok(Some(ChartObserver {
                streams: StudioTracker::measure(self.alloc, studio)?,
            })),
            None => Ok(None),
        }
    }

    /// Writes the report of the capture in the file, and reports each event and each datagram to an observer. Returns
    /// the fault of a record's last block, if it is cut.
    fn play_file<W: Write, L: ReplayObserver>(
        &self,
        source: &ReplaySource,
        output: &mut W,
        observer: &mut L,
    ) -> Result<Option<CaptureFault>, CommandFault>
        requires fresh { L.heard observer.old observer.old [] [] }
    {
        let mut input = open_capture(self.host, self.args.file)?;
        source.play(self.alloc, &mut input, output, observer)
    }

    /// Writes the chart of what the streams received, if there is one.
    fn draw(
        &self,
        source: &ReplaySource,
        measured: &Option<ChartObserver<Extent>>,
        faults: &mut H::Stderr,
    ) -> Result<(), CommandFault> {
        let (Some(path), Some(measured)) = (self.args.chart, measured) else {
            return Ok(());
        };
        let svg = self.drawn(source, measured)?;
        write_chart(self.host, path, svg.as_slice(), faults)
    }

    /// Plays the capture in the file again, and returns the chart of what its streams received.
    fn drawn(
        &self,
        source: &ReplaySource,
        measured: &ChartObserver<Extent>,
    ) -> Result<Vec<u8>, CommandFault> {
        // The first pass measured the span of each stream's media time, which the chart's bins divide, so only this
        // second pass can fill the bins. Its report was written by the first.
        let mut chart = measured.for_drawing(self.alloc, &source.studio)?;
        self.play_file(source, &mut io::sink(), &mut chart)?;
        Ok(chart.streams.svg(self.alloc)?)
    }
}

/// Returns the text of the file of gains at a path. Without a path the text is empty, which changes nothing.
fn gains_of<H: Host>(host: &H, alloc: Global, path: Option<&str>) -> Result<Vec<u8>, CommandFault>
    ensures { path.entry ≡ None → IfOk result (λ text. text.items ≡ []) }
{
    match path {
        Some(path) => read_gains(host, alloc, path),
        None => Ok(Vec::new(alloc)),
    }
}

/// Returns the fault of a record's last block as the command's, if the block is cut.
fn cut_result(cut: Option<CaptureFault>) -> Result<(), CommandFault> {
    match cut {
        Some(fault) => Err(CommandFault::Capture(CaptureInputFault::Octet(fault))),
        None => Ok(()),
    }
}
