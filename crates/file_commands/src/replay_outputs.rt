//! The files that `replay` writes in addition to its report.
ghost use Rattle.std.specs.Prelude.{[], IfOk};
ghost use Rattle.wav_runs.specs.WavObserver.{HasSoundedIf};
ghost use Rattle.wav_runs.specs.StreamObserver.{HasFollowedIf};

use crate::chart_observer::ChartObserver;
use crate::fault::CommandFault;
use crate::host::{Host, begin_fault_line};
use crate::stream_output::{end_stream_wav, stream_wav_result};
use command_line::ReplayArgs;
use mix_packets::OutSpec;
use pcap_file::CaptureFault;
use pcap_replay::ReplayObserver;
use reception_chart::Extent;
use rtp_stream::Path;
use std::io::Write;
use studio_run::write_text;
use wav_file::{FileFault, Overwrite};
use wav_runs::{StreamWav, WavObserver};

/// The observer of a replay: the WAV files of the mix and of a stream and the trackers of the chart, each if it is
/// asked for.
#[derive(Drop)]
pub(crate) struct ReplayOutputs<F: Overwrite> {
    pub(crate) wav: Option<WavObserver<F>>,
    pub(crate) stream: Option<StreamWav<F>>,
    pub(crate) chart: Option<ChartObserver<Extent>>,
}

/// A replay whose report and WAV files were written: the observer of the chart's first pass, and the fault of a
/// record's last block, if it is cut.
#[derive(Drop)]
pub(crate) struct Played {
    pub(crate) chart: Option<ChartObserver<Extent>>,
    pub(crate) cut: Option<CaptureFault>,
}

impl<F: Overwrite + Drop> ReplayObserver for ReplayOutputs<F> {
    // Contracts follow the WAV files alone. The chart is outside them.
    ghost heard = { λ begun now events datagrams. HasSoundedIf begun.wav now.wav events datagrams
        × HasFollowedIf begun.stream now.stream events datagrams };

    fn arrived(&mut self, stream: usize, path: Path, octets: &[u8]) {
        self.wav.arrived(stream, path, octets);
        self.stream.arrived(stream, path, octets);
        self.chart.arrived(stream, path, octets);
    }

    fn read(&mut self, time: i64) {
        self.wav.read(time);
        self.stream.read(time);
        self.chart.read(time);
    }

    fn closed(&mut self) {
        self.wav.closed();
        self.stream.closed();
        self.chart.closed();
    }

    fn output(&mut self, datagram: &[u8]) {
        self.wav.output(datagram);
        self.stream.output(datagram);
    }
}

impl<F: Overwrite + Drop> ReplayOutputs<F> {
    /// Completes the WAV files after a report, or after the fault that ended it. Returns the first fault: of the
    /// report, of the mix's file, or of the stream's.
    pub(crate) fn finish<E: Write>(
        self,
        played: Result<Option<CaptureFault>, CommandFault>,
        args: &ReplayArgs<'_>,
        faults: &mut E,
    ) -> Result<Played, CommandFault> {
        let ReplayOutputs { wav, stream, chart } = self;
        match finish_files(wav, stream, played, args, faults) {
            Ok(cut) => Ok(Played { chart, cut }),
            Err(fault) => Err(fault),
        }
    }
}

/// Completes the WAV files after a report, and returns what the report did, or the first fault of a file behind it.
fn finish_files<F: Overwrite + Drop, E: Write>(
    wav: Option<WavObserver<F>>,
    stream: Option<StreamWav<F>>,
    played: Result<Option<CaptureFault>, CommandFault>,
    args: &ReplayArgs<'_>,
    faults: &mut E,
) -> Result<Option<CaptureFault>, CommandFault> {
    let ended = end_stream_wav(stream, played.is_ok());
    let cut = finish_wav(wav, played, args.wav, faults)?;
    let path = args.wav_stream.map(|wav| wav.file);
    stream_wav_result(ended, path, faults)?;
    Ok(cut)
}

/// Creates the mix's WAV file and writes its header, if there is a path for it.
pub(crate) fn create_wav<H: Host>(
    host: &H,
    path: Option<&str>,
    output: &OutSpec,
    faults: &mut H::Stderr,
) -> Result<Option<WavObserver<H::Target>>, CommandFault>
    ensures { IfOk result (λ wav. HasSoundedIf wav wav [] []) }
{
    let Some(path) = path else {
        return Ok(None);
    };
    let created = match host.create(path) {
        Ok(file) => WavObserver::begin(file, output),
        Err(fault) => Err(fault),
    };
    match created {
        Ok(wav) => Ok(Some(wav)),
        Err(fault) => Err(file_fault("wav", path, fault, faults)),
    }
}

/// Completes the mix's WAV file after a report, or after the fault that ended the report. Returns what the report did,
/// or the fault of the file.
fn finish_wav<F: Overwrite + Drop, E: Write>(
    wav: Option<WavObserver<F>>,
    played: Result<Option<CaptureFault>, CommandFault>,
    path: Option<&str>,
    faults: &mut E,
) -> Result<Option<CaptureFault>, CommandFault> {
    let (Some(wav), Some(path)) = (wav, path) else {
        return played;
    };
    // The report's fault came first, so it is returned, whatever becomes of the file.
    if played.is_err() {
        let _ = wav.break_off();
        return played;
    }
    match wav.finish() {
        Ok(_file) => played,
        Err(fault) => Err(file_fault("wav", path, fault, faults)),
    }
}

/// Writes a chart to a new file at a path.
pub(crate) fn write_chart<H: Host>(
    host: &H,
    path: &str,
    chart: &[u8],
    faults: &mut H::Stderr,
) -> Result<(), CommandFault> {
    let written = match host.create(path) {
        Ok(mut file) => write_to(&mut file, chart),
        Err(fault) => Err(fault),
    };
    match written {
        Ok(()) => Ok(()),
        Err(fault) => Err(file_fault("chart", path, fault, faults)),
    }
}

/// Writes a chart's text to its file.
fn write_to<W: Write>(file: &mut W, chart: &[u8]) -> Result<(), FileFault> {
    match write_text(file, chart) {
        Ok(()) => Ok(()),
        Err(_) => Err(FileFault::Write),
    }
}

/// Writes the path of a file to `faults`, and returns the fault that its line goes on with.
pub(crate) fn file_fault<E: Write>(
    word: &str,
    path: &str,
    fault: FileFault,
    faults: &mut E,
) -> CommandFault {
    begin_fault_line(word, path, faults);
    CommandFault::Wav(fault)
}
